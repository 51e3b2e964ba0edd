//! What is asked of a node of the document that is held, if one is.
ghost use Rattle.std.specs.Prelude.{◌≡◌, option_copied, option_map};
ghost use Rattle.tl_c.specs.Queries.{source_in};
ghost use Rattle.tl_c.specs.Nodes.{kind_in, name_in, namespace_in, number_of_kind, number_of_namespace};

use crate::parsed_page::ParsedPage;
use tl_tree::{Kind, Namespace, Source};

/// The number of a kind in `tl.h`.
pub(crate) fn number_of_kind(kind: Option<Kind>) -> u8
    ensures { result ≡ number_of_kind kind }
{
    match kind {
        None => 0,
        Some(Kind::Element) => 1,
        Some(Kind::Text) => 2,
        Some(Kind::Comment) => 3,
        Some(Kind::Doctype) => 4,
        Some(Kind::Contents) => 5,
    }
}

/// The number of a namespace in `tl.h`.
pub(crate) fn number_of_namespace(namespace: Option<Namespace>) -> u8
    ensures { result ≡ number_of_namespace namespace }
{
    match namespace {
        None => 0,
        Some(Namespace::Html) => 1,
        Some(Namespace::Svg) => 2,
        Some(Namespace::Math) => 3,
    }
}

/// The number of what a node is.
pub(crate) fn kind(held: &Option<Box<ParsedPage>>, node: u32) -> u8
    ensures { let parsed = option_map (λ own. own.value) held.now in
        result ≡ number_of_kind (kind_in node parsed) }
{
    let Some(own) = held else {
        return 0;
    };
    number_of_kind(own.tree.kind(node as usize))
}

/// The number of the namespace of an element.
pub(crate) fn namespace(held: &Option<Box<ParsedPage>>, node: u32) -> u8
    ensures { let parsed = option_map (λ own. own.value) held.now in
        result ≡ number_of_namespace (namespace_in node parsed) }
{
    let Some(own) = held else {
        return 0;
    };
    number_of_namespace(own.tree.namespace(node as usize))
}

/// The name of an element.
pub(crate) fn name(held: &Option<Box<ParsedPage>>, node: u32) -> Option<&[u8]>
    ensures { let parsed = option_map (λ own. own.value) held.now in
        option_copied result ≡ name_in node parsed }
{
    let Some(own) = held else {
        return None;
    };
    own.tree.name(node as usize)
}

/// Where in the page a node comes from.
pub(crate) fn source(held: &Option<Box<ParsedPage>>, node: u32) -> Option<Source>
    ensures { let parsed = option_map (λ own. own.value) held.now in
        result ≡ source_in node parsed }
{
    let Some(own) = held else {
        return None;
    };
    own.tree.source(node as usize)
}
