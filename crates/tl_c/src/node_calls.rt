//! The calls with a node of a document.
ghost use Rattle.std.specs.Prelude.{◌≡◌, ◌≢◌, None};
ghost use Rattle.tl_c.specs.Queries.{AreTrees, number_or_none, outcome_of_some, rows_held, source_in, tree_in};
ghost use Rattle.tl_c.specs.Nodes.{PutsSource, kind_in, markup_in, name_in, namespace_in, number_of_kind, number_of_namespace, pairs_in, position_at, text_in, value_in};
ghost use Rattle.tl_c.specs.Puts.{Puts};
ghost use Rattle.tl_c.specs.declared.markup.Markup.TheVariants.{Inner, Outer};
ghost use Rattle.tl_dom_spec.specs.HtmlForest.{HtmlForest};
ghost use Rattle.tl_page.specs.Outcome.{success};
ghost use Rattle.tl_tree.specs.Asked.{end_at, first_child_at, next_sibling_at, parent_at};
ghost use Rattle.tl_tree.specs.Below.{previous_sibling_at};

use crate::attribute::{pairs, value};
use crate::copy_out::{copy_result, copy_value, put_source};
use crate::document::Document;
use crate::markup::{Markup, markup_of, text_of_node};
use crate::node::{kind, name, namespace, source};
use crate::position::{Position, number};
use std::alloc::Global;

/// What a node is: an element (1), a text (2), a comment (3), a doctype (4) or the contents of a
/// `template` (5), or 0 where there is no such node.
#[unsafe(no_mangle)]
pub extern "C" fn tl_node_kind(alloc: Global, document: &mut Document, node: u32) -> u8
    ensures same { document.new.held ≡ document.old.held }
    ensures kind { result ≡ number_of_kind (kind_in node document.old.held) }
{
    let held = document.replace(alloc, None);
    let kind = kind(&held, node);
    let _nothing = document.replace(alloc, held);
    kind
}

/// The namespace of an element: HTML (1), SVG (2) or MathML (3), or 0 where there is no such
/// element.
#[unsafe(no_mangle)]
pub extern "C" fn tl_node_namespace(alloc: Global, document: &mut Document, node: u32) -> u8
    ensures same { document.new.held ≡ document.old.held }
    ensures namespace { result ≡ number_of_namespace (namespace_in node document.old.held) }
{
    let held = document.replace(alloc, None);
    let namespace = namespace(&held, node);
    let _nothing = document.replace(alloc, held);
    namespace
}

// The number of a node around a node, or 4294967295 where there is none.
fn stands_at(alloc: Global, document: &mut Document, node: u32, position: Position) -> u32
    ensures same { document.new.held ≡ document.old.held }
    ensures number { let rows = rows_held document.old.held in
        result ≡ number_or_none (position_at position rows node) }
{
    let held = document.replace(alloc, None);
    let number = number(&held, node, position);
    let _nothing = document.replace(alloc, held);
    number
}

/// The number of the node that a node stands in, or 4294967295 where there is none.
#[unsafe(no_mangle)]
pub extern "C" fn tl_node_parent(alloc: Global, document: &mut Document, node: u32) -> u32
    ensures same { document.new.held ≡ document.old.held }
    ensures number { let rows = rows_held document.old.held in
        result ≡ number_or_none (parent_at rows node) }
{
    stands_at(alloc, document, node, Position::Parent)
}

/// The number of the first child of a node, or 4294967295 where there is none.
#[unsafe(no_mangle)]
pub extern "C" fn tl_node_first_child(alloc: Global, document: &mut Document, node: u32) -> u32
    ensures same { document.new.held ≡ document.old.held }
    ensures number { let rows = rows_held document.old.held in
        result ≡ number_or_none (first_child_at rows node) }
{
    stands_at(alloc, document, node, Position::FirstChild)
}

/// The number of the node behind a node in what it stands in, or 4294967295 where there is none.
#[unsafe(no_mangle)]
pub extern "C" fn tl_node_next_sibling(alloc: Global, document: &mut Document, node: u32) -> u32
    ensures same { document.new.held ≡ document.old.held }
    ensures number { let rows = rows_held document.old.held in
        result ≡ number_or_none (next_sibling_at rows node) }
{
    stands_at(alloc, document, node, Position::NextSibling)
}

/// The number of the node before a node in what it stands in, or 4294967295 where there is none.
#[unsafe(no_mangle)]
pub extern "C" fn tl_node_previous_sibling(alloc: Global, document: &mut Document, node: u32) -> u32
    ensures same { document.new.held ≡ document.old.held }
    ensures number { let rows = rows_held document.old.held in
        result ≡ number_or_none (previous_sibling_at rows node) }
{
    stands_at(alloc, document, node, Position::PreviousSibling)
}

/// The number behind the last node below a node, or 4294967295 where there is no such node.
#[unsafe(no_mangle)]
pub extern "C" fn tl_node_end(alloc: Global, document: &mut Document, node: u32) -> u32
    ensures same { document.new.held ≡ document.old.held }
    ensures number { let rows = rows_held document.old.held in
        result ≡ number_or_none (end_at rows node) }
{
    stands_at(alloc, document, node, Position::End)
}

/// The bytes of the page that a node comes from, from `start` up to `end`. Where it comes from
/// none, and where there is no such node, that is refused, and both are 0.
#[unsafe(no_mangle)]
pub extern "C" fn tl_node_source(
    alloc: Global,
    document: &mut Document,
    node: u32,
    start: &mut usize,
    end: &mut usize,
) -> u8
    ensures same { document.new.held ≡ document.old.held }
    ensures put { let source = source_in node document.old.held in
        PutsSource source start.new end.new result }
{
    let held = document.replace(alloc, None);
    let source = source(&held, node);
    let _nothing = document.replace(alloc, held);
    put_source(source, start, end)
}

/// The name of an element. It is refused where there is no such element.
#[unsafe(no_mangle)]
pub extern "C" fn tl_node_name(
    alloc: Global,
    document: &mut Document,
    node: u32,
    out: &mut [u8],
    needed: &mut usize,
) -> u8
    ensures same { document.new.held ≡ document.old.held }
    ensures put { let outcome = outcome_of_some success (name_in node document.old.held) in
        Puts outcome out.old out.new needed.new result }

    // It takes no memory.
    ensures memory { result ≢ 3 }
{
    let held = document.replace(alloc, None);
    let status = copy_value(name(&held, node), out, needed);
    let _nothing = document.replace(alloc, held);
    status
}

/// The value of a node at a key, as keys are serialized. It is refused where the node has no such
/// key, and where there is no such node.
#[unsafe(no_mangle)]
pub extern "C" fn tl_attribute(
    alloc: Global,
    document: &mut Document,
    node: u32,
    key: &[u8],
    out: &mut [u8],
    needed: &mut usize,
) -> u8
    ensures same { document.new.held ≡ document.old.held }
    ensures put { let outcome = outcome_of_some success (value_in node key.now document.old.held) in
        Puts outcome out.old out.new needed.new result }

    // It takes no memory.
    ensures memory { result ≢ 3 }
{
    let held = document.replace(alloc, None);
    let status = copy_value(value(&held, node, key), out, needed);
    let _nothing = document.replace(alloc, held);
    status
}

/// The keys and values of a node in the order of its tag: of each how many bytes the key and the
/// value have, in 8 bytes with the lowest first, and both. It is refused where there is no such
/// node.
#[unsafe(no_mangle)]
pub extern "C" fn tl_node_attributes(
    alloc: Global,
    document: &mut Document,
    node: u32,
    out: &mut [u8],
    needed: &mut usize,
) -> u8
    ensures same { document.new.held ≡ document.old.held }
    ensures put { let outcome = pairs_in node document.old.held in
        Puts outcome out.old out.new needed.new result }

    // Without such a node it takes no memory.
    ensures no_node { tree_in node document.old.held ≡ None → result ≡ 1 }
{
    let held = document.replace(alloc, None);
    let written = pairs(alloc, &held, node);
    let _nothing = document.replace(alloc, held);
    copy_result(written, out, needed)
}

/// What a node says: a text and a comment what they say, any other what the texts below it say. It
/// is refused where there is no such node.
#[unsafe(no_mangle)]
pub extern "C" fn tl_node_text(
    alloc: Global,
    document: &mut Document,
    node: u32,
    out: &mut [u8],
    needed: &mut usize,
) -> u8
    ensures same { document.new.held ≡ document.old.held }
    ensures put { let outcome = text_in node document.old.held in
        Puts outcome out.old out.new needed.new result }

    // Without such a node it takes no memory.
    ensures no_node { tree_in node document.old.held ≡ None → result ≡ 1 }
{
    let held = document.replace(alloc, None);
    let written = text_of_node(alloc, &held, node);
    let _nothing = document.replace(alloc, held);
    copy_result(written, out, needed)
}

// Puts markup of a node into room. It is refused where there is no such node.
fn put_markup(
    alloc: Global,
    document: &mut Document,
    node: u32,
    markup: Markup,
    out: &mut [u8],
    needed: &mut usize,
) -> u8
    ensures same { document.new.held ≡ document.old.held }
    ensures put { (trees : HtmlForest) → AreTrees document.old.held trees →
        let outcome = markup_in markup trees node document.old.held in
        Puts outcome out.old out.new needed.new result }
    ensures no_node { tree_in node document.old.held ≡ None → result ≡ 1 }
{
    let held = document.replace(alloc, None);
    let written = markup_of(alloc, &held, node, markup);
    let _nothing = document.replace(alloc, held);
    copy_result(written, out, needed)
}

/// A node as markup. It is refused where there is no such node.
#[unsafe(no_mangle)]
pub extern "C" fn tl_node_outer_html(
    alloc: Global,
    document: &mut Document,
    node: u32,
    out: &mut [u8],
    needed: &mut usize,
) -> u8
    ensures same { document.new.held ≡ document.old.held }
    ensures put { (trees : HtmlForest) → AreTrees document.old.held trees →
        let outcome = markup_in Outer trees node document.old.held in
        Puts outcome out.old out.new needed.new result }

    // Without such a node it takes no memory.
    ensures no_node { tree_in node document.old.held ≡ None → result ≡ 1 }
{
    put_markup(alloc, document, node, Markup::Outer, out, needed)
}

/// What is inside of a node as markup. It is refused where there is no such node.
#[unsafe(no_mangle)]
pub extern "C" fn tl_node_inner_html(
    alloc: Global,
    document: &mut Document,
    node: u32,
    out: &mut [u8],
    needed: &mut usize,
) -> u8
    ensures same { document.new.held ≡ document.old.held }
    ensures put { (trees : HtmlForest) → AreTrees document.old.held trees →
        let outcome = markup_in Inner trees node document.old.held in
        Puts outcome out.old out.new needed.new result }

    // Without such a node it takes no memory.
    ensures no_node { tree_in node document.old.held ≡ None → result ≡ 1 }
{
    put_markup(alloc, document, node, Markup::Inner, out, needed)
}
