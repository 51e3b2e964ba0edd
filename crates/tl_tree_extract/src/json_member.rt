//! Members of objects of JSON.
#![tactic(auto, using(crate::proofs::Sinks::after_none, crate::proofs::Sinks::after_both))]

ghost use Rattle.json.specs.Token.{key, string};
ghost use Rattle.std.specs.Option.{option_and_then};
ghost use Rattle.std.specs.Prelude.{None, OnOk, [], flat_map, ◌++◌, ◌∷◌, ◌≡◌};
ghost use Rattle.std.specs.Str.Lossy.{utf8_lossy};
ghost use Rattle.tl_tree.specs.Asked.{attribute_said, attributes_at, name_of, namespace_of, node_at};
ghost use Rattle.tl_tree.specs.Inner.Store.{attribute_space_of};
ghost use Rattle.tl_tree.specs.TreeView.{rows_in};
ghost use Rattle.tl_tree_extract.specs.Inner.Sinks.{after, known_key};
ghost use Rattle.tl_tree_extract.specs.Json.{attribute_member, attributes_member, name_member, namespace_member, number_member, prefix_of, string_member};

use crate::json_sink::{KnownKey, Mark, Sink};
use std::alloc::{AllocError, Global};
use tl_tree::{Attribute, AttributeSpace, Namespace, Tree};

/// Writes a member that is a string.
#[inline(always)]
pub(crate) fn put_text<S: Sink>(
    alloc: Global,
    name: KnownKey,
    bytes: &[u8],
    out: &mut S,
) -> Result<(), AllocError>
    ensures adds { OnOk result
        (S.taken out.new ≡ after (string_member (known_key name) bytes.now) (S.taken out.old)) }
    ensures keeps { S.kept out.new ≡ S.kept out.old }
{
    out.known(name)?;
    out.string(alloc, bytes)
}

/// Writes a member that is a number.
#[inline(always)]
pub(crate) fn put_number<S: Sink>(
    name: KnownKey,
    value: usize,
    out: &mut S,
) -> Result<(), AllocError>
    ensures adds { OnOk result
        (S.taken out.new ≡ after (number_member (known_key name) value) (S.taken out.old)) }
    ensures keeps { S.kept out.new ≡ S.kept out.old }
{
    out.known(name)?;
    out.number(value)
}

// What stands before the key of an attribute that has a namespace.
fn prefix_of(space: AttributeSpace, key: &[u8]) -> &'static [u8]
    ensures { result.now ≡ prefix_of (attribute_space_of space) key.now }
{
    match space {
        AttributeSpace::Plain => b"",
        AttributeSpace::Xlink => b"xlink:",
        AttributeSpace::Xml => b"xml:",
        AttributeSpace::Xmlns => if key == b"xmlns".as_slice() {
            b""
        } else {
            b"xmlns:"
        },
    }
}

// Writes a key behind a prefix.
fn put_prefixed<S: Sink>(
    alloc: Global,
    prefix: &[u8],
    own: &[u8],
    out: &mut S,
) -> Result<(), AllocError>
    ensures adds { OnOk result
        (S.taken out.new ≡ after (key (utf8_lossy (prefix.now ++ own.now)) ∷ []) (S.taken
        out.old)) }
    ensures keeps { S.kept out.new ≡ S.kept out.old }
{
    if prefix.is_empty() {
        return out.key(alloc, own);
    }
    let mut name = Vec::from_slice(alloc, prefix)?;
    name.extend_from_slice(own)?;
    out.key(alloc, name.as_slice())
}

// Writes an attribute.
fn put_attribute<S: Sink>(
    alloc: Global,
    attribute: Attribute<'_>,
    out: &mut S,
) -> Result<(), AllocError>
    ensures adds { OnOk result
        (S.taken out.new ≡ after (attribute_member (attribute_said attribute.entry)) (S.taken
        out.old)) }
    ensures keeps { S.kept out.new ≡ S.kept out.old }
{
    let prefix = prefix_of(attribute.space, attribute.key);
    put_prefixed(alloc, prefix, attribute.key, out)?;
    out.string(alloc, attribute.value)
}

// Writes each attribute of a node.
fn put_each<S: Sink>(
    alloc: Global,
    tree: &Tree<'_>,
    node: usize,
    out: &mut S,
) -> Result<(), AllocError>
    ensures adds { OnOk result (S.taken out.new ≡ after (flat_map attribute_member (attributes_at
        (rows_in tree.now) node)) (S.taken out.old)) }
    ensures keeps { S.kept out.new ≡ S.kept out.old }
{
    for attribute in tree.attributes(node) {
        put_attribute(alloc, attribute, out)?;
    }
    Ok(())
}

/// Writes the attributes of a node in the order of its tag.
pub(crate) fn put_attributes<S: Sink>(
    alloc: Global,
    tree: &Tree<'_>,
    node: usize,
    out: &mut S,
) -> Result<(), AllocError>
    ensures adds { OnOk result (S.taken out.new ≡ after (attributes_member (attributes_at (rows_in
        tree.now) node)) (S.taken out.old)) }
    ensures keeps { S.kept out.new ≡ S.kept out.old }
{
    out.known(KnownKey::Attributes)?;
    out.mark(Mark::BeginObject)?;
    put_each(alloc, tree, node, out)?;
    out.mark(Mark::EndObject)
}

// Writes that a node has no name.
fn put_null<S: Sink>(out: &mut S) -> Result<(), AllocError>
    ensures adds { OnOk result (S.taken out.new ≡ after (name_member None) (S.taken out.old)) }
    ensures keeps { S.kept out.new ≡ S.kept out.old }
{
    out.known(KnownKey::Name)?;
    out.mark(Mark::Null)
}

/// Writes the name of a node: `null` of what is no element.
pub(crate) fn put_name<S: Sink>(
    alloc: Global,
    tree: &Tree<'_>,
    node: usize,
    out: &mut S,
) -> Result<(), AllocError>
    ensures adds { OnOk result (S.taken out.new ≡ after (name_member (option_and_then name_of
        (node_at (rows_in tree.now) node))) (S.taken out.old)) }
    ensures keeps { S.kept out.new ≡ S.kept out.old }
{
    match tree.name(node) {
        Some(name) => put_text(alloc, KnownKey::Name, name, out),
        None => put_null(out),
    }
}

/// Writes a member that is a text of UTF-8.
#[tactic(auto, using(crate::proofs::Lossy::lossy_same, crate::proofs::Sinks::after_both))]
#[inline(always)]
pub(crate) fn put_str<S: Sink>(
    alloc: Global,
    name: KnownKey,
    text: &str,
    out: &mut S,
) -> Result<(), AllocError>
    ensures adds { OnOk result
        (S.taken out.new ≡ after (key (known_key name) ∷ string text.now ∷ []) (S.taken out.old)) }
    ensures keeps { S.kept out.new ≡ S.kept out.old }
{
    out.known(name)?;
    out.string(alloc, text.as_bytes())
}

/// Writes the namespace of an element that is not HTML's.
pub(crate) fn put_namespace<S: Sink>(
    alloc: Global,
    tree: &Tree<'_>,
    node: usize,
    out: &mut S,
) -> Result<(), AllocError>
    ensures adds { OnOk result (S.taken out.new ≡ after (namespace_member (option_and_then
        namespace_of (node_at (rows_in tree.now) node))) (S.taken out.old)) }
    ensures keeps { S.kept out.new ≡ S.kept out.old }
{
    match tree.namespace(node) {
        Some(Namespace::Math) => put_str(alloc, KnownKey::Namespace, "math", out),
        Some(Namespace::Svg) => put_str(alloc, KnownKey::Namespace, "svg", out),
        _ => Ok(()),
    }
}
