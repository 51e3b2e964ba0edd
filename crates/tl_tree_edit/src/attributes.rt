//! Whether a node is another one with its tag changed.
ghost use Rattle.std.specs.Bool.{IsTrue};
ghost use Rattle.std.specs.List.{list_any};
ghost use Rattle.std.specs.Option.{option_map};
ghost use Rattle.std.specs.Prelude.{Some, ◌≡◌, ◌↔◌, ◌∷◌};
ghost use Rattle.tl_tree.specs.Asked.{attribute_said, attributes_at, kind_of, node_at};
ghost use Rattle.tl_tree.specs.TreeView.{rows_in};
ghost use Rattle.tl_tree.specs.declared.kind.Kind.TheVariants.{Element};
ghost use Rattle.tl_tree_edit.specs.Bare.{bare};
ghost use Rattle.tl_tree_edit.specs.Changes.{has_key, plain, with_attributes, with_first, with_name, with_value, without_key};
ghost use Rattle.tl_tree_edit.specs.Inner.Nodes.{IsNamedAlike};
ghost use Rattle.tl_tree_edit.specs.Inner.Walk.{changed_by};
ghost use Rattle.tl_tree_edit.specs.View.{change_of, changes_of};

use crate::change::Change;
use crate::node::{are_same_attributes, is_same_attribute, is_same_node, is_same_text};
use tl_tree::{Attribute, AttributeSpace, Attributes, Kind, Tree};

// Whether an attribute has this key, and no namespace.
fn has_key(attribute: Attribute<'_>, key: &[u8]) -> bool
    ensures { result ≡ has_key key.now (attribute_said attribute.entry) }
{
    match attribute.space {
        AttributeSpace::Plain => attribute.key == key,
        _ => false,
    }
}

// Whether attributes are others without those of a key.
#[tactic(auto, using(crate::proofs::Lists::rest_same, crate::proofs::Lists::firsts_differ))]
fn are_without_key(one: Attributes<'_, '_>, mut other: Attributes<'_, '_>, key: &[u8]) -> bool
    ensures { IsTrue result ↔ without_key key.now one.entry ≡ other.entry }
{
    for own in one {
        if !has_key(own, key) {
            let Some(its) = other.next() else {
                return false;
            };
            if !is_same_attribute(own, its) {
                return false;
            }
        }
    }
    other.next().is_none()
}

// Whether an attribute has this key and this value, and no namespace.
fn is_plain(attribute: Attribute<'_>, key: &[u8], value: &[u8]) -> bool
    ensures { IsTrue result ↔ attribute_said attribute.entry ≡ plain key.now value.now }
{
    match attribute.space {
        AttributeSpace::Plain => attribute.key == key && attribute.value == value,
        _ => false,
    }
}

// Whether one of some attributes has a key.
fn has_any(attributes: Attributes<'_, '_>, key: &[u8]) -> bool
    ensures { result ≡ list_any (has_key key.now) attributes.entry }
{
    for own in attributes {
        if has_key(own, key) {
            return true;
        }
    }
    false
}

// Whether attributes are a plain one, and others behind it.
fn are_behind(
    mut other: Attributes<'_, '_>,
    key: &[u8],
    value: &[u8],
    one: Attributes<'_, '_>,
) -> bool
    ensures { IsTrue result ↔ plain key.now value.now ∷ one.entry ≡ other.entry }
{
    let Some(its) = other.next() else {
        return false;
    };
    if !is_plain(its, key, value) {
        return false;
    }
    are_same_attributes(one, other)
}

// Whether attributes are others with another value at the first of a key.
fn are_with_first(
    mut one: Attributes<'_, '_>,
    mut other: Attributes<'_, '_>,
    key: &[u8],
    value: &[u8],
) -> bool
    ensures { IsTrue result ↔ with_first key.now value.now one.entry ≡ other.entry }
{
    while let Some(own) = one.next() {
        if has_key(own, key) {
            return are_behind(other, key, value, one);
        }
        let Some(its) = other.next() else {
            return false;
        };
        if !is_same_attribute(own, its) {
            return false;
        }
    }
    other.next().is_none()
}

// Whether the attributes of a node are those of another one with a value at a key.
fn are_with_value(
    old: &Tree<'_>,
    number: usize,
    key: &[u8],
    value: &[u8],
    other: Attributes<'_, '_>,
) -> bool
    ensures { IsTrue result
        ↔ with_value key.now value.now (attributes_at (rows_in old.now) number) ≡ other.entry }
{
    if has_any(old.attributes(number), key) {
        return are_with_first(old.attributes(number), other, key, value);
    }
    are_behind(other, key, value, old.attributes(number))
}

// Whether a node is an element.
fn is_element(tree: &Tree<'_>, number: usize) -> bool
    ensures { IsTrue result ↔ option_map kind_of (node_at (rows_in tree.now) number)
        ≡ Some Element }
{
    tree.kind(number) == Some(Kind::Element)
}

// Whether a node is an element of the name of another one.
fn is_named_alike(old: &Tree<'_>, number: usize, new: &Tree<'_>, other: usize) -> bool
    ensures { IsTrue result
        ↔ IsNamedAlike (node_at (rows_in old.now) number) (node_at (rows_in new.now) other) }
{
    if !is_element(new, other) {
        return false;
    }
    if old.namespace(number) != new.namespace(other) {
        return false;
    }
    is_same_text(old.name(number), new.name(other))
}

// Whether a node is another one without a key.
fn has_lost(old: &Tree<'_>, number: usize, key: &[u8], new: &Tree<'_>, other: usize) -> bool
    ensures { IsTrue result ↔ option_map bare (node_at (rows_in new.now) other)
        ≡ option_map bare (option_map
        (with_attributes (without_key key.now))
        (node_at (rows_in old.now) number)) }
{
    if !is_element(old, number) {
        return is_same_node(old, number, new, other);
    }
    if !is_named_alike(old, number, new, other) {
        return false;
    }
    are_without_key(old.attributes(number), new.attributes(other), key)
}

// Whether a node is another one with a value at a key.
fn has_gained(
    old: &Tree<'_>,
    number: usize,
    key: &[u8],
    value: &[u8],
    new: &Tree<'_>,
    other: usize,
) -> bool
    ensures { IsTrue result ↔ option_map bare (node_at (rows_in new.now) other)
        ≡ option_map bare (option_map
        (with_attributes (with_value key.now value.now))
        (node_at (rows_in old.now) number)) }
{
    if !is_element(old, number) {
        return is_same_node(old, number, new, other);
    }
    if !is_named_alike(old, number, new, other) {
        return false;
    }
    are_with_value(old, number, key, value, new.attributes(other))
}

// Whether a node is another one under another name.
fn is_renamed(old: &Tree<'_>, number: usize, name: &[u8], new: &Tree<'_>, other: usize) -> bool
    ensures { IsTrue result ↔ option_map bare (node_at (rows_in new.now) other)
        ≡ option_map bare
        (option_map (with_name name.now) (node_at (rows_in old.now) number)) }
{
    if !is_element(old, number) {
        return is_same_node(old, number, new, other);
    }
    if !is_element(new, other) {
        return false;
    }
    if old.namespace(number) != new.namespace(other) {
        return false;
    }
    if !is_same_text(Some(name), new.name(other)) {
        return false;
    }
    are_same_attributes(old.attributes(number), new.attributes(other))
}

/// Whether a node is another one, changed by this.
pub(crate) fn is_changed(
    old: &Tree<'_>,
    number: usize,
    change: Option<Change<'_, '_>>,
    new: &Tree<'_>,
    other: usize,
) -> bool
    ensures { IsTrue result ↔ option_map bare (node_at (rows_in new.now) other)
        ≡ option_map bare
        (option_map (changed_by (changes_of change.entry)) (node_at (rows_in old.now) number)) }
{
    match change {
        Some(Change::Set(key, value)) => has_gained(old, number, key, value, new, other),
        Some(Change::Rename(name)) => is_renamed(old, number, name, new, other),
        Some(Change::Unset(key)) => has_lost(old, number, key, new, other),
        _ => is_same_node(old, number, new, other),
    }
}
