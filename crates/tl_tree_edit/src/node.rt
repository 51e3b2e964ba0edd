//! Whether nodes of two trees are the same, but for where they come from.
ghost use Rattle.std.specs.Bool.{IsTrue};
ghost use Rattle.std.specs.Option.{option_and_then, option_copied, option_map};
ghost use Rattle.std.specs.Prelude.{◌≡◌, ◌↔◌};
ghost use Rattle.tl_tree.specs.Asked.{attribute_said, attributes_at, doctype_of, doctype_said, namespace_of, name_of, node_at, text_of};
ghost use Rattle.tl_tree.specs.TreeView.{rows_in};
ghost use Rattle.tl_tree_edit.specs.Inner.Nodes.{IsSameNode};

use tl_tree::{Attribute, AttributeSpace, Attributes, Doctype, Tree};

// Whether there are the same bytes.
pub(crate) fn is_same_text(one: Option<&[u8]>, other: Option<&[u8]>) -> bool
    ensures { IsTrue result ↔ option_copied one.entry ≡ option_copied other.entry }
{
    match (one, other) {
        (None, None) => true,
        (Some(one), Some(other)) => one == other,
        _ => false,
    }
}

// Whether two attributes are the same.
pub(crate) fn is_same_attribute(one: Attribute<'_>, other: Attribute<'_>) -> bool
    ensures { IsTrue result ↔ attribute_said one.entry ≡ attribute_said other.entry }
{
    one.space == other.space && one.key == other.key && one.value == other.value
}

// Whether attributes are the same, in the same order.
#[tactic(auto, using(crate::proofs::Lists::rest_same, crate::proofs::Lists::firsts_differ))]
pub(crate) fn are_same_attributes(one: Attributes<'_, '_>, mut other: Attributes<'_, '_>) -> bool
    ensures { IsTrue result ↔ one.entry ≡ other.entry }
{
    for own in one {
        let Some(its) = other.next() else {
            return false;
        };
        if !is_same_attribute(own, its) {
            return false;
        }
    }
    other.next().is_none()
}

// Whether two doctypes say the same.
fn is_same_doctype(one: Option<Doctype<'_>>, other: Option<Doctype<'_>>) -> bool
    ensures { IsTrue result
        ↔ option_map doctype_said one.entry ≡ option_map doctype_said other.entry }
{
    match (one, other) {
        (None, None) => true,
        (Some(one), Some(other)) => {
            one.name == other.name
                && is_same_text(one.public_id, other.public_id)
                && is_same_text(one.system_id, other.system_id)
                && one.forces_quirks == other.forces_quirks
        }
        _ => false,
    }
}

/// Whether a node of one tree is that of another.
#[tactic(auto, using(crate::proofs::Nodes::same_alike, crate::proofs::Nodes::kinds_alike, crate::proofs::Nodes::spaces_alike, crate::proofs::Nodes::names_alike, crate::proofs::Nodes::attributes_alike, crate::proofs::Nodes::texts_alike, crate::proofs::Nodes::doctypes_alike))]
pub(crate) fn is_same_node(old: &Tree<'_>, number: usize, new: &Tree<'_>, other: usize) -> bool
    ensures { IsTrue result
        ↔ IsSameNode (rows_in old.now) number (rows_in new.now) other }
{
    if old.kind(number) != new.kind(other) {
        return false;
    }
    if old.namespace(number) != new.namespace(other) {
        return false;
    }
    if !is_same_text(old.name(number), new.name(other)) {
        return false;
    }
    if !are_same_attributes(old.attributes(number), new.attributes(other)) {
        return false;
    }
    if !is_same_text(old.text(number), new.text(other)) {
        return false;
    }
    is_same_doctype(old.doctype(number), new.doctype(other))
}
