//! What lookups, selectors and ranges see of a node of a table.
ghost use Rattle.std.specs.Prelude.{◌≡◌, option_map};
ghost use Rattle.std.specs.Map.{lookup};
ghost use Rattle.std.specs.Option.{option_copied};
ghost use Rattle.std.specs.Str.{bytes_eq};
ghost use Rattle.tl_spec.specs.Edit.Attribute.{value_at};
ghost use Rattle.tl_spec.specs.Lookup.ClassMember.{has_member};
ghost use Rattle.tl_spec.specs.Lookup.Scan.{is_value};
ghost use Rattle.tl_attributes.specs.AttributesView.{entries_view, attributes_view};
ghost use Rattle.tl_bytes.specs.Held.{Kept};
ghost use Rattle.tl.specs.View.{node_view};

use crate::parser::tag::HTMLTag;
use crate::parser::tag::node::Node;
use tl_attributes::attributes::{Attributes, RawAttributesMap};
use tl_attributes::summary::Fingerprint;
use tl_table::element::Element;

// What stands at a key among the pairs other than `id` and `class`. They are gone through, since
// the keys of a map live as long as the text, and this key may not.
fn value_among<'s>(others: &'s RawAttributesMap<'_>, key: &[u8]) -> Option<Option<&'s [u8]>>
    ensures { option_map option_copied result
        ≡ lookup (bytes_eq key.now) (entries_view others.now).entries }
{
    let pair = others.iter().find(|pair| key == pair.0.as_bytes())?;
    Some(pair.1.as_ref().map(|value| value.as_bytes()))
}

// What stands at a key.
fn value_of<'s>(attributes: &'s Attributes<'_>, key: &[u8]) -> Option<Option<&'s [u8]>>
    ensures { option_map option_copied result
        ≡ value_at (λ bytes. bytes) bytes_eq (attributes_view attributes.now) key.now }
{
    if key == b"id".as_slice() {
        return attributes.id().map(|id| Some(id.as_bytes()));
    }
    if key == b"class".as_slice() {
        return attributes.class().map(|class| Some(class.as_bytes()));
    }
    value_among(attributes.unstable_raw(), key)
}

// Whether a tag has this id. Its attributes are looked at only where its summary allows that.
fn has_id(tag: &HTMLTag<'_>, id: &[u8]) -> bool
    ensures { result ≡ is_value id.now (option_map
        (λ (bytes : Kept). bytes.list) tag.now.attributes.id) }
{
    tag.summary().may_be_id(Fingerprint::from_bytes(id))
        && tag
            .attributes()
            .id()
            .is_some_and(|own| id == own.as_bytes())
}

// Whether this is a member of a tag's class. Its attributes are looked at only where its summary
// allows that.
fn is_in_class(tag: &HTMLTag<'_>, class: &[u8]) -> bool
    ensures { result ≡ has_member (option_map
        (λ (bytes : Kept). bytes.list) tag.now.attributes.class) class.now }
{
    tag.summary().may_be_member(Fingerprint::from_bytes(class))
        && tag.attributes().is_class_member(class)
}

impl<'a> Element for Node<'a> {
    ghost node = { node_view };

    fn name(&self) -> Option<&[u8]> {
        match self {
            Node::Tag(tag) => Some(tag.name().as_bytes()),
            _ => None,
        }
    }

    fn has_id(&self, id: &[u8]) -> bool {
        match self {
            Node::Tag(tag) => has_id(tag, id),
            _ => false,
        }
    }

    fn is_in_class(&self, class: &[u8]) -> bool {
        match self {
            Node::Tag(tag) => is_in_class(tag, class),
            _ => false,
        }
    }

    fn attribute(&self, key: &[u8]) -> Option<Option<&[u8]>> {
        match self {
            Node::Tag(tag) => value_of(tag.attributes(), key),
            _ => None,
        }
    }

    fn child_count(&self) -> usize {
        match self {
            Node::Tag(tag) => tag.child_handles().len(),
            _ => 0,
        }
    }

    fn child(&self, place: usize) -> Option<u32> {
        match self {
            Node::Tag(tag) => tag
                .child_handles()
                .get(place)
                .map(|child| child.get_inner()),
            _ => None,
        }
    }

    #[tactic(auto, using(crate::proofs::Elements::last_at_end))]
    fn last_child(&self) -> Option<u32> {
        match self {
            Node::Tag(tag) => tag
                .child_handles()
                .as_slice()
                .last()
                .map(|child| child.get_inner()),
            _ => None,
        }
    }
}
