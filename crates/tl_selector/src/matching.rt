//! Where a selector holds at a node alone.
ghost use Rattle.std.specs.Prelude.{IsTrue, ◌↔◌, ◌≡◌, false, map, slice_get};
ghost use Rattle.std.specs.Option.{option_copied, option_flatten, option_map_or};
ghost use Rattle.tl_spec.specs.Tree.Element.{attribute_of};
ghost use Rattle.tl_spec.specs.Select.Meaning.{HoldsAlone};
ghost use Rattle.tl_spec.specs.Select.Search.{holds_alone};
ghost use Rattle.tl_selector.specs.Spine.{has_sides};
ghost use Rattle.tl_selector.specs.View.{selector};

pub mod scan;

use crate::attr_value::{begins_with, ends_with, has_part, has_word, is_same_text};
use crate::selector::Selector;
use tl_table::element::Element;

impl<'a> Selector<'a> {
    /// Whether it holds at the node alone. No ancestors are known, so `Descendant` and `Parent`
    /// hold nowhere. It takes no memory.
    pub fn matches<E: Element>(&self, node: &E) -> bool
        ensures { IsTrue result ↔ HoldsAlone (selector self.now) (E.node node.now) }
    {
        holds_alone(self, node)
    }
}

/// Whether the selector holds at the node alone. First sides are gone along by a loop.
pub fn holds_alone<E: Element>(e: &Selector<'_>, node: &E) -> bool
    ensures { result ≡ holds_alone (selector e.now) (E.node node.now) }
{
    let mut whole = e;
    'sides: loop {
        match whole {
            Selector::And(a, b) => {
                if !holds_alone(b, node) {
                    return false;
                }
                whole = a;
            }
            Selector::Or(a, b) => {
                if holds_alone(b, node) {
                    return true;
                }
                whole = a;
            }
            Selector::Descendant(_, _) | Selector::Parent(_, _) => return false,
            _ => return is_met(whole, node),
        }
    }
}

// Whether a selector without sides holds at a node alone.
fn is_met<E: Element>(e: &Selector<'_>, node: &E) -> bool
    ensures { has_sides (selector e.now) ≡ false
        → (IsTrue result ↔ HoldsAlone (selector e.now) (E.node node.now)) }
{
    match e {
        Selector::Tag(name) => node.name() == Some(*name),
        Selector::Id(id) => node.has_id(id),
        Selector::Class(class) => node.is_in_class(class),
        Selector::All => true,
        Selector::Attribute(key) => node.attribute(key).is_some(),
        Selector::AttributeValue(key, value) => {
            value_at(node, key).is_some_and(|own| is_same_text(own, value))
        }
        Selector::AttributeValueWhitespacedContains(key, value) => {
            value_at(node, key).is_some_and(|own| has_word(own, value))
        }
        Selector::AttributeValueStartsWith(key, value) => {
            value_at(node, key).is_some_and(|own| begins_with(own, value))
        }
        Selector::AttributeValueEndsWith(key, value) => {
            value_at(node, key).is_some_and(|own| ends_with(own, value))
        }
        Selector::AttributeValueSubstring(key, value) => {
            value_at(node, key).is_some_and(|own| has_part(own, value))
        }
        _ => false,
    }
}

// The value at the key, `None` where there is no such key, or no value.
fn value_at<'n, E: Element>(node: &'n E, key: &[u8]) -> Option<&'n [u8]>
    ensures { option_copied result ≡ option_flatten (attribute_of key.now (E.node node.now)) }
{
    node.attribute(key)?
}

/// Whether it holds at the node of a number alone: not past the last one.
pub fn holds_alone_at<N: Element>(e: &Selector<'_>, nodes: &[N], number: usize) -> bool
    ensures { result ≡ option_map_or (holds_alone (selector e.now))
        (slice_get (map N.node nodes.now) number) false }
{
    match nodes.get(number) {
        Some(node) => holds_alone(e, node),
        None => false,
    }
}
