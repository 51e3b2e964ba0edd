//! The first node of a table where a selector holds at the node alone.
ghost use Rattle.std.specs.Prelude.{◌≡◌, ◌<◌, length, map, IfSome};
ghost use Rattle.std.specs.List.{position_from};
ghost use Rattle.tl_spec.specs.Tree.Element.{name_of};
ghost use Rattle.tl_spec.specs.Lookup.Scan.{is_value, IsFirstPlace};
ghost use Rattle.tl_spec.specs.Select.Search.{holds_alone};
ghost use Rattle.tl_selector.specs.Spine.{first_simple, others_hold};
ghost use Rattle.tl_selector.specs.View.{selector};

use crate::matching::holds_alone;
use crate::selector::Selector;
use tl_table::element::Element;
use tl_table::lookup::{first_in_class, first_with_id};

// The place of the first tag of this name.
fn first_named<N: Element>(nodes: &[N], name: &[u8]) -> Option<usize>
    ensures place { result ≡ position_from (λ node. is_value name.now (name_of node)) 0
        (map N.node nodes.now) }
    ensures within { IfSome result (λ n. n < length nodes.now) }
{
    nodes.iter().position(|node| node.name() == Some(name))
}

// The place of the first node where a selector of any kind holds, which is looked at anew at each
// node.
fn first_match<N: Element>(e: &Selector<'_>, nodes: &[N]) -> Option<usize>
    ensures place { result ≡ position_from (holds_alone (selector e.now)) 0 (map N.node nodes.now) }
    ensures within { IfSome result (λ n. n < length nodes.now) }
{
    nodes.iter().position(|node| holds_alone(e, node))
}

// The place of the first node where a simple selector holds, by the lookup that fits its kind.
fn first_of_simple<N: Element>(part: &Selector<'_>, nodes: &[N]) -> Option<usize>
    ensures first { IsFirstPlace (holds_alone (selector part.now)) (map N.node nodes.now) result }
    ensures within { IfSome result (λ n. n < length nodes.now) }
{
    match part {
        Selector::Tag(name) => first_named(nodes, name),
        Selector::Id(id) => first_with_id(nodes, id),
        Selector::Class(class) => first_in_class(nodes, class),
        Selector::All if !nodes.is_empty() => Some(0),
        _ => first_match(part, nodes),
    }
}

// The first of the parts that all have to hold.
fn first_simple<'e, 'a>(e: &'e Selector<'a>) -> &'e Selector<'a>
    ensures { selector result.now ≡ first_simple (selector e.entry.now) }
{
    let mut part = e;
    'parts: while let Selector::And(a, _) = part {
        part = a;
    }
    part
}

// Whether all the others hold at a node.
fn others_hold<N: Element>(e: &Selector<'_>, node: &N) -> bool
    ensures { result ≡ others_hold (selector e.now) (N.node node.now) }
{
    let mut whole = e;
    'parts: while let Selector::And(a, b) = whole {
        if !holds_alone(b, node) {
            return false;
        }
        whole = a;
    }
    true
}

/// The place of the first node where the selector holds at the node alone, `None` where it holds at
/// none. Of parts that all have to hold the others are asked only where the first holds.
pub fn first_alone<N: Element>(e: &Selector<'_>, nodes: &[N]) -> Option<usize>
    ensures first { IsFirstPlace (holds_alone (selector e.now)) (map N.node nodes.now) result }
    ensures within { IfSome result (λ n. n < length nodes.now) }
{
    let part = first_simple(e);
    let mut from = 0;
    'candidates: while from < nodes.len() {
        let place = from + first_of_simple(part, &nodes[from..])?;
        if others_hold(e, &nodes[place]) {
            return Some(place);
        }
        from = place + 1;
    }
    None
}
