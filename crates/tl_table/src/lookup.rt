//! Scans for an id, and for a member of classes.
ghost use Rattle.std.specs.Prelude.{◌≡◌, ◌<◌, length, map, All, IfSome, ⊤};
ghost use Rattle.std.specs.Iterator.{at_most};
ghost use Rattle.std.specs.List.{position_from};
ghost use Rattle.std.specs.Map.Iter.{TakesFirst};
ghost use Rattle.tl_spec.specs.Lookup.Scan.{is_in_class, id_scan, class_scan};

use crate::element::Element;
use std::alloc::AllocError;
use std::iter::FusedIterator;
use std::marker::Model;

/// The place of the first node with this id, `None` where no node has it. It takes no memory.
pub fn first_with_id<N: Element>(nodes: &[N], id: &[u8]) -> Option<usize>
    ensures scan { result ≡ id_scan (map N.node nodes.now) id.now }

    // It is the place of a node, so it fits wherever their number does.
    ensures within { IfSome result (λ n. n < length nodes.now) }
{
    nodes.iter().position(|node| node.has_id(id))
}

/// The place of the first node with this member of its class, `None` where no node has it. It takes
/// no memory.
pub fn first_in_class<N: Element>(nodes: &[N], class: &[u8]) -> Option<usize>
    ensures scan { result ≡ position_from (is_in_class class.now) 0 (map N.node nodes.now) }
    ensures within { IfSome result (λ n. n < length nodes.now) }
{
    nodes.iter().position(|node| node.is_in_class(class))
}

/// The places of the nodes with a class member, seen as the list of those that are left. A step
/// takes no memory.
#[derive(Debug, Drop)]
pub struct InClass<'s, N: Element> {
    class: &'s [u8],
    // The nodes that are still to be looked at, and the place of the first of them.
    nodes: &'s [N],
    place: usize,
}

impl<'s, N: Element> Model for InClass<'s, N> {
    ghost use Rattle.std.specs.Prelude.{List, ℕ, ◌+◌, ◌<◌, ◌^◌, length, map};
    ghost use Rattle.tl_spec.specs.Lookup.Scan.{is_in_class, places_from};

    ghost Value = { List ℕ };

    ghost view = { λ c. places_from (is_in_class c.class.now) c.place (map N.node c.nodes.now) };

    ghost invariant = { λ c. c.place + length c.nodes.now < 2 ^ 64 };
}

/// The places of the nodes that have `class` as a member of their class, in exact case, rising.
pub fn in_class<'s, N: Element>(nodes: &'s [N], class: &'s [u8]) -> InClass<'s, N>
    ensures scan { result ≡ class_scan (map N.node nodes.now) class.now }

    // They are places of nodes.
    ensures within { All (λ n. n < length nodes.now) result }
{
    InClass {
        class,
        nodes,
        place: 0,
    }
}

impl<'s, N: Element> Iterator for InClass<'s, N> {
    type Item = usize;

    ghost next_gives = { TakesFirst (λ n. n) };

    ghost remaining = { λ s. at_most (length s) };

    fn next(&mut self) -> Option<usize> {
        let Some(skipped) = first_in_class(self.nodes, self.class) else {
            // Where it is asked again, no node is looked at again.
            self.nodes = &[];
            return None;
        };
        let place = self.place + skipped;
        self.nodes = &self.nodes[skipped + 1..];
        self.place = place + 1;
        Some(place)
    }
}

impl<'s, N: Element> FusedIterator for InClass<'s, N> {}

impl<'s, N: Element> Clone for InClass<'s, N> {
    ghost is_clone = { λ x y. y ≡ x };

    ghost is_infallible = { λ _. ⊤ };

    fn clone(&self) -> Result<InClass<'s, N>, AllocError> {
        Ok(InClass {
            class: self.class,
            nodes: self.nodes,
            place: self.place,
        })
    }
}
