//! The nodes of a table where a selector holds.
ghost use Rattle.std.specs.Prelude.{◌≡◌, ◌<◌, ◌^◌, [], length, map, false, IsOk, IfOk};
ghost use Rattle.std.specs.Iterator.{at_most};
ghost use Rattle.std.specs.Map.Iter.{TakesFirst};
ghost use Rattle.tl_spec.specs.Select.Meaning.{AreMatches, has_combinator};
ghost use Rattle.tl_selector.specs.View.{selector as selector_of};

mod node_test;

use crate::matches::node_test::{Test, first_found, test_of};
use crate::selector::Selector;
use std::alloc::{AllocError, Global};
use std::iter::FusedIterator;
use std::marker::Model;
use tl_table::element::Element;

/// The numbers of the nodes where a selector holds, seen as the list of those that are left. A step
/// takes no memory.
#[derive(Debug, Drop)]
pub struct Matches<'s, 'n, N: Element> {
    test: Test<'s>,
    nodes: &'n [N],
    // The nodes that are still to be looked at: from this place on, below that one.
    place: usize,
    end: usize,
}

impl<'s, 'n, N: Element> Model for Matches<'s, 'n, N> {
    ghost use Rattle.std.specs.Prelude.{List, ℕ, ◌-◌, ◌<◌, ◌≤◌, ◌^◌, length, map};
    ghost use Rattle.tl_selector.specs.NodeTest.{found_numbers, is_found};

    ghost Value = { List ℕ };

    ghost view = { λ m. found_numbers (is_found m.test (map N.node m.nodes.now)) m.place
        (m.end - m.place) };

    // Their numbers are of 32 bits.
    ghost invariant = { λ m. (m.end ≤ length m.nodes.now) × (length m.nodes.now < 2 ^ 32) };
}

/// The numbers of the nodes where the selector holds, from `from` on and below `to`, rising. Where
/// the selector asks for ancestors, all nodes of the table are looked at here, once for each of its
/// parts.
pub fn matches_between<'s, 'n, N: Element>(
    alloc: Global,
    selector: Selector<'s>,
    nodes: &'n [N],
    from: usize,
    to: usize,
) -> Result<Matches<'s, 'n, N>, AllocError>
    requires { length nodes.now < 2 ^ 32 }
    ensures found { IfOk result (λ numbers. AreMatches (map N.node nodes.now)
        (selector_of selector.entry) from to numbers) }

    // Where it asks for no ancestors it takes no memory.
    ensures alone { has_combinator (selector_of selector.entry) ≡ false → IsOk result }
{
    let test = test_of(alloc, selector, nodes)?;
    Ok(Matches {
        test,
        nodes,
        place: from,
        end: to.min(nodes.len()),
    })
}

impl<'s, 'n, N: Element> Iterator for Matches<'s, 'n, N> {
    type Item = u32;

    ghost next_gives = { TakesFirst (λ n. n) };

    ghost remaining = { λ s. at_most (length s) };

    fn next(&mut self) -> Option<u32> {
        let Some(place) = first_found(&self.test, self.nodes, self.place, self.end) else {
            // Where it is asked again, no node is looked at again.
            self.place = self.end;
            return None;
        };
        self.place = place + 1;
        Some(place as u32)
    }
}

impl<'s, 'n, N: Element> FusedIterator for Matches<'s, 'n, N> {}

impl<'s, 'n, N: Element> Clone for Matches<'s, 'n, N> {
    ghost is_clone = { λ x y. y ≡ x };

    // Where none is left a clone takes no memory.
    ghost is_infallible = { λ m. m ≡ [] };

    fn clone(&self) -> Result<Matches<'s, 'n, N>, AllocError> {
        match first_found(&self.test, self.nodes, self.place, self.end) {
            Some(place) => Ok(Matches {
                test: self.test.clone()?,
                nodes: self.nodes,
                place,
                end: self.end,
            }),
            // At its end any test finds none.
            None => Ok(Matches {
                test: Test::Alone(Selector::All),
                nodes: self.nodes,
                place: self.end,
                end: self.end,
            }),
        }
    }
}
