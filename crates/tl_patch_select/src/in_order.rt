//! Elements that are whole in the bytes of a page whose tree has its rows in the order of the page.
ghost use Rattle.std.specs.List.{All};
ghost use Rattle.std.specs.Prelude.{IfSome, Some, true, ℕ, ◌+◌, ◌≡◌, ◌≤◌};
ghost use Rattle.tl_patch_select.specs.Inner.InOrder.{AreInOrder, AreInOrderUpTo, BeginBehind, EndBefore};
ghost use Rattle.tl_patch_select.specs.Inner.Ranges.{IsRising};
ghost use Rattle.tl_patch_select.specs.Inner.Sources.{IsWholeAt, IsWholeOf};
ghost use Rattle.tl_patch_select.specs.Selected.{place_of};
ghost use Rattle.tl_patch_select.specs.Whole.{IsWholeIn};

use crate::ranges::{Keyed, count_before};
use crate::selected::place_of;
use crate::whole::{end_of, is_key};
use tl_patch_edit::Stretch;
use tl_tree::Tree;

// A place behind another one that comes no later than it.
fn behind(past: usize, place: usize) -> Option<usize>
    ensures next { IfSome result (λ next. next ≡ place + 1) }
    ensures order { IfSome result (λ next. past ≤ place) }
{
    if place < past {
        return None;
    }
    place.checked_add(1)
}

// Behind what one more row comes from, if all so far come from a page in its order.
fn past_row(tree: &Tree<'_>, row: usize, past: usize) -> Option<usize>
    ensures { IfSome result (λ next. AreInOrderUpTo (place_of tree.now) row past →
        AreInOrderUpTo (place_of tree.now) (row + 1) next) }
{
    match place_of(tree, row) {
        Some(place) => behind(past, place),
        None => Some(past),
    }
}

// Whether the rows of a tree come from a page in its order.
fn is_in_order(tree: &Tree<'_>) -> bool
    ensures { result ≡ true → AreInOrder (place_of tree.now) }
{
    let mut past = 0usize;
    for row in 0..tree.len() {
        let Some(next) = past_row(tree, row, past) else {
            return false;
        };
        past = next;
    }
    true
}

// Whether the rows of a range come from before a place.
fn end_before(tree: &Tree<'_>, from: usize, end: usize, past: usize) -> bool
    requires { AreInOrder (place_of tree.now) }
    ensures { result ≡ true → EndBefore (place_of tree.now) from end past }
{
    let mut left = end;
    while from < left {
        left -= 1;
        if let Some(place) = place_of(tree, left) {
            return place < past;
        }
    }
    true
}

// Whether the rows from one on come from no earlier place.
fn begin_behind(tree: &Tree<'_>, end: usize, past: usize) -> bool
    requires { AreInOrder (place_of tree.now) }
    ensures { result ≡ true → BeginBehind (place_of tree.now) end past }
{
    for row in end..tree.len() {
        if let Some(place) = place_of(tree, row) {
            return past <= place;
        }
    }
    true
}

// Whether an element is whole in these bytes, which its start tag begins.
fn is_whole_in(tree: &Tree<'_>, number: usize, stretch: Stretch) -> bool
    requires in_order { AreInOrder (place_of tree.now) }
    requires begins { place_of tree.now number ≡ Some stretch.start }
    ensures { result ≡ true → (tail : ℕ) → IsWholeIn tree.now tail number stretch }
{
    let end = end_of(tree, number);
    let ends = end_before(tree, number, end, stretch.end);
    if !ends {
        return false;
    }
    begin_behind(tree, end, stretch.end)
}

// Whether an element is whole in those bytes of elements that begin at its place.
fn is_whole_at(elements: &[Keyed], tree: &Tree<'_>, number: usize, place: usize) -> bool
    requires rising { IsRising elements.now }
    requires in_order { AreInOrder (place_of tree.now) }
    requires begins { place_of tree.now number ≡ Some place }
    ensures { result ≡ true → (tail : ℕ) → IsWholeAt elements.now tree.now tail number place }
{
    let first = count_before(elements, place);
    for at in first..elements.len() {
        let one = elements[at];
        let is_there = is_key(one, place);
        if !is_there {
            return true;
        }
        let stretch = Stretch {
            start: one.key,
            end: one.number,
        };
        let is_whole = is_whole_in(tree, number, stretch);
        if !is_whole {
            return false;
        }
    }
    true
}

// Whether an element is whole in the bytes that begin where it does.
fn is_whole(elements: &[Keyed], tree: &Tree<'_>, number: usize) -> bool
    requires rising { IsRising elements.now }
    requires in_order { AreInOrder (place_of tree.now) }
    ensures { result ≡ true → (tail : ℕ) → IsWholeOf elements.now tree.now tail number }
{
    match place_of(tree, number) {
        Some(place) => is_whole_at(elements, tree, number, place),
        None => true,
    }
}

/// Whether elements are whole in these bytes of elements; `false` if the rows of the tree come from
/// the page in another order: then it isn't known. Nothing is allocated.
pub(crate) fn are_whole(elements: &[Keyed], tree: &Tree<'_>, numbers: &[usize]) -> bool
    requires { IsRising elements.now }
    ensures { result ≡ true → (tail : ℕ) →
        All (IsWholeOf elements.now tree.now tail) numbers.now }
{
    let is_in_order = is_in_order(tree);
    if !is_in_order {
        return false;
    }
    for at in 0..numbers.len() {
        let is_it = is_whole(elements, tree, numbers[at]);
        if !is_it {
            return false;
        }
    }
    true
}
