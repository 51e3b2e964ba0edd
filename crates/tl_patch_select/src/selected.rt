//! Where the elements of a tree begin at which a selector holds.
ghost use Rattle.std.specs.List.{Contains};
ghost use Rattle.std.specs.List.Sorted.{IsStrictlyIncreasing};
ghost use Rattle.std.specs.Prelude.{IfOk, length, ◌-◌, ◌≡◌, ℕ};
ghost use Rattle.tl_patch_select.specs.Selected.{ArePlacesOf, first_place, place_of, places_of, untagged, untagged_at};
ghost use Rattle.tl_tree.specs.TreeView.{rows_in};
ghost use Rattle.tl_tree_select.specs.Meaning.{AreFound};
ghost use Rattle.tl_tree_select.specs.Page.{page_of};

use std::alloc::{AllocError, Global};
use tl_css::Selector;
use tl_tree::Tree;
use tl_tree_select::select;

// Where in the page begins what a node comes from.
pub(crate) fn place_of(tree: &Tree<'_>, number: usize) -> Option<usize>
    ensures { result ≡ place_of tree.now number }
{
    let source = tree.source(number)?;
    Some(source.start)
}

// Where in a page of such a length the first node from a number on comes from that has a place.
pub(crate) fn first_place(tree: &Tree<'_>, number: usize, page_len: usize) -> usize
    ensures { result
        ≡ first_place tree.now page_len number (length (rows_in tree.now) - number) }
{
    for later in number..tree.len() {
        if let Some(place) = place_of(tree, later) {
            return place;
        }
    }
    page_len
}

// Where elements begin that have a place.
fn places_of(alloc: Global, tree: &Tree<'_>, numbers: &[usize]) -> Result<Vec<usize>, AllocError>
    ensures { IfOk result (λ places. places.items ≡ places_of tree.now numbers.now) }
{
    let mut places = Vec::with_capacity(alloc, numbers.len())?;
    for number in numbers {
        if let Some(place) = place_of(tree, *number) {
            places.push(place)?;
        }
    }
    Ok(places)
}

// The first of some elements that has no place.
fn untagged(tree: &Tree<'_>, numbers: &[usize]) -> Option<usize>
    ensures { result ≡ untagged tree.now numbers.now }
{
    for number in numbers {
        if place_of(tree, *number).is_none() {
            return Some(*number);
        }
    }
    None
}

/// Where the first of some elements was put in that no tag stands for, if there is one; the page
/// has such a length.
pub(crate) fn untagged_at(tree: &Tree<'_>, page_len: usize, numbers: &[usize]) -> Option<usize>
    ensures { result ≡ untagged_at tree.now page_len numbers.now }
{
    let number = untagged(tree, numbers)?;
    Some(first_place(tree, number, page_len))
}

/// Puts numbers in order, each once.
pub(crate) fn put_in_order(places: &mut Vec<usize>)
    ensures rising { IsStrictlyIncreasing places.new.items }
    ensures kept { (place : ℕ) →
        Contains places.old.items place → Contains places.new.items place }
    ensures none_added { (place : ℕ) →
        Contains places.new.items place → Contains places.old.items place }
{
    places.sort_unstable();
    places.dedup();
}

/// Where elements begin that have a place, in order, each place once.
pub(crate) fn places_in_order(
    alloc: Global,
    tree: &Tree<'_>,
    numbers: &[usize],
) -> Result<Vec<usize>, AllocError>
    ensures { IfOk result (λ places. ArePlacesOf tree.now numbers.now places.items) }
{
    let mut places = places_of(alloc, tree, numbers)?;
    put_in_order(&mut places);
    Ok(places)
}

/// The elements of a tree where a selector holds, and the bytes of the page at which their start
/// tags begin, in order.
#[derive(Drop)]
pub(crate) struct Selected {
    pub(crate) numbers: Vec<usize>,
    pub(crate) places: Vec<usize>,
}

impl Selected {
    /// Where a selector holds in a tree.
    pub(crate) fn of(
        alloc: Global,
        tree: &Tree<'_>,
        selector: &Selector,
    ) -> Result<Selected, AllocError>
        ensures found { IfOk result (λ own.
            AreFound (page_of tree.now) selector.now own.numbers.items) }
        ensures places { IfOk result (λ own.
            ArePlacesOf tree.now own.numbers.items own.places.items) }
    {
        let numbers = select(alloc, tree, selector)?;
        let places = places_in_order(alloc, tree, numbers.as_slice())?;
        Ok(Selected { numbers, places })
    }

    /// Where an element was put in that no tag stands for, if there is one; the page has such a
    /// length.
    pub(crate) fn untagged_at(&self, tree: &Tree<'_>, page_len: usize) -> Option<usize>
        ensures { result ≡ untagged_at tree.now page_len self.now.numbers.items }
    {
        untagged_at(tree, page_len, self.numbers.as_slice())
    }
}
