//! Elements of a tree that aren't whole in the bytes of the page.
ghost use Rattle.std.specs.List.{All, Contains};
ghost use Rattle.std.specs.Option.{option_to_list};
ghost use Rattle.std.specs.Prelude.{IfNone, IfOk, IfSome, OnOk, false, map, true, ◌+◌, ◌++◌, ◌≡◌, ℕ};
ghost use Rattle.tl_patch_edit.specs.declared.reach.Stretch.{Stretch};
ghost use Rattle.tl_patch_select.specs.Inner.Ranges.{IsRising};
ghost use Rattle.tl_patch_select.specs.Inner.Sources.{AreRows, AreRowsUpTo, AreSources, IsCrossedIn, IsCrossedOf, IsOneCrossedIn, IsWholeAt, IsWholeOf, keyed_stretch, stretch_of_keyed, turned};
ghost use Rattle.tl_patch_select.specs.Whole.{AreCrossed, AreThose, ComesFrom, IsCrossedAt, IsOneCrossed, IsWhole, IsWholeIn, end_of};
ghost use Rattle.tl_patch_select.specs.declared.ranges.Keyed.{Keyed};

use crate::in_order::are_whole;
use crate::ranges::{ByKey, Keyed, Range, count_before, sort};
use crate::selected::place_of;
use std::alloc::{AllocError, Global};
use tl_patch_edit::{Stretch, TokenizedPage, stretches};
use tl_tree::Tree;

/// Where the start tag begins of an element that isn't whole, and what crosses it.
#[derive(Clone, Copy, PartialEq, Eq, Debug)]
pub struct Crossed {
    pub place: usize,
    pub at: usize,
}

// Where rows come from that do so before the tail of the page: by their numbers, and by places.
#[derive(Drop)]
pub(crate) struct Sources {
    pub(crate) tail: usize,
    pub(crate) by_number: ByKey,
    pub(crate) by_place: ByKey,
}

// Where a row comes from, if that is before the tail.
fn place_before(tree: &Tree<'_>, tail: usize, row: usize) -> Option<usize>
    ensures some { IfSome result (ComesFrom tree.now tail row) }
    ensures none { IfNone result ((at : ℕ) → ComesFrom tree.now tail row at → ⊥) }
{
    let at = place_of(tree, row)?;
    if at < tail { Some(at) } else { None }
}

// Adds a row with its place, if it comes from one before the tail.
#[tactic(auto, using(crate::proofs::Sources::row_before, crate::proofs::Sources::row_more))]
fn push_row(
    tree: &Tree<'_>,
    tail: usize,
    row: usize,
    all: &mut Vec<Keyed>,
) -> Result<(), AllocError>
    ensures { OnOk result (AreRowsUpTo tree.now tail row all.old.items →
        AreRowsUpTo tree.now tail (row + 1) all.new.items) }
{
    let Some(at) = place_before(tree, tail, row) else {
        return Ok(());
    };
    all.push(Keyed {
        key: row,
        number: at,
    })?;
    Ok(())
}

// The rows that come from a place before the tail, with their places.
fn rows(alloc: Global, tree: &Tree<'_>, tail: usize) -> Result<Vec<Keyed>, AllocError>
    ensures { IfOk result (λ all. AreRows tree.now tail all.items) }
{
    let mut all = Vec::with_capacity(alloc, tree.len())?;
    for row in 0..tree.len() {
        push_row(tree, tail, row, &mut all)?;
    }
    Ok(all)
}

// The same by their places.
fn turned(alloc: Global, all: &[Keyed]) -> Result<Vec<Keyed>, AllocError>
    ensures { IfOk result (λ places. places.items ≡ map turned all.now) }
{
    let mut places = Vec::with_capacity(alloc, all.len())?;
    for one in all {
        places.push(Keyed {
            key: one.number,
            number: one.key,
        })?;
    }
    Ok(places)
}

// The bytes of elements, by where these begin.
fn by_start(alloc: Global, elements: &[Stretch]) -> Result<Vec<Keyed>, AllocError>
    ensures { IfOk result (λ all. all.items ≡ map keyed_stretch elements.now) }
{
    let mut all = Vec::with_capacity(alloc, elements.len())?;
    for stretch in elements {
        all.push(Keyed {
            key: stretch.start,
            number: stretch.end,
        })?;
    }
    Ok(all)
}

// The same in the order in which they begin.
#[tactic(auto, using(crate::proofs::Sources::each_in_order, crate::proofs::Sources::all_in_order))]
fn in_order(alloc: Global, elements: &[Stretch]) -> Result<Vec<Keyed>, AllocError>
    ensures rising { IfOk result (λ all. IsRising all.items) }
    ensures each { IfOk result (λ all. (one : Keyed) → Contains all.items one →
        Contains elements.now (stretch_of_keyed one)) }
    ensures all { IfOk result (λ all. (stretch : Stretch) → Contains elements.now stretch →
        Contains all.items (keyed_stretch stretch)) }
{
    let mut all = by_start(alloc, elements)?;
    sort(&mut all)?;
    Ok(all)
}

// Where an element ends in a tree.
pub(crate) fn end_of(tree: &Tree<'_>, number: usize) -> usize
    ensures { result ≡ end_of tree.now number }
{
    tree.end(number).unwrap_or(0)
}

// Whether a key is this one.
pub(crate) fn is_key(one: Keyed, key: usize) -> bool
    ensures yes { result ≡ true → one.key ≡ key }
    ensures no { result ≡ false → one.key ≡ key → ⊥ }
{
    one.key == key
}

impl Sources {
    // Where the rows of a tree come from.
    #[tactic(auto, using(crate::proofs::Sources::sources_are))]
    fn of(alloc: Global, tree: &Tree<'_>, tail: usize) -> Result<Sources, AllocError>
        ensures tail { IfOk result (λ own. own.tail ≡ tail) }
        ensures ready { IfOk result (AreSources tree.now) }
    {
        let rows = rows(alloc, tree, tail)?;
        let places = turned(alloc, rows.as_slice())?;
        let by_number = ByKey::new(alloc, rows)?;
        let by_place = ByKey::new(alloc, places)?;
        Ok(Sources {
            tail,
            by_number,
            by_place,
        })
    }

    // The byte at which an element is crossed that has these bytes, if it is.
    #[tactic(auto, using(crate::proofs::Sources::whole_if, crate::proofs::Sources::sources_stay, crate::proofs::Sources::crossed_row_if, crate::proofs::Sources::crossed_place_if))]
    fn crossing(&mut self, tree: &Tree<'_>, number: usize, stretch: Stretch) -> Option<usize>
        requires { AreSources tree.now self.old }
        ensures tail { self.new.tail ≡ self.old.tail }
        ensures ready { AreSources tree.now self.new }
        ensures whole { IfNone result (IsWholeIn tree.now self.old.tail number stretch) }
        ensures crossed { IfSome result (IsCrossedAt tree.now self.old.tail number stretch) }
    {
        let rows = Range {
            from: number,
            past: end_of(tree, number),
        };
        let bytes = Range {
            from: stretch.start,
            past: stretch.end,
        };
        let stray = self.by_number.stray(rows, bytes);
        if let Some(row) = stray {
            return Some(row.number);
        }
        let other = self.by_place.stray(bytes, rows);
        if let Some(place) = other {
            return Some(place.key);
        }
        None
    }
}

// The byte at which an element is crossed in those bytes of elements that begin at its place.
#[tactic(auto, using(crate::proofs::Crossing::whole_before, crate::proofs::Crossing::later_no_less, crate::proofs::Crossing::whole_on, crate::proofs::Crossing::whole_early, crate::proofs::Crossing::whole_end, crate::proofs::Crossing::crossed_there))]
fn crossing_at(
    elements: &[Keyed],
    sources: &mut Sources,
    tree: &Tree<'_>,
    number: usize,
    place: usize,
) -> Option<usize>
    requires rising { IsRising elements.now }
    requires sources { AreSources tree.now sources.old }
    ensures tail { sources.new.tail ≡ sources.old.tail }
    ensures ready { AreSources tree.now sources.new }
    ensures whole { IfNone result
        (IsWholeAt elements.now tree.now sources.old.tail number place) }
    ensures crossed { IfSome result
        (IsCrossedIn elements.now tree.now sources.old.tail number place) }
{
    let first = count_before(elements, place);
    for at in first..elements.len() {
        let one = elements[at];
        let is_there = is_key(one, place);
        if !is_there {
            return None;
        }
        let stretch = Stretch {
            start: one.key,
            end: one.number,
        };
        let found = sources.crossing(tree, number, stretch);
        if let Some(crossed) = found {
            return Some(crossed);
        }
    }
    None
}

// Where an element begins and is crossed, if it isn't whole.
#[tactic(auto, using(crate::proofs::Crossing::untagged_is_whole, crate::proofs::Crossing::tagged_is_whole, crate::proofs::Crossing::tagged_is_crossed))]
fn crossed_one(
    elements: &[Keyed],
    sources: &mut Sources,
    tree: &Tree<'_>,
    number: usize,
) -> Option<Crossed>
    requires rising { IsRising elements.now }
    requires sources { AreSources tree.now sources.old }
    ensures tail { sources.new.tail ≡ sources.old.tail }
    ensures ready { AreSources tree.now sources.new }
    ensures whole { IfNone result
        (IsWholeOf elements.now tree.now sources.old.tail number) }
    ensures crossed { IfSome result
        (IsCrossedOf elements.now tree.now sources.old.tail number) }
{
    let place = place_of(tree, number)?;
    let at = crossing_at(elements, sources, tree, number, place)?;
    Some(Crossed { place, at })
}

// The last of some elements that isn't whole. An element in another one is looked at before it, so
// that one steps over it.
#[tactic(auto, using(crate::proofs::Crossing::none_behind_all, crate::proofs::Crossing::one_before, crate::proofs::Crossing::all_before, crate::proofs::Crossing::one_is_crossed))]
fn last_crossed(
    elements: &[Keyed],
    sources: &mut Sources,
    tree: &Tree<'_>,
    numbers: &[usize],
) -> Option<Crossed>
    requires rising { IsRising elements.now }
    requires sources { AreSources tree.now sources.old }
    ensures whole { IfNone result
        (All (IsWholeOf elements.now tree.now sources.old.tail) numbers.now) }
    ensures crossed { IfSome result
        (IsOneCrossedIn elements.now tree.now sources.old.tail numbers.now) }
{
    let mut left = numbers.len();
    while left > 0 {
        left -= 1;
        let found = crossed_one(elements, sources, tree, numbers[left]);
        if let Some(crossed) = found {
            return Some(crossed);
        }
    }
    None
}

/// The last of some elements of the tree of a page that isn't whole.
#[tactic(auto, using(crate::proofs::Crossing::all_whole_of, crate::proofs::Crossing::one_crossed_of))]
pub(crate) fn find_crossed(
    alloc: Global,
    page: &TokenizedPage<'_>,
    tree: &Tree<'_>,
    numbers: &[usize],
) -> Result<Option<Crossed>, AllocError>
    ensures whole { IfOk result (λ found.
        IfNone found (All (IsWhole page.now.page.now tree.now) numbers.now)) }
    ensures crossed { IfOk result (λ found. IfSome found (λ crossed.
        IsOneCrossed page.now.page.now tree.now numbers.now crossed.place crossed.at)) }
{
    let found = page.stretches(alloc)?;
    let elements = in_order(alloc, found.elements.as_slice())?;
    let are_whole = are_whole(elements.as_slice(), tree, numbers);
    if are_whole {
        return Ok(None);
    }
    let mut sources = Sources::of(alloc, tree, found.tail)?;
    Ok(last_crossed(elements.as_slice(), &mut sources, tree, numbers))
}

fn push_if(found: Option<Crossed>, all: &mut Vec<Crossed>) -> Result<(), AllocError>
    ensures { OnOk result (all.new.items ≡ all.old.items ++ option_to_list found) }
{
    if let Some(crossed) = found {
        all.push(crossed)?;
    }
    Ok(())
}

// Those of some elements that aren't whole.
fn all_crossed(
    alloc: Global,
    elements: &[Keyed],
    sources: &mut Sources,
    tree: &Tree<'_>,
    numbers: &[usize],
) -> Result<Vec<Crossed>, AllocError>
    requires rising { IsRising elements.now }
    requires sources { AreSources tree.now sources.old }
    ensures { IfOk result (λ all. AreThose (IsWholeOf elements.now tree.now sources.old.tail)
        (IsCrossedOf elements.now tree.now sources.old.tail) numbers.now all.items) }
{
    let mut all = Vec::new(alloc);
    for number in numbers {
        let found = crossed_one(elements, sources, tree, *number);
        push_if(found, &mut all)?;
    }
    Ok(all)
}

/// Those of some elements of the tree of a page that aren't whole. An element in another one stands
/// before it, so that one steps over it.
pub(crate) fn find_all_crossed(
    alloc: Global,
    page: &[u8],
    tree: &Tree<'_>,
    numbers: &[usize],
) -> Result<Vec<Crossed>, AllocError>
    ensures { IfOk result (λ all. AreCrossed page.now tree.now numbers.now all.items) }
{
    let found = stretches(alloc, page)?;
    let elements = in_order(alloc, found.elements.as_slice())?;
    let mut sources = Sources::of(alloc, tree, found.tail)?;
    let all = all_crossed(alloc, elements.as_slice(), &mut sources, tree, numbers)?;
    Ok(all)
}
