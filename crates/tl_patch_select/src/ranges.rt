//! Numbers in the order of their keys: one whose key stands in a range, and it in no other.
ghost use Rattle.std.specs.List.Sorted.{IsPermutation};
ghost use Rattle.std.specs.Prelude.{IfNone, IfOk, IfSome, List, OnOk, false, length, slice_get, true, ℕ, ◌+◌, ◌<◌, ◌≡◌, ◌≤◌};
ghost use Rattle.tl_patch_select.specs.Inner.Ranges.{AreBounds, AreSpans, HasKey, IsBefore, IsBoundsOf, IsByKey, IsOutOf, IsRising, IsSpan, IsSpanBefore, IsStray, StandsIn, greatest_of, least_of};
ghost use Rattle.tl_patch_select.specs.declared.ranges.Keyed.{Keyed};

use std::alloc::{AllocError, Global};

/// A number with its key.
#[derive(Clone, Copy)]
pub(crate) struct Keyed {
    pub(crate) key: usize,
    pub(crate) number: usize,
}

/// The numbers from one up to another.
#[derive(Clone, Copy)]
pub(crate) struct Range {
    pub(crate) from: usize,
    pub(crate) past: usize,
}

// The least and the greatest of some numbers.
#[derive(Clone, Copy)]
pub(crate) struct Bounds {
    pub(crate) least: Keyed,
    pub(crate) greatest: Keyed,
}

// The bounds of the numbers from an index on up to an end.
#[derive(Clone, Copy)]
pub(crate) struct Span {
    pub(crate) end: usize,
    pub(crate) bounds: Bounds,
}

/// Numbers in the order of their keys, and for each the bounds of it and of those behind it up to
/// an end, which goes as far as was asked for: what asks for a range steps over those in it.
#[derive(Drop)]
pub(crate) struct ByKey {
    pub(crate) all: Vec<Keyed>,
    pub(crate) spans: Vec<Span>,
}

fn least_of(one: Keyed, other: Keyed) -> Keyed
    ensures { result ≡ least_of one other }
{
    if other.number < one.number {
        other
    } else {
        one
    }
}

fn greatest_of(one: Keyed, other: Keyed) -> Keyed
    ensures { result ≡ greatest_of one other }
{
    if one.number < other.number {
        other
    } else {
        one
    }
}

// The bounds of what stands side by side.
fn joined(one: Bounds, other: Bounds) -> Bounds
    ensures { (all : List Keyed) (start middle end : ℕ) → start ≤ middle → middle ≤ end →
        AreBounds all start middle one → AreBounds all middle end other →
        AreBounds all start end result }
{
    Bounds {
        least: least_of(one.least, other.least),
        greatest: greatest_of(one.greatest, other.greatest),
    }
}

// One by itself.
#[tactic(auto, using(crate::proofs::Bounded::alone_is))]
fn alone(all: &[Keyed], at: usize) -> Span
    requires { at < length all.now }
    ensures span { IsSpan all.now at result }
    ensures end { result.end ≡ at + 1 }
{
    let one = all[at];
    Span {
        end: at + 1,
        bounds: Bounds {
            least: one,
            greatest: one,
        },
    }
}

// Each by itself.
#[tactic(auto, using(crate::proofs::Bounded::alone_more, crate::proofs::Bounded::all_alone))]
fn each_alone(alloc: Global, all: &[Keyed]) -> Result<Vec<Span>, AllocError>
    ensures { IfOk result (λ spans. AreSpans all.now spans.items) }
{
    let mut spans = Vec::with_capacity(alloc, all.len())?;
    for at in 0..all.len() {
        let span = alone(all, at);
        spans.push(span)?;
    }
    Ok(spans)
}

/// Puts numbers in the order of their keys.
pub(crate) fn sort(all: &mut Vec<Keyed>) -> Result<(), AllocError>
    ensures same { IsPermutation all.old.items all.new.items }
    ensures rising { OnOk result (IsRising all.new.items) }
{
    all.sort_by_key(|one| one.key)?;
    Ok(())
}

// Whether one stands at an index whose key is less than this.
fn is_before(all: &[Keyed], at: usize, past: usize) -> bool
    ensures yes { result ≡ true → IsBefore all.now at past }
    ensures no { result ≡ false → (one : Keyed) → slice_get all.now at ≡ Some one →
        past ≤ one.key }
{
    at < all.len() && all[at].key < past
}

/// How many have lesser keys than this.
pub(crate) fn count_before(all: &[Keyed], key: usize) -> usize
    requires { IsRising all.now }
    ensures before { (at : ℕ) (one : Keyed) → at < result → slice_get all.now at ≡ Some one →
        one.key < key }
    ensures behind { (at : ℕ) (one : Keyed) → result ≤ at → slice_get all.now at ≡ Some one →
        key ≤ one.key }
{
    all.partition_point(|one| one.key < key)
}

// What is known of those from an index on.
fn known_span(all: &[Keyed], spans: &[Span], at: usize) -> Span
    requires within { at < length all.now }
    requires spans { AreSpans all.now spans.now }
    ensures { IsSpan all.now at result }
{
    spans[at]
}

// What is known of those from an index on, if all of it has keys that are less than this; else that
// one by itself.
#[tactic(auto, using(crate::proofs::Bounded::known_there, crate::proofs::Bounded::alone_there))]
fn span_before(all: &[Keyed], spans: &[Span], at: usize, past: usize) -> Span
    requires before { IsBefore all.now at past }
    requires rising { IsRising all.now }
    requires spans { AreSpans all.now spans.now }
    ensures { IsSpanBefore all.now at past result }
{
    let known = known_span(all, spans, at);
    let last = all[known.end - 1];
    if last.key < past {
        return known;
    }
    alone(all, at)
}

// All from an index on that have keys that are less than this.
#[tactic(auto, using(crate::proofs::Bounded::told_before, crate::proofs::Bounded::told_behind, crate::proofs::Bounded::goes_on))]
fn whole_span(all: &[Keyed], spans: &[Span], start: usize, past: usize) -> Span
    requires before { IsBefore all.now start past }
    requires rising { IsRising all.now }
    requires spans { AreSpans all.now spans.now }
    ensures span { IsSpanBefore all.now start past result }
    ensures last { (one : Keyed) → slice_get all.now result.end ≡ Some one → past ≤ one.key }
{
    let mut span = span_before(all, spans, start, past);
    while is_before(all, span.end, past) {
        let next = span_before(all, spans, span.end, past);
        span = Span {
            end: next.end,
            bounds: joined(span.bounds, next.bounds),
        };
    }
    span
}

// The least or the greatest of some numbers, if it stands in no such range.
fn out_of(bounds: Bounds, range: Range) -> Option<Keyed>
    ensures none { IfNone result ((range.from ≤ bounds.least.number)
        × (bounds.greatest.number < range.past)) }
    ensures some { IfSome result (IsOutOf bounds range) }
{
    if bounds.least.number < range.from {
        return Some(bounds.least);
    }
    if range.past <= bounds.greatest.number {
        return Some(bounds.greatest);
    }
    None
}

impl ByKey {
    /// These numbers.
    #[tactic(auto, using(crate::proofs::Bounded::by_key))]
    pub(crate) fn new(alloc: Global, numbers: Vec<Keyed>) -> Result<ByKey, AllocError>
        ensures same { IfOk result (λ own. IsPermutation numbers.items own.all.items) }
        ensures ready { IfOk result IsByKey }
    {
        let mut all = numbers;
        sort(&mut all)?;
        let spans = each_alone(alloc, all.as_slice())?;
        Ok(ByKey { all, spans })
    }

    // The bounds of the numbers whose keys stand in a range.
    #[tactic(auto, using(crate::proofs::Bounded::told_before, crate::proofs::Bounded::told_behind, crate::proofs::Bounded::bounds_are, crate::proofs::Bounded::none_at, crate::proofs::Bounded::ready_with))]
    fn bounds(&mut self, keys: Range) -> Option<Bounds>
        requires { IsByKey self.old }
        ensures same { self.new.all.items ≡ self.old.all.items }
        ensures ready { IsByKey self.new }
        ensures bounds { IsBoundsOf self.old.all.items keys result }
    {
        let start = count_before(self.all.as_slice(), keys.from);
        let is_there = is_before(self.all.as_slice(), start, keys.past);
        if !is_there {
            return None;
        }
        let span = whole_span(self.all.as_slice(), self.spans.as_slice(), start, keys.past);
        self.spans[start] = span;
        Some(span.bounds)
    }

    /// One whose key stands in a range, and its number in no other range, if there is such a one.
    #[tactic(auto, using(crate::proofs::Bounded::none_stand, crate::proofs::Bounded::stand_if, crate::proofs::Bounded::stray_if))]
    pub(crate) fn stray(&mut self, keys: Range, numbers: Range) -> Option<Keyed>
        requires { IsByKey self.old }
        ensures same { self.new.all.items ≡ self.old.all.items }
        ensures ready { IsByKey self.new }
        ensures none { IfNone result ((one : Keyed) → HasKey self.old.all.items keys one →
            StandsIn numbers one.number) }
        ensures some { IfSome result (IsStray self.old.all.items keys numbers) }
    {
        let bounds = self.bounds(keys)?;
        out_of(bounds, numbers)
    }
}
