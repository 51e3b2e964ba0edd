//! What several patches ask for.
ghost use Rattle.std.specs.Prelude.{◌≡◌, ◌≤◌, ◌<◌, ◌++◌, ◌∷◌, [], IfErr, IfOk, OnOk, Some, length};
ghost use Rattle.std.specs.List.{All};
ghost use Rattle.std.specs.List.Sorted.{IsPermutation};
ghost use Rattle.tl_patch_elements.specs.View.{elements_view};
ghost use Rattle.tl_patch_spec.specs.Patches.{asked_of};
ghost use Rattle.tl_patch_spec.specs.Tail.{elements_up_to_tail};
ghost use Rattle.tl_patch_spec.specs.LeftOpen.{without_ended};
ghost use Rattle.tl_patch_spec.specs.Together.{asked_each, asked_from, at_each, depth_of, gone_after, is_gone, none_gone, rank_of, turn_of};
ghost use Rattle.tl_patch_edit.specs.Open.{ArePushed, left_view};
ghost use Rattle.tl_patch_edit.specs.Asks.{planned_view};
ghost use Rattle.tl_patch_edit.specs.Inner.Causes.{IsAsksError, IsPlanError, IsPlanned, IsStartsError};
ghost use Rattle.tl_patch_edit.specs.Errors.{pieces_in};
ghost use Rattle.tl_patch_edit.specs.Several.{AreExtents, AreInTurn, AreMeantAt, AreSorted, IsMeantOfPage, asked_view, places_of, stands_twice};
ghost use Rattle.tl_patch_edit.specs.View.{extent_view, gone_view, meant_view, patch_view, patches_view, turn_view};

use crate::ask::{ElementPatch, Extent, Gone, MeantPatch, PlacedAsk, PlacedPatch, Planned, Turn};
use crate::edit::{meant_start, planned_for, push_asks};
use crate::error::EditError;
use crate::extent::extents_of;
use crate::left_open::{LeftOpen, open_for, push_end_tags, without_ended};
use std::alloc::{AllocError, Global};
use std::cmp::Reverse;
use tl_html_tokens::Token;
use tl_patch_elements::Element;

fn push_meant<'n>(one: MeantPatch<'n>, out: &mut Vec<MeantPatch<'n>>) -> Result<(), AllocError>
    ensures { OnOk result (out.new.items ≡ out.old.items ++ one.entry ∷ []) }
{
    out.push(one)?;
    Ok(())
}

// Patches with the start tags at their places, which stand in order; a place may stand several
// times.
pub(crate) fn meant_at<'n>(
    alloc: Global,
    tokens: &[Token],
    patches: &[PlacedPatch<'n>],
) -> Result<Vec<MeantPatch<'n>>, EditError>
    ensures meant { IfOk result (λ meant. AreMeantAt 0 tokens.now patches.now meant.items) }
    ensures error { IfErr result
        (IsStartsError tokens.now (places_of (patches_view patches.now))) }
{
    let mut meant = Vec::with_capacity(alloc, patches.len())?;
    let mut from = 0usize;
    for at in 0..patches.len() {
        let one = patches[at];
        let start = meant_start(tokens, from, one.place)?;
        let patch = one.patch;
        push_meant(MeantPatch { start, patch }, &mut meant)?;
        from = start.number;
    }
    Ok(meant)
}

// What a patch asks for of its element.
pub(crate) fn planned_by<'n>(
    alloc: Global,
    page: &'n [u8],
    one: MeantPatch<'n>,
    extents: &[Extent],
) -> Result<Planned<'n>, EditError>
    requires start { IsMeantOfPage page.now one }
    requires extents { AreExtents (elements_up_to_tail (pieces_in page.now)) extents.now }
    requires within { one.start.number < length extents.now }
    ensures planned { IfOk result (λ planned.
        asked_of (pieces_in page.now) one.entry.start.number (patch_view one.entry.patch)
        ≡ Some (planned_view planned)) }
    ensures error { IfErr result (IsPlanError one.entry.start.token.start
        (asked_of (pieces_in page.now) one.entry.start.number (patch_view one.entry.patch))) }
{
    let planned = planned_for(alloc, page, one, extents[one.start.number])?;
    Ok(planned)
}

// Whether an element begins in what was taken away.
pub(crate) fn is_gone(gone: Gone, number: usize) -> bool
    ensures { result ≡ is_gone (gone_view gone) number }
{
    gone.from < number && number < gone.until
}

// What is taken away after a patch of an element.
pub(crate) fn gone_after(
    patch: ElementPatch<'_>,
    number: usize,
    planned: Planned<'_>,
    gone: Gone,
) -> Gone
    ensures { gone_view result ≡ gone_after (patch_view patch.entry) number
        (planned_view planned.entry) (gone_view gone) }
{
    let until = planned.first.until;
    let here = Gone {
        from: number,
        until,
    };
    match patch {
        ElementPatch::Remove => here,
        ElementPatch::ReplaceWith { .. } => here,
        ElementPatch::Fill { .. } => here,
        _ => gone,
    }
}

fn depth_of(patch: ElementPatch<'_>, number: usize) -> usize
    ensures { result ≡ depth_of (patch_view patch.entry) number }
{
    match patch {
        ElementPatch::PutBefore { .. } => 0,
        _ => number,
    }
}

fn rank_of(patch: ElementPatch<'_>) -> usize
    ensures { result ≡ rank_of (patch_view patch.entry) }
{
    match patch {
        ElementPatch::Prepend { .. } => 0,
        ElementPatch::Fill { .. } => 1,
        ElementPatch::Append { .. } => 2,
        ElementPatch::Rename { .. } => 3,
        ElementPatch::PutAfter { .. } => 4,
        ElementPatch::PutBefore { .. } => 5,
        _ => 0,
    }
}

// When what a patch puts has its turn.
fn turn_of(patch: ElementPatch<'_>, number: usize, at: usize) -> Turn
    ensures { turn_view result ≡ turn_of (patch_view patch.entry) number at }
{
    Turn {
        depth: depth_of(patch, number),
        rank: rank_of(patch),
        at,
    }
}

// Adds what a patch asks for of its element, with these end tags.
fn push_all<'n>(
    one: MeantPatch<'n>,
    at: usize,
    extent: Extent,
    planned: Planned<'n>,
    left: &mut LeftOpen<'n>,
    out: &mut Vec<PlacedAsk<'n>>,
) -> Result<(), AllocError>
    ensures { OnOk result (ArePushed one.entry at (extent_view extent) planned.entry left.old
        out.old.items left.new out.new.items) }
{
    let turn = turn_of(one.patch, one.start.number, at);
    push_asks(one.start, turn, planned, out)?;
    push_end_tags(one, at, extent, left, out)?;
    Ok(())
}

// What these patches ask for, where this is left open.
fn asks_of<'n>(
    alloc: Global,
    page: &'n [u8],
    meant: &[MeantPatch<'n>],
    extents: &[Extent],
    all_left: LeftOpen<'n>,
) -> Result<Vec<PlacedAsk<'n>>, EditError>
    requires meant { All (IsMeantOfPage page.now) meant.now }
    requires extents { AreExtents (elements_up_to_tail (pieces_in page.now)) extents.now }
    requires within { length (pieces_in page.now) ≤ length extents.now }
    requires left { asked_each (pieces_in page.now) (meant_view meant.now)
        ≡ asked_from (pieces_in page.now) 0 none_gone (left_view all_left) (meant_view meant.now) }
    ensures asks { IfOk result (λ asks.
        asked_each (pieces_in page.now) (meant_view meant.now) ≡ Some (asked_view asks.items)) }
    ensures planned { IfOk result (λ asks. All (IsPlanned meant.now) asks.items) }
    ensures error { IfErr result (IsAsksError page.now meant.now) }
{
    let mut left = all_left;
    let mut asks = Vec::with_capacity(alloc, meant.len())?;
    let mut gone = Gone { from: 0, until: 0 };
    for at in 0..meant.len() {
        let one = meant[at];
        let is_gone = is_gone(gone, one.start.number);
        if !is_gone {
            let planned = planned_by(alloc, page, one, extents)?;
            let extent = extents[one.start.number];
            push_all(one, at, extent, planned, &mut left, &mut asks)?;
            gone = gone_after(one.patch, one.start.number, planned, gone);
        }
    }
    Ok(asks)
}

// Puts asks in order, in turn where they are for one place.
fn sort_asks(asks: &mut Vec<PlacedAsk<'_>>) -> Result<(), AllocError>
    ensures permutation { IsPermutation asks.old.items asks.new.items }
    ensures in_turn { OnOk result (AreInTurn asks.new.items) }
{
    asks.sort_by_key(|placed| {
        (
            placed.ask.from,
            placed.ask.until,
            Reverse(placed.turn.depth),
            placed.turn.rank,
            placed.turn.at,
        )
    })
}

// What these patches ask for, in order.
fn sorted_asks<'n>(
    alloc: Global,
    page: &'n [u8],
    meant: &[MeantPatch<'n>],
    extents: &[Extent],
    all_left: LeftOpen<'n>,
) -> Result<Vec<PlacedAsk<'n>>, EditError>
    requires meant { All (IsMeantOfPage page.now) meant.now }
    requires extents { AreExtents (elements_up_to_tail (pieces_in page.now)) extents.now }
    requires within { length (pieces_in page.now) ≤ length extents.now }
    requires left { asked_each (pieces_in page.now) (meant_view meant.now)
        ≡ asked_from (pieces_in page.now) 0 none_gone
        (without_ended (meant_view meant.now) (left_view all_left)) (meant_view meant.now) }
    ensures sorted { IfOk result (λ asks.
        AreSorted (pieces_in page.now) (meant_view meant.now) asks.items) }
    ensures planned { IfOk result (λ asks. All (IsPlanned meant.now) asks.items) }
    ensures error { IfErr result (IsAsksError page.now meant.now) }
{
    let mut left = all_left;
    without_ended(meant, &mut left);
    let mut asks = asks_of(alloc, page, meant, extents, left)?;
    sort_asks(&mut asks)?;
    Ok(asks)
}

// What these patches ask for, in order, of a page that has these elements and so many tokens.
pub(crate) fn page_asks<'n>(
    alloc: Global,
    page: &'n [u8],
    elements: Vec<Element<'n>>,
    len: usize,
    meant: &[MeantPatch<'n>],
) -> Result<Vec<PlacedAsk<'n>>, EditError>
    requires meant { All (IsMeantOfPage page.now) meant.now }
    requires elements { elements_view elements.items ≡ elements_up_to_tail (pieces_in page.now) }
    requires len { length (pieces_in page.now) ≡ len }
    ensures sorted { IfOk result (λ asks.
        AreSorted (pieces_in page.now) (meant_view meant.now) asks.items) }
    ensures planned { IfOk result (λ asks. All (IsPlanned meant.now) asks.items) }
    ensures error { IfErr result (IsAsksError page.now meant.now) }
{
    let extents = extents_of(alloc, elements.as_slice(), len)?;
    let left = open_for(alloc, elements.as_slice(), len, meant)?;
    sorted_asks(alloc, page, meant, extents.as_slice(), left)
}

// Whether the place behind one is the same.
fn stands_twice(places: &[usize]) -> bool
    ensures { result ≡ stands_twice places.now }
{
    match places {
        [place, next, ..] => place == next,
        _ => false,
    }
}

fn push_patch<'n>(one: PlacedPatch<'n>, out: &mut Vec<PlacedPatch<'n>>) -> Result<(), AllocError>
    ensures { OnOk result (out.new.items ≡ out.old.items ++ one.entry ∷ []) }
{
    out.push(one)?;
    Ok(())
}

// This patch at each of these places.
pub(crate) fn each_at<'n>(
    alloc: Global,
    places: &[usize],
    patch: ElementPatch<'n>,
) -> Result<Vec<PlacedPatch<'n>>, AllocError>
    ensures { IfOk result (λ patches. patches_view patches.items
        ≡ at_each (patch_view patch.entry) places.now) }
{
    let mut patches = Vec::with_capacity(alloc, places.len())?;
    for at in 0..places.len() {
        let is_twice = stands_twice(&places[at..]);
        if !is_twice {
            let place = places[at];
            push_patch(PlacedPatch { place, patch }, &mut patches)?;
        }
    }
    Ok(patches)
}
