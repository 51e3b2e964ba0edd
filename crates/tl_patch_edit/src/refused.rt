//! Which of some patches are refused, each by itself.
ghost use Rattle.std.specs.List.{All};
ghost use Rattle.std.specs.Option.{option_map, option_to_list};
ghost use Rattle.std.specs.Prelude.{IfNone, IfOk, IfSome, OnOk, Some, false, length, true, ◌++◌, ◌<◌, ◌≡◌, ◌≤◌};
ghost use Rattle.tl_html_tokens.specs.Tokens.{AreTokensOf};
ghost use Rattle.tl_html_tokens.specs.declared.stage.TokenKind.TheVariants.{StartTag};
ghost use Rattle.tl_patch_edit.specs.Apart.{gone_with, refusal_of, refused_apart, unless_some, unstarted_in};
ghost use Rattle.tl_patch_edit.specs.Errors.{IsRefused, LacksStartTag, pieces_in};
ghost use Rattle.tl_patch_edit.specs.Found.{IsStartAt};
ghost use Rattle.tl_patch_edit.specs.Inner.Apart.{ArePassed, IsReached, IsReachedAt, IsStartOfPage, NoStartThere, start_number};
ghost use Rattle.tl_patch_edit.specs.Several.{AreExtents, IsMeantOfPage};
ghost use Rattle.tl_patch_edit.specs.View.{gone_view, patch_view, patches_view};
ghost use Rattle.tl_patch_spec.specs.Tail.{elements_up_to_tail};
ghost use Rattle.tl_patch_spec.specs.Together.{at_each};

use crate::ask::{ElementPatch, Extent, Gone, MeantPatch, PlacedPatch, Start};
use crate::edit::is_start_at;
use crate::error::EditError;
use crate::extent::extents_of;
use crate::several::{each_at, gone_after, is_gone, planned_by};
use crate::tail::elements_up_to_tail;
use std::alloc::{AllocError, Global};
use tl_html_tokens::{Token, tokens};

// Whether a token is the start tag at a place, or begins behind it.
fn is_reached(token: &Token, place: usize) -> bool
    ensures reached { result ≡ true → IsReached token.now place }
    ensures before { result ≡ false → token.now.start ≤ place }
    ensures not { result ≡ false → token.now.start ≡ place → token.now.kind ≡ StartTag → ⊥ }
{
    let is_start = is_start_at(token, place);
    is_start || place < token.start
}

// The number of the first token from one on that is the start tag at a place, or begins behind it.
fn sought(tokens: &[Token], from: usize, place: usize) -> usize
    requires { from ≤ length tokens.now }
    ensures order { from ≤ result }
    ensures within { result ≤ length tokens.now }
    ensures passed { ArePassed tokens.now place from result }
    ensures reached { IsReachedAt tokens.now place result }
{
    for at in from..tokens.len() {
        let is_reached = is_reached(&tokens[at], place);
        if is_reached {
            return at;
        }
    }
    tokens.len()
}

// The start tag at a place, if it is the token of this number.
fn start_there(tokens: &[Token], number: usize, place: usize) -> Option<Start>
    ensures start { IfSome result (λ start.
        IsStartAt tokens.now place start.number start.token) }
    ensures number { IfSome result (λ start. start.number ≡ number) }
    ensures none { IfNone result (NoStartThere tokens.now place number) }
{
    if number >= tokens.len() {
        return None;
    }
    let is_it = is_start_at(&tokens[number], place);
    if !is_it {
        return None;
    }
    Some(Start {
        number,
        token: tokens[number],
    })
}

// Why a patch can't be meant for its element, unless that goes with another one.
fn unmeant<'n>(
    alloc: Global,
    page: &'n [u8],
    one: MeantPatch<'n>,
    extents: &[Extent],
    gone: &mut Gone,
) -> Result<Option<EditError>, AllocError>
    requires start { IsMeantOfPage page.now one }
    requires extents { AreExtents (elements_up_to_tail (pieces_in page.now)) extents.now }
    requires within { one.start.number < length extents.now }
    ensures error { IfOk result (λ found. found ≡ refusal_of page.now (gone_view gone.old)
        (one.entry.start.token.start, patch_view one.entry.patch) (Some one.entry.start.number)) }
    ensures gone { OnOk result (gone_view gone.new ≡ gone_with page.now (gone_view gone.old)
        (one.entry.start.token.start, patch_view one.entry.patch) (Some one.entry.start.number)) }
{
    let is_gone = is_gone(*gone, one.start.number);
    if is_gone {
        return Ok(None);
    }
    match planned_by(alloc, page, one, extents) {
        Ok(planned) => {
            *gone = gone_after(one.patch, one.start.number, planned, *gone);
            Ok(None)
        }
        Err(EditError::NotMeant(place)) => Ok(Some(EditError::NotMeant(place))),
        Err(_) => Err(AllocError),
    }
}

// Why a patch is refused by itself, where this is the start tag of its element.
fn refused_one<'n>(
    alloc: Global,
    page: &'n [u8],
    start: Option<Start>,
    one: PlacedPatch<'n>,
    extents: &[Extent],
    gone: &mut Gone,
) -> Result<Option<EditError>, AllocError>
    requires start { IfSome start (IsStartOfPage page.now one.place) }
    requires extents { AreExtents (elements_up_to_tail (pieces_in page.now)) extents.now }
    requires within { length (pieces_in page.now) ≤ length extents.now }
    ensures error { IfOk result (λ found. found ≡ refusal_of page.now (gone_view gone.old)
        (one.entry.place, patch_view one.entry.patch) (option_map start_number start)) }
    ensures gone { OnOk result (gone_view gone.new ≡ gone_with page.now (gone_view gone.old)
        (one.entry.place, patch_view one.entry.patch) (option_map start_number start)) }
{
    let Some(start) = start else {
        return Ok(Some(EditError::NoStartTag(one.place)));
    };
    let patch = one.patch;
    unmeant(alloc, page, MeantPatch { start, patch }, extents, gone)
}

fn push_if(found: Option<EditError>, errors: &mut Vec<EditError>) -> Result<(), AllocError>
    ensures { OnOk result (errors.new.items ≡ errors.old.items ++ option_to_list found) }
{
    if let Some(error) = found {
        errors.push(error)?;
    }
    Ok(())
}

// Adds a place at which no start tag is found.
fn push_unless(
    start: Option<Start>,
    place: usize,
    unstarted: &mut Vec<usize>,
) -> Result<(), AllocError>
    ensures { OnOk result (unstarted.new.items ≡ unstarted.old.items
        ++ unless_some (option_map start_number start) place) }
{
    if start.is_none() {
        unstarted.push(place)?;
    }
    Ok(())
}

// Why those of these patches are refused that are so each by itself.
fn all_refused<'n>(
    alloc: Global,
    page: &'n [u8],
    tokens: &[Token],
    extents: &[Extent],
    patches: &[PlacedPatch<'n>],
) -> Result<Vec<EditError>, AllocError>
    requires tokens { AreTokensOf page.now tokens.now }
    requires extents { AreExtents (elements_up_to_tail (pieces_in page.now)) extents.now }
    requires within { length (pieces_in page.now) ≤ length extents.now }
    ensures { IfOk result (λ errors.
        errors.items ≡ refused_apart page.now (patches_view patches.now)) }
{
    let mut errors = Vec::new(alloc);
    let mut from = 0usize;
    let mut gone = Gone { from: 0, until: 0 };
    for at in 0..patches.len() {
        let one = patches[at];
        from = sought(tokens, from, one.place);
        let start = start_there(tokens, from, one.place);
        let found = refused_one(alloc, page, start, one, extents, &mut gone)?;
        push_if(found, &mut errors)?;
    }
    Ok(errors)
}

// Those of some places at which no start tag begins.
fn all_unstarted(
    alloc: Global,
    page: &[u8],
    tokens: &[Token],
    places: &[usize],
) -> Result<Vec<usize>, AllocError>
    requires { AreTokensOf page.now tokens.now }
    ensures { IfOk result (λ unstarted. unstarted.items ≡ unstarted_in page.now places.now) }
{
    let mut unstarted = Vec::new(alloc);
    let mut from = 0usize;
    for at in 0..places.len() {
        let place = places[at];
        from = sought(tokens, from, place);
        let start = start_there(tokens, from, place);
        push_unless(start, place, &mut unstarted)?;
    }
    Ok(unstarted)
}

/// Those of some places of a page at which no start tag begins, in order. A place behind a greater
/// one is named as well, so the places are given in order.
pub fn unstarted_at(alloc: Global, page: &[u8], places: &[usize]) -> Result<Vec<usize>, AllocError>
    ensures exact { IfOk result (λ unstarted.
        unstarted.items ≡ unstarted_in page.now places.now) }
    ensures lack { IfOk result (λ unstarted.
        All (LacksStartTag page.now places.now) unstarted.items) }
{
    let tokens = tokens(alloc, page)?;
    all_unstarted(alloc, page, tokens.as_slice(), places)
}

/// Why `patch_elements` can't make this patch of those elements for which it is so whatever the
/// others are, in order: no start tag begins at the place, or the patch isn't meant for that
/// element. An element that goes with another one isn't named. A place that stands behind a greater
/// one is named as one without a start tag, so the places are given in order.
pub fn refusals_at(
    alloc: Global,
    page: &[u8],
    places: &[usize],
    patch: ElementPatch<'_>,
) -> Result<Vec<EditError>, AllocError>
    ensures exact { IfOk result (λ errors. errors.items
        ≡ refused_apart page.now (at_each (patch_view patch.entry) places.now)) }
    ensures refused { IfOk result (λ errors. All
        (IsRefused page.now (at_each (patch_view patch.entry) places.now)) errors.items) }
{
    let patches = each_at(alloc, places, patch)?;
    let found = elements_up_to_tail(alloc, page)?;
    let tokens = found.tokens.as_slice();
    let extents = extents_of(alloc, found.elements.as_slice(), tokens.len())?;
    all_refused(alloc, page, tokens, extents.as_slice(), patches.as_slice())
}
