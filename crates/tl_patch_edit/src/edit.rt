//! A page with what is asked for.
ghost use Rattle.std.specs.Prelude.{◌≡◌, ◌≤◌, ◌++◌, List, IfErr, IfNone, IfOk, IfSome, OnOk, Some, false, true};
ghost use Rattle.tl_html_parts.specs.Parts.{name_of};
ghost use Rattle.tl_html_tokens.specs.declared.stage.TokenKind.TheVariants.{StartTag};
ghost use Rattle.tl_patch_edit.specs.Asks.{asks_view, placed_view, planned_view};
ghost use Rattle.tl_patch_edit.specs.Inner.Causes.{IsPageError, IsPlanError, IsReadError, IsStartError, NoStartFrom};
ghost use Rattle.tl_patch_edit.specs.Several.{IsMeantOfPage};
ghost use Rattle.tl_patch_edit.specs.Found.{IsReadAs, IsSplicedPageOf, IsStartAt, IsTagName, has_mark, mark_bytes};
ghost use Rattle.tl_patch_edit.specs.Inner.Parts.{Say, part_bytes, parts_view};
ghost use Rattle.tl_patch_edit.specs.Sayings.{Saying, sayings};
ghost use Rattle.tl_patch_edit.specs.View.{extent_view, patch_view};
ghost use Rattle.tl_html_spec.specs.Pieces.{pieces};
ghost use Rattle.tl_patch_edit.specs.Errors.{pieces_in};
ghost use Rattle.tl_patch_spec.specs.Patches.{asked, asked_of, extent_in};
ghost use Rattle.tl_patch_spec.specs.Tail.{elements_up_to_tail};

use crate::ask::{Extent, MeantPatch, PlacedAsk, Planned, Start, Turn};
use crate::compare::are_same;
use crate::error::EditError;
use crate::part::{Part, parts_of, token_bytes, write};
use crate::plan::plan;
use crate::ready::has_mark;
use crate::tag::ready_asks;
use crate::wanted::wanted_parts;
use std::alloc::{AllocError, Global};
use tl_html_parts::tag_parts;
use tl_html_tokens::{Token, TokenKind, tokens};

// Whether a token is a start tag at a place.
pub(crate) fn is_start_at(token: &Token, place: usize) -> bool
    ensures start { result ≡ true → token.now.start ≡ place }
    ensures kind { result ≡ true → token.now.kind ≡ StartTag }
    ensures not { result ≡ false → token.now.start ≡ place → token.now.kind ≡ StartTag → ⊥ }
{
    token.start == place && matches!(token.kind, TokenKind::StartTag)
}

// The start tag that begins at a place, sought from a number on.
fn start_from(tokens: &[Token], from: usize, place: usize) -> Option<Start>
    ensures start { IfSome result (λ start.
        IsStartAt tokens.now place start.number start.token) }
    ensures order { IfSome result (λ start. from ≤ start.number) }
    ensures none { IfNone result (NoStartFrom from tokens.now place) }
{
    for at in from..tokens.len() {
        let is_it = is_start_at(&tokens[at], place);
        if is_it {
            return Some(Start {
                number: at,
                token: tokens[at],
            });
        }
    }
    None
}

// The name of a start tag, as it stands there.
pub(crate) fn tag_name<'p>(alloc: Global, bytes: &'p [u8]) -> Result<&'p [u8], AllocError>
    ensures { IfOk result (λ name. IsTagName bytes.now (name_of name.now)) }
{
    let parts = tag_parts(alloc, bytes)?;
    Ok(parts.name)
}

// Whether a text is read as these parts.
fn is_read_as(alloc: Global, text: &[u8], wanted: &[Part<'_>]) -> Result<bool, AllocError>
    ensures is { IfOk result (λ is. is ≡ true → (said : List Saying) →
        Say (parts_view wanted.now) said → sayings (pieces text.now) ≡ said) }
    ensures not { IfOk result (λ is. is ≡ false → (said : List Saying) →
        Say (parts_view wanted.now) said → sayings (pieces text.now) ≡ said → ⊥) }
{
    let tokens = tokens(alloc, text)?;
    let parts = parts_of(alloc, text, tokens.as_slice())?;
    let is_it = are_same(alloc, wanted, parts.as_slice())?;
    Ok(is_it)
}

// A byte order mark, if the page has one, and these parts.
fn written(alloc: Global, is_marked: bool, wanted: &[Part<'_>]) -> Result<Vec<u8>, AllocError>
    ensures { IfOk result (λ text.
        text.items ≡ mark_bytes is_marked ++ part_bytes (parts_view wanted.now)) }
{
    let mut text = Vec::new(alloc);
    push_mark_if(is_marked, &mut text)?;
    write(wanted, &mut text)?;
    Ok(text)
}

fn push_mark_if(is_marked: bool, text: &mut Vec<u8>) -> Result<(), AllocError>
    ensures { OnOk result (text.new.items ≡ text.old.items ++ mark_bytes is_marked) }
{
    if is_marked {
        text.extend_from_slice(b"\xEF\xBB\xBF")?;
    }
    Ok(())
}

fn is_same(one: bool, other: bool) -> bool
    ensures is { result ≡ true → one ≡ other }
    ensures not { result ≡ false → one ≡ other → ⊥ }
{
    if one { other } else { !other }
}

// These parts as a page, which is read again.
fn read_again(
    alloc: Global,
    page: &[u8],
    wanted: &[Part<'_>],
    place: usize,
) -> Result<Vec<u8>, EditError>
    ensures text { IfOk result (λ text. IsReadAs page.now (parts_view wanted.now) text.items) }
    ensures error { IfErr result (IsReadError page.now (parts_view wanted.now) place) }
{
    let is_marked = has_mark(page);
    let text = written(alloc, is_marked, wanted)?;
    let is_still_marked = has_mark(text.as_slice());
    let is_same = is_same(is_still_marked, is_marked);
    if !is_same {
        return Err(EditError::ReadOtherwise(place));
    }
    let is_it = is_read_as(alloc, text.as_slice(), wanted)?;
    if !is_it {
        return Err(EditError::ReadOtherwise(place));
    }
    Ok(text)
}

// The page with what is asked for, in order. Its parts go before the text is read again.
pub(crate) fn spliced_page(
    alloc: Global,
    page: &[u8],
    parts: Vec<Part<'_>>,
    asks: &[PlacedAsk<'_>],
    place: usize,
) -> Result<Vec<u8>, EditError>
    ensures text { IfOk result (λ text. IsSplicedPageOf (asks_view asks.now)
        (parts_view parts.entry.items) page.now text.items) }
    ensures error { IfErr result
        (IsPageError page.now place (parts_view parts.entry.items) asks.now) }
{
    let old = parts.as_slice();
    let ready = ready_asks(alloc, old, asks)?;
    let wanted = wanted_parts(alloc, old, ready.as_slice())?;
    drop(parts);
    let text = read_again(alloc, page, wanted.as_slice(), place)?;
    Ok(text)
}

pub(crate) fn meant_start(tokens: &[Token], from: usize, place: usize) -> Result<Start, EditError>
    ensures start { IfOk result (λ start.
        IsStartAt tokens.now place start.number start.token) }
    ensures order { IfOk result (λ start. from ≤ start.number) }
    ensures error { IfErr result (IsStartError from tokens.now place) }
{
    match start_from(tokens, from, place) {
        Some(start) => Ok(start),
        None => Err(EditError::NoStartTag(place)),
    }
}

fn meant<'n>(
    alloc: Global,
    one: MeantPatch<'n>,
    extent: Extent,
    raw: &'n [u8],
) -> Result<Planned<'n>, EditError>
    ensures planned { IfOk result (λ planned.
        asked (patch_view one.entry.patch) one.entry.start.number (extent_view extent)
        (name_of raw.now) ≡ Some (planned_view planned)) }
    ensures error { IfErr result (IsPlanError one.entry.start.token.start
        (asked (patch_view one.entry.patch) one.entry.start.number (extent_view extent)
        (name_of raw.now))) }
{
    match plan(alloc, one.patch, one.start.number, extent, raw)? {
        Some(planned) => Ok(planned),
        None => Err(EditError::NotMeant(one.start.token.start)),
    }
}

// What a patch asks for of its element, which goes so far.
pub(crate) fn planned_for<'n>(
    alloc: Global,
    page: &'n [u8],
    one: MeantPatch<'n>,
    extent: Extent,
) -> Result<Planned<'n>, EditError>
    requires start { IsMeantOfPage page.now one }
    requires extent { extent_view extent
        ≡ extent_in one.start.number (elements_up_to_tail (pieces_in page.now)) }
    ensures planned { IfOk result (λ planned.
        asked_of (pieces_in page.now) one.entry.start.number (patch_view one.entry.patch)
        ≡ Some (planned_view planned)) }
    ensures error { IfErr result (IsPlanError one.entry.start.token.start
        (asked_of (pieces_in page.now) one.entry.start.number (patch_view one.entry.patch))) }
{
    let raw = tag_name(alloc, token_bytes(page, one.start.token))?;
    let planned = meant(alloc, one, extent, raw)?;
    Ok(planned)
}

// Adds what is asked for of the element of a start tag.
pub(crate) fn push_asks<'n>(
    start: Start,
    turn: Turn,
    planned: Planned<'n>,
    out: &mut Vec<PlacedAsk<'n>>,
) -> Result<(), AllocError>
    ensures { OnOk result (out.new.items ≡ out.old.items ++ placed_view start turn planned.entry) }
{
    out.push(PlacedAsk {
        start,
        turn,
        ask: planned.first,
    })?;
    if let Some(ask) = planned.second {
        out.push(PlacedAsk { start, turn, ask })?;
    }
    Ok(())
}
