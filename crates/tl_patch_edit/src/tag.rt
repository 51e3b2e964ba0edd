//! Tags that are put, by themselves.
ghost use Rattle.std.specs.Prelude.{◌≡◌, ◌≤◌, ◌∷◌, ◌++◌, [], IfErr, IfNone, IfOk, IfSome, IsSome, OnOk, false, length, true};
ghost use Rattle.std.specs.List.{All};
ghost use Rattle.tl_html_parts.specs.Parts.{name_of};
ghost use Rattle.tl_patch.specs.Places.{begins_end_tag};
ghost use Rattle.tl_patch_edit.specs.Asks.{IsEndTagOf, IsEscaped, IsRenamedEnd, IsRenamedTag, IsTagAt, IsTagFor, IsTagged, placed_of};
ghost use Rattle.tl_patch_edit.specs.Inner.Causes.{CannotPut, IsReadyError, IsSpliceError, IsWithin, has_name, has_tag};
ghost use Rattle.tl_patch_edit.specs.Inner.Parts.{part_view, parts_view};
ghost use Rattle.tl_patch_edit.specs.declared.ask.Put.TheVariants.{Renamed};
ghost use Rattle.tl_patch_spec.specs.Markup.{is_name};
ghost use Rattle.tl_patch.specs.StartTags.{IsRenamed, is_start_tag};

use crate::ask::{Ask, PlacedAsk, Put};
use crate::error::EditError;
use crate::part::{Part, place_at};
use crate::put::is_data;
use crate::ready::escaped_for;
use std::alloc::{AllocError, Global};
use tl_html_parts::lower_name;
use tl_html_tokens::TokenKind;
use tl_patch::{is_name, with_end_name, with_name};

// The end tag of a name.
fn end_tag(alloc: Global, name: &[u8]) -> Result<Option<Vec<u8>>, AllocError>
    requires { is_name name.now ≡ true }
    ensures tag { IfOk result (λ found. IfSome found (λ tag. IsEndTagOf name.now tag.items)) }
    ensures some { IfOk result (λ found. IsSome found) }
{
    let mut tag = Vec::new(alloc);
    tag.extend_from_slice(b"</")?;
    tag.extend_from_slice(name)?;
    tag.extend_from_slice(b">")?;
    Ok(Some(tag))
}

// The end tag of a name as it stands in a start tag.
fn lower_end_tag(alloc: Global, raw: &[u8]) -> Result<Option<Vec<u8>>, AllocError>
    requires { is_name (name_of raw.now) ≡ true }
    ensures tag { IfOk result (λ found. IfSome found (λ tag.
        IsEndTagOf (name_of raw.now) tag.items)) }
    ensures some { IfOk result (λ found. IsSome found) }
{
    let name = lower_name(alloc, raw)?;
    end_tag(alloc, name.as_bytes())
}

// An end tag with another name; `None` where no end tag begins whose name ends.
fn renamed_end(alloc: Global, tag: &[u8], name: &[u8]) -> Result<Option<Vec<u8>>, AllocError>
    requires { is_name name.now ≡ true }
    ensures renamed { IfOk result (λ found. IfSome found (λ new.
        IsRenamedEnd name.now tag.now new.items)) }
    ensures none { IfOk result (λ found. IfNone found (begins_end_tag tag.now ≡ false)) }
{
    let Some(new) = with_end_name(alloc, tag, name)? else {
        return Ok(None);
    };
    Ok(Some(new))
}

// The same of a start tag, by itself.
fn renamed_start(alloc: Global, tag: &[u8], name: &[u8]) -> Result<Option<Vec<u8>>, AllocError>
    requires { is_name name.now ≡ true }
    ensures renamed { IfOk result (λ found. IfSome found (λ new.
        IsRenamed name.now tag.now new.items)) }
    ensures none { IfOk result (λ found. IfNone found (is_start_tag tag.now ≡ false)) }
{
    let Some(new) = with_name(alloc, tag, name)? else {
        return Ok(None);
    };
    Ok(Some(new))
}

// A tag with another name; `None` where none stands there, or not in markup.
fn renamed_tag(alloc: Global, place: Part<'_>, name: &[u8]) -> Result<Option<Vec<u8>>, AllocError>
    requires { is_name name.now ≡ true }
    ensures tag { IfOk result (λ found. IfSome found (λ new.
        IsRenamedTag name.now (part_view place.entry) new.items)) }
    ensures none { IfOk result (λ found. IfNone found
        (has_tag (part_view place.entry) (Renamed name.entry) ≡ false)) }
{
    let is_data = is_data(place.mode);
    if !is_data {
        return Ok(None);
    }
    match place.kind {
        TokenKind::StartTag => renamed_start(alloc, place.bytes, name),
        TokenKind::EndTag => renamed_end(alloc, place.bytes, name),
        _ => Ok(None),
    }
}

// The tag that is put at a part, which is empty where none is; `None` where none stands there that
// could get another name.
fn tag_for(alloc: Global, place: Part<'_>, put: Put<'_>) -> Result<Option<Vec<u8>>, AllocError>
    requires { has_name put ≡ true }
    ensures tag { IfOk result (λ found. IfSome found (λ tag.
        IsTagFor put.entry (part_view place.entry) tag.items)) }
    ensures none { IfOk result (λ found. IfNone found
        (has_tag (part_view place.entry) put.entry ≡ false)) }
{
    match put {
        Put::Nothing => Ok(Some(Vec::new(alloc))),
        Put::Content { .. } => Ok(Some(Vec::new(alloc))),
        Put::LeftOut { raw } => lower_end_tag(alloc, raw),
        Put::EndTag { name } => end_tag(alloc, name),
        Put::Renamed { name } => renamed_tag(alloc, place, name),
    }
}

// Whether the name of a tag that is written in lower case can stand so.
fn is_lower_name(alloc: Global, raw: &[u8]) -> Result<bool, AllocError>
    ensures { IfOk result (λ is. is ≡ is_name (name_of raw.now)) }
{
    let name = lower_name(alloc, raw)?;
    Ok(is_name(name.as_bytes()))
}

// Whether the name of the tag that is put can stand as it is.
fn has_name(alloc: Global, put: Put<'_>) -> Result<bool, AllocError>
    ensures { IfOk result (λ has. has ≡ has_name put.entry) }
{
    match put {
        Put::LeftOut { raw } => is_lower_name(alloc, raw),
        Put::EndTag { name } => Ok(is_name(name)),
        Put::Renamed { name } => Ok(is_name(name)),
        _ => Ok(true),
    }
}

// The tag that is put for an ask.
fn tag_put(alloc: Global, parts: &[Part<'_>], ask: Ask<'_>) -> Result<Option<Vec<u8>>, AllocError>
    requires within { ask.from ≤ length parts.now }
    requires name { has_name ask.put ≡ true }
    ensures tag { IfOk result (λ found. IfSome found (λ tag.
        IsTagAt (parts_view parts.now) ask.entry tag.items)) }
    ensures none { IfOk result (λ found. IfNone found
        (CannotPut (parts_view parts.now) ask.entry)) }
{
    let place = place_at(parts, ask.from);
    let Some(tag) = tag_for(alloc, place, ask.put)? else {
        return Ok(None);
    };
    Ok(Some(tag))
}

// An ask, with the tag that is put, and with its text as it stands in markup.
#[derive(Drop)]
pub(crate) struct ReadyAsk<'n> {
    pub(crate) placed: PlacedAsk<'n>,
    pub(crate) tag: Vec<u8>,
    pub(crate) escaped: Vec<u8>,
}

// The tag that is put for an ask, if it can be written.
fn ready_tag(alloc: Global, parts: &[Part<'_>], placed: PlacedAsk<'_>) -> Result<Vec<u8>, EditError>
    ensures tag { IfOk result (λ tag.
        IsTagAt (parts_view parts.now) placed.entry.ask tag.items) }
    ensures within { IfOk result (λ tag. placed.entry.ask.from ≤ length parts.now) }
    ensures error { IfErr result (IsReadyError (parts_view parts.now) placed.entry) }
{
    let place = placed.start.token.start;
    if placed.ask.from > parts.len() {
        return Err(EditError::EndOfPage(place));
    }
    let has_name = has_name(alloc, placed.ask.put)?;
    if !has_name {
        return Err(EditError::NotWritten(place));
    }
    let Some(tag) = tag_put(alloc, parts, placed.ask)? else {
        return Err(EditError::NotWritten(place));
    };
    Ok(tag)
}

fn ready_ask<'n>(
    alloc: Global,
    parts: &[Part<'_>],
    placed: PlacedAsk<'n>,
) -> Result<ReadyAsk<'n>, EditError>
    ensures ask { IfOk result (λ ready. ready.placed ≡ placed.entry) }
    ensures tag { IfOk result (IsTagged (parts_view parts.now)) }
    ensures escaped { IfOk result IsEscaped }
    ensures within { IfOk result (IsWithin (length parts.now)) }
    ensures error { IfErr result (IsReadyError (parts_view parts.now) placed.entry) }
{
    let tag = ready_tag(alloc, parts, placed)?;
    let escaped = escaped_for(alloc, placed.ask.put)?;
    Ok(ReadyAsk {
        placed,
        tag,
        escaped,
    })
}

fn push_ready<'n>(ready: ReadyAsk<'n>, out: &mut Vec<ReadyAsk<'n>>) -> Result<(), AllocError>
    ensures { OnOk result (out.new.items ≡ out.old.items ++ ready.entry ∷ []) }
{
    out.push(ready)?;
    Ok(())
}

// Asks with the tags and texts that are put.
pub(crate) fn ready_asks<'n>(
    alloc: Global,
    parts: &[Part<'_>],
    asks: &[PlacedAsk<'n>],
) -> Result<Vec<ReadyAsk<'n>>, EditError>
    ensures asks { IfOk result (λ ready. placed_of ready.items ≡ asks.now) }
    ensures tags { IfOk result (λ ready. All (IsTagged (parts_view parts.now)) ready.items) }
    ensures escaped { IfOk result (λ ready. All IsEscaped ready.items) }
    ensures within { IfOk result (λ ready. All (IsWithin (length parts.now)) ready.items) }
    ensures error { IfErr result (IsSpliceError (parts_view parts.now) asks.now) }
{
    let mut ready = Vec::with_capacity(alloc, asks.len())?;
    for at in 0..asks.len() {
        let one = ready_ask(alloc, parts, asks[at])?;
        push_ready(one, &mut ready)?;
    }
    Ok(ready)
}
