//! What is put into a page.
ghost use Rattle.std.specs.Prelude.{◌≡◌, [], ◌∷◌, IfNone, IfOk, IfSome, IsSome, false};
ghost use Rattle.tl_html_spec.specs.Pieces.{bytes_of, pieces_of, runs};
ghost use Rattle.tl_html_tokens.specs.declared.mode.Mode.TheVariants.{Data};
ghost use Rattle.tl_html_tokens.specs.declared.stage.TokenKind.TheVariants.{EndTag};
ghost use Rattle.tl_patch_edit.specs.Asks.{GivePut, IsEndTagOf, IsRenamedTag, IsTagFor, IsTextPart, puts_view, text_form, text_of, text_put};
ghost use Rattle.tl_patch_edit.specs.Inner.Causes.{CannotPutIn, CannotStandIn};
ghost use Rattle.tl_patch_edit.specs.Inner.Parts.{Give, is_data, part_view, parts_view};
ghost use Rattle.tl_patch_edit.specs.Inner.Seams.{SameEdges};
ghost use Rattle.tl_patch_edit.specs.Sayings.{sayings};
ghost use Rattle.tl_patch_edit.specs.Found.{has_mark};
ghost use Rattle.tl_patch_spec.specs.Patches.{Changed, Markup, NewContent, NewEndTag, Text};
ghost use Rattle.tl_patch_spec.specs.TagChanges.{Rename};
ghost use Rattle.tl_html_parts.specs.Parts.{name_of};
ghost use Rattle.tl_patch_edit.specs.View.{content_view};
ghost use Rattle.tl_patch_spec.specs.Markup.{text_markup};

use crate::ask::{Content, Put};
use crate::part::{Part, parts_of, push};
use crate::ready::has_mark;
use std::alloc::{AllocError, Global};
use tl_html_parts::characters;
use tl_html_tokens::{Mode, TokenKind, tokens};

// A text as it stands where it is read in a mode.
fn text_form<'p>(mode: Mode, text: &'p [u8], escaped: &'p [u8]) -> &'p [u8]
    requires { escaped.now ≡ text_markup text.now }
    ensures { result.now ≡ text_form mode text.now }
{
    match mode {
        Mode::Data => escaped,
        Mode::Title => escaped,
        Mode::Textarea => escaped,
        Mode::ContextText => escaped,
        _ => text,
    }
}

// A text as a part, if it is read as it is given.
fn text_part<'p>(
    alloc: Global,
    mode: Mode,
    text: &'p [u8],
    escaped: &'p [u8],
) -> Result<Option<Part<'p>>, AllocError>
    requires { escaped.now ≡ text_markup text.now }
    ensures part { IfOk result (λ found. IfSome found (λ part.
        IsTextPart mode text.now (part_view part))) }
    ensures none { IfOk result (λ found.
        IfNone found (CannotStandIn mode (Text text.now))) }
{
    let bytes = text_form(mode, text, escaped);
    let said = characters(alloc, mode, bytes)?;
    let is_it = said.as_bytes() == text;
    if !is_it {
        return Ok(None);
    }
    Ok(Some(Part {
        kind: TokenKind::Text,
        mode,
        bytes,
    }))
}

pub(crate) fn is_data(mode: Mode) -> bool
    ensures { result ≡ is_data mode }
{
    matches!(mode, Mode::Data)
}

// A text, where it can be put.
fn text_parts<'p>(
    alloc: Global,
    place: Part<'p>,
    text: &'p [u8],
    escaped: &'p [u8],
) -> Result<Option<Vec<Part<'p>>>, AllocError>
    requires { escaped.now ≡ text_markup text.now }
    ensures parts { IfOk result (λ found. IfSome found (λ parts.
        GivePut (NewContent (Text text.now) ∷ []) (part_view place.entry)
        (parts_view parts.items))) }
    ensures none { IfOk result (λ found.
        IfNone found (CannotStandIn place.entry.mode (Text text.now))) }
{
    let Some(part) = text_part(alloc, place.mode, text, escaped)? else {
        return Ok(None);
    };
    let mut parts = Vec::new(alloc);
    push(part, &mut parts)?;
    Ok(Some(parts))
}

// Markup as parts.
fn parts_of_markup<'p>(alloc: Global, markup: &'p [u8]) -> Result<Vec<Part<'p>>, AllocError>
    ensures gives { IfOk result (λ parts. has_mark markup.now ≡ false →
        Give (parts_view parts.items) (bytes_of (pieces_of markup.now))
        (sayings (pieces_of markup.now))) }
    ensures edges { IfOk result (λ parts. has_mark markup.now ≡ false →
        SameEdges (parts_view parts.items) (runs (pieces_of markup.now))) }
{
    let tokens = tokens(alloc, markup)?;
    let parts = parts_of(alloc, markup, tokens.as_slice())?;
    Ok(parts)
}

// Markup, which is put in markup alone. A byte order mark in front would be another character.
fn markup_parts<'p>(
    alloc: Global,
    place: Part<'p>,
    markup: &'p [u8],
) -> Result<Option<Vec<Part<'p>>>, AllocError>
    ensures parts { IfOk result (λ found. IfSome found (λ parts.
        GivePut (NewContent (Markup markup.now) ∷ []) (part_view place.entry)
        (parts_view parts.items))) }
    ensures none { IfOk result (λ found.
        IfNone found (CannotStandIn place.entry.mode (Markup markup.now))) }
{
    let is_data = is_data(place.mode);
    if !is_data {
        return Ok(None);
    }
    let has_mark = has_mark(markup);
    if has_mark {
        return Ok(None);
    }
    let put = parts_of_markup(alloc, markup)?;
    Ok(Some(put))
}

fn content_parts<'p>(
    alloc: Global,
    place: Part<'p>,
    content: Content<'p>,
    escaped: &'p [u8],
) -> Result<Option<Vec<Part<'p>>>, AllocError>
    requires { escaped.now ≡ text_markup (text_of (content_view content)) }
    ensures parts { IfOk result (λ found. IfSome found (λ parts.
        GivePut (NewContent (content_view content.entry) ∷ []) (part_view place.entry)
        (parts_view parts.items))) }
    ensures none { IfOk result (λ found.
        IfNone found (CannotStandIn place.entry.mode (content_view content.entry))) }
{
    match content {
        Content::Text { text } => text_parts(alloc, place, text, escaped),
        Content::Markup { markup } => markup_parts(alloc, place, markup),
    }
}

// An end tag as a part.
fn end_tag_part(end_tag: &[u8]) -> Part<'_>
    ensures { part_view result
        ≡ record { kind = EndTag; mode = Data; bytes = end_tag.now } }
{
    Part {
        kind: TokenKind::EndTag,
        mode: Mode::Data,
        bytes: end_tag,
    }
}

// What is put where a part begins, if it can be put there.
pub(crate) fn put_parts<'p>(
    alloc: Global,
    put: Put<'p>,
    place: Part<'p>,
    escaped: &'p [u8],
    tag: &'p [u8],
) -> Result<Option<Vec<Part<'p>>>, AllocError>
    requires escaped { escaped.now ≡ text_markup (text_put put) }
    requires tag { IsTagFor put (part_view place) tag.now }
    ensures parts { IfOk result (λ found. IfSome found (λ parts.
        GivePut (puts_view put.entry) (part_view place.entry) (parts_view parts.items))) }
    ensures none { IfOk result (λ found. IfNone found
        (CannotPutIn place.entry.mode put.entry)) }
{
    match put {
        Put::Nothing => Ok(Some(Vec::new(alloc))),
        Put::Content { content } => content_parts(alloc, place, content, escaped),
        Put::LeftOut { raw } => left_out(alloc, place, raw, tag),
        Put::EndTag { name } => end_tag_alone(alloc, place, name, tag),
        Put::Renamed { name } => renamed_tag(alloc, place, name, tag),
    }
}

// An end tag that is left out.
fn left_out<'p>(
    alloc: Global,
    place: Part<'p>,
    raw: &[u8],
    tag: &'p [u8],
) -> Result<Option<Vec<Part<'p>>>, AllocError>
    requires { IsEndTagOf (name_of raw.now) tag.now }
    ensures parts { IfOk result (λ found. IfSome found (λ parts.
        GivePut (NewEndTag (name_of raw.now) ∷ []) (part_view place.entry)
        (parts_view parts.items))) }
    ensures some { IfOk result (λ found. IsSome found) }
{
    let mut parts = Vec::new(alloc);
    push(end_tag_part(tag), &mut parts)?;
    Ok(Some(parts))
}

fn end_tag_alone<'p>(
    alloc: Global,
    place: Part<'p>,
    name: &[u8],
    tag: &'p [u8],
) -> Result<Option<Vec<Part<'p>>>, AllocError>
    requires { IsEndTagOf name.now tag.now }
    ensures parts { IfOk result (λ found. IfSome found (λ parts.
        GivePut (NewEndTag name.now ∷ []) (part_view place.entry) (parts_view parts.items))) }
    ensures some { IfOk result (λ found. IsSome found) }
{
    let mut parts = Vec::new(alloc);
    push(end_tag_part(tag), &mut parts)?;
    Ok(Some(parts))
}

// The tag that stood there, with another name.
fn renamed_tag<'p>(
    alloc: Global,
    place: Part<'p>,
    name: &[u8],
    tag: &'p [u8],
) -> Result<Option<Vec<Part<'p>>>, AllocError>
    requires { IsRenamedTag name.now (part_view place) tag.now }
    ensures parts { IfOk result (λ found. IfSome found (λ parts.
        GivePut (Changed (Rename name.now) ∷ []) (part_view place.entry)
        (parts_view parts.items))) }
    ensures some { IfOk result (λ found. IsSome found) }
{
    let mut parts = Vec::new(alloc);
    push(
        Part {
            kind: place.kind,
            mode: place.mode,
            bytes: tag,
        },
        &mut parts,
    )?;
    Ok(Some(parts))
}
