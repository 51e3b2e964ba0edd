//! Raw texts that browsers may read as markup.
ghost use Rattle.std.specs.Prelude.{false, ◌≡◌, ◌<◌, ◌&&◌, List, IfErr, IfOk, OnOk, length};
ghost use Rattle.std.specs.List.{All, list_any};
ghost use Rattle.tl_html_spec.specs.HtmlTokenizer.{HtmlToken};
ghost use Rattle.tl_html_spec.specs.Pieces.{Piece};
ghost use Rattle.tl_html_tokens.specs.Kinds.{IsStartTag};
ghost use Rattle.tl_html_tokens.specs.Modes.{state_of};
ghost use Rattle.tl_html_tokens.specs.Tokens.{AreTokensOf};
ghost use Rattle.tl_html_tokens.specs.Whole.{IsWhole};
ghost use Rattle.tl_html_tokens.specs.declared.mode.Mode.{Mode};
ghost use Rattle.tl_patch_spec.specs.RawTexts.{begins_unsure, cause_at, is_markup, is_markup_put, is_raw, is_raw_markup, is_unescaped, is_unsure_name, is_unsure_put, raw_until, unsure_at, unsure_from, unsure_with};
ghost use Rattle.tl_patch_edit.specs.Asks.{ask_view, asks_view, puts_view, text_of};
ghost use Rattle.tl_patch_edit.specs.Errors.{pieces_in};
ghost use Rattle.tl_patch_edit.specs.Inner.Limits.{AreKept, AreLimits, BeginsToken, IsDoubtless, IsMisreadError, is_misread_in, is_raw_at, is_start_kind};
ghost use Rattle.tl_patch_edit.specs.Inner.Parts.{IsPieceOf, is_text_kind, part_view};
ghost use Rattle.tl_patch_edit.specs.View.{content_view};

use crate::ask::{Ask, Content, PlacedAsk, Put};
use crate::compare::is_text;
use crate::edit::tag_name;
use crate::error::EditError;
use crate::part::{Part, part_at};
use std::alloc::{AllocError, Global};
use tl_html_parts::{characters, lower_name};
use tl_html_tokens::{Mode, Token, TokenKind};

// From where on a browser may read a raw text as markup: the number of the first start tag of
// `svg` and its like, or of the end. And where no raw text is left that has a `&` or a `<`.
#[derive(Clone, Copy)]
pub(crate) struct Limits {
    pub(crate) unsure: usize,
    pub(crate) raw_until: usize,
}

fn is_unsure_name(name: &[u8]) -> bool
    ensures { result ≡ is_unsure_name name.now }
{
    name == b"svg".as_slice()
        || name == b"math".as_slice()
        || name == b"frameset".as_slice()
        || name == b"template".as_slice()
        || name == b"noscript".as_slice()
        || name == b"select".as_slice()
}

fn is_unsure_tag(alloc: Global, bytes: &[u8]) -> Result<bool, AllocError>
    ensures { IfOk result (λ is. (mode : Mode) (tokens : List HtmlToken) →
        IsWhole mode bytes.now tokens → IsStartTag tokens → begins_unsure tokens ≡ is) }
{
    let raw = tag_name(alloc, bytes)?;
    let name = lower_name(alloc, raw)?;
    Ok(is_unsure_name(name.as_bytes()))
}

fn is_start(kind: TokenKind) -> bool
    ensures { result ≡ is_start_kind kind }
{
    matches!(kind, TokenKind::StartTag)
}

// Whether a part is such a start tag.
fn begins_unsure(alloc: Global, part: Part<'_>) -> Result<bool, AllocError>
    ensures { IfOk result (λ is. (p : Piece) → IsPieceOf (part_view part.entry) p →
        begins_unsure p.tokens ≡ is) }
{
    let is_start = is_start(part.kind);
    if !is_start {
        return Ok(false);
    }
    is_unsure_tag(alloc, part.bytes)
}

// The number of the first such start tag of a page, or of its end.
fn unsure_from(alloc: Global, page: &[u8], tokens: &[Token]) -> Result<usize, AllocError>
    requires { AreTokensOf page.now tokens.now }
    ensures { IfOk result (λ unsure. unsure ≡ unsure_from 0 (pieces_in page.now)) }
{
    for at in 0..tokens.len() {
        let is_it = begins_unsure(alloc, part_at(page, tokens[at]))?;
        if is_it {
            return Ok(at);
        }
    }
    Ok(tokens.len())
}

// Whether a tag gets such a name.
fn is_unsure_put(put: Put<'_>) -> bool
    ensures { result ≡ list_any is_unsure_put (puts_view put.entry) }
{
    match put {
        Put::Renamed { name } => is_unsure_name(name),
        _ => false,
    }
}

// This number, or that of the tag which gets such a name, if it stands before.
fn unsure_at(unsure: usize, ask: Ask<'_>) -> usize
    ensures { result ≡ unsure_at unsure (ask_view ask.entry) }
{
    if is_unsure_put(ask.put) && ask.from < unsure {
        ask.from
    } else {
        unsure
    }
}

// The same of several.
fn unsure_with(first: usize, asks: &[PlacedAsk<'_>]) -> usize
    ensures { result ≡ unsure_with first (asks_view asks.now) }
{
    let mut unsure = first;
    for at in 0..asks.len() {
        unsure = unsure_at(unsure, asks[at].ask);
    }
    unsure
}

// Whether a text isn't escaped where it is read in this mode.
fn is_unescaped(mode: Mode) -> bool
    ensures { result ≡ is_unescaped (state_of mode) }
{
    !matches!(
        mode,
        Mode::Data | Mode::Title | Mode::Textarea | Mode::ContextText
    )
}

// Whether a text that isn't escaped may be read as markup.
fn is_markup(text: &[u8]) -> bool
    ensures { result ≡ is_markup text.now }
{
    text.iter().any(|byte| *byte == b'&' || *byte == b'<')
}

// Whether a text that its own end tag alone ends is read in this mode.
fn is_raw(mode: Mode) -> bool
    ensures { result ≡ is_raw (state_of mode) }
{
    !matches!(mode, Mode::Data)
}

// Whether a part is a raw text, a title too.
fn is_raw_text(part: Part<'_>) -> bool
    ensures { result ≡ (is_text_kind part.entry.kind && is_raw (state_of part.entry.mode)) }
{
    is_text(part.kind) && is_raw(part.mode)
}

// Whether a part is a raw text that may be read as markup.
fn is_raw_markup(alloc: Global, part: Part<'_>) -> Result<bool, AllocError>
    ensures { IfOk result (λ is. (p : Piece) → IsPieceOf (part_view part.entry) p →
        is_raw_markup p ≡ is) }
{
    let is_raw = is_raw_text(part);
    if !is_raw {
        return Ok(false);
    }
    let text = characters(alloc, part.mode, part.bytes)?;
    Ok(is_markup(text.as_bytes()))
}

// The number behind the last such raw text of a page, or 0.
fn raw_until(alloc: Global, page: &[u8], tokens: &[Token]) -> Result<usize, AllocError>
    requires { AreTokensOf page.now tokens.now }
    ensures { IfOk result (λ until. until ≡ raw_until 0 0 (pieces_in page.now)) }
{
    let mut until = 0usize;
    for at in 0..tokens.len() {
        let is_it = is_raw_markup(alloc, part_at(page, tokens[at]))?;
        if is_it {
            until = at + 1;
        }
    }
    Ok(until)
}

fn limits_of(
    alloc: Global,
    page: &[u8],
    tokens: &[Token],
    asks: &[PlacedAsk<'_>],
) -> Result<Limits, AllocError>
    requires { AreTokensOf page.now tokens.now }
    ensures { IfOk result (AreLimits (pieces_in page.now) (asks_view asks.now)) }
{
    let first = unsure_from(alloc, page, tokens)?;
    let raw_until = raw_until(alloc, page, tokens)?;
    Ok(Limits {
        unsure: unsure_with(first, asks),
        raw_until,
    })
}

// The text of a content; markup is none.
fn text_of<'n>(content: Content<'n>) -> &'n [u8]
    ensures { result.now ≡ text_of (content_view content.entry) }
{
    match content {
        Content::Text { text } => text,
        Content::Markup { .. } => &[],
    }
}

// Whether a text is put that would be read as markup where it isn't escaped.
fn is_markup_put(put: Put<'_>) -> bool
    ensures { result ≡ list_any is_markup_put (puts_view put.entry) }
{
    match put {
        Put::Content { content } => is_markup(text_of(content)),
        _ => false,
    }
}

// Whether the token of a number is read where no text is escaped.
fn is_raw_at(tokens: &[Token], number: usize) -> bool
    ensures { result ≡ is_raw_at tokens.now number }
{
    number < tokens.len() && is_unescaped(tokens[number].mode)
}

// Whether a browser may read what is asked for as markup.
fn is_misread(tokens: &[Token], limits: Limits, ask: Ask<'_>) -> bool
    ensures { result ≡ is_misread_in tokens.now limits (ask_view ask.entry) }
{
    let is_text = is_markup_put(ask.put) && is_raw_at(tokens, ask.from) && limits.unsure < ask.from;
    is_text || is_unsure_put(ask.put) && ask.from < limits.raw_until
}

// The number of the start tag behind which it may.
fn cause(limits: Limits, ask: Ask<'_>) -> usize
    ensures { result ≡ cause_at limits.unsure (ask_view ask.entry) }
{
    if is_unsure_put(ask.put) {
        ask.from
    } else {
        limits.unsure
    }
}

// Where the token of a number begins.
fn begin_of(tokens: &[Token], number: usize) -> usize
    requires { number < length tokens.now }
    ensures { BeginsToken tokens.now number result }
{
    tokens[number].start
}

// Whether what is put may be read as markup in some page: a text that would be, or such a name for
// a tag.
fn is_doubtful(put: Put<'_>) -> bool
    ensures text { result ≡ false → list_any is_markup_put (puts_view put.entry) ≡ false }
    ensures name { result ≡ false → list_any is_unsure_put (puts_view put.entry) ≡ false }
{
    is_markup_put(put) || is_unsure_put(put)
}

// Whether something of that is put.
fn are_doubtful(asks: &[PlacedAsk<'_>]) -> bool
    ensures { result ≡ false → All IsDoubtless asks.now }
{
    for at in 0..asks.len() {
        let is_doubtful = is_doubtful(asks[at].ask.put);
        if is_doubtful {
            return true;
        }
    }
    false
}

// Refuses what a browser may read as markup by the raw texts and the start tags of the page.
fn refuse_by_page(
    alloc: Global,
    page: &[u8],
    tokens: &[Token],
    asks: &[PlacedAsk<'_>],
) -> Result<(), EditError>
    requires { AreTokensOf page.now tokens.now }
    ensures kept { OnOk result (AreKept (pieces_in page.now) asks.now) }
    ensures error { IfErr result (IsMisreadError (pieces_in page.now) tokens.now asks.now) }
{
    let limits = limits_of(alloc, page, tokens, asks)?;
    for at in 0..asks.len() {
        let one = asks[at];
        let is_misread = is_misread(tokens, limits, one.ask);
        if is_misread {
            let cause = begin_of(tokens, cause(limits, one.ask));
            return Err(EditError::Misread(one.start.token.start, cause));
        }
    }
    Ok(())
}

// Refuses what a browser may read as markup: a text with `&` or `<` in a raw text behind the start
// tag of a `svg` and its like, and such a name for a tag before such raw texts. The page isn't
// looked at where nothing of that is put.
pub(crate) fn refuse_misread(
    alloc: Global,
    page: &[u8],
    tokens: &[Token],
    asks: &[PlacedAsk<'_>],
) -> Result<(), EditError>
    requires { AreTokensOf page.now tokens.now }
    ensures kept { OnOk result (AreKept (pieces_in page.now) asks.now) }
    ensures error { IfErr result (IsMisreadError (pieces_in page.now) tokens.now asks.now) }
{
    let are_doubtful = are_doubtful(asks);
    if !are_doubtful {
        return Ok(());
    }
    refuse_by_page(alloc, page, tokens, asks)
}
