//! Parts of a page.
ghost use Rattle.std.specs.Prelude.{◌≡◌, ◌≤◌, ◌∷◌, ◌++◌, [], IfOk, OnOk, Some, drop, length, map, take};
ghost use Rattle.std.specs.List.{slice_get};
ghost use Rattle.tl_html_spec.specs.Pieces.{pieces, runs};
ghost use Rattle.tl_html_tokens.specs.Tokens.{AreTokensOf};
ghost use Rattle.tl_html_tokens.specs.Whole.{bytes_at};
ghost use Rattle.tl_patch_edit.specs.Inner.Parts.{ArePieces, part_bytes, part_view, parts_view, view_at, with_end_part};

use std::alloc::{AllocError, Global};
use tl_html_tokens::{Mode, Token, TokenKind};

// What stands between two places of a page or of markup, and how it is read.
#[derive(Clone, Copy)]
pub(crate) struct Part<'p> {
    pub(crate) kind: TokenKind,
    pub(crate) mode: Mode,
    pub(crate) bytes: &'p [u8],
}

// What stands in a page from a place on.
#[tactic(auto, using(std::proofs::lemmas::List::drop_all))]
fn after(page: &[u8], start: usize) -> &[u8]
    ensures { result.now ≡ drop start page.now }
{
    if start <= page.len() {
        &page[start..]
    } else {
        &[]
    }
}

// So many of the first bytes, or all.
#[tactic(auto, using(std::proofs::lemmas::List::take_all))]
fn first(bytes: &[u8], len: usize) -> &[u8]
    ensures { result.now ≡ take len bytes.now }
{
    if len <= bytes.len() {
        &bytes[..len]
    } else {
        bytes
    }
}

// The bytes of a token.
pub(crate) fn token_bytes(page: &[u8], token: Token) -> &[u8]
    ensures { result.now ≡ bytes_at page.now token }
{
    let len = token.end.saturating_sub(token.start);
    first(after(page, token.start), len)
}

pub(crate) fn part_at(page: &[u8], token: Token) -> Part<'_>
    ensures { part_view result ≡ view_at page.now token }
{
    Part {
        kind: token.kind,
        mode: token.mode,
        bytes: token_bytes(page, token),
    }
}

// The part at which something is put. Where a page ends none stands, and what is put there stands
// in markup.
#[tactic(auto, using(crate::proofs::Lists::place_before, crate::proofs::Lists::place_end))]
pub(crate) fn place_at<'p>(parts: &[Part<'p>], from: usize) -> Part<'p>
    requires { from ≤ length parts.now }
    ensures { slice_get (with_end_part (parts_view parts.now)) from ≡ Some (part_view result) }
{
    if from < parts.len() {
        return parts[from];
    }
    Part {
        kind: TokenKind::Nothing,
        mode: Mode::Data,
        bytes: &[],
    }
}

// Adds a part.
#[tactic(auto, using(crate::proofs::Lists::pushed))]
pub(crate) fn push<'p>(part: Part<'p>, out: &mut Vec<Part<'p>>) -> Result<(), AllocError>
    ensures { OnOk result (parts_view out.new.items
        ≡ parts_view out.old.items ++ part_view part.entry ∷ []) }
{
    out.push(part)?;
    Ok(())
}

// The tokens of a page as parts.
pub(crate) fn parts_of<'p>(
    alloc: Global,
    page: &'p [u8],
    tokens: &[Token],
) -> Result<Vec<Part<'p>>, AllocError>
    requires { AreTokensOf page.now tokens.now }
    ensures { IfOk result (λ parts. ArePieces (parts_view parts.items) (runs (pieces page.now))) }
{
    let mut parts = Vec::with_capacity(alloc, tokens.len())?;
    for at in 0..tokens.len() {
        push(part_at(page, tokens[at]), &mut parts)?;
    }
    Ok(parts)
}

// Adds parts.
#[tactic(auto, using(crate::proofs::Lists::copied_more))]
pub(crate) fn copy<'p>(parts: &[Part<'p>], out: &mut Vec<Part<'p>>) -> Result<(), AllocError>
    ensures { OnOk result (parts_view out.new.items
        ≡ parts_view out.old.items ++ parts_view parts.now) }
{
    for at in 0..parts.len() {
        push(parts[at], out)?;
    }
    Ok(())
}

// Their bytes.
pub(crate) fn write(parts: &[Part<'_>], out: &mut Vec<u8>) -> Result<(), AllocError>
    ensures { OnOk result (out.new.items ≡ out.old.items ++ part_bytes (parts_view parts.now)) }
{
    for at in 0..parts.len() {
        out.extend_from_slice(parts[at].bytes)?;
    }
    Ok(())
}
