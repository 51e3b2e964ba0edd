//! A page with changes of its tags.
ghost use Rattle.std.specs.Prelude.{◌≡◌, ℕ, [], Err, IfErr, IfOk, MatchResult, OnOk, map};
ghost use Rattle.tl_html_tokens.specs.Tokens.{AreTokensOf};
ghost use Rattle.tl_patch.specs.Pages.{IsPatched};
ghost use Rattle.tl_patch.specs.Refused.{IsPlaced, IsUnplaced, IsReason, IsReasonHere, IsTokenReason};
ghost use Rattle.tl_patch.specs.Inner.Steps.{IsMade, IsPage, IsWritten, mark_of};
ghost use Rattle.tl_patch.specs.PatchView.{patch_view};
ghost use Rattle.tl_patch.specs.declared.error.PatchError.TheVariants.{NoStartTag, NotWritten, OutOfMemory};

use crate::error::PatchError;
use crate::step::{group_end, is_start_tag, token_bytes};
use crate::tag_patch::{TagPatch, changed_tag};
use std::alloc::Global;
use tl_html_tokens::{Token, tokens};

// The byte order mark of a page, or nothing.
fn mark(page: &[u8]) -> &[u8]
    ensures { result.now ≡ mark_of page.now }
{
    if page.starts_with(b"\xEF\xBB\xBF") {
        &page[..3]
    } else {
        &[]
    }
}

// A token with changes, if it is a start tag.
fn new_tag(
    alloc: Global,
    page: &[u8],
    token: &Token,
    patches: &[TagPatch<'_>],
) -> Result<Vec<u8>, PatchError>
    ensures made { IfOk result (λ new.
        IsMade (map patch_view patches.now) page.now token.now new.items) }
    ensures reason { IfErr result (λ e.
        IsTokenReason (map patch_view patches.now) page.now token.now e) }
{
    if !is_start_tag(token) {
        return Err(PatchError::NoStartTag(token.start));
    }
    match changed_tag(alloc, token_bytes(page, *token), patches)? {
        Some(new) => Ok(new),
        None => Err(PatchError::NotWritten(token.start)),
    }
}

// Writes a token with the patches of its place.
fn write_token(
    alloc: Global,
    page: &[u8],
    token: &Token,
    here: &[TagPatch<'_>],
    out: &mut Vec<u8>,
) -> Result<(), PatchError>
    ensures written { OnOk result
        (IsWritten (map patch_view here.now) page.now token.now out.old.items out.new.items) }
    ensures reason { IfErr result (λ e.
        IsReasonHere (map patch_view here.now) page.now token.now e) }
{
    if here.is_empty() {
        out.extend_from_slice(token_bytes(page, *token))?;
        return Ok(());
    }
    let new = new_tag(alloc, page, token, here)?;
    out.extend_from_slice(new.as_slice())?;
    Ok(())
}

// The page with the patches of its tokens.
fn patched(
    alloc: Global,
    page: &[u8],
    tokens: &[Token],
    patches: &[TagPatch<'_>],
) -> Result<Vec<u8>, PatchError>
    requires { AreTokensOf page.now tokens.now }
    ensures page { IfOk result (λ text.
        IsPage page.now tokens.now (map patch_view patches.now) text.items) }
    ensures reason { IfErr result (λ e. IsReason (map patch_view patches.now) page.now e) }
{
    let mut text = Vec::with_capacity(alloc, page.len())?;
    text.extend_from_slice(mark(page))?;
    let mut next = 0usize;
    for at in 0..tokens.len() {
        let end = group_end(patches, next, tokens[at].start);
        write_token(alloc, page, &tokens[at], &patches[next..end], &mut text)?;
        next = end;
    }
    if next < patches.len() {
        return Err(PatchError::NoStartTag(patches[next].start));
    }
    Ok(text)
}

/// The page with these changes of its start tags, in the order of their places; several of one tag
/// are made one after the other.
#[tactic(auto, using(crate::proofs::Patched::is_patched, crate::proofs::Same::nothing_changed, crate::proofs::Same::no_start_of, crate::proofs::Same::not_written_of))]
pub fn patch(alloc: Global, page: &[u8], patches: &[TagPatch<'_>]) -> Result<Vec<u8>, PatchError>
    ensures patched { IfOk result (λ text.
        IsPatched (map patch_view patches.now) page.now text.items) }
    // a patch has this place, where no start tag begins, or one before it has a greater place
    ensures no_start_tag { (place : ℕ) → result ≡ Err (NoStartTag place) →
        IsUnplaced place (map patch_view patches.now) page.now }
    // a patch of the start tag at this place sets a key or a value that can't be written
    ensures not_written { (place : ℕ) → result ≡ Err (NotWritten place) →
        IsPlaced place (map patch_view patches.now) page.now }
    // without patches the page is as it was
    ensures unchanged { patches.now ≡ [] →
        MatchResult result (λ text. text.items ≡ page.now) (λ e. e ≡ OutOfMemory) }
{
    if patches.is_empty() {
        return Ok(page.to_vec(alloc)?);
    }
    let page_tokens = tokens(alloc, page)?;
    patched(alloc, page, page_tokens.as_slice(), patches)
}
