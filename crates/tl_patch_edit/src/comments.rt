//! A page without some of its comments.
ghost use Rattle.std.specs.Prelude.{[], IfErr, IfNone, IfOk, IfSome, OnOk, false, true, ◌++◌, ◌∷◌, ◌≡◌, ◌≤◌};
ghost use Rattle.tl_html_tokens.specs.declared.stage.TokenKind.TheVariants.{Comment};
ghost use Rattle.tl_patch_edit.specs.Comments.{AreCommentsGone, AreCommentsRefused};
ghost use Rattle.tl_patch_edit.specs.Inner.CommentAsks.{AreAsksRefused, AreCommentAsks, IsCommentAt, NoCommentFrom, gone_ask};
ghost use Rattle.tl_patch_edit.specs.declared.comments.CommentError.TheVariants.{OutOfMemory};

use crate::ask::{Ask, PlacedAsk, Put, Start, Turn, next};
use crate::edit::spliced_page;
use crate::error::EditError;
use crate::part::parts_of;
use std::alloc::{AllocError, Global};
use thiserror::Error;
use tl_html_tokens::{Token, TokenKind, tokens};

/// Why comments weren't taken out.
#[derive(Clone, Copy, PartialEq, Eq, Debug, Error)]
pub enum CommentError {
    /// No comment begins at this byte of the page, or one at a later one was named before it.
    #[error("no comment at byte {0}")]
    NoComment(usize),
    /// Without them the page would be read otherwise.
    #[error("without the comments other parts of the page would be read differently")]
    ReadOtherwise,
    /// Memory ran out.
    #[error("out of memory")]
    OutOfMemory,
}

impl From<AllocError> for CommentError {
    ghost from_gives = { λ _ e. e ≡ OutOfMemory };

    fn from(_: AllocError) -> Self {
        CommentError::OutOfMemory
    }
}

// Whether a token is a comment that begins at a place.
fn is_comment_at(token: &Token, place: usize) -> bool
    ensures start { result ≡ true → token.now.start ≡ place }
    ensures kind { result ≡ true → token.now.kind ≡ Comment }
    ensures not { result ≡ false → token.now.start ≡ place → token.now.kind ≡ Comment → ⊥ }
{
    token.start == place && matches!(token.kind, TokenKind::Comment)
}

// The comment that begins at a place, sought from the token of a number on.
fn comment_from(tokens: &[Token], from: usize, place: usize) -> Option<Start>
    ensures comment { IfSome result (λ start.
        IsCommentAt tokens.now place start.number start.token) }
    ensures order { IfSome result (λ start. from ≤ start.number) }
    ensures none { IfNone result (NoCommentFrom from tokens.now place) }
{
    for at in from..tokens.len() {
        let is_it = is_comment_at(&tokens[at], place);
        if is_it {
            return Some(Start {
                number: at,
                token: tokens[at],
            });
        }
    }
    None
}

// Nothing in the place of a token, up to the next one.
fn push_gone(
    start: Start,
    until: usize,
    asks: &mut Vec<PlacedAsk<'static>>,
) -> Result<(), AllocError>
    ensures { OnOk result (asks.new.items ≡ asks.old.items ++ gone_ask start until ∷ []) }
{
    asks.push(PlacedAsk {
        start,
        turn: Turn {
            depth: 0,
            rank: 0,
            at: 0,
        },
        ask: Ask {
            from: start.number,
            until,
            put: Put::Nothing,
        },
    })?;
    Ok(())
}

// What is asked for where the comments at these places go.
fn comment_asks(
    alloc: Global,
    tokens: &[Token],
    places: &[usize],
) -> Result<Vec<PlacedAsk<'static>>, CommentError>
    ensures asks { IfOk result (λ asks. AreCommentAsks 0 tokens.now places.now asks.items) }
    ensures error { IfErr result (AreAsksRefused tokens.now places.now) }
{
    let mut asks = Vec::with_capacity(alloc, places.len())?;
    let mut from = 0usize;
    for at in 0..places.len() {
        let place = places[at];
        let Some(start) = comment_from(tokens, from, place) else {
            return Err(CommentError::NoComment(place));
        };
        let until = next(start.number)?;
        push_gone(start, until, &mut asks)?;
        from = until;
    }
    Ok(asks)
}

/// The page without the comments that begin at these places, bytes of the page in order. No other
/// byte changes. `</>`, which is read as nothing, stands where two texts would become something
/// else together. The text is read again, and is refused where it isn't read as the page without
/// these comments.
pub fn without_comments(
    alloc: Global,
    page: &[u8],
    places: &[usize],
) -> Result<Vec<u8>, CommentError>
    ensures gone { IfOk result (λ text. AreCommentsGone places.now page.now text.items) }
    ensures refused { IfErr result (AreCommentsRefused places.now page.now) }
{
    let tokens = tokens(alloc, page)?;
    let parts = parts_of(alloc, page, tokens.as_slice())?;
    let asks = comment_asks(alloc, tokens.as_slice(), places)?;
    match spliced_page(alloc, page, parts, asks.as_slice(), 0) {
        Ok(text) => Ok(text),
        Err(EditError::ReadOtherwise(_)) => Err(CommentError::ReadOtherwise),
        Err(_) => Err(CommentError::OutOfMemory),
    }
}
