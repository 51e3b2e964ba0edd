//! What a start tag says, by its own bytes.
ghost use Rattle.std.specs.Prelude.{◌≡◌, IfOk, IfSome, false, is_some};
ghost use Rattle.tl_patch_spec.specs.TagNames.{IsNameEnd};
ghost use Rattle.tl_patch.specs.StartTags.{is_data, is_one_tag, is_start_kind, is_start_tag, is_whole_tag};

use crate::start_name_end;
use std::alloc::{AllocError, Global};
use tl_html_tokens::{Mode, Token, TokenKind, tokens};

fn is_start_kind(kind: TokenKind) -> bool
    ensures { result ≡ is_start_kind kind }
{
    matches!(kind, TokenKind::StartTag)
}

fn is_data(mode: Mode) -> bool
    ensures { result ≡ is_data mode }
{
    matches!(mode, Mode::Data)
}

// Whether a token is a start tag and stands up to an end.
fn is_whole_tag(token: &Token, len: usize) -> bool
    ensures { result ≡ is_whole_tag token.now len }
{
    is_start_kind(token.kind) && is_data(token.mode) && token.start == 0 && token.end == len
}

// Whether tokens are one such tag alone.
fn is_one_tag(tokens: &[Token], len: usize) -> bool
    ensures { result ≡ is_one_tag tokens.now len }
{
    match tokens {
        [token] => is_whole_tag(token, len),
        _ => false,
    }
}

// Whether bytes are a start tag by themselves.
#[tactic(auto, using(crate::proofs::Begins::decides))]
fn is_start_tag(alloc: Global, bytes: &[u8]) -> Result<bool, AllocError>
    ensures { IfOk result (λ is. is ≡ is_start_tag bytes.now) }
{
    let all = tokens(alloc, bytes)?;
    Ok(is_one_tag(all.as_slice(), bytes.len()))
}

// Where the name of a start tag ends; `None` where the bytes are no start tag by themselves.
pub(crate) fn start_tag_name_end(alloc: Global, bytes: &[u8]) -> Result<Option<usize>, AllocError>
    ensures ends { IfOk result (λ found. IfSome found (λ end. IsNameEnd false end bytes.now)) }
    ensures some { IfOk result (λ found. is_some found ≡ is_start_tag bytes.now) }
{
    let is_alone = is_start_tag(alloc, bytes)?;
    if !is_alone {
        return Ok(None);
    }
    Ok(start_name_end(bytes))
}
