//! Tokens: where each stands.
ghost use Rattle.std.specs.Prelude.{◌≡◌, ◌++◌, OnOk, IfOk};

use crate::mode::Mode;
use crate::stage::TokenKind;
use std::alloc::AllocError;

/// What stands between two places of a page, and how reading stands before it.
#[derive(Clone, Copy, Drop)]
pub struct Token {
    pub start: usize,
    pub end: usize,
    pub kind: TokenKind,
    pub mode: Mode,
}

ghost use Rattle.tl_html_tokens.specs.Tokens.{are_texts, is_text, last_of, pushed_of};

fn is_text(kind: TokenKind) -> bool
    ensures { result ≡ is_text kind }
{
    matches!(kind, TokenKind::Text)
}

// Two tokens side by side: texts are one, else the first one is pushed. Answers the last one.
pub(crate) fn join(tokens: &mut Vec<Token>, last: Token, token: Token) -> Result<Token, AllocError>
    ensures pushed { OnOk result (tokens.new.items ≡ tokens.old.items ++ pushed_of last token) }
    ensures last { IfOk result (λ now. now ≡ last_of last token) }
{
    if is_text(last.kind) && is_text(token.kind) {
        return Ok(Token {
            start: last.start,
            end: token.end,
            kind: last.kind,
            mode: last.mode,
        });
    }
    tokens.push(last)?;
    Ok(token)
}
