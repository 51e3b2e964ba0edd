//! The tokens of a page.
ghost use Rattle.std.specs.Prelude.{◌≡◌, ◌≤◌, drop, length, IfOk};
ghost use Rattle.tl_html_spec.specs.HtmlTokenizer.{without_mark};
ghost use Rattle.tl_html_tokens.specs.Tokens.{AreSideBySide, AreTokensOf, mark_len};

use crate::front::next_front;
use crate::mode::Mode;
use crate::token::{Token, join};
use std::alloc::{AllocError, Global};

/// How many bytes a byte order mark takes: behind it the first token of a page stands.
#[tactic(auto, using(crate::proofs::Joining::mark_is))]
pub fn mark_len(page: &[u8]) -> usize
    ensures bytes { result ≡ mark_len page.now }
    ensures within { result ≤ length page.now }
    ensures rest { without_mark page.now ≡ drop result page.now }
{
    if page.starts_with(b"\xEF\xBB\xBF") {
        3
    } else {
        0
    }
}

/// The tokens of a page, in its order: each byte after a byte order mark stands in one.
pub fn tokens(alloc: Global, page: &[u8]) -> Result<Vec<Token>, AllocError>
    ensures pieces { IfOk result (λ tokens. AreTokensOf page.now tokens.items) }
    ensures side_by_side { IfOk result (λ tokens.
        AreSideBySide (mark_len page.now) tokens.items (length page.now)) }
{
    let mut tokens = Vec::new(alloc);
    let start = mark_len(page);
    if start == page.len() {
        return Ok(tokens);
    }
    let first = next_front(page, start, Mode::Data);
    let mut last = Token {
        start,
        end: first.end,
        kind: first.kind,
        mode: Mode::Data,
    };
    let mut mode = first.mode;
    while last.end < page.len() {
        let front = next_front(page, last.end, mode);
        let token = Token {
            start: last.end,
            end: front.end,
            kind: front.kind,
            mode,
        };
        last = join(&mut tokens, last, token)?;
        mode = front.mode;
    }
    tokens.push(last)?;
    Ok(tokens)
}
