//! White space and comments.
ghost use Rattle.std.specs.Prelude.{◌≡◌, length, option_map, codes};
ghost use Rattle.tl_css.specs.Lexical.{after_comment, begins_comment, gap_at, gap_part_at, past_comments};
ghost use Rattle.tl_css.specs.TextView.{read_as};
ghost use Rattle.tl_spec.specs.Lex.Runs.{after_needle};

use crate::error::{Cause, Wrong};
use crate::text::byte_class::is_white;

// What is wrong where these bytes begin.
pub fn wrong<T>(s: &[u8], cause: Cause) -> Result<T, Wrong>
    ensures { result ≡ Err (record { left = length s.now; cause = cause }) }
{
    Err(Wrong {
        left: s.len(),
        cause,
    })
}

pub fn begins_comment(s: &[u8]) -> bool
    ensures { result ≡ begins_comment s.now }
{
    matches!(s, [b'/', b'*', ..])
}

// What stands after the first `*/`.
fn after_end(s: &[u8]) -> Option<&[u8]>
    ensures { option_map (λ rest. rest.now) result ≡ after_needle (codes "*/") s.now }
{
    let mut left = s;
    'bytes: loop {
        match left {
            [b'*', b'/', rest @ ..] => return Some(rest),
            [_, rest @ ..] => left = rest,
            [] => return None,
        }
    }
}

fn after_comment(s: &[u8]) -> Option<&[u8]>
    ensures { option_map (λ rest. rest.now) result ≡ after_comment s.now }
{
    match s {
        [b'/', b'*', rest @ ..] => after_end(rest),
        _ => None,
    }
}

/// What stands after the comments at the front.
pub fn past_comments(s: &[u8]) -> &[u8]
    ensures { result.now ≡ past_comments s.now }
{
    let mut left = s;
    'comments: while let Some(rest) = after_comment(left) {
        left = rest;
    }
    left
}

// A byte of white space, which is `true`, or a comment.
fn gap_part(s: &[u8]) -> Option<(bool, &[u8])>
    ensures { option_map (λ p. (p.0, p.1.now)) result ≡ gap_part_at s.now }
{
    match s {
        [] => None,
        [byte, rest @ ..] if is_white(*byte) => Some((true, rest)),
        _ => Some((false, after_comment(s)?)),
    }
}

/// Passes white space and comments. Answers whether there was white space.
pub fn gap(s: &[u8]) -> Result<(bool, &[u8]), Wrong>
    ensures { read_as (λ white. white) result ≡ gap_at s.now }
{
    let mut white = false;
    let mut left = s;
    'parts: while let Some((is_white, rest)) = gap_part(left) {
        white = white || is_white;
        left = rest;
    }
    if begins_comment(left) {
        return wrong(left, Cause::Unclosed);
    }
    Ok((white, left))
}
