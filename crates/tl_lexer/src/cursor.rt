//! Places of a text: what stands at one, and where reading goes on.
ghost use Rattle.std.specs.Prelude.{◌≡◌, ◌≤◌, ◌+◌, length, drop, take};
ghost use Rattle.tl_spec.specs.Lex.Attribute.{skip_blanks};
ghost use Rattle.tl_lexer.specs.Span.{in_front, bytes_at, IsIn};

use crate::runs::blank_len;
use crate::span::Span;

/// The byte at a place, none at the end.
pub fn byte_at(text: &[u8], at: usize) -> Option<u8>
    ensures { in_front result (drop (at + 1) text.now) ≡ drop at text.now }
{
    text.get(at).copied()
}

/// The first `len` bytes from a place on, and the place after them.
pub fn split(text: &[u8], at: usize, len: usize) -> (Span, usize)
    requires { at + len ≤ length text.now }
    ensures bytes { bytes_at text.now result.0 ≡ take len (drop at text.now) }
    ensures rest { drop result.1 text.now ≡ drop len (drop at text.now) }
    ensures within { IsIn text.now result.0 }
    ensures end { result.1 ≡ at + len }
{
    (Span { start: at, len }, at + len)
}

/// The place after the byte at a place, or the end.
pub fn skip_one(text: &[u8], at: usize) -> usize
    requires { at ≤ length text.now }
    ensures rest { drop result text.now ≡ drop 1 (drop at text.now) }
    ensures order { at ≤ result }
    ensures within { result ≤ length text.now }
{
    if at < text.len() { at + 1 } else { at }
}

/// The place after blanks.
pub fn skip_blanks(text: &[u8], at: usize) -> usize
    requires { at ≤ length text.now }
    ensures rest { drop result text.now ≡ skip_blanks (drop at text.now) }
    ensures order { at ≤ result }
    ensures within { result ≤ length text.now }
{
    at + blank_len(&text[at..])
}
