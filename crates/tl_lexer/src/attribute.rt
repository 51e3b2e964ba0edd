//! Attributes of a start tag.
ghost use Rattle.std.specs.Prelude.{◌≡◌, ◌≤◌, ◌<◌, ◌+◌, length, drop, take_while, option_map, IfSome};
ghost use Rattle.tl_spec.specs.Lex.ByteClass.{is_name};
ghost use Rattle.tl_spec.specs.Lex.Runs.{drop_while};
ghost use Rattle.tl_spec.specs.Lex.Attribute.{value, optional_value, skip_end, skip_blanks, attribute, next_attribute};
ghost use Rattle.tl_lexer.specs.Span.{bytes_at, optional_bytes_at, pair_at, IsIn, ArePairIn};

use crate::cursor::{byte_at, skip_blanks, split};
use crate::runs::{bare_len, len_until, name_len};
use crate::span::{AttributeSpan, Span};
use tl_bytes::byte_class::is_ident;
use tl_bytes::simd::is_closing;

/// The name at a place, of a tag or an attribute, and the place after it and blanks.
pub fn name(text: &[u8], at: usize) -> (Span, usize)
    requires { at ≤ length text.now }
    ensures bytes { bytes_at text.now result.0 ≡ take_while is_name (drop at text.now) }
    ensures rest { drop result.1 text.now ≡ skip_blanks (drop_while is_name (drop at text.now)) }
    ensures span { IsIn text.now result.0 }
    ensures order { at ≤ result.1 }
    ensures within { result.1 ≤ length text.now }
{
    let (name, end) = split(text, at, name_len(&text[at..]));
    (name, skip_blanks(text, end))
}

// The value at a place, and the place where it ends.
#[inline(always)]
fn value(text: &[u8], at: usize) -> (Span, usize)
    requires { at ≤ length text.now }
    ensures read { (bytes_at text.now result.0, drop result.1 text.now) ≡ value (drop at text.now) }
    ensures span { IsIn text.now result.0 }
    ensures order { at ≤ result.1 }
    ensures within { result.1 ≤ length text.now }
{
    match byte_at(text, at) {
        Some(b) if b == b'"' || b == b'\'' => split(text, at + 1, len_until(&text[at + 1..], b)),
        _ => split(text, at, bare_len(&text[at..])),
    }
}

// The value after `=` and blanks, if `=` stands at a place, and the place where it ends.
#[inline(always)]
fn optional_value(text: &[u8], at: usize) -> (Option<Span>, usize)
    requires { at ≤ length text.now }
    ensures read { (optional_bytes_at text.now result.0, drop result.1 text.now)
        ≡ optional_value (drop at text.now) }
    ensures span { IfSome result.0 (IsIn text.now) }
    ensures order { at ≤ result.1 }
    ensures within { result.1 ≤ length text.now }
{
    match byte_at(text, at) {
        Some(b'=') => {
            let (value, end) = value(text, skip_blanks(text, at + 1));
            (Some(value), end)
        }
        _ => (None, at),
    }
}

// The place after the end of an attribute: one byte is passed over, unless it is `>` or of a name.
fn skip_end(text: &[u8], at: usize) -> usize
    requires { at ≤ length text.now }
    ensures rest { drop result text.now ≡ skip_end (drop at text.now) }
    ensures order { at ≤ result }
    ensures within { result ≤ length text.now }
{
    match byte_at(text, at) {
        Some(b) if b != b'>' && !is_ident(b) => at + 1,
        _ => at,
    }
}

// The attribute at a place, and the place after it.
#[inline(always)]
fn attribute(text: &[u8], at: usize) -> (AttributeSpan, usize)
    requires { at ≤ length text.now }
    ensures read { (pair_at text.now result.0, drop result.1 text.now)
        ≡ attribute (drop at text.now) }
    ensures spans { ArePairIn text.now result.0 }
    ensures order { at ≤ result.1 }
    ensures within { result.1 ≤ length text.now }
{
    let (key, after_key) = name(text, at);
    let (value, end) = optional_value(text, after_key);
    (AttributeSpan { key, value }, skip_end(text, end))
}

/// The attribute at a place, and the place after it and blanks; none at `/`, `>` or the end.
#[inline(always)]
pub fn next_attribute(text: &[u8], at: usize) -> Option<(AttributeSpan, usize)>
    requires { at ≤ length text.now }
    ensures read { option_map (λ found. (pair_at text.now found.0, drop found.1 text.now)) result
        ≡ next_attribute (drop at text.now) }
    ensures spans { IfSome result (λ found. ArePairIn text.now found.0) }
    ensures order { IfSome result (λ found. at < found.1) }
    ensures within { IfSome result (λ found. found.1 ≤ length text.now) }
{
    let first = byte_at(text, at)?;
    if is_closing(first) {
        return None;
    }
    let (attribute, end) = attribute(text, at);
    Some((attribute, skip_blanks(text, end)))
}
