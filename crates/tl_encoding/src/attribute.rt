//! The attributes of a tag.
ghost use Rattle.std.specs.Prelude.{◌≡◌, ◌≤◌, length, option_map};
ghost use Rattle.tl_encoding.specs.Attributes.{after_key, after_value, is_end, is_named, key, key_len, next, tag_end, value, value_at, written_value};

use crate::run::{ByteClass, after, after_equals, is_quote, run, run_len, without};

// How many bytes the key has that stands here: its first may be an equals sign.
fn key_len(bytes: &[u8]) -> usize
    ensures is { result ≡ key_len bytes.now }
    ensures within { result ≤ length bytes.now }
{
    match bytes {
        [] => 0,
        [_, rest @ ..] => 1 + run_len(ByteClass::Key, rest),
    }
}

fn after_key(bytes: &[u8]) -> &[u8]
    ensures { result.now ≡ after_key bytes.now }
{
    &bytes[key_len(bytes)..]
}

// Whether the key that stands here is this word, in any case.
fn is_named(bytes: &[u8], word: &str) -> bool
    ensures { result ≡ is_named word.now bytes.now }
{
    bytes[..key_len(bytes)].eq_ignore_ascii_case(word.as_bytes())
}

// The value that stands here, between quotes or bare.
fn written_value(bytes: &[u8]) -> &[u8]
    ensures { result.now ≡ written_value bytes.now }
{
    match bytes {
        [quote, rest @ ..] if is_quote(*quote) => run(ByteClass::Except(*quote), rest),
        _ => run(ByteClass::Bare, bytes),
    }
}

// What stands after that value.
fn after_value(bytes: &[u8]) -> &[u8]
    ensures { result.now ≡ after_value bytes.now }
{
    match bytes {
        [quote, rest @ ..] if is_quote(*quote) => {
            without(1, after(ByteClass::Except(*quote), rest))
        }
        _ => after(ByteClass::Bare, bytes),
    }
}

// The value of the attribute that stands here.
fn value(bytes: &[u8]) -> &[u8]
    ensures { result.now ≡ value bytes.now }
{
    match after_equals(ByteClass::Space, after_key(bytes)) {
        Some(written) => written_value(written),
        None => b"",
    }
}

// Where the next attribute stands.
fn next(bytes: &[u8]) -> &[u8]
    ensures { result.now ≡ next bytes.now }
{
    let rest = after_key(bytes);
    match after_equals(ByteClass::Space, rest) {
        Some(written) => after(ByteClass::Gap, after_value(written)),
        None => after(ByteClass::Gap, rest),
    }
}

// Whether no attribute stands here.
fn is_end(bytes: &[u8]) -> bool
    ensures { result ≡ is_end bytes.now }
{
    match bytes {
        [first, ..] => *first == b'>',
        [] => true,
    }
}

/// The value of the first attribute with this key, in any case, in a tag from behind its name on.
#[tactic(auto, using(crate::proofs::Steps::values))]
pub(crate) fn value_at<'p>(word: &str, tag: &'p [u8]) -> Option<&'p [u8]>
    ensures { option_map (λ value. value.now) result ≡ value_at word.now tag.now }
{
    let mut rest = after(ByteClass::Gap, tag);
    // each attribute has a byte at least
    for _step in 0..tag.len() {
        if is_end(rest) {
            return None;
        }
        if is_named(rest, word) {
            return Some(value(rest));
        }
        rest = next(rest);
    }
    None
}

/// A tag from its `>` on; nothing if it has none.
#[tactic(auto, using(crate::proofs::Steps::ends))]
pub(crate) fn tag_end(tag: &[u8]) -> &[u8]
    ensures { result.now ≡ tag_end tag.now }
{
    let mut rest = after(ByteClass::Gap, tag);
    for _step in 0..tag.len() {
        if is_end(rest) {
            return rest;
        }
        rest = next(rest);
    }
    rest
}
