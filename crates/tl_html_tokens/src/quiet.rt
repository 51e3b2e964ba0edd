//! Runs of bytes that leave a stage as it is.
ghost use Rattle.std.specs.Prelude.{◌≡◌, ◌≤◌, length, take, true};
ghost use Rattle.std.specs.List.{list_all};
ghost use Rattle.tl_html_tokens.specs.Inner.Quiet.{is_quiet};
ghost use Rattle.memchr.specs.Find.{is_byte3};
ghost use Rattle.std.specs.Prelude.{not};

use crate::stage::{Quote, Stage};
use memchr::memchr3;

// How many bytes in front of a text are none of these.
fn len_before(first: u8, second: u8, third: u8, text: &[u8]) -> usize
    ensures others { list_all (λ b. not (is_byte3 first second third b)) (take result text.now)
        ≡ true }
    ensures within { result ≤ length text.now }
{
    match memchr3(first, second, third, text) {
        Some(len) => len,
        None => text.len(),
    }
}

ghost use Rattle.tl_html_tokens.specs.Inner.Quiet.{is_inside_name};

use crate::byte_class::ends_name;

// Whether a byte leaves a name or a key as it is.
fn is_inside_name(byte: u8) -> bool
    ensures { result ≡ is_inside_name byte }
{
    !(ends_name(byte) || byte == b'=' || byte == b'\r')
}

// How many bytes in front of a text go on with a name or a key.
#[inline(always)]
pub(crate) fn name_len(text: &[u8]) -> usize
    ensures quiet { list_all is_inside_name (take result text.now) ≡ true }
    ensures within { result ≤ length text.now }
{
    let mut at = 0;
    while at < text.len() && is_inside_name(text[at]) {
        at += 1;
    }
    at
}

// How many bytes in front of a text stand for themselves in a value in double quotes.
pub(crate) fn value_len(text: &[u8]) -> usize
    ensures quiet { list_all (λ b. not (is_byte3 34 38 13 b)) (take result text.now) ≡ true }
    ensures within { result ≤ length text.now }
{
    len_before(b'"', b'&', b'\r', text)
}

// How many bytes in front of a text leave the stage as it is.
#[inline(always)]
pub(crate) fn quiet_len(stage: Stage, text: &[u8]) -> usize
    ensures quiet { list_all (is_quiet stage) (take result text.now) ≡ true }
    ensures within { result ≤ length text.now }
{
    match stage {
        Stage::Value(Quote::Double, _) => value_len(text),
        Stage::Value(Quote::Single, _) => len_before(b'\'', b'&', b'\r', text),
        Stage::Comment => len_before(b'<', b'-', b'\r', text),
        Stage::TagName(_) | Stage::Key(_) => name_len(text),
        _ => 0,
    }
}
