//! Searches of a byte slice for the first byte of a class. None takes memory.
ghost use Rattle.std.specs.Prelude.{◌≡◌, ◌==◌, bytes_eq};
ghost use Rattle.std.specs.Str.{str_to_ascii_lowercase};
ghost use Rattle.tl_spec.specs.Lex.ByteClass.{is_closing};
ghost use Rattle.tl_bytes.specs.Search.{first, is_one_of, is_not_ident, is_not_name};

/// The searches byte by byte.
pub mod fallback;
mod lanes;

use lanes::{before_any, before_byte, before_non_ident, before_non_name};

// So many bytes are looked at sixteen at once before the search that is faster for far hits: most
// hits in a page are near.
const NEAR: usize = 16;

/// The first place of `haystack` that holds `needle`.
#[inline]
pub fn find(haystack: &[u8], needle: u8) -> Option<usize>
    ensures { result ≡ first (λ b. b == needle) haystack.now }
{
    let mut at = 0;
    while at < NEAR && haystack.len() - at >= 16 {
        let before = before_byte(haystack, at, needle);
        if before < 16 {
            return Some(at + before);
        }
        at += 16;
    }
    match find_far(&haystack[at..], needle) {
        Some(place) => Some(at + place),
        None => None,
    }
}

// `find` for hits that are mostly far.
fn find_far(haystack: &[u8], needle: u8) -> Option<usize>
    ensures { result ≡ first (λ b. b == needle) haystack.now }
{
    memchr::memchr(needle, haystack)
}

/// The first place of `haystack` that holds one of the four bytes of `needle`.
pub fn find4(haystack: &[u8], needle: [u8; 4]) -> Option<usize>
    ensures { result ≡ first (is_one_of needle) haystack.now }
{
    let mut at = 0;
    while haystack.len() - at >= 16 {
        let before = before_any(haystack, at, needle);
        if before < 16 {
            return Some(at + before);
        }
        at += 16;
    }
    match fallback::find_multi(&haystack[at..], needle) {
        Some(place) => Some(at + place),
        None => None,
    }
}

/// The first place of `haystack` that holds one of the bytes of `needle`.
pub fn find_multi<const N: usize>(haystack: &[u8], needle: [u8; N]) -> Option<usize>
    ensures { result ≡ first (is_one_of needle.entry) haystack.now }
{
    fallback::find_multi(haystack, needle)
}

/// The first place of `haystack` that holds no ident byte: none of the digits, the ASCII letters
/// and `-`, `_`, `:`, `+`, `/`.
pub fn search_non_ident(haystack: &[u8]) -> Option<usize>
    ensures { result ≡ first is_not_ident haystack.now }
{
    let mut at = 0;
    while haystack.len() - at >= 16 {
        let before = before_non_ident(haystack, at);
        if before < 16 {
            return Some(at + before);
        }
        at += 16;
    }
    match fallback::search_non_ident(&haystack[at..]) {
        Some(place) => Some(at + place),
        None => None,
    }
}

/// The first place of `haystack` that holds no byte of a name of a tag or an attribute: no ident
/// byte, or `/`.
pub fn search_non_name(haystack: &[u8]) -> Option<usize>
    ensures { result ≡ first is_not_name haystack.now }
{
    let mut at = 0;
    while haystack.len() - at >= 16 {
        let before = before_non_name(haystack, at);
        if before < 16 {
            return Some(at + before);
        }
        at += 16;
    }
    match fallback::search_non_name(&haystack[at..]) {
        Some(place) => Some(at + place),
        None => None,
    }
}

/// Whether a list of attributes ends before this byte: `/` or `>`.
pub fn is_closing(needle: u8) -> bool
    ensures { result ≡ is_closing needle }
{
    needle == b'/' || needle == b'>'
}

/// Whether `haystack` with its ASCII letters in lower case is `needle`, whose own letters stay
/// as they are: a needle with an upper-case letter matches nothing.
pub fn matches_case_insensitive<const N: usize>(haystack: &[u8], needle: [u8; N]) -> bool
    ensures { result ≡ bytes_eq (str_to_ascii_lowercase haystack.now) needle.entry }
{
    lowers_to(haystack, &needle)
}

// Whether the text in lower case is this one.
fn lowers_to(text: &[u8], lower: &[u8]) -> bool
    ensures { result ≡ bytes_eq (str_to_ascii_lowercase text.now) lower.now }
{
    text.len() == lower.len()
        && text
            .iter()
            .zip(lower.iter())
            .all(|(b, low)| b.to_ascii_lowercase() == *low)
}
