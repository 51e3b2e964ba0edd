//! Whether bytes are written as they are.
ghost use Rattle.std.specs.Prelude.{false, length, true, ◌+◌, ◌<◌, ◌≡◌, ◌≤◌};
ghost use Rattle.tl_tree_extract.specs.Inner.Marked.{AreUnmarked, is_marked};

use crate::notation::is_plain;

/// What bytes are written in.
#[derive(Clone, Copy)]
pub(crate) enum Written {
    /// A string of JSON.
    Json,
    /// A string of CSS.
    CssString,
    /// A name of CSS, behind its first byte.
    CssName,
}

// Whether a byte is written as another one, or several. In JSON those are marked too that are no
// ASCII.
#[inline(always)]
fn is_marked(written: Written, byte: u8) -> bool
    ensures { result ≡ is_marked written byte }
{
    match written {
        Written::Json => (byte < 32) | (byte >= 128) | (byte == b'"') | (byte == b'\\'),
        Written::CssString => (byte < 32) | (byte == 127) | (byte == b'"') | (byte == b'\\'),
        Written::CssName => !is_plain(byte),
    }
}

// Whether one of N bytes from a place on is marked: no branch, so that they are looked at together.
#[inline(always)]
#[tactic(auto, using(crate::proofs::Standing::one_more))]
fn has_mark<const N: usize>(written: Written, text: &[u8], start: usize) -> bool
    requires { start + N ≤ length text.now }
    ensures { result ≡ false → AreUnmarked written text.now start (start + N) }
{
    let mut found = false;
    for place in 0..N {
        found |= is_marked(written, text[start + place]);
    }
    found
}

// Whether no byte is marked, by N bytes at once.
#[inline(always)]
#[tactic(auto, using(crate::proofs::Standing::joined))]
fn is_unmarked_by<const N: usize>(written: Written, text: &[u8]) -> bool
    requires some { 0 < N }
    requires long { N ≤ length text.now }
    ensures { result ≡ true → AreUnmarked written text.now 0 (length text.now) }
{
    let mut start = 0;
    while N < text.len() - start {
        if has_mark::<N>(written, text, start) {
            return false;
        }
        start += N;
    }
    !has_mark::<N>(written, text, text.len() - N)
}

// The same of at most twice as many bytes.
#[inline(always)]
#[tactic(auto, using(crate::proofs::Standing::joined))]
fn are_both_unmarked<const N: usize>(written: Written, text: &[u8]) -> bool
    requires long { N ≤ length text.now }
    requires short { length text.now ≤ N + N }
    ensures { result ≡ true → AreUnmarked written text.now 0 (length text.now) }
{
    let begins = has_mark::<N>(written, text, 0);
    let ends = has_mark::<N>(written, text, text.len() - N);
    !(begins | ends)
}

/// Whether no byte is marked.
#[inline(always)]
pub(crate) fn is_unmarked(written: Written, text: &[u8]) -> bool
    ensures { result ≡ true → AreUnmarked written text.now 0 (length text.now) }
{
    match text.len() {
        0 => true,
        1..=3 => is_unmarked_by::<1>(written, text),
        4..=8 => are_both_unmarked::<4>(written, text),
        9..=16 => are_both_unmarked::<8>(written, text),
        17..=32 => are_both_unmarked::<16>(written, text),
        _ => is_unmarked_by::<16>(written, text),
    }
}
