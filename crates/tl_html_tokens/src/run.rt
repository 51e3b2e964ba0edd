//! Texts, which go on up to the next `<`.
ghost use Rattle.std.specs.Prelude.{◌≡◌, ◌<◌, ◌≤◌, length, slice_index, take, true};
ghost use Rattle.std.specs.List.{list_all};
ghost use Rattle.tl_html_tokens.specs.Inner.Runs.{is_plain, reads_plain};

use crate::mode::Mode;
use memchr::memchr;

// Whether bytes that are no `<` leave the mode as it is.
pub(crate) fn reads_plain(mode: Mode) -> bool
    ensures { result ≡ reads_plain mode }
{
    !matches!(
        mode,
        Mode::ScriptEscaped | Mode::ScriptEscapedDash | Mode::ScriptEscapedDashDash
    )
}

// How many bytes stand before the first `<`.
pub(crate) fn plain_len(text: &[u8]) -> usize
    ensures plain { list_all is_plain (take result text.now) ≡ true }
    ensures within { result ≤ length text.now }
    ensures end { result < length text.now → slice_index text.now result ≡ 60 }
{
    match memchr(b'<', text) {
        Some(len) => len,
        None => text.len(),
    }
}
