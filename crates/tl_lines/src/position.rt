//! The line and the column of a place.
ghost use Rattle.std.specs.Prelude.{length, ◌+◌, ◌<◌, ◌^◌, ◌≡◌, ◌≤◌};
ghost use Rattle.tl_lines.specs.Inner.Marks.{column_behind};
ghost use Rattle.tl_lines.specs.Lines.{characters, column_at, goes_on, line_at, line_feeds};

use memchr::memchr;

/// A place as editors show it: the line and the column, both from 1. Columns are counted in
/// characters of UTF-8, and a line ends with a line feed.
#[derive(Clone, Copy, PartialEq, Eq, Debug)]
pub struct Position {
    pub line: usize,
    pub column: usize,
}

/// That of the first byte.
pub(crate) const START: Position = Position { line: 1, column: 1 };

// Whether a byte goes on with a character.
fn goes_on(byte: u8) -> bool
    ensures { result ≡ goes_on byte }
{
    byte >= 0x80 && byte < 0xC0
}

// How many characters there are.
fn characters(bytes: &[u8]) -> usize
    ensures count { result ≡ characters bytes.now }
    ensures most { result ≤ length bytes.now }
{
    let mut count = 0;
    for byte in bytes {
        if !goes_on(*byte) {
            count += 1;
        }
    }
    count
}

impl Position {
    /// The position behind bytes that begin here.
    pub(crate) fn behind(self, bytes: &[u8]) -> Position
        requires { (self.line + length bytes.now < 2 ^ 64)
            × (self.column + length bytes.now < 2 ^ 64) }
        ensures line { result.line ≡ self.line + line_feeds bytes.now }
        ensures column { result.column ≡ column_behind self.column bytes.now }
    {
        let mut line = self.line;
        let mut column = self.column;
        let mut rest = bytes;
        while let Some(at) = memchr(b'\n', rest) {
            line += 1;
            column = 1;
            rest = rest.split_at(at + 1).1;
        }
        Position {
            line,
            column: column + characters(rest),
        }
    }
}

/// The line and the column of the byte at a place of a text. A place behind the text is its end.
///
/// The time is that of a search of what stands before the place. Who asks for many places of a
/// text takes a `LineIndex`.
pub fn position_of(text: &[u8], offset: usize) -> Position
    ensures line { result.line ≡ line_at text.now offset }
    ensures column { result.column ≡ column_at text.now offset }
{
    START.behind(&text[..offset.min(text.len())])
}
