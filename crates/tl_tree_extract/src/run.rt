//! Runs of bytes of one class.
ghost use Rattle.std.specs.Prelude.{◌≡◌, ◌≤◌, length};
ghost use Rattle.tl_tree_extract.specs.Runs.{behind, is_in, length_without};

/// A class of bytes that the standard collects or skips.
#[derive(Clone, Copy)]
pub enum Run {
    /// ASCII white space.
    White,
    /// White space and commas.
    Separator,
    /// What is no white space.
    Word,
    /// ASCII digits.
    Digit,
    /// Digits and full stops.
    Decimal,
    /// Controls of C0 and spaces, which stand around a URL.
    Edge,
    /// Commas.
    Comma,
}

fn is_in(run: Run, byte: u8) -> bool
    ensures { result ≡ is_in run byte }
{
    match run {
        Run::White => byte.is_ascii_whitespace(),
        Run::Separator => byte.is_ascii_whitespace() || byte == b',',
        Run::Word => !byte.is_ascii_whitespace(),
        Run::Digit => byte.is_ascii_digit(),
        Run::Decimal => byte.is_ascii_digit() || byte == b'.',
        Run::Edge => byte < 33,
        Run::Comma => byte == b',',
    }
}

/// What stands behind the bytes of a class at the beginning.
pub fn behind(run: Run, bytes: &[u8]) -> &[u8]
    ensures { result.now ≡ behind run bytes.now }
{
    let mut rest = bytes;
    while let [first, more @ ..] = rest {
        if !is_in(run, *first) {
            return rest;
        }
        rest = more;
    }
    rest
}

/// How many of the first bytes are left without those of a class at their end.
pub fn length_without(run: Run, bytes: &[u8]) -> usize
    ensures within { result ≤ length bytes.now }
    ensures value { result ≡ length_without run bytes.now (length bytes.now) }
{
    let mut len = bytes.len();
    while len > 0 && is_in(run, bytes[len - 1]) {
        len -= 1;
    }
    len
}
