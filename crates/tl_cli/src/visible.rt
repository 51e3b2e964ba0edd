//! What a terminal is shown of what a page says.
ghost use Rattle.std.specs.Prelude.{◌≡◌, IfOk};
ghost use Rattle.tl_cli.specs.Visible.{begins_line, is_harmless, is_obeyed, is_second, visible, visible_byte};

use std::alloc::{AllocError, Global};

// Whether a terminal does no harm by a control character.
fn is_harmless(byte: u8, is_line_end: bool) -> bool
    ensures { result ≡ is_harmless byte is_line_end }
{
    byte == 0 || byte == b'\t' || byte == b'\n' || (byte == b'\r' && is_line_end)
}

// Whether a byte is a control character of ASCII that a terminal obeys.
fn is_obeyed(byte: u8, is_line_end: bool) -> bool
    ensures { result ≡ is_obeyed byte is_line_end }
{
    (byte < 0x20 && !is_harmless(byte, is_line_end)) || byte == 0x7F
}

// Whether a byte is the second one of a control character from U+0080 to U+009F.
fn is_second(before: u8, byte: u8) -> bool
    ensures { result ≡ is_second before byte }
{
    before == 0xC2 && byte >= 0x80 && byte < 0xA0
}

// What stands for a byte.
fn visible_byte(before: u8, byte: u8, is_line_end: bool) -> u8
    ensures { result ≡ visible_byte before byte is_line_end }
{
    if is_obeyed(byte, is_line_end) {
        b'?'
    } else if is_second(before, byte) {
        0xBF
    } else {
        byte
    }
}

// Whether bytes begin with a line feed.
fn begins_line(bytes: &[u8]) -> bool
    ensures { result ≡ begins_line bytes.now }
{
    match bytes {
        [byte, ..] => *byte == b'\n',
        [] => false,
    }
}

/// Bytes without the control characters that a terminal obeys: `?` stands for one of ASCII, `¿` for
/// one from U+0080 to U+009F.
pub fn visible(alloc: Global, bytes: &[u8]) -> Result<Vec<u8>, AllocError>
    ensures { IfOk result (λ shown. shown.items ≡ visible bytes.now) }
{
    let mut shown = Vec::with_capacity(alloc, bytes.len())?;
    let mut before = 0;
    let mut rest = bytes;
    while let [byte, after @ ..] = rest {
        shown.push(visible_byte(before, *byte, begins_line(after)))?;
        before = *byte;
        rest = after;
    }
    Ok(shown)
}
