//! Characters added to a text.
ghost use Rattle.std.specs.Prelude.{◌≡◌, ◌++◌, ◌<◌, ◌≤◌, OnOk, encode_utf8, string_bytes};

use std::alloc::AllocError;

// The bytes of a character that has two in UTF-8.
#[inline(always)]
fn two_bytes(code: u32) -> [u8; 2]
    requires lower_bound { 0x80 ≤ code }
    requires upper_bound { code < 0x800 }
    ensures { result ≡ encode_utf8 code }
{
    [(0xC0 + code / 0x40) as u8, (0x80 + code % 0x40) as u8]
}

// The bytes of a character that has three.
#[inline(always)]
fn three_bytes(code: u32) -> [u8; 3]
    requires lower_bound { 0x800 ≤ code }
    requires upper_bound { code < 0x1_0000 }
    ensures { result ≡ encode_utf8 code }
{
    [
        (0xE0 + code / 0x1000) as u8,
        (0x80 + code / 0x40 % 0x40) as u8,
        (0x80 + code % 0x40) as u8,
    ]
}

/// Adds a character, as `String::push` does. That calls a function for each that isn't ASCII, so
/// those of two and three bytes are written here: a text of such takes three fifths of the time.
#[inline(always)]
pub(crate) fn push_character(text: &mut String, character: char) -> Result<(), AllocError>
    ensures { OnOk result (string_bytes text.new ≡ string_bytes text.old ++ encode_utf8 character) }
{
    let code = character as u32;
    if code < 0x80 {
        return text.push(character);
    }
    if code < 0x800 {
        let two = two_bytes(code);
        return text.push_str(unsafe { std::str::from_utf8_unchecked(&two) });
    }
    if code < 0x1_0000 {
        let three = three_bytes(code);
        return text.push_str(unsafe { std::str::from_utf8_unchecked(&three) });
    }
    text.push(character)
}
