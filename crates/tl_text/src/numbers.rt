//! The numbers of references.
ghost use Rattle.std.specs.Prelude.{◌≡◌, ◌+◌, ◌*◌, ◌<◌, ◌≤◌, length, encode_utf8};
ghost use Rattle.tl_html_spec.specs.References.{is_no_character, number_value, windows_1252};
ghost use Rattle.tl_html_spec.specs.Unescaped.{number_from};
ghost use Rattle.tl_text.specs.Inner.View.{base_of, capped, is_digit_of, number_reference, reference_view};

use crate::base::Base;
use crate::reference::{Characters, Reference};

// The code of a character that a number from 0x80 to 0x9F stands for.
fn windows_1252(code: u32) -> u32
    ensures { result ≡ windows_1252 code }
{
    match code {
        0x80 => 0x20AC,
        0x82 => 0x201A,
        0x83 => 0x0192,
        0x84 => 0x201E,
        0x85 => 0x2026,
        0x86 => 0x2020,
        0x87 => 0x2021,
        0x88 => 0x02C6,
        0x89 => 0x2030,
        0x8A => 0x0160,
        0x8B => 0x2039,
        0x8C => 0x0152,
        0x8E => 0x017D,
        0x91 => 0x2018,
        0x92 => 0x2019,
        0x93 => 0x201C,
        0x94 => 0x201D,
        0x95 => 0x2022,
        0x96 => 0x2013,
        0x97 => 0x2014,
        0x98 => 0x02DC,
        0x99 => 0x2122,
        0x9A => 0x0161,
        0x9B => 0x203A,
        0x9C => 0x0153,
        0x9E => 0x017E,
        0x9F => 0x0178,
        code => code,
    }
}

fn is_no_character(code: u32) -> bool
    ensures { result ≡ is_no_character code }
{
    code == 0 || code > 0x10FFFF || (code > 0xD7FF && code < 0xE000)
}

// The character of a number.
fn character(code: u32) -> char
    ensures { encode_utf8 result ≡ number_value code }
{
    if is_no_character(code) {
        return '\u{FFFD}';
    }
    match char::from_u32(windows_1252(code)) {
        Some(c) => c,
        None => '\u{FFFD}',
    }
}

// A number with one digit more. What is past the last character stays so.
fn with_digit(code: u32, base: u32, digit: u32) -> u32
    requires code { code < 0x110001 }
    requires base { base < 17 }
    requires digit { digit < 200 }
    ensures value { result ≡ capped (code * base + digit) }
    ensures bound { result < 0x110001 }
{
    let next = code * base + digit;
    if next > 0x110000 { 0x110000 } else { next }
}

fn numbered_reference(code: u32, takes: usize) -> Reference
    ensures { reference_view result ≡ number_reference code takes }
{
    Reference {
        gives: Characters::Numbered(character(code)),
        takes,
    }
}

// The number whose digits stand in front, with the `;` after them.
pub(crate) fn number_from(bytes: &[u8], base: Base) -> Reference
    ensures row { number_from (is_digit_of base) (base_of base) 0 bytes.now
        ≡ reference_view result }
    ensures within { result.takes ≤ length bytes.now }
{
    let mut code = 0;
    for (at, byte) in bytes.iter().enumerate() {
        match base.digit(*byte) {
            Some(digit) => code = with_digit(code, base.value(), digit),
            None if *byte == b';' => return numbered_reference(code, at + 1),
            None => return numbered_reference(code, at),
        }
    }
    numbered_reference(code, bytes.len())
}
