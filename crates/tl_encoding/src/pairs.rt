//! What a lead byte and another one stand for in encodings of several bytes.
ghost use Rattle.std.specs.Prelude.{◌≡◌, ◌<◌, ◌+◌, Some};
ghost use Rattle.std.specs.Int.{is_in_range};
ghost use Rattle.tl_encoding.specs.MultiByte.{is_empty};
ghost use Rattle.tl_encoding.specs.Pairs.{big5_pointer, euc_jp_pair, euc_jp_pointer, euc_kr_pointer, gb_pointer, in_big5, in_index, in_shift_jis, jis0212_pair, katakana, one, pair, points_of, shift_jis_lead, shift_jis_pointer};

use crate::multi_byte::MultiByte;
use tl_indexes::{Index, code_point};

/// The characters that bytes stand for.
#[derive(Clone, Copy)]
pub(crate) enum Points {
    Nothing,
    One(char),
    Two(char, char),
}

impl Points {
    /// Whether they stand for none.
    pub(crate) fn is_nothing(self) -> bool
        ensures { result ≡ is_empty (points_of self) }
    {
        match self {
            Points::Nothing => true,
            Points::One(_) | Points::Two(_, _) => false,
        }
    }
}

/// Whether a byte is from one to another.
pub(crate) fn is_from(low: u8, high: u8, byte: u8) -> bool
    ensures { result ≡ is_in_range low high byte }
{
    low <= byte && byte <= high
}

/// A half-width katakana by its number.
pub(crate) fn katakana(number: u8) -> char
    ensures { result ≡ katakana number }
{
    match char::from_u32(0xFF61 + u32::from(number)) {
        Some(character) => character,
        None => char::REPLACEMENT_CHARACTER,
    }
}

fn big5_pointer(lead: u8, byte: u8) -> Option<usize>
    ensures { result ≡ big5_pointer lead byte }
{
    let row = usize::from(lead.saturating_sub(0x81)) * 157;
    if is_from(0x40, 0x7E, byte) {
        Some(row + usize::from(byte - 0x40))
    } else if is_from(0xA1, 0xFE, byte) {
        Some(row + usize::from(byte - 0x62))
    } else {
        None
    }
}

fn euc_jp_pointer(lead: u8, byte: u8) -> Option<usize>
    ensures { result ≡ euc_jp_pointer lead byte }
{
    if is_from(0xA1, 0xFE, lead) && is_from(0xA1, 0xFE, byte) {
        Some(usize::from(lead - 0xA1) * 94 + usize::from(byte - 0xA1))
    } else {
        None
    }
}

fn euc_kr_pointer(lead: u8, byte: u8) -> Option<usize>
    ensures { result ≡ euc_kr_pointer lead byte }
{
    if is_from(0x41, 0xFE, byte) {
        Some(usize::from(lead.saturating_sub(0x81)) * 190 + usize::from(byte - 0x41))
    } else {
        None
    }
}

fn gb_pointer(lead: u8, byte: u8) -> Option<usize>
    ensures { result ≡ gb_pointer lead byte }
{
    let row = usize::from(lead.saturating_sub(0x81)) * 190;
    if is_from(0x40, 0x7E, byte) {
        Some(row + usize::from(byte - 0x40))
    } else if is_from(0x80, 0xFE, byte) {
        Some(row + usize::from(byte - 0x41))
    } else {
        None
    }
}

// The number of a lead byte of Shift_JIS.
fn shift_jis_lead(lead: u8) -> u8
    ensures { result ≡ shift_jis_lead lead }
{
    if lead < 0xA0 {
        lead.saturating_sub(0x81)
    } else {
        lead.saturating_sub(0xC1)
    }
}

fn shift_jis_pointer(lead: u8, byte: u8) -> Option<usize>
    ensures { result ≡ shift_jis_pointer lead byte }
{
    let row = usize::from(shift_jis_lead(lead)) * 188;
    if is_from(0x40, 0x7E, byte) {
        Some(row + usize::from(byte - 0x40))
    } else if is_from(0x80, 0xFC, byte) {
        Some(row + usize::from(byte - 0x41))
    } else {
        None
    }
}

// The one character that there is, if any.
fn one(point: Option<char>) -> Points
    ensures { points_of result ≡ one point }
{
    match point {
        Some(point) => Points::One(point),
        None => Points::Nothing,
    }
}

// The character of a pointer by an index.
fn in_index(index: Index, pointer: Option<usize>) -> Points
    ensures { points_of result ≡ in_index index pointer }
{
    match pointer {
        Some(pointer) => one(code_point(index, pointer)),
        None => Points::Nothing,
    }
}

// The characters of a pointer of Big5.
fn in_big5(pointer: Option<usize>) -> Points
    ensures { points_of result ≡ in_big5 pointer }
{
    match pointer {
        Some(1133) => Points::Two('\u{CA}', '\u{304}'),
        Some(1135) => Points::Two('\u{CA}', '\u{30C}'),
        Some(1164) => Points::Two('\u{EA}', '\u{304}'),
        Some(1166) => Points::Two('\u{EA}', '\u{30C}'),
        other => in_index(Index::Big5, other),
    }
}

// A character of private use of Shift_JIS by its number.
fn private_use(number: usize) -> Option<char>
    requires { number < 1880 }
    ensures { result ≡ Some (0xE000 + number) }
{
    let number = u32::try_from(number).unwrap_or(0);
    char::from_u32(0xE000 + number)
}

// The character of a pointer of Shift_JIS.
fn in_shift_jis(pointer: Option<usize>) -> Points
    ensures { points_of result ≡ in_shift_jis pointer }
{
    match pointer {
        Some(pointer) if 8836 <= pointer && pointer <= 10715 => one(private_use(pointer - 8836)),
        other => in_index(Index::Jis0208, other),
    }
}

// The character of two bytes of EUC-JP.
fn euc_jp_pair(lead: u8, byte: u8) -> Points
    ensures { points_of result ≡ euc_jp_pair lead byte }
{
    if lead == 0x8E && is_from(0xA1, 0xDF, byte) {
        Points::One(katakana(byte - 0xA1))
    } else {
        in_index(Index::Jis0208, euc_jp_pointer(lead, byte))
    }
}

/// The characters of a lead byte and another one.
pub(crate) fn pair(name: MultiByte, lead: u8, byte: u8) -> Points
    ensures { points_of result ≡ pair name lead byte }
{
    match name {
        MultiByte::Big5 => in_big5(big5_pointer(lead, byte)),
        MultiByte::EucJp => euc_jp_pair(lead, byte),
        MultiByte::EucKr => in_index(Index::EucKr, euc_kr_pointer(lead, byte)),
        MultiByte::Gb18030 | MultiByte::Gbk => in_index(Index::Gb18030, gb_pointer(lead, byte)),
        MultiByte::ShiftJis => in_shift_jis(shift_jis_pointer(lead, byte)),
    }
}

/// The character of two bytes behind 0x8F in EUC-JP.
pub(crate) fn jis0212_pair(lead: u8, byte: u8) -> Points
    ensures { points_of result ≡ jis0212_pair lead byte }
{
    in_index(Index::Jis0212, euc_jp_pointer(lead, byte))
}
