//! UTF-16, of either order of bytes.
ghost use Rattle.std.specs.Prelude.{◌≡◌, ◌++◌, IfOk, IfSome, OnOk, encode_utf8_all, string_bytes, true};
ghost use Rattle.std.specs.Char.Utf16.{is_high_surrogate, is_low_surrogate, surrogate_pair_char};
ghost use Rattle.tl_encoding.specs.Utf16.{after, alone, code_unit, given, is_cut, is_wrong, kept, points, shows_wrong, start, utf_16, utf_16_wrong, wrong_place};

use crate::encoding::ByteOrder;
use std::alloc::{AllocError, Global};

// What the decoder holds of a character: the first byte of a code unit, and a leading surrogate.
#[derive(Clone, Copy)]
pub(crate) struct Units {
    lead: Option<u8>,
    leading: Option<u16>,
}

impl ByteOrder {
    // The code unit of two bytes.
    fn code_unit(self, first: u8, second: u8) -> u16
        ensures { result ≡ code_unit self first second }
    {
        match self {
            ByteOrder::BigEndian => u16::from(first) * 256 + u16::from(second),
            ByteOrder::LittleEndian => u16::from(second) * 256 + u16::from(first),
        }
    }
}

// Whether a code unit is a leading surrogate.
fn is_leading(unit: u16) -> bool
    ensures { result ≡ is_high_surrogate unit }
{
    0xD800 <= unit && unit < 0xDC00
}

// Whether it is a trailing one.
fn is_trailing(unit: u16) -> bool
    ensures { result ≡ is_low_surrogate unit }
{
    0xDC00 <= unit && unit < 0xE000
}

// The leading surrogate that is kept after a code unit.
fn kept(unit: u16) -> Option<u16>
    ensures { result ≡ kept unit }
{
    if is_leading(unit) { Some(unit) } else { None }
}

// The character of a pair of surrogates.
fn of_pair(leading: u16, trailing: u16) -> char
    requires leading { is_high_surrogate leading ≡ true }
    requires trailing { is_low_surrogate trailing ≡ true }
    ensures { result ≡ surrogate_pair_char leading trailing }
{
    let code = 0x1_0000 + (u32::from(leading) - 0xD800) * 0x400 + (u32::from(trailing) - 0xDC00);
    match char::from_u32(code) {
        Some(character) => character,
        None => char::REPLACEMENT_CHARACTER,
    }
}

// Adds what a code unit gives that follows no leading surrogate.
fn push_alone(text: &mut String, unit: u16) -> Result<(), AllocError>
    ensures { OnOk result (string_bytes text.new
        ≡ string_bytes text.old ++ encode_utf8_all (alone unit)) }
{
    if is_leading(unit) {
        return Ok(());
    }
    match char::from_u32(u32::from(unit)) {
        Some(character) => text.push(character),
        None => text.push(char::REPLACEMENT_CHARACTER),
    }
}

// Adds what a code unit gives.
fn push_unit(text: &mut String, leading: Option<u16>, unit: u16) -> Result<(), AllocError>
    requires { IfSome leading (λ leading. is_high_surrogate leading ≡ true) }
    ensures { OnOk result (string_bytes text.new
        ≡ string_bytes text.old ++ encode_utf8_all (points leading unit)) }
{
    match leading {
        None => push_alone(text, unit),
        Some(leading) if is_trailing(unit) => text.push(of_pair(leading, unit)),
        Some(_) => {
            text.push(char::REPLACEMENT_CHARACTER)?;
            push_alone(text, unit)
        }
    }
}

// Whether a code unit shows an error.
fn is_wrong(leading: Option<u16>, unit: u16) -> bool
    ensures { result ≡ is_wrong leading unit }
{
    match leading {
        None => is_trailing(unit),
        Some(_) => !is_trailing(unit),
    }
}

// Adds what a byte gives.
fn push_byte(text: &mut String, order: ByteOrder, units: Units, byte: u8) -> Result<(), AllocError>
    requires { IfSome units.leading (λ leading. is_high_surrogate leading ≡ true) }
    ensures { OnOk result (string_bytes text.new
        ≡ string_bytes text.old ++ encode_utf8_all (given order units byte)) }
{
    match units.lead {
        None => Ok(()),
        Some(first) => push_unit(text, units.leading, order.code_unit(first, byte)),
    }
}

impl Units {
    // At the beginning of bytes.
    fn new() -> Units
        ensures { result ≡ start }
    {
        Units {
            lead: None,
            leading: None,
        }
    }

    // After one more byte.
    #[tactic(auto, using(crate::proofs::Utf16::steps))]
    fn after(self, order: ByteOrder, byte: u8) -> Units
        ensures value { result ≡ after order self byte }
        ensures leads { IfSome self.leading (λ leading. is_high_surrogate leading ≡ true)
            → IfSome result.leading (λ leading. is_high_surrogate leading ≡ true) }
    {
        match self.lead {
            None => Units {
                lead: Some(byte),
                leading: self.leading,
            },
            Some(first) => Units {
                lead: None,
                leading: kept(order.code_unit(first, byte)),
            },
        }
    }

    // Whether the end of bytes here is within a code unit or a character.
    fn is_cut(self) -> bool
        ensures { result ≡ is_cut self }
    {
        self.lead.is_some() || self.leading.is_some()
    }

    // Whether a byte shows an error.
    fn shows_wrong(self, order: ByteOrder, byte: u8) -> bool
        ensures { result ≡ shows_wrong order self byte }
    {
        match self.lead {
            None => false,
            Some(first) => is_wrong(self.leading, order.code_unit(first, byte)),
        }
    }

    // Where an error begins that is seen at a place.
    fn wrong_place(self, at: usize) -> usize
        ensures { result ≡ wrong_place self at }
    {
        match (self.lead, self.leading) {
            (None, None) => at,
            (None, Some(_)) => at.saturating_sub(2),
            (Some(_), None) => at.saturating_sub(1),
            (Some(_), Some(_)) => at.saturating_sub(3),
        }
    }
}

/// The text of bytes of UTF-16.
pub(crate) fn utf_16_text(
    alloc: Global,
    order: ByteOrder,
    bytes: &[u8],
) -> Result<String, AllocError>
    ensures { IfOk result (λ text. string_bytes text ≡ utf_16 order start bytes.now) }
{
    let mut text = String::with_capacity(alloc, bytes.len())?;
    let mut units = Units::new();
    for byte in bytes {
        push_byte(&mut text, order, units, *byte)?;
        units = units.after(order, *byte);
    }
    if units.is_cut() {
        text.push(char::REPLACEMENT_CHARACTER)?;
    }
    Ok(text)
}

/// Where the first error in bytes of UTF-16 begins.
pub(crate) fn utf_16_wrong(order: ByteOrder, bytes: &[u8]) -> Option<usize>
    ensures { result ≡ utf_16_wrong order start 0 bytes.now }
{
    let mut units = Units::new();
    for (at, byte) in bytes.iter().enumerate() {
        if units.shows_wrong(order, *byte) {
            return Some(units.wrong_place(at));
        }
        units = units.after(order, *byte);
    }
    if units.is_cut() {
        Some(units.wrong_place(bytes.len()))
    } else {
        None
    }
}
