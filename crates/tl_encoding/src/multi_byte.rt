//! GBK, gb18030, Big5, EUC-JP, Shift_JIS and EUC-KR.
ghost use Rattle.std.specs.Prelude.{◌≡◌, ◌++◌, IfOk, OnOk, encode_utf8_all, string_bytes};
ghost use Rattle.tl_encoding.specs.MultiByte.{after, alone, alone_gb, alone_shift_jis, count, four, given, given_first, given_fourth, given_second, given_third, goes_on, held_first, held_second, is_lead, multi_byte, multi_byte_wrong, or_error, point_or_error, second_is_wrong, shows_wrong};
ghost use Rattle.tl_encoding.specs.Pairs.{points_of};
ghost use Rattle.tl_encoding.specs.declared.multi_byte.Held.TheVariants.{Nothing};

use crate::ascii::{ascii_len, push_ascii};
use crate::pairs::{Points, is_from, jis0212_pair, katakana, pair};
use crate::written::push_character;
use std::alloc::{AllocError, Global};
use tl_indexes::ranges_code_point;

/// An encoding in which a lead byte begins what stands for most characters, as the encoding
/// standard names it (sections 10 to 13).
#[derive(Clone, Copy, PartialEq, Eq, Debug)]
pub enum MultiByte {
    Big5,
    EucJp,
    EucKr,
    Gb18030,
    /// Read as gb18030.
    Gbk,
    ShiftJis,
}

// What the decoder holds of a character.
#[derive(Clone, Copy)]
pub(crate) enum Held {
    Nothing,
    Lead(u8),
    // the lead byte of JIS X 0212, behind 0x8F
    Jis0212(u8),
    // the first two of four bytes of gb18030, and three
    Second(u8, u8),
    Third(u8, u8, u8),
}

// What a byte of gb18030 stands for by itself.
fn alone_gb(byte: u8) -> Option<char>
    ensures { result ≡ alone_gb byte }
{
    if byte < 0x80 {
        Some(char::from(byte))
    } else if byte == 0x80 {
        Some('\u{20AC}')
    } else {
        None
    }
}

// What a byte of Shift_JIS stands for by itself.
fn alone_shift_jis(byte: u8) -> Option<char>
    ensures { result ≡ alone_shift_jis byte }
{
    if byte < 0x81 {
        Some(char::from(byte))
    } else if is_from(0xA1, 0xDF, byte) {
        Some(katakana(byte - 0xA1))
    } else {
        None
    }
}

// The character of four bytes of gb18030.
fn four(first: u8, second: u8, third: u8, byte: u8) -> Option<char>
    ensures { result ≡ four first second third byte }
{
    let first = u32::from(first.saturating_sub(0x81));
    let second = u32::from(second.saturating_sub(0x30));
    let third = u32::from(third.saturating_sub(0x81));
    let byte = u32::from(byte.saturating_sub(0x30));
    ranges_code_point(first * 12600 + second * 1260 + third * 10 + byte)
}

// Adds the code points of bytes, or an error, behind which the last of them is restored if it is
// ASCII.
fn push_or_error(text: &mut String, points: Points, byte: u8) -> Result<(), AllocError>
    ensures { OnOk result (string_bytes text.new
        ≡ string_bytes text.old ++ encode_utf8_all (or_error (points_of points) byte)) }
{
    match points {
        Points::One(point) => push_character(text, point),
        Points::Two(first, second) => {
            text.push(first)?;
            text.push(second)
        }
        Points::Nothing => {
            text.push(char::REPLACEMENT_CHARACTER)?;
            if byte < 0x80 {
                text.push(char::from(byte))
            } else {
                Ok(())
            }
        }
    }
}

/// Adds a code point, or an error.
pub(crate) fn push_point(text: &mut String, point: Option<char>) -> Result<(), AllocError>
    ensures { OnOk result (string_bytes text.new
        ≡ string_bytes text.old ++ encode_utf8_all (point_or_error point)) }
{
    match point {
        Some(point) => push_character(text, point),
        None => text.push(char::REPLACEMENT_CHARACTER),
    }
}

impl MultiByte {
    // What a byte stands for by itself.
    fn alone(self, byte: u8) -> Option<char>
        ensures { result ≡ alone self byte }
    {
        match self {
            MultiByte::Gb18030 | MultiByte::Gbk => alone_gb(byte),
            MultiByte::ShiftJis => alone_shift_jis(byte),
            MultiByte::Big5 | MultiByte::EucJp | MultiByte::EucKr => {
                if byte < 0x80 {
                    Some(char::from(byte))
                } else {
                    None
                }
            }
        }
    }

    // Whether a byte begins what stands for a character.
    fn is_lead(self, byte: u8) -> bool
        ensures { result ≡ is_lead self byte }
    {
        match self {
            MultiByte::EucJp => is_from(0x8E, 0x8F, byte) || is_from(0xA1, 0xFE, byte),
            MultiByte::ShiftJis => is_from(0x81, 0x9F, byte) || is_from(0xE0, 0xFC, byte),
            MultiByte::Big5 | MultiByte::EucKr | MultiByte::Gb18030 | MultiByte::Gbk => {
                is_from(0x81, 0xFE, byte)
            }
        }
    }

    // What is held where a byte behind a lead byte goes on with a character.
    fn goes_on(self, lead: u8, byte: u8) -> Option<Held>
        ensures { result ≡ goes_on self lead byte }
    {
        match self {
            MultiByte::EucJp if lead == 0x8F && is_from(0xA1, 0xFE, byte) => {
                Some(Held::Jis0212(byte))
            }
            MultiByte::Gb18030 | MultiByte::Gbk if is_from(0x30, 0x39, byte) => {
                Some(Held::Second(lead, byte))
            }
            _ => None,
        }
    }

    // Adds what a byte gives that nothing precedes.
    fn push_first(self, text: &mut String, byte: u8) -> Result<(), AllocError>
        ensures { OnOk result (string_bytes text.new
            ≡ string_bytes text.old ++ encode_utf8_all (given_first self byte)) }
    {
        match self.alone(byte) {
            Some(point) => push_character(text, point),
            None if self.is_lead(byte) => Ok(()),
            None => text.push(char::REPLACEMENT_CHARACTER),
        }
    }

    // What is held after it.
    fn held_first(self, byte: u8) -> Held
        ensures { result ≡ held_first self byte }
    {
        if self.is_lead(byte) {
            Held::Lead(byte)
        } else {
            Held::Nothing
        }
    }

    // Adds what a byte gives behind a lead byte.
    fn push_second(self, text: &mut String, lead: u8, byte: u8) -> Result<(), AllocError>
        ensures { OnOk result (string_bytes text.new
            ≡ string_bytes text.old ++ encode_utf8_all (given_second self lead byte)) }
    {
        match self.goes_on(lead, byte) {
            Some(_) => Ok(()),
            None => push_or_error(text, pair(self, lead, byte), byte),
        }
    }

    // What is held after it.
    fn held_second(self, lead: u8, byte: u8) -> Held
        ensures { result ≡ held_second self lead byte }
    {
        match self.goes_on(lead, byte) {
            Some(held) => held,
            None => Held::Nothing,
        }
    }

    // Whether a byte shows an error behind a lead byte.
    fn second_is_wrong(self, lead: u8, byte: u8) -> bool
        ensures { result ≡ second_is_wrong self lead byte }
    {
        self.goes_on(lead, byte).is_none() && pair(self, lead, byte).is_nothing()
    }

    // Adds what a byte gives behind two bytes of four.
    fn push_third(self, text: &mut String, second: u8, byte: u8) -> Result<(), AllocError>
        ensures { OnOk result (string_bytes text.new
            ≡ string_bytes text.old ++ encode_utf8_all (given_third self second byte)) }
    {
        if is_from(0x81, 0xFE, byte) {
            return Ok(());
        }
        text.push(char::REPLACEMENT_CHARACTER)?;
        text.push(char::from(second))?;
        self.push_first(text, byte)
    }

    // Adds what a byte gives behind three.
    fn push_fourth(
        self,
        text: &mut String,
        first: u8,
        second: u8,
        third: u8,
        byte: u8,
    ) -> Result<(), AllocError>
        ensures { OnOk result (string_bytes text.new ≡ string_bytes text.old
            ++ encode_utf8_all (given_fourth self first second third byte)) }
    {
        if is_from(0x30, 0x39, byte) {
            return push_point(text, four(first, second, third, byte));
        }
        text.push(char::REPLACEMENT_CHARACTER)?;
        text.push(char::from(second))?;
        self.push_second(text, third, byte)
    }

    // Adds what a byte gives.
    fn push_byte(self, text: &mut String, held: Held, byte: u8) -> Result<(), AllocError>
        ensures { OnOk result (string_bytes text.new
            ≡ string_bytes text.old ++ encode_utf8_all (given self held byte)) }
    {
        match held {
            Held::Nothing => self.push_first(text, byte),
            Held::Lead(lead) => self.push_second(text, lead, byte),
            Held::Jis0212(lead) => push_or_error(text, jis0212_pair(lead, byte), byte),
            Held::Second(_, second) => self.push_third(text, second, byte),
            Held::Third(first, second, third) => {
                self.push_fourth(text, first, second, third, byte)
            }
        }
    }

    // Whether a byte shows an error.
    fn shows_wrong(self, held: Held, byte: u8) -> bool
        ensures { result ≡ shows_wrong self held byte }
    {
        match held {
            Held::Nothing => self.alone(byte).is_none() && !self.is_lead(byte),
            Held::Lead(lead) => self.second_is_wrong(lead, byte),
            Held::Jis0212(lead) => jis0212_pair(lead, byte).is_nothing(),
            Held::Second(_, _) => !is_from(0x81, 0xFE, byte),
            Held::Third(first, second, third) => {
                !is_from(0x30, 0x39, byte) || four(first, second, third, byte).is_none()
            }
        }
    }
}

impl Held {
    // After one more byte.
    fn after(self, name: MultiByte, byte: u8) -> Held
        ensures { result ≡ after name self byte }
    {
        match self {
            Held::Nothing => name.held_first(byte),
            Held::Lead(lead) => name.held_second(lead, byte),
            Held::Jis0212(_) => Held::Nothing,
            Held::Second(first, second) if is_from(0x81, 0xFE, byte) => {
                Held::Third(first, second, byte)
            }
            Held::Second(_, _) => name.held_first(byte),
            Held::Third(_, _, _) if is_from(0x30, 0x39, byte) => Held::Nothing,
            Held::Third(_, _, third) => name.held_second(third, byte),
        }
    }

    // How many bytes are held.
    fn count(self) -> usize
        ensures { result ≡ count self }
    {
        match self {
            Held::Nothing => 0,
            Held::Lead(_) => 1,
            Held::Jis0212(_) | Held::Second(_, _) => 2,
            Held::Third(_, _, _) => 3,
        }
    }
}

/// The text of bytes of an encoding.
pub(crate) fn multi_byte_text(
    alloc: Global,
    name: MultiByte,
    bytes: &[u8],
) -> Result<String, AllocError>
    ensures { IfOk result (λ text. string_bytes text ≡ multi_byte name Nothing bytes.now) }
{
    let mut text = String::with_capacity(alloc, bytes.len())?;
    let mut held = Held::Nothing;
    let mut rest = bytes;
    while let [byte, after @ ..] = rest {
        if held.count() == 0 && byte.is_ascii() {
            let (run, behind) = rest.split_at(ascii_len(rest));
            push_ascii(&mut text, run)?;
            rest = behind;
        } else {
            name.push_byte(&mut text, held, *byte)?;
            held = held.after(name, *byte);
            rest = after;
        }
    }
    if held.count() != 0 {
        text.push(char::REPLACEMENT_CHARACTER)?;
    }
    Ok(text)
}

/// Where the first error in bytes of an encoding begins.
pub(crate) fn multi_byte_wrong(name: MultiByte, bytes: &[u8]) -> Option<usize>
    ensures { result ≡ multi_byte_wrong name Nothing 0 bytes.now }
{
    let mut held = Held::Nothing;
    for (at, byte) in bytes.iter().enumerate() {
        if name.shows_wrong(held, *byte) {
            return Some(at.saturating_sub(held.count()));
        }
        held = held.after(name, *byte);
    }
    match held.count() {
        0 => None,
        count => Some(bytes.len().saturating_sub(count)),
    }
}
