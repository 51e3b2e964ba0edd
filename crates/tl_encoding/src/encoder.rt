//! The bytes of a text in an encoding.
ghost use Rattle.std.specs.Prelude.{◌≡◌, ◌==◌, ◌<◌, IfSome, ◌++◌, ◌∷◌, [], ℕ, List, IfErr, IfOk, OnOk, Some, flat_map, is_some, string_bytes};
ghost use Rattle.std.specs.List.{position};
ghost use Rattle.std.specs.Str.{chars};
ghost use Rattle.tl_encoding.specs.Encoders.{IsLacking, ascii_byte, byte_of, encoded, encoded_point, has_encoder, index_byte, unit_bytes, units_bytes, user_byte, written};
ghost use Rattle.tl_encoding.specs.declared.encoder.EncodeError.TheVariants.{OutOfMemory};

use crate::encoding::{ByteOrder, Encoding};
use std::alloc::{AllocError, Global};
use std::fmt::Write;
use thiserror::Error;

/// Why a text has no bytes.
#[derive(Clone, Copy, PartialEq, Eq, Debug, Error)]
pub enum EncodeError {
    /// The first character that the encoding lacks.
    #[error("the encoding of the page lacks {0:?}")]
    NoCharacter(char),
    /// Memory ran out.
    #[error("out of memory")]
    OutOfMemory,
}

impl From<AllocError> for EncodeError {
    ghost from_gives = { λ _ error. error ≡ OutOfMemory };

    fn from(_: AllocError) -> Self {
        EncodeError::OutOfMemory
    }
}

// The place of a character in an index ("index pointer").
fn pointer(index: &[char; 128], character: char) -> Option<usize>
    ensures value { result ≡ position (λ other. other == character) index.now }
    ensures within { IfSome result (λ at. at < 128) }
{
    index.iter().position(|other| *other == character)
}

// The byte of a character by an index.
fn index_byte(index: &[char; 128], character: char) -> Option<u8>
    ensures { result ≡ index_byte index.now character }
{
    if character < '\u{80}' {
        return Some(character as u8);
    }
    if character == char::REPLACEMENT_CHARACTER {
        return None;
    }
    match pointer(index, character) {
        Some(at) => Some(0x80 + at as u8),
        None => None,
    }
}

// The byte of a character of x-user-defined.
fn user_byte(character: char) -> Option<u8>
    ensures { result ≡ user_byte character }
{
    match u32::from(character) {
        code @ 0..0x80 => Some(code as u8),
        code @ 0xF780..=0xF7FF => Some((code - 0xF780 + 0x80) as u8),
        _ => None,
    }
}

// The byte of a character of ASCII.
fn ascii_byte(character: char) -> Option<u8>
    ensures { result ≡ ascii_byte character }
{
    if character < '\u{80}' {
        Some(character as u8)
    } else {
        None
    }
}

// Adds the bytes of a code unit.
fn push_unit(bytes: &mut Vec<u8>, order: ByteOrder, unit: u16) -> Result<(), AllocError>
    ensures { OnOk result (bytes.new.items ≡ bytes.old.items ++ unit_bytes order unit) }
{
    let high = (unit / 256) as u8;
    let low = (unit % 256) as u8;
    match order {
        ByteOrder::BigEndian => Ok(bytes.extend_from_slice(&[high, low])?),
        ByteOrder::LittleEndian => Ok(bytes.extend_from_slice(&[low, high])?),
    }
}

// Adds the bytes of a character of UTF-16.
fn push_units(bytes: &mut Vec<u8>, order: ByteOrder, character: char) -> Result<(), AllocError>
    ensures { OnOk result (bytes.new.items ≡ bytes.old.items ++ units_bytes order character) }
{
    let code = u32::from(character);
    if code < 0x1_0000 {
        return push_unit(bytes, order, code as u16);
    }
    let above = code - 0x1_0000;
    push_unit(bytes, order, (0xD800 + above / 0x400) as u16)?;
    push_unit(bytes, order, (0xDC00 + above % 0x400) as u16)
}

impl Encoding {
    /// Whether a text has one row of bytes, and `encode` finds it. Of the encodings of several
    /// bytes, but for ISO-2022-JP, `encode` finds that of ASCII.
    pub fn has_encoder(self) -> bool
        ensures { result ≡ has_encoder self }
    {
        match self {
            Encoding::Utf8 | Encoding::Utf16(_) | Encoding::SingleByte(_) | Encoding::UserDefined =>
                true,
            Encoding::MultiByte(_) | Encoding::Iso2022Jp | Encoding::Replacement => false,
        }
    }

    // The byte of a character, where the encoding has one for it.
    fn byte_of(self, character: char) -> Option<u8>
        ensures { result ≡ byte_of self character }
    {
        match self {
            Encoding::SingleByte(name) => index_byte(name.index(), character),
            Encoding::MultiByte(_) => ascii_byte(character),
            Encoding::UserDefined => user_byte(character),
            Encoding::Utf8 | Encoding::Utf16(_) | Encoding::Iso2022Jp | Encoding::Replacement => {
                None
            }
        }
    }

    // Whether it has a character.
    fn has(self, character: char) -> bool
        ensures { result ≡ is_some (encoded_point self character) }
    {
        match self {
            Encoding::Utf8 | Encoding::Utf16(_) => true,
            other => other.byte_of(character).is_some(),
        }
    }

    // Adds the byte of a character, and answers whether there is one.
    fn push_byte_of(self, bytes: &mut Vec<u8>, character: char) -> Result<bool, AllocError>
        ensures has { IfOk result (λ has. has ≡ is_some (byte_of self character)) }
        ensures bytes { OnOk result ((b : ℕ) → byte_of self character ≡ Some b
            → bytes.new.items ≡ bytes.old.items ++ b ∷ []) }
    {
        match self.byte_of(character) {
            Some(byte) => {
                bytes.push(byte)?;
                Ok(true)
            }
            None => Ok(false),
        }
    }

    /// Adds the bytes of a character, and answers whether the encoding has it.
    pub(crate) fn push(self, bytes: &mut Vec<u8>, character: char) -> Result<bool, AllocError>
        ensures has { IfOk result (λ has. has ≡ is_some (encoded_point self character)) }
        ensures bytes { OnOk result ((own : List ℕ) → encoded_point self character ≡ Some own
            → bytes.new.items ≡ bytes.old.items ++ own) }
    {
        match self {
            Encoding::Utf8 => {
                let mut room = [0; 4];
                bytes.extend_from_slice(character.encode_utf8(&mut room).as_bytes())?;
                Ok(true)
            }
            Encoding::Utf16(order) => {
                push_units(bytes, order, character)?;
                Ok(true)
            }
            other => other.push_byte_of(bytes, character),
        }
    }
}

/// The bytes of a text in an encoding: those that `decode_strict` reads as that text. Where the
/// encoding has an encoder there are no others, and a page that was decoded so is given back.
pub fn encode(alloc: Global, encoding: Encoding, text: &str) -> Result<Vec<u8>, EncodeError>
    ensures bytes { IfOk result (λ bytes. encoded encoding (chars text.now) ≡ Some bytes.items) }
    ensures lacks { IfErr result (IsLacking encoding (chars text.now)) }
{
    let mut bytes = Vec::with_capacity(alloc, text.len())?;
    for character in text.chars() {
        let is_there = encoding.push(&mut bytes, character)?;
        if !is_there {
            return Err(EncodeError::NoCharacter(character));
        }
    }
    Ok(bytes)
}

// Adds a character, or a reference to it where the encoding lacks it.
fn push_written(text: &mut String, encoding: Encoding, character: char) -> Result<(), AllocError>
    ensures { OnOk result (string_bytes text.new
        ≡ string_bytes text.old ++ written encoding character) }
{
    if encoding.has(character) {
        return text.push(character);
    }
    let code = u32::from(character);
    write!(text, "&#{code};")
}

/// A text with references in the place of the characters that an encoding lacks, as browsers send
/// what is written into a form.
pub fn with_references(alloc: Global, encoding: Encoding, text: &str) -> Result<String, AllocError>
    ensures { IfOk result (λ own. string_bytes own
        ≡ flat_map (written encoding) (chars text.now)) }
{
    let mut own = String::with_capacity(alloc, text.len())?;
    for character in text.chars() {
        push_written(&mut own, encoding, character)?;
    }
    Ok(own)
}
