//! The text of bytes in an encoding.
ghost use Rattle.std.specs.Prelude.{◌≡◌, ◌≢◌, ℕ, Err, None, Some, IfErr, IfOk, IsOk, IsUtf8, encode_utf8, encode_utf8_all, flat_map, string_bytes};
ghost use Rattle.std.specs.Str.Lossy.{utf8_valid_len};
ghost use Rattle.tl_encoding.specs.Decoders.{decoded, first_of, index_wrong, replaced, user_defined, wrong_in};
ghost use Rattle.tl_encoding.specs.SingleByte.{of_index};
ghost use Rattle.tl_encoding.specs.Utf8.{utf_8};
ghost use Rattle.tl_encoding.specs.declared.text.DecodeError.TheVariants.{NoCharacter, NoText, OutOfMemory};
ghost use Rattle.tl_encoding.specs.declared.encoding.Encoding.TheVariants.{Utf8};

use crate::ascii::{ascii_len, begins_ascii_run, push_ascii};
use crate::encoding::Encoding;
use crate::iso_2022_jp::{iso_2022_jp_text, iso_2022_jp_wrong};
use crate::multi_byte::{multi_byte_text, multi_byte_wrong};
use crate::single_byte::of_index;
use crate::utf_16::{utf_16_text, utf_16_wrong};
use crate::written::push_character;
use std::alloc::{AllocError, Global};
use thiserror::Error;

/// Why there is no text.
#[derive(Clone, Copy, PartialEq, Eq, Debug, Error)]
pub enum DecodeError {
    /// So many bytes are UTF-8, and then some are none.
    #[error("invalid UTF-8 at byte {0}")]
    NoText(usize),
    /// So many bytes stand for characters in another encoding, and then some don't.
    #[error("invalid byte sequence at byte {0}")]
    NoCharacter(usize),
    /// Memory ran out.
    #[error("out of memory")]
    OutOfMemory,
}

impl From<AllocError> for DecodeError {
    ghost from_gives = { λ _ error. error ≡ OutOfMemory };

    fn from(_: AllocError) -> Self {
        DecodeError::OutOfMemory
    }
}

// The characters of bytes by an index.
fn single_byte_text(alloc: Global, index: &[char; 128], bytes: &[u8]) -> Result<String, AllocError>
    ensures { IfOk result (λ text. string_bytes text
        ≡ flat_map (λ b. encode_utf8 (of_index index.now b)) bytes.now) }
{
    let mut text = String::with_capacity(alloc, bytes.len())?;
    let mut rest = bytes;
    while let [byte, after @ ..] = rest {
        if begins_ascii_run(rest) {
            let (run, behind) = rest.split_at(ascii_len(rest));
            push_ascii(&mut text, run)?;
            rest = behind;
        } else {
            push_character(&mut text, of_index(index, *byte))?;
            rest = after;
        }
    }
    Ok(text)
}

// Where the first byte stands that an index has no character for.
fn index_wrong(index: &[char; 128], bytes: &[u8]) -> Option<usize>
    ensures { result ≡ index_wrong index.now 0 bytes.now }
{
    for (at, byte) in bytes.iter().enumerate() {
        if of_index(index, *byte) == char::REPLACEMENT_CHARACTER {
            return Some(at);
        }
    }
    None
}

// The character of a byte of x-user-defined.
fn user_defined(byte: u8) -> char
    ensures { result ≡ user_defined byte }
{
    if byte < 0x80 {
        return char::from(byte);
    }
    match char::from_u32(0xF780 + u32::from(byte - 0x80)) {
        Some(character) => character,
        None => char::REPLACEMENT_CHARACTER,
    }
}

// The characters of bytes of x-user-defined.
fn user_defined_text(alloc: Global, bytes: &[u8]) -> Result<String, AllocError>
    ensures { IfOk result (λ text. string_bytes text
        ≡ flat_map (λ b. encode_utf8 (user_defined b)) bytes.now) }
{
    let mut text = String::with_capacity(alloc, bytes.len())?;
    for byte in bytes {
        push_character(&mut text, user_defined(*byte))?;
    }
    Ok(text)
}

// One U+FFFD where there are any bytes.
fn replaced(alloc: Global, bytes: &[u8]) -> Result<String, AllocError>
    ensures { IfOk result (λ text. string_bytes text ≡ replaced bytes.now) }
{
    let mut text = String::new(alloc);
    if !bytes.is_empty() {
        text.push(char::REPLACEMENT_CHARACTER)?;
    }
    Ok(text)
}

// The text of bytes of UTF-8, which isn't copied where all are.
#[tactic(auto, using(crate::proofs::Replaced::replaced))]
fn utf_8_text(alloc: Global, page: Vec<u8>) -> Result<String, AllocError>
    ensures text { IfOk result (λ text. string_bytes text ≡ encode_utf8_all (utf_8 page.items)) }
    ensures reads { IsUtf8 page.items → IsOk result }
{
    match String::from_utf8(page) {
        Ok(text) => Ok(text),
        Err(error) => Ok(String::from_utf8_lossy(alloc, error.as_bytes())?),
    }
}

/// The text of a page in an encoding, by its decoder: U+FFFD stands for bytes that are wrong.
pub fn decode(alloc: Global, page: Vec<u8>, encoding: Encoding) -> Result<String, AllocError>
    ensures text { IfOk result (λ text. string_bytes text ≡ decoded encoding page.items) }
    ensures reads { encoding ≡ Utf8 → IsUtf8 page.items → IsOk result }
{
    match encoding {
        Encoding::Utf8 => utf_8_text(alloc, page),
        Encoding::Utf16(order) => utf_16_text(alloc, order, page.as_slice()),
        Encoding::SingleByte(name) => single_byte_text(alloc, name.index(), page.as_slice()),
        Encoding::MultiByte(name) => multi_byte_text(alloc, name, page.as_slice()),
        Encoding::Iso2022Jp => iso_2022_jp_text(alloc, page.as_slice()),
        Encoding::UserDefined => user_defined_text(alloc, page.as_slice()),
        Encoding::Replacement => replaced(alloc, page.as_slice()),
    }
}

// Where the first error begins in another encoding than UTF-8.
fn wrong_in(encoding: Encoding, bytes: &[u8]) -> Option<usize>
    ensures { result ≡ wrong_in encoding bytes.now }
{
    match encoding {
        Encoding::Utf8 | Encoding::UserDefined => None,
        Encoding::Utf16(order) => utf_16_wrong(order, bytes),
        Encoding::SingleByte(name) => index_wrong(name.index(), bytes),
        Encoding::MultiByte(name) => multi_byte_wrong(name, bytes),
        Encoding::Iso2022Jp => iso_2022_jp_wrong(bytes),
        Encoding::Replacement if bytes.is_empty() => None,
        Encoding::Replacement => Some(0),
    }
}

// The text of bytes of UTF-8, if all are.
fn utf_8_strict(page: Vec<u8>) -> Result<String, DecodeError>
    ensures text { IfOk result (λ text. string_bytes text ≡ encode_utf8_all (utf_8 page.items)) }
    ensures reads { IsUtf8 page.items → IsOk result }
    ensures no_text { ¬ (IsUtf8 page.items) → result ≡ Err (NoText (utf8_valid_len page.items)) }
{
    match String::from_utf8(page) {
        Ok(text) => Ok(text),
        Err(error) => Err(DecodeError::NoText(error.utf8_error().valid_up_to())),
    }
}

// The text of bytes in another encoding, if none is wrong.
fn other_strict(alloc: Global, page: Vec<u8>, encoding: Encoding) -> Result<String, DecodeError>
    ensures text { IfOk result (λ text. string_bytes text ≡ decoded encoding page.items) }
    ensures no_character { (at : ℕ) → wrong_in encoding page.items ≡ Some at
        → result ≡ Err (NoCharacter at) }
    ensures memory { wrong_in encoding page.items ≡ None
        → IfErr result (λ error. error ≡ OutOfMemory) }
{
    if let Some(at) = wrong_in(encoding, page.as_slice()) {
        return Err(DecodeError::NoCharacter(at));
    }
    Ok(decode(alloc, page, encoding)?)
}

/// The text of a page in an encoding, if no byte is wrong; else where the first is.
pub fn decode_strict(
    alloc: Global,
    page: Vec<u8>,
    encoding: Encoding,
) -> Result<String, DecodeError>
    ensures text { IfOk result (λ text. string_bytes text ≡ decoded encoding page.items) }
    ensures reads { encoding ≡ Utf8 → IsUtf8 page.items → IsOk result }
    ensures no_text { encoding ≡ Utf8 → ¬ (IsUtf8 page.items)
        → result ≡ Err (NoText (utf8_valid_len page.items)) }
    ensures no_character { (at : ℕ) → wrong_in encoding page.items ≡ Some at
        → result ≡ Err (NoCharacter at) }
    ensures memory { encoding ≢ Utf8 → wrong_in encoding page.items ≡ None
        → IfErr result (λ error. error ≡ OutOfMemory) }
{
    match encoding {
        Encoding::Utf8 => utf_8_strict(page),
        other => other_strict(alloc, page, other),
    }
}
