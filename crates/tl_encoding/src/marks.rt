//! UTF-8 in which bytes are wrong, as a text from which all bytes come back.
ghost use Rattle.std.specs.Prelude.{◌≡◌, ◌≢◌, ◌++◌, IfOk, IfSome, None, OnOk, encode_utf8_all, string_bytes, true};
ghost use Rattle.std.specs.Str.{chars};
ghost use Rattle.tl_encoding.specs.Marks.{has_mark, is_mark, mark, marked, marks, unmarked, unmarked_point};
ghost use Rattle.tl_encoding.specs.Utf8.{utf_8};

use std::alloc::{AllocError, Global};

// The character that stands for a byte.
fn mark(byte: u8) -> char
    ensures { result ≡ mark byte }
{
    match char::from_u32(0x10_FF00 + u32::from(byte)) {
        Some(character) => character,
        None => char::REPLACEMENT_CHARACTER,
    }
}

// Whether a character stands for a byte.
fn is_mark(character: char) -> bool
    ensures { result ≡ is_mark character }
{
    (0x10_FF00..=0x10_FFFF).contains(&u32::from(character))
}

// Whether a text has such a character.
fn has_mark(text: &str) -> bool
    ensures { result ≡ has_mark (chars text.now) }
{
    for character in text.chars() {
        if is_mark(character) {
            return true;
        }
    }
    false
}

// Adds the marks of bytes.
fn push_marks(text: &mut String, bytes: &[u8]) -> Result<(), AllocError>
    ensures { OnOk result (string_bytes text.new ≡ string_bytes text.old ++ marks bytes.now) }
{
    for byte in bytes {
        text.push(mark(*byte))?;
    }
    Ok(())
}

// The text of bytes, in which marks stand for those that are wrong.
fn marked(alloc: Global, bytes: &[u8]) -> Result<String, AllocError>
    ensures { IfOk result (λ text. string_bytes text ≡ marked bytes.now) }
{
    let mut text = String::with_capacity(alloc, bytes.len())?;
    for chunk in bytes.utf8_chunks() {
        text.push_str(chunk.valid())?;
        push_marks(&mut text, chunk.invalid())?;
    }
    Ok(text)
}

/// The text of a page in UTF-8, in which a mark stands for each byte that is wrong, where the page
/// has no such character itself.
pub fn with_marks(alloc: Global, page: &[u8]) -> Result<Option<String>, AllocError>
    ensures text { IfOk result (λ found. IfSome found (λ text. string_bytes text
        ≡ marked page.now)) }
    ensures back { IfOk result (λ found. IfSome found (λ text. unmarked (chars (string_bytes text))
        ≡ page.now)) }
    ensures none { IfOk result (λ found. found ≡ None →
        has_mark (chars (encode_utf8_all (utf_8 page.now))) ≡ true) }
{
    let own = String::from_utf8_lossy(alloc, page)?;
    if has_mark(own.as_str()) {
        return Ok(None);
    }
    Ok(Some(marked(alloc, page)?))
}

// Adds the bytes of a character.
fn push_unmarked(bytes: &mut Vec<u8>, character: char) -> Result<(), AllocError>
    ensures { OnOk result (bytes.new.items ≡ bytes.old.items ++ unmarked_point character) }
{
    if is_mark(character) {
        bytes.push((u32::from(character) - 0x10_FF00) as u8)?;
        return Ok(());
    }
    let mut room = [0; 4];
    bytes.extend_from_slice(character.encode_utf8(&mut room).as_bytes())
}

// The bytes of a text with marks.
fn unmarked(alloc: Global, text: &str) -> Result<Vec<u8>, AllocError>
    ensures { IfOk result (λ bytes. bytes.items ≡ unmarked (chars text.now)) }
{
    let mut bytes = Vec::with_capacity(alloc, text.len())?;
    for character in text.chars() {
        push_unmarked(&mut bytes, character)?;
    }
    Ok(bytes)
}

/// The bytes of a text with marks, where they are read as another text: that is the same one with
/// U+FFFD for what the marks stand for, unless marks came to stand beside others.
pub fn without_marks(alloc: Global, text: &str, read: &str) -> Result<Option<Vec<u8>>, AllocError>
    ensures bytes { IfOk result (λ found. IfSome found (λ bytes. bytes.items
        ≡ unmarked (chars text.now))) }
    ensures reads { IfOk result (λ found. IfSome found (λ bytes. encode_utf8_all (utf_8 bytes.items)
        ≡ read.now)) }
    ensures none { IfOk result (λ found. found ≡ None
        → encode_utf8_all (utf_8 (unmarked (chars text.now))) ≢ read.now) }
{
    let bytes = unmarked(alloc, text)?;
    let own = String::from_utf8_lossy(alloc, bytes.as_slice())?;
    if own.as_str() == read {
        Ok(Some(bytes))
    } else {
        Ok(None)
    }
}
