//! Characters that stay of texts and values.
ghost use Rattle.std.specs.List.{list_all};
ghost use Rattle.std.specs.Prelude.{IfOk, OnOk, ◌++◌, ◌≡◌};
ghost use Rattle.tl_html_print.specs.Serialized.{escaped};
ghost use Rattle.tl_tree_safe.specs.Inner.Cleaning.{is_whole};
ghost use Rattle.tl_tree_safe.specs.Characters.{cleaned, is_said, said_byte};

use memchr::memchr3;
use std::alloc::{AllocError, Global};
use tl_html_print::write_escaped;

/// Whether all bytes stay as they are.
pub(crate) fn is_clean(bytes: &[u8]) -> bool
    ensures { result ≡ list_all is_whole bytes.now }
{
    memchr3(0, b'\r', 27, bytes).is_none()
}

/// What a byte is written as, if it stays.
pub(crate) fn said_byte(byte: u8) -> u8
    ensures { result ≡ said_byte byte }
{
    if byte == b'\r' { b' ' } else { byte }
}

/// Whether a byte stays.
pub(crate) fn is_said(byte: u8) -> bool
    ensures { result ≡ is_said byte }
{
    byte != 0 && byte != 27
}

/// What stays of bytes.
pub(crate) fn clean(alloc: Global, bytes: &[u8]) -> Result<Vec<u8>, AllocError>
    ensures { IfOk result (λ kept. kept.items ≡ cleaned bytes.now) }
{
    let mut kept = Vec::new(alloc);
    for byte in bytes {
        let said = said_byte(*byte);
        if is_said(said) {
            kept.push(said)?;
        }
    }
    Ok(kept)
}

/// What stays of bytes: they themselves, where all of them do.
pub(crate) fn clean_owned(alloc: Global, bytes: Vec<u8>) -> Result<Vec<u8>, AllocError>
    ensures { IfOk result (λ kept. kept.items ≡ cleaned bytes.items) }
{
    if is_clean(&bytes) {
        return Ok(bytes);
    }
    clean(alloc, &bytes)
}

/// Writes what stays of a text, or of the value of an attribute, as the standard serializes it.
pub fn write_cleaned(
    alloc: Global,
    in_attribute: bool,
    bytes: &[u8],
    out: &mut Vec<u8>,
) -> Result<(), AllocError>
    ensures { OnOk result (out.new.items
        ≡ out.old.items ++ escaped in_attribute (cleaned bytes.now)) }
{
    if is_clean(bytes) {
        return write_escaped(in_attribute, bytes, out);
    }
    let kept = clean(alloc, bytes)?;
    write_escaped(in_attribute, &kept, out)
}
