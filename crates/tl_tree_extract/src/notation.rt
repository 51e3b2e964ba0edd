//! Names and strings as CSS writes them.
ghost use Rattle.std.specs.Prelude.{◌≡◌, ◌<◌, ◌++◌, flat_map, OnOk};
ghost use Rattle.tl_html_spec.specs.Digits.{digit_in, digits};
ghost use Rattle.tl_tree_extract.specs.Notation.{css_name, css_string, escape_of, first_byte, is_control, is_plain, name_byte, number_escape, string_byte};

use crate::written_bytes::{Written, is_unmarked};
use std::alloc::AllocError;

/// Whether a byte stands for itself in a name.
pub(crate) fn is_plain(byte: u8) -> bool
    ensures { result ≡ is_plain byte }
{
    byte.is_ascii_alphanumeric() || byte == b'-' || byte == b'_' || byte >= 128
}

// Whether a byte is written by its number.
fn is_control(byte: u8) -> bool
    ensures { result ≡ is_control byte }
{
    byte < 32 || byte == 127
}

// The digit of a value, in base 16.
fn digit(value: u8) -> u8
    requires { value < 16 }
    ensures { result ≡ digit_in digits value }
{
    b"0123456789abcdef"[usize::from(value)]
}

// Adds a byte by its number.
fn add_number_escape(out: &mut Vec<u8>, byte: u8) -> Result<(), AllocError>
    ensures { OnOk result (out.new.items ≡ out.old.items ++ number_escape byte) }
{
    out.extend_from_slice(&[b'\\', digit(byte / 16), digit(byte % 16), b' '])
}

// Adds a byte behind a `\`.
fn add_escape(out: &mut Vec<u8>, byte: u8) -> Result<(), AllocError>
    ensures { OnOk result (out.new.items ≡ out.old.items ++ escape_of byte) }
{
    if is_control(byte) {
        return add_number_escape(out, byte);
    }
    out.extend_from_slice(&[b'\\', byte])
}

// Adds a byte of a name.
fn add_name_byte(out: &mut Vec<u8>, byte: u8) -> Result<(), AllocError>
    ensures { OnOk result (out.new.items ≡ out.old.items ++ name_byte byte) }
{
    if is_plain(byte) {
        out.push(byte)?;
        return Ok(());
    }
    add_escape(out, byte)
}

// Adds the first byte of a name.
fn add_first_byte(out: &mut Vec<u8>, byte: u8) -> Result<(), AllocError>
    ensures { OnOk result (out.new.items ≡ out.old.items ++ first_byte byte) }
{
    if byte.is_ascii_digit() {
        return add_number_escape(out, byte);
    }
    if byte == b'-' {
        return out.extend_from_slice(&[b'\\', byte]);
    }
    add_name_byte(out, byte)
}

// Adds the bytes of a name after the first.
fn add_later_bytes(out: &mut Vec<u8>, bytes: &[u8]) -> Result<(), AllocError>
    ensures { OnOk result (out.new.items ≡ out.old.items ++ flat_map name_byte bytes.now) }
{
    if is_unmarked(Written::CssName, bytes) {
        return out.extend_from_slice(bytes);
    }
    for byte in bytes {
        add_name_byte(out, *byte)?;
    }
    Ok(())
}

/// Adds a name as CSS writes it, where it may have any bytes; nothing of an empty one.
pub(crate) fn add_name(out: &mut Vec<u8>, name: &[u8]) -> Result<(), AllocError>
    ensures { OnOk result (out.new.items ≡ out.old.items ++ css_name name.now) }
{
    let Some((first, later)) = name.split_first() else {
        return Ok(());
    };
    add_first_byte(out, *first)?;
    add_later_bytes(out, later)
}

// Adds a byte of a string.
fn add_string_byte(out: &mut Vec<u8>, byte: u8) -> Result<(), AllocError>
    ensures { OnOk result (out.new.items ≡ out.old.items ++ string_byte byte) }
{
    if is_control(byte) || byte == b'"' || byte == b'\\' {
        return add_escape(out, byte);
    }
    out.push(byte)?;
    Ok(())
}

// Adds the bytes of a string.
fn add_string_bytes(out: &mut Vec<u8>, bytes: &[u8]) -> Result<(), AllocError>
    ensures { OnOk result (out.new.items ≡ out.old.items ++ flat_map string_byte bytes.now) }
{
    if is_unmarked(Written::CssString, bytes) {
        return out.extend_from_slice(bytes);
    }
    for byte in bytes {
        add_string_byte(out, *byte)?;
    }
    Ok(())
}

/// Adds a string as CSS writes it, in double quotes.
pub(crate) fn add_string(out: &mut Vec<u8>, bytes: &[u8]) -> Result<(), AllocError>
    ensures { OnOk result (out.new.items ≡ out.old.items ++ css_string bytes.now) }
{
    out.push(b'"')?;
    add_string_bytes(out, bytes)?;
    out.push(b'"')?;
    Ok(())
}
