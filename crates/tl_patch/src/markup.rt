//! Texts, values and attributes as they are written into a page.
ghost use Rattle.std.specs.Prelude.{◌≡◌, ◌++◌, OnOk};
ghost use Rattle.std.specs.List.{list_all};
ghost use Rattle.tl_html_spec.specs.HtmlTokenizer.{ends_name};
ghost use Rattle.tl_html_spec.specs.Reader.{feed};
ghost use Rattle.tl_patch_spec.specs.Markup.{attribute_markup, is_key, is_key_byte, is_name, is_name_byte, is_without_nul, text_byte_markup, text_markup, value_byte_markup, value_markup};

use std::alloc::AllocError;

fn write_text_byte(byte: u8, out: &mut Vec<u8>) -> Result<(), AllocError>
    ensures { OnOk result (out.new.items ≡ out.old.items ++ text_byte_markup byte) }
{
    match byte {
        b'\r' => out.extend_from_slice(b"&#13;"),
        b'&' => out.extend_from_slice(b"&amp;"),
        b'<' => out.extend_from_slice(b"&lt;"),
        _ => {
            out.push(byte)?;
            Ok(())
        }
    }
}

/// Writes a text so that just its characters are read.
pub fn write_text(text: &[u8], out: &mut Vec<u8>) -> Result<(), AllocError>
    ensures { OnOk result (out.new.items ≡ out.old.items ++ text_markup text.now) }
{
    for byte in text {
        write_text_byte(*byte, out)?;
    }
    Ok(())
}

fn write_value_byte(byte: u8, out: &mut Vec<u8>) -> Result<(), AllocError>
    ensures { OnOk result (out.new.items ≡ out.old.items ++ value_byte_markup byte) }
{
    match byte {
        b'\r' => out.extend_from_slice(b"&#13;"),
        b'&' => out.extend_from_slice(b"&amp;"),
        b'"' => out.extend_from_slice(b"&quot;"),
        b'<' => out.extend_from_slice(b"&lt;"),
        b'>' => out.extend_from_slice(b"&gt;"),
        _ => {
            out.push(byte)?;
            Ok(())
        }
    }
}

/// Writes a value, without its quotes.
pub fn write_value(value: &[u8], out: &mut Vec<u8>) -> Result<(), AllocError>
    ensures { OnOk result (out.new.items ≡ out.old.items ++ value_markup value.now) }
{
    for byte in value {
        write_value_byte(*byte, out)?;
    }
    Ok(())
}

// Whether a byte ends the name of a tag.
pub(crate) fn ends_name(byte: u8) -> bool
    ensures { result ≡ ends_name (feed byte) }
{
    matches!(byte, b'\t' | b'\n' | 0x0C | b'\r' | b' ' | b'/' | b'>')
}

// Whether the tokenizer keeps a byte of a key as it is.
fn is_key_byte(byte: u8) -> bool
    ensures { result ≡ is_key_byte byte }
{
    byte != b'\r' && !ends_name(byte) && byte != b'=' && byte != 0 && !byte.is_ascii_uppercase()
}

/// Whether a key can be written as it is.
pub fn is_key(key: &[u8]) -> bool
    ensures { result ≡ is_key key.now }
{
    for byte in key {
        if !is_key_byte(*byte) {
            return false;
        }
    }
    !key.is_empty()
}

// Whether the tokenizer keeps a byte of a tag's name as it is.
fn is_name_byte(byte: u8) -> bool
    ensures { result ≡ is_name_byte byte }
{
    byte != b'\r' && !ends_name(byte) && byte != 0 && !byte.is_ascii_uppercase()
}

fn are_name_bytes(name: &[u8]) -> bool
    ensures { result ≡ list_all is_name_byte name.now }
{
    for byte in name {
        if !is_name_byte(*byte) {
            return false;
        }
    }
    true
}

/// Whether a name of a tag can be written as it is.
pub fn is_name(name: &[u8]) -> bool
    ensures { result ≡ is_name name.now }
{
    match name {
        [] => false,
        [first, ..] => first.is_ascii_alphabetic() && are_name_bytes(name),
    }
}

/// Whether a value can be written: a NUL in it would be another character.
pub fn is_value(value: &[u8]) -> bool
    ensures { result ≡ is_without_nul value.now }
{
    for byte in value {
        if *byte == 0 {
            return false;
        }
    }
    true
}

/// Writes an attribute as it stands after the name of a tag.
#[tactic(auto, using(crate::proofs::Changes::attribute_is))]
pub fn write_attribute(key: &[u8], value: &[u8], out: &mut Vec<u8>) -> Result<(), AllocError>
    ensures { OnOk result (out.new.items ≡ out.old.items ++ attribute_markup key.now value.now) }
{
    out.push(b' ')?;
    out.extend_from_slice(key)?;
    out.extend_from_slice(b"=\"")?;
    write_value(value, out)?;
    out.push(b'"')?;
    Ok(())
}
