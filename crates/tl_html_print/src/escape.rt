//! Texts and values escaped.
ghost use Rattle.memchr.specs.Find.{is_byte2};
ghost use Rattle.std.specs.Prelude.{OnOk, false, flat_map, get_or, length, true, ◌++◌, ◌<◌, ◌≡◌};
ghost use Rattle.tl_html_print.specs.Serialized.{escape, escaped};

use memchr::{memchr2, memchr3};
use std::alloc::AllocError;

// How a byte of a text is written, unless it begins U+00A0.
fn text_escape(byte: &u8) -> &[u8]
    ensures { result.now ≡ escape false byte.now }
{
    match byte {
        b'&' => b"&amp;",
        b'<' => b"&lt;",
        b'>' => b"&gt;",
        _ => std::slice::from_ref(byte),
    }
}

// How the first byte is written, and what is behind it.
fn split_byte(bytes: &[u8]) -> (&[u8], &[u8])
    ensures written { flat_map (escape false) bytes.now
        ≡ result.0.now ++ flat_map (escape false) result.1.now }
    ensures shorter { 0 < length bytes.now → length result.1.now < length bytes.now }
{
    match bytes {
        [byte, rest @ ..] => (text_escape(byte), rest),
        [] => (&[], &[]),
    }
}

// Writes bytes as a text where they have no U+00A0.
fn write_markup(bytes: &[u8], out: &mut Vec<u8>) -> Result<(), AllocError>
    ensures { OnOk result (out.new.items ≡ out.old.items ++ flat_map (escape false) bytes.now) }
{
    let mut rest = bytes;
    while let Some(at) = memchr3(b'&', b'<', b'>', rest) {
        let (plain, marked) = rest.split_at(at);
        out.extend_from_slice(plain)?;
        let (escape, left) = split_byte(marked);
        out.extend_from_slice(escape)?;
        rest = left;
    }
    out.extend_from_slice(rest)
}

// How a quote or what looks like U+00A0 is written, and what is behind it.
fn split_mark<'b>(in_attribute: bool, bytes: &'b [u8]) -> (&'b [u8], &'b [u8])
    requires { is_byte2 194 34 (get_or bytes.now 0 0) ≡ true }
    ensures written { escaped in_attribute bytes.now
        ≡ result.0.now ++ escaped in_attribute result.1.now }
    ensures shorter { length result.1.now < length bytes.now }
{
    match bytes {
        [0xC2, 0xA0, rest @ ..] => (b"&nbsp;", rest),
        [b'"', rest @ ..] if in_attribute => (b"&quot;", rest),
        _ => (&bytes[..1], &bytes[1..]),
    }
}

/// Writes characters as a text, or as the value of an attribute.
pub fn write_escaped(
    in_attribute: bool,
    characters: &[u8],
    out: &mut Vec<u8>,
) -> Result<(), AllocError>
    ensures { OnOk result (out.new.items
        ≡ out.old.items ++ escaped in_attribute characters.now) }
{
    let mut rest = characters;
    while let Some(at) = memchr2(0xC2, b'"', rest) {
        let (plain, marked) = rest.split_at(at);
        write_markup(plain, out)?;
        let (escape, left) = split_mark(in_attribute, marked);
        out.extend_from_slice(escape)?;
        rest = left;
    }
    write_markup(rest, out)
}
