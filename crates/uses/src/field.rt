//! Texts with fields in the place of their names.
ghost use Rattle.std.specs.Prelude.{◌≡◌, ◌<◌, ◌∷◌, ◌++◌, length, IfOk, IfSome, OnOk};
ghost use Rattle.std.specs.Option.{option_copied};
ghost use Rattle.uses.specs.Split.{pieces, remaining_pieces};
ghost use Rattle.uses.specs.Fields.{escape, escape_of, fields_of, opening, part_with, text_with, value_of};

use std::alloc::{AllocError, Global};
use tl::simd::find;

/// A name, and the text that stands in its place.
#[derive(Clone, Copy)]
pub struct Field<'f> {
    pub name: &'f str,
    pub value: &'f str,
}

// The value of the first field of a name.
fn value_of<'f>(fields: &[Field<'f>], name: &[u8]) -> Option<&'f str>
    ensures { option_copied result ≡ value_of (fields_of fields.now) name.now }
{
    for field in fields {
        if field.name.as_bytes() == name {
            return Some(field.value);
        }
    }
    None
}

// Adds a byte of a value, as it may stand in a text and between double quotes.
fn add_escape(text: &mut Vec<u8>, byte: u8) -> Result<(), AllocError>
    ensures { OnOk result (text.new.items ≡ text.old.items ++ escape_of byte) }
{
    match byte {
        b'&' => text.extend_from_slice(b"&amp;"),
        b'<' => text.extend_from_slice(b"&lt;"),
        b'"' => text.extend_from_slice(b"&quot;"),
        _ => {
            text.push(byte)?;
            Ok(())
        }
    }
}

// Adds a value, as it may stand there.
fn add_value(text: &mut Vec<u8>, value: &[u8]) -> Result<(), AllocError>
    ensures { OnOk result (text.new.items ≡ text.old.items ++ escape value.now) }
{
    for byte in value {
        add_escape(text, *byte)?;
    }
    Ok(())
}

// Adds what stands after a `{` and before the next one, with its field, if it begins with the name
// of one.
fn add_part(text: &mut Vec<u8>, fields: &[Field<'_>], part: &[u8]) -> Result<(), AllocError>
    ensures { OnOk result (text.new.items
        ≡ text.old.items ++ part_with (fields_of fields.now) part.now) }
{
    if let Some(end) = find(part, b'}') {
        if let Some(value) = value_of(fields, &part[..end]) {
            add_value(text, value.as_bytes())?;
            return text.extend_from_slice(&part[end + 1..]);
        }
    }
    text.push(b'{')?;
    text.extend_from_slice(part)
}

// What stands before the first `{`, and what stands after it, if there is one.
fn split_at_brace(text: &[u8]) -> (&[u8], Option<&[u8]>)
    ensures pieces { pieces opening text.now ≡ result.0.now ∷ remaining_pieces opening result.1 }
    ensures shorter { IfSome result.1 (λ rest. length rest.now < length text.now) }
{
    match find(text, b'{') {
        Some(end) => (&text[..end], Some(&text[end + 1..])),
        None => (text, None),
    }
}

/// A text with the escaped value in the place of each `{name}` of a field. Braces around anything
/// else stay as they are.
pub fn text_with(alloc: Global, fields: &[Field<'_>], text: &[u8]) -> Result<Vec<u8>, AllocError>
    ensures { IfOk result (λ all. all.items ≡ text_with (fields_of fields.now) text.now) }
{
    let mut all = Vec::new(alloc);
    let (first, mut rest) = split_at_brace(text);
    all.extend_from_slice(first)?;
    while let Some(later) = rest {
        let (part, more) = split_at_brace(later);
        add_part(&mut all, fields, part)?;
        rest = more;
    }
    Ok(all)
}
