//! References.
ghost use Rattle.std.specs.Prelude.{◌≡◌, ◌<◌, ◌≤◌, ◌^◌, ◌++◌, length, option_map, OnOk, IfSome};
ghost use Rattle.tl_html_spec.specs.References.{begins_with, goes_on, is_left, named_reference};
ghost use Rattle.tl_html_spec.specs.Unescaped.{number, numeric_reference, one_before, reference};
ghost use Rattle.tl_text.specs.Inner.View.{base_of, is_digit_of, reference_view, characters_view};

use crate::base::Base;
use crate::names::{ends_with_semicolon, longest_name};
use crate::numbers::number_from;
use std::alloc::AllocError;

// What a reference gives: the characters of a name, or that of a number.
#[derive(Clone, Copy)]
pub(crate) enum Characters {
    Listed(&'static [u8]),
    Numbered(char),
}

impl Characters {
    pub(crate) fn write(&self, out: &mut Vec<u8>) -> Result<(), AllocError>
        ensures { OnOk result (out.new.items ≡ out.old.items ++ characters_view self.now) }
    {
        match self {
            Characters::Listed(bytes) => out.extend_from_slice(bytes),
            Characters::Numbered(c) => {
                let mut room = [0u8; 4];
                let text = c.encode_utf8(&mut room);
                out.extend_from_slice(text.as_bytes())
            }
        }
    }
}

// What a reference gives, and how many bytes it takes after its `&`.
#[derive(Clone, Copy)]
pub(crate) struct Reference {
    pub(crate) gives: Characters,
    pub(crate) takes: usize,
}

impl Reference {
    // With one byte more before it.
    fn one_before(self) -> Reference
        requires { self.takes < 2 ^ 63 }
        ensures { reference_view result ≡ one_before (reference_view self) }
    {
        Reference {
            gives: self.gives,
            takes: self.takes + 1,
        }
    }
}

fn continues_name(byte: u8) -> bool
    ensures { result ≡ goes_on byte }
{
    byte == b'=' || byte.is_ascii_alphanumeric()
}

fn begins_with_more(bytes: &[u8]) -> bool
    ensures { result ≡ begins_with goes_on bytes.now }
{
    match bytes.first() {
        Some(byte) => continues_name(*byte),
        None => false,
    }
}

// Whether a name is no reference in a value.
fn is_kept_text(name: &[u8], after: &[u8]) -> bool
    ensures { result ≡ is_left name.now after.now }
{
    !ends_with_semicolon(name) && begins_with_more(after)
}

fn named_reference(in_value: bool, bytes: &[u8]) -> Option<Reference>
    ensures row { named_reference in_value bytes.now ≡ option_map reference_view result }
    ensures within { IfSome result (λ found. found.takes ≤ length bytes.now) }
{
    let Some(row) = longest_name(bytes) else {
        return None;
    };
    let takes = row.name.len();
    if in_value && is_kept_text(row.name, &bytes[takes..]) {
        return None;
    }
    Some(Reference {
        gives: Characters::Listed(row.characters),
        takes,
    })
}

fn number(bytes: &[u8], base: Base) -> Option<Reference>
    ensures row { number (is_digit_of base) (base_of base) bytes.now
        ≡ option_map reference_view result }
    ensures within { IfSome result (λ found. found.takes ≤ length bytes.now) }
{
    match bytes.first() {
        Some(byte) if base.is_digit(*byte) => Some(number_from(bytes, base)),
        _ => None,
    }
}

// The number after a `#`.
fn numeric_reference(bytes: &[u8]) -> Option<Reference>
    ensures row { numeric_reference bytes.now ≡ option_map reference_view result }
    ensures within { IfSome result (λ found. found.takes ≤ length bytes.now) }
{
    if bytes.is_empty() {
        return None;
    }
    if bytes[0] != b'x' && bytes[0] != b'X' {
        return number(bytes, Base::Decimal);
    }
    match number(&bytes[1..], Base::Hexadecimal) {
        Some(found) => Some(found.one_before()),
        None => None,
    }
}

// The reference of which these bytes stand after its `&`.
pub(crate) fn reference_at(in_value: bool, bytes: &[u8]) -> Option<Reference>
    ensures row { reference in_value bytes.now ≡ option_map reference_view result }
    ensures within { IfSome result (λ found. found.takes ≤ length bytes.now) }
{
    if bytes.is_empty() {
        return None;
    }
    if bytes[0].is_ascii_alphanumeric() {
        return named_reference(in_value, bytes);
    }
    if bytes[0] != b'#' {
        return None;
    }
    match numeric_reference(&bytes[1..]) {
        Some(found) => Some(found.one_before()),
        None => None,
    }
}
