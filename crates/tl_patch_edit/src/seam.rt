//! Where a separator has to stand.
ghost use Rattle.std.specs.Prelude.{◌≡◌, None, Some, option_map};
ghost use Rattle.tl_patch_edit.specs.Inner.Parts.{is_text_kind, part_view, parts_view};
ghost use Rattle.tl_patch_edit.specs.Inner.Seams.{part_byte, part_goes, part_seam};
ghost use Rattle.tl_patch_edit.specs.Inner.Within.{after_byte, first, goes_on_with, going_on, within_text};
ghost use Rattle.tl_patch_edit.specs.Seams.{first_of, last_of};
ghost use Rattle.tl_patch_edit.specs.declared.seam.Within.TheVariants as within;

use crate::part::Part;
use crate::put::is_data;
use crate::ready::has_mark;
use tl_html_tokens::TokenKind;

// What the tokenizer is in within a text of markup, by the sections of the standard.
#[derive(Clone, Copy)]
pub(crate) enum Within {
    // 13.2.5.1
    Text,
    // the same right behind a carriage return
    Return,
    // 13.2.5.72
    Reference,
    // 13.2.5.73, .74
    Name,
    // 13.2.5.75
    Number,
    // 13.2.5.76
    HexadecimalStart,
    // 13.2.5.78
    Hexadecimal,
    // 13.2.5.79
    Decimal,
    // 13.2.5.6
    TagOpen,
    // 13.2.5.7
    EndTagOpen,
    // in a tag or a comment, which is no text
    Markup,
}

// After the first byte of what stands there.
fn first(byte: u8) -> Within
    ensures { result ≡ first byte }
{
    match byte {
        b'&' => Within::Reference,
        b'<' => Within::TagOpen,
        b'\r' => Within::Return,
        _ => Within::Text,
    }
}

// Behind `&`.
fn in_reference(byte: u8) -> Option<Within>
    ensures { result ≡ going_on within.Reference byte }
{
    if byte.is_ascii_alphanumeric() {
        Some(Within::Name)
    } else if byte == b'#' {
        Some(Within::Number)
    } else {
        None
    }
}

fn in_name(byte: u8) -> Option<Within>
    ensures { result ≡ going_on within.Name byte }
{
    if byte.is_ascii_alphanumeric() {
        Some(Within::Name)
    } else if byte == b';' {
        Some(Within::Text)
    } else {
        None
    }
}

// Behind `&#`.
fn in_number(byte: u8) -> Option<Within>
    ensures { result ≡ going_on within.Number byte }
{
    if byte.to_ascii_lowercase() == b'x' {
        Some(Within::HexadecimalStart)
    } else if byte.is_ascii_digit() {
        Some(Within::Decimal)
    } else {
        None
    }
}

// Behind `&#x`.
fn in_hexadecimal_start(byte: u8) -> Option<Within>
    ensures { result ≡ going_on within.HexadecimalStart byte }
{
    if byte.is_ascii_hexdigit() {
        Some(Within::Hexadecimal)
    } else {
        None
    }
}

fn in_hexadecimal(byte: u8) -> Option<Within>
    ensures { result ≡ going_on within.Hexadecimal byte }
{
    if byte.is_ascii_hexdigit() {
        Some(Within::Hexadecimal)
    } else if byte == b';' {
        Some(Within::Text)
    } else {
        None
    }
}

fn in_decimal(byte: u8) -> Option<Within>
    ensures { result ≡ going_on within.Decimal byte }
{
    if byte.is_ascii_digit() {
        Some(Within::Decimal)
    } else if byte == b';' {
        Some(Within::Text)
    } else {
        None
    }
}

// Behind `<`.
fn in_tag_open(byte: u8) -> Option<Within>
    ensures { result ≡ going_on within.TagOpen byte }
{
    if byte == b'/' {
        Some(Within::EndTagOpen)
    } else if byte.is_ascii_alphabetic() || byte == b'!' || byte == b'?' {
        Some(Within::Markup)
    } else {
        None
    }
}

impl Within {
    // After a byte that goes on with what is begun, if the byte does.
    fn going_on(self, byte: u8) -> Option<Within>
        ensures { result ≡ going_on self byte }
    {
        match self {
            Within::Text => None,
            Within::Return => {
                if byte == b'\n' {
                    Some(Within::Text)
                } else {
                    None
                }
            }
            Within::Reference => in_reference(byte),
            Within::Name => in_name(byte),
            Within::Number => in_number(byte),
            Within::HexadecimalStart => in_hexadecimal_start(byte),
            Within::Hexadecimal => in_hexadecimal(byte),
            Within::Decimal => in_decimal(byte),
            Within::TagOpen => in_tag_open(byte),
            Within::EndTagOpen | Within::Markup => Some(Within::Markup),
        }
    }

    fn after(self, byte: u8) -> Within
        ensures { result ≡ after_byte self byte }
    {
        match self.going_on(byte) {
            Some(within) => within,
            None => first(byte),
        }
    }

    fn goes_on(self, byte: u8) -> bool
        ensures { result ≡ goes_on_with self byte }
    {
        self.going_on(byte).is_some()
    }
}

// What a text ends in.
fn within_text(text: &[u8]) -> Within
    ensures { result ≡ within_text text.now }
{
    let mut within = Within::Text;
    for at in 0..text.len() {
        within = within.after(text[at]);
    }
    within
}

fn is_text(kind: TokenKind) -> bool
    ensures { result ≡ is_text_kind kind }
{
    matches!(kind, TokenKind::Text)
}

// Whether a text goes on with a byte behind it.
fn goes_on(before: Part<'_>, byte: u8) -> bool
    ensures { result ≡ part_goes (Some (part_view before.entry)) byte }
{
    let is_text = is_text(before.kind);
    if !is_text {
        return false;
    }
    let is_data = is_data(before.mode);
    if !is_data {
        return false;
    }
    within_text(before.bytes).goes_on(byte)
}

// The first byte of what is read in markup.
fn first_byte(part: Part<'_>) -> Option<u8>
    ensures { result ≡ part_byte (Some (part_view part.entry)) }
{
    let is_data = is_data(part.mode);
    if !is_data || part.bytes.is_empty() {
        return None;
    }
    Some(part.bytes[0])
}

// Whether something has to keep two parts apart, so that each is read as it is: a text would go on,
// or a byte order mark would come to the front of the page.
pub(crate) fn is_seam(before: Option<Part<'_>>, after: Option<Part<'_>>) -> bool
    ensures { result
        ≡ part_seam (option_map part_view before.entry) (option_map part_view after.entry) }
{
    let Some(after) = after else {
        return false;
    };
    let Some(before) = before else {
        return has_mark(after.bytes);
    };
    match first_byte(after) {
        Some(byte) => goes_on(before, byte),
        None => false,
    }
}

// The last of some parts.
pub(crate) fn last_part<'p>(parts: &[Part<'p>]) -> Option<Part<'p>>
    ensures { option_map part_view result ≡ last_of None (parts_view parts.now) }
{
    if parts.is_empty() {
        return None;
    }
    Some(parts[parts.len() - 1])
}

// The first of some parts, or what stands behind them.
pub(crate) fn first_part<'p>(parts: &[Part<'p>], behind: Option<Part<'p>>) -> Option<Part<'p>>
    ensures { option_map part_view result
        ≡ first_of (parts_view parts.now) (option_map part_view behind.entry) }
{
    if parts.is_empty() {
        return behind;
    }
    Some(parts[0])
}
