//! The encoding that a page says in an XML declaration.
ghost use Rattle.std.specs.Prelude.{◌≡◌, option_map};
ghost use Rattle.std.specs.List.{list_any};
ghost use Rattle.tl_encoding.specs.Runs.{is_of};
ghost use Rattle.tl_encoding.specs.declared.run.ByteClass.TheVariants.{Blank};
ghost use Rattle.tl_encoding.specs.Declaration.{after_encoding, is_declaration, label_declared, quoted, unbroken, utf_16_declared, xml_label};

use crate::charset::{head, label_known};
use crate::content::until;
use crate::encoding::ByteOrder;
use crate::run::{ByteClass, after, after_equals, from_word, is_quote, without};

/// The order of bytes of a declaration in UTF-16 that a page begins with.
pub(crate) fn utf_16_declared(page: &[u8]) -> Option<ByteOrder>
    ensures { result ≡ utf_16_declared page.now }
{
    if page.starts_with(b"<\0?\0x\0") {
        Some(ByteOrder::LittleEndian)
    } else if page.starts_with(b"\0<\0?\0x") {
        Some(ByteOrder::BigEndian)
    } else {
        None
    }
}

// Whether a declaration stands in front, and a `>` after it.
fn is_declaration(bytes: &[u8]) -> bool
    ensures { result ≡ is_declaration bytes.now }
{
    bytes.starts_with(b"<?xml") && !after(ByteClass::Except(b'>'), bytes).is_empty()
}

// What stands after the first `encoding`, also where that stands after the declaration.
fn after_encoding(bytes: &[u8]) -> &[u8]
    ensures { result.now ≡ after_encoding bytes.now }
{
    without(8, from_word("encoding", bytes))
}

// What stands between quotes, if a quote is next and comes again.
fn quoted(bytes: &[u8]) -> Option<&[u8]>
    ensures { option_map (λ label. label.now) result ≡ quoted bytes.now }
{
    match bytes {
        [quote, rest @ ..] if is_quote(*quote) => until(*quote, rest),
        _ => None,
    }
}

// Whether spaces or control characters stand anywhere.
fn has_blanks(bytes: &[u8]) -> bool
    ensures { result ≡ list_any (is_of Blank) bytes.now }
{
    bytes.iter().any(|byte| ByteClass::Blank.has(*byte))
}

// A label of the encoding standard that has none.
fn unbroken(label: &[u8]) -> Option<&[u8]>
    ensures { option_map (λ label. label.now) result ≡ unbroken label.now }
{
    if has_blanks(label) {
        None
    } else {
        label_known(label)
    }
}

// The label that a declaration says.
fn xml_label(bytes: &[u8]) -> Option<&[u8]>
    ensures { option_map (λ label. label.now) result ≡ xml_label bytes.now }
{
    if !is_declaration(bytes) {
        return None;
    }
    unbroken(quoted(after_equals(ByteClass::Blank, after_encoding(bytes))?)?)
}

/// The label of an encoding that a page says in an XML declaration in front, by its first 1,024
/// bytes.
pub(crate) fn label_declared(page: &[u8]) -> Option<&[u8]>
    ensures { option_map (λ label. label.now) result ≡ label_declared page.now }
{
    xml_label(head(page))
}
