//! What a byte does in a tag.
ghost use Rattle.std.specs.Prelude.{◌≡◌};
ghost use Rattle.tl_html_tokens.specs.Inner.Machine as machine;

use crate::byte_class::{ends_name, is_white_space};
use crate::mode::Mode;
use crate::stage::{Place, Quote, Stage, Tag, TokenKind, Turn};

pub(crate) fn kind(is_end: bool) -> TokenKind
    ensures { result ≡ machine.tag_kind is_end }
{
    if is_end {
        TokenKind::EndTag
    } else {
        TokenKind::StartTag
    }
}

// The tag ends.
pub(crate) fn tag_end(tag: Tag) -> Turn
    ensures { result ≡ machine.tag_end tag }
{
    Turn::Goes(Stage::Whole(kind(tag.is_end), tag.mode))
}

pub(crate) fn end_tag() -> Tag
    ensures { result ≡ machine.end_tag }
{
    Tag {
        is_end: true,
        mode: Mode::Data,
    }
}

// A tag of this name.
pub(crate) fn named_tag(is_end: bool, word: &[u8]) -> Tag
    ensures { result ≡ machine.named_tag is_end word.now }
{
    if is_end {
        end_tag()
    } else {
        Tag {
            is_end: false,
            mode: Mode::from_tag_name(word),
        }
    }
}

// 13.2.5.8
pub(crate) fn tag_name(is_end: bool, word: &[u8], byte: u8) -> Turn
    ensures { result ≡ machine.tag_name is_end word.now byte }
{
    if is_white_space(byte) {
        Turn::Goes(Stage::BeforeKey(named_tag(is_end, word)))
    } else if byte == b'/' {
        Turn::Goes(Stage::SelfClosing(named_tag(is_end, word)))
    } else if byte == b'>' {
        tag_end(named_tag(is_end, word))
    } else {
        Turn::Goes(Stage::TagName(is_end))
    }
}

// 13.2.5.32
pub(crate) fn before_key(tag: Tag, byte: u8) -> Turn
    ensures { result ≡ machine.before_key tag byte }
{
    if is_white_space(byte) {
        Turn::Goes(Stage::BeforeKey(tag))
    } else if byte == b'/' {
        Turn::Goes(Stage::SelfClosing(tag))
    } else if byte == b'>' {
        tag_end(tag)
    } else {
        Turn::Goes(Stage::Key(tag))
    }
}

// 13.2.5.33
pub(crate) fn key(tag: Tag, byte: u8) -> Turn
    ensures { result ≡ machine.key tag byte }
{
    if ends_name(byte) {
        after_key(tag, byte)
    } else if byte == b'=' {
        Turn::Goes(Stage::BeforeValue(tag))
    } else {
        Turn::Goes(Stage::Key(tag))
    }
}

// 13.2.5.34
pub(crate) fn after_key(tag: Tag, byte: u8) -> Turn
    ensures { result ≡ machine.after_key tag byte }
{
    if is_white_space(byte) {
        Turn::Goes(Stage::AfterKey(tag))
    } else if byte == b'/' {
        Turn::Goes(Stage::SelfClosing(tag))
    } else if byte == b'=' {
        Turn::Goes(Stage::BeforeValue(tag))
    } else if byte == b'>' {
        tag_end(tag)
    } else {
        Turn::Goes(Stage::Key(tag))
    }
}

// 13.2.5.35
pub(crate) fn before_value(tag: Tag, byte: u8) -> Turn
    ensures { result ≡ machine.before_value tag byte }
{
    if is_white_space(byte) {
        Turn::Goes(Stage::BeforeValue(tag))
    } else if byte == b'"' {
        Turn::Goes(Stage::Value(Quote::Double, tag))
    } else if byte == b'\'' {
        Turn::Goes(Stage::Value(Quote::Single, tag))
    } else if byte == b'>' {
        tag_end(tag)
    } else {
        value(Quote::Absent, tag, byte)
    }
}

// A value that ends with this byte.
fn quoted_value(quote: Quote, end: u8, tag: Tag, byte: u8) -> Turn
    ensures { result ≡ machine.quoted_value quote end tag byte }
{
    if byte == end {
        Turn::Goes(Stage::AfterValue(tag))
    } else if byte == b'&' {
        Turn::Goes(Stage::Reference(Place::Value(quote, tag)))
    } else {
        Turn::Goes(Stage::Value(quote, tag))
    }
}

// 13.2.5.38
fn bare_value(tag: Tag, byte: u8) -> Turn
    ensures { result ≡ machine.bare_value tag byte }
{
    if is_white_space(byte) {
        Turn::Goes(Stage::BeforeKey(tag))
    } else if byte == b'&' {
        Turn::Goes(Stage::Reference(Place::Value(Quote::Absent, tag)))
    } else if byte == b'>' {
        tag_end(tag)
    } else {
        Turn::Goes(Stage::Value(Quote::Absent, tag))
    }
}

// 13.2.5.36, .37, .38
pub(crate) fn value(quote: Quote, tag: Tag, byte: u8) -> Turn
    ensures { result ≡ machine.value quote tag byte }
{
    match quote {
        Quote::Double => quoted_value(quote, b'"', tag, byte),
        Quote::Single => quoted_value(quote, b'\'', tag, byte),
        Quote::Absent => bare_value(tag, byte),
    }
}

// 13.2.5.39
pub(crate) fn after_value(tag: Tag, byte: u8) -> Turn
    ensures { result ≡ machine.after_value tag byte }
{
    if is_white_space(byte) {
        Turn::Goes(Stage::BeforeKey(tag))
    } else if byte == b'/' {
        Turn::Goes(Stage::SelfClosing(tag))
    } else if byte == b'>' {
        tag_end(tag)
    } else {
        before_key(tag, byte)
    }
}

// 13.2.5.40
pub(crate) fn self_closing(tag: Tag, byte: u8) -> Turn
    ensures { result ≡ machine.self_closing tag byte }
{
    if byte == b'>' {
        tag_end(tag)
    } else {
        before_key(tag, byte)
    }
}
