//! What a byte does where markup begins, and in texts that their own end tag alone ends.
ghost use Rattle.std.specs.Prelude.{◌≡◌, drop};
ghost use Rattle.tl_html_tokens.specs.Inner.Machine as machine;

use crate::byte_class::{ends_name, is_white_space};
use crate::mode::Mode;
use crate::stage::{Stage, TokenKind, Turn};
use crate::tag::{end_tag, tag_end};

// 13.2.5.6
pub(crate) fn tag_open(byte: u8) -> Turn
    ensures { result ≡ machine.tag_open byte }
{
    if byte == b'!' {
        Turn::Goes(Stage::Declaration)
    } else if byte == b'/' {
        Turn::Goes(Stage::EndTagOpen)
    } else if byte.is_ascii_alphabetic() {
        Turn::Goes(Stage::TagName(false))
    } else if byte == b'?' {
        Turn::Goes(Stage::BogusComment)
    } else {
        Turn::Ends(TokenKind::Text, Mode::Data)
    }
}

// 13.2.5.7
pub(crate) fn end_tag_open(byte: u8) -> Turn
    ensures { result ≡ machine.end_tag_open byte }
{
    if byte.is_ascii_alphabetic() {
        Turn::Goes(Stage::TagName(true))
    } else if byte == b'>' {
        Turn::Goes(Stage::Whole(TokenKind::Nothing, Mode::Data))
    } else {
        Turn::Goes(Stage::BogusComment)
    }
}

// 13.2.5.15, .23
fn after_less_than(mode: Mode, byte: u8) -> Turn
    ensures { result ≡ machine.after_less_than mode byte }
{
    match mode {
        Mode::Script if byte == b'!' => Turn::Goes(Stage::EscapeStart),
        Mode::ScriptEscaped if byte.is_ascii_alphabetic() => Turn::Goes(Stage::DoubleEscapeStart),
        _ => Turn::Ends(TokenKind::Text, mode),
    }
}

// 13.2.5.9, .12, .15, .23
pub(crate) fn raw_less_than(mode: Mode, byte: u8) -> Turn
    ensures { result ≡ machine.raw_less_than mode byte }
{
    if byte == b'/' {
        Turn::Goes(Stage::RawEndTagOpen(mode))
    } else {
        after_less_than(mode, byte)
    }
}

// 13.2.5.10, .13, .16, .24
pub(crate) fn raw_end_tag_open(mode: Mode, byte: u8) -> Turn
    ensures { result ≡ machine.raw_end_tag_open mode byte }
{
    if byte.is_ascii_alphabetic() {
        Turn::Goes(Stage::RawEndTagName(mode))
    } else {
        Turn::Ends(TokenKind::Text, mode)
    }
}

// Whether a word names the element whose text this is.
fn is_own(mode: Mode, word: &[u8]) -> bool
    ensures { result ≡ machine.is_own mode word.now }
{
    word.eq_ignore_ascii_case(mode.own_name())
}

// 13.2.5.11, .14, .17, .25
pub(crate) fn raw_end_tag_name(mode: Mode, word: &[u8], byte: u8) -> Turn
    ensures { result ≡ machine.raw_end_tag_name mode word.now byte }
{
    if is_white_space(byte) && is_own(mode, word) {
        Turn::Goes(Stage::BeforeKey(end_tag()))
    } else if byte == b'/' && is_own(mode, word) {
        Turn::Goes(Stage::SelfClosing(end_tag()))
    } else if byte == b'>' && is_own(mode, word) {
        tag_end(end_tag())
    } else if byte.is_ascii_alphabetic() {
        Turn::Goes(Stage::RawEndTagName(mode))
    } else {
        Turn::Ends(TokenKind::Text, mode)
    }
}

// 13.2.5.18
pub(crate) fn escape_start(byte: u8) -> Turn
    ensures { result ≡ machine.escape_start byte }
{
    if byte == b'-' {
        Turn::Goes(Stage::EscapeStartDash)
    } else {
        Turn::Ends(TokenKind::Text, Mode::Script)
    }
}

// 13.2.5.19
pub(crate) fn escape_start_dash(byte: u8) -> Turn
    ensures { result ≡ machine.escape_start_dash byte }
{
    if byte == b'-' {
        Turn::Goes(Stage::Whole(TokenKind::Text, Mode::ScriptEscapedDashDash))
    } else {
        Turn::Ends(TokenKind::Text, Mode::Script)
    }
}

fn is_script(word: &[u8]) -> bool
    ensures { result ≡ machine.is_script word.now }
{
    word.eq_ignore_ascii_case(b"script")
}

// 13.2.5.26
pub(crate) fn double_escape_start(word: &[u8], byte: u8) -> Turn
    ensures { result ≡ machine.double_escape_start word.now byte }
{
    if !ends_name(byte) {
        return if byte.is_ascii_alphabetic() {
            Turn::Goes(Stage::DoubleEscapeStart)
        } else {
            Turn::Ends(TokenKind::Text, Mode::ScriptEscaped)
        };
    }
    if is_script(word) {
        Turn::Goes(Stage::DoubleEscaped)
    } else {
        Turn::Goes(Stage::Whole(TokenKind::Text, Mode::ScriptEscaped))
    }
}

// 13.2.5.27
pub(crate) fn double_escaped(byte: u8) -> Turn
    ensures { result ≡ machine.double_escaped byte }
{
    match byte {
        b'-' => Turn::Goes(Stage::DoubleEscapedDash),
        b'<' => Turn::Goes(Stage::DoubleEscapedLessThan),
        _ => Turn::Goes(Stage::DoubleEscaped),
    }
}

// 13.2.5.28
pub(crate) fn double_escaped_dash(byte: u8) -> Turn
    ensures { result ≡ machine.double_escaped_dash byte }
{
    match byte {
        b'-' => Turn::Goes(Stage::DoubleEscapedDashDash),
        b'<' => Turn::Goes(Stage::DoubleEscapedLessThan),
        _ => Turn::Goes(Stage::DoubleEscaped),
    }
}

// 13.2.5.29
pub(crate) fn double_escaped_dash_dash(byte: u8) -> Turn
    ensures { result ≡ machine.double_escaped_dash_dash byte }
{
    match byte {
        b'-' => Turn::Goes(Stage::DoubleEscapedDashDash),
        b'<' => Turn::Goes(Stage::DoubleEscapedLessThan),
        b'>' => Turn::Goes(Stage::Whole(TokenKind::Text, Mode::Script)),
        _ => Turn::Goes(Stage::DoubleEscaped),
    }
}

// 13.2.5.30
pub(crate) fn double_escaped_less_than(byte: u8) -> Turn
    ensures { result ≡ machine.double_escaped_less_than byte }
{
    if byte == b'/' {
        Turn::Goes(Stage::DoubleEscapeEnd)
    } else {
        double_escaped(byte)
    }
}

// 13.2.5.31, of a word after its `/`
pub(crate) fn double_escape_end(word: &[u8], byte: u8) -> Turn
    ensures { result ≡ machine.double_escape_end word.now byte }
{
    if !ends_name(byte) {
        return if byte.is_ascii_alphabetic() {
            Turn::Goes(Stage::DoubleEscapeEnd)
        } else {
            double_escaped(byte)
        };
    }
    if is_script(word) {
        Turn::Goes(Stage::Whole(TokenKind::Text, Mode::ScriptEscaped))
    } else {
        Turn::Goes(Stage::DoubleEscaped)
    }
}
