//! What a byte does at a stage.
ghost use Rattle.std.specs.Prelude.{◌≡◌, ◌-◌, ◌<◌, ◌≤◌, drop, length, slice_index, take};
ghost use Rattle.tl_html_spec.specs.Reader.{feed};
ghost use Rattle.tl_html_tokens.specs.Inner.Machine as machine;

use crate::byte_class::feed;
use crate::comment::{
    bogus_comment, comment, comment_bang, comment_bang_dash, comment_end, comment_end_bang,
    comment_end_dash, comment_less_than, comment_start, comment_start_dash, doctype,
    resolve_declaration,
};
use crate::raw::{
    double_escape_end, double_escape_start, double_escaped, double_escaped_dash,
    double_escaped_dash_dash, double_escaped_less_than, end_tag_open, escape_start,
    escape_start_dash, raw_end_tag_name, raw_end_tag_open, raw_less_than, tag_open,
};
use crate::reference::{
    decimal, decimal_start, hexadecimal, hexadecimal_start, named_reference, numeric_reference,
    reference,
};
use crate::stage::{Stage, Turn};
use crate::tag::{
    after_key, after_value, before_key, before_value, key, self_closing, tag_name, value,
};

// In a script that is escaped, a comment or a doctype.
fn late_turn(stage: Stage, byte: u8) -> Turn
    ensures { result ≡ machine.late_turn stage byte }
{
    match stage {
        Stage::EscapeStart => escape_start(byte),
        Stage::EscapeStartDash => escape_start_dash(byte),
        Stage::DoubleEscaped => double_escaped(byte),
        Stage::DoubleEscapedDash => double_escaped_dash(byte),
        Stage::DoubleEscapedDashDash => double_escaped_dash_dash(byte),
        Stage::DoubleEscapedLessThan => double_escaped_less_than(byte),
        Stage::BogusComment => bogus_comment(byte),
        Stage::CommentStart => comment_start(byte),
        Stage::CommentStartDash => comment_start_dash(byte),
        Stage::Comment => comment(byte),
        Stage::CommentLessThan => comment_less_than(byte),
        Stage::CommentBang => comment_bang(byte),
        Stage::CommentBangDash => comment_bang_dash(byte),
        Stage::CommentBangDashDash => comment_end(byte),
        Stage::CommentEndDash => comment_end_dash(byte),
        Stage::CommentEnd => comment_end(byte),
        Stage::CommentEndBang => comment_end_bang(byte),
        Stage::Doctype => doctype(byte),
        _ => Turn::Goes(stage),
    }
}

// Or in a tag after its name.
fn tag_turn(stage: Stage, byte: u8) -> Turn
    ensures { result ≡ machine.tag_turn stage byte }
{
    match stage {
        Stage::BeforeKey(tag) => before_key(tag, byte),
        Stage::Key(tag) => key(tag, byte),
        Stage::AfterKey(tag) => after_key(tag, byte),
        Stage::BeforeValue(tag) => before_value(tag, byte),
        Stage::Value(quote, tag) => value(quote, tag, byte),
        Stage::AfterValue(tag) => after_value(tag, byte),
        Stage::SelfClosing(tag) => self_closing(tag, byte),
        _ => late_turn(stage, byte),
    }
}

// Or where no word is read.
fn plain_turn(stage: Stage, byte: u8) -> Turn
    ensures { result ≡ machine.plain_turn stage byte }
{
    match stage {
        Stage::Whole(kind, mode) => Turn::Ends(kind, mode),
        Stage::Reference(place) => reference(place, byte),
        Stage::NamedReference(place) => named_reference(place, byte),
        Stage::NumericReference(place) => numeric_reference(place, byte),
        Stage::HexadecimalStart(place) => hexadecimal_start(place, byte),
        Stage::DecimalStart(place) => decimal_start(place, byte),
        Stage::Hexadecimal(place) => hexadecimal(place, byte),
        Stage::Decimal(place) => decimal(place, byte),
        Stage::TagOpen => tag_open(byte),
        Stage::EndTagOpen => end_tag_open(byte),
        Stage::RawLessThan(mode) => raw_less_than(mode, byte),
        Stage::RawEndTagOpen(mode) => raw_end_tag_open(mode, byte),
        _ => tag_turn(stage, byte),
    }
}

// The bytes between two places.
pub(crate) fn between(page: &[u8], start: usize, end: usize) -> &[u8]
    requires order { start ≤ end }
    requires within { end ≤ length page.now }
    ensures { result.now ≡ take (end - start) (drop start page.now) }
{
    &page[start..end]
}

// A word without the byte that it begins with.
fn past_first(word: &[u8]) -> &[u8]
    ensures { result.now ≡ drop 1 word.now }
{
    match word {
        [] => word,
        [_, rest @ ..] => rest,
    }
}

fn declaration(page: &[u8], word: usize, at: usize, byte: u8) -> Turn
    requires order { word ≤ at }
    requires within { at < length page.now }
    requires byte { byte ≡ feed (slice_index page.now at) }
    ensures { result ≡ machine.declaration (take (at - word) (drop word page.now)) byte }
{
    if byte == b'\n' {
        return bogus_comment(byte);
    }
    resolve_declaration(past_first(between(page, word, at + 1)), byte)
}

// What the byte at a place does, where a word that is read begins at another.
pub(crate) fn turn(stage: Stage, page: &[u8], word: usize, at: usize) -> Turn
    requires order { word ≤ at }
    requires within { at < length page.now }
    ensures { result ≡ machine.turn stage (take (at - word) (drop word page.now))
        (feed (slice_index page.now at)) }
{
    let byte = feed(page[at]);
    match stage {
        Stage::TagName(is_end) => tag_name(is_end, between(page, word, at), byte),
        Stage::RawEndTagName(mode) => raw_end_tag_name(mode, between(page, word, at), byte),
        Stage::DoubleEscapeStart => double_escape_start(between(page, word, at), byte),
        Stage::DoubleEscapeEnd => double_escape_end(past_first(between(page, word, at)), byte),
        Stage::Declaration => declaration(page, word, at, byte),
        _ => plain_turn(stage, byte),
    }
}
