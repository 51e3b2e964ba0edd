//! What the first byte of a piece does.
ghost use Rattle.std.specs.Prelude.{◌≡◌};
ghost use Rattle.tl_html_tokens.specs.Inner.Machine as machine;

use crate::mode::Mode;
use crate::stage::{Place, Stage, TokenKind};

fn whole_text(mode: Mode) -> Stage
    ensures { result ≡ machine.whole_text mode }
{
    Stage::Whole(TokenKind::Text, mode)
}

// 13.2.5.1
fn in_data(byte: u8) -> Stage
    ensures { result ≡ machine.in_data byte }
{
    match byte {
        b'&' => Stage::Reference(Place::Text(Mode::Data)),
        b'<' => Stage::TagOpen,
        _ => whole_text(Mode::Data),
    }
}

// 13.2.5.2
fn in_rcdata(mode: Mode, byte: u8) -> Stage
    ensures { result ≡ machine.in_rcdata mode byte }
{
    match byte {
        b'&' => Stage::Reference(Place::Text(mode)),
        b'<' => Stage::RawLessThan(mode),
        _ => whole_text(mode),
    }
}

// 13.2.5.3, .4
fn in_rawtext(mode: Mode, byte: u8) -> Stage
    ensures { result ≡ machine.in_rawtext mode byte }
{
    match byte {
        b'<' => Stage::RawLessThan(mode),
        _ => whole_text(mode),
    }
}

// 13.2.5.20, .21, with what a dash leads to
fn in_escaped(dash: Mode, byte: u8) -> Stage
    ensures { result ≡ machine.in_escaped dash byte }
{
    match byte {
        b'-' => whole_text(dash),
        b'<' => Stage::RawLessThan(Mode::ScriptEscaped),
        _ => whole_text(Mode::ScriptEscaped),
    }
}

// 13.2.5.22
fn after_dashes(byte: u8) -> Stage
    ensures { result ≡ machine.after_dashes byte }
{
    match byte {
        b'-' => whole_text(Mode::ScriptEscapedDashDash),
        b'<' => Stage::RawLessThan(Mode::ScriptEscaped),
        b'>' => whole_text(Mode::Script),
        _ => whole_text(Mode::ScriptEscaped),
    }
}

// The stage after the first byte.
pub(crate) fn first(mode: Mode, byte: u8) -> Stage
    ensures { result ≡ machine.first mode byte }
{
    match mode {
        Mode::Data => in_data(byte),
        Mode::Title | Mode::Textarea | Mode::ContextText => in_rcdata(mode, byte),
        Mode::ScriptEscaped => in_escaped(Mode::ScriptEscapedDash, byte),
        Mode::ScriptEscapedDash => in_escaped(Mode::ScriptEscapedDashDash, byte),
        Mode::ScriptEscapedDashDash => after_dashes(byte),
        Mode::Plaintext => whole_text(mode),
        Mode::Style
        | Mode::Xmp
        | Mode::Iframe
        | Mode::Noembed
        | Mode::Noframes
        | Mode::Noscript
        | Mode::Script => in_rawtext(mode, byte),
    }
}
