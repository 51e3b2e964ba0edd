//! ISO-2022-JP.
ghost use Rattle.std.specs.Prelude.{◌≡◌, ◌++◌, IfOk, OnOk, encode_utf8_all, string_bytes};
ghost use Rattle.tl_encoding.specs.Iso2022Jp.{after, after_escape, after_restored, after_single, after_start, after_trail, ascii, count, escape_is_wrong, escaped, given, given_end, given_escape, given_restored, given_single, given_trail, goes_on, half_width, iso_2022_jp, iso_2022_jp_wrong, leads, part_single, roman, shows_wrong, single, single_is_wrong, start, trail_pair};
ghost use Rattle.tl_encoding.specs.MultiByte.{point_or_error};

use crate::multi_byte::push_point;
use crate::pairs::{is_from, katakana};
use std::alloc::{AllocError, Global};
use tl_indexes::{Index, code_point};

const ESCAPE: u8 = 0x1B;

// The standard's output state: what bytes stand for that are in no escape sequence.
#[derive(Clone, Copy)]
pub(crate) enum Output {
    Ascii,
    Roman,
    Katakana,
    // characters of two bytes
    LeadByte,
}

// What the decoder holds.
#[derive(Clone, Copy)]
pub(crate) enum Part {
    Nothing,
    // a lead byte
    Trail(u8),
    // the first byte of an escape sequence, and two
    EscapeStart,
    Escape(u8),
}

// Where the decoder stands. The flag is true right behind an escape sequence.
#[derive(Clone, Copy)]
pub(crate) struct State {
    output: Output,
    part: Part,
    flag: bool,
}

fn ascii(byte: u8) -> Option<char>
    ensures { result ≡ ascii byte }
{
    if byte < 0x80 && !is_from(0x0E, 0x0F, byte) {
        Some(char::from(byte))
    } else {
        None
    }
}

fn roman(byte: u8) -> Option<char>
    ensures { result ≡ roman byte }
{
    if byte == 0x5C {
        Some('\u{A5}')
    } else if byte == 0x7E {
        Some('\u{203E}')
    } else {
        ascii(byte)
    }
}

fn half_width(byte: u8) -> Option<char>
    ensures { result ≡ half_width byte }
{
    if is_from(0x21, 0x5F, byte) {
        Some(katakana(byte - 0x21))
    } else {
        None
    }
}

// The character of a lead byte and another one.
fn trail_pair(lead: u8, byte: u8) -> Option<char>
    ensures { result ≡ trail_pair lead byte }
{
    if is_from(0x21, 0x7E, byte) {
        let row = usize::from(lead.saturating_sub(0x21));
        code_point(Index::Jis0208, row * 94 + usize::from(byte - 0x21))
    } else {
        None
    }
}

// Whether an escape sequence goes on with a byte.
fn goes_on(byte: u8) -> bool
    ensures { result ≡ goes_on byte }
{
    byte == 0x24 || byte == 0x28
}

// The output state that an escape sequence is for.
fn escaped(lead: u8, byte: u8) -> Option<Output>
    ensures { result ≡ escaped lead byte }
{
    if lead == 0x28 && byte == 0x42 {
        Some(Output::Ascii)
    } else if lead == 0x28 && byte == 0x4A {
        Some(Output::Roman)
    } else if lead == 0x28 && byte == 0x49 {
        Some(Output::Katakana)
    } else if lead == 0x24 && (byte == 0x40 || byte == 0x42) {
        Some(Output::LeadByte)
    } else {
        None
    }
}

impl Output {
    // What a byte stands for by itself.
    fn single(self, byte: u8) -> Option<char>
        ensures { result ≡ single self byte }
    {
        match self {
            Output::Ascii => ascii(byte),
            Output::Roman => roman(byte),
            Output::Katakana => half_width(byte),
            Output::LeadByte => None,
        }
    }

    // Whether a byte begins two that stand for a character.
    fn leads(self, byte: u8) -> bool
        ensures { result ≡ leads self byte }
    {
        match self {
            Output::Ascii | Output::Roman | Output::Katakana => false,
            Output::LeadByte => is_from(0x21, 0x7E, byte),
        }
    }

    // Adds what a byte gives that nothing precedes.
    fn push_single(self, text: &mut String, byte: u8) -> Result<(), AllocError>
        ensures { OnOk result (string_bytes text.new
            ≡ string_bytes text.old ++ encode_utf8_all (given_single self byte)) }
    {
        if byte == ESCAPE {
            return Ok(());
        }
        match self.single(byte) {
            Some(point) => text.push(point),
            None if self.leads(byte) => Ok(()),
            None => text.push(char::REPLACEMENT_CHARACTER),
        }
    }

    fn part_single(self, byte: u8) -> Part
        ensures { result ≡ part_single self byte }
    {
        if byte == ESCAPE {
            Part::EscapeStart
        } else if self.leads(byte) {
            Part::Trail(byte)
        } else {
            Part::Nothing
        }
    }

    // After a byte that nothing precedes.
    fn after_single(self, flag: bool, byte: u8) -> State
        ensures { result ≡ after_single self flag byte }
    {
        State {
            output: self,
            part: self.part_single(byte),
            flag: if byte == ESCAPE { flag } else { false },
        }
    }

    // After a byte behind a lead byte.
    fn after_trail(self, flag: bool, byte: u8) -> State
        ensures { result ≡ after_trail self flag byte }
    {
        State {
            output: self,
            part: if byte == ESCAPE {
                Part::EscapeStart
            } else {
                Part::Nothing
            },
            flag,
        }
    }

    // Adds what two bytes give that are restored.
    fn push_restored(self, text: &mut String, lead: u8, byte: u8) -> Result<(), AllocError>
        ensures { OnOk result (string_bytes text.new
            ≡ string_bytes text.old ++ encode_utf8_all (given_restored self lead byte)) }
    {
        self.push_single(text, lead)?;
        if self.leads(lead) {
            push_point(text, trail_pair(lead, byte))
        } else {
            self.push_single(text, byte)
        }
    }

    // After two bytes that are restored.
    fn after_restored(self, lead: u8, byte: u8) -> State
        ensures { result ≡ after_restored self lead byte }
    {
        if self.leads(lead) {
            self.after_trail(false, byte)
        } else {
            self.after_single(false, byte)
        }
    }

    // Whether a byte shows an error that nothing precedes.
    fn single_is_wrong(self, byte: u8) -> bool
        ensures { result ≡ single_is_wrong self byte }
    {
        byte != ESCAPE && self.single(byte).is_none() && !self.leads(byte)
    }
}

impl State {
    // At the beginning of bytes.
    fn new() -> State
        ensures { result ≡ start }
    {
        State {
            output: Output::Ascii,
            part: Part::Nothing,
            flag: false,
        }
    }

    // Adds what the last byte of an escape sequence gives.
    fn push_escape(self, text: &mut String, lead: u8, byte: u8) -> Result<(), AllocError>
        ensures { OnOk result (string_bytes text.new ≡ string_bytes text.old
            ++ encode_utf8_all (given_escape (escaped lead byte) self lead byte)) }
    {
        match escaped(lead, byte) {
            Some(_) if self.flag => text.push(char::REPLACEMENT_CHARACTER),
            Some(_) => Ok(()),
            None => {
                text.push(char::REPLACEMENT_CHARACTER)?;
                self.output.push_restored(text, lead, byte)
            }
        }
    }

    // After the second byte of an escape sequence.
    fn after_start(self, byte: u8) -> State
        ensures { result ≡ after_start self byte }
    {
        if goes_on(byte) {
            State {
                output: self.output,
                part: Part::Escape(byte),
                flag: self.flag,
            }
        } else {
            self.output.after_single(false, byte)
        }
    }

    // After the last one.
    fn after_escape(self, lead: u8, byte: u8) -> State
        ensures { result ≡ after_escape (escaped lead byte) self lead byte }
    {
        match escaped(lead, byte) {
            Some(output) => State {
                output,
                part: Part::Nothing,
                flag: true,
            },
            None => self.output.after_restored(lead, byte),
        }
    }

    // Adds what a byte gives.
    fn push_byte(self, text: &mut String, byte: u8) -> Result<(), AllocError>
        ensures { OnOk result (string_bytes text.new
            ≡ string_bytes text.old ++ encode_utf8_all (given self byte)) }
    {
        match self.part {
            Part::Nothing => self.output.push_single(text, byte),
            Part::Trail(lead) => push_point(text, trail_pair(lead, byte)),
            Part::EscapeStart if goes_on(byte) => Ok(()),
            Part::EscapeStart => {
                text.push(char::REPLACEMENT_CHARACTER)?;
                self.output.push_single(text, byte)
            }
            Part::Escape(lead) => self.push_escape(text, lead, byte),
        }
    }

    // After one more byte.
    fn after(self, byte: u8) -> State
        ensures { result ≡ after self byte }
    {
        match self.part {
            Part::Nothing => self.output.after_single(self.flag, byte),
            Part::Trail(_) => self.output.after_trail(self.flag, byte),
            Part::EscapeStart => self.after_start(byte),
            Part::Escape(lead) => self.after_escape(lead, byte),
        }
    }

    // Adds what the end of bytes gives.
    fn push_end(self, text: &mut String) -> Result<(), AllocError>
        ensures { OnOk result (string_bytes text.new
            ≡ string_bytes text.old ++ encode_utf8_all (given_end self.output self.part)) }
    {
        match self.part {
            Part::Nothing => Ok(()),
            Part::Trail(_) | Part::EscapeStart => text.push(char::REPLACEMENT_CHARACTER),
            Part::Escape(lead) => {
                text.push(char::REPLACEMENT_CHARACTER)?;
                self.output.push_single(text, lead)?;
                if self.output.leads(lead) {
                    text.push(char::REPLACEMENT_CHARACTER)?;
                }
                Ok(())
            }
        }
    }

    // Whether a byte shows an error.
    fn shows_wrong(self, byte: u8) -> bool
        ensures { result ≡ shows_wrong self byte }
    {
        match self.part {
            Part::Nothing => self.output.single_is_wrong(byte),
            Part::Trail(lead) => trail_pair(lead, byte).is_none(),
            Part::EscapeStart => !goes_on(byte),
            Part::Escape(lead) => match escaped(lead, byte) {
                Some(_) => self.flag,
                None => true,
            },
        }
    }
}

impl Part {
    // How many bytes are held.
    fn count(self) -> usize
        ensures { result ≡ count self }
    {
        match self {
            Part::Nothing => 0,
            Part::Trail(_) | Part::EscapeStart => 1,
            Part::Escape(_) => 2,
        }
    }
}

/// The text of bytes of ISO-2022-JP.
pub(crate) fn iso_2022_jp_text(alloc: Global, bytes: &[u8]) -> Result<String, AllocError>
    ensures { IfOk result (λ text. string_bytes text ≡ iso_2022_jp start bytes.now) }
{
    let mut text = String::with_capacity(alloc, bytes.len())?;
    let mut state = State::new();
    for byte in bytes {
        state.push_byte(&mut text, *byte)?;
        state = state.after(*byte);
    }
    state.push_end(&mut text)?;
    Ok(text)
}

/// Where the first error in bytes of ISO-2022-JP begins.
pub(crate) fn iso_2022_jp_wrong(bytes: &[u8]) -> Option<usize>
    ensures { result ≡ iso_2022_jp_wrong start 0 bytes.now }
{
    let mut state = State::new();
    for (at, byte) in bytes.iter().enumerate() {
        if state.shows_wrong(*byte) {
            return Some(at.saturating_sub(state.part.count()));
        }
        state = state.after(*byte);
    }
    match state.part.count() {
        0 => None,
        count => Some(bytes.len().saturating_sub(count)),
    }
}
