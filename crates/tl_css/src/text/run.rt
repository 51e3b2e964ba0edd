//! Names, and what stands between quotes.
ghost use Rattle.std.specs.Prelude.{◌≡◌, ◌≤◌, ◌++◌, ℕ, IfOk, OnOk, length, option_map, drop, take, Some, None, Option, encode_utf8};
ghost use Rattle.std.specs.List.{take_while};
ghost use Rattle.tl_css.specs.Bytes.{char_of, hex_number, hex_value, is_hex};
ghost use Rattle.tl_css.specs.Lexical.{begins_name, escape_at, escaped_at, is_plain, is_word, name_at, part_at, past_escape, past_white, run_at, ident_run};
ghost use Rattle.tl_css.specs.TextView.{part_bytes, read_as, without};
ghost use Rattle.tl_css.specs.View.{ident};

use crate::error::{Cause, Wrong};
use crate::selector::Ident;
use crate::text::byte_class::{is_hex, is_name_byte, is_newline, is_string_byte, is_white};
use crate::text::gap::wrong;
use std::alloc::{AllocError, Global};

// What a part of a name or a string stands for: nothing, a byte, or a character.
#[derive(Clone, Copy)]
pub enum Part {
    Nothing,
    Byte(u8),
    Char(char),
}

fn hex_value(byte: u8) -> u32
    ensures value { result ≡ hex_value byte }
    ensures small { result ≤ 168 }
{
    if byte < 58 {
        byte.saturating_sub(48) as u32
    } else if byte < 71 {
        byte.saturating_sub(55) as u32
    } else {
        byte.saturating_sub(87) as u32
    }
}

fn hex_len(s: &[u8]) -> usize
    ensures { result ≡ length (take_while is_hex (take 6 s.now)) }
{
    s.iter().take(6).take_while(|byte| is_hex(**byte)).count()
}

fn hex_number(digits: &[u8]) -> u32
    requires { length digits.now ≤ 6 }
    ensures { result ≡ hex_number 0 digits.now }
{
    let mut number = 0;
    let mut left = digits;
    'digits: while let Some((digit, rest)) = left.split_first() {
        number = number * 16 + hex_value(*digit);
        left = rest;
    }
    number
}

fn char_of(number: u32) -> char
    ensures { result ≡ char_of number }
{
    match char::from_u32(number) {
        Some(c) if number != 0 => c,
        _ => '\u{FFFD}',
    }
}

// What stands after a byte of white space.
pub fn past_white(s: &[u8]) -> &[u8]
    ensures { result.now ≡ past_white s.now }
{
    match s {
        [b'\r', b'\n', rest @ ..] => rest,
        [_, rest @ ..] => rest,
        [] => s,
    }
}

fn past_escape(s: &[u8]) -> &[u8]
    ensures { result.now ≡ past_escape s.now }
{
    match s {
        [byte, ..] if is_white(*byte) => past_white(s),
        _ => s,
    }
}

// An escape, from after its backslash on.
fn escape(s: &[u8]) -> (Part, &[u8])
    ensures { (part_bytes result.0, result.1.now) ≡ escape_at s.now }
{
    let (digits, rest) = s.split_at(hex_len(s));
    if !digits.is_empty() {
        return (Part::Char(char_of(hex_number(digits))), past_escape(rest));
    }
    match s {
        [byte, rest @ ..] => (Part::Byte(*byte), rest),
        [] => (Part::Nothing, s),
    }
}

// Whether a byte stands for itself: in a name, or between quotes.
fn is_plain(quote: Option<u8>, byte: u8) -> bool
    ensures { result ≡ is_plain quote byte }
{
    match quote {
        None => is_name_byte(byte),
        Some(quote) => is_string_byte(quote, byte),
    }
}

// What stands after a backslash.
fn escape_part(quote: Option<u8>, s: &[u8]) -> Option<(Part, &[u8])>
    ensures { option_map (λ p. (part_bytes p.0, p.1.now)) result ≡ escaped_at quote s.now }
{
    match s {
        [] => None,
        [byte, ..] if !is_newline(*byte) => Some(escape(s)),
        _ if quote.is_some() => Some((Part::Nothing, past_white(s))),
        _ => None,
    }
}

// The first part of a name, or of what stands between quotes.
fn first_part(quote: Option<u8>, s: &[u8]) -> Option<(Part, &[u8])>
    ensures { option_map (λ p. (part_bytes p.0, p.1.now)) result ≡ part_at quote s.now }
{
    match s {
        [byte, rest @ ..] if is_plain(quote, *byte) => Some((Part::Byte(*byte), rest)),
        [b'\\', rest @ ..] => escape_part(quote, rest),
        _ => None,
    }
}

pub fn begins_name(s: &[u8]) -> bool
    ensures { result ≡ begins_name s.now }
{
    first_part(None, s).is_some()
}

// What stands after a run of parts.
pub fn past_run(quote: Option<u8>, s: &[u8]) -> &[u8]
    ensures { result.now ≡ (run_at quote s.now).1 }
{
    let mut left = s;
    'parts: while let Some((_part, rest)) = first_part(quote, left) {
        left = rest;
    }
    left
}

/// A name: what begins with it, and what stands after it.
pub fn name(s: &[u8]) -> Result<(&[u8], &[u8]), Wrong>
    ensures text { IfOk result (λ p. p.0.now ≡ s.now) }
    ensures read { read_as (λ name. (run_at None name.now).0) result ≡ name_at s.now }
{
    if !begins_name(s) {
        return wrong(s, Cause::NoName);
    }
    Ok((s, past_run(None, s)))
}

fn push(text: &mut Vec<u8>, part: Part) -> Result<(), AllocError>
    ensures { OnOk result (text.new.items ≡ text.old.items ++ part_bytes part) }
{
    match part {
        Part::Nothing => Ok(()),
        Part::Byte(byte) => Ok(text.push(byte)?),
        Part::Char(c) => text.extend_from_slice(c.encode_utf8(&mut [0; 4]).as_bytes()),
    }
}

// What a run of parts stands for.
pub fn run_text(alloc: Global, quote: Option<u8>, s: &[u8]) -> Result<Vec<u8>, AllocError>
    ensures { IfOk result (λ text. text.items ≡ (run_at quote s.now).0) }
{
    let mut text = Vec::new(alloc);
    let mut left = s;
    'parts: while let Some((part, rest)) = first_part(quote, left) {
        push(&mut text, part)?;
        left = rest;
    }
    Ok(text)
}

/// A name or a key that begins here.
pub fn ident_text(alloc: Global, s: &[u8]) -> Result<Ident, AllocError>
    ensures { IfOk result (λ own. ident own ≡ ident_run s.now) }
{
    let written = run_text(alloc, None, s)?;
    let mut lower = Vec::from_slice(alloc, &written)?;
    lower.make_ascii_lowercase();
    Ok(Ident { lower, written })
}

// What is left of a keyword after these bytes, in any case.
fn after_bytes<'a>(bytes: &[u8], word: &'a [u8]) -> Option<&'a [u8]>
    ensures { option_map (λ rest. rest.now) result ≡ without bytes.now word.now }
{
    let mut left = bytes;
    let mut wanted = word;
    'bytes: while let [byte, rest @ ..] = left {
        match wanted {
            [first, more @ ..] if byte.to_ascii_lowercase() == *first => wanted = more,
            _ => return None,
        }
        left = rest;
    }
    Some(wanted)
}

fn after_part(part: Part, word: &[u8]) -> Option<&[u8]>
    ensures { option_map (λ rest. rest.now) result ≡ without (part_bytes part) word.now }
{
    match part {
        Part::Nothing => Some(word),
        Part::Byte(byte) => after_bytes(&[byte], word),
        Part::Char(c) => after_bytes(c.encode_utf8(&mut [0; 4]).as_bytes(), word),
    }
}

/// Whether a name is this keyword, in any case.
#[tactic(auto, using(crate::proofs::Runs::word_end))]
pub fn is_word(s: &[u8], word: &[u8]) -> bool
    ensures { result ≡ is_word s.now word.now }
{
    let mut left = s;
    let mut wanted = word;
    'parts: while let Some((part, rest)) = first_part(None, left) {
        let Some(more) = after_part(part, wanted) else {
            return false;
        };
        wanted = more;
        left = rest;
    }
    wanted.is_empty()
}
