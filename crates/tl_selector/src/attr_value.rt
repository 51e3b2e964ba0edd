//! Tests of byte strings by their lossy texts, in which U+FFFD stands for bytes that are no UTF-8.
//! None of them takes memory.
//!
//! Where the text looked for is ASCII, bytes say the same as characters, and are compared.
ghost use Rattle.std.specs.Prelude.{◌≡◌, ℕ, List, IsTrue, ◌↔◌, length, Option, option_map, Some, reverse, ◌&&◌};
ghost use Rattle.bstr.specs.Utf8.{lossy_chars};
ghost use Rattle.tl_spec.specs.Select.LossyText.{IsSameText, BeginsWith, EndsWith, HasPart, HasWord};
ghost use Rattle.tl_selector.specs.LossyChars.{begins, same, has_part, advance, is_done, scan};

use bstr::{ByteSlice, Chars};

/// Whether both have the same text.
#[tactic(auto, using(crate::proofs::LossyTexts::same_texts, crate::proofs::LossyAscii::same_ascii))]
pub fn is_same_text(value: &[u8], other: &[u8]) -> bool
    ensures { IsTrue result ↔ IsSameText value.now other.now }
{
    if other.is_ascii() {
        value == other
    } else {
        same(value, other)
    }
}

/// Whether the text of `value` begins with that of `front`.
#[tactic(auto, using(crate::proofs::LossyTexts::begins_texts, crate::proofs::LossyAscii::begins_ascii))]
pub fn begins_with(value: &[u8], front: &[u8]) -> bool
    ensures { IsTrue result ↔ BeginsWith value.now front.now }
{
    if front.is_ascii() {
        value.starts_with(front)
    } else {
        begins(value, front)
    }
}

/// Whether the text of `value` ends with that of `back`.
#[tactic(auto, using(crate::proofs::LossyParts::ends_texts, crate::proofs::LossyAscii::ends_ascii))]
pub fn ends_with(value: &[u8], back: &[u8]) -> bool
    ensures { IsTrue result ↔ EndsWith value.now back.now }
{
    if back.is_ascii() {
        value.ends_with(back)
    } else {
        ends(value, back)
    }
}

/// Whether the text of `part` stands in that of `value`. Where `part` is not ASCII, the time may be
/// the product of their lengths.
#[tactic(auto, using(crate::proofs::LossyParts::part_texts, crate::proofs::LossyAscii::part_ascii))]
pub fn has_part(value: &[u8], part: &[u8]) -> bool
    ensures { IsTrue result ↔ HasPart value.now part.now }
{
    if part.is_ascii() {
        value.contains_str(part)
    } else {
        contains(value, part)
    }
}

/// Whether the text of `word`, which is not empty, is one of those that Unicode white space
/// parts the text of `value` into.
#[tactic(auto, using(crate::proofs::LossyWords::word_texts, crate::proofs::LossyWords::no_word))]
pub fn has_word(value: &[u8], word: &[u8]) -> bool
    ensures { IsTrue result ↔ HasWord value.now word.now }
{
    if word.is_empty() {
        false
    } else {
        is_among_words(value, word)
    }
}

// Whether their characters are the same.
fn same(value: &[u8], other: &[u8]) -> bool
    ensures { result ≡ same (lossy_chars value.now) (lossy_chars other.now) }
{
    let mut chars = value.chars();
    for c in other.chars() {
        if chars.next() != Some(c) {
            return false;
        }
    }
    chars.next().is_none()
}

// Whether the characters of `value` begin with those of `front`.
fn begins(value: &[u8], front: &[u8]) -> bool
    ensures { result ≡ begins (lossy_chars value.now) (lossy_chars front.now) }
{
    let mut chars = value.chars();
    for c in front.chars() {
        if chars.next() != Some(c) {
            return false;
        }
    }
    true
}

// Whether the characters of `value` end with those of `back`.
fn ends(value: &[u8], back: &[u8]) -> bool
    ensures { result ≡ begins (reverse (lossy_chars value.now)) (reverse (lossy_chars back.now)) }
{
    let mut chars = value.chars();
    let mut left = back.chars();
    'left: while let Some(c) = left.next_back() {
        if chars.next_back() != Some(c) {
            return false;
        }
    }
    true
}

// Whether the characters of `part` stand somewhere among those of `value`.
#[tactic(auto, using(crate::proofs::LossyTexts::part_front))]
fn contains(value: &[u8], part: &[u8]) -> bool
    ensures { result ≡ has_part (lossy_chars value.now) (lossy_chars part.now) }
{
    let mut rest = value;
    'places: loop {
        if begins(rest, part) {
            return true;
        }
        let mut chars = rest.chars();
        if chars.next().is_none() {
            return false;
        }
        rest = chars.as_bytes();
    }
}

// Whether one of the words has the characters of `word`.
fn is_among_words(value: &[u8], word: &[u8]) -> bool
    ensures { result ≡ scan (lossy_chars word.now) (Some (lossy_chars word.now))
        (lossy_chars value.now) }
{
    let mut left = Some(word.chars());
    for c in value.chars() {
        if c.is_whitespace() {
            if is_done(&left) {
                return true;
            }
            left = Some(word.chars());
        } else {
            left = advance(left, c);
        }
    }
    is_done(&left)
}

// What is left of a word after `c`, if it goes on so.
fn advance<'a>(left: Option<Chars<'a>>, c: char) -> Option<Chars<'a>>
    ensures { result ≡ advance left.entry c }
{
    let mut chars = left?;
    if chars.next()? == c {
        Some(chars)
    } else {
        None
    }
}

// Whether nothing of the word is left.
fn is_done(left: &Option<Chars<'_>>) -> bool
    ensures { result ≡ is_done left.now }
{
    match left {
        None => false,
        Some(chars) => chars.as_bytes().chars().next().is_none(),
    }
}
