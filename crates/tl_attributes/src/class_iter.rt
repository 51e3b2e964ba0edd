//! The members of a tag's class.
//!
//! A class is searched for the member first, and only then for bytes that aren't UTF-8: most
//! classes lack the one that is sought.
ghost use Rattle.std.specs.Prelude.{◌≡◌, ◌≤◌, ◌<◌, [], ◌∷◌, not, length, drop, slice_range, option_map, Some, MatchOption, IfSome};
ghost use Rattle.std.specs.List.{prefix_len, list_any};
ghost use Rattle.std.specs.Str.{bytes_eq, is_utf8};
ghost use Rattle.std.specs.Char.{is_ascii_whitespace};
ghost use Rattle.std.specs.Map.Iter.{TakesFirst, deref};
ghost use Rattle.std.specs.Iterator.{at_most};
ghost use Rattle.tl_spec.specs.Lookup.ClassMember.{parts, class_parts, has_member};

use crate::attributes::AttributesOf;
use crate::piece::Piece;
use std::marker::Model;
use std::str;

/// The parts of a class between white space, seen as the list of those that are left. A step takes
/// no memory.
#[derive(Drop)]
pub struct ClassIter<'t> {
    rest: &'t str,
}

impl<'t> Model for ClassIter<'t> {
    ghost use Rattle.std.specs.Prelude.{List, ℕ};
    ghost use Rattle.tl_spec.specs.Lookup.ClassMember.{parts};

    ghost Value = { List (List ℕ) };

    ghost view = { λ c. parts c.rest.now };
}

// How many bytes at the front are not white space.
#[inline(always)]
pub(crate) fn part_len(bytes: &[u8]) -> usize
    ensures place { result ≡ prefix_len (λ b. not (is_ascii_whitespace b)) bytes.now }
    ensures within { result ≤ length bytes.now }
{
    bytes
        .iter()
        .take_while(|b| !b.is_ascii_whitespace())
        .count()
}

// How many bytes at the front are white space.
fn white_len(bytes: &[u8]) -> usize
    ensures place { result ≡ prefix_len is_ascii_whitespace bytes.now }
    ensures within { result ≤ length bytes.now }
{
    bytes.iter().take_while(|b| b.is_ascii_whitespace()).count()
}

/// Where the first part stands that begins at the place `at` or after it: the place of its first
/// byte, and that after its last. None where there is no more. It takes no memory.
pub fn next_part(bytes: &[u8], at: usize) -> Option<(usize, usize)>
    requires { at ≤ length bytes.now }
    ensures first { MatchOption result (parts (drop at bytes.now) ≡ [])
        (λ p. parts (drop at bytes.now) ≡ slice_range bytes.now p.0 p.1
        ∷ parts (drop p.1 bytes.now)) }
    ensures order { IfSome result (λ p. (at ≤ p.0) × (p.0 < p.1)) }
    ensures within { IfSome result (λ p. p.1 ≤ length bytes.now) }
{
    let start = at + white_len(&bytes[at..]);
    let len = part_len(&bytes[start..]);
    if len == 0 {
        return None;
    }
    Some((start, start + len))
}

// Whether `part` is one of the parts between white space.
fn has_part(bytes: &[u8], part: &[u8]) -> bool
    ensures { result ≡ list_any (bytes_eq part.now) (parts bytes.now) }
{
    let mut at = 0;
    while at < bytes.len() {
        let end = at + part_len(&bytes[at..]);
        if at < end && part == &bytes[at..end] {
            return true;
        }
        at = end + 1;
    }
    false
}

// Whether the bytes are UTF-8. Most are ASCII, which is seen sooner.
fn is_text(bytes: &[u8]) -> bool
    ensures { result ≡ is_utf8 bytes.now }
{
    if bytes.is_ascii() {
        return true;
    }
    match str::from_utf8(bytes) {
        Ok(_) => true,
        Err(_) => false,
    }
}

/// Whether `name` is a member of this class, in exact case. It takes no memory.
///
/// Most classes have no such part, and only those that do are gone through once more, for bytes
/// that are no text.
// Out of line: most tags are passed over by their outline, and the registers that this needs would
// be saved for them too.
#[inline(never)]
#[tactic(auto, using(crate::proofs::ClassParts::member_is))]
pub fn has_member(class: &[u8], name: &[u8]) -> bool
    ensures { result ≡ has_member (Some class.now) name.now }
{
    has_part(class, name) && is_text(class)
}

// The first part, and what stands after it.
fn first_part(text: &str) -> Option<(&str, &str)>
    ensures first { MatchOption result (parts text.now ≡ [])
        (λ p. parts text.now ≡ p.0.now ∷ parts p.1.now) }
    ensures shorter { IfSome result (λ p. length p.1.now < length text.now) }
{
    let visible = text.trim_ascii_start();
    let end = part_len(visible.as_bytes());
    if end == 0 {
        return None;
    }
    Some(visible.split_at(end))
}

impl<'t> Iterator for ClassIter<'t> {
    type Item = &'t str;

    ghost next_gives = { TakesFirst deref };

    ghost remaining = { λ s. at_most (length s) };

    fn next(&mut self) -> Option<&'t str> {
        let (part, rest) = first_part(self.rest)?;
        self.rest = rest;
        Some(part)
    }
}

impl<B: Piece> AttributesOf<B> {
    /// The parts of the class between ASCII white space, in order. `None` says that there is no
    /// class, or that it is not UTF-8; a class of white space has no parts. Neither this nor a step
    /// takes memory.
    pub fn class_iter(&self) -> Option<ClassIter<'_>>
        ensures { result ≡ class_parts (option_map B.list self.now.class) }
    {
        let class = self.class()?;
        match str::from_utf8(class.as_bytes()) {
            Ok(rest) => Some(ClassIter { rest }),
            Err(_) => None,
        }
    }

    /// Whether `class` is one of the parts that `class_iter` gives, in exact case. It takes no
    /// memory.
    pub fn is_class_member(&self, class: &[u8]) -> bool
        ensures { result ≡ has_member (option_map B.list self.now.class) class.now }
    {
        match self.class() {
            Some(own) => has_member(own.as_bytes(), class),
            None => false,
        }
    }
}
