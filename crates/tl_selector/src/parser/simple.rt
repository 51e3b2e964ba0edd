//! The simple parts of a selector's text. Each function answers what it found at the front, and
//! what stands after it.
ghost use Rattle.std.specs.Prelude.{◌≡◌, option_map, length};
ghost use Rattle.std.specs.List.{take_while};
ghost use Rattle.tl_selector.specs.View.{selector};
ghost use Rattle.tl_selector.specs.Inner.ParserViews.{operator};
ghost use Rattle.tl_spec.specs.Lex.ByteClass.{is_ident};
ghost use Rattle.tl_spec.specs.Lex.Runs.{drop_while};
ghost use Rattle.tl_spec.specs.Lex.ByteClass.{is_space};
ghost use Rattle.tl_spec.specs.Select.Reading.{skip_byte, run_before, quote_at, value_at, operator_of, operator_at, with_operator, bracket_at, simple_at};

use crate::selector::Selector;
use tl_bytes::byte_class;

fn ident_len(s: &[u8]) -> usize
    ensures { result ≡ length (take_while is_ident s.now) }
{
    s.iter()
        .take_while(|byte| byte_class::is_ident(**byte))
        .count()
}

// The longest run of ident bytes at the front.
#[tactic(auto, using(crate::proofs::TextRuns::length_run, crate::proofs::TextRuns::prefix_len_le))]
fn run(s: &[u8]) -> (&[u8], &[u8])
    ensures run { result.0.now ≡ take_while is_ident s.now }
    ensures rest { result.1.now ≡ drop_while is_ident s.now }
{
    s.split_at(ident_len(s))
}

fn space_len(s: &[u8]) -> usize
    ensures { result ≡ length (take_while is_space s.now) }
{
    s.iter().take_while(|byte| **byte == b' ').count()
}

// What stands after the spaces at the front.
#[tactic(auto, using(crate::proofs::TextRuns::length_run, crate::proofs::TextRuns::prefix_len_le))]
pub fn skip_spaces(s: &[u8]) -> &[u8]
    ensures { result.now ≡ drop_while is_space s.now }
{
    s.split_at(space_len(s)).1
}

// What stands after this byte, where it stands first.
fn skip_byte(byte: u8, s: &[u8]) -> Option<&[u8]>
    ensures { option_map (λ rest. rest.now) result ≡ skip_byte byte s.now }
{
    match s {
        [first, rest @ ..] if *first == byte => Some(rest),
        _ => None,
    }
}

fn quote(s: &[u8]) -> Option<(u8, &[u8])>
    ensures { option_map (λ q. (q.0, q.1.now)) result ≡ quote_at s.now }
{
    match s {
        [first, rest @ ..] if *first == b'"' || *first == b'\'' => Some((*first, rest)),
        _ => None,
    }
}

// A run, and what stands after the byte that has to follow it.
fn run_before(byte: u8, s: &[u8]) -> Option<(&[u8], &[u8])>
    ensures { option_map (λ p. (p.0.now, p.1.now)) result ≡ run_before byte s.now }
{
    let (run, rest) = run(s);
    Some((run, skip_byte(byte, rest)?))
}

// A value, and what stands after the `]` that has to follow it.
fn value(s: &[u8]) -> Option<(&[u8], &[u8])>
    ensures { option_map (λ p. (p.0.now, p.1.now)) result ≡ value_at s.now }
{
    match quote(s) {
        None => run_before(b']', s),
        Some((quote, inside)) => {
            let (value, rest) = run_before(quote, inside)?;
            Some((value, skip_byte(b']', rest)?))
        }
    }
}

// What is asked of a value.
#[derive(Clone, Copy)]
enum AttrOperator {
    Equals,
    HasPart,
    StartsWith,
    EndsWith,
    Contains,
}

impl AttrOperator {
    // The op whose first byte this is, where a `=` follows.
    fn from_byte(byte: u8) -> Option<AttrOperator>
        ensures { option_map operator result ≡ operator_of byte }
    {
        match byte {
            b'~' => Some(AttrOperator::HasPart),
            b'^' => Some(AttrOperator::StartsWith),
            b'$' => Some(AttrOperator::EndsWith),
            b'*' => Some(AttrOperator::Contains),
            _ => None,
        }
    }

    fn to_selector<'a>(self, key: &'a [u8], value: &'a [u8]) -> Selector<'a>
        ensures { selector result ≡ with_operator (operator self) key.now value.now }
    {
        match self {
            AttrOperator::Equals => Selector::AttributeValue(key, value),
            AttrOperator::HasPart => Selector::AttributeValueWhitespacedContains(key, value),
            AttrOperator::StartsWith => Selector::AttributeValueStartsWith(key, value),
            AttrOperator::EndsWith => Selector::AttributeValueEndsWith(key, value),
            AttrOperator::Contains => Selector::AttributeValueSubstring(key, value),
        }
    }
}

fn read_operator(s: &[u8]) -> Option<(AttrOperator, &[u8])>
    ensures { option_map (λ p. (operator p.0, p.1.now)) result ≡ operator_at s.now }
{
    let (first, rest) = s.split_first()?;
    if *first == b'=' {
        return Some((AttrOperator::Equals, rest));
    }
    let op = AttrOperator::from_byte(*first)?;
    Some((op, skip_byte(b'=', rest)?))
}

// The test of a key, from after its `[` on.
fn bracket(s: &[u8]) -> Option<(Selector<'_>, &[u8])>
    ensures { option_map (λ p. (selector p.0, p.1.now)) result ≡ bracket_at s.now }
{
    let (key, rest) = run(s);
    if let Some(rest) = skip_byte(b']', rest) {
        return Some((Selector::Attribute(key), rest));
    }
    let (op, rest) = read_operator(rest)?;
    let (value, rest) = value(rest)?;
    Some((op.to_selector(key, value), rest))
}

// A simple part.
pub fn parse_simple(s: &[u8]) -> Option<(Selector<'_>, &[u8])>
    ensures { option_map (λ p. (selector p.0, p.1.now)) result ≡ simple_at s.now }
{
    let (first, rest) = s.split_first()?;
    match *first {
        b'#' => {
            let (id, rest) = run(rest);
            Some((Selector::Id(id), rest))
        }
        b'.' => {
            let (class, rest) = run(rest);
            Some((Selector::Class(class), rest))
        }
        b'*' => Some((Selector::All, rest)),
        b'[' => bracket(rest),
        byte if byte_class::is_ident(byte) => {
            let (name, rest) = run(s);
            Some((Selector::Tag(name), rest))
        }
        _ => None,
    }
}
