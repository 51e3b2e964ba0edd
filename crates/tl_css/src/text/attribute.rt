//! Attribute selectors.
ghost use Rattle.std.specs.Prelude.{◌≡◌, option_map};
ghost use Rattle.tl_css.specs.Attribute.{attribute_at, after_key, close_at, flag_at, key_at, match_at, op_at, op_of, space_at, string_by, value_at};
ghost use Rattle.tl_css.specs.Lexical.{run_at, ident_run};
ghost use Rattle.tl_css.specs.Read.{after_byte};
ghost use Rattle.tl_css.specs.TextView.{read_as, rest_as};
ghost use Rattle.tl_css.specs.SimpleView.{run_text, test_text};

use crate::error::{Cause, Wrong};
use crate::selector::{Case, Op, Space};
use crate::text::gap::{gap, past_comments, wrong};
use crate::text::run::{begins_name, is_word, name, past_run};

/// A name or a string that is not decoded yet: its quotes, and what begins with it.
#[derive(Clone, Copy)]
pub struct Run<'a> {
    pub quote: Option<u8>,
    pub text: &'a [u8],
}

/// A test whose names are not decoded yet: each is what begins with it.
#[derive(Clone, Copy)]
pub enum TestText<'a> {
    Any,
    Name(&'a [u8]),
    Id(&'a [u8]),
    Class(&'a [u8]),
    Key(Space, &'a [u8]),
    Value(Space, &'a [u8], Op, Run<'a>, Case),
    Empty,
}

pub fn after_byte(byte: u8, s: &[u8]) -> Option<&[u8]>
    ensures { option_map (λ rest. rest.now) result ≡ after_byte byte s.now }
{
    match s {
        [first, rest @ ..] if *first == byte => Some(rest),
        _ => None,
    }
}

// The namespaces that a key is looked for in, and where its name begins.
fn space(s: &[u8]) -> (Space, &[u8])
    ensures { (result.0, result.1.now) ≡ space_at s.now }
{
    match s {
        [b'|', rest @ ..] => (Space::Bare, past_comments(rest)),
        [b'*', rest @ ..] => match after_byte(b'|', past_comments(rest)) {
            Some(rest) => (Space::Every, past_comments(rest)),
            None => (Space::Bare, s),
        },
        _ => (Space::Bare, s),
    }
}

// A key that is not decoded yet, and the namespaces that it is looked for in.
fn key(s: &[u8]) -> Result<((Space, &[u8]), &[u8]), Wrong>
    ensures { read_as (λ key. (key.0, ident_run key.1.now)) result ≡ key_at s.now }
{
    let (space, s) = space(s);
    let (key, rest) = name(s)?;
    Ok(((space, key), rest))
}

// The op whose first byte this is, where a `=` follows.
fn op_of(byte: u8) -> Option<Op>
    ensures { result ≡ op_of byte }
{
    match byte {
        b'~' => Some(Op::Word),
        b'|' => Some(Op::Dashed),
        b'^' => Some(Op::Starts),
        b'$' => Some(Op::Ends),
        b'*' => Some(Op::Inside),
        _ => None,
    }
}

fn op(s: &[u8]) -> Result<(Op, &[u8]), Wrong>
    ensures { read_as (λ op. op) result ≡ op_at s.now }
{
    let [first, rest @ ..] = s else {
        return wrong(s, Cause::NoOperator);
    };
    if *first == b'=' {
        return Ok((Op::Equals, rest));
    }
    match (op_of(*first), after_byte(b'=', rest)) {
        (Some(op), Some(rest)) => Ok((op, rest)),
        (None, Some(_)) => wrong(s, Cause::NoOperator),
        (_, None) if *first == b'|' => wrong(s, Cause::Namespace),
        (_, None) => wrong(s, Cause::NoOperator),
    }
}

// A string between these quotes, where `s` begins with the first and `inside` stands after it.
fn string<'a>(s: &[u8], quote: u8, inside: &'a [u8]) -> Result<(Run<'a>, &'a [u8]), Wrong>
    ensures { read_as run_text result ≡ string_by s.now quote (run_at (Some quote) inside.now) }
{
    let Some(rest) = after_byte(quote, past_run(Some(quote), inside)) else {
        return wrong(s, Cause::Unclosed);
    };
    let quote = Some(quote);
    Ok((
        Run {
            quote,
            text: inside,
        },
        rest,
    ))
}

fn value(opened: usize, s: &[u8]) -> Result<(Run<'_>, &[u8]), Wrong>
    ensures { read_as run_text result ≡ value_at opened s.now }
{
    let [first, inside @ ..] = s else {
        return Err(Wrong {
            left: opened,
            cause: Cause::Unclosed,
        });
    };
    if *first == b'"' || *first == b'\'' {
        return string(s, *first, inside);
    }
    if !begins_name(s) {
        return wrong(s, Cause::NoValue);
    }
    Ok((
        Run {
            quote: None,
            text: s,
        },
        past_run(None, s),
    ))
}

// How case counts.
fn flag(s: &[u8]) -> Result<(Case, &[u8]), Wrong>
    ensures { read_as (λ case. case) result ≡ flag_at s.now }
{
    if !begins_name(s) {
        return Ok((Case::Unsaid, s));
    }
    if is_word(s, b"i") {
        return Ok((Case::Folded, past_run(None, s)));
    }
    if is_word(s, b"s") {
        return Ok((Case::Exact, past_run(None, s)));
    }
    wrong(s, Cause::NoFlag)
}

fn close(opened: usize, s: &[u8]) -> Result<&[u8], Wrong>
    ensures { rest_as result ≡ close_at opened s.now }
{
    match s {
        [] => Err(Wrong {
            left: opened,
            cause: Cause::Unclosed,
        }),
        [b']', rest @ ..] => Ok(rest),
        _ => wrong(s, Cause::Unexpected),
    }
}

// What stands after a key and an op.
fn match_text<'a>(
    opened: usize,
    space: Space,
    key: &'a [u8],
    op: Op,
    s: &'a [u8],
) -> Result<(TestText<'a>, &'a [u8]), Wrong>
    ensures { read_as test_text result ≡ match_at opened (space, ident_run key.now) op s.now }
{
    let (_white, s) = gap(s)?;
    let (value, s) = value(opened, s)?;
    let (_white, s) = gap(s)?;
    let (case, s) = flag(s)?;
    let (_white, s) = gap(s)?;
    let rest = close(opened, s)?;
    Ok((TestText::Value(space, key, op, value, case), rest))
}

fn after_key<'a>(
    opened: usize,
    space: Space,
    key: &'a [u8],
    s: &'a [u8],
) -> Result<(TestText<'a>, &'a [u8]), Wrong>
    ensures { read_as test_text result ≡ after_key opened (space, ident_run key.now) s.now }
{
    match s {
        [] => Err(Wrong {
            left: opened,
            cause: Cause::Unclosed,
        }),
        [b']', rest @ ..] => Ok((TestText::Key(space, key), rest)),
        _ => {
            let (op, rest) = op(s)?;
            match_text(opened, space, key, op, rest)
        }
    }
}

/// What stands after a `[`, from which on so many bytes are left.
pub fn attribute(opened: usize, s: &[u8]) -> Result<(TestText<'_>, &[u8]), Wrong>
    ensures { read_as test_text result ≡ attribute_at opened s.now }
{
    let (_white, s) = gap(s)?;
    let ((space, key), s) = key(s)?;
    let (_white, s) = gap(s)?;
    after_key(opened, space, key, s)
}
