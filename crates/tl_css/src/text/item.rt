//! What stands next in a selector text.
ghost use Rattle.std.specs.Prelude.{◌≡◌};
ghost use Rattle.std.specs.Str.{byte};
ghost use Rattle.tl_css.specs.Item.{begin_at, combinator_at, combinator_of, first_at, leading_at, next_at, next_by, part_at, simple_at, star_by, type_at, unexpected};
ghost use Rattle.tl_css.specs.ItemView.{item};
ghost use Rattle.tl_css.specs.Lexical.{past_comments};
ghost use Rattle.tl_css.specs.Relative.{begins_combinator, led_at};
ghost use Rattle.tl_css.specs.Read.{after_byte};
ghost use Rattle.tl_css.specs.SimpleView.{simple, test_text};
ghost use Rattle.tl_css.specs.TextView.{read_as};

use crate::error::{Cause, Wrong};
use crate::selector::Anchor;
use crate::text::attribute::{TestText, after_byte, attribute};
use crate::text::gap::{gap, past_comments, wrong};
use crate::text::pseudo_class::{Simple, Whole, pseudo};
use crate::text::role::{Before, Combinator, Role};
use crate::text::run::{begins_name, name, past_run};

/// A comma, the end of a list, or a simple selector with what stands before it and how many bytes
/// are left from it on.
#[derive(Clone, Copy)]
pub enum Item<'a> {
    End,
    Comma,
    Part(Before, usize, Simple<'a>),
}

// Why no simple selector begins with this byte.
fn unexpected(byte: u8) -> Cause
    ensures { result ≡ unexpected byte }
{
    match byte {
        b'|' => Cause::Namespace,
        b',' | b')' | b'>' | b'+' | b'~' => Cause::NoSelector,
        _ => Cause::Unexpected,
    }
}

// A simple selector that may stand after others.
fn simple_after(s: &[u8]) -> Result<(Simple<'_>, &[u8]), Wrong>
    ensures { read_as simple result ≡ simple_at s.now }
{
    let [first, rest @ ..] = s else {
        return wrong(s, Cause::NoSelector);
    };
    if *first == b':' {
        return pseudo(s, past_comments(rest));
    }
    if *first == b'[' {
        let (test, rest) = attribute(s.len(), rest)?;
        return Ok((Simple::Whole(Whole::Test(test)), rest));
    }
    if *first == b'#' {
        let (id, rest) = name(rest)?;
        return Ok((Simple::Whole(Whole::Test(TestText::Id(id))), rest));
    }
    if *first == b'.' {
        let (class, rest) = name(past_comments(rest))?;
        return Ok((Simple::Whole(Whole::Test(TestText::Class(class))), rest));
    }
    if *first == b'&' {
        return Ok((Simple::Whole(Whole::Outermost(Anchor::Scope)), rest));
    }
    wrong(s, unexpected(*first))
}

// What stands after the `|` of a type.
fn local_type(s: &[u8]) -> Result<(TestText<'_>, &[u8]), Wrong>
    ensures { read_as test_text result ≡ type_at s.now }
{
    if let [b'*', rest @ ..] = s {
        return Ok((TestText::Any, rest));
    }
    let (name, rest) = name(s)?;
    Ok((TestText::Name(name), rest))
}

// What begins with a `*`, from after that on.
fn after_star(s: &[u8]) -> Result<(Simple<'_>, &[u8]), Wrong>
    ensures { read_as simple result
        ≡ star_by s.now (after_byte (byte "|") (past_comments s.now)) }
{
    let Some(rest) = after_byte(b'|', past_comments(s)) else {
        return Ok((Simple::Whole(Whole::Test(TestText::Any)), s));
    };
    let (test, rest) = local_type(past_comments(rest))?;
    Ok((Simple::Whole(Whole::Test(test)), rest))
}

// A simple selector that may stand first.
fn simple_first(s: &[u8]) -> Result<(Simple<'_>, &[u8]), Wrong>
    ensures { read_as simple result ≡ first_at s.now }
{
    match s {
        [b'*', rest @ ..] => after_star(rest),
        [b'|', rest @ ..] => {
            let (_test, rest) = local_type(past_comments(rest))?;
            Ok((Simple::Whole(Whole::Nowhere), rest))
        }
        _ if begins_name(s) => Ok((
            Simple::Whole(Whole::Test(TestText::Name(s))),
            past_run(None, s),
        )),
        _ => simple_after(s),
    }
}

fn combinator_of(byte: u8) -> Option<Combinator>
    ensures { result ≡ combinator_of byte }
{
    match byte {
        b'>' => Some(Combinator::Child),
        b'+' => Some(Combinator::NextSibling),
        b'~' => Some(Combinator::SubsequentSibling),
        _ => None,
    }
}

// A combinator that a byte says, or none, and the gap after it.
fn combinator(s: &[u8]) -> Result<(Option<Combinator>, &[u8]), Wrong>
    ensures { read_as (λ combinator. combinator) result ≡ combinator_at s.now }
{
    let [first, rest @ ..] = s else {
        return Ok((None, s));
    };
    let Some(combinator) = combinator_of(*first) else {
        return Ok((None, s));
    };
    let (_white, rest) = gap(rest)?;
    Ok((Some(combinator), rest))
}

// The combinator that a relative selector may begin with.
fn leading(role: Role, s: &[u8]) -> Result<(Combinator, &[u8]), Wrong>
    ensures { read_as (λ combinator. combinator) result ≡ leading_at role s.now }
{
    if !role.is_relative() {
        return Ok((Combinator::Descendant, s));
    }
    let (combinator, rest) = combinator(s)?;
    Ok((combinator.unwrap_or(Combinator::Descendant), rest))
}

/// The first item of a complex selector.
pub fn begin(role: Role, s: &[u8]) -> Result<(Item<'_>, &[u8]), Wrong>
    ensures { read_as item result ≡ begin_at role s.now }
{
    let (_white, s) = gap(s)?;
    let (combinator, s) = leading(role, s)?;
    let (simple, rest) = simple_first(s)?;
    Ok((Item::Part(Before::Begin(combinator), s.len(), simple), rest))
}

fn begins_combinator(s: &[u8]) -> bool
    ensures { result ≡ begins_combinator s.now }
{
    match s {
        [] => false,
        [first, ..] => combinator_of(*first).is_some(),
    }
}

/// The same of a text of relative selectors: `:scope` before a combinator.
pub fn begin_led(s: &[u8]) -> Result<(Item<'_>, &[u8]), Wrong>
    ensures { read_as item result ≡ led_at s.now }
{
    let (_white, s) = gap(s)?;
    if begins_combinator(s) {
        let before = Before::Begin(Combinator::Descendant);
        let scope = Simple::Whole(Whole::Outermost(Anchor::Scope));
        return Ok((Item::Part(before, s.len(), scope), s));
    }
    begin(Role::Top, s)
}

// A simple selector after this combinator, or after white space or nothing.
fn part(spaced: bool, combinator: Option<Combinator>, s: &[u8]) -> Result<(Item<'_>, &[u8]), Wrong>
    ensures { read_as item result ≡ part_at spaced combinator s.now }
{
    let combinator = match combinator {
        Some(combinator) => combinator,
        None if spaced => Combinator::Descendant,
        None => {
            let (simple, rest) = simple_after(s)?;
            return Ok((Item::Part(Before::Touching, s.len(), simple), rest));
        }
    };
    let (simple, rest) = simple_first(s)?;
    Ok((Item::Part(Before::After(combinator), s.len(), simple), rest))
}

/// The next item after a simple selector, in a list whose bracket was opened where so many bytes
/// were left.
pub fn next(role: Role, opened: usize, s: &[u8]) -> Result<(Item<'_>, &[u8]), Wrong>
    ensures { read_as item result ≡ next_at role opened s.now }
{
    let (spaced, s) = gap(s)?;
    match s {
        [] if role.is_top() => Ok((Item::End, s)),
        [] => Err(Wrong {
            left: opened,
            cause: Cause::Unclosed,
        }),
        [b',', rest @ ..] => Ok((Item::Comma, rest)),
        [b')', rest @ ..] if !role.is_top() => Ok((Item::End, rest)),
        _ => {
            let (combinator, rest) = combinator(s)?;
            part(spaced, combinator, rest)
        }
    }
}
