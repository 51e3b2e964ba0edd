//! Pseudo-classes.
ghost use Rattle.std.specs.Prelude.{◌≡◌, if◌then◌else◌, Ok};
ghost use Rattle.tl_css.specs.Lexical.{lower_run};
ghost use Rattle.tl_css.specs.PseudoClass.{after_formula, argument_at, begins_argument, class_at, is_sibling, list_class, nth_at, nth_class, plain_class, pseudo_at, pseudo_class};
ghost use Rattle.tl_css.specs.Read.{wrong};
ghost use Rattle.tl_css.specs.TextView.{read_as};
ghost use Rattle.tl_css.specs.SimpleView.{simple, whole};
ghost use Rattle.tl_css.specs.PseudoClass as p;

use crate::error::{Cause, Wrong};
use crate::selector::{Anchor, Formula, Link, Way};
use crate::text::attribute::TestText;
use crate::text::formula::formula;
use crate::text::gap::{gap, wrong};
use crate::text::role::{PseudoClass, Role};
use crate::text::run::{is_word, name, past_run};

/// A simple selector without a list.
#[derive(Clone, Copy)]
pub enum Whole<'a> {
    Test(TestText<'a>),
    Edge(Way, Link),
    Only(Link),
    Outermost(Anchor),
    /// In no namespace: where no element stands.
    Nowhere,
    Nth(Way, Link, Formula),
}

/// A simple selector, up to a list in brackets: what that is for, and how many bytes are left from
/// its bracket on.
#[derive(Clone, Copy)]
pub enum Simple<'a> {
    Whole(Whole<'a>),
    Opens(Role, usize),
}

// The pseudo-classes without an argument.
fn plain_class(word: &[u8]) -> Option<PseudoClass>
    ensures { result ≡ plain_class (lower_run word.now) }
{
    if is_word(word, b"first-child") {
        Some(PseudoClass::Edge(Way::From, Link::Sibling))
    } else if is_word(word, b"last-child") {
        Some(PseudoClass::Edge(Way::To, Link::Sibling))
    } else if is_word(word, b"only-child") {
        Some(PseudoClass::Only(Link::Sibling))
    } else if is_word(word, b"first-of-type") {
        Some(PseudoClass::Edge(Way::From, Link::Twin))
    } else if is_word(word, b"last-of-type") {
        Some(PseudoClass::Edge(Way::To, Link::Twin))
    } else if is_word(word, b"only-of-type") {
        Some(PseudoClass::Only(Link::Twin))
    } else if is_word(word, b"root") {
        Some(PseudoClass::Outermost(Anchor::Root))
    } else if is_word(word, b"scope") {
        Some(PseudoClass::Outermost(Anchor::Scope))
    } else if is_word(word, b"empty") {
        Some(PseudoClass::Empty)
    } else {
        None
    }
}

// Those of a formula.
fn nth_class(word: &[u8]) -> Option<PseudoClass>
    ensures { result ≡ nth_class (lower_run word.now) }
{
    if is_word(word, b"nth-child") {
        Some(PseudoClass::Nth(Way::From, Link::Sibling))
    } else if is_word(word, b"nth-last-child") {
        Some(PseudoClass::Nth(Way::To, Link::Sibling))
    } else if is_word(word, b"nth-of-type") {
        Some(PseudoClass::Nth(Way::From, Link::Twin))
    } else if is_word(word, b"nth-last-of-type") {
        Some(PseudoClass::Nth(Way::To, Link::Twin))
    } else {
        None
    }
}

// Those of a list of selectors.
fn list_class(word: &[u8]) -> Option<PseudoClass>
    ensures { result ≡ list_class (lower_run word.now) }
{
    if is_word(word, b"not") {
        Some(PseudoClass::List(Role::Not))
    } else if is_word(word, b"is") || is_word(word, b"where") {
        Some(PseudoClass::List(Role::Is))
    } else if is_word(word, b"has") {
        Some(PseudoClass::List(Role::Has))
    } else {
        None
    }
}

fn pseudo_class(word: &[u8]) -> Option<PseudoClass>
    ensures { result ≡ pseudo_class (lower_run word.now) }
{
    match plain_class(word) {
        Some(class) => Some(class),
        None => match nth_class(word) {
            Some(class) => Some(class),
            None => list_class(word),
        },
    }
}

fn begins_argument(s: &[u8]) -> bool
    ensures { result ≡ begins_argument s.now }
{
    matches!(s, [b'(', ..])
}

// A pseudo-class without an argument.
fn without_argument<'a>(class: Whole<'a>, s: &'a [u8]) -> Result<(Simple<'a>, &'a [u8]), Wrong>
    ensures { read_as simple result
        ≡ (if begins_argument s.now then wrong s.now Cause.TakesNone
        else Ok (p.Whole (whole class.entry), s.now)) }
{
    if begins_argument(s) {
        return wrong(s, Cause::TakesNone);
    }
    Ok((Simple::Whole(class), s))
}

fn is_sibling(link: Link) -> bool
    ensures { result ≡ is_sibling link }
{
    matches!(link, Link::Sibling)
}

// What stands after a formula and its gap.
fn after_formula<'a>(
    opened: usize,
    way: Way,
    link: Link,
    formula: Formula,
    spaced: bool,
    s: &'a [u8],
) -> Result<(Simple<'a>, &'a [u8]), Wrong>
    ensures { read_as simple result ≡ after_formula opened way link formula spaced s.now }
{
    match s {
        [] => Err(Wrong {
            left: opened,
            cause: Cause::Unclosed,
        }),
        [b')', rest @ ..] => Ok((Simple::Whole(Whole::Nth(way, link, formula)), rest)),
        _ if spaced && is_sibling(link) && is_word(s, b"of") => {
            Ok((
                Simple::Opens(Role::NthOf(way, formula), opened),
                past_run(None, s),
            ))
        }
        _ => wrong(s, Cause::NoFormula),
    }
}

// What stands after the `(` of a pseudo-class with a formula.
fn nth(opened: usize, way: Way, link: Link, s: &[u8]) -> Result<(Simple<'_>, &[u8]), Wrong>
    ensures { read_as simple result ≡ nth_at opened way link s.now }
{
    let (_white, s) = gap(s)?;
    if s.is_empty() {
        return Err(Wrong {
            left: opened,
            cause: Cause::Unclosed,
        });
    }
    let (formula, s) = formula(s)?;
    let (spaced, s) = gap(s)?;
    after_formula(opened, way, link, formula, spaced, s)
}

// The bracket of an argument: how many bytes are left from it on.
fn argument(s: &[u8]) -> Result<(usize, &[u8]), Wrong>
    ensures { read_as (λ opened. opened) result ≡ argument_at s.now }
{
    match s {
        [b'(', rest @ ..] => Ok((s.len(), rest)),
        _ => wrong(s, Cause::NeedsArgument),
    }
}

// What stands after the name of a pseudo-class.
fn class(class: PseudoClass, s: &[u8]) -> Result<(Simple<'_>, &[u8]), Wrong>
    ensures { read_as simple result ≡ class_at class s.now }
{
    match class {
        PseudoClass::Edge(way, link) => without_argument(Whole::Edge(way, link), s),
        PseudoClass::Only(link) => without_argument(Whole::Only(link), s),
        PseudoClass::Outermost(anchor) => without_argument(Whole::Outermost(anchor), s),
        PseudoClass::Empty => without_argument(Whole::Test(TestText::Empty), s),
        PseudoClass::List(role) => {
            let (opened, rest) = argument(s)?;
            Ok((Simple::Opens(role, opened), rest))
        }
        PseudoClass::Nth(way, link) => {
            let (opened, rest) = argument(s)?;
            nth(opened, way, link, rest)
        }
    }
}

/// What stands after a `:`, with which `colon` begins.
pub fn pseudo<'a>(colon: &[u8], s: &'a [u8]) -> Result<(Simple<'a>, &'a [u8]), Wrong>
    ensures { read_as simple result ≡ pseudo_at colon.now s.now }
{
    if matches!(s, [b':', ..]) {
        return wrong(colon, Cause::PseudoElement);
    }
    let (word, rest) = name(s)?;
    let Some(known) = pseudo_class(word) else {
        return wrong(s, Cause::NoPseudoClass);
    };
    class(known, rest)
}
