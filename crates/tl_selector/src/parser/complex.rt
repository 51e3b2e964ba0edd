//! The parts of a selector's text, and how they are nested.
ghost use Rattle.std.specs.Prelude.{◌≡◌, option_map, IfOk, IsOk, Ok, None, []};
ghost use Rattle.tl_selector.specs.View.{selector};
ghost use Rattle.tl_selector.specs.MissingSimple.{LacksFirst, LacksSecond};
ghost use Rattle.tl_selector.specs.Inner.ParserViews.{separator, next};
ghost use Rattle.tl_spec.specs.Select.Reading as r;
ghost use Rattle.tl_spec.specs.Select.Reading.{combine, push_complex, nest, starts_with_space, separator_at, next_at, parts_at, selector_at};
ghost use Rattle.tl_spec.specs.Select.Text.{StandsAlone};

use crate::parser::simple::{parse_simple, skip_spaces};
use crate::selector::Selector;
use std::alloc::{AllocError, Global};

// What stands between two parts.
#[derive(Clone, Copy)]
enum Separator {
    Comma,
    Step,
    Spaces,
    Touch,
}

impl Separator {
    // What it gives of what stands before it and the part after it.
    fn join<'a>(
        self,
        alloc: Global,
        before: Selector<'a>,
        part: Selector<'a>,
    ) -> Result<Selector<'a>, AllocError>
        ensures { IfOk result (λ e. selector e
            ≡ combine (separator self) (selector before.entry) (selector part.entry)) }
    {
        let before = Box::new(alloc, before)?;
        let part = Box::new(alloc, part)?;
        Ok(match self {
            Separator::Comma => Selector::Or(before, part),
            Separator::Step => Selector::Parent(before, part),
            Separator::Spaces => Selector::Descendant(before, part),
            Separator::Touch => Selector::And(before, part),
        })
    }
}

fn starts_with_space(s: &[u8]) -> bool
    ensures { result ≡ starts_with_space s.now }
{
    matches!(s, [b' ', ..])
}

// The link at the front, if the text doesn't end there.

fn read_separator(s: &[u8]) -> Option<(Separator, &[u8])>
    ensures { option_map (λ p. (separator p.0, p.1.now)) result ≡ separator_at s.now }
{
    let spaced = starts_with_space(s);
    let text = skip_spaces(s);
    let (first, rest) = text.split_first()?;
    Some(match *first {
        b',' => (Separator::Comma, skip_spaces(rest)),
        b'>' => (Separator::Step, skip_spaces(rest)),
        _ if spaced => (Separator::Spaces, text),
        _ => (Separator::Touch, text),
    })
}

// What comes after a part: the end, what is no part, or a part and what stands after it.
#[derive(Drop)]
enum Next<'a> {
    End,
    Bad,
    Part(Separator, Selector<'a>, &'a [u8]),
}

fn read_next(s: &[u8]) -> Next<'_>
    ensures { next result ≡ next_at s.now }
{
    match read_separator(s) {
        None => Next::End,
        Some((link, text)) => match parse_simple(text) {
            None => Next::Bad,
            Some((part, rest)) => Next::Part(link, part, rest),
        },
    }
}

// The chains up to here: those before the last `,`, if there is one, and the one after it.
fn push_complex<'a>(
    alloc: Global,
    before: Option<Selector<'a>>,
    chain: Selector<'a>,
) -> Result<Selector<'a>, AllocError>
    ensures closed { IfOk result (λ e. selector e
        ≡ push_complex (option_map selector before.entry) (selector chain.entry)) }
    ensures alone { before.entry ≡ None → IsOk result }
{
    match before {
        None => Ok(chain),
        Some(before) => Separator::Comma.join(alloc, before, chain),
    }
}

// The selector whose first part is `first`, where the text goes on with `s`.
#[tactic(auto, using(crate::proofs::TextParts::rest_part, crate::proofs::TextParts::rest_end, crate::proofs::TextParts::rest_bad))]
fn parse_rest<'a>(
    alloc: Global,
    first: Selector<'a>,
    s: &'a [u8],
) -> Result<Option<Selector<'a>>, AllocError>
    ensures nests { IfOk result (λ o. option_map selector o
        ≡ option_map (nest None (selector first.entry)) (parts_at s.now)) }
    ensures alone { next_at s.now ≡ r.End → IsOk result }
    ensures bad { next_at s.now ≡ r.Bad → result ≡ Ok None }
{
    let mut before = None;
    let mut chain = first;
    let mut rest = s;
    'parts: loop {
        match read_next(rest) {
            Next::End => return Ok(Some(push_complex(alloc, before, chain)?)),
            Next::Bad => return Ok(None),
            Next::Part(link, part, text) => {
                rest = text;
                match link {
                    Separator::Comma => {
                        before = Some(push_complex(alloc, before, chain)?);
                        chain = part;
                    }
                    _ => {
                        chain = link.join(alloc, chain, part)?;
                    }
                }
            }
        }
    }
}

// The selector of a whole text.
#[tactic(auto, using(crate::proofs::TextParts::alone_some))]
pub fn parse_list<'a>(alloc: Global, s: &'a [u8]) -> Result<Option<Selector<'a>>, AllocError>
    ensures reads { IfOk result (λ o. option_map selector o ≡ selector_at s.now) }
    ensures alone { StandsAlone s.now → IsOk result }
    ensures empty { s.now ≡ [] → result ≡ Ok None }
    ensures no_part { LacksFirst s.now → result ≡ Ok None }
    ensures bad { LacksSecond s.now → result ≡ Ok None }
{
    match parse_simple(skip_spaces(s)) {
        None => Ok(None),
        Some((first, rest)) => parse_rest(alloc, first, rest),
    }
}
