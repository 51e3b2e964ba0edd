//! The reader of a selector's text.
ghost use Rattle.std.specs.Prelude.{◌≡◌, IfOk, IfSome, IfNone, IsOk, OnOk, OnErr, Ok, None, []};
ghost use Rattle.tl_selector.specs.View.{selector};
ghost use Rattle.tl_selector.specs.MissingSimple.{LacksFirst, LacksSecond};
ghost use Rattle.tl_spec.specs.Select.Selector as s;
ghost use Rattle.tl_spec.specs.Select.Text.{IsSelectorText, StandsAlone};

mod complex;
mod simple;

use crate::parser::complex::parse_list;
use crate::selector::Selector;
use std::alloc::{AllocError, Global};
use std::marker::Model;

/// A reader of one selector, seen as the bytes that are left.
#[derive(Debug, Drop)]
pub struct Parser<'a> {
    rest: &'a [u8],
}

impl<'a> Model for Parser<'a> {
    ghost use Rattle.std.specs.Prelude.{List, ℕ};

    ghost Value = { List ℕ };

    ghost view = { λ p. p.rest.now };
}

impl<'a> Parser<'a> {
    /// A reader of all of `input`.
    pub fn new(input: &'a [u8]) -> Parser<'a>
        ensures text { result ≡ input.now }
    {
        Parser { rest: input }
    }

    /// Reads all that is left as one selector: `None` where it is none. Names, keys and values are
    /// slices of the text, and memory is taken for joints alone.
    #[tactic(auto, using(crate::proofs::TextParts::selector_found, crate::proofs::TextParts::selector_none))]
    pub fn selector(&mut self, alloc: Global) -> Result<Option<Selector<'a>>, AllocError>
        ensures found { IfOk result (λ o. IfSome o (λ e. IsSelectorText self.old (selector e))) }
        ensures none { IfOk result (λ o. IfNone o
            ((e : s.Selector) → IsSelectorText self.old e → ⊥)) }

        // Nothing is left then,
        ensures end { OnOk result (self.new ≡ []) }

        // and nothing is no selector.
        ensures ended { self.old ≡ [] → result ≡ Ok None }
        ensures err { OnErr result (self.new ≡ self.old) }

        // One simple part takes no memory.
        ensures alone { StandsAlone self.old → IsOk result }

        // Nor does a text take any that lacks its first part, or the second.
        ensures no_part { LacksFirst self.old → result ≡ Ok None }
        ensures bad { LacksSecond self.old → result ≡ Ok None }
    {
        let found = parse_list(alloc, self.rest)?;
        self.rest = &[];
        Ok(found)
    }
}

/// The selector of a text, `None` where it is none. Names, keys and values are slices of the text,
/// and memory is taken for joints alone.
pub fn parse_query_selector<'a>(
    alloc: Global,
    input: &'a str,
) -> Result<Option<Selector<'a>>, AllocError>
    ensures found { IfOk result (λ o. IfSome o (λ e. IsSelectorText input.now (selector e))) }
    ensures none { IfOk result (λ o. IfNone o ((e : s.Selector) → IsSelectorText input.now e → ⊥)) }

    // One simple part takes no memory.
    ensures alone { StandsAlone input.now → IsOk result }

    // Nor does a text take any that lacks its first part, or the second.
    ensures no_part { LacksFirst input.now → result ≡ Ok None }
    ensures bad { LacksSecond input.now → result ≡ Ok None }
{
    Parser::new(input.as_bytes()).selector(alloc)
}
