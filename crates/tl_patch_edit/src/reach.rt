//! The bytes of a page that its elements have.
ghost use Rattle.std.specs.Prelude.{IfOk, OnOk, [], length, map, ◌++◌, ◌∷◌, ◌≡◌};
ghost use Rattle.tl_html_tokens.specs.Tokens.{AreTokensOf};
ghost use Rattle.tl_patch_edit.specs.Stretches.{begin_of, past, stretch_of, stretches, tail_begin};
ghost use Rattle.tl_patch_elements.specs.View.{element_view, elements_view};

use crate::ask::next;
use crate::page::TokenizedPage;
use crate::tail::tail_of;
use std::alloc::{AllocError, Global};
use tl_html_tokens::Token;
use tl_patch_elements::Element;

/// The bytes of an element: from its start tag up to where it ends, behind its own end tag if it
/// has one.
#[derive(Clone, Copy, PartialEq, Eq, Debug)]
pub struct Stretch {
    pub start: usize,
    pub end: usize,
}

/// The bytes of the elements of a page, and where its tail begins.
#[derive(Drop)]
pub struct PageStretches {
    /// In the order in which the elements end.
    pub elements: Vec<Stretch>,
    /// Where the end tags of `body` and `html` begin that stand last in the page, or where it ends.
    pub tail: usize,
}

// The number of the first token behind an element.
fn past(element: &Element<'_>) -> Result<usize, AllocError>
    ensures { IfOk result (λ number. number ≡ past (element_view element.now)) }
{
    if element.has_end_tag || element.end == element.start {
        return next(element.end);
    }
    Ok(element.end)
}

// The byte where the token of a number begins, or where the page ends.
#[tactic(auto, using(crate::proofs::Reaches::begins_at, crate::proofs::Reaches::begins_none))]
fn begin_of(page: &[u8], tokens: &[Token], number: usize) -> usize
    requires { AreTokensOf page.now tokens.now }
    ensures { result ≡ begin_of page.now number }
{
    if number < tokens.len() {
        return tokens[number].start;
    }
    page.len()
}

// The bytes of an element.
fn stretch_of(page: &[u8], tokens: &[Token], element: &Element<'_>) -> Result<Stretch, AllocError>
    requires { AreTokensOf page.now tokens.now }
    ensures { IfOk result (λ stretch.
        stretch ≡ stretch_of page.now (element_view element.now)) }
{
    let past = past(element)?;
    Ok(Stretch {
        start: begin_of(page, tokens, element.start),
        end: begin_of(page, tokens, past),
    })
}

// Those of each of some elements.
fn all_stretches(
    alloc: Global,
    page: &[u8],
    tokens: &[Token],
    elements: &[Element<'_>],
) -> Result<Vec<Stretch>, AllocError>
    requires { AreTokensOf page.now tokens.now }
    ensures { IfOk result (λ all.
        all.items ≡ map (stretch_of page.now) (elements_view elements.now)) }
{
    let mut all = Vec::with_capacity(alloc, elements.len())?;
    for element in elements {
        let stretch = stretch_of(page, tokens, element)?;
        all.push(stretch)?;
    }
    Ok(all)
}

impl TokenizedPage<'_> {
    /// The bytes of each element of a page, by its end tags, in the order in which the elements
    /// end, and where the tail of the page begins.
    pub fn stretches(&self, alloc: Global) -> Result<PageStretches, AllocError>
        ensures elements { IfOk result (λ found.
            found.elements.items ≡ stretches self.now.page.now) }
        ensures tail { IfOk result (λ found. found.tail ≡ tail_begin self.now.page.now) }
    {
        let tokens = self.tokens.as_slice();
        let elements = all_stretches(alloc, self.page, tokens, self.elements.as_slice())?;
        let page_tail = tail_of(alloc, self.page, tokens)?;
        let tail = begin_of(self.page, tokens, page_tail.body.place);
        Ok(PageStretches { elements, tail })
    }
}

/// The same of a page of which nothing else is asked.
pub fn stretches(alloc: Global, page: &[u8]) -> Result<PageStretches, AllocError>
    ensures elements { IfOk result (λ found. found.elements.items ≡ stretches page.now) }
    ensures tail { IfOk result (λ found. found.tail ≡ tail_begin page.now) }
{
    let tokenized = TokenizedPage::of(alloc, page)?;
    let found = tokenized.stretches(alloc)?;
    Ok(found)
}
