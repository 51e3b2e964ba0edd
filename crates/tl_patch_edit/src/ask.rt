//! What a patch asks for.
ghost use Rattle.std.specs.Prelude.{◌≡◌, IfOk, Some, suc};
ghost use Rattle.tl_patch_spec.specs.Patches.{extent_of};
ghost use Rattle.tl_patch_elements.specs.View.{element_view};
ghost use Rattle.tl_patch_edit.specs.Asks.{inner_end, inside_end, until_of};
ghost use Rattle.tl_patch_edit.specs.View.{extent_view};

use crate::element_name::may_lack_end_tag;
use std::alloc::{AllocError, Global};
use tl_html_parts::lower_name;
use tl_html_tokens::Token;
use tl_patch_elements::Element;

/// What is put into a page.
#[derive(Clone, Copy, Debug)]
pub enum Content<'a> {
    /// A text, which is escaped where it has to be.
    Text { text: &'a [u8] },
    /// Markup, as it is.
    Markup { markup: &'a [u8] },
}

/// What is done with an element.
#[derive(Clone, Copy, Debug)]
pub enum ElementPatch<'a> {
    /// It gets another name; its attributes stay as they stand.
    Rename { name: &'a [u8] },
    /// It goes.
    Remove,
    /// Its tags go, and what is in it stays.
    Unwrap,
    /// Something stands in its place.
    ReplaceWith { content: Content<'a> },
    /// Something stands in the place of what is in it.
    Fill { content: Content<'a> },
    /// Something stands first in it.
    Prepend { content: Content<'a> },
    /// Something stands last in it.
    Append { content: Content<'a> },
    /// Something stands before it.
    PutBefore { content: Content<'a> },
    /// Something stands after it.
    PutAfter { content: Content<'a> },
}

// How far the element of a start tag goes: the tag is dropped, is the element, or the element goes
// up to its own end tag, or to a token before which it ends, where its end tag may be left out or
// may not.
#[derive(Clone, Copy)]
pub(crate) enum Extent {
    Dropped,
    Alone,
    Whole { end: usize },
    Implied { end: usize },
    Unclosed { end: usize },
}

/// A patch of the element whose start tag begins at a byte of a page.
#[derive(Clone, Copy, Debug)]
pub struct PlacedPatch<'a> {
    pub place: usize,
    pub patch: ElementPatch<'a>,
}

// A start tag, by its number among the tokens.
#[derive(Clone, Copy)]
pub(crate) struct Start {
    pub(crate) number: usize,
    pub(crate) token: Token,
}

// A patch of the element of a start tag.
#[derive(Clone, Copy)]
pub(crate) struct MeantPatch<'n> {
    pub(crate) start: Start,
    pub(crate) patch: ElementPatch<'n>,
}

// What is put: nothing, a content, an end tag of a name as it stands in a start tag, an end tag of
// a name, or the tag that stood there with another name.
#[derive(Clone, Copy)]
pub(crate) enum Put<'n> {
    Nothing,
    Content { content: Content<'n> },
    LeftOut { raw: &'n [u8] },
    EndTag { name: &'n [u8] },
    Renamed { name: &'n [u8] },
}

// What is put in the place of some tokens.
#[derive(Clone, Copy)]
pub(crate) struct Ask<'n> {
    pub(crate) from: usize,
    pub(crate) until: usize,
    pub(crate) put: Put<'n>,
}

// When what a patch puts has its turn among what is put at the same place: by how deep its element
// stands, by what it does there, and by the number of the patch.
#[derive(Clone, Copy)]
pub(crate) struct Turn {
    pub(crate) depth: usize,
    pub(crate) rank: usize,
    pub(crate) at: usize,
}

// An ask of the element of a start tag.
#[derive(Clone, Copy)]
pub(crate) struct PlacedAsk<'n> {
    pub(crate) start: Start,
    pub(crate) turn: Turn,
    pub(crate) ask: Ask<'n>,
}

// What was taken away last: of the element of this number, up to a token.
#[derive(Clone, Copy)]
pub(crate) struct Gone {
    pub(crate) from: usize,
    pub(crate) until: usize,
}

// What a patch asks for of one element.
#[derive(Clone, Copy)]
pub(crate) struct Planned<'n> {
    pub(crate) first: Ask<'n>,
    pub(crate) second: Option<Ask<'n>>,
}

// How far an element goes.
pub(crate) fn extent_of(alloc: Global, element: &Element<'_>) -> Result<Extent, AllocError>
    ensures { IfOk result (λ extent.
        extent_view extent ≡ extent_of (element_view element.now)) }
{
    if element.end == element.start {
        return Ok(Extent::Alone);
    }
    if element.has_end_tag {
        return Ok(Extent::Whole { end: element.end });
    }
    let name = lower_name(alloc, element.name)?;
    let may_lack = may_lack_end_tag(name.as_bytes());
    if may_lack {
        return Ok(Extent::Implied { end: element.end });
    }
    Ok(Extent::Unclosed { end: element.end })
}

// The number of the token behind one.
pub(crate) fn next(number: usize) -> Result<usize, AllocError>
    ensures { IfOk result (λ next. next ≡ suc number) }
{
    let next = number.checked_add(1).ok_or(AllocError)?;
    Ok(next)
}

fn some_next(number: usize) -> Result<Option<usize>, AllocError>
    ensures { IfOk result (λ found. found ≡ Some (suc number)) }
{
    let next = next(number)?;
    Ok(Some(next))
}

pub(crate) fn until_of(number: usize, extent: Extent) -> Result<Option<usize>, AllocError>
    ensures { IfOk result (λ until. until ≡ until_of number (extent_view extent)) }
{
    match extent {
        Extent::Dropped => Ok(None),
        Extent::Alone => some_next(number),
        Extent::Whole { end } => some_next(end),
        Extent::Implied { end } => Ok(Some(end)),
        Extent::Unclosed { .. } => Ok(None),
    }
}

pub(crate) fn inner_end(extent: Extent) -> Option<usize>
    ensures { result ≡ inner_end (extent_view extent) }
{
    match extent {
        Extent::Whole { end } => Some(end),
        Extent::Implied { end } => Some(end),
        _ => None,
    }
}

pub(crate) fn inside_end(extent: Extent) -> Option<usize>
    ensures { result ≡ inside_end (extent_view extent) }
{
    match extent {
        Extent::Whole { end } => Some(end),
        Extent::Implied { end } => Some(end),
        Extent::Unclosed { end } => Some(end),
        _ => None,
    }
}
