//! The elements of a page, up to its tail: the `</body>` and `</html>` that stand last in it, which
//! end nothing by themselves.
ghost use Rattle.std.specs.Prelude.{◌≡◌, ◌∷◌, ◌++◌, [], IfOk, List, OnOk, codes, length, map};
ghost use Rattle.std.specs.List.{list_all};
ghost use Rattle.std.specs.Str.{bytes_eq};
ghost use Rattle.tl_html_spec.specs.HtmlTokenizer.{Character, EndTag, HtmlToken, is_white_space};
ghost use Rattle.tl_html_spec.specs.Pieces.{Piece, pieces, runs};
ghost use Rattle.tl_html_tokens.specs.Characters.{characters_of};
ghost use Rattle.tl_html_tokens.specs.Kinds.{IsEndTag};
ghost use Rattle.tl_html_tokens.specs.Tokens.{AreTokensOf};
ghost use Rattle.tl_html_tokens.specs.Whole.{IsWhole};
ghost use Rattle.tl_html_tokens.specs.declared.mode.Mode.{Mode};
ghost use Rattle.tl_patch_elements.specs.View.{element_view, elements_view};
ghost use Rattle.tl_patch_spec.specs.Tail.{elements_up_to_tail, up_to_tail};
ghost use Rattle.tl_patch_edit.specs.Inner.Parts.{IsPieceOf, part_view};
ghost use Rattle.tl_patch_edit.specs.Inner.Tails.{IsEndFor, IsTailFrom, IsTailPart, is_in_tail, with_part};

use crate::part::{Part, part_at};
use std::alloc::{AllocError, Global};
use tl_html_parts::{characters, lower_name, tag_parts};
use tl_html_tokens::{Mode, Token, TokenKind};
use tl_patch_elements::{Element, PageElements, elements};

// What a part of a page is to its tail: an end tag, what stands between and behind them, or what no
// tail holds.
#[derive(Clone, Copy)]
pub(crate) enum TailPart {
    BodyEnd,
    HtmlEnd,
    Between,
    Other,
}

// Where an element ends, and whether its own end tag stands there.
#[derive(Clone, Copy)]
pub(crate) struct End {
    pub(crate) place: usize,
    pub(crate) is_own: bool,
}

// Where `body` ends, which is where the tail begins, and where `html`.
#[derive(Clone, Copy)]
pub(crate) struct Tail {
    pub(crate) body: End,
    pub(crate) html: End,
}

fn is_white_space(byte: u8) -> bool
    ensures { result ≡ is_white_space byte }
{
    byte == b'\t' || byte == b'\n' || byte == b'\x0C' || byte == b' '
}

fn is_white_text(characters: &[u8]) -> bool
    ensures { result ≡ list_all is_white_space characters.now }
{
    characters.iter().all(|byte| is_white_space(*byte))
}

// What a text is.
fn text_part(alloc: Global, mode: Mode, bytes: &[u8]) -> Result<TailPart, AllocError>
    ensures { IfOk result (λ part.
        IsTailPart part (map Character (characters_of mode bytes.now))) }
{
    let text = characters(alloc, mode, bytes)?;
    let is_white = is_white_text(text.as_bytes());
    if is_white {
        return Ok(TailPart::Between);
    }
    Ok(TailPart::Other)
}

fn is_body(name: &[u8]) -> bool
    ensures { result ≡ bytes_eq name.now (codes "body") }
{
    name == b"body".as_slice()
}

fn is_html(name: &[u8]) -> bool
    ensures { result ≡ bytes_eq name.now (codes "html") }
{
    name == b"html".as_slice()
}

// What an end tag of this name is.
fn named_part(name: &[u8]) -> TailPart
    ensures { IsTailPart result (EndTag name.now ∷ []) }
{
    let is_body = is_body(name);
    if is_body {
        return TailPart::BodyEnd;
    }
    let is_html = is_html(name);
    if is_html {
        return TailPart::HtmlEnd;
    }
    TailPart::Other
}

fn end_tag_part(alloc: Global, bytes: &[u8]) -> Result<TailPart, AllocError>
    ensures { IfOk result (λ part. (mode : Mode) (tokens : List HtmlToken) →
        IsWhole mode bytes.now tokens → IsEndTag tokens → IsTailPart part tokens) }
{
    let parts = tag_parts(alloc, bytes)?;
    let name = lower_name(alloc, parts.name)?;
    Ok(named_part(name.as_bytes()))
}

// What a part is.
fn tail_part(alloc: Global, part: Part<'_>) -> Result<TailPart, AllocError>
    ensures { IfOk result (λ tail. (p : Piece) → IsPieceOf (part_view part.entry) p →
        IsTailPart tail p.tokens) }
{
    match part.kind {
        TokenKind::Text => text_part(alloc, part.mode, part.bytes),
        TokenKind::EndTag => end_tag_part(alloc, part.bytes),
        TokenKind::Comment => Ok(TailPart::Between),
        TokenKind::Nothing => Ok(TailPart::Between),
        TokenKind::StartTag => Ok(TailPart::Other),
        TokenKind::Doctype => Ok(TailPart::Other),
    }
}

// Whether a part may stand in a tail.
fn is_in_tail(part: TailPart) -> bool
    ensures { result ≡ is_in_tail part }
{
    !matches!(part, TailPart::Other)
}

// The tail of what stands behind a part that is in it, and of that part.
fn with_part(tail: Tail, part: TailPart, place: usize) -> Tail
    ensures { result ≡ with_part tail part place }
{
    match part {
        TailPart::BodyEnd => Tail {
            body: End {
                place,
                is_own: true,
            },
            html: tail.html,
        },
        TailPart::HtmlEnd => Tail {
            body: End {
                place,
                is_own: false,
            },
            html: End {
                place,
                is_own: true,
            },
        },
        TailPart::Between => tail,
        TailPart::Other => tail,
    }
}

// The tail of a page.
pub(crate) fn tail_of(alloc: Global, page: &[u8], tokens: &[Token]) -> Result<Tail, AllocError>
    requires { AreTokensOf page.now tokens.now }
    ensures { IfOk result (λ tail. IsTailFrom 0 (runs (pieces page.now)) tail) }
{
    let end = End {
        place: tokens.len(),
        is_own: false,
    };
    let mut tail = Tail {
        body: end,
        html: end,
    };
    let mut left = tokens.len();
    while left > 0 {
        left -= 1;
        let part = tail_part(alloc, part_at(page, tokens[left]))?;
        let is_in_tail = is_in_tail(part);
        if !is_in_tail {
            return Ok(tail);
        }
        tail = with_part(tail, part, left);
    }
    Ok(tail)
}

// Where an element of this name ends that is open in the tail.
fn end_for(tail: Tail, name: &[u8]) -> End
    ensures { (ps : List Piece) → IsTailFrom 0 ps tail → IsEndFor ps name.now result }
{
    let is_html = is_html(name);
    if is_html {
        return tail.html;
    }
    End {
        place: tail.body.place,
        is_own: tail.body.is_own && is_body(name),
    }
}

// An element of a page of so many tokens, up to its tail.
fn up_to_tail<'p>(
    alloc: Global,
    element: Element<'p>,
    tail: Tail,
    len: usize,
) -> Result<Element<'p>, AllocError>
    ensures { IfOk result (λ new. (ps : List Piece) → IsTailFrom 0 ps tail → length ps ≡ len →
        element_view new ≡ up_to_tail ps (element_view element.entry)) }
{
    let ends_page = element.end == len;
    if !ends_page {
        return Ok(element);
    }
    let name = lower_name(alloc, element.name)?;
    let end = end_for(tail, name.as_bytes());
    Ok(Element {
        name: element.name,
        start: element.start,
        end: end.place,
        has_end_tag: end.is_own,
    })
}

// Adds an element.
fn push<'p>(element: Element<'p>, out: &mut Vec<Element<'p>>) -> Result<(), AllocError>
    ensures { OnOk result (elements_view out.new.items
        ≡ elements_view out.old.items ++ element_view element.entry ∷ []) }
{
    out.push(element)?;
    Ok(())
}

// Each of these elements up to the tail.
fn all_up_to_tail<'p>(
    alloc: Global,
    elements: &[Element<'p>],
    tail: Tail,
    len: usize,
) -> Result<Vec<Element<'p>>, AllocError>
    ensures { IfOk result (λ new. (ps : List Piece) → IsTailFrom 0 ps tail → length ps ≡ len →
        elements_view new.items ≡ map (up_to_tail ps) (elements_view elements.now)) }
{
    let mut out = Vec::with_capacity(alloc, elements.len())?;
    for at in 0..elements.len() {
        let element = up_to_tail(alloc, elements[at], tail, len)?;
        push(element, &mut out)?;
    }
    Ok(out)
}

// The tokens of a page, and its elements up to its tail, in the order in which they end.
pub(crate) fn elements_up_to_tail(
    alloc: Global,
    page: &[u8],
) -> Result<PageElements<'_>, AllocError>
    ensures tokens { IfOk result (λ found. AreTokensOf page.now found.tokens.items) }
    ensures elements { IfOk result (λ found. elements_view found.elements.items
        ≡ elements_up_to_tail (runs (pieces page.now))) }
{
    let mut found = elements(alloc, page)?;
    let tokens = found.tokens.as_slice();
    let tail = tail_of(alloc, page, tokens)?;
    let len = tokens.len();
    found.elements = all_up_to_tail(alloc, found.elements.as_slice(), tail, len)?;
    Ok(found)
}
