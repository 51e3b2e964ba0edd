//! A tag that stands in front of a page, read once.
ghost use Rattle.std.specs.Prelude.{◌≡◌, ◌≤◌, ℕ, IfSome, drop, false, length};
ghost use Rattle.tl_html_parts.specs.Inner.Named.{IsNamed};

use crate::byte_class::{ByteClass, is_at, word_at};
use crate::parts::tag_name;
use crate::place::{AttributePlace, PartPlace};
use crate::tail::{TagPart, tag_part};
use std::alloc::AllocError;
use tl_html_tokens::{Front, TokenKind};

/// A tag that stands in front: what it is, where it ends, and what stands in it.
///
/// It is nothing where the page ends in it.
#[derive(Clone, Copy)]
pub struct TagFront {
    pub kind: TokenKind,
    pub end: usize,
    pub name: PartPlace,
    /// Whether it has the self-closing flag.
    pub closes: bool,
}

// The name of a tag, and whether it is an end tag's.
#[derive(Clone, Copy)]
struct TagName {
    is_end: bool,
    name: PartPlace,
}

// The name of the tag that begins at a place, where markup is read.
fn name_at(page: &[u8], start: usize) -> Option<TagName>
    ensures { IfSome result (λ named. IsNamed page.now start named) }
{
    if !is_at(b'<', page, start) {
        return None;
    }
    let is_end = is_at(b'/', page, start + 1);
    let first = if is_end { start + 2 } else { start + 1 };
    if first >= page.len() || !page[first].is_ascii_alphabetic() {
        return None;
    }
    Some(TagName {
        is_end,
        name: word_at(ByteClass::Name, page, first),
    })
}

// How a tag ends.
#[derive(Clone, Copy)]
struct TagEnd {
    kind: TokenKind,
    end: usize,
}

ghost use Rattle.std.specs.Prelude.{Bool};
ghost use Rattle.tl_html_tokens.specs.Inner.InTag.{IsInTag};
ghost use Rattle.tl_html_parts.specs.Fronts.{IsMarkupFront};
ghost use Rattle.tl_html_parts.specs.Inner.Tail.{begins_blank, begins_key, begins_with};

// The end of a tag at a place where nothing else of it stands.
fn end_at(page: &[u8], at: usize, is_end: bool) -> TagEnd
    requires within { at ≤ length page.now }
    requires key { begins_key (drop at page.now) ≡ false }
    requires blank { begins_blank (drop at page.now) ≡ false }
    ensures { (start : ℕ) → IsInTag page.now start at is_end →
        IsMarkupFront page.now start result.kind result.end }
{
    if at == page.len() {
        return TagEnd {
            kind: TokenKind::Nothing,
            end: at,
        };
    }
    let kind = if is_end {
        TokenKind::EndTag
    } else {
        TokenKind::StartTag
    };
    if page[at] == b'/' {
        return TagEnd { kind, end: at + 2 };
    }
    TagEnd { kind, end: at + 1 }
}

ghost use Rattle.std.specs.Prelude.{IfOk, OnOk};
ghost use Rattle.tl_html_parts.specs.Inner.Named.{IsEnding};
ghost use Rattle.tl_html_parts.specs.Places.{AreParts, pairs_in};
ghost use Rattle.tl_html_parts.specs.Rest.{HasRest};

// Where what ends a tag stands, whose attributes are put in the place of those in a list.
fn read_attributes(
    text: &[u8],
    from: usize,
    attributes: &mut Vec<AttributePlace>,
) -> Result<usize, AllocError>
    requires { from ≤ length text.now }
    ensures rest { IfOk result (λ at. HasRest (drop from text.now)
        (pairs_in text.now attributes.new.items) (begins_with 47 (drop at text.now))) }
    ensures parts { OnOk result (AreParts text.now attributes.new.items) }
    ensures end { IfOk result (λ at. IsEnding text.now from at) }
{
    attributes.clear();
    let mut at = from;
    loop {
        match tag_part(text, at) {
            TagPart::Attribute(found) => {
                attributes.push(found)?;
                at = found.end;
            }
            TagPart::End(place) => return Ok(place),
        }
    }
}

ghost use Rattle.tl_html_parts.specs.Fronts.{IsTagRead};

/// The tag that stands in front at a place of a page where markup is read, if a name begins there.
/// Its attributes are put in the place of those in the list.
pub fn next_tag(
    page: &[u8],
    start: usize,
    attributes: &mut Vec<AttributePlace>,
) -> Result<Option<TagFront>, AllocError>
    ensures { IfOk result (λ found.
        IfSome found (IsTagRead page.now start attributes.new.items)) }
{
    let Some(named) = name_at(page, start) else {
        return Ok(None);
    };
    let at = read_attributes(page, named.name.end, attributes)?;
    let found = end_at(page, at, named.is_end);
    Ok(Some(TagFront {
        kind: found.kind,
        end: found.end,
        name: named.name,
        closes: is_at(b'/', page, at),
    }))
}

ghost use Rattle.tl_html_tokens.specs.declared.mode.Mode.{Mode};
ghost use Rattle.tl_html_parts.specs.Fronts.{IsTagSaid};

/// The parts of a tag that stands in front at a place of a page, in whatever mode. Its attributes
/// are put in the place of those in the list.
pub fn front_parts(
    page: &[u8],
    start: usize,
    front: Front,
    attributes: &mut Vec<AttributePlace>,
) -> Result<TagFront, AllocError>
    ensures said { IfOk result (λ tag. (mode : Mode) → start ≤ front.end →
        front.end ≤ length page.now →
        IsTagSaid page.now start mode attributes.new.items tag) }
    ensures kind { IfOk result (λ tag. tag.kind ≡ front.kind) }
    ensures end { IfOk result (λ tag. tag.end ≡ front.end) }
{
    let text = &page[..front.end.min(page.len())];
    let name = tag_name(text, start);
    let at = read_attributes(text, name.end, attributes)?;
    Ok(TagFront {
        kind: front.kind,
        end: front.end,
        name,
        closes: is_at(b'/', text, at),
    })
}
