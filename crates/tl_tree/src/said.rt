//! What a token of the page says, put into a store.
//!
//! A token is the bytes of its piece, from `start` to `end`. That these are a piece by themselves
//! (`IsWhole`) is a law of `tl_html_tokens` for tags, and so is that a text and a comment say what
//! is put in here (`characters_of`, `comment_of`).
ghost use Rattle.std.specs.Prelude.{IfOk, IsTrue, length, ◌≡◌, ◌≤◌};
ghost use Rattle.tl_dom_spec.specs.Tags.{html_tag};
ghost use Rattle.tl_html_parts.specs.Parts.{attributes_of, name_of};
ghost use Rattle.tl_html_parts.specs.Places.{AreParts, IsPart, pairs_in, part_in};
ghost use Rattle.tl_html_tokens.specs.Characters.{characters_of};
ghost use Rattle.tl_html_tokens.specs.Comments.{comment_of};
ghost use Rattle.tl_tree.specs.Inner.Said.{piece_at};
ghost use Rattle.tl_tree.specs.Inner.Store.{Grows, bytes_of, is_span, is_tag, tag_of};

use crate::entries::{AttributeEntry, TagEntry};
use crate::error::GrowError;
use crate::said_attributes::{put_attributes, put_tag};
use crate::said_bytes::{put_bytes, put_name};
use crate::span::Span;
use crate::store::Store;
use std::alloc::Global;
use tl_html_parts::{AttributePlace, PartPlace, comment, decoded, is_plain};
use tl_html_tokens::Mode;

/// What a start tag says. The vector is room for its attributes, which the caller keeps.
pub(crate) fn start_tag(
    store: &mut Store<'_>,
    alloc: Global,
    room: &mut Vec<AttributeEntry>,
    name: PartPlace,
    attributes: &[AttributePlace],
) -> Result<TagEntry, GrowError>
    requires name { IsPart name_of store.old.page.now name }
    requires attributes { AreParts store.old.page.now attributes.now }
    ensures tag { IfOk result (λ tag. tag_of store.new tag
        ≡ html_tag (name_of (part_in store.old.page.now name))
        (attributes_of (pairs_in store.old.page.now attributes.now))) }
    ensures within { IfOk result (λ tag. IsTrue (is_tag store.new tag)) }
    ensures grows { Grows store.old store.new }
{
    let name = put_name(store, alloc, name)?;
    put_attributes(store, alloc, room, attributes)?;
    put_tag(store, name, room.as_slice())
}

/// The characters that a text says, which is read in this mode.
pub(crate) fn text(
    store: &mut Store<'_>,
    alloc: Global,
    mode: Mode,
    start: usize,
    end: usize,
) -> Result<Span, GrowError>
    requires order { start ≤ end }
    requires within { end ≤ length store.old.page.now }
    ensures characters { IfOk result (λ span.
        bytes_of store.new span ≡ characters_of mode (piece_at store.old.page.now start end)) }
    ensures within { IfOk result (λ span. IsTrue (is_span store.new span)) }
    ensures grows { Grows store.old store.new }
{
    let bytes = &store.page[start..end];
    if is_plain(mode, bytes) {
        return Ok(Span {
            start: start as u32,
            len: (end - start) as u32,
        });
    }
    let said = decoded(alloc, mode, bytes)?;
    put_bytes(store, start, said.as_bytes())
}

// Where the data of a comment begins, in most.
fn data_place(page: &[u8], start: usize) -> usize
    requires { start ≤ length page.now }
{
    let rest = &page[start..];
    let opening = if rest.starts_with(b"<!--") {
        4
    } else if rest.starts_with(b"<?") {
        1
    } else {
        2
    };
    start.saturating_add(opening)
}

/// The data that a comment says.
pub(crate) fn comment_data(
    store: &mut Store<'_>,
    alloc: Global,
    start: usize,
    end: usize,
) -> Result<Span, GrowError>
    requires order { start ≤ end }
    requires within { end ≤ length store.old.page.now }
    ensures data { IfOk result (λ span.
        bytes_of store.new span ≡ comment_of (piece_at store.old.page.now start end)) }
    ensures within { IfOk result (λ span. IsTrue (is_span store.new span)) }
    ensures grows { Grows store.old store.new }
{
    let page = store.page;
    let said = comment(alloc, &page[start..end])?;
    put_bytes(store, data_place(page, start), said.as_bytes())
}
