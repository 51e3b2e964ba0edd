//! Bytes, names and values, put into a store: in the page where they stand there as they are meant,
//! else in the side buffer.
ghost use Rattle.std.specs.Prelude.{Err, IfOk, IsTrue, drop, length, take, ◌+◌, ◌^◌, ◌≡◌, ◌≤◌};
ghost use Rattle.std.specs.Bool.{OnTrue};
ghost use Rattle.tl_html_parts.specs.Parts.{name_of, value_of};
ghost use Rattle.tl_html_parts.specs.Places.{IsPart, part_in};
ghost use Rattle.tl_tree.specs.Inner.Store.{Grows, bytes_of, is_span};

use crate::error::GrowError;
use crate::span::Span;
use crate::store::Store;
use std::alloc::Global;
use tl_html_parts::{PartPlace, characters, lower_name};
use tl_html_tokens::Mode;
use tl_text::unescape_value;

// Whether bytes stand at a place of a page.
fn stands_at(page: &[u8], place: usize, bytes: &[u8]) -> bool
    ensures within { OnTrue result (place + length bytes.now ≤ length page.now) }
    ensures stands { OnTrue result (take (length bytes.now) (drop place page.now) ≡ bytes.now) }
{
    if place > page.len() || bytes.len() > page.len() - place {
        return false;
    }
    &page[place..place + bytes.len()] == bytes
}

/// Bytes that may stand at a place of the page.
pub(crate) fn put_bytes(
    store: &mut Store<'_>,
    place: usize,
    bytes: &[u8],
) -> Result<Span, GrowError>
    ensures stands { IfOk result (λ span. bytes_of store.new span ≡ bytes.now) }
    ensures within { IfOk result (λ span. IsTrue (is_span store.new span)) }
    ensures grows { Grows store.old store.new }
    ensures too_large { result ≡ Err GrowError.TooLarge
        → 2 ^ 32
        ≤ length store.old.page.now + length store.old.side.items + length bytes.now }
{
    if stands_at(store.page, place, bytes) {
        return Ok(Span {
            start: place as u32,
            len: bytes.len() as u32,
        });
    }
    store.add_bytes(bytes)
}

// A part of the page.
#[inline(always)]
fn page_span(store: &Store<'_>, part: PartPlace) -> Span
    requires order { part.start ≤ part.end }
    requires within { part.end ≤ length store.now.page.now }
    ensures stands { bytes_of store.now result ≡ part_in store.now.page.now part }
    ensures within { IsTrue (is_span store.now result) }
{
    Span {
        start: part.start as u32,
        len: (part.end - part.start) as u32,
    }
}

// A name or a key that doesn't stand in the page as it is read.
#[cold]
#[inline(never)]
fn put_lowered(store: &mut Store<'_>, alloc: Global, name: PartPlace) -> Result<Span, GrowError>
    requires { IsPart name_of store.old.page.now name }
    ensures stands { IfOk result (λ span.
        bytes_of store.new span ≡ name_of (part_in store.old.page.now name)) }
    ensures within { IfOk result (λ span. IsTrue (is_span store.new span)) }
    ensures grows { Grows store.old store.new }
{
    let page = store.page;
    let lower = lower_name(alloc, &page[name.start..name.end])?;
    store.add_bytes(lower.as_bytes())
}

/// A name or a key of the page, which is read in lower case.
#[inline(always)]
pub(crate) fn put_name(
    store: &mut Store<'_>,
    alloc: Global,
    name: PartPlace,
) -> Result<Span, GrowError>
    requires { IsPart name_of store.old.page.now name }
    ensures stands { IfOk result (λ span.
        bytes_of store.new span ≡ name_of (part_in store.old.page.now name)) }
    ensures within { IfOk result (λ span. IsTrue (is_span store.new span)) }
    ensures grows { Grows store.old store.new }
{
    if name.is_plain {
        return Ok(page_span(store, name));
    }
    put_lowered(store, alloc, name)
}

// A value that doesn't stand in the page as it is read.
#[cold]
#[inline(never)]
fn put_read(store: &mut Store<'_>, alloc: Global, value: PartPlace) -> Result<Span, GrowError>
    requires { IsPart value_of store.old.page.now value }
    ensures stands { IfOk result (λ span.
        bytes_of store.new span ≡ value_of (part_in store.old.page.now value)) }
    ensures within { IfOk result (λ span. IsTrue (is_span store.new span)) }
    ensures grows { Grows store.old store.new }
{
    let page = store.page;
    // A script has no references, so these are the characters before references are read.
    let clean = characters(alloc, Mode::Script, &page[value.start..value.end])?;
    let said = unescape_value(alloc, clean.as_bytes())?;
    store.add_bytes(said.as_slice())
}

/// A value of the page, of which references are read.
#[inline(always)]
pub(crate) fn put_value(
    store: &mut Store<'_>,
    alloc: Global,
    value: PartPlace,
) -> Result<Span, GrowError>
    requires { IsPart value_of store.old.page.now value }
    ensures stands { IfOk result (λ span.
        bytes_of store.new span ≡ value_of (part_in store.old.page.now value)) }
    ensures within { IfOk result (λ span. IsTrue (is_span store.new span)) }
    ensures grows { Grows store.old store.new }
{
    if value.is_plain {
        return Ok(page_span(store, value));
    }
    put_read(store, alloc, value)
}
