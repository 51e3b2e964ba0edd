//! What a doctype says, put into a store.
ghost use Rattle.std.specs.Option.{option_map};
ghost use Rattle.std.specs.Prelude.{IfOk, IsTrue, drop, length, ◌≡◌, ◌≤◌};
ghost use Rattle.tl_html_doctype.specs.Doctyping.{doctyping_of, id_of};
ghost use Rattle.tl_html_tokens.specs.Doctypes.{doctype_at, doctype_said};
ghost use Rattle.tl_tree.specs.Inner.Said.{piece_at};
ghost use Rattle.tl_tree.specs.Inner.Store.{Grows, bytes_of, doctype_of, is_doctype};
ghost use Rattle.tl_tree.specs.Inner.Within.{id_is_within};

use crate::entries::DoctypeEntry;
use crate::error::GrowError;
use crate::said_bytes::put_bytes;
use crate::span::Span;
use crate::store::Store;
use memchr::memchr2;
use std::alloc::Global;
use tl_html_doctype::{DoctypeReader, Identifier};

// What stands after `<!doctype`.
fn after_keyword(bytes: &[u8]) -> &[u8]
    ensures { result.now ≡ drop 9 bytes.now }
{
    if bytes.len() < 9 {
        return &[];
    }
    &bytes[9..]
}

fn put_identifier(
    store: &mut Store<'_>,
    identifier: &Identifier,
    place: usize,
) -> Result<Option<Span>, GrowError>
    ensures stands { IfOk result (λ id. option_map (bytes_of store.new) id ≡ id_of identifier.now) }
    ensures within { IfOk result (λ id. IsTrue
        (id_is_within (length store.new.page.now) (length store.new.side.items) id)) }
    ensures grows { Grows store.old store.new }
{
    if !identifier.is_there {
        return Ok(None);
    }
    let span = put_bytes(store, place, identifier.bytes.as_slice())?;
    Ok(Some(span))
}

// Past the first quote from a place on, or the end of the text.
fn after_quote(text: &[u8], from: usize) -> usize
    ensures { result ≤ length text.now }
{
    if from >= text.len() {
        return text.len();
    }
    match memchr2(b'"', b'\'', &text[from..]) {
        Some(at) => from + at + 1,
        None => text.len(),
    }
}

// Where the identifiers of a doctype may stand in its bytes: after its quotes.
fn identifier_places(bytes: &[u8], reader: &DoctypeReader) -> (usize, usize) {
    let first = after_quote(bytes, 0);
    if !reader.public_id.is_there {
        return (first, first);
    }
    let public_end = first.saturating_add(reader.public_id.bytes.len());
    (first, after_quote(bytes, public_end.saturating_add(1)))
}

// A doctype that is read, of a piece that begins in the page at this place.
fn put_doctype(
    store: &mut Store<'_>,
    reader: &DoctypeReader,
    is_whole: bool,
    start: usize,
    places: (usize, usize),
) -> Result<DoctypeEntry, GrowError>
    ensures stands { IfOk result (λ entry.
        doctype_of store.new entry ≡ doctype_at is_whole (doctyping_of reader.now)) }
    ensures within { IfOk result (λ entry. IsTrue (is_doctype store.new entry)) }
    ensures grows { Grows store.old store.new }
{
    // Most have one blank before their name.
    let name = put_bytes(store, start.saturating_add(10), reader.name.as_slice())?;
    let public_at = start.saturating_add(places.0);
    let public_id = put_identifier(store, &reader.public_id, public_at)?;
    let system_at = start.saturating_add(places.1);
    let system_id = put_identifier(store, &reader.system_id, system_at)?;
    Ok(DoctypeEntry {
        name,
        public_id,
        system_id,
        forces_quirks: reader.asks_for_quirks(is_whole),
    })
}

/// The parts that a doctype says.
pub(crate) fn doctype(
    store: &mut Store<'_>,
    alloc: Global,
    start: usize,
    end: usize,
) -> Result<DoctypeEntry, GrowError>
    requires order { start ≤ end }
    requires within { end ≤ length store.old.page.now }
    ensures doctype { IfOk result (λ entry. doctype_of store.new entry
        ≡ doctype_said (piece_at store.old.page.now start end)) }
    ensures within { IfOk result (λ entry. IsTrue (is_doctype store.new entry)) }
    ensures grows { Grows store.old store.new }
{
    let page = store.page;
    let bytes = &page[start..end];
    let mut reader = DoctypeReader::new(alloc);
    let is_whole = reader.read(after_keyword(bytes))?;
    let places = identifier_places(bytes, &reader);
    put_doctype(store, &reader, is_whole, start, places)
}
