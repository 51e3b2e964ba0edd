//! What is put in the store of a path: bytes, and what tokens of the page say.
ghost use Rattle.std.specs.Prelude.{IfOk, IsTrue, Some, [], length, ◌<◌, ◌≡◌, ◌≤◌, ◌∷◌};
ghost use Rattle.tl_dom_spec.specs.Tags.{html_tag};
ghost use Rattle.tl_html_parts.specs.Parts.{attributes_of, name_of};
ghost use Rattle.tl_html_parts.specs.Places.{AreParts, IsPart, pairs_in, part_in};
ghost use Rattle.tl_html_tokens.specs.Characters.{characters_of};
ghost use Rattle.tl_html_tokens.specs.Comments.{comment_of};
ghost use Rattle.tl_html_tokens.specs.Doctypes.{doctype_said};
ghost use Rattle.tl_tree.specs.Inner.Said.{piece_at};
ghost use Rattle.tl_tree.specs.Inner.Frames.{path_of};
ghost use Rattle.tl_tree.specs.Inner.Store.{Grows, bytes_of, doctype_at, doctype_of, is_doctype, is_span, tag_at};

use crate::entries::{AttributeEntry, DoctypeEntry, TagEntry};
use crate::error::GrowError;
use crate::path::FramePath;
use crate::said::{comment_data, start_tag, text};
use crate::said_bytes::put_bytes;
use crate::said_doctype::doctype;
use crate::span::Span;
use crate::store::Store;
use std::alloc::Global;
use tl_html_parts::{AttributePlace, PartPlace};
use tl_html_tokens::Mode;

impl<'a> Store<'a> {
    // Puts a start tag of the page in the store, with its number among those of the page.
    fn add_start_tag(
        &mut self,
        alloc: Global,
        room: &mut Vec<AttributeEntry>,
        name: PartPlace,
        attributes: &[AttributePlace],
        source: u32,
    ) -> Result<u32, GrowError>
        requires name { IsPart name_of self.old.page.now name }
        requires attributes { AreParts self.old.page.now attributes.now }
        ensures tag { IfOk result (λ number. tag_at self.new number
            ≡ record (html_tag (name_of (part_in self.old.page.now name))
            (attributes_of (pairs_in self.old.page.now attributes.now))) {
              source = Some source;
            }) }
        ensures number { IfOk result (λ number. number < length self.new.tags.items) }
        ensures grows { Grows self.old self.new }
    {
        let said = start_tag(self, alloc, room, name, attributes)?;
        let Some(next) = source.checked_add(1) else {
            return Err(GrowError::TooLarge);
        };
        self.add_tag(TagEntry {
            start: next,
            ..said
        })
    }

    // Puts a doctype of the page in the store, and answers its number.
    fn add_doctype_of(&mut self, alloc: Global, start: usize, end: usize) -> Result<u32, GrowError>
        requires order { start ≤ end }
        requires within { end ≤ length self.old.page.now }
        ensures stands { IfOk result (λ number. doctype_at self.new number
            ≡ doctype_said (piece_at self.old.page.now start end)) }
        ensures number { IfOk result (λ number. number < length self.new.doctypes.items) }
        ensures grows { Grows self.old self.new }
    {
        let entry = doctype(self, alloc, start, end)?;
        self.add_doctype(entry)
    }
}

impl<'a> FramePath<'a> {
    /// A byte of the text that is this one: that at the hint, or one that is put in.
    pub(crate) fn add_byte(&mut self, byte: u8, hint: u32) -> Result<Span, GrowError>
        ensures stands { IfOk result (λ span. bytes_of self.new.store span ≡ byte ∷ []) }
        ensures within { IfOk result (λ span. IsTrue (is_span self.new.store span)) }
        ensures path { path_of self.new ≡ path_of self.old }
        ensures next { self.new.next ≡ self.old.next }
        ensures grows { Grows self.old.store self.new.store }
    {
        put_bytes(&mut self.store, hint as usize, &[byte])
    }

    /// Puts bytes behind the text.
    pub(crate) fn add_bytes(&mut self, bytes: &[u8]) -> Result<Span, GrowError>
        ensures stands { IfOk result (λ span. bytes_of self.new.store span ≡ bytes.now) }
        ensures within { IfOk result (λ span. IsTrue (is_span self.new.store span)) }
        ensures path { path_of self.new ≡ path_of self.old }
        ensures next { self.new.next ≡ self.old.next }
        ensures grows { Grows self.old.store self.new.store }
    {
        self.store.add_bytes(bytes)
    }

    /// Puts a doctype in the store, and answers its number.
    pub(crate) fn add_doctype(&mut self, doctype: DoctypeEntry) -> Result<u32, GrowError>
        requires { IsTrue (is_doctype self.old.store doctype) }
        ensures stands { IfOk result
            (λ number. doctype_at self.new.store number ≡ doctype_of self.old.store doctype) }
        ensures within { IfOk result (λ number. number < length self.new.store.doctypes.items) }
        ensures path { path_of self.new ≡ path_of self.old }
        ensures next { self.new.next ≡ self.old.next }
        ensures grows { Grows self.old.store self.new.store }
    {
        self.store.add_doctype(doctype)
    }

    /// Puts a start tag of the page in the store, with its number among those of the page.
    pub(crate) fn add_start_tag(
        &mut self,
        alloc: Global,
        room: &mut Vec<AttributeEntry>,
        name: PartPlace,
        attributes: &[AttributePlace],
        source: u32,
    ) -> Result<u32, GrowError>
        requires name { IsPart name_of self.old.store.page.now name }
        requires attributes { AreParts self.old.store.page.now attributes.now }
        ensures tag { IfOk result (λ number. tag_at self.new.store number
            ≡ record (html_tag (name_of (part_in self.old.store.page.now name))
            (attributes_of (pairs_in self.old.store.page.now attributes.now))) {
              source = Some source;
            }) }
        ensures number { IfOk result
            (λ number. number < length self.new.store.tags.items) }
        ensures path { path_of self.new ≡ path_of self.old }
        ensures next { self.new.next ≡ self.old.next }
        ensures grows { Grows self.old.store self.new.store }
    {
        self.store
            .add_start_tag(alloc, room, name, attributes, source)
    }

    /// The characters of a text of the page, which is read in this mode, as bytes of the store.
    pub(crate) fn add_text(
        &mut self,
        alloc: Global,
        mode: Mode,
        start: usize,
        end: usize,
    ) -> Result<Span, GrowError>
        requires order { start ≤ end }
        requires within { end ≤ length self.old.store.page.now }
        ensures stands { IfOk result (λ span. bytes_of self.new.store span
            ≡ characters_of mode (piece_at self.old.store.page.now start end)) }
        ensures span { IfOk result (λ span. IsTrue (is_span self.new.store span)) }
        ensures path { path_of self.new ≡ path_of self.old }
        ensures next { self.new.next ≡ self.old.next }
        ensures grows { Grows self.old.store self.new.store }
    {
        text(&mut self.store, alloc, mode, start, end)
    }

    /// The data of a comment of the page, as bytes of the store.
    pub(crate) fn add_comment(
        &mut self,
        alloc: Global,
        start: usize,
        end: usize,
    ) -> Result<Span, GrowError>
        requires order { start ≤ end }
        requires within { end ≤ length self.old.store.page.now }
        ensures stands { IfOk result (λ span. bytes_of self.new.store span
            ≡ comment_of (piece_at self.old.store.page.now start end)) }
        ensures span { IfOk result (λ span. IsTrue (is_span self.new.store span)) }
        ensures path { path_of self.new ≡ path_of self.old }
        ensures next { self.new.next ≡ self.old.next }
        ensures grows { Grows self.old.store self.new.store }
    {
        comment_data(&mut self.store, alloc, start, end)
    }

    /// Puts a doctype of the page in the store, and answers its number.
    pub(crate) fn add_doctype_of(
        &mut self,
        alloc: Global,
        start: usize,
        end: usize,
    ) -> Result<u32, GrowError>
        requires order { start ≤ end }
        requires within { end ≤ length self.old.store.page.now }
        ensures stands { IfOk result (λ number. doctype_at self.new.store number
            ≡ doctype_said (piece_at self.old.store.page.now start end)) }
        ensures number { IfOk result (λ number. number < length self.new.store.doctypes.items) }
        ensures path { path_of self.new ≡ path_of self.old }
        ensures next { self.new.next ≡ self.old.next }
        ensures grows { Grows self.old.store self.new.store }
    {
        self.store.add_doctype_of(alloc, start, end)
    }
}
