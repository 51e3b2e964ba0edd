//! What a token of the page says, held by the builder while it is processed.
ghost use Rattle.std.specs.Prelude.{IfOk, IsTrue, Some, length, ◌<◌, ◌≡◌, ◌≤◌};
ghost use Rattle.tl_dom_spec.specs.Groups.{group};
ghost use Rattle.tl_dom_spec.specs.Tags.{has_value, html_tag};
ghost use Rattle.tl_html_parts.specs.Parts.{attributes_of, name_of};
ghost use Rattle.tl_html_parts.specs.Places.{AreParts, IsPart, pairs_in, part_in};
ghost use Rattle.tl_html_tokens.specs.Characters.{characters_of};
ghost use Rattle.tl_html_tokens.specs.Comments.{comment_of};
ghost use Rattle.tl_tree.specs.Inner.Builders.{builder_of, token_of};
ghost use Rattle.tl_html_tokens.specs.Doctypes.{doctype_said};
ghost use Rattle.tl_tree.specs.Inner.GroupNames.{group_view};
ghost use Rattle.tl_tree.specs.Inner.Said.{piece_at};
ghost use Rattle.tl_tree.specs.Inner.Store.{bytes_of, doctype_at, is_span, is_tag_number, tag_at};

use crate::builder::Builder;
use crate::entries::AttributeEntry;
use crate::error::GrowError;
use crate::group::{Group, group_of};
use crate::integration::has_value;
use crate::span::Span;
use crate::store::Store;
use std::alloc::Global;
use tl_html_parts::{AttributePlace, PartPlace};
use tl_html_tokens::Mode;

/// The group of the name of a tag.
pub(crate) fn tag_group(store: &Store<'_>, number: u32) -> Group
    requires { IsTrue (is_tag_number store.now number) }
    ensures { group_view result ≡ group (tag_at store.now number).name }
{
    let tag = store.tag(number);
    group_of(tag.known)
}

impl<'a> Builder<'a> {
    /// Puts a start tag of the page in the store, with its number.
    pub(crate) fn add_start_tag(
        &mut self,
        alloc: Global,
        room: &mut Vec<AttributeEntry>,
        name: PartPlace,
        attributes: &[AttributePlace],
    ) -> Result<u32, GrowError>
        requires name { IsPart name_of self.old.path.store.page.now name }
        requires attributes { AreParts self.old.path.store.page.now attributes.now }
        ensures ok { builder_of self.new ≡ builder_of self.old }
        ensures token { token_of self.new ≡ token_of self.old }
        ensures tag { IfOk result (λ number. tag_at self.new.path.store number
            ≡ record (html_tag (name_of (part_in self.old.path.store.page.now name))
            (attributes_of (pairs_in self.old.path.store.page.now attributes.now))) {
              source = Some (builder_of self.old).marks;
            }) }
        ensures number { IfOk result
            (λ number. number < length self.new.path.store.tags.items) }
    {
        let source = self.marks;
        self.path
            .add_start_tag(alloc, room, name, attributes, source)
    }

    /// The text of a page, which is read in this mode, as bytes of the store.
    pub(crate) fn add_text(
        &mut self,
        alloc: Global,
        mode: Mode,
        start: usize,
        end: usize,
    ) -> Result<Span, GrowError>
        requires order { start ≤ end }
        requires within { end ≤ length self.old.path.store.page.now }
        ensures ok { builder_of self.new ≡ builder_of self.old }
        ensures token { token_of self.new ≡ token_of self.old }
        ensures stands { IfOk result (λ span. bytes_of self.new.path.store span
            ≡ characters_of mode (piece_at self.old.path.store.page.now start end)) }
        ensures span { IfOk result (λ span. IsTrue (is_span self.new.path.store span)) }
    {
        self.path.add_text(alloc, mode, start, end)
    }

    /// The data of a comment, as bytes of the store.
    pub(crate) fn add_comment(
        &mut self,
        alloc: Global,
        start: usize,
        end: usize,
    ) -> Result<Span, GrowError>
        requires order { start ≤ end }
        requires within { end ≤ length self.old.path.store.page.now }
        ensures ok { builder_of self.new ≡ builder_of self.old }
        ensures token { token_of self.new ≡ token_of self.old }
        ensures stands { IfOk result (λ span. bytes_of self.new.path.store span
            ≡ comment_of (piece_at self.old.path.store.page.now start end)) }
        ensures span { IfOk result (λ span. IsTrue (is_span self.new.path.store span)) }
    {
        self.path.add_comment(alloc, start, end)
    }

    /// Puts a doctype of the page in the store, and answers its number.
    pub(crate) fn add_doctype_of(
        &mut self,
        alloc: Global,
        start: usize,
        end: usize,
    ) -> Result<u32, GrowError>
        requires order { start ≤ end }
        requires within { end ≤ length self.old.path.store.page.now }
        ensures ok { builder_of self.new ≡ builder_of self.old }
        ensures token { token_of self.new ≡ token_of self.old }
        ensures stands { IfOk result (λ number. doctype_at self.new.path.store number
            ≡ doctype_said (piece_at self.old.path.store.page.now start end)) }
        ensures number { IfOk result
            (λ number. number < length self.new.path.store.doctypes.items) }
    {
        self.path.add_doctype_of(alloc, start, end)
    }

    /// The text that is held: the data of a comment, or a text while it is taken.
    pub(crate) fn set_text(&mut self, text: Span)
        requires { IsTrue (is_span self.old.path.store text) }
        ensures ok { builder_of self.new ≡ builder_of self.old }
        ensures page { (token_of self.new).page ≡ (token_of self.old).page }
        ensures text { (token_of self.new).text ≡ bytes_of self.old.path.store text }
    {
        self.text = text;
    }

    /// The doctype that is held.
    pub(crate) fn set_doctype(&mut self, doctype: u32)
        requires { doctype < length self.old.path.store.doctypes.items }
        ensures ok { builder_of self.new ≡ builder_of self.old }
        ensures page { (token_of self.new).page ≡ (token_of self.old).page }
        ensures doctype { (token_of self.new).doctype
            ≡ doctype_at self.old.path.store doctype }
    {
        self.doctype = doctype;
    }

    /// The token that is held is the next mark.
    #[tactic(auto, unfolding(crate::specs::Inner::Builders::builder_of, crate::specs::Inner::Builders::token_of))]
    pub(crate) fn set_source(&mut self)
        ensures ok { builder_of self.new ≡ builder_of self.old }
        ensures token { token_of self.new
            ≡ record (token_of self.old) { source = (builder_of self.old).marks } }
    {
        self.source = self.marks;
    }

    /// The group of the name of the tag that is held.
    pub(crate) fn held_group(&self) -> Group
        ensures { group_view result ≡ group (token_of self.now).tag.name }
    {
        tag_group(&self.path.store, self.tag)
    }

    /// Whether the tag that is held has an attribute of this key with, in any case, this value.
    pub(crate) fn token_has_value(&self, key: &'static [u8], value: &'static [u8]) -> bool
        ensures { result ≡ has_value key.now value.now (token_of self.now).tag.attributes }
    {
        has_value(&self.path.store, self.tag, key, value)
    }
}
