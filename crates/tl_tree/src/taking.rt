//! Tokens of the page, handed to the tree builder.
//!
//! A token is the bytes of its piece, from `start` to `end`.
ghost use Rattle.std.specs.Prelude.{List, OnOk, length, map, ◌≡◌, ◌≤◌};
ghost use Rattle.tl_dom_spec.specs.Builder.{a_character, a_comment, a_doctype, an_end};
ghost use Rattle.tl_dom_spec.specs.Dispatcher.{token_done, tokens_done};
ghost use Rattle.tl_dom_spec.specs.Driver.{builder};
ghost use Rattle.tl_dom_spec.specs.Groups.{group};
ghost use Rattle.tl_dom_spec.specs.Marks.{unmarked};
ghost use Rattle.tl_html_spec.specs.Driven.{Emission, taken};
ghost use Rattle.tl_html_parts.specs.Fronts.{IsTagRead};
ghost use Rattle.tl_html_parts.specs.Parts.{name_of};
ghost use Rattle.tl_names.specs.ElementNames.{name_of as number_of};
ghost use Rattle.tl_html_parts.specs.Places.{AreParts, IsPart};
ghost use Rattle.tl_html_tokens.specs.Characters.{characters_of};
ghost use Rattle.tl_html_tokens.specs.Comments.{comment_of};
ghost use Rattle.tl_html_tokens.specs.Emits.{AreEmits};
ghost use Rattle.tl_html_tokens.specs.declared.mode.Mode.TheVariants.{Data};
ghost use Rattle.tl_tree.specs.Inner.Builders.{builder_of, token_of};
ghost use Rattle.tl_html_tokens.specs.Doctypes.{doctype_said};
ghost use Rattle.tl_tree.specs.Inner.Parted.{end_said, start_said};
ghost use Rattle.tl_tree.specs.Inner.Said.{piece_at};

use crate::builder::Builder;
use crate::entries::AttributeEntry;
use crate::error::GrowError;
use crate::group::group_of;
use crate::lowered::are_same;
use crate::token::Token;
use std::alloc::Global;
use tl_html_parts::{AttributePlace, PartPlace, TagFront, lower_name};
use tl_html_tokens::{Mode, TokenKind};
use tl_names::element_name::ElementName;

impl<'a> Builder<'a> {
    /// Takes a start tag of the page. One that is ignored stands for any other of its group.
    #[inline(always)]
    pub(crate) fn take_start_tag(
        &mut self,
        alloc: Global,
        room: &mut Vec<AttributeEntry>,
        attributes: &[AttributePlace],
        tag: TagFront,
    ) -> Result<(), GrowError>
        requires name { IsPart name_of self.old.path.store.page.now tag.name }
        requires attributes { AreParts self.old.path.store.page.now attributes.now }
        ensures ok { OnOk result (builder_of self.new
            ≡ token_done (builder_of self.old)
            (start_said self.old.path.store.page.now attributes.now tag)) }
        ensures page { (token_of self.new).page ≡ (token_of self.old).page }
    {
        let closes = tag.closes;
        if let Some(group) = self.ignored_group(tag.name) {
            return self.take_token(Token::Start { group, closes });
        }
        let number = self.add_start_tag(alloc, room, tag.name, attributes)?;
        self.set_tag(number);
        let group = self.held_group();
        self.take_token(Token::Start { group, closes })
    }

    pub(crate) fn take_comment(
        &mut self,
        alloc: Global,
        start: usize,
        end: usize,
    ) -> Result<(), GrowError>
        requires order { start ≤ end }
        requires within { end ≤ length self.old.path.store.page.now }
        ensures ok { OnOk result (builder_of self.new
            ≡ token_done (builder_of self.old)
            (a_comment (unmarked (comment_of (piece_at self.old.path.store.page.now start end))))) }
        ensures page { (token_of self.new).page ≡ (token_of self.old).page }
    {
        let text = self.add_comment(alloc, start, end)?;
        self.set_text(text);
        self.set_source();
        self.take_token(Token::Comment)
    }

    pub(crate) fn take_doctype(
        &mut self,
        alloc: Global,
        start: usize,
        end: usize,
    ) -> Result<(), GrowError>
        requires order { start ≤ end }
        requires within { end ≤ length self.old.path.store.page.now }
        ensures ok { OnOk result (builder_of self.new
            ≡ token_done (builder_of self.old)
            (a_doctype
            (unmarked (doctype_said (piece_at self.old.path.store.page.now start end))))) }
        ensures page { (token_of self.new).page ≡ (token_of self.old).page }
    {
        let doctype = self.add_doctype_of(alloc, start, end)?;
        self.set_doctype(doctype);
        self.set_source();
        self.take_token(Token::Doctype)
    }

    /// A text, which is read in this mode.
    pub(crate) fn take_text(
        &mut self,
        alloc: Global,
        mode: Mode,
        start: usize,
        end: usize,
    ) -> Result<(), GrowError>
        requires order { start ≤ end }
        requires within { end ≤ length self.old.path.store.page.now }
        ensures ok { OnOk result (builder_of self.new
            ≡ tokens_done (builder_of self.old)
            (map a_character
            (characters_of mode (piece_at self.old.path.store.page.now start end)))) }
        ensures page { (token_of self.new).page ≡ (token_of self.old).page }
    {
        let text = self.add_text(alloc, mode, start, end)?;
        self.take_run(text)
    }

    // The number of a name, which is mostly that of the current node.
    #[inline(always)]
    fn known_name(&self, name: &[u8]) -> ElementName
        ensures { result ≡ number_of name.now }
    {
        let own = self.path.store.tag(self.path.top().tag);
        if are_same(name, self.path.store.bytes(own.name)) {
            return own.known;
        }
        ElementName::of(name)
    }

    // An end tag of a name.
    #[inline(always)]
    fn take_end(&mut self, name: &[u8]) -> Result<(), GrowError>
        ensures ok { OnOk result (builder_of self.new
            ≡ token_done (builder_of self.old) (an_end (group name.now) name.now)) }
        ensures page { (token_of self.new).page ≡ (token_of self.old).page }
    {
        let group = group_of(self.known_name(name));
        self.take_token(Token::End { group, name })
    }

    /// Takes an end tag of the page, whose name stands there.
    #[inline(always)]
    pub(crate) fn take_end_tag(&mut self, alloc: Global, name: PartPlace) -> Result<(), GrowError>
        requires { IsPart name_of self.old.path.store.page.now name }
        ensures ok { OnOk result (builder_of self.new
            ≡ token_done (builder_of self.old)
            (end_said self.old.path.store.page.now name)) }
        ensures page { (token_of self.new).page ≡ (token_of self.old).page }
    {
        let page = self.path.store.page;
        let raw = &page[name.start..name.end];
        if name.is_plain {
            return self.take_end(raw);
        }
        let lower = lower_name(alloc, raw)?;
        self.take_end(lower.as_bytes())
    }

    /// Takes a tag that stands in front at a place, where markup is read.
    #[inline(always)]
    pub(crate) fn take_tag(
        &mut self,
        alloc: Global,
        room: &mut Vec<AttributeEntry>,
        start: usize,
        attributes: &[AttributePlace],
        tag: TagFront,
    ) -> Result<(), GrowError>
        requires { IsTagRead self.old.path.store.page.now start attributes.now tag }
        ensures ok { OnOk result ((emits : List Emission) →
            AreEmits Data (piece_at self.old.path.store.page.now start tag.end) tag.kind emits →
            builder_of self.new ≡ taken builder (builder_of self.old) emits) }
        ensures page { (token_of self.new).page ≡ (token_of self.old).page }
    {
        match tag.kind {
            TokenKind::StartTag => self.take_start_tag(alloc, room, attributes, tag),
            TokenKind::EndTag => self.take_end_tag(alloc, tag.name),
            _ => Ok(()),
        }
    }
}
