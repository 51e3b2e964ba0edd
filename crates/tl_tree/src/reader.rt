//! A page or a fragment is read: its tokens, one at a time, are handed to the tree builder.
ghost use Rattle.std.specs.Prelude.{length, ◌≡◌, ◌≤◌};

use crate::builder::{Builder, Flags};
use crate::context::Context;
use crate::entries::AttributeEntry;
use crate::error::{GrowError, ReadError};
use crate::places::Places;
use crate::source::{begun, keep_source};
use crate::test::Test;
use crate::token::Token;
use crate::tree::Tree;
use std::alloc::{AllocError, Global};
use tl_html_parts::{AttributePlace, TagFront, front_parts, next_tag, with_feeds};
use tl_html_tokens::{Front, Mode, Section, TokenKind, mark_len, next_section, next_token};

/// How far a page is read, and what is built of it.
#[derive(Drop)]
pub(crate) struct Reader<'p> {
    pub(crate) builder: Builder<'p>,
    pub(crate) page: &'p [u8],
    pub(crate) at: usize,
    /// How the tokenizer goes on there.
    pub(crate) mode: Mode,
    /// Where the page begins, and where the marks stand that were taken.
    pub(crate) sources: Places,
    /// Room for the attributes of a tag.
    pub(crate) room: Vec<AttributeEntry>,
    pub(crate) alloc: Global,
    ghost within: { at ≤ length page.now },
    ghost same: { builder.path.store.page.now ≡ page.now },
}

impl<'a> Builder<'a> {
    ghost use Rattle.std.specs.Prelude.{List, OnOk, not};
    ghost use Rattle.tl_dom_spec.specs.Builder.{adjusted_current_node};
    ghost use Rattle.tl_dom_spec.specs.Driver.{builder};
    ghost use Rattle.tl_dom_spec.specs.HtmlTree.{is_little};
    ghost use Rattle.tl_dom_spec.specs.Tags.{is_html};
    ghost use Rattle.tl_html_spec.specs.Driven.{Emission, taken};
    ghost use Rattle.tl_html_tokens.specs.Driving.{state_set};
    ghost use Rattle.tl_html_tokens.specs.Emits.{AreEmits};
    ghost use Rattle.tl_html_tokens.specs.Modes.{state_of};
    ghost use Rattle.tl_tree.specs.Inner.Builders.{builder_of, token_of};
    ghost use Rattle.tl_tree.specs.Inner.Said.{piece_at};

    /// Whether the adjusted current node is no HTML element.
    pub(crate) fn is_foreign(&self) -> bool
        ensures { result ≡ not (is_html (adjusted_current_node (builder_of self.now))) }
    {
        !crate::integration::is_html(&self.path.store, self.adjusted_tag())
    }

    /// How the tokenizer goes on behind what stood in front, which was taken.
    #[tactic(auto, unfolding(crate::specs::Inner::Builders::builder_of))]
    fn mode_behind(&self, front: Front) -> Mode
        ensures { state_of result ≡ state_set builder (builder_of self.now) front }
    {
        match front.kind {
            TokenKind::StartTag => self.reads,
            _ => front.mode,
        }
    }

    /// Whether few enough elements were put in that no start tag stands for.
    #[tactic(auto, unfolding(crate::specs::Inner::Builders::builder_of))]
    pub(crate) fn is_little(&self) -> bool
        ensures { result ≡ is_little (builder_of self.now).excess }
    {
        self.excess <= 65536
    }

    /// Takes what stands in front at a place, which is read in this mode.
    pub(crate) fn take_front(
        &mut self,
        alloc: Global,
        room: &mut Vec<AttributeEntry>,
        places: &mut Vec<AttributePlace>,
        mode: Mode,
        start: usize,
        front: Front,
    ) -> Result<(), GrowError>
        requires order { start ≤ front.end }
        requires within { front.end ≤ length self.old.path.store.page.now }
        ensures ok { OnOk result ((emits : List Emission) →
            AreEmits mode (piece_at self.old.path.store.page.now start front.end) front.kind emits →
            builder_of self.new ≡ taken builder (builder_of self.old) emits) }
        ensures page { (token_of self.new).page ≡ (token_of self.old).page }
    {
        let page = self.path.store.page;
        match front.kind {
            TokenKind::Text => self.take_text(alloc, mode, start, front.end),
            TokenKind::StartTag => {
                let tag = front_parts(page, start, front, places)?;
                self.take_start_tag(alloc, room, places.as_slice(), tag)
            }
            TokenKind::EndTag => {
                let tag = front_parts(page, start, front, places)?;
                self.take_end_tag(alloc, tag.name)
            }
            TokenKind::Comment => self.take_comment(alloc, start, front.end),
            TokenKind::Doctype => self.take_doctype(alloc, start, front.end),
            TokenKind::Nothing => Ok(()),
        }
    }
}

ghost use Rattle.std.specs.Prelude.{IfOk, IfSome};
ghost use Rattle.tl_html_parts.specs.Fronts.{IsTagRead};

// The tag that stands in front at a place of a page, where markup is read.
fn tag_in_front(
    page: &[u8],
    at: usize,
    mode: Mode,
    places: &mut Vec<AttributePlace>,
) -> Result<Option<TagFront>, AllocError>
    ensures mode { IfOk result (λ found. IfSome found (λ tag. mode ≡ Mode.Data)) }
    ensures read { IfOk result
        (λ found. IfSome found (IsTagRead page.now at places.new.items)) }
{
    let Mode::Data = mode else {
        return Ok(None);
    };
    next_tag(page, at, places)
}

impl<'p> Reader<'p> {
    ghost use Rattle.std.specs.Prelude.{Err, None, OnOk, ◌+◌, ◌<◌, ◌^◌, false, true, ℕ};
    ghost use Rattle.tl_dom_spec.specs.Builder.{end_of_file};
    ghost use Rattle.tl_dom_spec.specs.Dispatcher.{token_done};
    ghost use Rattle.tl_dom_spec.specs.Driver.{builder};
    ghost use Rattle.tl_dom_spec.specs.HtmlTree.{fragment_read, is_little, page_read, trees_in};
    ghost use Rattle.tl_dom_spec.specs.Path.{popped_to, top};
    ghost use Rattle.tl_html_tokens.specs.Driving.{opens_section};
    ghost use Rattle.tl_html_tokens.specs.Fronts.{IsFront};
    ghost use Rattle.tl_html_tokens.specs.Sections.{IsSection, begin_len};
    ghost use Rattle.tl_tree.specs.Contexts.{context_of};
    ghost use Rattle.tl_tree.specs.Inner.Builders.{builder_of, flags_of};
    ghost use Rattle.tl_tree.specs.Inner.Frames.{test_of};
    ghost use Rattle.tl_tree.specs.Inner.Reading.{left_of};
    ghost use Rattle.tl_tree.specs.Inner.Sourced.{AreSources, IsSourced, TakesNext};
    ghost use Rattle.tl_tree.specs.Rows.{rows_of};
    ghost use Rattle.tl_tree.specs.Sources.{IsOutOfProportionAt, Reached, bounds_in, fragment_begin, page_begin};
    ghost use Rattle.tl_tree.specs.TreeView.{rows_in};

    /// Before the first token of a page.
    pub(crate) fn new(alloc: Global, page: &'p [u8], flags: Flags) -> Result<Reader<'p>, GrowError>
        ensures left { IfOk result (λ reader.
            token_done (left_of reader) end_of_file ≡ page_read (flags_of flags) page.now) }
        ensures sources { IfOk result (λ reader.
            IsSourced (page_begin (flags_of flags) page.now) reader) }
        ensures little { IfOk result
            (λ reader. is_little (builder_of reader.builder).excess ≡ true) }
        ensures page { IfOk result (λ reader. reader.page.now ≡ page.now) }
    {
        let at = mark_len(page);
        // These first: what is owned at a `?` is dropped there, and the builder has far more.
        let sources = begun(alloc, page.len() / 16, at)?;
        let builder = Builder::new(alloc, page, flags)?;
        Ok(Reader {
            builder,
            page,
            at,
            mode: Mode::Data,
            sources,
            room: Vec::new(alloc),
            alloc,
        })
    }

    /// Before the first token of a fragment.
    pub(crate) fn for_fragment(
        alloc: Global,
        text: &'p [u8],
        context: Context<'_>,
        flags: Flags,
    ) -> Result<Reader<'p>, GrowError>
        ensures left { IfOk result (λ reader. token_done (left_of reader) end_of_file
            ≡ fragment_read (flags_of flags) (context_of context.entry) text.now) }
        ensures sources { IfOk result (λ reader.
            IsSourced (fragment_begin (flags_of flags) (context_of context.entry)) reader) }
        ensures little { IfOk result
            (λ reader. is_little (builder_of reader.builder).excess ≡ true) }
        ensures page { IfOk result (λ reader. reader.page.now ≡ text.now) }
    {
        let sources = begun(alloc, 0, 0)?;
        let builder = Builder::for_fragment(alloc, text, context, flags)?;
        Ok(Reader {
            builder,
            page: text,
            at: 0,
            mode: context.mode(flags),
            sources,
            room: Vec::new(alloc),
            alloc,
        })
    }

    // The CDATA section that stands here, in foreign content.
    fn section(&self) -> Option<Section>
        ensures section { IfSome result
            (λ section. IsSection self.now.page.now self.now.at section) }
        ensures begin { IfSome result (λ section. self.now.at + begin_len ≤ section.text_end) }
        ensures order { IfSome result (λ section. section.text_end ≤ section.end) }
        ensures within { IfSome result (λ section. section.end ≤ length self.now.page.now) }
        ensures foreign { IfSome result
            (λ section. builder.is_foreign (builder_of self.now.builder) ≡ true) }
        ensures mode { IfSome result (λ section. self.now.mode ≡ Mode.Data) }
        ensures none { result ≡ None
            → opens_section builder (builder_of self.now.builder) self.now.page.now self.now.at
            self.now.mode ≡ false }
    {
        let Mode::Data = self.mode else {
            return None;
        };
        // This tells most tokens, without a look at the builder.
        let [b'<', b'!', ..] = &self.page[self.at..] else {
            return None;
        };
        if !self.builder.is_foreign() {
            return None;
        }
        next_section(self.page, self.at)
    }

    // Takes a CDATA section.
    fn take_section(&mut self, section: Section) -> Result<(), GrowError>
        requires section { IsSection self.old.page.now self.old.at section }
        requires begin { self.old.at + begin_len ≤ section.text_end }
        requires order { section.text_end ≤ section.end }
        requires within { section.end ≤ length self.old.page.now }
        requires foreign { builder.is_foreign (builder_of self.old.builder) ≡ true }
        requires mode { self.old.mode ≡ Mode.Data }
        ensures ok { OnOk result (left_of self.new ≡ left_of self.old) }
        ensures sources { OnOk result (TakesNext self.old self.new) }
        ensures further { OnOk result (self.old.at < self.new.at) }
        ensures page { self.new.page.now ≡ self.old.page.now }
    {
        let text = with_feeds(self.alloc, &self.page[self.at + 9..section.text_end])?;
        let span = self.builder.add_bytes(text.as_bytes())?;
        self.builder.take_run(span)?;
        self.at = section.end;
        Ok(())
    }

    // Takes what stands in front here.
    fn take_token(
        &mut self,
        places: &mut Vec<AttributePlace>,
        front: Front,
    ) -> Result<(), GrowError>
        requires front { IsFront self.old.page.now self.old.at self.old.mode front }
        requires open { opens_section builder (builder_of self.old.builder) self.old.page.now
            self.old.at self.old.mode ≡ false }
        ensures ok { OnOk result (left_of self.new ≡ left_of self.old) }
        ensures sources { OnOk result (TakesNext self.old self.new) }
        ensures further { OnOk result (self.old.at < self.new.at) }
        ensures page { self.new.page.now ≡ self.old.page.now }
    {
        let start = self.at;
        keep_source(&mut self.sources, start, front)?;
        self.builder.take_front(self.alloc, &mut self.room, places, self.mode, start, front)?;
        self.mode = self.builder.mode_behind(front);
        self.at = front.end;
        Ok(())
    }

    // Takes a tag that stands in front here.
    fn take_tag(&mut self, places: &[AttributePlace], tag: TagFront) -> Result<(), GrowError>
        requires read { IsTagRead self.old.page.now self.old.at places.now tag }
        requires mode { self.old.mode ≡ Mode.Data }
        requires open { opens_section builder (builder_of self.old.builder) self.old.page.now
            self.old.at self.old.mode ≡ false }
        ensures ok { OnOk result (left_of self.new ≡ left_of self.old) }
        ensures sources { OnOk result (TakesNext self.old self.new) }
        ensures further { OnOk result (self.old.at < self.new.at) }
        ensures page { self.new.page.now ≡ self.old.page.now }
    {
        let front = Front {
            kind: tag.kind,
            end: tag.end,
            mode: Mode::Data,
        };
        keep_source(&mut self.sources, self.at, front)?;
        self.builder
            .take_tag(self.alloc, &mut self.room, self.at, places, tag)?;
        self.mode = self.builder.mode_behind(front);
        self.at = front.end;
        Ok(())
    }

    // Takes what stands here.
    #[inline(always)]
    fn take_next(&mut self, places: &mut Vec<AttributePlace>) -> Result<(), GrowError>
        requires { self.old.at < length self.old.page.now }
        ensures ok { OnOk result (left_of self.new ≡ left_of self.old) }
        ensures sources { OnOk result (TakesNext self.old self.new) }
        ensures further { OnOk result (self.old.at < self.new.at) }
        ensures page { self.new.page.now ≡ self.old.page.now }
    {
        if let Some(section) = self.section() {
            return self.take_section(section);
        }
        if let Some(tag) = tag_in_front(self.page, self.at, self.mode, places)? {
            return self.take_tag(places.as_slice(), tag);
        }
        let Some(front) = next_token(self.page, self.at, self.mode) else {
            return Ok(());
        };
        self.take_token(places, front)
    }

    // Refuses a tree that is out of proportion to the page so far.
    fn weigh(&self) -> Result<(), ReadError>
        ensures little { OnOk result (is_little (builder_of self.now.builder).excess ≡ true) }
        ensures large { (at : ℕ) → result ≡ Err (ReadError.OutOfProportion at) →
            is_little (builder_of self.now.builder).excess ≡ false }
        ensures place { (at : ℕ) → result ≡ Err (ReadError.OutOfProportion at) →
            at ≡ self.now.at }
    {
        if self.builder.is_little() {
            return Ok(());
        }
        Err(ReadError::OutOfProportion { at: self.at })
    }

    // Reads on to the end of the page.
    fn read_on(&mut self) -> Result<(), ReadError>
        ensures ok { OnOk result (left_of self.new ≡ left_of self.old) }
        ensures sources { OnOk result
            ((begin : Reached) → IsSourced begin self.old → IsSourced begin self.new) }
        ensures page { self.new.page.now ≡ self.old.page.now }
        ensures end { OnOk result (length self.new.page.now ≤ self.new.at) }
        ensures little { OnOk result (is_little (builder_of self.old.builder).excess ≡ true →
            is_little (builder_of self.new.builder).excess ≡ true) }
        ensures large { (at : ℕ) → result ≡ Err (ReadError.OutOfProportion at) →
            is_little (token_done (left_of self.old) end_of_file).excess ≡ false }
        ensures place { (at : ℕ) → result ≡ Err (ReadError.OutOfProportion at) →
            (begin : Reached) → IsSourced begin self.old →
            is_little (builder_of self.old.builder).excess ≡ true →
            IsOutOfProportionAt self.old.page.now begin at }
    {
        // Room for where the attributes of a tag stand.
        let mut places = Vec::new(self.alloc);
        while self.at < self.page.len() {
            self.take_next(&mut places)?;
            if !self.builder.is_little() {
                return Err(ReadError::OutOfProportion { at: self.at });
            }
        }
        Ok(())
    }

    /// Reads the page to its end.
    pub(crate) fn read(&mut self) -> Result<(), ReadError>
        ensures ok { OnOk result
            (builder_of self.new.builder ≡ token_done (left_of self.old) end_of_file) }
        ensures sources { OnOk result ((begin : Reached) → IsSourced begin self.old →
            AreSources self.old.page.now begin (builder_of self.new.builder)
            (bounds_in self.new.sources)) }
        ensures page { self.new.page.now ≡ self.old.page.now }
        ensures little { OnOk result
            (is_little (token_done (left_of self.old) end_of_file).excess ≡ true) }
        ensures large { (at : ℕ) → result ≡ Err (ReadError.OutOfProportion at) →
            is_little (token_done (left_of self.old) end_of_file).excess ≡ false }
        ensures place { (at : ℕ) → result ≡ Err (ReadError.OutOfProportion at) →
            (begin : Reached) → IsSourced begin self.old →
            is_little (builder_of self.old.builder).excess ≡ true →
            IsOutOfProportionAt self.old.page.now begin at }
    {
        self.read_on()?;
        self.builder.take_token(Token::EndOfFile)?;
        self.weigh()
    }

    /// Reads the page to its end. The tree of what then stands in the innermost frame that passes a
    /// test, or in the document.
    pub(crate) fn into_tree(mut self, test: Test<'_>) -> Result<Tree<'p>, ReadError>
        ensures tree { IfOk result (λ tree. rows_in tree
            ≡ rows_of (trees_in (top (popped_to (test_of test.entry)
            (token_done (left_of self.entry) end_of_file).path)))) }
        ensures quirks { IfOk result (λ tree.
            tree.is_quirks ≡ (token_done (left_of self.entry) end_of_file).is_quirks) }
        ensures sources { IfOk result (λ tree. (begin : Reached) → IsSourced begin self.entry →
            AreSources self.entry.page.now begin (token_done (left_of self.entry) end_of_file)
            (bounds_in tree.sources)) }
        ensures end { IfOk result (λ tree. tree.page_end ≡ length self.entry.page.now) }
        ensures little { IfOk result
            (λ _. is_little (token_done (left_of self.entry) end_of_file).excess ≡ true) }
        ensures large { (at : ℕ) → result ≡ Err (ReadError.OutOfProportion at) →
            is_little (token_done (left_of self.entry) end_of_file).excess ≡ false }
        ensures place { (at : ℕ) → result ≡ Err (ReadError.OutOfProportion at) →
            (begin : Reached) → IsSourced begin self.entry →
            is_little (builder_of self.entry.builder).excess ≡ true →
            IsOutOfProportionAt self.entry.page.now begin at }
        ensures short { IfOk result (λ _. length self.entry.page.now < 2 ^ 32) }
    {
        self.read()?;
        let tree = self.builder.into_tree(self.alloc, self.sources, test)?;
        Ok(tree)
    }
}
