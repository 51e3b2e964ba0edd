//! What the tree builder holds (13.2.4), and what is done to it.
//!
//! Others may rely on this: each operation says that the builder (`builder_of`) is afterwards what
//! the definition's function makes of it, and that the tag of the token (`token_of`) stays the
//! same. That the tags which it refers to are in the store is part of the type: no caller carries
//! it.
ghost use Rattle.std.specs.Prelude.{length};
ghost use Rattle.tl_tree.specs.Inner.Known.{AreKnown};

use crate::active::ActiveList;
use crate::cell::Node;
use crate::entries::DoctypeEntry;
use crate::error::GrowError;
use crate::frame::Place;
use crate::mode::Mode;
use crate::names::Names;
use crate::path::FramePath;
use crate::span::{Piece, Span};
use crate::test::{TagTest, Test};
use std::alloc::Global;
use tl_html_tokens::Mode as TextMode;

/// What is set before a page is read, and stays so.
#[derive(Clone, Copy, Debug)]
pub struct Flags {
    /// Whether scripts run, where `noscript` has a text and no markup.
    pub is_scripting: bool,
    /// Whether `search` is a special element: it is one by the standard, and not in all browsers.
    pub counts_search: bool,
}

/// What the tree builder holds. The tags of the context element and of the token are numbers of
/// the store.
#[derive(Drop)]
pub(crate) struct Builder<'a> {
    pub(crate) path: FramePath<'a>,
    pub(crate) active: ActiveList,
    pub(crate) mode: Mode,
    /// The original insertion mode, in "text" and "in table text".
    pub(crate) original: Mode,
    /// The stack of template insertion modes, the current one last.
    pub(crate) templates: Vec<Mode>,
    /// The form element pointer.
    pub(crate) form: Option<u32>,
    /// Whether the head element pointer is set.
    pub(crate) has_head: bool,
    pub(crate) is_frameset_ok: bool,
    pub(crate) is_fostering: bool,
    pub(crate) is_quirks: bool,
    /// Whether a line feed is ignored that comes next.
    pub(crate) skips: bool,
    /// The pending table character tokens.
    pub(crate) pending: Vec<u8>,
    /// The context element, in a fragment.
    pub(crate) context: Option<u32>,
    /// The state that the tokenizer goes on in after the token.
    pub(crate) reads: TextMode,
    /// How many tokens were taken.
    pub(crate) tokens: u32,
    /// How many elements were put in, or opened again, that no start tag stands for.
    pub(crate) added: u32,
    /// By how many these were more than four for each token, where that was most.
    pub(crate) excess: u32,
    /// How many marks were taken: the number of the next one.
    pub(crate) marks: u32,
    pub(crate) flags: Flags,
    /// The tag of the token that is processed, where it is a start tag.
    pub(crate) tag: u32,
    /// The data of it, where it is a comment.
    pub(crate) text: Span,
    /// The number of it, where it is a doctype.
    pub(crate) doctype: u32,
    /// Its number among the marks, where it is a comment or a doctype.
    pub(crate) source: u32,
    /// Where it may stand in the page, where it is a character: a hint, on which no answer depends.
    pub(crate) hint: u32,
    ghost known: { AreKnown
        (record {
          page = length path.store.page.now;
          side = length path.store.side.items;
          tags = length path.store.tags.items;
          doctypes = length path.store.doctypes.items;
        })
        path.next
        active.greatest_number
        active.greatest_tag
        context
        tag
        text
        doctype
        path.store
        active },
}

impl<'a> Builder<'a> {
    ghost use Rattle.std.specs.Prelude.{IfOk, IsTrue, OnOk, [], true, ◌<◌, ◌∷◌, ◌≡◌};
    ghost use Rattle.tl_dom_spec.specs.Builder.{add_one, appropriate_place, clear_stack_back_to, clear_to_last_marker, close_except_for, current_tag, fostering, frameset_not_ok, generate_implied_end_tags, generate_implied_end_tags_except_for, has_in_button_scope, has_in_list_item_scope, has_in_scope, has_in_table_scope, has_template, insert_and_pop, insert_bytes, insert_character, insert_comment, insert_comment_at, insert_element, insert_implied, insert_marker, pop_current_node, pop_until, switch_to, insert_and_pop_at, insert_element_at};
    ghost use Rattle.tl_dom_spec.specs.Dispatcher.{calm};
    ghost use Rattle.tl_dom_spec.specs.HtmlTree.{page_start};
    ghost use Rattle.tl_dom_spec.specs.Path.{behind};
    ghost use Rattle.tl_dom_spec.specs.Tags.{bare_tag};
    ghost use Rattle.tl_tree.specs.Inner.Frames.{place_of};
    ghost use Rattle.tl_tree.specs.Inner.Tests.{tag_test_of};
    ghost use Rattle.tl_tree.specs.Inner.Builders.{builder_of, comment_of, flags_of, token_of};
    ghost use Rattle.tl_tree.specs.Inner.Modes.{mode_of};
    ghost use Rattle.tl_tree.specs.Inner.Store.{bytes_of, is_span, tag_at};

    /// Before the first token of a page.
    pub(crate) fn new(alloc: Global, page: &'a [u8], flags: Flags) -> Result<Builder<'a>, GrowError>
        ensures start { IfOk result
            (λ builder. builder_of builder ≡ page_start (flags_of flags)) }
        ensures page { IfOk result (λ builder. (token_of builder).page ≡ page.now) }
    {
        let mut path = FramePath::new(alloc, page)?;
        let nothing = Span { start: 0, len: 0 };
        let doctype = path.add_doctype(DoctypeEntry {
            name: nothing,
            public_id: None,
            system_id: None,
            forces_quirks: false,
        })?;
        let active = ActiveList::new(alloc);
        let templates = Vec::new(alloc);
        let pending = Vec::new(alloc);
        Ok(Builder {
            path,
            active,
            mode: Mode::Initial,
            original: Mode::Initial,
            templates,
            form: None,
            has_head: false,
            is_frameset_ok: true,
            is_fostering: false,
            is_quirks: false,
            skips: false,
            pending,
            context: None,
            reads: TextMode::Data,
            tokens: 0,
            added: 0,
            excess: 0,
            marks: 0,
            flags,
            tag: 0,
            text: nothing,
            doctype,
            source: 0,
            hint: 0,
        })
    }

    // What is set

    /// The tag of the next token.
    pub(crate) fn set_tag(&mut self, tag: u32)
        requires { tag < length self.old.path.store.tags.items }
        ensures ok { builder_of self.new ≡ builder_of self.old }
        ensures page { (token_of self.new).page ≡ (token_of self.old).page }
        ensures tag { (token_of self.new).tag ≡ tag_at self.old.path.store tag }
    {
        self.tag = tag;
    }

    pub(crate) fn switch_to(&mut self, mode: Mode)
        ensures ok { builder_of self.new ≡ switch_to (mode_of mode) (builder_of self.old) }
        ensures token { token_of self.new ≡ token_of self.old }
    {
        self.mode = mode;
    }

    pub(crate) fn set_fostering(&mut self, is_on: bool)
        ensures ok { builder_of self.new ≡ fostering is_on (builder_of self.old) }
        ensures token { token_of self.new ≡ token_of self.old }
    {
        self.is_fostering = is_on;
    }

    pub(crate) fn frameset_not_ok(&mut self)
        ensures ok { builder_of self.new ≡ frameset_not_ok (builder_of self.old) }
        ensures token { token_of self.new ≡ token_of self.old }
    {
        self.is_frameset_ok = false;
    }

    /// No line feed is ignored any more, and the tokenizer goes on in its data state.
    pub(crate) fn calm(&mut self)
        ensures ok { builder_of self.new ≡ calm (builder_of self.old) }
        ensures token { token_of self.new ≡ token_of self.old }
    {
        self.skips = false;
        self.reads = TextMode::Data;
    }

    /// Puts a mode on the stack of template insertion modes.
    pub(crate) fn push_template_mode(&mut self, mode: Mode) -> Result<(), GrowError>
        ensures ok { OnOk result (builder_of self.new
            ≡ record (builder_of self.old) {
              templates = mode_of mode ∷ (builder_of self.old).templates;
            }) }
        ensures token { token_of self.new ≡ token_of self.old }
    {
        self.templates.push(mode)?;
        Ok(())
    }

    /// The form element pointer points to the element of a number, or to none.
    pub(crate) fn set_form(&mut self, number: Option<u32>)
        ensures ok { builder_of self.new ≡ record (builder_of self.old) { form = number } }
        ensures token { token_of self.new ≡ token_of self.old }
    {
        self.form = number;
    }

    /// The head element pointer is set.
    pub(crate) fn set_head(&mut self)
        ensures ok { builder_of self.new ≡ record (builder_of self.old) { has_head = true } }
        ensures token { token_of self.new ≡ token_of self.old }
    {
        self.has_head = true;
    }

    /// Counts an element that no start tag stands for.
    pub(crate) fn add_one(&mut self) -> Result<(), GrowError>
        ensures ok { OnOk result (builder_of self.new ≡ add_one (builder_of self.old)) }
        ensures token { token_of self.new ≡ token_of self.old }
    {
        if self.added == u32::MAX {
            return Err(GrowError::TooLarge);
        }
        self.added += 1;
        Ok(())
    }

    /// Puts a marker behind the active formatting elements.
    pub(crate) fn insert_marker(&mut self) -> Result<(), GrowError>
        ensures ok { OnOk result (builder_of self.new ≡ insert_marker (builder_of self.old)) }
        ensures token { token_of self.new ≡ token_of self.old }
    {
        self.active.push_marker()
    }

    /// Clears the list of active formatting elements up to the last marker.
    pub(crate) fn clear_to_last_marker(&mut self)
        ensures ok { builder_of self.new ≡ clear_to_last_marker (builder_of self.old) }
        ensures token { token_of self.new ≡ token_of self.old }
    {
        self.active.clear_to_last_marker(&self.path);
    }

    // What is asked

    /// The scripting flag.
    pub(crate) fn is_scripting(&self) -> bool
        ensures { result ≡ (builder_of self.now).flags.is_scripting }
    {
        self.flags.is_scripting
    }

    /// The original insertion mode.
    pub(crate) fn original(&self) -> Mode
        ensures { mode_of result ≡ (builder_of self.now).original }
    {
        self.original
    }

    /// The appropriate place for inserting a node.
    pub(crate) fn appropriate_place(&self) -> Place
        ensures { place_of result ≡ appropriate_place (builder_of self.now) }
    {
        self.path.place_in(self.is_fostering)
    }

    /// Whether the current node passes a test.
    #[inline(always)]
    pub(crate) fn is_current(&self, test: TagTest<'_>) -> bool
        ensures { result ≡ tag_test_of test.entry (current_tag (builder_of self.now)) }
    {
        test.passes(&self.path.store, self.path.top().tag)
    }

    #[inline(always)]
    pub(crate) fn has_template(&self) -> bool
        ensures { result ≡ has_template (builder_of self.now) }
    {
        self.path.has_open(TagTest::Any(Names::Template))
    }

    /// Whether an element that passes a test is in scope.
    #[inline(always)]
    pub(crate) fn has_in_scope(&self, test: TagTest<'_>) -> bool
        ensures { result ≡ has_in_scope (tag_test_of test.entry) (builder_of self.now) }
    {
        self.path.has_within(test, TagTest::Scope)
    }

    #[inline(always)]
    pub(crate) fn has_in_button_scope(&self, test: TagTest<'_>) -> bool
        ensures { result ≡ has_in_button_scope (tag_test_of test.entry) (builder_of self.now) }
    {
        self.path.has_within(test, TagTest::ScopeOr(Names::Button))
    }

    #[inline(always)]
    pub(crate) fn has_in_list_item_scope(&self, test: TagTest<'_>) -> bool
        ensures { result ≡ has_in_list_item_scope (tag_test_of test.entry) (builder_of self.now) }
    {
        self.path.has_within(test, TagTest::ScopeOr(Names::Lists))
    }

    #[inline(always)]
    pub(crate) fn has_in_table_scope(&self, test: TagTest<'_>) -> bool
        ensures { result ≡ has_in_table_scope (tag_test_of test.entry) (builder_of self.now) }
    {
        self.path.has_within(test, TagTest::Any(Names::TableScope))
    }

    // What is popped

    pub(crate) fn pop_current_node(&mut self) -> Result<(), GrowError>
        ensures ok { OnOk result (builder_of self.new ≡ pop_current_node (builder_of self.old)) }
        ensures token { token_of self.new ≡ token_of self.old }
    {
        self.path.pop()
    }

    /// Pops elements until one that passes a test was popped.
    #[inline(always)]
    pub(crate) fn pop_until(&mut self, test: TagTest<'_>) -> Result<(), GrowError>
        ensures ok { OnOk result
            (builder_of self.new ≡ pop_until (tag_test_of test.entry) (builder_of self.old)) }
        ensures token { token_of self.new ≡ token_of self.old }
    {
        self.path.pop_through(Test::Tag(test))
    }

    /// Pops elements until the current node passes a test.
    #[inline(always)]
    pub(crate) fn clear_stack_back_to(&mut self, test: TagTest<'_>) -> Result<(), GrowError>
        ensures ok { OnOk result (builder_of self.new
            ≡ clear_stack_back_to (tag_test_of test.entry) (builder_of self.old)) }
        ensures token { token_of self.new ≡ token_of self.old }
    {
        self.path.pop_to(Test::Tag(test))
    }

    /// Generates implied end tags, but for elements that pass a test.
    #[inline(always)]
    pub(crate) fn generate_implied_end_tags_except_for(
        &mut self,
        but: TagTest<'_>,
    ) -> Result<(), GrowError>
        ensures ok { OnOk result (builder_of self.new
            ≡ generate_implied_end_tags_except_for (tag_test_of but.entry)
            (builder_of self.old)) }
        ensures token { token_of self.new ≡ token_of self.old }
    {
        self.path.close_implied(but)
    }

    #[inline(always)]
    pub(crate) fn generate_implied_end_tags(&mut self) -> Result<(), GrowError>
        ensures ok { OnOk result
            (builder_of self.new ≡ generate_implied_end_tags (builder_of self.old)) }
        ensures token { token_of self.new ≡ token_of self.old }
    {
        self.generate_implied_end_tags_except_for(TagTest::Nothing)
    }

    /// Generates implied end tags, but for some elements, and pops until one that passes a test was
    /// popped.
    #[inline(always)]
    pub(crate) fn close_except_for(
        &mut self,
        but: TagTest<'_>,
        test: TagTest<'_>,
    ) -> Result<(), GrowError>
        ensures ok { OnOk result (builder_of self.new
            ≡ close_except_for (tag_test_of but.entry) (tag_test_of test.entry)
            (builder_of self.old)) }
        ensures token { token_of self.new ≡ token_of self.old }
    {
        self.generate_implied_end_tags_except_for(but)?;
        self.pop_until(test)
    }

    // What is inserted

    /// Inserts bytes of the text.
    #[inline(always)]
    pub(crate) fn insert_bytes(&mut self, text: Span) -> Result<(), GrowError>
        requires { IsTrue (is_span self.old.path.store text) }
        ensures ok { OnOk result (builder_of self.new
            ≡ insert_bytes (bytes_of self.old.path.store text) (builder_of self.old)) }
        ensures token { token_of self.new ≡ token_of self.old }
    {
        let place = self.path.place_in(self.is_fostering);
        let source = self.marks;
        self.path
            .put(place, Node::Text(Piece { span: text, source }))
    }

    /// Inserts a character.
    pub(crate) fn insert_character(&mut self, byte: u8) -> Result<(), GrowError>
        ensures ok { OnOk result
            (builder_of self.new ≡ insert_character byte (builder_of self.old)) }
        ensures token { token_of self.new ≡ token_of self.old }
    {
        let text = self.add_byte(byte)?;
        self.insert_bytes(text)
    }

    // Inserts the comment that the token is, at a place.
    fn put_comment(&mut self, place: Place) -> Result<(), GrowError>
        ensures ok { OnOk result (builder_of self.new
            ≡ insert_comment_at (place_of place) (comment_of (token_of self.old))
            (builder_of self.old)) }
        ensures token { token_of self.new ≡ token_of self.old }
    {
        let span = self.text;
        let source = self.source;
        self.path.put(place, Node::Comment(Piece { span, source }))
    }

    /// Inserts the comment that the token is.
    pub(crate) fn insert_comment(&mut self) -> Result<(), GrowError>
        ensures ok { OnOk result (builder_of self.new
            ≡ insert_comment (comment_of (token_of self.old)) (builder_of self.old)) }
        ensures token { token_of self.new ≡ token_of self.old }
    {
        let place = self.path.place_in(self.is_fostering);
        self.put_comment(place)
    }

    /// Inserts the comment that the token is behind the open child of the frame of a number.
    pub(crate) fn insert_comment_behind(&mut self, number: u32) -> Result<(), GrowError>
        ensures ok { OnOk result (builder_of self.new
            ≡ insert_comment_at (behind number) (comment_of (token_of self.old))
            (builder_of self.old)) }
        ensures token { token_of self.new ≡ token_of self.old }
    {
        let place = Place::Behind(number);
        self.put_comment(place)
    }

    // An element of a tag of the store is inserted at a place.
    #[inline(always)]
    fn insert_tag_at(&mut self, place: Place, tag: u32) -> Result<(), GrowError>
        requires { tag < length self.old.path.store.tags.items }
        ensures ok { OnOk result (builder_of self.new
            ≡ insert_element_at (place_of place) (tag_at self.old.path.store tag)
            (builder_of self.old)) }
        ensures token { token_of self.new ≡ token_of self.old }
    {
        self.path.insert_element(place, tag)
    }

    /// An element of a tag of the store is inserted.
    pub(crate) fn insert_tag(&mut self, tag: u32) -> Result<(), GrowError>
        requires { tag < length self.old.path.store.tags.items }
        ensures ok { OnOk result (builder_of self.new
            ≡ insert_element (tag_at self.old.path.store tag) (builder_of self.old)) }
        ensures token { token_of self.new ≡ token_of self.old }
    {
        let place = self.appropriate_place();
        self.insert_tag_at(place, tag)
    }

    /// Inserts an element for the token at a place.
    #[inline(always)]
    pub(crate) fn insert_element_at(&mut self, place: Place) -> Result<(), GrowError>
        ensures ok { OnOk result (builder_of self.new
            ≡ insert_element_at (place_of place) (token_of self.old).tag (builder_of self.old)) }
        ensures token { token_of self.new ≡ token_of self.old }
    {
        let tag = self.tag;
        self.insert_tag_at(place, tag)
    }

    /// Inserts an element for the token.
    #[inline(never)]
    pub(crate) fn insert_element(&mut self) -> Result<(), GrowError>
        ensures ok { OnOk result
            (builder_of self.new ≡ insert_element (token_of self.old).tag (builder_of self.old)) }
        ensures token { token_of self.new ≡ token_of self.old }
    {
        let place = self.appropriate_place();
        self.insert_element_at(place)
    }

    /// Inserts an element for the token at a place, and pops it at once.
    pub(crate) fn insert_and_pop_at(&mut self, place: Place) -> Result<(), GrowError>
        ensures ok { OnOk result (builder_of self.new
            ≡ insert_and_pop_at (place_of place) (token_of self.old).tag (builder_of self.old)) }
        ensures token { token_of self.new ≡ token_of self.old }
    {
        let tag = self.tag;
        self.path.insert_and_pop(place, tag)
    }

    // An element of a tag of the store is inserted, and popped at once.
    pub(crate) fn insert_and_pop_tag(&mut self, tag: u32) -> Result<(), GrowError>
        requires { tag < length self.old.path.store.tags.items }
        ensures ok { OnOk result (builder_of self.new
            ≡ insert_and_pop (tag_at self.old.path.store tag) (builder_of self.old)) }
        ensures token { token_of self.new ≡ token_of self.old }
    {
        let place = self.path.place_in(self.is_fostering);
        self.path.insert_and_pop(place, tag)
    }

    /// Inserts an element for the token, and pops it at once.
    pub(crate) fn insert_and_pop(&mut self) -> Result<(), GrowError>
        ensures ok { OnOk result
            (builder_of self.new ≡ insert_and_pop (token_of self.old).tag (builder_of self.old)) }
        ensures token { token_of self.new ≡ token_of self.old }
    {
        let place = self.appropriate_place();
        self.insert_and_pop_at(place)
    }

    // A byte of the text that is this one, which is put there where it doesn't stand at the hint.
    fn add_byte(&mut self, byte: u8) -> Result<Span, GrowError>
        ensures ok { builder_of self.new ≡ builder_of self.old }
        ensures token { token_of self.new ≡ token_of self.old }
        ensures stands { IfOk result (λ span. bytes_of self.new.path.store span ≡ byte ∷ []) }
        ensures within { IfOk result (λ span. IsTrue (is_span self.new.path.store span)) }
    {
        let hint = self.hint;
        self.path.add_byte(byte, hint)
    }

    /// The tag of an HTML element without attributes is put in the store.
    pub(crate) fn add_bare_tag(&mut self, name: &'static [u8]) -> Result<u32, GrowError>
        ensures ok { builder_of self.new ≡ builder_of self.old }
        ensures token { token_of self.new ≡ token_of self.old }
        ensures tag { IfOk result
            (λ number. tag_at self.new.path.store number ≡ bare_tag name.now) }
        ensures within { IfOk result
            (λ number. number < length self.new.path.store.tags.items) }
    {
        self.path.add_bare_tag(name)
    }

    /// Inserts an element without attributes, whose start tag is missing.
    pub(crate) fn insert_implied(&mut self, name: &'static [u8]) -> Result<(), GrowError>
        ensures ok { OnOk result
            (builder_of self.new ≡ insert_implied name.now (builder_of self.old)) }
        ensures token { token_of self.new ≡ token_of self.old }
    {
        let tag = self.add_bare_tag(name)?;
        self.insert_tag(tag)?;
        self.add_one()
    }

    /// Inserts an element without attributes, whose start tag is missing, and pops it at once.
    pub(crate) fn insert_and_pop_implied(&mut self, name: &'static [u8]) -> Result<(), GrowError>
        ensures ok { OnOk result (builder_of self.new
            ≡ add_one (insert_and_pop (bare_tag name.now) (builder_of self.old))) }
        ensures token { token_of self.new ≡ token_of self.old }
    {
        let tag = self.add_bare_tag(name)?;
        self.insert_and_pop_tag(tag)?;
        self.add_one()
    }

    // The tag of the token is put in the store with another name.
    fn add_token_as(&mut self, name: &'static [u8]) -> Result<u32, GrowError>
        ensures ok { builder_of self.new ≡ builder_of self.old }
        ensures token { token_of self.new ≡ token_of self.old }
        ensures tag { IfOk result (λ number. tag_at self.new.path.store number
            ≡ record (token_of self.old).tag { name = name.now }) }
        ensures within { IfOk result
            (λ number. number < length self.new.path.store.tags.items) }
    {
        let tag = self.tag;
        self.path.add_renamed_tag(tag, name)
    }

    /// Inserts an element for the token under another name, and pops it at once.
    pub(crate) fn insert_and_pop_as(&mut self, name: &'static [u8]) -> Result<(), GrowError>
        ensures ok { OnOk result (builder_of self.new
            ≡ insert_and_pop (record (token_of self.old).tag { name = name.now })
            (builder_of self.old)) }
        ensures token { token_of self.new ≡ token_of self.old }
    {
        let tag = self.add_token_as(name)?;
        self.insert_and_pop_tag(tag)
    }
}
