//! The insertion mode is reset appropriately (13.2.4.1), and a template ends (13.2.6.4.4).
ghost use Rattle.std.specs.List.{list_any};
ghost use Rattle.std.specs.Option.{option_map};
ghost use Rattle.std.specs.Prelude.{IfSome, IsTrue, None, OnOk, length, take, ◌+◌, ◌<◌, ◌≡◌, ◌≤◌};
ghost use Rattle.tl_dom_spec.specs.Path.{elements, popped_while};
ghost use Rattle.tl_dom_spec.specs.Reset.{close_template, current_template_mode, last_tag, mode_at, reset_insertion_mode, tag_mode, template_end_tag, templates_popped};
ghost use Rattle.tl_dom_spec.specs.Reset as dom;
ghost use Rattle.tl_dom_spec.specs.Tags.{is_implied_thoroughly};
ghost use Rattle.tl_tree.specs.Inner.Builders.{builder_of, token_of};
ghost use Rattle.tl_tree.specs.Inner.GroupNames.{group_view as group_of};
ghost use Rattle.tl_tree.specs.Inner.Modes.{mode_of};
ghost use Rattle.tl_tree.specs.Inner.Resets.{is_open, mode_from};
ghost use Rattle.tl_tree.specs.Inner.Store.{is_tag_number, tag_at};

use crate::builder::Builder;
use crate::error::GrowError;
use crate::group::{Group, group_of};
use crate::mode::Mode;
use crate::names::Names;
use crate::path::FramePath;
use crate::role::Kind;
use crate::test::{TagTest, Test};

impl<'a> FramePath<'a> {
    // Whether one of so many of the outermost frames is in the stack.
    fn has_open_among(&self, count: usize) -> bool
        requires { count ≤ length self.now.frames.items }
        ensures { result ≡ list_any is_open (take count self.now.frames.items) }
    {
        self.frames[..count].iter().any(|frame| frame.is_open)
    }
}

impl<'a> Builder<'a> {
    fn current_template_mode(&self) -> Mode
        ensures { mode_of result ≡ current_template_mode (builder_of self.now).templates }
    {
        match self.templates.last() {
            Some(mode) => *mode,
            None => Mode::InTemplate,
        }
    }

    fn pop_template_mode(&mut self)
        ensures ok { builder_of self.new
            ≡ record (builder_of self.old) {
              templates = templates_popped (builder_of self.old).templates;
            } }
        ensures token { token_of self.new ≡ token_of self.old }
    {
        let _ = self.templates.pop();
    }

    // The mode that an element of a group decides, which may be the last one that is looked at.
    fn mode_at(&self, group: Group, is_last: bool) -> Option<Mode>
        ensures { option_map mode_of result
            ≡ mode_at (builder_of self.now) is_last (group_of group) }
    {
        match group {
            Group::ACell => (!is_last).then_some(Mode::InCell),
            Group::ARow => Some(Mode::InRow),
            Group::ATableBody => Some(Mode::InTableBody),
            Group::ACaption => Some(Mode::InCaption),
            Group::AColumnGroup => Some(Mode::InColumnGroup),
            Group::ATable => Some(Mode::InTable),
            Group::ATemplate => Some(self.current_template_mode()),
            Group::TheHead => (!is_last).then_some(Mode::InHead),
            Group::TheBody => Some(Mode::InBody),
            Group::AFrameset => Some(Mode::InFrameset),
            Group::TheHtml if self.has_head => Some(Mode::AfterHead),
            Group::TheHtml => Some(Mode::BeforeHead),
            _ => None,
        }
    }

    fn tag_mode(&self, tag: u32, is_last: bool) -> Option<Mode>
        requires { IsTrue (is_tag_number self.now.path.store tag) }
        ensures { option_map mode_of result
            ≡ tag_mode (builder_of self.now) is_last (tag_at self.now.path.store tag) }
    {
        let entry = self.path.store.tag(tag);
        if !entry.space.is_html() {
            return None;
        }
        self.mode_at(group_of(entry.known), is_last)
    }

    // In a fragment the context element stands for the last one.
    fn last_tag(&self, tag: u32) -> u32
        requires { IsTrue (is_tag_number self.now.path.store tag) }
        ensures stands { tag_at self.now.path.store result
            ≡ last_tag (builder_of self.now).context (tag_at self.now.path.store tag) }
        ensures within { IsTrue (is_tag_number self.now.path.store result) }
    {
        match self.context {
            Some(context) => context,
            None => tag,
        }
    }

    // The mode that a frame decides, if it does.
    fn mode_by(&self, index: usize) -> Option<Mode>
        requires { index < length self.now.path.frames.items }
        ensures some { IfSome result (λ mode. mode_from self.now (index + 1) ≡ mode_of mode) }
        ensures none { result ≡ None
            → mode_from self.now (index + 1) ≡ mode_from self.now index }
    {
        let frame = self.path.frames[index];
        if !frame.is_open {
            return None;
        }
        if self.path.has_open_among(index) {
            return self.tag_mode(frame.tag, false);
        }
        self.tag_mode(self.last_tag(frame.tag), true)
    }

    // How many of the outermost frames decide the mode. Further in no element does, unless it is
    // the last one that is looked at: then all frames are asked.
    fn decisive_len(&self) -> usize
        ensures within { result ≤ length self.now.path.frames.items }
        ensures same { dom.mode_of (builder_of self.now) (elements (builder_of self.now).path)
            ≡ mode_from self.now result }
    {
        let limit = self.path.kind_limit(Kind::Decisive);
        if self.path.has_open_among(limit) {
            limit
        } else {
            self.path.frames.len()
        }
    }

    // The mode that the stack decides.
    fn mode_of_stack(&self) -> Mode
        ensures { mode_of result
            ≡ dom.mode_of (builder_of self.now) (elements (builder_of self.now).path) }
    {
        let mut index = self.decisive_len();
        while index > 0 {
            index -= 1;
            match self.mode_by(index) {
                Some(mode) => return mode,
                None => {}
            }
        }
        Mode::InBody
    }

    pub(crate) fn reset_insertion_mode(&mut self) -> Result<(), GrowError>
        ensures ok { OnOk result (builder_of self.new
            ≡ reset_insertion_mode (builder_of self.old)) }
        ensures token { token_of self.new ≡ token_of self.old }
    {
        let mode = self.mode_of_stack();
        self.switch_to(mode);
        Ok(())
    }

    // All implied end tags are generated thoroughly.
    fn generate_all_implied_end_tags(&mut self) -> Result<(), GrowError>
        ensures ok { OnOk result (builder_of self.new
            ≡ record (builder_of self.old) {
              path = popped_while (λ f. is_implied_thoroughly f.tag) (builder_of self.old).path;
            }) }
        ensures token { token_of self.new ≡ token_of self.old }
    {
        self.path.pop_while(Test::Tag(TagTest::ImpliedThoroughly))
    }

    /// A template is closed, with what it marked and its mode.
    pub(crate) fn close_template(&mut self) -> Result<(), GrowError>
        ensures ok { OnOk result (builder_of self.new ≡ close_template (builder_of self.old)) }
        ensures token { token_of self.new ≡ token_of self.old }
    {
        self.pop_until(TagTest::Any(Names::Template))?;
        self.clear_to_last_marker();
        self.pop_template_mode();
        self.reset_insertion_mode()
    }

    /// An end tag of a template.
    pub(crate) fn template_end_tag(&mut self) -> Result<(), GrowError>
        ensures ok { OnOk result (builder_of self.new ≡ template_end_tag (builder_of self.old)) }
        ensures token { token_of self.new ≡ token_of self.old }
    {
        if !self.has_template() {
            return Ok(());
        }
        self.generate_all_implied_end_tags()?;
        self.close_template()
    }
}
