//! What start tags open "in body" (13.2.6.4.7).
ghost use Rattle.std.specs.Prelude.{None, OnOk, codes, false, if◌then◌else◌, true, ◌≡◌};
ghost use Rattle.tl_dom_spec.specs.Adjusted.{insert_foreign_element};
ghost use Rattle.tl_dom_spec.specs.Body.{anchor_ended, body_number, body_start_at, close_in_scope, close_p, form_at, frameset_start_at, heading_closed, input_inserted, item_closed, nobr_ended, noscript_start_in_body, option_start, rule_start, ruby_closed, select_start, table_start_in_body, textarea_start, void_start};
ghost use Rattle.tl_dom_spec.specs.Builder.{frameset_not_ok, has_template, insert_element, insert_marker, is_context, parse_raw_text};
ghost use Rattle.tl_dom_spec.specs.Formatting.{insert_formatting_element, listed, reconstruct_formatting};
ghost use Rattle.tl_dom_spec.specs.Path.{elements};
ghost use Rattle.tl_dom_spec.specs.Tags.{is_any, is_select, no_tag};
ghost use Rattle.tl_html_spec.specs.HtmlTokenizer.{after_start};
ghost use Rattle.tl_tree.specs.Inner.Builders.{builder_of, token_of};
ghost use Rattle.tl_tree.specs.Inner.Store.{space_of};
ghost use Rattle.tl_tree.specs.Inner.Tests.{tag_test_of};

use crate::builder::Builder;
use crate::entries::Namespace;
use crate::error::GrowError;
use crate::mode::Mode;
use crate::names::Names;
use crate::test::TagTest;

impl<'a> Builder<'a> {
    /// `body`.
    pub(crate) fn body_tag_start(&mut self) -> Result<(), GrowError>
        ensures ok { OnOk result (builder_of self.new
            ≡ body_start_at
            (body_number (elements (builder_of self.old).path))
            (builder_of self.old)
            (token_of self.old).tag) }
        ensures token { token_of self.new ≡ token_of self.old }
    {
        let Some(number) = self.body_number() else {
            return Ok(());
        };
        if self.has_template() {
            return Ok(());
        }
        self.frameset_not_ok();
        self.add_attributes(number)
    }

    /// `frameset`.
    pub(crate) fn frameset_start(&mut self) -> Result<(), GrowError>
        ensures ok { OnOk result (builder_of self.new
            ≡ frameset_start_at
            (body_number (elements (builder_of self.old).path))
            (builder_of self.old)
            (token_of self.old).tag) }
        ensures token { token_of self.new ≡ token_of self.old }
    {
        let Some(_) = self.body_number() else {
            return Ok(());
        };
        if !self.allows_frameset() {
            return Ok(());
        }
        self.cut_to_html();
        self.switch_to(Mode::InFrameset);
        self.insert_element()
    }

    /// A block, as `p` and `div`.
    pub(crate) fn block_start(&mut self) -> Result<(), GrowError>
        ensures ok { OnOk result (builder_of self.new
            ≡ insert_element (token_of self.old).tag (close_p (builder_of self.old))) }
        ensures token { token_of self.new ≡ token_of self.old }
    {
        self.close_p()?;
        self.insert_element()
    }

    /// A heading.
    pub(crate) fn heading_start(&mut self) -> Result<(), GrowError>
        ensures ok { OnOk result (builder_of self.new
            ≡ insert_element (token_of self.old).tag
            (heading_closed (close_p (builder_of self.old)))) }
        ensures token { token_of self.new ≡ token_of self.old }
    {
        self.close_p()?;
        self.heading_closed()?;
        self.insert_element()
    }

    /// `pre` and `listing`.
    pub(crate) fn preformatted_start(&mut self) -> Result<(), GrowError>
        ensures ok { OnOk result (builder_of self.new
            ≡ record
            (frameset_not_ok
            (insert_element (token_of self.old).tag (close_p (builder_of self.old)))) {
              skips = true;
            }) }
        ensures token { token_of self.new ≡ token_of self.old }
    {
        self.close_p()?;
        self.frameset_not_ok();
        self.ignore_line_feed();
        self.insert_element()
    }

    // A form element, to which the form element pointer points.
    fn form_opened(&mut self) -> Result<(), GrowError>
        ensures ok { OnOk result (builder_of self.new
            ≡ form_at false None (builder_of self.old) (token_of self.old).tag) }
        ensures token { token_of self.new ≡ token_of self.old }
    {
        self.close_p()?;
        self.insert_form()
    }

    /// `form`.
    pub(crate) fn form_start(&mut self) -> Result<(), GrowError>
        ensures ok { OnOk result (builder_of self.new
            ≡ form_at
            (has_template (builder_of self.old))
            (builder_of self.old).form
            (builder_of self.old)
            (token_of self.old).tag) }
        ensures token { token_of self.new ≡ token_of self.old }
    {
        if self.has_template() {
            return self.block_start();
        }
        match self.form() {
            Some(_) => Ok(()),
            None => self.form_opened(),
        }
    }

    /// `li`.
    pub(crate) fn item_start(&mut self) -> Result<(), GrowError>
        ensures ok { OnOk result (builder_of self.new
            ≡ insert_element (token_of self.old).tag
            (item_closed (is_any (codes "li")) (frameset_not_ok (builder_of self.old)))) }
        ensures token { token_of self.new ≡ token_of self.old }
    {
        self.frameset_not_ok();
        self.list_item_closed()?;
        self.insert_element()
    }

    /// `dd` and `dt`.
    pub(crate) fn description_start(&mut self) -> Result<(), GrowError>
        ensures ok { OnOk result (builder_of self.new
            ≡ insert_element (token_of self.old).tag
            (item_closed (is_any (codes "dd dt")) (frameset_not_ok (builder_of self.old)))) }
        ensures token { token_of self.new ≡ token_of self.old }
    {
        self.frameset_not_ok();
        self.description_closed()?;
        self.insert_element()
    }

    /// `plaintext`.
    pub(crate) fn plaintext_start(&mut self) -> Result<(), GrowError>
        ensures ok { OnOk result (builder_of self.new
            ≡ record (insert_element (token_of self.old).tag (close_p (builder_of self.old))) {
              reads = after_start (token_of self.old).tag.name;
            }) }
        ensures token { token_of self.new ≡ token_of self.old }
    {
        self.block_start()?;
        self.read_after_start();
        Ok(())
    }

    /// `button`.
    pub(crate) fn button_start(&mut self) -> Result<(), GrowError>
        ensures ok { OnOk result (builder_of self.new
            ≡ frameset_not_ok
            (insert_element (token_of self.old).tag
            (reconstruct_formatting
            (close_in_scope no_tag (is_any (codes "button")) (builder_of self.old))))) }
        ensures token { token_of self.new ≡ token_of self.old }
    {
        self.close_in_scope(TagTest::Nothing, TagTest::Any(Names::Button))?;
        self.ordinary_start()?;
        self.frameset_not_ok();
        Ok(())
    }

    /// `a`.
    pub(crate) fn anchor_start(&mut self) -> Result<(), GrowError>
        ensures ok { OnOk result (builder_of self.new
            ≡ insert_formatting_element (token_of self.old).tag
            (reconstruct_formatting
            (anchor_ended (listed (token_of self.old).tag.name (builder_of self.old).active)
            (builder_of self.old)))) }
        ensures token { token_of self.new ≡ token_of self.old }
    {
        self.anchor_ended()?;
        self.format_start()
    }

    /// A formatting element, as `b` and `i`.
    pub(crate) fn format_start(&mut self) -> Result<(), GrowError>
        ensures ok { OnOk result (builder_of self.new
            ≡ insert_formatting_element (token_of self.old).tag
            (reconstruct_formatting (builder_of self.old))) }
        ensures token { token_of self.new ≡ token_of self.old }
    {
        self.reconstruct_formatting()?;
        self.insert_formatting_element()
    }

    fn nobr_opened(&mut self, name: &[u8]) -> Result<(), GrowError>
        ensures ok { OnOk result (builder_of self.new
            ≡ insert_formatting_element (token_of self.old).tag
            (nobr_ended name.now (reconstruct_formatting (builder_of self.old)))) }
        ensures token { token_of self.new ≡ token_of self.old }
    {
        self.reconstruct_formatting()?;
        self.nobr_ended(name)?;
        self.insert_formatting_element()
    }

    /// `nobr`.
    pub(crate) fn nobr_start(&mut self) -> Result<(), GrowError>
        ensures ok { OnOk result (builder_of self.new
            ≡ insert_formatting_element (token_of self.old).tag
            (nobr_ended (token_of self.old).tag.name
            (reconstruct_formatting (builder_of self.old)))) }
        ensures token { token_of self.new ≡ token_of self.old }
    {
        let name = self.token_name()?;
        self.nobr_opened(&name)
    }

    /// An element that marks the list, as `object`.
    pub(crate) fn mark_start(&mut self) -> Result<(), GrowError>
        ensures ok { OnOk result (builder_of self.new
            ≡ frameset_not_ok
            (insert_marker
            (insert_element (token_of self.old).tag
            (reconstruct_formatting (builder_of self.old))))) }
        ensures token { token_of self.new ≡ token_of self.old }
    {
        self.ordinary_start()?;
        self.frameset_not_ok();
        self.insert_marker()
    }

    /// `table`.
    pub(crate) fn table_start_in_body(&mut self) -> Result<(), GrowError>
        ensures ok { OnOk result (builder_of self.new
            ≡ table_start_in_body (builder_of self.old) (token_of self.old).tag) }
        ensures token { token_of self.new ≡ token_of self.old }
    {
        if !self.has_quirks() {
            self.close_p()?;
        }
        self.frameset_not_ok();
        self.switch_to(Mode::InTable);
        self.insert_element()
    }

    /// An element without content, as `br` and `embed`.
    pub(crate) fn void_start(&mut self) -> Result<(), GrowError>
        ensures ok { OnOk result (builder_of self.new
            ≡ void_start (builder_of self.old) (token_of self.old).tag) }
        ensures token { token_of self.new ≡ token_of self.old }
    {
        self.reconstruct_formatting()?;
        self.frameset_not_ok();
        self.insert_and_pop()
    }

    /// `image`, which is an `img`.
    pub(crate) fn image_start(&mut self) -> Result<(), GrowError>
        ensures ok { OnOk result (builder_of self.new
            ≡ void_start (builder_of self.old)
            (record (token_of self.old).tag { name = codes "img" })) }
        ensures token { token_of self.new ≡ token_of self.old }
    {
        self.reconstruct_formatting()?;
        self.frameset_not_ok();
        self.insert_and_pop_as(b"img")
    }

    fn input_inserted(&mut self) -> Result<(), GrowError>
        ensures ok { OnOk result (builder_of self.new
            ≡ input_inserted (token_of self.old).tag (builder_of self.old)) }
        ensures token { token_of self.new ≡ token_of self.old }
    {
        self.select_closed()?;
        self.reconstruct_formatting()?;
        self.insert_and_pop()?;
        if self.token_has_value(b"type", b"hidden") {
            return Ok(());
        }
        self.frameset_not_ok();
        Ok(())
    }

    /// `input`.
    pub(crate) fn input_start(&mut self) -> Result<(), GrowError>
        ensures ok { OnOk result (builder_of self.new
            ≡ if is_context is_select (builder_of self.old).context then builder_of self.old
            else input_inserted (token_of self.old).tag (builder_of self.old)) }
        ensures token { token_of self.new ≡ token_of self.old }
    {
        if self.is_context(TagTest::Any(Names::Select)) {
            return Ok(());
        }
        self.input_inserted()
    }

    fn rule_inserted(&mut self) -> Result<(), GrowError>
        ensures ok { OnOk result (builder_of self.new
            ≡ rule_start (builder_of self.old) (token_of self.old).tag) }
        ensures token { token_of self.new ≡ token_of self.old }
    {
        if self.has_in_scope(TagTest::Any(Names::Select)) {
            self.generate_implied_end_tags()?;
        }
        self.insert_and_pop()
    }

    /// `hr`.
    pub(crate) fn rule_start(&mut self) -> Result<(), GrowError>
        ensures ok { OnOk result (builder_of self.new
            ≡ frameset_not_ok
            (rule_start (close_p (builder_of self.old)) (token_of self.old).tag)) }
        ensures token { token_of self.new ≡ token_of self.old }
    {
        self.close_p()?;
        self.rule_inserted()?;
        self.frameset_not_ok();
        Ok(())
    }

    /// `textarea`.
    pub(crate) fn textarea_start(&mut self) -> Result<(), GrowError>
        ensures ok { OnOk result (builder_of self.new
            ≡ textarea_start (builder_of self.old) (token_of self.old).tag) }
        ensures token { token_of self.new ≡ token_of self.old }
    {
        self.frameset_not_ok();
        self.ignore_line_feed();
        self.parse_raw_text()
    }

    /// `xmp`.
    pub(crate) fn example_start(&mut self) -> Result<(), GrowError>
        ensures ok { OnOk result (builder_of self.new
            ≡ parse_raw_text (token_of self.old).tag
            (frameset_not_ok (reconstruct_formatting (close_p (builder_of self.old))))) }
        ensures token { token_of self.new ≡ token_of self.old }
    {
        self.close_p()?;
        self.reconstruct_formatting()?;
        self.iframe_start()
    }

    /// `iframe`.
    pub(crate) fn iframe_start(&mut self) -> Result<(), GrowError>
        ensures ok { OnOk result (builder_of self.new
            ≡ parse_raw_text (token_of self.old).tag (frameset_not_ok (builder_of self.old))) }
        ensures token { token_of self.new ≡ token_of self.old }
    {
        self.frameset_not_ok();
        self.parse_raw_text()
    }

    /// `noscript`.
    pub(crate) fn noscript_start_in_body(&mut self) -> Result<(), GrowError>
        ensures ok { OnOk result (builder_of self.new
            ≡ noscript_start_in_body (builder_of self.old) (token_of self.old).tag) }
        ensures token { token_of self.new ≡ token_of self.old }
    {
        if self.is_scripting() {
            return self.parse_raw_text();
        }
        self.ordinary_start()
    }

    /// `select`.
    pub(crate) fn select_start(&mut self) -> Result<(), GrowError>
        ensures ok { OnOk result (builder_of self.new
            ≡ select_start (builder_of self.old) (token_of self.old).tag) }
        ensures token { token_of self.new ≡ token_of self.old }
    {
        if self.is_context(TagTest::Any(Names::Select)) {
            return Ok(());
        }
        if self.has_in_scope(TagTest::Any(Names::Select)) {
            return self.pop_until(TagTest::Any(Names::Select));
        }
        self.ordinary_start()?;
        self.frameset_not_ok();
        Ok(())
    }

    /// `option` and `optgroup`.
    pub(crate) fn option_start(&mut self, but: TagTest<'_>) -> Result<(), GrowError>
        ensures ok { OnOk result (builder_of self.new
            ≡ option_start (tag_test_of but.entry) (builder_of self.old) (token_of self.old).tag) }
        ensures token { token_of self.new ≡ token_of self.old }
    {
        self.option_ended(but)?;
        self.ordinary_start()
    }

    /// A part of a ruby.
    pub(crate) fn ruby_start(&mut self, but: TagTest<'_>) -> Result<(), GrowError>
        ensures ok { OnOk result (builder_of self.new
            ≡ insert_element (token_of self.old).tag
            (ruby_closed (tag_test_of but.entry) (builder_of self.old))) }
        ensures token { token_of self.new ≡ token_of self.old }
    {
        self.ruby_closed(but)?;
        self.insert_element()
    }

    /// `math` and `svg`.
    pub(crate) fn foreign_start(&mut self, space: Namespace, closes: bool) -> Result<(), GrowError>
        ensures ok { OnOk result (builder_of self.new
            ≡ insert_foreign_element (space_of space) (token_of self.old).tag closes
            (reconstruct_formatting (builder_of self.old))) }
        ensures token { token_of self.new ≡ token_of self.old }
    {
        self.reconstruct_formatting()?;
        self.insert_foreign_element(space, closes)
    }

    /// Any other element.
    pub(crate) fn ordinary_start(&mut self) -> Result<(), GrowError>
        ensures ok { OnOk result (builder_of self.new
            ≡ insert_element (token_of self.old).tag
            (reconstruct_formatting (builder_of self.old))) }
        ensures token { token_of self.new ≡ token_of self.old }
    {
        self.reconstruct_formatting()?;
        self.insert_element()
    }
}
