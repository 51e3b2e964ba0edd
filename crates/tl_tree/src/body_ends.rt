//! What end tags do "in body" (13.2.6.4.7).
ghost use Rattle.std.specs.Prelude.{IfOk, OnOk, codes, if◌then◌else◌, ◌≡◌};
ghost use Rattle.tl_dom_spec.specs.Body.{form_ended, item_ended, mark_ended, p_ended, void_start};
ghost use Rattle.tl_dom_spec.specs.Builder.{Again, Done, add_one, after_body, has_in_button_scope, has_in_scope, insert_implied, switch_to};
ghost use Rattle.tl_dom_spec.specs.Tags.{bare_tag, is_any, is_paragraph};
ghost use Rattle.tl_tree.specs.Inner.Builders.{builder_of, outcome_of, token_of};

use crate::builder::Builder;
use crate::error::GrowError;
use crate::mode::Mode;
use crate::names::Names;
use crate::outcome::Outcome;
use crate::test::TagTest;

impl<'a> Builder<'a> {
    /// `body`.
    pub(crate) fn body_tag_end(&mut self) -> Result<(), GrowError>
        ensures ok { OnOk result (builder_of self.new
            ≡ (if has_in_scope (is_any (codes "body")) (builder_of self.old)
            then switch_to after_body (builder_of self.old)
            else builder_of self.old)) }
        ensures token { token_of self.new ≡ token_of self.old }
    {
        if self.has_in_scope(TagTest::Any(Names::Body)) {
            self.switch_to(Mode::AfterBody);
        }
        Ok(())
    }

    /// `html`.
    pub(crate) fn html_end(&mut self) -> Result<Outcome, GrowError>
        ensures ok { IfOk result (λ outcome. outcome_of outcome (builder_of self.new)
            ≡ (if has_in_scope (is_any (codes "body")) (builder_of self.old)
            then Again (switch_to after_body (builder_of self.old))
            else Done (builder_of self.old))) }
        ensures token { token_of self.new ≡ token_of self.old }
    {
        if !self.has_in_scope(TagTest::Any(Names::Body)) {
            return Ok(Outcome::Done);
        }
        self.switch_to(Mode::AfterBody);
        Ok(Outcome::Again)
    }

    // Inserts a `p`, where none is in button scope.
    fn p_implied(&mut self) -> Result<(), GrowError>
        ensures ok { OnOk result (builder_of self.new
            ≡ (if has_in_button_scope is_paragraph (builder_of self.old) then builder_of self.old
            else insert_implied (codes "p") (builder_of self.old))) }
        ensures token { token_of self.new ≡ token_of self.old }
    {
        if self.has_in_button_scope(TagTest::Any(Names::Paragraph)) {
            return Ok(());
        }
        self.insert_implied(b"p")
    }

    pub(crate) fn p_ended(&mut self) -> Result<(), GrowError>
        ensures ok { OnOk result (builder_of self.new ≡ p_ended (builder_of self.old)) }
        ensures token { token_of self.new ≡ token_of self.old }
    {
        self.p_implied()?;
        self.close_except_for(
            TagTest::Any(Names::Paragraph),
            TagTest::Any(Names::Paragraph),
        )
    }

    pub(crate) fn item_ended(&mut self) -> Result<(), GrowError>
        ensures ok { OnOk result (builder_of self.new ≡ item_ended (builder_of self.old)) }
        ensures token { token_of self.new ≡ token_of self.old }
    {
        if !self.has_in_list_item_scope(TagTest::Any(Names::Li)) {
            return Ok(());
        }
        self.close_except_for(TagTest::Any(Names::Li), TagTest::Any(Names::Li))
    }

    pub(crate) fn mark_ended(&mut self, name: &[u8]) -> Result<(), GrowError>
        ensures ok { OnOk result
            (builder_of self.new ≡ mark_ended name.now (builder_of self.old)) }
        ensures token { token_of self.new ≡ token_of self.old }
    {
        if !self.has_in_scope(TagTest::Named(name)) {
            return Ok(());
        }
        self.clear_to_last_marker();
        self.close_except_for(TagTest::Nothing, TagTest::Named(name))
    }

    pub(crate) fn form_ended(&mut self) -> Result<(), GrowError>
        ensures ok { OnOk result (builder_of self.new ≡ form_ended (builder_of self.old)) }
        ensures token { token_of self.new ≡ token_of self.old }
    {
        if self.has_template() {
            return self.close_in_scope(TagTest::Nothing, TagTest::Any(Names::Form));
        }
        let form = self.form();
        self.set_form(None);
        match form {
            Some(number) => self.form_taken_out(number),
            None => Ok(()),
        }
    }

    /// `br`, which is taken for its start tag, without attributes.
    pub(crate) fn break_ended(&mut self) -> Result<(), GrowError>
        ensures ok { OnOk result (builder_of self.new
            ≡ add_one (void_start (builder_of self.old) (bare_tag (codes "br")))) }
        ensures token { token_of self.new ≡ token_of self.old }
    {
        self.reconstruct_formatting()?;
        self.frameset_not_ok();
        self.insert_and_pop_implied(b"br")
    }
}
