//! "in template" (13.2.6.4.16).
ghost use Rattle.std.specs.Prelude.{IfOk, OnOk, ◌∷◌, ◌≡◌};
ghost use Rattle.tl_dom_spec.specs.Outer.{in_template_step, template_end, template_mode, template_start, template_turned};
ghost use Rattle.tl_dom_spec.specs.Reset.{templates_popped};
ghost use Rattle.tl_tree.specs.Inner.Builders.{builder_of, outcome_of, token_of, token_view};
ghost use Rattle.tl_tree.specs.Inner.GroupNames.{group_view as group_of};
ghost use Rattle.tl_tree.specs.Inner.Modes.{mode_of};

use crate::builder::Builder;
use crate::error::GrowError;
use crate::group::Group;
use crate::mode::Mode;
use crate::outcome::Outcome;
use crate::token::Token;

// The mode that a start tag of a group sets.
fn template_mode(group: Group) -> Mode
    ensures { mode_of result ≡ template_mode (group_of group) }
{
    match group {
        Group::ACaption | Group::AColumnGroup | Group::ATableBody => Mode::InTable,
        Group::AColumn => Mode::InColumnGroup,
        Group::ARow => Mode::InTableBody,
        Group::ACell => Mode::InRow,
        _ => Mode::InBody,
    }
}

impl<'a> Builder<'a> {
    // Changes the current template insertion mode.
    fn set_template_mode(&mut self, mode: Mode) -> Result<(), GrowError>
        ensures ok { OnOk result
            (builder_of self.new ≡ record (builder_of self.old) {
              templates = mode_of mode ∷ templates_popped (builder_of self.old).templates;
            }) }
        ensures token { token_of self.new ≡ token_of self.old }
    {
        let _ = self.templates.pop();
        self.templates.push(mode)?;
        Ok(())
    }

    fn template_turned(&mut self, mode: Mode) -> Result<(), GrowError>
        ensures ok { OnOk result
            (builder_of self.new ≡ template_turned (mode_of mode) (builder_of self.old)) }
        ensures token { token_of self.new ≡ token_of self.old }
    {
        self.switch_to(mode);
        self.set_template_mode(mode)
    }

    // A start tag.
    fn template_start(&mut self, group: Group) -> Result<Outcome, GrowError>
        ensures ok { IfOk result (λ outcome. outcome_of outcome (builder_of self.new)
            ≡ template_start (builder_of self.old) (group_of group) (token_of self.old).tag) }
        ensures token { token_of self.new ≡ token_of self.old }
    {
        match group {
            Group::ABase
            | Group::ALink
            | Group::ANoframes
            | Group::AScript
            | Group::AStyle
            | Group::ATemplate
            | Group::ATitle => self.in_head_start(group),
            _ => Outcome::Again.after(self.template_turned(template_mode(group))),
        }
    }

    // An end tag.
    fn template_end(&mut self, group: Group) -> Result<Outcome, GrowError>
        ensures ok { IfOk result (λ outcome. outcome_of outcome (builder_of self.new)
            ≡ template_end (builder_of self.old) (group_of group)) }
        ensures token { token_of self.new ≡ token_of self.old }
    {
        match group {
            Group::ATemplate => Outcome::Done.after(self.template_end_tag()),
            _ => Ok(Outcome::Done),
        }
    }

    pub(crate) fn in_template(&mut self, token: Token<'_>) -> Result<Outcome, GrowError>
        ensures ok { IfOk result (λ outcome. outcome_of outcome (builder_of self.new)
            ≡ in_template_step (builder_of self.old) (token_view token.entry (token_of self.old))) }
        ensures token { token_of self.new ≡ token_of self.old }
    {
        match token {
            Token::Start { group, closes: _ } => self.template_start(group),
            Token::End { group, name: _ } => self.template_end(group),
            _ => self.in_body(token),
        }
    }
}
