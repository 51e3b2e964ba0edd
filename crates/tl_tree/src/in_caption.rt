//! "in caption" (13.2.6.4.11).
ghost use Rattle.std.specs.Prelude.{IfOk, OnOk, ◌≡◌};
ghost use Rattle.tl_dom_spec.specs.Tables.{after_caption, caption_closed, caption_end, caption_start, in_caption_step};
ghost use Rattle.tl_tree.specs.Inner.Builders.{builder_of, outcome_of, token_of, token_view};
ghost use Rattle.tl_tree.specs.Inner.GroupNames.{group_view as group_of};

use crate::builder::Builder;
use crate::error::GrowError;
use crate::group::Group;
use crate::mode::Mode;
use crate::names::Names;
use crate::outcome::Outcome;
use crate::test::TagTest;
use crate::token::Token;

impl<'a> Builder<'a> {
    fn caption_closed(&mut self) -> Result<(), GrowError>
        ensures ok { OnOk result (builder_of self.new ≡ caption_closed (builder_of self.old)) }
        ensures token { token_of self.new ≡ token_of self.old }
    {
        self.clear_to_last_marker();
        self.switch_to(Mode::InTable);
        self.close_except_for(TagTest::Nothing, TagTest::Any(Names::Caption))
    }

    fn after_caption(&mut self) -> Result<Outcome, GrowError>
        ensures ok { IfOk result (λ outcome. outcome_of outcome (builder_of self.new)
            ≡ after_caption (builder_of self.old)) }
        ensures token { token_of self.new ≡ token_of self.old }
    {
        if !self.has_in_table_scope(TagTest::Any(Names::Caption)) {
            return Ok(Outcome::Done);
        }
        Outcome::Again.after(self.caption_closed())
    }

    // A start tag.
    fn caption_start(&mut self, group: Group, closes: bool) -> Result<Outcome, GrowError>
        ensures ok { IfOk result (λ outcome. outcome_of outcome (builder_of self.new)
            ≡ caption_start (builder_of self.old) (group_of group) (token_of self.old).tag closes) }
        ensures token { token_of self.new ≡ token_of self.old }
    {
        match group {
            Group::ACaption
            | Group::AColumn
            | Group::AColumnGroup
            | Group::ATableBody
            | Group::ACell
            | Group::ARow => { self.after_caption() }
            _ => self.in_body(Token::Start { group, closes }),
        }
    }

    // An end tag.
    fn caption_end(&mut self, group: Group, name: &[u8]) -> Result<Outcome, GrowError>
        ensures ok { IfOk result (λ outcome. outcome_of outcome (builder_of self.new)
            ≡ caption_end (builder_of self.old) (group_of group) name.now) }
        ensures token { token_of self.new ≡ token_of self.old }
    {
        match group {
            Group::ACaption if self.has_in_table_scope(TagTest::Any(Names::Caption)) =>
                Outcome::Done.after(self.caption_closed()),
            Group::ATable => self.after_caption(),
            Group::ACaption
            | Group::TheBody
            | Group::AColumn
            | Group::AColumnGroup
            | Group::TheHtml
            | Group::ATableBody
            | Group::ACell
            | Group::ARow => Ok(Outcome::Done),
            _ => self.in_body(Token::End { group, name }),
        }
    }

    pub(crate) fn in_caption(&mut self, token: Token<'_>) -> Result<Outcome, GrowError>
        ensures ok { IfOk result (λ outcome. outcome_of outcome (builder_of self.new)
            ≡ in_caption_step (builder_of self.old) (token_view token.entry (token_of self.old))) }
        ensures token { token_of self.new ≡ token_of self.old }
    {
        match token {
            Token::Start { group, closes } => self.caption_start(group, closes),
            Token::End { group, name } => self.caption_end(group, name),
            _ => self.in_body(token),
        }
    }
}
