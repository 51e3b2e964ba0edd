//! "in cell" (13.2.6.4.15).
ghost use Rattle.std.specs.Prelude.{IfOk, OnOk, ◌≡◌};
ghost use Rattle.tl_dom_spec.specs.Tables.{after_cell, after_cell_in, cell_closed, cell_end, cell_start, in_cell_step};
ghost use Rattle.tl_tree.specs.Inner.Builders.{builder_of, outcome_of, token_of, token_view};
ghost use Rattle.tl_tree.specs.Inner.GroupNames.{group_view as group_of};
ghost use Rattle.tl_tree.specs.Inner.Tests.{tag_test_of};

use crate::builder::Builder;
use crate::error::GrowError;
use crate::group::Group;
use crate::mode::Mode;
use crate::names::Names;
use crate::outcome::Outcome;
use crate::test::TagTest;
use crate::token::Token;

impl<'a> Builder<'a> {
    fn cell_closed(&mut self, test: TagTest<'_>) -> Result<(), GrowError>
        ensures ok { OnOk result
            (builder_of self.new ≡ cell_closed (tag_test_of test.entry) (builder_of self.old)) }
        ensures token { token_of self.new ≡ token_of self.old }
    {
        self.clear_to_last_marker();
        self.switch_to(Mode::InRow);
        self.close_except_for(TagTest::Nothing, test)
    }

    fn after_cell(&mut self) -> Result<Outcome, GrowError>
        ensures ok { IfOk result (λ outcome. outcome_of outcome (builder_of self.new)
            ≡ after_cell (builder_of self.old)) }
        ensures token { token_of self.new ≡ token_of self.old }
    {
        if !self.has_in_table_scope(TagTest::Any(Names::Cells)) {
            return Ok(Outcome::Done);
        }
        Outcome::Again.after(self.cell_closed(TagTest::Any(Names::Cells)))
    }

    // An end tag of what a cell stands in.
    fn after_cell_in(&mut self, name: &[u8]) -> Result<Outcome, GrowError>
        ensures ok { IfOk result (λ outcome. outcome_of outcome (builder_of self.new)
            ≡ after_cell_in name.now (builder_of self.old)) }
        ensures token { token_of self.new ≡ token_of self.old }
    {
        if !self.has_in_table_scope(TagTest::Named(name)) {
            return Ok(Outcome::Done);
        }
        Outcome::Again.after(self.cell_closed(TagTest::Any(Names::Cells)))
    }

    // A start tag.
    fn cell_start(&mut self, group: Group, closes: bool) -> Result<Outcome, GrowError>
        ensures ok { IfOk result (λ outcome. outcome_of outcome (builder_of self.new)
            ≡ cell_start (builder_of self.old) (group_of group) (token_of self.old).tag closes) }
        ensures token { token_of self.new ≡ token_of self.old }
    {
        match group {
            Group::ACaption
            | Group::AColumn
            | Group::AColumnGroup
            | Group::ATableBody
            | Group::ACell
            | Group::ARow => { self.after_cell() }
            _ => self.in_body(Token::Start { group, closes }),
        }
    }

    // An end tag.
    fn cell_end(&mut self, group: Group, name: &[u8]) -> Result<Outcome, GrowError>
        ensures ok { IfOk result (λ outcome. outcome_of outcome (builder_of self.new)
            ≡ cell_end (builder_of self.old) (group_of group) name.now) }
        ensures token { token_of self.new ≡ token_of self.old }
    {
        match group {
            Group::ACell if self.has_in_table_scope(TagTest::Named(name)) => Outcome::Done.after(
                self.cell_closed(TagTest::Named(name)),
            ),
            Group::ACell
            | Group::TheBody
            | Group::ACaption
            | Group::AColumn
            | Group::AColumnGroup
            | Group::TheHtml => Ok(Outcome::Done),
            Group::ATable | Group::ATableBody | Group::ARow => self.after_cell_in(name),
            _ => self.in_body(Token::End { group, name }),
        }
    }

    pub(crate) fn in_cell(&mut self, token: Token<'_>) -> Result<Outcome, GrowError>
        ensures ok { IfOk result (λ outcome. outcome_of outcome (builder_of self.new)
            ≡ in_cell_step (builder_of self.old) (token_view token.entry (token_of self.old))) }
        ensures token { token_of self.new ≡ token_of self.old }
    {
        match token {
            Token::Start { group, closes } => self.cell_start(group, closes),
            Token::End { group, name } => self.cell_end(group, name),
            _ => self.in_body(token),
        }
    }
}
