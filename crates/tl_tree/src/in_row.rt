//! "in row" (13.2.6.4.14).
ghost use Rattle.std.specs.Prelude.{IfOk, OnOk, ◌≡◌};
ghost use Rattle.tl_dom_spec.specs.Tables.{after_row, in_row_step, row_closed, row_end, row_start};
ghost use Rattle.tl_tree.specs.Inner.Builders.{builder_of, outcome_of, token_of, token_view};
ghost use Rattle.tl_tree.specs.Inner.GroupNames.{group_view as group_of};

use crate::builder::Builder;
use crate::error::GrowError;
use crate::group::Group;
use crate::mode::Mode;
use crate::names::Names;
use crate::outcome::Outcome;
use crate::test::TagTest;
use crate::token::Token;

// Where clearing the stack back to a table row context ends.
const TABLE_ROW_CONTEXT: TagTest<'static> = TagTest::Any(Names::RowContext);

impl<'a> Builder<'a> {
    fn row_closed(&mut self) -> Result<(), GrowError>
        ensures ok { OnOk result (builder_of self.new ≡ row_closed (builder_of self.old)) }
        ensures token { token_of self.new ≡ token_of self.old }
    {
        self.clear_stack_back_to(TABLE_ROW_CONTEXT)?;
        self.switch_to(Mode::InTableBody);
        self.pop_current_node()
    }

    fn after_row(&mut self) -> Result<Outcome, GrowError>
        ensures ok { IfOk result (λ outcome. outcome_of outcome (builder_of self.new)
            ≡ after_row (builder_of self.old)) }
        ensures token { token_of self.new ≡ token_of self.old }
    {
        if !self.has_in_table_scope(TagTest::Any(Names::Row)) {
            return Ok(Outcome::Done);
        }
        Outcome::Again.after(self.row_closed())
    }

    // A start tag.
    fn row_start(&mut self, group: Group, closes: bool) -> Result<Outcome, GrowError>
        ensures ok { IfOk result (λ outcome. outcome_of outcome (builder_of self.new)
            ≡ row_start (builder_of self.old) (group_of group) (token_of self.old).tag closes) }
        ensures token { token_of self.new ≡ token_of self.old }
    {
        match group {
            Group::ACell => {
                self.open_in(TABLE_ROW_CONTEXT, Mode::InCell)?;
                Outcome::Done.after(self.insert_marker())
            }
            Group::ACaption
            | Group::AColumn
            | Group::AColumnGroup
            | Group::ATableBody
            | Group::ARow => { self.after_row() }
            _ => self.table_start(group, closes),
        }
    }

    // An end tag.
    fn row_end(&mut self, group: Group, name: &[u8]) -> Result<Outcome, GrowError>
        ensures ok { IfOk result (λ outcome. outcome_of outcome (builder_of self.new)
            ≡ row_end (builder_of self.old) (group_of group) name.now) }
        ensures token { token_of self.new ≡ token_of self.old }
    {
        match group {
            Group::ARow if self.has_in_table_scope(TagTest::Any(Names::Row)) => Outcome::Done.after(
                self.row_closed(),
            ),
            Group::ATable => self.after_row(),
            Group::ATableBody if self.has_in_table_scope(TagTest::Named(name)) => self.after_row(),
            Group::ARow | Group::ATableBody => Ok(Outcome::Done),
            _ => self.table_end(group, name),
        }
    }

    pub(crate) fn in_row(&mut self, token: Token<'_>) -> Result<Outcome, GrowError>
        ensures ok { IfOk result (λ outcome. outcome_of outcome (builder_of self.new)
            ≡ in_row_step (builder_of self.old) (token_view token.entry (token_of self.old))) }
        ensures token { token_of self.new ≡ token_of self.old }
    {
        match token {
            Token::Start { group, closes } => self.row_start(group, closes),
            Token::End { group, name } => self.row_end(group, name),
            _ => self.in_table(token),
        }
    }
}
