//! "in table body" (13.2.6.4.13).
ghost use Rattle.std.specs.Prelude.{IfOk, OnOk, ◌≡◌};
ghost use Rattle.tl_dom_spec.specs.Tables.{after_table_body, body_closed, in_table_body_step, table_body_end, table_body_start};
ghost use Rattle.tl_tree.specs.Inner.Builders.{builder_of, outcome_of, token_of, token_view};
ghost use Rattle.tl_tree.specs.Inner.GroupNames.{group_view as group_of};

use crate::builder::Builder;
use crate::error::GrowError;
use crate::group::Group;
use crate::mode::Mode;
use crate::names::Names;
use crate::outcome::Outcome;
use crate::test::TagTest;
use crate::token::Token;

// Where clearing the stack back to a table body context ends.
const TABLE_BODY_CONTEXT: TagTest<'static> = TagTest::Any(Names::BodyContext);

impl<'a> Builder<'a> {
    fn body_closed(&mut self) -> Result<(), GrowError>
        ensures ok { OnOk result (builder_of self.new ≡ body_closed (builder_of self.old)) }
        ensures token { token_of self.new ≡ token_of self.old }
    {
        self.clear_stack_back_to(TABLE_BODY_CONTEXT)?;
        self.switch_to(Mode::InTable);
        self.pop_current_node()
    }

    fn after_table_body(&mut self) -> Result<Outcome, GrowError>
        ensures ok { IfOk result (λ outcome. outcome_of outcome (builder_of self.new)
            ≡ after_table_body (builder_of self.old)) }
        ensures token { token_of self.new ≡ token_of self.old }
    {
        if !self.has_in_table_scope(TagTest::Any(Names::Sections)) {
            return Ok(Outcome::Done);
        }
        Outcome::Again.after(self.body_closed())
    }

    // A start tag.
    fn table_body_start(&mut self, group: Group, closes: bool) -> Result<Outcome, GrowError>
        ensures ok { IfOk result (λ outcome. outcome_of outcome (builder_of self.new)
            ≡ table_body_start (builder_of self.old) (group_of group) (token_of self.old).tag
            closes) }
        ensures token { token_of self.new ≡ token_of self.old }
    {
        match group {
            Group::ARow => Outcome::Done.after(self.open_in(TABLE_BODY_CONTEXT, Mode::InRow)),
            Group::ACell => self.imply_in(TABLE_BODY_CONTEXT, b"tr", Mode::InRow),
            Group::ACaption | Group::AColumn | Group::AColumnGroup | Group::ATableBody => {
                self.after_table_body()
            }
            _ => self.table_start(group, closes),
        }
    }

    // An end tag.
    fn table_body_end(&mut self, group: Group, name: &[u8]) -> Result<Outcome, GrowError>
        ensures ok { IfOk result (λ outcome. outcome_of outcome (builder_of self.new)
            ≡ table_body_end (builder_of self.old) (group_of group) name.now) }
        ensures token { token_of self.new ≡ token_of self.old }
    {
        match group {
            Group::ATableBody if self.has_in_table_scope(TagTest::Named(name)) =>
                Outcome::Done.after(self.body_closed()),
            Group::ATableBody => Ok(Outcome::Done),
            Group::ATable => self.after_table_body(),
            _ => self.table_end(group, name),
        }
    }

    pub(crate) fn in_table_body(&mut self, token: Token<'_>) -> Result<Outcome, GrowError>
        ensures ok { IfOk result (λ outcome. outcome_of outcome (builder_of self.new)
            ≡ in_table_body_step (builder_of self.old)
            (token_view token.entry (token_of self.old))) }
        ensures token { token_of self.new ≡ token_of self.old }
    {
        match token {
            Token::Start { group, closes } => self.table_body_start(group, closes),
            Token::End { group, name } => self.table_body_end(group, name),
            _ => self.in_table(token),
        }
    }
}
