//! "in table" (13.2.6.4.9).
ghost use Rattle.std.specs.Prelude.{IfOk, OnOk, ◌≡◌};
ghost use Rattle.tl_dom_spec.specs.Builder.{Again, clear_stack_back_to, insert_element, insert_implied, switch_to};
ghost use Rattle.tl_dom_spec.specs.Tables.{in_table_step, table_character, table_closed, table_end, table_form, table_start, with_foster_parenting};
ghost use Rattle.tl_tree.specs.Inner.Builders.{builder_of, outcome_of, token_of, token_view};
ghost use Rattle.tl_tree.specs.Inner.GroupNames.{group_view as group_of};
ghost use Rattle.tl_tree.specs.Inner.Modes.{mode_of};
ghost use Rattle.tl_tree.specs.Inner.Tests.{tag_test_of};

use crate::builder::Builder;
use crate::error::GrowError;
use crate::group::Group;
use crate::mode::Mode;
use crate::names::Names;
use crate::outcome::Outcome;
use crate::test::TagTest;
use crate::token::Token;

// Where clearing the stack back to a table context ends.
const TABLE_CONTEXT: TagTest<'static> = TagTest::Any(Names::TableContext);

impl<'a> Builder<'a> {
    // Anything else: by the rules of "in body", with foster parenting.
    fn with_foster_parenting(&mut self, token: Token<'_>) -> Result<Outcome, GrowError>
        ensures ok { IfOk result (λ outcome. outcome_of outcome (builder_of self.new)
            ≡ with_foster_parenting (builder_of self.old)
            (token_view token.entry (token_of self.old))) }
        ensures token { token_of self.new ≡ token_of self.old }
    {
        self.set_fostering(true);
        let outcome = self.in_body(token)?;
        self.set_fostering(false);
        Ok(outcome)
    }

    fn table_closed(&mut self) -> Result<(), GrowError>
        ensures ok { OnOk result (builder_of self.new ≡ table_closed (builder_of self.old)) }
        ensures token { token_of self.new ≡ token_of self.old }
    {
        self.pop_until(TagTest::Any(Names::Table))?;
        self.reset_insertion_mode()
    }

    /// Clears the stack back to a context, inserts an element for the token there, and switches to
    /// a mode.
    pub(crate) fn open_in(&mut self, context: TagTest<'_>, mode: Mode) -> Result<(), GrowError>
        ensures ok { OnOk result (builder_of self.new
            ≡ switch_to (mode_of mode)
            (insert_element (token_of self.old).tag
            (clear_stack_back_to (tag_test_of context.entry) (builder_of self.old)))) }
        ensures token { token_of self.new ≡ token_of self.old }
    {
        self.clear_stack_back_to(context)?;
        self.switch_to(mode);
        self.insert_element()
    }

    /// The same for an element whose start tag is missing. The token is reprocessed.
    pub(crate) fn imply_in(
        &mut self,
        context: TagTest<'_>,
        name: &'static [u8],
        mode: Mode,
    ) -> Result<Outcome, GrowError>
        ensures ok { IfOk result (λ outcome. outcome_of outcome (builder_of self.new)
            ≡ Again (switch_to (mode_of mode)
            (insert_implied name.now
            (clear_stack_back_to (tag_test_of context.entry) (builder_of self.old))))) }
        ensures token { token_of self.new ≡ token_of self.old }
    {
        self.clear_stack_back_to(context)?;
        self.switch_to(mode);
        Outcome::Again.after(self.insert_implied(name))
    }

    // The number of the next element.
    fn next_number(&self) -> u32
        ensures { result ≡ (builder_of self.now).next }
    {
        self.path.next
    }

    // A form in a table is empty.
    fn table_form(&mut self) -> Result<(), GrowError>
        ensures ok { OnOk result (builder_of self.new
            ≡ table_form (builder_of self.old).form (builder_of self.old) (token_of self.old).tag) }
        ensures token { token_of self.new ≡ token_of self.old }
    {
        if self.form().is_some() || self.has_template() {
            return Ok(());
        }
        let number = self.next_number();
        self.set_form(Some(number));
        self.insert_and_pop()
    }

    /// A start tag.
    pub(crate) fn table_start(&mut self, group: Group, closes: bool) -> Result<Outcome, GrowError>
        ensures ok { IfOk result (λ outcome. outcome_of outcome (builder_of self.new)
            ≡ table_start (builder_of self.old) (group_of group) (token_of self.old).tag closes) }
        ensures token { token_of self.new ≡ token_of self.old }
    {
        match group {
            Group::ACaption => {
                self.open_in(TABLE_CONTEXT, Mode::InCaption)?;
                Outcome::Done.after(self.insert_marker())
            }
            Group::AColumnGroup => {
                Outcome::Done.after(self.open_in(TABLE_CONTEXT, Mode::InColumnGroup))
            }
            Group::ATableBody => {
                Outcome::Done.after(self.open_in(TABLE_CONTEXT, Mode::InTableBody))
            }
            Group::AForm => Outcome::Done.after(self.table_form()),
            Group::AColumn => self.imply_in(TABLE_CONTEXT, b"colgroup", Mode::InColumnGroup),
            Group::ACell | Group::ARow => {
                self.imply_in(TABLE_CONTEXT, b"tbody", Mode::InTableBody)
            }
            Group::ATable if self.has_in_table_scope(TagTest::Any(Names::Table)) => {
                Outcome::Again.after(self.table_closed())
            }
            Group::ATable => Ok(Outcome::Done),
            // An input that is hidden stays in the table.
            Group::AnInput if self.token_has_value(b"type", b"hidden") => {
                Outcome::Done.after(self.insert_and_pop())
            }
            Group::AStyle | Group::AScript | Group::ATemplate => self.in_head_start(group),
            _ => self.with_foster_parenting(Token::Start { group, closes }),
        }
    }

    /// An end tag.
    pub(crate) fn table_end(&mut self, group: Group, name: &[u8]) -> Result<Outcome, GrowError>
        ensures ok { IfOk result (λ outcome. outcome_of outcome (builder_of self.new)
            ≡ table_end (builder_of self.old) (group_of group) name.now) }
        ensures token { token_of self.new ≡ token_of self.old }
    {
        match group {
            Group::ATable if self.has_in_table_scope(TagTest::Any(Names::Table)) => {
                Outcome::Done.after(self.table_closed())
            }
            Group::ATemplate => Outcome::Done.after(self.template_end_tag()),
            Group::ATable
            | Group::TheBody
            | Group::ACaption
            | Group::AColumn
            | Group::AColumnGroup
            | Group::TheHtml
            | Group::ATableBody
            | Group::ACell
            | Group::ARow => Ok(Outcome::Done),
            _ => self.with_foster_parenting(Token::End { group, name }),
        }
    }

    fn table_character(&mut self, byte: u8) -> Result<Outcome, GrowError>
        ensures ok { IfOk result (λ outcome. outcome_of outcome (builder_of self.new)
            ≡ table_character (builder_of self.old) byte) }
        ensures token { token_of self.new ≡ token_of self.old }
    {
        let is_text = self.is_current(TagTest::Any(Names::FosterTargets))
            || self.is_current(TagTest::Any(Names::Template));
        if !is_text {
            return self.with_foster_parenting(Token::Character(byte));
        }
        self.await_text();
        Ok(Outcome::Again)
    }

    pub(crate) fn in_table(&mut self, token: Token<'_>) -> Result<Outcome, GrowError>
        ensures ok { IfOk result (λ outcome. outcome_of outcome (builder_of self.new)
            ≡ in_table_step (builder_of self.old) (token_view token.entry (token_of self.old))) }
        ensures token { token_of self.new ≡ token_of self.old }
    {
        match token {
            Token::Character(byte) => self.table_character(byte),
            Token::Comment => self.comment_inserted(),
            Token::Doctype => Ok(Outcome::Done),
            Token::Start { group, closes } => self.table_start(group, closes),
            Token::End { group, name } => self.table_end(group, name),
            Token::EndOfFile => self.file_ended(),
        }
    }
}
