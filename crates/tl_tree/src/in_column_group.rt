//! "in column group" (13.2.6.4.12).
ghost use Rattle.std.specs.Prelude.{IfOk, OnOk, ◌≡◌};
ghost use Rattle.tl_dom_spec.specs.Tables.{after_column_group, column_end, column_group_closed, column_start, in_column_group_step};
ghost use Rattle.tl_tree.specs.Inner.Builders.{builder_of, outcome_of, token_of, token_view};
ghost use Rattle.tl_tree.specs.Inner.GroupNames.{group_view as group_of};

use crate::builder::Builder;
use crate::error::GrowError;
use crate::group::Group;
use crate::mode::Mode;
use crate::names::Names;
use crate::outcome::Outcome;
use crate::test::TagTest;
use crate::token::Token;

impl<'a> Builder<'a> {
    fn column_group_closed(&mut self) -> Result<(), GrowError>
        ensures ok { OnOk result (builder_of self.new ≡ column_group_closed (builder_of self.old)) }
        ensures token { token_of self.new ≡ token_of self.old }
    {
        self.switch_to(Mode::InTable);
        self.pop_current_node()
    }

    fn after_column_group(&mut self) -> Result<Outcome, GrowError>
        ensures ok { IfOk result (λ outcome. outcome_of outcome (builder_of self.new)
            ≡ after_column_group (builder_of self.old)) }
        ensures token { token_of self.new ≡ token_of self.old }
    {
        if !self.is_current(TagTest::Any(Names::Colgroup)) {
            return Ok(Outcome::Done);
        }
        Outcome::Again.after(self.column_group_closed())
    }

    // A start tag.
    fn column_start(&mut self, group: Group) -> Result<Outcome, GrowError>
        ensures ok { IfOk result (λ outcome. outcome_of outcome (builder_of self.new)
            ≡ column_start (builder_of self.old) (group_of group) (token_of self.old).tag) }
        ensures token { token_of self.new ≡ token_of self.old }
    {
        match group {
            Group::TheHtml => Outcome::Done.after(self.html_start()),
            Group::AColumn => Outcome::Done.after(self.insert_and_pop()),
            Group::ATemplate => self.in_head_start(group),
            _ => self.after_column_group(),
        }
    }

    // An end tag.
    fn column_end(&mut self, group: Group) -> Result<Outcome, GrowError>
        ensures ok { IfOk result (λ outcome. outcome_of outcome (builder_of self.new)
            ≡ column_end (builder_of self.old) (group_of group)) }
        ensures token { token_of self.new ≡ token_of self.old }
    {
        match group {
            Group::AColumnGroup if self.is_current(TagTest::Any(Names::Colgroup)) => {
                Outcome::Done.after(self.column_group_closed())
            }
            Group::ATemplate => Outcome::Done.after(self.template_end_tag()),
            Group::AColumnGroup | Group::AColumn => Ok(Outcome::Done),
            _ => self.after_column_group(),
        }
    }

    pub(crate) fn in_column_group(&mut self, token: Token<'_>) -> Result<Outcome, GrowError>
        ensures ok { IfOk result (λ outcome. outcome_of outcome (builder_of self.new)
            ≡ in_column_group_step (builder_of self.old)
            (token_view token.entry (token_of self.old))) }
        ensures token { token_of self.new ≡ token_of self.old }
    {
        match token {
            Token::Character(byte) if byte.is_ascii_whitespace() => self.character_inserted(byte),
            Token::Character(_) => self.after_column_group(),
            Token::Comment => self.comment_inserted(),
            Token::Doctype => Ok(Outcome::Done),
            Token::Start { group, closes: _ } => self.column_start(group),
            Token::End { group, name: _ } => self.column_end(group),
            Token::EndOfFile => self.file_ended(),
        }
    }
}
