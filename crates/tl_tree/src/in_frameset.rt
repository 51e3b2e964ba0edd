//! "in frameset" (13.2.6.4.18).
ghost use Rattle.std.specs.Char.{is_ascii_whitespace};
ghost use Rattle.std.specs.Prelude.{IfOk, OnOk, if◌then◌else◌, ◌≡◌};
ghost use Rattle.tl_dom_spec.specs.Builder.{insert_character};
ghost use Rattle.tl_dom_spec.specs.Outer.{frameset_closed, frameset_end, frameset_start, in_frameset_step};
ghost use Rattle.tl_tree.specs.Inner.Builders.{builder_of, outcome_of, token_of, token_view};
ghost use Rattle.tl_tree.specs.Inner.GroupNames.{group_view as group_of};

use crate::builder::Builder;
use crate::error::GrowError;
use crate::group::Group;
use crate::mode::Mode;
use crate::names::Names;
use crate::outcome::Outcome;
use crate::test::TagTest;
use crate::token::Token;

impl<'a> Builder<'a> {
    // A start tag.
    fn in_frameset_start(&mut self, group: Group) -> Result<Outcome, GrowError>
        ensures ok { IfOk result (λ outcome. outcome_of outcome (builder_of self.new)
            ≡ frameset_start (builder_of self.old) (group_of group) (token_of self.old).tag) }
        ensures token { token_of self.new ≡ token_of self.old }
    {
        match group {
            Group::TheHtml => Outcome::Done.after(self.html_start()),
            Group::AFrameset => Outcome::Done.after(self.insert_element()),
            Group::AFrame => Outcome::Done.after(self.insert_and_pop()),
            Group::ANoframes => self.in_head_start(group),
            _ => Ok(Outcome::Done),
        }
    }

    fn frameset_closed(&mut self) -> Result<(), GrowError>
        ensures ok { OnOk result (builder_of self.new ≡ frameset_closed (builder_of self.old)) }
        ensures token { token_of self.new ≡ token_of self.old }
    {
        self.pop_current_node()?;
        if self.is_fragment() || self.is_current(TagTest::Any(Names::Frameset)) {
            return Ok(());
        }
        self.switch_to(Mode::AfterFrameset);
        Ok(())
    }

    // An end tag.
    fn frameset_end(&mut self, group: Group) -> Result<(), GrowError>
        ensures ok { OnOk result
            (builder_of self.new ≡ frameset_end (builder_of self.old) (group_of group)) }
        ensures token { token_of self.new ≡ token_of self.old }
    {
        match group {
            Group::AFrameset if !self.is_only_element() => self.frameset_closed(),
            _ => Ok(()),
        }
    }

    /// Inserts white space alone.
    pub(crate) fn insert_whitespace(&mut self, byte: u8) -> Result<(), GrowError>
        ensures ok { OnOk result (builder_of self.new
            ≡ (if is_ascii_whitespace byte then insert_character byte (builder_of self.old)
            else builder_of self.old)) }
        ensures token { token_of self.new ≡ token_of self.old }
    {
        if !byte.is_ascii_whitespace() {
            return Ok(());
        }
        self.insert_character(byte)
    }

    pub(crate) fn in_frameset(&mut self, token: Token<'_>) -> Result<Outcome, GrowError>
        ensures ok { IfOk result (λ outcome. outcome_of outcome (builder_of self.new)
            ≡ in_frameset_step (builder_of self.old) (token_view token.entry (token_of self.old))) }
        ensures token { token_of self.new ≡ token_of self.old }
    {
        match token {
            Token::Character(byte) => Outcome::Done.after(self.insert_whitespace(byte)),
            Token::Comment => self.comment_inserted(),
            Token::Start { group, closes: _ } => self.in_frameset_start(group),
            Token::End { group, name: _ } => Outcome::Done.after(self.frameset_end(group)),
            Token::Doctype | Token::EndOfFile => Ok(Outcome::Done),
        }
    }
}
