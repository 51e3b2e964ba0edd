//! "after frameset" and "after after frameset" (13.2.6.4.19 and .21).
ghost use Rattle.std.specs.Prelude.{IfOk, ◌≡◌};
ghost use Rattle.tl_dom_spec.specs.Outer.{after_after_frameset_step, after_frameset_end, after_frameset_start, after_frameset_step};
ghost use Rattle.tl_tree.specs.Inner.Builders.{builder_of, outcome_of, token_of, token_view};
ghost use Rattle.tl_tree.specs.Inner.GroupNames.{group_view as group_of};

use crate::builder::Builder;
use crate::error::GrowError;
use crate::group::Group;
use crate::mode::Mode;
use crate::outcome::Outcome;
use crate::token::Token;

impl<'a> Builder<'a> {
    // A start tag.
    fn after_frameset_start(&mut self, group: Group) -> Result<Outcome, GrowError>
        ensures ok { IfOk result (λ outcome. outcome_of outcome (builder_of self.new)
            ≡ after_frameset_start (builder_of self.old) (group_of group) (token_of self.old).tag) }
        ensures token { token_of self.new ≡ token_of self.old }
    {
        match group {
            Group::TheHtml => Outcome::Done.after(self.html_start()),
            Group::ANoframes => self.in_head_start(group),
            _ => Ok(Outcome::Done),
        }
    }

    // An end tag.
    fn after_frameset_end(&mut self, group: Group)
        ensures ok { builder_of self.new
            ≡ after_frameset_end (builder_of self.old) (group_of group) }
        ensures token { token_of self.new ≡ token_of self.old }
    {
        if let Group::TheHtml = group {
            self.switch_to(Mode::AfterAfterFrameset);
        }
    }

    pub(crate) fn after_frameset(&mut self, token: Token<'_>) -> Result<Outcome, GrowError>
        ensures ok { IfOk result (λ outcome. outcome_of outcome (builder_of self.new)
            ≡ after_frameset_step (builder_of self.old)
            (token_view token.entry (token_of self.old))) }
        ensures token { token_of self.new ≡ token_of self.old }
    {
        match token {
            Token::Character(byte) => Outcome::Done.after(self.insert_whitespace(byte)),
            Token::Comment => self.comment_inserted(),
            Token::Start { group, closes: _ } => self.after_frameset_start(group),
            Token::End { group, name: _ } => {
                self.after_frameset_end(group);
                Ok(Outcome::Done)
            }
            Token::Doctype | Token::EndOfFile => Ok(Outcome::Done),
        }
    }

    pub(crate) fn after_after_frameset(&mut self, token: Token<'_>) -> Result<Outcome, GrowError>
        ensures ok { IfOk result (λ outcome. outcome_of outcome (builder_of self.new)
            ≡ after_after_frameset_step (builder_of self.old)
            (token_view token.entry (token_of self.old))) }
        ensures token { token_of self.new ≡ token_of self.old }
    {
        match token {
            Token::Character(byte) if byte.is_ascii_whitespace() => self.in_body(token),
            Token::Comment => Outcome::Done.after(self.insert_comment_behind(0)),
            Token::Start { group, closes: _ } => self.after_frameset_start(group),
            _ => Ok(Outcome::Done),
        }
    }
}
