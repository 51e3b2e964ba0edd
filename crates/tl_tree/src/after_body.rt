//! "after body" and "after after body" (13.2.6.4.17 and .20).
ghost use Rattle.std.specs.Prelude.{IfOk, ◌≡◌};
ghost use Rattle.tl_dom_spec.specs.Builder.{is_fragment};
ghost use Rattle.tl_dom_spec.specs.Outer.{after_after_body_step, after_body_end, after_body_start, after_body_step, back_in_body};
ghost use Rattle.tl_tree.specs.Inner.Builders.{builder_of, outcome_of, token_of, token_view};
ghost use Rattle.tl_tree.specs.Inner.GroupNames.{group_view as group_of};

use crate::builder::Builder;
use crate::error::GrowError;
use crate::group::Group;
use crate::mode::Mode;
use crate::outcome::Outcome;
use crate::token::Token;

impl<'a> Builder<'a> {
    /// Whether a fragment is read.
    pub(crate) fn is_fragment(&self) -> bool
        ensures { result ≡ is_fragment (builder_of self.now) }
    {
        self.context.is_some()
    }

    fn back_in_body(&mut self) -> Result<Outcome, GrowError>
        ensures ok { IfOk result (λ outcome. outcome_of outcome (builder_of self.new)
            ≡ back_in_body (builder_of self.old)) }
        ensures token { token_of self.new ≡ token_of self.old }
    {
        self.switch_to(Mode::InBody);
        Ok(Outcome::Again)
    }

    // A start tag.
    fn after_body_start(&mut self, group: Group) -> Result<Outcome, GrowError>
        ensures ok { IfOk result (λ outcome. outcome_of outcome (builder_of self.new)
            ≡ after_body_start (builder_of self.old) (group_of group) (token_of self.old).tag) }
        ensures token { token_of self.new ≡ token_of self.old }
    {
        match group {
            Group::TheHtml => Outcome::Done.after(self.html_start()),
            _ => self.back_in_body(),
        }
    }

    // An end tag.
    fn after_body_end(&mut self, group: Group) -> Result<Outcome, GrowError>
        ensures ok { IfOk result (λ outcome. outcome_of outcome (builder_of self.new)
            ≡ after_body_end (builder_of self.old) (group_of group)) }
        ensures token { token_of self.new ≡ token_of self.old }
    {
        match group {
            Group::TheHtml => {
                if !self.is_fragment() {
                    self.switch_to(Mode::AfterAfterBody);
                }
                Ok(Outcome::Done)
            }
            _ => self.back_in_body(),
        }
    }

    pub(crate) fn after_body(&mut self, token: Token<'_>) -> Result<Outcome, GrowError>
        ensures ok { IfOk result (λ outcome. outcome_of outcome (builder_of self.new)
            ≡ after_body_step (builder_of self.old) (token_view token.entry (token_of self.old))) }
        ensures token { token_of self.new ≡ token_of self.old }
    {
        match token {
            Token::Character(byte) if byte.is_ascii_whitespace() => self.in_body(token),
            Token::Character(_) => self.back_in_body(),
            Token::Comment => Outcome::Done.after(self.insert_comment_behind(1)),
            Token::Start { group, closes: _ } => self.after_body_start(group),
            Token::End { group, name: _ } => self.after_body_end(group),
            Token::Doctype | Token::EndOfFile => Ok(Outcome::Done),
        }
    }

    pub(crate) fn after_after_body(&mut self, token: Token<'_>) -> Result<Outcome, GrowError>
        ensures ok { IfOk result (λ outcome. outcome_of outcome (builder_of self.new)
            ≡ after_after_body_step (builder_of self.old)
            (token_view token.entry (token_of self.old))) }
        ensures token { token_of self.new ≡ token_of self.old }
    {
        match token {
            Token::Character(byte) if byte.is_ascii_whitespace() => self.in_body(token),
            Token::Character(_) => self.back_in_body(),
            Token::Comment => Outcome::Done.after(self.insert_comment_behind(0)),
            Token::Start { group, closes: _ } => self.after_body_start(group),
            Token::End { .. } => self.back_in_body(),
            Token::Doctype | Token::EndOfFile => Ok(Outcome::Done),
        }
    }
}
