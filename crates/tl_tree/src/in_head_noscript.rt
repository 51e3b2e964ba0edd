//! "in head noscript" (13.2.6.4.5).
ghost use Rattle.std.specs.Prelude.{IfOk, OnOk, ◌≡◌};
ghost use Rattle.tl_dom_spec.specs.Builder.{Again};
ghost use Rattle.tl_dom_spec.specs.Head.{in_head_noscript_step, noscript_closed, noscript_end, noscript_start};
ghost use Rattle.tl_tree.specs.Inner.Builders.{builder_of, outcome_of, token_of, token_view};
ghost use Rattle.tl_tree.specs.Inner.GroupNames.{group_view as group_of};

use crate::builder::Builder;
use crate::error::GrowError;
use crate::group::Group;
use crate::mode::Mode;
use crate::outcome::Outcome;
use crate::token::Token;

impl<'a> Builder<'a> {
    fn noscript_closed(&mut self) -> Result<(), GrowError>
        ensures ok { OnOk result (builder_of self.new ≡ noscript_closed (builder_of self.old)) }
        ensures token { token_of self.new ≡ token_of self.old }
    {
        self.switch_to(Mode::InHead);
        self.pop_current_node()
    }

    // The same, and the token is processed again.
    fn noscript_left(&mut self) -> Result<Outcome, GrowError>
        ensures ok { IfOk result (λ outcome. outcome_of outcome (builder_of self.new)
            ≡ Again (noscript_closed (builder_of self.old))) }
        ensures token { token_of self.new ≡ token_of self.old }
    {
        Outcome::Again.after(self.noscript_closed())
    }

    fn noscript_start(&mut self, group: Group) -> Result<Outcome, GrowError>
        ensures ok { IfOk result (λ outcome. outcome_of outcome (builder_of self.new)
            ≡ noscript_start (builder_of self.old) (group_of group) (token_of self.old).tag) }
        ensures token { token_of self.new ≡ token_of self.old }
    {
        match group {
            Group::TheHtml => Outcome::Done.after(self.html_start()),
            Group::ALink | Group::ANoframes | Group::AStyle => self.in_head_start(group),
            Group::TheHead | Group::ANoscript => Ok(Outcome::Done),
            _ => self.noscript_left(),
        }
    }

    fn noscript_end(&mut self, group: Group) -> Result<Outcome, GrowError>
        ensures ok { IfOk result (λ outcome. outcome_of outcome (builder_of self.new)
            ≡ noscript_end (builder_of self.old) (group_of group)) }
        ensures token { token_of self.new ≡ token_of self.old }
    {
        match group {
            Group::ANoscript => Outcome::Done.after(self.noscript_closed()),
            Group::ABreak => self.noscript_left(),
            _ => Ok(Outcome::Done),
        }
    }

    pub(crate) fn in_head_noscript(&mut self, token: Token<'_>) -> Result<Outcome, GrowError>
        ensures ok { IfOk result (λ outcome. outcome_of outcome (builder_of self.new)
            ≡ in_head_noscript_step (builder_of self.old)
            (token_view token.entry (token_of self.old))) }
        ensures token { token_of self.new ≡ token_of self.old }
    {
        match token {
            Token::Character(byte) => {
                if byte.is_ascii_whitespace() {
                    return self.character_inserted(byte);
                }
                self.noscript_left()
            }
            Token::Comment => self.comment_inserted(),
            Token::Doctype => Ok(Outcome::Done),
            Token::Start { group, .. } => self.noscript_start(group),
            Token::End { group, .. } => self.noscript_end(group),
            Token::EndOfFile => self.noscript_left(),
        }
    }
}
