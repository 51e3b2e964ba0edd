//! "before html" (13.2.6.4.2).
ghost use Rattle.std.specs.Prelude.{IfOk, OnOk, ◌≡◌};
ghost use Rattle.tl_dom_spec.specs.Head.{before_html_start, before_html_step, html_implied, html_opened};
ghost use Rattle.tl_tree.specs.Inner.Builders.{builder_of, outcome_of, token_of, token_view};
ghost use Rattle.tl_tree.specs.Inner.GroupNames.{group_view as group_of};

use crate::builder::Builder;
use crate::error::GrowError;
use crate::group::Group;
use crate::head_ends::is_head_end;
use crate::mode::Mode;
use crate::outcome::Outcome;
use crate::token::Token;

impl<'a> Builder<'a> {
    pub(crate) fn html_opened(&mut self) -> Result<(), GrowError>
        ensures ok { OnOk result
            (builder_of self.new ≡ html_opened (builder_of self.old) (token_of self.old).tag) }
        ensures token { token_of self.new ≡ token_of self.old }
    {
        self.switch_to(Mode::BeforeHead);
        self.insert_element()
    }

    pub(crate) fn html_implied(&mut self) -> Result<Outcome, GrowError>
        ensures ok { IfOk result (λ outcome. outcome_of outcome (builder_of self.new)
            ≡ html_implied (builder_of self.old)) }
        ensures token { token_of self.new ≡ token_of self.old }
    {
        self.switch_to(Mode::BeforeHead);
        Outcome::Again.after(self.insert_implied(b"html"))
    }

    /// A start tag.
    pub(crate) fn before_html_start(&mut self, group: Group) -> Result<Outcome, GrowError>
        ensures ok { IfOk result (λ outcome. outcome_of outcome (builder_of self.new)
            ≡ before_html_start (builder_of self.old) (group_of group) (token_of self.old).tag) }
        ensures token { token_of self.new ≡ token_of self.old }
    {
        match group {
            Group::TheHtml => Outcome::Done.after(self.html_opened()),
            _ => self.html_implied(),
        }
    }

    pub(crate) fn before_html(&mut self, token: Token<'_>) -> Result<Outcome, GrowError>
        ensures ok { IfOk result (λ outcome. outcome_of outcome (builder_of self.new)
            ≡ before_html_step (builder_of self.old) (token_view token.entry (token_of self.old))) }
        ensures token { token_of self.new ≡ token_of self.old }
    {
        match token {
            Token::Character(byte) => {
                if byte.is_ascii_whitespace() {
                    return Ok(Outcome::Done);
                }
                self.html_implied()
            }
            Token::Comment => self.comment_inserted(),
            Token::Doctype => Ok(Outcome::Done),
            Token::Start { group, .. } => self.before_html_start(group),
            Token::End { group, .. } => {
                if is_head_end(group) {
                    return self.html_implied();
                }
                Ok(Outcome::Done)
            }
            Token::EndOfFile => self.html_implied(),
        }
    }
}
