//! "after head" (13.2.6.4.6): what belongs into the head goes to its end.
ghost use Rattle.std.specs.Prelude.{IfOk, OnOk, ◌≡◌};
ghost use Rattle.tl_dom_spec.specs.Builder.{frameset_not_ok, in_body, in_frameset, insert_element, switch_to};
ghost use Rattle.tl_dom_spec.specs.Head.{after_head_end, after_head_start, after_head_step, body_implied};
ghost use Rattle.tl_tree.specs.Inner.Builders.{builder_of, outcome_of, token_of, token_view};
ghost use Rattle.tl_tree.specs.Inner.GroupNames.{group_view as group_of};

use crate::builder::Builder;
use crate::error::GrowError;
use crate::frame::Place;
use crate::group::Group;
use crate::head_ends::is_body_end;
use crate::mode::Mode;
use crate::outcome::Outcome;
use crate::token::Token;

impl<'a> Builder<'a> {
    // Anything else.
    fn html_body_implied(&mut self) -> Result<Outcome, GrowError>
        ensures ok { IfOk result (λ outcome. outcome_of outcome (builder_of self.new)
            ≡ body_implied (builder_of self.old)) }
        ensures token { token_of self.new ≡ token_of self.old }
    {
        self.switch_to(Mode::InBody);
        Outcome::Again.after(self.insert_implied(b"body"))
    }

    // A start tag of `body`.
    fn html_body_opened(&mut self) -> Result<(), GrowError>
        ensures ok { OnOk result (builder_of self.new
            ≡ switch_to in_body
            (frameset_not_ok (insert_element (token_of self.old).tag (builder_of self.old)))) }
        ensures token { token_of self.new ≡ token_of self.old }
    {
        self.frameset_not_ok();
        self.switch_to(Mode::InBody);
        self.insert_element()
    }

    // A start tag of `frameset`.
    fn frameset_opened(&mut self) -> Result<(), GrowError>
        ensures ok { OnOk result (builder_of self.new
            ≡ switch_to in_frameset
            (insert_element (token_of self.old).tag (builder_of self.old))) }
        ensures token { token_of self.new ≡ token_of self.old }
    {
        self.switch_to(Mode::InFrameset);
        self.insert_element()
    }

    fn after_head_start(&mut self, group: Group) -> Result<Outcome, GrowError>
        ensures ok { IfOk result (λ outcome. outcome_of outcome (builder_of self.new)
            ≡ after_head_start (builder_of self.old) (group_of group) (token_of self.old).tag) }
        ensures token { token_of self.new ≡ token_of self.old }
    {
        match group {
            Group::TheHtml => Outcome::Done.after(self.html_start()),
            Group::TheBody => Outcome::Done.after(self.html_body_opened()),
            Group::AFrameset => Outcome::Done.after(self.frameset_opened()),
            Group::TheHead => Ok(Outcome::Done),
            Group::ABase | Group::ALink => {
                Outcome::Done.after(self.insert_and_pop_at(Place::IntoHead))
            }
            Group::ATitle | Group::ANoframes | Group::AStyle | Group::AScript => {
                Outcome::Done.after(self.parse_raw_text_at(Place::IntoHead))
            }
            Group::ATemplate => Outcome::Done.after(self.template_opened(Place::IntoHead)),
            _ => self.html_body_implied(),
        }
    }

    fn after_head_end(&mut self, group: Group) -> Result<Outcome, GrowError>
        ensures ok { IfOk result (λ outcome. outcome_of outcome (builder_of self.new)
            ≡ after_head_end (builder_of self.old) (group_of group)) }
        ensures token { token_of self.new ≡ token_of self.old }
    {
        match group {
            Group::ATemplate => Outcome::Done.after(self.template_end_tag()),
            _ => {
                if is_body_end(group) {
                    return self.html_body_implied();
                }
                Ok(Outcome::Done)
            }
        }
    }

    pub(crate) fn after_head(&mut self, token: Token<'_>) -> Result<Outcome, GrowError>
        ensures ok { IfOk result (λ outcome. outcome_of outcome (builder_of self.new)
            ≡ after_head_step (builder_of self.old) (token_view token.entry (token_of self.old))) }
        ensures token { token_of self.new ≡ token_of self.old }
    {
        match token {
            Token::Character(byte) => {
                if byte.is_ascii_whitespace() {
                    return self.character_inserted(byte);
                }
                self.html_body_implied()
            }
            Token::Comment => self.comment_inserted(),
            Token::Doctype => Ok(Outcome::Done),
            Token::Start { group, .. } => self.after_head_start(group),
            Token::End { group, .. } => self.after_head_end(group),
            Token::EndOfFile => self.html_body_implied(),
        }
    }
}
