//! "in head" (13.2.6.4.4).
ghost use Rattle.std.specs.Prelude.{IfOk, OnOk, ◌≡◌};
ghost use Rattle.tl_dom_spec.specs.Builder.{Again, appropriate_place};
ghost use Rattle.tl_dom_spec.specs.Head.{head_closed, in_head_end, in_head_start, in_head_step, noscript_in_head, template_opened};
ghost use Rattle.tl_tree.specs.Inner.Builders.{builder_of, outcome_of, token_of, token_view};
ghost use Rattle.tl_tree.specs.Inner.Frames.{place_of};
ghost use Rattle.tl_tree.specs.Inner.GroupNames.{group_view as group_of};

use crate::builder::Builder;
use crate::error::GrowError;
use crate::frame::Place;
use crate::group::Group;
use crate::head_ends::is_body_end;
use crate::mode::Mode;
use crate::outcome::Outcome;
use crate::token::Token;

impl<'a> Builder<'a> {
    pub(crate) fn head_closed(&mut self) -> Result<(), GrowError>
        ensures ok { OnOk result (builder_of self.new ≡ head_closed (builder_of self.old)) }
        ensures token { token_of self.new ≡ token_of self.old }
    {
        self.switch_to(Mode::AfterHead);
        self.pop_current_node()
    }

    // The same, and the token is processed again.
    fn head_left(&mut self) -> Result<Outcome, GrowError>
        ensures ok { IfOk result (λ outcome. outcome_of outcome (builder_of self.new)
            ≡ Again (head_closed (builder_of self.old))) }
        ensures token { token_of self.new ≡ token_of self.old }
    {
        Outcome::Again.after(self.head_closed())
    }

    /// A start tag of `template`, whose element goes to a place.
    pub(crate) fn template_opened(&mut self, place: Place) -> Result<(), GrowError>
        ensures ok { OnOk result (builder_of self.new
            ≡ template_opened (place_of place) (token_of self.old).tag (builder_of self.old)) }
        ensures token { token_of self.new ≡ token_of self.old }
    {
        self.insert_marker()?;
        self.frameset_not_ok();
        self.insert_element_at(place)?;
        self.switch_to(Mode::InTemplate);
        self.push_template_mode(Mode::InTemplate)
    }

    // The same, where it stands.
    fn template_opened_here(&mut self) -> Result<(), GrowError>
        ensures ok { OnOk result (builder_of self.new
            ≡ template_opened (appropriate_place (builder_of self.old)) (token_of self.old).tag
            (builder_of self.old)) }
        ensures token { token_of self.new ≡ token_of self.old }
    {
        let place = self.appropriate_place();
        self.template_opened(place)
    }

    // A start tag of `noscript`.
    fn noscript_in_head(&mut self) -> Result<(), GrowError>
        ensures ok { OnOk result
            (builder_of self.new ≡ noscript_in_head (builder_of self.old) (token_of self.old).tag) }
        ensures token { token_of self.new ≡ token_of self.old }
    {
        if self.is_scripting() {
            return self.parse_raw_text();
        }
        self.switch_to(Mode::InHeadNoscript);
        self.insert_element()
    }

    /// A start tag.
    pub(crate) fn in_head_start(&mut self, group: Group) -> Result<Outcome, GrowError>
        ensures ok { IfOk result (λ outcome. outcome_of outcome (builder_of self.new)
            ≡ in_head_start (builder_of self.old) (group_of group) (token_of self.old).tag) }
        ensures token { token_of self.new ≡ token_of self.old }
    {
        match group {
            Group::TheHtml => Outcome::Done.after(self.html_start()),
            Group::TheHead => Ok(Outcome::Done),
            Group::ANoscript => Outcome::Done.after(self.noscript_in_head()),
            Group::ABase | Group::ALink => Outcome::Done.after(self.insert_and_pop()),
            Group::ATitle | Group::ANoframes | Group::AStyle | Group::AScript => {
                Outcome::Done.after(self.parse_raw_text())
            }
            Group::ATemplate => Outcome::Done.after(self.template_opened_here()),
            _ => self.head_left(),
        }
    }

    fn in_head_end(&mut self, group: Group) -> Result<Outcome, GrowError>
        ensures ok { IfOk result (λ outcome. outcome_of outcome (builder_of self.new)
            ≡ in_head_end (builder_of self.old) (group_of group)) }
        ensures token { token_of self.new ≡ token_of self.old }
    {
        match group {
            Group::TheHead => Outcome::Done.after(self.head_closed()),
            Group::ATemplate => Outcome::Done.after(self.template_end_tag()),
            _ => {
                if is_body_end(group) {
                    return self.head_left();
                }
                Ok(Outcome::Done)
            }
        }
    }

    pub(crate) fn in_head(&mut self, token: Token<'_>) -> Result<Outcome, GrowError>
        ensures ok { IfOk result (λ outcome. outcome_of outcome (builder_of self.new)
            ≡ in_head_step (builder_of self.old) (token_view token.entry (token_of self.old))) }
        ensures token { token_of self.new ≡ token_of self.old }
    {
        match token {
            Token::Character(byte) => {
                if byte.is_ascii_whitespace() {
                    return self.character_inserted(byte);
                }
                self.head_left()
            }
            Token::Comment => self.comment_inserted(),
            Token::Doctype => Ok(Outcome::Done),
            Token::Start { group, .. } => self.in_head_start(group),
            Token::End { group, .. } => self.in_head_end(group),
            Token::EndOfFile => self.head_left(),
        }
    }
}
