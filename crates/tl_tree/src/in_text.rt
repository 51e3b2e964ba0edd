//! "text" (13.2.6.4.8).
ghost use Rattle.std.specs.Prelude.{IfOk, OnOk, ◌≡◌};
ghost use Rattle.tl_dom_spec.specs.Head.{text_closed, text_step};
ghost use Rattle.tl_tree.specs.Inner.Builders.{builder_of, outcome_of, token_of, token_view};

use crate::builder::Builder;
use crate::error::GrowError;
use crate::outcome::Outcome;
use crate::token::Token;

impl<'a> Builder<'a> {
    fn text_closed(&mut self) -> Result<(), GrowError>
        ensures ok { OnOk result (builder_of self.new ≡ text_closed (builder_of self.old)) }
        ensures token { token_of self.new ≡ token_of self.old }
    {
        let original = self.original();
        self.switch_to(original);
        self.pop_current_node()
    }

    pub(crate) fn in_text(&mut self, token: Token<'_>) -> Result<Outcome, GrowError>
        ensures ok { IfOk result (λ outcome. outcome_of outcome (builder_of self.new)
            ≡ text_step (builder_of self.old) (token_view token.entry (token_of self.old))) }
        ensures token { token_of self.new ≡ token_of self.old }
    {
        match token {
            Token::Character(byte) => Outcome::Done.after(self.insert_character(byte)),
            Token::EndOfFile => Outcome::Again.after(self.text_closed()),
            _ => Outcome::Done.after(self.text_closed()),
        }
    }
}
