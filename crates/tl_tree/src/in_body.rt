//! "in body" (13.2.6.4.7).
ghost use Rattle.std.specs.Prelude.{IfOk, OnOk, ◌≡◌};
ghost use Rattle.tl_dom_spec.specs.Body.{body_character, file_ended, in_body_step};
ghost use Rattle.tl_dom_spec.specs.Builder.{Done, insert_character, insert_comment};
ghost use Rattle.tl_tree.specs.Inner.Builders.{builder_of, comment_of, outcome_of, token_of, token_view};

use crate::builder::Builder;
use crate::error::GrowError;
use crate::outcome::Outcome;
use crate::token::Token;

impl<'a> Builder<'a> {
    pub(crate) fn body_character(&mut self, byte: u8) -> Result<(), GrowError>
        ensures ok { OnOk result
            (builder_of self.new ≡ body_character byte (builder_of self.old)) }
        ensures token { token_of self.new ≡ token_of self.old }
    {
        if byte == 0 {
            return Ok(());
        }
        self.reconstruct_formatting()?;
        self.insert_character(byte)?;
        if byte.is_ascii_whitespace() {
            return Ok(());
        }
        self.frameset_not_ok();
        Ok(())
    }

    /// Inserts the comment that the token is, which is done with.
    pub(crate) fn comment_inserted(&mut self) -> Result<Outcome, GrowError>
        ensures ok { IfOk result (λ outcome. outcome_of outcome (builder_of self.new)
            ≡ Done (insert_comment (comment_of (token_of self.old)) (builder_of self.old))) }
        ensures token { token_of self.new ≡ token_of self.old }
    {
        Outcome::Done.after(self.insert_comment())
    }

    /// Inserts the character that the token is, which is done with.
    pub(crate) fn character_inserted(&mut self, byte: u8) -> Result<Outcome, GrowError>
        ensures ok { IfOk result (λ outcome. outcome_of outcome (builder_of self.new)
            ≡ Done (insert_character byte (builder_of self.old))) }
        ensures token { token_of self.new ≡ token_of self.old }
    {
        Outcome::Done.after(self.insert_character(byte))
    }

    pub(crate) fn file_ended(&mut self) -> Result<Outcome, GrowError>
        ensures ok { IfOk result (λ outcome. outcome_of outcome (builder_of self.new)
            ≡ file_ended (builder_of self.old)) }
        ensures token { token_of self.new ≡ token_of self.old }
    {
        if !self.has_template() {
            return Ok(Outcome::Done);
        }
        Outcome::Again.after(self.close_template())
    }

    #[inline(always)]
    pub(crate) fn in_body(&mut self, token: Token<'_>) -> Result<Outcome, GrowError>
        ensures ok { IfOk result (λ outcome. outcome_of outcome (builder_of self.new)
            ≡ in_body_step (builder_of self.old) (token_view token.entry (token_of self.old))) }
        ensures token { token_of self.new ≡ token_of self.old }
    {
        match token {
            Token::Character(byte) => Outcome::Done.after(self.body_character(byte)),
            Token::Comment => self.comment_inserted(),
            Token::Doctype => Ok(Outcome::Done),
            Token::Start { group, closes } => self.body_start(group, closes),
            Token::End { group, name } => self.body_end(group, name),
            Token::EndOfFile => self.file_ended(),
        }
    }
}
