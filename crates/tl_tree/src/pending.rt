//! "in table text" (13.2.6.4.10): white space alone stays, all else is foster parented.
ghost use Rattle.std.specs.Char.{is_ascii_whitespace};
ghost use Rattle.std.specs.List.{list_all};
ghost use Rattle.std.specs.Prelude.{IfOk, IsTrue, OnOk, [], ◌++◌, ◌∷◌, ◌≡◌};
ghost use Rattle.tl_dom_spec.specs.Builder.{insert_bytes};
ghost use Rattle.tl_dom_spec.specs.Tables.{body_characters, in_table_text_step, no_bytes, pending_inserted};
ghost use Rattle.tl_tree.specs.Inner.Builders.{builder_of, outcome_of, token_of, token_view};
ghost use Rattle.tl_tree.specs.Inner.Store.{bytes_of, is_span};

use crate::builder::Builder;
use crate::error::GrowError;
use crate::outcome::Outcome;
use crate::span::Span;
use crate::token::Token;
use std::mem;

fn are_blank(bytes: &[u8]) -> bool
    ensures { result ≡ list_all is_ascii_whitespace bytes.now }
{
    bytes.iter().all(|byte| byte.is_ascii_whitespace())
}

fn are_none(bytes: &[u8]) -> bool
    ensures { result ≡ no_bytes bytes.now }
{
    bytes.is_empty()
}

impl<'a> Builder<'a> {
    // A byte more is pending.
    fn push_pending(&mut self, byte: u8) -> Result<(), GrowError>
        ensures ok { OnOk result (builder_of self.new
            ≡ record (builder_of self.old) {
              pending = (builder_of self.old).pending ++ byte ∷ [];
            }) }
        ensures token { token_of self.new ≡ token_of self.old }
    {
        self.pending.push(byte)?;
        Ok(())
    }

    // Whether white space alone is pending.
    fn holds_blanks(&self) -> bool
        ensures { result ≡ list_all is_ascii_whitespace (builder_of self.now).pending }
    {
        are_blank(&self.pending)
    }

    // Whether nothing is pending.
    fn holds_nothing(&self) -> bool
        ensures { result ≡ no_bytes (builder_of self.now).pending }
    {
        are_none(&self.pending)
    }

    // The pending bytes stand behind the text.
    fn add_pending(&mut self) -> Result<Span, GrowError>
        ensures ok { builder_of self.new ≡ builder_of self.old }
        ensures token { token_of self.new ≡ token_of self.old }
        ensures stands { IfOk result
            (λ span. bytes_of self.new.path.store span ≡ (builder_of self.old).pending) }
        ensures within { IfOk result (λ span. IsTrue (is_span self.new.path.store span)) }
    {
        let alloc = *self.pending.allocator();
        let pending = mem::replace(&mut self.pending, Vec::new(alloc));
        let text = self.path.add_bytes(&pending);
        self.pending = pending;
        text
    }

    // The pending bytes are inserted.
    fn insert_pending(&mut self) -> Result<(), GrowError>
        ensures ok { OnOk result (builder_of self.new
            ≡ insert_bytes (builder_of self.old).pending (builder_of self.old)) }
        ensures token { token_of self.new ≡ token_of self.old }
    {
        let text = self.add_pending()?;
        self.insert_bytes(text)
    }

    // The pending bytes are characters by the rules of "in body".
    fn pending_characters(&mut self) -> Result<(), GrowError>
        ensures ok { OnOk result (builder_of self.new
            ≡ body_characters (builder_of self.old).pending (builder_of self.old)) }
        ensures token { token_of self.new ≡ token_of self.old }
    {
        let mut index = 0;
        while index < self.pending.len() {
            let byte = self.pending[index];
            self.body_character(byte)?;
            index += 1;
        }
        Ok(())
    }

    fn pending_inserted(&mut self) -> Result<(), GrowError>
        ensures ok { OnOk result
            (builder_of self.new ≡ pending_inserted (builder_of self.old)) }
        ensures token { token_of self.new ≡ token_of self.old }
    {
        if self.holds_nothing() {
            return Ok(());
        }
        if self.holds_blanks() {
            return self.insert_pending();
        }
        self.set_fostering(true);
        self.pending_characters()?;
        self.set_fostering(false);
        Ok(())
    }

    pub(crate) fn in_table_text(&mut self, token: Token<'_>) -> Result<Outcome, GrowError>
        ensures ok { IfOk result (λ outcome. outcome_of outcome (builder_of self.new)
            ≡ in_table_text_step (builder_of self.old)
            (token_view token.entry (token_of self.old))) }
        ensures token { token_of self.new ≡ token_of self.old }
    {
        match token {
            Token::Character(0) => Ok(Outcome::Done),
            Token::Character(byte) => Outcome::Done.after(self.push_pending(byte)),
            _ => {
                let mode = self.original();
                self.pending_inserted()?;
                self.switch_to(mode);
                Ok(Outcome::Again)
            }
        }
    }
}
