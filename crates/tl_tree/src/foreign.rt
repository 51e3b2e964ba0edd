//! Foreign content (13.2.6.5).
ghost use Rattle.std.specs.Prelude.{IfOk, OnOk, ◌≡◌};
ghost use Rattle.tl_dom_spec.specs.Dispatcher.{broken_out, breaks_out, foreign_character, foreign_end, foreign_end_at, foreign_start, foreign_step, found_in};
ghost use Rattle.tl_dom_spec.specs.Path.{elements};
ghost use Rattle.tl_tree.specs.Inner.Builders.{builder_of, outcome_of, token_of, token_view};
ghost use Rattle.tl_tree.specs.Inner.GroupNames.{group_view as group_of};
ghost use Rattle.tl_tree.specs.Inner.Found.{found_of};

use crate::breakout::breaks_out;
use crate::builder::Builder;
use crate::error::GrowError;
use crate::found::Found;
use crate::group::Group;
use crate::outcome::Outcome;
use crate::test::Test;
use crate::token::Token;

impl<'a> Builder<'a> {
    // Whether the token, which is a start tag, ends foreign content.
    fn breaks_out(&self) -> bool
        ensures { result ≡ breaks_out (token_of self.now).tag }
    {
        breaks_out(&self.path.store, self.tag)
    }

    fn broken_out(&mut self) -> Result<(), GrowError>
        ensures ok { OnOk result (builder_of self.new ≡ broken_out (builder_of self.old)) }
        ensures token { token_of self.new ≡ token_of self.old }
    {
        self.path.pop_to(Test::HtmlPlace)
    }

    fn foreign_character(&mut self, byte: u8) -> Result<(), GrowError>
        ensures ok { OnOk result
            (builder_of self.new ≡ foreign_character byte (builder_of self.old)) }
        ensures token { token_of self.new ≡ token_of self.old }
    {
        if byte == 0 {
            return self.insert_new("\u{FFFD}".as_bytes());
        }
        self.insert_character(byte)?;
        if !byte.is_ascii_whitespace() {
            self.frameset_not_ok();
        }
        Ok(())
    }

    // A start tag.
    fn foreign_content_start(&mut self, group: Group, closes: bool) -> Result<Outcome, GrowError>
        ensures ok { IfOk result (λ outcome. outcome_of outcome (builder_of self.new)
            ≡ foreign_start (builder_of self.old) (group_of group) (token_of self.old).tag closes) }
        ensures token { token_of self.new ≡ token_of self.old }
    {
        if self.breaks_out() {
            self.broken_out()?;
            return self.html_step(Token::Start { group, closes });
        }
        Outcome::Done.after(self.insert_adjusted_element(closes))
    }

    // An end tag, by what its name finds on the stack.
    fn foreign_end_at(
        &mut self,
        found: Found,
        group: Group,
        name: &[u8],
    ) -> Result<Outcome, GrowError>
        ensures ok { IfOk result (λ outcome. outcome_of outcome (builder_of self.new)
            ≡ foreign_end_at (found_of found) (builder_of self.old) (group_of group) name.now) }
        ensures token { token_of self.new ≡ token_of self.old }
    {
        match found {
            Found::Frame(number) => Outcome::Done.after(self.pop_number(number)),
            Found::ByMode => self.html_step(Token::End { group, name }),
            Found::Nothing => Ok(Outcome::Done),
        }
    }

    // What the name of an end tag finds.
    fn found(&self, name: &[u8]) -> Found
        ensures { found_of result ≡ found_in name.now (elements (builder_of self.now).path) }
    {
        self.path.found(name)
    }

    // An end tag, but those of `br` and `p`.
    fn other_foreign_end(&mut self, group: Group, name: &[u8]) -> Result<Outcome, GrowError>
        ensures ok { IfOk result (λ outcome. outcome_of outcome (builder_of self.new)
            ≡ foreign_end_at (found_in name.now (elements (builder_of self.old).path))
            (builder_of self.old) (group_of group) name.now) }
        ensures token { token_of self.new ≡ token_of self.old }
    {
        let found = self.found(name);
        self.foreign_end_at(found, group, name)
    }

    // An end tag.
    fn foreign_end(&mut self, group: Group, name: &[u8]) -> Result<Outcome, GrowError>
        ensures ok { IfOk result (λ outcome. outcome_of outcome (builder_of self.new)
            ≡ foreign_end (builder_of self.old) (group_of group) name.now) }
        ensures token { token_of self.new ≡ token_of self.old }
    {
        match group {
            Group::ABreak | Group::AParagraph => {
                self.broken_out()?;
                self.html_step(Token::End { group, name })
            }
            _ => self.other_foreign_end(group, name),
        }
    }

    /// By the rules of foreign content.
    #[cold]
    #[inline(never)]
    pub(crate) fn foreign_step(&mut self, token: Token<'_>) -> Result<Outcome, GrowError>
        ensures ok { IfOk result (λ outcome. outcome_of outcome (builder_of self.new)
            ≡ foreign_step (builder_of self.old) (token_view token.entry (token_of self.old))) }
        ensures token { token_of self.new ≡ token_of self.old }
    {
        match token {
            Token::Character(byte) => Outcome::Done.after(self.foreign_character(byte)),
            Token::Comment => self.comment_inserted(),
            Token::Doctype => Ok(Outcome::Done),
            Token::Start { group, closes } => self.foreign_content_start(group, closes),
            Token::End { group, name } => self.foreign_end(group, name),
            Token::EndOfFile => self.html_step(token),
        }
    }
}
