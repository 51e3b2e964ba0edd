//! Runs of characters (13.2.6): the first character of one is taken by the rules, and then the rest
//! at once. Where each character does the same, all of a text is taken at once.
ghost use Rattle.std.specs.List.{list_all};
ghost use Rattle.std.specs.Prelude.{IsTrue, OnOk, drop, length, map, take, true, ◌+◌, ◌<◌, ◌∷◌, ◌≡◌, ◌≤◌};
ghost use Rattle.tl_dom_spec.specs.Builder.{a_character};
ghost use Rattle.tl_dom_spec.specs.Dispatcher.{tokens_done};
ghost use Rattle.tl_dom_spec.specs.Runs.{is_of_run, kind_of, run_taken};
ghost use Rattle.tl_tree.specs.Inner.AtRest.{is_at_rest};
ghost use Rattle.tl_tree.specs.Inner.Builders.{builder_of, token_of};
ghost use Rattle.tl_tree.specs.Inner.Store.{bytes_of, is_span};

use crate::builder::Builder;
use crate::error::GrowError;
use crate::run_bytes::run_len;
use crate::run_kind::kind_of;
use crate::span::Span;
use crate::token::Token;

// What stands behind the first byte.
fn behind_first(bytes: &[u8]) -> &[u8]
    requires { 1 ≤ length bytes.now }
    ensures { result.now ≡ drop 1 bytes.now }
{
    &bytes[1..]
}

impl<'a> Builder<'a> {
    // A part of it.
    fn text_part(&self, from: u32, len: u32) -> Span
        requires { from + len ≤ length (token_of self.now).text }
        ensures stands { bytes_of self.now.path.store result
            ≡ take len (drop from (token_of self.now).text) }
        ensures within { IsTrue (is_span self.now.path.store result) }
    {
        Span {
            start: self.text.start + from,
            len,
        }
    }

    // So many characters of it are done with.
    fn skip(&mut self, count: u32)
        requires { count ≤ length (token_of self.old).text }
        ensures ok { builder_of self.new ≡ builder_of self.old }
        ensures left { (token_of self.new).text ≡ drop count (token_of self.old).text }
        ensures page { (token_of self.new).page ≡ (token_of self.old).page }
    {
        let len = self.text.len - count;
        let rest = self.text_part(count, len);
        self.set_text(rest);
    }

    fn set_hint(&mut self, place: u32)
        ensures ok { builder_of self.new ≡ builder_of self.old }
        ensures token { token_of self.new ≡ token_of self.old }
    {
        self.hint = place;
    }

    // The first character.
    fn first_byte(&self) -> u8
        requires { 0 < length (token_of self.now).text }
        ensures { (token_of self.now).text ≡ result ∷ drop 1 (token_of self.now).text }
    {
        self.path.store.bytes(self.text)[0]
    }

    // How many characters behind the first one are of its run, where it was taken.
    fn run_len(&self, first: u8) -> u32
        requires { 0 < length (token_of self.now).text }
        ensures within { result + 1 ≤ length (token_of self.now).text }
        ensures same { IsTrue
            (list_all (is_of_run (builder_of self.now).mode (kind_of first))
            (take result (drop 1 (token_of self.now).text))) }
    {
        let bytes = self.path.store.bytes(self.text);
        let rest = behind_first(bytes);
        run_len(self.mode, kind_of(first), rest) as u32
    }

    // Takes so many characters behind the first one, and leaves what is behind them.
    fn take_rest(&mut self, count: u32) -> Result<(), GrowError>
        requires { count + 1 ≤ length (token_of self.old).text }
        ensures ok { OnOk result (builder_of self.new
            ≡ run_taken (take count (drop 1 (token_of self.old).text)) (builder_of self.old)) }
        ensures left { OnOk result
            ((token_of self.new).text ≡ drop (count + 1) (token_of self.old).text) }
        ensures page { (token_of self.new).page ≡ (token_of self.old).page }
    {
        let run = self.text_part(1, count);
        self.run_taken(run)?;
        self.skip(count + 1);
        Ok(())
    }

    // Takes a run, or a line feed that is ignored.
    #[cold]
    #[inline(never)]
    fn take_part(&mut self) -> Result<(), GrowError>
        requires { 0 < length (token_of self.old).text }
        ensures ok { OnOk result
            (tokens_done (builder_of self.old) (map a_character (token_of self.old).text)
            ≡ tokens_done (builder_of self.new) (map a_character (token_of self.new).text)) }
        ensures shorter { OnOk result
            (length (token_of self.new).text < length (token_of self.old).text) }
        ensures page { (token_of self.new).page ≡ (token_of self.old).page }
    {
        let first = self.first_byte();
        let is_skipped = self.is_skipped(Token::Character(first));
        let place = self.text.start;
        self.set_hint(place);
        self.take_token(Token::Character(first))?;
        if is_skipped {
            self.skip(1);
            return Ok(());
        }
        let count = self.run_len(first);
        self.take_rest(count)
    }

    // Takes all of the text at once.
    fn take_whole(&mut self) -> Result<(), GrowError>
        requires some { 0 < length (token_of self.old).text }
        requires rest { is_at_rest (builder_of self.old) ≡ true }
        ensures ok { OnOk result (builder_of self.new
            ≡ tokens_done (builder_of self.old) (map a_character (token_of self.old).text)) }
        ensures page { (token_of self.new).page ≡ (token_of self.old).page }
    {
        self.calm();
        let text = self.text;
        self.run_in_html(text)?;
        self.count_tokens(text.len)
    }

    /// Takes the characters of a text.
    pub(crate) fn take_run(&mut self, text: Span) -> Result<(), GrowError>
        requires { IsTrue (is_span self.old.path.store text) }
        ensures ok { OnOk result (builder_of self.new
            ≡ tokens_done (builder_of self.old)
            (map a_character (bytes_of self.old.path.store text))) }
        ensures page { (token_of self.new).page ≡ (token_of self.old).page }
    {
        self.set_text(text);
        while self.text.len > 0 {
            if self.is_at_rest() {
                return self.take_whole();
            }
            self.take_part()?;
        }
        Ok(())
    }
}
