//! The rest of a run (13.2.6), which is taken at once.
ghost use Rattle.std.specs.Prelude.{IfOk, IsTrue, OnOk, [], filter, ◌++◌, ◌≡◌};
ghost use Rattle.tl_dom_spec.specs.Builder.{current_tag, in_table_text};
ghost use Rattle.tl_dom_spec.specs.Runs.{count_tokens, goes_in, html_run, insert_text, run_dispatched, run_taken, table_run, with_replacements};
ghost use Rattle.tl_dom_spec.specs.Tables.{is_text_in_table};
ghost use Rattle.tl_tree.specs.Inner.Builders.{builder_of, token_of};
ghost use Rattle.tl_tree.specs.Inner.Modes.{mode_of};
ghost use Rattle.tl_tree.specs.Inner.Store.{bytes_of, is_span};

use crate::builder::Builder;
use crate::error::GrowError;
use crate::mode::Mode;
use crate::names::Names;
use crate::run_bytes::{go_in, has_no_null, kept, replaced};
use crate::span::Span;
use crate::test::TagTest;
use crate::token::Token;

impl<'a> Builder<'a> {
    // Bytes are inserted, where there are some.
    #[inline(always)]
    fn insert_text(&mut self, text: Span) -> Result<(), GrowError>
        requires { IsTrue (is_span self.old.path.store text) }
        ensures ok { OnOk result (builder_of self.new
            ≡ insert_text (bytes_of self.old.path.store text) (builder_of self.old)) }
        ensures token { token_of self.new ≡ token_of self.old }
    {
        if text.len == 0 {
            return Ok(());
        }
        self.insert_bytes(text)
    }

    // Whether a text waits where it is met in a table.
    fn is_text_in_table(&self) -> bool
        ensures { result ≡ is_text_in_table (current_tag (builder_of self.now)) }
    {
        self.is_current(TagTest::Any(Names::FosterTargets))
            || self.is_current(TagTest::Any(Names::Template))
    }

    // Puts bytes behind the pending table characters.
    fn pend(&mut self, text: Span) -> Result<(), GrowError>
        requires { IsTrue (is_span self.old.path.store text) }
        ensures ok { OnOk result (builder_of self.new
            ≡ record (builder_of self.old) {
              pending = (builder_of self.old).pending ++ bytes_of self.old.path.store text;
            }) }
        ensures token { token_of self.new ≡ token_of self.old }
    {
        let path = &self.path;
        let bytes = path.store.bytes(text);
        self.pending.extend_from_slice(bytes)?;
        Ok(())
    }

    /// Nothing is pending, and characters wait from now on.
    pub(crate) fn await_text(&mut self)
        ensures ok { builder_of self.new
            ≡ record (builder_of self.old) {
              pending = [];
              original = (builder_of self.old).mode;
              mode = in_table_text;
            } }
        ensures token { token_of self.new ≡ token_of self.old }
        ensures path { self.new.path ≡ self.old.path }
    {
        self.pending.clear();
        self.original = self.mode;
        self.mode = Mode::InTableText;
    }

    // Where a table, or a part of it, is open.
    fn table_run(&mut self, text: Span) -> Result<(), GrowError>
        requires { IsTrue (is_span self.old.path.store text) }
        ensures ok { OnOk result (builder_of self.new
            ≡ table_run (bytes_of self.old.path.store text) (builder_of self.old)) }
        ensures token { token_of self.new ≡ token_of self.old }
    {
        if !self.is_text_in_table() {
            return self.insert_text(text);
        }
        self.await_text();
        self.pend(text)
    }

    // What goes in of a run, by the rules of a mode.
    #[inline(always)]
    fn html_run(&mut self, mode: Mode, text: Span) -> Result<(), GrowError>
        requires { IsTrue (is_span self.old.path.store text) }
        ensures ok { OnOk result (builder_of self.new
            ≡ html_run (mode_of mode) (bytes_of self.old.path.store text) (builder_of self.old)) }
        ensures token { token_of self.new ≡ token_of self.old }
    {
        match mode {
            Mode::InTable | Mode::InTableBody | Mode::InRow => self.table_run(text),
            Mode::InTableText => self.pend(text),
            _ => self.insert_text(text),
        }
    }

    // Those of some bytes that go in by the rules of a mode.
    #[cold]
    #[inline(never)]
    fn add_kept(&mut self, mode: Mode, text: Span) -> Result<Span, GrowError>
        requires { IsTrue (is_span self.old.path.store text) }
        ensures ok { builder_of self.new ≡ builder_of self.old }
        ensures token { token_of self.new ≡ token_of self.old }
        ensures stands { IfOk result (λ span. bytes_of self.new.path.store span
            ≡ filter (goes_in (mode_of mode)) (bytes_of self.old.path.store text)) }
        ensures within { IfOk result (λ span. IsTrue (is_span self.new.path.store span)) }
    {
        let alloc = *self.pending.allocator();
        let kept = kept(alloc, mode, self.path.store.bytes(text))?;
        self.add_bytes(kept.as_slice())
    }

    // The same, which are these bytes where all go in.
    #[inline(always)]
    fn kept_text(&mut self, mode: Mode, text: Span) -> Result<Span, GrowError>
        requires { IsTrue (is_span self.old.path.store text) }
        ensures ok { builder_of self.new ≡ builder_of self.old }
        ensures token { token_of self.new ≡ token_of self.old }
        ensures stands { IfOk result (λ span. bytes_of self.new.path.store span
            ≡ filter (goes_in (mode_of mode)) (bytes_of self.old.path.store text)) }
        ensures within { IfOk result (λ span. IsTrue (is_span self.new.path.store span)) }
    {
        if go_in(mode, self.path.store.bytes(text)) {
            return Ok(text);
        }
        self.add_kept(mode, text)
    }

    // Some bytes, with U+FFFD for each NUL.
    #[cold]
    #[inline(never)]
    fn add_replaced(&mut self, text: Span) -> Result<Span, GrowError>
        requires { IsTrue (is_span self.old.path.store text) }
        ensures ok { builder_of self.new ≡ builder_of self.old }
        ensures token { token_of self.new ≡ token_of self.old }
        ensures stands { IfOk result (λ span. bytes_of self.new.path.store span
            ≡ with_replacements (bytes_of self.old.path.store text)) }
        ensures within { IfOk result (λ span. IsTrue (is_span self.new.path.store span)) }
    {
        let alloc = *self.pending.allocator();
        let replaced = replaced(alloc, self.path.store.bytes(text))?;
        self.add_bytes(replaced.as_slice())
    }

    // The same, which are these bytes where there is none.
    fn replaced_text(&mut self, text: Span) -> Result<Span, GrowError>
        requires { IsTrue (is_span self.old.path.store text) }
        ensures ok { builder_of self.new ≡ builder_of self.old }
        ensures token { token_of self.new ≡ token_of self.old }
        ensures stands { IfOk result (λ span. bytes_of self.new.path.store span
            ≡ with_replacements (bytes_of self.old.path.store text)) }
        ensures within { IfOk result (λ span. IsTrue (is_span self.new.path.store span)) }
    {
        if has_no_null(self.path.store.bytes(text)) {
            return Ok(text);
        }
        self.add_replaced(text)
    }

    /// Takes a run in HTML content, of which no token is counted.
    #[inline(always)]
    pub(crate) fn run_in_html(&mut self, text: Span) -> Result<(), GrowError>
        requires { IsTrue (is_span self.old.path.store text) }
        ensures ok { OnOk result (builder_of self.new
            ≡ html_run (builder_of self.old).mode
            (filter (goes_in (builder_of self.old).mode) (bytes_of self.old.path.store text))
            (builder_of self.old)) }
        ensures token { token_of self.new ≡ token_of self.old }
    {
        let mode = self.mode;
        let kept = self.kept_text(mode, text)?;
        self.html_run(mode, kept)
    }

    // In foreign content.
    #[cold]
    #[inline(never)]
    fn run_in_foreign(&mut self, text: Span) -> Result<(), GrowError>
        requires { IsTrue (is_span self.old.path.store text) }
        ensures ok { OnOk result (builder_of self.new
            ≡ insert_text (with_replacements (bytes_of self.old.path.store text))
            (builder_of self.old)) }
        ensures token { token_of self.new ≡ token_of self.old }
    {
        let replaced = self.replaced_text(text)?;
        self.insert_text(replaced)
    }

    // All of a run goes where its first character would go.
    fn run_dispatched(&mut self, text: Span) -> Result<(), GrowError>
        requires { IsTrue (is_span self.old.path.store text) }
        ensures ok { OnOk result (builder_of self.new
            ≡ run_dispatched (bytes_of self.old.path.store text) (builder_of self.old)) }
        ensures token { token_of self.new ≡ token_of self.old }
    {
        if self.is_html_content(Token::Character(0)) {
            self.run_in_html(text)
        } else {
            self.run_in_foreign(text)
        }
    }

    /// Counts characters, each of which is a token.
    pub(crate) fn count_tokens(&mut self, count: u32) -> Result<(), GrowError>
        ensures ok { OnOk result
            (builder_of self.new ≡ count_tokens count (builder_of self.old)) }
        ensures token { token_of self.new ≡ token_of self.old }
    {
        if count > u32::MAX - self.tokens {
            return Err(GrowError::TooLarge);
        }
        self.tokens += count;
        Ok(())
    }

    /// Takes the rest of a run.
    pub(crate) fn run_taken(&mut self, text: Span) -> Result<(), GrowError>
        requires { IsTrue (is_span self.old.path.store text) }
        ensures ok { OnOk result (builder_of self.new
            ≡ run_taken (bytes_of self.old.path.store text) (builder_of self.old)) }
        ensures token { token_of self.new ≡ token_of self.old }
    {
        if text.len == 0 {
            return Ok(());
        }
        self.run_dispatched(text)?;
        self.count_tokens(text.len)
    }
}
