//! Bytes that don't stand in the page, and are inserted.
ghost use Rattle.std.specs.Prelude.{IfOk, IsTrue, OnOk, ◌≡◌};
ghost use Rattle.tl_dom_spec.specs.Builder.{insert_bytes};
ghost use Rattle.tl_tree.specs.Inner.Builders.{builder_of, token_of};
ghost use Rattle.tl_tree.specs.Inner.Store.{bytes_of, is_span};

use crate::builder::Builder;
use crate::error::GrowError;
use crate::span::Span;

impl<'a> Builder<'a> {
    /// Puts bytes behind the text.
    pub(crate) fn add_bytes(&mut self, bytes: &[u8]) -> Result<Span, GrowError>
        ensures ok { builder_of self.new ≡ builder_of self.old }
        ensures token { token_of self.new ≡ token_of self.old }
        ensures stands { IfOk result (λ span. bytes_of self.new.path.store span ≡ bytes.now) }
        ensures within { IfOk result (λ span. IsTrue (is_span self.new.path.store span)) }
    {
        self.path.add_bytes(bytes)
    }

    /// Inserts bytes that don't stand in the page.
    pub(crate) fn insert_new(&mut self, bytes: &[u8]) -> Result<(), GrowError>
        ensures ok { OnOk result
            (builder_of self.new ≡ insert_bytes bytes.now (builder_of self.old)) }
        ensures token { token_of self.new ≡ token_of self.old }
    {
        let text = self.add_bytes(bytes)?;
        self.insert_bytes(text)
    }
}
