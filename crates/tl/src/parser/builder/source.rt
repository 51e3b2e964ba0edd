//! What a text is read from.
ghost use Rattle.std.specs.Prelude.{◌≡◌, IfOk, IsOk, List, ℕ};
ghost use Rattle.tl_bytes.specs.Held.{Held, borrowed, shared};
ghost use Rattle.tl_lexer.specs.Span.{bytes_at, IsIn};

use std::alloc::{AllocError, Global};
use tl_bytes::byte_string::{Bytes, Shared};
use tl_lexer::span::Span;

/// A text, and how its pieces are held.
pub(crate) trait Source<'a> {
    /// The bytes of the text.
    ghost text: { Self → List ℕ };

    /// How a piece is held.
    ghost held: { Held };

    /// The text.
    fn as_bytes(&self) -> &[u8]
        ensures { result.now ≡ text self.now };

    /// The bytes of a span of the text.
    fn piece(&self, alloc: Global, span: Span) -> Result<Bytes<'a>, AllocError>
        requires { IsIn (text self.now) span }
        ensures ok { IfOk result (λ b. b ≡ record {
          list = bytes_at
              (text self.now) span;
          held = held;
        }) }
        ensures succeeds { held ≡ borrowed → IsOk result };
}

impl<'a> Source<'a> for &'a str {
    ghost text = { λ s. s.now };

    ghost held = { borrowed };

    fn as_bytes(&self) -> &[u8] {
        str::as_bytes(self)
    }

    fn piece(&self, _alloc: Global, span: Span) -> Result<Bytes<'a>, AllocError> {
        let text: &'a str = *self;
        Ok(Bytes::from(span.bytes(text.as_bytes())))
    }
}

// Pieces are shares of the one buffer, empty ones too.
impl<'a> Source<'a> for Shared {
    ghost text = { λ s. s };

    ghost held = { shared };

    fn as_bytes(&self) -> &[u8] {
        self.as_str().as_bytes()
    }

    fn piece(&self, alloc: Global, span: Span) -> Result<Bytes<'a>, AllocError> {
        // Tells the proof that the places of the text fit their type.
        let _len = self.as_str().len();
        self.slice(alloc, span.start, span.start + span.len)
    }
}
