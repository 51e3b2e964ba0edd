//! Spans of a text.
ghost use Rattle.std.specs.Prelude.{◌≡◌, ◌+◌};

/// `len` bytes from `start` on.
#[derive(Clone, Copy)]
pub struct Span {
    pub start: usize,
    pub len: usize,
}

/// Where an attribute's key and value stand.
#[derive(Clone, Copy)]
pub struct AttributeSpan {
    pub key: Span,
    pub value: Option<Span>,
}

ghost use Rattle.tl_lexer.specs.Span.{bytes_at, IsIn};

impl Span {
    /// The bytes of the span.
    pub fn bytes(self, text: &[u8]) -> &[u8]
        requires { IsIn text.now self }
        ensures { result.now ≡ bytes_at text.now self }
    {
        &text[self.start..self.start + self.len]
    }
}
