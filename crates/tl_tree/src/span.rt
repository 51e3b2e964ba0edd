//! Bytes of the text, and where in the page they come from.

/// Bytes of the text, which is the page and, behind it, the side buffer.
#[derive(Clone, Copy)]
pub(crate) struct Span {
    pub(crate) start: u32,
    pub(crate) len: u32,
}

/// What a text or a comment says, and the number of marks that stand before it.
#[derive(Clone, Copy)]
pub(crate) struct Piece {
    pub(crate) span: Span,
    pub(crate) source: u32,
}
