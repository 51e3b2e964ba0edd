//! Changes of lines.

/// So many lines that both texts have, and behind them so many of the old one that go, and so many
/// of the new one that come.
#[derive(Clone, Copy)]
pub struct Change {
    pub kept: usize,
    pub removed: usize,
    pub added: usize,
}
