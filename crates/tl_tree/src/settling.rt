//! Rows as they are written, from the last to the first.
ghost use Rattle.std.specs.Prelude.{◌≡◌};
ghost use Rattle.tl_tree.specs.Inner.Settling.{row_before};

use crate::row::Row;
use crate::span::Span;
use crate::store::Store;

/// What follows once a row of nodes is written.
#[derive(Clone, Copy)]
pub(crate) enum Opened {
    /// The element that these nodes are below, and what stands before it. So many rows come behind
    /// what is below it.
    Element { tag: u32, before: u32, behind: u32 },
    /// The row that these nodes were joined to.
    Row(u32),
}

impl Opened {
    /// The row that is written then.
    pub(crate) fn before(self) -> u32
        ensures { result ≡ row_before self }
    {
        match self {
            Opened::Element {
                tag: _,
                before,
                behind: _,
            } => before,
            Opened::Row(before) => before,
        }
    }
}

/// What is written of the nodes of a store. Texts that meet are one text, so pieces of a text wait
/// until what stands before them is known.
#[derive(Drop)]
pub(crate) struct Settling<'p> {
    pub(crate) store: Store<'p>,
    /// Texts of several pieces, copied behind the text of the store.
    pub(crate) copied: Vec<u8>,
    /// The last row first. Its `end` is the number of rows behind what is below it.
    pub(crate) rows: Vec<Row>,
    /// The last piece first.
    pub(crate) pieces: Vec<Span>,
    /// How many marks stand before the first one.
    pub(crate) source: u32,
    /// The innermost last.
    pub(crate) stack: Vec<Opened>,
}

/// The rows of nodes, in the order of the page.
#[derive(Drop)]
pub(crate) struct Settled<'p> {
    pub(crate) store: Store<'p>,
    pub(crate) rows: Vec<Row>,
    /// What their texts have behind the text of the store.
    pub(crate) copied: Vec<u8>,
}
