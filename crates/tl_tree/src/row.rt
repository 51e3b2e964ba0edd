//! Rows: the nodes of a tree in the order of the page.

use crate::span::Piece;

/// What a row has of its own. Tags and doctypes are numbers, and `source` is one of marks.
#[derive(Clone, Copy)]
pub(crate) enum Held {
    Element(u32),
    /// The contents of a `template`, which is the row before.
    Contents,
    Text(Piece),
    Comment(Piece),
    Doctype { doctype: u32, source: u32 },
}

/// A node, what it stands in and where it ends.
#[derive(Clone, Copy)]
pub(crate) struct Row {
    pub(crate) held: Held,
    /// The number of the row that it stands in, and one more: 0 where it stands in none.
    pub(crate) parent: u32,
    /// The number behind the last row below it.
    pub(crate) end: u32,
}

const _: () = prove!(size_of::<Row>() == 24);
