//! Nodes in a row, as cells that refer to the cells before them.

use crate::span::Piece;

/// A node, or a whole row of nodes. Rows, tags and doctypes are numbers; `source` is one of marks.
#[derive(Clone, Copy)]
pub(crate) enum Node {
    Text(Piece),
    Comment(Piece),
    Doctype { doctype: u32, source: u32 },
    Element { tag: u32, below: u32 },
    /// The nodes of another row.
    Joined(u32),
}

/// A row: the row before it, and behind that a node. Texts that meet are one text.
#[derive(Clone, Copy)]
pub(crate) struct Cell {
    pub(crate) before: u32,
    pub(crate) node: Node,
}
