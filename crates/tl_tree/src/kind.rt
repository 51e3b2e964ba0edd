//! What a node is.

/// What a node of a tree is.
#[derive(Clone, Copy, PartialEq, Eq, Debug)]
pub enum Kind {
    Element,
    /// The contents of a `template`, below which stand the nodes that are in it. It stands in the
    /// template, alone.
    Contents,
    Text,
    Comment,
    Doctype,
}
