//! What is searched.

use tl_tree::Tree;

/// A tree, and the number of the node that it is searched from: of none where that is the root of
/// the document.
#[derive(Clone, Copy)]
pub struct Searched<'t, 'p> {
    pub tree: &'t Tree<'p>,
    pub scope: Option<usize>,
}
