//! What a document of C holds.

use tl_tree::Tree;

/// The tree of a page that was read, with a copy of the page.
#[derive(Drop)]
pub struct ParsedPage {
    pub(crate) tree: Tree<'static>,
}
