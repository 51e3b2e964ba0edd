//! Changes of the tags of nodes.

use tl_patch::Change;

/// A change of the start tag of a node of a tree.
#[derive(Clone, Copy, Debug)]
pub struct NodeChange<'a> {
    pub number: usize,
    pub change: Change<'a>,
}
