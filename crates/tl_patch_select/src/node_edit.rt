//! Changes of the elements that are nodes.

use tl_patch_edit::ElementPatch;

/// A patch of the element that is a node of a tree.
#[derive(Clone, Copy, Debug)]
pub struct NodeEdit<'a> {
    pub number: usize,
    pub patch: ElementPatch<'a>,
}
