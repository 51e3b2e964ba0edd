//! Edits that put nodes under others, or handles that lead nowhere.
use tl::{NodeHandle, SummaryOf, TagOf, VDom};

/// An edit of a document.
#[derive(Drop)]
pub enum Edit {
    /// A tag gets a node as its last child.
    Push(u32, u32),
    /// The first top handle is another one.
    Top(u32),
}

// Makes a handle the last child.
fn push_to<A, B, O: SummaryOf<A>>(tag: &mut TagOf<A, B, O>, child: u32) -> bool {
    let mut children = tag.children_mut();
    children.top_mut().push(NodeHandle::new(child)).is_ok()
}

fn push(document: &mut VDom<'static>, number: u32, child: u32) -> bool {
    let Some(node) = document.parser_mut().resolve_node_id_mut(number) else {
        return false;
    };
    match node.as_tag_mut() {
        Some(tag) => push_to(tag, child),
        None => false,
    }
}

fn set_top(document: &mut VDom<'static>, handle: u32) -> bool {
    let Some(top) = document.children_mut().first_mut() else {
        return false;
    };
    *top = NodeHandle::new(handle);
    true
}

/// Does edits, up to the first that can't be done. Whether all are.
pub fn are_done(document: &mut VDom<'static>, edits: &[Edit]) -> bool {
    for edit in edits {
        let is_done = match edit {
            Edit::Push(number, child) => push(document, *number, *child),
            Edit::Top(handle) => set_top(document, *handle),
        };
        if !is_done {
            return false;
        }
    }
    true
}
