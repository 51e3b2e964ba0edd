//! Edits of documents.
use std::alloc::AllocError;
use std::test::Fail;
use tl::{Bytes, HTMLTag, Node, NodeHandle, NodeOf, SummaryOf, TagOf, VDom};

/// What is done to a document.
pub enum Edit {
    /// Makes the second handle the last child of the tag of the first number.
    Push(u32, u32),
    /// Takes the child at a place out of the tag of a number.
    Pull(u32, usize),
    /// Puts a text in the place of the node of a number.
    Put(u32, &'static [u8]),
    /// Exchanges the first two nodes.
    SwapNodes,
    /// Exchanges the first two top handles.
    SwapTop,
    /// Puts a handle at a place of the top list.
    Root(usize, u32),
    /// Writes a text over that of the node of a number.
    Text(u32, &'static str),
    /// Writes a comment over that of the node of a number.
    Comment(u32, &'static str),
    /// Writes a part of the tag of a number.
    Part(u32, Part),
}

/// What is done to a tag by what it lends.
pub enum Part {
    Name(&'static str),
    Value(&'static str, &'static str),
    Bytes(&'static str, &'static [u8]),
    /// A value of a key that needn't be there.
    Insert(&'static str, &'static str),
    Bare(&'static str),
    Unset(&'static str),
}

/// Edits a document.
pub fn edit_all(document: &mut VDom<'static>, edits: &[Edit]) -> Result<(), Fail> {
    for edit in edits {
        edit_one(document, edit)?;
    }
    Ok(())
}

fn edit_one(document: &mut VDom<'static>, edit: &Edit) -> Result<(), Fail> {
    match edit {
        Edit::Push(number, child) => push(document, *number, *child),
        Edit::Pull(number, place) => pull(document, *number, *place),
        Edit::Put(number, bytes) => replace_text(document, *number, bytes),
        Edit::SwapNodes => swap_nodes(document),
        Edit::SwapTop => swap_top(document),
        Edit::Root(place, handle) => put_top(document, *place, *handle),
        Edit::Text(number, text) => write_text(document, *number, text),
        Edit::Comment(number, text) => write_comment(document, *number, text),
        Edit::Part(number, part) => write_part(document, *number, part),
    }
}

// The node of a number.
fn node_mut<'d>(
    document: &'d mut VDom<'static>,
    number: u32,
) -> Result<&'d mut Node<'static>, Fail> {
    match document.parser_mut().resolve_node_id_mut(number) {
        Some(node) => Ok(node),
        None => Err(Fail::from("no such node")),
    }
}

// Makes a handle the last child.
fn push_to<A, B, O: SummaryOf<A>>(tag: &mut TagOf<A, B, O>, child: u32) -> Result<(), Fail> {
    let mut children = tag.children_mut();
    children.top_mut().push(NodeHandle::new(child))?;
    Ok(())
}

fn push(document: &mut VDom<'static>, number: u32, child: u32) -> Result<(), Fail> {
    match node_mut(document, number)?.as_tag_mut() {
        Some(tag) => push_to(tag, child),
        None => Err(Fail::from("no tag")),
    }
}

// Takes the child at a place out.
fn pull_from<A, B, O: SummaryOf<A>>(tag: &mut TagOf<A, B, O>, place: usize) -> Result<(), Fail> {
    let mut children = tag.children_mut();
    let handles = children.top_mut();
    if place >= handles.len() {
        return Err(Fail::from("no such child"));
    }
    handles.remove(place);
    Ok(())
}

fn pull(document: &mut VDom<'static>, number: u32, place: usize) -> Result<(), Fail> {
    match node_mut(document, number)?.as_tag_mut() {
        Some(tag) => pull_from(tag, place),
        None => Err(Fail::from("no tag")),
    }
}

fn replace_text(
    document: &mut VDom<'static>,
    number: u32,
    bytes: &'static [u8],
) -> Result<(), Fail> {
    *node_mut(document, number)? = NodeOf::Raw(Bytes::from(bytes));
    Ok(())
}

fn swap_nodes(document: &mut VDom<'static>) -> Result<(), Fail> {
    if document.nodes().len() < 2 {
        return Err(Fail::from("too few nodes"));
    }
    document.nodes_mut().swap(0, 1);
    Ok(())
}

fn swap_top(document: &mut VDom<'static>) -> Result<(), Fail> {
    if document.children().len() < 2 {
        return Err(Fail::from("too few top nodes"));
    }
    document.children_mut().swap(0, 1);
    Ok(())
}

fn put_top(document: &mut VDom<'static>, place: usize, handle: u32) -> Result<(), Fail> {
    match document.children_mut().get_mut(place) {
        Some(top) => *top = NodeHandle::new(handle),
        None => return Err(Fail::from("no such place")),
    }
    Ok(())
}

fn write_text(document: &mut VDom<'static>, number: u32, text: &'static str) -> Result<(), Fail> {
    match node_mut(document, number)?.as_raw_mut() {
        Some(bytes) => *bytes = Bytes::from(text),
        None => return Err(Fail::from("no text")),
    }
    Ok(())
}

fn write_comment(
    document: &mut VDom<'static>,
    number: u32,
    text: &'static str,
) -> Result<(), Fail> {
    match node_mut(document, number)?.as_comment_mut() {
        Some(bytes) => *bytes = Bytes::from(text),
        None => return Err(Fail::from("no comment")),
    }
    Ok(())
}

fn write_part(document: &mut VDom<'static>, number: u32, part: &Part) -> Result<(), Fail> {
    match NodeHandle::new(number).get_mut(document.parser_mut()) {
        Some(node) => write_part_of(node, part),
        None => Err(Fail::from("no such node")),
    }
}

fn write_part_of(node: &mut Node<'static>, part: &Part) -> Result<(), Fail> {
    match node.as_tag_mut() {
        Some(tag) => Ok(edit_tag(tag, part)?),
        None => Err(Fail::from("no tag")),
    }
}

fn edit_tag(tag: &mut HTMLTag<'static>, part: &Part) -> Result<(), AllocError> {
    match part {
        Part::Name(name) => *tag.name_mut() = Bytes::from(*name),
        Part::Value(key, value) => write_value(tag, key, Bytes::from(*value)),
        Part::Bytes(key, value) => write_value(tag, key, Bytes::from(*value)),
        Part::Insert(key, value) => {
            let value = Some(Bytes::from(*value));
            tag.attributes_mut().insert(Bytes::from(*key), value)?;
        }
        Part::Bare(key) => {
            tag.attributes_mut().remove_value(Bytes::from(*key));
        }
        Part::Unset(key) => {
            tag.attributes_mut().remove(Bytes::from(*key));
        }
    }
    Ok(())
}

fn write_value(tag: &mut HTMLTag<'static>, key: &'static str, value: Bytes<'static>) {
    if let Some(place) = tag.attributes_mut().value_mut(&Bytes::from(key)) {
        *place = value;
    }
}
