//! Links of the nodes of a table.
ghost use Rattle.std.specs.Prelude.{◌≡◌, ◌<◌, ◌≤◌, ◌^◌, Err, IfOk, length, map, slice_get};
ghost use Rattle.tl_spec.specs.Tree.Element.{children_of};
ghost use Rattle.tl_table.specs.Links.{AreLinks};
ghost use Rattle.tl_table.specs.Inner.Steps.{with_child, with_row, with_top, with_top_node};

use crate::element::Element;
use crate::handle::NodeHandle;
use std::alloc::{AllocError, Global};
use thiserror::Error;

/// Where a node stands.
#[derive(Clone, Copy, PartialEq, Eq, Debug)]
pub struct Links {
    /// The tag among whose children it stands.
    pub parent: Option<u32>,
    /// What stands behind it among them, or at the top.
    pub next: Option<u32>,
}

/// Why there are no links.
#[derive(Clone, Copy, PartialEq, Eq, Debug, Error)]
pub enum LinksError {
    /// The table has 4294967296 nodes or more.
    #[error("more than 4294967295 nodes")]
    TooLong,
    #[error("out of memory")]
    OutOfMemory,
}

impl From<AllocError> for LinksError {
    ghost use Rattle.tl_table.specs.declared.links.LinksError.TheVariants as f;

    ghost from_gives = { λ _ error. error ≡ f.OutOfMemory };

    fn from(_: AllocError) -> Self {
        LinksError::OutOfMemory
    }
}

// Links a child to its parent and to what stands behind it. One that has a parent keeps it.
fn link_child(links: &mut Vec<Links>, child: Option<u32>, parent: u32, next: Option<u32>)
    ensures { links.new.items ≡ with_child child parent next links.old.items }
{
    let Some(child) = child else {
        return;
    };
    let place = child as usize;
    if place < links.len() && links[place].parent.is_none() {
        links[place] = Links {
            parent: Some(parent),
            next,
        };
    }
}

// Links the children of a node.
fn link_children<N: Element>(links: &mut Vec<Links>, node: &N, parent: u32)
    ensures { links.new.items
        ≡ with_row (children_of (N.node node.now)) parent links.old.items }
{
    for place in 0..node.child_count() {
        link_child(links, node.child(place), parent, node.child(place + 1));
    }
}

// Links a node at the top to what stands behind it.
fn link_top_node(links: &mut Vec<Links>, number: u32, next: Option<u32>)
    ensures { links.new.items ≡ with_top_node number next links.old.items }
{
    let place = number as usize;
    if place < links.len() && links[place].parent.is_none() && links[place].next.is_none() {
        links[place] = Links { parent: None, next };
    }
}

// The number at a place of a row.
fn number_at(row: &[NodeHandle], place: usize) -> Option<u32>
    ensures { result ≡ slice_get row.now place }
{
    row.get(place).map(|handle| handle.get_inner())
}

// Links the nodes at the top.
fn link_top(links: &mut Vec<Links>, top: &[NodeHandle])
    ensures { links.new.items ≡ with_top top.now links.old.items }
{
    for (place, handle) in top.iter().enumerate() {
        link_top_node(links, handle.get_inner(), number_at(top, place + 1));
    }
}

// The links of each node of a table whose numbers have 32 bits.
fn link_nodes<N: Element>(
    alloc: Global,
    nodes: &[N],
    top: &[NodeHandle],
) -> Result<Vec<Links>, AllocError>
    requires { length nodes.now < 2 ^ 32 }
    ensures { IfOk result (λ links. AreLinks (map N.node nodes.now) top.now links.items) }
{
    let none = Links {
        parent: None,
        next: None,
    };
    let mut links = vec![in alloc; none; nodes.len()]?;
    for (number, node) in nodes.iter().enumerate() {
        link_children(&mut links, node, number as u32);
    }
    link_top(&mut links, top);
    Ok(links)
}

/// The links of each node of a table. A node that is the child of two, which edits can make of it,
/// is linked as the child of the first.
pub fn node_links<N: Element>(
    alloc: Global,
    nodes: &[N],
    top: &[NodeHandle],
) -> Result<Vec<Links>, LinksError>
    ensures links { IfOk result (λ links. AreLinks (map N.node nodes.now) top.now links.items) }
    ensures too_long { result ≡ Err LinksError.TooLong → 2 ^ 32 ≤ length nodes.now }
{
    if nodes.len() > 4294967295 {
        return Err(LinksError::TooLong);
    }
    let links = link_nodes(alloc, nodes, top)?;
    Ok(links)
}
