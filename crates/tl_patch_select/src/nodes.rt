//! A page with the tags of nodes changed.
ghost use Rattle.std.specs.Prelude.{IfErr, IfOk, OnOk, map, ◌≡◌};
ghost use Rattle.tl_patch.specs.PatchView.{patch_view};
ghost use Rattle.tl_patch_select.specs.Nodes.{AreInOrder, AreNodesPatched, all_placed, change_of, first_lacking, lacking_at, lacks_tag, number_of};
ghost use Rattle.tl_patch_select.specs.Reasons.{AreNodesReason};

use crate::error::SelectionPatchError;
use crate::node_change::NodeChange;
use crate::patched::Patched;
use crate::selected::{first_place, place_of, places_in_order};
use std::alloc::{AllocError, Global};
use tl_patch::{Change, TagPatch, patch};
use tl_tree::Tree;

// The patches of the nodes that a tag stands for.
fn patches_of<'a>(
    alloc: Global,
    tree: &Tree<'_>,
    changes: &[NodeChange<'a>],
) -> Result<Vec<TagPatch<'a>>, AllocError>
    ensures { IfOk result (λ patches. map patch_view patches.items
        ≡ all_placed tree.now (map change_of changes.now)) }
{
    let mut patches = Vec::with_capacity(alloc, changes.len())?;
    for node in changes {
        if let Some(start) = place_of(tree, node.number) {
            patches.push(TagPatch {
                start,
                change: node.change,
            })?;
        }
    }
    Ok(patches)
}

// Puts patches in the order of their places; those of one place keep their order.
fn sort(patches: &mut Vec<TagPatch<'_>>) -> Result<(), AllocError>
    ensures { OnOk result
        (AreInOrder (map patch_view patches.old.items) (map patch_view patches.new.items)) }
{
    patches.sort_by_key(|patch| patch.start)
}

// Whether no tag stands for a node that needs one for its change.
fn lacks_tag(tree: &Tree<'_>, node: &NodeChange<'_>) -> bool
    ensures { result ≡ lacks_tag tree.now (change_of node.now) }
{
    match node.change {
        Change::Set { .. } => place_of(tree, node.number).is_none(),
        Change::Unset { .. } => false,
    }
}

// The first of such nodes.
fn first_lacking(tree: &Tree<'_>, changes: &[NodeChange<'_>]) -> Option<usize>
    ensures { result ≡ first_lacking tree.now (map change_of changes.now) }
{
    for node in changes {
        if lacks_tag(tree, node) {
            return Some(node.number);
        }
    }
    None
}

// Where it was put in.
fn lacking_at(tree: &Tree<'_>, page_len: usize, changes: &[NodeChange<'_>]) -> Option<usize>
    ensures { result ≡ lacking_at tree.now page_len (map change_of changes.now) }
{
    let number = first_lacking(tree, changes)?;
    Some(first_place(tree, number, page_len))
}

fn numbers_of(alloc: Global, changes: &[NodeChange<'_>]) -> Result<Vec<usize>, AllocError>
    ensures { IfOk result (λ numbers. numbers.items
        ≡ map number_of (map change_of changes.now)) }
{
    let mut numbers = Vec::with_capacity(alloc, changes.len())?;
    for node in changes {
        numbers.push(node.number)?;
    }
    Ok(numbers)
}

/// The page with these changes of the start tags of nodes of its tree, in any order, and of no
/// other byte; several of one tag are made one after the other. A start tag that stands for several
/// nodes, as that of formatting that is opened again, has a change of each. A node that no tag
/// stands for, as a `tbody` that the standard puts in, can't get a key; it has none that could go.
pub fn patch_nodes(
    alloc: Global,
    page: &[u8],
    tree: &Tree<'_>,
    changes: &[NodeChange<'_>],
) -> Result<Patched, SelectionPatchError>
    ensures patched { IfOk result (λ p. AreNodesPatched (map change_of changes.now) tree.now
        page.now p.bytes.items p.places.items) }
    ensures refused { IfErr result
        (AreNodesReason (map change_of changes.now) tree.now page.now) }
{
    if let Some(at) = lacking_at(tree, page.len(), changes) {
        return Err(SelectionPatchError::Untagged(at));
    }
    let numbers = numbers_of(alloc, changes)?;
    let places = places_in_order(alloc, tree, numbers.as_slice())?;
    let mut patches = patches_of(alloc, tree, changes)?;
    sort(&mut patches)?;
    let bytes = patch(alloc, page, patches.as_slice())?;
    Ok(Patched { bytes, places })
}
