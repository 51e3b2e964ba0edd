//! A page with the elements changed that are nodes.
ghost use Rattle.std.specs.Prelude.{IfErr, IfOk, OnOk, length, map, ◌≡◌, ℕ};
ghost use Rattle.tl_patch_edit.specs.View.{patches_view};
ghost use Rattle.tl_patch_select.specs.NodeEdits.{AreEditsInOrder, AreEditsReason, AreNodesEdited, AreNumbersOf, edit_of, edited_number, placed_edits};

use crate::edit_error::SelectionEditError;
use crate::node_edit::NodeEdit;
use crate::patched::Patched;
use crate::selected::{place_of, places_in_order, put_in_order, untagged_at};
use crate::whole::find_crossed;
use std::alloc::{AllocError, Global};
use tl_patch_edit::{PlacedPatch, TokenizedPage};
use tl_tree::Tree;

fn numbers_of(alloc: Global, edits: &[NodeEdit<'_>]) -> Result<Vec<usize>, AllocError>
    ensures { IfOk result (λ numbers. numbers.items
        ≡ map edited_number (map edit_of edits.now)) }
{
    let mut numbers = Vec::with_capacity(alloc, edits.len())?;
    for node in edits {
        numbers.push(node.number)?;
    }
    Ok(numbers)
}

// The numbers of the nodes, in order, each once.
fn numbers_in_order(alloc: Global, edits: &[NodeEdit<'_>]) -> Result<Vec<usize>, AllocError>
    ensures { IfOk result (λ numbers. AreNumbersOf (map edit_of edits.now) numbers.items) }
{
    let mut numbers = numbers_of(alloc, edits)?;
    put_in_order(&mut numbers);
    Ok(numbers)
}

// The patches of the nodes that a tag stands for.
fn placed_edits<'a>(
    alloc: Global,
    tree: &Tree<'_>,
    edits: &[NodeEdit<'a>],
) -> Result<Vec<PlacedPatch<'a>>, AllocError>
    ensures { IfOk result (λ patches. patches_view patches.items
        ≡ placed_edits tree.now (map edit_of edits.now)) }
{
    let mut patches = Vec::with_capacity(alloc, edits.len())?;
    for node in edits {
        if let Some(place) = place_of(tree, node.number) {
            patches.push(PlacedPatch {
                place,
                patch: node.patch,
            })?;
        }
    }
    Ok(patches)
}

// Puts patches in the order of their places; those of one place keep their order.
fn sort(patches: &mut Vec<PlacedPatch<'_>>) -> Result<(), AllocError>
    ensures { OnOk result
        (AreEditsInOrder (patches_view patches.old.items) (patches_view patches.new.items)) }
{
    patches.sort_by_key(|patch| patch.place)
}

// The same patches in the order of their places.
fn edits_in_order<'a>(
    alloc: Global,
    tree: &Tree<'_>,
    edits: &[NodeEdit<'a>],
) -> Result<Vec<PlacedPatch<'a>>, AllocError>
    ensures { IfOk result (λ patches. AreEditsInOrder
        (placed_edits tree.now (map edit_of edits.now)) (patches_view patches.items)) }
{
    let mut patches = placed_edits(alloc, tree, edits)?;
    sort(&mut patches)?;
    Ok(patches)
}

/// The page with these patches of the elements that are nodes of its tree, in any order, and of no
/// other byte. Each of these elements has to be whole, as in `edit_selected`, and a tag has to
/// stand for it. An element in what another patch takes away goes with it; of one element those
/// patches are made that don't cut across each other, in the order in which they are given.
#[tactic(auto, using(crate::proofs::Reasons::one_not_whole))]
pub fn edit_nodes(
    alloc: Global,
    page: &[u8],
    tree: &Tree<'_>,
    edits: &[NodeEdit<'_>],
) -> Result<Patched, SelectionEditError>
    ensures edited { IfOk result (λ p. AreNodesEdited (map edit_of edits.now) tree.now
        page.now p.bytes.items p.places.items) }
    ensures refused { IfErr result
        (AreEditsReason (map edit_of edits.now) tree.now page.now) }
{
    if edits.is_empty() {
        let patched = Patched::unchanged(alloc, page)?;
        return Ok(patched);
    }
    let numbers = numbers_in_order(alloc, edits)?;
    if let Some(at) = untagged_at(tree, page.len(), numbers.as_slice()) {
        return Err(SelectionEditError::Untagged(at));
    }
    let tokenized = TokenizedPage::of(alloc, page)?;
    let found = find_crossed(alloc, &tokenized, tree, numbers.as_slice())?;
    if let Some(crossed) = found {
        return Err(SelectionEditError::NotWhole(crossed.place, crossed.at));
    }
    let places = places_in_order(alloc, tree, numbers.as_slice())?;
    let patches = edits_in_order(alloc, tree, edits)?;
    let bytes = tokenized.patch_each(alloc, patches.as_slice())?;
    Ok(Patched { bytes, places })
}
