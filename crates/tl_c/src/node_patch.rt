//! Tags of nodes changed in the page of the document that is held, if one is.
ghost use Rattle.std.specs.Prelude.{◌≡◌, ◌≢◌, Err, IfOk, false, is_some, map, option_map};
ghost use Rattle.tl_c.specs.NodeChanges.{AreHeldMade, AreHeldRefused, AreMade, AreRefused, are_changes, change_lent, changes_lent};
ghost use Rattle.tl_page.specs.declared.failure.Failure.TheVariants.{Fault, NotUnderstood, Refused};
ghost use Rattle.tl_patch_select.specs.Nodes.{change_of};

use crate::lent_change::LentChange;
use crate::parsed_page::ParsedPage;
use crate::patch::{change_of, report};
use std::alloc::{AllocError, Global};
use tl_page::Failure;
use tl_patch_select::{NodeChange, Patched, patch_nodes};
use tl_tree::Tree;

// The change that is lent, if its number asks for one.
fn change_lent<'c>(lent: &LentChange<'c>) -> Option<NodeChange<'c>>
    ensures { option_map change_of result ≡ change_lent lent.now }
{
    let change = change_of(lent.change, lent.key, lent.value)?;
    Some(NodeChange {
        number: lent.node as usize,
        change,
    })
}

// Whether a number asks for a change.
fn is_change(lent: &LentChange<'_>) -> bool
    ensures { result ≡ is_some (change_lent lent.now) }
{
    change_lent(lent).is_some()
}

// Whether the number of each asks for one.
fn are_changes(lent: &[LentChange<'_>]) -> bool
    ensures { result ≡ are_changes lent.now }
{
    for one in lent {
        if !is_change(one) {
            return false;
        }
    }
    true
}

// The changes that are lent.
fn changes_lent<'c>(
    alloc: Global,
    lent: &[LentChange<'c>],
) -> Result<Vec<NodeChange<'c>>, AllocError>
    ensures { IfOk result (λ own. map change_of own.items ≡ changes_lent lent.now) }
{
    let mut changes = Vec::with_capacity(alloc, lent.len())?;
    for one in lent {
        if let Some(change) = change_lent(one) {
            changes.push(change)?;
        }
    }
    Ok(changes)
}

// The page with these changes. Where they can't be made it says the place in the page and the
// number of why; else 0 and 0.
fn patch_tree(
    alloc: Global,
    page: &[u8],
    tree: &Tree<'_>,
    changes: &[NodeChange<'_>],
    place: &mut usize,
    cause: &mut u8,
) -> Result<Vec<u8>, Failure>
    ensures made { IfOk result (λ text.
        AreMade (map change_of changes.now) tree.now page.now text.items) }
    ensures done { IfOk result (λ _. (place.new ≡ 0) × (cause.new ≡ 0)) }
    ensures refused { result ≡ Err Refused →
        AreRefused (map change_of changes.now) tree.now page.now place.new cause.new }
    ensures understood { result ≢ Err NotUnderstood }
    ensures failure { result ≢ Err Fault }
{
    *place = 0;
    *cause = 0;
    match patch_nodes(alloc, page, tree, changes) {
        Ok(patched) => {
            let Patched {
                bytes,
                places: _places,
            } = patched;
            Ok(bytes)
        }
        Err(error) => Err(report(error, place, cause)),
    }
}

/// The page with these changes of the tags of nodes of the document, and of no other byte. A number
/// that asks for no change is not understood. Where a tag can't be changed it says the place in the
/// page and the number of why; else 0 and 0.
pub(crate) fn patch_held(
    alloc: Global,
    held: &Option<Box<ParsedPage>>,
    page: &[u8],
    lent: &[LentChange<'_>],
    place: &mut usize,
    cause: &mut u8,
) -> Result<Vec<u8>, Failure>
    ensures made { let parsed = option_map (λ own. own.value) held.now in
        IfOk result (λ text. AreHeldMade lent.now parsed page.now text.items) }
    ensures done { IfOk result (λ _. (place.new ≡ 0) × (cause.new ≡ 0)) }
    ensures refused { result ≡ Err Refused →
        let parsed = option_map (λ own. own.value) held.now in
        AreHeldRefused lent.now parsed page.now place.new cause.new }
    ensures understood { result ≡ Err NotUnderstood → are_changes lent.now ≡ false }
    ensures failure { result ≢ Err Fault }
{
    *place = 0;
    *cause = 0;
    let Some(own) = held else {
        return Err(Failure::Refused);
    };
    if !are_changes(lent) {
        return Err(Failure::NotUnderstood);
    }
    let changes = changes_lent(alloc, lent)?;
    patch_tree(alloc, page, &own.tree, changes.as_slice(), place, cause)
}
