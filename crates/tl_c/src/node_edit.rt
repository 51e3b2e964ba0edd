//! Elements that are nodes changed in the page of the document that is held, if one is.
ghost use Rattle.std.specs.Prelude.{◌≡◌, ◌≢◌, Err, IfOk, false, is_some, map, option_map};
ghost use Rattle.tl_c.specs.NodeEdits.{AreDone, AreHeldDone, AreHeldNotDone, AreNotDone, are_edits, edit_lent, edits_lent};
ghost use Rattle.tl_page.specs.declared.failure.Failure.TheVariants.{Fault, NotUnderstood, Refused};
ghost use Rattle.tl_patch_select.specs.NodeEdits.{edit_of};

use crate::element_edit::{patch_of, report};
use crate::lent_edit::LentEdit;
use crate::parsed_page::ParsedPage;
use std::alloc::{AllocError, Global};
use tl_page::Failure;
use tl_patch_select::{NodeEdit, Patched, edit_nodes};
use tl_tree::Tree;

// The patch that is lent, if its numbers ask for one.
fn edit_lent<'c>(lent: &LentEdit<'c>) -> Option<NodeEdit<'c>>
    ensures { option_map edit_of result ≡ edit_lent lent.now }
{
    let patch = patch_of(lent.edit, lent.form, lent.content)?;
    Some(NodeEdit {
        number: lent.node as usize,
        patch,
    })
}

// Whether its numbers ask for one.
fn is_edit(lent: &LentEdit<'_>) -> bool
    ensures { result ≡ is_some (edit_lent lent.now) }
{
    edit_lent(lent).is_some()
}

// Whether those of each ask for one.
fn are_edits(lent: &[LentEdit<'_>]) -> bool
    ensures { result ≡ are_edits lent.now }
{
    for one in lent {
        if !is_edit(one) {
            return false;
        }
    }
    true
}

// The patches that are lent.
fn edits_lent<'c>(alloc: Global, lent: &[LentEdit<'c>]) -> Result<Vec<NodeEdit<'c>>, AllocError>
    ensures { IfOk result (λ own. map edit_of own.items ≡ edits_lent lent.now) }
{
    let mut edits = Vec::with_capacity(alloc, lent.len())?;
    for one in lent {
        if let Some(edit) = edit_lent(one) {
            edits.push(edit)?;
        }
    }
    Ok(edits)
}

// The page with these patches. Where they can't be made it says the place in the page and the
// number of why; else 0 and 0.
fn edit_tree(
    alloc: Global,
    page: &[u8],
    tree: &Tree<'_>,
    edits: &[NodeEdit<'_>],
    place: &mut usize,
    cause: &mut u8,
) -> Result<Vec<u8>, Failure>
    ensures made { IfOk result (λ text.
        AreDone (map edit_of edits.now) tree.now page.now text.items) }
    ensures done { IfOk result (λ _. (place.new ≡ 0) × (cause.new ≡ 0)) }
    ensures refused { result ≡ Err Refused →
        AreNotDone (map edit_of edits.now) tree.now page.now place.new cause.new }
    ensures understood { result ≢ Err NotUnderstood }
    ensures failure { result ≢ Err Fault }
{
    *place = 0;
    *cause = 0;
    match edit_nodes(alloc, page, tree, edits) {
        Ok(edited) => {
            let Patched {
                bytes,
                places: _places,
            } = edited;
            Ok(bytes)
        }
        Err(error) => Err(report(error, place, cause)),
    }
}

/// The page with these patches of elements that are nodes of the document, and of no other byte.
/// Numbers that ask for no patch are not understood. Where an element can't be changed it says the
/// place in the page and the number of why; else 0 and 0.
pub(crate) fn edit_held(
    alloc: Global,
    held: &Option<Box<ParsedPage>>,
    page: &[u8],
    lent: &[LentEdit<'_>],
    place: &mut usize,
    cause: &mut u8,
) -> Result<Vec<u8>, Failure>
    ensures made { let parsed = option_map (λ own. own.value) held.now in
        IfOk result (λ text. AreHeldDone lent.now parsed page.now text.items) }
    ensures done { IfOk result (λ _. (place.new ≡ 0) × (cause.new ≡ 0)) }
    ensures refused { result ≡ Err Refused →
        let parsed = option_map (λ own. own.value) held.now in
        AreHeldNotDone lent.now parsed page.now place.new cause.new }
    ensures understood { result ≡ Err NotUnderstood → are_edits lent.now ≡ false }
    ensures failure { result ≢ Err Fault }
{
    *place = 0;
    *cause = 0;
    let Some(own) = held else {
        return Err(Failure::Refused);
    };
    if !are_edits(lent) {
        return Err(Failure::NotUnderstood);
    }
    let edits = edits_lent(alloc, lent)?;
    edit_tree(alloc, page, &own.tree, edits.as_slice(), place, cause)
}
