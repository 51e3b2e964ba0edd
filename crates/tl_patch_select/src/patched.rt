//! A page with the tags changed where a selector holds.
ghost use Rattle.std.specs.Prelude.{[], ◌≡◌, IfErr, IfOk, map};
ghost use Rattle.tl_patch_edit.specs.Kept.{KeepRawTexts};
ghost use Rattle.tl_patch_edit.specs.Several.{AreEdited};
ghost use Rattle.tl_patch.specs.PatchView.{change_view, patch_view};
ghost use Rattle.tl_patch_select.specs.Patched.{IsPatchedWhere, changes_at, missing_tag};
ghost use Rattle.tl_patch_select.specs.Reasons.{IsTagReason};

use crate::error::SelectionPatchError;
use crate::selected::Selected;
use std::alloc::{AllocError, Global};
use tl_css::Selector;
use tl_patch::{Change, TagPatch, patch};
use tl_patch_edit::unchanged;
use tl_tree::Tree;

/// A page with changes, and the bytes of the page at which the start tags begin of the elements
/// where the selector holds, in order. A start tag that stands for several of them, as that of
/// formatting that is opened again, is there once.
#[derive(Drop)]
pub struct Patched {
    pub bytes: Vec<u8>,
    pub places: Vec<usize>,
}

impl Patched {
    /// A page as it is.
    pub(crate) fn unchanged(alloc: Global, page: &[u8]) -> Result<Patched, AllocError>
        ensures edited { IfOk result (λ own. AreEdited [] page.now own.bytes.items) }
        ensures kept { IfOk result (λ own. KeepRawTexts [] page.now) }
        ensures places { IfOk result (λ own. own.places.items ≡ []) }
    {
        let bytes = unchanged(alloc, page)?;
        Ok(Patched {
            bytes,
            places: Vec::new(alloc),
        })
    }
}

// A change at each of these places.
fn patches_at<'a>(
    alloc: Global,
    change: Change<'a>,
    places: &[usize],
) -> Result<Vec<TagPatch<'a>>, AllocError>
    ensures { IfOk result (λ patches. map patch_view patches.items
        ≡ changes_at (change_view change.entry) places.now) }
{
    let mut patches = Vec::with_capacity(alloc, places.len())?;
    for place in places {
        patches.push(TagPatch {
            start: *place,
            change,
        })?;
    }
    Ok(patches)
}

// Where the first of some elements was put in that needs a tag for a change and has none.
fn missing_tag(
    selected: &Selected,
    change: Change<'_>,
    tree: &Tree<'_>,
    page_len: usize,
) -> Option<usize>
    ensures { result ≡ missing_tag (change_view change.entry) tree.now page_len
        selected.now.numbers.items }
{
    match change {
        Change::Set { .. } => selected.untagged_at(tree, page_len),
        Change::Unset { .. } => None,
    }
}

/// The page with this change of the start tag of each element where the selector holds, and of no
/// other byte. The selector is asked of the tree of the page. Where it holds nowhere, this is the
/// page, with no places. An element that no tag stands for, as a `tbody` that the standard puts in,
/// can't get a key; it has none that could go.
pub fn patch_selected(
    alloc: Global,
    page: &[u8],
    tree: &Tree<'_>,
    selector: &Selector,
    change: Change<'_>,
) -> Result<Patched, SelectionPatchError>
    ensures patched { IfOk result (λ p. IsPatchedWhere selector.now (change_view change.entry)
        tree.now page.now p.bytes.items p.places.items) }
    ensures refused { IfErr result
        (IsTagReason selector.now (change_view change.entry) tree.now page.now) }
{
    let selected = Selected::of(alloc, tree, selector)?;
    if let Some(at) = missing_tag(&selected, change, tree, page.len()) {
        return Err(SelectionPatchError::Untagged(at));
    }
    let Selected {
        numbers: _numbers,
        places,
    } = selected;
    let patches = patches_at(alloc, change, places.as_slice())?;
    let bytes = patch(alloc, page, patches.as_slice())?;
    Ok(Patched { bytes, places })
}
