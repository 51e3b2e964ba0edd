//! A page with the elements changed where a selector holds.
ghost use Rattle.std.specs.Prelude.{IfErr, IfOk};
ghost use Rattle.tl_patch_edit.specs.View.{patch_view};
ghost use Rattle.tl_patch_select.specs.Edited.{IsEditedWhere};
ghost use Rattle.tl_patch_select.specs.Reasons.{IsElementReason};

use crate::edit_error::SelectionEditError;
use crate::patched::Patched;
use crate::selected::Selected;
use crate::whole::find_crossed;
use std::alloc::Global;
use tl_css::Selector;
use tl_patch_edit::{ElementPatch, TokenizedPage};
use tl_tree::Tree;

/// The page with this patch of each element where the selector holds, and of no other byte. The
/// selector is asked of the tree of the page. Each of these elements has to be whole: what comes of
/// the bytes that it has by its end tags stands in it, and nothing else does. An element in what
/// another takes away goes with it. Where the selector holds nowhere, this is the page, with no
/// places. What a browser may read as markup is refused: a text with `&` or `<` in a `style`,
/// `script` or other raw text behind an `svg` or its like, and such a name for an element before
/// such raw texts.
#[tactic(auto, using(crate::proofs::Reasons::not_whole))]
pub fn edit_selected(
    alloc: Global,
    page: &[u8],
    tree: &Tree<'_>,
    selector: &Selector,
    patch: ElementPatch<'_>,
) -> Result<Patched, SelectionEditError>
    ensures edited { IfOk result (λ p. IsEditedWhere selector.now (patch_view patch.entry)
        tree.now page.now p.bytes.items p.places.items) }
    ensures refused { IfErr result
        (IsElementReason selector.now (patch_view patch.entry) tree.now page.now) }
{
    let selected = Selected::of(alloc, tree, selector)?;
    if selected.numbers.is_empty() {
        let patched = Patched::unchanged(alloc, page)?;
        return Ok(patched);
    }
    if let Some(at) = selected.untagged_at(tree, page.len()) {
        return Err(SelectionEditError::Untagged(at));
    }
    let tokenized = TokenizedPage::of(alloc, page)?;
    let found = find_crossed(alloc, &tokenized, tree, selected.numbers.as_slice())?;
    if let Some(crossed) = found {
        return Err(SelectionEditError::NotWhole(crossed.place, crossed.at));
    }
    let Selected {
        numbers: _numbers,
        places,
    } = selected;
    let bytes = tokenized.patch_elements(alloc, places.as_slice(), patch)?;
    Ok(Patched { bytes, places })
}
