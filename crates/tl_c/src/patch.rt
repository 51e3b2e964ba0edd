//! Tags of a page changed where a selector of CSS holds.
ghost use Rattle.std.specs.Prelude.{◌≡◌, ◌≢◌, Err, IfOk, IsSome, None};
ghost use Rattle.std.specs.Option.{option_map};
ghost use Rattle.tl_page.specs.declared.failure.Failure.TheVariants.{Fault, NotUnderstood, OutOfMemory, Refused};
ghost use Rattle.tl_patch.specs.PatchView.{change_view};
ghost use Rattle.tl_c.specs.Css.{IsTold, IsUnasked, wrong_in};
ghost use Rattle.tl_c.specs.Patches.{IsChangeRefusal, IsPatchRefused, IsPatchedIf, change_of_number, number_of_patch_error, place_of_patch_error};

use crate::css::{Reading, read_selector};
use crate::reading::tree_of;
use std::alloc::Global;
use tl_page::Failure;
use tl_patch::Change;
use tl_patch_select::{Patched, SelectionPatchError, patch_selected};

/// The change that a number asks for.
pub(crate) fn change_of<'k>(number: u8, key: &'k [u8], value: &'k [u8]) -> Option<Change<'k>>
    ensures { option_map change_view result ≡ change_of_number number key.now value.now }
{
    match number {
        0 => Some(Change::Set { key, value }),
        1 => Some(Change::Unset { key }),
        _ => None,
    }
}

/// Says where in the page the tags can't be changed, and the number of why; else 0 and 0.
pub(crate) fn report(error: SelectionPatchError, place: &mut usize, cause: &mut u8) -> Failure
    ensures place { place.new ≡ place_of_patch_error error }
    ensures cause { cause.new ≡ number_of_patch_error error }
    ensures failure { result ≢ Fault }
    ensures refused { result ≡ Refused → IsChangeRefusal error }
    ensures understood { result ≢ NotUnderstood }
{
    let (at, why, failure) = match error {
        SelectionPatchError::NoStartTag(at) => (at, 16, Failure::Refused),
        SelectionPatchError::NotWritten(at) => (at, 17, Failure::Refused),
        SelectionPatchError::Untagged(at) => (at, 24, Failure::Refused),
        SelectionPatchError::OutOfMemory => (0, 0, Failure::OutOfMemory),
    };
    *place = at;
    *cause = why;
    failure
}

/// The page with a key set (0) or unset (1) in the start tag of each element where a selector
/// holds, and no other byte changed. Another number, and a page that is no text, are not
/// understood. Of bytes that are no selector it says the first one that is wrong, and the number of
/// the cause; where tags can't be changed, the place in the page; else 0 and 0.
pub(crate) fn patch(
    alloc: Global,
    number: u8,
    selector: &[u8],
    key: &[u8],
    value: &[u8],
    page: &[u8],
    place: &mut usize,
    cause: &mut u8,
) -> Result<Vec<u8>, Failure>
    ensures patched { let change = change_of_number number key.now value.now in
        IfOk result (λ text. IsPatchedIf selector.now change page.now text.items) }
    ensures done { IfOk result (λ _. (place.new ≡ 0) × (cause.new ≡ 0)) }
    ensures wrong { IsSome (wrong_in selector.now) → result ≢ Err OutOfMemory
        → (result ≡ Err Refused) × IsTold (wrong_in selector.now) place.new cause.new }
    ensures refused { wrong_in selector.now ≡ None → result ≡ Err Refused →
        let change = change_of_number number key.now value.now in
        IsPatchRefused selector.now change page.now place.new cause.new }
    ensures understood { result ≡ Err NotUnderstood →
        IsUnasked selector.now (change_of_number number key.now value.now) page.now }
    ensures failure { result ≢ Err Fault }
{
    let selector = read_selector(alloc, Reading::Whole, selector, place, cause)?;
    let Some(change) = change_of(number, key, value) else {
        return Err(Failure::NotUnderstood);
    };
    let tree = tree_of(alloc, page)?;
    match patch_selected(alloc, page, &tree, &selector, change) {
        Ok(patched) => {
            let Patched {
                bytes,
                places: _places,
            } = patched;
            Ok(bytes)
        }
        Err(error) => Err(report(error, place, cause)),
    }
}
