//! Elements of a page changed where a selector of CSS holds.
ghost use Rattle.std.specs.Prelude.{◌≡◌, ◌≢◌, Err, IfOk, IsSome, None};
ghost use Rattle.std.specs.Option.{option_map};
ghost use Rattle.tl_page.specs.declared.failure.Failure.TheVariants.{Fault, NotUnderstood, OutOfMemory, Refused};
ghost use Rattle.tl_patch_edit.specs.View.{content_view, patch_view};
ghost use Rattle.tl_c.specs.Css.{IsTold, IsUnasked, wrong_in};
ghost use Rattle.tl_c.specs.Edits.{IsEditRefusal, IsEditRefused, IsEditedIf, content_of_number, number_of_edit_error, patch_of_number, place_of_edit_error, placed_of_number};

use crate::css::{Reading, read_selector};
use crate::reading::tree_of;
use std::alloc::Global;
use tl_page::Failure;
use tl_patch_edit::{Content, EditError, ElementPatch};
use tl_patch_select::{Patched, SelectionEditError, edit_selected};

// The content that bytes are, as a number says.
fn content_of<'c>(form: u8, content: &'c [u8]) -> Option<Content<'c>>
    ensures { option_map content_view result ≡ content_of_number form content.now }
{
    match form {
        0 => Some(Content::Text { text: content }),
        1 => Some(Content::Markup { markup: content }),
        _ => None,
    }
}

// The patch by which content is put, that a number asks for.
fn placed_of<'c>(number: u8, content: Content<'c>) -> Option<ElementPatch<'c>>
    ensures { option_map patch_view result ≡ placed_of_number number (content_view content.entry) }
{
    match number {
        3 => Some(ElementPatch::ReplaceWith { content }),
        4 => Some(ElementPatch::Fill { content }),
        5 => Some(ElementPatch::Prepend { content }),
        6 => Some(ElementPatch::Append { content }),
        7 => Some(ElementPatch::PutBefore { content }),
        8 => Some(ElementPatch::PutAfter { content }),
        _ => None,
    }
}

/// The patch that a number asks for.
pub(crate) fn patch_of<'c>(number: u8, form: u8, content: &'c [u8]) -> Option<ElementPatch<'c>>
    ensures { option_map patch_view result ≡ patch_of_number number form content.now }
{
    match number {
        0 => Some(ElementPatch::Rename { name: content }),
        1 => Some(ElementPatch::Remove),
        2 => Some(ElementPatch::Unwrap),
        _ => placed_of(number, content_of(form, content)?),
    }
}

/// Says where in the page an element can't be changed, and the number of why; else 0 and 0.
pub(crate) fn report(error: SelectionEditError, place: &mut usize, cause: &mut u8) -> Failure
    ensures place { place.new ≡ place_of_edit_error error }
    ensures cause { cause.new ≡ number_of_edit_error error }
    ensures failure { result ≢ Fault }
    ensures refused { result ≡ Refused → IsEditRefusal error }
    ensures understood { result ≢ NotUnderstood }
{
    let (at, why, failure) = match error {
        SelectionEditError::Refused(EditError::NoStartTag(at)) => (at, 16, Failure::Refused),
        SelectionEditError::Refused(EditError::NotMeant(at)) => (at, 19, Failure::Refused),
        SelectionEditError::Refused(EditError::Across(at)) => (at, 20, Failure::Refused),
        SelectionEditError::Refused(EditError::EndOfPage(at)) => (at, 21, Failure::Refused),
        SelectionEditError::Refused(EditError::NotWritten(at)) => (at, 22, Failure::Refused),
        SelectionEditError::Refused(EditError::Misread(at, _)) => (at, 23, Failure::Refused),
        SelectionEditError::Refused(EditError::ReadOtherwise(at)) => (at, 18, Failure::Refused),
        SelectionEditError::Refused(EditError::OutOfMemory) => (0, 0, Failure::OutOfMemory),
        SelectionEditError::Untagged(at) => (at, 24, Failure::Refused),
        SelectionEditError::NotWhole(_, at) => (at, 25, Failure::Refused),
        SelectionEditError::OutOfMemory => (0, 0, Failure::OutOfMemory),
    };
    *place = at;
    *cause = why;
    failure
}

/// The page with this patch of each element where a selector holds, and no other byte changed. A
/// number that asks for none, and a page that is no text, are not understood. Of bytes that are no
/// selector it says the first one that is wrong, and the number of the cause; where an element
/// can't be changed, its place in the page; else 0 and 0.
pub(crate) fn edit_elements(
    alloc: Global,
    number: u8,
    form: u8,
    selector: &[u8],
    content: &[u8],
    page: &[u8],
    place: &mut usize,
    cause: &mut u8,
) -> Result<Vec<u8>, Failure>
    ensures edited { let patch = patch_of_number number form content.now in
        IfOk result (λ text. IsEditedIf selector.now patch page.now text.items) }
    ensures done { IfOk result (λ _. (place.new ≡ 0) × (cause.new ≡ 0)) }
    ensures wrong { IsSome (wrong_in selector.now) → result ≢ Err OutOfMemory
        → (result ≡ Err Refused) × IsTold (wrong_in selector.now) place.new cause.new }
    ensures refused { wrong_in selector.now ≡ None → result ≡ Err Refused →
        let patch = patch_of_number number form content.now in
        IsEditRefused selector.now patch page.now place.new cause.new }
    ensures understood { result ≡ Err NotUnderstood →
        IsUnasked selector.now (patch_of_number number form content.now) page.now }
    ensures failure { result ≢ Err Fault }
{
    let selector = read_selector(alloc, Reading::Whole, selector, place, cause)?;
    let Some(patch) = patch_of(number, form, content) else {
        return Err(Failure::NotUnderstood);
    };
    let tree = tree_of(alloc, page)?;
    match edit_selected(alloc, page, &tree, &selector, patch) {
        Ok(edited) => {
            let Patched {
                bytes,
                places: _places,
            } = edited;
            Ok(bytes)
        }
        Err(error) => Err(report(error, place, cause)),
    }
}
