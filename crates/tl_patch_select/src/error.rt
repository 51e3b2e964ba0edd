//! Why the tags where a selector holds are not changed.
ghost use Rattle.std.specs.Prelude.{◌≡◌};
ghost use Rattle.tl_patch_select.specs.Errors.{error_of_patch};
ghost use Rattle.tl_patch_select.specs.declared.error.SelectionPatchError.TheVariants.{OutOfMemory};

use std::alloc::AllocError;
use thiserror::Error;
use tl_patch::PatchError;

/// Why the tags where a selector holds were not changed. Places are bytes of the page.
#[derive(Clone, Copy, PartialEq, Eq, Debug, Error)]
pub enum SelectionPatchError {
    /// The selector holds at an element that no tag stands for, as a `tbody` that the standard
    /// puts in before the first row: it was put in before what begins at this place.
    #[error("the element that browsers add at byte {0} has no tag to edit")]
    Untagged(usize),
    /// The tokenizer by itself reads no start tag at this place, where one stands in the tree.
    #[error("the element at byte {0} has no start tag")]
    NoStartTag(usize),
    /// What is to be set in the tag at this place can't be written.
    #[error("the new attribute or name can't be written in the tag at byte {0}")]
    NotWritten(usize),
    /// Memory ran out.
    #[error("out of memory")]
    OutOfMemory,
}

impl From<AllocError> for SelectionPatchError {
    ghost from_gives = { λ _ e. e ≡ OutOfMemory };

    fn from(_: AllocError) -> Self {
        SelectionPatchError::OutOfMemory
    }
}

impl From<PatchError> for SelectionPatchError {
    ghost from_gives = { λ error e. e ≡ error_of_patch error };

    fn from(error: PatchError) -> Self {
        match error {
            PatchError::NoStartTag(place) => SelectionPatchError::NoStartTag(place),
            PatchError::NotWritten(place) => SelectionPatchError::NotWritten(place),
            PatchError::OutOfMemory => SelectionPatchError::OutOfMemory,
        }
    }
}
