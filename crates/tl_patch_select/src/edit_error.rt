//! Why the elements where a selector holds are not changed.
ghost use Rattle.std.specs.Prelude.{◌≡◌};
ghost use Rattle.tl_patch_select.specs.Errors.{error_of_edit};
ghost use Rattle.tl_patch_select.specs.declared.edit_error.SelectionEditError.TheVariants.{OutOfMemory};

use std::alloc::AllocError;
use thiserror::Error;
use tl_patch_edit::EditError;

/// Why the elements where a selector holds were not changed. Places are bytes of the page.
#[derive(Clone, Copy, PartialEq, Eq, Debug, Error)]
pub enum SelectionEditError {
    /// An element can't be changed so, for this reason.
    #[error("{0}")]
    Refused(EditError),
    /// The selector holds at an element that no tag stands for, as a `tbody` that the standard
    /// puts in before the first row: it was put in before what begins at this place.
    #[error("the element that browsers add at byte {0} has no tag to edit")]
    Untagged(usize),
    /// The element whose start tag begins at the first place isn't whole, so that it can be changed
    /// by its tag alone: what begins at the second one stands in the bytes that it has by its end
    /// tags, and not in it in the tree that browsers build, or the other way round.
    #[error("only attributes of the element at byte {0} can be edited: by its tags it has other content than in browsers (see byte {1})")]
    NotWhole(usize, usize),
    /// Memory ran out.
    #[error("out of memory")]
    OutOfMemory,
}

impl From<AllocError> for SelectionEditError {
    ghost from_gives = { λ _ e. e ≡ OutOfMemory };

    fn from(_: AllocError) -> Self {
        SelectionEditError::OutOfMemory
    }
}

impl From<EditError> for SelectionEditError {
    ghost from_gives = { λ error e. e ≡ error_of_edit error };

    fn from(error: EditError) -> Self {
        match error {
            EditError::OutOfMemory => SelectionEditError::OutOfMemory,
            _ => SelectionEditError::Refused(error),
        }
    }
}
