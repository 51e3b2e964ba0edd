//! Why a page is not patched.
ghost use Rattle.std.specs.Prelude.{◌≡◌};
ghost use Rattle.tl_patch.specs.declared.error.PatchError.TheVariants.{OutOfMemory};

use std::alloc::AllocError;
use thiserror::Error;

/// Why a page was not patched.
#[derive(Clone, Copy, PartialEq, Eq, Debug, Error)]
pub enum PatchError {
    /// No start tag begins at this place of the page, or the place of a patch before it is greater.
    #[error("no start tag at byte {0}")]
    NoStartTag(usize),
    /// What is to be set in the tag at this place can't be written.
    #[error("the new attribute or name can't be written in the tag at byte {0}")]
    NotWritten(usize),
    /// Memory ran out.
    #[error("out of memory")]
    OutOfMemory,
}

impl From<AllocError> for PatchError {
    ghost from_gives = { λ _ e. e ≡ OutOfMemory };

    fn from(_: AllocError) -> Self {
        PatchError::OutOfMemory
    }
}
