//! Why it isn't known whether an operation was made.
ghost use Rattle.std.specs.Prelude.{◌≡◌};
ghost use Rattle.tl_tree_edit.specs.Errors.{error_of_read};
ghost use Rattle.tl_tree_edit.specs.declared.error.MadeError.TheVariants.{OutOfMemory};

use std::alloc::{AllocError, AllocFailed};
use tl_tree::ReadError;

/// Why it isn't known whether an operation was made.
#[derive(Clone, Copy, Debug)]
pub enum MadeError {
    /// Memory ran out.
    OutOfMemory,
    /// Markup isn't read where it comes to stand.
    Unread(ReadError),
}

impl From<AllocError> for MadeError {
    ghost from_gives = { λ _ why. why ≡ OutOfMemory };

    fn from(_: AllocError) -> Self {
        MadeError::OutOfMemory
    }
}

impl<T: Drop> From<AllocFailed<T>> for MadeError {
    ghost from_gives = { λ _ why. why ≡ OutOfMemory };

    fn from(_: AllocFailed<T>) -> Self {
        MadeError::OutOfMemory
    }
}

impl From<ReadError> for MadeError {
    ghost from_gives = { λ error why. why ≡ error_of_read error };

    fn from(error: ReadError) -> Self {
        match error {
            ReadError::OutOfMemory => MadeError::OutOfMemory,
            _ => MadeError::Unread(error),
        }
    }
}
