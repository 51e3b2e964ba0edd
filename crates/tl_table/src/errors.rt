//! Errors.
ghost use Rattle.std.specs.Prelude.{◌≡◌};
ghost use Rattle.tl_table.specs.declared.errors.TreeError.TheVariants.{OutOfMemory};

use crate::handle::NodeHandle;
use std::alloc::{AllocError, AllocFailed};
use thiserror::Error;

/// Why a walk over a table ended before its end.
#[derive(Clone, Copy, PartialEq, Eq, PartialOrd, Ord, Debug, Error)]
pub enum TreeError {
    /// The table has no node of this number.
    #[error("a dangling node handle")]
    Dangling(NodeHandle),
    /// The node of this number stands above itself.
    #[error("a cyclic node handle")]
    Cycle(NodeHandle),
    /// Memory ran out.
    #[error("out of memory")]
    OutOfMemory,
}

impl From<AllocError> for TreeError {
    ghost from_gives = { λ _ e. e ≡ OutOfMemory };

    fn from(_: AllocError) -> Self {
        TreeError::OutOfMemory
    }
}

impl<T: Drop> From<AllocFailed<T>> for TreeError {
    ghost from_gives = { λ _ e. e ≡ OutOfMemory };

    fn from(_: AllocFailed<T>) -> Self {
        TreeError::OutOfMemory
    }
}
