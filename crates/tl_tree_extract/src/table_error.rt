//! Why a table is not written.
ghost use Rattle.std.specs.Prelude.{◌≡◌};
ghost use Rattle.tl_tree_extract.specs.declared.table_error.TableError.TheVariants.{OutOfMemory};

use std::alloc::{AllocError, AllocFailed};
use thiserror::Error;

/// Why a table was not written.
#[derive(Clone, Copy, PartialEq, Eq, Debug, Error)]
pub enum TableError {
    /// Its lines are longer than they may be.
    #[error("the lines of the table are too long")]
    TooLong,
    /// Memory ran out.
    #[error("out of memory")]
    OutOfMemory,
}

impl From<AllocError> for TableError {
    ghost from_gives = { λ _ e. e ≡ OutOfMemory };

    fn from(_: AllocError) -> Self {
        TableError::OutOfMemory
    }
}

impl<T: Drop> From<AllocFailed<T>> for TableError {
    ghost from_gives = { λ _ e. e ≡ OutOfMemory };

    fn from(_: AllocFailed<T>) -> Self {
        TableError::OutOfMemory
    }
}
