//! Why a page is not read.
ghost use Rattle.std.specs.Prelude.{◌≡◌};
ghost use Rattle.tl_tree.specs.declared.error.GrowError.TheVariants.{OutOfMemory};

use std::alloc::{AllocError, AllocFailed};
use thiserror::Error;

/// Why nothing more could be put in a store, or in what is built over it.
#[derive(Clone, Copy)]
pub(crate) enum GrowError {
    /// Memory ran out.
    OutOfMemory,
    /// The page or its tree is too large for numbers of 32 bits.
    TooLarge,
}

impl From<AllocError> for GrowError {
    ghost from_gives = { λ _ e. e ≡ OutOfMemory };

    fn from(_: AllocError) -> Self {
        GrowError::OutOfMemory
    }
}

impl<T: Drop> From<AllocFailed<T>> for GrowError {
    ghost from_gives = { λ _ e. e ≡ OutOfMemory };

    fn from(_: AllocFailed<T>) -> Self {
        GrowError::OutOfMemory
    }
}

ghost use Rattle.tl_tree.specs.Inner.Errors.{read_error};

/// Why a page was not read.
#[derive(Clone, Copy, PartialEq, Eq, Debug, Error)]
pub enum ReadError {
    /// Memory ran out.
    #[error("out of memory")]
    OutOfMemory,
    /// The page or its tree is too large for numbers of 32 bits.
    #[error("too large")]
    TooLarge,
    /// The tree is out of proportion to the page: up to this byte far more elements were put in
    /// than start tags stand there.
    #[error("the tree is out of proportion to the page at byte {at}")]
    OutOfProportion { at: usize },
}

impl From<GrowError> for ReadError {
    ghost from_gives = { λ e f. f ≡ read_error e };

    fn from(error: GrowError) -> Self {
        match error {
            GrowError::OutOfMemory => ReadError::OutOfMemory,
            GrowError::TooLarge => ReadError::TooLarge,
        }
    }
}
