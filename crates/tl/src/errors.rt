//! Errors.
ghost use Rattle.std.specs.Prelude.{◌≡◌};
ghost use Rattle.tl.specs.declared.errors.ParseError.TheVariants.{OutOfMemory};

use std::alloc::AllocError;
use thiserror::Error;
pub use tl_bytes::byte_string::SetBytesError;
pub use tl_table::errors::TreeError;

/// Why a text was not read.
#[derive(Clone, Copy, PartialEq, Eq, PartialOrd, Ord, Debug, Error)]
pub enum ParseError {
    /// The text is longer than 4294967295 bytes.
    #[error("The input string length is too large to fit in a `u32`")]
    InvalidLength,
    /// Memory ran out.
    #[error("out of memory")]
    OutOfMemory,
}

impl From<AllocError> for ParseError {
    ghost from_gives = { λ _ e. e ≡ OutOfMemory };

    fn from(_: AllocError) -> Self {
        ParseError::OutOfMemory
    }
}
