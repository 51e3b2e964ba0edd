//! Why there is nothing of what was asked.
ghost use Rattle.std.specs.Prelude.{◌≡◌, Some};
ghost use Rattle.tl_page.specs.Failure.{failure_of_parse, failure_of_tree, reason_of};
ghost use Rattle.tl_page.specs.declared.failure.Failure.TheVariants.{OutOfMemory as NoMemory};

use crate::error::PageError;
use std::alloc::AllocError;
use std::error::Error;
use std::fmt;
use tl::ParseError;
use tl::errors::TreeError;

/// Why there is nothing of what was asked. Its number is a program's status.
#[derive(Clone, Copy, PartialEq, Eq, Debug)]
pub enum Failure {
    /// The tree has a fault, or what is asked can't be done.
    Refused = 1,
    /// The input is no text, or one that is too long.
    NotUnderstood = 2,
    /// Memory ran out.
    OutOfMemory = 3,
    /// A read or a write failed.
    Fault = 4,
}

impl Failure {
    /// The reason in words.
    pub fn reason(self) -> &'static str
        ensures { result.now ≡ reason_of self }
    {
        match self {
            Failure::Refused => "refused",
            Failure::NotUnderstood => "not understood",
            Failure::OutOfMemory => "out of memory",
            Failure::Fault => "read or write failed",
        }
    }
}

impl fmt::Display for Failure {
    ghost output = { λ failure. Some (reason_of failure) };

    fn fmt<W: fmt::Write>(&self, f: &mut fmt::Formatter<W>) -> fmt::Result {
        let reason = self.reason();
        write!(f, "{reason}")
    }
}

impl Error for Failure {}

impl From<AllocError> for Failure {
    ghost from_gives = { λ _ failure. failure ≡ NoMemory };

    fn from(_: AllocError) -> Self {
        Failure::OutOfMemory
    }
}

impl From<ParseError> for Failure {
    ghost from_gives = { λ error failure. failure ≡ failure_of_parse error };

    fn from(error: ParseError) -> Self {
        match error {
            ParseError::InvalidLength => Failure::NotUnderstood,
            ParseError::OutOfMemory => Failure::OutOfMemory,
        }
    }
}

impl From<TreeError> for Failure {
    ghost from_gives = { λ error failure. failure ≡ failure_of_tree error };

    fn from(error: TreeError) -> Self {
        match error {
            TreeError::Dangling(_) | TreeError::Cycle(_) => Failure::Refused,
            TreeError::OutOfMemory => Failure::OutOfMemory,
        }
    }
}

impl From<PageError> for Failure {
    ghost from_gives = { λ error failure. failure ≡ error.failure };

    fn from(error: PageError) -> Self {
        error.failure
    }
}
