//! What is wrong with a page or a word, and where.
ghost use Rattle.std.specs.Prelude.{◌≡◌, Some};
ghost use Rattle.tl_page.specs.Error.{cause_text, error_text, no_text_at, too_long};

use crate::failure::Failure;
use std::error::Error;
use std::fmt;

/// What is wrong with the bytes of a page or of a word.
#[derive(Clone, Copy, PartialEq, Eq, Debug)]
pub enum Cause {
    /// They are no UTF-8.
    NoText,
    /// They are more than 4294967295.
    TooLong,
}

/// Why a page or a word is not understood or refused, with the place of the first byte that is
/// wrong.
#[derive(Clone, Copy, PartialEq, Eq, Debug)]
pub struct PageError {
    /// What comes of it.
    pub failure: Failure,
    /// What is wrong.
    pub cause: Cause,
    /// How many bytes are right before it.
    pub place: usize,
}

impl PageError {
    /// Bytes that are no text after so many that are.
    pub fn no_text(place: usize) -> Self
        ensures { result ≡ no_text_at place }
    {
        PageError {
            failure: Failure::NotUnderstood,
            cause: Cause::NoText,
            place,
        }
    }

    /// A text that is too long.
    pub fn too_long() -> Self
        ensures { result ≡ too_long }
    {
        PageError {
            failure: Failure::NotUnderstood,
            cause: Cause::TooLong,
            place: u32::MAX as usize,
        }
    }
}

impl fmt::Display for Cause {
    ghost output = { λ cause. Some (cause_text cause) };

    fn fmt<W: fmt::Write>(&self, f: &mut fmt::Formatter<W>) -> fmt::Result {
        match self {
            Cause::NoText => write!(f, "invalid UTF-8"),
            Cause::TooLong => write!(f, "too long"),
        }
    }
}

impl fmt::Display for PageError {
    ghost output = { λ error. Some (error_text error) };

    fn fmt<W: fmt::Write>(&self, f: &mut fmt::Formatter<W>) -> fmt::Result {
        let cause = self.cause;
        let place = self.place;
        write!(f, "{cause} at byte {place}")
    }
}

impl Error for PageError {}
