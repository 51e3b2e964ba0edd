//! Why nothing is answered of a page.
ghost use Rattle.std.specs.Prelude.{◌≡◌};
ghost use Rattle.tl_answers.specs.Urls.{error_of_url};
ghost use Rattle.tl_answers.specs.declared.error.AnswerError.TheVariants.{OutOfMemory, Unread};

use std::alloc::AllocError;
use thiserror::Error;
use tl_tree::ReadError;
use url::ParseError;

/// Why nothing was answered of a page.
#[derive(Clone, Copy, PartialEq, Eq, Debug, Error)]
pub enum AnswerError {
    /// The page was not read.
    #[error("{0}")]
    Unread(ReadError),
    /// The lines of the table that is asked for are out of proportion to the page. Its start tag
    /// begins at this byte.
    #[error("the table at byte {at} has too many values")]
    LargeTable { at: usize },
    /// A link leads to a URL of more than 4 GB.
    #[error("a URL is too long")]
    LongUrl,
    /// Memory ran out.
    #[error("out of memory")]
    OutOfMemory,
}

impl From<ReadError> for AnswerError {
    ghost from_gives = { λ error e. e ≡ Unread error };

    fn from(error: ReadError) -> Self {
        AnswerError::Unread(error)
    }
}

impl From<ParseError> for AnswerError {
    ghost from_gives = { λ error e. e ≡ error_of_url error };

    // No other error leaves a link that is resolved.
    fn from(error: ParseError) -> Self {
        match error {
            ParseError::OutOfMemory => AnswerError::OutOfMemory,
            _ => AnswerError::LongUrl,
        }
    }
}

impl From<AllocError> for AnswerError {
    ghost from_gives = { λ _ e. e ≡ OutOfMemory };

    fn from(_: AllocError) -> Self {
        AnswerError::OutOfMemory
    }
}
