//! Why an element is not changed.
ghost use Rattle.std.specs.Prelude.{◌≡◌};
ghost use Rattle.tl_patch_edit.specs.declared.error.EditError.TheVariants.{OutOfMemory};

use std::alloc::AllocError;
use thiserror::Error;

/// Why an element was not changed; the places are bytes of the page.
#[derive(Clone, Copy, PartialEq, Eq, Debug, Error)]
pub enum EditError {
    /// No start tag begins at this place.
    #[error("no start tag at byte {0}")]
    NoStartTag(usize),
    /// The element of the tag at this place can't be changed so: it is not closed, or is a tag
    /// alone, or the tag is dropped.
    #[error("the element at byte {0} can't be edited this way: its end tag is missing, or its kind doesn't allow it")]
    NotMeant(usize),
    /// The changes of the element at this place and of another cut across each other.
    #[error("the edit of the element at byte {0} overlaps the edit of another")]
    Across(usize),
    /// What is to be put would stand behind the end of the page.
    #[error("nothing can be inserted after the end of the page (element at byte {0})")]
    EndOfPage(usize),
    /// What is to be put can't stand there, for the element at this place: markup in a raw text, or
    /// a text that would be read otherwise.
    #[error("the new content or name can't be written there (element at byte {0})")]
    NotWritten(usize),
    /// A browser may read as markup what is to be put into the element at the first place, or what
    /// stands in raw texts behind the name that it would get: a text with `&` or `<` can't be
    /// escaped in a `style`, `script` or other raw text, and at the second place the start tag of a
    /// `svg`, `math`, `frameset`, `template`, `noscript` or `select` stands before that, or the tag
    /// that would become one.
    #[error("a browser may read raw text after byte {1} as markup (element at byte {0})")]
    Misread(usize, usize),
    /// The page would be read otherwise than asked, for the element at this place.
    #[error("this edit would change how other parts of the page are read (element at byte {0})")]
    ReadOtherwise(usize),
    /// Memory ran out.
    #[error("out of memory")]
    OutOfMemory,
}

impl From<AllocError> for EditError {
    ghost from_gives = { λ _ e. e ≡ OutOfMemory };

    fn from(_: AllocError) -> Self {
        EditError::OutOfMemory
    }
}
