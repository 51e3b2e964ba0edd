//! What is said of a comment that can't be removed.

use crate::crossed::Place;
use std::fmt;

/// That the comment at a byte of a page can't be.
#[derive(Clone, Copy)]
pub struct KeptComment<'p> {
    pub page: &'p [u8],
    pub at: usize,
}

impl fmt::Display for KeptComment<'_> {
    fn fmt<W: fmt::Write>(&self, f: &mut fmt::Formatter<W>) -> fmt::Result {
        let place = Place {
            page: self.page,
            at: self.at,
        };
        write!(
            f,
            "the comment at {place} can't be removed: by the names of tags alone it is text"
        )
    }
}
