//! What is said where an element isn't whole.

use crate::position::Position;
use std::fmt;

/// That the element at a place of a page isn't, as what begins at another place crosses it.
#[derive(Clone, Copy)]
pub struct Crossed<'p> {
    pub page: &'p [u8],
    pub place: usize,
    pub at: usize,
}

/// The line and the column of a byte.
#[derive(Clone, Copy)]
pub struct Place<'p> {
    pub page: &'p [u8],
    pub at: usize,
}

impl fmt::Display for Place<'_> {
    fn fmt<W: fmt::Write>(&self, f: &mut fmt::Formatter<W>) -> fmt::Result {
        let mut position = Position::new();
        for (at, byte) in self.page.iter().enumerate() {
            if at < self.at {
                position.pass(at, *byte);
            }
        }
        let line = position.line;
        let column = position.column(self.at);
        write!(f, "line {line}, column {column}")
    }
}

impl fmt::Display for Crossed<'_> {
    fn fmt<W: fmt::Write>(&self, f: &mut fmt::Formatter<W>) -> fmt::Result {
        let page = self.page;
        let place = Place {
            page,
            at: self.place,
        };
        let other = Place { page, at: self.at };
        write!(
            f,
            "only attributes of the element at {place} can be edited: by its tags it has other content than in browsers (see {other})"
        )
    }
}
