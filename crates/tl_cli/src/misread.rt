//! What is said where a browser may read a raw text as markup.

use std::fmt;

/// That it may, for the element at a place of a page, behind the tag at another one, or behind that
/// element itself by the name that it would get.
#[derive(Clone, Copy)]
pub struct Misread<'p> {
    pub page: &'p [u8],
    pub place: usize,
    pub cause: usize,
}

// The line of a byte, from 1.
fn line_of(page: &[u8], place: usize) -> usize {
    let mut line = 1usize;
    for (at, byte) in page.iter().enumerate() {
        if at < place && *byte == b'\n' {
            line = line.saturating_add(1);
        }
    }
    line
}

// The name of a tag, by its first byte.
#[derive(Clone, Copy)]
struct NameAt<'p> {
    page: &'p [u8],
    place: usize,
}

impl fmt::Display for NameAt<'_> {
    fn fmt<W: fmt::Write>(&self, f: &mut fmt::Formatter<W>) -> fmt::Result {
        for (at, byte) in self.page.iter().enumerate() {
            if at > self.place && !byte.is_ascii_alphabetic() {
                return Ok(());
            }
            if at > self.place {
                let letter = char::from(byte.to_ascii_lowercase());
                write!(f, "{letter}")?;
            }
        }
        Ok(())
    }
}

impl fmt::Display for Misread<'_> {
    fn fmt<W: fmt::Write>(&self, f: &mut fmt::Formatter<W>) -> fmt::Result {
        let line = line_of(self.page, self.place);
        if self.place == self.cause {
            return write!(
                f,
                "the element at line {line} can't get that name: a browser may then read a style, script or title with '<' or '&' in it or after it as markup"
            );
        }
        let page = self.page;
        let name = NameAt {
            page,
            place: self.cause,
        };
        let before = line_of(page, self.cause);
        write!(
            f,
            "a browser may read the text as markup in the element at line {line}, after {name} at line {before}: leave out '<' and '&', or move the element before it"
        )
    }
}
