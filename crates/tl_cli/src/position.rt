//! Lines and columns of bytes.

/// The line of a byte, and where that begins.
#[derive(Clone, Copy)]
pub struct Position {
    pub line: usize,
    pub start: usize,
}

impl Position {
    /// That of the first byte.
    pub fn new() -> Self {
        Position { line: 1, start: 0 }
    }

    /// That behind a byte.
    pub fn pass(&mut self, at: usize, byte: u8) {
        if byte == b'\n' {
            self.line = self.line.saturating_add(1);
            self.start = at.saturating_add(1);
        }
    }

    /// That behind the bytes of a page from one up to another.
    pub fn pass_all(&mut self, page: &[u8], from: usize, until: usize) {
        for at in from..until {
            if at < page.len() {
                self.pass(at, page[at]);
            }
        }
    }

    /// The column of a byte on its line, from 1.
    pub fn column(&self, at: usize) -> usize {
        at.saturating_sub(self.start).saturating_add(1)
    }
}
