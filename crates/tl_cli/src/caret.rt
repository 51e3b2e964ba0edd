//! A text with a caret under what is wrong in it.

use std::fmt;

// A text of more bytes isn't shown.
const MOST: usize = 70;

/// A text on one line, and below it a caret under the character at a byte.
#[derive(Clone, Copy)]
pub struct Caret<'t> {
    pub text: &'t str,
    pub at: usize,
}

impl Caret<'_> {
    /// Whether it fits on a line, and says nothing that a terminal would obey.
    pub fn is_shown(&self) -> bool {
        !self.text.is_empty() && self.text.len() <= MOST && !self.text.contains(char::is_control)
    }
}

impl fmt::Display for Caret<'_> {
    fn fmt<W: fmt::Write>(&self, f: &mut fmt::Formatter<W>) -> fmt::Result {
        let text = self.text;
        write!(f, "  {text}\n  ")?;
        for (at, _) in text.char_indices() {
            if at < self.at {
                f.write_str(" ")?;
            }
        }
        f.write_str("^")
    }
}
