//! Where a tag stands in its text.
ghost use Rattle.std.specs.Prelude.{◌≡◌};
ghost use Rattle.tl.specs.View.{boundaries};

use crate::parser::base::Parser;
use crate::parser::tag::HTMLTag;

impl<'a> HTMLTag<'a> {
    /// The places of the first and of the last byte of the source in the text, whatever the table
    /// of `_parser` is. An empty source answers its place twice.
    pub fn boundaries(&self, _parser: &Parser<'a>) -> (usize, usize)
        ensures { result ≡ boundaries self.now }
    {
        let start = self.start() as usize;
        let len = self.raw().as_bytes().len();
        (start, start + len.saturating_sub(1))
    }
}
