//! What is said where browsers build another tree than the one that is meant.
use crate::crossed::Place;
use std::fmt;
use tl_tree::ReadError;

/// That they do, or that it isn't known: the edit that changes a page begins at a place of it.
#[derive(Clone, Copy)]
pub struct OtherTree<'p> {
    pub page: &'p [u8],
    pub at: usize,
    /// Why it isn't known.
    pub unread: Option<ReadError>,
    /// Whether the edit isn't made, therefore.
    pub is_refused: bool,
}

impl fmt::Display for OtherTree<'_> {
    fn fmt<W: fmt::Write>(&self, f: &mut fmt::Formatter<W>) -> fmt::Result {
        let place = Place {
            page: self.page,
            at: self.at,
        };
        match self.unread {
            None => write!(
                f,
                "browsers build another tree than is meant by the edit that begins at {place}"
            )?,
            Some(error) => write!(
                f,
                "it isn't known which tree browsers build of the edit that begins at {place}: {error}"
            )?,
        }
        if self.is_refused {
            f.write_str("; --strict refuses it")?;
        }
        Ok(())
    }
}

/// Says on standard error that browsers build another tree of what is written.
pub fn tell_other_tree(rt: &HostRuntime, file: &str, other: &OtherTree<'_>) {
    let _ = eprintln!(rt; "tl: {file}: {other}");
}
