//! Where in the page what stands in a tree comes from.
ghost use Rattle.std.specs.Prelude.{IfOk, IsTrue, OnOk, [], suc, ◌<◌, ◌^◌, ◌∷◌, ◌≡◌, ◌≤◌};
ghost use Rattle.tl_tree.specs.Inner.Sourced.{with_source};
ghost use Rattle.tl_tree.specs.Sources.{bounds_in};

use crate::error::GrowError;
use crate::places::Places;
use crate::row::Held;
use crate::tree::Tree;
use std::alloc::Global;
use tl_html_tokens::{Front, TokenKind};

/// The bytes of the page from `start` up to `end`.
#[derive(Clone, Copy, PartialEq, Eq, Debug)]
pub struct Source {
    pub start: usize,
    pub end: usize,
}

/// Where a mark of the page begins and ends.
#[derive(Clone, Copy)]
pub(crate) struct Bounds {
    pub(crate) start: u32,
    pub(crate) end: u32,
}

/// Keeps where what stands in front begins and ends, if that is a mark.
pub(crate) fn keep_source(sources: &mut Places, start: usize, front: Front) -> Result<(), GrowError>
    requires order { start ≤ front.end }
    requires short { front.end < 2 ^ 32 }
    ensures { OnOk result
        (bounds_in sources.new ≡ with_source (bounds_in sources.old) start front) }
{
    if matches!(front.kind, TokenKind::Text | TokenKind::Nothing) {
        return Ok(());
    }
    sources.push(Bounds {
        start: start as u32,
        end: front.end as u32,
    })
}

/// Where a page begins, before any mark, with room for so many marks.
pub(crate) fn begun(alloc: Global, room: usize, begin: usize) -> Result<Places, GrowError>
    ensures { IfOk result
        (λ sources. bounds_in sources ≡ record { start = 0; end = begin } ∷ []) }
{
    if begin > u32::MAX as usize {
        return Err(GrowError::TooLarge);
    }
    let mut sources = Places::new(alloc, room)?;
    sources.push(Bounds {
        start: 0,
        end: begin as u32,
    })?;
    Ok(sources)
}

impl<'p> Tree<'p> {
    ghost use Rattle.tl_tree.specs.Sources.{gap_at, place_at, source_at, start_tag_at};
    ghost use Rattle.tl_tree.specs.Inner.Store.{is_tag_number, tag_at};

    // Where the page begins, or the mark stands whose number is one less.
    fn place(&self, index: usize) -> Option<Source>
        ensures { result ≡ place_at self.now index }
    {
        let bounds = self.sources.get(index)?;
        Some(Source {
            start: bounds.start as usize,
            end: bounds.end as usize,
        })
    }

    // Where the mark of a number stands.
    fn mark(&self, number: u32) -> Option<Source>
        ensures { result ≡ place_at self.now (suc number) }
    {
        self.place(number as usize + 1)
    }

    // What stands between so many marks and the next one.
    fn gap(&self, marks: u32) -> Option<Source>
        ensures { result ≡ gap_at self.now marks }
    {
        let before = self.place(marks as usize)?;
        let end = match self.mark(marks) {
            Some(next) => next.start,
            None => self.page_end,
        };
        Some(Source {
            start: before.end,
            end,
        })
    }

    // Where the start tag of an element stands.
    fn start_tag(&self, tag: u32) -> Option<Source>
        requires { IsTrue (is_tag_number self.now.store tag) }
        ensures { result ≡ start_tag_at self.now (tag_at self.now.store tag).source }
    {
        let entry = self.store.tag(tag);
        if entry.start == 0 {
            return None;
        }
        self.place(entry.start as usize)
    }

    /// Where in the page a node comes from.
    ///
    /// Of an element this is its start tag, and none where no start tag stands for it: what is made
    /// anew of an element, as formatting elements are, has the start tag of that one. Of a comment
    /// and of a doctype it is all of it. Of a text it is what stands between two tags, comments or
    /// doctypes, and holds the beginning of the text: more may have been added from elsewhere, and
    /// some of what stands there may have gone elsewhere.
    pub fn source(&self, number: usize) -> Option<Source>
        ensures { result ≡ source_at self.now number }
    {
        match self.rows.get(number)?.held {
            Held::Element(tag) => self.start_tag(tag),
            Held::Contents => None,
            Held::Text(piece) => self.gap(piece.source),
            Held::Comment(piece) => self.mark(piece.source),
            Held::Doctype { doctype: _, source } => self.mark(source),
        }
    }
}
