//! The tree of a page, as rows.
ghost use Rattle.std.specs.Bool.{IsTrue};
ghost use Rattle.std.specs.List.{list_all};
ghost use Rattle.std.specs.Prelude.{length, ◌<◌, ◌^◌};
ghost use Rattle.tl_tree.specs.Inner.RowView.{are_in_order, row_is_within};

use crate::places::Places;
use crate::row::Row;
use crate::store::Store;
use std::alloc::{AllocError, Global};

/// The tree of a page: its nodes in the order of the page, each of which is a row with a number.
///
/// What stands below a node is a range of numbers, from the next one on to where the node ends.
pub struct Tree<'p> {
    pub(crate) store: Store<'p>,
    pub(crate) rows: Vec<Row>,
    /// Where the page begins, and where its marks stand, one after the other.
    pub(crate) sources: Places,
    pub(crate) is_quirks: bool,
    /// Where the page ends.
    pub(crate) page_end: usize,
    ghost few: { length rows.items < 2 ^ 32 },
    ghost rows_within: { IsTrue
        (list_all
        (row_is_within
        (record {
          page = length store.page.now;
          side = length store.side.items;
          tags = length store.tags.items;
          doctypes = length store.doctypes.items;
        }))
        rows.items) },
    ghost in_order: { IsTrue (are_in_order 0 rows.items) },
}

// By hand, so that a caller's proof has one step for a drop.
impl Drop for Tree<'_> {
    fn drop(self) {
        let Tree {
            store: _,
            rows: _,
            sources: _,
            is_quirks: _,
            page_end: _,
        } = self;
    }
}

impl<'p> Tree<'p> {
    ghost use Rattle.std.specs.Prelude.{IfOk, ℕ, ◌≡◌};
    ghost use Rattle.tl_tree.specs.Sources.{source_at};
    ghost use Rattle.tl_tree.specs.TreeView.{rows_in};

    /// The same tree with a copy of its page: it is there for as long as it is wanted, whatever
    /// becomes of the page that was read.
    pub fn into_owned(self, alloc: Global) -> Result<Tree<'static>, AllocError>
        ensures rows { IfOk result (λ tree. rows_in tree ≡ rows_in self.entry) }
        ensures quirks { IfOk result (λ tree. tree.is_quirks ≡ self.entry.is_quirks) }
        ensures sources { IfOk result (λ tree. (row : ℕ) →
            source_at tree row ≡ source_at self.entry row) }
    {
        // This first: what is owned at a `?` is dropped there, and the tree is one value here.
        let text = self.store.copied_text(alloc)?;
        let Tree {
            store,
            rows,
            sources,
            is_quirks,
            page_end,
        } = self;
        let owned = store.with_text(alloc, text);
        Ok(Tree {
            store: owned,
            rows,
            sources,
            is_quirks,
            page_end,
        })
    }
}
