//! Where something is put.
ghost use Rattle.std.specs.Prelude.{◌≡◌};
ghost use Rattle.tl_tree_edit.specs.Operations.{holder, is_adjacent, is_inner, put_there};
ghost use Rattle.tl_tree_edit.specs.View.{change_of, put_of};
ghost use Rattle.tl_tree.specs.TreeView.{rows_in};

use crate::change::{Change, Put};
use tl_tree::Tree;

/// Where something is put, seen from an element.
#[derive(Clone, Copy)]
pub enum Position {
    /// In its place (`outerHTML`).
    Replace,
    /// In the place of what stands in it (`innerHTML`).
    Fill,
    /// Before it.
    Before,
    /// First in it.
    Prepend,
    /// Last in it.
    Append,
    /// Behind it.
    After,
}

impl Position {
    // Whether it comes to stand in the element.
    fn is_inner(self) -> bool
        ensures { result ≡ is_inner self }
    {
        matches!(self, Position::Fill | Position::Prepend | Position::Append)
    }

    // Whether it is put beside what stands there.
    pub(crate) fn is_adjacent(self) -> bool
        ensures { result ≡ is_adjacent self }
    {
        !matches!(self, Position::Replace | Position::Fill)
    }

    // The row that it comes to stand in.
    pub(crate) fn holder(self, tree: &Tree<'_>, number: usize) -> Option<usize>
        ensures { result ≡ holder (rows_in tree.now) self number }
    {
        if self.is_inner() {
            return Some(number);
        }
        tree.parent(number)
    }

    /// The change by which something is put there.
    pub fn change<'c, 'p>(self, put: Put<'c, 'p>) -> Change<'c, 'p>
        ensures { change_of result ≡ put_there self (put_of put.entry) }
    {
        match self {
            Position::Replace => Change::Replace(put),
            Position::Fill => Change::Fill(put),
            Position::Before => Change::Before(put),
            Position::Prepend => Change::Prepend(put),
            Position::Append => Change::Append(put),
            Position::After => Change::After(put),
        }
    }
}
