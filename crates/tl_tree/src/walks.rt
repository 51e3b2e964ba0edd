//! Walks over nodes, which take no memory.

use crate::tree::Tree;
use std::iter::FusedIterator;
use std::marker::Model;

/// The numbers of the children of a node, rising, seen as the list of those that are left.
#[derive(Drop)]
pub struct Children<'t, 'p> {
    tree: &'t Tree<'p>,
    next: usize,
    end: usize,
}

impl<'t, 'p> Model for Children<'t, 'p> {
    ghost use Rattle.std.specs.Prelude.{List, ℕ};
    ghost use Rattle.tl_tree.specs.Asked.{siblings_up_to};
    ghost use Rattle.tl_tree.specs.TreeView.{rows_in};

    ghost Value = { List ℕ };

    ghost view = { λ c. siblings_up_to (rows_in c.tree.now) c.next c.end };
}

/// The numbers of the nodes that a node is below, from the inside outwards, seen as the list of
/// those that are left.
#[derive(Drop)]
pub struct Ancestors<'t, 'p> {
    tree: &'t Tree<'p>,
    next: Option<usize>,
}

impl<'t, 'p> Model for Ancestors<'t, 'p> {
    ghost use Rattle.std.specs.Prelude.{List, ℕ};
    ghost use Rattle.tl_tree.specs.Asked.{ancestors_up_from};
    ghost use Rattle.tl_tree.specs.TreeView.{rows_in};

    ghost Value = { List ℕ };

    ghost view = { λ a. ancestors_up_from (rows_in a.tree.now) a.next };
}

impl<'p> Tree<'p> {
    ghost use Rattle.std.specs.Prelude.{◌≡◌};
    ghost use Rattle.tl_tree.specs.Asked.{ancestors_at, children_at};
    ghost use Rattle.tl_tree.specs.TreeView.{rows_in};

    /// The children of a node: none where there is no such node.
    pub fn children(&self, number: usize) -> Children<'_, 'p>
        ensures { result ≡ children_at (rows_in self.now) number }
    {
        match self.end(number) {
            Some(end) => Children {
                tree: self,
                next: number + 1,
                end,
            },
            None => Children {
                tree: self,
                next: 0,
                end: 0,
            },
        }
    }

    /// The nodes that a node is below.
    pub fn ancestors(&self, number: usize) -> Ancestors<'_, 'p>
        ensures { result ≡ ancestors_at (rows_in self.now) number }
    {
        Ancestors {
            tree: self,
            next: self.parent(number),
        }
    }
}

impl<'t, 'p> Iterator for Children<'t, 'p> {
    type Item = usize;

    ghost use Rattle.std.specs.Iterator.{at_most};
    ghost use Rattle.std.specs.Map.Iter.{TakesFirst};
    ghost use Rattle.std.specs.Prelude.{length};

    ghost next_gives = { TakesFirst (λ n. n) };

    ghost remaining = { λ s. at_most (length s) };

    fn next(&mut self) -> Option<usize> {
        if self.next >= self.end {
            return None;
        }
        let number = self.next;
        self.next = self.tree.end(number).unwrap_or(self.end);
        Some(number)
    }
}

impl<'t, 'p> FusedIterator for Children<'t, 'p> {}

impl<'t, 'p> Iterator for Ancestors<'t, 'p> {
    type Item = usize;

    ghost use Rattle.std.specs.Iterator.{at_most};
    ghost use Rattle.std.specs.Map.Iter.{TakesFirst};
    ghost use Rattle.std.specs.Prelude.{length};

    ghost next_gives = { TakesFirst (λ n. n) };

    ghost remaining = { λ s. at_most (length s) };

    fn next(&mut self) -> Option<usize> {
        let number = self.next?;
        self.next = self.tree.parent(number);
        Some(number)
    }
}

impl<'t, 'p> FusedIterator for Ancestors<'t, 'p> {}
