//! What stands below a node, but for the contents of a `template`.

use crate::kind::Kind;
use crate::tree::Tree;
use std::alloc::AllocError;
use std::iter::FusedIterator;
use std::marker::Model;

/// The numbers of elements below a node, rising, seen as the list of those that are left.
#[derive(Drop)]
pub struct Elements<'t, 'p> {
    tree: &'t Tree<'p>,
    next: usize,
    end: usize,
}

impl<'t, 'p> Model for Elements<'t, 'p> {
    ghost use Rattle.std.specs.Prelude.{List, false, ℕ};
    ghost use Rattle.tl_tree.specs.Below.{sought_up_to};
    ghost use Rattle.tl_tree.specs.TreeView.{rows_in};

    ghost Value = { List ℕ };

    ghost view = { λ e. sought_up_to false (rows_in e.tree.now) e.next e.end };
}

/// What texts below a node say, seen as the list of those that are left.
#[derive(Drop)]
pub struct Texts<'t, 'p> {
    tree: &'t Tree<'p>,
    next: usize,
    end: usize,
}

impl<'t, 'p> Model for Texts<'t, 'p> {
    ghost use Rattle.std.specs.Prelude.{List, map, true, ℕ};
    ghost use Rattle.tl_tree.specs.Below.{said_at, sought_up_to};
    ghost use Rattle.tl_tree.specs.TreeView.{rows_in};

    ghost Value = { List (List ℕ) };

    ghost view = { λ t. map
        (said_at (rows_in t.tree.now))
        (sought_up_to true (rows_in t.tree.now) t.next t.end) };
}

impl<'p> Tree<'p> {
    ghost use Rattle.std.specs.Prelude.{OnOk, [], if◌then◌else◌, nat_lt, ◌+◌, ◌++◌, ◌<◌, ◌^◌, ◌∷◌, ◌≡◌};
    ghost use Rattle.tl_tree.specs.Asked.{end_or};
    ghost use Rattle.tl_tree.specs.Below.{elements_below, has_kind, is_sought, next_outside, sought_up_to, text_content, texts_below};
    ghost use Rattle.tl_tree.specs.TreeView.{rows_in};

    // Whether a node is an element, or a text.
    fn is_sought(&self, is_text: bool, number: usize) -> bool
        ensures { result ≡ has_kind (is_sought is_text) (rows_in self.now) number }
    {
        match self.kind(number) {
            Some(Kind::Element) => !is_text,
            Some(Kind::Text) => is_text,
            _ => false,
        }
    }

    // The node behind one, or behind what is in it where it is the contents of a `template`.
    fn next_outside(&self, number: usize, end: usize) -> usize
        requires { number + 1 < 2 ^ 64 }
        ensures { result ≡ next_outside (rows_in self.now) number end }
    {
        match self.kind(number) {
            Some(Kind::Contents) => self.end(number).unwrap_or(end),
            _ => number + 1,
        }
    }

    // The first element or text of a range, or its end.
    fn first_sought(&self, is_text: bool, next: usize, end: usize) -> usize
        ensures { sought_up_to is_text (rows_in self.now) next end
            ≡ (if nat_lt result end
            then result ∷ sought_up_to is_text (rows_in self.now) (result + 1) end
            else []) }
    {
        let mut number = next;
        while number < end {
            if self.is_sought(is_text, number) {
                return number;
            }
            number = self.next_outside(number, end);
        }
        end
    }

    // Where what is below a node ends.
    fn end_below(&self, number: usize) -> usize
        ensures { result ≡ end_or (rows_in self.now) number 0 }
    {
        self.end(number).unwrap_or(0)
    }

    /// The elements below a node.
    pub fn elements_below(&self, number: usize) -> Elements<'_, 'p>
        ensures { result ≡ elements_below (rows_in self.now) number }
    {
        Elements {
            tree: self,
            next: number.saturating_add(1),
            end: self.end_below(number),
        }
    }

    /// What the texts below a node say, in their order.
    pub fn texts_below(&self, number: usize) -> Texts<'_, 'p>
        ensures { result ≡ texts_below (rows_in self.now) number }
    {
        Texts {
            tree: self,
            next: number.saturating_add(1),
            end: self.end_below(number),
        }
    }

    /// Writes what the texts below a node say, one after the other.
    pub fn write_text_content(&self, number: usize, out: &mut Vec<u8>) -> Result<(), AllocError>
        ensures { OnOk result (out.new.items
            ≡ out.old.items ++ text_content (rows_in self.now) number) }
    {
        for text in self.texts_below(number) {
            out.extend_from_slice(text)?;
        }
        Ok(())
    }
}

impl<'t, 'p> Iterator for Elements<'t, 'p> {
    type Item = usize;

    ghost use Rattle.std.specs.Iterator.{at_most};
    ghost use Rattle.std.specs.Map.Iter.{TakesFirst};
    ghost use Rattle.std.specs.Prelude.{length};

    ghost next_gives = { TakesFirst (λ n. n) };

    ghost remaining = { λ s. at_most (length s) };

    fn next(&mut self) -> Option<usize> {
        let number = self.tree.first_sought(false, self.next, self.end);
        if number >= self.end {
            self.next = self.end;
            return None;
        }
        self.next = number + 1;
        Some(number)
    }
}

impl<'t, 'p> FusedIterator for Elements<'t, 'p> {}

impl<'t, 'p> Iterator for Texts<'t, 'p> {
    type Item = &'t [u8];

    ghost use Rattle.std.specs.Iterator.{at_most};
    ghost use Rattle.std.specs.Map.Iter.{TakesFirst};
    ghost use Rattle.std.specs.Prelude.{length};

    ghost next_gives = { TakesFirst (λ t. t.now) };

    ghost remaining = { λ s. at_most (length s) };

    fn next(&mut self) -> Option<&'t [u8]> {
        let number = self.tree.first_sought(true, self.next, self.end);
        if number >= self.end {
            self.next = self.end;
            return None;
        }
        self.next = number + 1;
        Some(self.tree.text(number).unwrap_or(b""))
    }
}

impl<'t, 'p> FusedIterator for Texts<'t, 'p> {}
