//! A tree read in the order of its page, event by event.
ghost use Rattle.std.specs.Bool.{IsTrue};
ghost use Rattle.std.specs.Option.{option_map};
ghost use Rattle.std.specs.Prelude.{IfOk, MatchOption, OnOk, Some, [], false, length, map, ◌+◌, ◌++◌, ◌<◌, ◌∷◌, ◌≡◌, ◌≢◌, ◌↔◌};
ghost use Rattle.tl_tree.specs.Asked.{kind_of, node_at};
ghost use Rattle.tl_tree.specs.TreeView.{rows_in};
ghost use Rattle.tl_tree.specs.declared.kind.Kind.TheVariants.{Text};
ghost use Rattle.tl_tree_edit.specs.Events.{ends, events, is_past, says};
ghost use Rattle.tl_tree_edit.specs.Inner.Walk.{AreLeft, IsNext, held, is_kind_with_end, left, own_open, own_opens, row_at};

use std::alloc::{AllocError, Global};
use tl_tree::{Kind, Tree};

/// What a tree says next.
#[derive(Clone, Copy)]
pub(crate) enum Event {
    /// The row of a number begins, which is no text.
    Begins(usize),
    /// A byte of a text.
    Says(u8),
    /// The innermost row ends.
    Ends,
}

/// What is left of a tree.
#[derive(Drop)]
pub(crate) struct Events<'t, 'p> {
    pub(crate) tree: &'t Tree<'p>,
    /// The next row.
    number: usize,
    /// What is left of the text before it.
    text: &'t [u8],
    /// Where the rows end that are open, the outermost first.
    ends: Vec<usize>,
}

// Whether what ends there ends before a row, or before the end of all.
pub(crate) fn is_past(next: Option<usize>, end: usize) -> bool
    ensures { result ≡ is_past next end }
{
    match next {
        Some(number) => end <= number,
        None => true,
    }
}

// Takes out where the innermost open row ends, if that is before a row, or before the end of all.
fn pop_past(outer: &mut Vec<usize>, next: Option<usize>) -> Option<usize>
    ensures { MatchOption result
        ((outer.new.items ≡ outer.old.items) × AreLeft next (own_opens outer.old.items))
        (λ end. IsTrue (is_past next end)
        × (own_opens outer.old.items ≡ own_open end ∷ own_opens outer.new.items)) }
{
    let end = *outer.last()?;
    if !is_past(next, end) {
        return None;
    }
    outer.pop()
}

// Whether rows may stand in a node of this kind.
pub(crate) fn has_end(kind: Kind) -> bool
    ensures { result ≡ is_kind_with_end kind }
{
    matches!(kind, Kind::Element | Kind::Contents)
}

/// Whether a node is a text.
pub(crate) fn is_text(tree: &Tree<'_>, number: usize) -> bool
    ensures { IsTrue result
        ↔ option_map kind_of (node_at (rows_in tree.now) number) ≡ Some Text }
{
    tree.kind(number) == Some(Kind::Text)
}

impl<'t, 'p> Events<'t, 'p> {
    /// All that a tree says.
    pub(crate) fn new(alloc: Global, tree: &'t Tree<'p>) -> Events<'t, 'p>
        ensures said { left result ≡ events (rows_in tree.now) }
        ensures tree { result.tree.now ≡ tree.now }
    {
        Events {
            tree,
            number: 0,
            text: &[],
            ends: Vec::new(alloc),
        }
    }

    // The number of the next row, if there is one.
    fn next_row(&self) -> Option<usize>
        ensures { result ≡ row_at (rows_in self.now.tree.now) self.now.number }
    {
        let _ = self.tree.kind(self.number)?;
        Some(self.number)
    }

    // Goes on to the row behind the next one, which there is.
    fn pass_row(&mut self)
        requires { self.old.number < length (rows_in self.old.tree.now) }
        ensures number { self.new.number ≡ self.old.number + 1 }
        ensures tree { self.new.tree ≡ self.old.tree }
        ensures text { self.new.text ≡ self.old.text }
        ensures ends { self.new.ends ≡ self.old.ends }
    {
        let count = self.tree.len();
        prove!(self.number < count);
        self.number += 1;
    }

    // Takes the end of the innermost open row, if it ends before the next one.
    fn take_end(&mut self) -> bool
        requires { self.old.text.now ≡ [] }
        ensures taken { IsTrue result → left self.old ≡ ends ∷ left self.new }
        ensures none { result ≡ false → (self.new.ends.items ≡ self.old.ends.items)
            × AreLeft (row_at (rows_in self.old.tree.now) self.old.number)
            (own_opens self.old.ends.items) }
        ensures tree { self.new.tree.now ≡ self.old.tree.now }
        ensures number { self.new.number ≡ self.old.number }
        ensures text { self.new.text.now ≡ self.old.text.now }
    {
        let next = self.next_row();
        pop_past(&mut self.ends, next).is_some()
    }

    // Goes on behind a text, with all of it left.
    fn take_text(&mut self)
        requires text { self.old.text.now ≡ [] }
        requires left { AreLeft (row_at (rows_in self.old.tree.now) self.old.number)
            (own_opens self.old.ends.items) }
        requires kind { option_map kind_of
            (node_at (rows_in self.old.tree.now) self.old.number) ≡ Some Text }
        ensures said { left self.new ≡ left self.old }
        ensures tree { self.new.tree.now ≡ self.old.tree.now }
        ensures number { self.new.number ≡ self.old.number + 1 }
    {
        self.text = self.tree.text(self.number).unwrap_or(&[]);
        self.pass_row();
    }

    // A row is open that ends there, if rows may stand in it.
    fn hold(&mut self, kind: Kind, end: usize) -> Result<(), AllocError>
        ensures ends { OnOk result (self.new.ends.items
            ≡ held (is_kind_with_end kind) self.old.ends.items end) }
        ensures number { self.new.number ≡ self.old.number }
        ensures tree { self.new.tree ≡ self.old.tree }
        ensures text { self.new.text ≡ self.old.text }
    {
        if has_end(kind) {
            self.ends.push(end)?;
        }
        Ok(())
    }

    /// Goes on behind bytes of the text that is read, if it goes on with them.
    pub(crate) fn take_bytes(&mut self, bytes: &[u8]) -> bool
        ensures taken { IsTrue result → left self.old ≡ map says bytes.now ++ left self.new }
        ensures left { result ≡ false → left self.new ≡ left self.old }
        ensures tree { self.new.tree.now ≡ self.old.tree.now }
    {
        let Some(rest) = self.text.strip_prefix(bytes) else {
            return false;
        };
        self.text = rest;
        true
    }

    // Goes on behind where the next row begins, which is no text.
    fn begin(&mut self) -> Result<Option<Event>, AllocError>
        requires text { self.old.text.now ≡ [] }
        requires left { AreLeft (row_at (rows_in self.old.tree.now) self.old.number)
            (own_opens self.old.ends.items) }
        requires kind { option_map kind_of
            (node_at (rows_in self.old.tree.now) self.old.number) ≢ Some Text }
        ensures next { IfOk result
            (IsNext (rows_in self.old.tree.now) (left self.old) (left self.new)) }
        ensures tree { self.new.tree.now ≡ self.old.tree.now }
    {
        let number = self.number;
        let Some(kind) = self.tree.kind(number) else {
            return Ok(None);
        };
        self.hold(kind, self.tree.end(number).unwrap_or(0))?;
        self.pass_row();
        Ok(Some(Event::Begins(number)))
    }

    /// What comes next: nothing at the end.
    pub(crate) fn next(&mut self) -> Result<Option<Event>, AllocError>
        ensures next { IfOk result
            (IsNext (rows_in self.old.tree.now) (left self.old) (left self.new)) }
        ensures tree { self.new.tree.now ≡ self.old.tree.now }
    {
        while self.text.is_empty() {
            if self.take_end() {
                return Ok(Some(Event::Ends));
            }
            if !is_text(self.tree, self.number) {
                return self.begin();
            }
            self.take_text();
        }
        let Some((byte, rest)) = self.text.split_first() else {
            return Ok(None);
        };
        self.text = rest;
        Ok(Some(Event::Says(*byte)))
    }
}
