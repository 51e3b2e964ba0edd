//! A tree walked with its edits, beside another one.
ghost use Rattle.std.specs.Bool.{IsTrue};
ghost use Rattle.std.specs.Prelude.{IfOk, List, MatchOption, None, OnOk, Some, [], length, slice_get, ◌≡◌, ◌∷◌, ◌<◌, ◌+◌, ◌↔◌};
ghost use Rattle.std.specs.Option.{option_map};
ghost use Rattle.tl_tree.specs.Asked.{node_at};
ghost use Rattle.tl_tree.specs.Rows.{Node, Row};
ghost use Rattle.tl_tree.specs.TreeView.{rows_in};
ghost use Rattle.tl_tree_edit.specs.Changes.{due, edited, first_of};
ghost use Rattle.tl_tree_edit.specs.Events.{begun, ended, events, is_past, left_open, opened_to};
ghost use Rattle.tl_tree_edit.specs.Inner.Walk.{AreLeft, Follows, Meets, edits_left, IsStepped, all_open, edit_in, last_by, left, open_of, opens_of, remaining, step_by, until_by};
ghost use Rattle.tl_tree_edit.specs.View.{change_of, changes_of, edits_of};

use crate::change::{Change, Edit};
use crate::events::{Events, has_end, is_past, is_text};
use std::alloc::{AllocError, Global};
use tl_tree::Tree;

/// A row that is open, with what is done to it.
#[derive(Clone, Copy)]
pub(crate) struct Open<'c, 'p> {
    end: usize,
    change: Option<Change<'c, 'p>>,
}

/// What is still to be met of the old tree, and what is left of the new one.
#[derive(Drop)]
pub(crate) struct Walk<'c, 'p, 'n, 'q> {
    alloc: Global,
    edits: &'c [Edit<'c, 'p>],
    /// The next of them, or one before it.
    next: usize,
    /// The rows that are open, the outermost first.
    outer: Vec<Open<'c, 'p>>,
    /// Rows before this one are passed over.
    until: usize,
    /// What is left of the tree that is compared with it.
    rest: Events<'n, 'q>,
}

// Takes out the innermost open row, if it ends before a row, or before the end of all.
fn pop_past<'c, 'p>(outer: &mut Vec<Open<'c, 'p>>, next: Option<usize>) -> Option<Open<'c, 'p>>
    ensures { MatchOption result
        ((outer.new.items ≡ outer.old.items) × AreLeft next (all_open outer.old.items))
        (λ own. IsTrue (is_past next own.end)
        × (all_open outer.old.items ≡ open_of own ∷ all_open outer.new.items)) }
{
    let own = *outer.last()?;
    if !is_past(next, own.end) {
        return None;
    }
    outer.pop()
}

impl<'c, 'p, 'n, 'q> Walk<'c, 'p, 'n, 'q> {
    /// At the first row.
    pub(crate) fn new(
        alloc: Global,
        edits: &'c [Edit<'c, 'p>],
        new: &'n Tree<'q>,
    ) -> Walk<'c, 'p, 'n, 'q>
        ensures old { (rows : List Row)
            → remaining rows 0 result ≡ edited (edits_of edits.now) rows }
        ensures new { left result.rest ≡ events (rows_in new.now) }
    {
        Walk {
            alloc,
            edits,
            next: 0,
            outer: Vec::new(alloc),
            until: 0,
            rest: Events::new(alloc, new),
        }
    }

    // Whether what is said at the end of a row comes next.
    fn meets_last(&mut self, change: Option<Change<'_, '_>>) -> Result<bool, AllocError>
        ensures met { IfOk result
            (Meets (last_by (changes_of change.entry)) self.old.rest self.new.rest) }
        ensures outer { self.new.outer.items ≡ self.old.outer.items }
        ensures until { self.new.until ≡ self.old.until }
        ensures edits { edits_left self.new ≡ edits_left self.old }
    {
        let Some(change) = change else {
            return self.rest.meets_end();
        };
        if !self.rest.meets_puts(self.alloc, change.back())? {
            return Ok(false);
        }
        if !self.rest.meets_own_end(change)? {
            return Ok(false);
        }
        self.rest.meets_puts(self.alloc, change.behind())
    }

    // Whether the ends of all rows come next that end before a row, or before the end of all.
    fn close(&mut self, next: Option<usize>) -> Result<bool, AllocError>
        ensures met { IfOk result
            (Meets (ended next (opens_of self.old)) self.old.rest self.new.rest) }
        ensures outer { IfOk result (λ is. IsTrue is
            → opens_of self.new ≡ left_open next (opens_of self.old)) }
        ensures until { self.new.until ≡ self.old.until }
        ensures edits { edits_left self.new ≡ edits_left self.old }
    {
        while let Some(own) = pop_past(&mut self.outer, next) {
            if !self.meets_last(own.change)? {
                return Ok(false);
            }
        }
        Ok(true)
    }

    // Goes on to the edit behind the next one, which there is.
    fn pass_edit(&mut self)
        requires { self.old.next < length self.old.edits.now }
        ensures next { self.new.next ≡ self.old.next + 1 }
        ensures edits { self.new.edits ≡ self.old.edits }
        ensures outer { self.new.outer ≡ self.old.outer }
        ensures until { self.new.until ≡ self.old.until }
        ensures rest { self.new.rest ≡ self.old.rest }
    {
        let count = self.edits.len();
        prove!(self.next < count);
        self.next += 1;
    }

    // The edit of a row, once those before it are passed.
    fn edit_at(&mut self, number: usize) -> Option<Change<'c, 'p>>
        ensures edits { edits_left self.new ≡ due number (edits_left self.old) }
        ensures result { changes_of result
            ≡ edit_in number (due number (edits_left self.old)) }
        ensures outer { self.new.outer.items ≡ self.old.outer.items }
        ensures until { self.new.until ≡ self.old.until }
        ensures left { left self.new.rest ≡ left self.old.rest }
    {
        while let Some(edit) = self.edits.get(self.next) {
            if edit.number == number {
                return Some(edit.change);
            }
            if edit.number > number {
                return None;
            }
            self.pass_edit();
        }
        None
    }

    // Whether what is said where a row begins comes next, as it is.
    fn meets_kept(&mut self, old: &Tree<'_>, number: usize) -> Result<bool, AllocError>
        ensures met { (node : Node) → node_at (rows_in old.now) number ≡ Some node
            → IfOk result (Meets (begun node) self.old.rest self.new.rest) }
        ensures outer { self.new.outer.items ≡ self.old.outer.items }
        ensures until { self.new.until ≡ self.old.until }
        ensures edits { edits_left self.new ≡ edits_left self.old }
    {
        if is_text(old, number) {
            return self.rest.meets_text(old.text(number).unwrap_or(&[]));
        }
        self.rest.meets_node(old, number, None)
    }

    // Whether what is said where a row begins comes next, changed by this.
    fn meets_changed(
        &mut self,
        old: &Tree<'_>,
        number: usize,
        change: Change<'_, '_>,
    ) -> Result<bool, AllocError>
        ensures met { (node : Node) → node_at (rows_in old.now) number ≡ Some node
            → IfOk result
            (Meets (first_of (change_of change.entry) node) self.old.rest self.new.rest) }
        ensures outer { self.new.outer.items ≡ self.old.outer.items }
        ensures until { self.new.until ≡ self.old.until }
        ensures edits { edits_left self.new ≡ edits_left self.old }
    {
        if !self.rest.meets_puts(self.alloc, change.before())? {
            return Ok(false);
        }
        if !self.rest.meets_own(old, number, change)? {
            return Ok(false);
        }
        self.rest.meets_puts(self.alloc, change.front())
    }

    // A row is open now, with what is done to it.
    fn hold(&mut self, end: usize, change: Option<Change<'c, 'p>>) -> Result<(), AllocError>
        ensures outer { OnOk result
            (opens_of self.new
            ≡ opened_to end (Some (last_by (changes_of change.entry))) (opens_of self.old)) }
        ensures until { OnOk result
            (self.new.until ≡ until_by (changes_of change.entry) end self.old.until) }
        ensures edits { edits_left self.new ≡ edits_left self.old }
        ensures left { left self.new.rest ≡ left self.old.rest }
    {
        self.outer.push(Open { end, change })?;
        let Some(change) = change else {
            return Ok(());
        };
        if change.is_emptied() {
            self.until = end;
        }
        Ok(())
    }

    // Whether a row begins next, changed by this if it is an element.
    fn begin(
        &mut self,
        old: &Tree<'_>,
        number: usize,
        change: Option<Change<'c, 'p>>,
    ) -> Result<bool, AllocError>
        ensures met { (row : Row) → slice_get (rows_in old.now) number ≡ Some row
            → IfOk result (λ is. IsStepped
            (step_by (changes_of change.entry) row) self.old self.new
            (left self.old.rest) (left self.new.rest) is) }
        ensures edits { edits_left self.new ≡ edits_left self.old }
    {
        let end = old.end(number).unwrap_or(0);
        let is_open = match old.kind(number) {
            Some(kind) => has_end(kind),
            None => false,
        };
        if !is_open {
            return self.meets_kept(old, number);
        }
        let is_met = match change {
            Some(change) => self.meets_changed(old, number, change)?,
            None => self.meets_kept(old, number)?,
        };
        if is_met {
            self.hold(end, change)?;
        }
        Ok(is_met)
    }

    /// Whether a row comes next, with the ends before it.
    pub(crate) fn row(&mut self, old: &Tree<'_>, number: usize) -> Result<bool, AllocError>
        requires { number < length (rows_in old.now) }
        ensures { IfOk result (Follows
            (remaining (rows_in old.now) number self.old)
            (remaining (rows_in old.now) (number + 1) self.new)
            (left self.old.rest) (left self.new.rest)) }
    {
        if number < self.until {
            return Ok(true);
        }
        if !self.close(Some(number))? {
            return Ok(false);
        }
        let change = self.edit_at(number);
        self.begin(old, number, change)
    }

    /// Whether nothing is left, but for the ends of what is open.
    pub(crate) fn is_over(&mut self, old: &Tree<'_>) -> Result<bool, AllocError>
        ensures { let rows = rows_in old.now in
            IfOk result (λ is. IsTrue is
            ↔ left self.old.rest ≡ remaining rows (length rows) self.old) }
    {
        if !self.close(None)? {
            return Ok(false);
        }
        Ok(self.rest.next()?.is_none())
    }
}
