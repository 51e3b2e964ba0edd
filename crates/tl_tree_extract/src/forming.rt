//! A table that is being formed: cells that go to the next free slot of a row.
ghost use Rattle.std.specs.Prelude.{◌≡◌, ◌≤◌, ◌+◌, ◌++◌, ◌-◌, ◌∷◌, [], IfOk, MatchOption, OnOk, ℕ, reverse, suc, take};
ghost use Rattle.tl_tree_extract.specs.Inner.Open.{AreFrom, StandsAt, StandsBefore, forming_said};
ghost use Rattle.tl_tree_extract.specs.Table.{free_from, with_cell};

use crate::tables::Cell;
use std::alloc::{AllocError, Global};

/// A table that is being formed.
#[derive(Drop)]
pub struct Forming {
    pub width: u32,
    pub cells: Vec<Cell>,
    /// Cells that go on, and begin up to a column of the row.
    passed: Vec<Cell>,
    /// Cells of rows above that begin behind it, the next one last.
    ahead: Vec<Cell>,
}

// Takes the next cell out that begins up to a column.
#[tactic(auto, using(crate::proofs::Cells::row_begins))]
fn pop_up_to(ahead: &mut Vec<Cell>, column: u32) -> Option<Cell>
    ensures { MatchOption result
        ((ahead.new.items ≡ ahead.old.items)
        × AreFrom (suc column) (take 1 (reverse ahead.old.items)))
        (λ c. (c.left ≤ column) × (reverse ahead.old.items ≡ c ∷ reverse ahead.new.items)) }
{
    let cell = *ahead.last()?;
    if column < cell.left {
        return None;
    }
    ahead.pop()
}

impl Forming {
    /// A table of so many columns, without a cell.
    pub fn new(alloc: Global, width: u32) -> Forming
        ensures said { forming_said result ≡ record { width = width; cells = [] } }
        ensures stands { StandsBefore result 0 }
    {
        Forming {
            width,
            cells: Vec::new(alloc),
            passed: Vec::new(alloc),
            ahead: Vec::new(alloc),
        }
    }

    /// Passes over slots that cells of rows above cover, from a column on.
    pub fn pass(&mut self, row: usize, from: u32) -> Result<u32, AllocError>
        requires { StandsAt self.old row from }
        ensures free { IfOk result (λ at.
            at ≡ free_from self.old.cells.items row from (self.old.width - from)) }
        ensures said { OnOk result (forming_said self.new ≡ forming_said self.old) }
        ensures stands { IfOk result (λ at. StandsAt self.new row at
            × AreFrom (suc at) (reverse self.new.ahead.items)) }
    {
        let mut column = from;
        while let Some(cell) = pop_up_to(&mut self.ahead, column) {
            if row < cell.bottom {
                column = column.max(cell.right);
                self.passed.push(cell)?;
            }
        }
        Ok(column)
    }

    /// Puts a cell into a free slot.
    pub fn place(&mut self, row: usize, cell: Cell) -> Result<(), AllocError>
        requires stands { StandsAt self.old row cell.left }
        requires free { AreFrom (suc cell.left) (reverse self.old.ahead.items) }
        requires here { (cell.top ≡ row) × (cell.left ≤ cell.right) }
        ensures said { OnOk result
            (forming_said self.new ≡ with_cell (forming_said self.old) cell) }
        ensures stands { OnOk result (StandsAt self.new row cell.right) }
    {
        self.width = self.width.max(cell.right);
        self.cells.push(cell)?;
        if cell.bottom.saturating_sub(row) > 1 {
            self.passed.push(cell)?;
        }
        Ok(())
    }

    /// Goes back to the first column, for the row below.
    pub fn end_row(&mut self) -> Result<(), AllocError>
        requires { (row : ℕ) × (column : ℕ) × StandsAt self.old row column }
        ensures said { OnOk result (forming_said self.new ≡ forming_said self.old) }
        ensures stands { (row column : ℕ) → StandsAt self.old row column
            → OnOk result (StandsBefore self.new (suc row)) }
    {
        while let Some(cell) = self.passed.pop() {
            self.ahead.push(cell)?;
        }
        Ok(())
    }
}
