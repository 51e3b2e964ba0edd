//! Which cell has each slot of a row.
ghost use Rattle.std.specs.Prelude.{IfOk, OnOk, filter, get_or, if◌then◌else◌, length, slice_get, ◌++◌, ◌<◌, ◌==◌, ◌≡◌, ◌≤◌, ◌∷◌, [], ℕ};
ghost use Rattle.tl_tree_extract.specs.Inner.Slots.{AreOpenAt, AreRising, AreSlots, IsAhead, IsAtRow, IsBeforeRow, cell_of, first_across, is_across, lasts};
ghost use Rattle.tl_tree_extract.specs.Table.{TableModel, table_said};

use crate::tables::{Cell, Table};
use std::alloc::{AllocError, Global};

// Leaves out the cells that end before a row.
fn keep_open(open: &mut Vec<Cell>, row: usize)
    ensures { open.new.items ≡ filter (lasts row) open.old.items }
{
    open.retain(|cell| row < cell.bottom);
}

// Adds a cell, if it goes on in a row.
fn push_open(open: &mut Vec<Cell>, cell: Cell, row: usize) -> Result<(), AllocError>
    ensures { OnOk result (open.new.items ≡ open.old.items ++ filter (lasts row) (cell ∷ [])) }
{
    if row < cell.bottom {
        open.push(cell)?;
    }
    Ok(())
}

// Adds the cells that begin up to a row and go on in it, and answers how many begin so.
fn open_up_to(
    open: &mut Vec<Cell>,
    cells: &[Cell],
    met: usize,
    row: usize,
) -> Result<usize, AllocError>
    requires { AreOpenAt cells.now row met open.old.items }
    ensures here { IfOk result (λ next. AreOpenAt cells.now row next open.new.items) }
    ensures ahead { IfOk result (λ next. IsAhead row (slice_get cells.now next)) }
{
    let mut next = met;
    while next < cells.len() {
        let cell = cells[next];
        if row < cell.top {
            return Ok(next);
        }
        push_open(open, cell, row)?;
        next += 1;
    }
    Ok(next)
}

// Puts a number into a slot, if there is one.
fn put_slot(slots: &mut [usize], column: usize, index: usize)
    ensures length { length slots.new ≡ length slots.old }
    ensures here { (k : ℕ) → k < length slots.old → get_or slots.new k 0
        ≡ (if k == column then index else get_or slots.old k 0) }
{
    if column < slots.len() {
        slots[column] = index;
    }
}

// Puts the number of a cell into the slots that it covers.
fn put_cell(slots: &mut [usize], cell: Cell, index: usize)
    ensures length { length slots.new ≡ length slots.old }
    ensures here { (k : ℕ) → k < length slots.old → get_or slots.new k 0
        ≡ (if is_across k cell then index else get_or slots.old k 0) }
{
    for column in cell.left..cell.right {
        put_slot(slots, column as usize, index);
    }
}

// Puts the numbers of cells into the slots that they cover: that of the first one, where several
// do.
fn put_cells(slots: &mut [usize], open: &[Cell])
    requires { (k : ℕ) → k < length slots.old → get_or slots.old k 0 ≡ length open.now }
    ensures length { length slots.new ≡ length slots.old }
    ensures here { (k : ℕ) → k < length slots.old → get_or slots.new k 0
        ≡ first_across k open.now }
{
    let mut index = open.len();
    while index > 0 {
        index -= 1;
        put_cell(slots, open[index], index);
    }
}

// So many empty slots, for so many cells.
fn clear(slots: &mut Vec<usize>, count: usize, cells: usize) -> Result<(), AllocError>
    ensures length { OnOk result (length slots.new.items ≡ count) }
    ensures empty { OnOk result
        ((k : ℕ) → k < length slots.new.items → get_or slots.new.items k 0 ≡ cells) }
{
    slots.clear();
    for _ in 0..count {
        slots.push(cells)?;
    }
    Ok(())
}

// Puts into each of so many slots the number of the first cell that covers its column, or how many
// cells there are.
fn lay_slots(slots: &mut Vec<usize>, open: &[Cell], count: usize) -> Result<(), AllocError>
    ensures length { OnOk result (length slots.new.items ≡ count) }
    ensures cells { OnOk result (AreSlots open.now slots.new.items) }
{
    clear(slots, count, open.len())?;
    put_cells(slots.as_mut_slice(), open);
    Ok(())
}

/// The cells of a table that cover slots of a row, in their order, and which slots they have.
#[derive(Drop)]
pub(crate) struct RowSlots {
    cells: Vec<Cell>,
    /// How many cells of the table begin up to the row.
    met: usize,
    /// For each column the number of the cell that has its slot, or how many cells there are.
    slots: Vec<usize>,
}

impl RowSlots {
    /// Before the first row.
    pub(crate) fn new(alloc: Global) -> RowSlots
        ensures { (t : TableModel) → IsBeforeRow t 0 result }
    {
        RowSlots {
            cells: Vec::new(alloc),
            met: 0,
            slots: Vec::new(alloc),
        }
    }

    /// Goes to the next row. There is a slot for each column, and one where the table has none.
    pub(crate) fn go_to(&mut self, table: &Table, row: usize) -> Result<(), AllocError>
        requires before { IsBeforeRow (table_said table.now) row self.old }
        requires rising { AreRising 0 (length table.now.rows.items) table.now.cells.items }
        ensures { OnOk result (IsAtRow (table_said table.now) row self.new) }
    {
        keep_open(&mut self.cells, row);
        self.met = open_up_to(&mut self.cells, table.cells.as_slice(), self.met, row)?;
        let count = (table.width as usize).max(1);
        lay_slots(&mut self.slots, self.cells.as_slice(), count)?;
        Ok(())
    }

    /// The cell that has the slot of a column.
    pub(crate) fn cell(&self, column: usize) -> Option<Cell>
        ensures { result ≡ cell_of self.now column }
    {
        self.cells.get(*self.slots.get(column)?).copied()
    }
}
