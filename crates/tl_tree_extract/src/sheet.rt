//! A table in columns: a line for each row, with a value for each slot.
ghost use Rattle.std.specs.Prelude.{Err, OnOk, length, ℕ, ◌+◌, ◌++◌, ◌-◌, ◌<◌, ◌≡◌, ◌≤◌};
ghost use Rattle.tl_tree.specs.TreeView.{rows_in};
ghost use Rattle.tl_tree_extract.specs.Inner.Kept.{AreKept};
ghost use Rattle.tl_tree_extract.specs.Inner.Slots.{AreRising, IsAtRow, IsBeforeRow};
ghost use Rattle.tl_tree_extract.specs.Sheet.{is_said, more_slots, row_written, rows_written, slot_words, table_written, words_of_cell};
ghost use Rattle.tl_tree_extract.specs.Table.{table_said};
ghost use Rattle.tl_tree_extract.specs.declared.table_error.TableError.TheVariants.{TooLong};

use crate::cell_words::CellWords;
use crate::column::{Columns, put_first_value, put_separator, put_value};
use crate::limit::Limit;
use crate::row_slots::RowSlots;
use crate::table_error::TableError;
use crate::tables::{Cell, Table, table_within};
use std::alloc::{AllocError, Global};
use tl_tree::Tree;

/// What stands in the slots that a cell covers.
#[derive(Clone, Copy, PartialEq, Eq, Debug)]
pub enum Spans {
    /// The words of the cell, in each.
    Filled,
    /// The words of the cell in the one where it begins, and nothing in the others.
    Once,
}

/// How a table is written: behind so many bytes, and with so many bytes at most.
#[derive(Clone, Copy)]
struct Format {
    columns: Columns,
    spans: Spans,
    limit: Limit,
}

// Whether a cell has its words in a slot.
fn is_said(spans: Spans, cell: Cell, column: usize, row: usize) -> bool
    ensures { result ≡ is_said spans cell column row }
{
    match spans {
        Spans::Filled => true,
        Spans::Once => cell.left as usize == column && cell.top == row,
    }
}

// Takes the words that a slot has for the line.
fn take_words(
    tree: &Tree<'_>,
    spans: Spans,
    cell: Option<Cell>,
    column: usize,
    row: usize,
    words: &mut CellWords,
) -> Result<(), AllocError>
    requires { AreKept (rows_in tree.now) words.old }
    ensures line { OnOk result (words.new.line.items
        ≡ words_of_cell spans (rows_in tree.now) column row cell) }
    ensures kept { OnOk result (AreKept (rows_in tree.now) words.new) }
{
    match cell {
        Some(cell) if is_said(spans, cell, column, row) => words.take(tree, cell.node),
        _ => {
            words.line.clear();
            Ok(())
        }
    }
}

/// Takes the words that a slot of a row has for the line.
pub(crate) fn take_slot(
    tree: &Tree<'_>,
    spans: Spans,
    table: &Table,
    slots: &RowSlots,
    column: usize,
    row: usize,
    words: &mut CellWords,
) -> Result<(), AllocError>
    requires at_row { IsAtRow (table_said table.now) row slots.now }
    requires within { column ≤ table.now.width - 1 }
    requires kept { AreKept (rows_in tree.now) words.old }
    ensures line { OnOk result (words.new.line.items
        ≡ slot_words spans (rows_in tree.now) (table_said table.now) column row) }
    ensures kept { OnOk result (AreKept (rows_in tree.now) words.new) }
{
    take_words(tree, spans, slots.cell(column), column, row, words)
}

// Writes the slots of a row behind the first one.
fn put_more(
    tree: &Tree<'_>,
    format: Format,
    table: &Table,
    slots: &RowSlots,
    row: usize,
    words: &mut CellWords,
    out: &mut Vec<u8>,
) -> Result<(), TableError>
    requires at_row { IsAtRow (table_said table.now) row slots.now }
    requires kept { AreKept (rows_in tree.now) words.old }
    ensures kept { OnOk result (AreKept (rows_in tree.now) words.new) }
    ensures written { OnOk result (out.new.items ≡ out.old.items ++ more_slots format.columns
        format.spans (rows_in tree.now) (table_said table.now) row (table.now.width - 1)) }
    ensures long { result ≡ Err TooLong → format.limit.start + format.limit.most
        < length (out.old.items ++ more_slots format.columns format.spans (rows_in tree.now)
        (table_said table.now) row (table.now.width - 1)) }
{
    for last in 0..table.width.saturating_sub(1) as usize {
        take_slot(tree, format.spans, table, slots, last + 1, row, words)?;
        put_separator(format.columns, out)?;
        put_value(format.columns, words.line.as_slice(), out)?;
        format.limit.check(out.len())?;
    }
    Ok(())
}

// Writes a row.
fn put_row(
    tree: &Tree<'_>,
    format: Format,
    table: &Table,
    slots: &RowSlots,
    row: usize,
    words: &mut CellWords,
    out: &mut Vec<u8>,
) -> Result<(), TableError>
    requires at_row { IsAtRow (table_said table.now) row slots.now }
    requires kept { AreKept (rows_in tree.now) words.old }
    ensures kept { OnOk result (AreKept (rows_in tree.now) words.new) }
    ensures written { OnOk result (out.new.items ≡ out.old.items ++ row_written format.columns
        format.spans (rows_in tree.now) (table_said table.now) row) }
    ensures within { OnOk result (length out.new.items ≤ format.limit.start + format.limit.most) }
    ensures long { result ≡ Err TooLong → format.limit.start + format.limit.most
        < length (out.old.items ++ row_written format.columns format.spans (rows_in tree.now)
        (table_said table.now) row) }
{
    let others = table.width.saturating_sub(1) as usize;
    take_slot(tree, format.spans, table, slots, 0, row, words)?;
    put_first_value(format.columns, others, words.line.as_slice(), out)?;
    put_more(tree, format, table, slots, row, words, out)?;
    out.push(b'\n')?;
    format.limit.check(out.len())
}

// Writes the rows of a table.
fn put_rows(
    alloc: Global,
    tree: &Tree<'_>,
    format: Format,
    table: &Table,
    out: &mut Vec<u8>,
) -> Result<(), TableError>
    requires rising { AreRising 0 (length table.now.rows.items) table.now.cells.items }
    requires start { format.limit.start ≡ length out.old.items }
    ensures written { OnOk result (out.new.items ≡ out.old.items ++ rows_written format.columns
        format.spans (rows_in tree.now) (table_said table.now) (length table.now.rows.items)) }
    ensures within { OnOk result (length (rows_written format.columns format.spans
        (rows_in tree.now) (table_said table.now) (length table.now.rows.items))
        ≤ format.limit.most) }
    ensures long { result ≡ Err TooLong → format.limit.most < length (rows_written format.columns
        format.spans (rows_in tree.now) (table_said table.now) (length table.now.rows.items)) }
{
    let mut words = CellWords::new(alloc);
    let mut slots = RowSlots::new(alloc);
    for row in 0..table.rows.len() {
        slots.go_to(table, row)?;
        put_row(tree, format, table, &slots, row, &mut words, out)?;
    }
    Ok(())
}

/// Writes a line for each row of the table of a `table` element, with a value for each column: the
/// words of the cell that has the slot, as one line of readable text. A row of a table without
/// columns is one empty value.
///
/// The lines may have so many bytes at most. Those of a table with more are left off early, in time
/// and memory of the page and the limit.
pub fn write_table(
    alloc: Global,
    tree: &Tree<'_>,
    number: usize,
    columns: Columns,
    spans: Spans,
    limit: usize,
    out: &mut Vec<u8>,
) -> Result<(), TableError>
    ensures written { OnOk result (out.new.items
        ≡ out.old.items ++ table_written columns spans (rows_in tree.now) number) }
    ensures within { OnOk result
        (length (table_written columns spans (rows_in tree.now) number) ≤ limit) }
    ensures long { result ≡ Err TooLong →
        limit < length (table_written columns spans (rows_in tree.now) number) }
{
    let table = table_within(alloc, tree, number, limit)?;
    let format = Format {
        columns,
        spans,
        limit: Limit {
            start: out.len(),
            most: limit,
        },
    };
    put_rows(alloc, tree, format, &table, out)
}
