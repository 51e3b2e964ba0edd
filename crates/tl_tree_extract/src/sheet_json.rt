//! A table as JSON: an array of rows, each an array with a string for each slot.
ghost use Rattle.json.specs.Print.{print};
ghost use Rattle.std.specs.Option.{option_copied};
ghost use Rattle.std.specs.Prelude.{Err, OnOk, length, ◌+◌, ◌++◌, ◌<◌, ◌≡◌, ◌≤◌};
ghost use Rattle.tl_tree.specs.TreeView.{rows_in};
ghost use Rattle.tl_tree_extract.specs.Inner.Kept.{AreKept};
ghost use Rattle.tl_tree_extract.specs.Inner.Sinks.{IsOver, after, text_taken};
ghost use Rattle.tl_tree_extract.specs.Inner.Slots.{AreRising, IsAtRow, IsBeforeRow};
ghost use Rattle.tl_tree_extract.specs.SheetJson.{array_of_rows, row_array, row_arrays, slot_strings, table_line, with_file};
ghost use Rattle.tl_tree_extract.specs.Table.{table_of, table_said};
ghost use Rattle.tl_tree_extract.specs.declared.table_error.TableError.TheVariants.{TooLong};

use crate::cell_words::CellWords;
use crate::json_member::put_str;
use crate::json_sink::{KnownKey, Mark, Sink};
use crate::json_text::Text;
use crate::limit::Limit;
use crate::row_slots::RowSlots;
use crate::sheet::{Spans, take_slot};
use crate::table_error::TableError;
use crate::tables::{Table, table_within};
use std::alloc::{AllocError, Global};
use std::mem;
use tl_tree::Tree;

/// How a table is written: with so many bytes at most.
#[derive(Clone, Copy)]
struct Format {
    spans: Spans,
    limit: Limit,
}

// Writes the words of each slot of a row as a string.
fn put_slots(
    alloc: Global,
    tree: &Tree<'_>,
    format: Format,
    table: &Table,
    slots: &RowSlots,
    row: usize,
    words: &mut CellWords,
    out: &mut Text,
) -> Result<(), TableError>
    requires at_row { IsAtRow (table_said table.now) row slots.now }
    requires kept { AreKept (rows_in tree.now) words.old }
    ensures kept { OnOk result (AreKept (rows_in tree.now) words.new) }
    ensures adds { OnOk result (text_taken out.new.out.items out.new.after_value
        ≡ after (slot_strings format.spans (rows_in tree.now) (table_said table.now) row
        table.now.width) (text_taken out.old.out.items out.old.after_value)) }
    ensures long { result ≡ Err TooLong → IsOver (format.limit.start + format.limit.most)
        (after (slot_strings format.spans (rows_in tree.now) (table_said table.now) row
        table.now.width) (text_taken out.old.out.items out.old.after_value)) }
{
    for column in 0..table.width as usize {
        take_slot(tree, format.spans, table, slots, column, row, words)?;
        out.string(alloc, words.line.as_slice())?;
        format.limit.check(out.out.len())?;
    }
    Ok(())
}

// Writes a row as an array.
fn put_row(
    alloc: Global,
    tree: &Tree<'_>,
    format: Format,
    table: &Table,
    slots: &RowSlots,
    row: usize,
    words: &mut CellWords,
    out: &mut Text,
) -> Result<(), TableError>
    requires at_row { IsAtRow (table_said table.now) row slots.now }
    requires kept { AreKept (rows_in tree.now) words.old }
    ensures kept { OnOk result (AreKept (rows_in tree.now) words.new) }
    ensures adds { OnOk result (text_taken out.new.out.items out.new.after_value
        ≡ after (row_array format.spans (rows_in tree.now) (table_said table.now) row)
        (text_taken out.old.out.items out.old.after_value)) }
    ensures long { result ≡ Err TooLong → IsOver (format.limit.start + format.limit.most)
        (after (row_array format.spans (rows_in tree.now) (table_said table.now) row)
        (text_taken out.old.out.items out.old.after_value)) }
{
    out.mark(Mark::BeginArray)?;
    put_slots(alloc, tree, format, table, slots, row, words, out)?;
    out.mark(Mark::EndArray)?;
    Ok(())
}

// Writes each row of a table.
fn put_rows(
    alloc: Global,
    tree: &Tree<'_>,
    format: Format,
    table: &Table,
    out: &mut Text,
) -> Result<(), TableError>
    requires { AreRising 0 (length table.now.rows.items) table.now.cells.items }
    ensures adds { OnOk result (text_taken out.new.out.items out.new.after_value
        ≡ after (row_arrays format.spans (rows_in tree.now) (table_said table.now)
        (length table.now.rows.items)) (text_taken out.old.out.items out.old.after_value)) }
    ensures long { result ≡ Err TooLong → IsOver (format.limit.start + format.limit.most)
        (after (row_arrays format.spans (rows_in tree.now) (table_said table.now)
        (length table.now.rows.items)) (text_taken out.old.out.items out.old.after_value)) }
{
    let mut words = CellWords::new(alloc);
    let mut slots = RowSlots::new(alloc);
    for row in 0..table.rows.len() {
        slots.go_to(table, row)?;
        put_row(alloc, tree, format, table, &slots, row, &mut words, out)?;
    }
    Ok(())
}

// Writes a table as an array of rows.
fn put_array(
    alloc: Global,
    tree: &Tree<'_>,
    format: Format,
    table: &Table,
    out: &mut Text,
) -> Result<(), TableError>
    requires { AreRising 0 (length table.now.rows.items) table.now.cells.items }
    ensures adds { OnOk result (text_taken out.new.out.items out.new.after_value
        ≡ after (array_of_rows format.spans (rows_in tree.now) (table_said table.now))
        (text_taken out.old.out.items out.old.after_value)) }
    ensures long { result ≡ Err TooLong → IsOver (format.limit.start + format.limit.most)
        (after (array_of_rows format.spans (rows_in tree.now) (table_said table.now))
        (text_taken out.old.out.items out.old.after_value)) }
{
    out.mark(Mark::BeginArray)?;
    put_rows(alloc, tree, format, table, out)?;
    out.mark(Mark::EndArray)?;
    Ok(())
}

// Writes a table of a file as an object.
fn put_object(
    alloc: Global,
    tree: &Tree<'_>,
    format: Format,
    file: &str,
    table: &Table,
    out: &mut Text,
) -> Result<(), TableError>
    requires { AreRising 0 (length table.now.rows.items) table.now.cells.items }
    ensures adds { OnOk result (text_taken out.new.out.items out.new.after_value
        ≡ after (with_file (Some file.now) (array_of_rows format.spans (rows_in tree.now)
        (table_said table.now))) (text_taken out.old.out.items out.old.after_value)) }
    ensures long { result ≡ Err TooLong → IsOver (format.limit.start + format.limit.most)
        (after (with_file (Some file.now) (array_of_rows format.spans (rows_in tree.now)
        (table_said table.now))) (text_taken out.old.out.items out.old.after_value)) }
{
    out.mark(Mark::BeginObject)?;
    put_str(alloc, KnownKey::File, file, out)?;
    out.known(KnownKey::Rows)?;
    put_array(alloc, tree, format, table, out)?;
    out.mark(Mark::EndObject)?;
    Ok(())
}

// Writes a table, which may be of a file that is said.
fn put_table(
    alloc: Global,
    tree: &Tree<'_>,
    format: Format,
    file: Option<&str>,
    table: &Table,
    out: &mut Text,
) -> Result<(), TableError>
    requires { AreRising 0 (length table.now.rows.items) table.now.cells.items }
    ensures adds { OnOk result (text_taken out.new.out.items out.new.after_value
        ≡ after (with_file (option_copied file.entry) (array_of_rows format.spans
        (rows_in tree.now) (table_said table.now)))
        (text_taken out.old.out.items out.old.after_value)) }
    ensures long { result ≡ Err TooLong → IsOver (format.limit.start + format.limit.most)
        (after (with_file (option_copied file.entry) (array_of_rows format.spans
        (rows_in tree.now) (table_said table.now)))
        (text_taken out.old.out.items out.old.after_value)) }
{
    match file {
        Some(name) => put_object(alloc, tree, format, name, table, out),
        None => put_array(alloc, tree, format, table, out),
    }
}

/// Writes a line of JSON for the table of a `table` element: an array of its rows, each an array of
/// strings, which are the words of the cells that have its slots. Where a file is given it is an
/// object with the file (`file`) and these `rows`.
///
/// The line may have so many bytes at most. That of a table with more is left off early, in time
/// and memory of the page and the limit. Where none is written, what the vector had may be gone.
pub fn write_table_line(
    alloc: Global,
    tree: &Tree<'_>,
    number: usize,
    spans: Spans,
    file: Option<&str>,
    limit: usize,
    out: &mut Vec<u8>,
) -> Result<(), TableError>
    ensures written { OnOk result (out.new.items ≡ out.old.items
        ++ table_line (option_copied file.entry) spans (rows_in tree.now) number) }
    ensures within { OnOk result (length (table_line (option_copied file.entry) spans
        (rows_in tree.now) number) ≤ limit) }
    ensures long { result ≡ Err TooLong →
        limit < length (table_line (option_copied file.entry) spans (rows_in tree.now) number) }
{
    let table = table_within(alloc, tree, number, limit)?;
    let limit = Limit {
        start: out.len(),
        most: limit,
    };
    let format = Format { spans, limit };
    let mut text = Text::new(alloc, mem::replace(out, Vec::new(alloc)));
    put_table(alloc, tree, format, file, &table, &mut text)?;
    *out = text.into_inner();
    out.push(b'\n')?;
    let end = out.len();
    limit.check(end)
}
