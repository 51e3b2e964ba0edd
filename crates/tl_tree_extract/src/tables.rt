//! The slots of a table, and the cells that cover them.
ghost use Rattle.std.specs.Prelude.{◌≡◌, ◌<◌, ◌≤◌, ◌*◌, ◌++◌, ◌-◌, Err, IfOk, OnOk, codes, length, min, suc};
ghost use Rattle.std.specs.Option.{option_map};
ghost use Rattle.tl_tree.specs.TreeView.{rows_in};
ghost use Rattle.tl_tree_extract.specs.Inner.Open.{StandsAt, StandsBefore, forming_said};
ghost use Rattle.tl_tree_extract.specs.Named.{is_named_at};
ghost use Rattle.tl_tree_extract.specs.Table.{body_names, bottom_said, cell_at, cell_names, children_named, columns_said, first_steps, foot_names, free_from, group_steps, last_steps, number_at, place_cells, row_names, rows_ahead, rows_from, steps_of, table_of, table_rows, table_said, with_cell};
ghost use Rattle.tl_tree_extract.specs.declared.table_error.TableError.TheVariants.{TooLong};

use crate::forming::Forming;
use crate::named::is_named_at;
use crate::number::non_negative;
use crate::table_columns::first_width;
use crate::table_error::TableError;
use std::alloc::{AllocError, Global};
use tl_tree::Tree;

/// A cell of a table, and the slots that it covers: those of the columns from `left` up to `right`
/// in the rows from `top` up to `bottom`.
#[derive(Clone, Copy, PartialEq, Eq, Debug)]
pub struct Cell {
    /// The number of its `td` or `th`.
    pub node: usize,
    pub left: u32,
    pub right: u32,
    pub top: usize,
    pub bottom: usize,
}

/// A row of a table.
#[derive(Clone, Copy, PartialEq, Eq, Debug)]
pub struct TableRow {
    /// The number of its `tr`.
    pub node: usize,
    /// The number of the row behind the last one of its row group.
    pub group_end: usize,
}

/// A table: how many columns it has, its rows from above, and its cells in the order of the rows.
#[derive(Drop)]
pub struct Table {
    pub width: u32,
    pub rows: Vec<TableRow>,
    pub cells: Vec<Cell>,
}

static ROW_NAMES: [&str; 1] = ["tr"];

static CELL_NAMES: [&str; 2] = ["td", "th"];

static BODY_NAMES: [&str; 2] = ["tbody", "thead"];

static FOOT_NAMES: [&str; 1] = ["tfoot"];

#[tactic(auto, unfolding(crate::specs::Table::row_names))]
fn is_row(tree: &Tree<'_>, number: usize) -> bool
    ensures { result ≡ is_named_at row_names (rows_in tree.now) number }
{
    is_named_at(&ROW_NAMES, tree, number)
}

#[tactic(auto, unfolding(crate::specs::Table::cell_names))]
fn is_cell(tree: &Tree<'_>, number: usize) -> bool
    ensures { result ≡ is_named_at cell_names (rows_in tree.now) number }
{
    is_named_at(&CELL_NAMES, tree, number)
}

#[tactic(auto, unfolding(crate::specs::Table::body_names))]
fn is_body(tree: &Tree<'_>, number: usize) -> bool
    ensures { result ≡ is_named_at body_names (rows_in tree.now) number }
{
    is_named_at(&BODY_NAMES, tree, number)
}

#[tactic(auto, unfolding(crate::specs::Table::foot_names))]
fn is_foot(tree: &Tree<'_>, number: usize) -> bool
    ensures { result ≡ is_named_at foot_names (rows_in tree.now) number }
{
    is_named_at(&FOOT_NAMES, tree, number)
}

// Adds the rows of a row group.
fn push_group(
    steps: &mut Vec<Option<usize>>,
    tree: &Tree<'_>,
    group: usize,
) -> Result<(), AllocError>
    ensures { OnOk result (steps.new.items
        ≡ steps.old.items ++ group_steps (rows_in tree.now) group) }
{
    for child in tree.children(group) {
        if is_row(tree, child) {
            steps.push(Some(child))?;
        }
    }
    Ok(())
}

// Adds a child of a table, if it is a row or has rows; of a `tfoot` only that spans end there.
fn push_first(
    steps: &mut Vec<Option<usize>>,
    tree: &Tree<'_>,
    child: usize,
) -> Result<(), AllocError>
    ensures { OnOk result (steps.new.items
        ≡ steps.old.items ++ first_steps (rows_in tree.now) child) }
{
    if is_row(tree, child) {
        steps.push(Some(child))?;
    } else if is_body(tree, child) {
        steps.push(None)?;
        push_group(steps, tree, child)?;
        steps.push(None)?;
    } else if is_foot(tree, child) {
        steps.push(None)?;
    }
    Ok(())
}

// Adds a child of a table, if it is a `tfoot`.
fn push_last(
    steps: &mut Vec<Option<usize>>,
    tree: &Tree<'_>,
    child: usize,
) -> Result<(), AllocError>
    ensures { OnOk result (steps.new.items
        ≡ steps.old.items ++ last_steps (rows_in tree.now) child) }
{
    if is_foot(tree, child) {
        push_group(steps, tree, child)?;
        steps.push(None)?;
    }
    Ok(())
}

// The rows of a table, and where its row groups end.
fn steps_of(alloc: Global, tree: &Tree<'_>, table: usize) -> Result<Vec<Option<usize>>, AllocError>
    ensures { IfOk result (λ steps. steps.items ≡ steps_of (rows_in tree.now) table) }
{
    let mut steps = Vec::new(alloc);
    'first: for child in tree.children(table) {
        push_first(&mut steps, tree, child)?;
    }
    'last: for child in tree.children(table) {
        push_last(&mut steps, tree, child)?;
    }
    Ok(steps)
}

// How many rows come before a group ends.
fn rows_ahead(steps: &[Option<usize>]) -> usize
    ensures value { result ≡ rows_ahead steps.now }
    ensures few { result ≤ length steps.now }
{
    for (index, step) in steps.iter().enumerate() {
        if step.is_none() {
            return index;
        }
    }
    steps.len()
}

/// The rows of a table, from above: those of `tfoot` come last.
pub fn table_rows(alloc: Global, tree: &Tree<'_>, table: usize) -> Result<Vec<TableRow>, AllocError>
    ensures { IfOk result (λ trs. trs.items ≡ table_rows (rows_in tree.now) table) }
{
    let steps = steps_of(alloc, tree, table)?;
    let mut rows = Vec::new(alloc);
    let mut group_end = 0;
    for (index, step) in steps.iter().enumerate() {
        if let Some(node) = *step {
            if group_end <= rows.len() {
                group_end = rows.len() + rows_ahead(&steps[index..]);
            }
            rows.push(TableRow { node, group_end })?;
        }
    }
    Ok(rows)
}

// What an attribute says as a number.
fn number_at(tree: &Tree<'_>, number: usize, key: &[u8]) -> Option<u32>
    ensures { result ≡ option_map (min 65535) (number_at key.now (rows_in tree.now) number) }
{
    non_negative(tree.value(number, key)?)
}

/// How many columns an element spans, by an attribute.
#[tactic(auto, using(crate::proofs::Numbers::columns_cut))]
pub(crate) fn columns_of(tree: &Tree<'_>, number: usize, key: &[u8]) -> u32
    ensures { result ≡ columns_said (number_at key.now (rows_in tree.now) number) }
{
    match number_at(tree, number, key) {
        None | Some(0) => 1,
        Some(span) => span.min(1000),
    }
}

// The row at which a cell ends that begins in a row of a group.
#[tactic(auto, using(crate::proofs::Numbers::bottom_cut))]
fn bottom_of(tree: &Tree<'_>, cell: usize, number: usize, end: usize) -> usize
    ensures { result ≡ bottom_said (number_at (codes "rowspan") (rows_in tree.now) cell) number end }
{
    match number_at(tree, cell, b"rowspan") {
        None => number.saturating_add(1).min(end),
        Some(0) => end,
        Some(span) => number.saturating_add(span.min(65534) as usize).min(end),
    }
}

// The cell of an element, anchored in a slot.
fn cell_at(tree: &Tree<'_>, row: TableRow, number: usize, cell: usize, column: u32) -> Cell
    ensures said { result ≡ cell_at (rows_in tree.now) row number cell column }
    ensures wide { result.left ≤ result.right }
{
    Cell {
        node: cell,
        left: column,
        right: column.saturating_add(columns_of(tree, cell, b"colspan")),
        top: number,
        bottom: bottom_of(tree, cell, number, row.group_end),
    }
}

// Puts a cell into the next slot of a row that is free, from a column on. Answers where it ends.
fn place_next(
    forming: &mut Forming,
    tree: &Tree<'_>,
    row: TableRow,
    number: usize,
    cell: usize,
    column: u32,
) -> Result<u32, AllocError>
    requires { StandsAt forming.old number column }
    ensures said { IfOk result (λ next. let at = free_from forming.old.cells.items number column
        (forming.old.width - column) in let own = cell_at (rows_in tree.now) row number cell at in
        (next ≡ own.right)
        × (forming_said forming.new ≡ with_cell (forming_said forming.old) own)) }
    ensures stands { IfOk result (λ next. StandsAt forming.new number next) }
{
    let at = forming.pass(number, column)?;
    let own = cell_at(tree, row, number, cell, at);
    forming.place(number, own)?;
    Ok(own.right)
}

// Puts the cells of a row into its slots.
fn place_cells(
    forming: &mut Forming,
    tree: &Tree<'_>,
    row: TableRow,
    number: usize,
) -> Result<(), AllocError>
    requires { StandsBefore forming.old number }
    ensures said { OnOk result (forming_said forming.new ≡ place_cells (rows_in tree.now) row
        number (children_named cell_names (rows_in tree.now) row.node) 0
        (forming_said forming.old)) }
    ensures stands { OnOk result (StandsBefore forming.new (suc number)) }
{
    let mut column = 0;
    for child in tree.children(row.node) {
        if is_cell(tree, child) {
            column = place_next(forming, tree, row, number, child, column)?;
        }
    }
    forming.end_row()
}

// Puts the cells of a row into its slots: of so many rows, which may have so many slots at most.
fn form_row(
    forming: &mut Forming,
    tree: &Tree<'_>,
    row: TableRow,
    number: usize,
    count: usize,
    limit: usize,
) -> Result<(), TableError>
    requires { StandsBefore forming.old number }
    ensures said { OnOk result (forming_said forming.new ≡ place_cells (rows_in tree.now) row
        number (children_named cell_names (rows_in tree.now) row.node) 0
        (forming_said forming.old)) }
    ensures stands { OnOk result (StandsBefore forming.new (suc number)) }
    ensures long { result ≡ Err TooLong → (limit < usize.MAX) × (limit < count
        * (place_cells (rows_in tree.now) row number
        (children_named cell_names (rows_in tree.now) row.node) 0
        (forming_said forming.old)).width) }
{
    place_cells(forming, tree, row, number)?;
    if count.saturating_mul(forming.width as usize) > limit {
        return Err(TableError::TooLong);
    }
    Ok(())
}

/// The table of a `table` element, as `table_of` has it, if it has so many slots at most.
pub(crate) fn table_within(
    alloc: Global,
    tree: &Tree<'_>,
    table: usize,
    limit: usize,
) -> Result<Table, TableError>
    ensures said { IfOk result (λ t. table_said t ≡ table_of (rows_in tree.now) table) }
    ensures long { result ≡ Err TooLong → let t = table_of (rows_in tree.now) table in
        (limit < usize.MAX) × (limit < length t.rows * t.width) }
{
    let rows = table_rows(alloc, tree, table)?;
    let mut forming = Forming::new(alloc, first_width(tree, table));
    for (number, row) in rows.iter().enumerate() {
        form_row(&mut forming, tree, *row, number, rows.len(), limit)?;
    }
    Ok(Table {
        width: forming.width,
        rows,
        cells: forming.cells,
    })
}

/// The table of a `table` element: which cells cover which slots. Where several cover one, it has
/// the first of them.
pub fn table_of(alloc: Global, tree: &Tree<'_>, table: usize) -> Result<Table, AllocError>
    ensures { IfOk result (λ t. table_said t ≡ table_of (rows_in tree.now) table) }
{
    match table_within(alloc, tree, table, usize::MAX) {
        Ok(table) => Ok(table),
        Err(TableError::TooLong) => unreachable!(),
        Err(TableError::OutOfMemory) => Err(AllocError),
    }
}
