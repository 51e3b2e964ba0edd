//! The columns that a table has before its rows are looked at: those of its column groups.
ghost use Rattle.std.specs.List.{list_any};
ghost use Rattle.std.specs.Prelude.{◌≡◌};
ghost use Rattle.tl_tree.specs.Asked.{children_at};
ghost use Rattle.tl_tree.specs.TreeView.{rows_in};
ghost use Rattle.tl_tree_extract.specs.Named.{is_named_at};
ghost use Rattle.tl_tree_extract.specs.Table.{body_or_row_names, children_named, column_group_names, column_names, with_columns, with_each, with_group, with_groups};

use crate::named::is_named_at;
use crate::tables::columns_of;
use tl_tree::Tree;

static BODY_OR_ROW_NAMES: [&str; 4] = ["tbody", "tfoot", "thead", "tr"];

static COLUMN_GROUP_NAMES: [&str; 1] = ["colgroup"];

static COLUMN_NAMES: [&str; 1] = ["col"];

#[tactic(auto, unfolding(crate::specs::Table::body_or_row_names))]
fn is_body_or_row(tree: &Tree<'_>, number: usize) -> bool
    ensures { result ≡ is_named_at body_or_row_names (rows_in tree.now) number }
{
    is_named_at(&BODY_OR_ROW_NAMES, tree, number)
}

#[tactic(auto, unfolding(crate::specs::Table::column_group_names))]
fn is_column_group(tree: &Tree<'_>, number: usize) -> bool
    ensures { result ≡ is_named_at column_group_names (rows_in tree.now) number }
{
    is_named_at(&COLUMN_GROUP_NAMES, tree, number)
}

#[tactic(auto, unfolding(crate::specs::Table::column_names))]
fn is_column(tree: &Tree<'_>, number: usize) -> bool
    ensures { result ≡ is_named_at column_names (rows_in tree.now) number }
{
    is_named_at(&COLUMN_NAMES, tree, number)
}

// Whether a column group has a column.
fn has_column(tree: &Tree<'_>, group: usize) -> bool
    ensures { let rows = rows_in tree.now in
        result ≡ list_any (is_named_at column_names rows) (children_at rows group) }
{
    for child in tree.children(group) {
        if is_column(tree, child) {
            return true;
        }
    }
    false
}

// So many columns, with those that an element stands for.
fn with_columns(tree: &Tree<'_>, width: u32, number: usize) -> u32
    ensures { result ≡ with_columns (rows_in tree.now) width number }
{
    width.saturating_add(columns_of(tree, number, b"span"))
}

// So many columns, with those of a column group.
fn with_group(tree: &Tree<'_>, width: u32, group: usize) -> u32
    ensures { result ≡ with_group (rows_in tree.now) width group }
{
    if !has_column(tree, group) {
        return with_columns(tree, width, group);
    }
    let mut wide = width;
    for child in tree.children(group) {
        if is_column(tree, child) {
            wide = with_columns(tree, wide, child);
        }
    }
    wide
}

/// How many columns the column groups of a table stand for: those before all rows.
pub(crate) fn first_width(tree: &Tree<'_>, table: usize) -> u32
    ensures { let rows = rows_in tree.now in
        result ≡ with_groups rows 0 (children_at rows table) }
{
    let mut width = 0;
    for child in tree.children(table) {
        if is_body_or_row(tree, child) {
            return width;
        }
        if is_column_group(tree, child) {
            width = with_group(tree, width, child);
        }
    }
    width
}
