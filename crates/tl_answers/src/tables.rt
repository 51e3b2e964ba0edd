//! Tables of a page.
ghost use Rattle.std.specs.Option.{option_copied};
ghost use Rattle.std.specs.Prelude.{Err, IfErr, IfOk, List, OnOk, Some, filter, length, ◌++◌, ◌<◌, ◌≡◌, ◌≤◌, ◌∷◌, ℕ};
ghost use Rattle.tl_answers.specs.Findings.{finding_of};
ghost use Rattle.tl_answers.specs.Inner.Tables.{IsTableReason, IsTextReason, IsTooLong};
ghost use Rattle.tl_answers.specs.LeftOut.{AreLeftOut};
ghost use Rattle.tl_answers.specs.Tables.{Fit, asked_tables, gap, is_table_at, later_text, numbered, start_of, table_limit, table_text, tables_found, tables_of, tables_text, tables_within};
ghost use Rattle.tl_answers.specs.declared.error.AnswerError.TheVariants.{LargeTable};
ghost use Rattle.tl_tree.specs.Sources.{source_at};
ghost use Rattle.tl_tree.specs.TreeView.{rows_in};
ghost use Rattle.tl_tree_extract.specs.Boxes.{is_left_out};
ghost use Rattle.tl_tree_extract.specs.declared.table_error.TableError.TheVariants.{TooLong};
ghost use Rattle.tl_tree_select.specs.Meaning.{AreFound};
ghost use Rattle.tl_tree_select.specs.Page.{page_of};

use crate::document::document_element;
use crate::error::AnswerError;
use crate::field::is_html_at;
use crate::left_out::{has_mark, within};
use crate::output::Output;
use std::alloc::{AllocError, Global};
use tl_css::Selector;
use tl_tree::Tree;
use tl_tree_extract::{Columns, Spans, TableError, write_table, write_table_line};

/// How a table is written.
#[derive(Clone, Copy)]
pub enum TableForm<'w> {
    /// A line for each row, with a value for each slot. Between two tables stands an empty line.
    Sheet(Columns),
    /// A line of JSON, which says the file where one is given.
    Json(Option<&'w str>),
}

/// Which tables of a page are written, and how.
#[derive(Clone, Copy)]
pub struct TableQuery<'w> {
    /// The nodes that are meant, with the tables in them; those of the whole page where it isn't
    /// said.
    pub within: Option<&'w Selector>,
    /// The number of the one that is meant among these, from 0; all where it isn't said.
    pub number: Option<usize>,
    pub form: TableForm<'w>,
    pub spans: Spans,
}

// Whether a node is a `table` of HTML.
fn is_table_at(tree: &Tree<'_>, number: usize) -> bool
    ensures { result ≡ is_table_at (rows_in tree.now) number }
{
    match tree.name(number) {
        Some(name) => is_html_at(tree, number) && name == b"table".as_slice(),
        None => false,
    }
}

// The numbers of the tables of a page, in order.
#[tactic(auto, using(crate::proofs::Tabled::kept_next, crate::proofs::Tabled::passed_next))]
fn tables_of(alloc: Global, tree: &Tree<'_>) -> Result<Vec<usize>, AllocError>
    ensures { IfOk result (λ tables. tables.items ≡ tables_of (rows_in tree.now)) }
{
    let mut tables = Vec::new(alloc);
    let Some(root) = document_element(tree) else {
        return Ok(tables);
    };
    for node in tree.elements_below(root) {
        if is_table_at(tree, node) {
            tables.push(node)?;
        }
    }
    Ok(tables)
}

// Leaves out the tables that have no mark.
fn keep_marked(tables: &mut Vec<usize>, marks: &[bool])
    ensures { tables.new.items ≡ filter (is_left_out marks.now) tables.old.items }
{
    tables.retain(|table| has_mark(marks, *table));
}

// The numbers of the tables that match a selector, or are in what does.
fn tables_inside(
    alloc: Global,
    tree: &Tree<'_>,
    selector: &Selector,
) -> Result<Vec<usize>, AllocError>
    ensures { (found : List ℕ) → AreFound (page_of tree.now) selector.now found → IfOk result
        (λ tables. tables.items ≡ tables_within (Some selector.now) (rows_in tree.now) found) }
{
    let mut tables = tables_of(alloc, tree)?;
    let marks = within(alloc, tree, selector)?;
    keep_marked(&mut tables, marks.as_slice());
    Ok(tables)
}

// The numbers of the tables that are meant.
fn tables_within(
    alloc: Global,
    tree: &Tree<'_>,
    selector: Option<&Selector>,
) -> Result<Vec<usize>, AllocError>
    ensures { (found : List ℕ) → let selector = option_copied selector.entry in
        AreLeftOut selector (page_of tree.now) found → IfOk result
        (λ tables. tables.items ≡ tables_within selector (rows_in tree.now) found) }
{
    match selector {
        Some(selector) => tables_inside(alloc, tree, selector),
        None => tables_of(alloc, tree),
    }
}

// The one of a number, or all.
#[tactic(auto, using(crate::proofs::Tabled::none_behind))]
fn numbered(tables: &[usize], number: Option<usize>) -> &[usize]
    ensures { result.now ≡ numbered number tables.now }
{
    match number {
        Some(number) if number < tables.len() => &tables[number..number + 1],
        Some(_) => &[],
        None => tables,
    }
}

// The most bytes that the text of tables may have, of a page of so many.
fn table_limit(size: usize) -> usize
    ensures { result ≡ table_limit size }
{
    size.saturating_mul(64).saturating_add(65536)
}

// Where the start tag of a node begins, or 0 where none stands for it.
fn start_of(tree: &Tree<'_>, number: usize) -> usize
    ensures { result ≡ start_of (source_at tree.now number) }
{
    match tree.source(number) {
        Some(source) => source.start,
        None => 0,
    }
}

// Writes the text of a table, of so many bytes at most.
fn put_text(
    alloc: Global,
    tree: &Tree<'_>,
    query: TableQuery<'_>,
    number: usize,
    most: usize,
    text: &mut Vec<u8>,
) -> Result<(), TableError>
    ensures written { OnOk result (text.new.items ≡ text.old.items
        ++ table_text query.entry.form query.entry.spans (rows_in tree.now) number) }
    ensures within { OnOk result
        (length (table_text query.entry.form query.entry.spans (rows_in tree.now) number)
        ≤ most) }
    ensures long { result ≡ Err TooLong → most
        < length (table_text query.entry.form query.entry.spans (rows_in tree.now) number) }
{
    match query.form {
        TableForm::Sheet(columns) => {
            write_table(alloc, tree, number, columns, query.spans, most, text)
        }
        TableForm::Json(file) => {
            write_table_line(alloc, tree, number, query.spans, file, most, text)
        }
    }
}

// Why a table isn't written.
fn too_large(tree: &Tree<'_>, number: usize) -> AnswerError
    ensures { result ≡ LargeTable (start_of (source_at tree.now number)) }
{
    AnswerError::LargeTable {
        at: start_of(tree, number),
    }
}

// Writes a table, where there may be so many bytes at most with it.
#[tactic(auto, using(crate::proofs::Tabled::full_before, crate::proofs::Tabled::too_long, crate::proofs::Tabled::fits_behind))]
fn put_table(
    alloc: Global,
    tree: &Tree<'_>,
    query: TableQuery<'_>,
    number: usize,
    most: usize,
    text: &mut Vec<u8>,
) -> Result<(), AnswerError>
    ensures written { OnOk result (text.new.items ≡ text.old.items
        ++ table_text query.entry.form query.entry.spans (rows_in tree.now) number) }
    ensures within { OnOk result (length text.new.items ≤ most) }
    ensures told { IfErr result (IsTooLong most (text.old.items
        ++ table_text query.entry.form query.entry.spans (rows_in tree.now) number)
        (source_at tree.now number)) }
{
    if text.len() > most {
        return Err(too_large(tree, number));
    }
    let left = most - text.len();
    match put_text(alloc, tree, query, number, left, text) {
        Ok(()) => Ok(()),
        Err(TableError::TooLong) => Err(too_large(tree, number)),
        Err(TableError::OutOfMemory) => Err(AnswerError::OutOfMemory),
    }
}

// Writes what stands between two tables.
fn put_gap(form: TableForm<'_>, text: &mut Vec<u8>) -> Result<(), AllocError>
    ensures { OnOk result (text.new.items ≡ text.old.items ++ gap form.entry) }
{
    match form {
        TableForm::Sheet(_) => {
            text.push(b'\n')?;
            Ok(())
        }
        TableForm::Json(_) => Ok(()),
    }
}

// Writes a table behind another one, where there may be so many bytes at most with it.
fn put_later(
    alloc: Global,
    tree: &Tree<'_>,
    query: TableQuery<'_>,
    number: usize,
    most: usize,
    text: &mut Vec<u8>,
) -> Result<(), AnswerError>
    ensures written { OnOk result (text.new.items ≡ text.old.items
        ++ later_text query.entry.form query.entry.spans (rows_in tree.now) number) }
    ensures within { OnOk result (length text.new.items ≤ most) }
    ensures told { IfErr result (IsTooLong most (text.old.items
        ++ later_text query.entry.form query.entry.spans (rows_in tree.now) number)
        (source_at tree.now number)) }
{
    put_gap(query.form, text)?;
    put_table(alloc, tree, query, number, most, text)
}

// The text of a table of a page of so many bytes, and of those behind it.
fn text_from(
    alloc: Global,
    tree: &Tree<'_>,
    query: TableQuery<'_>,
    first: usize,
    later: &[usize],
    size: usize,
) -> Result<Vec<u8>, AnswerError>
    ensures made { IfOk result (λ text. text.items ≡ tables_text query.entry.form
        query.entry.spans (rows_in tree.now) (first ∷ later.now)) }
    ensures fit { OnOk result (Fit size query.entry (rows_in tree.now) (first ∷ later.now)) }
    ensures told { IfErr result (IsTextReason size query.entry (rows_in tree.now)
        (source_at tree.now) (first ∷ later.now)) }
{
    let most = table_limit(size);
    let mut text = Vec::new(alloc);
    put_table(alloc, tree, query, first, most, &mut text)?;
    for number in later {
        put_later(alloc, tree, query, *number, most, &mut text)?;
    }
    Ok(text)
}

// The text of tables of a page of so many bytes.
fn text_of(
    alloc: Global,
    tree: &Tree<'_>,
    query: TableQuery<'_>,
    tables: &[usize],
    size: usize,
) -> Result<Vec<u8>, AnswerError>
    ensures made { IfOk result (λ text. text.items
        ≡ tables_text query.entry.form query.entry.spans (rows_in tree.now) tables.now) }
    ensures fit { OnOk result (Fit size query.entry (rows_in tree.now) tables.now) }
    ensures told { IfErr result
        (IsTextReason size query.entry (rows_in tree.now) (source_at tree.now) tables.now) }
{
    match tables {
        [first, later @ ..] => text_from(alloc, tree, query, *first, later, size),
        [] => Ok(Vec::new(alloc)),
    }
}

/// The tables of a page of so many bytes that are asked for; nothing is found where there is none.
pub(crate) fn table_lines(
    alloc: Global,
    tree: &Tree<'_>,
    query: TableQuery<'_>,
    size: usize,
) -> Result<Output, AnswerError>
    // By the numbers of the nodes where its selector holds, if it has one.
    ensures made { (found : List ℕ) →
        AreLeftOut (option_copied query.entry.within) (page_of tree.now) found → IfOk result
        (λ output. finding_of output ≡ tables_found query.entry (rows_in tree.now)
        (asked_tables (rows_in tree.now) query.entry found)) }
    ensures fit { (found : List ℕ) →
        AreLeftOut (option_copied query.entry.within) (page_of tree.now) found → OnOk result
        (Fit size query.entry (rows_in tree.now)
        (asked_tables (rows_in tree.now) query.entry found)) }
    ensures told { IfErr result
        (IsTableReason size query.entry (page_of tree.now) (source_at tree.now)) }
{
    let tables = tables_within(alloc, tree, query.within)?;
    let asked = numbered(tables.as_slice(), query.number);
    let text = text_of(alloc, tree, query, asked, size)?;
    Ok(Output::of_nodes(asked, text))
}
