//! Fields of nodes, each with its place in front.
ghost use Rattle.std.specs.Prelude.{IfOk, OnOk, length, ◌++◌, ◌≡◌};
ghost use Rattle.tl_answers.specs.Findings.{finding_of, listed};
ghost use Rattle.tl_answers.specs.Places.{has_field, place_at, place_words, placed_line, placed_lines};
ghost use Rattle.tl_dom_spec.specs.HtmlForest.{HtmlForest};
ghost use Rattle.tl_tree.specs.Rows.{rows_of};
ghost use Rattle.tl_tree.specs.Sources.{source_at};
ghost use Rattle.tl_tree.specs.TreeView.{rows_in};

use crate::field::{Field, put_line, value_at};
use crate::output::Output;
use std::alloc::{AllocError, Global};
use tl_lines::LineIndex;
use tl_tree::Tree;

// Where a node of a page of so many bytes begins, or what stands behind it where the standard puts
// it in.
fn place_of(tree: &Tree<'_>, size: usize, number: usize) -> usize
    ensures { result ≡ place_at (source_at tree.now) size (rows_in tree.now) number }
{
    for node in number..tree.len() {
        if let Some(source) = tree.source(node) {
            return source.start;
        }
    }
    size
}

// Writes the line and the column of a place.
fn put_place(
    alloc: Global,
    lines: &LineIndex<'_>,
    place: usize,
    out: &mut Vec<u8>,
) -> Result<(), AllocError>
    ensures { OnOk result (out.new.items ≡ out.old.items ++ place_words lines.now place) }
{
    let position = lines.position(place);
    out.extend_from_slice(position.line.to_string(alloc)?.as_bytes())?;
    out.push(b':')?;
    out.extend_from_slice(position.column.to_string(alloc)?.as_bytes())?;
    out.push(b':')?;
    Ok(())
}

// Whether there is something to be written of a node.
fn has_field(tree: &Tree<'_>, number: usize, field: Field<'_>) -> bool
    ensures { result ≡ has_field field.entry (rows_in tree.now) number }
{
    match field {
        Field::Value(key) => value_at(tree, number, key).is_some(),
        _ => true,
    }
}

// Writes a field of a node of a page of so many bytes behind its place, if there is one.
fn put_placed(
    alloc: Global,
    tree: &Tree<'_>,
    lines: &LineIndex<'_>,
    size: usize,
    number: usize,
    field: Field<'_>,
    end: &str,
    out: &mut Vec<u8>,
) -> Result<(), AllocError>
    requires { size ≡ length lines.now }
    ensures { (trees : HtmlForest) → rows_in tree.now ≡ rows_of trees → OnOk result
        (out.new.items ≡ out.old.items
        ++ placed_line field.entry end.now trees (source_at tree.now) lines.now number) }
{
    if !has_field(tree, number, field) {
        return Ok(());
    }
    put_place(alloc, lines, place_of(tree, size, number), out)?;
    put_line(alloc, tree, number, field, end, out)
}

/// The fields of the nodes of these numbers, each behind its place in the page and with what ends
/// it.
pub(crate) fn placed_lines(
    alloc: Global,
    tree: &Tree<'_>,
    page: &[u8],
    numbers: &[usize],
    field: Field<'_>,
    end: &str,
) -> Result<Output, AllocError>
    ensures { (trees : HtmlForest) → rows_in tree.now ≡ rows_of trees → IfOk result (λ lines.
        finding_of lines ≡ listed
        (placed_lines field.entry end.now trees (source_at tree.now) page.now numbers.now)) }
{
    let index = LineIndex::new(alloc, page)?;
    let mut lines = Vec::new(alloc);
    for number in numbers {
        put_placed(
            alloc,
            tree,
            &index,
            page.len(),
            *number,
            field,
            end,
            &mut lines,
        )?;
    }
    Ok(Output::from_lines(lines))
}
