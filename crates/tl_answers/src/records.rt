//! Values of nodes in columns.
ghost use Rattle.std.specs.Prelude.{IfOk, List, if◌then◌else◌, map, ℕ, ◌≡◌};
ghost use Rattle.tl_answers.specs.Findings.{finding_of, listed};
ghost use Rattle.tl_answers.specs.Lines.{is_html_at};
ghost use Rattle.tl_answers.specs.Records.{record_lines, values_by};
ghost use Rattle.tl_tree.specs.Rows.{Row};
ghost use Rattle.tl_tree.specs.TreeView.{rows_in};
ghost use Rattle.tl_tree_extract.specs.Fields.{field_said};

use crate::field::{Key, is_html_at};
use crate::output::Output;
use std::alloc::{AllocError, Global};
use tl_tree::Tree;
use tl_tree_extract::{Columns, Field, write_fields};

/// What is written of each node: a line of values in columns.
#[derive(Clone, Copy)]
pub struct Records<'w> {
    /// Its value at each of these keys, or nothing where it has none.
    pub keys: &'w [Key<'w>],
    /// Then the readable text below it, on one line.
    pub has_text: bool,
    pub columns: Columns,
}

// What is asked of an element of HTML, or of another one.
fn fields_of<'w>(
    alloc: Global,
    own: Records<'w>,
    is_html: bool,
) -> Result<Vec<Field<'w>>, AllocError>
    ensures { IfOk result (λ fields. (rows : List Row) (n : ℕ) →
        map (field_said rows n) fields.items
        ≡ values_by is_html own.entry.keys.now own.entry.has_text rows n) }
{
    let mut fields = Vec::new(alloc);
    for key in own.keys {
        let spelled = if is_html { key.lower } else { key.written };
        fields.push(Field::Attribute(spelled.as_bytes()))?;
    }
    if own.has_text {
        fields.push(Field::Text)?;
    }
    Ok(fields)
}

// What is asked of a node, of these two.
fn fields_at<'f, 'w>(
    tree: &Tree<'_>,
    number: usize,
    html: &'f [Field<'w>],
    other: &'f [Field<'w>],
) -> &'f [Field<'w>]
    ensures { result.now ≡ (if is_html_at (rows_in tree.now) number then html.now else other.now) }
{
    if is_html_at(tree, number) {
        html
    } else {
        other
    }
}

/// A line for each of these nodes.
pub(crate) fn record_lines(
    alloc: Global,
    tree: &Tree<'_>,
    numbers: &[usize],
    own: Records<'_>,
) -> Result<Output, AllocError>
    ensures { IfOk result (λ lines. finding_of lines
        ≡ listed (record_lines own.entry (rows_in tree.now) numbers.now)) }
{
    let html = fields_of(alloc, own, true)?;
    let other = fields_of(alloc, own, false)?;
    let mut lines = Vec::new(alloc);
    for number in numbers {
        let fields = fields_at(tree, *number, &html, &other);
        write_fields(alloc, tree, &[*number], fields, own.columns, &mut lines)?;
    }
    Ok(Output::from_lines(lines))
}
