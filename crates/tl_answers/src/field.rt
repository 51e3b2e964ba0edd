//! What is written of a node.
ghost use Rattle.std.specs.Fmt.{decimal};
ghost use Rattle.std.specs.Option.{option_copied};
ghost use Rattle.std.specs.Prelude.{OnOk, ◌++◌, ◌≡◌};
ghost use Rattle.tl_answers.specs.LeftOut.{readable_inside};
ghost use Rattle.tl_answers.specs.Lines.{ended, field_line, is_html_at, line_ended, value_at};
ghost use Rattle.tl_dom_spec.specs.HtmlForest.{HtmlForest};
ghost use Rattle.tl_tree.specs.Rows.{rows_of};
ghost use Rattle.tl_tree.specs.TreeView.{rows_in};
ghost use Rattle.tl_tree_extract.specs.Readable.{readable_below};

use crate::left_out::is_within;
use std::alloc::{AllocError, Global};
use tl_html_print::{write_inner, write_outer};
use tl_tree::{Namespace, Tree};
use tl_tree_extract::text::write_readable_text;

/// The key of an attribute.
#[derive(Clone, Copy)]
pub struct Key<'w> {
    pub written: &'w str,
    /// The same in lower case, as elements of HTML have it.
    pub lower: &'w str,
}

/// What is written of a node.
#[derive(Clone, Copy)]
pub enum Field<'w> {
    /// Its number.
    Number,
    /// Its markup.
    OuterHtml,
    /// The markup of what is inside.
    InnerHtml,
    /// What the texts below it say.
    Text,
    /// Its value at a key, where it has one.
    Value(Key<'w>),
}

/// Whether a node is an element of HTML.
pub(crate) fn is_html_at(tree: &Tree<'_>, number: usize) -> bool
    ensures { result ≡ is_html_at (rows_in tree.now) number }
{
    matches!(tree.namespace(number), Some(Namespace::Html))
}

/// The value of a node at a key.
pub(crate) fn value_at<'t>(tree: &'t Tree<'_>, number: usize, key: Key<'_>) -> Option<&'t [u8]>
    ensures { option_copied result ≡ value_at key.entry (rows_in tree.now) number }
{
    if is_html_at(tree, number) {
        tree.value(number, key.lower.as_bytes())
    } else {
        tree.value(number, key.written.as_bytes())
    }
}

// Writes a number, and what ends it.
fn put_number(alloc: Global, number: usize, end: &str, out: &mut Vec<u8>) -> Result<(), AllocError>
    ensures { OnOk result (out.new.items ≡ out.old.items ++ (decimal number ++ end.now)) }
{
    let text = number.to_string(alloc)?;
    out.extend_from_slice(text.as_bytes())?;
    out.extend_from_slice(end.as_bytes())
}

// Writes a value, if there is one, and what ends it.
fn put_value(value: Option<&[u8]>, end: &str, out: &mut Vec<u8>) -> Result<(), AllocError>
    ensures { OnOk result
        (out.new.items ≡ out.old.items ++ ended end.now (option_copied value.entry)) }
{
    let Some(value) = value else {
        return Ok(());
    };
    out.extend_from_slice(value)?;
    out.extend_from_slice(end.as_bytes())
}

/// Writes a field of a node, and what ends it: nothing where it has no such value.
pub(crate) fn put_line(
    alloc: Global,
    tree: &Tree<'_>,
    number: usize,
    field: Field<'_>,
    end: &str,
    out: &mut Vec<u8>,
) -> Result<(), AllocError>
    ensures { (trees : HtmlForest) → rows_in tree.now ≡ rows_of trees → OnOk result
        (out.new.items ≡ out.old.items ++ field_line field.entry end.now trees number) }
{
    match field {
        Field::Number => put_number(alloc, number, end, out),
        Field::OuterHtml => {
            write_outer(tree, number, false, out)?;
            out.extend_from_slice(end.as_bytes())
        }
        Field::InnerHtml => {
            write_inner(tree, number, false, out)?;
            out.extend_from_slice(end.as_bytes())
        }
        Field::Text => {
            tree.write_text_content(number, out)?;
            out.extend_from_slice(end.as_bytes())
        }
        Field::Value(key) => put_value(value_at(tree, number, key), end, out),
    }
}

// Writes the readable text of what is below a node, but for nodes with a mark, and a line feed if
// there is any.
#[tactic(auto, using(crate::proofs::Ends::ended_none, crate::proofs::Ends::ended_some))]
fn put_readable(
    tree: &Tree<'_>,
    left_out: &[bool],
    number: usize,
    out: &mut Vec<u8>,
) -> Result<(), AllocError>
    ensures { OnOk result (out.new.items
        ≡ out.old.items ++ line_ended (readable_below left_out.now (rows_in tree.now) number)) }
{
    let start = out.len();
    write_readable_text(tree, number, left_out, out)?;
    if out.len() == start {
        return Ok(());
    }
    out.push(b'\n')?;
    Ok(())
}

/// Writes the readable text inside a node, without nodes that have a mark and what is in them, and
/// a line feed if there is any.
pub(crate) fn put_inside(
    tree: &Tree<'_>,
    left_out: &[bool],
    number: usize,
    out: &mut Vec<u8>,
) -> Result<(), AllocError>
    ensures { OnOk result (out.new.items ≡ out.old.items
        ++ line_ended (readable_inside left_out.now (rows_in tree.now) number)) }
{
    if is_within(tree, left_out, number) {
        return Ok(());
    }
    put_readable(tree, left_out, number, out)
}
