//! Answers of a tree, each with what ends it.
ghost use Rattle.std.specs.Prelude.{IfOk, OnOk, ◌++◌, ◌≡◌};
ghost use Rattle.tl_answers.specs.Findings.{finding_of, listed, number_line, of_nodes};
ghost use Rattle.tl_answers.specs.Lines.{comment_lines, comments_inside, field_lines, readable_lines};
ghost use Rattle.tl_dom_spec.specs.HtmlForest.{HtmlForest};
ghost use Rattle.tl_tree.specs.Rows.{rows_of};
ghost use Rattle.tl_tree.specs.TreeView.{rows_in};
ghost use Rattle.tl_tree_extract.specs.Marks.{comments_of};

use crate::field::{Field, put_inside, put_line};
use crate::output::Output;
use std::alloc::{AllocError, Global};
use tl_tree::Tree;
use tl_tree_extract::{comments, comments_below};

/// The fields of the nodes of these numbers, each with what ends it.
pub(crate) fn field_lines(
    alloc: Global,
    tree: &Tree<'_>,
    numbers: &[usize],
    field: Field<'_>,
    end: &str,
) -> Result<Output, AllocError>
    ensures { (trees : HtmlForest) → rows_in tree.now ≡ rows_of trees → IfOk result (λ lines.
        finding_of lines ≡ listed (field_lines field.entry end.now trees numbers.now)) }
{
    let mut lines = Vec::new(alloc);
    for number in numbers {
        put_line(alloc, tree, *number, field, end, &mut lines)?;
    }
    Ok(Output::from_lines(lines))
}

/// The readable texts inside the nodes of these numbers, but for nodes with a mark.
pub(crate) fn readable_lines(
    alloc: Global,
    tree: &Tree<'_>,
    left_out: &[bool],
    numbers: &[usize],
) -> Result<Output, AllocError>
    ensures { IfOk result (λ lines. finding_of lines ≡ of_nodes numbers.now
        (readable_lines left_out.now (rows_in tree.now) numbers.now)) }
{
    let mut lines = Vec::new(alloc);
    for number in numbers {
        put_inside(tree, left_out, *number, &mut lines)?;
    }
    Ok(Output::of_nodes(numbers, lines))
}

/// How many nodes there are.
pub(crate) fn count_line(alloc: Global, number: usize, end: &str) -> Result<Output, AllocError>
    ensures { IfOk result (λ line. finding_of line ≡ number_line end.now number) }
{
    let mut text = number.to_string(alloc)?;
    text.push_str(end)?;
    Ok(Output {
        bytes: text.into_bytes(),
        is_found: number > 0,
    })
}

// Writes what the comments of these numbers say, each with what ends it.
fn put_comments(
    tree: &Tree<'_>,
    comments: &[usize],
    end: &str,
    out: &mut Vec<u8>,
) -> Result<(), AllocError>
    ensures { OnOk result (out.new.items
        ≡ out.old.items ++ comment_lines end.now (rows_in tree.now) comments.now) }
{
    for number in comments {
        out.extend_from_slice(tree.text(*number).unwrap_or(b""))?;
        out.extend_from_slice(end.as_bytes())?;
    }
    Ok(())
}

/// The comments of a page.
pub(crate) fn document_comments(
    alloc: Global,
    tree: &Tree<'_>,
    end: &str,
) -> Result<Output, AllocError>
    ensures { let rows = rows_in tree.now in IfOk result (λ lines.
        finding_of lines ≡ listed (comment_lines end.now rows (comments_of rows))) }
{
    let mut lines = Vec::new(alloc);
    let found = comments(alloc, tree)?;
    put_comments(tree, &found, end, &mut lines)?;
    Ok(Output::from_lines(lines))
}

/// The comments below the nodes of these numbers.
pub(crate) fn comments_inside(
    alloc: Global,
    tree: &Tree<'_>,
    numbers: &[usize],
    end: &str,
) -> Result<Output, AllocError>
    ensures { IfOk result (λ lines. finding_of lines
        ≡ listed (comments_inside end.now (rows_in tree.now) numbers.now)) }
{
    let mut lines = Vec::new(alloc);
    for number in numbers {
        let found = comments_below(alloc, tree, *number)?;
        put_comments(tree, &found, end, &mut lines)?;
    }
    Ok(Output::from_lines(lines))
}
