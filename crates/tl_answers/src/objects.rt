//! Nodes as JSON.
ghost use Rattle.std.specs.Prelude.{IfOk, Some, ◌≡◌};
ghost use Rattle.tl_answers.specs.Findings.{finding_of, listed, of_nodes};
ghost use Rattle.tl_answers.specs.Objects.{array_line};
ghost use Rattle.tl_tree.specs.Sources.{source_at};
ghost use Rattle.tl_tree.specs.TreeView.{rows_in};
ghost use Rattle.tl_tree_extract.specs.Json.{json_lines};

use crate::output::Output;
use std::alloc::{AllocError, Global};
use tl_tree::Tree;
use tl_tree_extract::{JsonForm, write_json_array, write_json_lines};

/// An array of the objects of the nodes of these numbers, and what ends it.
pub(crate) fn object_array(
    alloc: Global,
    tree: &Tree<'_>,
    numbers: &[usize],
    form: JsonForm,
    end: &str,
) -> Result<Output, AllocError>
    ensures { IfOk result (λ output. finding_of output ≡ of_nodes numbers.now
        (array_line form end.now (source_at tree.now) (rows_in tree.now) numbers.now)) }
{
    let mut text = Vec::new(alloc);
    write_json_array(alloc, tree, numbers, form, &mut text)?;
    text.extend_from_slice(end.as_bytes())?;
    Ok(Output::of_nodes(numbers, text))
}

/// The object of each node of these numbers on a line of its own, which says its file.
pub(crate) fn object_lines(
    alloc: Global,
    tree: &Tree<'_>,
    numbers: &[usize],
    form: JsonForm,
    file: &str,
) -> Result<Output, AllocError>
    ensures { IfOk result (λ output. finding_of output ≡ listed
        (json_lines form (Some file.now) (source_at tree.now) (rows_in tree.now) numbers.now)) }
{
    let mut lines = Vec::new(alloc);
    write_json_lines(alloc, tree, numbers, form, Some(file), &mut lines)?;
    Ok(Output::from_lines(lines))
}
