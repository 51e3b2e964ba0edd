//! Prints of a tree.
ghost use Rattle.std.specs.Prelude.{None, OnOk, ◌++◌, ◌≡◌};
ghost use Rattle.tl_dom_spec.specs.HtmlForest.{HtmlForest};
ghost use Rattle.tl_html_print.specs.Places.{inner_at, outer_at};
ghost use Rattle.tl_html_print.specs.Serialized.{serialized};
ghost use Rattle.tl_tree.specs.Rows.{rows_of};
ghost use Rattle.tl_tree.specs.TreeView.{rows_in};

use crate::element::is_void;
use crate::rows::write_rows;
use std::alloc::AllocError;
use tl_tree::Tree;

/// Writes a node with what is below it, as `outerHTML` has it: nothing where there is no such node.
pub fn write_outer(
    tree: &Tree<'_>,
    number: usize,
    is_scripting: bool,
    out: &mut Vec<u8>,
) -> Result<(), AllocError>
    ensures { (trees : HtmlForest) → rows_in tree.now ≡ rows_of trees →
        OnOk result (out.new.items ≡ out.old.items ++ outer_at is_scripting trees number) }
{
    let Some(end) = tree.end(number) else {
        return Ok(());
    };
    write_rows(tree, number, end, is_scripting, out)
}

/// Writes what is below a node, as `innerHTML` has it.
pub fn write_inner(
    tree: &Tree<'_>,
    number: usize,
    is_scripting: bool,
    out: &mut Vec<u8>,
) -> Result<(), AllocError>
    ensures { (trees : HtmlForest) → rows_in tree.now ≡ rows_of trees →
        OnOk result (out.new.items ≡ out.old.items ++ inner_at is_scripting trees number) }
{
    if is_void(tree, number) {
        return Ok(());
    }
    let Some(first) = tree.first_child(number) else {
        return Ok(());
    };
    let Some(end) = tree.end(number) else {
        return Ok(());
    };
    write_rows(tree, first, end, is_scripting, out)
}

/// Writes all of a tree. What stands in no element is written as in a document, also where the
/// tree is of a fragment that was read in an element whose texts have no markup.
pub fn write_document(
    tree: &Tree<'_>,
    is_scripting: bool,
    out: &mut Vec<u8>,
) -> Result<(), AllocError>
    ensures { (trees : HtmlForest) → rows_in tree.now ≡ rows_of trees →
        OnOk result (out.new.items ≡ out.old.items ++ serialized is_scripting None trees) }
{
    write_rows(tree, 0, tree.len(), is_scripting, out)
}
