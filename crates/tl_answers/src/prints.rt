//! Prints of a page.
ghost use Rattle.std.specs.Prelude.{IfOk, None, false, ◌≡◌};
ghost use Rattle.tl_answers.specs.Findings.{finding_of, whole};
ghost use Rattle.tl_dom_spec.specs.HtmlForest.{HtmlForest};
ghost use Rattle.tl_html_print.specs.Pretty.{pretty};
ghost use Rattle.tl_html_print.specs.Serialized.{serialized};
ghost use Rattle.tl_tree.specs.Rows.{rows_of};
ghost use Rattle.tl_tree.specs.TreeView.{rows_in};

use crate::output::Output;
use std::alloc::{AllocError, Global};
use tl_html_print::{write_document, write_pretty};
use tl_tree::Tree;

/// The print of a page.
pub(crate) fn print(alloc: Global, tree: &Tree<'_>) -> Result<Output, AllocError>
    ensures { (trees : HtmlForest) → rows_in tree.now ≡ rows_of trees → IfOk result (λ print.
        finding_of print ≡ whole (serialized false None trees)) }
{
    let mut text = Vec::new(alloc);
    write_document(tree, false, &mut text)?;
    Ok(Output::whole(text))
}

/// The print of a page with a tag on each line where white space doesn't count.
pub(crate) fn pretty_print(alloc: Global, tree: &Tree<'_>) -> Result<Output, AllocError>
    ensures { (trees : HtmlForest) → rows_in tree.now ≡ rows_of trees → IfOk result (λ print.
        finding_of print ≡ whole (pretty false trees)) }
{
    let mut text = Vec::new(alloc);
    write_pretty(tree, false, &mut text)?;
    Ok(Output::whole(text))
}
