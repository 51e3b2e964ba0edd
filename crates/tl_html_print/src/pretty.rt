//! A tree printed with a tag on each line where white space doesn't count.
ghost use Rattle.std.specs.Prelude.{OnOk, ◌++◌, ◌≡◌};
ghost use Rattle.tl_dom_spec.specs.HtmlForest.{HtmlForest};
ghost use Rattle.tl_html_print.specs.Pretty.{pretty};
ghost use Rattle.tl_tree.specs.Rows.{rows_of};
ghost use Rattle.tl_tree.specs.TreeView.{rows_in};

mod examples;
mod spot;
mod stand;
mod walk;

use crate::pretty::walk::write_lines;
use std::alloc::AllocError;
use tl_tree::Tree;

/// Writes all of a tree, with a tag on each line where white space doesn't count.
///
/// A line is indented by two spaces for each element around it that is broken over lines, but for
/// 40 of them at most. The last line ends with a line feed, but behind a text, or a body in which
/// nothing is, since that would be read as a part of it. Each text but white space stays as it is.
pub fn write_pretty(
    tree: &Tree<'_>,
    is_scripting: bool,
    out: &mut Vec<u8>,
) -> Result<(), AllocError>
    ensures { (trees : HtmlForest) → rows_in tree.now ≡ rows_of trees →
        OnOk result (out.new.items ≡ out.old.items ++ pretty is_scripting trees) }
{
    write_lines(tree, is_scripting, out)
}
