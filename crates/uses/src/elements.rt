//! The markup of elements.
ghost use Rattle.std.specs.Prelude.{IfOk, List, ℕ, ◌≡◌};
ghost use Rattle.tl_dom_spec.specs.HtmlForest.{HtmlForest};
ghost use Rattle.tl_tree.specs.Rows.{rows_of};
ghost use Rattle.tl_tree.specs.TreeView.{rows_in};
ghost use Rattle.tl_tree_select.specs.Meaning.{AreFound};
ghost use Rattle.tl_tree_select.specs.Page.{page_of};
ghost use Rattle.uses.specs.Elements.{element_lines};

use std::alloc::{AllocError, Global};
use tl_css::Selector;
use tl_html_print::write_outer;
use tl_tree::Tree;
use tl_tree_select::select;

/// The markup of each element of a page where a selector holds, in the order of the page, with a
/// line feed behind it.
pub fn elements(alloc: Global, tree: &Tree<'_>, selector: &Selector) -> Result<Vec<u8>, AllocError>
    ensures { (trees : HtmlForest) → rows_in tree.now ≡ rows_of trees → IfOk result (λ lines.
        (ns : List ℕ) × AreFound (page_of tree.now) selector.now ns
        × (lines.items ≡ element_lines trees ns)) }
{
    let mut lines = Vec::new(alloc);
    for number in select(alloc, tree, selector)?.iter() {
        write_outer(tree, *number, false, &mut lines)?;
        lines.push(b'\n')?;
    }
    Ok(lines)
}
