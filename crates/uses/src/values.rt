//! The values of an attribute, line by line.
ghost use Rattle.std.specs.Prelude.{IfOk, List, ℕ, ◌≡◌};
ghost use Rattle.tl_tree.specs.TreeView.{rows_in};
ghost use Rattle.tl_tree_select.specs.Meaning.{AreFound};
ghost use Rattle.tl_tree_select.specs.Page.{page_of};
ghost use Rattle.uses.specs.Values.{value_lines};

use std::alloc::{AllocError, Global};
use tl_css::Selector;
use tl_tree::Tree;
use tl_tree_select::select;

/// The values at a key of the elements of a page where a selector holds, in the order of the page,
/// one a line.
pub fn values(
    alloc: Global,
    tree: &Tree<'_>,
    selector: &Selector,
    key: &str,
) -> Result<Vec<u8>, AllocError>
    ensures { IfOk result (λ lines. (ns : List ℕ) × AreFound (page_of tree.now) selector.now ns
        × (lines.items ≡ value_lines key.now (rows_in tree.now) ns)) }
{
    let mut lines = Vec::new(alloc);
    for number in select(alloc, tree, selector)?.iter() {
        if let Some(value) = tree.value(*number, key.as_bytes()) {
            lines.extend_from_slice(value)?;
            lines.push(b'\n')?;
        }
    }
    Ok(lines)
}
