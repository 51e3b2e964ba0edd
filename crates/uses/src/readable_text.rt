//! The text of a page.
ghost use Rattle.std.specs.Prelude.{IfOk, [], ◌≡◌};
ghost use Rattle.tl_tree.specs.TreeView.{rows_in};
ghost use Rattle.tl_tree_extract.specs.Readable.{readable_rows};

use std::alloc::{AllocError, Global};
use tl_tree::Tree;
use tl_tree_extract::text::write_readable_document;

/// The text of a page, line by line: blocks stand on lines of their own, and scripts, styles and
/// comments are left out.
pub fn readable_text(alloc: Global, tree: &Tree<'_>) -> Result<Vec<u8>, AllocError>
    ensures { IfOk result (λ text. text.items ≡ readable_rows [] (rows_in tree.now)) }
{
    let mut text = Vec::new(alloc);
    write_readable_document(tree, &[], &mut text)?;
    Ok(text)
}
