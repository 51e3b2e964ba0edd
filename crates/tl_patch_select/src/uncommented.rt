//! A page without comments of its tree.
ghost use Rattle.std.specs.Prelude.{IfErr, IfOk};
ghost use Rattle.tl_patch_select.specs.Uncommented.{AreUncommented, IsCommentReason};

use crate::patched::Patched;
use crate::selected::places_in_order;
use std::alloc::Global;
use tl_patch_edit::{CommentError, without_comments};
use tl_tree::Tree;

/// The page without the comments that are these nodes of its tree, and with each other byte. Each
/// has to be a comment by the tokenizer by itself, too.
pub fn uncomment_nodes(
    alloc: Global,
    page: &[u8],
    tree: &Tree<'_>,
    numbers: &[usize],
) -> Result<Patched, CommentError>
    ensures uncommented { IfOk result (λ p.
        AreUncommented numbers.now tree.now page.now p.bytes.items p.places.items) }
    ensures refused { IfErr result (IsCommentReason numbers.now tree.now page.now) }
{
    let places = places_in_order(alloc, tree, numbers)?;
    let bytes = without_comments(alloc, page, places.as_slice())?;
    Ok(Patched { bytes, places })
}
