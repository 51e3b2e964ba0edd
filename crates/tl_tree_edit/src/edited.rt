//! Whether one tree is another one with edits made.
ghost use Rattle.std.specs.Bool.{IsTrue};
ghost use Rattle.std.specs.Prelude.{IfOk, ◌≡◌, ◌↔◌};
ghost use Rattle.tl_tree.specs.TreeView.{rows_in};
ghost use Rattle.tl_tree_edit.specs.Changes.{edited};
ghost use Rattle.tl_tree_edit.specs.Events.{events};
ghost use Rattle.tl_tree_edit.specs.View.{edits_of};

use crate::change::Edit;
use crate::walk::Walk;
use std::alloc::{AllocError, Global};
use tl_tree::Tree;

/// Whether one tree says what another one says once it is edited.
///
/// The edits are in the order of their numbers; one that isn't is passed over, as is one of a
/// number of no element, and all in an element that goes. Nodes are compared without where in
/// their pages they come from.
pub fn is_edited(
    alloc: Global,
    old: &Tree<'_>,
    edits: &[Edit<'_, '_>],
    new: &Tree<'_>,
) -> Result<bool, AllocError>
    ensures { IfOk result (λ is. IsTrue is
        ↔ events (rows_in new.now) ≡ edited (edits_of edits.now) (rows_in old.now)) }
{
    let mut walk = Walk::new(alloc, edits, new);
    for number in 0..old.len() {
        if !walk.row(old, number)? {
            return Ok(false);
        }
    }
    walk.is_over(old)
}
