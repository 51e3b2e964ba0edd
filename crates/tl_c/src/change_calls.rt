//! The calls that change the page of a document.
ghost use Rattle.std.specs.Prelude.{◌≡◌, false};
ghost use Rattle.tl_c.specs.NodeChanges.{AreHeldRefused, PutsMade, are_changes};
ghost use Rattle.tl_c.specs.NodeEdits.{AreHeldNotDone, PutsDone, are_edits};

use crate::copy_out::copy_result;
use crate::document::Document;
use crate::lent_change::LentChange;
use crate::lent_edit::LentEdit;
use crate::node_edit::edit_held;
use crate::node_patch::patch_held;
use std::alloc::Global;

/// Prints the page of a document with these changes of the start tags of its nodes, in any order,
/// and with each other byte as it was: a key is set (0) or unset (1) in the tag of a node. Several
/// of one tag are made one after the other. The page is the one that was read, which isn't looked
/// at. Another number is not understood. Where a tag can't be changed that is refused: `place` is
/// where it stands in the page, and `cause` the number of why in `tl.h`; else both are 0.
#[unsafe(no_mangle)]
pub extern "C" fn tl_patch_nodes(
    alloc: Global,
    document: &mut Document,
    page: &[u8],
    changes: &[LentChange<'_>],
    out: &mut [u8],
    needed: &mut usize,
    place: &mut usize,
    cause: &mut u8,
) -> u8
    ensures same { document.new.held ≡ document.old.held }
    ensures made { PutsMade changes.now document.old.held page.now out.old out.new
        needed.new result }
    ensures done { result ≡ 0 → (place.new ≡ 0) × (cause.new ≡ 0) }

    // Where and why nothing can be changed so.
    ensures refused { result ≡ 1 →
        AreHeldRefused changes.now document.old.held page.now place.new cause.new }

    // When a number asks for no change.
    ensures understood { result ≡ 2 → are_changes changes.now ≡ false }
{
    let held = document.replace(alloc, None);
    let patched = patch_held(alloc, &held, page, changes, place, cause);
    let _nothing = document.replace(alloc, held);
    copy_result(patched, out, needed)
}

/// Prints the page of a document with these patches of the elements that are its nodes, in any
/// order, and with each other byte as it was: each as `tl_edit_css` makes it of those where a
/// selector holds. The page is the one that was read, which isn't looked at. Numbers that ask for
/// no patch are not understood. Where an element can't be changed that is refused: `place` is where
/// it stands in the page, and `cause` the number of why in `tl.h`; else both are 0.
#[unsafe(no_mangle)]
pub extern "C" fn tl_edit_nodes(
    alloc: Global,
    document: &mut Document,
    page: &[u8],
    edits: &[LentEdit<'_>],
    out: &mut [u8],
    needed: &mut usize,
    place: &mut usize,
    cause: &mut u8,
) -> u8
    ensures same { document.new.held ≡ document.old.held }
    ensures made { PutsDone edits.now document.old.held page.now out.old out.new
        needed.new result }
    ensures done { result ≡ 0 → (place.new ≡ 0) × (cause.new ≡ 0) }

    // Where and why nothing can be changed so.
    ensures refused { result ≡ 1 →
        AreHeldNotDone edits.now document.old.held page.now place.new cause.new }

    // When numbers ask for no patch.
    ensures understood { result ≡ 2 → are_edits edits.now ≡ false }
{
    let held = document.replace(alloc, None);
    let edited = edit_held(alloc, &held, page, edits, place, cause);
    let _nothing = document.replace(alloc, held);
    copy_result(edited, out, needed)
}
