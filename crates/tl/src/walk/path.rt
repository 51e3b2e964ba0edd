//! Whether a handle stands on the path of a walk.
//!
//! While the handles of a path rise, the last one tells. The first that doesn't rise makes a mark
//! for each node of the table, so that most walks take no memory for marks and none looks through
//! its path twice.
ghost use Rattle.std.specs.Prelude.{◌≡◌, ◌≢◌, ◌↔◌, ◌<◌, [], OnOk, IfOk, IfErr, IsOk, true, set};
ghost use Rattle.tl_spec.specs.Walk.{stands_on};
ghost use Rattle.tl.specs.Marks.{marks_of, IsAbove, IsKept, MayFollow};
ghost use Rattle.tl.specs.Walker.{path_from};

use crate::errors::TreeError;
use crate::walk::Frame;
use std::alloc::Global;
use tl_table::handle::NodeHandle;

// Sets the mark of a handle, where there are marks.
#[inline(always)]
pub(crate) fn put_mark(marks: &mut Vec<bool>, handle: NodeHandle, mark: bool)
    ensures { marks.new.items ≡ set marks.old.items handle mark }
{
    let place = handle.get_inner() as usize;
    if place < marks.len() {
        marks[place] = mark;
    }
}

// The marks of all frames, among n.
#[inline(never)]
fn all_marks<'s, 'a>(
    alloc: Global,
    n: usize,
    frames: &[Frame<'s, 'a>],
) -> Result<Vec<bool>, TreeError>
    ensures ok { IfOk result (λ v. v.items ≡ marks_of n (path_from [] frames.now)) }
    ensures err { IfErr result (λ e. e ≡ TreeError.OutOfMemory) }
{
    let mut marks = vec![in alloc; false; n]?;
    for frame in frames {
        put_mark(&mut marks, frame.handle, true);
    }
    Ok(marks)
}

// Whether a handle is above that of the last frame.
#[inline(always)]
fn is_above<'s, 'a>(frames: &[Frame<'s, 'a>], handle: NodeHandle) -> bool
    ensures { (result ≡ true) ↔ IsAbove handle (path_from [] frames.now) }
{
    match frames.split_last() {
        Some(last) => last.0.handle.get_inner() < handle.get_inner(),
        None => true,
    }
}

// Whether a handle of the table, which has n nodes, stands on the path of the frames.
#[inline(always)]
pub(crate) fn stands_on_path<'s, 'a>(
    alloc: Global,
    n: usize,
    frames: &[Frame<'s, 'a>],
    marks: &mut Vec<bool>,
    handle: NodeHandle,
) -> Result<bool, TreeError>
    requires kept { IsKept n (path_from [] frames.now) marks.old.items }
    requires in_table { handle < n }
    ensures kept { OnOk result (IsKept n (path_from [] frames.now) marks.new.items) }
    ensures may { OnOk result (MayFollow handle (path_from [] frames.now) marks.new.items) }
    ensures says { IfOk result (λ b. b ≡ stands_on (path_from [] frames.now) handle) }
    ensures err { IfErr result (λ e. e ≡ TreeError.OutOfMemory) }

    // Marks that are there take no memory.
    ensures marked { marks.old.items ≢ [] → IsOk result }
{
    if marks.len() == 0 {
        if is_above(frames, handle) {
            return Ok(false);
        }
        *marks = all_marks(alloc, n, frames)?;
    }
    Ok(marks[handle.get_inner() as usize])
}
