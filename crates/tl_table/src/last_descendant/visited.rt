//! The way along last children, with a mark at each number that it passes.
ghost use Rattle.std.specs.Prelude.{◌≡◌, false, map, length, replicate, Some, IfOk, IsOk};
ghost use Rattle.tl_spec.specs.Walk.Range.{last_below};
ghost use Rattle.tl_table.specs.Answer.{Answers, WantsNoMemory};

use crate::element::Element;
use crate::errors::TreeError;
use crate::handle::NodeHandle;
use std::alloc::AllocError;

// The end of the way, from this number on, over a table without marks.
fn end_by_visited<N: Element>(nodes: &[N], marks: &mut [bool], first: u32) -> Result<u32, TreeError>
    requires { marks.old ≡ replicate (length nodes.now) false }
    ensures end { Answers Some (last_below (map N.node nodes.now) (Some first)) result }

    // The marks are there already.
    ensures memory { WantsNoMemory result }
{
    let mut handle = first;
    loop {
        let Some(node) = nodes.get(handle as usize) else {
            return Err(TreeError::Dangling(NodeHandle::new(handle)));
        };
        if marks[handle as usize] {
            return Err(TreeError::Cycle(NodeHandle::new(handle)));
        }
        marks[handle as usize] = true;
        let Some(next) = node.last_child() else {
            return Ok(handle);
        };
        handle = next;
    }
}

/// The end of the way, from this number on, with these marks, none of which is set, if there was
/// memory for them.
pub fn end_with_visited<N: Element>(
    nodes: &[N],
    marks: Result<Vec<bool>, AllocError>,
    first: u32,
) -> Result<Option<u32>, TreeError>
    requires { IfOk marks (λ m. m.items ≡ replicate (length nodes.now) false) }
    ensures end { Answers (λ end. end) (last_below (map N.node nodes.now) (Some first)) result }

    // Want of memory is answered for that of the marks alone.
    ensures memory { IsOk marks → WantsNoMemory result }
{
    let mut marks = marks?;
    let handle = end_by_visited(nodes, &mut marks, first)?;
    Ok(Some(handle))
}
