//! The end, the boundaries and the range of what hangs below a node.
//!
//! Memory is taken only where the way along last children doesn't rise: where some node on it has a
//! last child whose number is not above its own.
ghost use Rattle.std.specs.Prelude.{◌≤◌, IfOk, length, map};
ghost use Rattle.tl_spec.specs.Walk.Range.{last_below, boundaries_from, range_from};
ghost use Rattle.tl_table.specs.Answer.{Answers, WantsNoMemory};
ghost use Rattle.tl_table.specs.Inner.Way.{Rises};

use crate::element::Element;
use crate::errors::TreeError;
use crate::handle::NodeHandle;
use crate::last_descendant::visited::end_with_visited;
use crate::last_descendant::{Stop, last_descendant};
use std::alloc::Global;
use std::ops::Range;

/// The last of what hangs below a node whose last child is `last`: that child, or its last child,
/// and so on.
pub fn end<N: Element>(
    alloc: Global,
    nodes: &[N],
    last: Option<u32>,
) -> Result<Option<u32>, TreeError>
    ensures end { Answers (λ end. end) (last_below (map N.node nodes.now) last) result }
    ensures memory { Rises (map N.node nodes.now) last → WantsNoMemory result }
{
    let Some(first) = last else {
        return Ok(None);
    };
    match last_descendant(nodes, first) {
        Stop::End(handle) => Ok(Some(handle)),
        Stop::Dangling(handle) => Err(TreeError::Dangling(NodeHandle::new(handle))),
        Stop::Fall => end_with_visited(nodes, vec![in alloc; false; nodes.len()], first),
    }
}

/// The first child, which is not looked up, and the end; `None` where there is no child.
pub fn boundaries<N: Element>(
    alloc: Global,
    nodes: &[N],
    first: Option<u32>,
    last: Option<u32>,
) -> Result<Option<(u32, u32)>, TreeError>
    ensures boundaries { Answers (λ both. both)
        (boundaries_from (map N.node nodes.now) first last) result }
    ensures memory { Rises (map N.node nodes.now) last → WantsNoMemory result }
{
    let Some(from) = first else {
        return Ok(None);
    };
    let Some(to) = end(alloc, nodes, last)? else {
        return Ok(None);
    };
    Ok(Some((from, to)))
}

/// The numbers from the first child to the end, both included: none where there is no child, or the
/// end is below the first.
pub fn range<N: Element>(
    alloc: Global,
    nodes: &[N],
    first: Option<u32>,
    last: Option<u32>,
) -> Result<Range<usize>, TreeError>
    ensures range { Answers (λ r. (r.start, r.end))
        (range_from (map N.node nodes.now) first last) result }

    // It is a range of the table.
    ensures within { IfOk result (λ r. (r.start ≤ r.end) × (r.end ≤ length nodes.now)) }
    ensures memory { Rises (map N.node nodes.now) last → WantsNoMemory result }
{
    let Some((from, to)) = boundaries(alloc, nodes, first, last)? else {
        return Ok(0..0);
    };
    if from <= to {
        Ok(from as usize..to as usize + 1)
    } else {
        Ok(0..0)
    }
}
