//! The changes that lead from one text to another.
ghost use Rattle.std.specs.Prelude.{IfNone, IfOk, IfSome, length, take, ◌+◌, ◌<◌, ◌≡◌, ◌≤◌};
ghost use Rattle.std.specs.Str.{bytes_eq};
ghost use Rattle.tl_diff.specs.Scripts.{IsScript, lines_said};

use crate::change::Change;
use crate::gap::gap;
use std::alloc::{AllocError, Global};

// Whether two lines are the same.
fn are_same(one: &[u8], other: &[u8]) -> bool
    ensures { result ≡ bytes_eq one.now other.now }
{
    one == other
}

// How many lines stand first in both texts.
fn common_len(left: &[&[u8]], right: &[&[u8]]) -> usize
    ensures left { result ≤ length left.now }
    ensures right { result ≤ length right.now }
    ensures same { take result (lines_said left.now) ≡ take result (lines_said right.now) }
{
    let shorter = left.len().min(right.len());
    for len in 0..shorter {
        if !are_same(left[len], right[len]) {
            return len;
        }
    }
    shorter
}

// The next change, behind what stands first in both texts: none where they are the same.
fn next_change(left: &[&[u8]], right: &[&[u8]]) -> Option<Change>
    ensures none { IfNone result (lines_said left.now ≡ lines_said right.now) }
    ensures same { IfSome result (λ c.
        take c.kept (lines_said left.now) ≡ take c.kept (lines_said right.now)) }
    ensures left { IfSome result (λ c. c.kept + c.removed ≤ length left.now) }
    ensures right { IfSome result (λ c. c.kept + c.added ≤ length right.now) }
    ensures some { IfSome result (λ c. 0 < c.removed + c.added) }
{
    let kept = common_len(left, right);
    let (old, new) = (&left[kept..], &right[kept..]);
    if old.is_empty() && new.is_empty() {
        return None;
    }
    let (removed, added) = gap(old, new);
    Some(Change {
        kept,
        removed,
        added,
    })
}

/// The changes that lead from the lines of one text to those of another one, in their order. They
/// are found in one pass, and needn't be the fewest.
pub fn changes(alloc: Global, old: &[&[u8]], new: &[&[u8]]) -> Result<Vec<Change>, AllocError>
    ensures { IfOk result (λ changes.
        IsScript changes.items (lines_said old.now) (lines_said new.now)) }
{
    let mut changes = Vec::new(alloc);
    let mut from = 0;
    let mut to = 0;
    while let Some(change) = next_change(&old[from..], &new[to..]) {
        changes.push(change)?;
        from += change.kept + change.removed;
        to += change.kept + change.added;
    }
    Ok(changes)
}
