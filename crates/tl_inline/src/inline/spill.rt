//! The way of items from the value itself to the heap.
ghost use Rattle.std.specs.Prelude.{◌≡◌, ◌+◌, ◌≤◌, IfOk, OnErr, vec_len, vec_capacity};

use arrayvec::ArrayVec;
use std::alloc::{AllocError, Global};

// Moves the items to an allocation with room for a few more, and for no others. What can fail comes
// first, so an `Err` moves none.
pub(super) fn move_out<T: Default + Drop, const N: usize>(
    alloc: Global,
    inline: &mut ArrayVec<T, N>,
    more: usize,
) -> Result<Vec<T>, AllocError>
    requires { more ≤ 4 }
    ensures items { IfOk result (λ v. v.items ≡ inline.old.items) }
    ensures room { IfOk result (λ v. vec_capacity v ≡ vec_len v + more) }
    ensures err { OnErr result (inline.new ≡ inline.old) }
{
    let room = inline.len().checked_add(more).ok_or(AllocError)?;
    let mut heap = Vec::with_capacity(alloc, room)?;
    for item in inline.drain(..) {
        heap.push_reserved(item);
    }
    Ok(heap)
}
