//! Blocks that hold many values each, and go back one by one.
//!
//! A block is a `Bump` of its own that may not grow, made with its room by one request. A `Bump`
//! that takes blocks as it needs them asks for half as much where one is refused, so that a call
//! ends well though it was refused memory; it would save 1 to 3 in 100 of the instructions of
//! reading.
//!
//! Handles are counted, since a box that outlives its document has to keep its block: a reference
//! to the arena ends with it, and parts that a table owns by number can't be asked without that
//! table.
ghost use Rattle.std.specs.Prelude.{◌≡◌, IfOk};

use crate::shared::Shared;
use bumpalo::Bump;
use std::alloc::{AllocError, Allocator, Global};
use std::mem::{align_of_val, size_of_val};

// The least room of a block, in bytes. With what `Bump` notes behind it, it takes 496.
const LEAST_ROOM: usize = 448;

// The most room of a block, in bytes, unless one value wants more.
const MOST_ROOM: usize = 1 << 16;

/// A handle of a block, which is an allocator of the values that lie in it. The block goes back
/// with the last of its handles, and each of its values has one. It doesn't grow.
pub type Block<A = Global> = Shared<Bump<A>>;

/// Values in blocks, each with twice the room of the one before, up to a bound. A block is asked
/// for once: where it is refused, no smaller one is.
#[derive(Drop)]
pub struct Arena<A: Allocator = Global> {
    alloc: Global,
    parent: A,
    // The newest block, once there is one.
    block: Option<Block<A>>,
    // The room of the next block.
    next_room: usize,
}

impl<A: Allocator + Copy> Arena<A> {
    /// An arena without a block. Blocks will be taken of `parent`, and their handles are counted in
    /// memory of `alloc`.
    pub fn new(alloc: Global, parent: A) -> Self {
        Arena {
            alloc,
            parent,
            block: None,
            next_room: LEAST_ROOM,
        }
    }

    /// Puts `value` into the newest block. Only where that is full memory is taken: for the next
    /// one, and for the count of its handles.
    #[inline(always)]
    pub fn allocate<T: Drop>(&mut self, value: T) -> Result<Box<T, Block<A>>, AllocError>
        ensures { IfOk result (λ it. it.value ≡ value) }
    {
        let room = size_of_val(&value).saturating_add(align_of_val(&value));
        let block = self.block(room)?;
        Ok(Box::new(block, value)?)
    }

    // A handle of a block with so much room left.
    #[inline(always)]
    fn block(&mut self, room: usize) -> Result<Block<A>, AllocError> {
        if let Some(block) = &self.block {
            if room <= block.as_ref().chunk_capacity() {
                return block.clone();
            }
        }
        self.next_block(room)
    }

    // A handle of the next block, which has so much room at least.
    #[cold]
    fn next_block(&mut self, room: usize) -> Result<Block<A>, AllocError> {
        let bump = Bump::try_with_capacity(self.parent, room.max(self.next_room))?;
        // Without a limit it takes a second block by itself, and a smaller one where that is
        // refused.
        bump.set_allocation_limit(Some(0));
        let block = Shared::new(self.alloc, bump)?;
        self.block = Some(block.clone()?);
        self.next_room = self.next_room.saturating_mul(2).min(MOST_ROOM);
        Ok(block)
    }
}
