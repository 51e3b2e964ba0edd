//! An allocator that has several owners.
//!
//! It is generic in the allocator, so that its proofs know what every allocator promises, and
//! nothing of arenas.
ghost use Rattle.std.specs.Prelude.{◌≡◌, IfOk};

use std::alloc::{AllocError, Allocator, Global};
use std::marker::Model;
use std::rc::Rc;

/// A handle of an allocator, which goes with the last of its handles. A block may be freed by any
/// of them.
#[derive(Drop)]
pub struct Shared<A> {
    alloc: Global,
    inner: Rc<A>,
}

// Handles of one allocator are equal in contracts.
impl<A> Model for Shared<A> {
    ghost Value = { A };

    ghost view = { λ it. it.inner.value };
}

impl<A: Drop> Shared<A> {
    /// The first handle of `inner`. Only this takes memory of `alloc`, for `inner` itself.
    pub fn new(alloc: Global, inner: A) -> Result<Self, AllocError>
        ensures { IfOk result (λ it. it ≡ inner) }
    {
        Ok(Shared {
            alloc,
            inner: Rc::new(alloc, inner)?,
        })
    }
}

impl<A> Shared<A> {
    /// Where the allocator itself lies.
    pub fn alloc(&self) -> Global {
        self.alloc
    }

    /// The allocator itself.
    #[inline(always)]
    pub fn as_ref(&self) -> &A
        ensures { result.now ≡ self.now }
    {
        self.inner.as_ref()
    }
}

impl<A: Drop> Clone for Shared<A> {
    ghost is_clone = { λ it copy. copy ≡ it };

    /// Another handle of the same allocator. It takes no memory: there is none only where there are
    /// 2 ^ 64 - 1 handles.
    #[inline(always)]
    fn clone(&self) -> Result<Self, AllocError> {
        Ok(Shared {
            alloc: self.alloc,
            inner: self.inner.clone()?,
        })
    }
}

unsafe impl<A: Allocator> Allocator for Shared<A> {
    ghost dealloc_token = { λ it. A.dealloc_token it };

    #[inline(always)]
    fn allocate(&self, size: usize, align: usize) -> Result<*mut u8, AllocError> {
        self.as_ref().allocate(size, align)
    }

    #[inline(always)]
    unsafe fn deallocate(&self, ptr: *mut u8, size: usize, align: usize) {
        self.as_ref().deallocate(ptr, size, align);
    }
}
