//! Where the marks of a page stand. Most of them are short, and take five bytes.
//!
//! Others may rely on this: the places are a list of bounds (`bounds_in`), which only grows.
ghost use Rattle.std.specs.List.{list_all};
ghost use Rattle.std.specs.Prelude.{IsTrue, length};
ghost use Rattle.tl_tree.specs.Places.{is_placed};

use crate::error::GrowError;
use crate::short_bounds::ShortBounds;
use crate::source::Bounds;
use std::alloc::{AllocError, Global};

/// The length of a mark that stands in the list of long ones.
const LONG: u8 = 255;

/// Where the page begins, and where its marks stand, one after the other.
#[derive(Drop)]
pub(crate) struct Places {
    /// One whose length is `LONG` has, for its start, its number among the long ones.
    pub(crate) short: Vec<ShortBounds>,
    pub(crate) long: Vec<Bounds>,
    ghost within: { IsTrue (list_all (is_placed (length long.items)) short.items) },
}

impl Places {
    ghost use Rattle.std.specs.Prelude.{IfOk, OnOk, [], slice_get, ◌++◌, ◌∷◌, ◌≡◌, ◌≤◌};
    ghost use Rattle.tl_tree.specs.Sources.{bounds_in};

    /// No places yet, with room for so many.
    pub(crate) fn new(alloc: Global, room: usize) -> Result<Places, AllocError>
        ensures { IfOk result (λ places. bounds_in places ≡ []) }
    {
        Ok(Places {
            short: Vec::with_capacity(alloc, room)?,
            long: Vec::new(alloc),
        })
    }

    /// The place of an index.
    pub(crate) fn get(&self, index: usize) -> Option<Bounds>
        ensures { result ≡ slice_get (bounds_in self.now) index }
    {
        let own = *self.short.get(index)?;
        let start = own.start();
        if own.len == LONG {
            return Some(self.long[start as usize]);
        }
        Some(Bounds {
            start,
            end: start + own.len as u32,
        })
    }

    /// Puts a place behind the others.
    #[inline(always)]
    pub(crate) fn push(&mut self, bounds: Bounds) -> Result<(), GrowError>
        requires { bounds.start ≤ bounds.end }
        ensures { OnOk result (bounds_in self.new ≡ bounds_in self.old ++ bounds ∷ []) }
    {
        let len = bounds.end - bounds.start;
        if len >= LONG as u32 {
            return self.push_long(bounds);
        }
        self.short.push(ShortBounds::new(bounds.start, len as u8))?;
        Ok(())
    }

    // Puts a place behind the others that isn't short.
    #[cold]
    #[inline(never)]
    fn push_long(&mut self, bounds: Bounds) -> Result<(), GrowError>
        ensures { OnOk result (bounds_in self.new ≡ bounds_in self.old ++ bounds ∷ []) }
    {
        let number = self.long.len();
        if number >= u32::MAX as usize {
            return Err(GrowError::TooLarge);
        }
        self.long.push(bounds)?;
        self.short.push(ShortBounds::new(number as u32, LONG))?;
        Ok(())
    }
}
