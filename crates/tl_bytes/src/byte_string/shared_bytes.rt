//! The buffer of an owned document.
//!
//! A slice of the kit's `bytes` has five words and would stand in a box: a page was then read in up
//! to twice the time.
ghost use Rattle.std.specs.Prelude.{◌≡◌, ◌≤◌, IfOk, length, string_bytes, slice_range};
ghost use Rattle.tl_bytes.specs.Held.{shared};

use crate::byte_string::{Bytes, Repr};
use bytes::ByteStr;
use std::alloc::{AllocError, Global};
use std::marker::Model;
use std::rc::Rc;

/// A text that is kept for as long as there is a slice of it.
pub struct Shared {
    text: Rc<ByteStr>,
}

impl Model for Shared {
    ghost use Rattle.std.specs.Prelude.{List, ℕ};

    ghost Value = { List ℕ };

    ghost view = { λ s. s.text.value };
}

// By hand, so that a caller's proof has one step for a drop.
impl Drop for Shared {
    fn drop(self) {
        let Shared { text: _ } = self;
    }
}

// The bytes of a text from one place up to another.
pub(crate) struct Share {
    text: Rc<ByteStr>,
    start: usize,
    end: usize,
}

impl Model for Share {
    ghost use Rattle.std.specs.Prelude.{List, ℕ, ◌≤◌, length, slice_range};

    ghost Value = { List ℕ };

    ghost view = { λ s. slice_range s.text.value s.start s.end };

    ghost invariant = { λ s. (s.start ≤ s.end) × (s.end ≤ length s.text.value) };
}

// By hand, as that of `Shared`.
impl Drop for Share {
    fn drop(self) {
        let Share {
            text: _,
            start: _,
            end: _,
        } = self;
    }
}

impl Share {
    // The bytes.
    pub(crate) fn as_slice(&self) -> &[u8]
        ensures { result.now ≡ self.now }
    {
        &self.text.as_str().as_bytes()[self.start..self.end]
    }

    // Those of them from `start` up to `end` without `end`. `Err` means that the count of owners is
    // full.
    #[tactic(auto, using(crate::proofs::Shares::part_of_part, crate::proofs::Shares::part_len))]
    pub(crate) fn part(&self, start: usize, end: usize) -> Result<Share, AllocError>
        requires order { start ≤ end }
        requires within { end ≤ length self.now }
        ensures { IfOk result (λ share. share ≡ slice_range self.now start end) }
    {
        prove!(end <= self.end - self.start);
        Ok(Share {
            text: self.text.clone()?,
            start: self.start + start,
            end: self.start + end,
        })
    }

    // The same bytes. `Err` means that the count of owners is full.
    pub(crate) fn add_owner(&self) -> Result<Share, AllocError>
        ensures { IfOk result (λ share. share ≡ self.now) }
    {
        Ok(Share {
            text: self.text.clone()?,
            start: self.start,
            end: self.end,
        })
    }
}

impl Shared {
    /// The text, moved. `Err` means that memory for the count of its owners was refused.
    pub fn new(alloc: Global, text: String) -> Result<Shared, AllocError>
        ensures { IfOk result (λ buffer. buffer ≡ string_bytes text) }
    {
        let text = ByteStr::from_string(text)?;
        Ok(Shared {
            text: Rc::new(alloc, text)?,
        })
    }

    /// The whole text.
    pub fn as_str(&self) -> &str
        ensures { result.now ≡ self.now }
    {
        self.text.as_str()
    }

    /// The bytes from `start` up to `end` without `end`, which may cut a character. No byte is
    /// copied and no memory is taken. `Err` means that the count of owners is full.
    pub fn slice(
        &self,
        _alloc: Global,
        start: usize,
        end: usize,
    ) -> Result<Bytes<'static>, AllocError>
        requires order { start ≤ end }
        requires within { end ≤ length self.now }
        ensures { IfOk result
            (λ part. part ≡ record { list = slice_range self.now start end; held = shared }) }
    {
        let text = self.text.clone()?;
        Ok(Bytes {
            repr: Repr::Shared(Share { text, start, end }),
        })
    }
}
