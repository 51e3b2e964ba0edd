//! The iterator over an `InlineVec`.
ghost use Rattle.std.specs.Prelude.{length};
ghost use Rattle.std.specs.Map.Iter.{TakesFirst, deref};
ghost use Rattle.std.specs.Iterator.{at_most};

use std::marker::Model;
use std::slice;

/// The items of an `InlineVec` in order. A clause sees it as the list of those that are left.
#[derive(Drop)]
pub struct InlineVecIter<'a, T, const N: usize> {
    pub(super) rest: slice::Iter<'a, T>,
}

impl<'a, T, const N: usize> Model for InlineVecIter<'a, T, N> {
    ghost use Rattle.std.specs.Prelude.{List};
    ghost use Rattle.std.specs.Slice.Iter.{iter_rest};

    ghost Value = { List T };

    ghost view = { λ a. iter_rest a.rest };
}

impl<'a, T, const N: usize> Iterator for InlineVecIter<'a, T, N> {
    type Item = &'a T;

    ghost next_gives = { TakesFirst deref };

    ghost remaining = { λ items. at_most (length items) };

    fn next(&mut self) -> Option<&'a T> {
        self.rest.next()
    }
}
