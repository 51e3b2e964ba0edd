//! The iterator over an `InlineHashMap`.
ghost use Rattle.std.specs.Prelude.{length};
ghost use Rattle.std.specs.Map.Iter.{TakesFirst, deref_pair};
ghost use Rattle.std.specs.Iterator.{at_most};

use std::marker::Model;
use std::slice;

#[derive(Drop)]
pub(super) enum RemainingPairs<'a, K, V> {
    Slice(slice::Iter<'a, (K, V)>),
    Map(indexmap::map::Iter<'a, K, V>),
}

/// The pairs of an `InlineHashMap` in order. A clause sees it as the list of those that are left.
#[derive(Drop)]
pub struct InlineHashMapIterator<'a, K, V> {
    pub(super) left: RemainingPairs<'a, K, V>,
}

impl<'a, K, V> Model for InlineHashMapIterator<'a, K, V> {
    ghost use Rattle.std.specs.Prelude.{List};

    ghost Value = { List (K × V) };

    ghost use Rattle.tl_inline.specs.RemainingPairs.{remaining_pairs};

    ghost view = { λ a. remaining_pairs a.left };
}

impl<'a, K, V> Iterator for InlineHashMapIterator<'a, K, V> {
    type Item = (&'a K, &'a V);

    ghost next_gives = { TakesFirst deref_pair };

    ghost remaining = { λ pairs. at_most (length pairs) };

    fn next(&mut self) -> Option<(&'a K, &'a V)> {
        match &mut self.left {
            RemainingPairs::Slice(pairs) => match pairs.next() {
                Some(pair) => Some((&pair.0, &pair.1)),
                None => None,
            },
            RemainingPairs::Map(pairs) => pairs.next(),
        }
    }
}
