//! Where the pairs of an `InlineHashMap` lie.
ghost use Rattle.std.specs.Prelude.{is_some, is_ok, ◌≡◌, ◌<◌, length, None, slice_get, IfErr, OnOk, OnErr};
ghost use Rattle.std.specs.List.{IsDistinct};
ghost use Rattle.std.specs.Map.{lookup, keys_of, values_of};
ghost use Rattle.std.specs.Option.{option_copied_mut};
ghost use Rattle.std.specs.Borrow.{sem};
ghost use Rattle.indexmap.specs.IndexMap.{insert_entry, swap_remove_entry};

use super::heap::HeapPairs;
use super::pairs::{find, put_value};
use arrayvec::ArrayVec;
use std::hash::Hash;

#[derive(Drop)]
pub(super) enum PairStorage<K: Eq + Hash, V, const N: usize> {
    Inline(ArrayVec<(K, V), N>),
    Heap(HeapPairs<K, V>),
}

impl<K: Eq + Hash, V, const N: usize> PairStorage<K, V, N> {
    ghost use Rattle.tl_inline.specs.Inner.PairStorage.{storage_view};
    ghost use Rattle.tl_inline.specs.Inner.PairStorageLends.{lends_value_at};

    pub(super) fn value_at_mut(&mut self, index: usize) -> Option<&mut V>
        ensures* writes_back { sem 𝓛
            (lends_value_at K.row V.row N.row K.Hash self.entry index result) }
        ensures value { option_copied_mut result
            ≡ slice_get (values_of (storage_view self.old).entries) index }
    {
        match self {
            PairStorage::Inline(inline) => match inline.get_mut(index) {
                Some(pair) => Some(&mut pair.1),
                None => None,
            },
            PairStorage::Heap(heap) => heap.get_index_mut(index),
        }
    }
}

// Puts `value` at a key that is there, or hands it back.
pub(super) fn replace<K: Eq, V: Drop, const N: usize>(
    inline: &mut ArrayVec<(K, V), N>,
    key: &K,
    value: V,
) -> Result<(), V>
    ensures variant { is_ok result ≡ is_some (lookup (K.eq key.now) inline.old.items) }
    ensures ok { OnOk result (inline.new.items ≡ insert_entry K.eq inline.old.items key.now value) }
    ensures err { OnErr result (inline.new ≡ inline.old) }
    ensures returned { IfErr result (λ back. back ≡ value) }
    ensures unique { IsDistinct K.eq (keys_of inline.old.items) →
        IsDistinct K.eq (keys_of inline.new.items) }
{
    match find(inline.as_slice(), key) {
        Some(i) => {
            put_value(inline.as_mut_slice(), i, value);
            Ok(())
        }
        None => Err(value),
    }
}

// Puts a new pair after the others, where there is room.
pub(super) fn push_inline<K: Eq + Drop, V: Drop, const N: usize>(
    inline: &mut ArrayVec<(K, V), N>,
    key: K,
    value: V,
)
    requires room { length inline.old.items < N }
    requires new { lookup (K.eq key) inline.old.items ≡ None }
    ensures entries { inline.new.items ≡ insert_entry K.eq inline.old.items key value }
    ensures unique { IsDistinct K.eq (keys_of inline.old.items) →
        IsDistinct K.eq (keys_of inline.new.items) }
{
    inline.push((key, value));
}

// Removes the pair with this key, and moves the last one into its place.
pub(super) fn remove_inline<K: Default + Eq + Drop, V: Default + Drop, const N: usize>(
    inline: &mut ArrayVec<(K, V), N>,
    key: &K,
) -> Option<V>
    ensures value { result ≡ lookup (K.eq key.now) inline.old.items }
    ensures entries { inline.new.items ≡ swap_remove_entry (K.eq key.now) inline.old.items }
    ensures unique { IsDistinct K.eq (keys_of inline.old.items) →
        IsDistinct K.eq (keys_of inline.new.items) }
{
    match find(inline.as_slice(), key) {
        Some(i) => {
            let (_, value) = inline.swap_remove(i);
            Some(value)
        }
        None => None,
    }
}
