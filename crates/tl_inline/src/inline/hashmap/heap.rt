//! The pairs of an `InlineHashMap` that lie on the heap.
ghost use Rattle.std.specs.Prelude.{◌≡◌, ◌^◌, ◌<◌, length, None, position, slice_get, IfOk, IfErr, OnOk, OnErr};
ghost use Rattle.std.specs.List.{IsDistinct};
ghost use Rattle.std.specs.Map.{lookup, keys_of, values_of};
ghost use Rattle.std.specs.Option.{option_copied, option_copied_mut};
ghost use Rattle.std.specs.Borrow.{sem};
ghost use Rattle.indexmap.specs.IndexMap.{insert_entry, swap_remove_entry};
ghost use Rattle.tl_inline.specs.InlineVec.{ClonesAreEqual};

mod digest;
mod form;
mod hasher;
mod index;
mod pair_table;

use super::iter::{InlineHashMapIterator, RemainingPairs};
use arrayvec::ArrayVec;
use form::{HeapForm, insert_indexed, map_of, put_in_room, takes_more};
use pair_table::PairTable;
use std::alloc::{AllocError, Global};
use std::hash::Hash;
use std::marker::Model;

// A map that keeps the order in which its keys came: an index map, and a list with digests where
// there are more pairs, or keys that are made for the index map to compare. It doesn't go back when
// pairs are removed. A clause sees the pairs in order, with distinct keys.
#[derive(Drop)]
pub(super) struct HeapPairs<K: Eq + Hash, V> {
    form: HeapForm<K, V>,
}

impl<K: Eq + Hash, V> Model for HeapPairs<K, V> {
    ghost use Rattle.std.specs.Prelude.{List};
    ghost use Rattle.std.specs.Coded.{coded×, coded_list};
    ghost use Rattle.std.specs.List.{IsDistinct};
    ghost use Rattle.std.specs.Map.{keys_of};

    ghost Value = { List (K × V) };

    ghost coded = { coded_list (coded× K.code V.code) };

    ghost use Rattle.tl_inline.specs.Inner.HeapForm.{form_entries};

    ghost view = { λ h. form_entries h.form };

    ghost invariant = { λ h. IsDistinct K.eq (keys_of (form_entries h.form)) };
}

impl<K: Eq + Hash, V> HeapPairs<K, V> {
    ghost use Rattle.tl_inline.specs.Inner.HeapPairsLends.{lends_index};

    pub(super) fn len(&self) -> usize
        ensures len { result ≡ length self.now }
        ensures small { result < 2 ^ 63 }
    {
        match &self.form {
            HeapForm::Indexed(indexed) => indexed.len(),
            HeapForm::Noted(noted) => noted.len(),
        }
    }

    pub(super) fn get(&self, key: &K) -> Option<&V>
        ensures { option_copied result ≡ lookup (K.eq key.now) self.now }
    {
        match &self.form {
            HeapForm::Indexed(indexed) => indexed.get(key),
            HeapForm::Noted(noted) => noted.get(key),
        }
    }

    pub(super) fn get_index_of(&self, key: &K) -> Option<usize>
        ensures { result ≡ position (K.eq key.now) (keys_of self.now) }
    {
        match &self.form {
            HeapForm::Indexed(indexed) => indexed.get_index_of(key),
            HeapForm::Noted(noted) => noted.get_index_of(key),
        }
    }

    pub(super) fn get_index_mut(&mut self, index: usize) -> Option<&mut V>
        ensures* writes_back { sem 𝓛 (lends_index K.row V.row K.Hash self.entry index result) }
        ensures value { option_copied_mut result ≡ slice_get (values_of self.old) index }
    {
        self.form.value_at_mut(index)
    }

    pub(super) fn iter(&self) -> InlineHashMapIterator<'_, K, V>
        ensures rest { result ≡ self.now }
        ensures fits { length self.now < 2 ^ 63 }
    {
        match &self.form {
            HeapForm::Indexed(indexed) => InlineHashMapIterator {
                left: RemainingPairs::Map(indexed.iter()),
            },
            HeapForm::Noted(noted) => InlineHashMapIterator {
                left: RemainingPairs::Slice(noted.as_slice().iter()),
            },
        }
    }
}

impl<K: Default + Eq + Hash + Drop, V: Default + Drop> HeapPairs<K, V> {
    // Takes the pairs from inline, and a new one after them. Where memory is refused it hands that
    // back, and the others stay.
    pub(super) fn take<const N: usize>(
        alloc: Global,
        inline: &mut ArrayVec<(K, V), N>,
        key: K,
        value: V,
    ) -> Result<Self, (K, V)>
        requires distinct { IsDistinct K.eq (keys_of inline.old.items) }
        requires new { lookup (K.eq key) inline.old.items ≡ None }
        ensures ok { IfOk result (λ h. h ≡ insert_entry K.eq inline.old.items key value) }
        ensures unique { IfOk result (λ h. IsDistinct K.eq (keys_of h)) }
        ensures err { OnErr result (inline.new ≡ inline.old) }
        ensures returned { IfErr result (λ pair. pair ≡ (key, value)) }
    {
        match map_of(alloc, inline) {
            Ok(mut indexed) => {
                put_in_room(&mut indexed, key, value);
                Ok(HeapPairs {
                    form: HeapForm::Indexed(indexed),
                })
            }
            Err(_) => Err((key, value)),
        }
    }

    pub(super) fn insert(&mut self, key: K, value: V) -> Result<(), (K, V)>
        ensures ok { OnOk result (self.new ≡ insert_entry K.eq self.old key value) }
        ensures err { OnErr result (self.new ≡ self.old) }
        ensures returned { IfErr result (λ pair. pair ≡ (key, value)) }
        ensures absent { OnErr result (lookup (K.eq key) self.old ≡ None) }
        ensures unique { IsDistinct K.eq (keys_of self.new) }
    {
        match &mut self.form {
            HeapForm::Indexed(indexed) => {
                if takes_more(indexed) || indexed.contains_key(&key) {
                    return insert_indexed(indexed, key, value);
                }
                match PairTable::take(indexed, key, value) {
                    Ok(noted) => {
                        self.form = HeapForm::Noted(noted);
                        Ok(())
                    }
                    Err(pair) => Err(pair),
                }
            }
            HeapForm::Noted(noted) => noted.insert(key, value),
        }
    }

    pub(super) fn swap_remove(&mut self, key: &K) -> Option<V>
        ensures value { result ≡ lookup (K.eq key.now) self.old }
        ensures entries { self.new ≡ swap_remove_entry (K.eq key.now) self.old }
        ensures unique { IsDistinct K.eq (keys_of self.new) }
    {
        match &mut self.form {
            HeapForm::Indexed(indexed) => indexed.swap_remove(key),
            HeapForm::Noted(noted) => noted.swap_remove(key),
        }
    }
}

impl<K: Default + Eq + Hash + Clone, V: Default + Clone> HeapPairs<K, V> {
    // The clones lie in the form of these pairs. A clone of a key or a value must be that key or
    // value.
    pub(super) fn clone(&self) -> Result<Self, AllocError>
        requires keys { ClonesAreEqual K.is_clone (keys_of self.now) }
        requires values { ClonesAreEqual V.is_clone (values_of self.now) }
        ensures { IfOk result (λ h. h ≡ self.now) }
    {
        match &self.form {
            HeapForm::Indexed(indexed) => Ok(HeapPairs {
                form: HeapForm::Indexed(indexed.clone()?),
            }),
            HeapForm::Noted(noted) => Ok(HeapPairs {
                form: HeapForm::Noted(noted.clone()?),
            }),
        }
    }
}
