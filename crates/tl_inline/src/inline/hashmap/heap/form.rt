//! The forms of pairs on the heap.
//!
//! They don't go back. A move to the next form is made whole before the old one goes, so a refused
//! request leaves the pairs where they are.
ghost use Rattle.std.specs.Prelude.{◌≡◌, ◌+◌, ◌<◌, ◌≤◌, None, slice_get, IfOk, IfErr, OnOk, OnErr};
ghost use Rattle.std.specs.List.{IsDistinct};
ghost use Rattle.std.specs.Map.{lookup, keys_of, values_of};
ghost use Rattle.std.specs.Option.{option_copied_mut};
ghost use Rattle.std.specs.Borrow.{sem};
ghost use Rattle.indexmap.specs.IndexMap.{insert_entry, swap_remove_entry, spare, IsUnique};

use super::hasher::ShortHash;
use super::pair_table::PairTable;
use arrayvec::ArrayVec;
use indexmap::IndexMap;
use std::alloc::{AllocError, Global};
use std::hash::{BuildHasher, Hash};

// Up to how many pairs an index map holds.
const MOST: usize = 1024;

// Of how many keys that came last it is counted which of them an index map compares with one
// another.
const RECENT: usize = 64;

// Up to how many of those come to be alike by chance.
const ALIKE: u8 = 3;

// Which keys an index map compares with one another, as a number of ten bits: it compares keys that
// share the upper eight bits of a hash of 32, if they stand near each other, which is told here by
// two of the lower bits.
const CLASSES: usize = 1024;

// The pairs in order, found by their keys' hashes.
pub(super) type PairMap<K, V> = IndexMap<K, V, ShortHash>;

#[derive(Drop)]
pub(super) enum HeapForm<K: Eq + Hash, V> {
    Indexed(PairMap<K, V>),
    Noted(PairTable<K, V>),
}

impl<K: Eq + Hash, V> HeapForm<K, V> {
    ghost use Rattle.tl_inline.specs.Inner.HeapForm.{form_entries};
    ghost use Rattle.tl_inline.specs.Inner.HeapFormLends.{lends_value_at};

    pub(super) fn value_at_mut(&mut self, index: usize) -> Option<&mut V>
        ensures* writes_back { sem 𝓛 (lends_value_at K.row V.row K.Hash self.entry index result) }
        ensures value { option_copied_mut result
            ≡ slice_get (values_of (form_entries self.old)) index }
    {
        match self {
            HeapForm::Indexed(indexed) => indexed.get_index_mut(index),
            HeapForm::Noted(noted) => noted.get_index_mut(index),
        }
    }
}

// Puts `value` at `key`. Where memory is refused it hands the pair back.
#[inline(never)]
pub(super) fn insert_indexed<K: Eq + Hash + Drop, V: Drop>(
    indexed: &mut PairMap<K, V>,
    key: K,
    value: V,
) -> Result<(), (K, V)>
    ensures ok { OnOk result
        (indexed.new.entries ≡ insert_entry K.eq indexed.old.entries key value) }
    ensures err { OnErr result (indexed.new.entries ≡ indexed.old.entries) }
    ensures returned { IfErr result (λ pair. pair ≡ (key, value)) }
    ensures absent { OnErr result (lookup (K.eq key) indexed.old.entries ≡ None) }
    ensures unique { IsUnique K.eq indexed.new }
{
    match indexed.insert(key, value) {
        Ok(_) => Ok(()),
        Err(failed) => Err(failed.value),
    }
}

// Whether one more pair may come to the pairs of an index map. It hashes without a secret, so names
// can be made that it compares with one another: those go where digests find a key. No clause asks
// what is answered.
pub(super) fn takes_more<K: Eq + Hash, V>(indexed: &PairMap<K, V>) -> bool {
    indexed.len() < MOST && (indexed.len() % RECENT != 0 || !are_alike(indexed))
}

// Whether more of the keys that came last are alike than come to be by chance.
#[inline(never)]
fn are_alike<K: Eq + Hash, V>(indexed: &PairMap<K, V>) -> bool {
    let keys = indexed.keys().as_slice();
    let Some(first) = keys.len().checked_sub(RECENT) else {
        return false;
    };
    let mut counts = [0u8; CLASSES];
    for key in &keys[first..] {
        let class = class_of(indexed.hasher().hash_one(key));
        counts[class] = counts[class].saturating_add(1);
        if counts[class] > ALIKE {
            return true;
        }
    }
    false
}

fn class_of(hash: u64) -> usize
    ensures { result < 1024 }
{
    let joined = hash ^ hash >> 32;
    ((joined >> 24) % 256 * 4 + (joined >> 5) % 4) as usize
}

// Inserts a pair where there is room.
pub(super) fn put_in_room<K: Eq + Hash + Drop, V: Drop>(
    indexed: &mut PairMap<K, V>,
    key: K,
    value: V,
)
    requires { 0 < spare indexed.old }
    ensures entries { indexed.new.entries ≡ insert_entry K.eq indexed.old.entries key value }
    ensures room { spare indexed.old ≤ spare indexed.new + 1 }
    ensures unique { IsUnique K.eq indexed.new }
{
    match indexed.insert(key, value) {
        Ok(_) => {}
        Err(_) => unreachable!(),
    }
}

// Moves the pairs from inline to a map with room for one more. What can fail comes first, so an
// `Err` moves none.
pub(super) fn map_of<K: Default + Eq + Hash + Drop, V: Default + Drop, const N: usize>(
    alloc: Global,
    inline: &mut ArrayVec<(K, V), N>,
) -> Result<PairMap<K, V>, AllocError>
    requires { IsDistinct K.eq (keys_of inline.old.items) }
    ensures entries { IfOk result (λ m. m.entries ≡ inline.old.items) }
    ensures room { IfOk result (λ m. 0 < spare m) }
    ensures err { OnErr result (inline.new ≡ inline.old) }
{
    let room = inline.len().checked_add(1).ok_or(AllocError)?;
    let mut indexed = IndexMap::with_capacity_and_hasher(alloc, room, ShortHash)?;
    for (key, value) in inline.drain(..) {
        put_in_room(&mut indexed, key, value);
    }
    Ok(indexed)
}
