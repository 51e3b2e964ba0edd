//! Pairs of which it is noted where their keys stand.
//!
//! Pairs are noted early where at a 64th pair four of the last 64 keys share ten bits of their
//! hashes (`are_alike`), which happens by chance in 7 of 1,000 tags of 1,000 names. A note is a
//! place where a key of this digest may stand (`Alone`), and the key there is compared, or that
//! there are several, and the list is looked through. A note may be stale, never missing
//! (`AllowsAll`).
ghost use Rattle.std.specs.Prelude.{◌≡◌, ◌^◌, ◌<◌, length, None, Some, position, slice_get, slice_index_or, vec_len, vec_capacity, IfSome, IfNone, IfOk, IfErr, OnOk, OnErr};
ghost use Rattle.std.specs.List.{IsDistinct, swap_remove};
ghost use Rattle.std.specs.Map.{lookup, keys_of, values_of};
ghost use Rattle.std.specs.Option.{option_copied, option_copied_mut};
ghost use Rattle.std.specs.Borrow.{sem};
ghost use Rattle.indexmap.specs.IndexMap.{insert_entry, swap_remove_entry};
ghost use Rattle.tl_inline.specs.InlineVec.{ClonesAreEqual};
ghost use Rattle.tl_inline.specs.Places.{AllowsKeys, Notes, note_of, with_key};

use super::digest::digest_of;
use super::form::PairMap;
use super::index::{
    Place, copy_places, note, note_of_digest, note_swap, place_by_note, place_of, places_with,
};
use crate::inline::hashmap::pairs::put_value;
use std::alloc::AllocError;
use std::collections::BTreeMap;
use std::hash::Hash;
use std::marker::Model;

// A list of pairs, and where its keys stand by their digests. A clause sees the pairs in order,
// with distinct keys.
#[derive(Drop)]
pub(super) struct PairTable<K: Eq + Hash, V> {
    pairs: Vec<(K, V)>,
    places: BTreeMap<(u128, u128), Place>,
}

impl<K: Eq + Hash, V> Model for PairTable<K, V> {
    ghost use Rattle.std.specs.Prelude.{List};
    ghost use Rattle.std.specs.Coded.{coded×, coded_list};
    ghost use Rattle.std.specs.List.{IsDistinct};
    ghost use Rattle.std.specs.Map.{keys_of};
    ghost use Rattle.tl_inline.specs.Places.{AllowsKeys};

    ghost Value = { List (K × V) };

    ghost coded = { coded_list (coded× K.code V.code) };

    ghost view = { λ h. h.pairs.items };

    ghost invariant = { λ h. IsDistinct K.eq (keys_of h.pairs.items)
        × AllowsKeys K.hash_input h.places (keys_of h.pairs.items) };
}

impl<K: Eq + Hash, V> PairTable<K, V> {
    ghost use Rattle.tl_inline.specs.Inner.PairTableLends.{lends_index};

    pub(super) fn len(&self) -> usize
        ensures len { result ≡ length self.now }
        ensures small { result < 2 ^ 63 }
    {
        self.pairs.len()
    }

    pub(super) fn as_slice(&self) -> &[(K, V)]
        ensures value { result.now ≡ self.now }
        ensures fits { length self.now < 2 ^ 63 }
    {
        self.pairs.as_slice()
    }

    pub(super) fn get(&self, key: &K) -> Option<&V>
        ensures { option_copied result ≡ lookup (K.eq key.now) self.now }
    {
        let i = self.get_index_of(key)?;
        Some(&self.pairs.as_slice()[i].1)
    }

    pub(super) fn get_index_of(&self, key: &K) -> Option<usize>
        ensures index { result ≡ position (K.eq key.now) (keys_of self.now) }
        ensures within { IfSome result (λ i. i < length self.now) }
        ensures value { IfSome result (λ i. (d : K × V)
            → lookup (K.eq key.now) self.now ≡ Some (slice_index_or self.now i d).1) }
        ensures absent { IfNone result (lookup (K.eq key.now) self.now ≡ None) }
    {
        place_of(&self.places, self.pairs.as_slice(), key)
    }

    pub(super) fn get_index_mut(&mut self, index: usize) -> Option<&mut V>
        ensures* writes_back { sem 𝓛 (lends_index K.row V.row K.Hash self.entry index result) }
        ensures value { option_copied_mut result ≡ slice_get (values_of self.old) index }
    {
        match self.pairs.get_mut(index) {
            Some(pair) => Some(&mut pair.1),
            None => None,
        }
    }
}

impl<K: Eq + Hash + Drop, V: Drop> PairTable<K, V> {
    // Takes the pairs from a map, and a new one after them. Where memory is refused it hands that
    // back, and the others stay.
    pub(super) fn take(indexed: &mut PairMap<K, V>, key: K, value: V) -> Result<Self, (K, V)>
        requires distinct { IsDistinct K.eq (keys_of indexed.old.entries) }
        requires new { lookup (K.eq key) indexed.old.entries ≡ None }
        ensures ok { IfOk result (λ h. h ≡ insert_entry K.eq indexed.old.entries key value) }
        ensures unique { IfOk result (λ h. IsDistinct K.eq (keys_of h)) }
        ensures err { OnErr result (indexed.new.entries ≡ indexed.old.entries) }
        ensures returned { IfErr result (λ pair. pair ≡ (key, value)) }
    {
        let Ok(places) = places_with(*indexed.allocator(), indexed.keys().as_slice(), &key) else {
            return Err((key, value));
        };
        match list_of(indexed) {
            Ok(mut pairs) => {
                pairs.push_reserved((key, value));
                Ok(PairTable { pairs, places })
            }
            Err(_) => Err((key, value)),
        }
    }

    // The digest of a new key is made once, and looked for twice: what is noted of it, and the
    // note.
    pub(super) fn insert(&mut self, key: K, value: V) -> Result<(), (K, V)>
        ensures ok { OnOk result (self.new ≡ insert_entry K.eq self.old key value) }
        ensures err { OnErr result (self.new ≡ self.old) }
        ensures returned { IfErr result (λ pair. pair ≡ (key, value)) }
        ensures absent { OnErr result (lookup (K.eq key) self.old ≡ None) }
        ensures unique { IsDistinct K.eq (keys_of self.new) }
    {
        let digest = digest_of(&key);
        let was = note_of_digest(&self.places, digest);
        if let Some(i) = place_by_note(was, self.pairs.as_slice(), &key) {
            put_value(self.pairs.as_mut_slice(), i, value);
            return Ok(());
        }
        match make_room(&mut self.pairs, &mut self.places, digest, was) {
            Ok(()) => {
                self.pairs.push_reserved((key, value));
                Ok(())
            }
            Err(_) => Err((key, value)),
        }
    }

    pub(super) fn swap_remove(&mut self, key: &K) -> Option<V>
        ensures value { result ≡ lookup (K.eq key.now) self.old }
        ensures entries { self.new ≡ swap_remove_entry (K.eq key.now) self.old }
        ensures unique { IsDistinct K.eq (keys_of self.new) }
    {
        let i = self.get_index_of(key)?;
        Some(remove_at(&mut self.pairs, &mut self.places, i))
    }
}

impl<K: Eq + Hash + Clone, V: Clone> PairTable<K, V> {
    // What is noted is copied with the pairs. A clone of a key or a value must be that key or
    // value.
    pub(super) fn clone(&self) -> Result<Self, AllocError>
        requires keys { ClonesAreEqual K.is_clone (keys_of self.now) }
        requires values { ClonesAreEqual V.is_clone (values_of self.now) }
        ensures ok { IfOk result (λ h. h ≡ self.now) }
        ensures unique { IfOk result (λ h. IsDistinct K.eq (keys_of h)) }
    {
        Ok(PairTable {
            pairs: self.pairs.clone()?,
            places: copy_places(&self.places)?,
        })
    }
}

// Makes room for a pair whose key is new, and notes where it comes to stand. What was noted of its
// digest is `was`.
fn make_room<K, V>(
    pairs: &mut Vec<(K, V)>,
    places: &mut BTreeMap<(u128, u128), Place>,
    digest: (u128, u128),
    was: Option<Place>,
) -> Result<(), AllocError>
    ensures items { pairs.new.items ≡ pairs.old.items }
    ensures room { OnOk result (vec_len pairs.new < vec_capacity pairs.new) }
    ensures ok { OnOk result (Notes (note_of places.old.entries) (note_of places.new.entries) digest
        (with_key was (length pairs.old.items))) }
    ensures err { OnErr result (places.new.entries ≡ places.old.entries) }
{
    pairs.reserve(1)?;
    note(places, digest, was, pairs.len())
}

// Removes the pair at `at`, and moves the last one into its place.
fn remove_at<K: Eq + Hash + Drop, V: Drop>(
    pairs: &mut Vec<(K, V)>,
    places: &mut BTreeMap<(u128, u128), Place>,
    at: usize,
) -> V
    requires within { at < length pairs.old.items }
    requires allowed { AllowsKeys K.hash_input places.old (keys_of pairs.old.items) }
    ensures value { Some result ≡ slice_get (values_of pairs.old.items) at }
    ensures items { (d : K × V) → pairs.new.items ≡ swap_remove pairs.old.items at d }
    ensures allowed { AllowsKeys K.hash_input places.new (keys_of pairs.new.items) }
{
    note_swap(places, pairs.as_slice(), at);
    let (_, value) = pairs.swap_remove(at);
    value
}

// Moves the pairs to a list with room for one more. What can fail comes first, so an `Err` moves
// none.
fn list_of<K: Eq + Hash + Drop, V: Drop>(
    indexed: &mut PairMap<K, V>,
) -> Result<Vec<(K, V)>, AllocError>
    ensures items { IfOk result (λ v. v.items ≡ indexed.old.entries) }
    ensures room { IfOk result (λ v. vec_len v < vec_capacity v) }
    ensures err { OnErr result (indexed.new.entries ≡ indexed.old.entries) }
{
    let room = indexed.len().checked_add(1).ok_or(AllocError)?;
    let mut pairs = Vec::with_capacity(*indexed.allocator(), room)?;
    for pair in indexed.drain(..) {
        pairs.push_reserved(pair);
    }
    Ok(pairs)
}
