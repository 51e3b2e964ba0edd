//! Where keys stand in a list of pairs, by their digests.
ghost use Rattle.std.specs.Prelude.{◌≡◌, ◌++◌, ◌∷◌, [], ◌<◌, length, position, slice_index_or, None, Some, IfSome, IfNone, IfOk, OnOk, OnErr};
ghost use Rattle.std.specs.List.{swap_remove};
ghost use Rattle.std.specs.Map.{keys_of, lookup};
ghost use Rattle.tl_inline.specs.Digest.{Digest, digest_of};
ghost use Rattle.tl_inline.specs.Places.{AllowsKey, AllowsKeys, Notes, moved_to, note_of, passes_at, with_key, without_alone};

use super::digest::digest_of;
use crate::inline::hashmap::pairs::find;
use std::alloc::{AllocError, Global};
use std::collections::BTreeMap;
use std::hash::Hash;

// What is noted of a digest: where the one key that has it stands, or that several have had it.
#[derive(Clone, Copy)]
pub(super) enum Place {
    Alone(usize),
    Several,
}

// The place of the pair with this key.
pub(super) fn place_of<K: Hash, V>(
    places: &BTreeMap<(u128, u128), Place>,
    pairs: &[(K, V)],
    key: &K,
) -> Option<usize>
    requires { AllowsKeys K.hash_input places.now (keys_of pairs.now) }
    ensures index { result ≡ position (K.eq key.now) (keys_of pairs.now) }
    ensures within { IfSome result (λ i. i < length pairs.now) }
    ensures value { IfSome result (λ i. (d : K × V)
        → lookup (K.eq key.now) pairs.now ≡ Some (slice_index_or pairs.now i d).1) }
    ensures absent { IfNone result (lookup (K.eq key.now) pairs.now ≡ None) }
{
    place_by_note(note_of_digest(places, digest_of(key)), pairs, key)
}

// The place of the pair with this key, by what is noted of the key's digest.
pub(super) fn place_by_note<K: Eq, V>(
    note: Option<Place>,
    pairs: &[(K, V)],
    key: &K,
) -> Option<usize>
    requires { AllowsKey (K.eq key.now) note (keys_of pairs.now) }
    ensures index { result ≡ position (K.eq key.now) (keys_of pairs.now) }
    ensures within { IfSome result (λ i. i < length pairs.now) }
    ensures value { IfSome result (λ i. (d : K × V)
        → lookup (K.eq key.now) pairs.now ≡ Some (slice_index_or pairs.now i d).1) }
    ensures absent { IfNone result (lookup (K.eq key.now) pairs.now ≡ None) }
{
    index_by_note(note, pairs, key)
}

// Whatever is noted, a key is compared before its place is answered.
fn index_by_note<K: Eq, V>(note: Option<Place>, pairs: &[(K, V)], key: &K) -> Option<usize>
    requires { AllowsKey (K.eq key.now) note (keys_of pairs.now) }
    ensures { result ≡ position (K.eq key.now) (keys_of pairs.now) }
{
    match note {
        None => None,
        Some(place) => match place {
            Place::Several => find(pairs, key),
            Place::Alone(at) => {
                if has_key(pairs, at, key) {
                    Some(at)
                } else {
                    None
                }
            }
        },
    }
}

// Whether the pair at `at` has this key.
fn has_key<K: Eq, V>(pairs: &[(K, V)], at: usize, key: &K) -> bool
    ensures { result ≡ passes_at (K.eq key.now) pairs.now at }
{
    match pairs.get(at) {
        Some(pair) => *key == pair.0,
        None => false,
    }
}

// Where these keys stand, and a new one after them.
pub(super) fn places_with<K: Hash>(
    alloc: Global,
    keys: &[K],
    new: &K,
) -> Result<BTreeMap<(u128, u128), Place>, AllocError>
    ensures { IfOk result (λ places. AllowsKeys K.hash_input places (keys.now ++ new.now ∷ [])) }
{
    let mut places = places_of(alloc, keys)?;
    note_key(&mut places, new, keys.len())?;
    Ok(places)
}

// Where these keys stand.
fn places_of<K: Hash>(
    alloc: Global,
    keys: &[K],
) -> Result<BTreeMap<(u128, u128), Place>, AllocError>
    ensures { IfOk result (λ places. AllowsKeys K.hash_input places keys.now) }
{
    let mut places = BTreeMap::new(alloc);
    for at in 0..keys.len() {
        note_key(&mut places, &keys[at], at)?;
    }
    Ok(places)
}

// Notes that this key comes to stand at `at`.
fn note_key<K: Hash>(
    places: &mut BTreeMap<(u128, u128), Place>,
    key: &K,
    at: usize,
) -> Result<(), AllocError>
    ensures { let digest = digest_of (K.hash_input key.now) in
        OnOk result (Notes (note_of places.old.entries) (note_of places.new.entries) digest
        (with_key (note_of places.old.entries digest) at)) }
{
    let digest = digest_of(key);
    let was = note_of_digest(places, digest);
    note(places, digest, was, at)
}

// Notes that a key with this digest, of which `was` is noted, comes to stand at `at`.
pub(super) fn note(
    places: &mut BTreeMap<(u128, u128), Place>,
    digest: (u128, u128),
    was: Option<Place>,
    at: usize,
) -> Result<(), AllocError>
    ensures ok { OnOk result (Notes (note_of places.old.entries) (note_of places.new.entries) digest
        (with_key was at)) }
    ensures err { OnErr result (places.new.entries ≡ places.old.entries) }
{
    let place = match was {
        None => Place::Alone(at),
        Some(_) => Place::Several,
    };
    match places.insert(digest, place) {
        Ok(_) => Ok(()),
        Err(_) => Err(AllocError),
    }
}

// Before the pair at `at` goes and the last one takes its place: what is noted of both is set
// right.
pub(super) fn note_swap<K: Hash, V>(
    places: &mut BTreeMap<(u128, u128), Place>,
    pairs: &[(K, V)],
    at: usize,
)
    requires within { at < length pairs.now }
    requires allowed { AllowsKeys K.hash_input places.old (keys_of pairs.now) }
    ensures { (p : K × V)
        → AllowsKeys K.hash_input places.new (keys_of (swap_remove pairs.now at p)) }
{
    forget(places, digest_of(&pairs[at].0));
    note_move(places, digest_of(&pairs[pairs.len() - 1].0), at);
}

// Forgets the key that stands alone with this digest.
fn forget(places: &mut BTreeMap<(u128, u128), Place>, digest: (u128, u128))
    ensures { Notes (note_of places.old.entries) (note_of places.new.entries) digest
        (without_alone (note_of places.old.entries digest)) }
{
    if let Some(Place::Alone(_)) = note_of_digest(places, digest) {
        places.remove(&digest);
    }
}

// Notes that the key that stands alone with this digest comes to stand at `at`.
fn note_move(places: &mut BTreeMap<(u128, u128), Place>, digest: (u128, u128), at: usize)
    ensures { Notes (note_of places.old.entries) (note_of places.new.entries) digest
        (moved_to (note_of places.old.entries digest) at) }
{
    if let Some(Place::Alone(_)) = note_of_digest(places, digest) {
        match places.insert(digest, Place::Alone(at)) {
            Ok(_) => {}
            Err(_) => unreachable!(),
        }
    }
}

// The same notes.
pub(super) fn copy_places(
    places: &BTreeMap<(u128, u128), Place>,
) -> Result<BTreeMap<(u128, u128), Place>, AllocError>
    ensures { IfOk result (λ copy. copy.entries ≡ places.now.entries) }
{
    places.clone()
}

// What is noted of this digest.
pub(super) fn note_of_digest(
    places: &BTreeMap<(u128, u128), Place>,
    digest: (u128, u128),
) -> Option<Place>
    ensures { result ≡ note_of places.now.entries digest }
{
    places.get(&digest).copied()
}
