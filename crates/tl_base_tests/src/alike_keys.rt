//! Maps of keys that feed nothing to a hasher, so that none can be told from another but by a
//! comparison.
ghost use Rattle.std.specs.Prelude.{refl, []};

use std::hash::{Hash, Hasher};
use tl_base::inline::hashmap::InlineHashMap;

#[derive(Default, Clone, PartialEq, Eq, Drop)]
struct Alike(u16);

impl Hash for Alike {
    ghost hash_input = { λ _. [] };

    ghost respects_eq = { λ _ _ _. refl };

    fn hash<H: Hasher>(&self, _state: &mut H) {}
}

type Map = InlineHashMap<Alike, u16, 2>;

// Whether each key from the first up to the second goes in, with 65535 less the key as its value.
fn insert_row(map: &mut Map, first: u16, end: u16) -> bool {
    for key in first..end {
        if map.insert(Alike(key), u16::MAX - key).is_err() {
            return false;
        }
    }
    true
}

// Whether the map has these keys in order, and each is found.
fn holds_keys(map: &Map, keys: &[u16]) -> bool {
    if map.len() != keys.len() {
        return false;
    }
    for ((key, _), wanted) in map.iter().zip(keys) {
        if key.0 != *wanted || !finds(map, *wanted) {
            return false;
        }
    }
    true
}

fn finds(map: &Map, key: u16) -> bool {
    map.get(&Alike(key)) == Some(&(u16::MAX - key))
}

// Whether the map has the keys from 0 up to the end, and none beyond it.
fn holds_row(map: &Map, end: u16) -> bool {
    for key in 0..end {
        if !finds(map, key) {
            return false;
        }
    }
    map.len() == usize::from(end) && map.get(&Alike(end)).is_none()
}

fn clone_holds_row(map: &Map, end: u16) -> bool {
    match map.clone() {
        Ok(copy) => holds_row(&copy, end),
        Err(_) => false,
    }
}

fn removes(map: &mut Map, key: u16) -> bool {
    map.remove(&Alike(key)) == Some(u16::MAX - key) && map.get(&Alike(key)).is_none()
}

#[test]
fn many_keys_are_told_apart(rt: HostRuntime) {
    let mut map = InlineHashMap::new(rt.alloc());
    assert!(rt;
        insert_row(&mut map, 0, 1025) && holds_row(&map, 1025),
        "1025 keys"
    );
    assert!(rt;
        insert_row(&mut map, 0, 1100) && holds_row(&map, 1100),
        "1100 keys"
    );
    assert!(rt; clone_holds_row(&map, 1100), "a clone of 1100 keys");
}

#[test]
fn keys_leave_from_the_middle(rt: HostRuntime) {
    let mut map = InlineHashMap::new(rt.alloc());
    assert!(rt; insert_row(&mut map, 0, 1026), "1026 keys");
    assert!(rt;
        removes(&mut map, 5) && removes(&mut map, 1024) && removes(&mut map, 0),
        "three leave"
    );
    assert!(rt;
        insert_row(&mut map, 0, 1) && finds(&map, 0) && finds(&map, 1025),
        "one comes back"
    );
    for key in 6..1024 {
        assert!(rt; removes(&mut map, key), "key {key} leaves");
    }
    assert!(rt; holds_keys(&map, &[0, 1, 2, 3, 4, 1025]), "what is left");
}
