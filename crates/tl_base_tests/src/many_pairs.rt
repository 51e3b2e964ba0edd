//! Maps of so many pairs that digests find a key, and of one pair fewer.
use tl_base::inline::hashmap::InlineHashMap;

type Map = InlineHashMap<u16, u16, 2>;

// Whether each key from the first up to the second goes in, with 65535 less the key as its value.
fn insert_row(map: &mut Map, first: u16, end: u16) -> bool {
    for key in first..end {
        if map.insert(key, u16::MAX - key).is_err() {
            return false;
        }
    }
    true
}

fn finds(map: &Map, key: u16) -> bool {
    map.get(&key) == Some(&(u16::MAX - key)) && map.contains_key(&key)
}

// Whether the map has the keys from 0 up to the end, in order, and none beyond it.
fn holds_row(map: &Map, end: u16) -> bool {
    for ((key, _), wanted) in map.iter().zip(0..end) {
        if *key != wanted || !finds(map, wanted) {
            return false;
        }
    }
    map.len() == usize::from(end) && map.is_heap_allocated() && map.get(&end).is_none()
}

fn clone_holds_row(map: &Map, end: u16) -> bool {
    match map.clone() {
        Ok(copy) => holds_row(&copy, end),
        Err(_) => false,
    }
}

fn set(map: &mut Map, key: u16, value: u16) -> bool {
    match map.get_mut(&key) {
        Some(place) => {
            *place = value;
            true
        }
        None => false,
    }
}

fn removes(map: &mut Map, key: u16) -> bool {
    map.remove(&key) == Some(u16::MAX - key) && map.get(&key).is_none()
}

// The key at a place.
fn key_at(map: &Map, place: usize) -> Option<u16> {
    for (at, (key, _)) in map.iter().enumerate() {
        if at == place {
            return Some(*key);
        }
    }
    None
}

#[test]
fn no_pair_is_lost_as_digests_come(rt: HostRuntime) {
    let mut map = InlineHashMap::new(rt.alloc());
    for (first, end) in [(0, 1024), (1024, 1025), (1025, 3000)] {
        assert!(rt;
            insert_row(&mut map, first, end) && holds_row(&map, end) && clone_holds_row(&map, end),
            "{end} pairs"
        );
    }
}

#[test]
fn a_key_keeps_its_place(rt: HostRuntime) {
    for end in [1024, 1025] {
        let mut map = InlineHashMap::new(rt.alloc());
        assert!(rt;
            insert_row(&mut map, 0, end) && set(&mut map, 0, 1) && map.insert(7, 2).is_ok(),
            "{end} pairs"
        );
        assert!(rt;
            map.get(&0) == Some(&1) && map.get(&7) == Some(&2) && !set(&mut map, end, 1),
            "what was put, of {end} pairs"
        );
        assert!(rt;
            insert_row(&mut map, 0, end) && holds_row(&map, end),
            "what was put again, of {end} pairs"
        );
    }
}

#[test]
fn keys_leave(rt: HostRuntime) {
    let mut map = InlineHashMap::new(rt.alloc());
    assert!(rt;
        insert_row(&mut map, 0, 1100) && removes(&mut map, 5) && removes(&mut map, 1098),
        "from the middle, and from the end"
    );
    assert!(rt;
        removes(&mut map, 0) && key_at(&map, 5) == Some(1099) && key_at(&map, 0) == Some(1097),
        "from the front"
    );
    assert!(rt;
        map.len() == 1097 && finds(&map, 1099) && finds(&map, 1097),
        "the last ones have moved"
    );
    assert!(rt;
        insert_row(&mut map, 0, 6) && key_at(&map, 1098) == Some(5) && finds(&map, 0),
        "two come back"
    );
}
