//! Containers with room inline: scripts of calls, and what each call answers and leaves.
use std::alloc::Global;
use tl_base::inline::hashmap::InlineHashMap;
use tl_base::inline::vec::InlineVec;

type Items = &'static [u8];

type Pairs = &'static [(u8, u8)];

// How many items or pairs have room inline.
enum Room {
    None,
    One,
    Two,
    Four,
}

// A call on a vector, with what it must answer, or what the vector must hold and whether on the
// heap.
enum VecStep {
    Push(u8),
    // Refused, it hands the item back and leaves these items inline; else these lie on the heap.
    PushOrKeep(u8, Items, Items),
    Remove(usize, u8),
    Index(usize, u8),
    Get(usize, Option<u8>),
    Set(usize, u8),
    NoInlineParts,
    // Writes this over each inline item.
    Fill(u8),
    Holds(Items, bool),
    CloneHolds(Items, bool),
    CopyHolds(Items),
    Prints(&'static str),
}

// How many items have room inline, what the script shows, and its steps.
type VecScript = (Room, &'static str, &'static [VecStep]);

#[rattlefmt::skip]
static VECTORS: [VecScript; 8] = [
    (Room::None, "a copy of no items", &[VecStep::CopyHolds(&[]), VecStep::Push(7), VecStep::Remove(0, 7), VecStep::CopyHolds(&[]),]),
    (Room::None, "no item fits inline in a vector of none", &[VecStep::Holds(&[], false), VecStep::Push(7), VecStep::Holds(&[7], true), VecStep::Remove(0, 7), VecStep::Holds(&[], true),]),
    (Room::One, "a refused push leaves the vector", &[VecStep::Push(1), VecStep::PushOrKeep(2, &[1, 2], &[1])]),
    (Room::Two, "a vector on the heap gives its items in order", &[VecStep::Push(13), VecStep::Push(42), VecStep::Push(17), VecStep::Push(19), VecStep::Holds(&[13, 42, 17, 19], true),]),
    (Room::Two, "inline items are written", &[VecStep::Push(1), VecStep::Push(2), VecStep::CloneHolds(&[1, 2], false), VecStep::Set(1, 5), VecStep::Holds(&[1, 5], false), VecStep::Fill(4), VecStep::Holds(&[4, 4], false),]),
    (Room::Two, "items on the heap are written", &[VecStep::Push(4), VecStep::Push(6), VecStep::Push(8), VecStep::NoInlineParts, VecStep::Set(2, 9), VecStep::Holds(&[4, 6, 9], true),]),
    (Room::Two, "copies and prints", &[VecStep::Push(1), VecStep::Push(2), VecStep::Push(3), VecStep::CloneHolds(&[1, 2, 3], true), VecStep::CopyHolds(&[1, 2, 3]), VecStep::Prints("InlineVec(InlineVec<3 items>)"),]),
    (Room::Four, "one item too many moves a vector", &[VecStep::Push(0), VecStep::Push(2), VecStep::Push(4), VecStep::Push(6), VecStep::Holds(&[0, 2, 4, 6], false), VecStep::Index(3, 6), VecStep::Remove(2, 4), VecStep::Push(8), VecStep::Holds(&[0, 2, 6, 8], false), VecStep::Push(10), VecStep::Holds(&[0, 2, 6, 8, 10], true),]),
];

// Whether these are the items, by each call that reads them, and lie there.
fn holds<const N: usize>(v: &InlineVec<u8, N>, items: &[u8], on_heap: bool) -> bool {
    v.as_slice() == items
        && v.iter().eq(items.iter())
        && v.len() == items.len()
        && v.is_empty() == items.is_empty()
        && v.is_heap_allocated() == on_heap
}

fn clone_holds<const N: usize>(v: &InlineVec<u8, N>, items: &[u8], on_heap: bool) -> bool {
    match v.clone() {
        Ok(copy) => holds(&copy, items, on_heap),
        Err(_) => false,
    }
}

fn copy_holds<const N: usize>(alloc: Global, v: &InlineVec<u8, N>, items: &[u8]) -> bool {
    match v.to_vec(alloc) {
        Ok(copy) => copy.as_slice() == items,
        Err(_) => false,
    }
}

fn prints<const N: usize>(alloc: Global, v: &InlineVec<u8, N>, text: &str) -> bool {
    match format!(in alloc; "{v:?}") {
        Ok(made) => made.as_str() == text,
        Err(_) => false,
    }
}

fn push_or_keep<const N: usize>(
    v: &mut InlineVec<u8, N>,
    item: u8,
    pushed: &[u8],
    kept: &[u8],
) -> bool {
    match v.push(item) {
        Ok(()) => holds(v, pushed, true),
        Err(back) => back == item && holds(v, kept, false),
    }
}

fn set<const N: usize>(v: &mut InlineVec<u8, N>, at: usize, item: u8) -> bool {
    match v.get_mut(at) {
        Some(place) => {
            *place = item;
            true
        }
        None => false,
    }
}

fn fill<const N: usize>(v: &mut InlineVec<u8, N>, item: u8) -> bool {
    match v.inline_parts_mut() {
        Some(items) => {
            items.fill(item);
            true
        }
        None => false,
    }
}

// Whether the vector answers the step as it must.
fn vec_obeys<const N: usize>(alloc: Global, v: &mut InlineVec<u8, N>, step: &VecStep) -> bool {
    match step {
        VecStep::Push(item) => v.push(*item).is_ok(),
        VecStep::PushOrKeep(item, pushed, kept) => push_or_keep(v, *item, pushed, kept),
        VecStep::Remove(at, item) => *at < v.len() && v.remove(*at) == *item,
        VecStep::Index(at, item) => *at < v.len() && v[*at] == *item,
        VecStep::Get(at, item) => v.get(*at).copied() == *item,
        VecStep::Set(at, item) => set(v, *at, *item),
        VecStep::NoInlineParts => v.inline_parts_mut().is_none(),
        VecStep::Fill(item) => fill(v, *item),
        VecStep::Holds(items, on_heap) => holds(v, items, *on_heap),
        VecStep::CloneHolds(items, on_heap) => clone_holds(v, items, *on_heap),
        VecStep::CopyHolds(items) => copy_holds(alloc, v, items),
        VecStep::Prints(text) => prints(alloc, v, text),
    }
}

// How many steps the vector obeys before one that it doesn't.
fn vec_obeyed<const N: usize>(alloc: Global, mut v: InlineVec<u8, N>, steps: &[VecStep]) -> usize {
    for (at, step) in steps.iter().enumerate() {
        if !vec_obeys(alloc, &mut v, step) {
            return at;
        }
    }
    steps.len()
}

// How many steps a new vector with this room obeys.
fn new_vec_obeyed(alloc: Global, room: &Room, steps: &[VecStep]) -> usize {
    match room {
        Room::None => vec_obeyed::<0>(alloc, InlineVec::new(alloc), steps),
        Room::One => vec_obeyed::<1>(alloc, InlineVec::new(alloc), steps),
        Room::Two => vec_obeyed::<2>(alloc, InlineVec::new(alloc), steps),
        Room::Four => vec_obeyed::<4>(alloc, InlineVec::new(alloc), steps),
    }
}

#[test]
fn vectors(rt: HostRuntime) {
    for (room, name, steps) in &VECTORS {
        let obeyed = new_vec_obeyed(rt.alloc(), room, steps);
        assert!(rt; obeyed == steps.len(), "{name}: step {obeyed}");
    }
}

// A call on a map, with what it must answer, or what the map must hold and whether on the heap.
enum MapStep {
    Insert(u8, u8),
    // Refused, it hands the pair back and leaves these pairs inline; else these lie on the heap.
    InsertOrKeep((u8, u8), Pairs, Pairs),
    Remove(u8, u8),
    Get(u8, u8),
    Lacks(u8),
    Set(u8, u8),
    Holds(Pairs, bool),
    CloneHolds(Pairs, bool),
    // Inserts each key from the first up to the second, with 255 less the key as its value.
    InsertRow(u8, u8),
    // These pairs lie on the heap, in the order of their keys.
    HoldsRow(u8, u8),
    CloneHoldsRow(u8, u8),
    // Pairs with these keys and such values lie on the heap in this order.
    HoldsKeys(Items),
    // How many pairs the copy has, and one of them.
    CopyHas(usize, u8, u8),
    CopyIsEmpty,
    Prints(&'static str),
}

// How many pairs have room inline, what the script shows, and its steps.
type MapScript = (Room, &'static str, &'static [MapStep]);

#[rattlefmt::skip]
static MAPS: [MapScript; 15] = [
    (Room::None, "a copy of no pairs", &[MapStep::CopyIsEmpty, MapStep::Insert(1, 2), MapStep::Remove(1, 2), MapStep::CopyIsEmpty,]),
    (Room::None, "no pair fits inline in a map of none", &[MapStep::Holds(&[], false), MapStep::Insert(1, 2), MapStep::Holds(&[(1, 2)], true), MapStep::Remove(1, 2), MapStep::Holds(&[], true),]),
    (Room::One, "a pair inline", &[MapStep::Insert(3, 4), MapStep::CloneHolds(&[(3, 4)], false), MapStep::CopyHas(1, 3, 4), MapStep::Set(3, 7), MapStep::Get(3, 7), MapStep::Lacks(9),]),
    (Room::One, "two pairs on the heap", &[MapStep::Insert(1, 2), MapStep::Insert(3, 4), MapStep::CloneHolds(&[(1, 2), (3, 4)], true), MapStep::CopyHas(2, 3, 4), MapStep::Set(3, 7), MapStep::Get(3, 7), MapStep::Lacks(9),]),
    (Room::Two, "a key keeps its place", &[MapStep::Insert(1, 1), MapStep::Insert(2, 2), MapStep::Insert(1, 9), MapStep::Holds(&[(1, 9), (2, 2)], false), MapStep::Insert(3, 3), MapStep::Holds(&[(1, 9), (2, 2), (3, 3)], true), MapStep::Remove(1, 9), MapStep::Holds(&[(3, 3), (2, 2)], true), MapStep::Insert(2, 5), MapStep::Holds(&[(3, 3), (2, 5)], true),]),
    (Room::Two, "a refused insert leaves the map", &[MapStep::Insert(1, 9), MapStep::Insert(2, 2), MapStep::InsertOrKeep((3, 3), &[(1, 9), (2, 2), (3, 3)], &[(1, 9), (2, 2)]),]),
    (Room::Two, "prints", &[MapStep::Insert(1, 2), MapStep::Prints("InlineHashMap(InlineHashMap<1 items>)"),]),
    (Room::Two, "no pair is lost as more come to the heap", &[MapStep::InsertRow(0, 3), MapStep::HoldsRow(0, 3), MapStep::InsertRow(3, 16), MapStep::HoldsRow(0, 16), MapStep::CloneHoldsRow(0, 16), MapStep::Lacks(16), MapStep::InsertRow(16, 17), MapStep::HoldsRow(0, 17), MapStep::CloneHoldsRow(0, 17), MapStep::CopyHas(17, 16, 239), MapStep::InsertRow(17, 18), MapStep::HoldsRow(0, 18), MapStep::InsertRow(18, 40), MapStep::HoldsRow(0, 40), MapStep::Lacks(40),]),
    (Room::Two, "a key on the heap keeps its place, among few and among many", &[MapStep::InsertRow(0, 16), MapStep::Set(0, 1), MapStep::Insert(15, 2), MapStep::Get(0, 1), MapStep::Get(15, 2), MapStep::InsertRow(0, 16), MapStep::HoldsRow(0, 16), MapStep::InsertRow(16, 40), MapStep::Set(0, 1), MapStep::Insert(39, 2), MapStep::Get(0, 1), MapStep::Get(39, 2), MapStep::InsertRow(0, 40), MapStep::HoldsRow(0, 40),]),
    (Room::Two, "pairs leave a list", &[MapStep::InsertRow(0, 5), MapStep::Remove(0, 255), MapStep::HoldsKeys(&[4, 1, 2, 3]), MapStep::Lacks(0), MapStep::Remove(3, 252), MapStep::InsertRow(0, 1), MapStep::HoldsKeys(&[4, 1, 2, 0]), MapStep::Remove(2, 253), MapStep::Remove(4, 251), MapStep::HoldsKeys(&[0, 1]),]),
    (Room::Two, "the first keys of many leave", &[MapStep::InsertRow(0, 18), MapStep::Remove(0, 255), MapStep::HoldsKeys(&[17, 1, 2, 3, 4, 5, 6, 7, 8, 9, 10, 11, 12, 13, 14, 15, 16]), MapStep::Remove(1, 254), MapStep::HoldsKeys(&[17, 16, 2, 3, 4, 5, 6, 7, 8, 9, 10, 11, 12, 13, 14, 15]), MapStep::Remove(17, 238), MapStep::Lacks(0), MapStep::Lacks(1), MapStep::Lacks(17), MapStep::InsertRow(0, 2), MapStep::HoldsKeys(&[15, 16, 2, 3, 4, 5, 6, 7, 8, 9, 10, 11, 12, 13, 14, 0, 1]),]),
    (Room::Two, "no pair is lost as many become more", &[MapStep::InsertRow(0, 64), MapStep::HoldsRow(0, 64), MapStep::InsertRow(64, 65), MapStep::HoldsRow(0, 65), MapStep::CloneHoldsRow(0, 65), MapStep::Lacks(65), MapStep::InsertRow(65, 200), MapStep::HoldsRow(0, 200), MapStep::CloneHoldsRow(0, 200), MapStep::CopyHas(200, 199, 56), MapStep::Lacks(200),]),
    (Room::Two, "a key keeps its place among many", &[MapStep::InsertRow(0, 200), MapStep::Set(0, 1), MapStep::Insert(199, 2), MapStep::Get(0, 1), MapStep::Get(199, 2), MapStep::InsertRow(0, 200), MapStep::HoldsRow(0, 200),]),
    (Room::Two, "many keys leave from the middle, the front and the end", &[MapStep::InsertRow(0, 70), MapStep::Remove(5, 250), MapStep::HoldsKeys(&[0, 1, 2, 3, 4, 69, 6, 7, 8, 9, 10, 11, 12, 13, 14, 15, 16, 17, 18, 19, 20, 21, 22, 23, 24, 25, 26, 27, 28, 29, 30, 31, 32, 33, 34, 35, 36, 37, 38, 39, 40, 41, 42, 43, 44, 45, 46, 47, 48, 49, 50, 51, 52, 53, 54, 55, 56, 57, 58, 59, 60, 61, 62, 63, 64, 65, 66, 67, 68,]), MapStep::Lacks(5), MapStep::Remove(8, 247), MapStep::HoldsKeys(&[0, 1, 2, 3, 4, 69, 6, 7, 68, 9, 10, 11, 12, 13, 14, 15, 16, 17, 18, 19, 20, 21, 22, 23, 24, 25, 26, 27, 28, 29, 30, 31, 32, 33, 34, 35, 36, 37, 38, 39, 40, 41, 42, 43, 44, 45, 46, 47, 48, 49, 50, 51, 52, 53, 54, 55, 56, 57, 58, 59, 60, 61, 62, 63, 64, 65, 66, 67,]), MapStep::InsertRow(8, 9), MapStep::Remove(8, 247), MapStep::Lacks(8), MapStep::Remove(0, 255), MapStep::Get(67, 188), MapStep::InsertRow(0, 9), MapStep::Get(0, 255), MapStep::Get(5, 250), MapStep::Get(8, 247),]),
    (Room::Four, "the last pair moves into the place", &[MapStep::Insert(0, 0), MapStep::Insert(1, 2), MapStep::Insert(2, 4), MapStep::Insert(3, 6), MapStep::Remove(2, 4), MapStep::Holds(&[(0, 0), (1, 2), (3, 6)], false), MapStep::Insert(1, 9), MapStep::Holds(&[(0, 0), (1, 9), (3, 6)], false),]),
];

// Whether these are the pairs in order, by each call that reads them.
fn has_pairs<const N: usize>(map: &InlineHashMap<u8, u8, N>, pairs: &[(u8, u8)]) -> bool {
    if map.len() != pairs.len() || map.is_empty() != pairs.is_empty() {
        return false;
    }
    for ((key, value), pair) in map.iter().zip(pairs) {
        if (*key, *value) != *pair {
            return false;
        }
    }
    true
}

// Whether these are the pairs and lie there.
fn map_holds<const N: usize>(
    map: &InlineHashMap<u8, u8, N>,
    pairs: &[(u8, u8)],
    on_heap: bool,
) -> bool {
    let inline = if on_heap { None } else { Some(pairs) };
    map.is_heap_allocated() == on_heap && map.inline_parts() == inline && has_pairs(map, pairs)
}

fn map_clone_holds<const N: usize>(
    map: &InlineHashMap<u8, u8, N>,
    pairs: &[(u8, u8)],
    on_heap: bool,
) -> bool {
    match map.clone() {
        Ok(copy) => map_holds(&copy, pairs, on_heap),
        Err(_) => false,
    }
}

// Whether each key from the first up to the second goes in, with 255 less the key as its value.
fn insert_row<const N: usize>(map: &mut InlineHashMap<u8, u8, N>, first: u8, end: u8) -> bool {
    for key in first..end {
        if map.insert(key, u8::MAX - key).is_err() {
            return false;
        }
    }
    true
}

// Whether a look-up of the key finds 255 less it.
fn finds<const N: usize>(map: &InlineHashMap<u8, u8, N>, key: u8) -> bool {
    map.get(&key) == Some(&(u8::MAX - key))
}

// Whether these are the keys, in order and on the heap, and each is found.
fn holds_keys<const N: usize>(map: &InlineHashMap<u8, u8, N>, keys: &[u8]) -> bool {
    if map.len() != keys.len() || !map.is_heap_allocated() {
        return false;
    }
    for ((key, _), wanted) in map.iter().zip(keys) {
        if *key != *wanted || !finds(map, *wanted) {
            return false;
        }
    }
    true
}

fn holds_row<const N: usize>(map: &InlineHashMap<u8, u8, N>, first: u8, end: u8) -> bool {
    if map.len() != usize::from(end.saturating_sub(first)) || !map.is_heap_allocated() {
        return false;
    }
    for ((key, _), wanted) in map.iter().zip(first..end) {
        if *key != wanted || !finds(map, wanted) {
            return false;
        }
    }
    true
}

fn clone_holds_row<const N: usize>(map: &InlineHashMap<u8, u8, N>, first: u8, end: u8) -> bool {
    match map.clone() {
        Ok(copy) => holds_row(&copy, first, end),
        Err(_) => false,
    }
}

fn map_copy_has<const N: usize>(
    alloc: Global,
    map: &InlineHashMap<u8, u8, N>,
    count: usize,
    key: u8,
    value: u8,
) -> bool {
    match map.to_map(alloc) {
        Ok(copy) => copy.len() == count && copy.get(&key) == Some(&value),
        Err(_) => false,
    }
}

fn map_copy_is_empty<const N: usize>(alloc: Global, map: &InlineHashMap<u8, u8, N>) -> bool {
    match map.to_map(alloc) {
        Ok(copy) => copy.is_empty(),
        Err(_) => false,
    }
}

fn map_prints<const N: usize>(alloc: Global, map: &InlineHashMap<u8, u8, N>, text: &str) -> bool {
    match format!(in alloc; "{map:?}") {
        Ok(made) => made.as_str() == text,
        Err(_) => false,
    }
}

fn insert_or_keep<const N: usize>(
    map: &mut InlineHashMap<u8, u8, N>,
    pair: (u8, u8),
    inserted: &[(u8, u8)],
    kept: &[(u8, u8)],
) -> bool {
    let (key, value) = pair;
    match map.insert(key, value) {
        Ok(()) => map_holds(map, inserted, true),
        Err(back) => back == pair && map_holds(map, kept, false),
    }
}

fn map_set<const N: usize>(map: &mut InlineHashMap<u8, u8, N>, key: u8, value: u8) -> bool {
    match map.get_mut(&key) {
        Some(place) => {
            *place = value;
            true
        }
        None => false,
    }
}

// Whether the map answers the step as it must.
fn map_obeys<const N: usize>(
    alloc: Global,
    map: &mut InlineHashMap<u8, u8, N>,
    step: &MapStep,
) -> bool {
    match step {
        MapStep::Insert(key, value) => map.insert(*key, *value).is_ok(),
        MapStep::InsertOrKeep(pair, inserted, kept) => insert_or_keep(map, *pair, inserted, kept),
        MapStep::Remove(key, value) => map.remove(key) == Some(*value),
        MapStep::Get(key, value) => map.get(key) == Some(value) && map.contains_key(key),
        MapStep::Lacks(key) => map.get_mut(key).is_none(),
        MapStep::Set(key, value) => map_set(map, *key, *value),
        MapStep::Holds(pairs, on_heap) => map_holds(map, pairs, *on_heap),
        MapStep::CloneHolds(pairs, on_heap) => map_clone_holds(map, pairs, *on_heap),
        MapStep::InsertRow(first, end) => insert_row(map, *first, *end),
        MapStep::HoldsRow(first, end) => holds_row(map, *first, *end),
        MapStep::CloneHoldsRow(first, end) => clone_holds_row(map, *first, *end),
        MapStep::HoldsKeys(keys) => holds_keys(map, keys),
        MapStep::CopyHas(count, key, value) => map_copy_has(alloc, map, *count, *key, *value),
        MapStep::CopyIsEmpty => map_copy_is_empty(alloc, map),
        MapStep::Prints(text) => map_prints(alloc, map, text),
    }
}

// How many steps the map obeys before one that it doesn't.
fn map_obeyed<const N: usize>(
    alloc: Global,
    mut map: InlineHashMap<u8, u8, N>,
    steps: &[MapStep],
) -> usize {
    for (at, step) in steps.iter().enumerate() {
        if !map_obeys(alloc, &mut map, step) {
            return at;
        }
    }
    steps.len()
}

// How many steps a new map with this room obeys.
fn new_map_obeyed(alloc: Global, room: &Room, steps: &[MapStep]) -> usize {
    match room {
        Room::None => map_obeyed::<0>(alloc, InlineHashMap::new(alloc), steps),
        Room::One => map_obeyed::<1>(alloc, InlineHashMap::new(alloc), steps),
        Room::Two => map_obeyed::<2>(alloc, InlineHashMap::new(alloc), steps),
        Room::Four => map_obeyed::<4>(alloc, InlineHashMap::new(alloc), steps),
    }
}

#[test]
fn maps(rt: HostRuntime) {
    for (room, name, steps) in &MAPS {
        let obeyed = new_map_obeyed(rt.alloc(), room, steps);
        assert!(rt; obeyed == steps.len(), "{name}: step {obeyed}");
    }
}
