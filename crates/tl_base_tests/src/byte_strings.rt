//! Byte strings: each call once, each kind of data, and what no clause says, as texts.
use std::alloc::{AllocError, Global};
use std::cmp::Ordering;
use std::collections::HashMap;
use tl_base::bytes::{Bytes, IntoOwnedBytes, SetBytesError, Shared, copied};

// Whether it could be found out, and holds.
fn sure(holds: Result<bool, AllocError>) -> bool {
    match holds {
        Ok(holds) => holds,
        Err(_) => false,
    }
}

// A text that is set, whether its length is looked at, and the old bytes that come back.
type Set = (&'static str, bool, Option<&'static [u8]>);

#[rattlefmt::skip]
static SETS: [Set; 4] = [
    ("world", true, None),
    ("", true, Some(b"world")),
    ("x", true, Some(b"")),
    ("y", false, Some(b"x")),
];

fn came_back(old: &Option<Vec<u8>>, wanted: &Option<&'static [u8]>) -> bool {
    match (old, wanted) {
        (Some(old), Some(wanted)) => old.as_slice() == *wanted,
        (None, None) => true,
        _ => false,
    }
}

fn set(alloc: Global, bytes: &mut Bytes<'_>, row: &Set) -> bool {
    let (text, _, wanted) = row;
    match bytes.set(alloc, *text) {
        Ok(old) => came_back(&old, wanted),
        Err(_) => false,
    }
}

fn set_unchecked(alloc: Global, bytes: &mut Bytes<'_>, row: &Set) -> bool {
    let (text, _, wanted) = row;
    if text.len() > u32::MAX as usize {
        return false;
    }
    match bytes.set_unchecked(alloc, *text) {
        Ok(old) => came_back(&old, wanted),
        Err(_) => false,
    }
}

// Whether the set gives back what it must, and the bytes are then its text.
fn sets(alloc: Global, bytes: &mut Bytes<'_>, row: &Set) -> bool {
    let (text, is_checked, _) = *row;
    let gave_back = if is_checked {
        set(alloc, bytes, row)
    } else {
        set_unchecked(alloc, bytes, row)
    };
    gave_back && bytes.as_bytes() == text.as_bytes()
}

// How many sets do what they must.
fn sets_done(alloc: Global, bytes: &mut Bytes<'_>) -> usize {
    for (done, row) in SETS.iter().enumerate() {
        if !sets(alloc, bytes, row) {
            return done;
        }
    }
    SETS.len()
}

fn is_y(bytes: &Bytes<'_>) -> bool {
    bytes.eq_str("y") && !bytes.eq_str("x") && bytes.eq_bytes(b"y") && !bytes.eq_bytes(b"yy")
}

// How many sets do what they must, and whether the last one leaves what it must.
fn set_in_turn(alloc: Global) -> (usize, bool) {
    let mut bytes = Bytes::from("hello");
    let done = sets_done(alloc, &mut bytes);
    (done, is_y(&bytes))
}

#[test]
fn set_and_set_unchecked(rt: HostRuntime) {
    let (done, left) = set_in_turn(rt.alloc());
    assert!(rt; done == SETS.len(), "set {done}");
    assert!(rt; left);
}

// A kind of data.
enum Kind {
    Text,
    Slice,
    Vector,
    String,
    BoxedSlice,
}

// A kind of data, a text, and what they are.
#[rattlefmt::skip]
static KINDS: [(Kind, &str, &str); 7] = [
    (Kind::Text, "ab", "text"),
    (Kind::Text, "", "empty text"),
    (Kind::Slice, "ab", "slice"),
    (Kind::Slice, "", "empty slice"),
    (Kind::Vector, "ab", "vector"),
    (Kind::String, "ab", "string"),
    (Kind::BoxedSlice, "ab", "boxed slice"),
];

// Whether the data is as long as a text, and its bytes.
fn is_text<B: IntoOwnedBytes>(alloc: Global, data: B, text: &str) -> Result<bool, AllocError> {
    let len = data.byte_len();
    let bytes = data.into_bytes(alloc)?;
    Ok(len == text.len() && bytes.as_slice() == text.as_bytes())
}

fn is_taken(alloc: Global, kind: &Kind, text: &str) -> Result<bool, AllocError> {
    let bytes = text.as_bytes();
    match kind {
        Kind::Text => is_text(alloc, text, text),
        Kind::Slice => is_text(alloc, bytes, text),
        Kind::Vector => is_text(alloc, bytes.to_vec(alloc)?, text),
        Kind::String => is_text(alloc, String::from_str(alloc, text)?, text),
        Kind::BoxedSlice => is_text(alloc, bytes.to_vec(alloc)?.into_boxed_slice(), text),
    }
}

#[test]
fn takes_each_kind_of_data(rt: HostRuntime) {
    for (kind, text, name) in &KINDS {
        assert!(rt; sure(is_taken(rt.alloc(), kind, text)), "{name}");
    }
}

// How bytes are held.
enum Held {
    Shared,
    Owned,
    Lent,
}

#[rattlefmt::skip]
static HELD: [(Held, &str); 3] = [
    (Held::Shared, "world"),
    (Held::Owned, "world"),
    (Held::Lent, ""),
];

// A slice that outlives its buffer.
fn shared_world(alloc: Global) -> Result<Bytes<'static>, AllocError> {
    let buffer = Shared::new(alloc, String::from_str(alloc, "hello world")?)?;
    buffer.slice(alloc, 6, 11)
}

fn build_bytes(alloc: Global, held: &Held) -> Result<Bytes<'static>, AllocError> {
    match held {
        Held::Shared => shared_world(alloc),
        Held::Owned => copied(alloc, b"world"),
        Held::Lent => Ok(Bytes::default()),
    }
}

// Whether the bytes are this text, and are there for good exactly if they are lent.
fn is_held(bytes: &Bytes<'static>, held: &Held, text: &str) -> bool {
    let for_good = match held {
        Held::Shared | Held::Owned => None,
        Held::Lent => Some(text.as_bytes()),
    };
    bytes.eq_str(text) && bytes.as_bytes_borrowed() == for_good
}

// Whether the bytes and a clone of them are equal, and held alike.
fn clones_alike(alloc: Global, held: &Held, text: &str) -> Result<bool, AllocError> {
    let bytes = build_bytes(alloc, held)?;
    let copy = bytes.clone()?;
    Ok(copy == bytes && is_held(&bytes, held, text) && is_held(&copy, held, text))
}

// Whether a buffer shows the whole text.
fn shows_hello(alloc: Global) -> Result<bool, AllocError> {
    let buffer = Shared::new(alloc, String::from_str(alloc, "hello")?)?;
    Ok(buffer.as_str() == "hello")
}

#[test]
fn clones_and_buffers(rt: HostRuntime) {
    for (at, (held, text)) in HELD.iter().enumerate() {
        assert!(rt;
            sure(clones_alike(rt.alloc(), held, text)),
            "row {at}: {text}"
        );
    }
    assert!(rt; sure(shows_hello(rt.alloc())));
}

// Whether bytes that are owned equal a share of a buffer.
fn owned_is_shared(alloc: Global) -> Result<bool, AllocError> {
    let owned = copied(alloc, b"world")?;
    let shared = shared_world(alloc)?;
    Ok(owned == shared)
}

fn keyed(alloc: Global) -> Result<HashMap<Bytes<'static>, u32>, AllocError> {
    let mut map = HashMap::new(alloc);
    map.insert(Bytes::from("a"), 1)?;
    map.insert(copied(alloc, b"b")?, 2)?;
    Ok(map)
}

fn finds(map: &HashMap<Bytes<'static>, u32>, key: &str, value: u32) -> bool {
    map.get(&Bytes::from(key)).copied() == Some(value)
}

// Whether each key is found by a borrowed one.
fn finds_by_list(alloc: Global) -> Result<bool, AllocError> {
    let map = keyed(alloc)?;
    Ok(finds(&map, "a", 1) && finds(&map, "b", 2))
}

fn is_greater(one: &'static str, other: &'static str) -> bool {
    Bytes::from(one) > Bytes::from(other)
}

fn is_less(one: Bytes<'static>, other: &'static str) -> bool {
    one.cmp(&Bytes::from(other)) == Ordering::Less
}

#[test]
fn errors_are_in_order(rt: HostRuntime) {
    assert!(rt; SetBytesError::LengthOverflow < SetBytesError::OutOfMemory);
}

#[test]
fn compares_by_list(rt: HostRuntime) {
    assert!(rt; sure(owned_is_shared(rt.alloc())));
    assert!(rt; sure(finds_by_list(rt.alloc())));
    assert!(rt; is_greater("b", "a"));
    assert!(rt; is_less(Bytes::new(), "\0"));
}

fn is_lossy(alloc: Global, bytes: &Bytes<'_>, text: &str) -> Result<bool, AllocError> {
    let lossy = bytes.as_utf8_str(alloc)?;
    Ok(lossy.as_str() == text)
}

fn prints(alloc: Global, bytes: &Bytes<'_>, text: &str) -> Result<bool, AllocError> {
    let print = format!(in alloc; "{bytes:?}")?;
    Ok(print.as_str() == text)
}

// Whether bytes that are no text are read with a mark in the place of what is wrong, and print as
// numbers.
fn reads_broken(alloc: Global) -> Result<bool, AllocError> {
    let broken = Bytes::from(b"a\xC3".as_slice());
    Ok(
        broken.try_as_utf8_str().is_none()
            && is_lossy(alloc, &broken, "a\u{FFFD}")?
            && prints(alloc, &broken, "Bytes([97, 195])")?,
    )
}

fn is_hello(alloc: Global, bytes: &Bytes<'_>) -> Result<bool, AllocError> {
    Ok(bytes.try_as_utf8_str() == Some("hello") && prints(alloc, bytes, "Bytes(\"hello\")")?)
}

// Whether bytes made of a string are read and print as text.
fn reads_moved(alloc: Global) -> Result<bool, AllocError> {
    match Bytes::try_from(String::from_str(alloc, "hello")?) {
        Ok(bytes) => is_hello(alloc, &bytes),
        Err(_) => Ok(false),
    }
}

#[test]
fn texts(rt: HostRuntime) {
    assert!(rt; sure(reads_broken(rt.alloc())));
    assert!(rt; sure(reads_moved(rt.alloc())));
}
