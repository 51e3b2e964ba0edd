//! The texts of errors, and their order.
use std::alloc::Global;
use std::cmp::Ordering;
use std::fmt::Display;
use tl::errors::{SetBytesError, TreeError};
use tl::{NodeHandle, ParseError};

#[rattlefmt::skip]
static OF_PARSE: [(ParseError, &str); 2] = [
    (ParseError::InvalidLength, "The input string length is too large to fit in a `u32`"),
    (ParseError::OutOfMemory, "out of memory"),
];

#[rattlefmt::skip]
static OF_SET: [(SetBytesError, &str); 2] = [
    (SetBytesError::LengthOverflow, "The string length is too large to fit in a `u32`"),
    (SetBytesError::OutOfMemory, "out of memory"),
];

fn says<E: Display>(alloc: Global, error: &E, text: &str) -> bool {
    match format!(in alloc; "{error}") {
        Ok(made) => made.as_str() == text,
        Err(_) => false,
    }
}

fn walks_say(alloc: Global) -> bool {
    let handle = NodeHandle::new(9);
    says(
        alloc,
        &TreeError::Dangling(handle),
        "a dangling node handle",
    ) && says(alloc, &TreeError::Cycle(handle), "a cyclic node handle")
        && says(alloc, &TreeError::OutOfMemory, "out of memory")
}

#[test]
fn errors_have_texts(rt: HostRuntime) {
    for (error, text) in &OF_PARSE {
        assert!(rt; says(rt.alloc(), error, text), "{text}");
    }
    for (error, text) in &OF_SET {
        assert!(rt; says(rt.alloc(), error, text), "{text}");
    }
    assert!(rt; walks_say(rt.alloc()));
}

// Whether the one stands before the other.
fn stands_before<E: Ord>(first: &E, second: &E) -> bool {
    first < second && first.cmp(second) == Ordering::Less && second.cmp(first) == Ordering::Greater
}

// The cause comes before the handle.
fn walks_stand_in_order() -> bool {
    let low = NodeHandle::new(1);
    let high = NodeHandle::new(2);
    stands_before(&TreeError::Dangling(high), &TreeError::Cycle(low))
        && stands_before(&TreeError::Cycle(high), &TreeError::OutOfMemory)
        && stands_before(&TreeError::Dangling(low), &TreeError::Dangling(high))
        && stands_before(&TreeError::Cycle(low), &TreeError::Cycle(high))
}

#[test]
fn errors_stand_in_order(rt: HostRuntime) {
    let of_parse = stands_before(&ParseError::InvalidLength, &ParseError::OutOfMemory);
    assert!(rt; of_parse);
    let of_set = stands_before(&SetBytesError::LengthOverflow, &SetBytesError::OutOfMemory);
    assert!(rt; of_set);
    assert!(rt; walks_stand_in_order());
}
