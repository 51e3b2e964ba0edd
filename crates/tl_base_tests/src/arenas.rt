//! Arenas: what their values are, and when their memory goes back.
use bumpalo::Bump;
use linked_list_allocator::LocalHeap;
use std::alloc::{AllocError, Global};
use std::test::Fail;
use tl_room::arena::{Arena, Block};
use tl_room::shared::Shared;

// A block of a heap that counts what is out.
type Counted<'h> = Block<&'h LocalHeap>;

// So many boxes in an arena, each with its number.
fn boxes<'h>(
    alloc: Global,
    heap: &'h LocalHeap,
    many: u64,
) -> Result<Vec<Box<u64, Counted<'h>>>, AllocError> {
    let mut arena = Arena::new(alloc, heap);
    let mut made = Vec::new(alloc);
    for number in 0..many {
        made.push(arena.allocate(number)?)?;
    }
    Ok(made)
}

// Whether each box has its number, and keeps what is written to it.
fn are_numbered(boxes: &mut [Box<u64, Counted<'_>>]) -> bool {
    for (number, it) in boxes.iter_mut().enumerate() {
        if **it != number as u64 {
            return false;
        }
        **it = number as u64 / 2;
    }
    boxes
        .iter()
        .enumerate()
        .all(|(number, it)| **it == number as u64 / 2)
}

#[test]
fn a_block_goes_back_with_its_last_value(rt: HostRuntime) -> Result<(), Fail> {
    let heap = LocalHeap::new(rt.alloc(), 1 << 16)?;
    let mut made = boxes(rt.alloc(), &heap, 300)?;
    assert!(rt; are_numbered(&mut made));
    let all = heap.used();
    made.truncate(1);
    let one = heap.used();
    assert!(rt; 0 < one && one < all);
    drop(made);
    assert_eq!(rt; heap.used(), 0);
    Ok(())
}

// How many values an arena over the heap takes before it is refused a block.
fn values_until_refused(alloc: Global, heap: &LocalHeap) -> Result<usize, AllocError> {
    let mut arena = Arena::new(alloc, heap);
    let mut made = Vec::with_capacity(alloc, 1000)?;
    for number in 0..1000u64 {
        let Ok(value) = arena.allocate(number) else {
            break;
        };
        made.push(value)?;
    }
    Ok(made.len())
}

#[test]
fn a_refused_block_is_not_asked_for_again(rt: HostRuntime) -> Result<(), Fail> {
    // Blocks of 496 and 1008 bytes fit, which hold 55 and 119 values, and none of 2032. Another of
    // 496 would.
    let heap = LocalHeap::new(rt.alloc(), 1 << 11)?;
    assert_eq!(rt; values_until_refused(rt.alloc(), &heap)?, 55 + 119);
    let first = Box::new(&heap, [0u8; 496])?;
    let second = Box::new(&heap, [0u8; 1008])?;
    assert!(rt; Box::new(&heap, [0u8; 496]).is_ok());
    drop(first);
    drop(second);
    Ok(())
}

#[test]
fn a_block_does_not_grow(rt: HostRuntime) -> Result<(), Fail> {
    let heap = LocalHeap::new(rt.alloc(), 1 << 16)?;
    let value = Arena::new(rt.alloc(), &heap).allocate(7u64)?;
    let used = heap.used();
    let block = Box::allocator(&value);
    assert!(rt; Box::new(block.clone()?, [0u8; 400]).is_ok());
    assert!(rt; Box::new(block.clone()?, [0u8; 448]).is_err());
    assert_eq!(rt; heap.used(), used);
    Ok(())
}

#[test]
fn a_value_keeps_one_block_at_most(rt: HostRuntime) -> Result<(), Fail> {
    // The first eight blocks have room for 114,240 bytes, and the next one has no room for as much
    // again: it takes 64 KB, rounded up to a page.
    let heap = LocalHeap::new(rt.alloc(), 1 << 20)?;
    let mut made = boxes(rt.alloc(), &heap, 20_000)?;
    let last = made.pop();
    drop(made);
    let kept = heap.used();
    assert!(rt; 0 < kept && kept <= 17 << 12);
    drop(last);
    assert_eq!(rt; heap.used(), 0);
    Ok(())
}

#[test]
fn handles_outlive_each_other(rt: HostRuntime) -> Result<(), Fail> {
    let first = Shared::new(rt.alloc(), rt.alloc())?;
    let other = first.clone()?;
    drop(first);
    let value = Box::new(other, 7u64)?;
    assert_eq!(rt; *value, 7);
    Ok(())
}
