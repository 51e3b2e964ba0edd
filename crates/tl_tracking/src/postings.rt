//! What is kept under one id, and under one member of classes.
ghost use Rattle.std.specs.Prelude.{◌≡◌, true, OnOk, OnErr, IsOk, IsSome};
ghost use Rattle.std.specs.HashMap.{hasher_of};
ghost use Rattle.std.specs.Map.{lookup};
ghost use Rattle.tl_tracking.specs.Tracking.{KeepsFirst, AddsMember, class_at, ends_with, with_number};

use crate::hasher::KeyedState;
use std::alloc::{AllocError, Global};
use std::collections::HashMap;
use tl_attributes::piece::Piece;
use tl_inline::inline::vec::InlineVec;

// The first tag of each id.
pub(crate) type Ids<B> = HashMap<B, u32, KeyedState>;

// The tags of each member of classes.
pub(crate) type Classes<B> = HashMap<B, InlineVec<u32, 2>, KeyedState>;

// Keeps a number under an id, unless there is one.
pub(crate) fn keep_first<B: Piece + Drop>(
    ids: &mut Ids<B>,
    id: B,
    number: u32,
) -> Result<(), AllocError>
    ensures ok { OnOk result (KeepsFirst B.eq id number ids.old.entries ids.new.entries) }
    ensures err { OnErr result (ids.new.entries ≡ ids.old.entries) }
    ensures hasher { hasher_of ids.new ≡ hasher_of ids.old }
    ensures known { IsSome (lookup (B.eq id) ids.old.entries) → IsOk result }
{
    if !ids.contains_key(&id) {
        ids.insert(id, number)?;
    }
    Ok(())
}

// Whether a number is the last of a list.
fn is_last(numbers: &[u32], number: u32) -> bool
    ensures { result ≡ ends_with number numbers.now }
{
    match numbers.last() {
        Some(last) => *last == number,
        None => false,
    }
}

// Adds a number to a list, unless it is the last.
fn add_last(numbers: &mut InlineVec<u32, 2>, number: u32) -> Result<(), AllocError>
    ensures ok { OnOk result (numbers.new.items ≡ with_number number numbers.old.items) }
    ensures err { OnErr result (numbers.new ≡ numbers.old) }
    ensures repeated { ends_with number numbers.old.items ≡ true → IsOk result }
{
    if is_last(numbers.as_slice(), number) {
        return Ok(());
    }
    numbers.push(number).map_err(|_| AllocError)
}

// Adds a number under a member, unless it is the last there.
pub(crate) fn add_member<B: Piece + Drop>(
    classes: &mut Classes<B>,
    alloc: Global,
    member: B,
    number: u32,
) -> Result<(), AllocError>
    ensures ok { OnOk result
        (AddsMember B.eq member number classes.old.entries classes.new.entries) }
    ensures err { OnErr result (classes.new.entries ≡ classes.old.entries) }
    ensures hasher { hasher_of classes.new ≡ hasher_of classes.old }
    ensures repeated { ends_with number (class_at B.eq classes.old.entries member) ≡ true →
        IsOk result }
{
    match classes.get_mut(&member) {
        Some(numbers) => add_last(numbers, number),
        None => {
            let mut numbers = InlineVec::new(alloc);
            add_last(&mut numbers, number)?;
            classes.insert(member, numbers)?;
            Ok(())
        }
    }
}
