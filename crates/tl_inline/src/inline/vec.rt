//! `InlineVec`: a vector that keeps up to `N` items in the value itself.
ghost use Rattle.std.specs.Prelude.{◌^◌, not, is_some, ◌≡◌, ◌<◌, ◌≤◌, ◌↔◌, false, [], length, Some, slice_get, slice_index_or, IsTrue, IsOk, IsSome, IfSome, IfOk, IfErr, OnOk, OnErr};
ghost use Rattle.std.specs.List.{All, IsItemAtMut};
ghost use Rattle.std.specs.Option.{option_copied};
ghost use Rattle.std.specs.Borrow.{sem};
ghost use Rattle.std.specs.Map.Iter.{deref, ShowsInOrder};
ghost use Rattle.tl_spec.specs.Tree.Inline.{with_last, without_item};
ghost use Rattle.tl_inline.specs.InlineVec.{ClonesAreEqual};

mod iter;
mod storage;

use super::spill::move_out;
use arrayvec::ArrayVec;
pub use iter::InlineVecIter;
use std::alloc::{AllocError, Global};
use std::fmt;
use std::marker::Model;
use std::ops::Index;
use storage::ItemStorage;

// For how many more items there is room as they come to the heap, so that few small lists grow
// there.
const MORE: usize = 4;

/// A vector that keeps up to `N` items in the value itself. A push while `N` are held moves all of
/// them to the heap, and there they stay, also when some are removed. `N` may be 0.
///
/// A clause sees the items in order and whether they lie on the heap.
#[derive(Drop)]
pub struct InlineVec<T, const N: usize> {
    alloc: Global,
    held: ItemStorage<T, N>,
}

impl<T, const N: usize> Model for InlineVec<T, N> {
    ghost use Rattle.tl_spec.specs.Tree.Inline.{InlineVec as Items};
    ghost use Rattle.tl_inline.specs.InlineVec.{inline_vec_code};

    ghost Value = { Items T };

    ghost coded = { inline_vec_code T.code };

    ghost use Rattle.tl_inline.specs.Inner.ItemStorage.{storage_view};

    ghost view = { λ v. storage_view v.held };
}

impl<T, const N: usize> InlineVec<T, N> {
    ghost use Rattle.tl_inline.specs.Inner.InlineVecLends.{lends_item, lends_inline, lends_items};

    /// The number of items.
    pub fn len(&self) -> usize
        ensures value { result ≡ length self.now.items }

        // This holds of every vector.
        ensures inline { self.now.on_heap ≡ false → result ≤ N }
    {
        match &self.held {
            ItemStorage::Inline(inline) => inline.len(),
            ItemStorage::Heap(heap) => heap.len(),
        }
    }

    /// Whether there is no item.
    pub fn is_empty(&self) -> bool
        ensures { IsTrue result ↔ (length self.now.items ≡ 0) }
    {
        self.len() == 0
    }

    /// Whether the items lie on the heap.
    pub fn is_heap_allocated(&self) -> bool
        ensures { result ≡ self.now.on_heap }
    {
        match &self.held {
            ItemStorage::Inline(_) => false,
            ItemStorage::Heap(_) => true,
        }
    }

    /// The items in order, wherever they lie.
    pub fn as_slice(&self) -> &[T]
        ensures { result.now ≡ self.now.items }
    {
        match &self.held {
            ItemStorage::Inline(inline) => inline.as_slice(),
            ItemStorage::Heap(heap) => heap.as_slice(),
        }
    }

    /// The item at `index`, if there is one.
    pub fn get(&self, index: usize) -> Option<&T>
        ensures { option_copied result ≡ slice_get self.now.items index }
    {
        self.as_slice().get(index)
    }

    /// The item at `index` for writing, if there is one.
    pub fn get_mut(&mut self, index: usize) -> Option<&mut T>
        ensures* writes_back { sem 𝓛 (lends_item T.row N.row self.entry index result) }
        ensures variant { IsSome result ↔ (index < length self.old.items) }
        ensures value { IfSome result (λ x. x.now ≡ slice_index_or self.old.items index x.now) }
        ensures item { IsItemAtMut self.old.items index result }
    {
        self.held.get_mut(index)
    }

    /// The items for writing, or `None` where they lie on the heap. No item can be added or taken
    /// away. A proof that needs what a write leaves takes `get_mut` at each place.
    pub fn inline_parts_mut(&mut self) -> Option<&mut [T]>
        ensures* writes_back { sem 𝓛 (lends_inline T.row N.row self.entry result) }
        ensures variant { is_some result ≡ not self.old.on_heap }
        ensures value { IfSome result (λ items. items.now ≡ self.old.items) }
    {
        let (items, on_heap) = self.items_mut();
        if on_heap { None } else { Some(items) }
    }

    // The items for writing, and whether they lie on the heap.
    fn items_mut(&mut self) -> (&mut [T], bool)
        ensures* writes_back { sem 𝓛 (lends_items T.row N.row self.entry result) }
        ensures items { result.0.now ≡ self.old.items }
        ensures on_heap { result.1 ≡ self.old.on_heap }
    {
        self.held.items_mut()
    }

    /// The items in order.
    pub fn iter(&self) -> InlineVecIter<'_, T, N>
        ensures rest { result ≡ self.now.items }
        ensures runs { ShowsInOrder (deref {X = T}) }

        // This holds of every vector.
        ensures fits { length self.now.items < 2 ^ 64 }
    {
        InlineVecIter {
            rest: self.as_slice().iter(),
        }
    }
}

impl<T: Default, const N: usize> InlineVec<T, N> {
    /// An empty vector, which takes no memory. What it takes later comes from `alloc`.
    pub fn new(alloc: Global) -> Self
        ensures items { result.items ≡ [] }
        ensures on_heap { result.on_heap ≡ false }
    {
        InlineVec {
            alloc,
            held: ItemStorage::Inline(ArrayVec::new()),
        }
    }
}

impl<T: Default + Drop, const N: usize> InlineVec<T, N> {
    /// Appends `item`. Where memory is refused it hands the item back, and the vector is as it was.
    pub fn push(&mut self, item: T) -> Result<(), T>
        ensures ok { OnOk result (self.new ≡ with_last N self.old item) }
        ensures err { OnErr result (self.new ≡ self.old) }
        ensures returned { IfErr result (λ back. back ≡ item) }

        // Into inline room a push takes no memory.
        ensures succeeds { self.old.on_heap ≡ false → length self.old.items < N → IsOk result }
    {
        match &mut self.held {
            ItemStorage::Inline(inline) => {
                if !inline.is_full() {
                    inline.push(item);
                    return Ok(());
                }
                let moved = move_out(self.alloc, inline, MORE);
                match moved {
                    Ok(mut heap) => {
                        heap.push_reserved(item);
                        self.held = ItemStorage::Heap(heap);
                        Ok(())
                    }
                    Err(_) => Err(item),
                }
            }
            ItemStorage::Heap(heap) => match heap.push(item) {
                Ok(()) => Ok(()),
                Err(failed) => Err(failed.value),
            },
        }
    }

    /// Takes out the item at `index`, and the later items close up. Where they lie stays.
    pub fn remove(&mut self, index: usize) -> T
        requires { index < length self.old.items }
        ensures value { slice_get self.old.items index ≡ Some result }
        ensures left { self.new ≡ without_item self.old index }
    {
        match &mut self.held {
            ItemStorage::Inline(inline) => inline.remove(index),
            ItemStorage::Heap(heap) => heap.remove(index),
        }
    }
}

impl<T: Default + Clone, const N: usize> InlineVec<T, N> {
    /// A vector of clones of the items, which lie where these do. A clone of an item must be that
    /// item.
    pub fn clone(&self) -> Result<Self, AllocError>
        requires { ClonesAreEqual T.is_clone self.now.items }
        ensures ok { IfOk result (λ v. v ≡ self.now) }

        // Of inline items whose clones take no memory a clone takes none.
        ensures succeeds { self.now.on_heap ≡ false → All T.is_infallible self.now.items →
            IsOk result }
    {
        match &self.held {
            ItemStorage::Inline(inline) => Ok(InlineVec {
                alloc: self.alloc,
                held: ItemStorage::Inline(inline.clone()?),
            }),
            ItemStorage::Heap(heap) => Ok(InlineVec {
                alloc: self.alloc,
                held: ItemStorage::Heap(heap.clone()?),
            }),
        }
    }
}

impl<T: Clone, const N: usize> InlineVec<T, N> {
    /// Clones of the items in a `Vec`. A clone of an item must be that item.
    pub fn to_vec(&self, alloc: Global) -> Result<Vec<T>, AllocError>
        requires { ClonesAreEqual T.is_clone self.now.items }
        ensures { IfOk result (λ v. v.items ≡ self.now.items) }
    {
        self.as_slice().to_vec(alloc)
    }
}

impl<T, const N: usize> Index<usize> for InlineVec<T, N> {
    type Output = T;

    ghost can_index = { λ v i. i < length v.items };

    ghost index_gives = { λ v i x. slice_get v.items i ≡ Some x };

    fn index(&self, index: usize) -> &T {
        &self.as_slice()[index]
    }
}

/// Prints the number of items, as `InlineVec(InlineVec<2 items>)`.
impl<T, const N: usize> fmt::Debug for InlineVec<T, N> {
    fn fmt<W: fmt::Write>(&self, f: &mut fmt::Formatter<W>) -> fmt::Result {
        write!(f, "InlineVec(InlineVec<{} items>)", self.len())
    }
}
