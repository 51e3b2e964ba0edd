//! Where the items of an `InlineVec` lie.
ghost use Rattle.std.specs.Prelude.{◌≡◌, ◌<◌, ◌↔◌, length, slice_index_or, IsSome, IfSome};
ghost use Rattle.std.specs.List.{IsItemAtMut};
ghost use Rattle.std.specs.Borrow.{sem};

use arrayvec::ArrayVec;

#[derive(Drop)]
pub(super) enum ItemStorage<T, const N: usize> {
    Inline(ArrayVec<T, N>),
    Heap(Vec<T>),
}

impl<T, const N: usize> ItemStorage<T, N> {
    ghost use Rattle.tl_inline.specs.Inner.ItemStorage.{storage_view};
    ghost use Rattle.tl_inline.specs.Inner.ItemStorageLends.{lends_item, lends_items};

    pub(super) fn get_mut(&mut self, index: usize) -> Option<&mut T>
        ensures* writes_back { sem 𝓛 (lends_item T.row N.row self.entry index result) }
        ensures variant { IsSome result ↔ (index < length (storage_view self.old).items) }
        ensures value { IfSome result (λ item.
            item.now ≡ slice_index_or (storage_view self.old).items index item.now) }
        ensures item { IsItemAtMut (storage_view self.old).items index result }
    {
        match self {
            ItemStorage::Inline(inline) => inline.get_mut(index),
            ItemStorage::Heap(heap) => heap.get_mut(index),
        }
    }

    // The items for writing, and whether they lie on the heap.
    pub(super) fn items_mut(&mut self) -> (&mut [T], bool)
        ensures* writes_back { sem 𝓛 (lends_items T.row N.row self.entry result) }
        ensures items { result.0.now ≡ (storage_view self.old).items }
        ensures on_heap { result.1 ≡ (storage_view self.old).on_heap }
    {
        match self {
            ItemStorage::Inline(inline) => (inline.as_mut_slice(), false),
            ItemStorage::Heap(heap) => (heap.as_mut_slice(), true),
        }
    }
}
