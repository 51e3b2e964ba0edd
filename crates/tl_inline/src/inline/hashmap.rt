//! `InlineHashMap`: a map that keeps up to `N` pairs in the value itself.
ghost use Rattle.std.specs.Prelude.{◌^◌, not, is_some, ◌≡◌, ◌<◌, ◌≤◌, ◌↔◌, false, [], length, None, position, IsTrue, IsOk, IfSome, IfOk, IfErr, OnOk, OnErr};
ghost use Rattle.std.specs.List.{All, IsDistinct};
ghost use Rattle.std.specs.List.Sorted.{IsPermutation};
ghost use Rattle.std.specs.HashMap.{get};
ghost use Rattle.std.specs.Map.{lookup, keys_of, values_of};
ghost use Rattle.std.specs.Option.{option_copied, option_copied_mut};
ghost use Rattle.std.specs.Borrow.{sem};
ghost use Rattle.std.specs.Map.Iter.{deref_pair, ShowsInOrder};
ghost use Rattle.tl_spec.specs.Tree.Inline.{with_entry, without_key};
ghost use Rattle.tl_inline.specs.InlineVec.{ClonesAreEqual};

mod heap;
mod iter;
mod pairs;
mod storage;

use arrayvec::ArrayVec;
use heap::HeapPairs;
pub use iter::InlineHashMapIterator;
use iter::RemainingPairs;
use pairs::find;
use std::alloc::{AllocError, Global};
use std::collections::HashMap;
use std::fmt;
use std::hash::Hash;
use std::marker::Model;
use storage::{PairStorage, push_inline, remove_inline, replace};

/// A map that keeps up to `N` pairs in the value itself. An insert of a new key while `N` pairs are
/// held moves all of them to the heap, and there they stay, also when some are removed. `N` may be
/// 0.
///
/// A clause sees the pairs in order, with distinct keys, and whether they lie on the heap. New
/// pairs go last.
#[derive(Drop)]
pub struct InlineHashMap<K: Eq + Hash, V, const N: usize> {
    alloc: Global,
    held: PairStorage<K, V, N>,
}

impl<K: Eq + Hash, V, const N: usize> Model for InlineHashMap<K, V, N> {
    ghost use Rattle.std.specs.List.{IsDistinct};
    ghost use Rattle.std.specs.Map.{keys_of};
    ghost use Rattle.tl_spec.specs.Tree.Inline.{InlineMap};
    ghost use Rattle.tl_inline.specs.InlineMap.{inline_map_code};

    ghost Value = { InlineMap K V };

    ghost coded = { inline_map_code K.code V.code };

    ghost use Rattle.tl_inline.specs.Inner.PairStorage.{storage_view};

    ghost view = { λ m. storage_view m.held };

    ghost invariant = { λ m. IsDistinct K.eq (keys_of (storage_view m.held).entries) };
}

impl<K: Eq + Hash, V, const N: usize> InlineHashMap<K, V, N> {
    ghost use Rattle.tl_inline.specs.Inner.InlineMapLends.{lends_value};

    /// The number of pairs.
    pub fn len(&self) -> usize
        ensures value { result ≡ length self.now.entries }

        // The rest holds of every map.
        ensures inline { self.now.on_heap ≡ false → result ≤ N }
        ensures small { N < 2 ^ 63 → result < 2 ^ 63 }
        ensures unique { IsDistinct K.eq (keys_of self.now.entries) }
    {
        match &self.held {
            PairStorage::Inline(inline) => inline.len(),
            PairStorage::Heap(heap) => heap.len(),
        }
    }

    /// Whether there is no pair.
    pub fn is_empty(&self) -> bool
        ensures { IsTrue result ↔ (length self.now.entries ≡ 0) }
    {
        self.len() == 0
    }

    /// Whether the pairs lie on the heap.
    pub fn is_heap_allocated(&self) -> bool
        ensures { result ≡ self.now.on_heap }
    {
        match &self.held {
            PairStorage::Inline(_) => false,
            PairStorage::Heap(_) => true,
        }
    }

    /// The pairs in order, or `None` where they lie on the heap.
    pub fn inline_parts(&self) -> Option<&[(K, V)]>
        ensures variant { is_some result ≡ not self.now.on_heap }
        ensures value { IfSome result (λ pairs. pairs.now ≡ self.now.entries) }
    {
        match &self.held {
            PairStorage::Inline(inline) => Some(inline.as_slice()),
            PairStorage::Heap(_) => None,
        }
    }

    /// The value at `key`, if the key is there.
    pub fn get(&self, key: &K) -> Option<&V>
        ensures { option_copied result ≡ lookup (K.eq key.now) self.now.entries }
    {
        match &self.held {
            PairStorage::Inline(inline) => {
                let i = find(inline.as_slice(), key)?;
                Some(&inline.as_slice()[i].1)
            }
            PairStorage::Heap(heap) => heap.get(key),
        }
    }

    /// The value at `key` for writing, if the key is there.
    pub fn get_mut(&mut self, key: &K) -> Option<&mut V>
        ensures* writes_back { sem 𝓛
            (lends_value K.row V.row N.row K.Hash self.entry key.now result) }
        ensures value { option_copied_mut result ≡ lookup (K.eq key.now) self.old.entries }
    {
        match self.place_of(key) {
            Some(i) => self.held.value_at_mut(i),
            None => None,
        }
    }

    // The place of the pair with this key.
    fn place_of(&self, key: &K) -> Option<usize>
        ensures index { result ≡ position (K.eq key.now) (keys_of self.now.entries) }
    {
        match &self.held {
            PairStorage::Inline(inline) => find(inline.as_slice(), key),
            PairStorage::Heap(heap) => heap.get_index_of(key),
        }
    }

    /// Whether the map has this key.
    pub fn contains_key(&self, key: &K) -> bool
        ensures { result ≡ is_some (lookup (K.eq key.now) self.now.entries) }
    {
        self.get(key).is_some()
    }

    /// The pairs in order.
    pub fn iter(&self) -> InlineHashMapIterator<'_, K, V>
        ensures rest { result ≡ self.now.entries }
        ensures runs { ShowsInOrder (deref_pair {K = K} {X = V}) }

        // The rest holds of every map.
        ensures fits { length self.now.entries < 2 ^ 64 }
        ensures unique { IsDistinct K.eq (keys_of self.now.entries) }
    {
        match &self.held {
            PairStorage::Inline(inline) => InlineHashMapIterator {
                left: RemainingPairs::Slice(inline.as_slice().iter()),
            },
            PairStorage::Heap(heap) => heap.iter(),
        }
    }
}

impl<K: Default + Eq + Hash, V: Default, const N: usize> InlineHashMap<K, V, N> {
    /// An empty map, which takes no memory. What it takes later comes from `alloc`.
    pub fn new(alloc: Global) -> Self
        ensures entries { result.entries ≡ [] }
        ensures on_heap { result.on_heap ≡ false }
    {
        InlineHashMap {
            alloc,
            held: PairStorage::Inline(ArrayVec::new()),
        }
    }
}

impl<K: Default + Eq + Hash + Drop, V: Default + Drop, const N: usize> InlineHashMap<K, V, N> {
    /// Puts `value` at `key`. A key that is there keeps its place, and the old key stays; a new one
    /// goes last. Where memory is refused it hands the pair back, and the map is as it was.
    pub fn insert(&mut self, key: K, value: V) -> Result<(), (K, V)>
        ensures ok { OnOk result (self.new ≡ with_entry K.eq N self.old key value) }
        ensures err { OnErr result (self.new ≡ self.old) }
        ensures returned { IfErr result (λ pair. pair ≡ (key, value)) }

        // At a key that is there, and into inline room, an insert takes no memory.
        ensures absent { OnErr result (lookup (K.eq key) self.old.entries ≡ None) }
        ensures succeeds { self.old.on_heap ≡ false → length self.old.entries < N → IsOk result }
    {
        match &mut self.held {
            PairStorage::Inline(inline) => {
                let value = match replace(inline, &key, value) {
                    Ok(()) => return Ok(()),
                    Err(value) => value,
                };
                if !inline.is_full() {
                    push_inline(inline, key, value);
                    return Ok(());
                }
                match HeapPairs::take(self.alloc, inline, key, value) {
                    Ok(heap) => {
                        self.held = PairStorage::Heap(heap);
                        Ok(())
                    }
                    Err(pair) => Err(pair),
                }
            }
            PairStorage::Heap(heap) => heap.insert(key, value),
        }
    }

    /// Removes `key` and returns its value. The last pair moves into the place. Where the pairs lie
    /// stays.
    pub fn remove(&mut self, key: &K) -> Option<V>
        ensures value { result ≡ lookup (K.eq key.now) self.old.entries }
        ensures left { self.new ≡ without_key K.eq self.old key.now }
    {
        match &mut self.held {
            PairStorage::Inline(inline) => remove_inline(inline, key),
            PairStorage::Heap(heap) => heap.swap_remove(key),
        }
    }
}

impl<K: Default + Eq + Hash + Clone, V: Default + Clone, const N: usize> InlineHashMap<K, V, N> {
    /// A map of clones of the pairs, which lie where these do. A clone of a key or a value must be
    /// that key or value.
    pub fn clone(&self) -> Result<Self, AllocError>
        requires keys { ClonesAreEqual K.is_clone (keys_of self.now.entries) }
        requires values { ClonesAreEqual V.is_clone (values_of self.now.entries) }
        ensures ok { IfOk result (λ m. m ≡ self.now) }

        // Of inline pairs whose clones take no memory a clone takes none.
        ensures succeeds { self.now.on_heap ≡ false → All K.is_infallible (keys_of self.now.entries)
            → All V.is_infallible (values_of self.now.entries) → IsOk result }
    {
        match &self.held {
            PairStorage::Inline(inline) => Ok(InlineHashMap {
                alloc: self.alloc,
                held: PairStorage::Inline(inline.clone()?),
            }),
            PairStorage::Heap(heap) => Ok(InlineHashMap {
                alloc: self.alloc,
                held: PairStorage::Heap(heap.clone()?),
            }),
        }
    }
}

impl<K: Eq + Hash + Clone, V: Clone, const N: usize> InlineHashMap<K, V, N> {
    /// Clones of the pairs in a `HashMap`, in no promised order. A clone of a key or a value must
    /// be that key or value.
    pub fn to_map(&self, alloc: Global) -> Result<HashMap<K, V>, AllocError>
        requires keys { ClonesAreEqual K.is_clone (keys_of self.now.entries) }
        requires values { ClonesAreEqual V.is_clone (values_of self.now.entries) }
        ensures pairs { IfOk result (λ m. IsPermutation self.now.entries m.entries) }
        ensures gets { IfOk result (λ map.
            (key : K) → get K.eq map key ≡ lookup (K.eq key) self.now.entries) }
    {
        let mut map = HashMap::new(alloc);
        for (key, value) in self.iter() {
            map.insert(key.clone()?, value.clone()?)?;
        }
        Ok(map)
    }
}

/// Prints the number of pairs, as `InlineHashMap(InlineHashMap<2 items>)`.
impl<K: Eq + Hash, V, const N: usize> fmt::Debug for InlineHashMap<K, V, N> {
    fn fmt<W: fmt::Write>(&self, f: &mut fmt::Formatter<W>) -> fmt::Result {
        write!(f, "InlineHashMap(InlineHashMap<{} items>)", self.len())
    }
}
