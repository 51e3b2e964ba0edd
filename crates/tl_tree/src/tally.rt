//! How many of the active formatting elements have a number, at most.
//!
//! Others may rely on this: where there are counts, each is no smaller than how many of the
//! elements are in its slot (`AreTallied`). Where there are none, nothing is known.
ghost use Rattle.std.specs.Prelude.{IsTrue};

use crate::active_entry as active;
use crate::look::{Key, key_of};
use crate::store::Store;
use std::alloc::Global;

/// The counts, in slots by the numbers of elements.
#[derive(Drop)]
pub(crate) struct Tally {
    counts: Vec<u32>,
}

impl Tally {
    ghost use Rattle.std.specs.List.{list_all};
    ghost use Rattle.std.specs.Prelude.{List, [], false, length, true, ℕ, ◌%◌, ◌<◌, ◌≡◌, ◌∷◌, ◌≤◌};
    ghost use Rattle.tl_tree.specs.Inner.Looks.{key_of};
    ghost use Rattle.tl_tree.specs.Inner.Tallied.{AreTallied, counted, has_key, is_known};
    ghost use Rattle.tl_tree.specs.Inner.Store.{is_tag_number, tag_at};
    ghost use Rattle.tl_tree.specs.declared.active_entry.Entry.{Entry};
    ghost use Rattle.tl_tree.specs.declared.active_entry.Entry.TheVariants.{Formatting};
    ghost use Rattle.tl_tree.specs.declared.store.Store.{Store};

    /// No counts.
    pub(crate) fn new(alloc: Global) -> Tally
        ensures { result.counts.items ≡ [] }
    {
        Tally {
            counts: Vec::new(alloc),
        }
    }

    /// Whether there are counts.
    pub(crate) fn has_counts(&self) -> bool
        ensures some { result ≡ true → 0 < length self.now.counts.items }
        ensures none { result ≡ false → self.now.counts.items ≡ [] }
    {
        self.counts.len() > 0
    }

    // The slot of a number.
    fn slot(&self, number: u32) -> usize
        requires { 0 < length self.now.counts.items }
        ensures stands { result ≡ number % length self.now.counts.items }
        ensures within { result < length self.now.counts.items }
    {
        number as usize % self.counts.len()
    }

    // An element of a number more.
    fn count(&mut self, number: u32)
        requires { 0 < length self.old.counts.items }
        ensures { (s : Store) (key : Key) (entries : List Entry) (n tag : ℕ)
            → key_of key (tag_at s tag) ≡ number
            → AreTallied s key self.old.counts.items entries
            → AreTallied s key self.new.counts.items (Formatting n tag ∷ entries) }
    {
        let slot = self.slot(number);
        let count = self.counts[slot];
        if count == u32::MAX {
            self.counts.clear();
            return;
        }
        self.counts[slot] = count + 1;
    }

    // An element of a number less.
    fn discount(&mut self, number: u32)
        requires { 0 < length self.old.counts.items }
        ensures { (s : Store) (key : Key) (entries : List Entry) (n tag : ℕ)
            → key_of key (tag_at s tag) ≡ number
            → AreTallied s key self.old.counts.items (Formatting n tag ∷ entries)
            → AreTallied s key self.new.counts.items entries }
    {
        let slot = self.slot(number);
        let count = self.counts[slot];
        self.counts[slot] = count.saturating_sub(1);
    }

    /// An element more.
    pub(crate) fn add(&mut self, store: &Store<'_>, key: Key, tag: u32)
        requires { IsTrue (is_tag_number store.now tag) }
        ensures { (entries : List Entry) (n : ℕ)
            → AreTallied store.now key self.old.counts.items entries
            → AreTallied store.now key self.new.counts.items (Formatting n tag ∷ entries) }
    {
        if self.has_counts() {
            self.count(key_of(store, key, tag));
        }
    }

    /// An element less.
    pub(crate) fn take(&mut self, store: &Store<'_>, key: Key, tag: u32)
        requires { IsTrue (is_tag_number store.now tag) }
        ensures { (entries : List Entry) (n : ℕ)
            → AreTallied store.now key self.old.counts.items (Formatting n tag ∷ entries)
            → AreTallied store.now key self.new.counts.items entries }
    {
        if self.has_counts() {
            self.discount(key_of(store, key, tag));
        }
    }

    /// How many elements have a number at most.
    pub(crate) fn most(&self, number: u32) -> u32
        requires { 0 < length self.now.counts.items }
        ensures { (s : Store) (key : Key) (entries : List Entry)
            → AreTallied s key self.now.counts.items entries
            → counted (has_key s key number) entries ≤ result }
    {
        self.counts[self.slot(number)]
    }

    // No counts but zeros, where there is memory for them.
    fn reset(&mut self, size: usize)
        ensures { (s : Store) (key : Key) → AreTallied s key self.new.counts.items [] }
    {
        self.counts.clear();
        let Ok(()) = self.counts.resize(size, 0) else {
            self.counts.clear();
            return;
        };
    }

    // All are counted.
    fn count_all(&mut self, store: &Store<'_>, key: Key, entries: &[active::Entry])
        requires { IsTrue (list_all (is_known store.now) entries.now) }
        ensures { AreTallied store.now key self.new.counts.items entries.now }
    {
        self.reset(entries.len().min(16777216) * 16);
        for entry in entries {
            match *entry {
                active::Entry::Formatting { tag, .. } => self.add(store, key, tag),
                active::Entry::Marker => {}
            }
        }
    }

    /// They are counted anew, where there are more than the counts are for.
    pub(crate) fn recount(&mut self, store: &Store<'_>, key: Key, entries: &[active::Entry])
        requires { IsTrue (list_all (is_known store.now) entries.now) }
        ensures { AreTallied store.now key self.old.counts.items entries.now
            → AreTallied store.now key self.new.counts.items entries.now }
    {
        if entries.len() < 32 || entries.len() < self.counts.len() / 8 {
            return;
        }
        self.count_all(store, key, entries);
    }
}
