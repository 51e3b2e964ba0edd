//! The list of active formatting elements.
//!
//! Others may rely on this: each operation says that the list (`active_of`) is afterwards what the
//! definition's function makes of it, over any store. That its numbers differ, and that no number
//! and no tag is greater than the greatest one, is part of the type. So who has a list has two
//! facts to keep: its greatest tag is one of the store, and its greatest number is given out.
ghost use Rattle.std.specs.List.{list_all};
ghost use Rattle.std.specs.Prelude.{IsTrue};
ghost use Rattle.tl_tree.specs.Inner.ActiveWithin.{are_distinct, entry_is_within};

use crate::active_entry::{Alike, Entry, Listed};
use crate::alike::{is_alike, is_named};
use crate::error::GrowError;
use crate::look::{Key, key_of, read_on};
use crate::path::FramePath;
use crate::store::Store;
use crate::tally::Tally;
use std::alloc::Global;

/// The list, with the latest entry last.
#[derive(Drop)]
pub(crate) struct ActiveList {
    entries: Vec<Entry>,
    /// How many elements look the same, and have the same name, at most.
    looks: Tally,
    names: Tally,
    pub(crate) greatest_number: u32,
    pub(crate) greatest_tag: u32,
    ghost within: { IsTrue
        (list_all (entry_is_within greatest_number greatest_tag) entries.items) },
    ghost distinct: { IsTrue (are_distinct entries.items) },
}

impl ActiveList {
    ghost use Rattle.std.specs.List.{insert, list_any, remove};
    ghost use Rattle.std.specs.Option.{option_map};
    ghost use Rattle.std.specs.Prelude.{IfSome, IsNone, None, OnOk, [], false, length, slice_index_or, slice_set, take, true, ℕ, ◌<◌, ◌≡◌, ◌≤◌, ◌∷◌};
    ghost use Rattle.tl_dom_spec.specs.Builder.{formatting, marker, without_last_marker};
    ghost use Rattle.tl_dom_spec.specs.Formatting.{alike_count, is_listed, listed, listed_behind, relisted, unlisted, with_room};
    ghost use Rattle.tl_tree.specs.Inner.Active.{AreAlike, IsLatest, active_of, listed_of, seen};
    ghost use Rattle.tl_tree.specs.Inner.ActiveWithin.{is_of};
    ghost use Rattle.tl_tree.specs.Inner.AtRest.{latest_of};
    ghost use Rattle.tl_tree.specs.Inner.Tallied.{IsTallied, is_tagged};
    ghost use Rattle.tl_tree.specs.Inner.Store.{is_tag_number, tag_at};
    ghost use Rattle.tl_tree.specs.declared.active_entry.Entry.TheVariants.{Formatting, Marker};
    ghost use Rattle.tl_tree.specs.declared.store.Store.{Store};

    /// An empty list.
    pub(crate) fn new(alloc: Global) -> ActiveList
        ensures active { (s : Store) → active_of s result ≡ [] }
        ensures number { result.greatest_number ≡ 0 }
        ensures tag { result.greatest_tag ≡ 0 }
        ensures tallied { (s : Store) → IsTallied s result }
    {
        ActiveList {
            entries: Vec::new(alloc),
            looks: Tally::new(alloc),
            names: Tally::new(alloc),
            greatest_number: 0,
            greatest_tag: 0,
        }
    }

    // The place of the entry of a number, which is looked for from the latest on.
    fn find(&self, number: u32) -> Option<usize>
        ensures some { IfSome result (λ place. IsLatest number place self.now.entries.items) }
        ensures none { IsNone result
            → list_any (is_of number) self.now.entries.items ≡ false }
    {
        let mut left = self.entries.len();
        while left > 0 {
            left -= 1;
            if self.entries[left].is_of(number) {
                return Some(left);
            }
        }
        None
    }

    /// Whether the element of a number is listed.
    pub(crate) fn is_listed(&self, number: u32) -> bool
        ensures { (s : Store) → result ≡ is_listed number (active_of s self.now) }
    {
        self.find(number).is_some()
    }

    /// The number of the latest entry, where it is an element.
    pub(crate) fn latest(&self) -> Option<u32>
        ensures { (s : Store) → result ≡ latest_of (active_of s self.now) }
    {
        let count = self.entries.len();
        if count == 0 {
            return None;
        }
        match self.entries[count - 1] {
            Entry::Marker => None,
            Entry::Formatting { number, .. } => Some(number),
        }
    }

    // Whether it is known that no element has a name.
    fn is_unnamed(&self, name: &[u8]) -> bool
        ensures { (s : Store) → result ≡ true → IsTallied s self.now
            → listed name.now (active_of s self.now) ≡ None }
    {
        if !self.names.has_counts() {
            return false;
        }
        self.names.most(read_on(0, name)) == 0
    }

    /// The latest element of a name after the last marker.
    pub(crate) fn listed(&self, store: &Store<'_>, name: &[u8]) -> Option<Listed>
        requires tags { self.now.greatest_tag < length store.now.tags.items }
        requires tallied { IsTallied store.now self.now }
        ensures stands { option_map (listed_of store.now) result
            ≡ listed name.now (active_of store.now self.now) }
        ensures within { IfSome result (λ own. own.tag ≤ self.now.greatest_tag) }
    {
        if self.is_unnamed(name) {
            return None;
        }
        let mut left = self.entries.len();
        while left > 0 {
            left -= 1;
            let entry = self.entries[left];
            let Entry::Formatting { number, tag } = entry else {
                return None;
            };
            if is_named(store, tag, name) {
                return Some(Listed { number, tag });
            }
        }
        None
    }

    // An entry is put at a place.
    fn put(
        &mut self,
        path: &FramePath<'_>,
        place: usize,
        number: u32,
        tag: u32,
    ) -> Result<(), GrowError>
        requires place { place ≤ length self.old.entries.items }
        requires number { self.old.greatest_number < number }
        requires listed { self.old.greatest_tag < length path.now.store.tags.items }
        requires own { tag < length path.now.store.tags.items }
        ensures entries { OnOk result
            (self.new.entries.items
            ≡ insert self.old.entries.items place (Formatting number tag)) }
        ensures number { self.new.greatest_number ≤ number }
        ensures tag { (n : ℕ) → self.old.greatest_tag < n → tag < n → self.new.greatest_tag < n }
        ensures tallied { IsTallied path.now.store self.old → IsTallied path.now.store self.new }
    {
        self.entries
            .insert(place, Entry::Formatting { number, tag })?;
        self.greatest_number = number;
        self.greatest_tag = self.greatest_tag.max(tag);
        self.looks.add(&path.store, Key::Look, tag);
        self.names.add(&path.store, Key::Name, tag);
        self.looks.recount(&path.store, Key::Look, &self.entries);
        self.names.recount(&path.store, Key::Name, &self.entries);
        Ok(())
    }

    /// The entry of a place is taken out.
    pub(crate) fn remove(&mut self, path: &FramePath<'_>, place: usize)
        requires place { place < length self.old.entries.items }
        requires listed { self.old.greatest_tag < length path.now.store.tags.items }
        ensures entries { self.new.entries.items ≡ remove self.old.entries.items place }
        ensures number { self.new.greatest_number ≡ self.old.greatest_number }
        ensures tag { self.new.greatest_tag ≡ self.old.greatest_tag }
        ensures tallied { IsTallied path.now.store self.old → IsTallied path.now.store self.new }
    {
        let entry = self.entries.remove(place);
        let Entry::Formatting { tag, .. } = entry else {
            return;
        };
        self.looks.take(&path.store, Key::Look, tag);
        self.names.take(&path.store, Key::Name, tag);
    }

    /// An element is listed. Its number is greater than those that were listed before.
    pub(crate) fn push(
        &mut self,
        path: &FramePath<'_>,
        number: u32,
        tag: u32,
    ) -> Result<(), GrowError>
        requires number { self.old.greatest_number < number }
        requires listed { self.old.greatest_tag < length path.now.store.tags.items }
        requires own { tag < length path.now.store.tags.items }
        ensures active { OnOk result ((s : Store) → active_of s self.new
            ≡ formatting number (tag_at s tag) ∷ active_of s self.old) }
        ensures number { self.new.greatest_number ≤ number }
        ensures tag { (n : ℕ) → self.old.greatest_tag < n → tag < n → self.new.greatest_tag < n }
        ensures tallied { IsTallied path.now.store self.old → IsTallied path.now.store self.new }
    {
        let place = self.entries.len();
        self.put(path, place, number, tag)
    }

    /// A marker is put behind the entries.
    pub(crate) fn push_marker(&mut self) -> Result<(), GrowError>
        ensures active { OnOk result
            ((s : Store) → active_of s self.new ≡ marker ∷ active_of s self.old) }
        ensures number { self.new.greatest_number ≡ self.old.greatest_number }
        ensures tag { self.new.greatest_tag ≡ self.old.greatest_tag }
        ensures tallied { (s : Store) → IsTallied s self.old → IsTallied s self.new }
    {
        self.entries.push(Entry::Marker)?;
        Ok(())
    }

    /// The element of a number is listed no more.
    pub(crate) fn unlist(&mut self, path: &FramePath<'_>, number: u32)
        requires { self.old.greatest_tag < length path.now.store.tags.items }
        ensures active { (s : Store) → active_of s self.new
            ≡ unlisted number (active_of s self.old) }
        ensures number { self.new.greatest_number ≡ self.old.greatest_number }
        ensures tag { self.new.greatest_tag ≡ self.old.greatest_tag }
        ensures tallied { IsTallied path.now.store self.old → IsTallied path.now.store self.new }
    {
        let Some(place) = self.find(number) else {
            return;
        };
        self.remove(path, place);
    }

    /// How many entries there are.
    pub(crate) fn len(&self) -> usize
        ensures { result ≡ length self.now.entries.items }
    {
        self.entries.len()
    }

    /// The entry at a place, the earliest first.
    pub(crate) fn entry(&self, place: usize) -> Entry
        requires { place < length self.now.entries.items }
        ensures stands { result ≡ slice_index_or self.now.entries.items place result }
        ensures within { IsTrue
            (entry_is_within self.now.greatest_number self.now.greatest_tag result) }
    {
        self.entries[place]
    }

    /// An element of a new number stands at the place of one that has its tag.
    pub(crate) fn set(&mut self, place: usize, new: u32, tag: u32)
        requires place { place < length self.old.entries.items }
        requires new { self.old.greatest_number < new }
        requires tag { tag ≤ self.old.greatest_tag }
        requires same { IsTrue
            (is_tagged tag (slice_index_or self.old.entries.items place Marker)) }
        ensures entries { self.new.entries.items
            ≡ slice_set self.old.entries.items place (Formatting new tag) }
        ensures number { self.new.greatest_number ≡ new }
        ensures tag { self.new.greatest_tag ≡ self.old.greatest_tag }
        ensures tallied { (s : Store) → IsTallied s self.old → IsTallied s self.new }
    {
        self.entries[place] = Entry::Formatting { number: new, tag };
        self.greatest_number = new;
    }

    /// An element of a new number and of the same tag stands in the place of another one.
    pub(crate) fn relist(&mut self, number: u32, new: u32)
        requires { self.old.greatest_number < new }
        ensures active { (s : Store) → active_of s self.new
            ≡ relisted number new (active_of s self.old) }
        ensures number { self.new.greatest_number ≤ new }
        ensures tag { self.new.greatest_tag ≡ self.old.greatest_tag }
        ensures tallied { (s : Store) → IsTallied s self.old → IsTallied s self.new }
    {
        let Some(place) = self.find(number) else {
            return;
        };
        let entry = self.entries[place];
        let Entry::Formatting { tag, .. } = entry else {
            return;
        };
        self.set(place, new, tag);
    }

    /// An element of a new number is listed behind another one, as the later one.
    pub(crate) fn list_behind(
        &mut self,
        path: &FramePath<'_>,
        number: u32,
        new: u32,
        tag: u32,
    ) -> Result<(), GrowError>
        requires new { self.old.greatest_number < new }
        requires listed { self.old.greatest_tag < length path.now.store.tags.items }
        requires own { tag < length path.now.store.tags.items }
        ensures active { OnOk result ((s : Store) → active_of s self.new
            ≡ listed_behind number (formatting new (tag_at s tag)) (active_of s self.old)) }
        ensures number { self.new.greatest_number ≤ new }
        ensures tag { (n : ℕ) → self.old.greatest_tag < n → tag < n → self.new.greatest_tag < n }
        ensures tallied { IsTallied path.now.store self.old → IsTallied path.now.store self.new }
    {
        let Some(place) = self.find(number) else {
            return Ok(());
        };
        self.put(path, place + 1, new, tag)
    }

    // How many elements after the last marker are like this one.
    fn alike(&self, store: &Store<'_>, own: u32) -> Alike
        requires tags { self.now.greatest_tag < length store.now.tags.items }
        requires own { IsTrue (is_tag_number store.now own) }
        ensures { AreAlike store.now (tag_at store.now own) self.now.entries.items result }
    {
        let mut alike = Alike {
            count: 0,
            earliest: 0,
        };
        let mut left = self.entries.len();
        while left > 0 {
            left -= 1;
            let entry = self.entries[left];
            let Entry::Formatting { tag, .. } = entry else {
                return alike;
            };
            alike = alike.with(is_alike(store, own, tag), left);
        }
        alike
    }

    // Whether it is known that no three elements are like this one.
    fn is_rare(&self, store: &Store<'_>, own: u32) -> bool
        requires own { IsTrue (is_tag_number store.now own) }
        requires tallied { IsTallied store.now self.now }
        ensures { result ≡ true
            → alike_count (tag_at store.now own) (active_of store.now self.now) ≤ 2 }
    {
        if !self.looks.has_counts() {
            return false;
        }
        self.looks.most(key_of(store, Key::Look, own)) < 3
    }

    /// The Noah's Ark clause: where there are three elements like this one after the last marker,
    /// the earliest of them is one too many.
    pub(crate) fn surplus(&self, store: &Store<'_>, own: u32) -> Option<usize>
        requires tags { self.now.greatest_tag < length store.now.tags.items }
        requires own { IsTrue (is_tag_number store.now own) }
        requires tallied { IsTallied store.now self.now }
        ensures within { IfSome result (λ place. place < length self.now.entries.items) }
        ensures some { IfSome result
            (λ place. seen store.now (remove self.now.entries.items place)
            ≡ with_room (tag_at store.now own) (active_of store.now self.now)) }
        ensures none { result ≡ None → active_of store.now self.now
            ≡ with_room (tag_at store.now own) (active_of store.now self.now) }
    {
        if self.is_rare(store, own) {
            return None;
        }
        let alike = self.alike(store, own);
        if alike.count > 2 {
            return Some(alike.earliest);
        }
        None
    }

    // How many entries stand before the last marker.
    fn count_before_marker(&self) -> usize
        ensures { (s : Store) → without_last_marker (active_of s self.now)
            ≡ seen s (take result self.now.entries.items) }
    {
        let mut left = self.entries.len();
        while left > 0 {
            left -= 1;
            let entry = self.entries[left];
            let Entry::Formatting { .. } = entry else {
                return left;
            };
        }
        0
    }

    /// The list is cleared up to the last marker, which goes too.
    pub(crate) fn clear_to_last_marker(&mut self, path: &FramePath<'_>)
        requires { self.old.greatest_tag < length path.now.store.tags.items }
        ensures active { (s : Store) → active_of s self.new
            ≡ without_last_marker (active_of s self.old) }
        ensures number { self.new.greatest_number ≡ self.old.greatest_number }
        ensures tag { self.new.greatest_tag ≡ self.old.greatest_tag }
        ensures tallied { IsTallied path.now.store self.old → IsTallied path.now.store self.new }
    {
        let count = self.count_before_marker();
        while self.entries.len() > count {
            let last = self.entries.len() - 1;
            self.remove(path, last);
        }
    }
}
