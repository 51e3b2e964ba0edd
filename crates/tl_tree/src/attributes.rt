//! The attributes of an element.

use crate::alike::attributes;
use crate::entries::{AttributeEntry, AttributeSpace};
use crate::row::Held;
use crate::store::Store;
use crate::tree::Tree;
use crate::words::Words;
use std::iter::FusedIterator;
use std::marker::Model;

/// An attribute of an element. Where it has a namespace, the prefix is no part of its key.
#[derive(Clone, Copy)]
pub struct Attribute<'t> {
    pub space: AttributeSpace,
    pub key: &'t [u8],
    pub value: &'t [u8],
}

/// Attributes in the order of their tag, seen as the list of those that are left.
#[derive(Drop)]
pub struct Attributes<'t, 'p> {
    store: &'t Store<'p>,
    left: &'t [AttributeEntry],
}

impl<'t, 'p> Model for Attributes<'t, 'p> {
    ghost use Rattle.std.specs.List.{list_all};
    ghost use Rattle.std.specs.Prelude.{IsTrue, List};
    ghost use Rattle.tl_dom_spec.specs.Tags.{Attribute};
    ghost use Rattle.tl_tree.specs.Inner.Said.{attributes_in};
    ghost use Rattle.tl_tree.specs.Inner.Store.{is_attribute};

    ghost Value = { List Attribute };

    ghost view = { λ a. attributes_in a.store.now a.left.now };

    ghost invariant = { λ a. IsTrue (list_all (is_attribute a.store.now) a.left.now) };
}

impl<'p> Tree<'p> {
    ghost use Rattle.std.specs.List.{list_all};
    ghost use Rattle.std.specs.Option.{option_copied, unwrap_or};
    ghost use Rattle.std.specs.Prelude.{IsTrue, [], codes, ◌≡◌};
    ghost use Rattle.tl_tree.specs.Asked.{attributes_at, value_of};
    ghost use Rattle.tl_tree.specs.Below.{words_of};
    ghost use Rattle.tl_tree.specs.Inner.Said.{attributes_in};
    ghost use Rattle.tl_tree.specs.Inner.Store.{is_attribute};
    ghost use Rattle.tl_tree.specs.TreeView.{rows_in};

    // The attributes of an element, as the store has them.
    fn entries(&self, number: usize) -> &[AttributeEntry]
        ensures said { attributes_in self.now.store result.now
            ≡ attributes_at (rows_in self.now) number }
        ensures within { IsTrue (list_all (is_attribute self.now.store) result.now) }
    {
        let Some(row) = self.rows.get(number) else {
            return &[];
        };
        let Held::Element(tag) = row.held else {
            return &[];
        };
        attributes(&self.store, self.store.tag(tag))
    }

    /// The attributes of an element in the order of its tag: none where there is no such node.
    pub fn attributes(&self, number: usize) -> Attributes<'_, 'p>
        ensures { result ≡ attributes_at (rows_in self.now) number }
    {
        Attributes {
            store: &self.store,
            left: self.entries(number),
        }
    }

    /// The value of the attribute of an element that has this key and no namespace.
    #[inline(always)]
    pub fn value(&self, number: usize, key: &[u8]) -> Option<&[u8]>
        ensures { option_copied result
            ≡ value_of key.now (attributes_at (rows_in self.now) number) }
    {
        for entry in self.entries(number) {
            if self.store.is_plain_key(*entry, key) {
                return Some(self.store.bytes(entry.value));
            }
        }
        None
    }

    /// The id of an element.
    pub fn id(&self, number: usize) -> Option<&[u8]>
        ensures { option_copied result
            ≡ value_of (codes "id") (attributes_at (rows_in self.now) number) }
    {
        self.value(number, b"id")
    }

    /// The classes of an element, in the order of its value.
    pub fn classes(&self, number: usize) -> Words<'_>
        ensures { result ≡ words_of (unwrap_or
            (value_of (codes "class") (attributes_at (rows_in self.now) number)) []) }
    {
        Words::of(self.value(number, b"class").unwrap_or(b""))
    }
}

impl<'t, 'p> Iterator for Attributes<'t, 'p> {
    type Item = Attribute<'t>;

    ghost use Rattle.std.specs.Iterator.{at_most};
    ghost use Rattle.std.specs.Map.Iter.{TakesFirst};
    ghost use Rattle.std.specs.Prelude.{length};
    ghost use Rattle.tl_tree.specs.Asked.{attribute_said};

    ghost next_gives = { TakesFirst attribute_said };

    ghost remaining = { λ s. at_most (length s) };

    fn next(&mut self) -> Option<Attribute<'t>> {
        let (entry, left) = self.left.split_first()?;
        self.left = left;
        Some(Attribute {
            space: entry.space,
            key: self.store.bytes(entry.key),
            value: self.store.bytes(entry.value),
        })
    }
}

impl<'t, 'p> FusedIterator for Attributes<'t, 'p> {}
