//! Whether what is left of a tree begins with what another one says.
ghost use Rattle.std.specs.Option.{option_map};
ghost use Rattle.std.specs.Prelude.{IfOk, List, Some, [], map, ◌∷◌, ◌≡◌};
ghost use Rattle.tl_dom_spec.specs.Marks.{Marked};
ghost use Rattle.tl_tree.specs.Asked.{node_at};
ghost use Rattle.tl_tree.specs.Rows.{Node};
ghost use Rattle.tl_tree.specs.TreeView.{rows_in};
ghost use Rattle.tl_tree_edit.specs.Bare.{bare};
ghost use Rattle.tl_tree_edit.specs.Changes.{all_told, changed_node, told, where_it_stays};
ghost use Rattle.tl_tree_edit.specs.Events.{begins, ends, events, says};
ghost use Rattle.tl_tree_edit.specs.Events.{Event as Said};
ghost use Rattle.tl_tree_edit.specs.Inner.Walk.{Follows, IsNext, Meets, changed_by, left};
ghost use Rattle.tl_tree_edit.specs.View.{change_of, changes_of, put_of, puts_of};

use crate::attributes::is_changed;
use crate::change::{Change, Put};
use crate::events::{Event, Events};
use std::alloc::{AllocError, Global};
use tl_tree::Tree;

impl Events<'_, '_> {
    // Whether the node of a row comes next, changed by this.
    pub(crate) fn meets_node(
        &mut self,
        tree: &Tree<'_>,
        number: usize,
        change: Option<Change<'_, '_>>,
    ) -> Result<bool, AllocError>
        ensures met { (node : Node) → node_at (rows_in tree.now) number ≡ Some node
            → IfOk result (Meets
            (begins (bare (changed_by (changes_of change.entry) node)) ∷ []) self.old self.new) }
        ensures tree { self.new.tree.now ≡ self.old.tree.now }
    {
        let own = self.tree;
        let Some(Event::Begins(other)) = self.next()? else {
            return Ok(false);
        };
        Ok(is_changed(tree, number, change, own, other))
    }

    // Whether a byte of a text comes next.
    fn meets_byte(&mut self, byte: u8) -> Result<bool, AllocError>
        ensures met { IfOk result
            (Meets (says byte ∷ []) self.old self.new) }
        ensures tree { self.new.tree.now ≡ self.old.tree.now }
    {
        let Some(Event::Says(own)) = self.next()? else {
            return Ok(false);
        };
        Ok(own == byte)
    }

    // Whether the innermost row ends next.
    pub(crate) fn meets_end(&mut self) -> Result<bool, AllocError>
        ensures met { IfOk result (Meets (ends ∷ []) self.old self.new) }
        ensures tree { self.new.tree.now ≡ self.old.tree.now }
    {
        let Some(Event::Ends) = self.next()? else {
            return Ok(false);
        };
        Ok(true)
    }

    // Whether the node of a row comes next, changed by this, where it stays.
    pub(crate) fn meets_own(
        &mut self,
        tree: &Tree<'_>,
        number: usize,
        change: Change<'_, '_>,
    ) -> Result<bool, AllocError>
        ensures met { (node : Node) → node_at (rows_in tree.now) number ≡ Some node
            → IfOk result (Meets (where_it_stays (change_of change.entry)
            (begins (bare (changed_node (change_of change.entry) node)) ∷ [])) self.old self.new) }
        ensures tree { self.new.tree.now ≡ self.old.tree.now }
    {
        if !change.stays() {
            return Ok(true);
        }
        self.meets_node(tree, number, Some(change))
    }

    // Whether the innermost row ends next, where it stays.
    pub(crate) fn meets_own_end(&mut self, change: Change<'_, '_>) -> Result<bool, AllocError>
        ensures met { IfOk result
            (Meets (where_it_stays (change_of change.entry) (ends ∷ [])) self.old self.new) }
        ensures tree { self.new.tree.now ≡ self.old.tree.now }
    {
        if !change.stays() {
            return Ok(true);
        }
        self.meets_end()
    }

    // Whether bytes of texts come next, one after the other.
    fn meets_bytes(&mut self, bytes: &[u8]) -> Result<bool, AllocError>
        ensures met { IfOk result
            (Meets (map says bytes.now) self.old self.new) }
        ensures tree { self.new.tree.now ≡ self.old.tree.now }
    {
        for byte in bytes {
            if !self.meets_byte(*byte)? {
                return Ok(false);
            }
        }
        Ok(true)
    }

    // Whether a text comes next. Most often all of it stands in one text, so that only the first
    // byte is looked for.
    pub(crate) fn meets_text(&mut self, text: &[u8]) -> Result<bool, AllocError>
        ensures met { IfOk result
            (Meets (map says text.now) self.old self.new) }
        ensures tree { self.new.tree.now ≡ self.old.tree.now }
    {
        let Some((first, rest)) = text.split_first() else {
            return Ok(true);
        };
        if !self.meets_byte(*first)? {
            return Ok(false);
        }
        if self.take_bytes(rest) {
            return Ok(true);
        }
        self.meets_bytes(rest)
    }

    // Whether what a tree says next comes next.
    fn meets(&mut self, trees: &Tree<'_>, event: Event) -> Result<bool, AllocError>
        ensures met { (said more : List Said) → IsNext (rows_in trees.now) said more (Some event)
            → IfOk result (Follows said more (left self.old) (left self.new)) }
        ensures tree { self.new.tree.now ≡ self.old.tree.now }
    {
        match event {
            Event::Begins(number) => self.meets_node(trees, number, None),
            Event::Says(byte) => self.meets_byte(byte),
            Event::Ends => self.meets_end(),
        }
    }

    // Whether all that a tree says comes next.
    fn meets_tree(&mut self, alloc: Global, trees: &Tree<'_>) -> Result<bool, AllocError>
        ensures met { IfOk result
            (Meets (events (rows_in trees.now)) self.old self.new) }
        ensures tree { self.new.tree.now ≡ self.old.tree.now }
    {
        let mut events = Events::new(alloc, trees);
        while let Some(event) = events.next()? {
            if !self.meets(trees, event)? {
                return Ok(false);
            }
        }
        Ok(true)
    }

    // Whether all that is said of what is put in comes next.
    fn meets_put(&mut self, alloc: Global, put: Put<'_, '_>) -> Result<bool, AllocError>
        ensures met { IfOk result (Meets (told (put_of put.entry)) self.old self.new) }
        ensures tree { self.new.tree.now ≡ self.old.tree.now }
    {
        match put {
            Put::Trees(trees) => self.meets_tree(alloc, trees),
            Put::Text(text) => self.meets_text(text),
        }
    }

    // The same, if something is put in.
    pub(crate) fn meets_puts(
        &mut self,
        alloc: Global,
        put: Option<Put<'_, '_>>,
    ) -> Result<bool, AllocError>
        ensures met { IfOk result
            (Meets (all_told (puts_of put.entry)) self.old self.new) }
        ensures tree { self.new.tree.now ≡ self.old.tree.now }
    {
        match put {
            Some(put) => self.meets_put(alloc, put),
            None => Ok(true),
        }
    }
}
