//! Active formatting elements (13.2.4.3): they are listed, and opened again.
ghost use Rattle.std.specs.List.{remove};
ghost use Rattle.std.specs.Prelude.{IfSome, None, OnOk, length, ◌+◌, ◌<◌, ◌∷◌, ◌≡◌, ◌≤◌};
ghost use Rattle.tl_dom_spec.specs.Builder.{formatting, insert_element};
ghost use Rattle.tl_dom_spec.specs.Formatting.{insert_formatting_element, reconstruct_formatting, with_room};
ghost use Rattle.tl_tree.specs.Inner.Active.{seen};
ghost use Rattle.tl_tree.specs.Inner.Builders.{builder_of, token_of};
ghost use Rattle.tl_tree.specs.Inner.Reopening.{rest_reopened};

use crate::active_entry::Entry;
use crate::builder::Builder;
use crate::error::GrowError;

impl<'a> Builder<'a> {
    // The place of the entry that is one too many beside an element of the token.
    fn surplus(&self) -> Option<usize>
        ensures within { IfSome result
            (λ place. place < length self.now.active.entries.items) }
        ensures some { IfSome result
            (λ place. seen self.now.path.store (remove self.now.active.entries.items place)
            ≡ with_room (token_of self.now).tag (builder_of self.now).active) }
        ensures none { result ≡ None → (builder_of self.now).active
            ≡ with_room (token_of self.now).tag (builder_of self.now).active }
    {
        self.active.surplus(&self.path.store, self.tag)
    }

    // The Noah's Ark clause, for an element of the token.
    fn make_room(&mut self)
        ensures ok { builder_of self.new
            ≡ record (builder_of self.old) {
              active = with_room (token_of self.old).tag (builder_of self.old).active;
            } }
        ensures token { token_of self.new ≡ token_of self.old }
    {
        match self.surplus() {
            Some(place) => self.active.remove(&self.path, place),
            None => {}
        }
    }

    // An element for the token is inserted and listed.
    fn insert_listed(&mut self) -> Result<(), GrowError>
        ensures ok { OnOk result (builder_of self.new
            ≡ record (insert_element (token_of self.old).tag (builder_of self.old)) {
              active = formatting (builder_of self.old).next (token_of self.old).tag
                  ∷ (builder_of self.old).active;
            }) }
        ensures token { token_of self.new ≡ token_of self.old }
    {
        let number = self.path.next;
        let tag = self.tag;
        let place = self.appropriate_place();
        self.path.insert_element(place, tag)?;
        self.active.push(&self.path, number, tag)
    }

    /// Inserts an element for the token, and lists it as an active formatting element.
    pub(crate) fn insert_formatting_element(&mut self) -> Result<(), GrowError>
        ensures ok { OnOk result (builder_of self.new
            ≡ insert_formatting_element (token_of self.old).tag (builder_of self.old)) }
        ensures token { token_of self.new ≡ token_of self.old }
    {
        self.make_room();
        self.insert_listed()
    }

    // From which place on entries are opened again: behind the last marker or element that is open.
    fn first_closed(&self) -> usize
        ensures stands { rest_reopened self.now result
            ≡ reconstruct_formatting (builder_of self.now) }
        ensures within { result ≤ length self.now.active.entries.items }
    {
        let mut left = self.active.len();
        while left > 0 {
            let entry = self.active.entry(left - 1);
            let Entry::Formatting { number, .. } = entry else {
                return left;
            };
            if self.path.is_open_number(number) {
                return left;
            }
            left -= 1;
        }
        0
    }

    // The element that is listed at a place is opened again; a marker stays.
    fn reopen(&mut self, place: usize) -> Result<(), GrowError>
        requires { place < length self.old.active.entries.items }
        ensures ok { OnOk result
            (rest_reopened self.new (place + 1) ≡ rest_reopened self.old place) }
        ensures len { OnOk result
            (length self.new.active.entries.items ≡ length self.old.active.entries.items) }
        ensures token { token_of self.new ≡ token_of self.old }
    {
        let entry = self.active.entry(place);
        let Entry::Formatting { tag, .. } = entry else {
            return Ok(());
        };
        if self.added == u32::MAX {
            return Err(GrowError::TooLarge);
        }
        let number = self.path.next;
        let at = self.appropriate_place();
        self.path.insert_element(at, tag)?;
        self.active.set(place, number, tag);
        self.added += 1;
        Ok(())
    }

    /// The active formatting elements that are not open are opened again.
    pub(crate) fn reconstruct_formatting(&mut self) -> Result<(), GrowError>
        ensures ok { OnOk result
            (builder_of self.new ≡ reconstruct_formatting (builder_of self.old)) }
        ensures token { token_of self.new ≡ token_of self.old }
    {
        let first = self.first_closed();
        for place in first..self.active.len() {
            self.reopen(place)?;
        }
        Ok(())
    }
}
