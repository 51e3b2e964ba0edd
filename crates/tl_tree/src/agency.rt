//! The rounds of the adoption agency algorithm (13.2.6.4.7), and any other end tag.
ghost use Rattle.std.specs.Option.{option_map};
ghost use Rattle.std.specs.Prelude.{IfOk, IfSome, List, None, OnOk, Some, length, not, suc, true, ◌&&◌, ◌+◌, ◌<◌, ◌≡◌, ℕ};
ghost use Rattle.tl_dom_spec.specs.Adoption.{adoption_agency, adoption_round, any_other_end_tag, furthest_block, with_block, with_formatting};
ghost use Rattle.tl_dom_spec.specs.Builder as dom;
ghost use Rattle.tl_dom_spec.specs.Builder.{current_node};
ghost use Rattle.tl_dom_spec.specs.Formatting.{is_listed, listed};
ghost use Rattle.tl_dom_spec.specs.Path.{has_number, popped_through};
ghost use Rattle.tl_dom_spec.specs.Tags.{is_named};
ghost use Rattle.tl_tree.specs.Inner.Active.{listed_of};
ghost use Rattle.tl_tree.specs.Inner.Adopted.{frame_at};
ghost use Rattle.tl_tree.specs.Inner.Builders.{builder_of, outcome_of, token_of};
ghost use Rattle.tl_tree.specs.Inner.Rounds.{rounds};

use crate::active_entry::Listed;
use crate::adoption::adopt;
use crate::builder::Builder;
use crate::error::GrowError;
use crate::outcome::Outcome;
use crate::test::{TagTest, Test};

impl<'a> Builder<'a> {
    /// Any other end tag: the innermost element of its name is closed, where no special one stands
    /// further in.
    pub(crate) fn any_other_end_tag(&mut self, name: &[u8]) -> Result<(), GrowError>
        ensures ok { OnOk result
            (builder_of self.new ≡ any_other_end_tag name.now (builder_of self.old)) }
        ensures token { token_of self.new ≡ token_of self.old }
    {
        let test = TagTest::Named(name);
        let special = TagTest::Special(self.flags.counts_search);
        if !self.path.is_within(Test::Tag(test), Test::Tag(special)) {
            return Ok(());
        }
        self.close_except_for(test, test)
    }

    /// Elements are popped until the one of a number was popped.
    pub(crate) fn pop_number(&mut self, number: u32) -> Result<(), GrowError>
        ensures ok { OnOk result (builder_of self.new
            ≡ record (builder_of self.old) {
              path = popped_through (has_number number) (builder_of self.old).path;
            }) }
        ensures token { token_of self.new ≡ token_of self.old }
    {
        self.path.pop_through(Test::Number(number))
    }

    // Counts elements that no start tag stands for, and one more.
    fn add_more(&mut self, count: usize) -> Result<(), GrowError>
        ensures ok { OnOk result (builder_of self.new
            ≡ record (builder_of self.old) { added = (builder_of self.old).added + suc count }) }
        ensures token { token_of self.new ≡ token_of self.old }
    {
        let room = u32::MAX - self.added;
        if count >= room as usize {
            return Err(GrowError::TooLarge);
        }
        self.added += count as u32 + 1;
        Ok(())
    }

    // The path and the list after a round with a block.
    fn adopt_block(&mut self, own: Listed, block: usize) -> Result<usize, GrowError>
        requires some { 0 < block }
        requires block { block < length self.old.path.frames.items }
        requires open { (frame_at self.old.path block).is_open ≡ true }
        requires own { own.tag < length self.old.path.store.tags.items }
        ensures ok { IfOk result (λ made. dom.Again
            (record (builder_of self.new) { added = (builder_of self.new).added + suc made })
            ≡ with_block (builder_of self.old) (listed_of self.old.path.store own)
            (Some (frame_at self.old.path block))) }
        ensures token { token_of self.new ≡ token_of self.old }
    {
        adopt(
            &mut self.path,
            &mut self.active,
            own,
            block,
            self.is_fostering,
        )
    }

    // A round with a furthest block.
    fn with_furthest(&mut self, own: Listed, block: usize) -> Result<Outcome, GrowError>
        requires some { 0 < block }
        requires block { block < length self.old.path.frames.items }
        requires open { (frame_at self.old.path block).is_open ≡ true }
        requires own { own.tag < length self.old.path.store.tags.items }
        ensures ok { IfOk result (λ outcome. outcome_of outcome (builder_of self.new)
            ≡ with_block (builder_of self.old) (listed_of self.old.path.store own)
            (Some (frame_at self.old.path block))) }
        ensures token { token_of self.new ≡ token_of self.old }
    {
        let made = self.adopt_block(own, block)?;
        Outcome::Again.after(self.add_more(made))
    }

    // A round without one.
    fn without_block(&mut self, own: Listed) -> Result<Outcome, GrowError>
        ensures ok { IfOk result (λ outcome. outcome_of outcome (builder_of self.new)
            ≡ with_block (builder_of self.old) (listed_of self.old.path.store own) None) }
        ensures token { token_of self.new ≡ token_of self.old }
    {
        self.unlist(own.number);
        Outcome::Done.after(self.pop_number(own.number))
    }

    // A round where the formatting element is open and in scope.
    fn with_block(&mut self, own: Listed) -> Result<Outcome, GrowError>
        requires { own.tag < length self.old.path.store.tags.items }
        ensures ok { IfOk result (λ outcome. outcome_of outcome (builder_of self.new)
            ≡ with_block (builder_of self.old) (listed_of self.old.path.store own)
            (furthest_block own.number (builder_of self.old))) }
        ensures token { token_of self.new ≡ token_of self.old }
    {
        match self
            .path
            .furthest_block(own.number, self.flags.counts_search)
        {
            Some(block) => self.with_furthest(own, block),
            None => self.without_block(own),
        }
    }

    // A round with a formatting element.
    fn with_formatting(&mut self, own: Listed) -> Result<Outcome, GrowError>
        requires { own.tag < length self.old.path.store.tags.items }
        ensures ok { IfOk result
            (λ outcome. (name : List ℕ) → outcome_of outcome (builder_of self.new)
            ≡ with_formatting name (builder_of self.old)
            (Some (listed_of self.old.path.store own))) }
        ensures token { token_of self.new ≡ token_of self.old }
    {
        if !self.path.is_open_number(own.number) {
            self.unlist(own.number);
            return Ok(Outcome::Done);
        }
        let test = Test::Number(own.number);
        if !self.path.is_within(test, Test::Tag(TagTest::Scope)) {
            return Ok(Outcome::Done);
        }
        self.with_block(own)
    }

    // The latest element of a name that is listed after the last marker.
    fn listed(&self, name: &[u8]) -> Option<Listed>
        ensures stands { option_map (listed_of self.now.path.store) result
            ≡ listed name.now (builder_of self.now).active }
        ensures within { IfSome result
            (λ own. own.tag < length self.now.path.store.tags.items) }
    {
        self.active.listed(&self.path.store, name)
    }

    // A round where no formatting element has the name.
    fn without_formatting(&mut self, name: &[u8]) -> Result<Outcome, GrowError>
        ensures ok { IfOk result (λ outcome. outcome_of outcome (builder_of self.new)
            ≡ dom.Done (any_other_end_tag name.now (builder_of self.old))) }
        ensures token { token_of self.new ≡ token_of self.old }
    {
        Outcome::Done.after(self.any_other_end_tag(name))
    }

    // A round of the outer loop.
    fn adoption_round(&mut self, name: &[u8]) -> Result<Outcome, GrowError>
        ensures ok { IfOk result (λ outcome. outcome_of outcome (builder_of self.new)
            ≡ adoption_round name.now (builder_of self.old)) }
        ensures token { token_of self.new ≡ token_of self.old }
    {
        match self.listed(name) {
            Some(own) => self.with_formatting(own),
            None => self.without_formatting(name),
        }
    }

    // Eight rounds at most.
    fn adoption_rounds(&mut self, name: &[u8]) -> Result<(), GrowError>
        ensures ok { OnOk result (builder_of self.new ≡ rounds 8 name.now (builder_of self.old)) }
        ensures token { token_of self.new ≡ token_of self.old }
    {
        let mut left: u8 = 8;
        while left > 0 {
            left -= 1;
            match self.adoption_round(name)? {
                Outcome::Done => return Ok(()),
                Outcome::Again => {}
            }
        }
        Ok(())
    }

    // All elements are known where the path is searched, once the rounds are done.
    fn enter_frames(&mut self) -> Result<(), GrowError>
        ensures ok { builder_of self.new ≡ builder_of self.old }
        ensures token { token_of self.new ≡ token_of self.old }
    {
        self.path.enter_frames()
    }

    // Whether the current node has this name, and isn't listed.
    fn is_current_alone(&self, name: &[u8]) -> bool
        ensures { result ≡ (is_named name.now (current_node (builder_of self.now)).tag
            && not
            (is_listed (current_node (builder_of self.now)).number (builder_of self.now).active)) }
    {
        self.is_current(TagTest::Named(name)) && !self.active.is_listed(self.path.top().number)
    }

    /// The adoption agency algorithm, for an end tag, and for a start tag of `a` or `nobr`.
    pub(crate) fn adoption_agency(&mut self, name: &[u8]) -> Result<(), GrowError>
        ensures ok { OnOk result
            (builder_of self.new ≡ adoption_agency name.now (builder_of self.old)) }
        ensures token { token_of self.new ≡ token_of self.old }
    {
        if self.is_current_alone(name) {
            return self.pop_current_node();
        }
        self.adoption_rounds(name)?;
        self.enter_frames()
    }
}
