//! What the rules of "in body" ask of a builder, and do to it, besides what others do too.
ghost use Rattle.std.specs.Option.{option_map};
ghost use Rattle.std.specs.Prelude.{IfOk, IfSome, OnOk, Some, length, true, ◌<◌, ◌≡◌};
ghost use Rattle.tl_dom_spec.specs.Body.{anchor_ended, form_taken_out};
ghost use Rattle.tl_dom_spec.specs.Builder.{insert_element, is_context, with_path};
ghost use Rattle.tl_dom_spec.specs.Formatting.{listed, unlisted};
ghost use Rattle.tl_dom_spec.specs.Path.{elements, has_number, has_tag, is_open_number, taken_out, within};
ghost use Rattle.tl_dom_spec.specs.Tags.{bare_tag, is_scope};
ghost use Rattle.tl_tree.specs.Inner.Active.{listed_of};
ghost use Rattle.tl_tree.specs.Inner.Builders.{builder_of, token_of};
ghost use Rattle.tl_tree.specs.Inner.Store.{tag_at};
ghost use Rattle.tl_tree.specs.Inner.Tests.{tag_test_of};

use crate::active_entry::Listed;
use crate::builder::Builder;
use crate::error::GrowError;
use crate::test::{TagTest, Test};

impl<'a> Builder<'a> {
    // What is asked

    /// The number of the element that the form element pointer points to.
    #[tactic(auto, unfolding(crate::specs::Inner::Builders::builder_of))]
    pub(crate) fn form(&self) -> Option<u32>
        ensures { result ≡ (builder_of self.now).form }
    {
        self.form
    }

    /// Whether a `frameset` may still stand in the place of the body.
    #[tactic(auto, unfolding(crate::specs::Inner::Builders::builder_of))]
    pub(crate) fn allows_frameset(&self) -> bool
        ensures { result ≡ (builder_of self.now).is_frameset_ok }
    {
        self.is_frameset_ok
    }

    #[tactic(auto, unfolding(crate::specs::Inner::Builders::builder_of))]
    pub(crate) fn has_quirks(&self) -> bool
        ensures { result ≡ (builder_of self.now).is_quirks }
    {
        self.is_quirks
    }

    /// Whether the context element passes a test.
    pub(crate) fn is_context(&self, test: TagTest<'_>) -> bool
        ensures { result ≡ is_context (tag_test_of test.entry) (builder_of self.now).context }
    {
        match self.context {
            Some(tag) => test.passes(&self.path.store, tag),
            None => false,
        }
    }

    /// Whether the element of a number is in the stack.
    #[tactic(auto, unfolding(crate::specs::Inner::Builders::builder_of))]
    pub(crate) fn is_open_number(&self, number: u32) -> bool
        ensures { result ≡ is_open_number number (builder_of self.now).path }
    {
        self.path.is_open_number(number)
    }

    /// Whether it is in scope.
    #[tactic(auto, unfolding(crate::specs::Inner::Builders::builder_of))]
    pub(crate) fn has_number_in_scope(&self, number: u32) -> bool
        ensures { result
            ≡ within (has_number number) (has_tag is_scope) (elements (builder_of self.now).path) }
    {
        let bounds = Test::Tag(TagTest::Scope);
        self.path.is_within(Test::Number(number), bounds)
    }

    // The name of a tag, as bytes of its own.
    fn copied_name(&self, tag: u32) -> Result<Vec<u8>, GrowError>
        requires { tag < length self.now.path.store.tags.items }
        ensures { IfOk result (λ name. name.items ≡ (tag_at self.now.path.store tag).name) }
    {
        let own = self.path.store.tag(tag);
        let alloc = *self.pending.allocator();
        Ok(Vec::from_slice(alloc, self.path.store.bytes(own.name))?)
    }

    /// The name of the token, as bytes of its own.
    pub(crate) fn token_name(&self) -> Result<Vec<u8>, GrowError>
        ensures { IfOk result (λ name. name.items ≡ (token_of self.now).tag.name) }
    {
        self.copied_name(self.tag)
    }

    // The latest active formatting element that has the name of the token.
    fn listed_alike(&self) -> Option<Listed>
        ensures stands { option_map (listed_of self.now.path.store) result
            ≡ listed (token_of self.now).tag.name (builder_of self.now).active }
        ensures within { IfSome result
            (λ own. own.tag < length self.now.path.store.tags.items) }
    {
        let own = self.path.store.tag(self.tag);
        let name = self.path.store.bytes(own.name);
        self.active.listed(&self.path.store, name)
    }

    // What is done

    /// A line feed is ignored that comes next.
    #[tactic(auto, unfolding(crate::specs::Inner::Builders::builder_of, crate::specs::Inner::Builders::token_of))]
    pub(crate) fn ignore_line_feed(&mut self)
        ensures ok { builder_of self.new ≡ record (builder_of self.old) { skips = true } }
        ensures token { token_of self.new ≡ token_of self.old }
    {
        self.skips = true;
    }

    /// The element of a number is no active formatting element any more.
    pub(crate) fn unlist(&mut self, number: u32)
        ensures ok { builder_of self.new
            ≡ record (builder_of self.old) {
              active = unlisted number (builder_of self.old).active;
            } }
        ensures token { token_of self.new ≡ token_of self.old }
    {
        self.active.unlist(&self.path, number);
    }

    /// An element leaves the stack, from between others too.
    pub(crate) fn take_out(&mut self, number: u32) -> Result<(), GrowError>
        ensures ok { OnOk result (builder_of self.new
            ≡ with_path (builder_of self.old) (taken_out number (builder_of self.old).path)) }
        ensures token { token_of self.new ≡ token_of self.old }
    {
        self.path.take_out(number)
    }

    /// Inserts an element for the token, to which the form element pointer points then.
    pub(crate) fn insert_form(&mut self) -> Result<(), GrowError>
        ensures ok { OnOk result (builder_of self.new
            ≡ record (insert_element (token_of self.old).tag (builder_of self.old)) {
              form = Some (builder_of self.old).next;
            }) }
        ensures token { token_of self.new ≡ token_of self.old }
    {
        let number = self.path.next;
        self.set_form(Some(number));
        self.insert_element()
    }

    // Ends the listed element of a number, which leaves the list and the stack.
    fn listed_ended(&mut self, number: u32, name: &[u8]) -> Result<(), GrowError>
        ensures ok { OnOk result (builder_of self.new
            ≡ anchor_ended (Some (record { number = number; tag = bare_tag name.now }))
            (builder_of self.old)) }
        ensures token { token_of self.new ≡ token_of self.old }
    {
        self.adoption_agency(name)?;
        self.unlist(number);
        if !self.is_open_number(number) {
            return Ok(());
        }
        self.take_out(number)
    }

    /// Ends an element of the token's name, where one is listed.
    pub(crate) fn anchor_ended(&mut self) -> Result<(), GrowError>
        ensures ok { OnOk result (builder_of self.new
            ≡ anchor_ended (listed (token_of self.old).tag.name (builder_of self.old).active)
            (builder_of self.old)) }
        ensures token { token_of self.new ≡ token_of self.old }
    {
        let Some(own) = self.listed_alike() else {
            return Ok(());
        };
        let name = self.copied_name(own.tag)?;
        self.listed_ended(own.number, &name)
    }

    /// The form of a number leaves the stack, where it is in scope.
    pub(crate) fn form_taken_out(&mut self, number: u32) -> Result<(), GrowError>
        ensures ok { OnOk result (builder_of self.new
            ≡ form_taken_out (Some number) (builder_of self.old)) }
        ensures token { token_of self.new ≡ token_of self.old }
    {
        if !self.has_number_in_scope(number) {
            return Ok(());
        }
        self.generate_implied_end_tags()?;
        self.take_out(number)
    }
}
