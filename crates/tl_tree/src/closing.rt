//! Elements that a tag closes "in body" (13.2.6.4.7).
ghost use Rattle.std.specs.Prelude.{OnOk, codes, ◌≡◌};
ghost use Rattle.tl_dom_spec.specs.Body.{close_in_scope, close_p, earlier_item, heading_closed, item_closed, item_closed_at, nobr_ended, option_ended, ruby_closed, select_closed};
ghost use Rattle.tl_dom_spec.specs.Path.{elements, has_tag, within};
ghost use Rattle.tl_dom_spec.specs.Tags.{is_any, is_item_bound};
ghost use Rattle.tl_tree.specs.Inner.Builders.{builder_of, token_of};
ghost use Rattle.tl_tree.specs.Inner.NameLists.{list_of};
ghost use Rattle.tl_tree.specs.Inner.Tests.{tag_test_of};

use crate::builder::Builder;
use crate::error::GrowError;
use crate::names::Names;
use crate::test::TagTest;

impl<'a> Builder<'a> {
    pub(crate) fn close_p(&mut self) -> Result<(), GrowError>
        ensures ok { OnOk result (builder_of self.new ≡ close_p (builder_of self.old)) }
        ensures token { token_of self.new ≡ token_of self.old }
    {
        if !self.has_in_button_scope(TagTest::Any(Names::Paragraph)) {
            return Ok(());
        }
        self.close_except_for(
            TagTest::Any(Names::Paragraph),
            TagTest::Any(Names::Paragraph),
        )
    }

    /// Closes an element that passes a test, where one is in scope.
    #[inline(always)]
    pub(crate) fn close_in_scope(
        &mut self,
        but: TagTest<'_>,
        test: TagTest<'_>,
    ) -> Result<(), GrowError>
        ensures ok { OnOk result (builder_of self.new
            ≡ close_in_scope (tag_test_of but.entry) (tag_test_of test.entry)
            (builder_of self.old)) }
        ensures token { token_of self.new ≡ token_of self.old }
    {
        if !self.has_in_scope(test) {
            return Ok(());
        }
        self.close_except_for(but, test)
    }

    pub(crate) fn heading_closed(&mut self) -> Result<(), GrowError>
        ensures ok { OnOk result (builder_of self.new ≡ heading_closed (builder_of self.old)) }
        ensures token { token_of self.new ≡ token_of self.old }
    {
        if !self.is_current(TagTest::Heading) {
            return Ok(());
        }
        self.pop_current_node()
    }

    /// In a ruby, generates implied end tags but for some elements.
    pub(crate) fn ruby_closed(&mut self, but: TagTest<'_>) -> Result<(), GrowError>
        ensures ok { OnOk result (builder_of self.new
            ≡ ruby_closed (tag_test_of but.entry) (builder_of self.old)) }
        ensures token { token_of self.new ≡ token_of self.old }
    {
        if !self.has_in_scope(TagTest::Any(Names::Ruby)) {
            return Ok(());
        }
        self.generate_implied_end_tags_except_for(but)
    }

    pub(crate) fn select_closed(&mut self) -> Result<(), GrowError>
        ensures ok { OnOk result (builder_of self.new ≡ select_closed (builder_of self.old)) }
        ensures token { token_of self.new ≡ token_of self.old }
    {
        if !self.has_in_scope(TagTest::Any(Names::Select)) {
            return Ok(());
        }
        self.pop_until(TagTest::Any(Names::Select))
    }

    /// In a `select`, generates implied end tags but for some elements; elsewhere ends an `option`
    /// that is the current node.
    pub(crate) fn option_ended(&mut self, but: TagTest<'_>) -> Result<(), GrowError>
        ensures ok { OnOk result (builder_of self.new
            ≡ option_ended (tag_test_of but.entry) (builder_of self.old)) }
        ensures token { token_of self.new ≡ token_of self.old }
    {
        if self.has_in_scope(TagTest::Any(Names::Select)) {
            return self.generate_implied_end_tags_except_for(but);
        }
        if !self.is_current(TagTest::Any(Names::Option)) {
            return Ok(());
        }
        self.pop_current_node()
    }

    pub(crate) fn nobr_ended(&mut self, name: &[u8]) -> Result<(), GrowError>
        ensures ok { OnOk result
            (builder_of self.new ≡ nobr_ended name.now (builder_of self.old)) }
        ensures token { token_of self.new ≡ token_of self.old }
    {
        if !self.has_in_scope(TagTest::Named(name)) {
            return Ok(());
        }
        self.adoption_agency(name)?;
        self.reconstruct_formatting()
    }

    // Whether an item of these names is open, with no special element inside but `address`, `div`
    // and `p`.
    fn has_item(&self, names: Names) -> bool
        ensures { result
            ≡ within (has_tag (is_any (list_of names)))
            (has_tag (is_item_bound (builder_of self.now).flags.counts_search))
            (elements (builder_of self.now).path) }
    {
        let bounds = TagTest::ItemBound(self.flags.counts_search);
        self.path.has_within(TagTest::Any(names), bounds)
    }

    fn earlier_list_item_closed(&mut self) -> Result<(), GrowError>
        ensures ok { OnOk result (builder_of self.new
            ≡ item_closed_at
            (earlier_item
            (is_any (codes "li"))
            (is_item_bound (builder_of self.old).flags.counts_search)
            (elements (builder_of self.old).path))
            (builder_of self.old)) }
        ensures token { token_of self.new ≡ token_of self.old }
    {
        if !self.has_item(Names::Li) {
            return Ok(());
        }
        self.close_except_for(TagTest::Named(b"li"), TagTest::Named(b"li"))
    }

    fn earlier_description_closed(&mut self) -> Result<(), GrowError>
        ensures ok { OnOk result (builder_of self.new
            ≡ item_closed_at
            (earlier_item
            (is_any (codes "dd dt"))
            (is_item_bound (builder_of self.old).flags.counts_search)
            (elements (builder_of self.old).path))
            (builder_of self.old)) }
        ensures token { token_of self.new ≡ token_of self.old }
    {
        if self.has_item(Names::Dd) {
            return self.close_except_for(TagTest::Named(b"dd"), TagTest::Named(b"dd"));
        }
        if !self.has_item(Names::Dt) {
            return Ok(());
        }
        self.close_except_for(TagTest::Named(b"dt"), TagTest::Named(b"dt"))
    }

    /// Closes an earlier list item, and a `p`.
    pub(crate) fn list_item_closed(&mut self) -> Result<(), GrowError>
        ensures ok { OnOk result
            (builder_of self.new ≡ item_closed (is_any (codes "li")) (builder_of self.old)) }
        ensures token { token_of self.new ≡ token_of self.old }
    {
        self.earlier_list_item_closed()?;
        self.close_p()
    }

    /// Closes an earlier item of a list of descriptions, and a `p`.
    pub(crate) fn description_closed(&mut self) -> Result<(), GrowError>
        ensures ok { OnOk result
            (builder_of self.new ≡ item_closed (is_any (codes "dd dt")) (builder_of self.old)) }
        ensures token { token_of self.new ≡ token_of self.old }
    {
        self.earlier_description_closed()?;
        self.close_p()
    }
}
