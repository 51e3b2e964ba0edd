//! What is read becomes its tree.
ghost use Rattle.std.specs.Prelude.{IfOk, IsTrue, length, ◌≡◌};
ghost use Rattle.tl_dom_spec.specs.HtmlTree.{trees_in};
ghost use Rattle.tl_dom_spec.specs.Path.{joined, popped_to, top};
ghost use Rattle.tl_tree.specs.Inner.Builders.{builder_of};
ghost use Rattle.tl_tree.specs.Inner.Frames.{path_of, test_of};
ghost use Rattle.tl_tree.specs.Inner.Store.{is_row, nodes_of};
ghost use Rattle.tl_tree.specs.Rows.{rows_of};
ghost use Rattle.tl_tree.specs.Sources.{bounds_in};
ghost use Rattle.tl_tree.specs.TreeView.{rows_in};

use crate::builder::Builder;
use crate::cell::Node;
use crate::error::GrowError;
use crate::path::FramePath;
use crate::places::Places;
use crate::settle::tree_of;
use crate::test::Test;
use crate::tree::Tree;
use std::alloc::Global;

impl<'a> FramePath<'a> {
    /// What stands in the innermost frame, as a row.
    pub(crate) fn top_content(&mut self) -> Result<u32, GrowError>
        ensures stands { IfOk result (λ row. nodes_of self.new.store row
            ≡ joined (top (path_of self.old)).children (top (path_of self.old)).waiting) }
        ensures within { IfOk result (λ row. IsTrue (is_row self.new.store row)) }
        ensures page { self.new.store.page.now ≡ self.old.store.page.now }
    {
        let top = self.top();
        let frame = self.folded(top)?;
        if frame.waiting == 0 {
            return Ok(frame.children);
        }
        self.add(frame.children, Node::Joined(frame.waiting))
    }

    // What stands in the innermost frame that passes a test, or in the document, as a row. All
    // inside of it is settled.
    fn content_of(&mut self, test: Test<'_>) -> Result<u32, GrowError>
        ensures stands { IfOk result (λ row. nodes_of self.new.store row
            ≡ joined (top (popped_to (test_of test.entry) (path_of self.old))).children
            (top (popped_to (test_of test.entry) (path_of self.old))).waiting) }
        ensures within { IfOk result (λ row. IsTrue (is_row self.new.store row)) }
        ensures page { self.new.store.page.now ≡ self.old.store.page.now }
    {
        self.pop_to(test)?;
        self.top_content()
    }
}

impl<'a> Builder<'a> {
    /// The tree of what stands in the innermost frame that passes a test, or in the document, with
    /// the places of the marks.
    pub(crate) fn into_tree(
        self,
        alloc: Global,
        sources: Places,
        test: Test<'_>,
    ) -> Result<Tree<'a>, GrowError>
        ensures tree { IfOk result (λ tree. rows_in tree
            ≡ rows_of
            (trees_in (top (popped_to (test_of test.entry) (builder_of self.entry).path)))) }
        ensures sources { IfOk result (λ tree. bounds_in tree.sources ≡ bounds_in sources) }
        ensures end { IfOk result
            (λ tree. tree.page_end ≡ length self.entry.path.store.page.now) }
        ensures quirks { IfOk result
            (λ tree. tree.is_quirks ≡ (builder_of self.entry).is_quirks) }
    {
        let is_quirks = self.is_quirks;
        let mut path = self.path;
        let row = path.content_of(test)?;
        tree_of(alloc, path.into_store(), row, sources, is_quirks)
    }
}
