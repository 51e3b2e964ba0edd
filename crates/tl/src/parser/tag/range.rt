//! The range of a tag: the nodes from its first child to the last of what hangs below it.
ghost use Rattle.std.specs.Prelude.{◌≡◌, ◌<◌, ◌≤◌, ◌^◌, IfOk, None, length, map, slice_get};
ghost use Rattle.std.specs.List.{last_or};
ghost use Rattle.tl_table.specs.Answer.{Answers, WantsNoMemory};
ghost use Rattle.tl_table.specs.Inner.Way.{RisesBelow};
ghost use Rattle.tl_spec.specs.Walk.Range.{last_below, boundaries_of, range_of};
ghost use Rattle.tl.specs.View.{node_view};
ghost use Rattle.tl.specs.Query.{ReadsNodes};

use crate::errors::TreeError;
use crate::parser::base::Parser;
use crate::parser::tag::children::{Children, ChildrenOf};
use crate::parser::tag::node::Node;
use std::ops::Range;
use tl_attributes::summary::SummaryOf;
use tl_table::handle::{InnerNodeHandle, NodeHandle};
use tl_table::range;

impl<'b, A, B, O: SummaryOf<A>> ChildrenOf<'b, A, B, O> {
    /// The number of the first child, which is not looked up; None where there is no child.
    pub fn start(&self) -> Option<InnerNodeHandle>
        ensures { result ≡ slice_get self.now.children.items 0 }
    {
        match self.top().as_slice() {
            [first, ..] => Some(first.get_inner()),
            [] => None,
        }
    }

    // The number of the last child.
    fn last(&self) -> Option<InnerNodeHandle>
        ensures { result ≡ last_or None self.now.children.items }
    {
        last_of(self.top().as_slice())
    }
}

// The number of the last handle.
#[tactic(auto, using(crate::proofs::Elements::last_at_end))]
fn last_of(handles: &[NodeHandle]) -> Option<InnerNodeHandle>
    ensures { result ≡ last_or None handles.now }
{
    handles.last().map(|handle| handle.get_inner())
}

impl<'a, 'b> Children<'a, 'b> {
    /// The number of the last of what hangs below the tag: its last child, that one's last child,
    /// and so on; None where there is no child.
    pub fn end(&self, parser: &Parser<'_>) -> Result<Option<InnerNodeHandle>, TreeError>
        ensures end { Answers (λ end. end) (last_below (map node_view parser.now.nodes)
            (last_or None self.now.children.items)) result }
        ensures memory { RisesBelow (map node_view parser.now.nodes) self.now.children.items
            → WantsNoMemory result }
    {
        range::end(parser.alloc(), parser.nodes(), self.last())
    }

    /// Start and end, also where the end is below the start; None where there is no child.
    pub fn boundaries(
        &self,
        parser: &Parser<'_>,
    ) -> Result<Option<(InnerNodeHandle, InnerNodeHandle)>, TreeError>
        ensures boundaries { Answers (λ both. both)
            (boundaries_of (map node_view parser.now.nodes) self.now.children.items) result }
        ensures memory { RisesBelow (map node_view parser.now.nodes) self.now.children.items
            → WantsNoMemory result }
    {
        range::boundaries(parser.alloc(), parser.nodes(), self.start(), self.last())
    }

    // The numbers from start to end.
    pub(crate) fn range(&self, parser: &Parser<'_>) -> Result<Range<usize>, TreeError>
        ensures range { Answers (λ r. (r.start, r.end))
            (range_of (map node_view parser.now.nodes) self.now.children.items) result }
        ensures within { IfOk result (λ r. (r.start ≤ r.end) × (r.end ≤ length parser.now.nodes)) }
        ensures fits { IfOk result (λ r. r.end < 2 ^ 32) }
        ensures memory { RisesBelow (map node_view parser.now.nodes) self.now.children.items
            → WantsNoMemory result }
    {
        range::range(parser.alloc(), parser.nodes(), self.start(), self.last())
    }

    /// The nodes from start to end, both included: none where there is no child, or the end is
    /// below the start.
    pub fn all<'p>(&self, parser: &'p Parser<'a>) -> Result<&'p [Node<'a>], TreeError>
        ensures all { ReadsNodes
            (range_of
            (map node_view parser.now.nodes) self.now.children.items) parser.now.nodes result }
        ensures memory { RisesBelow (map node_view parser.now.nodes) self.now.children.items
            → WantsNoMemory result }
    {
        let range = self.range(parser)?;
        Ok(&parser.nodes()[range])
    }
}
