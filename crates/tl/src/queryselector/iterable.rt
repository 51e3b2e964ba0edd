//! What a selector is asked of: a document, or what hangs below a tag.
ghost use Rattle.std.specs.Prelude.{◌≡◌, ◌≤◌, ◌^◌, ℕ, ⊤, IfOk, List, Ok, Option, Result, Some, length, map, slice_get};
ghost use Rattle.std.specs.Option.{option_map};
ghost use Rattle.tl_table.specs.Answer.{Answers, WantsNoMemory};
ghost use Rattle.tl_table.specs.Inner.Way.{RisesBelow};
ghost use Rattle.tl_spec.specs.Tree.Document.{Node};
ghost use Rattle.tl_spec.specs.Walk.Range.{range_of};
ghost use Rattle.tl_spec.specs.Walk.{TreeFault};
ghost use Rattle.tl.specs.Query.{item_at, item_of, count_in};
ghost use Rattle.tl.specs.View.{node_view};

use crate::errors::TreeError;
use crate::parser::base::Parser;
use crate::parser::tag::HTMLTag;
use crate::parser::tag::node::Node as HTMLNode;
use crate::vdom::VDom;
use tl_table::handle::{InnerNodeHandle, NodeHandle};

mod private {
    /// Only documents and tags are asked.
    pub trait Sealed {}
}

/// What a selector is asked of: the nodes of consecutive numbers, from `start` on.
pub trait QueryIterable<'a>: private::Sealed {
    /// The first number, if there is one.
    ghost first: { Self → Option ℕ };

    /// How many numbers there are, by the nodes of the table that is handed in; or the fault on the
    /// way.
    ghost count: { Self → List Node → Result ℕ TreeFault };

    /// The tables of which they are counted without memory.
    ghost counts_freely: { Self → List Node → Type 0 };

    /// The node of a table at a place counted from the first number, and its handle; None past the
    /// table.
    fn get<'p>(
        &'p self,
        parser: &'p Parser<'a>,
        index: usize,
    ) -> Option<(&'p HTMLNode<'a>, NodeHandle)>
        ensures { option_map item_of result ≡ item_at (first self.now) parser.now.nodes index };

    /// How many numbers there are.
    fn len(&self, parser: &Parser<'_>) -> Result<usize, TreeError>
        ensures len { Answers (λ n. n) (count self.now (map node_view parser.now.nodes)) result }
        ensures fits { IfOk result (λ n. n ≤ 2 ^ 32) }
        ensures memory { counts_freely self.now (map node_view parser.now.nodes)
            → WantsNoMemory result };

    /// The first number, if there is one.
    fn start(&self) -> Option<InnerNodeHandle>
        ensures { result ≡ first self.now };
}

impl<'a> private::Sealed for VDom<'a> {}

/// A document is asked at all numbers that its own table has. They are counted without memory.
impl<'a> QueryIterable<'a> for VDom<'a> {
    ghost first = { λ d. Some 0 };

    ghost count = { λ d nodes. Ok (length d.nodes) };

    ghost counts_freely = { λ d nodes. ⊤ };

    fn get<'p>(
        &'p self,
        parser: &'p Parser<'a>,
        index: usize,
    ) -> Option<(&'p HTMLNode<'a>, NodeHandle)> {
        node_at(parser, 0, index)
    }

    fn len(&self, _: &Parser<'_>) -> Result<usize, TreeError> {
        Ok(self.nodes().len())
    }

    fn start(&self) -> Option<InnerNodeHandle> {
        Some(0)
    }
}

impl<'a> private::Sealed for HTMLTag<'a> {}

/// A tag is asked at the numbers from its first child to the last of what hangs below it. They are
/// counted without memory where the way along last children rises.
impl<'a> QueryIterable<'a> for HTMLTag<'a> {
    ghost first = { λ t. slice_get t.children.items 0 };

    ghost count = { λ t nodes. count_in (range_of nodes t.children.items) };

    ghost counts_freely = { λ t nodes. RisesBelow nodes t.children.items };

    fn get<'p>(
        &'p self,
        parser: &'p Parser<'a>,
        index: usize,
    ) -> Option<(&'p HTMLNode<'a>, NodeHandle)> {
        let first = self.children().start()?;
        node_at(parser, first, index)
    }

    fn len(&self, parser: &Parser<'_>) -> Result<usize, TreeError> {
        let range = self.children().range(parser)?;
        Ok(range.end - range.start)
    }

    fn start(&self) -> Option<InnerNodeHandle> {
        self.children().start()
    }
}

// The node of a table at a place counted from this number, and its handle.
fn node_at<'p, 'a>(
    parser: &'p Parser<'a>,
    first: InnerNodeHandle,
    index: usize,
) -> Option<(&'p HTMLNode<'a>, NodeHandle)>
    ensures { option_map item_of result ≡ item_at (Some first) parser.now.nodes index }
{
    let nodes = parser.nodes();
    if nodes.len() <= index {
        return None;
    }
    let number = first as usize + index;
    let node = nodes.get(number)?;
    Some((node, NodeHandle::new(number as u32)))
}
