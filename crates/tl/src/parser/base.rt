//! The table of nodes.
//!
//! A flag says that nodes lie as they were read, until they are lent for writing. Then what hangs
//! below a tag is the nodes right after it, and texts go node after node without a box. Prints go
//! by the walk always: they fetch each tag's box for its attributes, and want the end of each tag.
ghost use Rattle.std.specs.Prelude.{◌≡◌, ◌<◌, ◌^◌, length, slice_get, IsTrue, Option};
ghost use Rattle.std.specs.Borrow.{sem};
ghost use Rattle.std.specs.Option.{option_copied, option_copied_mut};
ghost use Rattle.tl.specs.Inner.Preorder.{IsInPreorder};
ghost use Rattle.tl.specs.Inner.TableLends.{LendsNode, LendsTableNodes, LendsTableTop, with_node};

use crate::parser::tag::node::{Node, NodeOf};
use std::alloc::Global;
use std::marker::Model;
use tl_attributes::attributes::Attributes;
use tl_attributes::summary::{Summary, SummaryOf};
use tl_bytes::byte_string::Bytes;
use tl_inline::inline::vec::InlineVec;
use tl_table::handle::{InnerNodeHandle, NodeHandle};
use tl_table::table::Table;
use tl_tracking::TrackingOf;

/// The nodes of a document, in the order of their first byte.
pub type Tree<'a> = Vec<Node<'a>>;

/// Handles of the tags of one class. Up to two lie inline.
pub type ClassVec = InlineVec<NodeHandle, 2>;

/// The version that a doctype says. The reader knows `HTML5` alone.
#[derive(Clone, Copy, PartialEq, Eq, PartialOrd, Ord, Hash, Debug)]
pub enum HTMLVersion {
    /// `<!doctype html>`
    HTML5,
    /// Strict HTML 4.01
    StrictHTML401,
    /// Transitional HTML 4.01
    TransitionalHTML401,
    /// Frameset HTML 4.01
    FramesetHTML401,
}

/// A table of fewer than 2^32 nodes, the handles of its top nodes, its version, and what was
/// tracked of it in a value of the type `M`.
#[derive(Debug, Drop)]
pub struct ParserOf<A, B, O: SummaryOf<A>, M> {
    nodes: Vec<NodeOf<A, B, O>>,
    top: Vec<NodeHandle>,
    version: Option<HTMLVersion>,
    tracking: M,
    // Whether the nodes lie as they were read, in preorder: none was lent for writing since then.
    in_preorder: bool,
}

/// Maps from the ids and classes of tags to their numbers, as far as they are tracked.
pub type Tracking<'a> = TrackingOf<Bytes<'a>>;

/// A table of nodes that borrow from a text.
pub type Parser<'a> = ParserOf<Attributes<'a>, Bytes<'a>, Summary, Tracking<'a>>;

impl<A, B, O: SummaryOf<A>, M> Model for ParserOf<A, B, O, M> {
    ghost use Rattle.std.specs.Prelude.{◌≡◌, ◌<◌, ◌^◌, length, true};
    ghost use Rattle.tl.specs.Table.{Table};
    ghost use Rattle.tl.specs.Inner.Preorder.{IsInPreorder};

    ghost Value = { Table A B O M };

    ghost view = { λ p. record {
      nodes = p.nodes.items;
      top = p.top.items;
      version = p.version;
      tracking = p.tracking;
    } };

    ghost invariant = { λ p. (length p.nodes.items < 2 ^ 32)
        × (p.in_preorder ≡ true → IsInPreorder p.nodes.items) };
}

impl<A, B, O: SummaryOf<A>, M> ParserOf<A, B, O, M> {
    // A table of these parts.
    pub(crate) fn from_parts(
        nodes: Vec<NodeOf<A, B, O>>,
        top: Vec<NodeHandle>,
        version: Option<HTMLVersion>,
        tracking: M,
    ) -> Self
        requires { length nodes.items < 2 ^ 32 }
        ensures { result ≡ record {
          nodes = nodes.items;
          top = top.items;
          version = version;
          tracking = tracking;
        } }
    {
        ParserOf {
            nodes,
            top,
            version,
            tracking,
            in_preorder: false,
        }
    }

    // Notes that the nodes lie in preorder, which holds until they are lent for writing.
    pub(crate) fn note_preorder(&mut self)
        requires { IsInPreorder self.old.nodes }
        ensures { self.new ≡ self.old }
    {
        self.in_preorder = true;
    }

    // Whether the nodes are known to lie in preorder.
    pub(crate) fn is_in_preorder(&self) -> bool
        ensures { IsTrue result → IsInPreorder self.now.nodes }
    {
        self.in_preorder
    }

    /// The node of a number, or None past the table.
    pub fn resolve_node_id(&self, id: InnerNodeHandle) -> Option<&NodeOf<A, B, O>>
        ensures { option_copied result ≡ slice_get self.now.nodes id }
    {
        self.nodes.get(id as usize)
    }

    // All nodes.
    pub(crate) fn nodes(&self) -> &[NodeOf<A, B, O>]
        ensures value { result.now ≡ self.now.nodes }

        // So the place of a node is a handle.
        ensures within { length self.now.nodes < 2 ^ 32 }
    {
        self.nodes.as_slice()
    }

    // The allocator of the nodes.
    pub(crate) fn alloc(&self) -> Global {
        *self.nodes.allocator()
    }

    // The handles of the top nodes.
    pub(crate) fn top(&self) -> &[NodeHandle]
        ensures { result.now ≡ self.now.top }
    {
        self.top.as_slice()
    }

    // What was tracked.
    pub(crate) fn tracking(&self) -> &M
        ensures { result.now ≡ self.now.tracking }
    {
        &self.tracking
    }

    // The version.
    pub(crate) fn version(&self) -> Option<HTMLVersion>
        ensures { result ≡ self.now.version }
    {
        self.version
    }

    /// The node of a number for writing, or None past the table.
    #[tactic(auto, using(crate::proofs::Nodes::copied_of_item))]
    pub fn resolve_node_id_mut(&mut self, id: InnerNodeHandle) -> Option<&mut NodeOf<A, B, O>>
        ensures* writes_back { sem 𝓛
            (LendsNode A.row B.row O.row M.row O.SummaryOf self.entry id result) }
        ensures value { option_copied_mut result ≡ slice_get self.old.nodes id }
    {
        self.in_preorder = false;
        self.nodes.get_mut(id as usize)
    }

    // All nodes for writing.
    pub(crate) fn nodes_mut(&mut self) -> &mut [NodeOf<A, B, O>]
        ensures* writes_back { sem 𝓛
            (LendsTableNodes A.row B.row O.row M.row O.SummaryOf self.entry result) }
        ensures value { result.now ≡ self.old.nodes }
    {
        self.in_preorder = false;
        self.nodes.as_mut_slice()
    }

    // The handles of the top nodes for writing.
    pub(crate) fn top_mut(&mut self) -> &mut [NodeHandle]
        ensures* writes_back { sem 𝓛
            (LendsTableTop A.row B.row O.row M.row O.SummaryOf self.entry result) }
        ensures value { result.now ≡ self.old.top }
    {
        self.top.as_mut_slice()
    }
}

impl<A: Drop, B: Drop, O: SummaryOf<A>, M: Drop> ParserOf<A, B, O, M> {
    // Makes this what was tracked.
    pub(crate) fn set_tracking(&mut self, tracking: M)
        ensures { self.new ≡ record self.old { tracking = tracking } }
    {
        self.tracking = tracking;
    }
}

impl<A, B, O: SummaryOf<A>, M> Table for ParserOf<A, B, O, M> {
    type Node = NodeOf<A, B, O>;

    ghost nodes = { λ p. p.nodes };

    ghost with_node = { with_node };

    fn nodes(&self) -> &[NodeOf<A, B, O>] {
        ParserOf::nodes(self)
    }

    fn node_mut(&mut self, number: u32) -> Option<&mut NodeOf<A, B, O>> {
        self.resolve_node_id_mut(number)
    }

    fn allocator(&self) -> Global {
        self.alloc()
    }
}
