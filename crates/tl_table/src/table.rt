//! Tables of nodes that are named by their numbers.
ghost use Rattle.std.specs.Prelude.{◌≡◌, ◌<◌, ◌^◌, ℕ, List, length, slice_get};
ghost use Rattle.std.specs.Borrow.{LendsIf, sem};
ghost use Rattle.std.specs.Option.{option_copied_mut};

use std::alloc::Global;

/// A table of nodes. Its numbers are of 32 bits.
pub trait Table {
    /// A node of it.
    type Node;

    /// Its nodes, by their numbers.
    ghost nodes: { Self → List Self.Node };

    /// The table with this node at the number.
    ghost with_node: { Self → ℕ → Self.Node → Self };

    /// Its nodes.
    fn nodes(&self) -> &[Self::Node]
        ensures value { result.now ≡ nodes self.now }
        ensures numbered { length result.now < 2 ^ 32 };

    /// The node of a number for writing, or None past the table.
    fn node_mut(&mut self, number: u32) -> Option<&mut Self::Node>
        ensures* writes_back { sem 𝓛 (LendsIf Self.row Self.Node.row self.entry result
            (with_node self.entry.now number) self.entry.now) }
        ensures value { option_copied_mut result ≡ slice_get (nodes self.old) number };

    /// Where memory is taken.
    fn allocator(&self) -> Global;
}
