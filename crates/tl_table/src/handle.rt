//! Numbers of nodes, and the nodes that they name in a table.
ghost use Rattle.std.specs.Prelude.{◌≡◌, slice_get};
ghost use Rattle.std.specs.Borrow.{LendsIf, sem};
ghost use Rattle.std.specs.Option.{option_copied, option_copied_mut};

use crate::table::Table;
use std::marker::Model;

/// What a handle holds.
pub type InnerNodeHandle = u32;

/// The number of a node in its table, counted from 0 in the order of the text. Nothing ties it to
/// one table.
#[derive(Clone, Copy, PartialEq, Eq, PartialOrd, Ord, Hash, Debug)]
pub struct NodeHandle(InnerNodeHandle);

impl Model for NodeHandle {
    ghost use Rattle.std.specs.Prelude.{ℕ};

    ghost Value = { ℕ };

    ghost view = { λ h. h.0 };

    ghost inverse = { λ n. record { 0 = n } };
}

impl NodeHandle {
    /// The handle of a number, whether or not a table has it.
    pub fn new(number: InnerNodeHandle) -> Self
        ensures { result ≡ number }
    {
        NodeHandle(number)
    }

    /// The number.
    pub fn get_inner(self) -> InnerNodeHandle
        ensures { result ≡ self }
    {
        self.0
    }

    /// The node of this number in a table, or None past the table.
    pub fn get<T: Table>(self, table: &T) -> Option<&T::Node>
        ensures { option_copied result ≡ slice_get (T.nodes table.now) self }
    {
        table.nodes().get(self.get_inner() as usize)
    }

    /// The node of this number in a table for writing, or None past the table. A proof that needs
    /// what a write leaves takes `resolve_node_id_mut` of the table.
    pub fn get_mut<T: Table>(self, table: &mut T) -> Option<&mut T::Node>
        ensures* writes_back { sem 𝓛 (LendsIf T.row T.Node.row table.entry result
            (T.with_node table.entry.now self) table.entry.now) }
        ensures value { option_copied_mut result ≡ slice_get (T.nodes table.old) self }
    {
        node_mut(table, self)
    }
}

// The node of a handle for writing, or None past the table.
fn node_mut<T: Table>(table: &mut T, handle: NodeHandle) -> Option<&mut T::Node>
    ensures* writes_back { sem 𝓛 (LendsIf T.row T.Node.row table.entry result
        (T.with_node table.entry.now handle) table.entry.now) }
    ensures value { option_copied_mut result ≡ slice_get (T.nodes table.old) handle }
{
    let number = handle.get_inner();
    table.node_mut(number)
}

impl Default for NodeHandle {
    ghost is_default = { λ h. h ≡ 0 };

    fn default() -> Self {
        NodeHandle::new(0)
    }
}
