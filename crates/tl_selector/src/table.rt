//! Whether a selector holds at a node of a table.
ghost use Rattle.std.specs.Prelude.{IsTrue, ◌↔◌, ◌≡◌, ◌<◌, ◌≤◌, length, map, false, IsOk, IfOk, IfErr, Err};
ghost use Rattle.tl_spec.specs.Select.Meaning.{Holds, has_combinator};
ghost use Rattle.tl_selector.specs.View.{selector};

use crate::matching::holds_alone_at;
use crate::node_set::{is_marked, marks};
use crate::selector::Selector;
use crate::selector::spine::has_combinator;
use std::alloc::{AllocError, Global};
use tl_table::element::Element;
use tl_table::errors::TreeError;
use tl_table::handle::NodeHandle;
use tl_table::table::Table;

// Whether the selector holds at the node of a number.
fn holds_at<N: Element>(
    alloc: Global,
    e: &Selector<'_>,
    nodes: &[N],
    number: usize,
) -> Result<bool, AllocError>
    ensures held { IfOk result (λ held. IsTrue held
        ↔ Holds (map N.node nodes.now) (selector e.now) number) }
    ensures alone { has_combinator (selector e.now) ≡ false → IsOk result }
{
    if has_combinator(e) {
        let marked = marks(alloc, nodes, None, e)?;
        Ok(is_marked(&marked, number))
    } else {
        Ok(holds_alone_at(e, nodes, number))
    }
}

impl<'a> Selector<'a> {
    /// Whether it holds at the node that the handle names, where whatever nodes of the table have
    /// it among their children, or their children's, count as its ancestors.
    pub fn matches_in<T: Table>(&self, table: &T, handle: NodeHandle) -> Result<bool, TreeError>
    where
        T::Node: Element,
        ensures held { IfOk result (λ held. IsTrue held
            ↔ Holds (map T.Node.node (T.nodes table.now)) (selector self.now) handle) }
        ensures dangling { length (T.nodes table.now) ≤ handle
            → result ≡ Err (TreeError.Dangling handle) }
        ensures err { handle < length (T.nodes table.now)
            → IfErr result (λ error. error ≡ TreeError.OutOfMemory) }

        // Without ancestors to look for it takes no memory.
        ensures alone { has_combinator (selector self.now) ≡ false
            → handle < length (T.nodes table.now) → IsOk result }
    {
        let number = handle.get_inner() as usize;
        let nodes = table.nodes();
        if nodes.len() <= number {
            return Err(TreeError::Dangling(handle));
        }
        Ok(holds_at(table.allocator(), self, nodes, number)?)
    }
}
