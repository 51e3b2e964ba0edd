//! The way along last children, as long as it rises.
ghost use Rattle.std.specs.Prelude.{map};
ghost use Rattle.tl_table.specs.LastDescendant.{StopsAt};

pub(crate) mod visited;

use crate::element::Element;

/// Where a climb stopped.
pub enum Stop {
    /// At the end of the way.
    End(u32),
    /// At a number that the table lacks.
    Dangling(u32),
    /// At a child whose number is not above its parent's: the way may come back.
    Fall,
}

/// Climbs along last children, from this one on. It takes no memory.
pub fn last_descendant<N: Element>(nodes: &[N], first: u32) -> Stop
    ensures { StopsAt (map N.node nodes.now) first result }
{
    let mut handle = first;
    loop {
        let Some(node) = nodes.get(handle as usize) else {
            return Stop::Dangling(handle);
        };
        let Some(next) = node.last_child() else {
            return Stop::End(handle);
        };
        if next <= handle {
            return Stop::Fall;
        }
        handle = next;
    }
}
