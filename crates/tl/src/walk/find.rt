//! Searches.
//!
//! A search is stated by what it shows: `FindsNode` gives the chain of the closure's states over
//! the nodes that the walk meets.
ghost use Rattle.std.specs.Prelude.{◌≡◌, ℕ, map, Ok, Err, None};
ghost use Rattle.tl_table.specs.TreeFault.{FirstDangles};
ghost use Rattle.tl_spec.specs.Tree.Element.{children_of};
ghost use Rattle.tl.specs.Find.{FindsNode, FindsNodeOrStops, sight, sights, sights_below};
ghost use Rattle.tl.specs.Inner.Node.{tag_of};
ghost use Rattle.tl.specs.View.{node_view};
ghost use Rattle.tl.specs.Walker.{IsMarked, events_to_come};

use crate::errors::TreeError;
use crate::parser::base::Parser;
use crate::parser::tag::HTMLTag;
use crate::parser::tag::node::Node;
use crate::walk::{Entered, WalkEvent, Walker};
use tl_table::handle::NodeHandle;

// The first node of what is left of a walk at which `f` answers true.
fn find_in_walk<'s, 'a, F: FnMut(&Node<'a>) -> bool>(
    mut walker: Walker<'s, 'a>,
    f: &mut F,
) -> Result<Option<NodeHandle>, TreeError>
    requires callable { F.IsAlwaysCallable f.old }
    requires marked { IsMarked walker }
    ensures search { FindsNodeOrStops F.FnMut f.old
        (sights walker.entry.nodes.now (events_to_come walker.entry)) result f.new }
    ensures dangling { (h : ℕ) → FirstDangles walker.entry.nodes.now walker.entry.rest.now h
        → result ≡ Err (TreeError.Dangling h) }
{
    loop {
        match walker.next_event() {
            Ok(Some(event)) => {
                if let WalkEvent::Meets(handle, node) = event {
                    if f(node) {
                        return Ok(Some(handle));
                    }
                }
            }
            Ok(None) => return Ok(None),
            Err(error) => return Err(error),
        }
    }
}

impl<'a> HTMLTag<'a> {
    /// The first child, in order, at which `f` answers true, by the table of `parser`. No node
    /// below the children is shown to it.
    pub fn find_node<F: FnMut(&Node<'a>) -> bool>(
        &self,
        parser: &Parser<'a>,
        f: &mut F,
    ) -> Result<Option<NodeHandle>, TreeError>
        requires { F.IsAlwaysCallable f.old }
        ensures { FindsNode F.FnMut f.old
            (map (sight parser.now.nodes) self.now.children.items) result f.new }
    {
        for child in self.child_handles().as_slice() {
            let Some(node) = child.get(parser) else {
                return Err(TreeError::Dangling(*child));
            };
            if f(node) {
                return Ok(Some(*child));
            }
        }
        Ok(None)
    }
}

impl<'a> Node<'a> {
    /// The first node below this one, in the order of the walk, at which `f` answers true, by the
    /// table of `parser`. The node itself is not shown to it; a text or a comment has none below.
    pub fn find_node<F: FnMut(&Node<'a>) -> bool>(
        &self,
        parser: &Parser<'a>,
        f: &mut F,
    ) -> Result<Option<NodeHandle>, TreeError>
        requires { F.IsAlwaysCallable f.old }
        ensures search { FindsNodeOrStops F.FnMut f.old
            (sights_below parser.now.nodes self.now) result f.new }
        ensures leaf { tag_of self.now ≡ None → result ≡ Ok None }

        // A first child that dangles is answered before any memory is taken.
        ensures dangling { (h : ℕ) → FirstDangles parser.now.nodes
            (children_of (node_view self.now)) h
            → result ≡ Err (TreeError.Dangling h) }
    {
        match self {
            Node::Tag(tag) => {
                let handles = tag.child_handles().as_slice();
                let walker = Walker::new(parser.alloc(), parser.nodes(), Entered::All, handles);
                find_in_walk(walker, f)
            }
            Node::Raw(_) => Ok(None),
            Node::Comment(_) => Ok(None),
        }
    }
}
