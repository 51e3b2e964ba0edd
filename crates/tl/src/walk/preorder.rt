//! Walks for users.
ghost use Rattle.std.specs.Prelude.{◌≡◌, [], length, map};
ghost use Rattle.std.specs.Iterator.{at_most};
ghost use Rattle.tl_spec.specs.Tree.Element.{children_of};
ghost use Rattle.tl.specs.View.{document_of, node_view};

use crate::errors::TreeError;
use crate::parser::base::Parser;
use crate::parser::tag::HTMLTag;
use crate::parser::tag::node::Node;
use crate::vdom::VDom;
use crate::walk::{Entered, WalkEvent, Walker};
use std::alloc::Global;
use std::iter::FusedIterator;
use std::marker::Model;
use tl_table::handle::NodeHandle;

/// A walk in progress, seen as the place where it stands: each node is met before what hangs below
/// it, and each tag is left after that. A fault ends it, as want of memory does.
#[derive(Drop)]
pub struct Walk<'s, 'a> {
    walker: Walker<'s, 'a>,
}

impl<'s, 'a> Model for Walk<'s, 'a> {
    ghost use Rattle.std.specs.Prelude.{◌≡◌};
    ghost use Rattle.tl.specs.Remaining.{Place};
    ghost use Rattle.tl.specs.Walker.{IsMarked, place_of};
    ghost use Rattle.tl.specs.declared.walk.Entered.TheVariants.{All};

    ghost Value = { Place };

    ghost view = { λ w. place_of w.walker };

    ghost invariant = { λ w. IsMarked w.walker × (w.walker.entered ≡ All) };
}

impl<'s, 'a> Walk<'s, 'a> {
    // The walk of these handles.
    fn new(alloc: Global, nodes: &'s [Node<'a>], handles: &'s [NodeHandle]) -> Self
        ensures { result ≡ record {
          nodes = map node_view nodes.now;
          next = handles.now;
          within = [];
        } }
    {
        Walk {
            walker: Walker::new(alloc, nodes, Entered::All, handles),
        }
    }

    /// Passes over what is left inside the tag that the walk is in, which it leaves next; outside
    /// of all tags it ends.
    pub fn skip_subtree(&mut self)
        ensures { self.new ≡ record self.old { next = [] } }
    {
        self.walker.skip();
    }
}

impl<'s, 'a> Iterator for Walk<'s, 'a> {
    type Item = Result<WalkEvent<'s, 'a>, TreeError>;

    ghost use Rattle.tl.specs.Remaining.{events_of};
    ghost use Rattle.tl.specs.Walker.{IsNext};

    ghost next_gives = { IsNext };

    ghost remaining = { λ place. at_most (length (events_of place)) };

    fn next(&mut self) -> Option<Result<WalkEvent<'s, 'a>, TreeError>> {
        match self.walker.next_event() {
            Ok(Some(event)) => Some(Ok(event)),
            Ok(None) => None,
            Err(error) => {
                self.walker.stop();
                Some(Err(error))
            }
        }
    }
}

impl<'s, 'a> FusedIterator for Walk<'s, 'a> {}

impl<'a> VDom<'a> {
    /// A walk over the document: its top nodes in order, each with what hangs below it.
    pub fn walk(&self, alloc: Global) -> Walk<'_, 'a>
        ensures { let d = document_of self.now in
            result ≡ record { nodes = d.nodes; next = d.top; within = [] } }
    {
        Walk::new(alloc, self.nodes(), self.children())
    }
}

impl<'a> Node<'a> {
    /// A walk over what hangs below the node by the table of `parser`; a text or a comment has
    /// nothing below.
    pub fn walk<'s>(&'s self, alloc: Global, parser: &'s Parser<'a>) -> Walk<'s, 'a>
        ensures { result ≡ record {
          nodes = map node_view parser.now.nodes;
          next = children_of (node_view self.now);
          within = [];
        } }
    {
        match self {
            Node::Tag(tag) => tag.walk(alloc, parser),
            Node::Raw(_) | Node::Comment(_) => Walk::new(alloc, parser.nodes(), &[]),
        }
    }
}

impl<'a> HTMLTag<'a> {
    /// A walk over what hangs below the tag by the table of `parser`.
    pub fn walk<'s>(&'s self, alloc: Global, parser: &'s Parser<'a>) -> Walk<'s, 'a>
        ensures { result ≡ record {
          nodes = map node_view parser.now.nodes;
          next = self.now.children.items;
          within = [];
        } }
    {
        Walk::new(alloc, parser.nodes(), self.child_handles().as_slice())
    }
}
