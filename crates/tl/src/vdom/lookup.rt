//! Lookups of tags by id and by class. None takes memory.
//!
//! The lifetimes of the loan and of a class member are one, since a function that shortens a named
//! lifetime has no generated proof.
ghost use Rattle.std.specs.Prelude.{◌≡◌, ◌<◌, ◌^◌, length, map, List, ⊤, None, IsSome};
ghost use Rattle.std.specs.Iterator.{at_most};
ghost use Rattle.std.specs.Map.Iter.{TakesFirst};
ghost use Rattle.tl_bytes.specs.Held.{borrowed};
ghost use Rattle.tl_bytes.specs.Keys.{same_list};
ghost use Rattle.tl_spec.specs.Tree.Document.{Node as ShownNode};
ghost use Rattle.tl_spec.specs.Lookup.Scan.{id_scan, class_scan};
ghost use Rattle.tl_tracking.specs.Tracking.{id_in, class_in};
ghost use Rattle.tl.specs.Lookup.{remaining_handles, AreRemainingHandles, with_id, with_member};
ghost use Rattle.tl.specs.View.{node_view, document_of};
ghost use Rattle.tl.specs.Tracked.{AnswerIds, AnswerClasses};

use crate::parser::base::Tracking;
use crate::parser::tag::node::Node;
use crate::vdom::VDom;
use std::alloc::AllocError;
use std::iter::FusedIterator;
use std::marker::Model;
use tl_bytes::byte_string::Bytes;
use tl_table::handle::NodeHandle;
use tl_table::lookup::{InClass, first_with_id, in_class};

// Handles that are numbers of a map, or places that a scan finds.
#[derive(Debug, Drop)]
enum RemainingHandles<'s, 'a> {
    Tracked(&'s [u32]),
    Scanned(InClass<'s, Node<'a>>),
}

/// The handles of the tags of a class, rising. A clause sees it as the list of those that are left.
/// A step takes no memory.
#[derive(Debug, Drop)]
pub struct ElementsByClassName<'s, 'a> {
    left: RemainingHandles<'s, 'a>,
}

impl<'s, 'a> Model for ElementsByClassName<'s, 'a> {
    ghost use Rattle.std.specs.Prelude.{List, ℕ};

    ghost Value = { List ℕ };

    ghost use Rattle.tl.specs.Lookup.{remaining_handles, AreRemainingHandles};

    ghost view = { λ e. remaining_handles e.left };

    ghost invariant = { λ e. AreRemainingHandles e.left };
}

impl<'s, 'a> Iterator for ElementsByClassName<'s, 'a> {
    type Item = NodeHandle;

    ghost next_gives = { TakesFirst (λ n. n) };

    ghost remaining = { λ s. at_most (length s) };

    fn next(&mut self) -> Option<NodeHandle> {
        match &mut self.left {
            RemainingHandles::Tracked(numbers) => match numbers.split_first() {
                Some((first, rest)) => {
                    *numbers = rest;
                    Some(NodeHandle::new(*first))
                }
                None => None,
            },
            RemainingHandles::Scanned(places) => match places.next() {
                Some(place) => Some(NodeHandle::new(place as u32)),
                None => None,
            },
        }
    }
}

impl<'s, 'a> FusedIterator for ElementsByClassName<'s, 'a> {}

impl<'s, 'a> Clone for ElementsByClassName<'s, 'a> {
    ghost is_clone = { λ x y. y ≡ x };

    ghost is_infallible = { λ _. ⊤ };

    fn clone(&self) -> Result<ElementsByClassName<'s, 'a>, AllocError> {
        let left = match &self.left {
            RemainingHandles::Tracked(numbers) => RemainingHandles::Tracked(*numbers),
            RemainingHandles::Scanned(places) => RemainingHandles::Scanned(places.clone()?),
        };
        Ok(ElementsByClassName { left })
    }
}

// The first tag with an id, by the map.
fn tracked_id(tracking: &Tracking<'_>, id: &Bytes<'_>) -> Option<NodeHandle>
    ensures { result ≡ id_in same_list tracking.now.ids id.now }
{
    let number = tracking.id(id)?;
    Some(NodeHandle::new(number))
}

// The first tag with an id, by a scan.
fn scanned_id(nodes: &[Node<'_>], id: &[u8]) -> Option<NodeHandle>
    requires { length nodes.now < 2 ^ 32 }
    ensures { result ≡ id_scan (map node_view nodes.now) id.now }
{
    let place = first_with_id(nodes, id)?;
    Some(NodeHandle::new(place as u32))
}

// The numbers of the tags with a class member, by the map.
fn tracked_class<'s, 'a>(tracking: &'s Tracking<'a>, member: &'s str) -> &'s [u32]
    ensures { result.now ≡ class_in same_list tracking.now.classes
        (record { list = member.now; held = borrowed }) }
{
    match tracking.class(&Bytes::from(member)) {
        Some(numbers) => numbers,
        None => &[],
    }
}

// The places of the tags with a class member, by a scan.
fn scanned_class<'s, 'a>(nodes: &'s [Node<'a>], member: &'s str) -> RemainingHandles<'s, 'a>
    requires { length nodes.now < 2 ^ 32 }
    ensures left { remaining_handles result ≡ class_scan (map node_view nodes.now) member.now }
    ensures handles { AreRemainingHandles result }
{
    RemainingHandles::Scanned(in_class(nodes, member.as_bytes()))
}

impl<'a> VDom<'a> {
    /// The handle of the first tag with this id. Where ids are tracked, that is the one that was
    /// read first, whatever was edited since; else the table is gone through as it stands.
    pub fn get_element_by_id<'b>(&self, id: Bytes<'b>) -> Option<NodeHandle>
        ensures value { result ≡ with_id self.now id.entry }
        ensures tracked { (nodes : List ShownNode) → IsSome self.now.tracking.ids
            → AnswerIds self.now.tracking nodes → result ≡ id_scan nodes id.entry.list }
        ensures untracked { self.now.tracking.ids ≡ None
            → result ≡ id_scan (document_of self.now).nodes id.entry.list }
    {
        let tracking = self.parser().tracking();
        if tracking.is_tracking_ids() {
            tracked_id(tracking, &id)
        } else {
            scanned_id(self.nodes(), id.as_bytes())
        }
    }

    /// The handles of the tags with this member of their class, in exact case. Where classes are
    /// tracked, those are the tags that were read with it, whatever was edited since; else the
    /// table is gone through as it stands.
    pub fn get_elements_by_class_name<'s>(&'s self, member: &'s str) -> ElementsByClassName<'s, 'a>
        ensures value { result ≡ with_member self.now member.now }
        ensures tracked { (nodes : List ShownNode) → IsSome self.now.tracking.classes
            → AnswerClasses self.now.tracking nodes → result ≡ class_scan nodes member.now }
        ensures untracked { self.now.tracking.classes ≡ None
            → result ≡ class_scan (document_of self.now).nodes member.now }
    {
        let tracking = self.parser().tracking();
        if tracking.is_tracking_classes() {
            ElementsByClassName {
                left: RemainingHandles::Tracked(tracked_class(tracking, member)),
            }
        } else {
            ElementsByClassName {
                left: scanned_class(self.nodes(), member),
            }
        }
    }
}
