//! The walk over a table: each handle's node is met, and then what hangs below it, unless the
//! handle dangles or stands on its own path.
ghost use Rattle.std.specs.Prelude.{◌≡◌, ◌≢◌, ◌<◌, ℕ, true, false, [], ◌∷◌, length, map, None, Err, OnOk, IfOk, IfErr, IfSome};
ghost use Rattle.std.specs.Option.{option_copied};
ghost use Rattle.std.specs.List.{slice_get};
ghost use Rattle.tl_table.specs.TreeFault.{FirstDangles};
ghost use Rattle.tl_spec.specs.Walk.{stands_on, walk, events};
ghost use Rattle.tl.specs.View.{node_view, tag_view};
ghost use Rattle.tl.specs.Marks.{MayFollow};
ghost use Rattle.tl.specs.Remaining.{nothing_left};
ghost use Rattle.tl.specs.Walker.{enters, path_of, events_to_come, events_to_come_at, events_to_come_in, place_of, remaining, remaining_at, remaining_in, Takes, TakesNext, Steps, StepsOn, IsMarked, IsMetIn};
ghost use Rattle.tl.specs.declared.walk.Entered.TheVariants.{All};

pub(crate) mod find;
mod path;
pub(crate) mod preorder;
pub(crate) mod print;
pub(crate) mod text;

use crate::errors::TreeError;
use crate::parser::tag::HTMLTag;
use crate::parser::tag::node::Node;
use path::{put_mark, stands_on_path};
use std::alloc::{AllocFailed, Global};
use tl_lexer::names::is_printed_alone;
use tl_table::handle::NodeHandle;

// Which tags a walk enters: all, or those that are printed with their children.
#[derive(Clone, Copy)]
pub(crate) enum Entered {
    All,
    Printed,
}

/// What a walk comes to. Only a tag that was entered is left.
#[derive(Clone, Copy, Debug)]
pub enum WalkEvent<'s, 'a> {
    /// A node is met: a text, a comment, or a tag, into which the walk goes then.
    Meets(NodeHandle, &'s Node<'a>),
    /// A tag is left.
    Leaves(&'s HTMLTag<'a>),
}

// A tag that was entered, and the handles that come after it.
#[derive(Clone, Copy)]
pub(crate) struct Frame<'s, 'a> {
    handle: NodeHandle,
    tag: &'s HTMLTag<'a>,
    rest: &'s [NodeHandle],
}

// A walk in progress: the tags that it is in, the last one last, and the handles that come next.
#[derive(Drop)]
pub(crate) struct Walker<'s, 'a> {
    nodes: &'s [Node<'a>],
    entered: Entered,
    rest: &'s [NodeHandle],
    frames: Vec<Frame<'s, 'a>>,
    marks: Vec<bool>,
    alloc: Global,
}

// The node of a handle, or None past the table.
#[inline(always)]
fn node_at<'s, 'a>(nodes: &'s [Node<'a>], handle: NodeHandle) -> Option<&'s Node<'a>>
    ensures { option_copied result ≡ slice_get nodes.now handle }
{
    nodes.get(handle.get_inner() as usize)
}

impl<'s, 'a> Walker<'s, 'a> {
    // The walk of these handles.
    pub(crate) fn new(
        alloc: Global,
        nodes: &'s [Node<'a>],
        entered: Entered,
        handles: &'s [NodeHandle],
    ) -> Self
        ensures marked { IsMarked result }
        ensures left { events_to_come result ≡ events (walk (enters entered)
            (map node_view nodes.now) [] handles.now) }
        ensures table { result.nodes.now ≡ nodes.now }
        ensures rest { result.rest.now ≡ handles.now }
        ensures entered { result.entered ≡ entered }
        ensures place { place_of result ≡ record {
          nodes = map node_view nodes.now;
          next = handles.now;
          within = [];
        } }
    {
        Walker {
            nodes,
            entered,
            rest: handles,
            frames: Vec::new(alloc),
            marks: Vec::new(alloc),
            alloc,
        }
    }

    // Whether a tag is entered.
    #[inline(always)]
    fn enters(&self, tag: &HTMLTag<'a>) -> bool
        ensures { result ≡ enters self.now.entered tag.now.name.list }
    {
        match self.entered {
            Entered::All => true,
            Entered::Printed => !is_printed_alone(tag.name().as_bytes()),
        }
    }

    // Goes to the node of a handle, and into it where it is a tag that is entered.
    #[inline(always)]
    fn meet(&mut self, handle: NodeHandle) -> Result<Option<WalkEvent<'s, 'a>>, TreeError>
        requires { IsMarked self.old }
        ensures marked { OnOk result (IsMarked self.new) }
        ensures steps { Steps (events_to_come_at self.old (handle ∷ self.old.rest.now)) result
            (events_to_come self.new) }
        ensures met { IfOk result (λ event. IfSome event (IsMetIn self.old.nodes.now)) }
        ensures table { self.new.nodes.now ≡ self.old.nodes.now }
        ensures entered { self.new.entered ≡ self.old.entered }
        ensures steps_on { self.old.entered ≡ All
            → StepsOn (remaining_at self.old (handle ∷ self.old.rest.now)) result
            (remaining self.new) }

        // Neither fault is hidden as want of memory, which only the first marks and a deeper path
        // take.
        ensures dangling { slice_get self.old.nodes.now handle ≡ None
            → result ≡ Err (TreeError.Dangling handle) }
        ensures cycle { self.old.marks.items ≢ [] → handle < length self.old.nodes.now
            → stands_on (path_of self.old) handle ≡ true → result ≡ Err (TreeError.Cycle handle) }
    {
        let Some(node) = node_at(self.nodes, handle) else {
            return Err(TreeError::Dangling(handle));
        };
        let stands = stands_on_path(
            self.alloc,
            self.nodes.len(),
            self.frames.as_slice(),
            &mut self.marks,
            handle,
        )?;
        if stands {
            return Err(TreeError::Cycle(handle));
        }
        match node {
            Node::Tag(tag) => {
                if self.enters(tag) {
                    self.enter(handle, tag)?;
                }
                Ok(Some(WalkEvent::Meets(handle, node)))
            }
            Node::Raw(_) => Ok(Some(WalkEvent::Meets(handle, node))),
            Node::Comment(_) => Ok(Some(WalkEvent::Meets(handle, node))),
        }
    }

    // Goes into a tag, whose handle may follow the path.
    #[inline(always)]
    fn enter(&mut self, handle: NodeHandle, tag: &'s HTMLTag<'a>) -> Result<(), TreeError>
        requires marked { IsMarked self.old }
        requires in_table { handle < length self.old.nodes.now }
        requires off { stands_on (path_of self.old) handle ≡ false }
        requires may { MayFollow handle (path_of self.old) self.old.marks.items }
        ensures marked { OnOk result (IsMarked self.new) }
        ensures left { OnOk result (events_to_come self.new
            ≡ events_to_come_in handle (tag_view tag.now) self.old) }
        ensures err { IfErr result (λ e. e ≡ TreeError.OutOfMemory) }
        ensures table { self.new.nodes.now ≡ self.old.nodes.now }
        ensures entered { self.new.entered ≡ self.old.entered }
        ensures remaining { OnOk result (remaining self.new
            ≡ remaining_in handle (tag_view tag.now) self.old) }
    {
        let frame = Frame {
            handle,
            tag,
            rest: self.rest,
        };
        match self.frames.push(frame) {
            Ok(()) => {}
            Err(AllocFailed { value: _ }) => return Err(TreeError::OutOfMemory),
        }
        put_mark(&mut self.marks, handle, true);
        self.rest = tag.child_handles().as_slice();
        Ok(())
    }

    // Goes back to what comes after the last tag that was entered, or ends.
    #[inline(always)]
    fn leave(&mut self) -> Option<WalkEvent<'s, 'a>>
        requires marked { IsMarked self.old }
        requires done { self.old.rest.now ≡ [] }
        ensures marked { IsMarked self.new }
        ensures takes { Takes (events_to_come self.old) result (events_to_come self.new) }
        ensures met { IfSome result (IsMetIn self.old.nodes.now) }
        ensures table { self.new.nodes.now ≡ self.old.nodes.now }
        ensures entered { self.new.entered ≡ self.old.entered }
        ensures takes_next { TakesNext (remaining self.old) result (remaining self.new) }
    {
        let Some(frame) = self.frames.pop() else {
            return None;
        };
        put_mark(&mut self.marks, frame.handle, false);
        self.rest = frame.rest;
        Some(WalkEvent::Leaves(frame.tag))
    }

    // The next event, or None at the end; or the first fault.
    #[inline(always)]
    pub(crate) fn next_event(&mut self) -> Result<Option<WalkEvent<'s, 'a>>, TreeError>
        requires { IsMarked self.old }
        ensures marked { OnOk result (IsMarked self.new) }
        ensures steps { Steps (events_to_come self.old) result (events_to_come self.new) }
        ensures met { IfOk result (λ e. IfSome e (IsMetIn self.old.nodes.now)) }
        ensures table { self.new.nodes.now ≡ self.old.nodes.now }
        ensures entered { self.new.entered ≡ self.old.entered }
        ensures steps_on { self.old.entered ≡ All
            → StepsOn (remaining self.old) result (remaining self.new) }
        ensures dangling { (h : ℕ) → FirstDangles self.old.nodes.now self.old.rest.now h
            → result ≡ Err (TreeError.Dangling h) }
    {
        let Some((handle, rest)) = self.rest.split_first() else {
            return Ok(self.leave());
        };
        self.rest = rest;
        self.meet(*handle)
    }

    // Passes over what is left inside the innermost tag.
    pub(crate) fn skip(&mut self)
        requires { IsMarked self.old }
        ensures marked { IsMarked self.new }
        ensures entered { self.new.entered ≡ self.old.entered }
        ensures place { place_of self.new ≡ record (place_of self.old) { next = [] } }
    {
        self.rest = &[];
    }

    // Gives nothing from now on.
    pub(crate) fn stop(&mut self)
        ensures marked { IsMarked self.new }
        ensures entered { self.new.entered ≡ self.old.entered }
        ensures remaining { remaining self.new ≡ nothing_left }
    {
        self.rest = &[];
        self.frames.clear();
        self.marks.clear();
    }
}
