//! The path of frames: the elements that are still open, and those whose end is not settled.
//!
//! Others may rely on this: each operation says that the path (`path_of`) is afterwards what the
//! definition's function makes of it, that the store begins with what it was, and which number is
//! next. That frames are sound (what they have is in the store, their numbers differ and are given
//! out), and that what is known of them is so, is part of the type: no caller carries it.
ghost use Rattle.std.specs.List.{list_all};
ghost use Rattle.std.specs.Prelude.{IsTrue, drop, length, map, take, ◌<◌, ◌≡◌};
ghost use Rattle.tl_tree.specs.Inner.Entered.{entered, entered_of, role_at};
ghost use Rattle.tl_tree.specs.Inner.Framed.{are_distinct, frame_is_within, is_before, is_here};
ghost use Rattle.tl_tree.specs.Inner.Gone.{are_shut};

use crate::cell::Node;
use crate::entries::{AttributeList, Namespace, TagEntry};
use crate::error::GrowError;
use crate::frame::{Frame, Place};
use crate::gaps::Gaps;
use crate::head::{at_head, is_plain};
use crate::names::Names;
use crate::role::{Entered, Role, role_of};
use crate::scopes::Scopes;
use crate::span::Span;
use crate::store::Store;
use crate::test::{TagTest, Test};
use std::alloc::Global;
use tl_names::element_name::ElementName;

// A path of so few frames is walked: that is quicker than to know each of them.
const FEW: usize = 16;

/// The path, with the outermost frame first, and the store that its frames refer to.
pub(crate) struct FramePath<'a> {
    pub(crate) store: Store<'a>,
    pub(crate) frames: Vec<Frame>,
    /// The number of the next element.
    pub(crate) next: u32,
    /// What is known of the outermost frames, where they are searched.
    pub(crate) scopes: Scopes,
    /// From this place on each frame goes to what is right around it. It may be too great.
    pub(crate) placed: usize,
    /// Which frames are gone. The innermost one is there.
    pub(crate) gaps: Gaps,
    ghost within: { IsTrue
        (list_all
        (frame_is_within (length store.tags.items) (length store.cells.items))
        frames.items) },
    ghost distinct: { IsTrue (are_distinct frames.items) },
    ghost numbered: { IsTrue (list_all (is_before next) frames.items) },
    ghost some: { length gaps.marks.items < length frames.items },
    ghost shut: { IsTrue (are_shut gaps.marks.items frames.items) },
    ghost known: { entered scopes
        ≡ take (length (entered scopes)) (map (entered_of store) frames.items) },
    ghost near: { IsTrue (list_all is_here (drop placed frames.items)) },
}

// By hand, so that a proof has one step for a drop.
impl Drop for FramePath<'_> {
    fn drop(self) {
        let FramePath {
            store: _,
            frames: _,
            next: _,
            scopes: _,
            placed: _,
            gaps: _,
        } = self;
    }
}

impl<'a> FramePath<'a> {
    ghost use Rattle.std.specs.List.{list_any};
    ghost use Rattle.std.specs.Prelude.{IfOk, IfSome, None, OnOk, Some, [], false, reverse, slice_get, slice_index_or, slice_set, take, true, ℕ, ◌&&◌, ◌+◌, ◌-◌, ◌^◌, ◌∷◌, ◌≡◌, ◌≤◌};
    ghost use Rattle.tl_dom_spec.specs.Path.{and_element, at_number, behind, caught_up, document, elements, foster_place, has_open, has_within, here, implied_closed, into, is_open_number, joined, new_frame, no_nodes, place_in, popped, popped_through, popped_to, popped_while, put, settled_at, taken_out, top, top_settled, with_nodes, with_waiting, within, at_head, into_head};
    ghost use Rattle.tl_dom_spec.specs.Builder.{pushed_at};
    ghost use Rattle.tl_dom_spec.specs.Path as dom;
    ghost use Rattle.tl_dom_spec.specs.Tags.{is_foster_target};
    ghost use Rattle.tl_tree.specs.Inner.Adopted.{frame_at};
    ghost use Rattle.tl_tree.specs.Inner.Framed.{is_numbered, numbers};
    ghost use Rattle.tl_tree.specs.Inner.Frames.{around, changed, children_of, closed, fostered, frame_of, frames_of, is_frame, path_of, place_of, sought, test_of, test_or_other, with_late};
    ghost use Rattle.tl_tree.specs.Inner.Tests.{tag_test_of};
    ghost use Rattle.tl_tree.specs.Inner.Store.{Grows, is_node, is_row, is_tag_number, node_of, nodes_of, tag_at};

    // The store. All frames are gone.
    pub(crate) fn into_store(self) -> Store<'a>
        ensures { result ≡ self.entry.store }
    {
        let FramePath {
            store,
            frames: _,
            next: _,
            scopes: _,
            placed: _,
            gaps: _,
        } = self;
        store
    }

    /// The document alone.
    pub(crate) fn new(alloc: Global, page: &'a [u8]) -> Result<FramePath<'a>, GrowError>
        ensures path { IfOk result (λ path. path_of path ≡ document ∷ []) }
        ensures next { IfOk result (λ path. path.next ≡ 1) }
        ensures page { IfOk result (λ path. path.store.page.now ≡ page.now) }
    {
        let mut store = Store::new(alloc, page)?;
        let tag = store.add_tag(TagEntry {
            space: Namespace::Html,
            name: Span { start: 0, len: 0 },
            known: ElementName::OTHER,
            number: 0,
            list: AttributeList::Tags,
            first_attribute: 0,
            attribute_count: 0,
            start: 0,
        })?;
        let mut frames = Vec::new(alloc);
        frames.push(Frame {
            number: 0,
            tag,
            children: 0,
            late: 0,
            waiting: 0,
            place: Place::Here,
            is_open: false,
        })?;
        let gaps = Gaps::new(alloc);
        Ok(FramePath {
            store,
            frames,
            next: 1,
            scopes: Scopes::new(alloc),
            placed: 0,
            gaps,
        })
    }

    // A row with a node behind it.
    pub(crate) fn add(&mut self, before: u32, node: Node) -> Result<u32, GrowError>
        requires before { IsTrue (is_row self.old.store before) }
        requires node { IsTrue (is_node self.old.store node) }
        ensures stands { IfOk result (λ row. nodes_of self.new.store row
            ≡ joined (nodes_of self.old.store before) (node_of self.old.store node)) }
        ensures within { IfOk result (λ row. IsTrue (is_row self.new.store row)) }
        ensures frames { self.new.frames.items ≡ self.old.frames.items }
        ensures next { self.new.next ≡ self.old.next }
        ensures gaps { self.new.gaps ≡ self.old.gaps }
        ensures grows { Grows self.old.store self.new.store }
    {
        self.store.add(before, node)
    }

    // A row with late nodes at the end of the `head` among its own.
    fn add_late(&mut self, row: u32, late: u32) -> Result<u32, GrowError>
        requires row { IsTrue (is_row self.old.store row) }
        requires late { IsTrue (is_row self.old.store late) }
        ensures stands { IfOk result (λ end. nodes_of self.new.store end
            ≡ at_head (nodes_of self.old.store row) (nodes_of self.old.store late)) }
        ensures within { IfOk result (λ end. IsTrue (is_row self.new.store end)) }
        ensures frames { self.new.frames.items ≡ self.old.frames.items }
        ensures next { self.new.next ≡ self.old.next }
        ensures gaps { self.new.gaps ≡ self.old.gaps }
        ensures grows { Grows self.old.store self.new.store }
    {
        at_head(&mut self.store, row, late)
    }

    /// What a frame has is written, but not its number.
    pub(crate) fn write(&mut self, index: usize, frame: Frame)
        requires index { index < length self.old.frames.items }
        requires within { IsTrue (is_frame self.old frame) }
        requires number { frame.number
            ≡ (slice_index_or self.old.frames.items index frame).number }
        requires open { frame.is_open ≡ true
            → (slice_index_or self.old.frames.items index frame).is_open ≡ true }
        requires role { role_at self.old.store frame.tag
            ≡ role_at self.old.store (slice_index_or self.old.frames.items index frame).tag }
        ensures frames { self.new.frames.items ≡ slice_set self.old.frames.items index frame }
        ensures store { self.new.store ≡ self.old.store }
        ensures next { self.new.next ≡ self.old.next }
        ensures gaps { self.new.gaps ≡ self.old.gaps }
    {
        self.frames[index] = frame;
        self.placed = frame.place.placed_with(self.placed, index);
    }

    // A frame whose late nodes stand in the `head` among its children.
    #[inline(always)]
    pub(crate) fn folded(&mut self, frame: Frame) -> Result<Frame, GrowError>
        requires { IsTrue (is_frame self.old frame) }
        ensures stands { IfOk result (λ new.
            frame_of self.new.store new ≡ frame_of self.old.store frame) }
        ensures late { IfOk result (λ new. new.late ≡ 0) }
        ensures number { IfOk result (λ new. new.number ≡ frame.number) }
        ensures tag { IfOk result (λ new. new.tag ≡ frame.tag) }
        ensures within { IfOk result (λ new. IsTrue (is_frame self.new new)) }
        ensures frames { self.new.frames.items ≡ self.old.frames.items }
        ensures next { self.new.next ≡ self.old.next }
        ensures gaps { self.new.gaps ≡ self.old.gaps }
        ensures grows { Grows self.old.store self.new.store }
    {
        if frame.late == 0 {
            return Ok(frame);
        }
        self.fold(frame)
    }

    // The same of a frame that has late nodes.
    #[cold]
    #[inline(never)]
    fn fold(&mut self, frame: Frame) -> Result<Frame, GrowError>
        requires { IsTrue (is_frame self.old frame) }
        ensures stands { IfOk result (λ new.
            frame_of self.new.store new ≡ frame_of self.old.store frame) }
        ensures late { IfOk result (λ new. new.late ≡ 0) }
        ensures number { IfOk result (λ new. new.number ≡ frame.number) }
        ensures tag { IfOk result (λ new. new.tag ≡ frame.tag) }
        ensures within { IfOk result (λ new. IsTrue (is_frame self.new new)) }
        ensures frames { self.new.frames.items ≡ self.old.frames.items }
        ensures next { self.new.next ≡ self.old.next }
        ensures gaps { self.new.gaps ≡ self.old.gaps }
        ensures grows { Grows self.old.store self.new.store }
    {
        let children = self.add_late(frame.children, frame.late)?;
        Ok(Frame {
            children,
            late: 0,
            ..frame
        })
    }

    // A frame, as it is where a node goes behind its children.
    #[inline(always)]
    fn ready(&mut self, frame: Frame, node: Node) -> Result<Frame, GrowError>
        requires frame { IsTrue (is_frame self.old frame) }
        requires node { IsTrue (is_node self.old.store node) }
        ensures stands { IfOk result (λ new.
            frame_of self.new.store new ≡ frame_of self.old.store frame) }
        ensures behind { IfOk result (λ new.
            at_head (joined (nodes_of self.new.store new.children) (node_of self.old.store node))
            (nodes_of self.new.store new.late)
            ≡ joined (children_of self.new.store new) (node_of self.old.store node)) }
        ensures number { IfOk result (λ new. new.number ≡ frame.number) }
        ensures tag { IfOk result (λ new. new.tag ≡ frame.tag) }
        ensures within { IfOk result (λ new. IsTrue (is_frame self.new new)) }
        ensures frames { self.new.frames.items ≡ self.old.frames.items }
        ensures next { self.new.next ≡ self.old.next }
        ensures gaps { self.new.gaps ≡ self.old.gaps }
        ensures grows { Grows self.old.store self.new.store }
    {
        if frame.late == 0 {
            return Ok(frame);
        }
        if is_plain(&self.store, node) {
            return Ok(frame);
        }
        self.fold(frame)
    }

    // A node goes to the end of a frame that has late nodes.
    #[cold]
    #[inline(never)]
    fn put_behind_late(&mut self, index: usize, node: Node) -> Result<(), GrowError>
        requires index { index < length self.old.frames.items }
        requires node { IsTrue (is_node self.old.store node) }
        ensures ok { OnOk result (frames_of self.new
            ≡ changed index (with_nodes (node_of self.old.store node)) (frames_of self.old)) }
        ensures len { length self.new.frames.items ≡ length self.old.frames.items }
        ensures next { self.new.next ≡ self.old.next }
        ensures gaps { self.new.gaps ≡ self.old.gaps }
        ensures grows { Grows self.old.store self.new.store }
    {
        let frame = self.frames[index];
        let frame = self.ready(frame, node)?;
        let children = self.add(frame.children, node)?;
        self.write(index, Frame { children, ..frame });
        Ok(())
    }

    // A node goes to the end of a frame.
    #[inline(always)]
    pub(crate) fn put_inside(&mut self, index: usize, node: Node) -> Result<(), GrowError>
        requires index { index < length self.old.frames.items }
        requires node { IsTrue (is_node self.old.store node) }
        ensures ok { OnOk result (frames_of self.new
            ≡ changed index (with_nodes (node_of self.old.store node)) (frames_of self.old)) }
        ensures len { length self.new.frames.items ≡ length self.old.frames.items }
        ensures next { self.new.next ≡ self.old.next }
        ensures gaps { self.new.gaps ≡ self.old.gaps }
        ensures grows { Grows self.old.store self.new.store }
    {
        let before = self.frames[index];
        if before.late != 0 {
            return self.put_behind_late(index, node);
        }
        let children = self.add(before.children, node)?;
        // What is read here, and not before, is written back at no cost where it is the same.
        let frame = self.frames[index];
        self.write(index, Frame { children, ..frame });
        Ok(())
    }

    // A node waits in a frame for its open child.
    fn put_waiting(&mut self, index: usize, node: Node) -> Result<(), GrowError>
        requires index { index < length self.old.frames.items }
        requires node { IsTrue (is_node self.old.store node) }
        ensures ok { OnOk result (frames_of self.new
            ≡ changed index (with_waiting (node_of self.old.store node)) (frames_of self.old)) }
        ensures len { length self.new.frames.items ≡ length self.old.frames.items }
        ensures next { self.new.next ≡ self.old.next }
        ensures gaps { self.new.gaps ≡ self.old.gaps }
        ensures grows { Grows self.old.store self.new.store }
    {
        let frame = self.frames[index];
        let waiting = self.add(frame.waiting, node)?;
        self.write(index, Frame { waiting, ..frame });
        Ok(())
    }

    // A node goes to the end of the `head` among the children of a frame.
    fn put_at_head(&mut self, index: usize, node: Node) -> Result<(), GrowError>
        requires index { index < length self.old.frames.items }
        requires node { IsTrue (is_node self.old.store node) }
        ensures ok { OnOk result (frames_of self.new
            ≡ changed index (with_late (node_of self.old.store node)) (frames_of self.old)) }
        ensures len { length self.new.frames.items ≡ length self.old.frames.items }
        ensures next { self.new.next ≡ self.old.next }
        ensures gaps { self.new.gaps ≡ self.old.gaps }
        ensures grows { Grows self.old.store self.new.store }
    {
        let frame = self.frames[index];
        let late = self.add(frame.late, node)?;
        self.write(index, Frame { late, ..frame });
        Ok(())
    }

    // What waited in a frame stands behind its children.
    #[inline(always)]
    pub(crate) fn catch_up(&mut self, index: usize) -> Result<(), GrowError>
        requires index { index < length self.old.frames.items }
        ensures ok { OnOk result
            (frames_of self.new ≡ changed index caught_up (frames_of self.old)) }
        ensures len { length self.new.frames.items ≡ length self.old.frames.items }
        ensures next { self.new.next ≡ self.old.next }
        ensures gaps { self.new.gaps ≡ self.old.gaps }
        ensures grows { Grows self.old.store self.new.store }
    {
        if self.frames[index].waiting == 0 {
            return Ok(());
        }
        self.join_waiting(index)
    }

    // The same of a frame in which something waited.
    #[cold]
    #[inline(never)]
    fn join_waiting(&mut self, index: usize) -> Result<(), GrowError>
        requires index { index < length self.old.frames.items }
        ensures ok { OnOk result
            (frames_of self.new ≡ changed index caught_up (frames_of self.old)) }
        ensures len { length self.new.frames.items ≡ length self.old.frames.items }
        ensures next { self.new.next ≡ self.old.next }
        ensures gaps { self.new.gaps ≡ self.old.gaps }
        ensures grows { Grows self.old.store self.new.store }
    {
        let frame = self.frames[index];
        let frame = self.folded(frame)?;
        let children = self.add(frame.children, Node::Joined(frame.waiting))?;
        self.write(
            index,
            Frame {
                children,
                waiting: 0,
                ..frame
            },
        );
        Ok(())
    }

    /// The place of the frame of a number, which is known, or else looked for among those that
    /// aren't.
    pub(crate) fn find(&self, number: u32) -> Option<usize>
        ensures some { IfSome result
            (λ index. slice_get (numbers self.now.frames.items) index ≡ Some number) }
        ensures none { result ≡ None
            → list_any (is_numbered number) self.now.frames.items ≡ false }
    {
        if let Some(index) = self.scopes.place_of(number) {
            return Some(index);
        }
        for index in self.scopes.len()..self.frames.len() {
            if self.frames[index].number == number {
                return Some(index);
            }
        }
        None
    }

    // A node goes to the end of the current node, behind what waited there.
    #[inline(always)]
    fn put_on_top(&mut self, node: Node) -> Result<(), GrowError>
        requires { IsTrue (is_node self.old.store node) }
        ensures ok { OnOk result (path_of self.new
            ≡ put here (node_of self.old.store node) (path_of self.old)) }
        ensures next { self.new.next ≡ self.old.next }
        ensures grows { Grows self.old.store self.new.store }
    {
        let top = self.frames.len() - 1;
        self.catch_up(top)?;
        self.put_inside(top, node)
    }

    // A node goes to the end of the frame of a number.
    #[cold]
    #[inline(never)]
    fn put_into(&mut self, number: u32, node: Node) -> Result<(), GrowError>
        requires { IsTrue (is_node self.old.store node) }
        ensures ok { OnOk result (path_of self.new
            ≡ put (into number) (node_of self.old.store node) (path_of self.old)) }
        ensures next { self.new.next ≡ self.old.next }
        ensures gaps { self.new.gaps ≡ self.old.gaps }
        ensures grows { Grows self.old.store self.new.store }
    {
        match self.find(number) {
            Some(index) => self.put_inside(index, node),
            None => Ok(()),
        }
    }

    // A node goes behind the open child of the frame of a number.
    #[cold]
    #[inline(never)]
    fn put_behind(&mut self, number: u32, node: Node) -> Result<(), GrowError>
        requires { IsTrue (is_node self.old.store node) }
        ensures ok { OnOk result (path_of self.new
            ≡ put (behind number) (node_of self.old.store node) (path_of self.old)) }
        ensures next { self.new.next ≡ self.old.next }
        ensures gaps { self.new.gaps ≡ self.old.gaps }
        ensures grows { Grows self.old.store self.new.store }
    {
        match self.find(number) {
            Some(index) => self.put_waiting(index, node),
            None => Ok(()),
        }
    }

    // A node goes to the end of the `head` in the current node.
    #[cold]
    #[inline(never)]
    fn put_late(&mut self, node: Node) -> Result<(), GrowError>
        requires { IsTrue (is_node self.old.store node) }
        ensures ok { OnOk result (path_of self.new
            ≡ put into_head (node_of self.old.store node) (path_of self.old)) }
        ensures next { self.new.next ≡ self.old.next }
        ensures gaps { self.new.gaps ≡ self.old.gaps }
        ensures grows { Grows self.old.store self.new.store }
    {
        let top = self.frames.len() - 1;
        self.put_at_head(top, node)
    }

    /// A node is put at a place.
    #[inline(always)]
    pub(crate) fn put(&mut self, place: Place, node: Node) -> Result<(), GrowError>
        requires { IsTrue (is_node self.old.store node) }
        ensures ok { OnOk result (path_of self.new
            ≡ put (place_of place) (node_of self.old.store node) (path_of self.old)) }
        ensures next { self.new.next ≡ self.old.next }
        ensures grows { Grows self.old.store self.new.store }
    {
        match place {
            Place::Here => self.put_on_top(node),
            Place::Into(number) => self.put_into(number, node),
            Place::Behind(number) => self.put_behind(number, node),
            Place::IntoHead => self.put_late(node),
        }
    }

    // An element that is settled goes to the end of what is next, and what waited there follows.
    #[inline(always)]
    fn settle_on_top(&mut self, node: Node) -> Result<(), GrowError>
        requires { IsTrue (is_node self.old.store node) }
        ensures ok { OnOk result (path_of self.new
            ≡ settled_at here (node_of self.old.store node) (path_of self.old)) }
        ensures next { self.new.next ≡ self.old.next }
        ensures gaps { self.new.gaps ≡ self.old.gaps }
        ensures grows { Grows self.old.store self.new.store }
    {
        let top = self.frames.len() - 1;
        self.put_inside(top, node)?;
        self.catch_up(top)
    }

    // An element that is settled goes to its place.
    #[inline(always)]
    fn settle_at(&mut self, place: Place, node: Node) -> Result<(), GrowError>
        requires { IsTrue (is_node self.old.store node) }
        ensures ok { OnOk result (path_of self.new
            ≡ settled_at (place_of place) (node_of self.old.store node) (path_of self.old)) }
        ensures next { self.new.next ≡ self.old.next }
        ensures whole { self.old.gaps.marks.items ≡ [] → self.new.gaps.marks.items ≡ [] }
        ensures grows { Grows self.old.store self.new.store }
    {
        match place {
            Place::Here => self.settle_on_top(node),
            Place::Into(number) => self.put_into(number, node),
            Place::Behind(number) => self.put_behind(number, node),
            Place::IntoHead => self.put_late(node),
        }
    }

    // The innermost frame is taken off the path.
    #[inline(always)]
    pub(crate) fn take_top(&mut self) -> Frame
        requires { 1 < length self.old.frames.items }
        ensures path { path_of self.old ≡ frame_of self.old.store result ∷ path_of self.new }
        ensures within { IsTrue (is_frame self.new result) }
        ensures frames { self.new.frames.items
            ≡ take (length self.new.frames.items) self.old.frames.items }
        ensures shorter { length self.new.frames.items < length self.old.frames.items }
        ensures whole { self.old.gaps.marks.items ≡ [] → self.new.gaps.marks.items ≡ [] }
        ensures store { self.new.store ≡ self.old.store }
        ensures next { self.new.next ≡ self.old.next }
    {
        let last = self.frames.len() - 1;
        let frame = self.frames[last];
        let left = self.gaps.cut(last);
        self.scopes.cut(left);
        self.placed = self.placed.min(left);
        self.frames.truncate(left);
        frame
    }

    // The children of a frame, with what waited behind them, as an element.
    #[inline(always)]
    pub(crate) fn element(&mut self, frame: Frame) -> Result<Node, GrowError>
        requires { IsTrue (is_frame self.old frame) }
        ensures stands { IfOk result (λ node. node_of self.new.store node
            ≡ dom.node_of (frame_of self.old.store frame)) }
        ensures within { IfOk result (λ node. IsTrue (is_node self.new.store node)) }
        ensures frames { frames_of self.new ≡ frames_of self.old }
        ensures next { self.new.next ≡ self.old.next }
        ensures gaps { self.new.gaps ≡ self.old.gaps }
        ensures grows { Grows self.old.store self.new.store }
    {
        // What is handed on is a copy: so a frame that has children alone need not be in memory.
        if frame.late != 0 {
            let whole = frame;
            return self.joined_element(whole);
        }
        if frame.waiting != 0 {
            let whole = frame;
            return self.joined_element(whole);
        }
        Ok(Node::Element {
            tag: frame.tag,
            below: frame.children,
        })
    }

    // The same of a frame that has more than children.
    #[cold]
    #[inline(never)]
    fn joined_element(&mut self, frame: Frame) -> Result<Node, GrowError>
        requires { IsTrue (is_frame self.old frame) }
        ensures stands { IfOk result (λ node. node_of self.new.store node
            ≡ dom.node_of (frame_of self.old.store frame)) }
        ensures within { IfOk result (λ node. IsTrue (is_node self.new.store node)) }
        ensures frames { frames_of self.new ≡ frames_of self.old }
        ensures next { self.new.next ≡ self.old.next }
        ensures gaps { self.new.gaps ≡ self.old.gaps }
        ensures grows { Grows self.old.store self.new.store }
    {
        let frame = self.folded(frame)?;
        if frame.waiting == 0 {
            return Ok(Node::Element {
                tag: frame.tag,
                below: frame.children,
            });
        }
        let below = self.add(frame.children, Node::Joined(frame.waiting))?;
        Ok(Node::Element {
            tag: frame.tag,
            below,
        })
    }

    /// The innermost frame is settled; the document stays.
    #[inline(always)]
    pub(crate) fn settle_top(&mut self) -> Result<(), GrowError>
        ensures ok { OnOk result (path_of self.new ≡ top_settled (path_of self.old)) }
        ensures next { self.new.next ≡ self.old.next }
        ensures whole { self.old.gaps.marks.items ≡ [] → self.new.gaps.marks.items ≡ [] }
        ensures grows { Grows self.old.store self.new.store }
    {
        if self.frames.len() < 2 {
            return Ok(());
        }
        let frame = self.take_top();
        let node = self.element(frame)?;
        self.settle_at(frame.place, node)
    }

    // The same, where loops call it.
    #[inline(never)]
    fn settle_next(&mut self) -> Result<(), GrowError>
        ensures ok { OnOk result (path_of self.new ≡ top_settled (path_of self.old)) }
        ensures next { self.new.next ≡ self.old.next }
        ensures whole { self.old.gaps.marks.items ≡ [] → self.new.gaps.marks.items ≡ [] }
        ensures grows { Grows self.old.store self.new.store }
    {
        self.settle_top()
    }

    // Whether the innermost frame is settled, where those are that pass a test, or all others. The
    // document is not.
    #[inline(always)]
    fn is_settled(&self, test: Test<'_>, is_other: bool) -> bool
        ensures yes { result ≡ true
            → popped_while (test_or_other is_other test.entry) (path_of self.now)
            ≡ popped_while (test_or_other is_other test.entry) (top_settled (path_of self.now)) }
        ensures some { result ≡ true → 1 < length self.now.frames.items }
        ensures no { result ≡ false
            → popped_while (test_or_other is_other test.entry) (path_of self.now)
            ≡ path_of self.now }
    {
        let last = self.frames.len() - 1;
        if last == 0 {
            return false;
        }
        let frame = self.frames[last];
        if !frame.is_open {
            return true;
        }
        test.passes_or_not(is_other, &self.store, frame)
    }

    /// Frames are settled while they pass a test, or while they don't.
    #[inline(always)]
    pub(crate) fn settle_while(&mut self, test: Test<'_>, is_other: bool) -> Result<(), GrowError>
        ensures ok { OnOk result (path_of self.new
            ≡ popped_while (test_or_other is_other test.entry) (path_of self.old)) }
        ensures next { self.new.next ≡ self.old.next }
        ensures whole { self.old.gaps.marks.items ≡ [] → self.new.gaps.marks.items ≡ [] }
        ensures grows { Grows self.old.store self.new.store }
    {
        while self.is_settled(test, is_other) {
            self.settle_next()?;
        }
        Ok(())
    }

    /// Elements are popped while they pass a test.
    #[inline(always)]
    pub(crate) fn pop_while(&mut self, test: Test<'_>) -> Result<(), GrowError>
        ensures ok { OnOk result (path_of self.new
            ≡ popped_while (test_of test.entry) (path_of self.old)) }
        ensures next { self.new.next ≡ self.old.next }
        ensures grows { Grows self.old.store self.new.store }
    {
        self.settle_while(test, false)
    }

    /// Elements are popped until the current node passes a test.
    #[inline(always)]
    pub(crate) fn pop_to(&mut self, test: Test<'_>) -> Result<(), GrowError>
        ensures ok { OnOk result
            (path_of self.new ≡ popped_to (test_of test.entry) (path_of self.old)) }
        ensures next { self.new.next ≡ self.old.next }
        ensures grows { Grows self.old.store self.new.store }
    {
        self.settle_while(test, true)
    }

    /// The current node is popped.
    pub(crate) fn pop(&mut self) -> Result<(), GrowError>
        ensures ok { OnOk result (path_of self.new ≡ popped (path_of self.old)) }
        ensures next { self.new.next ≡ self.old.next }
        ensures grows { Grows self.old.store self.new.store }
    {
        self.settle_top()?;
        self.settle_while(Test::Nothing, false)
    }

    /// Elements are popped until one that passes a test was popped.
    #[inline(always)]
    pub(crate) fn pop_through(&mut self, test: Test<'_>) -> Result<(), GrowError>
        ensures ok { OnOk result (path_of self.new
            ≡ popped_through (test_of test.entry) (path_of self.old)) }
        ensures next { self.new.next ≡ self.old.next }
        ensures grows { Grows self.old.store self.new.store }
    {
        self.pop_to(test)?;
        self.pop()
    }

    // The frame at a place leaves the stack.
    pub(crate) fn close(&mut self, index: usize)
        requires { index < length self.old.frames.items }
        ensures frames { frames_of self.new ≡ changed index closed (frames_of self.old) }
        ensures store { self.new.store ≡ self.old.store }
        ensures next { self.new.next ≡ self.old.next }
        ensures gaps { self.new.gaps ≡ self.old.gaps }
    {
        let frame = self.frames[index];
        self.write(
            index,
            Frame {
                is_open: false,
                ..frame
            },
        );
    }

    // The frame of a number leaves the stack.
    fn leave(&mut self, number: u32)
        ensures path { path_of self.new ≡ at_number number closed (path_of self.old) }
        ensures store { self.new.store ≡ self.old.store }
        ensures next { self.new.next ≡ self.old.next }
    {
        match self.find(number) {
            Some(index) => self.close(index),
            None => {}
        }
    }

    /// An element leaves the stack, from between others too.
    pub(crate) fn take_out(&mut self, number: u32) -> Result<(), GrowError>
        ensures ok { OnOk result (path_of self.new ≡ taken_out number (path_of self.old)) }
        ensures next { self.new.next ≡ self.old.next }
        ensures grows { Grows self.old.store self.new.store }
    {
        self.leave(number);
        self.settle_while(Test::Nothing, false)
    }

    // What elements of a tag are to searches.
    pub(crate) fn role_at(&self, tag: u32) -> Role
        requires { IsTrue (is_tag_number self.now.store tag) }
        ensures { result ≡ role_at self.now.store tag }
    {
        role_of(self.store.tag(tag))
    }

    // What a frame is to searches.
    #[inline(always)]
    fn entered_at(&self, index: usize) -> Entered
        requires { index < length self.now.frames.items }
        ensures { slice_get (map (entered_of self.now.store) self.now.frames.items) index
            ≡ Some result }
    {
        let frame = self.frames[index];
        Entered {
            number: frame.number,
            role: self.role_at(frame.tag),
        }
    }

    // All frames are known where the path is searched.
    #[inline(never)]
    fn enter_all(&mut self) -> Result<(), GrowError>
        ensures frames { self.new.frames.items ≡ self.old.frames.items }
        ensures store { self.new.store ≡ self.old.store }
        ensures next { self.new.next ≡ self.old.next }
        ensures gaps { self.new.gaps ≡ self.old.gaps }
    {
        while self.scopes.len() < self.frames.len() {
            let entered = self.entered_at(self.scopes.len());
            self.scopes.enter(entered)?;
        }
        Ok(())
    }

    /// All frames are known where the path is searched, unless they are few.
    #[inline(always)]
    pub(crate) fn enter_frames(&mut self) -> Result<(), GrowError>
        ensures frames { self.new.frames.items ≡ self.old.frames.items }
        ensures store { self.new.store ≡ self.old.store }
        ensures next { self.new.next ≡ self.old.next }
        ensures gaps { self.new.gaps ≡ self.old.gaps }
    {
        if self.frames.len() <= FEW {
            return Ok(());
        }
        self.enter_all()
    }

    // A new element stands on the path.
    #[inline(always)]
    fn push(&mut self, place: Place, tag: u32) -> Result<(), GrowError>
        requires { IsTrue (is_tag_number self.old.store tag) }
        ensures ok { OnOk result (path_of self.new
            ≡ new_frame self.old.next (tag_at self.old.store tag) (place_of place)
            ∷ path_of self.old) }
        ensures next { OnOk result (self.new.next ≡ self.old.next + 1) }
        ensures least { self.old.next ≤ self.new.next }
        ensures store { self.new.store ≡ self.old.store }
    {
        let number = self.next;
        if number == u32::MAX {
            return Err(GrowError::TooLarge);
        }
        self.next = number + 1;
        self.placed = place.placed_with(self.placed, self.frames.len());
        self.frames.push(Frame {
            number,
            tag,
            children: 0,
            late: 0,
            waiting: 0,
            place,
            is_open: true,
        })?;
        self.enter_frames()
    }

    // A new element stands on the path, behind what waited in the current node.
    #[inline(always)]
    fn push_on_top(&mut self, tag: u32) -> Result<(), GrowError>
        requires { IsTrue (is_tag_number self.old.store tag) }
        ensures ok { OnOk result (path_of self.new
            ≡ pushed_at here (new_frame self.old.next (tag_at self.old.store tag) here)
            (path_of self.old)) }
        ensures next { OnOk result (self.new.next ≡ self.old.next + 1) }
        ensures least { self.old.next ≤ self.new.next }
        ensures grows { Grows self.old.store self.new.store }
    {
        let top = self.frames.len() - 1;
        self.catch_up(top)?;
        self.push(Place::Here, tag)
    }

    /// An element is inserted at a place, and is the current node then.
    #[inline(always)]
    pub(crate) fn insert_element(&mut self, place: Place, tag: u32) -> Result<(), GrowError>
        requires { IsTrue (is_tag_number self.old.store tag) }
        ensures ok { OnOk result (path_of self.new
            ≡ pushed_at (place_of place)
            (new_frame self.old.next (tag_at self.old.store tag) (place_of place))
            (path_of self.old)) }
        ensures next { OnOk result (self.new.next ≡ self.old.next + 1) }
        ensures least { self.old.next ≤ self.new.next }
        ensures grows { Grows self.old.store self.new.store }
    {
        match place {
            Place::Here => self.push_on_top(tag),
            Place::Into(_) => self.push(place, tag),
            Place::Behind(_) => self.push(place, tag),
            Place::IntoHead => self.push(place, tag),
        }
    }

    /// An element is inserted at a place, and popped at once.
    pub(crate) fn insert_and_pop(&mut self, place: Place, tag: u32) -> Result<(), GrowError>
        requires { IsTrue (is_tag_number self.old.store tag) }
        ensures ok { OnOk result (path_of self.new
            ≡ put (place_of place) (and_element no_nodes (tag_at self.old.store tag) no_nodes)
            (path_of self.old)) }
        ensures next { OnOk result (self.new.next ≡ self.old.next + 1) }
        ensures least { self.old.next ≤ self.new.next }
        ensures grows { Grows self.old.store self.new.store }
    {
        if self.next == u32::MAX {
            return Err(GrowError::TooLarge);
        }
        self.put(place, Node::Element { tag, below: 0 })?;
        self.count_one();
        Ok(())
    }

    // A number is given out.
    fn count_one(&mut self)
        requires { self.old.next + 1 < 2 ^ 32 }
        ensures frames { frames_of self.new ≡ frames_of self.old }
        ensures next { self.new.next ≡ self.old.next + 1 }
        ensures gaps { self.new.gaps ≡ self.old.gaps }
        ensures store { self.new.store ≡ self.old.store }
    {
        self.next += 1;
    }

    /// The current node, or the document.
    pub(crate) fn top(&self) -> Frame
        ensures stands { frame_of self.now.store result ≡ top (path_of self.now) }
        ensures within { IsTrue (is_frame self.now result) }
    {
        self.frames[self.frames.len() - 1]
    }

    // What a search says at a frame, where it passes the test or bounds the search.
    #[inline(always)]
    fn answer_at(&self, index: usize, test: Test<'_>, bounds: Test<'_>) -> Option<bool>
        requires { index < length self.now.frames.items }
        ensures some { IfSome result
            (λ found.
            sought (test_of test.entry) (test_of bounds.entry) self.now (index + 1) ≡ found) }
        ensures none { result ≡ None
            → sought (test_of test.entry) (test_of bounds.entry) self.now (index + 1)
            ≡ sought (test_of test.entry) (test_of bounds.entry) self.now index }
    {
        let frame = self.frames[index];
        if !frame.is_open {
            return None;
        }
        if test.passes(&self.store, frame) {
            return Some(true);
        }
        if bounds.passes(&self.store, frame) {
            return Some(false);
        }
        None
    }

    /// Whether an element of the stack passes a test, before one that bounds the search.
    #[inline(always)]
    pub(crate) fn is_within(&self, test: Test<'_>, bounds: Test<'_>) -> bool
        ensures { result
            ≡ within (test_of test.entry) (test_of bounds.entry) (elements (path_of self.now)) }
    {
        if let Some(found) = self.answer_at(self.frames.len() - 1, test, bounds) {
            return found;
        }
        let first = self.limit(test);
        if first == 0 {
            return false;
        }
        let mut index = first.max(self.limit(bounds));
        while index > 0 {
            index -= 1;
            match self.answer_at(index, test, bounds) {
                Some(found) => return found,
                None => {}
            }
        }
        false
    }

    // The place of the frame around the one at a place.
    pub(crate) fn around(&self, index: usize) -> Option<usize>
        requires { index ≤ length self.now.frames.items }
        ensures within { IfSome result (λ place. place < index) }
        ensures stands { IfSome result
            (λ place. slice_index_or self.now.gaps.marks.items place false ≡ false) }
        ensures gone { IfSome result (λ place. (n : ℕ) → place < n → n < index →
            slice_index_or self.now.gaps.marks.items n false ≡ true) }
        ensures some { IfSome result
            (λ place. around self.now index ≡ frame_at self.now place ∷ around self.now place) }
        ensures none { result ≡ None → around self.now index ≡ [] }
    {
        let mut left = index;
        while left > 0 {
            left -= 1;
            if !self.gaps.has(left) {
                return Some(left);
            }
        }
        None
    }

    // The number of the frame around the one at a place; around the outermost none is.
    fn number_around(&self, index: usize) -> u32
        requires { index < length self.now.frames.items }
        ensures { result ≡ (top (around self.now index)).number }
    {
        match self.around(index) {
            Some(place) => self.frames[place].number,
            None => 0,
        }
    }

    // The place of an element, with the frame around it.
    fn place_around(&self, index: usize, place: Place) -> Place
        requires { index < length self.now.frames.items }
        ensures { place_of result
            ≡ dom.place_of (place_of place) (around self.now index) }
    {
        match place {
            Place::Here => Place::Into(self.number_around(index)),
            Place::Into(number) => Place::Into(number),
            Place::Behind(number) => Place::Behind(number),
            Place::IntoHead => Place::IntoHead,
        }
    }

    // Where a node is foster parented, where a frame says so.
    fn foster_place_at(&self, index: usize) -> Option<Place>
        requires { index < length self.now.frames.items }
        ensures some { IfSome result
            (λ place. fostered self.now (index + 1) ≡ place_of place) }
        ensures none { result ≡ None
            → fostered self.now (index + 1) ≡ fostered self.now index }
    {
        let frame = self.frames[index];
        if !frame.is_open {
            return None;
        }
        let template = Test::Tag(TagTest::Any(Names::Template));
        if template.passes(&self.store, frame) {
            return Some(Place::Behind(frame.number));
        }
        let table = Test::Tag(TagTest::Any(Names::Table));
        if table.passes(&self.store, frame) {
            return Some(self.place_around(index, frame.place));
        }
        None
    }

    /// Where a node is foster parented: in a template, before a table, or in the `html` element.
    #[cold]
    #[inline(never)]
    pub(crate) fn foster_place(&self) -> Place
        ensures { place_of result ≡ foster_place (path_of self.now) }
    {
        let mut index = self.frames.len();
        while index > 0 {
            index -= 1;
            match self.foster_place_at(index) {
                Some(place) => return place,
                None => {}
            }
        }
        Place::Behind(1)
    }

    /// Whether what goes into a frame is foster parented.
    #[inline(always)]
    pub(crate) fn is_fostered(&self, frame: Frame, is_fostering: bool) -> bool
        requires { IsTrue (is_frame self.now frame) }
        ensures { result
            ≡ (is_fostering && is_foster_target (frame_of self.now.store frame).tag) }
    {
        let targets = Test::Tag(TagTest::Any(Names::FosterTargets));
        is_fostering && targets.passes(&self.store, frame)
    }

    /// Where a node goes: here, or where it is foster parented.
    #[inline(always)]
    pub(crate) fn place_in(&self, is_fostering: bool) -> Place
        ensures { place_of result ≡ place_in is_fostering (path_of self.now) }
    {
        if self.is_fostered(self.top(), is_fostering) {
            self.foster_place()
        } else {
            Place::Here
        }
    }

    /// Whether an element is open in a scope that these bound.
    #[inline(always)]
    pub(crate) fn has_within(&self, test: TagTest<'_>, bounds: TagTest<'_>) -> bool
        ensures { result
            ≡ has_within (tag_test_of test.entry) (tag_test_of bounds.entry) (path_of self.now) }
    {
        self.is_within(Test::Tag(test), Test::Tag(bounds))
    }

    /// Whether an element is open.
    #[inline(always)]
    pub(crate) fn has_open(&self, test: TagTest<'_>) -> bool
        ensures { result ≡ has_open (tag_test_of test.entry) (path_of self.now) }
    {
        self.is_within(Test::Tag(test), Test::Nothing)
    }

    /// Whether the element of a number is open.
    pub(crate) fn is_open_number(&self, number: u32) -> bool
        ensures { result ≡ is_open_number number (path_of self.now) }
    {
        let top = self.top();
        if top.is_open && top.number == number {
            return true;
        }
        self.is_within(Test::Number(number), Test::Nothing)
    }

    /// Implied end tags are generated, but for elements that pass a test.
    #[inline(always)]
    pub(crate) fn close_implied(&mut self, but: TagTest<'_>) -> Result<(), GrowError>
        ensures ok { OnOk result (path_of self.new
            ≡ implied_closed (tag_test_of but.entry) (path_of self.old)) }
        ensures next { self.new.next ≡ self.old.next }
        ensures grows { Grows self.old.store self.new.store }
    {
        self.settle_while(Test::ImpliedBut(but), false)
    }
}
