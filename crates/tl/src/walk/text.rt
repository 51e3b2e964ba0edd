//! Texts.
ghost use Rattle.std.specs.Prelude.{◌≡◌, ◌++◌, ℕ, [], map, flat_map, Err, OnOk, IfErr, IsOk, IsSome, string_bytes};
ghost use Rattle.tl_table.specs.Answer.{Answers};
ghost use Rattle.tl_table.specs.TreeFault.{FirstDangles};
ghost use Rattle.tl_spec.specs.Tree.Document.{Tag};
ghost use Rattle.tl_spec.specs.Tree.Element.{children_of};
ghost use Rattle.tl_spec.specs.Print.Text.{inner_text, text_of, event_text};
ghost use Rattle.tl_spec.specs.Walk.{all_tags, fault_among, first_fault, trees, walk, walk_of};
ghost use Rattle.tl.specs.View.{node_view, tag_view};
ghost use Rattle.tl.specs.Inner.Node.{comment_of};
ghost use Rattle.tl.specs.Walker.{IsMarked, events_to_come, event_view, Writes, own_text};
ghost use Rattle.tl.specs.Inner.Preorder.{IsInPreorder};

use crate::errors::TreeError;
use crate::parser::base::Parser;
use crate::parser::tag::HTMLTag;
use crate::parser::tag::node::Node;
use crate::walk::print::{lossy_text, write_lossy};
use crate::walk::{Entered, WalkEvent, Walker};
use std::alloc::Global;
use tl_table::handle::NodeHandle;
use tl_table::range;

// Writes the text of a node that is met: that of a text alone.
#[inline(always)]
fn write_event<'s, 'a>(event: WalkEvent<'s, 'a>, out: &mut String) -> Result<(), TreeError>
    ensures ok { OnOk result (string_bytes out.new
        ≡ string_bytes out.old ++ event_text (event_view event.entry)) }
    ensures err { IfErr result (λ e. e ≡ TreeError.OutOfMemory) }
{
    match event {
        WalkEvent::Meets(_, Node::Raw(bytes)) => write_lossy(bytes.as_bytes(), out),
        WalkEvent::Meets(_, Node::Tag(_)) => Ok(()),
        WalkEvent::Meets(_, Node::Comment(_)) => Ok(()),
        WalkEvent::Leaves(_) => Ok(()),
    }
}

// Writes the texts of what is left of a walk.
fn write_texts<'s, 'a>(mut walker: Walker<'s, 'a>, out: &mut String) -> Result<(), TreeError>
    requires { IsMarked walker }
    ensures writes { let es = events_to_come walker.entry in
        Writes (fault_among es) (flat_map event_text es) (string_bytes out.old) result
        (string_bytes out.new) }
    ensures dangling { (h : ℕ) → FirstDangles walker.entry.nodes.now walker.entry.rest.now h
        → result ≡ Err (TreeError.Dangling h) }
{
    loop {
        match walker.next_event() {
            Ok(Some(event)) => write_event(event, out)?,
            Ok(None) => return Ok(()),
            Err(error) => return Err(error),
        }
    }
}

// Writes the texts among these nodes.
fn write_texts_among(nodes: &[Node<'_>], out: &mut String) -> Result<(), TreeError>
    ensures ok { OnOk result (string_bytes out.new
        ≡ string_bytes out.old ++ flat_map own_text (map node_view nodes.now)) }
    ensures err { IfErr result (λ e. e ≡ TreeError.OutOfMemory) }
{
    for node in nodes {
        if let Node::Raw(bytes) = node {
            write_lossy(bytes.as_bytes(), out)?;
        }
    }
    Ok(())
}

// Writes the texts at and below these handles over nodes in preorder: of each those of its range.
// Only the tags along last children are looked into.
fn write_texts_in_preorder<'a>(
    alloc: Global,
    nodes: &[Node<'a>],
    handles: &[NodeHandle],
    out: &mut String,
) -> Result<(), TreeError>
    requires { IsInPreorder nodes.now }
    ensures writes { let w = walk all_tags (map node_view nodes.now) [] handles.now in
        Writes (first_fault w) (text_of (trees w)) (string_bytes out.old) result
        (string_bytes out.new) }
    ensures dangling { (h : ℕ) → FirstDangles nodes.now handles.now h
        → result ≡ Err (TreeError.Dangling h) }
{
    for handle in handles {
        let number = Some(handle.get_inner());
        let range = range::range(alloc, nodes, number, number)?;
        write_texts_among(&nodes[range], out)?;
    }
    Ok(())
}

// Writes the texts of the nodes of these handles in order, and of what hangs below them.
pub(crate) fn write_row_texts<'s, 'a>(
    alloc: Global,
    parser: &'s Parser<'a>,
    handles: &'s [NodeHandle],
    out: &mut String,
) -> Result<(), TreeError>
    ensures writes { let w = walk all_tags (map node_view parser.now.nodes) [] handles.now in
        Writes (first_fault w) (text_of (trees w)) (string_bytes out.old) result
        (string_bytes out.new) }
    ensures dangling { (h : ℕ) → FirstDangles parser.now.nodes handles.now h
        → result ≡ Err (TreeError.Dangling h) }
{
    let nodes = parser.nodes();
    if parser.is_in_preorder() {
        return write_texts_in_preorder(alloc, nodes, handles, out);
    }
    write_texts(Walker::new(alloc, nodes, Entered::All, handles), out)
}

// Writes the texts below a tag.
fn write_text_of<'s, 'a>(
    alloc: Global,
    parser: &'s Parser<'a>,
    tag: &'s HTMLTag<'a>,
    out: &mut String,
) -> Result<(), TreeError>
    ensures writes { let w = walk_of all_tags (map node_view parser.now.nodes)
        (Tag (tag_view tag.now)) in
        Writes (first_fault w) (text_of (trees w)) (string_bytes out.old) result
        (string_bytes out.new) }
    ensures dangling { (h : ℕ) → FirstDangles parser.now.nodes tag.now.children.items h
        → result ≡ Err (TreeError.Dangling h) }
{
    let below = tag.child_handles().as_slice();
    write_row_texts(alloc, parser, below, out)
}

impl<'a> HTMLTag<'a> {
    /// The texts below the tag by the table of `parser`, in the order of the walk. Comments give
    /// none.
    pub fn inner_text(&self, alloc: Global, parser: &Parser<'a>) -> Result<String, TreeError>
        ensures answers { Answers string_bytes (inner_text (map node_view parser.now.nodes)
            (Tag (tag_view self.now))) result }

        // A first child that dangles is answered before any memory is taken.
        ensures dangling { (h : ℕ) → FirstDangles parser.now.nodes self.now.children.items h
            → result ≡ Err (TreeError.Dangling h) }
    {
        let mut out = String::new(alloc);
        write_text_of(alloc, parser, self, &mut out)?;
        Ok(out)
    }
}

impl<'a> Node<'a> {
    /// The texts at or below the node by the table of `parser`, in the order of the walk. Comments
    /// give none.
    pub fn inner_text(&self, alloc: Global, parser: &Parser<'a>) -> Result<String, TreeError>
        ensures answers { Answers string_bytes (inner_text (map node_view parser.now.nodes)
            (node_view self.now)) result }

        // A comment has no text, which takes no memory.
        ensures comment { IsSome (comment_of self.now) → IsOk result }

        // A first child that dangles is answered before any memory is taken.
        ensures dangling { (h : ℕ) → FirstDangles parser.now.nodes
            (children_of (node_view self.now)) h
            → result ≡ Err (TreeError.Dangling h) }
    {
        match self {
            Node::Tag(tag) => tag.inner_text(alloc, parser),
            Node::Raw(bytes) => lossy_text(alloc, bytes.as_bytes()),
            Node::Comment(_) => Ok(String::new(alloc)),
        }
    }
}
