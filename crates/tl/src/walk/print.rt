//! Prints.
ghost use Rattle.std.specs.Prelude.{◌≡◌, ◌++◌, ℕ, [], map, flat_map, codes, Ok, Err, OnOk, IfOk, IfErr, IsAscii, IsTrue, string_bytes};
ghost use Rattle.std.specs.List.{AllByRecursion};
ghost use Rattle.std.specs.Option.{option_copied};
ghost use Rattle.std.specs.Str.Lossy.{utf8_lossy};
ghost use Rattle.tl_table.specs.Answer.{Answers};
ghost use Rattle.tl_table.specs.TreeFault.{FirstDangles};
ghost use Rattle.tl_spec.specs.Lex.AttributeList.{printed_pairs, HasOwnKeys};
ghost use Rattle.tl_spec.specs.Print.Clean.{HaveOwnKeys, IsCleanNode, MeetsOwnKeys, NodeHasOwnKeys};
ghost use Rattle.tl_spec.specs.Tree.Document.{Tag};
ghost use Rattle.tl_spec.specs.Tree.Element.{children_of};
ghost use Rattle.tl_spec.specs.Print.Normal.{ReadsAs};
ghost use Rattle.tl_spec.specs.Print.{outer_html, inner_html, print, print_value, print_pairs, print_start, print_end, print_of_event};
ghost use Rattle.tl_spec.specs.Walk.{all_tags, fault_among, first_fault, plain_node, prints_children, trees, walk, walk_of};
ghost use Rattle.tl.specs.View.{node_view, tag_view};
ghost use Rattle.tl_attributes.specs.AttributesView.{plain, value_view};
ghost use Rattle.tl.specs.Walker.{IsMarked, events_to_come, event_view, Writes};

use crate::errors::TreeError;
use crate::parser::base::Parser;
use crate::parser::tag::HTMLTag;
use crate::parser::tag::node::Node;
use crate::walk::{Entered, WalkEvent, Walker};
use bstr::ByteSlice;
use std::alloc::Global;
use tl_attributes::attributes::Attributes;
use tl_bytes::byte_string::Bytes;
use tl_lexer::names::is_printed_alone;
use tl_table::handle::NodeHandle;

// Up to how many bytes are pushed one by one, which costs less than a search for a byte above ASCII
// and a copy.
const FEW: usize = 8;

// Whether there are few bytes, all ASCII.
#[inline(always)]
fn are_few_ascii(bytes: &[u8]) -> bool
    ensures { IsTrue result → IsAscii bytes.now }
{
    bytes.len() <= FEW && bytes.iter().all(|byte| byte.is_ascii())
}

// Pushes ASCII bytes one by one.
#[inline(always)]
fn push_ascii(bytes: &[u8], out: &mut String) -> Result<(), TreeError>
    requires { IsAscii bytes.now }
    ensures ok { OnOk result (string_bytes out.new ≡ string_bytes out.old ++ bytes.now) }
    ensures err { IfErr result (λ e. e ≡ TreeError.OutOfMemory) }
{
    for byte in bytes {
        out.push(*byte as char)?;
    }
    Ok(())
}

// Writes bytes as text, however many they are.
#[inline(never)]
fn write_any(bytes: &[u8], out: &mut String) -> Result<(), TreeError>
    ensures ok { OnOk result (string_bytes out.new ≡ string_bytes out.old ++ utf8_lossy bytes.now) }
    ensures err { IfErr result (λ e. e ≡ TreeError.OutOfMemory) }
{
    bytes.to_str_lossy_into(out)?;
    Ok(())
}

// Writes bytes as text. The most are few, so what they take stands where they are written.
#[inline(always)]
pub(crate) fn write_lossy(bytes: &[u8], out: &mut String) -> Result<(), TreeError>
    ensures ok { OnOk result (string_bytes out.new ≡ string_bytes out.old ++ utf8_lossy bytes.now) }
    ensures err { IfErr result (λ e. e ≡ TreeError.OutOfMemory) }
{
    if are_few_ascii(bytes) {
        return push_ascii(bytes, out);
    }
    write_any(bytes, out)
}

// Writes a space, a key and its value.
fn write_pair(key: &[u8], value: Option<&Bytes<'_>>, out: &mut String) -> Result<(), TreeError>
    ensures ok { OnOk result (string_bytes out.new
        ≡ string_bytes out.old ++ codes " " ++ utf8_lossy key.now
        ++ print_value (value_view (option_copied value.entry))) }
    ensures err { IfErr result (λ e. e ≡ TreeError.OutOfMemory) }
{
    out.push(' ')?;
    write_lossy(key, out)?;
    match value {
        Some(value) => {
            out.push_str("=\"")?;
            write_lossy(value.as_bytes(), out)?;
            out.push('"')?;
            Ok(())
        }
        None => Ok(()),
    }
}

// Writes all pairs in order.
#[tactic(auto, using(crate::proofs::OwnKeys::own_keys))]
fn write_pairs(attributes: &Attributes<'_>, out: &mut String) -> Result<(), TreeError>
    ensures ok { OnOk result (string_bytes out.new
        ≡ string_bytes out.old ++ print_pairs (printed_pairs (plain attributes.now))) }
    ensures err { IfErr result (λ e. e ≡ TreeError.OutOfMemory) }
    ensures own { HasOwnKeys (plain attributes.now) }
{
    for pair in attributes.iter() {
        write_pair(pair.0.as_bytes(), pair.1, out)?;
    }
    Ok(())
}

// Writes a start tag.
#[inline(always)]
fn write_start(tag: &HTMLTag<'_>, out: &mut String) -> Result<(), TreeError>
    ensures ok { OnOk result (string_bytes out.new
        ≡ string_bytes out.old ++ print_start (plain_node (tag_view tag.now))) }
    ensures err { IfErr result (λ e. e ≡ TreeError.OutOfMemory) }
    ensures own { OnOk result (NodeHasOwnKeys (Tag (tag_view tag.now))) }
{
    out.push('<')?;
    write_lossy(tag.name().as_bytes(), out)?;
    write_pairs(tag.attributes(), out)?;
    out.push('>')?;
    Ok(())
}

// Writes an end tag.
#[inline(always)]
fn write_end(tag: &HTMLTag<'_>, out: &mut String) -> Result<(), TreeError>
    ensures ok { OnOk result (string_bytes out.new
        ≡ string_bytes out.old ++ print_end (plain_node (tag_view tag.now))) }
    ensures err { IfErr result (λ e. e ≡ TreeError.OutOfMemory) }
{
    out.push_str("</")?;
    write_lossy(tag.name().as_bytes(), out)?;
    out.push('>')?;
    Ok(())
}

// Writes what one event prints.
#[inline(always)]
fn write_event<'s, 'a>(event: WalkEvent<'s, 'a>, out: &mut String) -> Result<(), TreeError>
    ensures ok { OnOk result (string_bytes out.new
        ≡ string_bytes out.old ++ print_of_event (event_view event.entry)) }
    ensures err { IfErr result (λ e. e ≡ TreeError.OutOfMemory) }
    ensures own { OnOk result (MeetsOwnKeys (event_view event.entry)) }
{
    match event {
        WalkEvent::Meets(_, Node::Tag(tag)) => write_start(tag, out),
        WalkEvent::Meets(_, Node::Raw(bytes)) => write_lossy(bytes.as_bytes(), out),
        WalkEvent::Meets(_, Node::Comment(bytes)) => write_lossy(bytes.as_bytes(), out),
        WalkEvent::Leaves(tag) => write_end(tag, out),
    }
}

// Writes what is left of a walk.
fn write_walk<'s, 'a>(mut walker: Walker<'s, 'a>, out: &mut String) -> Result<(), TreeError>
    requires { IsMarked walker }
    ensures writes { let es = events_to_come walker.entry in
        Writes (fault_among es) (flat_map print_of_event es) (string_bytes out.old) result
        (string_bytes out.new) }
    ensures own { OnOk result (AllByRecursion MeetsOwnKeys (events_to_come walker.entry)) }
    ensures dangling { (h : ℕ) → FirstDangles walker.entry.nodes.now walker.entry.rest.now h
        → result ≡ Err (TreeError.Dangling h) }
{
    loop {
        match walker.next_event() {
            Ok(Some(event)) => write_event(event, out)?,
            Ok(None) => return Ok(()),
            Err(error) => return Err(error),
        }
    }
}

// Writes the nodes of these handles in order, with all that they hold.
pub(crate) fn write_row<'s, 'a>(
    alloc: Global,
    nodes: &'s [Node<'a>],
    handles: &'s [NodeHandle],
    out: &mut String,
) -> Result<(), TreeError>
    ensures writes { let w = walk prints_children (map node_view nodes.now) [] handles.now in
        Writes (first_fault w) (print (trees w)) (string_bytes out.old) result
        (string_bytes out.new) }
    ensures own { OnOk result (HaveOwnKeys (trees
        (walk prints_children (map node_view nodes.now) [] handles.now))) }
    ensures dangling { (h : ℕ) → FirstDangles nodes.now handles.now h
        → result ≡ Err (TreeError.Dangling h) }
{
    write_walk(Walker::new(alloc, nodes, Entered::Printed, handles), out)
}

// Writes a tag with all that it holds.
fn write_tag<'s, 'a>(
    alloc: Global,
    nodes: &'s [Node<'a>],
    tag: &'s HTMLTag<'a>,
    out: &mut String,
) -> Result<(), TreeError>
    ensures writes { let w =
        walk_of prints_children (map node_view nodes.now) (Tag (tag_view tag.now)) in
        Writes (first_fault w) (print (trees w)) (string_bytes out.old) result
        (string_bytes out.new) }
    ensures own { OnOk result (HaveOwnKeys (trees
        (walk_of prints_children (map node_view nodes.now) (Tag (tag_view tag.now))))) }
{
    write_start(tag, out)?;
    if is_printed_alone(tag.name().as_bytes()) {
        return Ok(());
    }
    write_row(alloc, nodes, tag.child_handles().as_slice(), out)?;
    write_end(tag, out)?;
    Ok(())
}

// Bytes as a text of their own.
pub(crate) fn lossy_text(alloc: Global, bytes: &[u8]) -> Result<String, TreeError>
    ensures { Answers string_bytes (Ok (utf8_lossy bytes.now)) result }
{
    let mut out = String::new(alloc);
    write_lossy(bytes, &mut out)?;
    Ok(out)
}

impl<'a> HTMLTag<'a> {
    /// The tag as markup, with all that it holds by the table of `parser`. An end tag is written
    /// whether or not the text had one. What is printed of a clean tag is read as the normal form
    /// of that one tree.
    pub fn outer_html(&self, alloc: Global, parser: &Parser<'a>) -> Result<String, TreeError>
        ensures answers { Answers string_bytes (outer_html (map node_view parser.now.nodes)
            (Tag (tag_view self.now))) result }
        ensures identity { let nodes = map node_view parser.now.nodes in
            let own = Tag (tag_view self.now) in
            IsCleanNode nodes own →
            IfOk result (λ s. ReadsAs (string_bytes s) (trees (walk_of all_tags nodes own))) }
    {
        let mut out = String::new(alloc);
        write_tag(alloc, parser.nodes(), self, &mut out)?;
        Ok(out)
    }

    /// The children as markup, with all that they hold by the table of `parser`: those of a void
    /// tag too.
    pub fn inner_html(&self, alloc: Global, parser: &Parser<'a>) -> Result<String, TreeError>
        ensures answers { Answers string_bytes (inner_html (map node_view parser.now.nodes)
            (Tag (tag_view self.now))) result }

        // A first child that dangles is answered before any memory is taken.
        ensures dangling { (h : ℕ) → FirstDangles parser.now.nodes self.now.children.items h
            → result ≡ Err (TreeError.Dangling h) }
    {
        let mut out = String::new(alloc);
        write_row(
            alloc,
            parser.nodes(),
            self.child_handles().as_slice(),
            &mut out,
        )?;
        Ok(out)
    }
}

impl<'a> Node<'a> {
    /// The node as markup, with all that it holds by the table of `parser`. What is printed of a
    /// clean node is read as the normal form of that one tree.
    pub fn outer_html(&self, alloc: Global, parser: &Parser<'a>) -> Result<String, TreeError>
        ensures answers { Answers string_bytes (outer_html (map node_view parser.now.nodes)
            (node_view self.now)) result }
        ensures identity { let nodes = map node_view parser.now.nodes in
            let own = node_view self.now in
            IsCleanNode nodes own →
            IfOk result (λ s. ReadsAs (string_bytes s) (trees (walk_of all_tags nodes own))) }
    {
        match self {
            Node::Tag(tag) => tag.outer_html(alloc, parser),
            Node::Raw(bytes) => lossy_text(alloc, bytes.as_bytes()),
            Node::Comment(bytes) => lossy_text(alloc, bytes.as_bytes()),
        }
    }

    /// The children of a tag as markup, by the table of `parser`. A text or a comment answers its
    /// own text.
    pub fn inner_html(&self, alloc: Global, parser: &Parser<'a>) -> Result<String, TreeError>
        ensures answers { Answers string_bytes (inner_html (map node_view parser.now.nodes)
            (node_view self.now)) result }

        // A first child that dangles is answered before any memory is taken.
        ensures dangling { (h : ℕ) → FirstDangles parser.now.nodes
            (children_of (node_view self.now)) h
            → result ≡ Err (TreeError.Dangling h) }
    {
        match self {
            Node::Tag(tag) => tag.inner_html(alloc, parser),
            Node::Raw(_) => self.outer_html(alloc, parser),
            Node::Comment(_) => self.outer_html(alloc, parser),
        }
    }
}
