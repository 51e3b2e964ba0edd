//! Rows of pages: what is done to a document, what is looked at then, and what that shows.
use crate::page_edits::Edit;
use crate::pages::{Ask, answers};
use std::alloc::{AllocError, Global};
use std::fmt::Write;
use std::process::Abort;
use std::test::Fail;
use tl::errors::TreeError;
use tl::{
    Attributes, Bytes, HTMLTag, IdSummary, Node, NodeHandle, Parser, ParserOptions, Summary,
    SummaryOf, VDom,
};

// What is looked at.
pub enum Look {
    // The print.
    Print,
    // The texts of the top nodes.
    Text,
    // The nodes, each with a `|` after it, and the numbers of the top list.
    Table,
    // The text of a node, what it holds as markup, and the node as markup; after a `/` the first
    // two of its tag.
    Texts(u32),
    // What a search below a node for these bytes is shown, and its answer; after a `/` the same
    // among its children.
    Search(u32, &'static str),
    // What stands at a key of the first tag, and whether the key is said to be there.
    Key(&'static str),
    // The number of keys of the first tag, its id and class, and its other keys: how many, and
    // where they lie.
    Measures,
    // The members of the class of the first tag, each after a `|`, or `none`.
    Members,
    // Whether the class of the first tag has a member.
    Member(&'static [u8]),
    // What an outline says of the first tag, and after a `/` what one says that knows nothing.
    Summary,
}

// A page, what is done to its document, what is looked at then, and what that shows.
pub type Row = (&'static str, &'static [Edit], Look, &'static str);

// Whether what is looked at shows this.
#[derive(Clone, Copy)]
struct Shown<'r> {
    look: &'r Look,
    wanted: &'r str,
}

impl Ask for Shown<'_> {
    fn is_answered(&self, alloc: Global, document: &VDom<'_>) -> Result<bool, Fail> {
        let mut out = String::new(alloc);
        show(alloc, document, self.look, &mut out)?;
        Ok(out.as_str() == self.wanted)
    }
}

// Each row shows what it must.
pub fn all_show(rt: &impl Abort, alloc: Global, rows: &[Row]) -> Result<(), Fail> {
    for (at, (page, edits, look, wanted)) in rows.iter().enumerate() {
        let asked = Shown { look, wanted };
        let shown = answers(alloc, page, ParserOptions::new(), edits, &asked)?;
        assert!(rt; shown, "row {at}: {page} must show {wanted}");
    }
    Ok(())
}

// Each page, as it is read, shows what is given beside it.
pub fn all_look(
    rt: &impl Abort,
    alloc: Global,
    look: &Look,
    rows: &[(&'static str, &'static str)],
) -> Result<(), Fail> {
    for (page, wanted) in rows {
        let asked = Shown { look, wanted };
        let shown = answers(alloc, page, ParserOptions::new(), &[], &asked)?;
        assert!(rt; shown, "{page} must show {wanted}");
    }
    Ok(())
}

fn show(alloc: Global, document: &VDom<'_>, look: &Look, out: &mut String) -> Result<(), Fail> {
    match look {
        Look::Print => show_reading(document.outer_html(alloc), out),
        Look::Text => show_reading(document.inner_text(alloc), out),
        Look::Table => show_table(document, out),
        Look::Texts(number) => show_texts(alloc, document, *number, out),
        Look::Search(number, wanted) => show_searches(alloc, document, *number, wanted, out),
        Look::Key(key) => show_key(document, key, out),
        Look::Measures => show_measures(document, out),
        Look::Members => show_members(document, out),
        Look::Member(class) => show_member(document, class, out),
        Look::Summary => show_outlines(document, out),
    }
}

// Writes bytes that are text.
pub fn show_bytes(bytes: &Bytes<'_>, out: &mut String) -> Result<(), AllocError> {
    out.push_str(bytes.try_as_utf8_str().unwrap_or("?"))
}

// Writes a value, or that there is none.
pub fn show_value(value: Option<&Bytes<'_>>, out: &mut String) -> Result<(), AllocError> {
    match value {
        Some(value) => show_bytes(value, out),
        None => out.push_str("no value"),
    }
}

// Writes a key and its value.
fn show_pair(
    key: &Bytes<'_>,
    value: Option<&Bytes<'_>>,
    out: &mut String,
) -> Result<(), AllocError> {
    out.push(' ')?;
    show_bytes(key, out)?;
    match value {
        Some(value) => {
            out.push('=')?;
            show_bytes(value, out)
        }
        None => Ok(()),
    }
}

// Writes all pairs in order.
pub fn show_pairs<'a>(attributes: &Attributes<'a>, out: &mut String) -> Result<(), AllocError> {
    for pair in attributes.iter() {
        show_pair(&pair.0, pair.1, out)?;
    }
    Ok(())
}

// Writes a fault: what it is, and the number of its handle.
fn show_fault(fault: &TreeError, out: &mut String) -> Result<(), Fail> {
    match fault {
        TreeError::Dangling(handle) => Ok(write!(out, "dangling {}", handle.get_inner())?),
        TreeError::Cycle(handle) => Ok(write!(out, "cycle {}", handle.get_inner())?),
        TreeError::OutOfMemory => Err(Fail::from("out of memory")),
    }
}

// Writes what a walk answers: its text, or its fault.
fn show_reading(reading: Result<String, TreeError>, out: &mut String) -> Result<(), Fail> {
    match reading {
        Ok(text) => Ok(out.push_str(text.as_str())?),
        Err(fault) => show_fault(&fault, out),
    }
}

// Writes the numbers of handles.
fn show_numbers(handles: &[NodeHandle], out: &mut String) -> Result<(), AllocError> {
    for handle in handles {
        let number = handle.get_inner();
        write!(out, " {number}")?;
    }
    Ok(())
}

// Writes a tag: name, pairs, children, where it stands, raw.
fn show_tag<'a>(
    tag: &HTMLTag<'a>,
    parser: &Parser<'a>,
    out: &mut String,
) -> Result<(), AllocError> {
    out.push_str("tag ")?;
    show_bytes(tag.name(), out)?;
    show_pairs(tag.attributes(), out)?;
    out.push_str(" [")?;
    show_numbers(tag.children().top().as_slice(), out)?;
    let (start, end) = tag.boundaries(parser);
    write!(out, " ] {start} {end} ")?;
    show_bytes(tag.raw(), out)
}

// Writes what kind of text it is, and the text.
fn show_text(kind: &str, text: &Bytes<'_>, out: &mut String) -> Result<(), AllocError> {
    out.push_str(kind)?;
    show_bytes(text, out)
}

fn show_node<'a>(node: &Node<'a>, parser: &Parser<'a>, out: &mut String) -> Result<(), AllocError> {
    match node {
        Node::Tag(tag) => show_tag(tag, parser, out),
        Node::Raw(bytes) => show_text("text ", bytes, out),
        Node::Comment(bytes) => show_text("comment ", bytes, out),
    }
}

fn show_table(document: &VDom<'_>, out: &mut String) -> Result<(), Fail> {
    for node in document.nodes() {
        show_node(node, document.parser(), out)?;
        out.push('|')?;
    }
    Ok(show_numbers(document.children(), out)?)
}

// The node of a number.
fn node_of<'d, 'a>(document: &'d VDom<'a>, number: u32) -> Result<&'d Node<'a>, Fail> {
    match NodeHandle::new(number).get(document.parser()) {
        Some(node) => Ok(node),
        None => Err(Fail::from("no such node")),
    }
}

fn show_texts(
    alloc: Global,
    document: &VDom<'_>,
    number: u32,
    out: &mut String,
) -> Result<(), Fail> {
    let node = node_of(document, number)?;
    show_reading(node.inner_text(alloc, document.parser()), out)?;
    out.push_str(" | ")?;
    show_reading(node.inner_html(alloc, document.parser()), out)?;
    out.push_str(" | ")?;
    show_reading(node.outer_html(alloc, document.parser()), out)?;
    out.push_str(" / ")?;
    match node.as_tag() {
        Some(tag) => show_tag_texts(alloc, tag, document.parser(), out),
        None => Ok(out.push_str("no tag")?),
    }
}

fn show_tag_texts<'a>(
    alloc: Global,
    tag: &HTMLTag<'a>,
    parser: &Parser<'a>,
    out: &mut String,
) -> Result<(), Fail> {
    show_reading(tag.inner_text(alloc, parser), out)?;
    out.push_str(" | ")?;
    show_reading(tag.inner_html(alloc, parser), out)
}

// What a node is known by: the name of a tag, the bytes of a text.
fn known_by<'s, 'a>(node: &'s Node<'a>) -> &'s Bytes<'a> {
    match node {
        Node::Tag(tag) => tag.name(),
        Node::Raw(bytes) | Node::Comment(bytes) => bytes,
    }
}

// Notes that a node was shown, and answers whether it is known by these bytes.
fn is_known(node: &Node<'_>, wanted: &str, seen: &mut String) -> bool {
    let known = known_by(node);
    let _ = seen.push(' ');
    let _ = show_bytes(known, seen);
    known.eq_str(wanted)
}

// Writes what a search was shown, and its answer.
fn show_search(
    seen: &str,
    answer: Result<Option<NodeHandle>, TreeError>,
    out: &mut String,
) -> Result<(), Fail> {
    out.push_str(seen)?;
    match answer {
        Ok(Some(handle)) => {
            let number = handle.get_inner();
            Ok(write!(out, ": {number}")?)
        }
        Ok(None) => Ok(out.push_str(": none")?),
        Err(fault) => {
            out.push_str(": ")?;
            show_fault(&fault, out)
        }
    }
}

// What is seen is a text of the function's own: a closure that writes to what was lent gets no
// proof here.
fn show_search_below<'a>(
    alloc: Global,
    node: &Node<'a>,
    parser: &Parser<'a>,
    wanted: &str,
    out: &mut String,
) -> Result<(), Fail> {
    let mut seen = String::new(alloc);
    let answer = node.find_node(parser, &mut |shown| { is_known(shown, wanted, &mut seen) });
    show_search(seen.as_str(), answer, out)
}

fn show_search_among<'a>(
    alloc: Global,
    tag: &HTMLTag<'a>,
    parser: &Parser<'a>,
    wanted: &str,
    out: &mut String,
) -> Result<(), Fail> {
    let mut seen = String::new(alloc);
    let answer = tag.find_node(parser, &mut |shown| { is_known(shown, wanted, &mut seen) });
    show_search(seen.as_str(), answer, out)
}

fn show_searches(
    alloc: Global,
    document: &VDom<'_>,
    number: u32,
    wanted: &str,
    out: &mut String,
) -> Result<(), Fail> {
    let node = node_of(document, number)?;
    show_search_below(alloc, node, document.parser(), wanted, out)?;
    out.push_str(" /")?;
    match node.as_tag() {
        Some(tag) => show_search_among(alloc, tag, document.parser(), wanted, out),
        None => Ok(out.push_str(" no tag")?),
    }
}

// The attributes of the first tag.
pub fn first_of<'s, 'a>(document: &'s VDom<'a>) -> Result<&'s Attributes<'a>, Fail> {
    match document.nodes().first() {
        Some(Node::Tag(tag)) => Ok(tag.attributes()),
        _ => Err(Fail::from("node 0 is no tag")),
    }
}

fn show_key(document: &VDom<'_>, key: &'static str, out: &mut String) -> Result<(), Fail> {
    let attributes = first_of(document)?;
    match attributes.get(Bytes::from(key)) {
        Some(value) => show_value(value, out)?,
        None => out.push_str("no key")?,
    }
    if attributes.contains(Bytes::from(key)) {
        out.push_str(", there")?;
    }
    Ok(())
}

fn show_measures(document: &VDom<'_>, out: &mut String) -> Result<(), Fail> {
    let attributes = first_of(document)?;
    let others = attributes.unstable_raw();
    write!(out, "{} of {}: ", others.len(), attributes.len())?;
    show_value(attributes.id(), out)?;
    out.push_str(", ")?;
    show_value(attributes.class(), out)?;
    if others.is_heap_allocated() {
        out.push_str(", on the heap")?;
    }
    if attributes.is_empty() {
        out.push_str(", empty")?;
    }
    Ok(())
}

fn show_members(document: &VDom<'_>, out: &mut String) -> Result<(), Fail> {
    match first_of(document)?.class_iter() {
        Some(parts) => {
            for part in parts {
                out.push('|')?;
                out.push_str(part)?;
            }
        }
        None => out.push_str("none")?,
    }
    Ok(())
}

fn show_member(document: &VDom<'_>, class: &[u8], out: &mut String) -> Result<(), Fail> {
    let found = first_of(document)?.is_class_member(class);
    Ok(write!(out, "{found}")?)
}

fn show_outlines(document: &VDom<'_>, out: &mut String) -> Result<(), Fail> {
    let attributes = first_of(document)?;
    show_summary(Summary::from_attributes(attributes), out)?;
    out.push('/')?;
    show_summary(Summary::unknown(), out)
}

// Writes the length and the ends of the id, and after a `;` the numbers of the bits of the class.
fn show_summary(outline: Summary, out: &mut String) -> Result<(), Fail> {
    match outline.id {
        IdSummary::Unknown => out.push_str("unknown;")?,
        IdSummary::Absent => out.push_str("absent;")?,
        IdSummary::Known(mark) => write!(out, "{} {} {};", mark.len, mark.first, mark.last)?,
    }
    show_bits(outline.classes, out)
}

fn show_bits(bits: u32, out: &mut String) -> Result<(), Fail> {
    if bits == u32::MAX {
        return Ok(out.push_str(" all")?);
    }
    for number in 0..32u32 {
        if (bits >> number) & 1 == 1 {
            write!(out, " {number}")?;
        }
    }
    Ok(())
}
