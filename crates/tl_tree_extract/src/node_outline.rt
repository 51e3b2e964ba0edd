//! The nodes of a page as a tree, each on a line.
ghost use Rattle.std.specs.Option.{option_copied, option_map_or};
ghost use Rattle.std.specs.Prelude.{OnOk, Some, [], codes, decimal, map, ◌++◌, ◌<◌, ◌^◌, ◌∷◌, ◌≡◌};
ghost use Rattle.tl_tree.specs.Asked.{attributes_at, node_at, parent_at};
ghost use Rattle.tl_tree.specs.TreeView.{rows_in};
ghost use Rattle.tl_tree_extract.specs.Inner.Depths.{depths_before};
ghost use Rattle.tl_tree_extract.specs.NodeOutline.{depth_at, depth_words, has_line, is_blank_at, node_line, node_outline, node_words, number_words, shown_line};

use crate::element_words::put_element;
use crate::node_words::{put_comment, put_doctype, put_text};
use crate::outline::put_indentation;
use crate::run::{Run, behind};
use itoa::Buffer;
use std::alloc::{AllocError, Global};
use tl_tree::{Kind, Tree};

// The deepest place that is shown by its indentation alone.
const DEEPEST: usize = 64;

// How many nodes a node is below that stands in another one.
fn depth_in(tree: &Tree<'_>, depths: &[usize], number: usize, outer: usize) -> usize
    requires known { depths.now ≡ depths_before (rows_in tree.now) number }
    requires outer { parent_at (rows_in tree.now) number ≡ Some outer }
    ensures { result ≡ depth_at (rows_in tree.now) number }
{
    let around = depths[outer];
    around + 1
}

// How many nodes a node is below, by what is known of those before it.
fn depth_of(tree: &Tree<'_>, depths: &[usize], number: usize) -> usize
    requires { depths.now ≡ depths_before (rows_in tree.now) number }
    ensures { result ≡ depth_at (rows_in tree.now) number }
{
    match tree.parent(number) {
        Some(outer) => depth_in(tree, depths, number, outer),
        None => 0,
    }
}

// Writes a number in digits.
fn put_decimal(number: usize, out: &mut Vec<u8>) -> Result<(), AllocError>
    ensures { OnOk result (out.new.items ≡ out.old.items ++ decimal number) }
{
    let mut buffer = Buffer::new();
    out.extend_from_slice(buffer.format(number).as_bytes())
}

// Writes how many nodes are around, in parentheses.
fn put_count(depth: usize, out: &mut Vec<u8>) -> Result<(), AllocError>
    ensures { OnOk result
        (out.new.items ≡ out.old.items ++ 40 ∷ (decimal depth ++ codes ") ")) }
{
    out.push(b'(')?;
    put_decimal(depth, out)?;
    out.extend_from_slice(b") ")
}

// Writes two spaces for each node around, and past the deepest place how many there are.
fn put_depth(depth: usize, out: &mut Vec<u8>) -> Result<(), AllocError>
    ensures { OnOk result (out.new.items ≡ out.old.items ++ depth_words depth) }
{
    if depth <= DEEPEST {
        return put_indentation(depth as u8, out);
    }
    put_indentation(DEEPEST as u8, out)?;
    put_count(depth, out)
}

// Writes a number and a tab, where numbers are written.
fn put_number(has_numbers: bool, number: usize, out: &mut Vec<u8>) -> Result<(), AllocError>
    ensures { OnOk result (out.new.items ≡ out.old.items ++ number_words has_numbers number) }
{
    if !has_numbers {
        return Ok(());
    }
    put_decimal(number, out)?;
    out.push(b'\t')?;
    Ok(())
}

// Writes what a node is.
fn put_node(tree: &Tree<'_>, number: usize, out: &mut Vec<u8>) -> Result<(), AllocError>
    ensures { OnOk result
        (out.new.items ≡ out.old.items ++ node_words (rows_in tree.now) number) }
{
    match tree.kind(number) {
        Some(Kind::Element) => put_element(tree, number, out),
        Some(Kind::Contents) => out.extend_from_slice(b"#document-fragment"),
        Some(Kind::Text) => put_text(tree.text(number).unwrap_or(b""), out),
        Some(Kind::Comment) => put_comment(tree.text(number).unwrap_or(b""), out),
        Some(Kind::Doctype) => match tree.doctype(number) {
            Some(doctype) => put_doctype(doctype.name, out),
            None => Ok(()),
        },
        None => Ok(()),
    }
}

// Whether a node is a text of white space alone.
fn is_blank(tree: &Tree<'_>, number: usize) -> bool
    ensures { result ≡ is_blank_at (rows_in tree.now) number }
{
    match tree.kind(number) {
        Some(Kind::Text) => behind(Run::White, tree.text(number).unwrap_or(b"")).is_empty(),
        _ => false,
    }
}

// Whether a node has a line.
fn has_line(tree: &Tree<'_>, has_numbers: bool, number: usize) -> bool
    ensures { result ≡ has_line has_numbers (rows_in tree.now) number }
{
    has_numbers || !is_blank(tree, number)
}

// Writes the line of a node that is below so many.
fn put_shown(
    tree: &Tree<'_>,
    has_numbers: bool,
    depth: usize,
    number: usize,
    out: &mut Vec<u8>,
) -> Result<(), AllocError>
    requires { depth ≡ depth_at (rows_in tree.now) number }
    ensures { OnOk result
        (out.new.items ≡ out.old.items ++ shown_line has_numbers (rows_in tree.now) number) }
{
    put_number(has_numbers, number, out)?;
    put_depth(depth, out)?;
    put_node(tree, number, out)?;
    out.push(b'\n')?;
    Ok(())
}

// Writes the line of a node that is below so many, if it has one.
fn put_line(
    tree: &Tree<'_>,
    has_numbers: bool,
    depth: usize,
    number: usize,
    out: &mut Vec<u8>,
) -> Result<(), AllocError>
    requires { depth ≡ depth_at (rows_in tree.now) number }
    ensures { OnOk result
        (out.new.items ≡ out.old.items ++ node_line has_numbers (rows_in tree.now) number) }
{
    if !has_line(tree, has_numbers, number) {
        return Ok(());
    }
    put_shown(tree, has_numbers, depth, number, out)
}

/// Writes a line for each node of a tree, behind two spaces for each node that it is below (past 64
/// stands how many there are): an element as a selector of CSS would say it, a text in quotes, a
/// comment, of both the first line that has words. With numbers the node's number and a tab stand
/// before it; without them a text of white space alone has no line.
pub fn write_node_outline(
    alloc: Global,
    tree: &Tree<'_>,
    has_numbers: bool,
    out: &mut Vec<u8>,
) -> Result<(), AllocError>
    ensures { OnOk result
        (out.new.items ≡ out.old.items ++ node_outline has_numbers (rows_in tree.now)) }
{
    let mut depths = Vec::new(alloc);
    for number in 0..tree.len() {
        let depth = depth_of(tree, depths.as_slice(), number);
        put_line(tree, has_numbers, depth, number, out)?;
        depths.push(depth)?;
    }
    Ok(())
}
