//! Nodes in the order of the page, with lines between them.
ghost use Rattle.std.specs.Prelude.{IfOk, OnOk, [], ◌+◌, ◌++◌, ◌<◌, ◌^◌, ◌≡◌, ◌≤◌};
ghost use Rattle.tl_html_print.specs.Inner.Lines.{begins_next, closed_lines, closed_spot, closing_lines, closing_spot, inside, is_opened_at, is_white_at, laid_rows, next_of, parent_ends, start_lines, step_lines, step_spot, whole_lines, whole_spot};
ghost use Rattle.tl_html_print.specs.Pretty.{is_white};
ghost use Rattle.tl_tree.specs.Asked.{ancestors_at};
ghost use Rattle.tl_tree.specs.TreeView.{rows_in};

use crate::element::{write_end_tag, write_start_tag};
use crate::pretty::spot::Spot;
use crate::pretty::stand::{Stand, is_broken, is_late, stand_of};
use crate::rows::{ends_at, write_rows};
use std::alloc::AllocError;
use tl_tree::{Kind, Tree};

// Whether an element is broken over lines: there is something in it.
fn is_opened(tree: &Tree<'_>, number: usize) -> bool
    ensures { result ≡ is_opened_at (rows_in tree.now) number }
{
    tree.first_child(number).is_some() && is_broken(tree, number)
}

// The node behind one, or behind what is in it where it isn't broken over lines.
fn next_of(tree: &Tree<'_>, number: usize, is_opened: bool) -> usize
    requires { number + 1 < 2 ^ 64 }
    ensures value { result ≡ next_of (rows_in tree.now) number is_opened }
    ensures further { number < result }
{
    let next = number + 1;
    if is_opened {
        return next;
    }
    next.max(tree.end(number).unwrap_or(0))
}

// Whether there is nothing but white space.
fn is_blank(bytes: &[u8]) -> bool
    ensures { result ≡ is_white bytes.now }
{
    for byte in bytes {
        if !byte.is_ascii_whitespace() {
            return false;
        }
    }
    true
}

// Whether a node is a text of white space.
fn is_white(tree: &Tree<'_>, number: usize) -> bool
    ensures { result ≡ is_white_at (rows_in tree.now) number }
{
    match tree.kind(number) {
        Some(Kind::Text) => is_blank(tree.text(number).unwrap_or(b"")),
        _ => false,
    }
}

// Whether what a node stands in ends right before another one.
fn parent_ends(tree: &Tree<'_>, number: usize, next: usize) -> bool
    ensures { result ≡ parent_ends (rows_in tree.now) number next }
{
    match tree.parent(number) {
        Some(parent) => ends_at(tree, parent, next),
        None => false,
    }
}

// Whether a line begins before the sibling behind a text, or before the end tag behind it.
fn begins_next(tree: &Tree<'_>, number: usize, next: usize, spot: Spot) -> bool
    ensures { result ≡ begins_next (rows_in tree.now) number next spot }
{
    if parent_ends(tree, number, next) {
        return spot.ends_line();
    }
    spot.begins_line(stand_of(tree, next))
}

// Writes a node as it is, with what is in it: nothing where a line stands in the place of a text.
fn put_whole(
    tree: &Tree<'_>,
    number: usize,
    next: usize,
    is_scripting: bool,
    spot: Spot,
    out: &mut Vec<u8>,
) -> Result<Spot, AllocError>
    ensures text { OnOk result (out.new.items
        ≡ out.old.items ++ whole_lines is_scripting (rows_in tree.now) number next spot) }
    ensures spot { IfOk result (λ new. new ≡ whole_spot (rows_in tree.now) number spot) }
{
    if is_white(tree, number) {
        if begins_next(tree, number, next, spot) {
            return Ok(spot);
        }
        write_rows(tree, number, next, is_scripting, out)?;
        return Ok(spot);
    }
    let stand = stand_of(tree, number);
    spot.put_line(stand, out)?;
    write_rows(tree, number, next, is_scripting, out)?;
    Ok(spot.behind(stand))
}

// Writes the start tag of an element that is broken over lines.
fn put_start(
    tree: &Tree<'_>,
    number: usize,
    spot: Spot,
    out: &mut Vec<u8>,
) -> Result<Spot, AllocError>
    requires { spot.depth + 1 < 2 ^ 64 }
    ensures text { OnOk result (out.new.items
        ≡ out.old.items ++ start_lines (rows_in tree.now) number spot) }
    ensures spot { IfOk result (λ new. new ≡ inside spot) }
{
    spot.put_line(Stand::Alone, out)?;
    write_start_tag(tree, number, out)?;
    Ok(spot.inside())
}

// Writes the end tags of those that a node is in and that end with it, each on a line.
fn put_ends(
    tree: &Tree<'_>,
    number: usize,
    next: usize,
    spot: Spot,
    out: &mut Vec<u8>,
) -> Result<Spot, AllocError>
    ensures text { OnOk result (out.new.items ≡ out.old.items
        ++ closed_lines (rows_in tree.now) next spot (ancestors_at (rows_in tree.now) number)) }
    ensures spot { IfOk result (λ new. new
        ≡ closed_spot (rows_in tree.now) next spot (ancestors_at (rows_in tree.now) number)) }
{
    let mut now = spot;
    for outer in tree.ancestors(number) {
        if !ends_at(tree, outer, next) {
            return Ok(now);
        }
        now.put_last_line(out)?;
        write_end_tag(tree, outer, out)?;
        now = now.outside(is_late(tree, outer));
    }
    Ok(now)
}

// Writes a node that is not broken over lines, and the end tags behind it.
fn put_closed(
    tree: &Tree<'_>,
    number: usize,
    next: usize,
    is_scripting: bool,
    spot: Spot,
    out: &mut Vec<u8>,
) -> Result<Spot, AllocError>
    ensures text { OnOk result (out.new.items
        ≡ out.old.items ++ closing_lines is_scripting (rows_in tree.now) number next spot) }
    ensures spot { IfOk result (λ new. new ≡ closing_spot (rows_in tree.now) number next spot) }
{
    let behind = put_whole(tree, number, next, is_scripting, spot, out)?;
    put_ends(tree, number, next, behind, out)
}

// Writes a node: its start tag where it is broken over lines, and else all of it.
fn put_node(
    tree: &Tree<'_>,
    number: usize,
    is_opened: bool,
    next: usize,
    is_scripting: bool,
    spot: Spot,
    out: &mut Vec<u8>,
) -> Result<Spot, AllocError>
    requires { spot.depth + 1 < 2 ^ 64 }
    ensures text { OnOk result (out.new.items ≡ out.old.items
        ++ step_lines is_scripting (rows_in tree.now) number is_opened next spot) }
    ensures spot { IfOk result (λ new. new
        ≡ step_spot (rows_in tree.now) number is_opened next spot) }
{
    if is_opened {
        put_start(tree, number, spot, out)
    } else {
        put_closed(tree, number, next, is_scripting, spot, out)
    }
}

/// Writes all nodes, with lines between them.
pub(crate) fn write_lines(
    tree: &Tree<'_>,
    is_scripting: bool,
    out: &mut Vec<u8>,
) -> Result<(), AllocError>
    ensures { OnOk result (out.new.items
        ≡ out.old.items ++ laid_rows is_scripting (rows_in tree.now)) }
{
    let mut spot = Spot::new();
    let mut number = 0;
    while number < tree.len() {
        let is_opened = is_opened(tree, number);
        let next = next_of(tree, number, is_opened);
        spot = put_node(tree, number, is_opened, next, is_scripting, spot, out)?;
        number = next;
    }
    spot.put_last_line(out)
}
