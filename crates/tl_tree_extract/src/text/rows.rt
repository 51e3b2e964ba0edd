//! Nodes in the order of the page.
ghost use Rattle.std.specs.Option.{option_map, unwrap_or};
ghost use Rattle.std.specs.Prelude.{IfOk, OnOk, [], false, if◌then◌else◌, max, true, ◌+◌, ◌++◌, ◌<◌, ◌^◌, ◌∷◌, ◌≡◌};
ghost use Rattle.tl_tree.specs.Asked.{ancestors_at, end_at, node_at};
ghost use Rattle.tl_tree.specs.Below.{ends_at};
ghost use Rattle.tl_tree.specs.TreeView.{rows_in};
ghost use Rattle.tl_tree_extract.specs.Boxes.{is_hidden, keeps_lines};
ghost use Rattle.tl_tree_extract.specs.Flowing.{after_items, an_end, written};
ghost use Rattle.tl_tree_extract.specs.Readable.{behind_of, ended_of, ended_outside, is_kept_at, kept_of, opened_of, readable};

use crate::text::display::{Display, box_of, display_of};
use crate::text::flow::Flow;
use std::alloc::AllocError;
use tl_tree::{Kind, Tree};

/// Whether what is below a node ends right before another one.
pub(crate) fn ends_at(tree: &Tree<'_>, number: usize, next: usize) -> bool
    ensures { result ≡ ends_at (rows_in tree.now) number next }
{
    match tree.end(number) {
        Some(end) => end == next,
        None => false,
    }
}

// The node behind one: what is below a hidden one is left out.
fn behind(tree: &Tree<'_>, display: Display, number: usize) -> usize
    requires { number + 1 < 2 ^ 64 }
    ensures { result ≡ behind_of (rows_in tree.now) display number }
{
    let next = number + 1;
    match display {
        Display::Hidden => next.max(tree.end(number).unwrap_or(0)),
        _ => next,
    }
}

// Up to which node white space stands as it is.
fn kept(tree: &Tree<'_>, display: Display, kept: usize, number: usize) -> usize
    ensures { result ≡ kept_of (rows_in tree.now) display kept number }
{
    match display {
        Display::Preformatted => kept.max(tree.end(number).unwrap_or(0)),
        _ => kept,
    }
}

// Writes what a node has before what is below it.
fn open(
    tree: &Tree<'_>,
    display: Display,
    is_kept: bool,
    number: usize,
    flow: Flow,
    out: &mut Vec<u8>,
) -> Result<Flow, AllocError>
    ensures text { OnOk result (out.new.items ≡ out.old.items
        ++ written flow (opened_of (rows_in tree.now) display is_kept number)) }
    ensures flow { IfOk result
        (λ new. new ≡ after_items flow (opened_of (rows_in tree.now) display is_kept number)) }
{
    match tree.kind(number) {
        Some(Kind::Element) => flow.begin(display, out),
        Some(Kind::Text) => match display {
            Display::Hidden => Ok(flow),
            _ => flow.put_text(is_kept, tree.text(number).unwrap_or(b""), out),
        },
        _ => Ok(flow),
    }
}

// What follows the elements that a node is in and that end with it, from the first node on.
fn end_outside(tree: &Tree<'_>, number: usize, first: usize, next: usize, flow: Flow) -> Flow
    ensures { result ≡ after_items flow
        (ended_outside (rows_in tree.now) first next (ancestors_at (rows_in tree.now) number)) }
{
    let mut flow = flow;
    for outer in tree.ancestors(number) {
        if outer < first || !ends_at(tree, outer, next) {
            return flow;
        }
        flow = flow.end(box_of(tree, outer));
    }
    flow
}

// What follows a node, and the elements that end with it.
fn end(
    tree: &Tree<'_>,
    display: Display,
    number: usize,
    first: usize,
    next: usize,
    flow: Flow,
) -> Flow
    ensures { result
        ≡ after_items flow (ended_of (rows_in tree.now) display first next number) }
{
    if !ends_at(tree, number, next) {
        return flow;
    }
    end_outside(tree, number, first, next, flow.end(display))
}

/// Writes the text of a range of nodes but those that are left out. Up to the node `kept` white
/// space stands as it is.
pub(crate) fn write_rows(
    tree: &Tree<'_>,
    left_out: &[bool],
    first: usize,
    last: usize,
    kept_first: usize,
    out: &mut Vec<u8>,
) -> Result<(), AllocError>
    ensures { OnOk result (out.new.items ≡ out.old.items
        ++ readable left_out.now (rows_in tree.now) first last kept_first) }
{
    let mut flow = Flow::new();
    let mut kept_end = kept_first;
    let mut number = first;
    while number < last {
        let display = display_of(tree, left_out, number);
        kept_end = kept(tree, display, kept_end, number);
        flow = open(tree, display, number < kept_end, number, flow, out)?;
        let next = behind(tree, display, number);
        flow = end(tree, display, number, first, next, flow);
        number = next;
    }
    Ok(())
}

/// Whether white space below a node stands as it is.
pub(crate) fn is_kept(tree: &Tree<'_>, number: usize) -> bool
    ensures { result ≡ is_kept_at (rows_in tree.now) number }
{
    if matches!(box_of(tree, number), Display::Preformatted) {
        return true;
    }
    for outer in tree.ancestors(number) {
        if matches!(box_of(tree, outer), Display::Preformatted) {
            return true;
        }
    }
    false
}
