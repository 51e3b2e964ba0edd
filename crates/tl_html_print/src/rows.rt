//! Nodes in the order of the page.
ghost use Rattle.std.specs.Prelude.{OnOk, ◌+◌, ◌++◌, ◌<◌, ◌≤◌, ◌^◌, ◌≡◌};
ghost use Rattle.tl_tree.specs.Below.{ends_at};
ghost use Rattle.tl_html_print.specs.Inner.Printed.{behind, closed, printed, upwards};
ghost use Rattle.tl_tree.specs.Asked.{ancestors_at};
ghost use Rattle.tl_tree.specs.TreeView.{rows_in};

use crate::element::{is_void, write_end_tag};
use crate::node::write_node;
use std::alloc::AllocError;
use tl_tree::Tree;

/// Whether what is below a node ends right before another one.
pub(crate) fn ends_at(tree: &Tree<'_>, number: usize, next: usize) -> bool
    ensures { result ≡ ends_at (rows_in tree.now) number next }
{
    match tree.end(number) {
        Some(end) => end == next,
        None => false,
    }
}

// The node that is printed after one: what is below a void element is left out.
fn behind(tree: &Tree<'_>, number: usize) -> usize
    requires { number + 1 < 2 ^ 64 }
    ensures value { result ≡ behind (rows_in tree.now) number }
    ensures further { number < result }
{
    let next = number + 1;
    if !is_void(tree, number) {
        return next;
    }
    next.max(tree.end(number).unwrap_or(0))
}

// Writes the end tags of those that a node is in and that end with it, from the first one on.
fn write_ends(
    tree: &Tree<'_>,
    number: usize,
    first: usize,
    next: usize,
    out: &mut Vec<u8>,
) -> Result<(), AllocError>
    ensures { OnOk result (out.new.items ≡ out.old.items
        ++ closed (rows_in tree.now) first next (ancestors_at (rows_in tree.now) number)) }
{
    for outer in tree.ancestors(number) {
        if outer < first || !ends_at(tree, outer, next) {
            return Ok(());
        }
        write_end_tag(tree, outer, out)?;
    }
    Ok(())
}

// Writes the end tag of a node, and of those that end with it.
fn close(
    tree: &Tree<'_>,
    number: usize,
    first: usize,
    next: usize,
    out: &mut Vec<u8>,
) -> Result<(), AllocError>
    requires { first ≤ number }
    ensures { OnOk result (out.new.items ≡ out.old.items
        ++ closed (rows_in tree.now) first next (upwards (rows_in tree.now) number)) }
{
    if !ends_at(tree, number, next) {
        return Ok(());
    }
    write_end_tag(tree, number, out)?;
    write_ends(tree, number, first, next, out)
}

/// Writes the nodes of a range of numbers, each with its end tag.
pub(crate) fn write_rows(
    tree: &Tree<'_>,
    first: usize,
    end: usize,
    is_scripting: bool,
    out: &mut Vec<u8>,
) -> Result<(), AllocError>
    ensures { OnOk result (out.new.items
        ≡ out.old.items ++ printed is_scripting (rows_in tree.now) first end) }
{
    let mut number = first;
    while number < end {
        write_node(tree, number, is_scripting, out)?;
        let next = behind(tree, number);
        close(tree, number, first, next, out)?;
        number = next;
    }
    Ok(())
}
