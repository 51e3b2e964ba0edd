//! What a policy keeps of a tree, written.
ghost use Rattle.std.specs.Prelude.{OnOk, ◌+◌, ◌++◌, ◌<◌, ◌^◌, ◌≡◌};
ghost use Rattle.tl_tree.specs.TreeView.{rows_in};
ghost use Rattle.tl_tree_safe.specs.Inner.Walk.{next_by, walked};
ghost use Rattle.tl_tree_safe.specs.Policies.{listed_words};

use crate::known::Known;
use crate::writer::{Writer, end_of};
use std::alloc::{AllocError, Global};
use tl_tree::Tree;

/// The node that comes next: the one behind, or the one behind what is below.
pub(crate) fn next_of(tree: &Tree<'_>, number: usize, is_passed: bool) -> usize
    requires { number + 1 < 2 ^ 64 }
    ensures value { result ≡ next_by (rows_in tree.now) number is_passed }
    ensures further { number < result }
{
    let next = number + 1;
    if !is_passed {
        return next;
    }
    next.max(end_of(tree, number))
}

/// Writes what is kept of a tree by lists, and made to stay.
pub(crate) fn write_walked(
    alloc: Global,
    known: &Known<'_>,
    tree: &Tree<'_>,
    out: &mut Vec<u8>,
) -> Result<(), AllocError>
    ensures { OnOk result (out.new.items
        ≡ out.old.items ++ walked (listed_words known.now.lists) (rows_in tree.now)) }
{
    let mut writer = Writer::new(alloc);
    let mut number = 0;
    while number < tree.len() {
        writer.end_before(tree, number, out)?;
        let is_passed = writer.put(alloc, known, tree, number, out)?;
        let next = next_of(tree, number, is_passed);
        number = next;
    }
    writer.end_before(tree, number, out)
}
