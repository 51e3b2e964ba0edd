//! What a policy keeps of a tree, written, and what goes, told.
ghost use Rattle.std.specs.Prelude.{OnOk, map, ◌++◌, ◌≡◌};
ghost use Rattle.tl_tree.specs.TreeView.{rows_in};
ghost use Rattle.tl_tree_safe.specs.Inner.Telling.{told};
ghost use Rattle.tl_tree_safe.specs.Inner.Walk.{walked};
ghost use Rattle.tl_tree_safe.specs.Policies.{listed_words};
ghost use Rattle.tl_tree_safe.specs.Removed.{gone_of};

use crate::known::Known;
use crate::removal::Removal;
use crate::walk::next_of;
use crate::writer::Writer;
use std::alloc::{AllocError, Global};
use tl_tree::Tree;

/// Writes what is kept of a tree by lists, and made to stay, and tells what goes.
pub(crate) fn write_telling<'t>(
    alloc: Global,
    known: &Known<'_>,
    tree: &'t Tree<'_>,
    out: &mut Vec<u8>,
    removals: &mut Vec<Removal<'t>>,
) -> Result<(), AllocError>
    ensures text { OnOk result (out.new.items
        ≡ out.old.items ++ walked (listed_words known.now.lists) (rows_in tree.now)) }
    ensures told { OnOk result (map gone_of removals.new.items
        ≡ map gone_of removals.old.items
        ++ told (listed_words known.now.lists) (rows_in tree.now)) }
{
    let mut writer = Writer::new(alloc);
    let mut number = 0;
    while number < tree.len() {
        writer.end_before(tree, number, out)?;
        writer.tell(alloc, known, tree, number, removals)?;
        let is_passed = writer.put(alloc, known, tree, number, out)?;
        let next = next_of(tree, number, is_passed);
        number = next;
    }
    writer.end_before(tree, number, out)
}
