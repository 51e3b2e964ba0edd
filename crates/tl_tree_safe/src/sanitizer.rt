//! Trees made safe for a browser.
ghost use Rattle.std.specs.Prelude.{None, OnOk, false, map, ◌++◌, ◌≡◌};
ghost use Rattle.tl_dom_spec.specs.HtmlForest.{HtmlForest};
ghost use Rattle.tl_html_print.specs.Serialized.{serialized};
ghost use Rattle.tl_tree.specs.Rows.{rows_of};
ghost use Rattle.tl_tree.specs.TreeView.{rows_in};
ghost use Rattle.tl_tree_safe.specs.KeptFitted.{kept_fitted};
ghost use Rattle.tl_tree_safe.specs.OfPolicy.{lists_of};
ghost use Rattle.tl_tree_safe.specs.Removed.{gone_of, removed};

use crate::known::Known;
use crate::policy::Policy;
use crate::removal::Removal;
use crate::told_walk::write_telling;
use crate::walk::write_walked;
use std::alloc::{AllocError, Global};
use tl_tree::Tree;

/// Writes what a policy keeps of a tree, made to stay as it is once a browser reads it. Its time is
/// linear in the tree. It takes memory for an index of the tags, for elements that are open, and
/// for texts and values that hold what goes.
pub fn sanitize(
    alloc: Global,
    policy: &Policy<'_>,
    tree: &Tree<'_>,
    out: &mut Vec<u8>,
) -> Result<(), AllocError>
    ensures { (trees : HtmlForest) → rows_in tree.now ≡ rows_of trees →
        OnOk result (out.new.items ≡ out.old.items
        ++ serialized false None (kept_fitted (lists_of policy.now) trees)) }
{
    let known = Known::new(alloc, &policy.lists)?;
    write_walked(alloc, &known, tree, out)
}

/// Writes what `sanitize` does, and tells what goes, in the order of the page: each element that
/// isn't written but those in one that goes whole, and of each that is the attributes that go. A
/// value that is changed, a `rel` in whose place the mark of a link stands, characters of texts,
/// comments and doctypes aren't told.
pub fn sanitize_telling<'t>(
    alloc: Global,
    policy: &Policy<'_>,
    tree: &'t Tree<'_>,
    out: &mut Vec<u8>,
    told: &mut Vec<Removal<'t>>,
) -> Result<(), AllocError>
    ensures print { (trees : HtmlForest) → rows_in tree.now ≡ rows_of trees →
        OnOk result (out.new.items ≡ out.old.items
        ++ serialized false None (kept_fitted (lists_of policy.now) trees)) }
    ensures removed { (trees : HtmlForest) → rows_in tree.now ≡ rows_of trees →
        OnOk result (map gone_of told.new.items ≡ map gone_of told.old.items
        ++ removed (lists_of policy.now) trees) }
{
    let known = Known::new(alloc, &policy.lists)?;
    write_telling(alloc, &known, tree, out, told)
}
