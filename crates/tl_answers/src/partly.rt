//! A page with those of some tags or elements changed that can be.
ghost use Rattle.std.specs.Prelude.{IfErr, IfOk, [], map, ◌≡◌};
ghost use Rattle.tl_answers.specs.Partly.{AreLeft, AreTaggedAll, AreWhole, IsChangesRefusal, IsDoneOf, IsDonePartly, IsElementRestRefusal, IsRestUndone, IsTagRestRefusal, IsUndonePartly, changed_each, rewritten_each};
ghost use Rattle.tl_patch.specs.PatchView.{change_view};
ghost use Rattle.tl_patch_edit.specs.View.{patch_view};
ghost use Rattle.tl_patch_select.specs.NodeEdits.{AreNodesEdited};
ghost use Rattle.tl_patch_select.specs.Nodes.{AreNodesPatched, change_of};
ghost use Rattle.tl_patch_select.specs.Partly.{patched_each};

use crate::edit::{Edit, Refusal, changes_of};
use crate::edited::Edited;
use crate::page::FLAGS;
use std::alloc::{AllocError, Global};
use tl_css::Selector;
use tl_patch::Change;
use tl_patch_edit::ElementPatch;
use tl_patch_select::{
    LeftOut, NodeChange, PartlyPatched, Patched, SelectionEditError, SelectionPatchError,
    edit_partly, patch_nodes, tagged_nodes,
};
use tl_tree::Tree;
use tl_tree_select::select;
use tl_values::Rewrite;

/// A page with something done where it can be, and why it isn't done elsewhere.
#[derive(Drop)]
pub struct PartlyEdited {
    pub edited: Edited,
    pub left_out: LeftOut,
}

// A page with changes of these tags.
fn with_changes(
    alloc: Global,
    page: &[u8],
    tree: &Tree<'_>,
    changes: &[NodeChange<'_>],
) -> Result<Patched, Refusal>
    ensures done { IfOk result (λ p. AreNodesPatched (map change_of changes.now) tree.now page.now
        p.bytes.items p.places.items) }
    ensures told { IfErr result
        (IsChangesRefusal (map change_of changes.now) tree.now page.now) }
{
    match patch_nodes(alloc, page, tree, changes) {
        Ok(patched) => Ok(patched),
        Err(SelectionPatchError::OutOfMemory) => Err(Refusal::OutOfMemory),
        Err(error) => Err(Refusal::Tag(error)),
    }
}

fn changed_each<'a>(
    alloc: Global,
    numbers: &[usize],
    change: Change<'a>,
) -> Result<Vec<NodeChange<'a>>, AllocError>
    ensures { IfOk result (λ changes. map change_of changes.items
        ≡ changed_each (change_view change.entry) numbers.now) }
{
    let mut changes = Vec::with_capacity(alloc, numbers.len())?;
    for number in numbers {
        changes.push(NodeChange {
            number: *number,
            change,
        })?;
    }
    Ok(changes)
}

// A page with the same change of each of these tags.
fn with_change(
    alloc: Global,
    page: &[u8],
    tree: &Tree<'_>,
    numbers: &[usize],
    change: Change<'_>,
) -> Result<Patched, Refusal>
    ensures done { IfOk result (λ p. AreNodesPatched
        (changed_each (change_view change.entry) numbers.now) tree.now page.now
        p.bytes.items p.places.items) }
    ensures told { IfErr result (IsChangesRefusal
        (changed_each (change_view change.entry) numbers.now) tree.now page.now) }
{
    let changes = changed_each(alloc, numbers, change)?;
    with_changes(alloc, page, tree, changes.as_slice())
}

// A page with values of these tags that are made of old ones.
fn with_values(
    alloc: Global,
    page: &[u8],
    tree: &Tree<'_>,
    numbers: &[usize],
    key: &[u8],
    rewrite: &Rewrite<'_>,
) -> Result<Patched, Refusal>
    ensures done { IfOk result (λ p. AreNodesPatched
        (rewritten_each rewrite.now key.now tree.now numbers.now) tree.now page.now
        p.bytes.items p.places.items) }
    ensures told { IfErr result (IsChangesRefusal
        (rewritten_each rewrite.now key.now tree.now numbers.now) tree.now page.now) }
{
    let values = rewrite.values(alloc, tree, numbers, key)?;
    let changes = changes_of(alloc, key, values.as_slice())?;
    with_changes(alloc, page, tree, changes.as_slice())
}

// A page with the same change of those of these tags that can be changed.
fn changed_partly(
    alloc: Global,
    page: &[u8],
    tree: &Tree<'_>,
    numbers: &[usize],
    change: Change<'_>,
) -> Result<PartlyPatched, Refusal>
    ensures done { IfOk result (λ new. AreNodesPatched
        (changed_each (change_view change.entry) new.numbers.items) tree.now page.now
        new.patched.bytes.items new.patched.places.items) }
    ensures left { IfOk result (λ new.
        AreTaggedAll tree.now page.now numbers.now new.numbers.items new.left_out) }
    ensures told { IfErr result (IsTagRestRefusal (changed_each (change_view change.entry))
        tree.now page.now numbers.now) }
{
    let left = tagged_nodes(alloc, page, tree, numbers)?;
    let patched = with_change(alloc, page, tree, left.numbers.as_slice(), change)?;
    Ok(PartlyPatched {
        patched,
        numbers: left.numbers,
        left_out: left.left_out,
    })
}

// A page with values of those of these tags that can be changed, made of old ones.
fn rewritten_partly(
    alloc: Global,
    page: &[u8],
    tree: &Tree<'_>,
    numbers: &[usize],
    key: &[u8],
    rewrite: &Rewrite<'_>,
) -> Result<PartlyPatched, Refusal>
    ensures done { IfOk result (λ new. AreNodesPatched
        (rewritten_each rewrite.now key.now tree.now new.numbers.items) tree.now page.now
        new.patched.bytes.items new.patched.places.items) }
    ensures left { IfOk result (λ new.
        AreTaggedAll tree.now page.now numbers.now new.numbers.items new.left_out) }
    ensures told { IfErr result (IsTagRestRefusal
        (rewritten_each rewrite.now key.now tree.now) tree.now page.now numbers.now) }
{
    let left = tagged_nodes(alloc, page, tree, numbers)?;
    let patched = with_values(alloc, page, tree, left.numbers.as_slice(), key, rewrite)?;
    Ok(PartlyPatched {
        patched,
        numbers: left.numbers,
        left_out: left.left_out,
    })
}

// A page with those of these elements changed that can be.
fn with_elements(
    alloc: Global,
    page: &[u8],
    tree: &Tree<'_>,
    numbers: &[usize],
    patch: ElementPatch<'_>,
) -> Result<PartlyPatched, Refusal>
    ensures done { IfOk result (λ new. AreNodesEdited
        (patched_each (patch_view patch.entry) new.numbers.items) tree.now page.now
        new.patched.bytes.items new.patched.places.items) }
    ensures left { IfOk result (λ new. AreWhole (patch_view patch.entry) tree.now page.now
        numbers.now new.numbers.items new.left_out) }
    ensures told { IfErr result
        (IsElementRestRefusal (patch_view patch.entry) tree.now page.now numbers.now) }
{
    match edit_partly(alloc, page, tree, numbers, patch) {
        Ok(own) => Ok(own),
        Err(SelectionEditError::OutOfMemory) => Err(Refusal::OutOfMemory),
        Err(error) => Err(Refusal::Element(error)),
    }
}

// That tags lose a key, without those that are put in: they have none.
fn without_put_in(alloc: Global, own: PartlyPatched) -> PartlyPatched
    ensures patched { result.patched ≡ own.patched }
    ensures numbers { result.numbers ≡ own.numbers }
    ensures crossed { result.left_out.crossed ≡ own.left_out.crossed }
    ensures refused { result.left_out.refused ≡ own.left_out.refused }
    ensures untagged { result.left_out.untagged.items ≡ [] }
{
    PartlyPatched {
        patched: own.patched,
        numbers: own.numbers,
        left_out: LeftOut {
            untagged: Vec::new(alloc),
            crossed: own.left_out.crossed,
            refused: own.left_out.refused,
        },
    }
}

impl Edit<'_> {
    // A page with this done with those of some elements with which it can be done. Their numbers
    // stand in order.
    fn partly(
        &self,
        alloc: Global,
        page: &[u8],
        tree: &Tree<'_>,
        numbers: &[usize],
    ) -> Result<PartlyPatched, Refusal>
        ensures done { IfOk result (λ new. IsDoneOf self.now tree.now new.numbers.items page.now
            new.patched.bytes.items new.patched.places.items) }
        ensures left { IfOk result (λ new. AreLeft self.now tree.now page.now numbers.now
            new.numbers.items new.left_out) }
        ensures told { IfErr result (IsRestUndone self.now tree.now page.now numbers.now) }
    {
        match self {
            Edit::Set(key, value) => {
                let change = Change::Set {
                    key: key.as_bytes(),
                    value: value.as_bytes(),
                };
                changed_partly(alloc, page, tree, numbers, change)
            }
            Edit::Rewrite(key, rewrite) => {
                rewritten_partly(alloc, page, tree, numbers, key.as_bytes(), rewrite)
            }
            Edit::Unset(key) => {
                let change = Change::Unset {
                    key: key.as_bytes(),
                };
                let own = changed_partly(alloc, page, tree, numbers, change)?;
                Ok(without_put_in(alloc, own))
            }
            Edit::Rename(name) => {
                let patch = ElementPatch::Rename {
                    name: name.as_bytes(),
                };
                with_elements(alloc, page, tree, numbers, patch)
            }
            Edit::Element(patch) => with_elements(alloc, page, tree, numbers, *patch),
        }
    }
}

/// The bytes of a page, which is read once, with something done where a selector holds and it can
/// be done, and no other byte changed.
pub fn edited_partly(
    alloc: Global,
    edit: &Edit<'_>,
    selector: &Selector,
    page: &[u8],
) -> Result<PartlyEdited, Refusal>
    ensures done { IfOk result (λ own. IsDonePartly edit.now selector.now page.now
        own.edited.patched.bytes.items own.edited.patched.places.items own.left_out
        own.edited.meant) }
    ensures told { IfErr result (IsUndonePartly edit.now selector.now page.now) }
{
    let tree = Tree::read(alloc, page, FLAGS)?;
    let numbers = select(alloc, &tree, selector)?;
    let own = edit.partly(alloc, page, &tree, numbers.as_slice())?;
    let PartlyPatched {
        patched,
        numbers: changed,
        left_out,
    } = own;
    let meant = edit.meant_of(alloc, &tree, changed.as_slice(), patched.bytes.as_slice())?;
    Ok(PartlyEdited {
        edited: Edited { patched, meant },
        left_out,
    })
}
