//! Changes of tags and elements.
ghost use Rattle.std.specs.Prelude.{IfErr, IfOk, map, ◌≡◌};
ghost use Rattle.tl_patch_edit.specs.View.{patch_view};
ghost use Rattle.tl_patch.specs.PatchView.{change_view};
ghost use Rattle.tl_patch_select.specs.Edited.{IsEditedWhere};
ghost use Rattle.tl_patch_select.specs.Nodes.{change_of};
ghost use Rattle.tl_patch_select.specs.Patched.{IsPatchedWhere};
ghost use Rattle.tl_answers.specs.Edits.{IsDone, IsElementRefusal, IsRewriteRefusal, IsTagRefusal, IsUndone, refusal_of_read};
ghost use Rattle.tl_answers.specs.Rewritten.{IsRewrittenWhere, sets_of};
ghost use Rattle.tl_answers.specs.declared.edit.Refusal.TheVariants.{OutOfMemory};
ghost use Rattle.tl_values.specs.NewValues.{got};

use std::alloc::{AllocError, Global};
use tl_css::Selector;
use tl_patch::Change;
use tl_patch_edit::ElementPatch;
use tl_patch_select::{
    NodeChange, Patched, SelectionEditError, SelectionPatchError, edit_selected, patch_nodes,
    patch_selected,
};
use tl_tree::{ReadError, Tree};
use tl_tree_select::select;
use tl_values::{NewValue, Rewrite};

/// What is done where a selector holds. Keys and names are in lower case.
#[derive(Drop)]
pub enum Edit<'w> {
    /// The key of the tags gets this value.
    Set(String, &'w str),
    /// It gets a value that is made of an old one.
    Rewrite(String, Rewrite<'w>),
    /// The key goes.
    Unset(String),
    /// The elements get this name.
    Rename(String),
    /// Something else is done with the elements.
    Element(ElementPatch<'w>),
}

/// Why a page is not changed so.
#[derive(Drop)]
pub enum Refusal {
    Tag(SelectionPatchError),
    Element(SelectionEditError),
    /// The page isn't read.
    Unread(ReadError),
    OutOfMemory,
}

impl From<ReadError> for Refusal {
    ghost from_gives = { λ error why. why ≡ refusal_of_read error };

    fn from(error: ReadError) -> Self {
        match error {
            ReadError::OutOfMemory => Refusal::OutOfMemory,
            _ => Refusal::Unread(error),
        }
    }
}

impl From<AllocError> for Refusal {
    ghost from_gives = { λ _ why. why ≡ OutOfMemory };

    fn from(_: AllocError) -> Self {
        Refusal::OutOfMemory
    }
}

// A page with the tags changed where a selector holds.
fn with_tags(
    alloc: Global,
    page: &[u8],
    tree: &Tree<'_>,
    selector: &Selector,
    change: Change<'_>,
) -> Result<Patched, Refusal>
    ensures done { IfOk result (λ p. IsPatchedWhere selector.now (change_view change.entry)
        tree.now page.now p.bytes.items p.places.items) }
    ensures told { IfErr result
        (IsTagRefusal selector.now (change_view change.entry) tree.now page.now) }
{
    match patch_selected(alloc, page, tree, selector, change) {
        Ok(patched) => Ok(patched),
        Err(SelectionPatchError::OutOfMemory) => Err(Refusal::OutOfMemory),
        Err(error) => Err(Refusal::Tag(error)),
    }
}

// The changes by which nodes get their values.
pub(crate) fn changes_of<'a>(
    alloc: Global,
    key: &'a [u8],
    values: &'a [NewValue],
) -> Result<Vec<NodeChange<'a>>, AllocError>
    ensures { IfOk result (λ changes. map change_of changes.items
        ≡ sets_of key.now (map got values.now)) }
{
    let mut changes = Vec::with_capacity(alloc, values.len())?;
    for new in values {
        let value = new.value.as_slice();
        let change = Change::Set { key, value };
        changes.push(NodeChange {
            number: new.number,
            change,
        })?;
    }
    Ok(changes)
}

// A page with the values of a key made of old ones where a selector holds.
fn with_values(
    alloc: Global,
    page: &[u8],
    tree: &Tree<'_>,
    selector: &Selector,
    key: &[u8],
    rewrite: &Rewrite<'_>,
) -> Result<Patched, Refusal>
    ensures done { IfOk result (λ p. IsRewrittenWhere selector.now rewrite.now key.now
        tree.now page.now p.bytes.items p.places.items) }
    ensures told { IfErr result
        (IsRewriteRefusal selector.now rewrite.now key.now tree.now page.now) }
{
    let numbers = select(alloc, tree, selector)?;
    let values = rewrite.values(alloc, tree, numbers.as_slice(), key)?;
    let changes = changes_of(alloc, key, values.as_slice())?;
    match patch_nodes(alloc, page, tree, changes.as_slice()) {
        Ok(patched) => Ok(patched),
        Err(why) => match why {
            SelectionPatchError::OutOfMemory => Err(Refusal::OutOfMemory),
            _ => Err(Refusal::Tag(why)),
        },
    }
}

// A page with the elements changed where a selector holds.
fn with_elements(
    alloc: Global,
    page: &[u8],
    tree: &Tree<'_>,
    selector: &Selector,
    patch: ElementPatch<'_>,
) -> Result<Patched, Refusal>
    ensures done { IfOk result (λ p. IsEditedWhere selector.now (patch_view patch.entry)
        tree.now page.now p.bytes.items p.places.items) }
    ensures told { IfErr result
        (IsElementRefusal selector.now (patch_view patch.entry) tree.now page.now) }
{
    match edit_selected(alloc, page, tree, selector, patch) {
        Ok(patched) => Ok(patched),
        Err(SelectionEditError::OutOfMemory) => Err(Refusal::OutOfMemory),
        Err(error) => Err(Refusal::Element(error)),
    }
}

impl Edit<'_> {
    /// A page with this done where a selector holds in its tree.
    pub(crate) fn patched(
        &self,
        alloc: Global,
        page: &[u8],
        tree: &Tree<'_>,
        selector: &Selector,
    ) -> Result<Patched, Refusal>
        ensures done { IfOk result (λ p.
            IsDone self.now selector.now tree.now page.now p.bytes.items p.places.items) }
        ensures told { IfErr result (IsUndone self.now selector.now tree.now page.now) }
    {
        match self {
            Edit::Set(key, value) => {
                let change = Change::Set {
                    key: key.as_bytes(),
                    value: value.as_bytes(),
                };
                with_tags(alloc, page, tree, selector, change)
            }
            Edit::Rewrite(key, rewrite) => {
                with_values(alloc, page, tree, selector, key.as_bytes(), rewrite)
            }
            Edit::Unset(key) => {
                let change = Change::Unset {
                    key: key.as_bytes(),
                };
                with_tags(alloc, page, tree, selector, change)
            }
            Edit::Rename(name) => {
                let patch = ElementPatch::Rename {
                    name: name.as_bytes(),
                };
                with_elements(alloc, page, tree, selector, patch)
            }
            Edit::Element(patch) => with_elements(alloc, page, tree, selector, *patch),
        }
    }
}
