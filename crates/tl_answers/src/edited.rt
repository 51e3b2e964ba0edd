//! A page with tags or elements changed.
ghost use Rattle.std.specs.Prelude.{IfErr, IfOk};
ghost use Rattle.tl_answers.specs.Edits.{IsDoneOfPage, IsUndoneOfPage};
ghost use Rattle.tl_answers.specs.Meant.{IsMeant};

use crate::edit::{Edit, Refusal};
use crate::meant::Meant;
use crate::page::FLAGS;
use std::alloc::Global;
use tl_css::Selector;
use tl_patch_select::Patched;
use tl_tree::Tree;

/// A page with something done.
#[derive(Drop)]
pub struct Edited {
    pub patched: Patched,
    /// Whether its tree is the one that was meant.
    pub meant: Meant,
}

/// The bytes of a page, which is read once, with something done where a selector holds, and no
/// other byte changed; and whether the tree of that, which is read where it is asked for, is the
/// one that the operation of the DOM would have made.
pub fn edited_page(
    alloc: Global,
    edit: &Edit<'_>,
    selector: &Selector,
    page: &[u8],
) -> Result<Edited, Refusal>
    ensures done { IfOk result (λ e. IsDoneOfPage edit.now selector.now page.now
        e.patched.bytes.items e.patched.places.items) }
    ensures meant { IfOk result (λ e.
        IsMeant edit.now selector.now page.now e.patched.bytes.items e.meant) }
    ensures told { IfErr result (IsUndoneOfPage edit.now selector.now page.now) }
{
    let tree = Tree::read(alloc, page, FLAGS)?;
    let patched = edit.patched(alloc, page, &tree, selector)?;
    let meant = edit.meant(alloc, &tree, selector, patched.bytes.as_slice())?;
    Ok(Edited { patched, meant })
}
