//! What went of a tree, written.
ghost use Rattle.std.specs.Prelude.{IfOk, List, OnOk, map, ℕ, ◌++◌, ◌≡◌};
ghost use Rattle.tl_tree.specs.Sources.{source_at};
ghost use Rattle.tl_tree.specs.TreeView.{rows_in};
ghost use Rattle.tl_tree.specs.declared.source.Source.{Source};
ghost use Rattle.tl_tree_safe.specs.Removed.{Gone, gone_of};
ghost use Rattle.tl_tree_safe.specs.RemovalForms.{removal_written, removals_written, written_name};

use crate::removal::Removal;
use std::alloc::{AllocError, Global};
use tl_tree::{Source, Tree};

/// A form in which what went is written.
pub trait RemovalForm {
    /// What is written of a removal, where the start tag of an element of a name stands.
    ghost written: { Self → Source → List ℕ → Gone → List ℕ };

    /// Writes a removal, where the start tag of its element stands, whose name this is.
    fn write(
        &self,
        source: &Source,
        name: &[u8],
        removal: Removal<'_>,
        out: &mut Vec<u8>,
    ) -> Result<(), AllocError>
        ensures { OnOk result (out.new.items
            ≡ out.old.items ++ written self.now source.now name.now (gone_of removal.entry)) };
}

// The name of an element, and nothing of another node.
fn written_name<'t>(tree: &'t Tree<'_>, number: usize) -> &'t [u8]
    ensures { result.now ≡ written_name (rows_in tree.now) number }
{
    tree.name(number).unwrap_or(b"")
}

// Writes what went in a form, if it was written in the page.
fn write_removal<F: RemovalForm>(
    form: &F,
    tree: &Tree<'_>,
    removal: Removal<'_>,
    out: &mut Vec<u8>,
) -> Result<(), AllocError>
    ensures { OnOk result (out.new.items ≡ out.old.items ++ removal_written
        (F.written form.now) (source_at tree.now) (rows_in tree.now) (gone_of removal.entry)) }
{
    let Some(source) = tree.source(removal.node) else {
        return Ok(());
    };
    form.write(&source, written_name(tree, removal.node), removal, out)
}

/// What went of a tree, written in a form.
pub(crate) fn removals_in<F: RemovalForm>(
    alloc: Global,
    form: &F,
    tree: &Tree<'_>,
    removals: &[Removal<'_>],
) -> Result<Vec<u8>, AllocError>
    ensures { IfOk result (λ told. told.items ≡ removals_written
        (F.written form.now) (source_at tree.now) (rows_in tree.now) (map gone_of removals.now)) }
{
    let mut told = Vec::new(alloc);
    for removal in removals {
        write_removal(form, tree, *removal, &mut told)?;
    }
    Ok(told)
}
