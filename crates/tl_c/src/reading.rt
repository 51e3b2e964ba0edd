//! Pages that are read into their trees.
ghost use Rattle.std.specs.Prelude.{◌≡◌, ◌<◌, length, true, Err, IfErr, IfOk, IsUtf8, OnOk};
ghost use Rattle.tl_dom_spec.specs.HtmlTree.{is_in_proportion_by, standard};
ghost use Rattle.tl_page.specs.declared.failure.Failure.TheVariants.{NotUnderstood};
ghost use Rattle.tl_c.specs.Readings.{IsReadable, IsUnread};
ghost use Rattle.tl_tree.specs.Pages.{IsOfPage};

use crate::parsed_page::ParsedPage;
use std::alloc::{AllocError, Global};
use tl_page::{Failure, text};
use tl_tree::{Flags, ReadError, Tree};

// Pages are read by the standard, without scripts.
const FLAGS: Flags = Flags {
    is_scripting: false,
    counts_search: true,
};

// The tree of a text, which refers to it.
fn tree_of_text(alloc: Global, text: &[u8]) -> Result<Tree<'_>, Failure>
    ensures tree { IfOk result (IsOfPage text.now) }
    ensures in_proportion { OnOk result (is_in_proportion_by standard text.now ≡ true) }
    ensures unread { IfErr result (IsUnread text.now) }
{
    match Tree::read(alloc, text, FLAGS) {
        Ok(tree) => Ok(tree),
        Err(ReadError::OutOfProportion { at: _at }) => Err(Failure::NotUnderstood),

        // Numbers of 32 bits ran out.
        Err(ReadError::TooLarge) => Err(Failure::OutOfMemory),
        Err(ReadError::OutOfMemory) => Err(Failure::OutOfMemory),
    }
}

/// The tree of a page, which refers to it.
pub(crate) fn tree_of(alloc: Global, page: &[u8]) -> Result<Tree<'_>, Failure>
    ensures tree { IfOk result (IsOfPage page.now) }
    ensures readable { OnOk result (IsReadable page.now) }
    ensures unread { IfErr result (IsUnread page.now) }
    ensures no_text { ¬ (IsUtf8 page.now) → result ≡ Err NotUnderstood }
    ensures long { u32.MAX < length page.now → result ≡ Err NotUnderstood }
{
    let text = text(page)?;
    tree_of_text(alloc, text.as_bytes())
}

/// The tree of a page, with a copy of the page.
pub(crate) fn read(alloc: Global, page: &[u8]) -> Result<Box<ParsedPage>, Failure>
    ensures tree { IfOk result (λ own. IsOfPage page.now own.value.tree) }
    ensures readable { OnOk result (IsReadable page.now) }
    ensures unread { IfErr result (IsUnread page.now) }
    ensures no_text { ¬ (IsUtf8 page.now) → result ≡ Err NotUnderstood }
    ensures long { u32.MAX < length page.now → result ≡ Err NotUnderstood }
{
    let read = tree_of(alloc, page)?;
    let tree = read.into_owned(alloc)?;
    Ok(Box::new(alloc, ParsedPage { tree }).map_err(AllocError::from)?)
}
