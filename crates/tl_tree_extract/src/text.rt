//! The readable text of a page.
ghost use Rattle.std.specs.Prelude.{OnOk, [], ◌++◌, ◌≡◌};
ghost use Rattle.tl_tree.specs.TreeView.{rows_in};
ghost use Rattle.tl_tree_extract.specs.Readable.{one_line, readable_below, readable_rows};

mod display;
mod examples;
mod flow;
pub(crate) mod rows;

pub use crate::text::display::{Display, box_of};
use crate::text::flow::Flow;
pub(crate) use crate::text::flow::{is_smooth, line_len};
use crate::text::rows::{is_kept, write_rows};
use std::alloc::AllocError;
use tl_tree::Tree;

/// Writes the readable text of what is below a node, but for nodes with a mark and what is below
/// those: nothing where there is no such node.
///
/// The text of a node with no box, as a `title`, is what it would be if it had one.
pub fn write_readable_text(
    tree: &Tree<'_>,
    number: usize,
    left_out: &[bool],
    out: &mut Vec<u8>,
) -> Result<(), AllocError>
    ensures { OnOk result (out.new.items
        ≡ out.old.items ++ readable_below left_out.now (rows_in tree.now) number) }
{
    let Some(end) = tree.end(number) else {
        return Ok(());
    };
    let kept = if is_kept(tree, number) { end } else { 0 };
    write_rows(tree, left_out, number + 1, end, kept, out)
}

/// Writes the readable text of all of a tree, but for nodes with a mark and what is below those.
pub fn write_readable_document(
    tree: &Tree<'_>,
    left_out: &[bool],
    out: &mut Vec<u8>,
) -> Result<(), AllocError>
    ensures { OnOk result (out.new.items
        ≡ out.old.items ++ readable_rows left_out.now (rows_in tree.now)) }
{
    write_rows(tree, left_out, 0, tree.len(), 0, out)
}

/// Writes a text on one line: its words, with a space between two.
pub(crate) fn write_words(text: &[u8], out: &mut Vec<u8>) -> Result<(), AllocError>
    ensures { OnOk result (out.new.items ≡ out.old.items ++ one_line text.now) }
{
    Flow::new().put_text(false, text, out)?;
    Ok(())
}

/// Writes the readable text of what is below a node on one line: its words, with a space between
/// two. The vector is room.
pub(crate) fn write_one_line(
    tree: &Tree<'_>,
    number: usize,
    room: &mut Vec<u8>,
    out: &mut Vec<u8>,
) -> Result<(), AllocError>
    ensures { OnOk result (out.new.items
        ≡ out.old.items ++ one_line (readable_below [] (rows_in tree.now) number)) }
{
    room.clear();
    write_readable_text(tree, number, &[], room)?;
    write_words(room.as_slice(), out)
}
