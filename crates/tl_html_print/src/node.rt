//! Nodes, without what is below them.
ghost use Rattle.std.specs.Prelude.{OnOk, ◌++◌, ◌≡◌};
ghost use Rattle.tl_html_print.specs.Inner.Printed.{opened_at, parent_tag};
ghost use Rattle.tl_html_print.specs.Serialized.{is_literal_in, serialized_comment, serialized_doctype, serialized_text};
ghost use Rattle.tl_tree.specs.TreeView.{rows_in};

use crate::element::{is_literal, write_start_tag};
use crate::escape::write_escaped;
use std::alloc::AllocError;
use tl_tree::{Kind, Tree};

// Whether the texts that stand in the row of a number, or in none, are written as they are.
fn is_literal_in(tree: &Tree<'_>, parent: Option<usize>, is_scripting: bool) -> bool
    ensures { result ≡ is_literal_in is_scripting (parent_tag (rows_in tree.now) parent) }
{
    match parent {
        Some(parent) => is_literal(tree, parent, is_scripting),
        None => false,
    }
}

// Writes what a text says, by the element that it stands in.
fn write_text(
    bytes: &[u8],
    tree: &Tree<'_>,
    parent: Option<usize>,
    is_scripting: bool,
    out: &mut Vec<u8>,
) -> Result<(), AllocError>
    ensures { OnOk result (out.new.items ≡ out.old.items
        ++ serialized_text is_scripting (parent_tag (rows_in tree.now) parent) bytes.now) }
{
    if is_literal_in(tree, parent, is_scripting) {
        return out.extend_from_slice(bytes);
    }
    write_escaped(false, bytes, out)
}

fn write_comment(bytes: &[u8], out: &mut Vec<u8>) -> Result<(), AllocError>
    ensures { OnOk result (out.new.items ≡ out.old.items ++ serialized_comment bytes.now) }
{
    out.extend_from_slice(b"<!--")?;
    out.extend_from_slice(bytes)?;
    out.extend_from_slice(b"-->")
}

fn write_doctype(name: &[u8], out: &mut Vec<u8>) -> Result<(), AllocError>
    ensures { OnOk result (out.new.items ≡ out.old.items ++ serialized_doctype name.now) }
{
    out.extend_from_slice(b"<!DOCTYPE ")?;
    out.extend_from_slice(name)?;
    out.push(b'>')?;
    Ok(())
}

/// Writes what a node has before what is below it.
pub(crate) fn write_node(
    tree: &Tree<'_>,
    number: usize,
    is_scripting: bool,
    out: &mut Vec<u8>,
) -> Result<(), AllocError>
    ensures { OnOk result (out.new.items
        ≡ out.old.items ++ opened_at is_scripting (rows_in tree.now) number) }
{
    match tree.kind(number) {
        Some(Kind::Element) => write_start_tag(tree, number, out),
        Some(Kind::Text) => {
            let bytes = tree.text(number).unwrap_or(b"");
            write_text(bytes, tree, tree.parent(number), is_scripting, out)
        }
        Some(Kind::Comment) => write_comment(tree.text(number).unwrap_or(b""), out),
        Some(Kind::Doctype) => match tree.doctype(number) {
            Some(doctype) => write_doctype(doctype.name, out),
            None => Ok(()),
        },
        Some(Kind::Contents) | None => Ok(()),
    }
}
