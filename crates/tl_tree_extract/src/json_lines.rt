//! Nodes as JSON, each on a line.
ghost use Rattle.std.specs.Option.{option_copied};
ghost use Rattle.std.specs.Prelude.{OnOk, ◌++◌, ◌≡◌};
ghost use Rattle.tl_tree.specs.Sources.{source_at};
ghost use Rattle.tl_tree.specs.TreeView.{rows_in};
ghost use Rattle.tl_tree_extract.specs.Json.{json_line, json_lines};

use crate::json_array::put_object;
use crate::json_form::JsonForm;
use crate::json_text::Text;
use std::alloc::{AllocError, Global};
use std::mem;
use tl_tree::Tree;

// Writes the line of a node.
fn put_line(
    alloc: Global,
    tree: &Tree<'_>,
    form: JsonForm,
    file: Option<&str>,
    number: usize,
    room: &mut Vec<u8>,
    out: &mut Vec<u8>,
) -> Result<(), AllocError>
    ensures { OnOk result (out.new.items ≡ out.old.items ++ json_line form
        (option_copied file.entry) (source_at tree.now) (rows_in tree.now) number) }
{
    let mut text = Text::new(alloc, mem::replace(out, Vec::new(alloc)));
    put_object(alloc, tree, form, file, number, room, &mut text)?;
    *out = text.into_inner();
    out.push(b'\n')?;
    Ok(())
}

/// Writes a line for each of these nodes: an object of JSON, which has `file` first where a file is
/// given. Where memory runs out, what the vector had may be gone.
pub fn write_json_lines(
    alloc: Global,
    tree: &Tree<'_>,
    numbers: &[usize],
    form: JsonForm,
    file: Option<&str>,
    out: &mut Vec<u8>,
) -> Result<(), AllocError>
    ensures { OnOk result (out.new.items ≡ out.old.items ++ json_lines form
        (option_copied file.entry) (source_at tree.now) (rows_in tree.now) numbers.now) }
{
    let mut room = Vec::new(alloc);
    for number in numbers {
        put_line(alloc, tree, form, file, *number, &mut room, out)?;
    }
    Ok(())
}
