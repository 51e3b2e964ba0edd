//! What is said of nodes in columns: a record for each node.
ghost use Rattle.std.specs.Prelude.{OnOk, [], ◌++◌, ◌≡◌};
ghost use Rattle.tl_tree.specs.TreeView.{rows_in};
ghost use Rattle.tl_tree_extract.specs.Fields.{field_said, first_written, more_columns, record_written, records_written, value_written};
ghost use Rattle.tl_tree_extract.specs.Readable.{one_line, readable_below};

use crate::column::{Columns, put_separator, put_value};
use crate::text::write_one_line;
use std::alloc::{AllocError, Global};
use tl_tree::Tree;

/// What is asked of a node.
#[derive(Clone, Copy)]
pub enum Field<'f> {
    /// The value of the attribute of this key: nothing where there is none.
    Attribute(&'f [u8]),
    /// The readable text of what is below it, on one line.
    Text,
    /// The name of an element.
    Name,
}

/// Room for texts.
#[derive(Drop)]
pub(crate) struct Room {
    pub(crate) text: Vec<u8>,
    pub(crate) line: Vec<u8>,
}

impl Room {
    /// Takes no memory.
    pub(crate) fn new(alloc: Global) -> Room {
        Room {
            text: Vec::new(alloc),
            line: Vec::new(alloc),
        }
    }
}

// Writes the readable text of a node as a value.
fn put_text(
    tree: &Tree<'_>,
    number: usize,
    columns: Columns,
    room: &mut Room,
    out: &mut Vec<u8>,
) -> Result<(), AllocError>
    ensures { OnOk result (out.new.items ≡ out.old.items ++ value_written columns
        (one_line (readable_below [] (rows_in tree.now) number))) }
{
    room.line.clear();
    write_one_line(tree, number, &mut room.text, &mut room.line)?;
    put_value(columns, room.line.as_slice(), out)
}

// Writes what a field says of a node.
fn put_field(
    tree: &Tree<'_>,
    number: usize,
    field: Field<'_>,
    columns: Columns,
    room: &mut Room,
    out: &mut Vec<u8>,
) -> Result<(), AllocError>
    ensures { OnOk result (out.new.items ≡ out.old.items ++ value_written columns
        (field_said (rows_in tree.now) number field.entry)) }
{
    match field {
        Field::Attribute(key) => put_value(columns, tree.value(number, key).unwrap_or(b""), out),
        Field::Name => put_value(columns, tree.name(number).unwrap_or(b""), out),
        Field::Text => put_text(tree, number, columns, room, out),
    }
}

// Writes the first column, before so many others.
fn put_first(
    tree: &Tree<'_>,
    number: usize,
    field: Field<'_>,
    others: usize,
    columns: Columns,
    room: &mut Room,
    out: &mut Vec<u8>,
) -> Result<(), AllocError>
    ensures { OnOk result (out.new.items ≡ out.old.items ++ first_written columns others
        (field_said (rows_in tree.now) number field.entry)) }
{
    let start = out.len();
    put_field(tree, number, field, columns, room, out)?;
    if columns == Columns::Commas && others == 0 && out.len() == start {
        return out.extend_from_slice(b"\"\"");
    }
    Ok(())
}

// Writes the columns behind the first one.
fn put_more(
    tree: &Tree<'_>,
    number: usize,
    fields: &[Field<'_>],
    columns: Columns,
    room: &mut Room,
    out: &mut Vec<u8>,
) -> Result<(), AllocError>
    ensures { OnOk result (out.new.items ≡ out.old.items
        ++ more_columns columns (rows_in tree.now) number fields.now) }
{
    for field in fields {
        put_separator(columns, out)?;
        put_field(tree, number, *field, columns, room, out)?;
    }
    Ok(())
}

// Writes the record of a node.
fn put_record(
    tree: &Tree<'_>,
    number: usize,
    fields: &[Field<'_>],
    columns: Columns,
    room: &mut Room,
    out: &mut Vec<u8>,
) -> Result<(), AllocError>
    ensures { OnOk result (out.new.items ≡ out.old.items
        ++ record_written columns (rows_in tree.now) fields.now number) }
{
    if let [first, more @ ..] = fields {
        put_first(tree, number, *first, more.len(), columns, room, out)?;
        put_more(tree, number, more, columns, room, out)?;
    }
    out.push(b'\n')?;
    Ok(())
}

/// Writes a record for each of these nodes, as those that a selector found: what the fields say of
/// it, in their order, and a line feed.
pub fn write_fields(
    alloc: Global,
    tree: &Tree<'_>,
    numbers: &[usize],
    fields: &[Field<'_>],
    columns: Columns,
    out: &mut Vec<u8>,
) -> Result<(), AllocError>
    ensures { OnOk result (out.new.items ≡ out.old.items
        ++ records_written columns (rows_in tree.now) fields.now numbers.now) }
{
    let mut room = Room::new(alloc);
    for number in numbers {
        put_record(tree, *number, fields, columns, &mut room, out)?;
    }
    Ok(())
}
