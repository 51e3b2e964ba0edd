//! Lines of several pages.
ghost use Rattle.std.specs.Prelude.{◌++◌, ◌≡◌, ◌∷◌, [], IfOk, if◌then◌else◌};
ghost use Rattle.tl_cli.specs.Filename.{is_quoted_behind, named_records, prefixed};
ghost use Rattle.tl_tree_extract.specs.Fields.{separator, value_written};

use std::alloc::{AllocError, Global};
use tl_tree_extract::{Columns, write_separator, write_value};

// What stands before the next byte: the name where it begins a line.
fn line_prefix<'n>(name: &'n str, begins: bool) -> &'n str
    ensures { result.now ≡ (if begins then name.now else []) }
{
    if begins { name } else { "" }
}

/// A text with a name before each of its lines, which end with a byte, the last one too; a text
/// that is empty has no line.
pub fn with_prefix(alloc: Global, name: &str, end: u8, text: &[u8]) -> Result<Vec<u8>, AllocError>
    ensures { IfOk result (λ lines. lines.items ≡ prefixed name.now end text.now) }
{
    let mut lines = Vec::new(alloc);
    let mut begins = true;
    for b in text {
        let byte = *b;
        lines.extend_from_slice(line_prefix(name, begins).as_bytes())?;
        lines.push(byte)?;
        begins = byte == end;
    }
    if !begins {
        lines.push(end)?;
    }
    Ok(lines)
}

// A name as the first value of a record, with what stands behind it.
fn name_value(alloc: Global, columns: Columns, name: &str) -> Result<Vec<u8>, AllocError>
    ensures { IfOk result (λ value. value.items
        ≡ value_written columns name.now ++ separator columns ∷ []) }
{
    let mut value = Vec::new(alloc);
    write_value(columns, name.as_bytes(), &mut value)?;
    write_separator(columns, &mut value)?;
    Ok(value)
}

// What stands before the next byte: the value where that begins a record.
fn record_prefix(value: &[u8], begins: bool) -> &[u8]
    ensures { result.now ≡ (if begins then value.now else []) }
{
    if begins { value } else { &[] }
}

// Whether what follows a byte stands in quotes, where a line feed ends no record.
fn is_quoted_behind(columns: Columns, is_quoted: bool, byte: u8) -> bool
    ensures { result ≡ is_quoted_behind columns is_quoted byte }
{
    match columns {
        Columns::Tabs => false,
        Columns::Commas if byte == b'"' => !is_quoted,
        Columns::Commas => is_quoted,
    }
}

/// Records, each with a name as its first value.
pub fn named_records(
    alloc: Global,
    columns: Columns,
    name: &str,
    records: &[u8],
) -> Result<Vec<u8>, AllocError>
    ensures { IfOk result (λ named. named.items ≡ named_records columns name.now records.now) }
{
    let value = name_value(alloc, columns, name)?;
    let mut named = Vec::new(alloc);
    let mut begins = true;
    let mut is_quoted = false;
    for b in records {
        let byte = *b;
        named.extend_from_slice(record_prefix(&value, begins))?;
        named.push(byte)?;
        is_quoted = is_quoted_behind(columns, is_quoted, byte);
        begins = byte == b'\n' && !is_quoted;
    }
    Ok(named)
}
