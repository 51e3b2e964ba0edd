//! Values in columns.
ghost use Rattle.std.specs.List.{list_any};
ghost use Rattle.std.specs.Prelude.{OnOk, [], flat_map, ◌++◌, ◌∷◌, ◌≡◌};
ghost use Rattle.tl_tree_extract.specs.Fields.{comma_value, doubled, first_written, is_escaped, is_quoted, quoted, separator, tab_byte, value_written};

use std::alloc::AllocError;

/// How columns are told apart.
#[derive(Clone, Copy, PartialEq, Eq, Debug)]
pub enum Columns {
    /// By tabs: a tab, a line feed, a carriage return and a `\` in a value are `\t`, `\n`, `\r` and
    /// `\\`.
    Tabs,
    /// By commas: a value with a `"`, a comma or a line end stands in quotes, where a `"` is two.
    Commas,
}

// Whether a byte is written otherwise between tabs.
fn is_escaped(byte: u8) -> bool
    ensures { result ≡ is_escaped byte }
{
    byte == b'\t' || byte == b'\n' || byte == b'\r' || byte == b'\\'
}

// Whether any byte of a value is.
fn has_escaped(value: &[u8]) -> bool
    ensures { result ≡ list_any is_escaped value.now }
{
    for byte in value {
        if is_escaped(*byte) {
            return true;
        }
    }
    false
}

// Writes a byte between tabs.
fn put_tab_byte(byte: u8, out: &mut Vec<u8>) -> Result<(), AllocError>
    ensures { OnOk result (out.new.items ≡ out.old.items ++ tab_byte byte) }
{
    let written = match byte {
        b'\t' => [b'\\', b't'],
        b'\n' => [b'\\', b'n'],
        b'\r' => [b'\\', b'r'],
        b'\\' => [b'\\', b'\\'],
        _ => {
            out.push(byte)?;
            return Ok(());
        }
    };
    out.extend_from_slice(&written)
}

// Writes a value between tabs, byte by byte.
fn put_tab_bytes(value: &[u8], out: &mut Vec<u8>) -> Result<(), AllocError>
    ensures { OnOk result (out.new.items ≡ out.old.items ++ flat_map tab_byte value.now) }
{
    for byte in value {
        put_tab_byte(*byte, out)?;
    }
    Ok(())
}

// Writes a value between tabs.
#[tactic(auto, using(crate::proofs::Escaped::as_it_is))]
fn put_tab_value(value: &[u8], out: &mut Vec<u8>) -> Result<(), AllocError>
    ensures { OnOk result (out.new.items ≡ out.old.items ++ flat_map tab_byte value.now) }
{
    if has_escaped(value) {
        return put_tab_bytes(value, out);
    }
    out.extend_from_slice(value)
}

// Whether a value with this byte stands in quotes between commas.
fn is_quoted(byte: u8) -> bool
    ensures { result ≡ is_quoted byte }
{
    byte == b'"' || byte == b',' || byte == b'\n' || byte == b'\r'
}

// Whether a value stands in quotes.
fn has_quoted(value: &[u8]) -> bool
    ensures { result ≡ list_any is_quoted value.now }
{
    for byte in value {
        if is_quoted(*byte) {
            return true;
        }
    }
    false
}

// Writes a byte in quotes.
fn put_doubled(byte: u8, out: &mut Vec<u8>) -> Result<(), AllocError>
    ensures { OnOk result (out.new.items ≡ out.old.items ++ doubled byte) }
{
    if byte == b'"' {
        return out.extend_from_slice(b"\"\"");
    }
    out.push(byte)?;
    Ok(())
}

// Writes the bytes that stand in quotes.
fn put_doubled_bytes(value: &[u8], out: &mut Vec<u8>) -> Result<(), AllocError>
    ensures { OnOk result (out.new.items ≡ out.old.items ++ flat_map doubled value.now) }
{
    for byte in value {
        put_doubled(*byte, out)?;
    }
    Ok(())
}

// Writes a value between commas.
fn put_comma_value(value: &[u8], out: &mut Vec<u8>) -> Result<(), AllocError>
    ensures { OnOk result (out.new.items ≡ out.old.items ++ comma_value value.now) }
{
    if !has_quoted(value) {
        return out.extend_from_slice(value);
    }
    out.push(b'"')?;
    put_doubled_bytes(value, out)?;
    out.push(b'"')?;
    Ok(())
}

/// Writes a value, quoted or escaped where it has to be.
pub fn put_value(columns: Columns, value: &[u8], out: &mut Vec<u8>) -> Result<(), AllocError>
    ensures { OnOk result (out.new.items ≡ out.old.items ++ value_written columns value.now) }
{
    match columns {
        Columns::Tabs => put_tab_value(value, out),
        Columns::Commas => put_comma_value(value, out),
    }
}

/// Writes the value of a first column, before so many others.
pub(crate) fn put_first_value(
    columns: Columns,
    others: usize,
    value: &[u8],
    out: &mut Vec<u8>,
) -> Result<(), AllocError>
    ensures { OnOk result
        (out.new.items ≡ out.old.items ++ first_written columns others value.now) }
{
    if columns == Columns::Commas && others == 0 && value.is_empty() {
        return out.extend_from_slice(b"\"\"");
    }
    put_value(columns, value, out)
}

/// Writes what stands between two values.
pub fn put_separator(columns: Columns, out: &mut Vec<u8>) -> Result<(), AllocError>
    ensures { OnOk result (out.new.items ≡ out.old.items ++ separator columns ∷ []) }
{
    let byte = match columns {
        Columns::Tabs => b'\t',
        Columns::Commas => b',',
    };
    out.push(byte)?;
    Ok(())
}
