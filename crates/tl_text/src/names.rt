//! The names of references.
ghost use Rattle.std.specs.Prelude.{◌≡◌, ◌≤◌, ◌==◌, Some, true, length, IfSome, option_map};
ghost use Rattle.std.specs.List.{common_prefix_len, take_while};
ghost use Rattle.tl_html_spec.specs.References.{ends_with_semicolon, first_row, named, not_equals, rows};
ghost use Rattle.tl_text.specs.Inner.Order.{are_in_order, is_past};
ghost use Rattle.tl_text.specs.Inner.View.{row_view};

use crate::split::{bytes_after, split_at_byte};
use tl_names::table_of;

// Within so many bytes of a table its rows are looked at one by one.
const NEAR: usize = 64;

// A name, and its characters.
#[derive(Clone, Copy)]
pub(crate) struct Row {
    pub(crate) name: &'static [u8],
    pub(crate) characters: &'static [u8],
}

// The rows of the commonest names, which are those of the tables.
fn common_row(bytes: &[u8]) -> Option<Row>
    ensures row { IfSome result (λ row. named bytes.now ≡ Some (row_view row)) }
    ensures within { IfSome result (λ row. length row.name.now ≤ length bytes.now) }
{
    if bytes.starts_with(b"amp;") {
        return Some(Row {
            name: b"amp;",
            characters: b"&",
        });
    }
    if bytes.starts_with(b"lt;") {
        return Some(Row {
            name: b"lt;",
            characters: b"<",
        });
    }
    if bytes.starts_with(b"gt;") {
        return Some(Row {
            name: b"gt;",
            characters: b">",
        });
    }
    if bytes.starts_with(b"quot;") {
        return Some(Row {
            name: b"quot;",
            characters: b"\"",
        });
    }
    if bytes.starts_with(b"nbsp;") {
        return Some(Row {
            name: b"nbsp;",
            characters: b"\xC2\xA0",
        });
    }
    None
}

// How many bytes a name and these have in common in front.
fn shared_len(name: &[u8], bytes: &[u8]) -> usize
    ensures { result ≡ common_prefix_len ◌==◌ name.now bytes.now }
{
    let mut at = 0;
    while at < name.len() && at < bytes.len() && name[at] == bytes[at] {
        at += 1;
    }
    at
}

// Whether a name stands behind these bytes in the order of words, where so many are in common.
fn is_past(name: &[u8], bytes: &[u8], shared: usize) -> bool
    requires { shared ≡ common_prefix_len ◌==◌ name.now bytes.now }
    ensures { result ≡ is_past name.now bytes.now }
{
    shared < name.len() && (shared == bytes.len() || name[shared] > bytes[shared])
}

// Whether the first name of a table does.
fn begins_past(table: &[u8], bytes: &[u8]) -> bool
    ensures { result ≡ is_past (take_while not_equals table.now) bytes.now }
{
    let (name, _) = split_at_byte(table, b'=');
    is_past(name, bytes, shared_len(name, bytes))
}

// A table from a row near the first whose name isn't past these bytes. It is searched by halves:
// the rows before one whose name is past the bytes are past them too, so none of them fits.
fn rows_near(table: &'static [u8], bytes: &[u8]) -> &'static [u8]
    requires { are_in_order (rows table.now) ≡ true }
    ensures row { first_row (rows result.now) bytes.now ≡ first_row (rows table.now) bytes.now }
    ensures order { are_in_order (rows result.now) ≡ true }
    ensures within { length result.now ≤ length table.now }
{
    let mut left = table;
    let mut width = table.len();
    while width > NEAR {
        let half = width / 2;
        let (_, later) = split_at_byte(bytes_after(left, half), 0);
        if begins_past(later, bytes) {
            width = width.saturating_sub(left.len() - later.len());
            left = later;
        } else {
            width = half;
        }
    }
    left
}

// The first row of a table whose name these bytes begin with.
fn first_row(table: &'static [u8], bytes: &[u8]) -> Option<Row>
    requires { are_in_order (rows table.now) ≡ true }
    ensures row { first_row (rows table.now) bytes.now ≡ option_map row_view result }
    ensures within { IfSome result (λ row. length row.name.now ≤ length bytes.now) }
{
    let mut fits = bytes;
    let mut left = rows_near(table, fits);
    while !left.is_empty() {
        let (name, after) = split_at_byte(left, b'=');
        let (characters, later) = split_at_byte(after, 0);
        let shared = shared_len(name, fits);
        if shared == name.len() {
            return Some(Row { name, characters });
        }
        if is_past(name, fits, shared) {
            left = later;
        } else {
            fits = &fits[..shared];
            left = rows_near(later, fits);
        }
    }
    None
}

// The row of the longest name that these bytes begin with.
pub(crate) fn longest_name(bytes: &[u8]) -> Option<Row>
    ensures row { named bytes.now ≡ option_map row_view result }
    ensures within { IfSome result (λ row. length row.name.now ≤ length bytes.now) }
{
    if bytes.is_empty() {
        return None;
    }
    match common_row(bytes) {
        Some(row) => Some(row),
        None => first_row(table_of(bytes[0]), bytes),
    }
}

#[tactic(auto, using(crate::proofs::Rows::last_is))]
pub(crate) fn ends_with_semicolon(name: &[u8]) -> bool
    ensures { result ≡ ends_with_semicolon name.now }
{
    if name.is_empty() {
        return false;
    }
    name[name.len() - 1] == b';'
}
