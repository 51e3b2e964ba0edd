//! The characters that a text or a value says.
ghost use Rattle.std.specs.Prelude.{◌≡◌, ◌≤◌, ◌++◌, length, IfOk, OnOk};
ghost use Rattle.tl_html_spec.specs.Unescaped.{or_itself, reference, unescaped, unescaped_text, unescaped_value};

use crate::reference::reference_at;
use crate::split::{bytes_after, bytes_before, write_bytes};
use memchr::memchr;
use std::alloc::{AllocError, Global};

// Writes what the reference gives of which these bytes stand after its `&`, or the `&`, and answers
// how many of the bytes it takes.
fn write_reference(in_value: bool, bytes: &[u8], out: &mut Vec<u8>) -> Result<usize, AllocError>
    ensures gives { OnOk result (out.new.items
        ≡ out.old.items ++ (or_itself (reference in_value bytes.now)).gives) }
    ensures takes { IfOk result (λ takes.
        takes ≡ (or_itself (reference in_value bytes.now)).takes) }
    ensures within { IfOk result (λ takes. takes ≤ length bytes.now) }
{
    match reference_at(in_value, bytes) {
        Some(found) => {
            found.gives.write(out)?;
            Ok(found.takes)
        }
        None => {
            out.push(b'&')?;
            Ok(0)
        }
    }
}

fn unescape(alloc: Global, in_value: bool, bytes: &[u8]) -> Result<Vec<u8>, AllocError>
    ensures { IfOk result (λ characters. characters.items ≡ unescaped in_value bytes.now) }
{
    let mut out = Vec::with_capacity(alloc, bytes.len())?;
    let mut rest = bytes;
    while let Some(at) = memchr(b'&', rest) {
        write_bytes(bytes_before(rest, at), &mut out)?;
        let after = bytes_after(rest, at + 1);
        let takes = write_reference(in_value, after, &mut out)?;
        rest = bytes_after(after, takes);
    }
    write_bytes(rest, &mut out)?;
    Ok(out)
}

/// The characters that a text says: its references are read.
pub fn unescape_text(alloc: Global, text: &[u8]) -> Result<Vec<u8>, AllocError>
    ensures { IfOk result (λ characters. characters.items ≡ unescaped_text text.now) }
{
    unescape(alloc, false, text)
}

/// The characters that a value says. In a value a name without its `;` is no reference before `=`,
/// a letter or a digit.
pub fn unescape_value(alloc: Global, value: &[u8]) -> Result<Vec<u8>, AllocError>
    ensures { IfOk result (λ characters. characters.items ≡ unescaped_value value.now) }
{
    unescape(alloc, true, value)
}
