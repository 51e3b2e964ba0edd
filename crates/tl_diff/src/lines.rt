//! The lines of a text.
ghost use Rattle.std.specs.List.{concat};
ghost use Rattle.std.specs.Prelude.{IfOk, length, ◌<◌, ◌≡◌, ◌≤◌};
ghost use Rattle.tl_diff.specs.Scripts.{lines_said};

use std::alloc::{AllocError, Global};

// How many bytes the first line has, with the line feed that ends it.
fn line_len(text: &[u8]) -> usize
    ensures within { result ≤ length text.now }
    ensures filled { 0 < length text.now → 0 < result }
{
    for (at, byte) in text.iter().enumerate() {
        if *byte == b'\n' {
            return at + 1;
        }
    }
    text.len()
}

/// The lines of a text, each with the line feed that ends it.
pub fn lines_of<'t>(alloc: Global, text: &'t [u8]) -> Result<Vec<&'t [u8]>, AllocError>
    ensures { IfOk result (λ lines. concat (lines_said lines.items) ≡ text.now) }
{
    let mut lines = Vec::new(alloc);
    let mut rest = text;
    while !rest.is_empty() {
        let (line, more) = rest.split_at(line_len(rest));
        lines.push(line)?;
        rest = more;
    }
    Ok(lines)
}
