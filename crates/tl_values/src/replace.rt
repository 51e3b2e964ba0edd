//! Texts in the place of others.
ghost use Rattle.std.specs.Prelude.{IfOk, ◌≡◌};
ghost use Rattle.tl_values.specs.Values.{replaced};

use memchr::memmem::find_iter;
use std::alloc::{AllocError, Global};

/// A value with `put` in the place of each occurrence of `sought`, from the left.
pub fn replaced(
    alloc: Global,
    sought: &[u8],
    put: &[u8],
    value: &[u8],
) -> Result<Vec<u8>, AllocError>
    ensures { IfOk result (λ new. new.items ≡ replaced sought.now put.now value.now) }
{
    let mut new = Vec::new(alloc);
    let mut from = 0;
    for place in find_iter(value, sought) {
        new.extend_from_slice(&value[from..place])?;
        new.extend_from_slice(put)?;
        from = place + sought.len();
    }
    new.extend_from_slice(&value[from..])?;
    Ok(new)
}
