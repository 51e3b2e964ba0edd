//! Letters of ASCII in either case.
ghost use Rattle.std.specs.Prelude.{◌≡◌, ◌↔◌, IfOk, true};
ghost use Rattle.std.specs.Str.{str_to_ascii_lowercase};

use std::alloc::{AllocError, Global};

/// The bytes, in lower case.
pub fn lowercase(alloc: Global, bytes: &[u8]) -> Result<Vec<u8>, AllocError>
    ensures { IfOk result (λ lower. lower.items ≡ str_to_ascii_lowercase bytes.now) }
{
    let mut lower = Vec::from_slice(alloc, bytes)?;
    lower.make_ascii_lowercase();
    Ok(lower)
}

/// Whether bytes are these ones in lower case.
pub fn is_lowercase(lower: &[u8], bytes: &[u8]) -> bool
    ensures { (result ≡ true) ↔ (str_to_ascii_lowercase bytes.now ≡ lower.now) }
{
    if bytes.len() != lower.len() {
        return false;
    }
    for place in 0..bytes.len() {
        if bytes[place].to_ascii_lowercase() != lower[place] {
            return false;
        }
    }
    true
}
