//! Bytes compared, and compared in lower case.
ghost use Rattle.std.specs.Char.{to_ascii_lowercase};
ghost use Rattle.std.specs.List.{starts_with};
ghost use Rattle.std.specs.Prelude.{IfOk, map, ◌==◌, ◌≡◌};
ghost use Rattle.std.specs.Str.{bytes_eq};

use std::alloc::{AllocError, Global};

/// Bytes in lower case.
pub(crate) fn lowercase(alloc: Global, bytes: &[u8]) -> Result<Vec<u8>, AllocError>
    ensures { IfOk result (λ lower. lower.items ≡ map to_ascii_lowercase bytes.now) }
{
    let mut lower = Vec::from_slice(alloc, bytes)?;
    lower.make_ascii_lowercase();
    Ok(lower)
}

/// Whether bytes are the same as others, which are few: they are looked at one by one.
#[inline(always)]
pub(crate) fn are_same(bytes: &[u8], other: &[u8]) -> bool
    ensures { result ≡ bytes_eq bytes.now other.now }
{
    if bytes.len() != other.len() {
        return false;
    }
    for at in 0..bytes.len() {
        if bytes[at] != other[at] {
            return false;
        }
    }
    true
}

/// Whether bytes are others when they are written in lower case.
pub(crate) fn is_lowered(bytes: &[u8], lower: &[u8]) -> bool
    ensures { result ≡ bytes_eq (map to_ascii_lowercase bytes.now) lower.now }
{
    if bytes.len() != lower.len() {
        return false;
    }
    for at in 0..bytes.len() {
        if bytes[at].to_ascii_lowercase() != lower[at] {
            return false;
        }
    }
    true
}

/// Whether bytes begin with others when they are written in lower case.
pub(crate) fn begins_lowered(bytes: &[u8], lower: &[u8]) -> bool
    ensures { result ≡ starts_with ◌==◌ (map to_ascii_lowercase bytes.now) lower.now }
{
    bytes.len() >= lower.len() && is_lowered(&bytes[..lower.len()], lower)
}
