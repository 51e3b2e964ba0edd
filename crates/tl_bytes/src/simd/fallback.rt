//! The searches in their plain form, byte by byte.
ghost use Rattle.std.specs.Prelude.{◌≡◌, ◌==◌};
ghost use Rattle.tl_bytes.specs.Search.{first, is_one_of, is_not_ident, is_not_name};

use crate::byte_class::{is_ident, is_name};

/// The first place of `haystack` that holds `needle`.
pub fn find(haystack: &[u8], needle: u8) -> Option<usize>
    ensures { result ≡ first (λ b. b == needle) haystack.now }
{
    haystack.iter().position(|b| *b == needle)
}

/// The first place of `haystack` that holds one of the bytes of `needle`.
pub fn find_multi<const N: usize>(haystack: &[u8], needle: [u8; N]) -> Option<usize>
    ensures { result ≡ first (is_one_of needle.entry) haystack.now }
{
    find_any(haystack, &needle)
}

// `find_multi` of any number of needles: a closure in a function generic in `N` would need clauses
// of its own.
fn find_any(haystack: &[u8], needles: &[u8]) -> Option<usize>
    ensures { result ≡ first (is_one_of needles.now) haystack.now }
{
    haystack.iter().position(|b| needles.contains(b))
}

/// The first place of `haystack` that holds no ident byte.
pub fn search_non_ident(haystack: &[u8]) -> Option<usize>
    ensures { result ≡ first is_not_ident haystack.now }
{
    haystack.iter().position(|b| !is_ident(*b))
}

/// The first place of `haystack` that holds no byte of a name.
pub fn search_non_name(haystack: &[u8]) -> Option<usize>
    ensures { result ≡ first is_not_name haystack.now }
{
    haystack.iter().position(|b| !is_name(*b))
}
