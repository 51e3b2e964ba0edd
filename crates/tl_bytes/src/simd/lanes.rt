//! How many of sixteen bytes come before the first of a class, from one load.
ghost use Rattle.std.specs.Prelude.{◌≡◌, ◌==◌, ◌+◌, ◌≤◌, length, take, drop};
ghost use Rattle.std.specs.List.{position_or_len};
ghost use Rattle.tl_bytes.specs.Search.{is_one_of, is_not_ident, is_not_name, lowest_bit};

use std::simd::prelude::*;

// The place of the lowest bit that is set, or 16 where none is.
#[inline(always)]
fn lowest_bit(mask: u64) -> usize
    ensures { result ≡ lowest_bit mask }
{
    if mask == 0 {
        16
    } else {
        mask.trailing_zeros() as usize
    }
}

/// How many of the sixteen bytes from `at` on come before the first `needle`.
#[inline(always)]
pub(super) fn before_byte(haystack: &[u8], at: usize, needle: u8) -> usize
    requires { at + 16 ≤ length haystack.now }
    ensures { result ≡ position_or_len (λ b. b == needle) (take 16 (drop at haystack.now)) }
{
    let lanes = u8x16::from_slice(&haystack[at..]);
    lowest_bit(lanes.simd_eq(u8x16::splat(needle)).to_bitmask())
}

/// How many of the sixteen bytes from `at` on come before the first that is one of the four of
/// `needle`.
#[inline(always)]
pub(super) fn before_any(haystack: &[u8], at: usize, needle: [u8; 4]) -> usize
    requires { at + 16 ≤ length haystack.now }
    ensures { result ≡ position_or_len (is_one_of needle) (take 16 (drop at haystack.now)) }
{
    let lanes = u8x16::from_slice(&haystack[at..]);
    let hits = lanes.simd_eq(u8x16::splat(needle[0]))
        | lanes.simd_eq(u8x16::splat(needle[1]))
        | lanes.simd_eq(u8x16::splat(needle[2]))
        | lanes.simd_eq(u8x16::splat(needle[3]));
    lowest_bit(hits.to_bitmask())
}

/// How many of the sixteen bytes from `at` on come before the first that is no ident byte.
#[inline(always)]
pub(super) fn before_non_ident(haystack: &[u8], at: usize) -> usize
    requires { at + 16 ≤ length haystack.now }
    ensures { result ≡ position_or_len is_not_ident (take 16 (drop at haystack.now)) }
{
    let lanes = u8x16::from_slice(&haystack[at..]);
    // `| 32` makes a letter lower; `/`, the digits and `:` lie side by side.
    let letter = (lanes | u8x16::splat(32)) - u8x16::splat(b'a');
    let digit = lanes - u8x16::splat(b'/');
    let hits = letter.simd_lt(u8x16::splat(26))
        | digit.simd_lt(u8x16::splat(12))
        | lanes.simd_eq(u8x16::splat(b'-'))
        | lanes.simd_eq(u8x16::splat(b'_'))
        | lanes.simd_eq(u8x16::splat(b'+'));
    lowest_bit((!hits).to_bitmask())
}

/// How many of the sixteen bytes from `at` on come before the first that is no byte of a name.
#[inline(always)]
pub(super) fn before_non_name(haystack: &[u8], at: usize) -> usize
    requires { at + 16 ≤ length haystack.now }
    ensures { result ≡ position_or_len is_not_name (take 16 (drop at haystack.now)) }
{
    let lanes = u8x16::from_slice(&haystack[at..]);
    // `| 32` makes a letter lower; the digits and `:` lie side by side.
    let letter = (lanes | u8x16::splat(32)) - u8x16::splat(b'a');
    let digit = lanes - u8x16::splat(b'0');
    let hits = letter.simd_lt(u8x16::splat(26))
        | digit.simd_lt(u8x16::splat(11))
        | lanes.simd_eq(u8x16::splat(b'-'))
        | lanes.simd_eq(u8x16::splat(b'_'))
        | lanes.simd_eq(u8x16::splat(b'+'));
    lowest_bit((!hits).to_bitmask())
}
