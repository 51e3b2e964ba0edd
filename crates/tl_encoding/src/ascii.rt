//! Runs of ASCII, which stands for itself in most encodings.
ghost use Rattle.std.specs.Prelude.{◌≡◌, ◌++◌, ◌+◌, ◌<◌, ◌≤◌, IsTrue, OnOk, drop, length, string_bytes, take};
ghost use Rattle.std.specs.Char.{is_ascii};
ghost use Rattle.std.specs.List.{prefix_len};
ghost use Rattle.std.specs.Str.{IsAscii};
ghost use Rattle.tl_bytes.specs.Search.{lowest_bit};

use std::alloc::AllocError;
use std::simd::prelude::*;

// The place of the lowest bit that is set, or 16 where none is.
#[inline(always)]
fn lowest_bit(mask: u64) -> usize
    ensures { result ≡ lowest_bit mask }
{
    if mask == 0 {
        16
    } else {
        mask.trailing_zeros() as usize
    }
}

// How many of the sixteen bytes from `at` on come before the first that is no ASCII.
#[inline(always)]
fn before_high(bytes: &[u8], at: usize) -> usize
    requires { at + 16 ≤ length bytes.now }
    ensures { result ≡ prefix_len is_ascii (take 16 (drop at bytes.now)) }
{
    let lanes = u8x16::from_slice(&bytes[at..]);
    lowest_bit(lanes.simd_ge(u8x16::splat(0x80)).to_bitmask())
}

// How many bytes in front are ASCII, looked at one by one.
fn ascii_len_near(bytes: &[u8]) -> usize
    ensures run { result ≡ prefix_len is_ascii bytes.now }
    ensures within { result ≤ length bytes.now }
{
    bytes.iter().take_while(|b| **b < 0x80).count()
}

/// How many bytes in front are ASCII.
pub(crate) fn ascii_len(bytes: &[u8]) -> usize
    ensures run { result ≡ prefix_len is_ascii bytes.now }
    ensures within { result ≤ length bytes.now }
{
    let mut at = 0;
    while bytes.len() - at >= 16 {
        let before = before_high(bytes, at);
        if before < 16 {
            return at + before;
        }
        at += 16;
    }
    at + ascii_len_near(&bytes[at..])
}

/// Whether the two bytes in front are ASCII. For a lone one its run's end isn't looked for.
#[inline(always)]
pub(crate) fn begins_ascii_run(bytes: &[u8]) -> bool
    ensures { IsTrue result → 0 < prefix_len is_ascii bytes.now }
{
    match bytes {
        [first, second, ..] => first.is_ascii() && second.is_ascii(),
        _ => false,
    }
}

/// Adds bytes that are ASCII, all at once.
pub(crate) fn push_ascii(text: &mut String, run: &[u8]) -> Result<(), AllocError>
    requires { IsAscii run.now }
    ensures { OnOk result (string_bytes text.new ≡ string_bytes text.old ++ run.now) }
{
    text.push_str(unsafe { std::str::from_utf8_unchecked(run) })
}
