//! The standard's rules for parsing non-negative integers.
ghost use Rattle.std.specs.Prelude.{◌≡◌, min};
ghost use Rattle.std.specs.Option.{option_map};
ghost use Rattle.tl_tree_extract.specs.Numbers.{digits_after, digits_first, non_negative, signed};

use crate::run::{Run, behind};

/// The greatest number that is told from greater ones.
const MOST: u32 = 65535;

// The number of the digits that stand first.
fn digits(bytes: &[u8]) -> u32
    ensures { result ≡ min MOST (digits_after 0 bytes.now) }
{
    let mut value: u32 = 0;
    for byte in bytes {
        if !byte.is_ascii_digit() {
            return value;
        }
        value = MOST.min(value * 10 + u32::from(*byte - b'0'));
    }
    value
}

fn digits_first(bytes: &[u8]) -> Option<u32>
    ensures { result ≡ option_map (min MOST) (digits_first bytes.now) }
{
    match bytes {
        [first, ..] if first.is_ascii_digit() => Some(digits(bytes)),
        _ => None,
    }
}

// Behind a sign, if there is one.
fn signed(bytes: &[u8]) -> Option<u32>
    ensures { result ≡ option_map (min MOST) (signed bytes.now) }
{
    match bytes {
        [b'-', rest @ ..] => match digits_first(rest) {
            Some(0) => Some(0),
            _ => None,
        },
        [b'+', rest @ ..] => digits_first(rest),
        _ => digits_first(bytes),
    }
}

/// The number that bytes say, or 65535 for a greater one.
pub fn non_negative(bytes: &[u8]) -> Option<u32>
    ensures { result ≡ option_map (min MOST) (non_negative bytes.now) }
{
    signed(behind(Run::White, bytes))
}
