//! The URL that a `meta` refreshes to.
ghost use Rattle.std.specs.Prelude.{◌≡◌};
ghost use Rattle.std.specs.Option.{option_copied, option_map};
ghost use Rattle.tl_tree_extract.specs.Candidates.{item_said};
ghost use Rattle.tl_tree_extract.specs.Refresh.{before, begins_with_time, behind_assignment, behind_byte, behind_mark, in_quotes, is_mark, is_quote, next_refresh, separated, target};

use crate::candidates::Item;
use crate::run::{Run, behind};

fn is_quote(byte: u8) -> bool
    ensures { result ≡ is_quote byte }
{
    byte == b'"' || byte == b'\''
}

// The bytes before a byte, or all of them.
fn before(byte: u8, bytes: &[u8]) -> &[u8]
    ensures { result.now ≡ before byte bytes.now }
{
    for (index, own) in bytes.iter().enumerate() {
        if *own == byte {
            return &bytes[..index];
        }
    }
    bytes
}

// A URL in quotes, or all that is left.
fn in_quotes(rest: &[u8]) -> Item<'_>
    ensures { item_said result ≡ in_quotes rest.now }
{
    match rest {
        [quote, more @ ..] if is_quote(*quote) => Item {
            rest: more,
            url: before(*quote, more),
            next: &[],
        },
        _ => Item {
            rest,
            url: rest,
            next: &[],
        },
    }
}

// What stands behind a byte, in any case.
fn behind_byte(byte: u8, bytes: &[u8]) -> Option<&[u8]>
    ensures { option_copied result ≡ behind_byte byte bytes.now }
{
    match bytes {
        [first, more @ ..] if first.eq_ignore_ascii_case(&byte) => Some(more),
        _ => None,
    }
}

// What stands behind `rl =`.
fn behind_assignment(bytes: &[u8]) -> Option<&[u8]>
    ensures { option_copied result ≡ behind_assignment bytes.now }
{
    let at = behind_byte(b'r', bytes)?;
    let at = behind_byte(b'l', at)?;
    behind_byte(b'=', behind(Run::White, at))
}

// A URL, where anything is left.
fn target(bytes: &[u8]) -> Option<Item<'_>>
    ensures { option_map item_said result ≡ target bytes.now }
{
    if bytes.is_empty() {
        return None;
    }
    let Some(at) = behind_byte(b'u', bytes) else {
        return Some(in_quotes(bytes));
    };
    match behind_assignment(at) {
        Some(at) => Some(in_quotes(behind(Run::White, at))),
        None => Some(Item {
            rest: bytes,
            url: bytes,
            next: &[],
        }),
    }
}

fn is_mark(byte: u8) -> bool
    ensures { result ≡ is_mark byte }
{
    byte == b';' || byte == b','
}

fn behind_mark(bytes: &[u8]) -> &[u8]
    ensures { result.now ≡ behind_mark bytes.now }
{
    match bytes {
        [first, more @ ..] if is_mark(*first) => more,
        _ => bytes,
    }
}

// The URL behind a time.
fn separated(bytes: &[u8]) -> Option<Item<'_>>
    ensures { option_map item_said result ≡ separated bytes.now }
{
    match bytes {
        [first, ..] if is_mark(*first) || first.is_ascii_whitespace() => {
            target(behind(Run::White, behind_mark(behind(Run::White, bytes))))
        }
        _ => None,
    }
}

// Whether digits were passed over, or a full stop stands first.
fn begins_with_time(bytes: &[u8], rest: &[u8]) -> bool
    ensures { result ≡ begins_with_time bytes.now rest.now }
{
    match rest {
        [b'.', ..] => true,
        _ => rest.len() != bytes.len(),
    }
}

/// The URL in the `content` of a `meta` that refreshes.
pub fn next_refresh(value: &[u8]) -> Option<Item<'_>>
    ensures { option_map item_said result ≡ next_refresh value.now }
{
    let bytes = behind(Run::White, value);
    let rest = behind(Run::Digit, bytes);
    if !begins_with_time(bytes, rest) {
        return None;
    }
    separated(behind(Run::Decimal, rest))
}
