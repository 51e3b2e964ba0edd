//! Tests of values.
ghost use Rattle.std.specs.Prelude.{◌≡◌, ◌≢◌, ◌≤◌, ◌↔◌, ◌⊎◌, ◌∷◌, [], ℕ, IfOk, List, length, true};
ghost use Rattle.std.specs.List.{Contains, slice_split};
ghost use Rattle.std.specs.Str.{byte, str_to_ascii_lowercase};
ghost use Rattle.tl_css.specs.Bytes.{is_white};
ghost use Rattle.tl_tree_select.specs.Meaning.{Passes, folded};
ghost use Rattle.tl_css.specs.declared.selector.Op.TheVariants.{Dashed, Ends, Inside, Starts, Word};

use crate::letters::lowercase;
use bstr::ByteSlice;
use std::alloc::{AllocError, Global};
use tl_css::selector::Op;

fn is_white(byte: u8) -> bool
    ensures { result ≡ is_white byte }
{
    byte == b' ' || byte == b'\t' || byte == b'\n' || byte == b'\r' || byte == 0x0c
}

// Whether a value has this word.
fn has_word(word: &[u8], own: &[u8]) -> bool
    ensures { (result ≡ true) ↔ Contains (slice_split is_white own.now) word.now }
{
    own.split(|byte| is_white(*byte)).any(|part| part == word)
}

// Whether nothing is left, or a dash stands first.
fn ends_or_is_dashed(rest: &[u8]) -> bool
    ensures { (result ≡ true)
        ↔ ((rest.now ≡ []) ⊎ ((more : List ℕ) × (rest.now ≡ byte "-" ∷ more))) }
{
    match rest {
        [] => true,
        [first, ..] => *first == b'-',
    }
}

fn is_dashed(value: &[u8], own: &[u8]) -> bool
    ensures { (result ≡ true) ↔ Passes Dashed value.now own.now }
{
    let Some(rest) = own.strip_prefix(value) else {
        return false;
    };
    ends_or_is_dashed(rest)
}

fn begins(value: &[u8], own: &[u8]) -> bool
    ensures { (result ≡ true) ↔ Passes Starts value.now own.now }
{
    !value.is_empty() && own.starts_with(value)
}

fn ends(value: &[u8], own: &[u8]) -> bool
    ensures { (result ≡ true) ↔ Passes Ends value.now own.now }
{
    !value.is_empty() && own.ends_with(value)
}

fn is_inside(value: &[u8], own: &[u8]) -> bool
    ensures { (result ≡ true) ↔ Passes Inside value.now own.now }
{
    !value.is_empty() && own.contains_str(value)
}

// Whether a value is no longer than a word, and another one: then it has that nowhere.
fn is_another(word: &[u8], own: &[u8]) -> bool
    ensures short { result ≡ true → length own.now ≤ length word.now }
    ensures other { result ≡ true → own.now ≢ word.now }
{
    own.len() <= word.len() && own != word
}

/// Whether a value has this word, and that has a byte.
pub fn is_word(value: &[u8], own: &[u8]) -> bool
    ensures { (result ≡ true) ↔ Passes Word value.now own.now }
{
    if is_another(value, own) {
        return false;
    }
    !value.is_empty() && has_word(value, own)
}

// Whether a value passes an op with another one, in exact case.
fn passes(op: Op, value: &[u8], own: &[u8]) -> bool
    ensures { (result ≡ true) ↔ Passes op value.now own.now }
{
    match op {
        Op::Equals => own == value,
        Op::Word => is_word(value, own),
        Op::Dashed => is_dashed(value, own),
        Op::Starts => begins(value, own),
        Op::Ends => ends(value, own),
        Op::Inside => is_inside(value, own),
    }
}

// The same in any case. What is longer than a value passes nothing with it: so no more is copied
// than twice the value.
fn passes_in_any_case(alloc: Global, op: Op, value: &[u8], own: &[u8]) -> Result<bool, AllocError>
    ensures { IfOk result (λ passes. (passes ≡ true) ↔ Passes op
        (str_to_ascii_lowercase value.now) (str_to_ascii_lowercase own.now)) }
{
    if own.len() < value.len() {
        return Ok(false);
    }
    let own = lowercase(alloc, own)?;
    let value = lowercase(alloc, value)?;
    Ok(passes(op, &value, &own))
}

/// Whether a value passes an op with another one; where `folds`, in any case. Memory is taken only
/// then.
pub fn passes_value(
    alloc: Global,
    op: Op,
    value: &[u8],
    folds: bool,
    own: &[u8],
) -> Result<bool, AllocError>
    ensures { IfOk result (λ passes. (passes ≡ true)
        ↔ Passes op (folded folds value.now) (folded folds own.now)) }
{
    if folds {
        return passes_in_any_case(alloc, op, value, own);
    }
    Ok(passes(op, value, own))
}
