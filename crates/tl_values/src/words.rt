//! Words of a value.
ghost use Rattle.std.specs.Prelude.{IfOk, filter, ◌≡◌};
ghost use Rattle.tl_tree.specs.Below.{words_of};
ghost use Rattle.tl_values.specs.Words.{has_word, is_apart, is_other, spaced, with_word, without_word};

use std::alloc::{AllocError, Global};
use tl_tree::Words;

// Whether a value has this word.
fn has_word(word: &[u8], value: &[u8]) -> bool
    ensures { result ≡ has_word word.now value.now }
{
    for own in Words::of(value) {
        if own == word {
            return true;
        }
    }
    false
}

// Whether a word can follow at once.
fn is_apart(value: &[u8]) -> bool
    ensures { result ≡ is_apart value.now }
{
    match value.last() {
        Some(last) => last.is_ascii_whitespace(),
        None => true,
    }
}

/// A value with a word more, unless it has it.
pub fn with_word(alloc: Global, word: &[u8], value: &[u8]) -> Result<Vec<u8>, AllocError>
    ensures { IfOk result (λ new. new.items ≡ with_word word.now value.now) }
{
    let mut new = value.to_vec(alloc)?;
    if has_word(word, value) {
        return Ok(new);
    }
    if !is_apart(value) {
        new.push(b' ')?;
    }
    new.extend_from_slice(word)?;
    Ok(new)
}

// The words of a value but for one, with a space between them.
fn other_words(alloc: Global, word: &[u8], value: &[u8]) -> Result<Vec<u8>, AllocError>
    ensures { IfOk result (λ new.
        new.items ≡ spaced (filter (is_other word.now) (words_of value.now))) }
{
    let mut new = Vec::new(alloc);
    let mut is_first = true;
    for own in Words::of(value) {
        if own != word {
            if !is_first {
                new.push(b' ')?;
            }
            new.extend_from_slice(own)?;
            is_first = false;
        }
    }
    Ok(new)
}

/// A value without a word.
pub fn without_word(alloc: Global, word: &[u8], value: &[u8]) -> Result<Vec<u8>, AllocError>
    ensures { IfOk result (λ new. new.items ≡ without_word word.now value.now) }
{
    if has_word(word, value) {
        other_words(alloc, word, value)
    } else {
        Ok(value.to_vec(alloc)?)
    }
}
