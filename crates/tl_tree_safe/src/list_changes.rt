//! Lists of words that are added to and taken from.
ghost use Rattle.std.specs.Prelude.{IfOk, ◌≡◌};
ghost use Rattle.tl_safe_fit.specs.Words.{words_of};
ghost use Rattle.tl_tree_safe.specs.ListOptions.{behind, changed, changed_as, changed_by, changes_list, text_of, words_with, words_without};

use crate::words::is_among;
use std::alloc::{AllocError, Global};

/// Whether a text changes a list.
pub(crate) fn changes_list(text: &[u8]) -> bool
    ensures { result ≡ changes_list text.now }
{
    match text {
        [] => false,
        [first, ..] => *first == b'+' || *first == b'-',
    }
}

/// These words.
pub(crate) fn copy_words<'c>(alloc: Global, own: &[&'c str]) -> Result<Vec<&'c str>, AllocError>
    ensures { IfOk result (λ found. words_of found.items ≡ words_of own.now) }
{
    let mut found = Vec::new(alloc);
    for word in own {
        found.push(*word)?;
    }
    Ok(found)
}

// These words and this one.
fn words_with<'c>(alloc: Global, own: &[&'c str], word: &'c str) -> Result<Vec<&'c str>, AllocError>
    ensures { IfOk result (λ found. words_of found.items ≡ words_with (words_of own.now) word.now) }
{
    let mut found = copy_words(alloc, own)?;
    if !is_among(own, word.as_bytes()) {
        found.push(word)?;
    }
    Ok(found)
}

// These words without this one.
fn words_without<'c>(alloc: Global, own: &[&'c str], word: &str) -> Result<Vec<&'c str>, AllocError>
    ensures { IfOk result (λ found.
        words_of found.items ≡ words_without (words_of own.now) word.now) }
{
    let mut found = Vec::new(alloc);
    for other in own {
        if other.as_bytes() != word.as_bytes() {
            found.push(*other)?;
        }
    }
    Ok(found)
}

// The word behind a `-` that stands first.
fn behind_minus(change: &str) -> Option<&str>
    ensures { text_of result ≡ behind 45 change.now }
{
    change.strip_prefix('-')
}

// The word behind a `+` that stands first.
fn behind_plus(change: &str) -> Option<&str>
    ensures { text_of result ≡ behind 43 change.now }
{
    change.strip_prefix('+')
}

// These words without the one behind `-`, or with the one behind `+` or alone.
fn changed_as<'c>(
    alloc: Global,
    own: &[&'c str],
    change: &'c str,
    minus: Option<&'c str>,
    plus: Option<&'c str>,
) -> Result<Vec<&'c str>, AllocError>
    ensures { IfOk result (λ found. words_of found.items ≡ changed_as
        (words_of own.now) change.now (text_of minus.entry) (text_of plus.entry)) }
{
    if let Some(word) = minus {
        return words_without(alloc, own, word);
    }
    match plus {
        Some(word) => words_with(alloc, own, word),
        None => words_with(alloc, own, change),
    }
}

// These words, changed by one.
fn changed<'c>(alloc: Global, own: &[&'c str], change: &'c str) -> Result<Vec<&'c str>, AllocError>
    ensures { IfOk result (λ found. words_of found.items ≡ changed (words_of own.now) change.now) }
{
    let (minus, plus) = (behind_minus(change), behind_plus(change));
    let found = changed_as(alloc, own, change, minus, plus)?;
    Ok(found)
}

/// These words, changed by others, one after the other.
pub(crate) fn changed_by<'c>(
    alloc: Global,
    own: &[&'c str],
    changes: &[&'c str],
) -> Result<Vec<&'c str>, AllocError>
    ensures { IfOk result (λ found.
        words_of found.items ≡ changed_by (words_of own.now) (words_of changes.now)) }
{
    let mut found = copy_words(alloc, own)?;
    for change in changes {
        found = changed(alloc, &found, *change)?;
    }
    Ok(found)
}
