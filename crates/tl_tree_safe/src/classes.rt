//! Classes, and the patterns that match them.
ghost use Rattle.std.specs.List.{list_all};
ghost use Rattle.std.specs.Prelude.{IfOk, IfSome, OnOk, length, ◌++◌, ◌<◌, ◌≡◌, ◌∷◌};
ghost use Rattle.tl_safe_fit.specs.Words.{words_of};
ghost use Rattle.tl_tree_safe.specs.Characters.{is_space};
ghost use Rattle.tl_tree_safe.specs.Classes.{are_classes, class_words, is_class_of, is_plain_space, kept_classes, pattern_matches, some_matches};
ghost use Rattle.tl_tree_safe.specs.Inner.Classes.{spaced_word, words_left};

use std::alloc::{AllocError, Global};

/// Whether a byte is white space of ASCII.
pub(crate) fn is_space(byte: u8) -> bool
    ensures { result ≡ is_space byte }
{
    byte == b' ' || byte == b'\t' || byte == b'\n' || byte == 0x0c || byte == b'\r'
}

// Whether a pattern matches a word.
fn pattern_matches(pattern: &[u8], word: &[u8]) -> bool
    ensures { result ≡ pattern_matches pattern.now word.now }
{
    if pattern.ends_with(b"*") {
        word.starts_with(&pattern[..pattern.len() - 1])
    } else {
        word == pattern
    }
}

// Whether one of these patterns matches a word.
fn some_matches(patterns: &[&str], word: &[u8]) -> bool
    ensures { result ≡ some_matches (words_of patterns.now) word.now }
{
    for pattern in patterns {
        if pattern_matches(pattern.as_bytes(), word) {
            return true;
        }
    }
    false
}

// Whether a text is a word that one of these patterns matches.
fn is_class_of(patterns: &[&str], word: &[u8]) -> bool
    ensures { result ≡ is_class_of (words_of patterns.now) word.now }
{
    !word.is_empty() && some_matches(patterns, word)
}

// What stands before the first white space, and what behind it, if there is some.
fn split_at_space(value: &[u8]) -> (&[u8], Option<&[u8]>)
    ensures words { class_words value.now ≡ result.0.now ∷ words_left result.1 }
    ensures shorter { IfSome result.1 (λ more. length more.now < length value.now) }
{
    for (at, byte) in value.iter().enumerate() {
        if is_space(*byte) {
            return (&value[..at], Some(&value[at + 1..]));
        }
    }
    (value, None)
}

// Whether the white space of a value is spaces alone.
fn has_spaces_alone(value: &[u8]) -> bool
    ensures { result ≡ list_all is_plain_space value.now }
{
    for byte in value {
        if is_space(*byte) && *byte != b' ' {
            return false;
        }
    }
    true
}

/// Whether a value is words that patterns match, with one space between.
pub(crate) fn are_classes(patterns: &[&str], value: &[u8]) -> bool
    ensures { result ≡ are_classes (words_of patterns.now) value.now }
{
    let mut rest = Some(value);
    while let Some(all) = rest {
        let (word, more) = split_at_space(all);
        if !is_class_of(patterns, word) {
            return false;
        }
        rest = more;
    }
    has_spaces_alone(value)
}

// Writes a word behind others.
fn write_class(is_first: bool, word: &[u8], out: &mut Vec<u8>) -> Result<(), AllocError>
    ensures { OnOk result (out.new.items ≡ out.old.items ++ spaced_word is_first word.now) }
{
    if !is_first {
        out.push(b' ')?;
    }
    out.extend_from_slice(word)?;
    Ok(())
}

/// The words of a value that patterns match.
pub(crate) fn kept_classes(
    alloc: Global,
    patterns: &[&str],
    value: &[u8],
) -> Result<Vec<u8>, AllocError>
    ensures { IfOk result (λ kept. kept.items ≡ kept_classes (words_of patterns.now) value.now) }
{
    let mut kept = Vec::new(alloc);
    let mut is_first = true;
    let mut rest = Some(value);
    while let Some(all) = rest {
        let (word, more) = split_at_space(all);
        if is_class_of(patterns, word) {
            write_class(is_first, word, &mut kept)?;
            is_first = false;
        }
        rest = more;
    }
    Ok(kept)
}
