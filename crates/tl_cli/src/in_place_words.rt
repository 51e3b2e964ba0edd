//! The words by which `sed` says that files are changed.

use std::alloc::{AllocError, Global};

// Whether what stands behind `-i` is the suffix of a backup, and no other option.
fn is_suffix(text: &str) -> bool {
    match text.as_bytes().first() {
        Some(first) => !first.is_ascii_alphanumeric() && *first != b'=',
        None => false,
    }
}

// A word as it is read: `-i.bak` is `--backup=.bak`.
fn word_read(alloc: Global, word: String) -> Result<String, AllocError> {
    let Some(suffix) = word.as_str().strip_prefix("-i") else {
        return Ok(word);
    };
    if !is_suffix(suffix) {
        return Ok(word);
    }
    format!(in alloc; "--backup={suffix}")
}

/// Words as they are read, up to `--`; those behind it are no options.
pub fn words_read(alloc: Global, words: Vec<String>) -> Result<Vec<String>, AllocError> {
    let mut read = Vec::with_capacity(alloc, words.len())?;
    let mut has_options = true;
    for word in words {
        has_options = has_options && word.as_str() != "--";
        let word = if has_options {
            word_read(alloc, word)?
        } else {
            word
        };
        read.push(word).map_err(AllocError::from)?;
    }
    Ok(read)
}
