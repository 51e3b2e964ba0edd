//! Names that others refer to, with the policy's prefix in front.
ghost use Rattle.std.specs.Prelude.{IfOk, OnOk, false, ◌++◌, ◌≡◌};
ghost use Rattle.tl_tree_safe.specs.Inner.ValueKinds.{lacks_front};
ghost use Rattle.tl_tree_safe.specs.Lists.{all_begin, has_front, leads_to_own};
ghost use Rattle.tl_tree_safe.specs.Policies.{listed_words};
ghost use Rattle.tl_tree_safe.specs.Values.{front_of, own_link, prefixed, says_names};

use crate::classes::is_space;
use crate::lists::Lists;
use crate::names::{is_naming_key, is_referring_key};
use std::alloc::{AllocError, Global};

/// Whether names stand at a key.
pub(crate) fn says_names(key: &[u8]) -> bool
    ensures { result ≡ says_names key.now }
{
    is_naming_key(key) || is_referring_key(key)
}

// Whether a text begins within a word, or with white space, or with a prefix.
fn has_front(prefix: &[u8], in_word: bool, text: &[u8]) -> bool
    ensures { result ≡ has_front prefix.now in_word text.now }
{
    match text {
        [] => true,
        [byte, ..] => in_word || is_space(*byte) || text.starts_with(prefix),
    }
}

/// Whether each word of a text begins with a prefix.
pub(crate) fn all_begin(prefix: &[u8], text: &[u8]) -> bool
    ensures { result ≡ all_begin prefix.now false text.now }
{
    let mut rest = text;
    let mut in_word = false;
    while let [byte, more @ ..] = rest {
        if !has_front(prefix, in_word, rest) {
            return false;
        }
        in_word = !is_space(*byte);
        rest = more;
    }
    true
}

/// Whether a link to another place in the page leads to a name with the policy's prefix.
pub(crate) fn leads_to_own(lists: &Lists<'_>, link: &[u8]) -> bool
    ensures { result ≡ leads_to_own (listed_words lists.now) link.now }
{
    match link {
        [] => true,
        [first, name @ ..] => { *first != b'#' || all_begin(lists.id_prefix.as_bytes(), name) }
    }
}

// What is put in front of a text, where a word begins.
fn front_of<'p>(prefix: &'p [u8], in_word: bool, text: &[u8]) -> &'p [u8]
    ensures { result.now ≡ front_of prefix.now in_word text.now }
{
    if has_front(prefix, in_word, text) {
        b"".as_slice()
    } else {
        prefix
    }
}

// Whether a text is one word, and a prefix isn't at its front.
fn lacks_front(prefix: &[u8], text: &[u8]) -> bool
    ensures { result ≡ lacks_front prefix.now text.now }
{
    if has_front(prefix, false, text) {
        return false;
    }
    for byte in text {
        if is_space(*byte) {
            return false;
        }
    }
    true
}

// Writes a text word by word, with a prefix in front of each word that hasn't it.
fn write_words(prefix: &[u8], text: &[u8], out: &mut Vec<u8>) -> Result<(), AllocError>
    ensures { OnOk result (out.new.items ≡ out.old.items ++ prefixed prefix.now false text.now) }
{
    let mut rest = text;
    let mut in_word = false;
    while let [byte, more @ ..] = rest {
        out.extend_from_slice(front_of(prefix, in_word, rest))?;
        out.push(*byte)?;
        in_word = !is_space(*byte);
        rest = more;
    }
    Ok(())
}

/// Writes a text with a prefix in front of each word that hasn't it.
pub(crate) fn write_prefixed(
    prefix: &[u8],
    text: &[u8],
    out: &mut Vec<u8>,
) -> Result<(), AllocError>
    ensures { OnOk result (out.new.items ≡ out.old.items ++ prefixed prefix.now false text.now) }
{
    if !lacks_front(prefix, text) {
        return write_words(prefix, text, out);
    }
    out.extend_from_slice(prefix)?;
    out.extend_from_slice(text)?;
    Ok(())
}

/// A link that follows the name that another place in the page has.
pub(crate) fn own_link(alloc: Global, lists: &Lists<'_>, link: &[u8]) -> Result<Vec<u8>, AllocError>
    ensures { IfOk result (λ own. own.items ≡ own_link (listed_words lists.now) link.now) }
{
    let mut own = Vec::new(alloc);
    match link {
        [] => Ok(own),
        [first, name @ ..] => {
            own.push(*first)?;
            if *first == b'#' {
                write_prefixed(lists.id_prefix.as_bytes(), name, &mut own)?;
                return Ok(own);
            }
            own.extend_from_slice(name)?;
            Ok(own)
        }
    }
}
