//! Values, as what they say at their keys.
ghost use Rattle.std.specs.List.{filter};
ghost use Rattle.std.specs.Prelude.{IfOk, ◌≡◌};
ghost use Rattle.tl_tree_safe.specs.Inner.Staying.{is_low, is_read_so};
ghost use Rattle.tl_tree_safe.specs.Inner.ValueKinds.{kept_value_by, stays_by};
ghost use Rattle.tl_tree_safe.specs.Policies.{listed_words};
ghost use Rattle.tl_tree_safe.specs.Values.{begins_scheme, is_blank, is_in_line, is_scheme_byte, link_read, lowered_where, own_link, reaches_colon, scheme_lowered, trimmed_end, trimmed_start};
ghost use Rattle.tl_tree_safe.specs.declared.value_kind.ValueKind.TheVariants.{Classes, Link, Names};

use crate::classes::{are_classes, kept_classes};
use crate::clean::{clean, clean_owned, is_clean};
use crate::links::has_link_bytes;
use crate::lists::Lists;
use crate::own_names::{all_begin, leads_to_own, own_link, write_prefixed};
use crate::value_kind::ValueKind;
use std::alloc::{AllocError, Global};

// Whether a byte is a control character of ASCII or a space.
fn is_blank(byte: u8) -> bool
    ensures { result ≡ is_blank byte }
{
    byte < 33
}

// Whether a byte is neither a tab nor a part of a line's end.
fn is_in_line(byte: u8) -> bool
    ensures { result ≡ is_in_line byte }
{
    byte != b'\t' && byte != b'\n' && byte != b'\r'
}

// A link from its first byte on that is no blank.
fn trimmed_start(link: &[u8]) -> &[u8]
    ensures { result.now ≡ trimmed_start link.now }
{
    let mut rest = link;
    while let [first, more @ ..] = rest
        && is_blank(*first)
    {
        rest = more;
    }
    rest
}

// A link up to its last byte that is no blank.
fn trimmed_end(link: &[u8]) -> &[u8]
    ensures { result.now ≡ trimmed_end link.now }
{
    let mut rest = link;
    while let [more @ .., last] = rest
        && is_blank(*last)
    {
        rest = more;
    }
    rest
}

// A link without tabs and line ends.
fn in_line(alloc: Global, link: &[u8]) -> Result<Vec<u8>, AllocError>
    ensures { IfOk result (λ kept. kept.items ≡ filter is_in_line link.now) }
{
    let mut kept = Vec::new(alloc);
    for byte in link {
        if is_in_line(*byte) {
            kept.push(*byte)?;
        }
    }
    Ok(kept)
}

// Whether a byte stands in a scheme behind the first one.
fn is_scheme_byte(byte: u8) -> bool
    ensures { result ≡ is_scheme_byte byte }
{
    byte.is_ascii_alphanumeric() || byte == b'+' || byte == b'-' || byte == b'.'
}

// Whether such bytes stand up to a `:`.
fn reaches_colon(link: &[u8]) -> bool
    ensures { result ≡ reaches_colon link.now }
{
    for byte in link {
        if *byte == b':' {
            return true;
        }
        if !is_scheme_byte(*byte) {
            return false;
        }
    }
    false
}

// Whether a scheme stands first in a link.
fn begins_scheme(link: &[u8]) -> bool
    ensures { result ≡ begins_scheme link.now }
{
    match link {
        [] => false,
        [first, rest @ ..] => first.is_ascii_alphabetic() && reaches_colon(rest),
    }
}

// A byte, in lower case where it stands in a scheme.
fn lowered_where(is_scheme: bool, byte: u8) -> u8
    ensures { result ≡ lowered_where is_scheme byte }
{
    if is_scheme {
        byte.to_ascii_lowercase()
    } else {
        byte
    }
}

// A link with its scheme in lower case.
fn scheme_lowered(alloc: Global, link: &[u8]) -> Result<Vec<u8>, AllocError>
    ensures { IfOk result (λ kept. kept.items ≡ scheme_lowered link.now) }
{
    let mut kept = Vec::new(alloc);
    let mut is_scheme = begins_scheme(link);
    for byte in link {
        is_scheme = is_scheme & (*byte != b':');
        kept.push(lowered_where(is_scheme, *byte))?;
    }
    Ok(kept)
}

// A link as it is read.
fn link_read(alloc: Global, value: &[u8]) -> Result<Vec<u8>, AllocError>
    ensures { IfOk result (λ link. link.items ≡ link_read value.now) }
{
    let link = in_line(alloc, trimmed_end(trimmed_start(value)))?;
    scheme_lowered(alloc, &link)
}

// Whether no letter in upper case stands before the first `:` of a link.
fn is_low(link: &[u8]) -> bool
    ensures { result ≡ is_low link.now }
{
    for byte in link {
        if *byte == b':' {
            return true;
        }
        if byte.is_ascii_uppercase() {
            return false;
        }
    }
    true
}

// Whether a link is read as it stands.
fn is_read_so(link: &[u8]) -> bool
    ensures { result ≡ is_read_so link.now }
{
    has_link_bytes(link) && (!begins_scheme(link) || is_low(link))
}

/// Whether all of a value of a kind stays.
pub(crate) fn stays_whole(lists: &Lists<'_>, kind: ValueKind, value: &[u8]) -> bool
    ensures { result ≡ stays_by (listed_words lists.now) kind value.now }
{
    match kind {
        ValueKind::Link => is_read_so(value) && leads_to_own(lists, value),
        ValueKind::Classes => are_classes(lists.classes, value) && is_clean(value),
        ValueKind::Names => all_begin(lists.id_prefix.as_bytes(), value) && is_clean(value),
        ValueKind::Text => is_clean(value),
    }
}

// What a link says, with the name that another place in the page has.
fn said_link(alloc: Global, lists: &Lists<'_>, value: &[u8]) -> Result<Vec<u8>, AllocError>
    ensures { IfOk result (λ own. own.items
        ≡ own_link (listed_words lists.now) (link_read value.now)) }
{
    if is_read_so(value) {
        return own_link(alloc, lists, value);
    }
    let link = link_read(alloc, value)?;
    own_link(alloc, lists, &link)
}

// What stays of a link.
fn kept_link(alloc: Global, lists: &Lists<'_>, value: &[u8]) -> Result<Vec<u8>, AllocError>
    ensures { IfOk result (λ kept. kept.items
        ≡ kept_value_by (listed_words lists.now) Link value.now) }
{
    let own = said_link(alloc, lists, value)?;
    clean_owned(alloc, own)
}

// What stays of classes.
#[tactic(auto, using(crate::proofs::KeptValues::classes_clean))]
fn kept_words(alloc: Global, lists: &Lists<'_>, value: &[u8]) -> Result<Vec<u8>, AllocError>
    ensures { IfOk result (λ kept. kept.items
        ≡ kept_value_by (listed_words lists.now) Classes value.now) }
{
    if is_clean(value) {
        return kept_classes(alloc, lists.classes, value);
    }
    let said = clean(alloc, value)?;
    kept_classes(alloc, lists.classes, &said)
}

// What stays of names.
fn kept_names(alloc: Global, lists: &Lists<'_>, value: &[u8]) -> Result<Vec<u8>, AllocError>
    ensures { IfOk result (λ kept. kept.items
        ≡ kept_value_by (listed_words lists.now) Names value.now) }
{
    let mut own = Vec::new(alloc);
    write_prefixed(lists.id_prefix.as_bytes(), value, &mut own)?;
    clean_owned(alloc, own)
}

/// What stays of a value of a kind.
pub(crate) fn kept_value(
    alloc: Global,
    lists: &Lists<'_>,
    kind: ValueKind,
    value: &[u8],
) -> Result<Vec<u8>, AllocError>
    ensures { IfOk result (λ kept. kept.items
        ≡ kept_value_by (listed_words lists.now) kind value.now) }
{
    match kind {
        ValueKind::Link => kept_link(alloc, lists, value),
        ValueKind::Classes => kept_words(alloc, lists, value),
        ValueKind::Names => kept_names(alloc, lists, value),
        ValueKind::Text => clean(alloc, value),
    }
}
