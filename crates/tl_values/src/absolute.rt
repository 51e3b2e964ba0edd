//! URLs of values made absolute.
ghost use Rattle.std.specs.Option.{option_and_then, option_copied, option_map};
ghost use Rattle.std.specs.Prelude.{IfOk, OnOk, drop, map, min, slice_range, ◌+◌, ◌++◌, ◌≡◌};
ghost use Rattle.tl_tree.specs.Asked.{attribute_said};
ghost use Rattle.tl_tree.specs.TreeView.{rows_in};
ghost use Rattle.tl_tree_extract.specs.Links.{link_said};
ghost use Rattle.tl_values.specs.Absolute.{absolute, absolute_from, absolute_value, base_href, leads_alone, page_base, short_href};
ghost use Rattle.tl_values.specs.Inner.Absolute.{part_of};
ghost use Rattle.tl_values.specs.NewValues.{absolute_got, each_got, got, items_of};

use crate::key::attribute_at;
use crate::new_value::{NewValue, unless_stands};
use std::alloc::{AllocError, Global};
use tl_tree::{Attribute, Tree};
use tl_tree_extract::{Link, attribute_links, base, document_base, resolved};
use url::{ParseError, ParseResult, Url};

// A longer URL is no base: each link may come to be as long.
const LONGEST_BASE: usize = 4096;

// What the first `base` of a page says that has an `href`.
fn base_href<'t>(tree: &'t Tree<'_>) -> Option<&'t [u8]>
    ensures { option_copied result ≡ base_href (rows_in tree.now) }
{
    match base(tree) {
        Some(number) => tree.value(number, b"href"),
        None => None,
    }
}

// It, if it isn't too long.
#[tactic(auto, using(crate::proofs::Shorts::short_by, crate::proofs::Shorts::long_by))]
fn unless_long(href: Option<&[u8]>) -> Option<&[u8]>
    ensures { option_copied result ≡ option_and_then short_href (option_copied href.entry) }
{
    match href {
        Some(href) if href.len() <= LONGEST_BASE => Some(href),
        _ => None,
    }
}

/// The base URL of a page of this URL, by its first `base` that has an `href`, if that has 4096
/// bytes at most.
pub fn page_base(alloc: Global, own: &Url, tree: &Tree<'_>) -> ParseResult<Url>
    ensures { IfOk result (λ url. url ≡ page_base own.now (rows_in tree.now)) }
{
    document_base(alloc, own, unless_long(base_href(tree)))
}

// Whether a link leads to a URL without a base too.
fn leads_alone(alloc: Global, link: &[u8], url: &Url) -> ParseResult<bool>
    ensures { IfOk result (λ leads. leads ≡ leads_alone link.now url.now) }
{
    let link = String::from_utf8_lossy(alloc, link)?;
    match Url::parse(alloc, link.as_str()) {
        Ok(own) => Ok(own.as_str() == url.as_str()),
        Err(ParseError::OutOfMemory) => Err(ParseError::OutOfMemory),
        Err(ParseError::Overflow) => Err(ParseError::Overflow),
        Err(_) => Ok(false),
    }
}

// Writes a link as a URL that needs no base.
fn write_absolute(alloc: Global, base: &Url, link: &[u8], out: &mut Vec<u8>) -> ParseResult<()>
    ensures { OnOk result (out.new.items ≡ out.old.items ++ absolute base.now link.now) }
{
    let Some(url) = resolved(alloc, base, link)? else {
        out.extend_from_slice(link)?;
        return Ok(());
    };
    if leads_alone(alloc, link, &url)? {
        out.extend_from_slice(link)?;
    } else {
        out.extend_from_slice(url.as_str().as_bytes())?;
    }
    Ok(())
}

// What stands behind a place of a value.
fn behind(value: &[u8], from: usize) -> &[u8]
    ensures { result.now ≡ drop from value.now }
{
    &value[from.min(value.len())..]
}

// What stands between two places of a value.
fn between(value: &[u8], from: usize, to: usize) -> &[u8]
    ensures { result.now ≡ slice_range value.now from to }
{
    let rest = behind(value, from);
    &rest[..to.saturating_sub(from).min(rest.len())]
}

// Where so many bytes end that begin at a place, in so many bytes.
fn end_of(start: usize, len: usize, most: usize) -> usize
    ensures { result ≡ min (start + len) most }
{
    start.saturating_add(len).min(most)
}

// A value with these links in it absolute.
fn with_absolute(
    alloc: Global,
    base: &Url,
    value: &[u8],
    links: &[Link<'_>],
) -> ParseResult<Vec<u8>>
    ensures { IfOk result (λ new. new.items
        ≡ absolute_from base.now value.now 0 (map part_of (map link_said links.now))) }
{
    let mut new = Vec::new(alloc);
    let mut from = 0;
    for link in links {
        let part = link.part;
        new.extend_from_slice(between(value, from, part.start))?;
        write_absolute(alloc, base, part.bytes, &mut new)?;
        from = end_of(part.start, part.bytes.len(), value.len());
    }
    new.extend_from_slice(behind(value, from))?;
    Ok(new)
}

// The value of an attribute with its URLs absolute.
fn absolute_value(
    alloc: Global,
    base: &Url,
    tree: &Tree<'_>,
    number: usize,
    attribute: Attribute<'_>,
) -> ParseResult<Vec<u8>>
    ensures { IfOk result (λ new. new.items ≡ absolute_value base.now (rows_in tree.now) number
        (attribute_said attribute.entry)) }
{
    let links = attribute_links(alloc, tree, number, attribute)?;
    with_absolute(alloc, base, attribute.value, links.as_slice())
}

// The value that a node gets, where it isn't the one that stands there.
fn absolute_got(
    alloc: Global,
    base: &Url,
    tree: &Tree<'_>,
    number: usize,
    key: &[u8],
) -> ParseResult<Option<Vec<u8>>>
    ensures { IfOk result (λ new. option_map items_of new
        ≡ absolute_got base.now key.now (rows_in tree.now) number) }
{
    let attribute = match attribute_at(tree, number, key) {
        Some(attribute) => attribute,
        None => return Ok(None),
    };
    let made = absolute_value(alloc, base, tree, number, attribute)?;
    Ok(unless_stands(attribute.value, made))
}

// The values that nodes get by the base URL of their page.
fn absolute_each(
    alloc: Global,
    base: &Url,
    tree: &Tree<'_>,
    numbers: &[usize],
    key: &[u8],
) -> ParseResult<Vec<NewValue>>
    ensures { IfOk result (λ values. map got values.items
        ≡ each_got (absolute_got base.now key.now (rows_in tree.now)) numbers.now) }
{
    let mut values = Vec::new(alloc);
    for number in numbers {
        let number = *number;
        if let Some(value) = absolute_got(alloc, base, tree, number, key)? {
            values
                .push(NewValue { number, value })
                .map_err(AllocError::from)?;
        }
    }
    Ok(values)
}

// The values that nodes get on a page of this URL.
fn absolute_all(
    alloc: Global,
    own: &Url,
    tree: &Tree<'_>,
    numbers: &[usize],
    key: &[u8],
) -> ParseResult<Vec<NewValue>>
    ensures { let rows = rows_in tree.now in IfOk result (λ values. map got values.items
        ≡ each_got (absolute_got (page_base own.now rows) key.now rows) numbers.now) }
{
    let base = page_base(alloc, own, tree)?;
    absolute_each(alloc, &base, tree, numbers, key)
}

/// The values that nodes get on a page of this URL. A URL longer than 4 GB is want of memory.
pub fn absolute_values(
    alloc: Global,
    own: &Url,
    tree: &Tree<'_>,
    numbers: &[usize],
    key: &[u8],
) -> Result<Vec<NewValue>, AllocError>
    ensures { let rows = rows_in tree.now in IfOk result (λ values. map got values.items
        ≡ each_got (absolute_got (page_base own.now rows) key.now rows) numbers.now) }
{
    match absolute_all(alloc, own, tree, numbers, key) {
        Ok(values) => Ok(values),
        Err(_) => Err(AllocError),
    }
}
