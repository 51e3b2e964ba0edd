//! Attributes that stay.
ghost use Rattle.std.specs.Prelude.{IfOk, OnOk, flat_map, ◌&&◌, ◌++◌, ◌≡◌};
ghost use Rattle.tl_dom_spec.specs.Tags.{plain_attribute};
ghost use Rattle.tl_html_print.specs.Serialized.{serialized_attribute};
ghost use Rattle.tl_safe_fit.specs.Words.{is_among};
ghost use Rattle.tl_tree.specs.Asked.{attribute_said, attributes_at};
ghost use Rattle.tl_tree.specs.TreeView.{rows_in};
ghost use Rattle.tl_tree_safe.specs.Inner.Attributes.{listed_written, pair_where, value_written};
ghost use Rattle.tl_tree_safe.specs.Kept.{has_no_space, is_listed_attribute, kept_attribute, kept_attributes, kept_value};
ghost use Rattle.tl_tree_safe.specs.Lists.{is_listed_value};
ghost use Rattle.tl_tree_safe.specs.Policies.{listed_words};

use crate::lists::Lists;
use crate::value_kind::value_kind_at;
use crate::values::{kept_value, stays_whole};
use crate::words::is_among;
use std::alloc::{AllocError, Global};
use tl_html_print::write_escaped;
use tl_tree::{Attribute, AttributeSpace, Tree};

/// Whether the key of an attribute is listed.
pub(crate) fn is_listed_key(lists: &Lists<'_>, attribute: &Attribute<'_>) -> bool
    ensures { result ≡ (has_no_space (attribute_said attribute.now).space
        && is_among (listed_words lists.now).keys attribute.now.key.now) }
{
    matches!(attribute.space, AttributeSpace::Plain) && is_among(lists.keys, attribute.key)
}

// Writes a key with its value.
fn write_pair(key: &[u8], value: &[u8], out: &mut Vec<u8>) -> Result<(), AllocError>
    ensures { OnOk result (out.new.items
        ≡ out.old.items ++ serialized_attribute (plain_attribute (key.now, value.now))) }
{
    out.push(b' ')?;
    out.extend_from_slice(key)?;
    out.extend_from_slice(b"=\"")?;
    write_escaped(true, value, out)?;
    out.push(b'"')?;
    Ok(())
}

// Whether a value at a listed key may stand with what stays of it.
fn value_stands(
    alloc: Global,
    lists: &Lists<'_>,
    key: &[u8],
    value: &[u8],
) -> Result<bool, AllocError>
    ensures { IfOk result (λ stands. stands ≡ is_listed_value (listed_words lists.now) key.now
        (kept_value (listed_words lists.now) key.now value.now)) }
{
    let kind = value_kind_at(lists, key);
    if stays_whole(lists, kind, value) {
        return Ok(lists.lists_whole(kind, key, value));
    }
    let kept = kept_value(alloc, lists, kind, value)?;
    Ok(lists.lists_by(kind, key, &kept))
}

/// Whether an attribute may stand with what stays of its value.
pub(crate) fn is_kept(
    alloc: Global,
    lists: &Lists<'_>,
    attribute: &Attribute<'_>,
) -> Result<bool, AllocError>
    ensures { IfOk result (λ kept. kept ≡ is_listed_attribute (listed_words lists.now)
        (kept_attribute (listed_words lists.now) (attribute_said attribute.now))) }
{
    if !is_listed_key(lists, attribute) {
        return Ok(false);
    }
    value_stands(alloc, lists, attribute.key, attribute.value)
}

// Writes a key with a value, where it may stand.
fn write_where(stands: bool, key: &[u8], value: &[u8], out: &mut Vec<u8>) -> Result<(), AllocError>
    ensures { OnOk result (out.new.items ≡ out.old.items ++ pair_where stands key.now value.now) }
{
    if !stands {
        return Ok(());
    }
    write_pair(key, value, out)
}

// Writes a listed key with what stays of its value, where this may stand.
fn write_value(
    alloc: Global,
    lists: &Lists<'_>,
    key: &[u8],
    value: &[u8],
    out: &mut Vec<u8>,
) -> Result<(), AllocError>
    ensures { OnOk result (out.new.items ≡ out.old.items
        ++ value_written (listed_words lists.now) key.now value.now) }
{
    let kind = value_kind_at(lists, key);
    if stays_whole(lists, kind, value) {
        return write_where(lists.lists_whole(kind, key, value), key, value, out);
    }
    let kept = kept_value(alloc, lists, kind, value)?;
    write_where(lists.lists_by(kind, key, &kept), key, &kept, out)
}

/// Writes what stays of an attribute.
pub(crate) fn write_attribute(
    alloc: Global,
    lists: &Lists<'_>,
    attribute: &Attribute<'_>,
    out: &mut Vec<u8>,
) -> Result<(), AllocError>
    ensures { OnOk result (out.new.items ≡ out.old.items ++ listed_written
        (listed_words lists.now)
        (kept_attribute (listed_words lists.now) (attribute_said attribute.now))) }
{
    if !is_listed_key(lists, attribute) {
        return Ok(());
    }
    write_value(alloc, lists, attribute.key, attribute.value, out)
}

/// Writes what stays of the attributes of an element.
pub fn write_attributes(
    alloc: Global,
    lists: &Lists<'_>,
    tree: &Tree<'_>,
    number: usize,
    out: &mut Vec<u8>,
) -> Result<(), AllocError>
    ensures { OnOk result (out.new.items ≡ out.old.items ++ flat_map serialized_attribute
        (kept_attributes (listed_words lists.now) (attributes_at (rows_in tree.now) number))) }
{
    for attribute in tree.attributes(number) {
        write_attribute(alloc, lists, &attribute, out)?;
    }
    Ok(())
}
