//! Start tags, with the mark of links.
ghost use Rattle.std.specs.List.{filter, list_any};
ghost use Rattle.std.specs.Prelude.{IfOk, OnOk, codes, flat_map, true, ◌++◌, ◌≡◌};
ghost use Rattle.tl_html_print.specs.Serialized.{serialized_attribute};
ghost use Rattle.tl_safe_fit.specs.Words.{is_among};
ghost use Rattle.tl_tree.specs.Asked.{attribute_said, attributes_at};
ghost use Rattle.tl_tree.specs.TreeView.{rows_in};
ghost use Rattle.tl_tree_safe.specs.Inner.Attributes.{beside_written, is_kept_target, marked_attributes};
ghost use Rattle.tl_tree_safe.specs.Inner.Walk.{start_at};
ghost use Rattle.tl_tree_safe.specs.Kept.{has_key, is_beside_mark, is_marked_link, kept_attribute, kept_attributes, mark, marked_where};
ghost use Rattle.tl_tree_safe.specs.Lists.{linking_names};
ghost use Rattle.tl_tree_safe.specs.Policies.{listed_words};

use crate::attributes::{is_kept, write_attribute, write_attributes};
use crate::lists::Lists;
use std::alloc::{AllocError, Global};
use tl_tree::{Attribute, Tree};

// Whether the links of elements of a name are followed by readers.
fn is_linking(name: &[u8]) -> bool
    ensures { result ≡ is_among linking_names name.now }
{
    name == b"a".as_slice() || name == b"area".as_slice()
}

// Whether an attribute is the target of a link, and stays.
fn is_target(
    alloc: Global,
    lists: &Lists<'_>,
    attribute: &Attribute<'_>,
) -> Result<bool, AllocError>
    ensures { IfOk result (λ found. found ≡ is_kept_target (listed_words lists.now)
        (kept_attribute (listed_words lists.now) (attribute_said attribute.now))) }
{
    if attribute.key != b"href".as_slice() {
        return Ok(false);
    }
    is_kept(alloc, lists, attribute)
}

// Whether the target of a link stays.
fn has_target(
    alloc: Global,
    lists: &Lists<'_>,
    tree: &Tree<'_>,
    number: usize,
) -> Result<bool, AllocError>
    ensures { IfOk result (λ found. found ≡ list_any (has_key (codes "href"))
        (kept_attributes (listed_words lists.now) (attributes_at (rows_in tree.now) number))) }
{
    for attribute in tree.attributes(number) {
        if is_target(alloc, lists, &attribute)? {
            return Ok(true);
        }
    }
    Ok(false)
}

// Whether an element of a name is a link that is marked.
fn is_marked(
    alloc: Global,
    lists: &Lists<'_>,
    tree: &Tree<'_>,
    number: usize,
    name: &[u8],
) -> Result<bool, AllocError>
    ensures { IfOk result (λ marked. marked ≡ is_marked_link (listed_words lists.now) name.now
        (kept_attributes (listed_words lists.now) (attributes_at (rows_in tree.now) number))) }
{
    if !lists.nofollow_links || !is_linking(name) {
        return Ok(false);
    }
    has_target(alloc, lists, tree, number)
}

// Writes what stays of an attribute beside the mark of a link.
fn write_beside(
    alloc: Global,
    lists: &Lists<'_>,
    attribute: &Attribute<'_>,
    out: &mut Vec<u8>,
) -> Result<(), AllocError>
    ensures { OnOk result (out.new.items ≡ out.old.items ++ beside_written
        (listed_words lists.now)
        (kept_attribute (listed_words lists.now) (attribute_said attribute.now))) }
{
    if attribute.key == b"rel".as_slice() {
        return Ok(());
    }
    write_attribute(alloc, lists, attribute, out)
}

// Writes the mark of a link.
fn write_mark(out: &mut Vec<u8>) -> Result<(), AllocError>
    ensures { OnOk result (out.new.items ≡ out.old.items ++ serialized_attribute mark) }
{
    out.extend_from_slice(b" rel=\"nofollow noopener\"")?;
    Ok(())
}

// Writes what stays of the attributes beside the mark of a link.
fn write_others(
    alloc: Global,
    lists: &Lists<'_>,
    tree: &Tree<'_>,
    number: usize,
    out: &mut Vec<u8>,
) -> Result<(), AllocError>
    ensures { OnOk result (out.new.items ≡ out.old.items ++ flat_map serialized_attribute
        (filter is_beside_mark
        (kept_attributes (listed_words lists.now) (attributes_at (rows_in tree.now) number)))) }
{
    for attribute in tree.attributes(number) {
        write_beside(alloc, lists, &attribute, out)?;
    }
    Ok(())
}

// Writes the mark of a link, and what stays of the attributes beside it.
fn write_marked(
    alloc: Global,
    lists: &Lists<'_>,
    tree: &Tree<'_>,
    number: usize,
    out: &mut Vec<u8>,
) -> Result<(), AllocError>
    ensures { OnOk result (out.new.items ≡ out.old.items ++ flat_map serialized_attribute
        (marked_where true
        (kept_attributes (listed_words lists.now) (attributes_at (rows_in tree.now) number)))) }
{
    write_mark(out)?;
    write_others(alloc, lists, tree, number, out)
}

// Writes what stays of the attributes of an element of a name, with the mark of a link.
fn write_kept(
    alloc: Global,
    lists: &Lists<'_>,
    tree: &Tree<'_>,
    number: usize,
    name: &[u8],
    out: &mut Vec<u8>,
) -> Result<(), AllocError>
    ensures { OnOk result (out.new.items ≡ out.old.items ++ flat_map serialized_attribute
        (marked_attributes (listed_words lists.now) name.now
        (attributes_at (rows_in tree.now) number))) }
{
    if is_marked(alloc, lists, tree, number, name)? {
        write_marked(alloc, lists, tree, number, out)
    } else {
        write_attributes(alloc, lists, tree, number, out)
    }
}

/// Writes the start tag of an element, with what stays of its attributes.
pub(crate) fn write_start(
    alloc: Global,
    lists: &Lists<'_>,
    tree: &Tree<'_>,
    number: usize,
    out: &mut Vec<u8>,
) -> Result<(), AllocError>
    ensures { OnOk result (out.new.items ≡ out.old.items
        ++ start_at (listed_words lists.now) (rows_in tree.now) number) }
{
    let Some(name) = tree.name(number) else {
        return Ok(());
    };
    out.push(b'<')?;
    out.extend_from_slice(name)?;
    write_kept(alloc, lists, tree, number, name, out)?;
    out.push(b'>')?;
    Ok(())
}
