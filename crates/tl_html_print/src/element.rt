//! Elements and their tags.
ghost use Rattle.std.specs.Option.{option_copied, option_map, unwrap_or};
ghost use Rattle.std.specs.Prelude.{OnOk, [], ◌++◌, ◌≡◌};
ghost use Rattle.tl_html_print.specs.Inner.Printed.{ended_at, html_name_at, is_void_at, tag_at};
ghost use Rattle.tl_html_print.specs.Serialized.{is_literal_in, start_tag};
ghost use Rattle.tl_tree.specs.TreeView.{rows_in};

use crate::attribute::write_attributes;
use crate::names::{is_literal_name, is_void_name};
use std::alloc::AllocError;
use tl_tree::{Namespace, Tree};

/// The name of an HTML element.
pub(crate) fn html_name<'t>(tree: &'t Tree<'_>, number: usize) -> Option<&'t [u8]>
    ensures { option_copied result ≡ html_name_at (rows_in tree.now) number }
{
    if tree.namespace(number)? != Namespace::Html {
        return None;
    }
    tree.name(number)
}

/// Whether a node is an element that serializes as void.
pub(crate) fn is_void(tree: &Tree<'_>, number: usize) -> bool
    ensures { result ≡ is_void_at (rows_in tree.now) number }
{
    match html_name(tree, number) {
        Some(name) => is_void_name(name),
        None => false,
    }
}

/// Whether a node is an element in which texts are written as they are.
pub(crate) fn is_literal(tree: &Tree<'_>, number: usize, is_scripting: bool) -> bool
    ensures { result
        ≡ is_literal_in is_scripting (tag_at (rows_in tree.now) number) }
{
    match html_name(tree, number) {
        Some(name) => is_literal_name(is_scripting, name),
        None => false,
    }
}

/// Writes the start tag of an element.
pub(crate) fn write_start_tag(
    tree: &Tree<'_>,
    number: usize,
    out: &mut Vec<u8>,
) -> Result<(), AllocError>
    ensures { OnOk result (out.new.items ≡ out.old.items
        ++ unwrap_or (option_map start_tag (tag_at (rows_in tree.now) number)) []) }
{
    let Some(name) = tree.name(number) else {
        return Ok(());
    };
    out.push(b'<')?;
    out.extend_from_slice(name)?;
    write_attributes(tree, number, out)?;
    out.push(b'>')?;
    Ok(())
}

/// Writes the end tag of an element: none where it serializes as void.
pub(crate) fn write_end_tag(
    tree: &Tree<'_>,
    number: usize,
    out: &mut Vec<u8>,
) -> Result<(), AllocError>
    ensures { OnOk result (out.new.items
        ≡ out.old.items ++ ended_at (rows_in tree.now) number) }
{
    let Some(name) = tree.name(number) else {
        return Ok(());
    };
    if is_void(tree, number) {
        return Ok(());
    }
    out.extend_from_slice(b"</")?;
    out.extend_from_slice(name)?;
    out.push(b'>')?;
    Ok(())
}
