//! What is said of all nodes of the document that is held at once, if one is.
ghost use Rattle.std.specs.Prelude.{◌≡◌, ◌++◌, Err, IfOk, None, OnOk, flat_map, length, option_map};
ghost use Rattle.tl_c.specs.Whole.{attribute_part, numbers_at, numbers_before, numbers_in, own_at, part_at, parts_before, parts_in, tag_part};
ghost use Rattle.tl_page.specs.Outcome.{Gives};
ghost use Rattle.tl_page.specs.declared.failure.Failure.TheVariants.{Refused};
ghost use Rattle.tl_tree.specs.Asked.{attribute_said, attributes_at};
ghost use Rattle.tl_tree.specs.TreeView.{rows_in};

use crate::held::number_or_none;
use crate::node::{number_of_kind, number_of_namespace};
use crate::parsed_page::ParsedPage;
use std::alloc::{AllocError, Global};
use tl_html_print::attribute_prefix;
use tl_page::Failure;
use tl_tree::{Attribute, Tree};

// Adds the numbers of a node.
fn push_numbers(tree: &Tree<'_>, node: usize, out: &mut Vec<u32>) -> Result<(), AllocError>
    ensures { OnOk result (out.new.items ≡ out.old.items ++ numbers_at (rows_in tree.now) node) }
{
    let numbers = [
        u32::from(number_of_kind(tree.kind(node))),
        u32::from(number_of_namespace(tree.namespace(node))),
        number_or_none(tree.parent(node)),
        number_or_none(tree.end(node)),
    ];
    out.extend_from_slice(&numbers)
}

// The numbers of all nodes.
fn numbers_of(alloc: Global, tree: &Tree<'_>) -> Result<Vec<u32>, AllocError>
    ensures { let rows = rows_in tree.now in
        IfOk result (λ numbers. numbers.items ≡ numbers_before rows (length rows)) }
{
    let mut numbers = Vec::new(alloc);
    for node in 0..tree.len() {
        push_numbers(tree, node, &mut numbers)?;
    }
    Ok(numbers)
}

/// The numbers of all nodes of the document.
pub(crate) fn all_numbers(
    alloc: Global,
    held: &Option<Box<ParsedPage>>,
) -> Result<Vec<u32>, Failure>
    ensures gives { let parsed = option_map (λ own. own.value) held.now in
        Gives (λ numbers. numbers.items) (numbers_in parsed) result }

    // Without a document it takes no memory.
    ensures none { option_map (λ own. own.value) held.now ≡ None → result ≡ Err Refused }
{
    let Some(own) = held else {
        return Err(Failure::Refused);
    };
    Ok(numbers_of(alloc, &own.tree)?)
}

// Writes a key and its value, with a byte 0 before each.
fn write_attribute(attribute: Attribute<'_>, out: &mut Vec<u8>) -> Result<(), AllocError>
    ensures { OnOk result (out.new.items
        ≡ out.old.items ++ attribute_part (attribute_said attribute.entry)) }
{
    out.extend_from_slice(b"\0")?;
    out.extend_from_slice(attribute_prefix(attribute))?;
    out.extend_from_slice(attribute.key)?;
    out.extend_from_slice(b"\0")?;
    out.extend_from_slice(attribute.value)
}

// Writes the keys and values of a node.
fn write_attributes(tree: &Tree<'_>, node: usize, out: &mut Vec<u8>) -> Result<(), AllocError>
    ensures { OnOk result (out.new.items
        ≡ out.old.items ++ flat_map attribute_part (attributes_at (rows_in tree.now) node)) }
{
    for attribute in tree.attributes(node) {
        write_attribute(attribute, out)?;
    }
    Ok(())
}

// Writes the name of an element, and its keys and values.
fn write_tag(tree: &Tree<'_>, node: usize, out: &mut Vec<u8>) -> Result<(), AllocError>
    ensures { OnOk result (out.new.items ≡ out.old.items ++ tag_part (rows_in tree.now) node) }
{
    out.extend_from_slice(tree.name(node).unwrap_or(b""))?;
    write_attributes(tree, node, out)
}

// Writes what stands in a node itself.
fn write_own(tree: &Tree<'_>, node: usize, out: &mut Vec<u8>) -> Result<(), AllocError>
    ensures { OnOk result (out.new.items ≡ out.old.items ++ own_at (rows_in tree.now) node) }
{
    match tree.text(node) {
        Some(text) => out.extend_from_slice(text),
        None => write_tag(tree, node, out),
    }
}

// Writes the same, and a byte behind it.
fn write_part(tree: &Tree<'_>, node: usize, out: &mut Vec<u8>) -> Result<(), AllocError>
    ensures { OnOk result (out.new.items ≡ out.old.items ++ part_at (rows_in tree.now) node) }
{
    write_own(tree, node, out)?;
    out.push(255)?;
    Ok(())
}

// What stands in each node.
fn parts_of(alloc: Global, tree: &Tree<'_>) -> Result<Vec<u8>, AllocError>
    ensures { let rows = rows_in tree.now in
        IfOk result (λ parts. parts.items ≡ parts_before rows (length rows)) }
{
    let mut parts = Vec::new(alloc);
    for node in 0..tree.len() {
        write_part(tree, node, &mut parts)?;
    }
    Ok(parts)
}

/// What stands in each node of the document.
pub(crate) fn all_parts(alloc: Global, held: &Option<Box<ParsedPage>>) -> Result<Vec<u8>, Failure>
    ensures gives { let parsed = option_map (λ own. own.value) held.now in
        Gives (λ parts. parts.items) (parts_in parsed) result }

    // Without a document it takes no memory.
    ensures none { option_map (λ own. own.value) held.now ≡ None → result ≡ Err Refused }
{
    let Some(own) = held else {
        return Err(Failure::Refused);
    };
    Ok(parts_of(alloc, &own.tree)?)
}
