//! The attributes of a node of the document that is held, if one is.
ghost use Rattle.std.specs.Prelude.{◌≡◌, ◌++◌, flat_map, Err, None, OnOk, option_copied, option_map};
ghost use Rattle.std.specs.Str.{bytes_eq};
ghost use Rattle.tl_c.specs.Queries.{tree_in};
ghost use Rattle.tl_c.specs.Nodes.{key_of, number_bytes, pair_bytes, pairs_in, value_at_key, value_in};
ghost use Rattle.tl_page.specs.Outcome.{Gives};
ghost use Rattle.tl_page.specs.declared.failure.Failure.TheVariants.{Refused};
ghost use Rattle.tl_tree.specs.Asked.{attribute_said, attributes_at};
ghost use Rattle.tl_tree.specs.TreeView.{rows_in};

use crate::held::tree_at;
use crate::parsed_page::ParsedPage;
use std::alloc::{AllocError, Global};
use tl_html_print::attribute_prefix;
use tl_page::Failure;
use tl_tree::{Attribute, Tree};

// Whether an attribute has this key, as it is serialized.
fn has_key(attribute: Attribute<'_>, key: &[u8]) -> bool
    ensures { result ≡ bytes_eq (key_of (attribute_said attribute.entry)) key.now }
{
    let Some(own) = key.strip_prefix(attribute_prefix(attribute)) else {
        return false;
    };
    own == attribute.key
}

/// The value of a node of a tree at a key.
pub(crate) fn value_at<'t>(tree: &'t Tree<'_>, node: usize, key: &[u8]) -> Option<&'t [u8]>
    ensures { option_copied result
        ≡ value_at_key key.now (attributes_at (rows_in tree.now) node) }
{
    for attribute in tree.attributes(node) {
        if has_key(attribute, key) {
            return Some(attribute.value);
        }
    }
    None
}

/// The value of a node at a key.
pub(crate) fn value<'h>(
    held: &'h Option<Box<ParsedPage>>,
    node: u32,
    key: &[u8],
) -> Option<&'h [u8]>
    ensures { let parsed = option_map (λ own. own.value) held.now in
        option_copied result ≡ value_in node key.now parsed }
{
    let Some(own) = held else {
        return None;
    };
    value_at(&own.tree, node as usize, key)
}

/// Writes a number in 8 bytes, the lowest first.
#[tactic(auto, unfolding(crate::specs::Nodes::number_bytes))]
pub(crate) fn write_number(number: usize, out: &mut Vec<u8>) -> Result<(), AllocError>
    ensures { OnOk result (out.new.items ≡ out.old.items ++ number_bytes number) }
{
    out.extend_from_slice(&number.to_le_bytes())
}

// Writes how many bytes a key and a value have, and both.
fn write_pair(attribute: Attribute<'_>, out: &mut Vec<u8>) -> Result<(), AllocError>
    ensures { OnOk result (out.new.items
        ≡ out.old.items ++ pair_bytes (attribute_said attribute.entry)) }
{
    let prefix = attribute_prefix(attribute);
    write_number(prefix.len() + attribute.key.len(), out)?;
    write_number(attribute.value.len(), out)?;
    out.extend_from_slice(prefix)?;
    out.extend_from_slice(attribute.key)?;
    out.extend_from_slice(attribute.value)
}

// Writes the pairs of a node of a tree.
fn write_pairs(tree: &Tree<'_>, node: usize, out: &mut Vec<u8>) -> Result<(), AllocError>
    ensures { OnOk result (out.new.items
        ≡ out.old.items ++ flat_map pair_bytes (attributes_at (rows_in tree.now) node)) }
{
    for attribute in tree.attributes(node) {
        write_pair(attribute, out)?;
    }
    Ok(())
}

/// The keys and values of a node in the order of its tag.
pub(crate) fn pairs(
    alloc: Global,
    held: &Option<Box<ParsedPage>>,
    node: u32,
) -> Result<Vec<u8>, Failure>
    ensures gives { let parsed = option_map (λ own. own.value) held.now in
        Gives (λ bytes. bytes.items) (pairs_in node parsed) result }

    // Without such a node it takes no memory.
    ensures no_node { tree_in node (option_map (λ own. own.value) held.now) ≡ None
        → result ≡ Err Refused }
{
    let Some(tree) = tree_at(held, node) else {
        return Err(Failure::Refused);
    };
    let mut pairs = Vec::new(alloc);
    write_pairs(tree, node as usize, &mut pairs)?;
    Ok(pairs)
}
