//! The document that is held, if one is.
ghost use Rattle.std.specs.Prelude.{◌≡◌, length, map, option_copied, option_map, IfOk};
ghost use Rattle.tl_c.specs.Queries.{is_quirks_held, number_or_none, one_if, rows_held, short, tree_in};

use crate::parsed_page::ParsedPage;
use std::alloc::{AllocError, Global};
use tl_tree::Tree;

/// What stands where there is no node: no node has this number.
pub(crate) const NO_NODE: u32 = 4294967295;

/// A number in 32 bits; no tree that is read has a larger one.
pub(crate) fn short(number: usize) -> u32
    ensures { result ≡ short number }
{
    if number < NO_NODE as usize {
        number as u32
    } else {
        NO_NODE
    }
}

/// The number of a node, or that of no node.
pub(crate) fn number_or_none(number: Option<usize>) -> u32
    ensures { result ≡ number_or_none number }
{
    match number {
        Some(number) => short(number),
        None => NO_NODE,
    }
}

/// Numbers in 32 bits.
pub(crate) fn short_numbers(alloc: Global, numbers: &[usize]) -> Result<Vec<u32>, AllocError>
    ensures { IfOk result (λ own. own.items ≡ map short numbers.now) }
{
    let mut own = Vec::with_capacity(alloc, numbers.len())?;
    for number in numbers {
        own.push(short(*number))?;
    }
    Ok(own)
}

/// 1 for yes, 0 for no.
pub(crate) fn one_if(holds: bool) -> u8
    ensures { result ≡ one_if holds }
{
    if holds { 1 } else { 0 }
}

/// The tree of the document, where it has such a node.
pub(crate) fn tree_at(held: &Option<Box<ParsedPage>>, node: u32) -> Option<&Tree<'static>>
    ensures { option_copied result ≡ tree_in node (option_map (λ own. own.value) held.now) }
{
    let Some(own) = held else {
        return None;
    };
    own.tree.kind(node as usize)?;
    Some(&own.tree)
}

/// How many nodes there are.
pub(crate) fn count(held: &Option<Box<ParsedPage>>) -> u32
    ensures { result ≡ length (rows_held (option_map (λ own. own.value) held.now)) }
{
    match held {
        Some(own) => own.tree.len() as u32,
        None => 0,
    }
}

/// Whether the document is in quirks mode.
pub(crate) fn is_quirks(held: &Option<Box<ParsedPage>>) -> bool
    ensures { result ≡ is_quirks_held (option_map (λ own. own.value) held.now) }
{
    match held {
        Some(own) => own.tree.is_quirks(),
        None => false,
    }
}
