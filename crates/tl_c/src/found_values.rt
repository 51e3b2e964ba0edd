//! The values at a key of the elements where a selector of CSS holds in the document that is held,
//! if one is.
ghost use Rattle.std.specs.Prelude.{◌≡◌, ◌≢◌, ◌++◌, Err, IfOk, List, None, OnOk, ℕ, option_map};
ghost use Rattle.tl_c.specs.Css.{AreFoundBy, IsTold, css_in, wrong_in};
ghost use Rattle.tl_c.specs.FoundValues.{value_part_at, value_parts, values_by};
ghost use Rattle.tl_page.specs.Outcome.{Gives, success};
ghost use Rattle.tl_page.specs.declared.failure.Failure.TheVariants.{OutOfMemory};
ghost use Rattle.tl_tree.specs.TreeView.{rows_in};

use crate::attribute::value_at;
use crate::css::{Reading, read_selector};
use crate::parsed_page::ParsedPage;
use std::alloc::{AllocError, Global};
use tl_css::Selector;
use tl_page::Failure;
use tl_tree::Tree;
use tl_tree_select::select;

// Writes the value of a node at a key and a byte behind it, where the node has the key.
fn write_value(
    tree: &Tree<'_>,
    node: usize,
    key: &[u8],
    out: &mut Vec<u8>,
) -> Result<(), AllocError>
    ensures { OnOk result (out.new.items
        ≡ out.old.items ++ value_part_at key.now (rows_in tree.now) node) }
{
    let Some(value) = value_at(tree, node, key) else {
        return Ok(());
    };
    out.extend_from_slice(value)?;
    out.push(255)?;
    Ok(())
}

// The values of some nodes.
fn values_of(
    alloc: Global,
    tree: &Tree<'_>,
    nodes: &[usize],
    key: &[u8],
) -> Result<Vec<u8>, AllocError>
    ensures { IfOk result (λ values.
        values.items ≡ value_parts key.now (rows_in tree.now) nodes.now) }
{
    let mut values = Vec::new(alloc);
    for node in nodes {
        write_value(tree, *node, key, &mut values)?;
    }
    Ok(values)
}

// The values of the elements where a selector holds.
fn select_values(
    alloc: Global,
    held: &Option<Box<ParsedPage>>,
    selector: &Selector,
    key: &[u8],
) -> Result<Vec<u8>, Failure>
    ensures { let parsed = option_map (λ own. own.value) held.now in
        let css = success selector.now in
        (ns : List ℕ) → AreFoundBy css parsed ns
        → Gives (λ values. values.items) (values_by css key.now parsed ns) result }
{
    let Some(own) = held else {
        return Err(Failure::Refused);
    };
    let nodes = select(alloc, &own.tree, selector)?;
    Ok(values_of(alloc, &own.tree, nodes.as_slice(), key)?)
}

/// The values at a key of the elements where a selector holds. Of bytes that are none it says the
/// first one that is wrong, and the number of the cause, and else 0 and 0.
pub(crate) fn find_values(
    alloc: Global,
    held: &Option<Box<ParsedPage>>,
    selector: &[u8],
    key: &[u8],
    place: &mut usize,
    cause: &mut u8,
) -> Result<Vec<u8>, Failure>
    ensures finds { let parsed = option_map (λ own. own.value) held.now in
        let css = css_in selector.now in
        (ns : List ℕ) → AreFoundBy css parsed ns →
        Gives (λ values. values.items) (values_by css key.now parsed ns) result }
    ensures told { result ≢ Err OutOfMemory → IsTold (wrong_in selector.now) place.new cause.new }
    ensures lost { result ≡ Err OutOfMemory → IsTold None place.new cause.new }
{
    let selector = read_selector(alloc, Reading::Whole, selector, place, cause)?;
    select_values(alloc, held, &selector, key)
}
