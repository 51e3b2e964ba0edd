//! What is written of the document that is held, if one is.
ghost use Rattle.std.specs.Prelude.{◌≡◌, ◌++◌, false, Err, None, OnOk, option_map};
ghost use Rattle.tl_c.specs.Extracts.{pretty_in};
ghost use Rattle.tl_c.specs.Queries.{AreTrees, outcome_of_some, tree_in};
ghost use Rattle.tl_c.specs.Nodes.{markup_at, markup_in, text_at, text_in};
ghost use Rattle.tl_dom_spec.specs.HtmlForest.{HtmlForest};
ghost use Rattle.tl_html_print.specs.Serialized.{serialized};
ghost use Rattle.tl_page.specs.Outcome.{Gives, success};
ghost use Rattle.tl_page.specs.declared.failure.Failure.TheVariants.{Refused};
ghost use Rattle.tl_tree.specs.Rows.{rows_of};
ghost use Rattle.tl_tree.specs.TreeView.{rows_in};

use crate::held::tree_at;
use crate::parsed_page::ParsedPage;
use std::alloc::{AllocError, Global};
use tl_html_print::{write_document, write_inner, write_outer, write_pretty};
use tl_page::Failure;
use tl_tree::Tree;

/// What of a node is written as markup.
#[derive(Clone, Copy)]
pub(crate) enum Markup {
    /// The node.
    Outer,
    /// What is inside of it.
    Inner,
}

// Writes what of a node is asked for.
fn write_markup(
    tree: &Tree<'_>,
    node: usize,
    markup: Markup,
    out: &mut Vec<u8>,
) -> Result<(), AllocError>
    ensures { (trees : HtmlForest) → rows_in tree.now ≡ rows_of trees →
        OnOk result (out.new.items ≡ out.old.items ++ markup_at markup trees node) }
{
    match markup {
        Markup::Outer => write_outer(tree, node, false, out),
        Markup::Inner => write_inner(tree, node, false, out),
    }
}

/// A node as markup, or what is inside of it.
pub(crate) fn markup_of(
    alloc: Global,
    held: &Option<Box<ParsedPage>>,
    node: u32,
    markup: Markup,
) -> Result<Vec<u8>, Failure>
    ensures gives { let parsed = option_map (λ own. own.value) held.now in
        (trees : HtmlForest) → AreTrees parsed trees →
        Gives (λ bytes. bytes.items) (markup_in markup trees node parsed) result }

    // Without such a node it takes no memory.
    ensures no_node { tree_in node (option_map (λ own. own.value) held.now) ≡ None
        → result ≡ Err Refused }
{
    let Some(tree) = tree_at(held, node) else {
        return Err(Failure::Refused);
    };
    let mut out = Vec::new(alloc);
    write_markup(tree, node as usize, markup, &mut out)?;
    Ok(out)
}

// Writes what a node says.
fn write_text(tree: &Tree<'_>, node: usize, out: &mut Vec<u8>) -> Result<(), AllocError>
    ensures { OnOk result (out.new.items ≡ out.old.items ++ text_at (rows_in tree.now) node) }
{
    match tree.text(node) {
        Some(text) => out.extend_from_slice(text),
        None => tree.write_text_content(node, out),
    }
}

/// What a node says.
pub(crate) fn text_of_node(
    alloc: Global,
    held: &Option<Box<ParsedPage>>,
    node: u32,
) -> Result<Vec<u8>, Failure>
    ensures gives { let parsed = option_map (λ own. own.value) held.now in
        Gives (λ bytes. bytes.items) (text_in node parsed) result }

    // Without such a node it takes no memory.
    ensures no_node { tree_in node (option_map (λ own. own.value) held.now) ≡ None
        → result ≡ Err Refused }
{
    let Some(tree) = tree_at(held, node) else {
        return Err(Failure::Refused);
    };
    let mut out = Vec::new(alloc);
    write_text(tree, node as usize, &mut out)?;
    Ok(out)
}

/// The whole page as markup.
pub(crate) fn document_markup(
    alloc: Global,
    held: &Option<Box<ParsedPage>>,
) -> Result<Vec<u8>, Failure>
    ensures gives { let parsed = option_map (λ own. own.value) held.now in
        (trees : HtmlForest) → AreTrees parsed trees →
        let outcome = outcome_of_some (λ _. success (serialized false None trees)) parsed in
        Gives (λ bytes. bytes.items) outcome result }

    // Without a document it takes no memory.
    ensures none { option_map (λ own. own.value) held.now ≡ None → result ≡ Err Refused }
{
    let Some(own) = held else {
        return Err(Failure::Refused);
    };
    let mut out = Vec::new(alloc);
    write_document(&own.tree, false, &mut out)?;
    Ok(out)
}

/// The whole page as markup, with a tag on each line.
pub(crate) fn pretty_markup(
    alloc: Global,
    held: &Option<Box<ParsedPage>>,
) -> Result<Vec<u8>, Failure>
    ensures gives { let parsed = option_map (λ own. own.value) held.now in
        (trees : HtmlForest) → AreTrees parsed trees →
        Gives (λ bytes. bytes.items) (pretty_in trees parsed) result }

    // Without a document it takes no memory.
    ensures none { option_map (λ own. own.value) held.now ≡ None → result ≡ Err Refused }
{
    let Some(own) = held else {
        return Err(Failure::Refused);
    };
    let mut out = Vec::new(alloc);
    write_pretty(&own.tree, false, &mut out)?;
    Ok(out)
}
