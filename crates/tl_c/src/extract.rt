//! What is taken out of the document that is held, if one is: its readable text, links and tables.
ghost use Rattle.std.specs.Prelude.{◌≡◌, ◌++◌, Err, IfOk, None, OnOk, flat_map, option_map};
ghost use Rattle.tl_c.specs.Extracts.{is_html_at, is_table_at, joined_of, json_in, link_bytes, links_in, readable_in, table_at, table_in};
ghost use Rattle.tl_c.specs.Queries.{outcome_of_some, tree_in};
ghost use Rattle.tl_page.specs.Outcome.{Gives, success};
ghost use Rattle.tl_page.specs.declared.failure.Failure.TheVariants.{Refused};
ghost use Rattle.tl_tree.specs.TreeView.{rows_in};
ghost use Rattle.tl_tree_extract.specs.Links.{link_said, links_of};
ghost use Rattle.tl_tree_extract.specs.Resolved.{resolved, url_of};
ghost use Rattle.url.specs.Parser.{parse_url};

use crate::attribute::write_number;
use crate::held::tree_at;
use crate::parsed_page::ParsedPage;
use crate::text::text_of;
use std::alloc::{AllocError, Global};
use tl_html_print::attribute_prefix;
use tl_page::Failure;
use tl_tree::{Namespace, Tree};
use tl_tree_extract::text::write_readable_text;
use tl_tree_extract::{Columns, Link, Spans, TableError, json_of, links, resolved, write_table};
use url::{ParseError, Url};

/// The readable text of what is below a node.
pub(crate) fn readable_of_node(
    alloc: Global,
    held: &Option<Box<ParsedPage>>,
    node: u32,
) -> Result<Vec<u8>, Failure>
    ensures gives { let parsed = option_map (λ own. own.value) held.now in
        Gives (λ bytes. bytes.items) (readable_in node parsed) result }

    // Without such a node it takes no memory.
    ensures no_node { tree_in node (option_map (λ own. own.value) held.now) ≡ None
        → result ≡ Err Refused }
{
    let Some(tree) = tree_at(held, node) else {
        return Err(Failure::Refused);
    };
    let mut out = Vec::new(alloc);
    write_readable_text(tree, node as usize, &[], &mut out)?;
    Ok(out)
}

/// A node with what is below it as JSON.
pub(crate) fn json_of_node(
    alloc: Global,
    held: &Option<Box<ParsedPage>>,
    node: u32,
) -> Result<Vec<u8>, Failure>
    ensures gives { let parsed = option_map (λ own. own.value) held.now in
        Gives (λ bytes. bytes.items) (json_in node parsed) result }

    // Without such a node it takes no memory.
    ensures no_node { tree_in node (option_map (λ own. own.value) held.now) ≡ None
        → result ≡ Err Refused }
{
    let Some(tree) = tree_at(held, node) else {
        return Err(Failure::Refused);
    };
    Ok(json_of(alloc, tree, &[node as usize])?)
}

// Writes the number of the element, how many bytes the key and the URL have, and both.
fn write_link(link: Link<'_>, out: &mut Vec<u8>) -> Result<(), AllocError>
    ensures { OnOk result (out.new.items ≡ out.old.items ++ link_bytes (link_said link.entry)) }
{
    let prefix = attribute_prefix(link.attribute);
    write_number(link.node, out)?;
    write_number(prefix.len() + link.attribute.key.len(), out)?;
    write_number(link.part.bytes.len(), out)?;
    out.extend_from_slice(prefix)?;
    out.extend_from_slice(link.attribute.key)?;
    out.extend_from_slice(link.part.bytes)
}

// The links of a tree.
fn links_of_tree(alloc: Global, tree: &Tree<'_>) -> Result<Vec<u8>, AllocError>
    ensures { let links = links_of (rows_in tree.now) in
        IfOk result (λ bytes. bytes.items ≡ flat_map link_bytes links) }
{
    let mut out = Vec::new(alloc);
    for link in links(alloc, tree)?.iter() {
        write_link(*link, &mut out)?;
    }
    Ok(out)
}

/// The links of the document.
pub(crate) fn links_held(alloc: Global, held: &Option<Box<ParsedPage>>) -> Result<Vec<u8>, Failure>
    ensures gives { let parsed = option_map (λ own. own.value) held.now in
        Gives (λ bytes. bytes.items) (links_in parsed) result }

    // Without a document it takes no memory.
    ensures none { option_map (λ own. own.value) held.now ≡ None → result ≡ Err Refused }
{
    let Some(own) = held else {
        return Err(Failure::Refused);
    };
    Ok(links_of_tree(alloc, &own.tree)?)
}

// The URL that a text is.
fn url_of_text(alloc: Global, text: &str) -> Result<Url, Failure>
    ensures { let url = url_of (parse_url None text.now) in
        Gives (λ own. own) (outcome_of_some success url) result }
{
    match Url::parse(alloc, text) {
        Ok(url) => Ok(url),
        Err(ParseError::OutOfMemory) => Err(Failure::OutOfMemory),
        Err(ParseError::Overflow) => Err(Failure::OutOfMemory),
        Err(_) => Err(Failure::Refused),
    }
}

// The URL that a link leads to from a base.
fn target_of(alloc: Global, base: &Url, link: &[u8]) -> Result<Url, Failure>
    ensures { Gives (λ url. url) (outcome_of_some success (resolved base.now link.now)) result }
{
    match resolved(alloc, base, link) {
        Ok(Some(url)) => Ok(url),
        Ok(None) => Err(Failure::Refused),
        Err(_) => Err(Failure::OutOfMemory),
    }
}

/// Where a link leads from a base.
pub(crate) fn joined(alloc: Global, base: &[u8], link: &[u8]) -> Result<Vec<u8>, Failure>
    ensures { Gives (λ bytes. bytes.items) (joined_of base.now link.now) result }
{
    let base = url_of_text(alloc, text_of(base)?)?;
    let target = target_of(alloc, &base, link)?;
    let mut out = Vec::new(alloc);
    out.extend_from_slice(target.as_str().as_bytes())?;
    Ok(out)
}

// Whether a node is an element of HTML.
fn is_html_at(tree: &Tree<'_>, node: usize) -> bool
    ensures { result ≡ is_html_at (rows_in tree.now) node }
{
    matches!(tree.namespace(node), Some(Namespace::Html))
}

// Whether a node is a `table` of HTML.
fn is_table_at(tree: &Tree<'_>, node: usize) -> bool
    ensures { result ≡ is_table_at (rows_in tree.now) node }
{
    match tree.name(node) {
        Some(name) => is_html_at(tree, node) && name == b"table".as_slice(),
        None => false,
    }
}

// A table as CSV.
fn csv_of(alloc: Global, tree: &Tree<'_>, node: usize, limit: usize) -> Result<Vec<u8>, Failure>
    ensures { Gives (λ bytes. bytes.items) (table_at (rows_in tree.now) node limit) result }
{
    if !is_table_at(tree, node) {
        return Err(Failure::Refused);
    }
    let mut out = Vec::new(alloc);
    match write_table(
        alloc,
        tree,
        node,
        Columns::Commas,
        Spans::Filled,
        limit,
        &mut out,
    ) {
        Ok(()) => Ok(out),
        Err(TableError::TooLong) => Err(Failure::NotUnderstood),
        Err(TableError::OutOfMemory) => Err(Failure::OutOfMemory),
    }
}

/// The table of a node as CSV, in no more than so many bytes.
pub(crate) fn table_of_node(
    alloc: Global,
    held: &Option<Box<ParsedPage>>,
    node: u32,
    limit: usize,
) -> Result<Vec<u8>, Failure>
    ensures { let parsed = option_map (λ own. own.value) held.now in
        Gives (λ bytes. bytes.items) (table_in node limit parsed) result }
{
    let Some(tree) = tree_at(held, node) else {
        return Err(Failure::Refused);
    };
    csv_of(alloc, tree, node as usize, limit)
}
