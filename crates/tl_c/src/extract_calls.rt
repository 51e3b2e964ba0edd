//! The calls that take something out of a document.
ghost use Rattle.std.specs.Prelude.{◌≡◌, None};
ghost use Rattle.tl_c.specs.Extracts.{joined_of, json_in, links_in, pretty_in, readable_in, table_in};
ghost use Rattle.tl_c.specs.Puts.{Puts};
ghost use Rattle.tl_c.specs.Queries.{AreTrees, tree_in};
ghost use Rattle.tl_c.specs.Whole.{numbers_in, parts_in};
ghost use Rattle.tl_dom_spec.specs.HtmlForest.{HtmlForest};

use crate::copy_out::copy_result;
use crate::document::Document;
use crate::extract::{joined, json_of_node, links_held, readable_of_node, table_of_node};
use crate::markup::pretty_markup;
use crate::whole::{all_numbers, all_parts};
use std::alloc::Global;

/// Four numbers of each node, in order: of its kind and its namespace, that of the node that it
/// stands in, and the one behind the last node below it. It is refused where there is no document.
#[unsafe(no_mangle)]
pub extern "C" fn tl_nodes(
    alloc: Global,
    document: &mut Document,
    numbers: &mut [u32],
    needed: &mut usize,
) -> u8
    ensures same { document.new.held ≡ document.old.held }
    ensures put { let outcome = numbers_in document.old.held in
        Puts outcome numbers.old numbers.new needed.new result }

    // Without a document it takes no memory.
    ensures none { document.old.held ≡ None → result ≡ 1 }
{
    let held = document.replace(alloc, None);
    let made = all_numbers(alloc, &held);
    let _nothing = document.replace(alloc, held);
    copy_result(made, numbers, needed)
}

/// What stands in each node itself, in order, with a byte 255 behind each: of a text and a comment
/// what they say, of an element its name, and its keys and values with a byte 0 before each. It is
/// refused where there is no document.
#[unsafe(no_mangle)]
pub extern "C" fn tl_parts(
    alloc: Global,
    document: &mut Document,
    out: &mut [u8],
    needed: &mut usize,
) -> u8
    ensures same { document.new.held ≡ document.old.held }
    ensures put { let outcome = parts_in document.old.held in
        Puts outcome out.old out.new needed.new result }

    // Without a document it takes no memory.
    ensures none { document.old.held ≡ None → result ≡ 1 }
{
    let held = document.replace(alloc, None);
    let written = all_parts(alloc, &held);
    let _nothing = document.replace(alloc, held);
    copy_result(written, out, needed)
}

/// The readable text of what is below a node. It is refused where there is no such node.
#[unsafe(no_mangle)]
pub extern "C" fn tl_node_readable_text(
    alloc: Global,
    document: &mut Document,
    node: u32,
    out: &mut [u8],
    needed: &mut usize,
) -> u8
    ensures same { document.new.held ≡ document.old.held }
    ensures put { let outcome = readable_in node document.old.held in
        Puts outcome out.old out.new needed.new result }

    // Without such a node it takes no memory.
    ensures no_node { tree_in node document.old.held ≡ None → result ≡ 1 }
{
    let held = document.replace(alloc, None);
    let written = readable_of_node(alloc, &held, node);
    let _nothing = document.replace(alloc, held);
    copy_result(written, out, needed)
}

/// An array of JSON that has a node with what is below it, as `tl select --json --tree` writes it.
/// It is refused where there is no such node.
#[unsafe(no_mangle)]
pub extern "C" fn tl_node_json(
    alloc: Global,
    document: &mut Document,
    node: u32,
    out: &mut [u8],
    needed: &mut usize,
) -> u8
    ensures same { document.new.held ≡ document.old.held }
    ensures put { let outcome = json_in node document.old.held in
        Puts outcome out.old out.new needed.new result }

    // Without such a node it takes no memory.
    ensures no_node { tree_in node document.old.held ≡ None → result ≡ 1 }
{
    let held = document.replace(alloc, None);
    let written = json_of_node(alloc, &held, node);
    let _nothing = document.replace(alloc, held);
    copy_result(written, out, needed)
}

/// The whole page as markup, with a tag on each line where white space doesn't count. It is refused
/// where there is no document.
#[unsafe(no_mangle)]
pub extern "C" fn tl_document_pretty_html(
    alloc: Global,
    document: &mut Document,
    out: &mut [u8],
    needed: &mut usize,
) -> u8
    ensures same { document.new.held ≡ document.old.held }
    ensures put { (trees : HtmlForest) → AreTrees document.old.held trees →
        let outcome = pretty_in trees document.old.held in
        Puts outcome out.old out.new needed.new result }

    // Without a document it takes no memory.
    ensures none { document.old.held ≡ None → result ≡ 1 }
{
    let held = document.replace(alloc, None);
    let written = pretty_markup(alloc, &held);
    let _nothing = document.replace(alloc, held);
    copy_result(written, out, needed)
}

/// The links of a document, in order: of each the number of the element, how many bytes its key and
/// its URL have, in 8 bytes each with the lowest first, and both. It is refused where there is no
/// document.
#[unsafe(no_mangle)]
pub extern "C" fn tl_document_links(
    alloc: Global,
    document: &mut Document,
    out: &mut [u8],
    needed: &mut usize,
) -> u8
    ensures same { document.new.held ≡ document.old.held }
    ensures put { let outcome = links_in document.old.held in
        Puts outcome out.old out.new needed.new result }

    // Without a document it takes no memory.
    ensures none { document.old.held ≡ None → result ≡ 1 }
{
    let held = document.replace(alloc, None);
    let written = links_held(alloc, &held);
    let _nothing = document.replace(alloc, held);
    copy_result(written, out, needed)
}

/// Where a link leads from a base. It is refused where one of them is no URL.
#[unsafe(no_mangle)]
pub extern "C" fn tl_join_url(
    alloc: Global,
    base: &[u8],
    link: &[u8],
    out: &mut [u8],
    needed: &mut usize,
) -> u8
    ensures { Puts (joined_of base.now link.now) out.old out.new needed.new result }
{
    copy_result(joined(alloc, base, link), out, needed)
}

/// The table of a `table` element as CSV: a line for each row, with a value for each slot. It is
/// refused where there is no such element; lines with more bytes than the limit aren't understood.
#[unsafe(no_mangle)]
pub extern "C" fn tl_table_csv(
    alloc: Global,
    document: &mut Document,
    node: u32,
    limit: usize,
    out: &mut [u8],
    needed: &mut usize,
) -> u8
    ensures same { document.new.held ≡ document.old.held }
    ensures put { let outcome = table_in node limit document.old.held in
        Puts outcome out.old out.new needed.new result }
{
    let held = document.replace(alloc, None);
    let written = table_of_node(alloc, &held, node, limit);
    let _nothing = document.replace(alloc, held);
    copy_result(written, out, needed)
}
