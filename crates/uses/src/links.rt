//! Where the links of a page lead.
ghost use Rattle.std.specs.Option.{option_copied};
ghost use Rattle.std.specs.Prelude.{IfOk, OnOk, Option, ℕ, ◌++◌, ◌≡◌};
ghost use Rattle.tl_tree.specs.TreeView.{rows_in};
ghost use Rattle.tl_tree_extract.specs.Resolved.{document_base};
ghost use Rattle.uses.specs.Links.{IsBase, href_of, link_line, link_lines};

use std::alloc::Global;
use tl_tree::Tree;
use tl_tree_extract::{base as base_of, document_base, links as links_of, resolved};
use url::{ParseResult, Url};

// What stands at the `href` of the first `base` that has one.
fn base_href<'t>(tree: &'t Tree<'_>) -> Option<&'t [u8]>
    ensures { let rows = rows_in tree.now in
        (n : Option ℕ) × IsBase rows n × (option_copied result ≡ href_of rows n) }
{
    let number = base_of(tree)?;
    tree.value(number, b"href")
}

// Adds where a link leads, or the link itself where it is no URL.
fn add_link(alloc: Global, lines: &mut Vec<u8>, base: &Url, link: &[u8]) -> ParseResult<()>
    ensures { OnOk result (lines.new.items ≡ lines.old.items ++ link_line base.now link.now) }
{
    match resolved(alloc, base, link)? {
        Some(url) => lines.extend_from_slice(url.as_str().as_bytes())?,
        None => lines.extend_from_slice(link)?,
    }
    lines.extend_from_slice(b"\n")?;
    Ok(())
}

// Where the links of a page lead from this URL.
fn link_lines(alloc: Global, base: &Url, tree: &Tree<'_>) -> ParseResult<Vec<u8>>
    ensures { IfOk result (λ lines. lines.items ≡ link_lines base.now (rows_in tree.now)) }
{
    let mut lines = Vec::new(alloc);
    for link in links_of(alloc, tree)?.iter() {
        add_link(alloc, &mut lines, base, link.part.bytes)?;
    }
    Ok(lines)
}

/// Where the links of a page lead, each on a line, in the order of the page: from `own`, which is
/// the page's URL, or from what its first `base` says. A link that is no URL is written as it is.
pub fn links(alloc: Global, own: &Url, tree: &Tree<'_>) -> ParseResult<Vec<u8>>
    ensures { let rows = rows_in tree.now in IfOk result (λ lines.
        (n : Option ℕ) × IsBase rows n
        × (lines.items ≡ link_lines (document_base own.now (href_of rows n)) rows)) }
{
    let base = document_base(alloc, own, base_href(tree))?;
    link_lines(alloc, &base, tree)
}
