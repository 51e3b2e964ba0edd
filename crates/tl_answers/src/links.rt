//! The links of a page, as they stand there or where they lead.
ghost use Rattle.std.specs.List.{list_any};
ghost use Rattle.std.specs.Prelude.{IfErr, IfOk, OnOk, flat_map, map, ◌++◌, ◌≡◌};
ghost use Rattle.std.specs.Str.{bytes_eq};
ghost use Rattle.tl_answers.specs.Findings.{finding_of, listed};
ghost use Rattle.tl_answers.specs.LinkLines.{IsLinkReason, is_meant, is_on, led_line, link_lines, meant_line, plain_line};
ghost use Rattle.tl_tree.specs.TreeView.{rows_in};
ghost use Rattle.tl_tree_extract.specs.Links.{link_said, links_of};

use crate::error::AnswerError;
use crate::output::Output;
use std::alloc::{AllocError, Global};
use tl_tree::Tree;
use tl_tree_extract::{Link, is_external, links, resolved};
use tl_values::page_base;
use url::{ParseResult, Url};

/// The hosts to which links lead.
#[derive(Clone, Copy, PartialEq, Eq, Debug)]
pub enum Hosts {
    /// Any, or none.
    Any,
    /// That of the page.
    Own,
    /// Another one, or none, as of `mailto:`.
    Other,
}

/// Where links begin.
#[derive(Clone, Copy)]
pub struct LinkBase<'w> {
    /// The URL of the page. Its `base` counts too, if that has 4096 bytes at most.
    pub page: &'w Url,
    /// The links that are meant. What is no URL is written as it stands, for `Any` host alone.
    pub hosts: Hosts,
}

/// Which links are written, and how.
#[derive(Clone, Copy)]
pub struct LinkQuery<'w> {
    /// The keys of the attributes that are meant, as trees have them; all where there are none.
    pub keys: &'w [&'w str],
    /// Each link is written as the URL where it leads from here; as it stands where this isn't
    /// said.
    pub base: Option<LinkBase<'w>>,
}

// Whether a key is one of these.
fn has_key(keys: &[&str], own: &[u8]) -> bool
    ensures { result ≡ list_any (bytes_eq own.now) (map (λ key. key.now) keys.now) }
{
    for key in keys {
        if own == key.as_bytes() {
            return true;
        }
    }
    false
}

// Whether a link is meant by the key of its attribute.
fn is_meant(keys: &[&str], link: Link<'_>) -> bool
    ensures { result ≡ is_meant (map (λ key. key.now) keys.now) (link_said link.entry) }
{
    match keys {
        [] => true,
        [_, ..] => has_key(keys, link.attribute.key),
    }
}

// The links that are meant, as they stand.
fn plain_lines(
    alloc: Global,
    tree: &Tree<'_>,
    keys: &[&str],
    end: &str,
) -> Result<Vec<u8>, AllocError>
    ensures { IfOk result (λ lines. lines.items ≡ flat_map
        (plain_line (map (λ key. key.now) keys.now) end.now) (links_of (rows_in tree.now))) }
{
    let mut lines = Vec::new(alloc);
    for link in links(alloc, tree)?.iter() {
        if is_meant(keys, *link) {
            lines.extend_from_slice(link.part.bytes)?;
            lines.extend_from_slice(end.as_bytes())?;
        }
    }
    Ok(lines)
}

// Whether a URL is on one of the hosts that are meant.
fn is_on(from: LinkBase<'_>, url: &Url) -> bool
    ensures { result ≡ is_on from.entry.hosts from.entry.page.now url.now }
{
    match from.hosts {
        Hosts::Any => true,
        Hosts::Own => !is_external(from.page, url),
        Hosts::Other => is_external(from.page, url),
    }
}

// Writes where a link leads from the base of the document, and what ends it.
fn put_led(
    alloc: Global,
    from: LinkBase<'_>,
    base: &Url,
    link: &[u8],
    end: &str,
    out: &mut Vec<u8>,
) -> ParseResult<()>
    ensures { OnOk result (out.new.items ≡ out.old.items
        ++ led_line from.entry.hosts from.entry.page.now base.now end.now link.now) }
{
    match resolved(alloc, base, link)? {
        Some(url) if is_on(from, &url) => out.extend_from_slice(url.as_str().as_bytes())?,
        None if from.hosts == Hosts::Any => out.extend_from_slice(link)?,
        _ => return Ok(()),
    }
    out.extend_from_slice(end.as_bytes())?;
    Ok(())
}

// Writes where a link leads, if it is meant.
fn put_meant(
    alloc: Global,
    from: LinkBase<'_>,
    base: &Url,
    keys: &[&str],
    link: Link<'_>,
    end: &str,
    out: &mut Vec<u8>,
) -> ParseResult<()>
    ensures { OnOk result (out.new.items ≡ out.old.items
        ++ meant_line (map (λ key. key.now) keys.now) from.entry.hosts from.entry.page.now base.now
        end.now (link_said link.entry)) }
{
    if !is_meant(keys, link) {
        return Ok(());
    }
    put_led(alloc, from, base, link.part.bytes, end, out)
}

// Where the links that are meant lead, from the base of the document.
fn led_lines(
    alloc: Global,
    tree: &Tree<'_>,
    keys: &[&str],
    from: LinkBase<'_>,
    base: &Url,
    end: &str,
) -> ParseResult<Vec<u8>>
    ensures { IfOk result (λ lines. lines.items ≡ flat_map
        (meant_line (map (λ key. key.now) keys.now) from.entry.hosts from.entry.page.now base.now
        end.now) (links_of (rows_in tree.now))) }
{
    let mut lines = Vec::new(alloc);
    for link in links(alloc, tree)?.iter() {
        put_meant(alloc, from, base, keys, *link, end, &mut lines)?;
    }
    Ok(lines)
}

/// The links of a page that are asked for.
pub(crate) fn link_lines(
    alloc: Global,
    tree: &Tree<'_>,
    query: LinkQuery<'_>,
    end: &str,
) -> Result<Output, AnswerError>
    ensures made { IfOk result (λ lines. finding_of lines
        ≡ listed (link_lines query.entry end.now (rows_in tree.now))) }
    ensures told { IfErr result (IsLinkReason query.entry) }
{
    let Some(from) = query.base else {
        return Ok(Output::from_lines(plain_lines(alloc, tree, query.keys, end)?));
    };
    let base = page_base(alloc, from.page, tree)?;
    let lines = led_lines(alloc, tree, query.keys, from, &base, end)?;
    Ok(Output::from_lines(lines))
}
