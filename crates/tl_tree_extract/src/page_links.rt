//! The links of a page: the URLs that its attributes hold.
ghost use Rattle.std.specs.Prelude.{◌≡◌, ◌+◌, ◌++◌, ◌<◌, ℕ, IfOk, MatchOption, OnOk, false, length, map, true};
ghost use Rattle.std.specs.Option.{option_map};
ghost use Rattle.tl_tree.specs.Asked.{attribute_said, attributes_at};
ghost use Rattle.tl_tree.specs.TreeView.{rows_in};
ghost use Rattle.tl_tree_extract.specs.Candidates.{item_said};
ghost use Rattle.tl_tree_extract.specs.Links.{attribute_links, contents_end, has_base, is_base_at, kind_if, kind_of, link_said, linked, links_at, links_in, links_of, next_item, parts_from, refreshes};

use crate::candidates::{Item, next_candidate, next_word};
use crate::named::is_named_at;
use crate::refresh::next_refresh;
use crate::span::{Part, trimmed};
use crate::url_keys::{UrlKind, kind_at};
use std::alloc::{AllocError, Global};
use tl_tree::{Attribute, AttributeSpace, Kind, Namespace, Tree};

/// A URL in the value of an attribute.
#[derive(Clone, Copy)]
pub struct Link<'t> {
    /// The number of the element.
    pub node: usize,
    pub attribute: Attribute<'t>,
    /// The URL without controls and spaces around it, and where it stands in the value.
    pub part: Part<'t>,
}

// The next URL of a value that holds several, or one among other words.
fn next_item(kind: UrlKind, bytes: &[u8]) -> Option<Item<'_>>
    ensures { option_map item_said result ≡ next_item kind bytes.now }
{
    match kind {
        UrlKind::Whole => None,
        UrlKind::Words => next_word(bytes),
        UrlKind::Candidates => next_candidate(bytes),
        UrlKind::Refresh => next_refresh(bytes),
    }
}

// Adds each URL of a value that holds several, or one among other words.
#[tactic(auto, using(crate::proofs::Found::items_more))]
fn push_items<'t>(
    links: &mut Vec<Link<'t>>,
    node: usize,
    attribute: Attribute<'t>,
    kind: UrlKind,
) -> Result<(), AllocError>
    ensures { let value = attribute.entry.value.now in OnOk result (map link_said links.new.items
        ≡ map link_said links.old.items ++ map (linked node (attribute_said attribute.entry))
        (parts_from kind (length value) value (length value))) }
{
    let value = attribute.value;
    let mut rest = value;
    for _ in 0..value.len() {
        let Some(item) = next_item(kind, rest) else {
            return Ok(());
        };
        links.push(Link {
            node,
            attribute,
            part: trimmed(value.len(), item.rest, item.url),
        })?;
        rest = item.next;
    }
    Ok(())
}

// Adds each URL of a value.
fn push_parts<'t>(
    links: &mut Vec<Link<'t>>,
    node: usize,
    attribute: Attribute<'t>,
    kind: UrlKind,
) -> Result<(), AllocError>
    ensures { OnOk result (map link_said links.new.items
        ≡ map link_said links.old.items ++ links_in node (attribute_said attribute.entry) kind) }
{
    if kind != UrlKind::Whole {
        return push_items(links, node, attribute, kind);
    }
    links.push(Link {
        node,
        attribute,
        part: trimmed(attribute.value.len(), attribute.value, attribute.value),
    })?;
    Ok(())
}

// Whether an element is a `meta` that refreshes, if it is a `meta`.
fn refreshes(tree: &Tree<'_>, number: usize) -> bool
    ensures { result ≡ refreshes (attributes_at (rows_in tree.now) number) }
{
    match tree.value(number, b"http-equiv") {
        Some(value) => value.eq_ignore_ascii_case(b"refresh"),
        None => false,
    }
}

// The `content` of another `meta` holds no URL. For no other attribute the element is asked, so an
// element of many takes no longer.
fn kind_if(tree: &Tree<'_>, number: usize, kind: Option<UrlKind>) -> Option<UrlKind>
    ensures { result ≡ kind_if (refreshes (attributes_at (rows_in tree.now) number)) kind }
{
    match kind {
        Some(UrlKind::Refresh) => refreshes(tree, number).then_some(UrlKind::Refresh),
        _ => kind,
    }
}

// How the value of an attribute of an element holds URLs.
#[tactic(auto, using(crate::proofs::Found::html_is))]
fn kind_of(tree: &Tree<'_>, number: usize, attribute: Attribute<'_>) -> Option<UrlKind>
    ensures { result ≡ kind_of (rows_in tree.now) number (attribute_said attribute.entry) }
{
    let name = tree.name(number)?;
    match (tree.namespace(number)?, attribute.space) {
        (Namespace::Html, AttributeSpace::Plain) => {
            kind_if(tree, number, kind_at(attribute.key, name))
        }
        (Namespace::Svg, AttributeSpace::Plain | AttributeSpace::Xlink)
            if attribute.key == b"href".as_slice() => { Some(UrlKind::Whole) }
        _ => None,
    }
}

// Adds the links of an element.
fn push_links<'t>(
    links: &mut Vec<Link<'t>>,
    tree: &'t Tree<'_>,
    number: usize,
) -> Result<(), AllocError>
    ensures { OnOk result (map link_said links.new.items
        ≡ map link_said links.old.items ++ links_at (rows_in tree.now) number) }
{
    for attribute in tree.attributes(number) {
        if let Some(kind) = kind_of(tree, number, attribute) {
            push_parts(links, number, attribute, kind)?;
        }
    }
    Ok(())
}

/// The links of an attribute of an element of this number, in the order of its value.
pub fn attribute_links<'t>(
    alloc: Global,
    tree: &Tree<'_>,
    number: usize,
    attribute: Attribute<'t>,
) -> Result<Vec<Link<'t>>, AllocError>
    ensures { IfOk result (λ links. map link_said links.items
        ≡ attribute_links (rows_in tree.now) number (attribute_said attribute.entry)) }
{
    let mut links = Vec::new(alloc);
    if let Some(kind) = kind_of(tree, number, attribute) {
        push_parts(&mut links, number, attribute, kind)?;
    }
    Ok(links)
}

/// Where contents of templates end at last that begin no later than a number, from where those end
/// that begin before it.
pub(crate) fn contents_end(tree: &Tree<'_>, number: usize, behind: usize) -> usize
    requires { behind ≡ contents_end (rows_in tree.now) number }
    ensures { result ≡ contents_end (rows_in tree.now) (number + 1) }
{
    match (tree.kind(number), tree.end(number)) {
        (Some(Kind::Contents), Some(end)) => behind.max(end),
        _ => behind,
    }
}

/// The links of a page, in the order of the page: those of an element in the order of its tag. What
/// stands in the contents of a `template` is left out.
pub fn links<'t>(alloc: Global, tree: &'t Tree<'_>) -> Result<Vec<Link<'t>>, AllocError>
    ensures { IfOk result (λ links. map link_said links.items ≡ links_of (rows_in tree.now)) }
{
    let mut links = Vec::new(alloc);
    let mut behind = 0;
    for number in 0..tree.len() {
        if number >= behind {
            push_links(&mut links, tree, number)?;
        }
        behind = contents_end(tree, number, behind);
    }
    Ok(links)
}

static BASE_NAMES: [&str; 1] = ["base"];

// Whether there is a `base` of this number that has an `href`.
#[tactic(auto, unfolding(crate::specs::Links::base_names))]
fn has_base(tree: &Tree<'_>, number: usize) -> bool
    ensures { result ≡ has_base (rows_in tree.now) number }
{
    is_named_at(&BASE_NAMES, tree, number) && tree.value(number, b"href").is_some()
}

/// The number of the `base` by which the URLs of a page are resolved: the first one that has an
/// `href`. One in the contents of a `template` is left out.
pub fn base(tree: &Tree<'_>) -> Option<usize>
    ensures { let rows = rows_in tree.now in MatchOption result
        ((n : ℕ) → n < length rows → is_base_at rows n ≡ false)
        (λ n. (is_base_at rows n ≡ true) × ((m : ℕ) → m < n → is_base_at rows m ≡ false)) }
{
    let mut behind = 0;
    for number in 0..tree.len() {
        if number >= behind && has_base(tree, number) {
            return Some(number);
        }
        behind = contents_end(tree, number, behind);
    }
    None
}
