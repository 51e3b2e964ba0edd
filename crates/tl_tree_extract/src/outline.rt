//! The headings of a page.
ghost use Rattle.std.specs.Option.{option_map_or};
ghost use Rattle.std.specs.Prelude.{IfOk, OnOk, [], ◌++◌, ◌≡◌};
ghost use Rattle.tl_tree.specs.TreeView.{rows_in};
ghost use Rattle.tl_tree_extract.specs.Outline.{heading, heading_line, headings_of, indentation, level_at, level_of, outline_of};

use crate::page_links::contents_end;
use crate::text::write_one_line;
use std::alloc::{AllocError, Global};
use tl_tree::{Namespace, Tree};

/// A heading of a page.
#[derive(Clone, Copy, PartialEq, Eq, Debug)]
pub struct Heading {
    /// The number of the element.
    pub node: usize,
    /// From 1 for an `h1` to 6 for an `h6`.
    pub level: u8,
}

// The level of a heading by its name.
fn level_of(name: &[u8]) -> Option<u8>
    ensures { result ≡ level_of name.now }
{
    match name {
        [b'h', digit @ b'1'..=b'6'] => Some(*digit - b'0'),
        _ => None,
    }
}

// The level of a node, if it is a heading.
fn level_at(tree: &Tree<'_>, number: usize) -> Option<u8>
    ensures { result ≡ level_at (rows_in tree.now) number }
{
    match (tree.namespace(number), tree.name(number)) {
        (Some(Namespace::Html), Some(name)) => level_of(name),
        _ => None,
    }
}

// Adds a node, if it is a heading.
fn push_heading(
    headings: &mut Vec<Heading>,
    tree: &Tree<'_>,
    number: usize,
) -> Result<(), AllocError>
    ensures { OnOk result (headings.new.items ≡ headings.old.items
        ++ option_map_or (heading number) (level_at (rows_in tree.now) number) []) }
{
    if let Some(level) = level_at(tree, number) {
        headings.push(Heading {
            node: number,
            level,
        })?;
    }
    Ok(())
}

/// The headings of a page, in the order of the page. What stands in the contents of a `template` is
/// left out.
pub fn headings(alloc: Global, tree: &Tree<'_>) -> Result<Vec<Heading>, AllocError>
    ensures { IfOk result (λ headings. headings.items ≡ headings_of (rows_in tree.now)) }
{
    let mut headings = Vec::new(alloc);
    let mut behind = 0;
    for number in 0..tree.len() {
        if number >= behind {
            push_heading(&mut headings, tree, number)?;
        }
        behind = contents_end(tree, number, behind);
    }
    Ok(headings)
}

// As many spaces as the most levels have.
static SPACES: [u8; 510] = [b' '; 510];

/// Writes two spaces for each of so many levels.
#[tactic(auto, using(crate::proofs::Spaces::indented))]
pub(crate) fn put_indentation(levels: u8, out: &mut Vec<u8>) -> Result<(), AllocError>
    ensures { OnOk result (out.new.items ≡ out.old.items ++ indentation levels) }
{
    out.extend_from_slice(&SPACES[..2 * levels as usize])
}

// Writes the line of a heading.
fn put_heading(
    tree: &Tree<'_>,
    heading: Heading,
    room: &mut Vec<u8>,
    out: &mut Vec<u8>,
) -> Result<(), AllocError>
    ensures { OnOk result
        (out.new.items ≡ out.old.items ++ heading_line (rows_in tree.now) heading) }
{
    put_indentation(heading.level.saturating_sub(1), out)?;
    out.extend_from_slice(tree.name(heading.node).unwrap_or(b""))?;
    out.push(b' ')?;
    write_one_line(tree, heading.node, room, out)?;
    out.push(b'\n')?;
    Ok(())
}

/// Writes a line for each heading of a page, as `h2 Words`, behind two spaces for each level above.
pub fn write_outline(alloc: Global, tree: &Tree<'_>, out: &mut Vec<u8>) -> Result<(), AllocError>
    ensures { OnOk result (out.new.items ≡ out.old.items ++ outline_of (rows_in tree.now)) }
{
    let headings = headings(alloc, tree)?;
    let mut room = Vec::new(alloc);
    for heading in &headings {
        put_heading(tree, *heading, &mut room, out)?;
    }
    Ok(())
}
