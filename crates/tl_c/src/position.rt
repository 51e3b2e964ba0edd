//! Where a node of the document that is held stands, if one is.
ghost use Rattle.std.specs.Prelude.{◌≡◌, option_map};
ghost use Rattle.tl_c.specs.Queries.{number_or_none, rows_held};
ghost use Rattle.tl_c.specs.Nodes.{position_at};
ghost use Rattle.tl_tree.specs.TreeView.{rows_in};

use crate::held::{NO_NODE, number_or_none};
use crate::parsed_page::ParsedPage;
use tl_tree::Tree;

/// Where a node stands: the numbers of nodes around it.
#[derive(Clone, Copy)]
pub(crate) enum Position {
    /// The node that it stands in.
    Parent,
    /// The first of those that stand in it.
    FirstChild,
    /// The one behind it in what it stands in.
    NextSibling,
    /// The one before it there.
    PreviousSibling,
    /// The number behind the last node below it.
    End,
}

// The number that is asked for in a tree.
fn number_at(tree: &Tree<'_>, node: usize, position: Position) -> Option<usize>
    ensures { result ≡ position_at position (rows_in tree.now) node }
{
    match position {
        Position::Parent => tree.parent(node),
        Position::FirstChild => tree.first_child(node),
        Position::NextSibling => tree.next_sibling(node),
        Position::PreviousSibling => tree.previous_sibling(node),
        Position::End => tree.end(node),
    }
}

/// The number that is asked for.
pub(crate) fn number(held: &Option<Box<ParsedPage>>, node: u32, position: Position) -> u32
    ensures { let rows = rows_held (option_map (λ own. own.value) held.now) in
        result ≡ number_or_none (position_at position rows node) }
{
    let Some(own) = held else {
        return NO_NODE;
    };
    number_or_none(number_at(&own.tree, node as usize, position))
}
