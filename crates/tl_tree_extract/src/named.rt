//! HTML elements by their names.
ghost use Rattle.std.specs.Prelude.{◌≡◌};
ghost use Rattle.tl_names.specs.Elements.{words_of};
ghost use Rattle.tl_tree.specs.TreeView.{rows_in};
ghost use Rattle.tl_tree_extract.specs.Named.{is_named_at};

use tl_names::is_among;
use tl_tree::{Namespace, Tree};

/// Whether there is an HTML element of this number with one of these names.
pub fn is_named_at(names: &[&str], tree: &Tree<'_>, number: usize) -> bool
    ensures { result ≡ is_named_at (words_of names.now) (rows_in tree.now) number }
{
    match (tree.namespace(number), tree.name(number)) {
        (Some(Namespace::Html), Some(name)) => is_among(names, name),
        _ => false,
    }
}
