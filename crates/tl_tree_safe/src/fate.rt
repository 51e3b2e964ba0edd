//! What becomes of an element.
ghost use Rattle.std.specs.Option.{option_copied};
ghost use Rattle.std.specs.Prelude.{◌≡◌};
ghost use Rattle.tl_tree.specs.TreeView.{rows_in};
ghost use Rattle.tl_html_print.specs.Inner.Printed.{html_name_at};
ghost use Rattle.tl_tree_safe.specs.Inner.Walk.{fate_at, is_passed, listed_fate, named_fate};
ghost use Rattle.tl_tree_safe.specs.Policies.{listed_words};

use crate::known::Known;
use crate::names::is_opaque;
use tl_safe_fit::{Kind, Level, has_room_here, is_void_kind, kind_of};
use tl_tree::{Namespace, Tree};

/// What becomes of an element.
#[derive(Clone, Copy)]
pub(crate) enum Fate {
    /// It is written, as one of a kind.
    Stays(Kind),
    /// What stands in it is written in its place.
    Unwrapped,
    /// Nothing is written of it, nor of what stands in it.
    Goes,
}

impl Fate {
    /// Whether nothing is written of what stands in the element.
    pub(crate) fn is_passed(self) -> bool
        ensures { result ≡ is_passed self }
    {
        match self {
            Fate::Stays(kind) => is_void_kind(kind),
            Fate::Unwrapped => false,
            Fate::Goes => true,
        }
    }
}

// What becomes of an element of a kind whose name is listed.
fn listed_fate(level: &Level, kind: Kind) -> Fate
    ensures { result ≡ listed_fate level.now kind }
{
    if has_room_here(level, kind) {
        Fate::Stays(kind)
    } else if is_void_kind(kind) {
        Fate::Goes
    } else {
        Fate::Unwrapped
    }
}

// What becomes of an element of HTML of a name.
fn named_fate(known: &Known<'_>, level: &Level, name: &[u8]) -> Fate
    ensures { result ≡ named_fate (listed_words known.now.lists) level.now name.now }
{
    if known.lists_tag(name) {
        listed_fate(level, kind_of(name))
    } else if is_opaque(name) {
        Fate::Goes
    } else {
        Fate::Unwrapped
    }
}

/// The name of an element of HTML.
pub(crate) fn html_name<'t>(tree: &'t Tree<'_>, number: usize) -> Option<&'t [u8]>
    ensures { option_copied result ≡ html_name_at (rows_in tree.now) number }
{
    if tree.namespace(number)? != Namespace::Html {
        return None;
    }
    tree.name(number)
}

/// What becomes of an element where there is room for these.
pub(crate) fn fate_of(known: &Known<'_>, level: &Level, tree: &Tree<'_>, number: usize) -> Fate
    ensures { result ≡ fate_at (listed_words known.now.lists) (rows_in tree.now) level.now number }
{
    match html_name(tree, number) {
        Some(name) => named_fate(known, level, name),
        None => Fate::Goes,
    }
}
