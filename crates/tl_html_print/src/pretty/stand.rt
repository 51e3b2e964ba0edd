//! How nodes stand among lines.
ghost use Rattle.std.specs.Prelude.{if◌then◌else◌, ◌≡◌};
ghost use Rattle.tl_html_print.specs.Inner.Lines.{is_block_at, is_broken_at, is_frame_at, is_frame_around, element_stand_at, is_late_at, is_unseen_at, stand_at};
ghost use Rattle.tl_html_print.specs.Pretty.{has_lines, is_on_lines};
ghost use Rattle.tl_html_print.specs.declared.pretty.stand.Stand.TheVariants.{Alone, Late};
ghost use Rattle.tl_tree.specs.TreeView.{rows_in};

use crate::element::{html_name, is_void};
use tl_names::is_among;
use tl_tree::{Kind, Tree};
use tl_tree_extract::text::{Display, box_of};

/// How a node stands among lines.
#[derive(Clone, Copy)]
pub(crate) enum Stand {
    /// On lines of its own.
    Alone,
    /// The same of what nothing may stand behind, unless it is broken over lines itself.
    Late,
    /// Nothing of it is shown: white space beside it counts where it would without it.
    Unseen,
    /// In a line, where white space counts.
    Inside,
    /// A text that says something.
    Words,
}

#[rattlefmt::skip]
static FRAMES: [&str; 9] = [
    "colgroup", "frameset", "head", "html", "table", "tbody", "tfoot", "thead", "tr",
];

static UNSEEN: [&str; 7] = [
    "base", "link", "meta", "script", "style", "template", "title",
];

// Whether a box stands on lines of its own.
fn is_on_lines(display: Display) -> bool
    ensures { result ≡ is_on_lines display }
{
    match display {
        Display::Hidden | Display::Inline | Display::LineBreak => false,
        _ => true,
    }
}

// Whether what is in a box may stand on lines of its own.
fn has_lines(display: Display) -> bool
    ensures { result ≡ has_lines display }
{
    match display {
        Display::Preformatted => false,
        _ => is_on_lines(display),
    }
}

// Whether all that is in an element stands on lines of its own.
fn is_frame(tree: &Tree<'_>, number: usize) -> bool
    ensures { result ≡ is_frame_at (rows_in tree.now) number }
{
    match html_name(tree, number) {
        Some(name) => is_among(&FRAMES, name),
        None => false,
    }
}

// Whether a node stands in such an element.
fn is_in_frame(tree: &Tree<'_>, number: usize) -> bool
    ensures { result ≡ is_frame_around (rows_in tree.now) number }
{
    match tree.parent(number) {
        Some(parent) => is_frame(tree, parent),
        None => false,
    }
}

// Whether an element stands on lines of its own.
fn is_block(tree: &Tree<'_>, number: usize) -> bool
    ensures { result ≡ is_block_at (rows_in tree.now) number }
{
    match html_name(tree, number) {
        Some(name) => is_among(&FRAMES, name) || is_on_lines(box_of(tree, number)),
        None => false,
    }
}

// Whether an element is metadata or a script.
fn is_unseen(tree: &Tree<'_>, number: usize) -> bool
    ensures { result ≡ is_unseen_at (rows_in tree.now) number }
{
    match html_name(tree, number) {
        Some(name) => is_among(&UNSEEN, name),
        None => false,
    }
}

/// Whether what is in an element may stand on lines of its own.
pub(crate) fn is_broken(tree: &Tree<'_>, number: usize) -> bool
    ensures { result ≡ is_broken_at (rows_in tree.now) number }
{
    if is_void(tree, number) {
        return false;
    }
    match html_name(tree, number) {
        Some(name) => is_among(&FRAMES, name) || has_lines(box_of(tree, number)),
        None => false,
    }
}

/// Whether white space behind an element is read as if it stood at the end of the body.
pub(crate) fn is_late(tree: &Tree<'_>, number: usize) -> bool
    ensures { result ≡ is_late_at (rows_in tree.now) number }
{
    match html_name(tree, number) {
        Some(name) => is_among(&["body", "html"], name),
        None => false,
    }
}

// How an element stands that stands on lines of its own.
fn block_stand(tree: &Tree<'_>, number: usize) -> Stand
    ensures { result ≡ (if is_late_at (rows_in tree.now) number then Late else Alone) }
{
    if is_late(tree, number) {
        Stand::Late
    } else {
        Stand::Alone
    }
}

// How an element stands among lines.
fn element_stand(tree: &Tree<'_>, number: usize) -> Stand
    ensures { result ≡ element_stand_at (rows_in tree.now) number }
{
    if is_in_frame(tree, number) || is_block(tree, number) {
        block_stand(tree, number)
    } else if is_unseen(tree, number) {
        Stand::Unseen
    } else {
        Stand::Inside
    }
}

/// How a node stands among lines.
pub(crate) fn stand_of(tree: &Tree<'_>, number: usize) -> Stand
    ensures { result ≡ stand_at (rows_in tree.now) number }
{
    match tree.kind(number) {
        Some(Kind::Element) => element_stand(tree, number),
        Some(Kind::Comment) => Stand::Unseen,
        Some(Kind::Doctype) => Stand::Alone,
        _ => Stand::Words,
    }
}
