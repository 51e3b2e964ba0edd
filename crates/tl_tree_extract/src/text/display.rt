//! Which box an element has, as far as the readable text of a page goes by it.
ghost use Rattle.std.specs.Option.{option_map, unwrap_or};
ghost use Rattle.std.specs.Prelude.{List, Some, [], codes, ◌≡◌, ℕ};
ghost use Rattle.tl_html_spec.specs.Balanced.{is_one_of};
ghost use Rattle.tl_names.specs.ElementNames.{name_of};
ghost use Rattle.tl_tree.specs.Asked.{attributes_at};
ghost use Rattle.tl_tree.specs.TreeView.{rows_in};
ghost use Rattle.tl_tree_extract.specs.Boxes.{box_at, common_box, display_at, foreign_box, html_box, is_concealed_html, is_left_out, name_at, rare_box, shown_at};

use crate::text::display::Display::{
    Block, Hidden, Inline, LineBreak, Paragraph, Preformatted, TableBox, TableCell, TableRow,
};
use tl_names::element_name::ElementName;
use tl_names::is_among;
use tl_tree::{Namespace, Tree};

/// What of the default style sheet the readable text of a page goes by.
#[derive(Clone, Copy)]
pub enum Display {
    /// No box.
    Hidden,
    Inline,
    /// A `br`.
    LineBreak,
    /// On lines of its own, with an empty line before and behind it.
    Paragraph,
    /// On lines of its own.
    Block,
    /// On lines of its own, and white space stands as it is.
    Preformatted,
    TableBox,
    TableRow,
    TableCell,
}

// A row for each name, by its number, and then rows for all others.
#[rattlefmt::skip]
static BOXES: [Display; 256] = [
    Inline, Block, Inline, Inline, Inline, Inline, Inline, Inline, Inline, Inline, Hidden, Block,
    Block, Inline, Hidden, Hidden, Inline, Inline, Block, Block, LineBreak, Inline, Block, Block,
    Inline, Inline, Inline, Inline, Block, Inline, Block, Block, Block, Block, Block, Block,
    Inline, Inline, Inline, Inline, Inline, Inline, Inline, Inline, Inline, Inline, Inline,
    Inline, Inline, Inline, Inline, Inline, Inline, Inline, Inline, Inline, Inline, Inline,
    Inline, Inline, Inline, Inline, Inline, Block, Block, Block, Inline, Block, Inline, Inline,
    Block, Block, Block, Inline, Block, Block, Block, Block, Block, Block, Hidden, Block, Block,
    Block, Block, Inline, Hidden, Inline, Inline, Inline, Inline, Block, Inline, Hidden,
    Preformatted, Block, Inline, Inline, Inline, Block, Hidden, Inline, Inline, Inline, Inline,
    Inline, Inline, Block, Inline, Hidden, Hidden, Hidden, Inline, Block, Block, Block, Paragraph,
    Hidden, Preformatted, Preformatted, Inline, Inline, Hidden, Inline, Inline, Inline, Inline,
    Hidden, Block, Block, Inline, Inline, Inline, Inline, Inline, Inline, Hidden, Inline, Block,
    Inline, Inline, TableBox, Inline, TableCell, Hidden, Preformatted, Inline, Inline, TableCell,
    Inline, Hidden, TableRow, Inline, Inline, Inline, Block, Inline, Inline, Preformatted, Inline,
    Inline, Inline, Inline, Inline, Inline, Inline, Inline, Inline, Inline, Inline, Inline,
    Inline, Inline, Inline, Inline, Inline, Inline, Inline, Inline, Inline, Inline, Inline,
    Inline, Inline, Inline, Inline, Inline, Inline, Inline, Inline, Inline, Inline, Inline,
    Inline, Inline, Inline, Inline, Inline, Inline, Inline, Inline, Inline, Inline, Inline,
    Inline, Inline, Inline, Inline, Inline, Inline, Inline, Inline, Inline, Inline, Inline,
    Inline, Inline, Inline, Inline, Inline, Inline, Inline, Inline, Inline, Inline, Inline,
    Inline, Inline, Inline, Inline, Inline, Inline, Inline, Inline, Inline, Inline, Inline,
    Inline, Inline, Inline, Inline, Inline, Inline, Inline, Inline, Inline, Inline, Inline,
    Inline, Inline, Inline, Inline, Inline, Inline, Inline, Inline,
];

// The box of an HTML element by the number of its name.
fn common_box(name: ElementName) -> Display
    ensures { (n : List ℕ) → name ≡ name_of n → result ≡ common_box n }
{
    BOXES[name.number() as usize]
}

// Names that tree construction doesn't speak of.
static RARELY_HIDDEN: [&str; 6] = ["audio", "canvas", "datalist", "meter", "progress", "video"];

#[rattlefmt::skip]
static FOREIGN_HIDDEN: [&str; 15] = [
    "annotation", "annotation-xml", "clipPath", "defs", "desc", "linearGradient", "marker", "mask",
    "metadata", "pattern", "radialGradient", "script", "style", "symbol", "title",
];

// The box of an HTML element whose name is another one.
fn rare_box(name: &[u8]) -> Display
    ensures { result ≡ rare_box name.now }
{
    if is_among(&RARELY_HIDDEN, name) {
        Hidden
    } else if is_among(&["legend"], name) {
        Block
    } else {
        Inline
    }
}

// The name of an element: nothing where there is no such element.
fn name<'t>(tree: &'t Tree<'_>, number: usize) -> &'t [u8]
    ensures { result.now ≡ unwrap_or (name_at (rows_in tree.now) number) [] }
{
    tree.name(number).unwrap_or(b"")
}

// The box of an HTML element with a name of this number.
fn html_box(tree: &Tree<'_>, number: usize, known: ElementName) -> Display
    requires { option_map name_of (name_at (rows_in tree.now) number) ≡ Some known }
    ensures { result ≡ html_box (unwrap_or (name_at (rows_in tree.now) number) []) }
{
    if known == ElementName::OTHER {
        rare_box(name(tree, number))
    } else {
        common_box(known)
    }
}

// The box of an element of `svg` or `math`.
fn foreign_box(name: &[u8]) -> Display
    ensures { result ≡ foreign_box name.now }
{
    if is_among(&FOREIGN_HIDDEN, name) {
        Hidden
    } else if is_among(&["text"], name) {
        Block
    } else {
        Inline
    }
}

// Whether a name of this number is `dialog`.
#[inline(always)]
fn is_dialog(known: ElementName) -> bool
    ensures { (n : List ℕ) → known ≡ name_of n → result ≡ is_one_of (codes "dialog") n }
{
    known == ElementName::DIALOG
}

// Whether an HTML element with a name of this number has no box by its attributes.
fn is_concealed(tree: &Tree<'_>, number: usize, known: ElementName) -> bool
    requires { option_map name_of (name_at (rows_in tree.now) number) ≡ Some known }
    ensures { result ≡ is_concealed_html (unwrap_or (name_at (rows_in tree.now) number) [])
        (attributes_at (rows_in tree.now) number) }
{
    if tree.value(number, b"hidden").is_some() {
        return true;
    }
    is_dialog(known) && tree.value(number, b"open").is_none()
}

// The box of an element with a name of this number by its namespace and name alone.
#[inline(always)]
fn known_box(tree: &Tree<'_>, number: usize, known: ElementName) -> Display
    requires { option_map name_of (name_at (rows_in tree.now) number) ≡ Some known }
    ensures { result ≡ box_at (rows_in tree.now) number }
{
    match tree.namespace(number) {
        Some(Namespace::Html) => html_box(tree, number, known),
        _ => foreign_box(name(tree, number)),
    }
}

/// The box of a node by its namespace and name alone.
pub fn box_of(tree: &Tree<'_>, number: usize) -> Display
    ensures { result ≡ box_at (rows_in tree.now) number }
{
    match tree.element_name(number) {
        Some(known) => known_box(tree, number, known),
        None => Inline,
    }
}

// The box of an element with a name of this number.
fn element_box(tree: &Tree<'_>, number: usize, known: ElementName) -> Display
    requires { option_map name_of (name_at (rows_in tree.now) number) ≡ Some known }
    ensures { result ≡ shown_at (rows_in tree.now) number }
{
    match tree.namespace(number) {
        Some(Namespace::Html) if is_concealed(tree, number, known) => Hidden,
        _ => known_box(tree, number, known),
    }
}

/// Whether a number has a mark.
fn is_left_out(marks: &[bool], number: usize) -> bool
    ensures { result ≡ is_left_out marks.now number }
{
    number < marks.len() && marks[number]
}

/// The box of a node: none of what has a mark.
pub(crate) fn display_of(tree: &Tree<'_>, marks: &[bool], number: usize) -> Display
    ensures { result ≡ display_at marks.now (rows_in tree.now) number }
{
    if is_left_out(marks, number) {
        return Hidden;
    }
    match tree.element_name(number) {
        Some(known) => element_box(tree, number, known),
        None => Inline,
    }
}
