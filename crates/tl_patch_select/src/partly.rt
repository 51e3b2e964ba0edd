//! A page with those of some elements changed that can be.
ghost use Rattle.std.specs.List.Sorted.{IsStrictlyIncreasing};
ghost use Rattle.std.specs.Option.{option_to_list};
ghost use Rattle.std.specs.Prelude.{IfErr, IfOk, OnOk, length, map, reverse, ◌++◌, ◌-◌, ◌≡◌};
ghost use Rattle.tl_patch_edit.specs.View.{patch_view};
ghost use Rattle.tl_patch_edit.specs.declared.error.EditError.TheVariants.{NoStartTag};
ghost use Rattle.tl_patch_select.specs.NodeEdits.{AreNodesEdited, edit_of};
ghost use Rattle.tl_patch_select.specs.Inner.Known.{IsKnown, known_from};
ghost use Rattle.tl_patch_select.specs.Partly.{AreLeftOut, AreRefusedOf, AreTagged, AreUnstartedOf, IsRestRefused, crossed_places, has_other_place, is_told, left_over, others, patched_each, put_in_at, put_in_places, refused_place, refused_places};
ghost use Rattle.tl_patch_select.specs.Selected.{first_place, place_of};
ghost use Rattle.tl_tree.specs.TreeView.{rows_in};

use crate::edit_error::SelectionEditError;
use crate::node_edit::NodeEdit;
use crate::node_edits::edit_nodes;
use crate::patched::Patched;
use crate::selected::{first_place, place_of, places_in_order, put_in_order};
use crate::whole::{Crossed, find_all_crossed};
use std::alloc::{AllocError, Global};
use tl_patch_edit::{EditError, ElementPatch, refusals_at, unstarted_at};
use tl_tree::Tree;

/// Why some elements aren't changed.
#[derive(Drop)]
pub struct LeftOut {
    /// Of those that no tag stands for: what begins behind the place where they were put in.
    pub untagged: Vec<usize>,
    /// Those that aren't whole.
    pub crossed: Vec<Crossed>,
    /// What begins them, and why they can't be changed so.
    pub refused: Vec<EditError>,
}

/// A page with some elements changed.
#[derive(Drop)]
pub struct PartlyPatched {
    pub patched: Patched,
    /// The numbers of the elements that are changed.
    pub numbers: Vec<usize>,
    /// Why the others aren't.
    pub left_out: LeftOut,
}

// A row of a tree, and where the first node from it on comes from that has a place.
#[derive(Clone, Copy)]
struct Known {
    row: usize,
    place: usize,
}

// Where the first node from a number on comes from, by what is known of a row.
fn place_from(tree: &Tree<'_>, page_len: usize, number: usize, known: Known) -> usize
    requires { IsKnown tree.now page_len known }
    ensures { result
        ≡ first_place tree.now page_len number (length (rows_in tree.now) - number) }
{
    if known.row < number {
        return first_place(tree, number, page_len);
    }
    for later in number..known.row {
        if let Some(place) = place_of(tree, later) {
            return place;
        }
    }
    known.place
}

// What is known, with a place from an earlier number on.
fn known_from(known: Known, number: usize, place: usize) -> Known
    ensures { result ≡ known_from known number place }
{
    if number < known.row {
        Known { row: number, place }
    } else {
        known
    }
}

// Adds where an element was put in, if no tag stands for it. What is known then.
fn push_put_in(
    tree: &Tree<'_>,
    page_len: usize,
    number: usize,
    known: Known,
    places: &mut Vec<usize>,
) -> Result<Known, AllocError>
    requires { IsKnown tree.now page_len known }
    ensures known { IfOk result (IsKnown tree.now page_len) }
    ensures places { OnOk result (places.new.items ≡ places.old.items
        ++ option_to_list (put_in_at tree.now page_len number (place_of tree.now number))) }
{
    match place_of(tree, number) {
        Some(_) => Ok(known),
        None => {
            let place = place_from(tree, page_len, number, known);
            places.push(place)?;
            Ok(known_from(known, number, place))
        }
    }
}

// Where those of some elements were put in that no tag stands for. Those that stand later in the
// tree come first, so that no row is looked at twice.
fn put_in_places(
    alloc: Global,
    tree: &Tree<'_>,
    page_len: usize,
    numbers: &[usize],
) -> Result<Vec<usize>, AllocError>
    ensures { IfOk result (λ places.
        places.items ≡ put_in_places tree.now page_len numbers.now) }
{
    let mut places = Vec::new(alloc);
    let mut known = Known {
        row: tree.len(),
        place: page_len,
    };
    for number in numbers {
        known = push_put_in(tree, page_len, *number, known, &mut places)?;
    }
    Ok(places)
}

fn crossed_places(alloc: Global, crossed: &[Crossed]) -> Result<Vec<usize>, AllocError>
    ensures { IfOk result (λ places. places.items ≡ crossed_places crossed.now) }
{
    let mut places = Vec::with_capacity(alloc, crossed.len())?;
    for one in crossed {
        places.push(one.place)?;
    }
    Ok(places)
}

// What begins the element that an error speaks of.
fn refused_place(error: EditError) -> Option<usize>
    ensures { option_to_list result ≡ refused_place error }
{
    match error {
        EditError::NoStartTag(place) => Some(place),
        EditError::NotMeant(place) => Some(place),
        _ => None,
    }
}

fn refused_places(alloc: Global, errors: &[EditError]) -> Result<Vec<usize>, AllocError>
    ensures { IfOk result (λ places. places.items ≡ refused_places errors.now) }
{
    let mut places = Vec::with_capacity(alloc, errors.len())?;
    for error in errors {
        if let Some(place) = refused_place(*error) {
            places.push(place)?;
        }
    }
    Ok(places)
}

// Whether a place is one of these, which stand in order.
fn is_told(told: &[usize], place: usize) -> bool
    requires { IsStrictlyIncreasing told.now }
    ensures { result ≡ is_told told.now place }
{
    told.binary_search(&place).is_ok()
}

// Whether an element has a start tag, which begins at none of these places.
fn has_other_place(tree: &Tree<'_>, told: &[usize], number: usize) -> bool
    requires { IsStrictlyIncreasing told.now }
    ensures { result ≡ has_other_place told.now (place_of tree.now number) }
{
    match place_of(tree, number) {
        Some(place) => !is_told(told, place),
        None => false,
    }
}

fn others_by(
    alloc: Global,
    tree: &Tree<'_>,
    told: &[usize],
    numbers: &[usize],
) -> Result<Vec<usize>, AllocError>
    requires { IsStrictlyIncreasing told.now }
    ensures { IfOk result (λ left. left.items ≡ others tree.now told.now numbers.now) }
{
    let mut left = Vec::with_capacity(alloc, numbers.len())?;
    for number in numbers {
        if has_other_place(tree, told, *number) {
            left.push(*number)?;
        }
    }
    Ok(left)
}

// Those of some elements that have a start tag, which begins at none of these places.
fn others(
    alloc: Global,
    tree: &Tree<'_>,
    told: &[usize],
    numbers: &[usize],
) -> Result<Vec<usize>, AllocError>
    ensures { IfOk result (λ left. left.items ≡ others tree.now told.now numbers.now) }
{
    let mut told = Vec::from_slice(alloc, told)?;
    put_in_order(&mut told);
    let left = others_by(alloc, tree, told.as_slice(), numbers)?;
    Ok(left)
}

// This patch of each of these elements.
fn each<'a>(
    alloc: Global,
    numbers: &[usize],
    patch: ElementPatch<'a>,
) -> Result<Vec<NodeEdit<'a>>, AllocError>
    ensures { IfOk result (λ edits. map edit_of edits.items
        ≡ patched_each (patch_view patch.entry) numbers.now) }
{
    let mut edits = Vec::with_capacity(alloc, numbers.len())?;
    for number in numbers {
        edits.push(NodeEdit {
            number: *number,
            patch,
        })?;
    }
    Ok(edits)
}

// Why this patch of the elements that have these numbers would be refused.
fn refused(
    alloc: Global,
    page: &[u8],
    tree: &Tree<'_>,
    numbers: &[usize],
    patch: ElementPatch<'_>,
) -> Result<Vec<EditError>, AllocError>
    ensures { IfOk result (λ errors. AreRefusedOf (patch_view patch.entry) tree.now page.now
        numbers.now errors.items) }
{
    let places = places_in_order(alloc, tree, numbers)?;
    let errors = refusals_at(alloc, page, places.as_slice(), patch)?;
    Ok(errors)
}

// The same numbers from the last one on.
fn backwards(alloc: Global, numbers: &[usize]) -> Result<Vec<usize>, AllocError>
    ensures { IfOk result (λ back. back.items ≡ reverse numbers.now) }
{
    let mut back = Vec::from_slice(alloc, numbers)?;
    back.reverse();
    Ok(back)
}

/// The page with this patch of those of some elements of its tree that can be changed, and of no
/// other byte; and why the others can't: no tag stands for them, they aren't whole, or the patch
/// can't be meant for them. It is still refused where that of the rest is, as of a text that may be
/// read as markup. The numbers stand in order, else this isn't linear.
pub fn edit_partly(
    alloc: Global,
    page: &[u8],
    tree: &Tree<'_>,
    numbers: &[usize],
    patch: ElementPatch<'_>,
) -> Result<PartlyPatched, SelectionEditError>
    ensures left_out { IfOk result (λ own. AreLeftOut (patch_view patch.entry) tree.now page.now
        numbers.now own.left_out) }
    ensures numbers { IfOk result (λ own.
        own.numbers.items ≡ left_over tree.now numbers.now own.left_out) }
    ensures edited { IfOk result (λ own. AreNodesEdited
        (patched_each (patch_view patch.entry) own.numbers.items) tree.now page.now
        own.patched.bytes.items own.patched.places.items) }
    ensures refused { IfErr result
        (IsRestRefused (patch_view patch.entry) tree.now page.now numbers.now) }
{
    let back = backwards(alloc, numbers)?;
    let untagged = put_in_places(alloc, tree, page.len(), back.as_slice())?;
    let crossed = find_all_crossed(alloc, page, tree, back.as_slice())?;
    let told = crossed_places(alloc, crossed.as_slice())?;
    let whole = others(alloc, tree, told.as_slice(), numbers)?;
    let refused = refused(alloc, page, tree, whole.as_slice(), patch)?;
    let told = refused_places(alloc, refused.as_slice())?;
    let numbers = others(alloc, tree, told.as_slice(), whole.as_slice())?;
    let edits = each(alloc, numbers.as_slice(), patch)?;
    let patched = edit_nodes(alloc, page, tree, edits.as_slice())?;
    Ok(PartlyPatched {
        patched,
        numbers,
        left_out: LeftOut {
            untagged,
            crossed,
            refused,
        },
    })
}

// Where no start tag begins, of the places of these elements.
fn unstarted(
    alloc: Global,
    page: &[u8],
    tree: &Tree<'_>,
    numbers: &[usize],
) -> Result<Vec<usize>, AllocError>
    ensures { IfOk result (λ unstarted.
        AreUnstartedOf tree.now page.now numbers.now unstarted.items) }
{
    let places = places_in_order(alloc, tree, numbers)?;
    let unstarted = unstarted_at(alloc, page, places.as_slice())?;
    Ok(unstarted)
}

// That no start tag begins at these places.
fn no_start_tags(alloc: Global, places: &[usize]) -> Result<Vec<EditError>, AllocError>
    ensures { IfOk result (λ errors. errors.items ≡ map NoStartTag places.now) }
{
    let mut errors = Vec::with_capacity(alloc, places.len())?;
    for place in places {
        errors.push(EditError::NoStartTag(*place))?;
    }
    Ok(errors)
}

/// Of some elements those that are left, and why the others aren't.
#[derive(Drop)]
pub struct LeftOver {
    pub numbers: Vec<usize>,
    pub left_out: LeftOut,
}

/// Of some elements of the tree of a page those whose tags can be changed, and why those of the
/// others can't: no tag stands for them, or the tokenizer by itself reads no start tag there. The
/// numbers stand in order, else this isn't linear.
pub fn tagged_nodes(
    alloc: Global,
    page: &[u8],
    tree: &Tree<'_>,
    numbers: &[usize],
) -> Result<LeftOver, AllocError>
    ensures tagged { IfOk result (λ own.
        AreTagged tree.now page.now numbers.now own.numbers.items own.left_out) }
    ensures untagged { IfOk result (λ own. own.left_out.untagged.items
        ≡ put_in_places tree.now (length page.now) (reverse numbers.now)) }
{
    let back = backwards(alloc, numbers)?;
    let untagged = put_in_places(alloc, tree, page.len(), back.as_slice())?;
    let unstarted = unstarted(alloc, page, tree, numbers)?;
    let refused = no_start_tags(alloc, unstarted.as_slice())?;
    let numbers = others(alloc, tree, unstarted.as_slice(), numbers)?;
    Ok(LeftOver {
        numbers,
        left_out: LeftOut {
            untagged,
            crossed: Vec::new(alloc),
            refused,
        },
    })
}
