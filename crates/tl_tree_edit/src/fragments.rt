//! Markup as it is read at each of some elements.
ghost use Rattle.std.specs.Prelude.{IfOk, MatchResult, OnOk, map, ◌++◌, ◌≡◌};
ghost use Rattle.tl_tree.specs.Asked.{first_child_at};
ghost use Rattle.tl_tree.specs.TreeView.{rows_in};
ghost use Rattle.tl_tree_edit.specs.Inner.Contexts.{put_by, read_for, rows_read, put_read, should_read};
ghost use Rattle.tl_tree_edit.specs.Operations.{also_changed, contents_first, contents_or, edit_for, edits_for, is_contents, row_for};
ghost use Rattle.tl_tree_edit.specs.Unmade.{IsUnput};
ghost use Rattle.tl_tree_edit.specs.View.{change_of, edit_of, put_of};

use crate::change::{Change, Edit, Put};
use crate::error::MadeError;
use crate::forms::Forms;
use crate::position::Position;
use crate::readings::{Reading, Seat, reading_at};
use std::alloc::{AllocError, Global};
use tl_tree::{Kind, Tree};

/// What is put, seen from the element of a number.
#[derive(Clone, Copy)]
pub(crate) struct Fragment {
    number: usize,
    /// The number of its reading.
    reading: usize,
}

/// Markup as it is read where it is put, seen from elements.
#[derive(Drop)]
pub(crate) struct PutMarkup<'m> {
    pub(crate) readings: Vec<Reading<'m>>,
    pub(crate) each: Vec<Fragment>,
}

/// Markup as it is read where it is put, seen from each of these elements.
pub(crate) fn fragments<'m>(
    alloc: Global,
    old: &Tree<'_>,
    numbers: &[usize],
    position: Position,
    markup: &'m [u8],
) -> Result<PutMarkup<'m>, MadeError>
    ensures { MatchResult result
        (λ own. map (read_for own.readings.items) own.each.items
        ≡ map (should_read (rows_in old.now) old.now.is_quirks position markup.now) numbers.now)
        (IsUnput (rows_in old.now) old.now.is_quirks position markup.now numbers.now) }
{
    let mut readings = Vec::new(alloc);
    let mut each = Vec::with_capacity(alloc, numbers.len())?;
    let mut forms = Forms::new(old);
    let is_adjacent = position.is_adjacent();
    for number in numbers {
        let number = *number;
        let seat = Seat::of(old, &mut forms, position, number);
        let reading = reading_at(alloc, old, &mut readings, is_adjacent, seat, markup)?;
        each.push(Fragment { number, reading })?;
    }
    Ok(PutMarkup { readings, each })
}

// Whether a node is the contents of a template.
fn is_contents(tree: &Tree<'_>, number: usize) -> bool
    ensures { result ≡ is_contents (rows_in tree.now) number }
{
    matches!(tree.kind(number), Some(Kind::Contents))
}

// The row of the contents of a template, or that of another element.
fn contents_or(tree: &Tree<'_>, number: usize) -> usize
    ensures { result
        ≡ contents_or (rows_in tree.now) number (first_child_at (rows_in tree.now) number) }
{
    let Some(first) = tree.first_child(number) else {
        return number;
    };
    if is_contents(tree, first) {
        first
    } else {
        number
    }
}

// The row that is changed.
fn row_for(tree: &Tree<'_>, change: Change<'_, '_>, number: usize) -> usize
    ensures { result ≡ row_for (rows_in tree.now) (change_of change.entry) number }
{
    if change.is_put_inside() {
        return contents_or(tree, number);
    }
    number
}

/// A change of the element of a number.
pub(crate) fn edit_for<'c, 'p>(
    tree: &Tree<'_>,
    change: Change<'c, 'p>,
    number: usize,
) -> Edit<'c, 'p>
    ensures { edit_of result ≡ edit_for (rows_in tree.now) (change_of change.entry) number }
{
    Edit {
        number: row_for(tree, change, number),
        change,
    }
}

// The contents of a template that goes without what is in it.
fn also_changed(tree: &Tree<'_>, change: Change<'_, '_>, number: usize) -> Option<usize>
    ensures { result ≡ also_changed (rows_in tree.now) (change_of change.entry) number }
{
    let Change::Unwrap = change else {
        return None;
    };
    let first = tree.first_child(number)?;
    if is_contents(tree, first) {
        Some(first)
    } else {
        None
    }
}

/// Puts the edits by which the element of a number is changed behind others.
pub(crate) fn push_edits<'c, 'p>(
    edits: &mut Vec<Edit<'c, 'p>>,
    tree: &Tree<'_>,
    change: Change<'c, 'p>,
    number: usize,
) -> Result<(), AllocError>
    ensures { OnOk result (map edit_of edits.new.items
        ≡ map edit_of edits.old.items
        ++ edits_for (rows_in tree.now) (change_of change.entry) number) }
{
    edits.push(edit_for(tree, change, number))?;
    if let Some(number) = also_changed(tree, change, number) {
        edits.push(Edit { number, change })?;
    }
    Ok(())
}

// What is put of a reading.
fn put_of_reading<'c, 'm>(readings: &'c [Reading<'m>], number: usize) -> Put<'c, 'm>
    ensures { put_of result ≡ put_read (rows_read readings.now number) }
{
    match readings.get(number) {
        Some(own) => Put::Trees(&own.trees),
        None => Put::Text(&[]),
    }
}

/// The edits by which these are put.
pub(crate) fn edits_of<'c, 'm>(
    alloc: Global,
    old: &Tree<'_>,
    position: Position,
    readings: &'c [Reading<'m>],
    each: &[Fragment],
) -> Result<Vec<Edit<'c, 'm>>, AllocError>
    ensures { IfOk result (λ edits. map edit_of edits.items
        ≡ map (put_by (rows_in old.now) position) (map (read_for readings.now) each.now)) }
{
    let mut edits = Vec::with_capacity(alloc, each.len())?;
    for own in each {
        let change = position.change(put_of_reading(readings, own.reading));
        edits.push(edit_for(old, change, own.number))?;
    }
    Ok(edits)
}
