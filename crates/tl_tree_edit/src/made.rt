//! Whether one tree is another one with an operation made on some of its elements.
ghost use Rattle.std.specs.Bool.{IsTrue};
ghost use Rattle.std.specs.Prelude.{IfErr, IfOk, MatchResult, flat_map, map, ◌≡◌, ◌↔◌};
ghost use Rattle.tl_tree.specs.TreeView.{rows_in};
ghost use Rattle.tl_tree_edit.specs.Operations.{IsMade, changes_each, made, puts};
ghost use Rattle.tl_tree_edit.specs.Unmade.{IsUnmade, IsUnput};
ghost use Rattle.tl_tree_edit.specs.View.{change_of, edit_of, operation_of};
ghost use Rattle.tl_tree_edit.specs.declared.error.MadeError.TheVariants.{OutOfMemory};

use crate::change::{Change, Edit};
use crate::edited::is_edited;
use crate::error::MadeError;
use crate::fragments::{edits_of, fragments, push_edits};
use crate::operation::Operation;
use crate::position::Position;
use std::alloc::{AllocError, Global};
use tl_tree::Tree;

// The same change of each of these elements.
fn edits_by<'c, 'p>(
    alloc: Global,
    old: &Tree<'_>,
    numbers: &[usize],
    change: Change<'c, 'p>,
) -> Result<Vec<Edit<'c, 'p>>, AllocError>
    ensures { IfOk result (λ edits. map edit_of edits.items
        ≡ flat_map
        (made (rows_in old.now) old.now.is_quirks (changes_each (change_of change.entry)))
        numbers.now) }
{
    let mut edits = Vec::with_capacity(alloc, numbers.len())?;
    for number in numbers {
        push_edits(&mut edits, old, change, *number)?;
    }
    Ok(edits)
}

// Whether a change was made.
fn has_changed(
    alloc: Global,
    old: &Tree<'_>,
    numbers: &[usize],
    change: Change<'_, '_>,
    new: &Tree<'_>,
) -> Result<bool, MadeError>
    ensures { MatchResult result
        (λ is. IsTrue is ↔ IsMade (rows_in old.now) old.now.is_quirks numbers.now
        (changes_each (change_of change.entry)) (rows_in new.now))
        (λ why. why ≡ OutOfMemory) }
{
    let edits = edits_by(alloc, old, numbers, change)?;
    Ok(is_edited(alloc, old, edits.as_slice(), new)?)
}

// Whether markup was put.
fn has_put(
    alloc: Global,
    old: &Tree<'_>,
    numbers: &[usize],
    position: Position,
    markup: &[u8],
    new: &Tree<'_>,
) -> Result<bool, MadeError>
    ensures { MatchResult result
        (λ is. IsTrue is ↔ IsMade (rows_in old.now) old.now.is_quirks numbers.now
        (puts position markup.now) (rows_in new.now))
        (IsUnput (rows_in old.now) old.now.is_quirks position markup.now numbers.now) }
{
    let own = fragments(alloc, old, numbers, position, markup)?;
    let edits = edits_of(
        alloc,
        old,
        position,
        own.readings.as_slice(),
        own.each.as_slice(),
    )?;
    Ok(is_edited(alloc, old, edits.as_slice(), new)?)
}

/// Whether one tree says what another one says once this is done to each of these elements of it.
///
/// Their numbers are in order, each once; nothing is done to an element that goes with one that it
/// stands in. Markup is read as the DOM reads it there, by the standard, without scripts.
pub fn is_made(
    alloc: Global,
    old: &Tree<'_>,
    numbers: &[usize],
    operation: Operation<'_, '_>,
    new: &Tree<'_>,
) -> Result<bool, MadeError>
    ensures made { IfOk result (λ is. IsTrue is
        ↔ IsMade (rows_in old.now) old.now.is_quirks numbers.now
        (operation_of operation.entry) (rows_in new.now)) }
    ensures unmade { IfErr result (IsUnmade (rows_in old.now) old.now.is_quirks numbers.now
        (operation_of operation.entry)) }
{
    match operation {
        Operation::Each(change) => has_changed(alloc, old, numbers, change, new),
        Operation::Markup(position, markup) => {
            has_put(alloc, old, numbers, position, markup, new)
        }
    }
}
