//! Markup as it is read where it comes to stand: once for places where it is read alike.
ghost use Rattle.std.specs.Bool.{IsTrue};
ghost use Rattle.std.specs.Option.{option_and_then};
ghost use Rattle.std.specs.Prelude.{IfSome, MatchResult, OnOk, Some, ◌≡◌, ◌↔◌};
ghost use Rattle.tl_tree.specs.Asked.{name_of, namespace_of, node_at};
ghost use Rattle.tl_tree.specs.TreeView.{rows_in};
ghost use Rattle.tl_tree_edit.specs.Inner.Contexts.{AreFormsOf, AreRead, IsReadAlike, IsUnmadeIn, Keeps, read_at_seat, rows_read, seat_at, seat_context, seat_tag};
ghost use Rattle.tl_tree_edit.specs.Operations.{node_held, read_by, tag_for};

use crate::contexts::{is_math, read_held};
use crate::error::MadeError;
use crate::forms::Forms;
use crate::node::is_same_text;
use crate::position::Position;
use std::alloc::Global;
use tl_tree::Tree;

// How many places are looked at where markup was read.
const MOST: usize = 16;

/// Where markup comes to stand.
#[derive(Clone, Copy)]
pub(crate) struct Seat {
    /// The row that it comes to stand in, if there is one.
    holder: Option<usize>,
    is_in_form: bool,
}

/// Markup as it is read where it comes to stand.
#[derive(Drop)]
pub(crate) struct Reading<'m> {
    seat: Seat,
    pub(crate) trees: Tree<'m>,
}

impl Seat {
    /// Where something is put, seen from an element.
    pub(crate) fn of(tree: &Tree<'_>, forms: &mut Forms, position: Position, number: usize) -> Seat
        requires forms { AreFormsOf (rows_in tree.now) forms.old }
        ensures seat { result ≡ seat_at (rows_in tree.now) position number }
        ensures forms { AreFormsOf (rows_in tree.now) forms.new }
    {
        let holder = position.holder(tree, number);
        Seat {
            holder,
            is_in_form: forms.is_held(tree, holder),
        }
    }
}

// Whether nodes are of the same namespace.
fn are_spaced_alike(tree: &Tree<'_>, one: usize, other: usize) -> bool
    ensures { IsTrue result
        ↔ option_and_then namespace_of (node_at (rows_in tree.now) one)
        ≡ option_and_then namespace_of (node_at (rows_in tree.now) other) }
{
    tree.namespace(one) == tree.namespace(other)
}

// Whether they have the same name.
fn are_named_alike(tree: &Tree<'_>, one: usize, other: usize) -> bool
    ensures { IsTrue result
        ↔ option_and_then name_of (node_at (rows_in tree.now) one)
        ≡ option_and_then name_of (node_at (rows_in tree.now) other) }
{
    is_same_text(tree.name(one), tree.name(other))
}

// Whether rows are contexts in which markup is read alike. Those of `math` may differ in
// attributes.
fn are_like_contexts(tree: &Tree<'_>, is_adjacent: bool, one: usize, other: usize) -> bool
    ensures { IsTrue result
        → tag_for (read_by is_adjacent (node_held (rows_in tree.now) (Some one)))
        ≡ tag_for (read_by is_adjacent (node_held (rows_in tree.now) (Some other))) }
{
    let _ = is_adjacent;
    if one == other {
        return true;
    }
    if is_math(tree, one) {
        return false;
    }
    if !are_spaced_alike(tree, one, other) {
        return false;
    }
    are_named_alike(tree, one, other)
}

// Whether markup is read alike at two places.
fn are_alike(tree: &Tree<'_>, is_adjacent: bool, one: Seat, other: Seat) -> bool
    ensures tag { IsTrue result → seat_tag (rows_in tree.now) is_adjacent one
        ≡ seat_tag (rows_in tree.now) is_adjacent other }
    ensures form { IsTrue result → one.is_in_form ≡ other.is_in_form }
{
    if one.is_in_form != other.is_in_form {
        return false;
    }
    match (one.holder, other.holder) {
        (Some(one), Some(other)) => are_like_contexts(tree, is_adjacent, one, other),
        (None, None) => true,
        _ => false,
    }
}

// One of the last readings, of a place where markup is read as at another one.
fn find_alike(
    tree: &Tree<'_>,
    is_adjacent: bool,
    readings: &[Reading<'_>],
    seat: Seat,
) -> Option<usize>
    ensures { IfSome result
        (IsReadAlike (rows_in tree.now) is_adjacent readings.now seat) }
{
    let first = readings.len().saturating_sub(MOST);
    for number in first..readings.len() {
        if are_alike(tree, is_adjacent, readings[number].seat, seat) {
            return Some(number);
        }
    }
    None
}

/// The number of the reading of markup at a place, which stands behind the others where it is a
/// new one.
pub(crate) fn reading_at<'m>(
    alloc: Global,
    tree: &Tree<'_>,
    readings: &mut Vec<Reading<'m>>,
    is_adjacent: bool,
    seat: Seat,
    markup: &'m [u8],
) -> Result<usize, MadeError>
    requires { AreRead (rows_in tree.now) tree.now.is_quirks is_adjacent markup.now
        readings.old.items }
    ensures read { OnOk result (AreRead (rows_in tree.now) tree.now.is_quirks is_adjacent
        markup.now readings.new.items) }
    ensures kept { OnOk result (Keeps readings.old.items readings.new.items) }
    ensures own { MatchResult result
        (λ k. rows_read readings.new.items k
        ≡ Some (read_at_seat (rows_in tree.now) tree.now.is_quirks is_adjacent markup.now seat))
        (IsUnmadeIn markup.now
        (seat_context (rows_in tree.now) tree.now.is_quirks is_adjacent seat)) }
{
    if let Some(number) = find_alike(tree, is_adjacent, readings.as_slice(), seat) {
        return Ok(number);
    }
    let trees = read_held(
        alloc,
        tree,
        seat.holder,
        is_adjacent,
        markup,
        seat.is_in_form,
    )?;
    let number = readings.len();
    readings.push(Reading { seat, trees })?;
    Ok(number)
}
