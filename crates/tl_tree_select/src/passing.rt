//! Rows where nothing is found are passed over.
ghost use Rattle.std.specs.Prelude.{◌≡◌, ◌↔◌, ◌≤◌, ◌<◌, ◌+◌, ℕ, IfSome, None, Some, true};
ghost use Rattle.tl_tree.specs.Asked.{node_at};
ghost use Rattle.tl_tree.specs.Rows.{contents};
ghost use Rattle.tl_tree_select.specs.Inner.Finding.{EndsContents, IsPlace};
ghost use Rattle.tl_tree_select.specs.Inner.Looking.{IsSeen, is_exact, is_of_elements};
ghost use Rattle.tl_tree_select.specs.Page.{seen};

use crate::element::is_element_at;
use crate::look::Look;
use crate::page::Searched;
use tl_tree::Kind;

/// A row, and where contents end that begin before it.
#[derive(Clone, Copy)]
pub struct Place {
    pub number: usize,
    pub behind: usize,
}

// Whether the contents of a `template` have this number.
fn is_contents_at(page: &Searched<'_, '_>, number: usize) -> bool
    ensures { (result ≡ true) ↔ node_at (seen page.now).rows number ≡ Some contents }
{
    match page.tree.kind(number) {
        Some(Kind::Contents) => true,
        _ => false,
    }
}

/// Where contents end that stand up to a row, from where they end before it.
pub fn end_of_contents(page: &Searched<'_, '_>, number: usize, behind: usize) -> usize
    ensures { (start : ℕ) → start ≤ number → EndsContents (seen page.now) start number behind
        → EndsContents (seen page.now) start (number + 1) result }
{
    if !is_contents_at(page, number) {
        return behind;
    }
    match page.tree.end(number) {
        Some(end) if behind < end => end,
        _ => behind,
    }
}

// Where contents end behind a row at which nothing is looked for, which is passed: none where a
// look sees something there. It asks once what the row is.
#[inline(always)]
fn past_row(page: &Searched<'_, '_>, look: Look<'_>, number: usize, behind: usize) -> Option<usize>
    requires { is_of_elements look ≡ true }
    ensures seen { result ≡ None → is_exact look.entry ≡ true
        → IsSeen (seen page.now) look.entry number }
    ensures none { IfSome result (λ past. IsSeen (seen page.now) look.entry number → ⊥) }
    ensures past { IfSome result (λ past. (start : ℕ) → start ≤ number
        → EndsContents (seen page.now) start number behind
        → EndsContents (seen page.now) start (number + 1) past) }
{
    if !is_element_at(page, number) {
        return Some(end_of_contents(page, number, behind));
    }
    if look.sees(page, number) {
        return None;
    }
    Some(behind)
}

// The next place where a look sees an element, or the end.
#[inline(always)]
fn pass_rows(page: &Searched<'_, '_>, look: Look<'_>, end: usize, from: Place) -> Place
    requires elements { is_of_elements look ≡ true }
    requires order { from.number ≤ end }
    ensures within { (from.number ≤ result.number) × (result.number ≤ end) }
    ensures none { (n : ℕ) → from.number ≤ n → n < result.number
        → IsSeen (seen page.now) look.entry n → ⊥ }
    ensures seen { result.number < end → is_exact look.entry ≡ true
        → IsSeen (seen page.now) look.entry result.number }
    ensures place { (start : ℕ) → IsPlace (seen page.now) start from
        → IsPlace (seen page.now) start result }
{
    let Place {
        mut number,
        mut behind,
    } = from;
    'rows: while number < end {
        let Some(past) = past_row(page, look, number, behind) else {
            return Place { number, behind };
        };
        behind = past;
        number += 1;
    }
    Place { number, behind }
}

// The next marked place, or the end.
#[inline(always)]
fn pass_unmarked(page: &Searched<'_, '_>, look: Look<'_>, end: usize, from: Place) -> Place
    requires { from.number ≤ end }
    ensures within { (from.number ≤ result.number) × (result.number ≤ end) }
    ensures none { (n : ℕ) → from.number ≤ n → n < result.number
        → IsSeen (seen page.now) look.entry n → ⊥ }
    ensures seen { result.number < end → is_exact look.entry ≡ true
        → IsSeen (seen page.now) look.entry result.number }
    ensures place { (start : ℕ) → IsPlace (seen page.now) start from
        → IsPlace (seen page.now) start result }
{
    let Place {
        mut number,
        mut behind,
    } = from;
    'rows: while number < end && !look.sees(page, number) {
        behind = end_of_contents(page, number, behind);
        number += 1;
    }
    Place { number, behind }
}

/// The next place where a look sees something, or the end.
#[inline(always)]
pub fn pass(page: &Searched<'_, '_>, look: Look<'_>, end: usize, from: Place) -> Place
    requires { from.number ≤ end }
    ensures within { (from.number ≤ result.number) × (result.number ≤ end) }
    ensures none { (n : ℕ) → from.number ≤ n → n < result.number
        → IsSeen (seen page.now) look.entry n → ⊥ }
    ensures seen { result.number < end → is_exact look.entry ≡ true
        → IsSeen (seen page.now) look.entry result.number }
    ensures place { (start : ℕ) → IsPlace (seen page.now) start from
        → IsPlace (seen page.now) start result }
{
    if look.is_of_elements() {
        return pass_rows(page, look, end, from);
    }
    pass_unmarked(page, look, end, from)
}
