//! Marks of the rows where selectors hold.
ghost use Rattle.std.specs.Prelude.{◌≡◌, ◌↔◌, ◌<◌, ◌^◌, ℕ, IfOk, false, true, length, ◌&&◌, ◌||◌};
ghost use Rattle.tl_css.specs.Selector.{At, Both, Css, Is, Not, Nth};
ghost use Rattle.tl_css.specs.View.{test as test_of};
ghost use Rattle.tl_css.specs.declared.selector.Link.TheVariants.{Parent};
ghost use Rattle.tl_css.specs.declared.selector.Way.TheVariants.{From};
ghost use Rattle.tl_tree_select.specs.Meaning.{Holds, IsCount, IsTerm};
ghost use Rattle.tl_tree_select.specs.Inner.Columns.{AreMarks, IsCounted, IsPassed, is_inside, is_often};
ghost use Rattle.tl_tree_select.specs.Inner.Looking.{IsEnough, IsSeen};
ghost use Rattle.tl_tree_select.specs.Inner.Kin.{AreLinksOf, is_element_at, is_read};
ghost use Rattle.tl_tree_select.specs.Inner.Links.{AreLower, count_at, is_at};
ghost use Rattle.tl_tree_select.specs.Page.{seen};

use crate::element::is_element_at;
use crate::links::{counts_ahead, counts_behind, is_marked, passes_on, sources, targets};
use crate::look::Look;
use crate::page::Searched;
use crate::term::is_term;
use crate::test::is_met_at;
use std::alloc::{AllocError, Global};
use tl_css::selector::{Formula, Link, Reach, Test, Way};

// Whether a test passes at a row, by a look for it that may be enough.
#[inline(always)]
fn is_met_seen(
    alloc: Global,
    page: &Searched<'_, '_>,
    look: Look<'_>,
    passes: bool,
    number: usize,
    test: &Test,
) -> Result<bool, AllocError>
    requires seen { (n : ℕ) → Holds (seen page.now) (Is (test_of test.now)) n
        → IsSeen (seen page.now) look n }
    requires passes { passes ≡ true → IsEnough (seen page.now) look (Is (test_of test.now)) }
    ensures { IfOk result (λ met. (met ≡ true)
        ↔ Holds (seen page.now) (Is (test_of test.now)) number) }
{
    if !look.sees(page, number) {
        return Ok(false);
    }
    if passes {
        return Ok(true);
    }
    is_met_at(alloc, page, number, test)
}

// The marks of a test, by a look for it.
#[inline(always)]
fn seen_marks(
    alloc: Global,
    page: &Searched<'_, '_>,
    look: Look<'_>,
    passes: bool,
    test: &Test,
) -> Result<Vec<bool>, AllocError>
    requires seen { (n : ℕ) → Holds (seen page.now) (Is (test_of test.now)) n
        → IsSeen (seen page.now) look n }
    requires passes { passes ≡ true → IsEnough (seen page.now) look (Is (test_of test.now)) }
    ensures { IfOk result (λ marks. AreMarks (seen page.now)
        (Is (test_of test.now)) marks.items) }
{
    let mut marks = Vec::with_capacity(alloc, page.tree.len())?;
    for number in 0..page.tree.len() {
        let mark = is_met_seen(alloc, page, look, passes, number, test)?;
        marks.push(mark)?;
    }
    Ok(marks)
}

/// The marks of a test, by a loop of its own for the looks that are most asked for.
pub fn test_marks(
    alloc: Global,
    page: &Searched<'_, '_>,
    test: &Test,
) -> Result<Vec<bool>, AllocError>
    ensures { IfOk result (λ marks. AreMarks (seen page.now)
        (Is (test_of test.now)) marks.items) }
{
    let (look, passes) = Look::of(page, test);
    match look {
        Look::Known(known) => seen_marks(alloc, page, Look::Known(known), passes, test),
        Look::Element => seen_marks(alloc, page, Look::Element, passes, test),
        Look::Class(class) => seen_marks(alloc, page, Look::Class(class), passes, test),
        _ => seen_marks(alloc, page, look, passes, test),
    }
}

// Whether a number is marked, and a test passes there.
fn is_met_among(
    alloc: Global,
    page: &Searched<'_, '_>,
    among: &[bool],
    number: usize,
    test: &Test,
) -> Result<bool, AllocError>
    ensures { IfOk result (λ met. (met ≡ true) ↔ ((is_at among.now number ≡ true)
        × Holds (seen page.now) (Is (test_of test.now)) number)) }
{
    if !is_marked(among, number) {
        return Ok(false);
    }
    is_met_at(alloc, page, number, test)
}

/// The marks of a test among those that are marked.
pub fn test_marks_among(
    alloc: Global,
    page: &Searched<'_, '_>,
    mut among: Vec<bool>,
    test: &Test,
) -> Result<Vec<bool>, AllocError>
    ensures { (e : Css) → AreMarks (seen page.now) e among.items
        → IfOk result (λ marks. AreMarks (seen page.now)
        (Both e (Is (test_of test.now))) marks.items) }
{
    for number in 0..among.len() {
        let mark = is_met_among(alloc, page, &among, number, test)?;
        among[number] = mark;
    }
    Ok(among)
}

// Whether an element stands in a row that has a mark, or in one that was found, where several
// links count.
fn is_inside(
    page: &Searched<'_, '_>,
    marks: &[bool],
    often: bool,
    found: &[bool],
    number: usize,
) -> bool
    ensures { result ≡ is_inside (seen page.now) marks.now often found.now number }
{
    if !is_element_at(page, number) {
        return false;
    }
    match page.tree.parent(number) {
        Some(parent) => passes_on(marks, often, found, parent),
        None => false,
    }
}

/// The marks of the elements that stand in a marked one. Parents are read from the rows.
pub fn inside(
    alloc: Global,
    page: &Searched<'_, '_>,
    marks: &[bool],
    reach: Reach,
) -> Result<Vec<bool>, AllocError>
    ensures { (e : Css) → AreMarks (seen page.now) e marks.now → IfOk result (λ found.
        AreMarks (seen page.now) (At From Parent reach e) found.items) }
{
    let often = is_often(reach);
    let mut found = Vec::with_capacity(alloc, page.tree.len())?;
    for number in 0..page.tree.len() {
        let mark = is_inside(page, marks, often, &found, number);
        found.push(mark)?;
    }
    Ok(found)
}

/// The marks of the elements that have none.
pub fn unmarked_elements(
    alloc: Global,
    page: &Searched<'_, '_>,
    marks: &[bool],
) -> Result<Vec<bool>, AllocError>
    ensures { (e : Css) → AreMarks (seen page.now) e marks.now
        → IfOk result (λ found. AreMarks (seen page.now) (Not e) found.items) }
{
    let mut found = Vec::with_capacity(alloc, page.tree.len())?;
    for number in 0..page.tree.len() {
        found.push(is_element_at(page, number) && !is_marked(marks, number))?;
    }
    Ok(found)
}

/// Takes the mark from each row that has none among the others.
pub fn meet(marks: &mut Vec<bool>, others: &[bool])
    ensures len { length marks.new.items ≡ length marks.old.items }
    ensures both { (n : ℕ) → is_at marks.new.items n
        ≡ (is_at marks.old.items n && is_at others.now n) }
{
    for (number, mark) in marks.iter_mut().enumerate() {
        *mark = *mark && is_marked(others, number);
    }
}

/// Adds the marks of the others, as far as there are marks.
pub fn unite(marks: &mut Vec<bool>, others: &[bool])
    ensures len { length marks.new.items ≡ length marks.old.items }
    ensures either { (n : ℕ) → n < length marks.old.items → is_at marks.new.items n
        ≡ (is_at marks.old.items n || is_at others.now n) }
{
    for (number, mark) in marks.iter_mut().enumerate() {
        *mark = *mark || is_marked(others, number);
    }
}

// The marks that links pass on, in this way.
fn pass_marks(
    alloc: Global,
    links: &[u32],
    marks: &[bool],
    way: Way,
    often: bool,
) -> Result<Vec<bool>, AllocError>
    requires { AreLower links.now }
    ensures len { IfOk result (λ found. length found.items ≡ length links.now) }
    ensures each { IfOk result (λ found. (n : ℕ)
        → (is_at found.items n ≡ true) ↔ IsPassed links.now marks.now way often n) }
{
    match way {
        Way::From => sources(alloc, links, marks, often),
        Way::To => targets(alloc, links, marks, often),
    }
}

fn is_often(reach: Reach) -> bool
    ensures { result ≡ is_often reach }
{
    matches!(reach, Reach::Often)
}

/// The marks of the elements that are related to a marked one. Links that are kept lead from
/// elements to elements, so no other row gets a mark.
pub fn relatives(
    alloc: Global,
    page: &Searched<'_, '_>,
    links: &[u32],
    marks: &[bool],
    relation: (Way, Link, Reach),
) -> Result<Vec<bool>, AllocError>
    requires links { AreLinksOf (seen page.now) relation.1 links.now }
    requires kept { is_read relation.0 relation.1 ≡ false }
    ensures { (e : Css) → AreMarks (seen page.now) e marks.now → IfOk result (λ found.
        AreMarks (seen page.now) (At relation.0 relation.1 relation.2 e) found.items) }
{
    let (way, _, reach) = relation;
    let found = pass_marks(alloc, links, marks, way, is_often(reach))?;
    Ok(found)
}

// How many marks there are in this way from each number, with itself.
fn counts(alloc: Global, links: &[u32], marks: &[bool], way: Way) -> Result<Vec<u32>, AllocError>
    requires lower { AreLower links.now }
    requires numbered { length links.now < 2 ^ 32 }
    ensures len { IfOk result (λ counts. length counts.items ≡ length links.now) }
    ensures each { IfOk result (λ counts. (n : ℕ) → n < length links.now
        → IsCount (IsCounted links.now marks.now way n) (count_at counts.items n)) }
{
    match way {
        Way::From => counts_ahead(alloc, links, marks),
        Way::To => counts_behind(alloc, links, marks),
    }
}

fn count_at(counts: &[u32], number: usize) -> u32
    ensures { result ≡ count_at counts.now number }
{
    if number < counts.len() {
        counts[number]
    } else {
        0
    }
}

// Whether a number is marked, and its count is of a formula.
fn is_marked_term(marks: &[bool], counts: &[u32], formula: Formula, number: usize) -> bool
    ensures { (result ≡ true) ↔ ((is_at marks.now number ≡ true)
        × IsTerm formula (count_at counts.now number)) }
{
    is_marked(marks, number) && is_term(formula, count_at(counts, number))
}

/// The marks of the elements whose counts are of a formula.
pub fn terms(
    alloc: Global,
    page: &Searched<'_, '_>,
    links: &[u32],
    marks: &[bool],
    sequence: (Way, Link, Formula),
) -> Result<Vec<bool>, AllocError>
    requires links { AreLinksOf (seen page.now) sequence.1 links.now }
    ensures { (e : Css) → AreMarks (seen page.now) e marks.now → IfOk result (λ found.
        AreMarks (seen page.now) (Nth sequence.0 sequence.1 sequence.2 e) found.items) }
{
    let (way, _, formula) = sequence;
    let counts = counts(alloc, links, marks, way)?;
    let mut found = Vec::with_capacity(alloc, page.tree.len())?;
    for number in 0..page.tree.len() {
        found.push(is_marked_term(marks, &counts, formula, number))?;
    }
    Ok(found)
}
