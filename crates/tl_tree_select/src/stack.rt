//! The marks of the selectors that wait, step by step.
ghost use Rattle.std.specs.Prelude.{◌≡◌, ◌<◌, IfOk, List, false, ◌∷◌};
ghost use Rattle.tl_tree_select.specs.Page.{Page};
ghost use Rattle.tl_css.specs.Program.{after_step, change, meet, selector_of, waiting_after};
ghost use Rattle.tl_css.specs.Selector.{At, Css, Is, Nth};
ghost use Rattle.tl_css.specs.View.{test as test_of};
ghost use Rattle.tl_tree_select.specs.Inner.Columns.{AreColumns, AreMarks, changed, columns_of, join, joined};
ghost use Rattle.tl_tree_select.specs.Inner.Kin.{AreKin, AreLinksOf, HasLinks, is_read, links_of};
ghost use Rattle.tl_tree_select.specs.Page.{seen};

use crate::columns::{
    inside, meet, relatives, terms, test_marks, test_marks_among, unite, unmarked_elements,
};
use crate::kin::{Kin, is_read};
use crate::page::Searched;
use std::alloc::{AllocError, Global};
use tl_css::selector::{Formula, Link, Reach, Step, Test, Way};

// One column more.
#[tactic(auto, using(crate::proofs::Stacks::columns_push))]
fn push_column(mut columns: Vec<Vec<bool>>, marks: Vec<bool>) -> Result<Vec<Vec<bool>>, AllocError>
    ensures { IfOk result (λ after.
        columns_of after.items ≡ marks.items ∷ columns_of columns.items) }
{
    columns.push(marks)?;
    Ok(columns)
}

fn ask(
    alloc: Global,
    page: &Searched<'_, '_>,
    columns: Vec<Vec<bool>>,
    test: &Test,
) -> Result<Vec<Vec<bool>>, AllocError>
    ensures { (es : List Css) → AreColumns (seen page.now) es (columns_of columns.items)
        → IfOk result (λ after. AreColumns (seen page.now) (Is (test_of test.now) ∷ es)
        (columns_of after.items)) }
{
    let marks = test_marks(alloc, page, test)?;
    let after = push_column(columns, marks)?;
    Ok(after)
}

fn keep(
    alloc: Global,
    page: &Searched<'_, '_>,
    mut columns: Vec<Vec<bool>>,
    test: &Test,
) -> Result<Vec<Vec<bool>>, AllocError>
    ensures { (es : List Css) → AreColumns (seen page.now) es (columns_of columns.items)
        → IfOk result (λ after. AreColumns (seen page.now)
        (meet (Is (test_of test.now) ∷ es)) (columns_of after.items)) }
{
    let Some(marks) = columns.pop() else {
        let found = test_marks(alloc, page, test)?;
        let after = push_column(columns, found)?;
        return Ok(after);
    };
    let found = test_marks_among(alloc, page, marks, test)?;
    let after = push_column(columns, found)?;
    Ok(after)
}

// The marks of the elements that are related to a marked one.
fn relate(
    alloc: Global,
    page: &Searched<'_, '_>,
    kin: &Kin,
    marks: &[bool],
    relation: (Way, Link, Reach),
) -> Result<Vec<bool>, AllocError>
    requires links { is_read relation.0 relation.1 ≡ false
        → AreLinksOf (seen page.now) relation.1 (links_of kin.now relation.1) }
    ensures { (e : Css) → AreMarks (seen page.now) e marks.now → IfOk result (λ found.
        AreMarks (seen page.now) (At relation.0 relation.1 relation.2 e) found.items) }
{
    if is_read(relation.0, relation.1) {
        let found = inside(alloc, page, marks, relation.2)?;
        return Ok(found);
    }
    let found = relatives(alloc, page, kin.links(relation.1), marks, relation)?;
    Ok(found)
}

// The marks of the elements whose counts are of a formula.
fn count(
    alloc: Global,
    page: &Searched<'_, '_>,
    kin: &Kin,
    marks: &[bool],
    sequence: (Way, Link, Formula),
) -> Result<Vec<bool>, AllocError>
    requires links { AreLinksOf (seen page.now) sequence.1 (links_of kin.now sequence.1) }
    ensures { (e : Css) → AreMarks (seen page.now) e marks.now → IfOk result (λ found.
        AreMarks (seen page.now) (Nth sequence.0 sequence.1 sequence.2 e) found.items) }
{
    let found = terms(alloc, page, kin.links(sequence.1), marks, sequence)?;
    Ok(found)
}

// The marks of a selector that a step changes.
fn change_marks(
    alloc: Global,
    page: &Searched<'_, '_>,
    kin: &Kin,
    step: &Step,
    marks: &[bool],
) -> Result<Vec<bool>, AllocError>
    requires kin { HasLinks (seen page.now) kin.now step.now }
    ensures { (e : Css) → AreMarks (seen page.now) e marks.now → IfOk result
        (λ found. AreMarks (seen page.now) (changed step.now e) found.items) }
{
    match step {
        Step::Shift(way, link, reach) => relate(alloc, page, kin, marks, (*way, *link, *reach)),
        Step::Count(way, link, formula) => {
            count(alloc, page, kin, marks, (*way, *link, *formula))
        }
        _ => unmarked_elements(alloc, page, marks),
    }
}

fn change_last(
    alloc: Global,
    page: &Searched<'_, '_>,
    kin: &Kin,
    step: &Step,
    mut columns: Vec<Vec<bool>>,
) -> Result<Vec<Vec<bool>>, AllocError>
    requires kin { HasLinks (seen page.now) kin.now step.now }
    ensures { (es : List Css) → AreColumns (seen page.now) es (columns_of columns.items)
        → IfOk result (λ after. AreColumns (seen page.now) (change (changed step.now) es)
        (columns_of after.items)) }
{
    let Some(marks) = columns.pop() else {
        return Ok(columns);
    };
    let found = change_marks(alloc, page, kin, step, &marks)?;
    let after = push_column(columns, found)?;
    Ok(after)
}

// The marks of two selectors, put together.
fn join_marks(mut marks: Vec<bool>, others: &[bool], both: bool) -> Vec<bool>
    ensures { (page : Page) (a b : Css) → AreMarks page a marks.items
        → AreMarks page b others.now → AreMarks page (join both a b) result.items }
{
    if both {
        meet(&mut marks, others);
        return marks;
    }
    unite(&mut marks, others);
    marks
}

fn join_last(mut columns: Vec<Vec<bool>>, both: bool) -> Result<Vec<Vec<bool>>, AllocError>
    ensures { (page : Page) (es : List Css) → AreColumns page es (columns_of columns.items)
        → IfOk result (λ after. AreColumns page (joined both es) (columns_of after.items)) }
{
    let Some(others) = columns.pop() else {
        return Ok(columns);
    };
    let Some(marks) = columns.pop() else {
        let after = push_column(columns, others)?;
        return Ok(after);
    };
    let marks = join_marks(marks, &others, both);
    let after = push_column(columns, marks)?;
    Ok(after)
}

// The columns after a step.
fn after_step(
    alloc: Global,
    page: &Searched<'_, '_>,
    kin: &Kin,
    step: &Step,
    columns: Vec<Vec<bool>>,
) -> Result<Vec<Vec<bool>>, AllocError>
    requires kin { HasLinks (seen page.now) kin.now step.now }
    ensures { (es : List Css) → AreColumns (seen page.now) es (columns_of columns.items)
        → IfOk result (λ after. AreColumns (seen page.now) (after_step step.now es)
        (columns_of after.items)) }
{
    match step {
        Step::Ask(test) => ask(alloc, page, columns, test),
        Step::Keep(test) => keep(alloc, page, columns, test),
        Step::Meet => join_last(columns, true),
        Step::Unite => join_last(columns, false),
        _ => change_last(alloc, page, kin, step, columns),
    }
}

// The columns after all steps.
fn columns(
    alloc: Global,
    page: &Searched<'_, '_>,
    kin: &Kin,
    steps: &[Step],
) -> Result<Vec<Vec<bool>>, AllocError>
    requires kin { AreKin (seen page.now) kin.now steps.now }
    ensures { IfOk result (λ columns. AreColumns (seen page.now) (waiting_after steps.now)
        (columns_of columns.items)) }
{
    let mut columns = Vec::new(alloc);
    for step in steps {
        columns = after_step(alloc, page, kin, step, columns)?;
    }
    Ok(columns)
}

/// The marks of the selector that some steps leave.
pub fn marks_of(
    alloc: Global,
    page: &Searched<'_, '_>,
    kin: &Kin,
    steps: &[Step],
) -> Result<Vec<bool>, AllocError>
    requires kin { AreKin (seen page.now) kin.now steps.now }
    ensures { IfOk result (λ marks. AreMarks (seen page.now) (selector_of steps.now)
        marks.items) }
{
    let mut columns = columns(alloc, page, kin, steps)?;
    let Some(marks) = columns.pop() else {
        let marks = test_marks(alloc, page, &Test::Any)?;
        return Ok(marks);
    };
    Ok(marks)
}
