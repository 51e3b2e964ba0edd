//! Compounds: selectors whose steps are tests of one element. They are tried at each element by
//! itself.
ghost use Rattle.std.specs.Prelude.{◌≡◌, ◌↔◌, IfOk, true};
ghost use Rattle.std.specs.Option.{option_copied};
ghost use Rattle.tl_tree_select.specs.Inner.Compound.{HoldFrom, HoldsAt, IsCompound, fits, is_asked, is_kept, first_test, test_in};
ghost use Rattle.tl_tree_select.specs.Page.{seen};

use crate::page::Searched;
use crate::test::is_met_at;
use std::alloc::{AllocError, Global};
use tl_css::selector::{Step, Test};

fn is_asked(step: &Step) -> bool
    ensures { result ≡ is_asked step.now }
{
    matches!(step, Step::Ask(_))
}

fn is_kept(step: &Step) -> bool
    ensures { result ≡ is_kept step.now }
{
    matches!(step, Step::Keep(_))
}

// Whether a step stands at its place in a compound.
fn fits(place: usize, step: &Step) -> bool
    ensures { result ≡ fits place step.now }
{
    if place == 0 {
        return is_asked(step);
    }
    is_kept(step)
}

/// Whether steps are a compound.
pub fn is_compound(steps: &[Step]) -> bool
    ensures { result ≡ true → IsCompound steps.now }
{
    for place in 0..steps.len() {
        if !fits(place, &steps[place]) {
            return false;
        }
    }
    !steps.is_empty()
}

// The test of a step that is one.
fn test_in(step: &Step) -> Option<&Test>
    ensures { option_copied result ≡ test_in step.now }
{
    match step {
        Step::Ask(test) => Some(test),
        Step::Keep(test) => Some(test),
        _ => None,
    }
}

// Whether the test of a step, if it is one, passes at the element of a number.
fn step_holds(
    alloc: Global,
    page: &Searched<'_, '_>,
    number: usize,
    steps: &[Step],
    place: usize,
) -> Result<bool, AllocError>
    ensures { IfOk result (λ holds. (holds ≡ true)
        ↔ HoldsAt (seen page.now) steps.now place number) }
{
    let Some(step) = steps.get(place) else {
        return Ok(true);
    };
    let Some(test) = test_in(step) else {
        return Ok(true);
    };
    is_met_at(alloc, page, number, test)
}

/// The test of the first step.
pub fn first_test(steps: &[Step]) -> Option<&Test>
    ensures { option_copied result ≡ first_test steps.now }
{
    test_in(steps.first()?)
}

/// Whether the tests from a place on pass at the row of a number.
pub fn hold_from(
    alloc: Global,
    page: &Searched<'_, '_>,
    number: usize,
    steps: &[Step],
    from: usize,
) -> Result<bool, AllocError>
    ensures { IfOk result (λ hold. (hold ≡ true)
        ↔ HoldFrom (seen page.now) steps.now from number) }
{
    for place in from..steps.len() {
        let holds = step_holds(alloc, page, number, steps, place)?;
        if !holds {
            return Ok(false);
        }
    }
    Ok(true)
}
