//! Where selectors that are read once hold in the document that is held, if both are there.
ghost use Rattle.std.specs.Prelude.{◌≡◌, ◌≢◌, ℕ, Bool, Err, List, None, Option, option_map};
ghost use Rattle.tl_c.specs.CompiledSelectors.{css_held};
ghost use Rattle.tl_c.specs.Css.{AreFoundBelowBy, AreFoundBy, IsClosestBy, IsFirstBy, IsTold, TellsAt, answer_by, css_by, found_or_refused, wrong_by};
ghost use Rattle.tl_c.specs.Queries.{one_if, tree_held, tree_in};
ghost use Rattle.tl_c.specs.declared.css.Reading.TheVariants.{Relative};
ghost use Rattle.tl_page.specs.Outcome.{Gives};
ghost use Rattle.tl_page.specs.declared.failure.Failure.TheVariants.{OutOfMemory};

use crate::css::{Reading, holds_at, innermost, read_selector, select, select_below, select_first};
use crate::parsed_page::ParsedPage;
use crate::parsed_selector::ParsedSelector;
use std::alloc::{AllocError, Global};
use tl_page::Failure;

/// The selector that bytes are, which may begin with a combinator. Of bytes that are none it says
/// the first one that is wrong, and the number of the cause, and else 0 and 0.
pub(crate) fn compile(
    alloc: Global,
    selector: &[u8],
    place: &mut usize,
    cause: &mut u8,
) -> Result<Box<ParsedSelector>, Failure>
    ensures reads { Gives (λ own. own.value.selector) (css_by Relative selector.now) result }
    ensures told { result ≢ Err OutOfMemory →
        IsTold (wrong_by Relative selector.now) place.new cause.new }
    ensures lost { result ≡ Err OutOfMemory → IsTold None place.new cause.new }
{
    let selector = read_selector(alloc, Reading::Relative, selector, place, cause)?;
    Ok(Box::new(alloc, ParsedSelector { selector }).map_err(AllocError::from)?)
}

/// The numbers of the elements where it holds.
pub(crate) fn compiled_finds(
    alloc: Global,
    held: &Option<Box<ParsedPage>>,
    selector: &Option<Box<ParsedSelector>>,
) -> Result<Vec<u32>, Failure>
    ensures { let parsed = option_map (λ own. own.value) held.now in
        let css = css_held (option_map (λ own. own.value) selector.now) in
        (ns : List ℕ) → AreFoundBy css parsed ns →
        Gives (λ numbers. numbers.items) (answer_by css (tree_held parsed) ns) result }
{
    let Some(own) = selector else {
        return Err(Failure::Refused);
    };
    select(alloc, held, &own.selector)
}

/// The number of the first of them.
pub(crate) fn compiled_finds_first(
    alloc: Global,
    held: &Option<Box<ParsedPage>>,
    selector: &Option<Box<ParsedSelector>>,
) -> Result<u32, Failure>
    ensures { let parsed = option_map (λ own. own.value) held.now in
        let css = css_held (option_map (λ own. own.value) selector.now) in
        (n : Option ℕ) → IsFirstBy css parsed n →
        let outcome = found_or_refused (answer_by css (tree_held parsed) n) in
        Gives (λ number. number) outcome result }
{
    let Some(own) = selector else {
        return Err(Failure::Refused);
    };
    select_first(alloc, held, &own.selector)
}

/// The numbers of the elements below a node where it holds.
pub(crate) fn compiled_finds_below(
    alloc: Global,
    held: &Option<Box<ParsedPage>>,
    node: u32,
    selector: &Option<Box<ParsedSelector>>,
) -> Result<Vec<u32>, Failure>
    ensures { let parsed = option_map (λ own. own.value) held.now in
        let css = css_held (option_map (λ own. own.value) selector.now) in
        (ns : List ℕ) → AreFoundBelowBy node css parsed ns →
        Gives (λ numbers. numbers.items) (answer_by css (tree_in node parsed) ns) result }
{
    let Some(own) = selector else {
        return Err(Failure::Refused);
    };
    select_below(alloc, held, node, &own.selector)
}

/// Whether it holds at a node: 1 where it does, and else 0.
pub(crate) fn compiled_holds_at(
    alloc: Global,
    held: &Option<Box<ParsedPage>>,
    node: u32,
    selector: &Option<Box<ParsedSelector>>,
) -> Result<u8, Failure>
    ensures { let parsed = option_map (λ own. own.value) held.now in
        let css = css_held (option_map (λ own. own.value) selector.now) in
        (holds : Bool) → TellsAt node css parsed holds →
        Gives (λ answer. answer) (answer_by css (tree_in node parsed) (one_if holds)) result }
{
    let Some(own) = selector else {
        return Err(Failure::Refused);
    };
    holds_at(alloc, held, node, &own.selector)
}

/// The number of the innermost element from a node on outwards where it holds.
pub(crate) fn compiled_innermost(
    alloc: Global,
    held: &Option<Box<ParsedPage>>,
    node: u32,
    selector: &Option<Box<ParsedSelector>>,
) -> Result<u32, Failure>
    ensures { let parsed = option_map (λ own. own.value) held.now in
        let css = css_held (option_map (λ own. own.value) selector.now) in
        (n : Option ℕ) → IsClosestBy node css parsed n →
        let outcome = found_or_refused (answer_by css (tree_in node parsed) n) in
        Gives (λ number. number) outcome result }
{
    let Some(own) = selector else {
        return Err(Failure::Refused);
    };
    innermost(alloc, held, node, &own.selector)
}
