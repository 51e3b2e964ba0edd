//! Where selectors of CSS hold in the document that is held, if one is.
ghost use Rattle.std.specs.Prelude.{◌≡◌, ◌≢◌, ℕ, Bool, Err, IfErr, IfOk, List, None, Ok, Option, option_map};
ghost use Rattle.tl_c.specs.Css.{AreFoundBelowBy, AreFoundBy, IsClosestBy, IsFirstBy, IsTold, TellsAt, answer_by, css_by, css_in, found_or_refused, number_of_cause, read_by, wrong_by, wrong_in};
ghost use Rattle.tl_c.specs.Queries.{one_if, outcome_of_some, short, tree_held, tree_in};
ghost use Rattle.tl_c.specs.declared.css.Reading.TheVariants.{Relative};
ghost use Rattle.tl_css.specs.StateView.{IsCause};
ghost use Rattle.tl_page.specs.Outcome.{Gives, success};
ghost use Rattle.tl_page.specs.declared.failure.Failure.TheVariants.{OutOfMemory};

use crate::held::{one_if, short, short_numbers, tree_at};
use crate::parsed_page::ParsedPage;
use crate::text::text_of;
use std::alloc::Global;
use tl_css::{Cause, Selector, SelectorError, parse, parse_relative};
use tl_page::Failure;
use tl_tree_select::{below, closest, first, matches};

/// How bytes are read as a selector.
#[derive(Clone, Copy)]
pub(crate) enum Reading {
    /// Alone.
    Whole,
    /// Relative to a node: each of a list may begin with a combinator, which leads from there.
    Relative,
}

// The number of a cause in `tl.h`.
fn number_of_cause(cause: Cause) -> u8
    ensures { result ≡ number_of_cause cause }
{
    match cause {
        Cause::Unclosed => 1,
        Cause::NoSelector => 2,
        Cause::NoName => 3,
        Cause::NoOperator => 4,
        Cause::NoValue => 5,
        Cause::NoFlag => 6,
        Cause::NoFormula => 7,
        Cause::LargeNumber => 8,
        Cause::NoPseudoClass => 9,
        Cause::PseudoElement => 10,
        Cause::Namespace => 11,
        Cause::NeedsArgument => 12,
        Cause::TakesNone => 13,
        Cause::TooDeep => 14,
        Cause::Unexpected => 15,
    }
}

// The selector that a text is.
fn parse_by(alloc: Global, reading: Reading, text: &str) -> Result<Selector, SelectorError>
    ensures found { IfOk result (λ e. read_by reading text.now ≡ Ok e) }
    ensures cause { IfErr result (IsCause (read_by reading text.now)) }
{
    match reading {
        Reading::Whole => parse(alloc, text),
        Reading::Relative => parse_relative(alloc, text),
    }
}

// The selector that bytes are. Where they are none, it says the first byte that is wrong, and the
// number of the cause.
pub(crate) fn read_selector(
    alloc: Global,
    reading: Reading,
    selector: &[u8],
    place: &mut usize,
    cause: &mut u8,
) -> Result<Selector, Failure>
    ensures reads { Gives (λ e. e) (css_by reading selector.now) result }
    ensures right { IfOk result (λ _. IsTold None place.new cause.new) }
    ensures told { result ≢ Err OutOfMemory →
        IsTold (wrong_by reading selector.now) place.new cause.new }
    ensures lost { result ≡ Err OutOfMemory → IsTold None place.new cause.new }
{
    *place = 0;
    *cause = 0;
    let text = text_of(selector)?;
    match parse_by(alloc, reading, text) {
        Ok(selector) => Ok(selector),
        Err(SelectorError::OutOfMemory) => Err(Failure::OutOfMemory),
        Err(SelectorError::Text { at, cause: why }) => {
            *place = at;
            *cause = number_of_cause(why);
            Err(Failure::Refused)
        }
    }
}

/// The numbers of the elements where a selector holds.
pub(crate) fn select(
    alloc: Global,
    held: &Option<Box<ParsedPage>>,
    selector: &Selector,
) -> Result<Vec<u32>, Failure>
    ensures { let parsed = option_map (λ own. own.value) held.now in
        let css = success selector.now in
        (ns : List ℕ) → AreFoundBy css parsed ns
        → Gives (λ numbers. numbers.items) (answer_by css (tree_held parsed) ns) result }
{
    let Some(own) = held else {
        return Err(Failure::Refused);
    };
    let numbers = tl_tree_select::select(alloc, &own.tree, selector)?;
    Ok(short_numbers(alloc, numbers.as_slice())?)
}

// A number that was found, in 32 bits; where none was that is refused.
fn short_found(found: Option<usize>) -> Result<u32, Failure>
    ensures { Gives (λ number. number)
        (outcome_of_some success (option_map short found)) result }
{
    match found {
        Some(number) => Ok(short(number)),
        None => Err(Failure::Refused),
    }
}

/// The number of the first of them.
pub(crate) fn select_first(
    alloc: Global,
    held: &Option<Box<ParsedPage>>,
    selector: &Selector,
) -> Result<u32, Failure>
    ensures { let parsed = option_map (λ own. own.value) held.now in
        let css = success selector.now in
        (n : Option ℕ) → IsFirstBy css parsed n →
        let outcome = found_or_refused (answer_by css (tree_held parsed) n) in
        Gives (λ number. number) outcome result }
{
    let Some(own) = held else {
        return Err(Failure::Refused);
    };
    let found = first(alloc, &own.tree, selector)?;
    short_found(found)
}

/// The numbers of the elements below a node where a selector holds.
pub(crate) fn select_below(
    alloc: Global,
    held: &Option<Box<ParsedPage>>,
    node: u32,
    selector: &Selector,
) -> Result<Vec<u32>, Failure>
    ensures { let parsed = option_map (λ own. own.value) held.now in
        let css = success selector.now in
        (ns : List ℕ) → AreFoundBelowBy node css parsed ns
        → Gives (λ numbers. numbers.items) (answer_by css (tree_in node parsed) ns) result }
{
    let Some(tree) = tree_at(held, node) else {
        return Err(Failure::Refused);
    };
    let numbers = below(alloc, tree, node as usize, selector)?;
    Ok(short_numbers(alloc, numbers.as_slice())?)
}

/// Whether a selector holds at a node: 1 where it does, and else 0.
pub(crate) fn holds_at(
    alloc: Global,
    held: &Option<Box<ParsedPage>>,
    node: u32,
    selector: &Selector,
) -> Result<u8, Failure>
    ensures { let parsed = option_map (λ own. own.value) held.now in
        let css = success selector.now in
        (holds : Bool) → TellsAt node css parsed holds
        → Gives (λ answer. answer) (answer_by css (tree_in node parsed) (one_if holds)) result }
{
    let Some(tree) = tree_at(held, node) else {
        return Err(Failure::Refused);
    };
    let holds = matches(alloc, tree, node as usize, selector)?;
    Ok(one_if(holds))
}

/// The number of the innermost element from a node on outwards where a selector holds.
pub(crate) fn innermost(
    alloc: Global,
    held: &Option<Box<ParsedPage>>,
    node: u32,
    selector: &Selector,
) -> Result<u32, Failure>
    ensures { let parsed = option_map (λ own. own.value) held.now in
        let css = success selector.now in
        (n : Option ℕ) → IsClosestBy node css parsed n →
        let outcome = found_or_refused (answer_by css (tree_in node parsed) n) in
        Gives (λ number. number) outcome result }
{
    let Some(tree) = tree_at(held, node) else {
        return Err(Failure::Refused);
    };
    let found = closest(alloc, tree, node as usize, selector)?;
    short_found(found)
}

// Each of these reads the selector first. Of bytes that are none it says the first one that is
// wrong, and the number of the cause, and else 0 and 0.

/// The numbers of the elements where a selector holds.
pub(crate) fn find_css(
    alloc: Global,
    held: &Option<Box<ParsedPage>>,
    selector: &[u8],
    place: &mut usize,
    cause: &mut u8,
) -> Result<Vec<u32>, Failure>
    ensures finds { let parsed = option_map (λ own. own.value) held.now in
        let css = css_in selector.now in
        (ns : List ℕ) → AreFoundBy css parsed ns →
        Gives (λ numbers. numbers.items) (answer_by css (tree_held parsed) ns) result }
    ensures told { result ≢ Err OutOfMemory → IsTold (wrong_in selector.now) place.new cause.new }
    ensures lost { result ≡ Err OutOfMemory → IsTold None place.new cause.new }
{
    let selector = read_selector(alloc, Reading::Whole, selector, place, cause)?;
    select(alloc, held, &selector)
}

/// The number of the first of them.
pub(crate) fn find_first_css(
    alloc: Global,
    held: &Option<Box<ParsedPage>>,
    selector: &[u8],
    place: &mut usize,
    cause: &mut u8,
) -> Result<u32, Failure>
    ensures finds { let parsed = option_map (λ own. own.value) held.now in
        let css = css_in selector.now in
        (n : Option ℕ) → IsFirstBy css parsed n →
        let outcome = found_or_refused (answer_by css (tree_held parsed) n) in
        Gives (λ number. number) outcome result }
    ensures told { result ≢ Err OutOfMemory → IsTold (wrong_in selector.now) place.new cause.new }
    ensures lost { result ≡ Err OutOfMemory → IsTold None place.new cause.new }
{
    let selector = read_selector(alloc, Reading::Whole, selector, place, cause)?;
    select_first(alloc, held, &selector)
}

/// The numbers of the elements below a node where a selector holds.
pub(crate) fn find_css_below(
    alloc: Global,
    held: &Option<Box<ParsedPage>>,
    node: u32,
    selector: &[u8],
    place: &mut usize,
    cause: &mut u8,
) -> Result<Vec<u32>, Failure>
    ensures finds { let parsed = option_map (λ own. own.value) held.now in
        let css = css_by Relative selector.now in
        (ns : List ℕ) → AreFoundBelowBy node css parsed ns →
        Gives (λ numbers. numbers.items) (answer_by css (tree_in node parsed) ns) result }
    ensures told { result ≢ Err OutOfMemory →
        IsTold (wrong_by Relative selector.now) place.new cause.new }
    ensures lost { result ≡ Err OutOfMemory → IsTold None place.new cause.new }
{
    let selector = read_selector(alloc, Reading::Relative, selector, place, cause)?;
    select_below(alloc, held, node, &selector)
}

/// Whether a selector holds at a node: 1 where it does, and else 0.
pub(crate) fn css_holds_at(
    alloc: Global,
    held: &Option<Box<ParsedPage>>,
    node: u32,
    selector: &[u8],
    place: &mut usize,
    cause: &mut u8,
) -> Result<u8, Failure>
    ensures tells { let parsed = option_map (λ own. own.value) held.now in
        let css = css_in selector.now in
        (holds : Bool) → TellsAt node css parsed holds →
        Gives (λ answer. answer) (answer_by css (tree_in node parsed) (one_if holds)) result }
    ensures told { result ≢ Err OutOfMemory → IsTold (wrong_in selector.now) place.new cause.new }
    ensures lost { result ≡ Err OutOfMemory → IsTold None place.new cause.new }
{
    let selector = read_selector(alloc, Reading::Whole, selector, place, cause)?;
    holds_at(alloc, held, node, &selector)
}

/// The number of the innermost element from a node on outwards where a selector holds.
pub(crate) fn find_closest_css(
    alloc: Global,
    held: &Option<Box<ParsedPage>>,
    node: u32,
    selector: &[u8],
    place: &mut usize,
    cause: &mut u8,
) -> Result<u32, Failure>
    ensures finds { let parsed = option_map (λ own. own.value) held.now in
        let css = css_in selector.now in
        (n : Option ℕ) → IsClosestBy node css parsed n →
        let outcome = found_or_refused (answer_by css (tree_in node parsed) n) in
        Gives (λ number. number) outcome result }
    ensures told { result ≢ Err OutOfMemory → IsTold (wrong_in selector.now) place.new cause.new }
    ensures lost { result ≡ Err OutOfMemory → IsTold None place.new cause.new }
{
    let selector = read_selector(alloc, Reading::Whole, selector, place, cause)?;
    innermost(alloc, held, node, &selector)
}
