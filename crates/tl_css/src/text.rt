//! The reader of a selector text.
//!
//! A text is read without memory, item by item: names and strings are slices until they are kept,
//! so what stands next is an equation with the plain reader.
ghost use Rattle.std.specs.Prelude.{◌≡◌, ◌≢◌, ℕ, MatchResult, Ok, Err, IfErr, IfOk, false};
ghost use Rattle.tl_css.specs.FirstWrong.{IsFirstWrong};
ghost use Rattle.tl_css.specs.Grammar.{IsSelector};
ghost use Rattle.tl_css.specs.Item.{begin_at};
ghost use Rattle.tl_css.specs.ItemView.{item};
ghost use Rattle.tl_css.specs.Reading.{css_at, read};
ghost use Rattle.tl_css.specs.Relative.{begins_top, item_by, read_by};
ghost use Rattle.tl_css.specs.Selector.{Css};
ghost use Rattle.tl_css.specs.StateView.{IsCause, IsFailure, open_list, state};
ghost use Rattle.tl_css.specs.TextView.{read_as};

mod attribute;
mod byte_class;
mod formula;
mod gap;
mod item;
pub mod message;
mod program;
mod pseudo_class;
pub mod relative;
pub mod role;
mod run;
mod state;

use crate::error::{Cause, Failure, SelectorError, Wrong};
use crate::selector::Selector;
use crate::text::item::{Item, begin, begin_led, next};
use crate::text::role::Role;
use crate::text::state::{Open, State, Taken};
use std::alloc::Global;

// Whether a complex selector begins that stands in no brackets.
fn begins_top(list: &Open) -> bool
    ensures { result ≡ begins_top (open_list list.now) }
{
    list.role.is_top() && !list.begun
}

// The next item of the list that is being read, where `relative` of relative selectors.
fn next_item<'a>(relative: bool, list: &Open, s: &'a [u8]) -> Result<(Item<'a>, &'a [u8]), Wrong>
    ensures { read_as item result ≡ item_by relative (open_list list.now) s.now }
{
    if relative && begins_top(list) {
        return begin_led(s);
    }
    if list.begun {
        next(list.role, list.left, s)
    } else {
        begin(list.role, s)
    }
}

// The selector of a text, or what is wrong with it; where `relative`, of relative selectors.
fn read_by(alloc: Global, relative: bool, text: &[u8]) -> Result<Selector, Failure>
    ensures read { MatchResult result
        (λ e. read_by relative text.now ≡ Ok e)
        (λ failure. IsFailure failure (read_by relative text.now)) }

    // Memory is taken only once the first item is read.
    ensures first { (wrong : Wrong) → relative ≡ false → begin_at Role.Top text.now ≡ Err wrong
        → result ≡ Err (Failure.Text wrong) }
{
    let mut state = State::new(alloc);
    let mut left = text;
    let mut items = text.len();
    'items: loop {
        let (item, rest) = match next_item(relative, &state.open, left) {
            Ok(found) => found,
            Err(wrong) => return Err(Failure::Text(wrong)),
        };
        match state.take(alloc, item)? {
            Taken::Done(selector) => return Ok(selector),
            Taken::Goes(after) => state = after,
        }
        left = rest;
        if items == 0 {
            let cause = Cause::Unexpected;
            return Err(Failure::Text(Wrong {
                left: left.len(),
                cause,
            }));
        }
        items -= 1;
    }
}

// The selector of a text, or what is wrong with it.
#[tactic(auto, using(crate::proofs::Items::read_plain))]
fn read(alloc: Global, text: &[u8]) -> Result<Selector, Failure>
    ensures read { MatchResult result
        (λ e. read text.now ≡ Ok e)
        (λ failure. IsFailure failure (read text.now)) }
    ensures first { (wrong : Wrong) → begin_at Role.Top text.now ≡ Err wrong
        → result ≡ Err (Failure.Text wrong) }
{
    read_by(alloc, false, text)
}

/// The selector that a text is, or the first byte that is wrong and why.
pub fn parse(alloc: Global, text: &str) -> Result<Selector, SelectorError>
    ensures found { IfOk result (λ e. css_at text.now ≡ Ok e) }
    ensures cause { IfErr result (IsCause (css_at text.now)) }

    // The same by the grammar; a text may be a selector that is too deep.
    ensures grammar { IfOk result (IsSelector text.now) }
    ensures none { (at : ℕ) (cause : Cause) (e : Css) → result ≡ Err (SelectorError.Text at cause)
        → cause ≢ Cause.TooDeep → IsSelector text.now e → ⊥ }

    // Memory is taken only once the first simple selector is read.
    ensures first { (at : ℕ) (cause : Cause) → IsFirstWrong text.now at cause
        → result ≡ Err (SelectorError.Text at cause) }
{
    let text = text.as_bytes();
    match read(alloc, text) {
        Ok(selector) => Ok(selector),
        Err(Failure::OutOfMemory) => Err(SelectorError::OutOfMemory),
        Err(Failure::Text(wrong)) => Err(SelectorError::Text {
            at: text.len().saturating_sub(wrong.left),
            cause: wrong.cause,
        }),
    }
}
