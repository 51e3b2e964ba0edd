//! Tests of the element of a number.
ghost use Rattle.std.specs.Prelude.{◌≡◌, ◌↔◌, IfOk, true};
ghost use Rattle.std.specs.List.{All};
ghost use Rattle.tl_css.specs.Selector.{Is, Value};
ghost use Rattle.tl_css.specs.View.{ident, test as test_of};
ghost use Rattle.tl_css.specs.declared.selector.Space.TheVariants.{Bare};
ghost use Rattle.tl_tree.specs.Asked.{children_at};
ghost use Rattle.tl_tree_select.specs.Meaning.{HasValue, Holds, IsMet, IsNothing, PassesBy};
ghost use Rattle.tl_tree_select.specs.Page.{seen};

use crate::attribute::{has_some_attribute, has_some_key};
use crate::element::{
    folds_value, has_key, is_anchor_at, is_element_at, is_named, is_nothing_at, spelled_at,
};
use crate::page::Searched;
use crate::value::passes_value;
use std::alloc::{AllocError, Global};
use tl_css::selector::{Case, Ident, Op, Space, Test};

// Whether all children of a row count for nothing.
fn is_empty(page: &Searched<'_, '_>, number: usize) -> bool
    ensures { (result ≡ true) ↔ All (IsNothing (seen page.now))
        (children_at (seen page.now).rows number) }
{
    for child in page.tree.children(number) {
        if !is_nothing_at(page, child) {
            return false;
        }
    }
    true
}

// Whether the value at a key passes, where it is compared as ids and classes are.
fn has_value(
    alloc: Global,
    page: &Searched<'_, '_>,
    number: usize,
    key: &[u8],
    op: Op,
    value: &[u8],
) -> Result<bool, AllocError>
    ensures { IfOk result (λ has. (has ≡ true) ↔ HasValue (seen page.now)
        (PassesBy (seen page.now).is_quirks op value.now) key.now number) }
{
    match page.tree.value(number, key) {
        Some(own) => passes_value(alloc, op, value, page.tree.is_quirks(), own),
        None => Ok(false),
    }
}

// Whether the value of an attribute without a namespace passes.
fn has_attribute(
    alloc: Global,
    page: &Searched<'_, '_>,
    number: usize,
    key: &Ident,
    op: Op,
    value: &[u8],
    case: Case,
) -> Result<bool, AllocError>
    ensures { IfOk result (λ has. (has ≡ true)
        ↔ IsMet (seen page.now) (Value Bare (ident key.now) op value.now case) number) }
{
    let folds = folds_value(page, number, &key.lower, case);
    match page.tree.value(number, spelled_at(page, number, key)) {
        Some(own) => passes_value(alloc, op, value, folds, own),
        None => Ok(false),
    }
}

// Whether a test passes at a row.
fn is_met(
    alloc: Global,
    page: &Searched<'_, '_>,
    number: usize,
    test: &Test,
) -> Result<bool, AllocError>
    ensures { IfOk result (λ met. (met ≡ true) ↔ IsMet (seen page.now) (test_of test.now) number) }
{
    match test {
        Test::Any => Ok(true),
        Test::Name(name) => Ok(is_named(page, number, name)),
        Test::Id(id) => has_value(alloc, page, number, b"id", Op::Equals, id),
        Test::Class(class) => has_value(alloc, page, number, b"class", Op::Word, class),
        Test::Key(Space::Bare, key) => Ok(has_key(page, number, key)),
        Test::Key(Space::Every, key) => Ok(has_some_key(page, number, key)),
        Test::Value(Space::Bare, key, op, value, case) => {
            has_attribute(alloc, page, number, key, *op, value, *case)
        }
        Test::Value(Space::Every, key, op, value, case) => {
            has_some_attribute(alloc, page, number, key, *op, value, *case)
        }
        Test::Empty => Ok(is_empty(page, number)),
        Test::May(anchor) => Ok(is_anchor_at(page, number, *anchor)),
    }
}

/// Whether there is an element of this number, and a test passes there.
pub fn is_met_at(
    alloc: Global,
    page: &Searched<'_, '_>,
    number: usize,
    test: &Test,
) -> Result<bool, AllocError>
    ensures { IfOk result (λ met. (met ≡ true)
        ↔ Holds (seen page.now) (Is (test_of test.now)) number) }
{
    if !is_element_at(page, number) {
        return Ok(false);
    }
    is_met(alloc, page, number, test)
}
