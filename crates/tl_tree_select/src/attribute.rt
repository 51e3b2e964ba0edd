//! Attributes of a key in whichever namespace.
ghost use Rattle.std.specs.Prelude.{◌≡◌, ◌↔◌, IfOk, true, ⊤};
ghost use Rattle.tl_css.specs.Selector.{Key, Value};
ghost use Rattle.tl_css.specs.View.{ident};
ghost use Rattle.tl_css.specs.declared.selector.Space.TheVariants.{Every};
ghost use Rattle.tl_tree.specs.Asked.{attribute_said};
ghost use Rattle.tl_tree_select.specs.Meaning.{HasAttribute, IsMet, PassesBy};
ghost use Rattle.tl_tree_select.specs.Page.{seen};

use crate::element::{folds_value, spelled_at};
use crate::page::Searched;
use crate::value::passes_value;
use std::alloc::{AllocError, Global};
use tl_css::selector::{Case, Ident, Op};
use tl_tree::Attribute;

// Whether an attribute has this key, and its value passes.
fn attribute_passes(
    alloc: Global,
    attribute: Attribute<'_>,
    key: &[u8],
    op: Op,
    value: &[u8],
    folds: bool,
) -> Result<bool, AllocError>
    ensures { IfOk result (λ passes. (passes ≡ true)
        ↔ (((attribute_said attribute.entry).key ≡ key.now)
        × PassesBy folds op value.now (attribute_said attribute.entry).value)) }
{
    if attribute.key != key {
        return Ok(false);
    }
    passes_value(alloc, op, value, folds, attribute.value)
}

// Whether the value passes of an attribute that has this key.
fn has_some_value(
    alloc: Global,
    page: &Searched<'_, '_>,
    number: usize,
    key: &[u8],
    op: Op,
    value: &[u8],
    folds: bool,
) -> Result<bool, AllocError>
    ensures { IfOk result (λ has. (has ≡ true) ↔ HasAttribute (seen page.now)
        (PassesBy folds op value.now) Every key.now number) }
{
    for attribute in page.tree.attributes(number) {
        let passes = attribute_passes(alloc, attribute, key, op, value, folds)?;
        if passes {
            return Ok(true);
        }
    }
    Ok(false)
}

/// Whether the value passes of an attribute of a key, in whichever namespace that is.
pub fn has_some_attribute(
    alloc: Global,
    page: &Searched<'_, '_>,
    number: usize,
    key: &Ident,
    op: Op,
    value: &[u8],
    case: Case,
) -> Result<bool, AllocError>
    ensures { IfOk result (λ has. (has ≡ true)
        ↔ IsMet (seen page.now) (Value Every (ident key.now) op value.now case) number) }
{
    let folds = folds_value(page, number, &key.lower, case);
    let key = spelled_at(page, number, key);
    has_some_value(alloc, page, number, key, op, value, folds)
}

// Whether an attribute has this key.
fn has_key_somewhere(page: &Searched<'_, '_>, number: usize, key: &[u8]) -> bool
    ensures { (result ≡ true) ↔ HasAttribute (seen page.now) (λ own. ⊤) Every key.now number }
{
    for attribute in page.tree.attributes(number) {
        if attribute.key == key {
            return true;
        }
    }
    false
}

/// Whether there is an element of a key, in whichever namespace that is.
pub fn has_some_key(page: &Searched<'_, '_>, number: usize, key: &Ident) -> bool
    ensures { (result ≡ true) ↔ IsMet (seen page.now) (Key Every (ident key.now)) number }
{
    has_key_somewhere(page, number, spelled_at(page, number, key))
}
