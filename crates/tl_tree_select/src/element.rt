//! What is asked of a row by itself.
ghost use Rattle.std.specs.Prelude.{◌≡◌, ◌↔◌, ◌&&◌, true};
ghost use Rattle.tl_css.specs.Selector.{Ident as Name, Key, folds_by};
ghost use Rattle.tl_css.specs.View.{ident};
ghost use Rattle.tl_css.specs.declared.selector.Space.TheVariants.{Bare};
ghost use Rattle.tl_names.specs.ElementNames.{name_of};
ghost use Rattle.tl_tree_select.specs.Inner.Kin.{is_element_at};
ghost use Rattle.tl_tree_select.specs.Inner.Looking.{HasNameNumber};
ghost use Rattle.tl_tree_select.specs.Meaning.{IsAnchor, IsMet, IsNamed, IsNothing, IsRoot, folds_at, is_html_at, spelled};
ghost use Rattle.tl_tree_select.specs.Page.{seen};

use crate::any_case::is_any_case_key;
use crate::page::Searched;
use tl_css::selector::{Anchor, Case, Ident};
use tl_names::element_name::ElementName;
use tl_tree::{Kind, Namespace};

/// Whether there is an element of this number.
pub fn is_element_at(page: &Searched<'_, '_>, number: usize) -> bool
    ensures { result ≡ is_element_at (seen page.now) number }
{
    match page.tree.kind(number) {
        Some(Kind::Element) => true,
        _ => false,
    }
}

// Whether there is an HTML element of this number.
fn is_html_at(page: &Searched<'_, '_>, number: usize) -> bool
    ensures { result ≡ is_html_at (seen page.now) number }
{
    match page.tree.namespace(number) {
        Some(Namespace::Html) => true,
        _ => false,
    }
}

/// Whether there is a row of this number that counts for nothing in an element.
pub fn is_nothing_at(page: &Searched<'_, '_>, number: usize) -> bool
    ensures { (result ≡ true) ↔ IsNothing (seen page.now) number }
{
    match page.tree.kind(number) {
        Some(Kind::Text) => page.tree.text(number).is_some_and(|text| text.is_empty()),
        Some(Kind::Element) | None => false,
        Some(_) => true,
    }
}

/// A name or a key as an element is asked for it.
pub fn spelled_at<'i>(page: &Searched<'_, '_>, number: usize, own: &'i Ident) -> &'i [u8]
    ensures { result.now ≡ spelled (is_html_at (seen page.now) number) (ident own.now) }
{
    if is_html_at(page, number) {
        &own.lower
    } else {
        &own.written
    }
}

/// Whether there is an element of this name.
pub fn is_named(page: &Searched<'_, '_>, number: usize, name: &Ident) -> bool
    ensures { (result ≡ true) ↔ IsNamed (seen page.now) (ident name.now) number }
{
    match page.tree.name(number) {
        Some(own) => own == spelled_at(page, number, name),
        None => false,
    }
}

/// Whether there may be an element of a name with this number in lower case.
#[inline]
pub fn may_be_named(page: &Searched<'_, '_>, number: usize, known: ElementName) -> bool
    ensures { (name : Name) → known ≡ name_of name.lower → IsNamed (seen page.now) name number
        → result ≡ true }
{
    let Some(own) = page.tree.element_name(number) else {
        return false;
    };
    if !is_html_at(page, number) {
        return true;
    }
    own.number() == known.number()
}

/// Whether there is an element whose name has this number.
#[inline(always)]
pub fn has_name_number(page: &Searched<'_, '_>, number: usize, known: ElementName) -> bool
    ensures { (result ≡ true) ↔ HasNameNumber (seen page.now) known number }
{
    match page.tree.element_name(number) {
        Some(own) => own == known,
        None => false,
    }
}

/// Whether there is an element of a key without a namespace.
#[inline(always)]
pub fn has_key(page: &Searched<'_, '_>, number: usize, key: &Ident) -> bool
    ensures { (result ≡ true) ↔ IsMet (seen page.now) (Key Bare (ident key.now)) number }
{
    match page.tree.value(number, spelled_at(page, number, key)) {
        Some(_) => true,
        None => false,
    }
}

// Whether there is a root of a document of this number.
fn is_root_at(page: &Searched<'_, '_>, number: usize) -> bool
    ensures { (result ≡ true) ↔ IsRoot (seen page.now) number }
{
    if page.tree.parent(number).is_some() || !is_html_at(page, number) {
        return false;
    }
    match page.tree.name(number) {
        Some(name) => name == b"html".as_slice(),
        None => false,
    }
}

/// Whether a row may be an anchor.
pub fn is_anchor_at(page: &Searched<'_, '_>, number: usize, anchor: Anchor) -> bool
    ensures { (result ≡ true) ↔ IsAnchor (seen page.now) anchor number }
{
    match anchor {
        Anchor::Root => is_root_at(page, number),
        Anchor::Scope => match page.scope {
            Some(scope) => scope == number,
            None => is_root_at(page, number),
        },
    }
}

// Whether the case of the value at a key is folded there, where no flag says so.
fn folds_at(page: &Searched<'_, '_>, number: usize, key: &[u8]) -> bool
    ensures { result ≡ folds_at (seen page.now) key.now number }
{
    is_html_at(page, number) && is_any_case_key(key)
}

/// Whether the case of the value at a key is folded there.
pub fn folds_value(page: &Searched<'_, '_>, number: usize, key: &[u8], case: Case) -> bool
    ensures { result ≡ folds_by case (folds_at (seen page.now) key.now number) }
{
    match case {
        Case::Unsaid => folds_at(page, number, key),
        Case::Folded => true,
        Case::Exact => false,
    }
}
