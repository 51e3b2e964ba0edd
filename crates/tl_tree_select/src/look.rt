//! A quick look at rows: at which a selector may hold.
ghost use Rattle.std.specs.Prelude.{◌≡◌, ◌↔◌, ◌≤◌, ℕ, codes, length, true};
ghost use Rattle.tl_css.specs.Selector.{Is, Name};
ghost use Rattle.tl_css.specs.View.{ident, test as test_of};
ghost use Rattle.tl_css.specs.declared.selector.Op.TheVariants.{Word};
ghost use Rattle.tl_tree_select.specs.Inner.Looking.{IsEnough, IsSeen, is_exact, is_of_elements};
ghost use Rattle.tl_tree_select.specs.Meaning.{HasValue, Holds, Passes};
ghost use Rattle.tl_tree_select.specs.Page.{Page, seen};

use crate::element::{has_key, has_name_number, is_element_at, may_be_named};
use crate::links::is_marked;
use crate::page::Searched;
use crate::value::is_word;
use tl_css::selector::{Ident, Space, Test};
use tl_names::element_name::ElementName;

/// What a row has, seen quickly, where it is one that is looked for.
#[derive(Clone, Copy)]
pub enum Look<'l> {
    /// A name of this number, which only one name has.
    Known(ElementName),
    /// A name that may have this number in lower case.
    Name(ElementName),
    /// A value at this key, which is at least so long.
    Value(&'l [u8], usize),
    /// This id.
    Id(&'l [u8]),
    /// This class.
    Class(&'l [u8]),
    /// This key.
    Key(&'l Ident),
    /// It is an element.
    Element,
    /// A mark.
    Mark(&'l [bool]),
}

// A value at a key that is at least so long.
#[inline(always)]
fn has_long_value(page: &Searched<'_, '_>, number: usize, key: &[u8], len: usize) -> bool
    ensures { (result ≡ true) ↔ HasValue (seen page.now) (λ own. len ≤ length own) key.now number }
{
    match page.tree.value(number, key) {
        Some(own) => own.len() >= len,
        None => false,
    }
}

// An id in exact case.
#[inline(always)]
fn has_id(page: &Searched<'_, '_>, number: usize, id: &[u8]) -> bool
    ensures { (result ≡ true) ↔ HasValue (seen page.now) (λ own. own ≡ id.now) (codes "id") number }
{
    match page.tree.value(number, b"id") {
        Some(own) => own == id,
        None => false,
    }
}

// A class in exact case.
#[inline(always)]
fn has_class(page: &Searched<'_, '_>, number: usize, class: &[u8]) -> bool
    ensures { (result ≡ true)
        ↔ HasValue (seen page.now) (Passes Word class.now) (codes "class") number }
{
    match page.tree.value(number, b"class") {
        Some(own) => is_word(class, own),
        None => false,
    }
}

// Whether a name is written in lower case.
fn is_lower(name: &Ident) -> bool
    ensures { (result ≡ true) ↔ ((ident name.now).lower ≡ (ident name.now).written) }
{
    name.lower.as_slice() == name.written.as_slice()
}

impl<'l> Look<'l> {
    // What an element is looked at for before it is asked for a name. Where one name alone has its
    // number, and it is the same in lower case, the number says all, of whatever namespace the
    // element is.
    fn of_name(name: &'l Ident) -> (Look<'l>, bool)
        ensures seen { (page : Page) (n : ℕ) → Holds page (Is (Name (ident name.now))) n
            → IsSeen page result.0 n }
        ensures passes { result.1 ≡ true → (page : Page)
            → IsEnough page result.0 (Is (Name (ident name.now))) }
    {
        let known = ElementName::of(&name.lower);
        if !is_lower(name) {
            return (Look::Name(known), false);
        }
        if known != ElementName::OTHER {
            return (Look::Known(known), true);
        }
        (Look::Name(known), false)
    }

    /// What an element is looked at for before it is asked for a test, and whether the test passes
    /// wherever that is seen.
    pub fn of(page: &Searched<'_, '_>, test: &'l Test) -> (Look<'l>, bool)
        ensures seen { (n : ℕ) → Holds (seen page.now) (Is (test_of test.now)) n
            → IsSeen (seen page.now) result.0 n }
        ensures passes { result.1 ≡ true → IsEnough (seen page.now) result.0
            (Is (test_of test.now)) }
    {
        let is_quirks = page.tree.is_quirks();
        match test {
            Test::Any => (Look::Element, true),
            Test::Name(name) => Look::of_name(name),
            Test::Id(id) if is_quirks => (Look::Value(b"id", id.len()), false),
            Test::Id(id) => (Look::Id(id), true),
            Test::Class(class) if is_quirks => (Look::Value(b"class", class.len()), false),
            Test::Class(class) => (Look::Class(class), true),
            Test::Key(Space::Bare, key) => (Look::Key(key), true),
            Test::Value(Space::Bare, key, _, _, _) => (Look::Key(key), false),
            _ => (Look::Element, false),
        }
    }

    /// Whether nothing but elements is looked for.
    #[inline(always)]
    pub fn is_of_elements(self) -> bool
        ensures { result ≡ is_of_elements self.entry }
    {
        !matches!(self, Look::Mark(_))
    }

    /// Whether a row may be one that is looked for.
    #[inline(always)]
    pub fn sees(self, page: &Searched<'_, '_>, number: usize) -> bool
        ensures may { IsSeen (seen page.now) self.entry number → result ≡ true }
        ensures is { is_exact self.entry ≡ true → result ≡ true
            → IsSeen (seen page.now) self.entry number }
    {
        match self {
            Look::Known(known) => has_name_number(page, number, known),
            Look::Name(known) => may_be_named(page, number, known),
            Look::Value(key, len) => has_long_value(page, number, key, len),
            Look::Id(id) => is_element_at(page, number) && has_id(page, number, id),
            Look::Class(class) => is_element_at(page, number) && has_class(page, number, class),
            Look::Key(key) => is_element_at(page, number) && has_key(page, number, key),
            Look::Element => is_element_at(page, number),
            Look::Mark(marks) => is_marked(marks, number),
        }
    }
}
