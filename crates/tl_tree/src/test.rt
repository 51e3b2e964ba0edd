//! Tests of elements.
ghost use Rattle.std.specs.Prelude.{IsTrue, List, codes, ◌≡◌, ℕ};
ghost use Rattle.tl_dom_spec.specs.Tags.{is_any, is_heading, is_implied, is_implied_thoroughly, is_scope, is_item_bound, is_special, is_special_name};
ghost use Rattle.tl_html_spec.specs.Balanced.{is_one_of};
ghost use Rattle.tl_names.specs.ElementNames.{name_of};
ghost use Rattle.tl_tree.specs.Inner.NameLists.{list_of};
ghost use Rattle.tl_tree.specs.Inner.Frames.{frame_of, test_of, test_or_other};
ghost use Rattle.tl_tree.specs.Inner.Roles.{is_decisive};
ghost use Rattle.tl_tree.specs.Inner.Store.{bytes_of, is_tag, is_tag_number, tag_at, tag_of};
ghost use Rattle.tl_tree.specs.Inner.Tests.{named, tag_test_of};

use crate::entries::{Namespace, TagEntry};
use crate::frame::Frame;
use crate::integration::is_html_place;
use crate::lowered::are_same;
use crate::names::Names;
use crate::store::Store;
use tl_names::class::Class;
use tl_names::element_name::ElementName;

/// Which elements are meant, by their tags.
#[derive(Clone, Copy)]
pub(crate) enum TagTest<'n> {
    Nothing,
    /// HTML elements of these names.
    Any(Names),
    /// HTML elements of this name.
    Named(&'n [u8]),
    /// What bounds a scope.
    Scope,
    /// That, and HTML elements of these names.
    ScopeOr(Names),
    Heading,
    /// Those whose end tags are implied, thoroughly.
    ImpliedThoroughly,
    /// Special elements, of which `search` is counted as one or not.
    Special(bool),
    /// These but `address`, `div` and `p`.
    ItemBound(bool),
}

/// Which frames are meant.
#[derive(Clone, Copy)]
pub(crate) enum Test<'n> {
    Nothing,
    /// The one of a number.
    Number(u32),
    Tag(TagTest<'n>),
    /// Those whose end tags are implied, but for these.
    ImpliedBut(TagTest<'n>),
    /// Those whose content is HTML.
    HtmlPlace,
}

/// Whether a name is one of the words of a text.
pub(crate) fn is_one_of(words: &[u8], name: &[u8]) -> bool
    ensures { result ≡ is_one_of words.now name.now }
{
    words.split(|byte| *byte == b' ').any(|word| name == word)
}

// Elements of a namespace by the numbers of their names

#[inline(always)]
pub(crate) fn is_any(names: Names, space: Namespace, name: ElementName) -> bool
    ensures { (n : List ℕ) → name ≡ name_of n
        → result ≡ is_any (list_of names) (named space n) }
{
    space.is_html() && names.has(name)
}

#[inline(always)]
fn is_implied(space: Namespace, name: ElementName) -> bool
    ensures { (n : List ℕ) → name ≡ name_of n → result ≡ is_implied (named space n) }
{
    space.is_html() && name.is(Class::Implied)
}

#[inline(always)]
fn is_implied_thoroughly(space: Namespace, name: ElementName) -> bool
    ensures { (n : List ℕ) → name ≡ name_of n → result ≡ is_implied_thoroughly (named space n) }
{
    space.is_html() && name.is(Class::ImpliedThoroughly)
}

#[inline(always)]
fn is_heading(space: Namespace, name: ElementName) -> bool
    ensures { (n : List ℕ) → name ≡ name_of n → result ≡ is_heading (named space n) }
{
    space.is_html() && name.is(Class::Heading)
}

#[inline(always)]
pub(crate) fn is_scope(space: Namespace, name: ElementName) -> bool
    ensures { (n : List ℕ) → name ≡ name_of n → result ≡ is_scope (named space n) }
{
    match space {
        Namespace::Html => name.is(Class::Scope),
        Namespace::Math => name.is(Class::MathMark),
        Namespace::Svg => name.is(Class::SvgMark),
    }
}

#[inline(always)]
fn is_special_name(counts_search: bool, name: ElementName) -> bool
    ensures { (n : List ℕ) → name ≡ name_of n → result ≡ is_special_name counts_search n }
{
    name.is(Class::Special) && (counts_search || name != ElementName::SEARCH)
}

#[inline(always)]
pub(crate) fn is_special(counts_search: bool, space: Namespace, name: ElementName) -> bool
    ensures { (n : List ℕ) → name ≡ name_of n
        → result ≡ is_special counts_search (named space n) }
{
    match space {
        Namespace::Html => is_special_name(counts_search, name),
        Namespace::Math => name.is(Class::MathMark),
        Namespace::Svg => name.is(Class::SvgMark),
    }
}

// Whether a search for an item goes past an element though it is special.
fn is_passed_over(space: Namespace, name: ElementName) -> bool
    ensures { (n : List ℕ) → name ≡ name_of n
        → result ≡ is_any (codes "address div p") (named space n) }
{
    space.is_html() && name.is(Class::AddressDivParagraph)
}

#[inline(always)]
pub(crate) fn is_item_bound(counts_search: bool, space: Namespace, name: ElementName) -> bool
    ensures { (n : List ℕ) → name ≡ name_of n
        → result ≡ is_item_bound counts_search (named space n) }
{
    is_special(counts_search, space, name) && !is_passed_over(space, name)
}

/// Whether an element may decide the insertion mode.
pub(crate) fn is_decisive(space: Namespace, name: ElementName) -> bool
    ensures { (n : List ℕ) → name ≡ name_of n → result ≡ is_decisive (named space n) }
{
    space.is_html() && name.is(Class::Decisive)
}

impl<'n> TagTest<'n> {
    #[inline(always)]
    fn is(self, store: &Store<'_>, tag: TagEntry) -> bool
        requires within { IsTrue (is_tag store.now tag) }
        requires known { tag.known ≡ name_of (bytes_of store.now tag.name) }
        ensures { result ≡ tag_test_of self.entry (tag_of store.now tag) }
    {
        match self {
            TagTest::Nothing => false,
            TagTest::Any(names) => is_any(names, tag.space, tag.known),
            TagTest::Named(own) => tag.space.is_html() && are_same(own, store.bytes(tag.name)),
            TagTest::Scope => is_scope(tag.space, tag.known),
            TagTest::ScopeOr(names) => {
                is_scope(tag.space, tag.known) || is_any(names, tag.space, tag.known)
            }
            TagTest::Heading => is_heading(tag.space, tag.known),
            TagTest::ImpliedThoroughly => is_implied_thoroughly(tag.space, tag.known),
            TagTest::Special(counts_search) => is_special(counts_search, tag.space, tag.known),
            TagTest::ItemBound(counts_search) => is_item_bound(counts_search, tag.space, tag.known),
        }
    }

    /// Whether the tag of a number passes.
    #[inline(always)]
    pub(crate) fn passes(self, store: &Store<'_>, number: u32) -> bool
        requires { IsTrue (is_tag_number store.now number) }
        ensures { result ≡ tag_test_of self.entry (tag_at store.now number) }
    {
        self.is(store, store.tag(number))
    }
}

// Whether the end tag of an element is implied.
#[inline(always)]
fn is_implied_tag(store: &Store<'_>, number: u32) -> bool
    requires { IsTrue (is_tag_number store.now number) }
    ensures { result ≡ is_implied (tag_at store.now number) }
{
    let tag = store.tag(number);
    is_implied(tag.space, tag.known)
}

impl<'n> Test<'n> {
    #[inline(always)]
    pub(crate) fn passes(self, store: &Store<'_>, frame: Frame) -> bool
        requires { IsTrue (is_tag_number store.now frame.tag) }
        ensures { result ≡ test_of self.entry (frame_of store.now frame) }
    {
        match self {
            Test::Nothing => false,
            Test::Number(number) => frame.number == number,
            Test::Tag(test) => test.passes(store, frame.tag),
            Test::ImpliedBut(but) => {
                is_implied_tag(store, frame.tag) && !but.passes(store, frame.tag)
            }
            Test::HtmlPlace => is_html_place(store, frame.tag),
        }
    }

    /// Whether it passes, or whether it doesn't.
    #[inline(always)]
    pub(crate) fn passes_or_not(self, is_other: bool, store: &Store<'_>, frame: Frame) -> bool
        requires { IsTrue (is_tag_number store.now frame.tag) }
        ensures { result ≡ test_or_other is_other self.entry (frame_of store.now frame) }
    {
        if is_other {
            !self.passes(store, frame)
        } else {
            self.passes(store, frame)
        }
    }
}
