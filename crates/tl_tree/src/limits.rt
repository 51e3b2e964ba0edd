//! From where on no frame of a path passes a test: there a search begins.
ghost use Rattle.std.specs.Prelude.{IsTrue, List, length, map, true, ◌≡◌, ◌≤◌, ℕ};
ghost use Rattle.tl_dom_spec.specs.Path.{has_number, has_tag};
ghost use Rattle.tl_dom_spec.specs.Tags.{is_any};
ghost use Rattle.tl_names.specs.ElementNames.{element_names, name_of};
ghost use Rattle.tl_names.specs.Elements.{is_among};
ghost use Rattle.tl_tree.specs.Inner.Entered.{entered, entered_of};
ghost use Rattle.tl_tree.specs.Inner.Frames.{test_of};
ghost use Rattle.tl_tree.specs.Inner.Limits.{is_lowered, is_of_kind, none_from};
ghost use Rattle.tl_tree.specs.Inner.MetNames.{in_lower_case};
ghost use Rattle.tl_tree.specs.Inner.NameLists.{list_of};
ghost use Rattle.tl_tree.specs.Inner.Tests.{tag_test_of};

use crate::met_names::known_number;
use crate::names::Names;
use crate::path::FramePath;
use crate::role::Kind;
use crate::test::{TagTest, Test};
use tl_names::element_name::ElementName;

impl<'a> FramePath<'a> {
    // Whether all frames are known where the path is searched.
    #[inline(always)]
    fn knows_all(&self) -> bool
        ensures { result ≡ true
            → entered self.now.scopes ≡ map (entered_of self.now.store) self.now.frames.items }
    {
        self.scopes.len() == self.frames.len()
    }

    /// From which place on no frame is of a kind.
    #[inline(always)]
    pub(crate) fn kind_limit(&self, kind: Kind) -> usize
        ensures within { result ≤ length self.now.frames.items }
        ensures skips { IsTrue (none_from (is_of_kind kind) self.now result) }
    {
        if self.knows_all() {
            self.scopes.limit(kind)
        } else {
            self.frames.len()
        }
    }

    // From which place on no frame has a name that is known, in any case.
    #[inline(always)]
    fn known_limit(&self, name: ElementName) -> usize
        ensures within { result ≤ length self.now.frames.items }
        ensures skips { (n : List ℕ) → is_among element_names n ≡ true → name ≡ name_of n
            → IsTrue (none_from (is_lowered (in_lower_case n)) self.now result) }
    {
        if self.knows_all() {
            self.scopes.limit_of(known_number(name))
        } else {
            self.frames.len()
        }
    }

    /// The same of any name.
    pub(crate) fn name_limit(&self, name: &[u8]) -> usize
        ensures within { result ≤ length self.now.frames.items }
        ensures skips { IsTrue
            (none_from (is_lowered (in_lower_case name.now)) self.now result) }
    {
        let known = ElementName::of(name);
        if known != ElementName::OTHER {
            return self.known_limit(known);
        }
        if !self.knows_all() {
            return self.frames.len();
        }
        match self.store.number(name) {
            Ok(Some(number)) => self.scopes.limit_of(number),
            Ok(None) => 0,
            // Without memory to look it up a search begins with the innermost frame.
            Err(_) => self.frames.len(),
        }
    }

    // From which place on no HTML element has one of these names.
    #[inline(always)]
    fn names_limit(&self, names: Names) -> usize
        ensures within { result ≤ length self.now.frames.items }
        ensures skips { IsTrue (none_from (has_tag (is_any (list_of names))) self.now result) }
    {
        let mut limit: usize = 0;
        for name in names.members() {
            limit = limit.max(self.known_limit(*name));
        }
        limit
    }

    // From which place on no frame has a number.
    fn number_limit(&self, number: u32) -> usize
        ensures within { result ≤ length self.now.frames.items }
        ensures skips { IsTrue (none_from (has_number number) self.now result) }
    {
        match self.find(number) {
            Some(place) => place + 1,
            None => 0,
        }
    }

    #[inline(always)]
    fn tag_limit(&self, test: TagTest<'_>) -> usize
        ensures within { result ≤ length self.now.frames.items }
        ensures skips { IsTrue (none_from (has_tag (tag_test_of test.entry)) self.now result) }
    {
        match test {
            TagTest::Nothing => 0,
            TagTest::Any(names) => self.names_limit(names),
            TagTest::Named(name) => self.name_limit(name),
            TagTest::Scope => self.kind_limit(Kind::Scope),
            TagTest::ScopeOr(names) => { self.kind_limit(Kind::Scope).max(self.names_limit(names)) }
            TagTest::Heading => self.names_limit(Names::Headings),
            TagTest::ImpliedThoroughly => self.frames.len(),
            TagTest::Special(_) => self.kind_limit(Kind::Special),
            TagTest::ItemBound(_) => self.kind_limit(Kind::ItemBound),
        }
    }

    /// From which place on no frame passes a test.
    #[inline(always)]
    pub(crate) fn limit(&self, test: Test<'_>) -> usize
        ensures within { result ≤ length self.now.frames.items }
        ensures skips { IsTrue (none_from (test_of test.entry) self.now result) }
    {
        match test {
            Test::Nothing => 0,
            Test::Number(number) => self.number_limit(number),
            Test::Tag(test) => self.tag_limit(test),
            Test::ImpliedBut(_) => self.frames.len(),
            Test::HtmlPlace => self.frames.len(),
        }
    }
}
