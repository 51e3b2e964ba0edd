//! What is left of the open tags after some were closed, as rules look at it.
ghost use Rattle.std.specs.Prelude.{◌≡◌, ◌<◌, ◌≤◌, [], false, IfSome, drop, length, not, is_some, slice_index_or};
ghost use Rattle.std.specs.List.{list_any};
ghost use Rattle.std.specs.Str.{bytes_eq};
ghost use Rattle.tl_html_spec.specs.Balanced.{depth, innermost, is_foreign, leading, nearest, never, or_none};
ghost use Rattle.tl_html_balance.specs.Classes.{is};
ghost use Rattle.tl_html_balance.specs.Inner.Rules.{in_ruby, innermost_passes};
ghost use Rattle.tl_html_balance.specs.View.{name_of, names_left};

use crate::class;
use crate::open_tags::OpenTags;
use crate::tag_name::TagName;

/// How many open tags a rule looks through.
const LOOKED_AT: usize = 512;

/// The open tags but the innermost that are closed.
#[derive(Clone, Copy)]
pub(crate) struct Remaining<'t> {
    pub(crate) tags: &'t OpenTags,
    pub(crate) closed: usize,
}

impl<'t> Remaining<'t> {
    /// What is left after so many more.
    pub(crate) fn skip(&self, count: usize) -> Remaining<'t>
        ensures { names_left result ≡ drop count (names_left self.now) }
    {
        Remaining {
            tags: self.tags,
            closed: self.closed.saturating_add(count),
        }
    }

    /// How many there are.
    pub(crate) fn len(&self) -> usize
        ensures { result ≡ length (names_left self.now) }
    {
        self.tags.len().saturating_sub(self.closed)
    }

    // Whether the one at a depth has one of these classes.
    fn is(&self, depth: usize, wanted: u64) -> bool
        requires { depth < length (names_left self.now) }
        ensures { result ≡ is wanted (slice_index_or (names_left self.now) depth []) }
    {
        class::has(self.tags.classes(self.closed + depth), wanted)
    }

    // Whether the one at a depth has this name.
    fn has_name(&self, depth: usize, name: &TagName<'_>) -> bool
        requires { depth < length (names_left self.now) }
        ensures { result
            ≡ bytes_eq (name_of name.now) (slice_index_or (names_left self.now) depth []) }
    {
        self.tags.has_name(self.closed + depth, name)
    }

    // Whether one of them may have one of these classes.
    fn may_have(&self, wanted: u64) -> bool
        ensures { result ≡ false → list_any (is wanted) (names_left self.now) ≡ false }
    {
        self.tags.may_have(self.closed, wanted)
    }

    /// The depth of the nearest that is found, before the first that stops.
    pub(crate) fn depth(&self, found: u64, stops: u64) -> Option<usize>
        ensures value { result ≡ depth (is found) (is stops) (names_left self.now) }
        ensures within { IfSome result (λ depth. depth < length (names_left self.now)) }
    {
        if !self.may_have(found) {
            return None;
        }
        for depth in 0..self.len().min(LOOKED_AT) {
            if self.is(depth, found) {
                return Some(depth);
            }
            if self.is(depth, stops) {
                return None;
            }
        }
        None
    }

    /// The depth of the nearest of this name, before the first that stops.
    pub(crate) fn depth_of(&self, name: &TagName<'_>, stops: u64) -> Option<usize>
        ensures value { result
            ≡ depth (bytes_eq (name_of name.now)) (is stops) (names_left self.now) }
        ensures within { IfSome result (λ depth. depth < length (names_left self.now)) }
    {
        for depth in 0..self.len().min(LOOKED_AT) {
            if self.has_name(depth, name) {
                return Some(depth);
            }
            if self.is(depth, stops) {
                return None;
            }
        }
        None
    }

    /// Whether there is one without any of these classes.
    pub(crate) fn has_other(&self, passed: u64) -> bool
        ensures { result
            ≡ is_some (depth (λ name. not (is passed name)) never (names_left self.now)) }
    {
        for depth in 0..self.len().min(LOOKED_AT) {
            if !self.is(depth, passed) {
                return true;
            }
        }
        false
    }

    /// How many on top have one of these classes.
    pub(crate) fn leading(&self, wanted: u64) -> usize
        ensures value { result ≡ leading (is wanted) (names_left self.now) }
        ensures within { result ≤ length (names_left self.now) }
    {
        let count = self.len();
        for depth in 0..count {
            if !self.is(depth, wanted) {
                return depth;
            }
        }
        count
    }

    fn innermost_is(&self, wanted: u64) -> bool
        ensures { result ≡ innermost_passes (is wanted) (names_left self.now) }
    {
        self.len() > 0 && self.is(0, wanted)
    }

    /// Whether the innermost stands in `svg` or `math`, and not in `foreignobject`.
    pub(crate) fn is_foreign(&self) -> bool
        ensures { result ≡ is_foreign (names_left self.now) }
    {
        match self.depth(class::FOREIGN_BOUND, 0) {
            Some(depth) => !self.is(depth, class::FOREIGN_OBJECT),
            None => false,
        }
    }

    // How many a rule closes.

    /// The nearest that is found and all inside it, where none that stops is nearer.
    pub(crate) fn nearest(&self, found: u64, stops: u64) -> usize
        ensures value { result ≡ nearest (is found) (is stops) (names_left self.now) }
        ensures within { result ≤ length (names_left self.now) }
    {
        match self.depth(found, stops) {
            Some(depth) => depth + 1,
            None => 0,
        }
    }

    /// The nearest of this name and all inside it, where none that stops is nearer.
    pub(crate) fn nearest_of(&self, name: &TagName<'_>, stops: u64) -> usize
        ensures value { result
            ≡ nearest (bytes_eq (name_of name.now)) (is stops) (names_left self.now) }
        ensures within { result ≤ length (names_left self.now) }
    {
        match self.depth_of(name, stops) {
            Some(depth) => depth + 1,
            None => 0,
        }
    }

    /// All inside the nearest that is found.
    pub(crate) fn inside(&self, found: u64) -> usize
        ensures value { result ≡ or_none (depth (is found) (is 0) (names_left self.now)) }
        ensures within { result ≤ length (names_left self.now) }
    {
        match self.depth(found, 0) {
            Some(depth) => depth,
            None => 0,
        }
    }

    /// The innermost, if it has one of these classes.
    pub(crate) fn innermost(&self, wanted: u64) -> usize
        ensures value { result ≡ innermost (is wanted) (names_left self.now) }
        ensures within { result ≤ length (names_left self.now) }
    {
        if self.innermost_is(wanted) { 1 } else { 0 }
    }

    /// Those on top that have one of these classes, in a ruby.
    pub(crate) fn in_ruby(&self, wanted: u64) -> usize
        ensures value { result ≡ in_ruby wanted (names_left self.now) }
        ensures within { result ≤ length (names_left self.now) }
    {
        if self.depth(class::RUBY, class::SCOPE).is_some() {
            self.leading(wanted)
        } else {
            0
        }
    }
}
