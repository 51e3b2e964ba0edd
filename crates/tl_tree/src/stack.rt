//! What single rules ask of the stack of open elements, and what they change in it.
ghost use Rattle.std.specs.Prelude.{IfSome, IsTrue, None, [], false, length, slice_index_or, true, ◌+◌, ◌<◌, ◌∷◌, ◌≡◌};
ghost use Rattle.tl_dom_spec.specs.Body.{body_number, from_html};
ghost use Rattle.tl_dom_spec.specs.Builder.{is_only};
ghost use Rattle.tl_dom_spec.specs.Path.{document, elements};
ghost use Rattle.tl_tree.specs.Inner.Frames.{changed, frames_of, path_of};
ghost use Rattle.tl_tree.specs.Inner.Entered.{role_at};
ghost use Rattle.tl_tree.specs.Inner.Stack.{inner, opened_from, retagged, tag_in};
ghost use Rattle.tl_tree.specs.Inner.Store.{is_tag_number, tag_at};

use crate::frame::Frame;
use crate::names::Names;
use crate::path::FramePath;
use crate::test::{TagTest, Test};

impl<'a> FramePath<'a> {
    /// The frame at a place has another tag, by which searches take it for the same.
    pub(crate) fn retag(&mut self, index: usize, tag: u32)
        requires index { index < length self.old.frames.items }
        requires tag { IsTrue (is_tag_number self.old.store tag) }
        requires role { role_at self.old.store tag
            ≡ role_at self.old.store (tag_in self.old index) }
        ensures frames { frames_of self.new
            ≡ changed index (retagged (tag_at self.old.store tag)) (frames_of self.old) }
        ensures gaps { self.new.gaps ≡ self.old.gaps }
        ensures store { self.new.store ≡ self.old.store }
        ensures next { self.new.next ≡ self.old.next }
    {
        let frame = self.frames[index];
        self.write(index, Frame { tag, ..frame });
    }

    // Whether the innermost frame is the `html` element, or the document.
    fn ends_in_html(&self) -> bool
        ensures yes { result ≡ true → from_html (path_of self.now) ≡ path_of self.now }
        ensures some { result ≡ false → 1 < length self.now.frames.items }
        ensures no { result ≡ false
            → from_html (path_of self.now) ≡ from_html (inner (path_of self.now)) }
    {
        let last = self.frames.len() - 1;
        last == 0 || self.frames[last].number == 1
    }

    /// What stands in the `html` element goes: the path ends with that element, or is the document.
    pub(crate) fn cut_to_html(&mut self)
        ensures path { path_of self.new ≡ from_html (path_of self.old) }
        ensures store { self.new.store ≡ self.old.store }
        ensures next { self.new.next ≡ self.old.next }
    {
        while !self.ends_in_html() {
            self.take_top();
        }
    }

    // The first open frame from a place on, further in.
    #[cold]
    #[inline(never)]
    fn next_open(&self, from: usize) -> Option<usize>
        ensures within { IfSome result (λ index. index < length self.now.frames.items) }
        ensures some { IfSome result (λ index. opened_from self.now from
            ≡ slice_index_or (frames_of self.now) index document
            ∷ opened_from self.now (index + 1)) }
        ensures none { result ≡ None → opened_from self.now from ≡ [] }
    {
        for index in from..self.frames.len() {
            if self.frames[index].is_open {
                return Some(index);
            }
        }
        None
    }

    /// The second element of the stack, where that is a `body`.
    pub(crate) fn body_number(&self) -> Option<u32>
        ensures { result ≡ body_number (elements (path_of self.now)) }
    {
        let first = self.next_open(0)?;
        let second = self.next_open(first + 1)?;
        let frame = self.frames[second];
        let body = Test::Tag(TagTest::Any(Names::Body));
        if body.passes(&self.store, frame) {
            Some(frame.number)
        } else {
            None
        }
    }

    /// Whether there is one element in the stack alone.
    pub(crate) fn is_only(&self) -> bool
        ensures { result ≡ is_only (elements (path_of self.now)) }
    {
        let Some(first) = self.next_open(0) else {
            return false;
        };
        match self.next_open(first + 1) {
            Some(_) => false,
            None => true,
        }
    }
}
