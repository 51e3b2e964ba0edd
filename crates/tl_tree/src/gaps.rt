//! Which frames of a path are gone: settled, with their places kept, so that no frame further in
//! moves.
//!
//! Others may rely on this: of how many of the outermost places it is told (`marks`), and what. The
//! outermost is there.
ghost use Rattle.std.specs.Prelude.{IsTrue, List, OnOk, [], false, length, max, slice_index_or, slice_set, suc, take, true, ◌+◌, ◌<◌, ◌^◌, ◌≡◌, ◌≤◌};
ghost use Rattle.tl_dom_spec.specs.Path as dom;
ghost use Rattle.tl_tree.specs.Inner.Gone.{are_shut, gone_in, is_first_there, there, without};
ghost use Rattle.tl_tree.specs.declared.frame.Frame.{Frame};

use crate::error::GrowError;
use std::alloc::Global;

/// Of so many of the outermost frames, whether each one is gone.
#[derive(Drop)]
pub(crate) struct Gaps {
    pub(crate) marks: Vec<bool>,
    /// How many are gone.
    pub(crate) count: usize,
    ghost first: { IsTrue (is_first_there marks.items) },
    ghost counted: { gone_in marks.items ≡ count },
}

impl Gaps {
    /// None is gone.
    pub(crate) fn new(alloc: Global) -> Gaps
        ensures { result.marks.items ≡ [] }
    {
        Gaps {
            marks: Vec::new(alloc),
            count: 0,
        }
    }

    /// Whether the frame at a place is gone.
    #[inline(always)]
    pub(crate) fn has(&self, place: usize) -> bool
        ensures { result ≡ slice_index_or self.now.marks.items place false }
    {
        place < self.marks.len() && self.marks[place]
    }

    /// How many of so many frames are left where those that are gone and on top go too. It isn't
    /// told of others any more.
    #[inline(always)]
    pub(crate) fn cut(&mut self, len: usize) -> usize
        requires some { 0 < len }
        requires within { length self.old.marks.items ≤ len }
        ensures less { length self.new.marks.items < result }
        ensures within { result ≤ len }
        ensures marks { self.new.marks.items
            ≡ take (length self.new.marks.items) self.old.marks.items }
        ensures there { (frames : List dom.Frame) → length frames ≡ len →
            there self.old.marks.items frames ≡ there self.new.marks.items (take result frames) }
    {
        if self.marks.len() < len {
            return len;
        }
        self.cut_gone(len)
    }

    // The same where it is told of all.
    #[cold]
    #[inline(never)]
    fn cut_gone(&mut self, len: usize) -> usize
        requires some { 0 < len }
        requires within { length self.old.marks.items ≤ len }
        ensures less { length self.new.marks.items < result }
        ensures within { result ≤ len }
        ensures marks { self.new.marks.items
            ≡ take (length self.new.marks.items) self.old.marks.items }
        ensures there { (frames : List dom.Frame) → length frames ≡ len →
            there self.old.marks.items frames ≡ there self.new.marks.items (take result frames) }
    {
        let mut left = len;
        while self.marks.len() >= left {
            if self.forget_last() {
                left -= 1;
            }
        }
        left
    }

    // It isn't told of the innermost any more. Whether that was gone.
    fn forget_last(&mut self) -> bool
        requires { 0 < length self.old.marks.items }
        ensures gone { result
            ≡ slice_index_or self.old.marks.items (length self.new.marks.items) false }
        ensures marks { self.new.marks.items
            ≡ take (length self.new.marks.items) self.old.marks.items }
        ensures len { length self.old.marks.items ≡ suc (length self.new.marks.items) }
    {
        let last = self.marks.len() - 1;
        let is_gone = self.marks[last];
        self.marks.truncate(last);
        if is_gone {
            self.count -= 1;
        }
        is_gone
    }

    // It is told of a place too.
    fn lengthen(&mut self, place: usize) -> Result<(), GrowError>
        requires { place + 1 < 2 ^ 64 }
        ensures within { OnOk result (place < length self.new.marks.items) }
        ensures own { slice_index_or self.new.marks.items place false
            ≡ slice_index_or self.old.marks.items place false }
        ensures without { without place self.new.marks.items
            ≡ without place self.old.marks.items }
        ensures len { length self.new.marks.items
            ≤ max (length self.old.marks.items) (suc place) }
    {
        while self.marks.len() <= place {
            self.marks.push(false)?;
        }
        Ok(())
    }

    /// The frame at a place is gone.
    pub(crate) fn leave(&mut self, place: usize) -> Result<(), GrowError>
        requires some { 0 < place }
        requires small { place + 1 < 2 ^ 63 }
        requires there { slice_index_or self.old.marks.items place false ≡ false }
        ensures ok { OnOk result
            (self.new.marks.items ≡ without place self.old.marks.items) }
        ensures shut { (frames : List Frame) →
            IsTrue (are_shut (without place self.old.marks.items) frames) →
            IsTrue (are_shut self.new.marks.items frames) }
        ensures len { length self.new.marks.items
            ≤ max (length self.old.marks.items) (suc place) }
    {
        self.lengthen(place)?;
        self.marks[place] = true;
        self.count += 1;
        Ok(())
    }

    /// A frame stands at a place again, where it was told of that.
    pub(crate) fn stand(&mut self, place: usize)
        ensures { self.new.marks.items ≡ slice_set self.old.marks.items place false }
    {
        if self.has(place) {
            self.marks[place] = false;
            self.count -= 1;
        }
    }

    /// None is gone any more.
    pub(crate) fn clear(&mut self)
        ensures { self.new.marks.items ≡ [] }
    {
        self.marks.clear();
        self.count = 0;
    }
}
