//! What the adoption agency algorithm (13.2.6.4.7) asks of the path of frames, and does to it.
//!
//! Others may rely on this: each operation says which frames there are afterwards (`frames_of`),
//! and which number is next.
ghost use Rattle.std.specs.List.{insert, list_all, list_any};
ghost use Rattle.std.specs.Option.{unwrap_or};
ghost use Rattle.std.specs.Prelude.{IfOk, IfSome, IsTrue, None, OnOk, Some, [], drop, false, if◌then◌else◌, length, map, min, reverse, slice_index_or, slice_set, take, true, ℕ, ◌++◌, ◌+◌, ◌<◌, ◌==◌, ◌^◌, ◌≡◌, ◌≢◌, ◌≤◌};
ghost use Rattle.tl_dom_spec.specs.Adoption.{first, inside_of, moved_place, outermost, outside_of};
ghost use Rattle.tl_dom_spec.specs.Path.{elements, here, popped_while, top, top_settled};
ghost use Rattle.tl_dom_spec.specs.Tags.{is_special};
ghost use Rattle.tl_tree.specs.Inner.Adopted.{AreInward, IsNear, anew, clones_at, emptied, filled, frame_at, frame_found, innermost_number, is_block, is_inside, moved, number_of, numbers_in, placed, renewed, renewed_over, shape, tags_in, with_outer};
ghost use Rattle.tl_tree.specs.Inner.Entered.{entered, replaced, turned};
ghost use Rattle.tl_tree.specs.Inner.Framed as framed;
ghost use Rattle.tl_tree.specs.Inner.Framed.{are_distinct, goes_here, is_before, is_here};
ghost use Rattle.tl_tree.specs.Inner.Frames.{around, changed, frame_of, frames_of, is_frame, path_of, place_of};
ghost use Rattle.tl_tree.specs.Inner.Gone.{there};
ghost use Rattle.tl_tree.specs.Inner.Roles.{is_numbered};
ghost use Rattle.tl_tree.specs.Inner.Store.{Grows, is_tag_number, tag_at};
ghost use Rattle.tl_tree.specs.Inner.Tests.{tag_test_of};

use crate::error::GrowError;
use crate::frame::{Frame, Place};
use crate::path::FramePath;
use crate::role::Entered;
use crate::scopes::Scopes;
use crate::test::{TagTest, Test};

// What went into the block goes into the new element.
fn moved(number: u32, block: u32, new: u32) -> u32
    ensures { result ≡ (if number == block then new else number) }
{
    if number == block { new } else { number }
}

impl Place {
    fn moved(self, block: u32, new: u32) -> Place
        ensures { place_of result ≡ moved_place block new (place_of self) }
    {
        match self {
            Place::Here => Place::Here,
            Place::Into(number) => Place::Into(moved(number, block, new)),
            Place::Behind(number) => Place::Behind(moved(number, block, new)),
            Place::IntoHead => Place::IntoHead,
        }
    }

    fn is_here(self) -> bool
        ensures stands { result ≡ goes_here self }
        ensures yes { result ≡ true → place_of self ≡ here }
    {
        match self {
            Place::Here => true,
            Place::Into(_) => false,
            Place::Behind(_) => false,
            Place::IntoHead => false,
        }
    }

    /// From which place on frames go to what is right around them, once one that goes to this
    /// place stands there.
    pub(crate) fn placed_with(self, placed: usize, index: usize) -> usize
        requires { index + 1 < 2 ^ 64 }
        ensures least { placed ≤ result }
        ensures own { goes_here self ≡ false → index < result }
    {
        if self.is_here() {
            return placed;
        }
        placed.max(index + 1)
    }
}

// From which place on frames go to what is right around them, once one that does comes between
// others.
fn placed_around(placed: usize, place: usize, len: usize) -> usize
    requires { len + 1 < 2 ^ 64 }
    ensures inside { placed ≤ place → placed ≤ result }
    ensures around { place < placed → min placed len < result }
    ensures least { min placed len ≤ result }
{
    if placed <= place {
        return placed;
    }
    placed.min(len) + 1
}

impl Scopes {
    // The element at a place leaves, where the one inside of it may not be known.
    fn turn_known(&mut self, place: usize, new: Entered)
        requires small { place + 1 < 2 ^ 64 }
        requires new { list_any (is_numbered new.number) (entered self.old) ≡ false }
        ensures { entered self.new
            ≡ take (length (entered self.new)) (turned place new (entered self.old)) }
    {
        if place + 1 < self.len() {
            self.turn(place, new);
        } else {
            self.cut(place);
        }
    }

    // A new element stands at a place, which is what the next one is, where that may not be known.
    fn replace_known(&mut self, place: usize, number: u32)
        requires small { place + 1 < 2 ^ 64 }
        requires new { list_any (is_numbered number) (entered self.old) ≡ false }
        ensures { entered self.new
            ≡ take (length (entered self.new)) (replaced place number (entered self.old)) }
    {
        if place + 1 < self.len() {
            self.replace(place, number);
        } else {
            self.cut(place);
        }
    }
}

impl<'a> FramePath<'a> {
    // What is asked

    // Whether a frame is an element that passes a test.
    fn is_block(&self, index: usize, test: TagTest<'_>) -> bool
        requires { index < length self.now.frames.items }
        ensures { result ≡ is_block (tag_test_of test.entry) (frame_at self.now index) }
    {
        let frame = self.frames[index];
        frame.is_open && test.passes(&self.store, frame.tag)
    }

    // The outermost element from a place on that passes a test.
    fn block_from(&self, start: usize, test: TagTest<'_>) -> Option<usize>
        requires { start ≤ length self.now.frames.items }
        ensures within { IfSome result
            (λ index. (start ≤ index) × (index < length self.now.frames.items)) }
        ensures passes { IfSome result
            (λ index. IsTrue (is_block (tag_test_of test.entry) (frame_at self.now index))) }
        ensures before { (i : ℕ) → start ≤ i → i < unwrap_or result (length self.now.frames.items)
            → is_block (tag_test_of test.entry) (frame_at self.now i) ≡ false }
    {
        for place in start..self.frames.len() {
            if self.is_block(place, test) {
                return Some(place);
            }
        }
        None
    }

    /// The place of the furthest block: the outermost special element inside of the one of a
    /// number.
    pub(crate) fn furthest_block(&self, number: u32, counts_search: bool) -> Option<usize>
        ensures open { IfSome result (λ index. (frame_at self.now index).is_open ≡ true) }
        ensures stands { frame_found self.now result
            ≡ outermost (is_special counts_search) number None (elements (path_of self.now)) }
        ensures within { IfSome result
            (λ index. (0 < index) × (index < length self.now.frames.items)) }
    {
        let Some(place) = self.find(number) else {
            return None;
        };
        if !self.frames[place].is_open {
            return None;
        }
        self.block_from(place + 1, TagTest::Special(counts_search))
    }

    // The number of the innermost element outside of a place.
    fn element_outside(&self, place: usize) -> Option<u32>
        requires { place ≤ length self.now.frames.items }
        ensures { result ≡ innermost_number self.now place }
    {
        let mut left = place;
        while left > 0 {
            left -= 1;
            let frame = self.frames[left];
            if frame.is_open {
                return Some(frame.number);
            }
        }
        None
    }

    /// The number of the common ancestor: the element of the stack around the one of a number.
    pub(crate) fn common_ancestor(&self, number: u32) -> Option<u32>
        requires { self.now.gaps.marks.items ≡ [] }
        ensures { result ≡ number_of (first (elements (outside_of number (path_of self.now)))) }
    {
        match self.find(number) {
            Some(place) => self.element_outside(place),
            None => None,
        }
    }

    // Whether the frame at a place is gone, or goes to what is right around it.
    fn is_passed(&self, place: usize) -> bool
        requires { place < length self.now.frames.items }
        ensures { result ≡ true
            → slice_index_or self.now.gaps.marks.items place false ≡ false
            → (frame_at self.now place).place ≡ here }
    {
        if self.gaps.has(place) {
            return true;
        }
        self.frames[place].place.is_here()
    }

    // Whether the frame of a number stands at a place, and is there.
    fn is_own(&self, place: usize, number: u32) -> bool
        requires { place < length self.now.frames.items }
        ensures stands { result ≡ true
            → slice_index_or self.now.gaps.marks.items place false ≡ false }
        ensures own { result ≡ true → (frame_at self.now place).number ≡ number }
        ensures other { result ≡ false
            → slice_index_or self.now.gaps.marks.items place false ≡ false
            → (frame_at self.now place).number ≢ number }
    {
        if self.gaps.has(place) {
            return false;
        }
        if self.frames[place].number == number {
            return true;
        }
        false
    }

    /// The place of the common ancestor, where all from the formatting element to the block goes to
    /// what is right around it, and what goes to the common ancestor isn't foster parented.
    pub(crate) fn ancestor_over(
        &self,
        block: usize,
        number: u32,
        is_fostering: bool,
    ) -> Option<usize>
        requires { block < length self.now.frames.items }
        ensures within { IfSome result (λ place. place + 1 < block) }
        ensures near { IfSome result
            (λ place. IsNear is_fostering number (frame_at self.now place)
            (frame_at self.now (place + 1))) }
        ensures stands { IfSome result (λ place.
            slice_index_or self.now.gaps.marks.items (place + 1) false ≡ false) }
        ensures between { IfSome result (λ place. (n : ℕ) → place < n → n < block →
            slice_index_or self.now.gaps.marks.items n false ≡ false →
            (frame_at self.now n).place ≡ here) }
    {
        let mut left = block;
        while left > 1 {
            left -= 1;
            if self.is_own(left, number) {
                return self.own_ancestor(left, is_fostering);
            }
            if !self.is_passed(left) {
                return None;
            }
        }
        None
    }

    // The place right outside of a frame that goes there, where an element stands there and what
    // goes into it isn't foster parented.
    fn own_ancestor(&self, place: usize, is_fostering: bool) -> Option<usize>
        requires some { 0 < place }
        requires within { place < length self.now.frames.items }
        ensures outside { IfSome result (λ around. place ≡ around + 1) }
        ensures near { IfSome result (λ around.
            IsNear is_fostering (frame_at self.now place).number (frame_at self.now around)
            (frame_at self.now place)) }
    {
        let own = self.frames[place];
        if !own.place.is_here() {
            return None;
        }
        let around = self.frames[place - 1];
        if self.is_fostered(around, is_fostering) {
            return None;
        }
        if around.is_open {
            Some(place - 1)
        } else {
            None
        }
    }

    // What is put in

    /// A new element that has what is in a frame is put on the path, with so many outside of it.
    pub(crate) fn insert_frame(&mut self, place: usize, frame: Frame) -> Result<(), GrowError>
        requires whole { self.old.gaps.marks.items ≡ [] }
        requires place { place ≤ length self.old.frames.items }
        requires within { IsTrue (is_frame self.old frame) }
        ensures frames { OnOk result (frames_of self.new
            ≡ insert (frames_of self.old) place
            (filled self.old.next (tag_at self.old.store frame.tag)
            (frame_of self.old.store frame))) }
        ensures len { OnOk result
            (length self.new.frames.items ≡ length self.old.frames.items + 1) }
        ensures next { OnOk result (self.new.next ≡ self.old.next + 1) }
        ensures more { self.old.next ≤ self.new.next }
        ensures gaps { self.new.gaps ≡ self.old.gaps }
        ensures store { self.new.store ≡ self.old.store }
    {
        let number = self.next;
        if number == u32::MAX {
            return Err(GrowError::TooLarge);
        }
        self.next = number + 1;
        self.scopes.cut(place);
        self.placed = placed_around(self.placed, place, self.frames.len());
        self.frames.insert(
            place,
            Frame {
                number,
                place: Place::Here,
                is_open: true,
                ..frame
            },
        )?;
        Ok(())
    }

    // A frame has nothing in it any more, and goes to what is around it.
    fn empty(&mut self, index: usize)
        requires { index < length self.old.frames.items }
        ensures frames { frames_of self.new ≡ changed index emptied (frames_of self.old) }
        ensures len { length self.new.frames.items ≡ length self.old.frames.items }
        ensures next { self.new.next ≡ self.old.next }
        ensures gaps { self.new.gaps ≡ self.old.gaps }
        ensures store { self.new.store ≡ self.old.store }
    {
        let frame = self.frames[index];
        self.write(
            index,
            Frame {
                children: 0,
                late: 0,
                waiting: 0,
                place: Place::Here,
                ..frame
            },
        );
    }

    // A frame goes to another place.
    fn set_place(&mut self, index: usize, place: Place)
        requires { index < length self.old.frames.items }
        ensures frames { frames_of self.new
            ≡ changed index (placed (place_of place)) (frames_of self.old) }
        ensures next { self.new.next ≡ self.old.next }
        ensures gaps { self.new.gaps ≡ self.old.gaps }
        ensures store { self.new.store ≡ self.old.store }
    {
        let frame = self.frames[index];
        self.write(index, Frame { place, ..frame });
    }

    // A frame that went into the block goes into the new element.
    fn move_place(&mut self, index: usize, block: u32, new: u32)
        requires { index < length self.old.frames.items }
        ensures frames { frames_of self.new ≡ changed index (moved block new) (frames_of self.old) }
        ensures len { length self.new.frames.items ≡ length self.old.frames.items }
        ensures next { self.new.next ≡ self.old.next }
        ensures gaps { self.new.gaps ≡ self.old.gaps }
        ensures store { self.new.store ≡ self.old.store }
    {
        let frame = self.frames[index];
        let place = frame.place.moved(block, new);
        self.write(index, Frame { place, ..frame });
    }

    // Whether a frame from a place on may go elsewhere than to what is right around it.
    fn may_be_placed(&self, index: usize) -> bool
        ensures yes { result ≡ true → index < length self.now.frames.items }
        ensures no { result ≡ false
            → IsTrue (list_all is_here (drop index self.now.frames.items)) }
    {
        index < self.placed.min(self.frames.len())
    }

    // So do all frames from a place on.
    fn move_places(&mut self, start: usize, block: u32, new: u32)
        requires { start ≤ length self.old.frames.items }
        ensures frames { frames_of self.new
            ≡ take start (frames_of self.old)
            ++ map (moved block new) (drop start (frames_of self.old)) }
        ensures len { length self.new.frames.items ≡ length self.old.frames.items }
        ensures next { self.new.next ≡ self.old.next }
        ensures gaps { self.new.gaps ≡ self.old.gaps }
        ensures store { self.new.store ≡ self.old.store }
    {
        let mut index = start;
        while self.may_be_placed(index) {
            self.move_place(index, block, new);
            index += 1;
        }
    }

    /// A new element has what is in the block, which has that element instead.
    pub(crate) fn renew(&mut self, index: usize, tag: u32) -> Result<(), GrowError>
        requires whole { self.old.gaps.marks.items ≡ [] }
        requires index { index < length self.old.frames.items }
        requires tag { IsTrue (is_tag_number self.old.store tag) }
        ensures frames { OnOk result (frames_of self.new
            ≡ take index (frames_of self.old)
            ++ renewed self.old.next (tag_at self.old.store tag)
            (drop index (frames_of self.old))) }
        ensures len { OnOk result
            (length self.new.frames.items ≡ length self.old.frames.items + 1) }
        ensures next { OnOk result (self.new.next ≡ self.old.next + 1) }
        ensures more { self.old.next ≤ self.new.next }
        ensures gaps { self.new.gaps ≡ self.old.gaps }
        ensures store { self.new.store ≡ self.old.store }
    {
        let block = self.frames[index];
        let new = self.next;
        self.insert_frame(index + 1, Frame { tag, ..block })?;
        self.empty(index);
        self.move_places(index + 2, block.number, new);
        Ok(())
    }

    // The block takes the place of the frame around it, and a new element has what is in the block,
    // which has that element instead.
    fn turn(&mut self, index: usize, tag: u32) -> Result<(), GrowError>
        requires some { 0 < index }
        requires index { index + 1 < length self.old.frames.items }
        requires tag { IsTrue (is_tag_number self.old.store tag) }
        ensures gaps { OnOk result (self.new.gaps.marks.items
            ≡ slice_set (slice_set self.old.gaps.marks.items (index + 1) false) index false) }
        ensures frames { OnOk result (frames_of self.new
            ≡ take index (frames_of self.old)
            ++ renewed self.old.next (tag_at self.old.store tag)
            (drop (index + 1) (frames_of self.old))) }
        ensures next { OnOk result (self.new.next ≡ self.old.next + 1) }
        ensures more { self.old.next ≤ self.new.next }
        ensures store { self.new.store ≡ self.old.store }
    {
        let number = self.next;
        if number == u32::MAX {
            return Err(GrowError::TooLarge);
        }
        let role = self.role_at(tag);
        let block = self.frames[index + 1];
        self.next = number + 1;
        self.scopes.turn_known(index, Entered { number, role });
        self.gaps.stand(index + 1);
        self.gaps.stand(index);
        self.frames[index + 1] = Frame {
            number,
            tag,
            place: Place::Here,
            is_open: true,
            ..block
        };
        self.frames[index] = Frame {
            children: 0,
            late: 0,
            waiting: 0,
            place: Place::Here,
            ..block
        };
        self.move_places(index + 2, block.number, number);
        Ok(())
    }

    // A new element stands at a place, with the tag of what is at the next one.
    fn stand_clone(&mut self, place: usize, number: u32)
        requires within { place + 1 < length self.old.frames.items }
        requires number { number < self.old.next }
        requires new { list_any (framed.is_numbered number) self.old.frames.items ≡ false }
        ensures frames { frames_of self.new
            ≡ changed place (anew number (frame_at self.old (place + 1)).tag)
            (frames_of self.old) }
        ensures others { (n : ℕ) → list_any (framed.is_numbered n) self.old.frames.items ≡ false →
            n ≢ number → list_any (framed.is_numbered n) self.new.frames.items ≡ false }
        ensures gaps { self.new.gaps.marks.items
            ≡ slice_set self.old.gaps.marks.items place false }
        ensures len { length self.new.frames.items ≡ length self.old.frames.items }
        ensures next { self.new.next ≡ self.old.next }
        ensures store { self.new.store ≡ self.old.store }
    {
        let inside = self.frames[place + 1];
        self.scopes.replace_known(place, number);
        self.gaps.stand(place);
        self.frames[place] = Frame {
            number,
            tag: inside.tag,
            children: 0,
            late: 0,
            waiting: 0,
            place: Place::Here,
            is_open: true,
        };
    }

    // Where no frame is there between two places, clones come to stand of those that were at these,
    // each right outside of that: so no frame further in moves, and what is known of it stays so.
    fn stand_clones(&mut self, place: usize, block: usize, first: u32, clones: &[usize])
        requires order { place + 1 < block }
        requires within { block < length self.old.frames.items }
        requires gone { (n : ℕ) → place < n → n < block →
            slice_index_or self.old.gaps.marks.items n false ≡ true }
        requires inward { AreInward (place + 2) block clones.now }
        requires next { first + length clones.now ≤ self.old.next }
        requires new { (n : ℕ) → first ≤ n →
            list_any (framed.is_numbered n) self.old.frames.items ≡ false }
        ensures path { (n : ℕ) → n + 1 ≡ block → around self.new n
            ≡ clones_at (frames_of self.old) first clones.now ++ around self.old (place + 1) }
        ensures marks { drop block self.new.gaps.marks.items
            ≡ drop block self.old.gaps.marks.items }
        ensures behind { drop block (frames_of self.new) ≡ drop block (frames_of self.old) }
        ensures len { length self.new.frames.items ≡ length self.old.frames.items }
        ensures next { self.new.next ≡ self.old.next }
        ensures store { self.new.store ≡ self.old.store }
    {
        let mut left = clones.len();
        while left > 0 {
            left -= 1;
            self.stand_clone(clones[left] - 1, first + left as u32);
        }
    }

    /// A number is given out.
    pub(crate) fn take_number(&mut self) -> Result<u32, GrowError>
        ensures number { IfOk result (λ number. number ≡ self.old.next) }
        ensures next { OnOk result (self.new.next ≡ self.old.next + 1) }
        ensures more { self.old.next ≤ self.new.next }
        ensures frames { self.new.frames.items ≡ self.old.frames.items }
        ensures gaps { self.new.gaps ≡ self.old.gaps }
        ensures store { self.new.store ≡ self.old.store }
    {
        let number = self.next;
        if number == u32::MAX {
            return Err(GrowError::TooLarge);
        }
        self.next = number + 1;
        Ok(number)
    }

    // What is settled

    // A frame that is there is settled in the one around it, and its place is kept.
    fn settle_in_place(&mut self, place: usize) -> Result<(), GrowError>
        requires some { 0 < place }
        requires within { place + 1 < length self.old.frames.items }
        requires stands { slice_index_or self.old.gaps.marks.items place false ≡ false }
        requires here { (frame_at self.old place).place ≡ here }
        ensures path { OnOk result (around self.new place
            ≡ top_settled (around self.old (place + 1))) }
        ensures gone { OnOk result ((n : ℕ) →
            slice_index_or self.new.gaps.marks.items n false
            ≡ (if n == place then true else slice_index_or self.old.gaps.marks.items n false)) }
        ensures marks { OnOk result
            (drop (place + 1) self.new.gaps.marks.items
            ≡ drop (place + 1) self.old.gaps.marks.items) }
        ensures behind { OnOk result
            (drop (place + 1) (frames_of self.new) ≡ drop (place + 1) (frames_of self.old)) }
        ensures shapes { OnOk result ((n : ℕ) → n < place →
            shape (frame_at self.new n) ≡ shape (frame_at self.old n)) }
        ensures numbers { OnOk result (numbers_in self.new ≡ numbers_in self.old) }
        ensures tags { OnOk result (tags_in self.new ≡ tags_in self.old) }
        ensures len { OnOk result
            (length self.new.frames.items ≡ length self.old.frames.items) }
        ensures next { self.new.next ≡ self.old.next }
        ensures grows { Grows self.old.store self.new.store }
    {
        let Some(around) = self.around(place) else {
            return Ok(());
        };
        let own = self.frames[place];
        let node = self.element(own)?;
        self.put_inside(around, node)?;
        self.catch_up(around)?;
        self.close(place);
        self.gaps.leave(place)?;
        Ok(())
    }

    // All between two places is settled in what stands at the outer one.
    fn settle_between(&mut self, place: usize, block: usize) -> Result<(), GrowError>
        requires order { place + 1 < block }
        requires within { block < length self.old.frames.items }
        requires around { (frame_at self.old place).is_open ≡ true }
        requires here { (n : ℕ) → place < n → n < block →
            slice_index_or self.old.gaps.marks.items n false ≡ false →
            (frame_at self.old n).place ≡ here }
        ensures path { OnOk result (around self.new (place + 1)
            ≡ popped_while (is_inside (Some (frame_at self.old place).number))
            (around self.old block)) }
        ensures gone { OnOk result ((n : ℕ) → place < n → n < block →
            slice_index_or self.new.gaps.marks.items n false ≡ true) }
        ensures marks { OnOk result
            (drop block self.new.gaps.marks.items ≡ drop block self.old.gaps.marks.items) }
        ensures behind { OnOk result
            (drop block (frames_of self.new) ≡ drop block (frames_of self.old)) }
        ensures shape { OnOk result
            (shape (frame_at self.new place) ≡ shape (frame_at self.old place)) }
        ensures numbers { OnOk result (numbers_in self.new ≡ numbers_in self.old) }
        ensures tags { OnOk result (tags_in self.new ≡ tags_in self.old) }
        ensures len { OnOk result
            (length self.new.frames.items ≡ length self.old.frames.items) }
        ensures next { self.new.next ≡ self.old.next }
        ensures grows { Grows self.old.store self.new.store }
    {
        let mut left = block;
        while left > place + 1 {
            left -= 1;
            if !self.gaps.has(left) {
                self.settle_in_place(left)?;
            }
        }
        Ok(())
    }

    /// All between two places is settled in what stands at the outer one, clones of those at these
    /// places come to stand around the block, and a new element has what is in the block. No frame
    /// inside of it is moved.
    pub(crate) fn renew_over(
        &mut self,
        place: usize,
        block: usize,
        first: u32,
        clones: &[usize],
        tag: u32,
    ) -> Result<(), GrowError>
        requires order { place + 1 < block }
        requires inward { AreInward (place + 2) block clones.now }
        requires next { first + length clones.now ≤ self.old.next }
        requires new { IsTrue (list_all (is_before first) self.old.frames.items) }
        requires within { block < length self.old.frames.items }
        requires open { (frame_at self.old block).is_open ≡ true }
        requires around { (frame_at self.old place).is_open ≡ true }
        requires here { (n : ℕ) → place < n → n < block →
            slice_index_or self.old.gaps.marks.items n false ≡ false →
            (frame_at self.old n).place ≡ here }
        requires tag { IsTrue (is_tag_number self.old.store tag) }
        ensures path { OnOk result (path_of self.new
            ≡ renewed_over (frame_at self.old block) self.old.next (tag_at self.old.store tag)
            (inside_of (frame_at self.old block).number (path_of self.old))
            (clones_at (frames_of self.old) first clones.now
            ++ popped_while (is_inside (Some (frame_at self.old place).number))
            (around self.old block))) }
        ensures top { OnOk result ((top (popped_while
            (is_inside (Some (frame_at self.old place).number))
            (around self.old block))).tag
            ≡ (frame_at self.old place).tag) }
        ensures next { OnOk result (self.new.next ≡ self.old.next + 1) }
        ensures more { self.old.next ≤ self.new.next }
        ensures grows { Grows self.old.store self.new.store }
    {
        self.settle_between(place, block)?;
        self.stand_clones(place, block, first, clones);
        self.turn(block - 1, tag)
    }

    // How many frames outside of a place are there.
    fn place_there(&self, place: usize) -> usize
        requires { place ≤ length self.now.frames.items }
        ensures { result
            ≡ length (there self.now.gaps.marks.items (take place self.now.frames.items)) }
    {
        let mut count: usize = 0;
        for index in 0..place {
            if !self.gaps.has(index) {
                count += 1;
            }
        }
        count
    }

    // The frames that are there.
    fn frames_there(&self) -> Result<Vec<Frame>, GrowError>
        ensures { IfOk result (λ kept. kept.items
            ≡ there self.now.gaps.marks.items self.now.frames.items) }
    {
        let mut kept = Vec::new(*self.frames.allocator());
        for index in 0..self.frames.len() {
            if !self.gaps.has(index) {
                kept.push(self.frames[index])?;
            }
        }
        Ok(kept)
    }

    // The frames that are gone are taken out.
    fn take_out_gone(&mut self) -> Result<(), GrowError>
        ensures frames { OnOk result (self.new.frames.items
            ≡ there self.old.gaps.marks.items self.old.frames.items) }
        ensures whole { OnOk result (self.new.gaps.marks.items ≡ []) }
        ensures next { self.new.next ≡ self.old.next }
        ensures store { self.new.store ≡ self.old.store }
    {
        let kept = self.frames_there()?;
        self.scopes.cut(0);
        self.frames = kept;
        self.gaps.clear();
        Ok(())
    }

    /// The path has no gaps any more. Where the frame at a place stands then.
    pub(crate) fn close_gaps(&mut self, place: usize) -> Result<usize, GrowError>
        requires { place < length self.old.frames.items }
        ensures place { IfOk result (λ new. new
            ≡ length (there self.old.gaps.marks.items (take place self.old.frames.items))) }
        ensures frames { OnOk result (self.new.frames.items
            ≡ there self.old.gaps.marks.items self.old.frames.items) }
        ensures whole { OnOk result (self.new.gaps.marks.items ≡ []) }
        ensures next { self.new.next ≡ self.old.next }
        ensures store { self.new.store ≡ self.old.store }
    {
        let new = self.place_there(place);
        if self.gaps.count > 0 {
            self.take_out_gone()?;
            return Ok(new);
        }
        self.gaps.clear();
        Ok(new)
    }

    // Frames are settled up to the one of a number, or where there is none, those that left the
    // stack.
    fn settle_to(&mut self, number: Option<u32>) -> Result<(), GrowError>
        ensures ok { OnOk result (path_of self.new
            ≡ popped_while (is_inside number) (path_of self.old)) }
        ensures whole { self.old.gaps.marks.items ≡ [] → self.new.gaps.marks.items ≡ [] }
        ensures next { self.new.next ≡ self.old.next }
        ensures grows { Grows self.old.store self.new.store }
    {
        match number {
            Some(number) => self.settle_while(Test::Number(number), true),
            None => self.settle_while(Test::Nothing, false),
        }
    }

    // The frames from a place on are taken off the path.
    fn set_aside(&mut self, place: usize) -> Result<Vec<Frame>, GrowError>
        requires whole { self.old.gaps.marks.items ≡ [] }
        requires some { 0 < place }
        requires within { place ≤ length self.old.frames.items }
        ensures kept { OnOk result
            (self.new.frames.items ≡ take place self.old.frames.items) }
        ensures aside { IfOk result (λ aside. aside.items ≡ drop place self.old.frames.items) }
        ensures next { self.new.next ≡ self.old.next }
        ensures gaps { self.new.gaps ≡ self.old.gaps }
        ensures store { self.new.store ≡ self.old.store }
    {
        self.scopes.cut(place);
        Ok(self.frames.split_off(place)?)
    }

    // From which place on those that stand from a place on go to what is right around them.
    fn placed_behind(&self, place: usize) -> usize
        ensures near { IsTrue (list_all is_here (drop result (drop place self.now.frames.items))) }
        ensures within { result ≤ length self.now.frames.items }
    {
        self.placed.min(self.frames.len()).saturating_sub(place)
    }

    // Frames are put inside of those that are there. From a place among them on they go to what is
    // right around them.
    fn put_back(&mut self, aside: &[Frame], placed: usize) -> Result<(), GrowError>
        requires whole { self.old.gaps.marks.items ≡ [] }
        requires near { IsTrue (list_all is_here (drop placed aside.now)) }
        requires small { placed < 2 ^ 63 }
        requires within { IsTrue (list_all (is_frame self.old) aside.now) }
        requires distinct { IsTrue (are_distinct (self.old.frames.items ++ aside.now)) }
        requires numbered { IsTrue (list_all (is_before self.old.next) aside.now) }
        ensures frames { OnOk result (self.new.frames.items ≡ self.old.frames.items ++ aside.now) }
        ensures next { self.new.next ≡ self.old.next }
        ensures gaps { self.new.gaps ≡ self.old.gaps }
        ensures store { self.new.store ≡ self.old.store }
    {
        self.placed = self.frames.len() + placed;
        self.frames.extend_from_slice(aside)?;
        Ok(())
    }

    /// What is outside of a place is settled up to the element of a number, and what stands at the
    /// place goes to where nodes go there.
    pub(crate) fn settle_outside(
        &mut self,
        place: usize,
        number: Option<u32>,
        is_fostering: bool,
    ) -> Result<(), GrowError>
        requires whole { self.old.gaps.marks.items ≡ [] }
        requires some { 0 < place }
        requires within { place < length self.old.frames.items }
        ensures frames { OnOk result (frames_of self.new
            ≡ with_outer is_fostering
            (popped_while (is_inside number) (reverse (take place (frames_of self.old))))
            (drop place (frames_of self.old))) }
        ensures whole { OnOk result (self.new.gaps.marks.items ≡ []) }
        ensures next { self.new.next ≡ self.old.next }
        ensures grows { Grows self.old.store self.new.store }
    {
        let placed = self.placed_behind(place);
        let aside = self.set_aside(place)?;
        self.settle_to(number)?;
        let target = self.place_in(is_fostering);
        let outer = self.frames.len();
        self.put_back(&aside, placed)?;
        self.set_place(outer, target);
        Ok(())
    }
}
