//! The adoption agency algorithm (13.2.6.4.7), on the path and the list of active formatting
//! elements.
ghost use Rattle.std.specs.Prelude.{IfOk, List, OnOk, [], false, length, reverse, slice_index_or, take, true, ℕ, ◌+◌, ◌<◌, ◌^◌, ◌≡◌, ◌≤◌};
ghost use Rattle.tl_dom_spec.specs.Adoption.{Clones, cloned, entry_moved, inside_of};
ghost use Rattle.tl_dom_spec.specs.Path as dom;
ghost use Rattle.tl_dom_spec.specs.Path.{elements, here};
ghost use Rattle.tl_tree.specs.Inner.Active.{active_of, listed_of};
ghost use Rattle.tl_tree.specs.Inner.Adopted.{AreInward, AreMade, IsAdopted, IsFirst, IsNear, after_clones, clones_at, clones_in, elements_between, frame_at, none_cloned, with_element};
ghost use Rattle.tl_tree.specs.Inner.Frames.{frames_of, path_of};
ghost use Rattle.tl_tree.specs.Inner.Store.{Grows, tag_at};
ghost use Rattle.tl_tree.specs.Inner.Tallied.{IsTallied};
ghost use Rattle.tl_tree.specs.declared.store.Store.{Store};

use crate::active::ActiveList;
use crate::active_entry::Listed;
use crate::error::GrowError;
use crate::frame::Frame;
use crate::path::FramePath;

/// How many elements were looked at between the block and the formatting element, and how many
/// of them were made anew.
#[derive(Clone, Copy)]
pub(crate) struct Between {
    pub(crate) seen: usize,
    pub(crate) made: usize,
}

impl Between {
    // An element more that isn't made anew.
    fn passed(self) -> Between
        requires { self.seen + 1 < 2 ^ 64 }
        ensures { result ≡ record { seen = self.seen + 1; made = self.made } }
    {
        Between {
            seen: self.seen + 1,
            made: self.made,
        }
    }

    // One more that is.
    fn cloned(self) -> Between
        requires seen { self.seen + 1 < 2 ^ 64 }
        requires made { self.made + 1 < 2 ^ 64 }
        ensures { result ≡ record { seen = self.seen + 1; made = self.made + 1 } }
    {
        Between {
            seen: self.seen + 1,
            made: self.made + 1,
        }
    }
}

// The frame at a place outside of the block is made anew, is listed no more, or leaves the stack.
fn clone_at(
    path: &mut FramePath<'_>,
    active: &mut ActiveList,
    block: usize,
    index: usize,
    between: Between,
) -> Result<Between, GrowError>
    requires whole { path.old.gaps.marks.items ≡ [] }
    requires block { block ≤ length path.old.frames.items }
    requires index { index < block }
    requires few { between.seen + index < block }
    requires made { between.made ≤ between.seen }
    requires numbered { active.old.greatest_number < path.old.next }
    requires listed { active.old.greatest_tag < length path.old.store.tags.items }
    requires tallied { IsTallied path.old.store active.old }
    ensures ok { IfOk result (λ after. (fs : List dom.Frame) → AreMade block path.old path.new
        (cloned between.seen (with_element (frame_at path.old index) fs)
        (active_of path.old.store active.old) path.old.next)
        (cloned after.seen fs (active_of path.new.store active.new) path.new.next)
        between.made after.made) }
    ensures len { OnOk result (length path.old.frames.items ≤ length path.new.frames.items) }
    ensures few { IfOk result (λ after. after.seen ≤ between.seen + 1) }
    ensures made { IfOk result (λ after. after.made ≤ after.seen) }
    ensures gaps { path.new.gaps ≡ path.old.gaps }
    ensures store { path.new.store ≡ path.old.store }
    ensures more { path.old.next ≤ path.new.next }
    ensures numbered { active.new.greatest_number < path.new.next }
    ensures tag { active.new.greatest_tag ≡ active.old.greatest_tag }
    ensures tallied { IsTallied path.new.store active.new }
{
    let frame = path.frames[index];
    if !frame.is_open {
        return Ok(between);
    }
    if !active.is_listed(frame.number) {
        return Ok(between.passed());
    }
    if between.seen > 2 {
        active.unlist(path, frame.number);
        return Ok(between.passed());
    }
    let number = path.next;
    path.insert_frame(
        block,
        Frame {
            children: 0,
            late: 0,
            waiting: 0,
            ..frame
        },
    )?;
    active.relist(frame.number, number);
    Ok(between.cloned())
}

// The elements between the block and the formatting element are made anew around the block, the
// innermost first. How many were made is the answer.
fn add_clones(
    path: &mut FramePath<'_>,
    active: &mut ActiveList,
    block: usize,
    number: u32,
) -> Result<usize, GrowError>
    requires whole { path.old.gaps.marks.items ≡ [] }
    requires block { block ≤ length path.old.frames.items }
    requires numbered { active.old.greatest_number < path.old.next }
    requires listed { active.old.greatest_tag < length path.old.store.tags.items }
    requires tallied { IsTallied path.old.store active.old }
    ensures ok { IfOk result (λ made. AreMade block path.old path.new
        (cloned 0 (elements (inside_of number (reverse (take block (frames_of path.old)))))
        (active_of path.old.store active.old) path.old.next)
        (none_cloned (active_of path.new.store active.new) path.new.next) 0 made) }
    ensures gaps { path.new.gaps ≡ path.old.gaps }
    ensures store { path.new.store ≡ path.old.store }
    ensures more { path.old.next ≤ path.new.next }
    ensures numbered { active.new.greatest_number < path.new.next }
    ensures tag { active.new.greatest_tag ≡ active.old.greatest_tag }
    ensures tallied { IsTallied path.new.store active.new }
{
    let mut between = Between { seen: 0, made: 0 };
    let mut left = block;
    while left > 0 {
        left -= 1;
        if path.frames[left].number == number {
            return Ok(between.made);
        }
        between = clone_at(path, active, block, left, between)?;
    }
    Ok(between.made)
}

// The element at a place is made anew, is listed no more, or leaves the stack. If it is made anew
// the next number is that of the clone. How many elements were looked at is the answer.
fn choose_at(
    path: &mut FramePath<'_>,
    active: &mut ActiveList,
    clones: &mut Vec<usize>,
    index: usize,
    seen: usize,
) -> Result<usize, GrowError>
    requires within { index < length path.old.frames.items }
    requires few { seen + 1 < 2 ^ 64 }
    requires numbered { active.old.greatest_number < path.old.next }
    requires listed { active.old.greatest_tag < length path.old.store.tags.items }
    requires tallied { IsTallied path.old.store active.old }
    ensures ok { IfOk result (λ after. (fs : List dom.Frame) (all : Clones) (first : ℕ) →
        path.old.next ≡ first + length clones.old.items →
        all ≡ after_clones (clones_at (frames_of path.old) first clones.old.items)
        (cloned seen (with_element (frame_at path.old index) fs)
        (active_of path.old.store active.old) path.old.next) →
        all ≡ after_clones (clones_at (frames_of path.old) first clones.new.items)
        (cloned after fs (active_of path.new.store active.new) path.new.next)) }
    ensures inward { OnOk result ((most : ℕ) → index < most →
        AreInward (index + 1) most clones.old.items → AreInward index most clones.new.items) }
    ensures count { OnOk result ((first : ℕ) → path.old.next ≡ first + length clones.old.items →
        path.new.next ≡ first + length clones.new.items) }
    ensures seen { IfOk result (λ after. after ≤ seen + 1) }
    ensures frames { path.new.frames.items ≡ path.old.frames.items }
    ensures gaps { path.new.gaps ≡ path.old.gaps }
    ensures store { path.new.store ≡ path.old.store }
    ensures more { path.old.next ≤ path.new.next }
    ensures numbered { active.new.greatest_number < path.new.next }
    ensures tag { active.new.greatest_tag ≡ active.old.greatest_tag }
    ensures tallied { IsTallied path.new.store active.new }
{
    let frame = path.frames[index];
    if !frame.is_open {
        return Ok(seen);
    }
    if !active.is_listed(frame.number) {
        return Ok(seen + 1);
    }
    if seen > 2 {
        active.unlist(path, frame.number);
        return Ok(seen + 1);
    }
    let number = path.take_number()?;
    clones.push(index)?;
    active.relist(frame.number, number);
    Ok(seen + 1)
}

// The places of the elements between the block and the formatting element, which stands right
// inside of a place, that are made anew, the innermost first. The next numbers are those of the
// clones.
fn choose_clones(
    path: &mut FramePath<'_>,
    active: &mut ActiveList,
    place: usize,
    block: usize,
) -> Result<Vec<usize>, GrowError>
    requires order { place + 1 < block }
    requires block { block < length path.old.frames.items }
    requires stands { slice_index_or path.old.gaps.marks.items (place + 1) false ≡ false }
    requires numbered { active.old.greatest_number < path.old.next }
    requires listed { active.old.greatest_tag < length path.old.store.tags.items }
    requires tallied { IsTallied path.old.store active.old }
    ensures ok { IfOk result (λ clones. cloned 0
        (elements_between (frame_at path.old (place + 1)).number path.old block)
        (active_of path.old.store active.old) path.old.next
        ≡ record {
          frames = clones_at (frames_of path.old) path.old.next clones.items;
          entries = active_of path.new.store active.new;
          next = path.new.next;
        }) }
    ensures inward { IfOk result (λ clones. AreInward (place + 2) block clones.items) }
    ensures count { IfOk result (λ clones. path.new.next ≡ path.old.next + length clones.items) }
    ensures frames { path.new.frames.items ≡ path.old.frames.items }
    ensures gaps { path.new.gaps ≡ path.old.gaps }
    ensures store { path.new.store ≡ path.old.store }
    ensures more { path.old.next ≤ path.new.next }
    ensures numbered { active.new.greatest_number < path.new.next }
    ensures tag { active.new.greatest_tag ≡ active.old.greatest_tag }
    ensures tallied { IsTallied path.new.store active.new }
{
    let mut clones = Vec::new(*path.frames.allocator());
    let mut seen: usize = 0;
    let mut left = block;
    while left > place + 2 {
        left -= 1;
        seen = choose_at(path, active, &mut clones, left, seen)?;
    }
    Ok(clones)
}

// The new element is listed where the formatting element was, or behind the clone that was made
// first.
fn list_new(
    path: &FramePath<'_>,
    active: &mut ActiveList,
    own: Listed,
    new: u32,
    made: usize,
    first: u32,
) -> Result<(), GrowError>
    requires new { active.old.greatest_number < new }
    requires listed { active.old.greatest_tag < length path.now.store.tags.items }
    requires own { own.tag < length path.now.store.tags.items }
    requires tallied { IsTallied path.now.store active.old }
    ensures active { OnOk result ((s : Store) (clones : dom.Path)
        → made ≡ length clones → IsFirst first clones → active_of s active.new
        ≡ entry_moved own.number new (tag_at s own.tag) clones (active_of s active.old)) }
    ensures number { active.new.greatest_number ≤ new }
    ensures tag { (n : ℕ) →
        active.old.greatest_tag < n → own.tag < n → active.new.greatest_tag < n }
    ensures tallied { IsTallied path.now.store active.new }
{
    if made == 0 {
        active.relist(own.number, new);
        return Ok(());
    }
    active.unlist(path, own.number);
    active.list_behind(path, first, new, own.tag)
}

// A round where all between the common ancestor and the block is settled where it stands. Clones
// come to stand there, so no frame is moved. The block isn't foster parented.
fn adopt_over(
    path: &mut FramePath<'_>,
    active: &mut ActiveList,
    own: Listed,
    place: usize,
    block: usize,
    is_fostering: bool,
) -> Result<usize, GrowError>
    requires order { place + 1 < block }
    requires block { block < length path.old.frames.items }
    requires open { (frame_at path.old block).is_open ≡ true }
    requires near { IsNear is_fostering own.number (frame_at path.old place)
        (frame_at path.old (place + 1)) }
    requires stands { slice_index_or path.old.gaps.marks.items (place + 1) false ≡ false }
    requires between { (n : ℕ) → place < n → n < block →
        slice_index_or path.old.gaps.marks.items n false ≡ false →
        (frame_at path.old n).place ≡ here }
    requires numbered { active.old.greatest_number < path.old.next }
    requires listed { active.old.greatest_tag < length path.old.store.tags.items }
    requires own { own.tag < length path.old.store.tags.items }
    requires tallied { IsTallied path.old.store active.old }
    ensures ok { IfOk result (λ made.
        IsAdopted is_fostering (listed_of path.old.store own) (frame_at path.old block)
        (clones_in (listed_of path.old.store own) (frame_at path.old block)
        (path_of path.old) (active_of path.old.store active.old) path.old.next)
        path.old path.new active.new made) }
    ensures more { path.old.next ≤ path.new.next }
    ensures numbered { active.new.greatest_number < path.new.next }
    ensures listed { active.new.greatest_tag < length path.old.store.tags.items }
    ensures tallied { IsTallied path.new.store active.new }
    ensures grows { Grows path.old.store path.new.store }
{
    let first = path.next;
    let clones = choose_clones(path, active, place, block)?;
    let made = clones.len();
    let new = path.next;
    path.renew_over(place, block, first, clones.as_slice(), own.tag)?;
    list_new(path, active, own, new, made, first)?;
    Ok(made)
}

// A round with a furthest block, wherever it stands.
fn adopt_far(
    path: &mut FramePath<'_>,
    active: &mut ActiveList,
    own: Listed,
    block: usize,
    is_fostering: bool,
) -> Result<usize, GrowError>
    requires whole { path.old.gaps.marks.items ≡ [] }
    requires some { 0 < block }
    requires block { block < length path.old.frames.items }
    requires numbered { active.old.greatest_number < path.old.next }
    requires listed { active.old.greatest_tag < length path.old.store.tags.items }
    requires own { own.tag < length path.old.store.tags.items }
    requires tallied { IsTallied path.old.store active.old }
    ensures ok { IfOk result (λ made.
        IsAdopted is_fostering (listed_of path.old.store own) (frame_at path.old block)
        (clones_in (listed_of path.old.store own) (frame_at path.old block) (path_of path.old)
        (active_of path.old.store active.old) path.old.next)
        path.old path.new active.new made) }
    ensures more { path.old.next ≤ path.new.next }
    ensures numbered { active.new.greatest_number < path.new.next }
    ensures listed { active.new.greatest_tag < length path.old.store.tags.items }
    ensures tallied { IsTallied path.new.store active.new }
    ensures grows { Grows path.old.store path.new.store }
{
    let ancestor = path.common_ancestor(own.number);
    let first = path.next;
    let made = add_clones(path, active, block, own.number)?;
    let new = path.next;
    path.renew(block + made, own.tag)?;
    list_new(path, active, own, new, made, first)?;
    path.settle_outside(block, ancestor, is_fostering)?;
    Ok(made)
}

// A round where frames are moved: those that are gone are taken out before.
fn adopt_whole(
    path: &mut FramePath<'_>,
    active: &mut ActiveList,
    own: Listed,
    block: usize,
    is_fostering: bool,
) -> Result<usize, GrowError>
    requires some { 0 < block }
    requires block { block < length path.old.frames.items }
    requires open { (frame_at path.old block).is_open ≡ true }
    requires numbered { active.old.greatest_number < path.old.next }
    requires listed { active.old.greatest_tag < length path.old.store.tags.items }
    requires own { own.tag < length path.old.store.tags.items }
    requires tallied { IsTallied path.old.store active.old }
    ensures ok { IfOk result (λ made.
        IsAdopted is_fostering (listed_of path.old.store own) (frame_at path.old block)
        (clones_in (listed_of path.old.store own) (frame_at path.old block) (path_of path.old)
        (active_of path.old.store active.old) path.old.next)
        path.old path.new active.new made) }
    ensures more { path.old.next ≤ path.new.next }
    ensures numbered { active.new.greatest_number < path.new.next }
    ensures listed { active.new.greatest_tag < length path.old.store.tags.items }
    ensures tallied { IsTallied path.new.store active.new }
    ensures grows { Grows path.old.store path.new.store }
{
    let block = path.close_gaps(block)?;
    adopt_far(path, active, own, block, is_fostering)
}

/// A round with a furthest block, which stands at a place of the path. How many elements were made
/// anew is the answer. Frames may be left that aren't known where the path is searched.
pub(crate) fn adopt(
    path: &mut FramePath<'_>,
    active: &mut ActiveList,
    own: Listed,
    block: usize,
    is_fostering: bool,
) -> Result<usize, GrowError>
    requires some { 0 < block }
    requires block { block < length path.old.frames.items }
    requires open { (frame_at path.old block).is_open ≡ true }
    requires numbered { active.old.greatest_number < path.old.next }
    requires listed { active.old.greatest_tag < length path.old.store.tags.items }
    requires own { own.tag < length path.old.store.tags.items }
    requires tallied { IsTallied path.old.store active.old }
    ensures ok { IfOk result (λ made.
        IsAdopted is_fostering (listed_of path.old.store own) (frame_at path.old block)
        (clones_in (listed_of path.old.store own) (frame_at path.old block) (path_of path.old)
        (active_of path.old.store active.old) path.old.next)
        path.old path.new active.new made) }
    ensures more { path.old.next ≤ path.new.next }
    ensures numbered { active.new.greatest_number < path.new.next }
    ensures listed { active.new.greatest_tag < length path.old.store.tags.items }
    ensures tallied { IsTallied path.new.store active.new }
    ensures grows { Grows path.old.store path.new.store }
{
    // Then as many frames are taken out as went since none was gone.
    if path.gaps.count > path.frames.len() / 2 {
        return adopt_whole(path, active, own, block, is_fostering);
    }
    match path.ancestor_over(block, own.number, is_fostering) {
        Some(place) => adopt_over(path, active, own, place, block, is_fostering),
        None => adopt_whole(path, active, own, block, is_fostering),
    }
}
