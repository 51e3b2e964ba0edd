//! Elements that end without an end tag, and the end tags that are put in there.
ghost use Rattle.std.specs.List.{list_any};
ghost use Rattle.std.specs.Option.{option_to_list};
ghost use Rattle.std.specs.Prelude.{◌≡◌, ◌++◌, ℕ, IfOk, None, OnOk, length, option_map, slice_set, suc};
ghost use Rattle.tl_html_parts.specs.Parts.{name_of};
ghost use Rattle.tl_patch_spec.specs.LeftOpen.{closed_all, closed_at, closed_before, closed_behind, closed_if, closes_before, closing_at, ended_with, ends_element, is_left_open, last_open, none_open, open_with, open_with_all, takes_inside, with_inside, with_open, without_ended, without_inside, without_own};
ghost use Rattle.tl_patch_elements.specs.View.{element_view, elements_view};
ghost use Rattle.tl_patch_edit.specs.Open.{AreNone, ArePutIn, IsOpenFor, all_view, closes, closing_asks, closing_view, end_tag_asks, left_view, one_view, open_of, open_view};
ghost use Rattle.tl_patch_edit.specs.View.{extent_view, meant_view, patch_view};

use crate::ask::{
    Ask, ElementPatch, Extent, MeantPatch, PlacedAsk, Put, Start, Turn, extent_of, inner_end,
    inside_end,
};
use crate::plan::is_page;
use std::alloc::{AllocError, Global};
use tl_patch_elements::Element;

// An element: its name, as it stands in its start tag, and the number of that.
#[derive(Clone, Copy)]
pub(crate) struct OpenElement<'p> {
    pub(crate) name: &'p [u8],
    pub(crate) start: usize,
}

// The elements that end without their end tag: of each token, and of the end of the page, the
// outermost that ends before it; of each start tag the outermost in its element that ends where
// this one ends; and of each start tag its own element, while it has got no end tag.
#[derive(Drop)]
pub(crate) struct LeftOpen<'p> {
    pub(crate) before: Vec<Option<OpenElement<'p>>>,
    pub(crate) inside: Vec<Option<OpenElement<'p>>>,
    pub(crate) own: Vec<Option<OpenElement<'p>>>,
}

// An element that gets its end tag before a token.
#[derive(Clone, Copy)]
pub(crate) struct Closing<'p> {
    pub(crate) place: usize,
    pub(crate) of: OpenElement<'p>,
}

// So many tokens, and the end of the page, with no element.
fn no_element<'p>(alloc: Global, len: usize) -> Result<Vec<Option<OpenElement<'p>>>, AllocError>
    ensures len { IfOk result (λ left. length left.items ≡ suc len) }
    ensures none { IfOk result (λ left. AreNone left.items) }
{
    let mut left = Vec::new(alloc);
    left.push(None)?;
    'tokens: while left.len() <= len {
        left.push(None)?;
    }
    Ok(left)
}

// So many tokens of which none is left open.
fn none_open<'p>(alloc: Global, len: usize) -> Result<LeftOpen<'p>, AllocError>
    ensures { IfOk result (λ left. left_view left ≡ none_open len) }
{
    let before = no_element(alloc, len)?;
    let inside = no_element(alloc, len)?;
    let own = no_element(alloc, len)?;
    Ok(LeftOpen {
        before,
        inside,
        own,
    })
}

// Sets the element of a token.
fn set_open<'p>(
    left: &mut Vec<Option<OpenElement<'p>>>,
    number: usize,
    one: Option<OpenElement<'p>>,
)
    ensures { all_view left.new.items
        ≡ slice_set (all_view left.old.items) number (open_view one.entry) }
{
    if number < left.len() {
        left[number] = one;
    }
}

// The element of a token.
fn open_at<'p>(left: &[Option<OpenElement<'p>>], number: usize) -> Option<OpenElement<'p>>
    ensures { result ≡ open_of left.now number }
{
    if number < left.len() {
        return left[number];
    }
    None
}

// With what an element that ends before a token holds.
fn with_inside<'p>(one: OpenElement<'p>, end: usize, left: &mut LeftOpen<'p>)
    ensures { left_view left.new ≡ with_inside (one_view one.entry) end (left_view left.old) }
{
    let inner = open_at(left.before.as_slice(), end);
    set_open(&mut left.inside, one.start, inner);
}

// With an element that is left open before a token.
fn with_open<'p>(one: OpenElement<'p>, end: usize, left: &mut LeftOpen<'p>)
    ensures { left_view left.new ≡ with_open (one_view one.entry) end (left_view left.old) }
{
    set_open(&mut left.before, end, Some(one));
    set_open(&mut left.own, one.start, Some(one));
}

// With an element that ends before a token.
fn ended_with<'p>(one: OpenElement<'p>, end: usize, is_open: bool, left: &mut LeftOpen<'p>)
    ensures { left_view left.new
        ≡ ended_with (one_view one.entry) end is_open (left_view left.old) }
{
    with_inside(one, end, left);
    if is_open {
        with_open(one, end, left);
    }
}

// Whether an element is left open where it ends; `</body>` and `</html>` end nothing.
fn is_left_open(alloc: Global, extent: Extent, raw: &[u8]) -> Result<bool, AllocError>
    ensures { IfOk result (λ is. is ≡ is_left_open (extent_view extent) (name_of raw.now)) }
{
    match extent {
        Extent::Implied { .. } => {
            let is_page = is_page(alloc, raw)?;
            Ok(!is_page)
        },
        Extent::Unclosed { .. } => Ok(true),
        _ => Ok(false),
    }
}

// With an element that goes so far.
fn open_with<'p>(
    alloc: Global,
    one: OpenElement<'p>,
    extent: Extent,
    left: &mut LeftOpen<'p>,
) -> Result<(), AllocError>
    ensures { OnOk result (left_view left.new
        ≡ open_with (one_view one.entry) (extent_view extent) (left_view left.old)) }
{
    let Some(end) = inside_end(extent) else {
        return Ok(());
    };
    let is_open = is_left_open(alloc, extent, one.name)?;
    ended_with(one, end, is_open, left);
    Ok(())
}

// The elements that end without their end tag, where there are so many tokens.
fn left_open<'p>(
    alloc: Global,
    elements: &[Element<'p>],
    len: usize,
) -> Result<LeftOpen<'p>, AllocError>
    ensures { IfOk result (λ left. left_view left
        ≡ open_with_all (elements_view elements.now) (none_open len)) }
{
    let mut left = none_open(alloc, len)?;
    for at in 0..elements.len() {
        let element = elements[at];
        let extent = extent_of(alloc, &element)?;
        let one = OpenElement {
            name: element.name,
            start: element.start,
        };
        open_with(alloc, one, extent, &mut left)?;
    }
    Ok(left)
}

// Whether a patch may put in end tags.
fn closes(patch: ElementPatch<'_>) -> bool
    ensures { result ≡ closes (patch_view patch.entry) }
{
    match patch {
        ElementPatch::Remove => false,
        ElementPatch::Fill { .. } => false,
        ElementPatch::Prepend { .. } => false,
        _ => true,
    }
}

// Whether one of some patches may.
fn close_some(meant: &[MeantPatch<'_>]) -> bool
    ensures { result ≡ list_any (λ m. closes (patch_view m.patch)) meant.now }
{
    meant.iter().any(|one| closes(one.patch))
}

// What is left open of these elements, as far as patches ask for it: those that put in no end tag
// don't.
#[tactic(auto, using(crate::proofs::Unread::open_for_none, crate::proofs::Unread::open_for_all))]
pub(crate) fn open_for<'p>(
    alloc: Global,
    elements: &[Element<'p>],
    len: usize,
    meant: &[MeantPatch<'_>],
) -> Result<LeftOpen<'p>, AllocError>
    ensures { IfOk result (λ left.
        IsOpenFor (elements_view elements.now) len (meant_view meant.now) (left_view left)) }
{
    if close_some(meant) {
        let left = left_open(alloc, elements, len)?;
        return Ok(left);
    }
    Ok(LeftOpen {
        before: Vec::new(alloc),
        inside: Vec::new(alloc),
        own: Vec::new(alloc),
    })
}

// The end tag of the element of a start tag, put in before a token by a patch, if it has got none.
fn push_end_tag<'p>(
    start: Start,
    at: usize,
    place: usize,
    number: usize,
    left: &mut LeftOpen<'p>,
    out: &mut Vec<PlacedAsk<'p>>,
) -> Result<(), AllocError>
    ensures asks { OnOk result (out.new.items
        ≡ out.old.items ++ end_tag_asks start at place (open_of left.old.own.items number)) }
    ensures left { OnOk result (left_view left.new ≡ closed_at (left_view left.old) number) }
{
    if let Some(one) = open_at(left.own.as_slice(), number) {
        let turn = Turn {
            depth: one.start,
            rank: 3,
            at,
        };
        let ask = Ask {
            from: place,
            until: place,
            put: Put::LeftOut { raw: one.name },
        };
        out.push(PlacedAsk { start, turn, ask })?;
    }
    set_open(&mut left.own, number, None);
    Ok(())
}

// The same of an element that gets its end tag, if one does.
fn push_closing<'p>(
    start: Start,
    at: usize,
    closing: Option<Closing<'p>>,
    left: &mut LeftOpen<'p>,
    out: &mut Vec<PlacedAsk<'p>>,
) -> Result<(), AllocError>
    ensures asks { OnOk result (out.new.items
        ≡ out.old.items ++ closing_asks start at closing.entry left.old) }
    ensures left { OnOk result (left_view left.new ≡ closed_all (left_view left.old)
        (option_to_list (option_map closing_view closing.entry))) }
{
    let Some(one) = closing else {
        return Ok(());
    };
    push_end_tag(start, at, one.place, one.of.start, left, out)?;
    Ok(())
}

// An element that gets its end tag at a place, if there are both.
fn closing_at<'p>(place: Option<usize>, one: Option<OpenElement<'p>>) -> Option<Closing<'p>>
    ensures { option_map closing_view result ≡ closing_at place (open_view one.entry) }
{
    let Some(place) = place else {
        return None;
    };
    let Some(of) = one else {
        return None;
    };
    Some(Closing { place, of })
}

// Whether what a patch puts at a start tag stands before it or in its place.
fn closes_before(patch: ElementPatch<'_>) -> bool
    ensures { result ≡ closes_before (patch_view patch.entry) }
{
    match patch {
        ElementPatch::Rename { .. } => true,
        ElementPatch::Unwrap => true,
        ElementPatch::ReplaceWith { .. } => true,
        ElementPatch::PutBefore { .. } => true,
        _ => false,
    }
}

// What gets its end tag before the start tag of a patch.
fn closed_before<'p>(
    patch: ElementPatch<'_>,
    number: usize,
    left: &LeftOpen<'p>,
) -> Option<Closing<'p>>
    ensures { option_map closing_view result
        ≡ closed_before (patch_view patch.entry) number (left_view left.now) }
{
    let closes_before = closes_before(patch);
    if !closes_before {
        return None;
    }
    closing_at(Some(number), open_at(left.before.as_slice(), number))
}

// What gets its end tag where the element of a patch ends: what is left open in it, before what the
// patch changes there; the element itself, before what is put after it.
fn last_open<'p>(
    patch: ElementPatch<'_>,
    number: usize,
    left: &LeftOpen<'p>,
) -> Option<OpenElement<'p>>
    ensures { open_view result
        ≡ last_open (patch_view patch.entry) number (left_view left.now) }
{
    match patch {
        ElementPatch::Rename { .. } => open_at(left.inside.as_slice(), number),
        ElementPatch::Unwrap => open_at(left.inside.as_slice(), number),
        ElementPatch::Append { .. } => open_at(left.inside.as_slice(), number),
        ElementPatch::PutAfter { .. } => open_at(left.own.as_slice(), number),
        _ => None,
    }
}

// The same with its place.
fn closed_behind<'p>(
    patch: ElementPatch<'_>,
    number: usize,
    extent: Extent,
    left: &LeftOpen<'p>,
) -> Option<Closing<'p>>
    ensures { option_map closing_view result
        ≡ closed_behind (patch_view patch.entry) number (extent_view extent)
        (left_view left.now) }
{
    closing_at(inner_end(extent), last_open(patch, number, left))
}

// Adds the end tags that a patch puts in.
pub(crate) fn push_end_tags<'n>(
    one: MeantPatch<'n>,
    at: usize,
    extent: Extent,
    left: &mut LeftOpen<'n>,
    out: &mut Vec<PlacedAsk<'n>>,
) -> Result<(), AllocError>
    ensures { OnOk result (ArePutIn one.entry at (extent_view extent) left.old
        out.old.items left.new out.new.items) }
{
    let before = closed_before(one.patch, one.start.number, left);
    let behind = closed_behind(one.patch, one.start.number, extent, left);
    push_closing(one.start, at, before, left, out)?;
    push_closing(one.start, at, behind, left, out)?;
    Ok(())
}

// Whether an element needs no end tag with a patch: it goes, or its tags, or it has one of another
// name.
fn ends_element(patch: ElementPatch<'_>) -> bool
    ensures { result ≡ ends_element (patch_view patch.entry) }
{
    match patch {
        ElementPatch::Rename { .. } => true,
        ElementPatch::Remove => true,
        ElementPatch::Unwrap => true,
        ElementPatch::ReplaceWith { .. } => true,
        _ => false,
    }
}

fn without_own<'p>(patch: ElementPatch<'_>, number: usize, left: &mut LeftOpen<'p>)
    ensures { left_view left.new
        ≡ without_own (patch_view patch.entry) number (left_view left.old) }
{
    let ends_element = ends_element(patch);
    if ends_element {
        set_open(&mut left.own, number, None);
    }
}

// Whether what is in an element goes with a patch.
fn takes_inside(patch: ElementPatch<'_>) -> bool
    ensures { result ≡ takes_inside (patch_view patch.entry) }
{
    match patch {
        ElementPatch::Remove => true,
        ElementPatch::ReplaceWith { .. } => true,
        ElementPatch::Fill { .. } => true,
        _ => false,
    }
}

// Without an element, if there is one.
fn close_if<'p>(element: Option<OpenElement<'p>>, left: &mut LeftOpen<'p>)
    ensures { left_view left.new ≡ closed_if (left_view left.old) (open_view element.entry) }
{
    let Some(one) = element else {
        return;
    };
    set_open(&mut left.own, one.start, None);
}

fn without_inside<'p>(patch: ElementPatch<'_>, number: usize, left: &mut LeftOpen<'p>)
    ensures { left_view left.new
        ≡ without_inside (patch_view patch.entry) number (left_view left.old) }
{
    let takes_inside = takes_inside(patch);
    if takes_inside {
        let inner = open_at(left.inside.as_slice(), number);
        close_if(inner, left);
    }
}

// Without what one patch ends.
fn end_one<'p>(one: MeantPatch<'_>, left: &mut LeftOpen<'p>)
    ensures { left_view left.new ≡ without_inside (patch_view one.entry.patch)
        one.entry.start.number (without_own (patch_view one.entry.patch)
        one.entry.start.number (left_view left.old)) }
{
    without_own(one.patch, one.start.number, left);
    without_inside(one.patch, one.start.number, left);
}

// Without the elements that patches end.
pub(crate) fn without_ended<'p>(meant: &[MeantPatch<'_>], left: &mut LeftOpen<'p>)
    ensures { left_view left.new
        ≡ without_ended (meant_view meant.now) (left_view left.old) }
{
    for at in 0..meant.len() {
        end_one(meant[at], left);
    }
}
