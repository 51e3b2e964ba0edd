//! How far the elements of a page go, by the numbers of their start tags.
ghost use Rattle.std.specs.Prelude.{◌≡◌, ◌≤◌, ◌<◌, IfOk, length, slice_set};
ghost use Rattle.tl_patch_elements.specs.View.{elements_view};
ghost use Rattle.tl_patch_edit.specs.Several.{AreDropped, AreExtents};

use crate::ask::{Extent, extent_of};
use std::alloc::{AllocError, Global};
use tl_patch_elements::Element;

// So many tags that are dropped.
fn dropped(alloc: Global, len: usize) -> Result<Vec<Extent>, AllocError>
    ensures len { IfOk result (λ extents. length extents.items ≡ len) }
    ensures dropped { IfOk result (λ extents. AreDropped extents.items) }
{
    let mut extents = Vec::with_capacity(alloc, len)?;
    'tags: while extents.len() < len {
        extents.push(Extent::Dropped)?;
    }
    Ok(extents)
}

fn set_extent(extents: &mut Vec<Extent>, number: usize, extent: Extent)
    ensures within { number < length extents.old.items →
        extents.new.items ≡ slice_set extents.old.items number extent }
    ensures past { length extents.old.items ≤ number →
        extents.new.items ≡ extents.old.items }
{
    if number < extents.len() {
        extents[number] = extent;
    }
}

// How far the element of each start tag goes, where there are so many tokens.
pub(crate) fn extents_of(
    alloc: Global,
    elements: &[Element<'_>],
    len: usize,
) -> Result<Vec<Extent>, AllocError>
    ensures len { IfOk result (λ extents. length extents.items ≡ len) }
    ensures extents { IfOk result (λ extents.
        AreExtents (elements_view elements.now) extents.items) }
{
    let mut extents = dropped(alloc, len)?;
    let mut left = elements.len();
    while left > 0 {
        left -= 1;
        let extent = extent_of(alloc, &elements[left])?;
        set_extent(&mut extents, elements[left].start, extent);
    }
    Ok(extents)
}
