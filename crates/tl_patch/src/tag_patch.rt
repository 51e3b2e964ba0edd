//! Changes of tags.
ghost use Rattle.std.specs.Prelude.{◌≡◌, IfOk, IfSome, false, is_some, map, true};
ghost use Rattle.tl_patch.specs.Refused.{has_refused, is_refused};
ghost use Rattle.tl_patch.specs.Inner.Steps.{AreTagChanges};
ghost use Rattle.tl_patch.specs.PatchView.{change_of, change_view, patch_view};
ghost use Rattle.tl_patch.specs.StartTags.{IsChanged, is_start_tag};

use crate::{with_value, without_key};
use std::alloc::{AllocError, Global};

/// What is done with a start tag.
#[derive(Clone, Copy, Debug)]
pub enum Change<'a> {
    /// A key gets a value.
    Set { key: &'a [u8], value: &'a [u8] },
    /// A key goes.
    Unset { key: &'a [u8] },
}

/// A change of the start tag that begins at a byte of a page.
#[derive(Clone, Copy, Debug)]
pub struct TagPatch<'a> {
    pub start: usize,
    pub change: Change<'a>,
}

fn changed(alloc: Global, tag: &[u8], change: Change<'_>) -> Result<Option<Vec<u8>>, AllocError>
    ensures changed { IfOk result (λ found. IfSome found (λ new.
        IsChanged (change_view change.entry) tag.now new.items)) }
    ensures some { is_start_tag tag.now ≡ true →
        is_refused (change_view change.entry) ≡ false →
        IfOk result (λ found. is_some found ≡ true) }
{
    match change {
        Change::Set { key, value } => with_value(alloc, tag, key, value),
        Change::Unset { key } => without_key(alloc, tag, key),
    }
}

// A tag with changes one after the other; `None` where one can't be made.
#[tactic(auto, using(crate::proofs::Tags::tag_step, crate::proofs::Tags::tag_end))]
pub(crate) fn changed_tag(
    alloc: Global,
    tag: &[u8],
    patches: &[TagPatch<'_>],
) -> Result<Option<Vec<u8>>, AllocError>
    ensures changed { IfOk result (λ found. IfSome found (λ new.
        AreTagChanges (map change_of (map patch_view patches.now)) tag.now new.items)) }
    ensures some { is_start_tag tag.now ≡ true → has_refused (map patch_view patches.now) ≡ false →
        IfOk result (λ found. is_some found ≡ true) }
{
    let mut now = tag.to_vec(alloc)?;
    for at in 0..patches.len() {
        let Some(new) = changed(alloc, now.as_slice(), patches[at].change)? else {
            return Ok(None);
        };
        now = new;
    }
    Ok(Some(now))
}
