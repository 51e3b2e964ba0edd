//! Bytes with some of them replaced.
ghost use Rattle.std.specs.Prelude.{◌≡◌, length, map, IfOk, IfSome, is_some};
ghost use Rattle.tl_patch_spec.specs.Splices.{are_ordered, with_splices};
ghost use Rattle.tl_patch.specs.View.{splice_view};

use std::alloc::{AllocError, Global};

/// The bytes from one place until another, and what stands there instead.
#[derive(Clone, Copy, Debug)]
pub struct Splice<'a> {
    pub from: usize,
    pub until: usize,
    pub put: &'a [u8],
}

/// The page with these splices; `None` where they are not in order or go past its end.
pub fn with_splices(
    alloc: Global,
    page: &[u8],
    splices: &[Splice],
) -> Result<Option<Vec<u8>>, AllocError>
    ensures text { IfOk result (λ found. IfSome found (λ text.
        text.items ≡ with_splices page.now (map splice_view splices.now))) }
    ensures some { IfOk result (λ found.
        is_some found ≡ are_ordered 0 (length page.now) (map splice_view splices.now)) }
{
    let mut text = Vec::new(alloc);
    let mut place = 0usize;
    for splice in splices {
        if splice.from < place || splice.until < splice.from || page.len() < splice.until {
            return Ok(None);
        }
        text.extend_from_slice(&page[place..splice.from])?;
        text.extend_from_slice(splice.put)?;
        place = splice.until;
    }
    text.extend_from_slice(&page[place..])?;
    Ok(Some(text))
}
