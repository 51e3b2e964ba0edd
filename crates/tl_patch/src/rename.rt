//! Start tags with another name.
ghost use Rattle.std.specs.Prelude.{◌≡◌, ◌&&◌, IfOk, IfSome, false, is_some, true};
ghost use Rattle.tl_patch_spec.specs.TagNames.{IsNameEnd};
ghost use Rattle.tl_patch_spec.specs.Markup.{is_name};
ghost use Rattle.tl_patch.specs.StartTags.{IsRenamed, is_start_tag};

use crate::is_name;
use crate::parts::start_tag_name_end;
use crate::rewrite::write_with;
use std::alloc::{AllocError, Global};

// With another name, where the name ends at a place.
fn renamed(alloc: Global, tag: &[u8], end: usize, name: &[u8]) -> Result<Vec<u8>, AllocError>
    requires tag { is_start_tag tag.now ≡ true }
    requires end { IsNameEnd false end tag.now }
    requires name { is_name name.now ≡ true }
    ensures { IfOk result (λ new. IsRenamed name.now tag.now new.items) }
{
    let mut new = Vec::new(alloc);
    write_with(tag, 1, end, name, &mut new)?;
    Ok(new)
}

/// A start tag with another name, its attributes as they stand. `None` where the bytes are no start
/// tag by themselves, or the name can't be written as it is.
pub fn with_name(alloc: Global, tag: &[u8], name: &[u8]) -> Result<Option<Vec<u8>>, AllocError>
    ensures renamed { IfOk result (λ found. IfSome found (λ new.
        IsRenamed name.now tag.now new.items)) }
    ensures some { IfOk result (λ found.
        is_some found ≡ (is_name name.now && is_start_tag tag.now)) }
{
    if !is_name(name) {
        return Ok(None);
    }
    let Some(end) = start_tag_name_end(alloc, tag)? else {
        return Ok(None);
    };
    let new = renamed(alloc, tag, end, name)?;
    Ok(Some(new))
}
