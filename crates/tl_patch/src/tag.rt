//! Tags with a change, in their own bytes.
ghost use Rattle.std.specs.Prelude.{◌≡◌, ◌&&◌, false, IfOk, IfSome, is_some, true};
ghost use Rattle.tl_patch.specs.Places.{IsAdded, IsRenamed, begins_end_tag, begins_start_tag};
ghost use Rattle.tl_patch_spec.specs.Markup.{is_key, is_name, is_without_nul};

use crate::markup::{is_key, is_name, is_value, write_attribute};
use crate::name::{end_name_end, start_name_end};
use std::alloc::{AllocError, Global};

/// A start tag with one attribute more, right after its name; `None` where no start tag begins, or
/// the key or the value can't be written.
pub fn with_attribute(
    alloc: Global,
    tag: &[u8],
    key: &[u8],
    value: &[u8],
) -> Result<Option<Vec<u8>>, AllocError>
    ensures added { IfOk result (λ found. IfSome found (λ new.
        IsAdded tag.now new.items key.now value.now)) }
    ensures some { IfOk result (λ found. is_some found
        ≡ (is_key key.now && (is_without_nul value.now && begins_start_tag tag.now))) }
{
    if !is_key(key) || !is_value(value) {
        return Ok(None);
    }
    let Some(end) = start_name_end(tag) else {
        return Ok(None);
    };
    let mut new_tag = Vec::new(alloc);
    new_tag.extend_from_slice(&tag[..end])?;
    write_attribute(key, value, &mut new_tag)?;
    new_tag.extend_from_slice(&tag[end..])?;
    Ok(Some(new_tag))
}

/// A start tag with another name; `None` where no start tag begins, or the name can't be written.
pub fn with_start_name(
    alloc: Global,
    tag: &[u8],
    name: &[u8],
) -> Result<Option<Vec<u8>>, AllocError>
    ensures renamed { IfOk result (λ found. IfSome found (λ new.
        IsRenamed false tag.now new.items name.now)) }
    ensures some { IfOk result (λ found.
        is_some found ≡ (is_name name.now && begins_start_tag tag.now)) }
{
    if !is_name(name) {
        return Ok(None);
    }
    let Some(end) = start_name_end(tag) else {
        return Ok(None);
    };
    let mut new_tag = Vec::new(alloc);
    new_tag.extend_from_slice(b"<")?;
    new_tag.extend_from_slice(name)?;
    new_tag.extend_from_slice(&tag[end..])?;
    Ok(Some(new_tag))
}

/// An end tag with another name; `None` where no end tag begins, or the name can't be written.
pub fn with_end_name(alloc: Global, tag: &[u8], name: &[u8]) -> Result<Option<Vec<u8>>, AllocError>
    ensures renamed { IfOk result (λ found. IfSome found (λ new.
        IsRenamed true tag.now new.items name.now)) }
    ensures some { IfOk result (λ found.
        is_some found ≡ (is_name name.now && begins_end_tag tag.now)) }
{
    if !is_name(name) {
        return Ok(None);
    }
    let Some(end) = end_name_end(tag) else {
        return Ok(None);
    };
    let mut new_tag = Vec::new(alloc);
    new_tag.extend_from_slice(b"</")?;
    new_tag.extend_from_slice(name)?;
    new_tag.extend_from_slice(&tag[end..])?;
    Ok(Some(new_tag))
}
