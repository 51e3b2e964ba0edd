//! Start tags with a key set or unset.
ghost use Rattle.std.specs.Prelude.{◌≡◌, ◌&&◌, ◌++◌, IfOk, IfSome, OnOk, drop, false, is_some, true};
ghost use Rattle.std.specs.List.{list_any};
ghost use Rattle.tl_patch_spec.specs.TagNames.{IsNameEnd};
ghost use Rattle.tl_patch_spec.specs.Markup.{is_key, is_without_nul, quoted_value};
ghost use Rattle.tl_patch_spec.specs.TagChanges.{Set, Unset};
ghost use Rattle.tl_patch.specs.AttributePlaces.{IsFirstNamed, is_named, places_of, value_put};
ghost use Rattle.tl_patch.specs.StartTags.{IsChanged, is_start_tag};

use crate::cut::cuts;
use crate::parts::start_tag_name_end;
use crate::places::{first_named, places};
use crate::rewrite::write_with;
use crate::stage::Place;
use crate::{is_key, is_value, with_attribute, with_splices, write_value};
use std::alloc::{AllocError, Global};

#[tactic(auto, using(crate::proofs::Puts::quoted_is))]
fn write_quoted(value: &[u8], out: &mut Vec<u8>) -> Result<(), AllocError>
    ensures { OnOk result (out.new.items ≡ out.old.items ++ quoted_value value.now) }
{
    out.push(b'"')?;
    write_value(value, out)?;
    out.push(b'"')?;
    Ok(())
}

// What is put after a key, or in the place of its value.
fn value_put(alloc: Global, has_equals: bool, value: &[u8]) -> Result<Vec<u8>, AllocError>
    ensures { IfOk result (λ put. put.items ≡ value_put has_equals value.now) }
{
    let mut put = Vec::new(alloc);
    if has_equals {
        write_quoted(value, &mut put)?;
        return Ok(put);
    }
    put.push(b'=')?;
    write_quoted(value, &mut put)?;
    Ok(put)
}

// With another value at the first attribute of a key.
fn with_other_value(
    alloc: Global,
    tag: &[u8],
    start: usize,
    place: Place,
    key: &[u8],
    value: &[u8],
) -> Result<Vec<u8>, AllocError>
    requires tag { is_start_tag tag.now ≡ true }
    requires start { IsNameEnd false start tag.now }
    requires first { IsFirstNamed (drop start tag.now) key.now (places_of (drop start tag.now))
        place }
    requires value { is_without_nul value.now ≡ true }
    ensures { IfOk result (λ new. IsChanged (Set key.now value.now) tag.now new.items) }
{
    let put = value_put(alloc, place.has_equals, value)?;
    let mut new = Vec::new(alloc);
    new.extend_from_slice(&tag[..start])?;
    write_with(
        &tag[start..],
        place.value,
        place.end,
        put.as_slice(),
        &mut new,
    )?;
    Ok(new)
}

// With a key that is not there yet.
fn with_new_key(
    alloc: Global,
    tag: &[u8],
    start: usize,
    key: &[u8],
    value: &[u8],
) -> Result<Option<Vec<u8>>, AllocError>
    requires tag { is_start_tag tag.now ≡ true }
    requires start { IsNameEnd false start tag.now }
    requires absent { list_any (is_named (drop start tag.now) key.now)
        (places_of (drop start tag.now)) ≡ false }
    requires key { is_key key.now ≡ true }
    requires value { is_without_nul value.now ≡ true }
    ensures changed { IfOk result (λ found. IfSome found (λ new.
        IsChanged (Set key.now value.now) tag.now new.items)) }
    ensures some { IfOk result (λ found. is_some found ≡ true) }
{
    with_attribute(alloc, tag, key, value)
}

// So of a start tag, whose name ends at a place.
fn with_written_value(
    alloc: Global,
    tag: &[u8],
    start: usize,
    key: &[u8],
    value: &[u8],
) -> Result<Option<Vec<u8>>, AllocError>
    requires tag { is_start_tag tag.now ≡ true }
    requires start { IsNameEnd false start tag.now }
    requires key { is_key key.now ≡ true }
    requires value { is_without_nul value.now ≡ true }
    ensures changed { IfOk result (λ found. IfSome found (λ new.
        IsChanged (Set key.now value.now) tag.now new.items)) }
    ensures some { IfOk result (λ found. is_some found ≡ true) }
{
    let rest = &tag[start..];
    let attributes = places(alloc, rest)?;
    let Some(place) = first_named(alloc, rest, attributes.as_slice(), key)? else {
        return with_new_key(alloc, tag, start, key, value);
    };
    let new = with_other_value(alloc, tag, start, place, key, value)?;
    Ok(Some(new))
}

/// A start tag with this value at a key: in the place of the value that the first such attribute
/// has, else with the key right after the name. `None` where the bytes are no start tag by
/// themselves, or the key or the value can't be written.
pub fn with_value(
    alloc: Global,
    tag: &[u8],
    key: &[u8],
    value: &[u8],
) -> Result<Option<Vec<u8>>, AllocError>
    ensures changed { IfOk result (λ found. IfSome found (λ new.
        IsChanged (Set key.now value.now) tag.now new.items)) }
    ensures some { IfOk result (λ found. is_some found
        ≡ (is_key key.now && (is_without_nul value.now && is_start_tag tag.now))) }
{
    if !is_key(key) || !is_value(value) {
        return Ok(None);
    }
    let Some(start) = start_tag_name_end(alloc, tag)? else {
        return Ok(None);
    };
    with_written_value(alloc, tag, start, key, value)
}

// So a start tag, whose name ends at a place, without a key.
fn without_named(
    alloc: Global,
    tag: &[u8],
    start: usize,
    key: &[u8],
) -> Result<Option<Vec<u8>>, AllocError>
    requires tag { is_start_tag tag.now ≡ true }
    requires start { IsNameEnd false start tag.now }
    ensures changed { IfOk result (λ found. IfSome found (λ new.
        IsChanged (Unset key.now) tag.now new.items)) }
    ensures some { IfOk result (λ found. is_some found ≡ true) }
{
    let rest = &tag[start..];
    let attributes = places(alloc, rest)?;
    let gone = cuts(alloc, rest, attributes.as_slice(), key)?;
    // (they stand in order, so it is never `None`)
    let Some(new_rest) = with_splices(alloc, rest, gone.as_slice())? else {
        return Ok(None);
    };
    let mut new = Vec::new(alloc);
    new.extend_from_slice(&tag[..start])?;
    new.extend_from_slice(new_rest.as_slice())?;
    Ok(Some(new))
}

/// A start tag without a key. `None` where the bytes are no start tag by themselves.
pub fn without_key(alloc: Global, tag: &[u8], key: &[u8]) -> Result<Option<Vec<u8>>, AllocError>
    ensures changed { IfOk result (λ found. IfSome found (λ new.
        IsChanged (Unset key.now) tag.now new.items)) }
    ensures some { IfOk result (λ found. is_some found ≡ is_start_tag tag.now) }
{
    let Some(start) = start_tag_name_end(alloc, tag)? else {
        return Ok(None);
    };
    without_named(alloc, tag, start, key)
}
