//! Names, in lower case.
ghost use Rattle.std.specs.Prelude.{◌≡◌, ◌++◌, IfOk, OnOk};
ghost use Rattle.std.specs.List.{list_all};
ghost use Rattle.tl_html_spec.specs.HtmlTokenizer.{char_of};
ghost use Rattle.tl_html_parts.specs.Bytes.{is_kept_in_name};
ghost use Rattle.tl_html_parts.specs.Parts.{name_of};
ghost use Rattle.tl_html_parts.specs.View.{characters_view};

use crate::byte_class::is_kept_in_name;
use crate::character_data::CharacterData;
use std::alloc::{AllocError, Global};

fn are_kept(name: &[u8]) -> bool
    ensures { result ≡ list_all is_kept_in_name name.now }
{
    for byte in name {
        if !is_kept_in_name(*byte) {
            return false;
        }
    }
    true
}

// Writes a byte, and U+FFFD for NUL.
fn write_character(byte: u8, out: &mut Vec<u8>) -> Result<(), AllocError>
    ensures { OnOk result (out.new.items ≡ out.old.items ++ char_of byte) }
{
    if byte == 0 {
        return out.extend_from_slice(b"\xEF\xBF\xBD");
    }
    out.push(byte)?;
    Ok(())
}

fn lowered(alloc: Global, raw: &[u8]) -> Result<Vec<u8>, AllocError>
    ensures { IfOk result (λ name. name.items ≡ name_of raw.now) }
{
    let mut name = Vec::with_capacity(alloc, raw.len())?;
    for byte in raw {
        write_character(byte.to_ascii_lowercase(), &mut name)?;
    }
    Ok(name)
}

/// A name as it is read: its letters in lower case, U+FFFD for NUL. Most stand for themselves.
#[tactic(auto, using(crate::proofs::Kept::name_kept))]
pub fn lower_name<'r>(alloc: Global, raw: &'r [u8]) -> Result<CharacterData<'r>, AllocError>
    ensures { IfOk result (λ name. characters_view name ≡ name_of raw.now) }
{
    if are_kept(raw) {
        return Ok(CharacterData::Same(raw));
    }
    Ok(CharacterData::Decoded(lowered(alloc, raw)?))
}
