//! Names of elements.
ghost use Rattle.std.specs.Prelude.{◌≡◌, ◌||◌, codes};
ghost use Rattle.std.specs.Str.{bytes_eq};
ghost use Rattle.tl_html_spec.specs.Balanced.{is_raw};
ghost use Rattle.tl_patch_spec.specs.Patches.{is_page_name, may_be_renamed, may_lack_end_tag};
ghost use Rattle.tl_patch_edit.specs.Asks.{is_document_name, is_script_name};

use tl_lexer::names::is_void;
use tl_names::elements::{IMPLIED_ENDS, RAWTEXT_NAMES, RCDATA_NAMES, TABLE_PARTS};
use tl_names::is_among;

fn is_document_name(name: &[u8]) -> bool
    ensures { result ≡ is_document_name name.now }
{
    name == b"html".as_slice() || name == b"head".as_slice() || name == b"body".as_slice()
}

// Whether the end tag of an element may be left out.
pub(crate) fn may_lack_end_tag(name: &[u8]) -> bool
    ensures { result ≡ may_lack_end_tag name.now }
{
    let is_implied = is_among(&IMPLIED_ENDS, name);
    if is_implied {
        return true;
    }
    let is_part = is_among(&TABLE_PARTS, name);
    if is_part {
        return true;
    }
    is_document_name(name)
}

// Whether what stands behind the end tag of an element is in the body.
#[tactic(auto, using(crate::proofs::Names::page_name))]
pub(crate) fn is_page_name(name: &[u8]) -> bool
    ensures { result ≡ is_page_name name.now }
{
    name == b"html".as_slice() || name == b"body".as_slice()
}

fn is_script_name(name: &[u8]) -> bool
    ensures { result ≡ is_script_name name.now }
{
    name == b"script".as_slice() || name == b"plaintext".as_slice()
}

// Whether an element holds a text alone.
fn is_raw(name: &[u8]) -> bool
    ensures { result ≡ is_raw name.now }
{
    let is_title = is_among(&RCDATA_NAMES, name);
    if is_title {
        return true;
    }
    let is_text = is_among(&RAWTEXT_NAMES, name);
    if is_text {
        return true;
    }
    is_script_name(name)
}

// Whether an element may get another name.
pub(crate) fn may_be_renamed(name: &[u8], new: &[u8]) -> bool
    ensures { result ≡ may_be_renamed name.now new.now }
{
    let is_either_raw = is_raw(name) || is_raw(new);
    if is_either_raw {
        return false;
    }
    is_void(name) == is_void(new)
}
