//! Texts, where they stand.
ghost use Rattle.std.specs.List.{filter, list_all};
ghost use Rattle.std.specs.Prelude.{IfOk, OnOk, false, true, ◌&&◌, ◌++◌, ◌≡◌};
ghost use Rattle.tl_html_print.specs.Serialized.{escaped};
ghost use Rattle.tl_tree_safe.specs.Fitted.{past_lines};
ghost use Rattle.tl_tree_safe.specs.Inner.Pass.{first_said};
ghost use Rattle.tl_tree_safe.specs.Inner.Walk.{said_where};
ghost use Rattle.tl_tree_spec.specs.HtmlForest.{is_empty};
ghost use Rattle.tl_tree_spec.specs.Stays.{may_be_read};

use crate::clean::{is_clean, is_said, said_byte};
use std::alloc::{AllocError, Global};
use tl_html_print::write_escaped;

// Whether a character may stand: between the parts of a table white space alone may.
fn may_be_read(in_flow: bool, byte: u8) -> bool
    ensures { result ≡ may_be_read in_flow byte }
{
    if in_flow {
        byte != 0
    } else {
        byte.is_ascii_whitespace()
    }
}

// Whether all characters may stand.
fn may_all_be_read(in_flow: bool, bytes: &[u8]) -> bool
    ensures { result ≡ list_all (may_be_read in_flow) bytes.now }
{
    for byte in bytes {
        if !may_be_read(in_flow, *byte) {
            return false;
        }
    }
    true
}

// Whether a text stays as it is. Where it stands in no table its bytes are looked through at once.
fn is_whole(in_flow: bool, bytes: &[u8]) -> bool
    ensures { result ≡ true → said_where in_flow bytes.now ≡ bytes.now }
{
    is_clean(bytes) && (in_flow || may_all_be_read(in_flow, bytes))
}

// What stays of a text.
fn said(alloc: Global, in_flow: bool, bytes: &[u8]) -> Result<Vec<u8>, AllocError>
    ensures { IfOk result (λ kept. kept.items ≡ said_where in_flow bytes.now) }
{
    let mut kept = Vec::new(alloc);
    for byte in bytes {
        let said = said_byte(*byte);
        if is_said(said) && may_be_read(in_flow, said) {
            kept.push(said)?;
        }
    }
    Ok(kept)
}

// Characters from the first one on that is no line feed.
fn past_lines(characters: &[u8]) -> &[u8]
    ensures { result.now ≡ past_lines characters.now }
{
    let mut rest = characters;
    while let [b'\n', more @ ..] = rest {
        rest = more;
    }
    rest
}

// Characters without the line feeds at their front, where these would be dropped.
fn first_said(is_fresh: bool, characters: &[u8]) -> &[u8]
    ensures { result.now ≡ first_said is_fresh characters.now }
{
    if is_fresh {
        past_lines(characters)
    } else {
        characters
    }
}

// Writes what stays of a text, and says whether nothing stands there still.
fn write_said(is_fresh: bool, characters: &[u8], out: &mut Vec<u8>) -> Result<bool, AllocError>
    ensures text { OnOk result (out.new.items
        ≡ out.old.items ++ escaped false (first_said is_fresh characters.now)) }
    ensures fresh { IfOk result (λ fresh.
        fresh ≡ (is_fresh && is_empty (first_said is_fresh characters.now))) }
{
    let said = first_said(is_fresh, characters);
    write_escaped(false, said, out)?;
    Ok(is_fresh && said.is_empty())
}

/// Writes what stays of a text, and says whether it is in an element that drops a line feed first
/// and has nothing in it yet.
pub(crate) fn write_text(
    alloc: Global,
    in_flow: bool,
    is_fresh: bool,
    bytes: &[u8],
    out: &mut Vec<u8>,
) -> Result<bool, AllocError>
    ensures text { OnOk result (out.new.items
        ≡ out.old.items ++ escaped false (first_said is_fresh (said_where in_flow bytes.now))) }
    ensures fresh { IfOk result (λ fresh.
        fresh ≡ (is_fresh && is_empty (first_said is_fresh (said_where in_flow bytes.now)))) }
{
    if is_whole(in_flow, bytes) {
        return write_said(is_fresh, bytes, out);
    }
    let kept = said(alloc, in_flow, bytes)?;
    write_said(is_fresh, &kept, out)
}
