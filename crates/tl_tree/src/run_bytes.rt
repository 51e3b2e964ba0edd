//! The bytes of a run: how far it goes on, and what goes in of it.
ghost use Rattle.std.specs.Bool.{OnTrue};
ghost use Rattle.std.specs.Char.{is_ascii_whitespace};
ghost use Rattle.std.specs.List.{list_all};
ghost use Rattle.std.specs.Prelude.{IfOk, IsTrue, OnOk, [], filter, length, take, ◌++◌, ◌∷◌, ◌≡◌, ◌≤◌};
ghost use Rattle.tl_dom_spec.specs.Runs.{goes_in, is_of_run, with_replacements};
ghost use Rattle.tl_tree.specs.Inner.Modes.{mode_of};
ghost use Rattle.tl_tree.specs.Inner.RunKinds.{kind_view};
ghost use Rattle.tl_tree.specs.Inner.RunBytes.{is_not_null};

use crate::error::GrowError;
use crate::mode::Mode;
use crate::run_kind::{
    RunKind, goes_in, is_any_of_run, is_of_run, takes_all, takes_others, takes_white_alone,
};
use std::alloc::Global;

/// How many bytes are of the run that a character of a kind began, which left this mode.
pub(crate) fn run_len(mode: Mode, kind: RunKind, rest: &[u8]) -> usize
    ensures within { result ≤ length rest.now }
    ensures same { IsTrue
        (list_all (is_of_run (mode_of mode) (kind_view kind)) (take result rest.now)) }
{
    if is_any_of_run(mode, kind) {
        return rest.len();
    }
    let mut len = 0;
    while len < rest.len() {
        if !is_of_run(mode, kind, rest[len]) {
            return len;
        }
        len += 1;
    }
    len
}

/// Whether there is no NUL.
#[tactic(auto, using(crate::proofs::RunBytes::no_null))]
pub(crate) fn has_no_null(bytes: &[u8]) -> bool
    ensures { OnTrue result (IsTrue (list_all is_not_null bytes.now)) }
{
    !bytes.contains(&0)
}

// Whether all are white space.
fn are_white(bytes: &[u8]) -> bool
    ensures { result ≡ list_all is_ascii_whitespace bytes.now }
{
    bytes.iter().all(|byte| byte.is_ascii_whitespace())
}

/// Whether it is seen at once that all go in, in HTML content.
pub(crate) fn go_in(mode: Mode, bytes: &[u8]) -> bool
    ensures { OnTrue result (filter (goes_in (mode_of mode)) bytes.now ≡ bytes.now) }
{
    if takes_others(mode) {
        return has_no_null(bytes);
    }
    if takes_white_alone(mode) {
        return are_white(bytes);
    }
    takes_all(mode)
}

/// Those that go in, in HTML content.
pub(crate) fn kept(alloc: Global, mode: Mode, bytes: &[u8]) -> Result<Vec<u8>, GrowError>
    ensures { IfOk result (λ kept. kept.items ≡ filter (goes_in (mode_of mode)) bytes.now) }
{
    let mut kept = Vec::new(alloc);
    let mut at = 0;
    while at < bytes.len() {
        if goes_in(mode, bytes[at]) {
            kept.push(bytes[at])?;
        }
        at += 1;
    }
    Ok(kept)
}

// Puts what stands for a byte in foreign content behind others.
fn put_replaced(out: &mut Vec<u8>, byte: u8) -> Result<(), GrowError>
    ensures { OnOk result (out.new.items ≡ out.old.items ++ with_replacements (byte ∷ [])) }
{
    if byte == 0 {
        out.extend_from_slice("\u{FFFD}".as_bytes())?;
    } else {
        out.push(byte)?;
    }
    Ok(())
}

/// With U+FFFD for each NUL.
pub(crate) fn replaced(alloc: Global, bytes: &[u8]) -> Result<Vec<u8>, GrowError>
    ensures { IfOk result (λ replaced. replaced.items ≡ with_replacements bytes.now) }
{
    let mut out = Vec::new(alloc);
    let mut at = 0;
    while at < bytes.len() {
        put_replaced(&mut out, bytes[at])?;
        at += 1;
    }
    Ok(out)
}
