//! The parts of a page with what patches ask for.
ghost use Rattle.std.specs.Prelude.{◌≡◌, ◌≤◌, ◌<◌, ◌+◌, ◌++◌, ◌&&◌, IfErr, IfOk, None, OnOk, drop, if◌then◌else◌, length, nat_le, not, option_map, true};
ghost use Rattle.std.specs.List.{All, slice_get};
ghost use Rattle.tl_patch_edit.specs.Asks.{GivePutFor, IsEscaped, IsTagged, IsWanted, asks_view, placed_of};
ghost use Rattle.tl_patch_edit.specs.Inner.Causes.{IsReadyError, IsSpliceError, IsWithin};
ghost use Rattle.tl_patch_edit.specs.Inner.Parts.{part_view, parts_view, separator_parts};
ghost use Rattle.tl_patch_edit.specs.Inner.Seams.{part_seam, parted};
ghost use Rattle.tl_patch_edit.specs.Seams.{begins_at, is_empty, last_of};

use crate::ask::Ask;
use crate::error::EditError;
use crate::part::{Part, copy, place_at, push};
use crate::put::put_parts;
use crate::seam::{first_part, is_seam, last_part};
use crate::tag::ReadyAsk;
use std::alloc::{AllocError, Global};
use tl_html_tokens::{Mode, TokenKind};

fn push_separator_if<'p>(is_it: bool, out: &mut Vec<Part<'p>>) -> Result<(), AllocError>
    ensures { OnOk result (parts_view out.new.items
        ≡ parts_view out.old.items ++ separator_parts is_it) }
{
    if !is_it {
        return Ok(());
    }
    push(
        Part {
            kind: TokenKind::Nothing,
            mode: Mode::Data,
            bytes: b"</>".as_slice(),
        },
        out,
    )?;
    Ok(())
}

// Whether the ask behind one begins at a place.
fn is_next_at(asks: &[ReadyAsk<'_>], at: usize, place: usize) -> bool
    requires { at < length asks.now }
    ensures { result ≡ begins_at (asks_view (placed_of (drop (at + 1) asks.now))) place }
{
    let next = at + 1;
    if next >= asks.len() {
        return false;
    }
    asks[next].placed.ask.from == place
}

// The part behind a splice, if the next splice doesn't begin there.
fn part_behind<'p>(parts: &[Part<'p>], place: usize, is_next: bool) -> Option<Part<'p>>
    ensures { option_map part_view result
        ≡ if is_next then None else slice_get (parts_view parts.now) place }
{
    if is_next || place >= parts.len() {
        return None;
    }
    Some(parts[place])
}

// Whether a separator has to stand after what is put.
fn is_parted_after(put: &[Part<'_>], behind: Option<Part<'_>>) -> bool
    ensures { result ≡ (not (is_empty (parts_view put.now))
        && part_seam (last_of None (parts_view put.now)) (option_map part_view behind.entry)) }
{
    if put.is_empty() {
        return false;
    }
    is_seam(last_part(put), behind)
}

// Adds what is put, with separators where they have to stand.
fn push_put<'p>(
    put: &[Part<'p>],
    behind: Option<Part<'p>>,
    out: &mut Vec<Part<'p>>,
) -> Result<(), AllocError>
    ensures { OnOk result (parts_view out.new.items
        ≡ parts_view out.old.items ++ parted (last_of None (parts_view out.old.items))
        (parts_view put.now) (option_map part_view behind.entry)) }
{
    let is_before = is_seam(last_part(out.as_slice()), first_part(put, behind));
    push_separator_if(is_before, out)?;
    copy(put, out)?;
    let is_after = is_parted_after(put, behind);
    push_separator_if(is_after, out)?;
    Ok(())
}

// Whether an ask follows a place, and ends within the page.
fn follows(ask: Ask<'_>, done: usize, len: usize) -> bool
    ensures is { result ≡ (nat_le done ask.entry.from && nat_le ask.entry.from ask.entry.until
        && nat_le ask.entry.until len) }
    ensures done { result ≡ true → done ≤ ask.entry.from }
    ensures order { result ≡ true → ask.entry.from ≤ ask.entry.until }
    ensures until { result ≡ true → ask.entry.until ≤ len }
{
    done <= ask.from && ask.from <= ask.until && ask.until <= len
}

// What is put for an ask.
fn put_of<'p>(
    alloc: Global,
    parts: &[Part<'p>],
    one: &'p ReadyAsk<'_>,
) -> Result<Vec<Part<'p>>, EditError>
    requires escaped { IsEscaped one.now }
    requires tag { IsTagged (parts_view parts.now) one.now }
    requires from { one.now.placed.ask.from ≤ length parts.now }
    ensures put { IfOk result (λ put.
        GivePutFor one.now.placed.ask (parts_view parts.now) (parts_view put.items)) }
    ensures error { IfErr result (IsReadyError (parts_view parts.now) one.now.placed) }
{
    let place = place_at(parts, one.placed.ask.from);
    let escaped = one.escaped.as_slice();
    let Some(put) = put_parts(
        alloc,
        one.placed.ask.put,
        place,
        escaped,
        one.tag.as_slice(),
    )?
    else {
        return Err(EditError::NotWritten(one.placed.start.token.start));
    };
    Ok(put)
}

// The parts of a page with what is asked for, in order.
pub(crate) fn wanted_parts<'p>(
    alloc: Global,
    parts: &[Part<'p>],
    asks: &'p [ReadyAsk<'_>],
) -> Result<Vec<Part<'p>>, EditError>
    requires escaped { All IsEscaped asks.now }
    requires tags { All (IsTagged (parts_view parts.now)) asks.now }
    requires within { All (IsWithin (length parts.now)) asks.now }
    ensures wanted { IfOk result (λ wanted. IsWanted (asks_view (placed_of asks.now))
        (parts_view parts.now) (parts_view wanted.items)) }
    ensures error { IfErr result (IsSpliceError (parts_view parts.now) (placed_of asks.now)) }
{
    let mut wanted = Vec::with_capacity(alloc, parts.len())?;
    let mut done = 0usize;
    for at in 0..asks.len() {
        let one = &asks[at];
        let ask = one.placed.ask;
        let follows = follows(ask, done, parts.len());
        if !follows {
            return Err(EditError::Across(one.placed.start.token.start));
        }
        let put = put_of(alloc, parts, one)?;
        copy(&parts[done..ask.from], &mut wanted)?;
        let is_next = is_next_at(asks, at, ask.until);
        push_put(
            put.as_slice(),
            part_behind(parts, ask.until, is_next),
            &mut wanted,
        )?;
        done = ask.until;
    }
    copy(&parts[done..], &mut wanted)?;
    Ok(wanted)
}
