//! What goes with attributes that are taken out of a tag.
ghost use Rattle.std.specs.Prelude.{◌≡◌, ◌≤◌, ◌++◌, [], ◌∷◌, IfOk, OnOk, drop, length, map, reverse, slice_index, if◌then◌else◌};
ghost use Rattle.tl_patch.specs.View.{splice_view};
ghost use Rattle.tl_patch.specs.Inner.Cuts.{cut_from, cut_if, cut_put, cut_splice, cuts_of, first_of, follow_at, follow_cut, free_after, last_before, space_start};

use crate::Splice;
use crate::key::is_named;
use crate::places::part;
use crate::stage::{Place, is_space};
use std::alloc::{AllocError, Global};

/// What follows a place: the first byte, and whether no `=` comes after white space.
#[derive(Clone, Copy)]
pub(crate) struct Follow {
    pub(crate) first: u8,
    pub(crate) is_free: bool,
}

// Whether no `=` follows a place, after white space.
#[tactic(auto, using(crate::proofs::Found::free_more, crate::proofs::Found::free_ends, crate::proofs::Found::free_none))]
fn is_free_after(rest: &[u8], from: usize) -> bool
    ensures { result ≡ free_after (drop from rest.now) }
{
    let mut at = from;
    while at < rest.len() {
        if !is_space(rest[at]) {
            return rest[at] != b'=';
        }
        at += 1;
    }
    false
}

// The byte at a place, or 0 past the end.
#[tactic(auto, using(std::proofs::lemmas::List::get_or_default))]
fn byte_at(rest: &[u8], at: usize) -> u8
    ensures { result ≡ slice_index rest.now at }
{
    if at < rest.len() { rest[at] } else { 0 }
}

fn follow_at(rest: &[u8], at: usize) -> Follow
    ensures { result ≡ follow_at rest.now at }
{
    Follow {
        first: byte_at(rest, at),
        is_free: is_free_after(rest, at),
    }
}

// Where white space right before a place begins, which stands after another place.
#[tactic(auto, using(crate::proofs::Found::space_more, crate::proofs::Found::space_stops, crate::proofs::Found::space_ends))]
fn space_start(rest: &[u8], from: usize, until: usize) -> usize
    ensures { result ≡ space_start rest.now from until }
{
    let mut start = until;
    while from < start {
        let last = byte_at(rest, start - 1);
        if !is_space(last) {
            return start;
        }
        start -= 1;
    }
    from
}

fn cut_from(space: usize, start: usize, follow: Follow) -> usize
    ensures { result ≡ cut_from space start follow.first follow.is_free }
{
    if !follow.is_free {
        return start;
    }
    if follow.first == b'>' || is_space(follow.first) {
        return space;
    }
    start
}

fn cut_put(last: usize, space: usize, start: usize, follow: Follow) -> &'static [u8]
    ensures { result.now ≡ cut_put last space start follow.first follow.is_free }
{
    if !follow.is_free {
        return b"/";
    }
    if follow.first == b'>' {
        return if last < space { b" " } else { b"" };
    }
    if is_space(follow.first) || space < start {
        return b"";
    }
    b" "
}

// An attribute goes, after the end of the one before it.
fn cut(rest: &[u8], last: usize, place: Place, follow: Follow) -> Splice<'static>
    ensures { splice_view result ≡ cut_splice rest.now last place follow }
{
    let space = space_start(rest, last, place.key.start);
    Splice {
        from: cut_from(space, place.key.start, follow),
        until: place.end,
        put: cut_put(last, space, place.key.start, follow),
    }
}

fn first_of(put: &[u8], first: u8) -> u8
    ensures { result ≡ first_of put.now first }
{
    match put {
        [] => first,
        [byte, ..] => *byte,
    }
}

fn follow_cut(rest: &[u8], last: usize, splice: Splice<'static>, follow: Follow) -> Follow
    ensures { result ≡ follow_cut rest.now last (splice_view splice.entry) follow }
{
    let first = if last < splice.from {
        byte_at(rest, last)
    } else {
        first_of(splice.put, follow.first)
    };
    Follow {
        first,
        is_free: true,
    }
}

// Where the attributes before a number end.
#[tactic(auto, using(crate::proofs::Found::end_before))]
fn last_before(places: &[Place], number: usize) -> usize
    requires { number ≤ length places.now }
    ensures { result ≡ last_before places.now number }
{
    if number == 0 {
        return 0;
    }
    places[number - 1].end
}

// An attribute goes or stays.
fn cut_if(
    is_it: bool,
    rest: &[u8],
    last: usize,
    place: Place,
    follow: Follow,
    cuts: &mut Vec<Splice<'static>>,
) -> Result<Follow, AllocError>
    ensures follow { IfOk result (λ next. next
        ≡ (cut_if is_it rest.now last place (record { splices = []; follow = follow })).follow) }
    ensures cuts { OnOk result (map splice_view cuts.new.items ≡ map splice_view cuts.old.items
        ++ (if is_it then cut_splice rest.now last place follow ∷ [] else [])) }
{
    if !is_it {
        return Ok(follow_at(rest, last));
    }
    let splice = cut(rest, last, place, follow);
    cuts.push(splice)?;
    Ok(follow_cut(rest, last, splice, follow))
}

// Splices that were made from the last to the first, in their order.
fn turned(cuts: Vec<Splice<'static>>) -> Vec<Splice<'static>>
    ensures { result.items ≡ reverse cuts.entry.items }
{
    let mut turned = cuts;
    turned.as_mut_slice().reverse();
    turned
}

/// What goes with the attributes of a key.
pub(crate) fn cuts(
    alloc: Global,
    rest: &[u8],
    places: &[Place],
    key: &[u8],
) -> Result<Vec<Splice<'static>>, AllocError>
    ensures { IfOk result (λ cuts. map splice_view cuts.items
        ≡ (cuts_of rest.now key.now 0 places.now).splices) }
{
    let mut cuts = Vec::new(alloc);
    let mut number = places.len();
    let mut follow = follow_at(rest, last_before(places, number));
    while number > 0 {
        number -= 1;
        let place = places[number];
        let last = last_before(places, number);
        let is_it = is_named(alloc, part(rest, place.key.start, place.key.end), key)?;
        follow = cut_if(is_it, rest, last, place, follow, &mut cuts)?;
    }
    Ok(turned(cuts))
}
