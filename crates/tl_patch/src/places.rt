//! The attributes of a tag, by their places.
ghost use Rattle.std.specs.Prelude.{◌≡◌, ◌++◌, IfOk, MatchOption, OnOk, drop, false, take};
ghost use Rattle.std.specs.List.{list_any};
ghost use Rattle.tl_patch.specs.AttributePlaces.{IsFirstNamed, is_named, listed, part, places_of};

use crate::key::is_named;
use crate::stage::{Place, Stage, attribute_found, next_stage};
use std::alloc::{AllocError, Global};

fn push_found(found: Option<Place>, places: &mut Vec<Place>) -> Result<(), AllocError>
    ensures { OnOk result (places.new.items ≡ places.old.items ++ listed found) }
{
    let Some(place) = found else {
        return Ok(());
    };
    places.push(place)?;
    Ok(())
}

/// The attributes in what follows the name of a tag.
#[tactic(auto, using(crate::proofs::Found::places_more, crate::proofs::Found::places_all))]
pub(crate) fn places(alloc: Global, rest: &[u8]) -> Result<Vec<Place>, AllocError>
    ensures { IfOk result (λ places. places.items ≡ places_of rest.now) }
{
    let mut places = Vec::new(alloc);
    let mut stage = Stage::Between;
    for at in 0..rest.len() {
        push_found(attribute_found(stage, at, rest[at]), &mut places)?;
        stage = next_stage(stage, at, rest[at]);
    }
    Ok(places)
}

#[tactic(auto, using(std::proofs::lemmas::List::drop_all))]
fn after(bytes: &[u8], from: usize) -> &[u8]
    ensures { result.now ≡ drop from bytes.now }
{
    if from <= bytes.len() {
        &bytes[from..]
    } else {
        &[]
    }
}

#[tactic(auto, using(std::proofs::lemmas::List::take_all))]
fn first(bytes: &[u8], len: usize) -> &[u8]
    ensures { result.now ≡ take len bytes.now }
{
    if len <= bytes.len() {
        &bytes[..len]
    } else {
        bytes
    }
}

// What stands between two places.
pub(crate) fn part(bytes: &[u8], from: usize, until: usize) -> &[u8]
    ensures { result.now ≡ part from until bytes.now }
{
    first(after(bytes, from), until.saturating_sub(from))
}

/// The first attribute with this key.
#[tactic(auto, using(crate::proofs::Found::none_more, crate::proofs::Found::first_is))]
pub(crate) fn first_named(
    alloc: Global,
    rest: &[u8],
    places: &[Place],
    key: &[u8],
) -> Result<Option<Place>, AllocError>
    ensures { IfOk result (λ found. MatchOption found
        (list_any (is_named rest.now key.now) places.now ≡ false)
        (λ place. IsFirstNamed rest.now key.now places.now place)) }
{
    for at in 0..places.len() {
        let place = places[at];
        let is_it = is_named(alloc, part(rest, place.key.start, place.key.end), key)?;
        if is_it {
            return Ok(Some(place));
        }
    }
    Ok(None)
}
