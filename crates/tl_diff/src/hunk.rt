//! Changes with the lines around them.
ghost use Rattle.std.specs.Prelude.{length, ◌<◌, ◌≤◌};

use crate::change::Change;
use std::alloc::{AllocError, Global};

// So many lines that stay stand around changes.
const AROUND: usize = 3;

/// Lines of the old text that give way to lines of the new one, by their numbers from 0.
#[derive(Clone, Copy)]
pub struct Place {
    pub old: usize,
    pub removed: usize,
    pub new: usize,
    pub added: usize,
}

impl Place {
    // The number of the line of the old text behind it.
    fn end(&self) -> usize {
        self.old.saturating_add(self.removed)
    }
}

/// Where changes stand.
pub fn places_of(alloc: Global, changes: &[Change]) -> Result<Vec<Place>, AllocError> {
    let mut places = Vec::with_capacity(alloc, changes.len())?;
    let mut old: usize = 0;
    let mut new: usize = 0;
    for change in changes {
        old = old.saturating_add(change.kept);
        new = new.saturating_add(change.kept);
        places.push(Place {
            old,
            removed: change.removed,
            new,
            added: change.added,
        })?;
        old = old.saturating_add(change.removed);
        new = new.saturating_add(change.added);
    }
    Ok(places)
}

// How many of the first changes share the lines around them.
fn hunk_len(places: &[Place]) -> usize
    ensures within { result ≤ length places.now }
    ensures some { 0 < length places.now → 0 < result }
{
    for at in 1..places.len() {
        if places[at].old.saturating_sub(places[at - 1].end()) > 2 * AROUND {
            return at;
        }
    }
    places.len()
}

// Some of the lines of a text: none where there aren't so many.
fn part<'l, 't>(lines: &'l [&'t [u8]], from: usize, to: usize) -> &'l [&'t [u8]] {
    if from <= to && to <= lines.len() {
        &lines[from..to]
    } else {
        &[]
    }
}

// Writes lines, each behind a mark.
fn write_lines(mark: u8, lines: &[&[u8]], out: &mut Vec<u8>) -> Result<(), AllocError> {
    for line in lines {
        out.push(mark)?;
        out.extend_from_slice(line)?;
        if !line.ends_with(b"\n") {
            out.extend_from_slice(b"\n\\ No newline at end of file\n")?;
        }
    }
    Ok(())
}

// The number of the first of so many lines: of none it is that of the line before.
fn first_line(from: usize, to: usize) -> usize {
    if from < to {
        from.saturating_add(1)
    } else {
        from
    }
}

/// Two texts, by their lines.
#[derive(Clone, Copy)]
pub struct Texts<'l, 't> {
    pub old: &'l [&'t [u8]],
    pub new: &'l [&'t [u8]],
}

impl Texts<'_, '_> {
    // Writes which lines of each text changes stand in, with those around them.
    fn write_head(
        &self,
        alloc: Global,
        first: Place,
        last: Place,
        out: &mut Vec<u8>,
    ) -> Result<(), AllocError> {
        let before = first.old.min(AROUND);
        let (old, new) = (first.old - before, first.new.saturating_sub(before));
        let old_end = last.end().saturating_add(AROUND).min(self.old.len());
        let behind = old_end.saturating_sub(last.end());
        let new_end = last.new.saturating_add(last.added).saturating_add(behind);
        let old_len = old_end.saturating_sub(old);
        let new_len = new_end.saturating_sub(new);
        let old_line = first_line(old, old_end);
        let new_line = first_line(new, new_end);
        let head = format!(in alloc; "@@ -{old_line},{old_len} +{new_line},{new_len} @@\n")?;
        out.extend_from_slice(head.as_bytes())
    }

    // Writes changes that share the lines around them.
    fn write_hunk(
        &self,
        alloc: Global,
        places: &[Place],
        out: &mut Vec<u8>,
    ) -> Result<(), AllocError> {
        let (Some(first), Some(last)) = (places.first(), places.last()) else {
            return Ok(());
        };
        self.write_head(alloc, *first, *last, out)?;
        let mut from = first.old - first.old.min(AROUND);
        for place in places {
            write_lines(b' ', part(self.old, from, place.old), out)?;
            write_lines(b'-', part(self.old, place.old, place.end()), out)?;
            let added = place.new.saturating_add(place.added);
            write_lines(b'+', part(self.new, place.new, added), out)?;
            from = place.end();
        }
        let end = last.end().saturating_add(AROUND).min(self.old.len());
        write_lines(b' ', part(self.old, from, end), out)
    }

    /// Writes changes, with the lines around them.
    pub fn write_hunks(
        &self,
        alloc: Global,
        places: &[Place],
        out: &mut Vec<u8>,
    ) -> Result<(), AllocError> {
        let mut rest = places;
        while !rest.is_empty() {
            let (hunk, more) = rest.split_at(hunk_len(rest));
            self.write_hunk(alloc, hunk, out)?;
            rest = more;
        }
        Ok(())
    }
}
