//! Changes as a unified diff.

use crate::hunk::{Texts, places_of};
use crate::lines::lines_of;
use crate::script::changes;
use std::alloc::{AllocError, Global};

/// What changes from one text to another one, as a unified diff in which both have this name;
/// nothing where they are the same.
pub fn unified(alloc: Global, name: &str, old: &[u8], new: &[u8]) -> Result<Vec<u8>, AllocError> {
    let old = lines_of(alloc, old)?;
    let new = lines_of(alloc, new)?;
    let changes = changes(alloc, old.as_slice(), new.as_slice())?;
    if changes.is_empty() {
        return Ok(Vec::new(alloc));
    }
    let mut out = format!(in alloc; "--- {name}\n+++ {name}\n")?.into_bytes();
    let places = places_of(alloc, changes.as_slice())?;
    let texts = Texts {
        old: old.as_slice(),
        new: new.as_slice(),
    };
    texts.write_hunks(alloc, places.as_slice(), &mut out)?;
    Ok(out)
}
