//! What is said of elements that an edit passes over.

use crate::position::Position;
use crate::unedited::{Cause, Telling, Unedited, of_edit};
use std::alloc::{AllocError, Global};
use tl_patch_select::LeftOut;

/// All that are passed over, in the order in which they stand in the page.
pub fn passed_over(alloc: Global, own: &LeftOut) -> Result<Vec<Unedited>, AllocError> {
    let mut all = Vec::new(alloc);
    for place in own.untagged.as_slice() {
        all.push(Unedited {
            place: *place,
            cause: Cause::Untagged,
        })?;
    }
    for crossed in own.crossed.as_slice() {
        all.push(Unedited {
            place: crossed.place,
            cause: Cause::Crossed,
        })?;
    }
    for error in own.refused.as_slice() {
        if let Some(one) = of_edit(*error) {
            all.push(one)?;
        }
    }
    all.sort_by_key(|one| one.place)?;
    Ok(all)
}

/// Says on standard error which elements of a page are passed over, and why: of several that one
/// start tag stands for once.
pub fn tell_left_out(rt: &HostRuntime, file: &str, page: &[u8], all: &[Unedited]) {
    let mut position = Position::new();
    let mut at = 0usize;
    let mut told = None;
    for one in all {
        if told == Some(one.place) {
            continue;
        }
        told = Some(one.place);
        position.pass_all(page, at, one.place);
        at = one.place;
        let line = position.line;
        let column = position.column(one.place);
        let telling = Telling { page, own: *one };
        let _ = eprintln!(rt; "tl: {file}: skipped at line {line}, column {column}: {telling}");
    }
}
