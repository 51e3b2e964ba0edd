//! Documents, and what is asked of them. One function owns each document: whatever is live there
//! counts at each step of its proof.
use crate::edited::{Edit, are_done};
use crate::walks::{ends_by, is_walk, is_walk_below};
use std::alloc::Global;
use tl::errors::TreeError;
use tl::{ParserOptions, VDom};
use tl_page::{Failure, read};

/// What is asked, with the answer that a row has.
#[derive(Drop)]
pub enum Question {
    /// Nothing but whether the page is read.
    Read,
    /// The names of tags that are passed over, and the letters of a walk.
    Walk(&'static [u8], &'static str),
    WalkBelow(&'static str),
    Fault(Option<TreeError>),
}

fn is_answer(
    alloc: Global,
    document: &VDom<'static>,
    question: &Question,
) -> Result<bool, Failure> {
    match question {
        Question::Read => Ok(true),
        Question::Walk(skips, letters) => is_walk(alloc, document, skips, letters),
        Question::WalkBelow(letters) => is_walk_below(alloc, document, letters),
        Question::Fault(error) => Ok(ends_by(alloc, document, *error)),
    }
}

/// Whether a page, once these edits are done, answers a question so.
pub fn answers(
    alloc: Global,
    page: &'static [u8],
    edits: &[Edit],
    question: &Question,
) -> Result<bool, Failure> {
    let mut document = read(alloc, page, ParserOptions::new())?;
    if !are_done(&mut document, edits) {
        return Ok(false);
    }
    is_answer(alloc, &document, question)
}
