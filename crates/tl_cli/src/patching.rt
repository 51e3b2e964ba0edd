//! Tags and elements changed where a selector holds, each other byte as it is.
ghost use Rattle.std.specs.Prelude.{◌≡◌, IfErr};
ghost use Rattle.tl_page.specs.declared.failure.Failure.TheVariants.{OutOfMemory};

use crate::args::Pages;
use crate::crossed::Crossed;
use crate::in_place::replace;
use crate::kept_comment::KeptComment;
use crate::left_out::{passed_over, tell_left_out};
use crate::misread::Misread;
use crate::other_tree::{OtherTree, tell_other_tree};
use crate::own_bytes::{
    Editable, Uneditable, failure_of, is_misread, marked_bytes, own_bytes, to_be_edited,
};
use crate::pages::{
    STANDARD_INPUT, no_text, not_understood, page_of, report, report_error, report_failure, unmade,
    unwritten, write_shown,
};
use crate::position::Position;
use crate::refused::Refused;
use crate::reports::{Answer, Report, status_of};
use crate::task::Unmade;
use crate::telling::{Tellings, tell_places};
use crate::unedited::{PlacedTelling, Telling, Unedited, of_selection, of_tags};
use crate::unread::{report_media, report_unread};
use regex::bytes::Regex;
use std::alloc::{AllocError, Global};
use std::fmt;
use std::io::ErrorKind;
use tl_answers::{
    CommentRefusal, Edit, Edited, Meant, PartlyEdited, Refusal, edited_page, edited_partly,
    uncommented_page,
};
use tl_css::Selector;
use tl_diff::unified;
use tl_encoding::{Encoding, media_of};
use tl_page::{Failure, text};
use tl_patch_edit::{CommentError, EditError};
use tl_patch_select::{LeftOut, Patched, SelectionEditError};

/// Where pages with changes go.
#[derive(Clone, Copy)]
pub enum Target<'w> {
    /// To standard output, as those without.
    Output,
    /// Into their files, whose old bytes stay in files of their names and this suffix, if it is
    /// said.
    Files(Option<&'w str>),
    /// Nowhere: the places of the tags are written.
    Nowhere,
}

/// What is done with a page.
#[derive(Drop)]
pub enum Deed<'w> {
    /// Something is done where a selector holds.
    Edit(Selector, Edit<'w>),
    /// Its comments go, or those in which a regular expression matches.
    Comments(Option<Regex>),
}

/// What is changed.
#[derive(Drop)]
pub struct Patching<'w> {
    pub deed: Deed<'w>,
    /// The file that has the text that is put, where one is named.
    pub text_file: Option<&'w str>,
    pub target: Target<'w>,
    pub tellings: Tellings,
}

// The lines that say where tags begin: the file, the line and the column, both from 1, in bytes.
fn place_lines(
    alloc: Global,
    file: &str,
    page: &str,
    places: &[usize],
) -> Result<String, AllocError> {
    let mut lines = String::new(alloc);
    let mut position = Position::new();
    let mut left = places;
    for (at, byte) in page.as_bytes().iter().enumerate() {
        if let [place, later @ ..] = left {
            if *place == at {
                let line = position.line;
                let column = position.column(at);
                let said = format!(in alloc; "{file}:{line}:{column}\n")?;
                lines.push_str(said.as_str())?;
                left = later;
            }
        }
        position.pass(at, *byte);
    }
    Ok(lines)
}

// Writes to standard output what comes of a page.
fn write_answer(rt: &HostRuntime, is_found: bool, bytes: &[u8]) -> Result<Answer, AllocError> {
    Ok(match write_shown(rt, bytes)? {
        Ok(()) if is_found => Answer::Found,
        Ok(()) => Answer::Nothing,
        Err(error) => unwritten(rt, &error),
    })
}

// Puts the bytes of a page with changes into its file. Where they stay the file isn't touched.
fn write_file(
    rt: &HostRuntime,
    file: &str,
    suffix: Option<&str>,
    page: &Editable,
    patched: &Patched,
    bytes: &[u8],
) -> Answer {
    if patched.places.is_empty() {
        return Answer::Nothing;
    }
    if patched.bytes.as_slice() == page.text.as_bytes() {
        return Answer::Found;
    }
    match replace(rt, file, suffix, bytes) {
        Ok(()) => Answer::Found,
        Err(error) if error.kind() == ErrorKind::InvalidInput => {
            let _ = eprintln!(rt; "tl: {file}: not a regular file");
            Answer::Failed(Failure::Fault)
        }
        Err(error) => Answer::Failed(report_error(rt, file, &error)),
    }
}

// Writes which lines of a page change, and puts it into its file where that is asked.
fn put_diff(
    rt: &HostRuntime,
    target: &Target<'_>,
    file: &str,
    page: &Editable,
    patched: &Patched,
    bytes: &[u8],
) -> Result<Answer, AllocError> {
    let new = page.lines_of(patched.bytes.as_slice(), bytes);
    let diff = unified(rt.alloc(), file, page.lines(), new)?;
    let answer = match target {
        Target::Files(suffix) => write_file(rt, file, *suffix, page, patched, bytes),
        Target::Output | Target::Nowhere if patched.places.is_empty() => Answer::Nothing,
        Target::Output | Target::Nowhere => Answer::Found,
    };
    match answer {
        Answer::Found => write_answer(rt, true, diff.as_slice()),
        _ => Ok(answer),
    }
}

// Puts the bytes of a page with changes where they go.
fn put_page(
    rt: &HostRuntime,
    target: &Target<'_>,
    file: &str,
    page: &Editable,
    patched: &Patched,
    bytes: &[u8],
) -> Result<Answer, AllocError> {
    let is_found = !patched.places.is_empty();
    match target {
        Target::Output => write_answer(rt, is_found, bytes),
        Target::Files(suffix) => Ok(write_file(rt, file, *suffix, page, patched, bytes)),
        Target::Nowhere => {
            let places = patched.places.as_slice();
            let lines = place_lines(rt.alloc(), file, page.text.as_str(), places)?;
            write_answer(rt, is_found, lines.as_bytes())
        }
    }
}

// Does with the bytes of a page that has changes what is asked.
fn put(
    rt: &HostRuntime,
    patching: &Patching<'_>,
    file: &str,
    page: &Editable,
    patched: &Patched,
    bytes: &[u8],
) -> Result<Answer, AllocError> {
    let answer = if patching.tellings.has_diff {
        put_diff(rt, &patching.target, file, page, patched, bytes)?
    } else {
        put_page(rt, &patching.target, file, page, patched, bytes)?
    };
    if patching.tellings.is_verbose && answer.is_made() {
        tell_places(rt, file, patched.places.len());
    }
    Ok(answer)
}

// Says on standard error why a page isn't edited.
fn unedited(rt: &HostRuntime, file: &str, error: Uneditable) -> Result<Answer, Failure> {
    match failure_of(error) {
        Some(failure) => Err(failure),
        None => Ok(not_understood(rt, file, &error)),
    }
}

// A page with all changes.
fn whole(alloc: Global, edited: Edited) -> PartlyEdited {
    PartlyEdited {
        edited,
        left_out: LeftOut {
            untagged: Vec::new(alloc),
            crossed: Vec::new(alloc),
            refused: Vec::new(alloc),
        },
    }
}

// The text of a page with changes, all of them, or those that can be made.
fn edited_text(
    alloc: Global,
    patching: &Patching<'_>,
    text: &[u8],
) -> Result<PartlyEdited, Refused> {
    match &patching.deed {
        Deed::Comments(regex) => {
            let patched = uncommented_page(alloc, regex.as_ref(), text)?;
            let meant = Meant::Unasked;
            Ok(whole(alloc, Edited { patched, meant }))
        }
        Deed::Edit(selector, edit) if patching.tellings.is_skipping => {
            Ok(edited_partly(alloc, edit, selector, text)?)
        }
        Deed::Edit(selector, edit) => Ok(whole(alloc, edited_page(alloc, edit, selector, text)?)),
    }
}

// What comes of a page with changes.
fn put_patched(
    rt: &HostRuntime,
    patching: &Patching<'_>,
    file: &str,
    page: &Editable,
    patched: &Patched,
) -> Result<Answer, Failure> {
    let edited = match text(patched.bytes.as_slice()) {
        Ok(edited) => edited,
        Err(error) => return Ok(not_understood(rt, file, &error)),
    };
    if is_misread(page, edited) {
        return unedited(rt, file, Uneditable::Misread);
    }
    let made = match &page.marked {
        None if page.encoding == Encoding::Utf8 => {
            return Ok(put(rt, patching, file, page, patched, edited.as_bytes())?);
        }
        None => own_bytes(rt.alloc(), page.encoding, edited),
        Some(marked) => {
            let made = edited_text(rt.alloc(), patching, marked.as_bytes());
            marked_bytes(rt.alloc(), made, edited)
        }
    };
    match made {
        Ok(bytes) => Ok(put(rt, patching, file, page, patched, bytes.as_slice())?),
        Err(error) => unedited(rt, file, error),
    }
}

// What is said of the tree that browsers build, unless it is the one that is meant.
fn other_tree<'p>(edited: &Edited, page: &'p [u8], is_refused: bool) -> Option<OtherTree<'p>> {
    let unread = match edited.meant {
        Meant::Yes | Meant::Unasked => return None,
        Meant::No => None,
        Meant::Unread(error) | Meant::Unput(error) => Some(error),
    };
    let at = edited.patched.places.first().copied().unwrap_or(0);
    Some(OtherTree {
        page,
        at,
        unread,
        is_refused,
    })
}

// What comes of a page with changes. Where its tree isn't the one that is meant, that is said, or
// it is refused.
fn put_edited(
    rt: &HostRuntime,
    patching: &Patching<'_>,
    is_strict: bool,
    file: &str,
    page: &Editable,
    edited: &Edited,
) -> Result<Answer, Failure> {
    let Some(other) = other_tree(edited, page.text.as_bytes(), is_strict) else {
        return put_patched(rt, patching, file, page, &edited.patched);
    };
    if is_strict {
        return Ok(not_understood(rt, file, &other));
    }
    let answer = put_patched(rt, patching, file, page, &edited.patched)?;
    if answer.is_made() {
        tell_other_tree(rt, file, &other);
    }
    Ok(answer)
}

// What comes of a page with those changes that can be made. The others are told.
fn put_partly(
    rt: &HostRuntime,
    patching: &Patching<'_>,
    is_strict: bool,
    file: &str,
    page: &Editable,
    own: &PartlyEdited,
) -> Result<Answer, Failure> {
    // Before anything is written, as memory may run out.
    let passed = passed_over(rt.alloc(), &own.left_out)?;
    let answer = put_edited(rt, patching, is_strict, file, page, &own.edited)?;
    if !answer.is_made() || passed.is_empty() {
        return Ok(answer);
    }
    tell_left_out(rt, file, page.text.as_bytes(), passed.as_slice());
    Ok(Answer::Failed(Failure::Refused))
}

// Says on standard error why an element of a page isn't edited, or else the error itself.
fn refused_element<E: fmt::Display>(
    rt: &HostRuntime,
    file: &str,
    page: &[u8],
    own: Option<Unedited>,
    error: &E,
) -> Answer {
    let Some(own) = own else {
        return not_understood(rt, file, error);
    };
    let telling = Telling { page, own };
    not_understood(rt, file, &PlacedTelling { telling })
}

// Says on standard error why a page isn't edited.
fn refused_edit(
    rt: &HostRuntime,
    file: &str,
    page: &[u8],
    why: Refusal,
) -> Result<Answer, Failure> {
    match why {
        Refusal::OutOfMemory => Err(Failure::OutOfMemory),
        Refusal::Tag(error) => Ok(refused_element(rt, file, page, of_tags(error), &error)),
        Refusal::Element(SelectionEditError::Refused(EditError::Misread(place, cause))) => {
            let misread = Misread { page, place, cause };
            Ok(not_understood(rt, file, &misread))
        }
        Refusal::Element(SelectionEditError::NotWhole(place, at)) => {
            let crossed = Crossed { page, place, at };
            Ok(not_understood(rt, file, &crossed))
        }
        Refusal::Element(error) => {
            Ok(refused_element(rt, file, page, of_selection(error), &error))
        }
        Refusal::Unread(error) => unmade(rt, file, page, Unmade::from(error)),
    }
}

// Says on standard error why a page keeps its comments.
fn refused_comments(
    rt: &HostRuntime,
    file: &str,
    page: &[u8],
    why: CommentRefusal,
) -> Result<Answer, Failure> {
    match why {
        CommentRefusal::OutOfMemory => Err(Failure::OutOfMemory),
        CommentRefusal::Comment(CommentError::NoComment(at)) => {
            Ok(not_understood(rt, file, &KeptComment { page, at }))
        }
        CommentRefusal::Comment(error) => Ok(not_understood(rt, file, &error)),
        CommentRefusal::Unread(error) => unmade(rt, file, page, Unmade::from(error)),
    }
}

// Changes the text of a page.
fn patch_text(
    rt: &HostRuntime,
    patching: &Patching<'_>,
    is_strict: bool,
    file: &str,
    page: &Editable,
) -> Result<Answer, Failure> {
    let own = match text(page.text.as_bytes()) {
        Ok(own) => own.as_bytes(),
        Err(error) => return Ok(not_understood(rt, file, &error)),
    };
    match edited_text(rt.alloc(), patching, own) {
        Ok(edited) => put_partly(rt, patching, is_strict, file, page, &edited),
        Err(Refused::Edit(why)) => refused_edit(rt, file, own, why),
        Err(Refused::Comments(why)) => refused_comments(rt, file, own, why),
        Err(Refused::OutOfMemory) => Err(Failure::OutOfMemory),
    }
}

// Changes the page in a file.
fn patch_page(
    rt: &HostRuntime,
    patching: &Patching<'_>,
    pages: &Pages<'_>,
    file: &str,
) -> Result<Answer, Failure> {
    let bytes = match page_of(rt, file) {
        Ok(bytes) => bytes,
        Err(error) => return Ok(Answer::Failed(report_unread(rt, file, &error))),
    };
    if let Some(media) = media_of(&bytes) {
        return Ok(report_media(rt, file, media));
    }
    match to_be_edited(rt.alloc(), pages, bytes) {
        Ok(page) => patch_text(rt, patching, pages.is_strict, file, &page),
        Err(Uneditable::Undecoded(error)) => Ok(no_text(rt, pages, file, &error)),
        Err(error) => unedited(rt, file, error),
    }
}

// What comes of the page in a file; a failure is said on standard error.
fn answer(rt: &HostRuntime, patching: &Patching<'_>, pages: &Pages<'_>, file: &str) -> Answer {
    match patch_page(rt, patching, pages, file) {
        Ok(answer) => answer,
        Err(failure) => {
            report(rt, file, failure);
            Answer::Failed(failure)
        }
    }
}

// What comes of the pages in files, one after the other, up to the first that can't be written.
fn patch_files<'f>(
    rt: &HostRuntime,
    patching: &Patching<'_>,
    pages: &Pages<'_>,
    files: &[&'f str],
) -> Result<Vec<Report<'f>>, AllocError> {
    let mut reports = Vec::with_capacity(rt.alloc(), files.len())?;
    for file in files {
        let answer = answer(rt, patching, pages, file);
        reports.push(Report { file, answer })?;
        if answer.is_last(false) {
            return Ok(reports);
        }
    }
    Ok(reports)
}

/// Changes the page in each file in order, and answers the status of all. A page that can't be
/// read, or changed so, is said on standard error and stays, and those after it are done.
pub fn patch_pages(
    rt: &HostRuntime,
    patching: &Patching<'_>,
    pages: &Pages<'_>,
) -> Result<u8, Failure>
    ensures { IfErr result (λ failure. failure ≡ OutOfMemory) }
{
    let files = if pages.files.is_empty() {
        STANDARD_INPUT.as_slice()
    } else {
        pages.files.as_slice()
    };
    let reports = match patch_files(rt, patching, pages, files) {
        Ok(reports) => reports,
        Err(AllocError) => return Err(report_failure(rt, "files", Failure::OutOfMemory)),
    };
    Ok(patching.tellings.status(status_of(false, &reports)))
}
