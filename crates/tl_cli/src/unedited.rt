//! What is said of an element that isn't edited.

use crate::crossed::Place;
use std::fmt;
use tl_patch_edit::EditError;
use tl_patch_select::{SelectionEditError, SelectionPatchError};

/// Why an element isn't edited.
#[derive(Clone, Copy)]
pub enum Cause {
    Untagged,
    Crossed,
    NoStartTag,
    NotMeant,
    Across,
    EndOfPage,
    NotWritten,
    ReadOtherwise,
}

/// An element that isn't edited, by the byte where its start tag begins; or what begins behind the
/// place of one that browsers put in.
#[derive(Clone, Copy)]
pub struct Unedited {
    pub place: usize,
    pub cause: Cause,
}

/// Why that element of a page isn't, and what helps.
#[derive(Clone, Copy)]
pub struct Telling<'p> {
    pub page: &'p [u8],
    pub own: Unedited,
}

/// The same, with its line and its column.
#[derive(Clone, Copy)]
pub struct PlacedTelling<'p> {
    pub telling: Telling<'p>,
}

// The start tag that begins at a byte of a page, without its attributes.
#[derive(Clone, Copy)]
struct TagAt<'p> {
    page: &'p [u8],
    place: usize,
}

impl fmt::Display for TagAt<'_> {
    fn fmt<W: fmt::Write>(&self, f: &mut fmt::Formatter<W>) -> fmt::Result {
        f.write_str("<")?;
        for at in self.place.saturating_add(1)..self.page.len() {
            let byte = self.page[at];
            if !byte.is_ascii_alphanumeric() && byte != b'-' {
                return f.write_str(">");
            }
            let letter = char::from(byte.to_ascii_lowercase());
            write!(f, "{letter}")?;
        }
        f.write_str(">")
    }
}

// What stands behind the name of the element in what is said.
fn words_of(cause: Cause) -> &'static str {
    match cause {
        Cause::Untagged => "",
        Cause::Crossed => {
            "has other content by its tags than in browsers: only its attributes can be edited"
        }
        Cause::NoStartTag => {
            "is a tag to browsers, and text by the names of tags alone: move it out of the element it is in"
        }
        Cause::NotMeant => {
            "isn't closed, has no content, or can't be edited this way: close it, or edit its attributes"
        }
        Cause::Across => "is edited across the edit of another element: edit one after the other",
        Cause::EndOfPage => "ends with the page, after which nothing can be inserted: close it",
        Cause::NotWritten => "can't have the new content, attribute or name",
        Cause::ReadOtherwise => {
            "can't be edited this way, as other parts of the page would be read differently"
        }
    }
}

impl fmt::Display for Telling<'_> {
    fn fmt<W: fmt::Write>(&self, f: &mut fmt::Formatter<W>) -> fmt::Result {
        if let Cause::Untagged = self.own.cause {
            return f.write_str(
                "browsers add an element before this, which has no tag: write its start tag, or drop a stray end tag",
            );
        }
        let tag = TagAt {
            page: self.page,
            place: self.own.place,
        };
        let words = words_of(self.own.cause);
        write!(f, "{tag} {words}")
    }
}

impl fmt::Display for PlacedTelling<'_> {
    fn fmt<W: fmt::Write>(&self, f: &mut fmt::Formatter<W>) -> fmt::Result {
        let place = Place {
            page: self.telling.page,
            at: self.telling.own.place,
        };
        let telling = self.telling;
        write!(f, "at {place}: {telling}")
    }
}

/// What an error says of an element.
pub fn of_edit(error: EditError) -> Option<Unedited> {
    let (place, cause) = match error {
        EditError::NoStartTag(place) => (place, Cause::NoStartTag),
        EditError::NotMeant(place) => (place, Cause::NotMeant),
        EditError::Across(place) => (place, Cause::Across),
        EditError::EndOfPage(place) => (place, Cause::EndOfPage),
        EditError::NotWritten(place) => (place, Cause::NotWritten),
        EditError::ReadOtherwise(place) => (place, Cause::ReadOtherwise),
        _ => return None,
    };
    Some(Unedited { place, cause })
}

/// What an error of elements where a selector holds says of one.
pub fn of_selection(error: SelectionEditError) -> Option<Unedited> {
    match error {
        SelectionEditError::Refused(error) => of_edit(error),
        SelectionEditError::Untagged(place) => Some(Unedited {
            place,
            cause: Cause::Untagged,
        }),
        _ => None,
    }
}

/// What an error of tags where a selector holds says of an element.
pub fn of_tags(error: SelectionPatchError) -> Option<Unedited> {
    let (place, cause) = match error {
        SelectionPatchError::Untagged(place) => (place, Cause::Untagged),
        SelectionPatchError::NoStartTag(place) => (place, Cause::NoStartTag),
        SelectionPatchError::NotWritten(place) => (place, Cause::NotWritten),
        _ => return None,
    };
    Some(Unedited { place, cause })
}
