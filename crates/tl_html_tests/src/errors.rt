//! The texts of errors.
use std::alloc::Global;
use std::fmt::Display;
use tl_encoding::DecodeError;
use tl_patch::PatchError;
use tl_patch_edit::EditError;

static OF_PATCH: [(PatchError, &str); 3] = [
    (PatchError::NoStartTag(7), "no start tag at byte 7"),
    (
        PatchError::NotWritten(7),
        "the new attribute or name can't be written in the tag at byte 7",
    ),
    (PatchError::OutOfMemory, "out of memory"),
];

#[rattlefmt::skip]
static OF_EDIT: [(EditError, &str); 8] = [
    (EditError::NoStartTag(7), "no start tag at byte 7"),
    (EditError::NotMeant(7), "the element at byte 7 can't be edited this way: its end tag is missing, or its kind doesn't allow it"),
    (EditError::Across(7), "the edit of the element at byte 7 overlaps the edit of another"),
    (EditError::EndOfPage(7), "nothing can be inserted after the end of the page (element at byte 7)"),
    (EditError::NotWritten(7), "the new content or name can't be written there (element at byte 7)"),
    (EditError::Misread(7, 3), "a browser may read raw text after byte 3 as markup (element at byte 7)"),
    (EditError::ReadOtherwise(7), "this edit would change how other parts of the page are read (element at byte 7)"),
    (EditError::OutOfMemory, "out of memory"),
];

static OF_DECODE: [(DecodeError, &str); 3] = [
    (DecodeError::NoText(7), "invalid UTF-8 at byte 7"),
    (
        DecodeError::NoCharacter(7),
        "invalid byte sequence at byte 7",
    ),
    (DecodeError::OutOfMemory, "out of memory"),
];

// Whether an error says this.
fn says<E: Display>(alloc: Global, error: &E, text: &str) -> bool {
    match format!(in alloc; "{error}") {
        Ok(made) => made.as_str() == text,
        Err(_) => false,
    }
}

#[test]
fn errors_of_pages_have_texts(rt: HostRuntime) {
    for (error, text) in &OF_DECODE {
        assert!(rt; says(rt.alloc(), error, text), "{text}");
    }
}

#[test]
fn errors_of_edits_have_texts(rt: HostRuntime) {
    for (error, text) in &OF_PATCH {
        assert!(rt; says(rt.alloc(), error, text), "{text}");
    }
    for (error, text) in &OF_EDIT {
        assert!(rt; says(rt.alloc(), error, text), "{text}");
    }
}
