//! The texts of errors of edits where a selector holds.
use std::alloc::Global;
use std::fmt::Display;
use tl_patch_edit::EditError;
use tl_patch_select::{SelectionEditError, SelectionPatchError};

static OF_PATCH: [(SelectionPatchError, &str); 4] = [
    (
        SelectionPatchError::Untagged(7),
        "the element that browsers add at byte 7 has no tag to edit",
    ),
    (
        SelectionPatchError::NoStartTag(7),
        "the element at byte 7 has no start tag",
    ),
    (
        SelectionPatchError::NotWritten(7),
        "the new attribute or name can't be written in the tag at byte 7",
    ),
    (SelectionPatchError::OutOfMemory, "out of memory"),
];

static OF_EDIT: [(SelectionEditError, &str); 4] = [
    (
        SelectionEditError::Refused(EditError::NotMeant(7)),
        "the element at byte 7 can't be edited this way: its end tag is missing, or its kind doesn't allow it",
    ),
    (
        SelectionEditError::Untagged(7),
        "the element that browsers add at byte 7 has no tag to edit",
    ),
    (
        SelectionEditError::NotWhole(7, 9),
        "only attributes of the element at byte 7 can be edited: by its tags it has other content than in browsers (see byte 9)",
    ),
    (SelectionEditError::OutOfMemory, "out of memory"),
];

// Whether an error says this.
fn says<E: Display>(alloc: Global, error: &E, text: &str) -> bool {
    match format!(in alloc; "{error}") {
        Ok(made) => made.as_str() == text,
        Err(_) => false,
    }
}

#[test]
fn errors_of_edits_have_texts(rt: HostRuntime) {
    for (error, text) in &OF_PATCH {
        assert!(rt; says(rt.alloc(), error, text), "{text}");
    }
    for (error, text) in &OF_EDIT {
        assert!(rt; says(rt.alloc(), error, text), "{text}");
    }
}
