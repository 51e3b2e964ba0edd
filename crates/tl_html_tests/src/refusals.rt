//! Elements that can't be changed whatever is done with others, and comments that are taken out.

use crate::answers::is_answer;
use std::alloc::AllocError;
use tl_patch_edit::{
    CommentError, Content, EditError, ElementPatch, refusals_at, unstarted_at, without_comments,
};

const TEXT: Content<'static> = Content::Text { text: b"x" };

// What is done, the bytes where the start tags begin, the page, and why it can't be.
type RefusalRow = (
    ElementPatch<'static>,
    &'static [usize],
    &'static [u8],
    &'static [EditError],
);

#[rattlefmt::skip]
static REFUSAL_ROWS: [RefusalRow; 10] = [
    (ElementPatch::Remove, &[], b"<p>a", &[]),
    (ElementPatch::Remove, &[0], b"<p>a", &[]),
    (ElementPatch::Fill { content: TEXT }, &[1, 2, 6], b"a<br>b<p>c", &[EditError::NotMeant(1), EditError::NoStartTag(2)]),
    (ElementPatch::Remove, &[5], b"<div><b>x</div>y", &[EditError::NotMeant(5)]),
    (ElementPatch::Remove, &[0, 5], b"<div><b>x</div>y", &[]),
    (ElementPatch::Rename { name: b"i" }, &[0, 5], b"<div><b>x</div>y", &[EditError::NotMeant(5)]),
    (ElementPatch::Remove, &[7], b"<body>a<body>b", &[EditError::NotMeant(7)]),
    (ElementPatch::Fill { content: TEXT }, &[6, 1], b"a<br>b<p>c", &[EditError::NoStartTag(1)]),
    (ElementPatch::Fill { content: TEXT }, &[1, 1], b"a<br>b", &[EditError::NotMeant(1)]),
    (ElementPatch::Unwrap, &[0, 4, 8], b"<b></b><!--", &[EditError::NoStartTag(4), EditError::NoStartTag(8)]),
];

// Some bytes, the page, and those at which no start tag begins.
type UnstartedRow = (&'static [usize], &'static [u8], &'static [usize]);

static UNSTARTED_ROWS: [UnstartedRow; 7] = [
    (&[], b"<p>a", &[]),
    (&[0, 3, 4], b"<p>a<p>b", &[3]),
    (&[4, 0], b"<p>a<p>b", &[0]),
    (&[3, 3, 4, 4], b"<p>a<p>b", &[3, 3]),
    (&[0, 4], b"<!--<b>", &[0, 4]),
    (&[0, 3], b"<b></b>", &[3]),
    (&[7, 9], b"<title><b></title>", &[7, 9]),
];

// Where comments begin, the page, and what it is without them.
type CommentRow = (
    &'static [usize],
    &'static [u8],
    Result<&'static [u8], CommentError>,
);

static COMMENT_ROWS: [CommentRow; 10] = [
    (&[], b"<!--a-->", Ok(b"<!--a-->")),
    (&[1], b"a<!--b-->c", Ok(b"ac")),
    (&[5], b"AT&am<!--x-->p;", Ok(b"AT&am</>p;")),
    (&[0, 8], b"<!--a--><!--b-->", Ok(b"")),
    (&[8], b"<!--a--><!--b-->", Ok(b"<!--a-->")),
    (
        &[8, 0],
        b"<!--a--><!--b-->",
        Err(CommentError::NoComment(0)),
    ),
    (
        &[0, 0],
        b"<!--a--><!--b-->",
        Err(CommentError::NoComment(0)),
    ),
    (&[0], b"a<!--b-->c", Err(CommentError::NoComment(0))),
    (&[2], b"a<!--b-->c", Err(CommentError::NoComment(2))),
    (&[0], b"<!DOCTYPE html>", Err(CommentError::NoComment(0))),
];

fn are_refusals(found: Result<Vec<EditError>, AllocError>, wanted: &[EditError]) -> bool {
    match found {
        Ok(found) => found.as_slice() == wanted,
        Err(_) => false,
    }
}

fn are_places(found: Result<Vec<usize>, AllocError>, wanted: &[usize]) -> bool {
    match found {
        Ok(found) => found.as_slice() == wanted,
        Err(_) => false,
    }
}

#[test]
fn what_cannot_be_changed_is_named(rt: HostRuntime) {
    for (patch, places, page, wanted) in &REFUSAL_ROWS {
        let found = refusals_at(rt.alloc(), page, places, *patch);
        assert!(rt; are_refusals(found, wanted));
    }
}

#[test]
fn places_without_a_start_tag_are_named(rt: HostRuntime) {
    for (places, page, wanted) in &UNSTARTED_ROWS {
        assert!(rt; are_places(unstarted_at(rt.alloc(), page, places), wanted));
    }
}

#[test]
fn comments_are_taken_out(rt: HostRuntime) {
    for (places, page, wanted) in &COMMENT_ROWS {
        let found = without_comments(rt.alloc(), page, places);
        assert!(rt; is_answer(found, *wanted));
    }
}
