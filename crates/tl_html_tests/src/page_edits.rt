//! Pages with keys of their tags set and unset.

use crate::answers::is_answer;
use std::alloc::Global;
use tl_patch::{Change, PatchError, TagPatch, patch};

const SET: Change<'static> = Change::Set {
    key: b"k",
    value: b"v",
};

const UNSET: Change<'static> = Change::Unset { key: b"k" };

// A page, two places of tags, of which the first gets a key and the other loses it, and what comes
// of it.
#[rattlefmt::skip]
static PAGE_ROWS: [(&[u8], usize, usize, Result<&[u8], PatchError>); 11] = [
    (b"<p>a<b k=1>c</b>", 0, 4, Ok(b"<p k=\"v\">a<b>c</b>")),
    (b"<p k>a &amp; b</p>", 0, 0, Ok(b"<p>a &amp; b</p>")),
    (b"\xEF\xBB\xBF<p><i k>", 3, 6, Ok(b"\xEF\xBB\xBF<p k=\"v\"><i>")),
    (b"a\r\n\0<p>&am<b k>p;</x <y", 4, 10, Ok(b"a\r\n\0<p k=\"v\">&am<b>p;</x <y")),
    (b"<script><p></script><p k>", 0, 20, Ok(b"<script k=\"v\"><p></script><p>")),
    (b"<title k><p></title><!--><p>--><p>", 0, 31, Ok(b"<title k=\"v\"><p></title><!--><p>--><p>")),
    (b"<script><p></script><p>", 8, 20, Err(PatchError::NoStartTag(8))),
    (b"<p><b>", 1, 3, Err(PatchError::NoStartTag(1))),
    (b"<p></p>", 0, 3, Err(PatchError::NoStartTag(3))),
    (b"<p><b>", 3, 0, Err(PatchError::NoStartTag(0))),
    (b"<p><b", 0, 3, Err(PatchError::NoStartTag(3))),
];

fn is_patched(
    alloc: Global,
    page: &[u8],
    places: (usize, usize),
    wanted: Result<&[u8], PatchError>,
) -> bool {
    let first = TagPatch {
        start: places.0,
        change: SET,
    };
    let second = TagPatch {
        start: places.1,
        change: UNSET,
    };
    is_answer(patch(alloc, page, &[first, second]), wanted)
}

#[test]
fn tags_are_changed(rt: HostRuntime) {
    for (page, first, second, wanted) in &PAGE_ROWS {
        assert!(rt; is_patched(rt.alloc(), page, (*first, *second), *wanted));
    }
}

#[test]
fn a_page_without_patches_stays(rt: HostRuntime) {
    for (page, _, _, _) in &PAGE_ROWS {
        assert!(rt; is_answer(patch(rt.alloc(), page, &[]), Ok(*page)));
    }
}

// A key, a value, and what comes of `a<p k=1>` with them at its tag.
#[rattlefmt::skip]
static KEY_ROWS: [(&[u8], &[u8], Result<&[u8], PatchError>); 5] = [
    (b"k", b"v", Ok(b"a<p k=\"v\">")),
    (b"j", b"v", Ok(b"a<p j=\"v\" k=1>")),
    (b"K", b"v", Err(PatchError::NotWritten(1))),
    (b"j=", b"v", Err(PatchError::NotWritten(1))),
    (b"j", b"\0", Err(PatchError::NotWritten(1))),
];

fn is_set(alloc: Global, key: &[u8], value: &[u8], wanted: Result<&[u8], PatchError>) -> bool {
    let set = TagPatch {
        start: 1,
        change: Change::Set { key, value },
    };
    is_answer(patch(alloc, b"a<p k=1>", &[set]), wanted)
}

#[test]
fn keys_and_values_that_cannot_be_written_are_refused(rt: HostRuntime) {
    for (key, value, wanted) in &KEY_ROWS {
        assert!(rt; is_set(rt.alloc(), key, value, *wanted));
    }
}
