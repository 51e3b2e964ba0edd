//! What a page of bytes is, and what is said of one that is none.
use crate::documents::{Question, answers};
use std::alloc::{AllocError, Global};
use tl_page::{Cause, Failure, PageError, text};

struct Page {
    bytes: &'static [u8],
    place: Option<usize>,
}

#[rattlefmt::skip]
static PAGES: [Page; 8] = [
    Page { bytes: b"", place: None },
    Page { bytes: b"<p>a</p>", place: None },
    Page { bytes: b"\xf0\x9f\x98\x80", place: None },
    Page { bytes: b"\xff", place: Some(0) },
    Page { bytes: b"<p>a\xff</p>", place: Some(4) },
    Page { bytes: b"ab\xf0\x9f\x98", place: Some(2) },
    Page { bytes: b"\xc0\x80", place: Some(0) },
    Page { bytes: b"a\xed\xa0\x80", place: Some(1) },
];

// Whether a page is a text, or none after so many bytes.
fn is_text_to(page: &Page) -> bool {
    match text(page.bytes) {
        Ok(text) => page.place.is_none() && text.as_bytes() == page.bytes,
        Err(error) => {
            error.cause == Cause::NoText
                && error.failure == Failure::NotUnderstood
                && Some(error.place) == page.place
        }
    }
}

// Whether a page is read, or not understood.
fn is_read(alloc: Global, page: &Page) -> bool {
    match answers(alloc, page.bytes, &[], &Question::Read) {
        Ok(_) => page.place.is_none(),
        Err(failure) => page.place.is_some() && failure == Failure::NotUnderstood,
    }
}

#[test]
fn pages_are_texts_up_to_a_place(rt: HostRuntime) {
    for page in &PAGES {
        assert!(rt; is_text_to(page));
    }
}

#[test]
fn pages_are_read_or_not_understood(rt: HostRuntime) {
    for page in &PAGES {
        assert!(rt; is_read(rt.alloc(), page));
    }
}

// Whether an error says this.
fn says(alloc: Global, error: PageError, words: &str) -> Result<bool, AllocError> {
    let said = error.to_string(alloc)?;
    Ok(said.as_str() == words)
}

#[test]
fn errors_say_cause_and_place(rt: HostRuntime) {
    assert!(rt; says(rt.alloc(), PageError::no_text(4), "invalid UTF-8 at byte 4") == Ok(true));
    assert!(rt;
        says(
            rt.alloc(),
            PageError::too_long(),
            "too long at byte 4294967295"
        ) == Ok(true)
    );
}

#[test]
fn failures_say_their_reason(rt: HostRuntime) {
    assert!(rt; Failure::Refused.reason() == "refused");
    assert!(rt; Failure::NotUnderstood.reason() == "not understood");
    assert!(rt; Failure::OutOfMemory.reason() == "out of memory");
    assert!(rt; Failure::Fault.reason() == "read or write failed");
    assert!(rt; Failure::Refused as u8 == 1 && Failure::NotUnderstood as u8 == 2);
    assert!(rt; Failure::OutOfMemory as u8 == 3 && Failure::Fault as u8 == 4);
}
