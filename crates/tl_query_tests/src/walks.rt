//! Walks over documents, event by event.
use crate::documents::{Question, answers};
use crate::edited::Edit;
use std::alloc::{AllocError, Global};
use tl::errors::TreeError;
use tl::{Node, NodeHandle, VDom, Walk, WalkEvent};
use tl_page::Failure;

// More events than any of these walks has.
const MOST_EVENTS: usize = 100;

// Writes an event: `(` and the name for a tag that is met, `)` for one that is left, texts as they
// stand, and `!` for a comment; and passes over what is inside the tags of a name.
fn write_event(
    walk: &mut Walk<'_, '_>,
    out: &mut String,
    event: WalkEvent<'_, '_>,
    skips: &[u8],
) -> Result<(), AllocError> {
    match event {
        WalkEvent::Meets(_, Node::Tag(tag)) => {
            out.push('(')?;
            out.push_str(tag.name().try_as_utf8_str().unwrap_or("?"))?;
            if tag.name().as_bytes() == skips {
                walk.skip_subtree();
            }
            Ok(())
        }
        WalkEvent::Meets(_, Node::Raw(bytes)) => {
            out.push_str(bytes.try_as_utf8_str().unwrap_or("?"))
        }
        WalkEvent::Meets(_, Node::Comment(_)) => out.push('!'),
        WalkEvent::Leaves(_) => out.push(')'),
    }
}

// Writes the events of a walk.
fn write_events(walk: &mut Walk<'_, '_>, out: &mut String, skips: &[u8]) -> Result<(), TreeError> {
    for _ in 0..MOST_EVENTS {
        match walk.next() {
            Some(Ok(event)) => write_event(walk, out, event, skips)?,
            Some(Err(error)) => return Err(error),
            None => return Ok(()),
        }
    }
    Ok(())
}

#[rattlefmt::skip]
static WALKS: [(&str, &[u8], &str); 6] = [
    ("", b"", ""),
    ("a<!--x-->b", b"", "a!b"),
    ("<p>a<b>c</b>d</p>e", b"", "(pa(bc)d)e"),
    ("<p>a<b>c</b>d</p>e", b"b", "(pa(b)d)e"),
    ("<p>a<b>c</b>d</p>e", b"p", "(p)e"),
    ("<br><p></p>", b"br", "(br)(p)"),
];

/// Whether a walk over a document has these letters.
pub fn is_walk(
    alloc: Global,
    document: &VDom<'static>,
    skips: &[u8],
    letters: &str,
) -> Result<bool, Failure> {
    let mut out = String::new(alloc);
    write_events(&mut document.walk(alloc), &mut out, skips)?;
    Ok(out.as_str() == letters)
}

#[test]
fn walks_meet_and_leave(rt: HostRuntime) {
    for (page, skips, letters) in &WALKS {
        let question = Question::Walk(skips, letters);
        assert!(rt;
            answers(rt.alloc(), page.as_bytes(), &[], &question) == Ok(true),
            "{page}"
        );
    }
}

/// Whether a walk below the first node of a document has these letters.
pub fn is_walk_below(
    alloc: Global,
    document: &VDom<'static>,
    letters: &str,
) -> Result<bool, Failure> {
    let Some(node) = document.nodes().first() else {
        return Ok(false);
    };
    let mut out = String::new(alloc);
    write_events(&mut node.walk(alloc, document.parser()), &mut out, b"")?;
    Ok(out.as_str() == letters)
}

// A page, and the letters of a walk below its first node.
static BELOW: [(&str, &str); 2] = [("<p>a<b>c</b></p>d", "a(bc)"), ("a<b>c</b>", "")];

#[test]
fn walks_below_a_node_meet_what_hangs_there(rt: HostRuntime) {
    for (page, letters) in &BELOW {
        let question = Question::WalkBelow(letters);
        assert!(rt;
            answers(rt.alloc(), page.as_bytes(), &[], &question) == Ok(true),
            "{page}"
        );
    }
}

// The error of a walk, if it has one with nothing after it.
fn last_error(walk: &mut Walk<'_, '_>) -> Option<TreeError> {
    for _ in 0..MOST_EVENTS {
        match walk.next() {
            Some(Ok(_)) => {}
            Some(Err(error)) => return if walk.next().is_none() {
                Some(error)
            } else {
                None
            },
            None => return None,
        }
    }
    None
}

/// Whether a walk over a document ends by this error, or by none.
pub fn ends_by(alloc: Global, document: &VDom<'static>, error: Option<TreeError>) -> bool {
    last_error(&mut document.walk(alloc)) == error
}

// Whether a walk over a page whose first top handle is this one ends by this error.
fn is_fault(alloc: Global, top: u32, error: Option<TreeError>) -> bool {
    let page: &[u8] = b"<p>a</p>";
    answers(alloc, page, &[Edit::Top(top)], &Question::Fault(error)) == Ok(true)
}

#[test]
fn nothing_comes_after_a_fault(rt: HostRuntime) {
    let dangling = TreeError::Dangling(NodeHandle::new(7));
    assert!(rt; is_fault(rt.alloc(), 7, Some(dangling)));
    assert!(rt; is_fault(rt.alloc(), 1, None));
}
