//! Steps that are taken and steps that are refused, and what the documents print then.
use crate::reprints::kept_page;
use std::alloc::Global;
use std::fmt::Write;
use tl::{ParserOptions, VDom, parse};
use tl_program::script::{StepError, run, steps};

// Writes the cause and the place of a refused step.
fn show_answer(answer: Result<(), (usize, StepError)>, out: &mut String) -> bool {
    match answer {
        Ok(()) => true,
        Err((place, error)) => write!(out, "{error:?} at {place}: ").is_ok(),
    }
}

// Takes the steps that the lines say and writes what is answered, if they say steps.
fn take(alloc: Global, document: &mut VDom<'_>, lines: &str, out: &mut String) -> bool {
    match steps(alloc, lines) {
        Ok(Some(steps)) => show_answer(run(alloc, document, steps.as_slice()), out),
        _ => false,
    }
}

// Writes the print of a document, if its tree has no fault.
fn print(alloc: Global, document: &VDom<'_>, out: &mut String) -> bool {
    match document.outer_html(alloc) {
        Ok(print) => out.push_str(print.as_str()).is_ok(),
        Err(_) => false,
    }
}

// Whether the steps are answered so on a document, and leave it so.
fn leave(alloc: Global, document: &mut VDom<'_>, lines: &str, wanted: &str) -> bool {
    let mut out = String::new(alloc);
    take(alloc, document, lines, &mut out)
        && print(alloc, document, &mut out)
        && out.as_str() == wanted
}

fn leave_borrowed(alloc: Global, page: &str, lines: &str, wanted: &str) -> bool {
    match parse(alloc, page, ParserOptions::new()) {
        Ok(mut document) => leave(alloc, &mut document, lines, wanted),
        Err(_) => false,
    }
}

fn leave_kept(alloc: Global, page: &str, lines: &str, wanted: &str) -> bool {
    match kept_page(alloc, page) {
        Some(mut guard) => leave(alloc, guard.get_mut_ref(), lines, wanted),
        None => false,
    }
}

// Pages, lines of steps, and what is left: the print after them, or the cause and the place of the
// step that is refused, and the print after the steps before it.
const ROWS: &[(&str, &str, &str)] = &[
    ("<p>x</p>", "", "<p>x</p>"),
    ("<br>x", "name 0 p", "<p></p>x"),
    ("<p>a<b></b>c</p>", "text 2", "<p>ac</p>"),
    ("<p></p>", "comment 0 <!-- a --> b -->", "<!-- a --> b -->"),
    ("<a>y</a>", "set 0 href /x", "<a href=\"/x\">y</a>"),
    (
        "<p>",
        "set 0 id a\nset 0 class b\nset 0 z",
        "<p z=\"\" id=\"a\" class=\"b\"></p>",
    ),
    ("<p a=1 id=i>", "flag 0 a\nflag 0 id\nflag 0", "<p a ></p>"),
    (
        "<p a=1 b=2 c=3 id=i class=k>",
        "unset 0 a\nunset 0 class",
        "<p c=\"3\" b=\"2\" id=\"i\"></p>",
    ),
    (
        "<p a=1 b=2 c=3 id=i class=k>",
        "bare 0 b\nbare 0 id",
        "<p a=\"1\" b c=\"3\" class=\"k\"></p>",
    ),
    ("<p>x</p>", "bare 0 zz\nunset 0 zz", "<p>x</p>"),
    ("<p>x</p>", "push 0 1", "<p>xx</p>"),
    (
        "<a><b></b></a><c></c>",
        "pull 0 0\npush 0 2\npush 0 1",
        "<a><c></c><b></b></a><c></c>",
    ),
    ("<p>x</p>", "root 0 1", "x"),
    (
        "<p>x</p>",
        "set 0 a 1\npush 1 0\nset 0 b 2",
        "NotTag at 1: <p a=\"1\">x</p>",
    ),
    ("<p>x</p>", "pull 0 1", "NoPlace at 0: <p>x</p>"),
    ("<p>x</p>", "root 1 0", "NoPlace at 0: <p>x</p>"),
    ("<p>x</p>", "flag 2 a", "NoNode at 0: <p>x</p>"),
    ("<p>x</p>", "pull 1 9", "NotTag at 0: <p>x</p>"),
    ("<p>x</p>", "text 1 y\ntext 2 z", "NoNode at 1: <p>y</p>"),
];

#[test]
fn steps_are_taken_or_refused(rt: HostRuntime) {
    for (page, lines, wanted) in ROWS {
        assert!(rt;
            leave_borrowed(rt.alloc(), page, lines, wanted),
            "{lines:?}"
        );
        assert!(rt;
            leave_kept(rt.alloc(), page, lines, wanted),
            "{lines:?}, kept"
        );
    }
}

// The causes in the order in which they are looked at.
static CAUSES: [StepError; 4] = [
    StepError::NoNode,
    StepError::NotTag,
    StepError::NoPlace,
    StepError::OutOfMemory,
];

#[test]
fn causes_are_in_order(rt: HostRuntime) {
    assert!(rt; CAUSES.is_sorted());
}
