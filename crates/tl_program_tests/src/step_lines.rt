//! Lines that say steps, and lines that say none.
use std::alloc::Global;
use tl_program::script::{Step, steps};

// Whether a text says these steps.
fn says(alloc: Global, text: &str, wanted: &[Step<'_>]) -> bool {
    match steps(alloc, text) {
        Ok(Some(read)) => read.as_slice() == wanted,
        _ => false,
    }
}

// Texts, and the steps that they say.
const STEPS: &[(&str, &[Step<'_>])] = &[
    ("", &[]),
    ("name 0 p", &[Step::Name(0, b"p")]),
    ("name 0  x", &[Step::Name(0, b" x")]),
    ("text 2", &[Step::Text(2, b"")]),
    ("text 0 a\r", &[Step::Text(0, b"a\r")]),
    ("comment 3 <!-- a -->", &[Step::Comment(3, b"<!-- a -->")]),
    ("set 0 a b c", &[Step::Set(0, b"a", b"b c")]),
    ("set 0 a", &[Step::Set(0, b"a", b"")]),
    ("set 0  v", &[Step::Set(0, b"", b"v")]),
    ("flag 0 id", &[Step::Flag(0, b"id")]),
    ("flag 0", &[Step::Flag(0, b"")]),
    ("unset 0 a", &[Step::Unset(0, b"a")]),
    ("bare 0 a b", &[Step::Bare(0, b"a b")]),
    ("push 00 004294967295", &[Step::Push(0, 4294967295)]),
    ("pull 1 7", &[Step::Pull(1, 7)]),
    ("root 7 1", &[Step::Root(7, 1)]),
    (
        "\npull 0 0\n\npush 0 2\npush 0 1\n",
        &[Step::Pull(0, 0), Step::Push(0, 2), Step::Push(0, 1)],
    ),
];

#[test]
fn lines_say_steps(rt: HostRuntime) {
    for (text, wanted) in STEPS {
        assert!(rt; says(rt.alloc(), text, wanted), "{text:?}");
    }
}

fn says_nothing(alloc: Global, text: &str) -> bool {
    match steps(alloc, text) {
        Ok(read) => read.is_none(),
        Err(_) => false,
    }
}

// Texts of a line that is of none of the forms.
const OTHERS: &[&str] = &[
    "push 0",
    "push 0 1 2",
    "push 0 4294967296",
    "push +1 0",
    "push 0 1 ",
    "push 0 1\r",
    "push 0  1",
    "Name 0 p",
    " name 0 x",
    "text x",
    "text",
    " ",
];

#[test]
fn other_lines_say_nothing(rt: HostRuntime) {
    for text in OTHERS {
        assert!(rt; says_nothing(rt.alloc(), text), "{text:?}");
    }
}
