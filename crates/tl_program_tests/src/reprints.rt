//! Prints, and what they are read as.
use std::alloc::Global;
use tl::{ParserOptions, VDom, VDomGuard, parse, parse_owned};
use tl_program::script::{Step, run};

// A page, steps, its print after them, and of that print how many nodes it is read as, and what
// these print.
type Row = (
    &'static str,
    &'static [Step<'static>],
    &'static str,
    usize,
    &'static str,
);

#[rattlefmt::skip]
static ROWS: [Row; 14] = [
    // Clean documents, read as themselves.
    ("<br>x", &[Step::Name(0, b"p")], "<p></p>x", 2, "<p></p>x"),
    ("<p></p>", &[Step::Name(0, b"br")], "<br>", 1, "<br>"),
    ("<a></a><b></b>", &[Step::Push(1, 0)], "<a></a><b><a></a></b>", 3, "<a></a><b><a></a></b>"),
    ("<p>a<b></b>c</p>", &[Step::Text(2, b"")], "<p>ac</p>", 2, "<p>ac</p>"),
    // The bytes of one letter, in two texts.
    ("<p>a<b></b>c</p>", &[Step::Text(2, b""), Step::Text(1, b"\xc3"), Step::Text(3, b"\xa9"),], "<p>\u{fffd}\u{fffd}</p>", 2, "<p>\u{fffd}\u{fffd}</p>"),
    // Documents that are not clean, read as others.
    ("<p\ta>x</p>", &[], "<p  a>x</p>", 2, "<p a>x</p>"),
    ("<p a='x\"y'>z</p>", &[], "<p a=\"x\"y\">z</p>", 2, "<p a=\"x\" y>z</p>"),
    ("<command>x</command>", &[], "<command>", 1, "<command>"),
    ("<p></p>", &[Step::Comment(0, b"<!-- a --> b -->")], "<!-- a --> b -->", 2, "<!-- a --> b -->"),
    ("<br>x", &[Step::Push(0, 1)], "<br>x", 2, "<br>x"),
    ("<p>x</p>", &[Step::Text(1, b"<b>")], "<p><b></p>", 2, "<p><b></b></p>"),
    ("<a x></a>", &[Step::Name(0, b"")], "< x></>", 1, "<x></x>"),
    ("<p></p>", &[Step::Name(0, b"/a")], "</a><//a>", 0, ""),
    ("<p></p>", &[Step::Name(0, b"a/b")], "<a/b></a/b>", 1, "b>"),
];

// Writes the print of a document, and answers how many nodes it has.
fn print(alloc: Global, document: &VDom<'_>, out: &mut String) -> Option<usize> {
    match document.outer_html(alloc) {
        Ok(print) => {
            out.push_str(print.as_str()).ok()?;
            Some(document.nodes().len())
        }
        Err(_) => None,
    }
}

// Takes the steps on a document, writes its print after them, and answers how many nodes it has.
fn print_after(
    alloc: Global,
    document: &mut VDom<'_>,
    steps: &[Step<'_>],
    out: &mut String,
) -> Option<usize> {
    if run(alloc, document, steps).is_err() {
        return None;
    }
    print(alloc, document, out)
}

fn borrowed_print(
    alloc: Global,
    page: &str,
    steps: &[Step<'_>],
    out: &mut String,
) -> Option<usize> {
    match parse(alloc, page, ParserOptions::new()) {
        Ok(mut document) => print_after(alloc, &mut document, steps, out),
        Err(_) => None,
    }
}

// A page that its document keeps.
pub fn kept_page(alloc: Global, page: &str) -> Option<VDomGuard> {
    let text = String::from_str(alloc, page).ok()?;
    parse_owned(alloc, text, ParserOptions::new()).ok()
}

fn kept_print(alloc: Global, page: &str, steps: &[Step<'_>], out: &mut String) -> Option<usize> {
    match kept_page(alloc, page) {
        Some(mut guard) => print_after(alloc, guard.get_mut_ref(), steps, out),
        None => None,
    }
}

// Whether a page, borrowed or kept, prints that.
fn print_page(
    alloc: Global,
    page: &str,
    keeps: bool,
    steps: &[Step<'_>],
    out: &mut String,
) -> Option<usize> {
    if keeps {
        kept_print(alloc, page, steps, out)
    } else {
        borrowed_print(alloc, page, steps, out)
    }
}

// Whether the print of a page after the steps, and that of what this is read as, are those of the
// row.
fn is_read_as(alloc: Global, row: &Row, keeps: bool) -> bool {
    let (page, steps, first_print, count, second_print) = *row;
    let mut first = String::new(alloc);
    let mut second = String::new(alloc);
    print_page(alloc, page, keeps, steps, &mut first).is_some()
        && first.as_str() == first_print
        && print_page(alloc, first.as_str(), keeps, &[], &mut second) == Some(count)
        && second.as_str() == second_print
}

const SIXTEEN: &str =
    "<a></a><a></a><a></a><a></a><a></a><a></a><a></a><a></a><a></a><a></a><a></a><a></a><a></a><a></a><a></a><a></a>";

// Each of the sixteen but the last gets the next one twice.
#[rattlefmt::skip]
static DOUBLING: [Step<'static>; 30] = [
    Step::Push(0, 1),
    Step::Push(0, 1),
    Step::Push(1, 2),
    Step::Push(1, 2),
    Step::Push(2, 3),
    Step::Push(2, 3),
    Step::Push(3, 4),
    Step::Push(3, 4),
    Step::Push(4, 5),
    Step::Push(4, 5),
    Step::Push(5, 6),
    Step::Push(5, 6),
    Step::Push(6, 7),
    Step::Push(6, 7),
    Step::Push(7, 8),
    Step::Push(7, 8),
    Step::Push(8, 9),
    Step::Push(8, 9),
    Step::Push(9, 10),
    Step::Push(9, 10),
    Step::Push(10, 11),
    Step::Push(10, 11),
    Step::Push(11, 12),
    Step::Push(11, 12),
    Step::Push(12, 13),
    Step::Push(12, 13),
    Step::Push(13, 14),
    Step::Push(13, 14),
    Step::Push(14, 15),
    Step::Push(14, 15),
];

// Whether the print of tags that hold each other twice is as long as it must be, and read again as
// it stands.
fn doubled_is_read(alloc: Global, keeps: bool) -> bool {
    let mut first = String::new(alloc);
    let mut second = String::new(alloc);
    print_page(alloc, SIXTEEN, keeps, &DOUBLING, &mut first) == Some(16)
        && first.len() == 917_378
        && print_page(alloc, first.as_str(), keeps, &[], &mut second) == Some(131_054)
        && second.as_str() == first.as_str()
}

#[test]
fn prints_are_read_again(rt: HostRuntime) {
    for (at, row) in ROWS.iter().enumerate() {
        let (_, _, print, _, _) = row;
        assert!(rt; is_read_as(rt.alloc(), row, false), "row {at}: {print}");
        assert!(rt;
            is_read_as(rt.alloc(), row, true),
            "row {at}, kept: {print}"
        );
    }
}

#[test]
fn a_doubled_print_is_read_again(rt: HostRuntime) {
    assert!(rt; doubled_is_read(rt.alloc(), false));
}

#[test]
fn a_doubled_print_is_kept(rt: HostRuntime) {
    assert!(rt; doubled_is_read(rt.alloc(), true));
}
