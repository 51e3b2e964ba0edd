//! Documents that are edited, and what they print then.
use crate::page_edits::{Edit, Part};
use crate::pages::owned_page;
use crate::show::{Look, Row, all_show};
use std::alloc::Global;
use std::mem;
use std::test::Fail;
use tl::{ParserOptions, VDom, parse};

const LINK: &str = "<div><p href=\"/about\" id=\"find-me\">Hello world</p></div>";

const EDITABLE: &str = "<span contenteditable=\"true\">testing</a>";

#[rattlefmt::skip]
static EDITED: [Row; 26] = [
    ("<a><b></b></a>", &[Edit::Push(1, 0)], Look::Print, "cycle 0"),
    ("<a></a>", &[Edit::Push(0, 0)], Look::Print, "cycle 0"),
    ("<a><b></b></a>", &[Edit::Push(1, 9)], Look::Print, "dangling 9"),
    ("<a><b></b></a>", &[Edit::Pull(0, 0), Edit::Push(0, 9), Edit::Push(0, 1)], Look::Print, "dangling 9"),
    ("<a></a><b></b>", &[Edit::Push(1, 0)], Look::Print, "<a></a><b><a></a></b>"),
    ("<p>x</p>", &[Edit::Push(0, 1)], Look::Print, "<p>xx</p>"),
    ("<p>x</p>", &[Edit::Push(0, 1), Edit::Push(0, 7), Edit::Push(0, 0)], Look::Print, "dangling 7"),
    ("<br>x", &[Edit::Push(0, 1)], Look::Print, "<br>x"),
    ("<br>x", &[Edit::Push(0, 0)], Look::Print, "<br>x"),
    ("<p>a<b></b>c</p>", &[Edit::Put(2, b"")], Look::Print, "<p>ac</p>"),
    // The bytes of one letter, in two texts.
    ("<p>a<b></b>c</p>", &[Edit::Put(2, b""), Edit::Put(1, b"\xc3"), Edit::Put(3, b"\xa9"),], Look::Print, "<p>\u{fffd}\u{fffd}</p>"),
    ("<head><p>Replace me</p> World</head>", &[Edit::Put(1, b"Hello")], Look::Print, "<head>Hello World</head>"),
    ("<br>x", &[Edit::Part(0, Part::Name("p"))], Look::Print, "<p></p>x"),
    (LINK, &[Edit::Part(1, Part::Value("href", "/"))], Look::Print, "<div><p href=\"/\" id=\"find-me\">Hello world</p></div>"),
    (LINK, &[Edit::Part(1, Part::Value("id", "z"))], Look::Print, "<div><p href=\"/about\" id=\"z\">Hello world</p></div>"),
    (EDITABLE, &[Edit::Part(0, Part::Bare("contenteditable"))], Look::Print, "<span contenteditable>testing</span>"),
    (EDITABLE, &[Edit::Part(0, Part::Bare("contenteditable")), Edit::Part(0, Part::Unset("contenteditable")),], Look::Print, "<span>testing</span>"),
    (EDITABLE, &[Edit::Part(0, Part::Unset("contenteditable"))], Look::Print, "<span>testing</span>"),
    ("<p a=1 b=2 c=3 id=i class=k a=4>", &[Edit::Part(0, Part::Unset("a"))], Look::Print, "<p c=\"3\" b=\"2\" id=\"i\" class=\"k\"></p>"),
    ("<p>x</p>", &[Edit::Text(1, "y")], Look::Print, "<p>y</p>"),
    ("<!-- a -->x", &[Edit::Comment(0, "<!-- b -->")], Look::Print, "<!-- b -->x"),
    ("a<b>c</b>", &[Edit::SwapTop], Look::Print, "<b>c</b>a"),
    ("<a><b></b></a>x", &[Edit::Root(0, 2)], Look::Print, "xx"),
    ("<a></a>", &[Edit::Root(0, 7)], Look::Print, "dangling 7"),
    ("a<b>c</b>", &[Edit::SwapNodes], Look::Print, "<b>c</b>a"),
    ("<a></a>", &[Edit::Root(0, 4294967295)], Look::Print, "dangling 4294967295"),
];

#[test]
fn prints_after_edits(rt: HostRuntime) -> Result<(), Fail> {
    all_show(&rt, rt.alloc(), &EDITED)
}

fn prints(alloc: Global, document: &VDom<'static>, wanted: &str) -> Result<bool, Fail> {
    let print = document.outer_html(alloc)?;
    Ok(print.as_str() == wanted)
}

const FIRST: &str = "<p>a</p>";

const SECOND: &str = "b";

// Whether each of the documents of the two pages prints the other page once their tables were
// exchanged.
fn exchanges(
    alloc: Global,
    first: &mut VDom<'static>,
    second: &mut VDom<'static>,
) -> Result<bool, Fail> {
    mem::swap(first.parser_mut(), second.parser_mut());
    Ok(prints(alloc, first, SECOND)? && prints(alloc, second, FIRST)?)
}

fn borrowed_exchange(alloc: Global) -> Result<bool, Fail> {
    let mut first = parse(alloc, FIRST, ParserOptions::new())?;
    let mut second = parse(alloc, SECOND, ParserOptions::new())?;
    exchanges(alloc, &mut first, &mut second)
}

fn kept_exchange(alloc: Global) -> Result<bool, Fail> {
    let mut first = owned_page(alloc, FIRST, ParserOptions::new())?;
    let mut second = owned_page(alloc, SECOND, ParserOptions::new())?;
    exchanges(alloc, first.get_mut_ref(), second.get_mut_ref())
}

#[test]
fn exchanged_tables(rt: HostRuntime) -> Result<(), Fail> {
    let borrowed = borrowed_exchange(rt.alloc())?;
    assert!(rt; borrowed);
    let kept = kept_exchange(rt.alloc())?;
    assert!(rt; kept);
    Ok(())
}
