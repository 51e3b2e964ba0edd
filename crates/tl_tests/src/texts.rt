//! Texts of nodes, what they hold as markup, and searches below them.
use crate::page_edits::Edit;
use crate::show::{Look, Row, all_show};
use std::test::Fail;

#[rattlefmt::skip]
static TEXTS: [Row; 11] = [
    ("<p>hello <p>nested element</p></p>", &[], Look::Texts(0), "hello nested element | hello <p>nested element</p> | <p>hello <p>nested element</p></p> / hello nested element | hello <p>nested element</p>"),
    ("abc <p>test<span>a</span></p> def", &[], Look::Texts(1), "testa | test<span>a</span> | <p>test<span>a</span></p> / testa | test<span>a</span>"),
    ("<!-- d -->x", &[], Look::Texts(0), " | <!-- d --> | <!-- d --> / no tag"),
    ("<!-- d -->x", &[], Look::Texts(1), "x | x | x / no tag"),
    ("<command>x</command>", &[], Look::Texts(0), "x | x | <command> / x | x"),
    ("<p>x</p>", &[Edit::Push(0, 1)], Look::Texts(0), "xx | xx | <p>xx</p> / xx | xx"),
    ("<br>x", &[Edit::Push(0, 1)], Look::Texts(0), "x | x | <br> / x | x"),
    ("<a><b></b></a>", &[Edit::Push(1, 0)], Look::Texts(0), "cycle 1 | cycle 1 | cycle 1 / cycle 1 | cycle 1"),
    ("<a></a>", &[Edit::Push(0, 0)], Look::Texts(0), "cycle 0 | cycle 0 | cycle 0 / cycle 0 | cycle 0"),
    ("<br>", &[Edit::Push(0, 0)], Look::Texts(0), "cycle 0 | <br> | <br> / cycle 0 | <br>"),
    ("<a>x<!-- y --><b></b></a>", &[Edit::Push(3, 9)], Look::Texts(0), "dangling 9 | dangling 9 | dangling 9 / dangling 9 | dangling 9"),
];

#[test]
fn texts_and_markup(rt: HostRuntime) -> Result<(), Fail> {
    all_show(&rt, rt.alloc(), &TEXTS)
}

const NESTED: &str = "<p>a<b>c</b></p>";

const DANGLING: &str = "<a><b></b></a>";

#[rattlefmt::skip]
static SEARCHES: [Row; 6] = [
    (NESTED, &[], Look::Search(0, "c"), " a b c: 3 / a b: none"),
    (NESTED, &[], Look::Search(0, "b"), " a b: 2 / a b: 2"),
    (DANGLING, &[Edit::Push(0, 9)], Look::Search(0, "?"), " b: dangling 9 / b: dangling 9"),
    (DANGLING, &[Edit::Push(0, 9)], Look::Search(0, "b"), " b: 1 / b: 1"),
    ("<a></a>", &[Edit::Push(0, 0)], Look::Search(0, "?"), " a: cycle 0 / a: none"),
    ("<a></a>", &[Edit::Push(0, 9)], Look::Search(0, "?"), ": dangling 9 /: dangling 9"),
];

#[test]
fn searches(rt: HostRuntime) -> Result<(), Fail> {
    all_show(&rt, rt.alloc(), &SEARCHES)
}

#[rattlefmt::skip]
static TOP_TEXTS: [Row; 8] = [
    ("", &[], Look::Text, ""),
    ("a<p>b<br>c</p><!-- d -->", &[], Look::Text, "abc"),
    ("<p>\u{e9}</p> <q>x</q>", &[], Look::Text, "\u{e9} x"),
    ("<command>x</command>y", &[], Look::Text, "xy"),
    // The bytes of one letter, in two texts.
    ("a<b></b>c", &[Edit::Put(0, b"\xc3"), Edit::Put(2, b"\xa9")], Look::Text, "\u{fffd}\u{fffd}"),
    ("<p>x</p>", &[Edit::Push(0, 1)], Look::Text, "xx"),
    ("a<b></b>", &[Edit::Push(1, 1)], Look::Text, "cycle 1"),
    ("a<b></b>", &[Edit::Root(0, 7)], Look::Text, "dangling 7"),
];

#[test]
fn texts_of_documents(rt: HostRuntime) -> Result<(), Fail> {
    all_show(&rt, rt.alloc(), &TOP_TEXTS)
}
