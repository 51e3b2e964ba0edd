//! Pages, and what they print.
use crate::show::{Look, all_look};
use std::test::Fail;

#[rattlefmt::skip]
static UNCHANGED: [&str; 15] = [
    "",
    "abc <p>test<span>a</span></p> def",
    "<p a b=\"c\">x</p>",
    "<html><head></head><body><img src=\"\"><br><hr></body></html>",
    "<!-- element 1 --><div><div>element 3</div></div>",
    "<p>test</p><div><span>test2</span></div>",
    "<>x</>",
    "< !-- a -->",
    "<BR>x</BR>",
    "<!---->x",
    "<!-->x",
    "<!--->x",
    "\u{feff}<p>x</p>",
    "a<p>b<br>c</p><!-- d -->",
    "<p>\u{e9}</p> <q>x</q>",
];

#[test]
fn pages_that_print_themselves(rt: HostRuntime) -> Result<(), Fail> {
    for page in &UNCHANGED {
        all_look(&rt, rt.alloc(), &Look::Print, &[(*page, *page)])?;
    }
    Ok(())
}

#[rattlefmt::skip]
static TAGS_AND_TEXTS: [(&str, &str); 17] = [
    ("a<", "a"),
    ("<a><b></a></b>", "<a><b></b></a>"),
    ("<a>x</b>y</a>z", "<a>xy</a>z"),
    ("<a href=/x>y</a>", "x>y"),
    ("<br /><p>test</p>", "<br><p>test</p>"),
    ("<br/>x</br/>", "<br>x"),
    ("<a/>", "<a></a>"),
    ("<p a=b/c>", "c>"),
    ("<base href='s'></base><link href=\"x\"/>", "<base href=\"s\"><link href=\"x\">"),
    ("<=/Fy<=/", "Fy"),
    ("< p >x</p>", "<p>x</p>"),
    ("<p>x</p >", "<p>x</p>"),
    ("<p>x< /p>y", "<p>x</p>y"),
    ("<p /x>", "x>"),
    ("<p />x", "<p></p>x"),
    ("<p><></p>=", "<p><>=</></p>"),
    ("<command>x</command>", "<command>"),
];

#[rattlefmt::skip]
static ATTRIBUTES: [(&str, &str); 19] = [
    ("<p\ta>x</p>", "<p  a>x</p>"),
    ("<p  a>x</p>", "<p a>x</p>"),
    ("<p a='x\"y'>z</p>", "<p a=\"x\"y\">z</p>"),
    ("<p a=\"x\"y\">z</p>", "<p a=\"x\" y>z</p>"),
    ("<p a='b'c=d>", "<p a=\"b\" c=\"d\"></p>"),
    ("<p a= >", "<p a=\"\"></p>"),
    ("<p a=>", "<p a=\"\"></p>"),
    ("<p a=b/>", "<p a=\"b\"></p>"),
    ("<p a/b>", "b>"),
    ("<p a/>", "<p a></p>"),
    ("<p \"x\">", "<p  x></p>"),
    ("<p a=\"b>x", ""),
    ("<p id>", "<p></p>"),
    ("<p id=a id>", "<p></p>"),
    ("<p ID=a>", "<p ID=\"a\"></p>"),
    ("<p a=b\tc>", "<p a=\"b\tc\"></p>"),
    ("<p\ra>x</p>", "<p  a>x</p>"),
    ("<p\u{c}a>x</p>", "<p  a>x</p>"),
    ("<p a=1 b=2 c=3 id=i class=k a=4>", "<p a=\"4\" b=\"2\" c=\"3\" id=\"i\" class=\"k\"></p>"),
];

#[rattlefmt::skip]
static COMMENTS_AND_DOCTYPES: [(&str, &str); 7] = [
    ("<!--a", ""),
    ("<!DOCTYPE html PUBLIC>", "UBLIC>"),
    ("<!doctype html\u{e9}>", "\u{fffd}>"),
    ("<!DOCTYPE html> hello", " hello"),
    ("<!foo bar>", "bar>"),
    ("<! doctype html>", "doctype html>"),
    ("<!<p>", "<p></p>"),
];

#[rattlefmt::skip]
static CUT: [(&str, &str); 10] = [
    ("<", ""),
    ("<!", ""),
    ("<p a=", ""),
    ("<p /", ""),
    ("<!--", ""),
    ("<!doctype html", ""),
    ("<p>abcd</p", "<p>abcd</p>"),
    ("<p>x<", "<p>x</p>"),
    ("<p>x</", "<p>x</p>"),
    ("<p>x</p", "<p>x</p>"),
];

#[test]
fn pages_that_print_others(rt: HostRuntime) -> Result<(), Fail> {
    all_look(&rt, rt.alloc(), &Look::Print, &TAGS_AND_TEXTS)?;
    all_look(&rt, rt.alloc(), &Look::Print, &ATTRIBUTES)?;
    all_look(&rt, rt.alloc(), &Look::Print, &COMMENTS_AND_DOCTYPES)?;
    all_look(&rt, rt.alloc(), &Look::Print, &CUT)
}
