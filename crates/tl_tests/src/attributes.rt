//! The calls of a tag's attributes.
use crate::page_edits::{Edit, Part};
use crate::pages::{Ask, answers};
use crate::show::{Look, Row, all_show, first_of, show_pairs, show_value};
use std::alloc::{AllocError, Global};
use std::test::Fail;
use tl::{Attributes, Bytes, ParserOptions, VDom};

const PAGE: &str = "<p a=1 b=2 c=3 id=i class=k a=4>";

const BARE: &str = "<p a b=>";

const UPPER: &str = "<p ID=i CLASS=k>";

const CLASS: &str = "<p class=\"a b\tb\">";

#[rattlefmt::skip]
static LOOKS: [Row; 40] = [
    (PAGE, &[], Look::Key("a"), "4, there"),
    (PAGE, &[], Look::Key("c"), "3, there"),
    (PAGE, &[], Look::Key("id"), "i, there"),
    (PAGE, &[], Look::Key("class"), "k, there"),
    (PAGE, &[], Look::Key("d"), "no key"),
    (PAGE, &[], Look::Key("A"), "no key"),
    (BARE, &[], Look::Key("a"), "no value, there"),
    (BARE, &[], Look::Key("b"), ", there"),
    (BARE, &[], Look::Key("id"), "no key"),
    (UPPER, &[], Look::Key("id"), "no key"),
    (UPPER, &[], Look::Key("CLASS"), "k, there"),
    ("<p>", &[], Look::Measures, "0 of 0: no value, no value, empty"),
    ("<p class=k>", &[], Look::Measures, "0 of 1: no value, k"),
    ("<p id='' a>", &[], Look::Measures, "1 of 2: , no value"),
    ("<p ID=i b=2>", &[], Look::Measures, "2 of 2: no value, no value"),
    (PAGE, &[], Look::Measures, "3 of 5: i, k, on the heap"),
    (CLASS, &[], Look::Members, "|a|b|b"),
    ("<p id=a>", &[], Look::Members, "none"),
    ("<p class=' '>", &[], Look::Members, ""),
    (CLASS, &[], Look::Member(b"b"), "true"),
    (CLASS, &[], Look::Member(b"A"), "false"),
    (CLASS, &[], Look::Member(b""), "false"),
    (CLASS, &[], Look::Member(b"a b"), "false"),
    // A class that is not UTF-8 has no members.
    ("<p class=k>", &[Edit::Part(0, Part::Bytes("class", b"\xff"))], Look::Members, "none"),
    ("<p class=k>", &[Edit::Part(0, Part::Bytes("class", b"\xff"))], Look::Member(b"\xff"), "false"),
    ("<p class=k>", &[Edit::Part(0, Part::Bytes("class", b"\xff"))], Look::Member(b"k"), "false"),
    // Of an id the length and its first and last byte. Of a member the number of a bit: what is
    // left by 32 of the first byte, three times the last and five times the length.
    (PAGE, &[], Look::Summary, "1 105 105; 17/unknown; all"),
    (UPPER, &[], Look::Summary, "absent;/unknown; all"),
    ("<p id=ab>", &[], Look::Summary, "2 97 98;/unknown; all"),
    ("<p id=''>", &[], Look::Summary, "0 0 0;/unknown; all"),
    ("<p id>", &[], Look::Summary, "absent;/unknown; all"),
    ("<p class>", &[], Look::Summary, "absent;/unknown; all"),
    ("<p class=''>", &[], Look::Summary, "absent;/unknown; all"),
    ("<p class=' '>", &[], Look::Summary, "absent;/unknown; all"),
    (CLASS, &[], Look::Summary, "absent; 9 13/unknown; all"),
    // Two members with one bit.
    ("<p class='k ab'>", &[], Look::Summary, "absent; 17/unknown; all"),
    // Parts of a class that is not UTF-8, which has no members, and what was written over what was
    // read.
    ("<p class=k>", &[Edit::Part(0, Part::Bytes("class", b"k \xff"))], Look::Summary, "absent; 1 17/unknown; all"),
    (PAGE, &[Edit::Part(0, Part::Value("id", "abc"))], Look::Summary, "3 97 99; 17/unknown; all"),
    (PAGE, &[Edit::Part(0, Part::Unset("id")), Edit::Part(0, Part::Value("class", "b")),], Look::Summary, "absent; 13/unknown; all"),
    (PAGE, &[Edit::Part(0, Part::Bare("class"))], Look::Summary, "1 105 105;/unknown; all"),
];

#[test]
fn calls_that_look(rt: HostRuntime) -> Result<(), Fail> {
    all_show(&rt, rt.alloc(), &LOOKS)
}

// A call that writes.
enum Call {
    Remove(&'static str),
    RemoveValue(&'static str),
    Insert(&'static str, &'static str),
    InsertBare(&'static str),
    // Writes a value, where there is one, through what is lent.
    Write(&'static str),
}

// Calls in turn on a clone of the page's attributes; for each what it takes out, and the pairs that
// are left.
#[rattlefmt::skip]
static CALLS: [(&[Call], &str); 12] = [
    (&[Call::Remove("a")], "4 | c=3 b=2 id=i class=k\n"),
    (&[Call::Remove("class")], "k | a=4 b=2 c=3 id=i\n"),
    (&[Call::RemoveValue("b")], "2 | a=4 b c=3 id=i class=k\n"),
    (&[Call::RemoveValue("id")], "i | a=4 b=2 c=3 class=k\n"),
    (&[Call::Insert("b", "x")], " | a=4 b=x c=3 id=i class=k\n"),
    (&[Call::Insert("d", "y")], " | a=4 b=2 c=3 d=y id=i class=k\n"),
    (&[Call::Write("a")], " | a=w b=2 c=3 id=i class=k\n"),
    (&[Call::Write("c")], " | a=4 b=2 c=w id=i class=k\n"),
    (&[Call::Write("id")], " | a=4 b=2 c=3 id=w class=k\n"),
    (&[Call::Write("class")], " | a=4 b=2 c=3 id=i class=w\n"),
    (&[Call::Write("ID")], " | a=4 b=2 c=3 id=i class=k\n"),
    (&[Call::Remove("a"), Call::RemoveValue("id"), Call::InsertBare("class"), Call::InsertBare("c"), Call::RemoveValue("c"), Call::Remove("a"),], "4 | c=3 b=2 id=i class=k\ni | c=3 b=2 class=k\n | c=3 b=2\n | c b=2\nno value | c b=2\nno key | c b=2\n"),
];

fn remove(
    attributes: &mut Attributes<'_>,
    key: &'static str,
    out: &mut String,
) -> Result<(), AllocError> {
    match attributes.remove(Bytes::from(key)) {
        Some(value) => show_value(value.as_ref(), out),
        None => out.push_str("no key"),
    }
}

fn remove_value(
    attributes: &mut Attributes<'_>,
    key: &'static str,
    out: &mut String,
) -> Result<(), AllocError> {
    let value = attributes.remove_value(Bytes::from(key));
    show_value(value.as_ref(), out)
}

fn write(attributes: &mut Attributes<'_>, key: &'static str) {
    if let Some(Some(value)) = attributes.get_mut(Bytes::from(key)) {
        *value = Bytes::from("w");
    }
}

// Makes a call, and writes what it takes out.
fn make(attributes: &mut Attributes<'_>, call: &Call, out: &mut String) -> Result<(), AllocError> {
    match call {
        Call::Remove(key) => remove(attributes, key, out),
        Call::RemoveValue(key) => remove_value(attributes, key, out),
        Call::Insert(key, value) => {
            attributes.insert(Bytes::from(*key), Some(Bytes::from(*value)))
        }
        Call::InsertBare(key) => attributes.insert(Bytes::from(*key), None),
        Call::Write(key) => {
            write(attributes, key);
            Ok(())
        }
    }
}

fn make_all(
    attributes: &mut Attributes<'_>,
    calls: &[Call],
    out: &mut String,
) -> Result<(), AllocError> {
    for call in calls {
        make(attributes, call, out)?;
        out.push_str(" |")?;
        show_pairs(attributes, out)?;
        out.push('\n')?;
    }
    Ok(())
}

// Whether the calls in turn, on a clone of the attributes of the first tag, show this.
#[derive(Clone, Copy)]
struct Calls<'r> {
    calls: &'r [Call],
    wanted: &'r str,
}

fn calls_show(
    alloc: Global,
    attributes: &mut Attributes<'_>,
    asked: &Calls<'_>,
) -> Result<bool, Fail> {
    let mut out = String::new(alloc);
    make_all(attributes, asked.calls, &mut out)?;
    Ok(out.as_str() == asked.wanted)
}

impl Ask for Calls<'_> {
    fn is_answered(&self, alloc: Global, document: &VDom<'_>) -> Result<bool, Fail> {
        let mut attributes = first_of(document)?.clone()?;
        calls_show(alloc, &mut attributes, self)
    }
}

#[test]
fn calls_that_write(rt: HostRuntime) -> Result<(), Fail> {
    for (calls, wanted) in &CALLS {
        let asked = Calls { calls, wanted };
        let shown = answers(rt.alloc(), PAGE, ParserOptions::new(), &[], &asked)?;
        assert!(rt; shown, "{wanted}");
    }
    Ok(())
}
