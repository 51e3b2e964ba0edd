//! Selectors in documents: where they hold, and what queries and ranges give.
use std::alloc::Global;
use std::fmt::Write;
use std::test::Fail;
use tl::errors::TreeError;
use tl::queryselector::{QuerySelectorIterator, Selector};
use tl::{
    Element, Node, NodeHandle, Parser, ParserOptions, QueryIterable, VDom, parse_query_selector,
};
use tl_tests::page_edits::{Edit, Part};
use tl_tests::pages::{Ask, AskBoth, answers, both_answer};

// Writes the numbers that a query gives, each with a space after it.
fn show_all(found: QuerySelectorIterator<'_, '_>, out: &mut String) -> bool {
    for handle in found {
        if write!(out, "{} ", handle.get_inner()).is_err() {
            return false;
        }
    }
    true
}

// Writes what is answered that a selector gives which was read before.
fn show_new(answer: Result<QuerySelectorIterator<'_, '_>, TreeError>, out: &mut String) -> bool {
    match answer {
        Ok(found) => show_all(found, out),
        Err(error) => write!(out, "{error:?}").is_ok(),
    }
}

// Reads a selector, and then asks a document or a tag.
fn ask<'a, 'b, Q: QueryIterable<'a>>(
    alloc: Global,
    parser: &'b Parser<'a>,
    collection: &Q,
    selector: &'b str,
    out: &mut String,
) -> bool {
    match parse_query_selector(alloc, selector) {
        Ok(Some(selector)) => {
            show_new(
                QuerySelectorIterator::new(selector, parser, collection),
                out,
            )
        }
        Ok(None) => out.push_str("none").is_ok(),
        Err(_) => false,
    }
}

// Writes what a query answers.
fn show_found(
    answer: Result<Option<QuerySelectorIterator<'_, '_>>, TreeError>,
    out: &mut String,
) -> bool {
    match answer {
        Ok(Some(found)) => show_all(found, out),
        Ok(None) => out.push_str("none").is_ok(),
        Err(error) => write!(out, "{error:?}").is_ok(),
    }
}

// Queries a tag, if the node of this number is one.
fn query_tag(
    alloc: Global,
    document: &VDom<'_>,
    number: u32,
    selector: &str,
    out: &mut String,
) -> bool {
    let parser = document.parser();
    match NodeHandle::new(number).get(parser) {
        Some(Node::Tag(tag)) => show_found(tag.query_selector(alloc, parser, selector), out),
        _ => false,
    }
}

// Queries a tag by a selector that was read before.
fn ask_tag<'d>(
    alloc: Global,
    document: &'d VDom<'_>,
    number: u32,
    selector: &'d str,
    out: &mut String,
) -> bool {
    let parser = document.parser();
    match NodeHandle::new(number).get(parser) {
        Some(Node::Tag(tag)) => ask(alloc, parser, tag, selector, out),
        _ => false,
    }
}

// Where a query is made.
enum Place {
    Document,
    Tag(u32),
}

// A page, what is done to its document, where a query is made then, its selector, and what it
// gives.
type Row = (
    &'static str,
    &'static [Edit],
    Place,
    &'static str,
    &'static str,
);

// Whether a query gives what it must, by the text and by the selector that was read before.
#[derive(Clone, Copy)]
struct Gives<'r> {
    place: &'r Place,
    selector: &'r str,
    wanted: &'r str,
}

fn query(alloc: Global, document: &VDom<'_>, asked: &Gives<'_>, out: &mut String) -> bool {
    match asked.place {
        Place::Document => show_found(document.query_selector(alloc, asked.selector), out),
        Place::Tag(number) => query_tag(alloc, document, *number, asked.selector, out),
    }
}

fn query_by_new(alloc: Global, document: &VDom<'_>, asked: &Gives<'_>, out: &mut String) -> bool {
    match asked.place {
        Place::Document => ask(alloc, document.parser(), document, asked.selector, out),
        Place::Tag(number) => ask_tag(alloc, document, *number, asked.selector, out),
    }
}

impl Ask for Gives<'_> {
    fn is_answered(&self, alloc: Global, document: &VDom<'_>) -> Result<bool, Fail> {
        let mut by_text = String::new(alloc);
        let mut by_new = String::new(alloc);
        Ok(
            query(alloc, document, self, &mut by_text)
                && by_text.as_str() == self.wanted
                && query_by_new(alloc, document, self, &mut by_new)
                && by_new.as_str() == self.wanted,
        )
    }
}

#[rattlefmt::skip]
static ROWS: [Row; 63] = [
    // Ancestors that the top list doesn't reach count as others do.
    ("<a><b></b></a>x", &[Edit::Root(0, 2)], Place::Document, "a > b", "1 "),
    ("<a><b></b></a>x", &[Edit::Root(0, 2)], Place::Document, "a b", "1 "),
    ("<div><a><a></a></a></div>", &[], Place::Tag(0), "a", "1 2 "),
    ("<a><b></b></a><c></c>", &[Edit::Push(0, 1), Edit::Pull(0, 0), Edit::Push(0, 1), Edit::Pull(0, 0),], Place::Tag(0), "*", "1 "),
    ("<a><b></b></a><c></c>", &[Edit::Pull(0, 0), Edit::Push(0, 2), Edit::Push(0, 1)], Place::Tag(0), "*", ""),
    ("<a><b></b></a>", &[Edit::Push(1, 0)], Place::Tag(0), "a", "Cycle(NodeHandle(1))"),
    ("<a><b></b></a>", &[Edit::Push(1, 0)], Place::Tag(0), "a b", "Cycle(NodeHandle(1))"),
    ("<a></a>", &[Edit::Push(0, 7)], Place::Tag(0), "a b", "Dangling(NodeHandle(7))"),
    ("<a><b></b></a>", &[Edit::Push(1, 0)], Place::Tag(0), "a,", "none"),
    ("<a><b></b></a>", &[Edit::Push(1, 0)], Place::Document, "a", "0 "),
    ("<a><b></b></a>", &[Edit::Pull(0, 0), Edit::Push(0, 9), Edit::Push(0, 1)], Place::Tag(0), "*", ""),
    ("<a><b></b></a>", &[Edit::Push(0, 9)], Place::Tag(0), "*", "Dangling(NodeHandle(9))"),
    ("<p>a</p><p>b</p>", &[], Place::Document, "p", "0 2 "),
    ("<p>a</p>", &[], Place::Document, "q", ""),
    ("<p>a</p>", &[], Place::Document, ",a", "none"),
    ("<div><meta property=\"og:title\" content=\"hello\" /></div>", &[], Place::Document, "meta[property=\"og:title\"]", "1 "),
    ("<p><div class=\"z\"><div class=\"y\">PASS</div></div></p>", &[], Place::Tag(0), "div.y", "2 "),
    ("<div><img src=\"cool-image.png\" /></div>", &[], Place::Document, "img[src]", "1 "),
    ("<p a=\"x y\">", &[], Place::Document, "[a~=y]", "0 "),
    ("<p a=\"x y\">", &[], Place::Document, "[a^=x]", "0 "),
    ("<p a=\"x y\">", &[], Place::Document, "[a$=y]", "0 "),
    ("<p a=\"x y\">", &[], Place::Document, "[a*=]", "0 "),
    ("<p a=\"x y\">", &[], Place::Document, "[a~=]", ""),
    ("<p a>", &[], Place::Document, "[a]", "0 "),
    ("<p a>", &[], Place::Document, "[a=]", ""),
    ("<p a>", &[], Place::Document, "[a^=]", ""),
    ("<p a=\"\">", &[], Place::Document, "[a=]", "0 "),
    ("<p a=\"\">", &[], Place::Document, "[a^=]", "0 "),
    ("<p a=\"x\u{a0}y\">", &[], Place::Document, "[a~=x]", "0 "),
    ("<p a=\"y\u{85}x\u{2003}z\">", &[], Place::Document, "[a~=x]", "0 "),
    ("<p a=\"y\u{1c}x\u{1c}z\">", &[], Place::Document, "[a~=x]", ""),
    ("<p id=i class=\"k l\">x</p>", &[], Place::Document, "#i", "0 "),
    ("<p id=i class=\"k l\">x</p>", &[], Place::Document, ".l", "0 "),
    ("<p id=i class=\"k l\">x</p>", &[], Place::Document, "[id]", "0 "),
    ("<p id=i class=\"k l\">x</p>", &[], Place::Document, "[class=k]", ""),
    ("<p id=i class=\"k l\">x</p>", &[], Place::Document, "[class~=k]", "0 "),
    ("<p id=i class=\"k l\">x</p>", &[], Place::Document, "*", "0 1 "),
    ("<p id=i>", &[], Place::Document, "#I", ""),
    // The length and the ends of two ids are the same, and so is the bit of two members.
    ("<p id=axc><p id=abc>", &[], Place::Document, "p#abc", "1 "),
    ("<p class=\"k m\"><p class=ab>", &[], Place::Document, "p.ab", "1 "),
    ("<p>", &[Edit::Part(0, Part::Insert("id", "a"))], Place::Document, "#a", "0 "),
    ("<p>", &[Edit::Part(0, Part::Insert("class", "k"))], Place::Document, "p.k", "0 "),
    ("<p id=\"\" class=\"\">", &[], Place::Document, "#", "0 "),
    ("<p id=\"\" class=\"\">", &[], Place::Document, ".", ""),
    ("<P>x</P><p>y</p>", &[], Place::Document, "p", "2 "),
    ("<div><p></p></div>", &[], Place::Document, "div p", "1 "),
    ("<div><p></p></div>", &[], Place::Document, "div > p", "1 "),
    ("<div><p></p></div>", &[], Place::Tag(0), "div p", "1 "),
    ("<div><p></p></div>", &[], Place::Tag(0), "div > p", "1 "),
    ("<a><b><c></c></b></a>", &[], Place::Document, "a c", "2 "),
    ("<a><b><c></c></b></a>", &[], Place::Document, "a > c", ""),
    ("<a><b><c></c></b></a>", &[], Place::Document, "a > b > c", "2 "),
    ("<a><b><c></c></b></a>", &[], Place::Document, "a b, c", "1 2 "),
    ("<a>x<b></b></a>", &[], Place::Document, "a > *", "1 2 "),
    ("<a></a><b></b>", &[Edit::Push(1, 0)], Place::Document, "b > a", "0 "),
    ("<a></a>", &[Edit::Push(0, 0)], Place::Document, "a > a", "0 "),
    ("<a></a>", &[Edit::Push(0, 0)], Place::Document, "a a", "0 "),
    ("<a><b></b></a>", &[Edit::Pull(0, 0)], Place::Document, "a b", ""),
    ("<a><b></b></a>", &[Edit::Pull(0, 0)], Place::Document, "a, b", "0 1 "),
    ("<a></a><b><c></c></b><d></d>", &[Edit::Push(3, 0)], Place::Document, "d > a, b c", "0 2 "),
    ("<a></a>", &[Edit::Push(0, 7)], Place::Document, "a > *", ""),
    ("", &[], Place::Document, "*", ""),
    ("<a></a>", &[], Place::Document, "", "none"),
];

#[test]
fn queries_give_what_selectors_hold_at(rt: HostRuntime) -> Result<(), Fail> {
    for (page, edits, place, selector, wanted) in &ROWS {
        let asked = Gives {
            place,
            selector,
            wanted,
        };
        let given = answers(rt.alloc(), page, ParserOptions::new(), edits, &asked)?;
        assert!(rt; given, "{page} {selector:?}");
    }
    Ok(())
}

// Writes the boundaries of the children of a tag, and how many nodes its range has.
fn show_range(document: &VDom<'_>, number: u32, out: &mut String) -> bool {
    let parser = document.parser();
    match NodeHandle::new(number).get(parser) {
        Some(Node::Tag(tag)) => {
            let children = tag.children();
            let boundaries = children.boundaries(parser);
            let end = children.end(parser);
            let count = children.all(parser).map(|nodes| nodes.len());
            write!(
                out,
                "{:?} {end:?} {boundaries:?} {count:?}",
                children.start()
            )
            .is_ok()
        }
        _ => false,
    }
}

// A page, what is done to its document, the number of a tag, and its start, end, boundaries and
// number of nodes.
type Range = (&'static str, &'static [Edit], u32, &'static str);

#[derive(Clone, Copy)]
struct HasRange<'r> {
    number: u32,
    wanted: &'r str,
}

impl Ask for HasRange<'_> {
    fn is_answered(&self, alloc: Global, document: &VDom<'_>) -> Result<bool, Fail> {
        let mut out = String::new(alloc);
        Ok(show_range(document, self.number, &mut out) && out.as_str() == self.wanted)
    }
}

#[rattlefmt::skip]
static RANGES: [Range; 12] = [
    ("<a><b></b></a><c></c>", &[], 0, "Some(1) Ok(Some(1)) Ok(Some((1, 1))) Ok(1)"),
    ("<a></a>", &[], 0, "None Ok(None) Ok(None) Ok(0)"),
    ("<div id=\"a\"><div id=\"b\"><span>Hello</span><span>World</span><span>!</span></div></div>", &[], 0, "Some(1) Ok(Some(7)) Ok(Some((1, 7))) Ok(7)"),
    ("<a><b></b></a><c></c>", &[Edit::Pull(0, 0), Edit::Push(0, 2), Edit::Push(0, 1)], 0, "Some(2) Ok(Some(1)) Ok(Some((2, 1))) Ok(0)"),
    ("<a><b></b></a><c></c><d></d>", &[Edit::Pull(0, 0), Edit::Push(0, 3), Edit::Push(0, 1)], 0, "Some(3) Ok(Some(1)) Ok(Some((3, 1))) Ok(0)"),
    ("<a><b></b></a>", &[Edit::Pull(0, 0), Edit::Push(0, 9), Edit::Push(0, 1)], 0, "Some(9) Ok(Some(1)) Ok(Some((9, 1))) Ok(0)"),
    ("<a><b></b></a>", &[Edit::Push(1, 0)], 0, "Some(1) Err(Cycle(NodeHandle(1))) Err(Cycle(NodeHandle(1))) Err(Cycle(NodeHandle(1)))"),
    ("<a><b></b></a>", &[Edit::Push(1, 0)], 1, "Some(0) Err(Cycle(NodeHandle(0))) Err(Cycle(NodeHandle(0))) Err(Cycle(NodeHandle(0)))"),
    ("<a></a>", &[Edit::Push(0, 0)], 0, "Some(0) Err(Cycle(NodeHandle(0))) Err(Cycle(NodeHandle(0))) Err(Cycle(NodeHandle(0)))"),
    ("<a></a>", &[Edit::Push(0, 7)], 0, "Some(7) Err(Dangling(NodeHandle(7))) Err(Dangling(NodeHandle(7))) Err(Dangling(NodeHandle(7)))"),
    // The way falls, from the second tag to the first, and ends there or goes on to a handle that
    // dangles.
    ("<a></a><b></b><c></c>", &[Edit::Push(2, 1), Edit::Push(1, 0)], 2, "Some(1) Ok(Some(0)) Ok(Some((1, 0))) Ok(0)"),
    ("<a></a><b></b><c></c>", &[Edit::Push(2, 1), Edit::Push(1, 0), Edit::Push(0, 9)], 2, "Some(1) Err(Dangling(NodeHandle(9))) Err(Dangling(NodeHandle(9))) Err(Dangling(NodeHandle(9)))"),
];

#[test]
fn ranges_end_at_the_last_on_the_way(rt: HostRuntime) -> Result<(), Fail> {
    for (page, edits, number, wanted) in &RANGES {
        let asked = HasRange {
            number: *number,
            wanted,
        };
        let has = answers(rt.alloc(), page, ParserOptions::new(), edits, &asked)?;
        assert!(rt; has, "{page} {wanted:?}");
    }
    Ok(())
}

// Writes the number of a node and its name or bytes.
fn show_item(node: &Node<'_>, number: u32, out: &mut String) -> bool {
    let bytes = match node {
        Node::Tag(tag) => tag.name(),
        Node::Raw(bytes) => bytes,
        Node::Comment(bytes) => bytes,
    };
    write!(out, "{number} {bytes:?}").is_ok()
}

// Writes where a collection begins, how many nodes it has, and the one at a place.
fn show_collection<'p, 'a, Q: QueryIterable<'a>>(
    collection: &'p Q,
    parser: &'p Parser<'a>,
    place: usize,
    out: &mut String,
) -> bool {
    let start = collection.start();
    let len = collection.len(parser);
    if write!(out, "{start:?} {len:?} ").is_err() {
        return false;
    }
    match collection.get(parser, place) {
        Some((node, handle)) => show_item(node, handle.get_inner(), out),
        None => out.push_str("none").is_ok(),
    }
}

// A page, what is done to its document, what is asked of it, a place, and what is answered there.
type Collection = (&'static str, &'static [Edit], Place, usize, &'static str);

// What is asked of a document or a tag, and what is answered there.
#[derive(Clone, Copy)]
struct Asked<'r> {
    asked: &'r Place,
    place: usize,
    wanted: &'r str,
}

// Whether it is answered so by this table.
fn is_asked<'p, 'a>(
    alloc: Global,
    document: &'p VDom<'a>,
    parser: &'p Parser<'a>,
    asked: &Asked<'_>,
) -> bool {
    let mut out = String::new(alloc);
    let shown = match asked.asked {
        Place::Document => show_collection(document, parser, asked.place, &mut out),
        Place::Tag(number) => match NodeHandle::new(*number).get(document.parser()) {
            Some(Node::Tag(tag)) => show_collection(tag, parser, asked.place, &mut out),
            _ => false,
        },
    };
    shown && out.as_str() == asked.wanted
}

impl Ask for Asked<'_> {
    fn is_answered(&self, alloc: Global, document: &VDom<'_>) -> Result<bool, Fail> {
        Ok(is_asked(alloc, document, document.parser(), self))
    }
}

#[rattlefmt::skip]
static COLLECTIONS: [Collection; 14] = [
    ("", &[], Place::Document, 0, "Some(0) Ok(0) none"),
    ("<a><b>x</b></a><c></c>", &[], Place::Document, 0, "Some(0) Ok(4) 0 Bytes(\"a\")"),
    ("<a><b>x</b></a><c></c>", &[], Place::Document, 3, "Some(0) Ok(4) 3 Bytes(\"c\")"),
    ("<a><b>x</b></a><c></c>", &[], Place::Document, 4, "Some(0) Ok(4) none"),
    ("<a><b>x</b></a><c></c>", &[], Place::Tag(0), 0, "Some(1) Ok(2) 1 Bytes(\"b\")"),
    ("<a><b>x</b></a><c></c>", &[], Place::Tag(0), 1, "Some(1) Ok(2) 2 Bytes(\"x\")"),
    // A place past the range is looked up in the table.
    ("<a><b>x</b></a><c></c>", &[], Place::Tag(0), 2, "Some(1) Ok(2) 3 Bytes(\"c\")"),
    ("<a><b>x</b></a><c></c>", &[], Place::Tag(0), 3, "Some(1) Ok(2) none"),
    ("<a><b>x</b></a><c></c>", &[], Place::Tag(3), 0, "None Ok(0) none"),
    ("<a><b></b></a><c></c>", &[Edit::Pull(0, 0), Edit::Push(0, 2), Edit::Push(0, 1)], Place::Tag(0), 0, "Some(2) Ok(0) 2 Bytes(\"c\")"),
    ("<a></a>", &[Edit::Push(0, 9)], Place::Tag(0), 0, "Some(9) Err(Dangling(NodeHandle(9))) none"),
    ("<a><b></b></a>", &[Edit::Push(1, 0)], Place::Tag(0), 0, "Some(1) Err(Cycle(NodeHandle(1))) 1 Bytes(\"b\")"),
    ("<a></a><b></b>", &[Edit::Push(1, 0)], Place::Tag(1), 0, "Some(0) Ok(1) 0 Bytes(\"a\")"),
    ("<a></a><b></b><c></c>", &[Edit::Push(2, 1), Edit::Push(1, 0), Edit::Push(0, 9)], Place::Tag(2), 0, "Some(1) Err(Dangling(NodeHandle(9))) 1 Bytes(\"b\")"),
];

#[test]
fn collections_are_asked(rt: HostRuntime) -> Result<(), Fail> {
    for (page, edits, asked, place, wanted) in &COLLECTIONS {
        let asked = Asked {
            asked,
            place: *place,
            wanted,
        };
        let answered = answers(rt.alloc(), page, ParserOptions::new(), edits, &asked)?;
        assert!(rt; answered, "{page} {wanted:?}");
    }
    Ok(())
}

// Questions by the table of a page of one text: a document counts by its own table, a tag by the
// handed one.
#[rattlefmt::skip]
static HANDED: [Collection; 4] = [
    ("<a><b></b></a>", &[], Place::Document, 0, "Some(0) Ok(2) 0 Bytes(\"y\")"),
    ("<a><b></b></a>", &[], Place::Document, 1, "Some(0) Ok(2) none"),
    ("<a><b></b></a>", &[], Place::Tag(0), 0, "Some(1) Err(Dangling(NodeHandle(1))) none"),
    ("<a></a>", &[], Place::Tag(0), 0, "None Ok(0) none"),
];

impl AskBoth for Asked<'_> {
    fn is_answered<'a>(
        &self,
        alloc: Global,
        first: &VDom<'a>,
        second: &VDom<'a>,
    ) -> Result<bool, Fail> {
        Ok(is_asked(alloc, first, second.parser(), self))
    }
}

#[test]
fn collections_are_asked_by_another_table(rt: HostRuntime) -> Result<(), Fail> {
    let options = ParserOptions::new();
    for (page, _, asked, place, wanted) in &HANDED {
        let asked = Asked {
            asked,
            place: *place,
            wanted,
        };
        let answered = both_answer(rt.alloc(), &(*page, options), &("y", options), &asked)?;
        assert!(rt; answered, "{page} {wanted:?}");
    }
    Ok(())
}

// What is read of a node that was found.
enum Reading {
    // What stands at a key that may be gone before the page.
    Value(&'static [u8]),
    Text,
}

// A page, where a query is made, its selector, and what is read of the first node that it gives.
type Found = (&'static str, Place, &'static str, Reading, &'static str);

// The first handle that a query gives.
fn first_found(
    alloc: Global,
    document: &VDom<'_>,
    place: &Place,
    text: &str,
) -> Option<NodeHandle> {
    match place {
        Place::Document => document.query_selector(alloc, text).ok()??.next(),
        Place::Tag(number) => {
            let parser = document.parser();
            let tag = NodeHandle::new(*number).get(parser)?.as_tag()?;
            tag.query_selector(alloc, parser, text).ok()??.next()
        }
    }
}

// Whether this is read of the first node that a query gives.
#[derive(Clone, Copy)]
struct FirstReads<'r> {
    place: &'r Place,
    selector: &'r str,
    reading: &'r Reading,
    wanted: &'r str,
}

// Whether this is read of a node.
fn reads<'a>(alloc: Global, node: &Node<'a>, parser: &Parser<'a>, asked: &FirstReads<'_>) -> bool {
    match asked.reading {
        Reading::Value(key) => match node.attribute(key) {
            Some(Some(value)) => value == asked.wanted.as_bytes(),
            _ => false,
        },
        Reading::Text => match node.inner_text(alloc, parser) {
            Ok(text) => text.as_str() == asked.wanted,
            Err(_) => false,
        },
    }
}

impl Ask for FirstReads<'_> {
    fn is_answered(&self, alloc: Global, document: &VDom<'_>) -> Result<bool, Fail> {
        let parser = document.parser();
        let Some(handle) = first_found(alloc, document, self.place, self.selector) else {
            return Ok(false);
        };
        match handle.get(parser) {
            Some(node) => Ok(reads(alloc, node, parser, self)),
            None => Ok(false),
        }
    }
}

#[rattlefmt::skip]
static FOUND: [Found; 4] = [
    ("<div><meta property=\"og:title\" content=\"hello\" /></div>", Place::Document, "meta[property=\"og:title\"]", Reading::Value(b"content"), "hello"),
    ("<p><div class=\"z\"><div class=\"y\">PASS</div></div></p>", Place::Tag(0), "div.y", Reading::Text, "PASS"),
    ("<p id=i class=\"k l\">x</p>", Place::Document, "p", Reading::Value(b"class"), "k l"),
    ("<p id=i class=\"k l\">x</p>", Place::Document, "p", Reading::Value(b"id"), "i"),
];

#[test]
fn nodes_that_are_found_are_read(rt: HostRuntime) -> Result<(), Fail> {
    for (page, place, selector, reading, wanted) in &FOUND {
        let asked = FirstReads {
            place,
            selector,
            reading,
            wanted,
        };
        let read = answers(rt.alloc(), page, ParserOptions::new(), &[], &asked)?;
        assert!(rt; read, "{page} {selector}");
    }
    Ok(())
}

// What a selector answers at a node alone, and by its table.
fn show_match(parser: &Parser<'_>, selector: &Selector<'_>, number: u32, out: &mut String) -> bool {
    let handle = NodeHandle::new(number);
    let alone = match handle.get(parser) {
        Some(node) => Some(selector.matches(node)),
        None => None,
    };
    write!(out, "{alone:?} {:?}", selector.matches_in(parser, handle)).is_ok()
}

// A page, a selector, the number of a node, and what is answered at it alone and by the table.
type Match = (&'static str, &'static str, u32, &'static str);

#[derive(Clone, Copy)]
struct Matches<'r> {
    selector: &'r str,
    number: u32,
    wanted: &'r str,
}

impl Ask for Matches<'_> {
    fn is_answered(&self, alloc: Global, document: &VDom<'_>) -> Result<bool, Fail> {
        let Some(selector) = parse_query_selector(alloc, self.selector)? else {
            return Ok(false);
        };
        let mut out = String::new(alloc);
        let shown = show_match(document.parser(), &selector, self.number, &mut out);
        Ok(shown && out.as_str() == self.wanted)
    }
}

#[rattlefmt::skip]
static MATCHES: [Match; 13] = [
    ("<a><b></b></a>", "* *", 0, "Some(false) Ok(false)"),
    ("<a><b></b></a>", "* *", 1, "Some(false) Ok(true)"),
    ("<a><b></b></a>", "a > b", 1, "Some(false) Ok(true)"),
    ("<a><b></b></a>", "a > b, b", 1, "Some(true) Ok(true)"),
    ("<a><b></b></a>", "b", 1, "Some(true) Ok(true)"),
    ("<a>", "* *", 7, "None Err(Dangling(NodeHandle(7)))"),
    ("<a>", "a", 7, "None Err(Dangling(NodeHandle(7)))"),
    ("x<!-- a -->", "*", 1, "Some(true) Ok(true)"),
    ("x<!-- a -->", "x", 0, "Some(false) Ok(false)"),
    // Texts and comments have ancestors too.
    ("<a>x<!-- a --></a>", "a *", 1, "Some(false) Ok(true)"),
    ("<a>x<!-- a --></a>", "a > *", 2, "Some(false) Ok(true)"),
    ("<a>x<!-- a --></a>", "a > b", 1, "Some(false) Ok(false)"),
    ("x", "a b, *", 0, "Some(true) Ok(true)"),
];

#[test]
fn selectors_match_alone_and_by_the_table(rt: HostRuntime) -> Result<(), Fail> {
    for (page, selector, number, wanted) in &MATCHES {
        let asked = Matches {
            selector,
            number: *number,
            wanted,
        };
        let matched = answers(rt.alloc(), page, ParserOptions::new(), &[], &asked)?;
        assert!(rt; matched, "{page} {selector}");
    }
    Ok(())
}

// What a value that is no UTF-8 is compared with, and whether they are the same text.
static BROKEN: [(&[u8], bool); 2] = [(b"\xfe", true), (b"x", false)];

static BREAKING: [Edit; 1] = [Edit::Part(0, Part::Bytes("a", b"\xff"))];

// Whether it is answered so at a tag whose key `a` has a value that is no UTF-8.
#[derive(Clone, Copy)]
struct Compares<'r> {
    value: &'r [u8],
    wanted: bool,
}

impl Ask for Compares<'_> {
    fn is_answered(&self, _alloc: Global, document: &VDom<'_>) -> Result<bool, Fail> {
        let selector = Selector::AttributeValue(b"a", self.value);
        let answer = selector.matches_in(document.parser(), NodeHandle::new(0));
        Ok(answer == Ok(self.wanted))
    }
}

#[test]
fn broken_values_are_compared_by_their_texts(rt: HostRuntime) -> Result<(), Fail> {
    for (value, wanted) in &BROKEN {
        let asked = Compares {
            value,
            wanted: *wanted,
        };
        let compared = answers(
            rt.alloc(),
            "<p a=x>",
            ParserOptions::new(),
            &BREAKING,
            &asked,
        )?;
        assert!(rt; compared, "{value:?}");
    }
    Ok(())
}

// Whether a query of the handed table passes over the numbers that it lacks.
fn passes_over<'a>(alloc: Global, other: &VDom<'a>, document: &VDom<'a>) -> bool {
    let mut out = String::new(alloc);
    let parser = other.parser();
    match QuerySelectorIterator::new(Selector::All, parser, document) {
        Ok(found) => show_all(found, &mut out) && out.as_str() == "0 ",
        Err(_) => false,
    }
}

// Whether an iterator stays at its end, and its clone gives what it had left.
fn ends(document: &VDom<'_>, alloc: Global) -> bool {
    let Ok(Some(mut found)) = document.query_selector(alloc, "* > *") else {
        return false;
    };
    let first = found.next();
    let Ok(mut copy) = found.clone() else {
        return false;
    };
    first == Some(NodeHandle::new(1))
        && copy.next() == Some(NodeHandle::new(2))
        && copy.next() == None
        && found.next() == Some(NodeHandle::new(2))
        && found.next() == None
        && found.next() == None
}

#[derive(Clone, Copy)]
struct IteratorEnds;

impl AskBoth for IteratorEnds {
    fn is_answered<'a>(
        &self,
        alloc: Global,
        first: &VDom<'a>,
        second: &VDom<'a>,
    ) -> Result<bool, Fail> {
        Ok(passes_over(alloc, second, first) && ends(first, alloc))
    }
}

#[test]
fn iterators_end(rt: HostRuntime) -> Result<(), Fail> {
    let options = ParserOptions::new();
    let page = ("<a>x<b></b></a>", options);
    let end = both_answer(rt.alloc(), &page, &("y", options), &IteratorEnds)?;
    assert!(rt; end);
    Ok(())
}
