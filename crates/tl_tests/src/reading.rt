//! Pages, and the tables that are read.
use crate::pages::{Ask, AskBoth, answers, both_answer, owned_page};
use crate::show::{Look, all_look};
use std::alloc::Global;
use std::mem::size_of;
use std::test::Fail;
use tl::errors::TreeError;
use tl::queryselector::QuerySelectorIterator;
use tl::{Bytes, HTMLTag, HTMLVersion, Node, NodeHandle, Parser, ParserOptions, VDom, parse};

#[rattlefmt::skip]
static TAGS: [(&str, &str); 23] = [
    ("", ""),
    ("abc <p>test<span>a</span></p> def", "text abc |tag p [ 2 3 ] 4 28 <p>test<span>a</span></p>|text test|tag span [ 4 ] 11 24 <span>a</span>|text a|text  def| 0 1 5"),
    ("<a><b></a></b>", "tag a [ 1 ] 0 2 <a>|tag b [ ] 3 13 <b></a></b>| 0"),
    ("<a>x</b>y</a>z", "tag a [ 1 2 ] 0 12 <a>x</b>y</a>|text x|text y|text z| 0 3"),
    ("<div><p>haha</p></div>", "tag div [ 1 ] 0 21 <div><p>haha</p></div>|tag p [ 2 ] 5 15 <p>haha</p>|text haha| 0"),
    ("<p><span>hello</span></p>", "tag p [ 1 ] 0 24 <p><span>hello</span></p>|tag span [ 2 ] 3 20 <span>hello</span>|text hello| 0"),
    ("<>x</>", "tag  [ 1 ] 0 5 <>x</>|text x| 0"),
    ("<BR>x</BR>", "tag BR [ 1 ] 0 9 <BR>x</BR>|text x| 0"),
    ("<=/Fy<=/", "text Fy| 0"),
    ("<a href=/x>y</a>", "text x>y| 0"),
    ("<br/>x</br/>", "tag br [ ] 0 4 <br/>|text x| 0 1"),
    ("<a/>x", "tag a [ ] 0 3 <a/>|text x| 0 1"),
    ("<a/b>", "text b>| 0"),
    ("<p/ >", "text  >| 0"),
    ("<a>x</a/>", "tag a [ 1 ] 0 2 <a>|text x| 0"),
    ("<br /><p>test</p>", "tag br [ ] 0 5 <br />|tag p [ 2 ] 6 16 <p>test</p>|text test| 0 1"),
    ("< p >x</p>", "tag p [ 1 ] 0 9 < p >x</p>|text x| 0"),
    ("<p>x</p >", "tag p [ 1 ] 0 2 <p>|text x| 0"),
    ("<p>abcd</p", "tag p [ 1 ] 0 9 <p>abcd</p|text abcd| 0"),
    ("<command>x</command>", "tag command [ 1 ] 0 19 <command>x</command>|text x| 0"),
    ("<p a=\"b>x", ""),
    ("<p>test</p><div><span>test2</span></div>", "tag p [ 1 ] 0 10 <p>test</p>|text test|tag div [ 3 ] 11 39 <div><span>test2</span></div>|tag span [ 4 ] 16 33 <span>test2</span>|text test2| 0 2"),
    ("<p />x", "tag p [ ] 0 4 <p />|text x| 0 1"),
];

#[rattlefmt::skip]
static ATTRIBUTES_COMMENTS_DOCTYPES: [(&str, &str); 16] = [
    ("<p a=1 b=2 c=3 id=i class=k a=4>", "tag p a=4 b=2 c=3 id=i class=k [ ] 0 31 <p a=1 b=2 c=3 id=i class=k a=4>| 0"),
    ("<p id=a id>", "tag p [ ] 0 10 <p id=a id>| 0"),
    ("<p\ta>", "tag p  a [ ] 0 4 <p\ta>| 0"),
    ("<p a/b>", "text b>| 0"),
    ("<p a/>", "tag p a [ ] 0 5 <p a/>| 0"),
    ("<p a/ b>", "text  b>| 0"),
    ("<p a=b/c>", "text c>| 0"),
    ("<!doctype/html>", "text >| 0"),
    ("<!--a", "comment | 0"),
    ("<!--->x", "comment <!--->|text x| 0 1"),
    ("<!---->x", "comment <!---->|text x| 0 1"),
    ("< !-- a -->", "comment < !-- a -->| 0"),
    ("<!-- a --> b -->", "comment <!-- a -->|text  b -->| 0 1"),
    ("<!-- element 1 --><div><div>element 3</div></div>", "comment <!-- element 1 -->|tag div [ 2 ] 18 48 <div><div>element 3</div></div>|tag div [ 3 ] 23 42 <div>element 3</div>|text element 3| 0 1"),
    ("<!DOCTYPE html PUBLIC>", "text UBLIC>| 0"),
    ("<!foo bar>", "text bar>| 0"),
];

// Pages that end too early.
#[rattlefmt::skip]
static CUT: [(&str, &str); 15] = [
    ("<", ""),
    ("<p", ""),
    ("<p ", ""),
    ("<p a", ""),
    ("<p a=", ""),
    ("<p a=\"", ""),
    ("<p a=\"b", ""),
    ("<p a=\"b\"", ""),
    ("<p>x<", "tag p [ 1 ] 0 2 <p>|text x| 0"),
    ("<p>x</", "tag p [ 1 ] 0 2 <p>|text x| 0"),
    ("<p>x</p", "tag p [ 1 ] 0 6 <p>x</p|text x| 0"),
    ("<!-", ""),
    ("<!--", "comment | 0"),
    ("<!---", "comment | 0"),
    ("<!--->", "comment <!--->| 0"),
];

#[test]
fn tables(rt: HostRuntime) -> Result<(), Fail> {
    all_look(&rt, rt.alloc(), &Look::Table, &TAGS)?;
    all_look(&rt, rt.alloc(), &Look::Table, &ATTRIBUTES_COMMENTS_DOCTYPES)?;
    all_look(&rt, rt.alloc(), &Look::Table, &CUT)
}

#[rattlefmt::skip]
static VERSIONS: [(&str, Option<HTMLVersion>); 9] = [
    ("<!DOCTYPE html PUBLIC>", Some(HTMLVersion::HTML5)),
    ("<!DOCTYPE html> hello", Some(HTMLVersion::HTML5)),
    ("<p><!doctype HTML>x</p>", Some(HTMLVersion::HTML5)),
    ("<!doctype html", Some(HTMLVersion::HTML5)),
    ("<!doctype html\u{e9}>", Some(HTMLVersion::HTML5)),
    ("<!foo bar>", None),
    ("<!doctype xhtml>", None),
    ("<! doctype html>", None),
    ("<p>x</p>", None),
];

#[derive(Clone, Copy)]
struct HasVersion(Option<HTMLVersion>);

impl Ask for HasVersion {
    fn is_answered(&self, _alloc: Global, document: &VDom<'_>) -> Result<bool, Fail> {
        Ok(document.version() == self.0)
    }
}

#[test]
fn versions(rt: HostRuntime) -> Result<(), Fail> {
    for (page, version) in &VERSIONS {
        let asked = HasVersion(*version);
        let holds = answers(rt.alloc(), page, ParserOptions::default(), &[], &asked)?;
        assert!(rt; holds, "{page}");
    }
    Ok(())
}

// Each version, and one that comes later.
#[rattlefmt::skip]
static LATER: [(HTMLVersion, HTMLVersion); 3] = [
    (HTMLVersion::HTML5, HTMLVersion::StrictHTML401),
    (HTMLVersion::StrictHTML401, HTMLVersion::TransitionalHTML401),
    (HTMLVersion::TransitionalHTML401, HTMLVersion::FramesetHTML401),
];

#[test]
fn versions_have_an_order(rt: HostRuntime) {
    for (first, later) in &LATER {
        assert!(rt; first < later, "{first:?} {later:?}");
    }
}

const NESTED: &str = "abc <p>test<span>a</span></p> def";

// A page whose table is walked for node 1 of the page above, and the print, or the number of the
// handle that dangles.
#[rattlefmt::skip]
static OVER: [(&str, Result<&str, u32>); 2] = [
    (NESTED, Ok("<p>test<span>a</span></p>")),
    ("", Err(2)),
];

fn is_wanted(made: &Result<String, TreeError>, wanted: &Result<&str, u32>) -> bool {
    match (made, wanted) {
        (Ok(print), Ok(wanted)) => print.as_str() == *wanted,
        (Err(fault), Err(number)) => *fault == TreeError::Dangling(NodeHandle::new(*number)),
        _ => false,
    }
}

// Whether the print of node 1 over the table of the other document is the one that is wanted.
#[derive(Clone, Copy)]
struct PrintsOver(&'static Result<&'static str, u32>);

impl AskBoth for PrintsOver {
    fn is_answered<'a>(
        &self,
        alloc: Global,
        first: &VDom<'a>,
        second: &VDom<'a>,
    ) -> Result<bool, Fail> {
        match NodeHandle::new(1).get(first.parser()) {
            Some(node) => Ok(is_wanted(&node.outer_html(alloc, second.parser()), self.0)),
            None => Ok(false),
        }
    }
}

#[test]
fn prints_over_tables(rt: HostRuntime) -> Result<(), Fail> {
    let options = ParserOptions::new();
    for (other, wanted) in &OVER {
        let asked = PrintsOver(wanted);
        let holds = both_answer(rt.alloc(), &(NESTED, options), &(*other, options), &asked)?;
        assert!(rt; holds, "over {other}");
    }
    Ok(())
}

// Ten thousand open tags.
fn nested_page(alloc: Global) -> Result<String, Fail> {
    let mut page = String::new(alloc);
    for _ in 0..10_000 {
        page.push_str("<p>")?;
    }
    Ok(page)
}

// The number of the only child, if there is one child.
fn only_child(node: &Node<'_>) -> Option<usize> {
    match node.children()?.top().as_slice() {
        [child] => Some(child.get_inner() as usize),
        _ => None,
    }
}

// Whether each node is the only child of the one before.
fn nest(nodes: &[Node<'_>]) -> bool {
    for number in 1..nodes.len() {
        if only_child(&nodes[number - 1]) != Some(number) {
            return false;
        }
    }
    true
}

// How many nodes a search below a node is shown.
fn shown_below<'a>(node: &Node<'a>, parser: &Parser<'a>) -> Result<usize, TreeError> {
    let mut shown = 0usize;
    node.find_node(
        parser,
        &mut |_| {
            shown = shown.saturating_add(1);
            false
        },
    )?;
    Ok(shown)
}

fn text_len<'a>(alloc: Global, node: &Node<'a>, parser: &Parser<'a>) -> Result<usize, TreeError> {
    let text = node.inner_text(alloc, parser)?;
    Ok(text.len())
}

// Whether a search below the first tag is shown all others, as are its range and queries, and its
// text is empty.
fn walks_below(alloc: Global, document: &VDom<'_>) -> Result<bool, Fail> {
    let Some(node) = document.nodes().first() else {
        return Err(Fail::from("no node"));
    };
    let Some(tag) = node.as_tag() else {
        return Err(Fail::from("no tag"));
    };
    let below = document.nodes().len() - 1;
    let shown = shown_below(node, document.parser())?;
    let text = text_len(alloc, node, document.parser())?;
    Ok(shown == below && text == 0 && finds_below(alloc, document, tag, below)?)
}

// How many nodes a query finds.
fn count(found: Option<QuerySelectorIterator<'_, '_>>) -> usize {
    let mut count = 0usize;
    if let Some(found) = found {
        for _ in found {
            count = count.saturating_add(1);
        }
    }
    count
}

// Whether the range of the first tag is all others, and queries find them.
fn finds_below<'a>(
    alloc: Global,
    document: &VDom<'a>,
    tag: &HTMLTag<'a>,
    below: usize,
) -> Result<bool, Fail> {
    let parser = document.parser();
    let children = tag.children();
    let end = children.end(parser)?;
    let all = children.all(parser).map(|nodes| nodes.len())?;
    let in_tag = count(tag.query_selector(alloc, parser, "p")?);
    let in_document = count(document.query_selector(alloc, "p")?);
    Ok(
        end.is_some_and(|last| last as usize == below)
            && all == below
            && in_tag == below
            && in_document == document.nodes().len(),
    )
}

fn print_to(alloc: Global, document: &VDom<'_>, out: &mut String) -> Result<(), Fail> {
    let print = document.outer_html(alloc)?;
    Ok(out.push_str(print.as_str())?)
}

// Whether a document has these many nodes, one in the other. Writes its print.
fn nests(
    alloc: Global,
    document: &VDom<'_>,
    nodes: usize,
    print: &mut String,
) -> Result<bool, Fail> {
    print_to(alloc, document, print)?;
    let walks = walks_below(alloc, document)?;
    Ok(
        walks
            && document.nodes().len() == nodes
            && document.children().len() == 1
            && nest(document.nodes()),
    )
}

fn borrowed_nests(
    alloc: Global,
    page: &str,
    nodes: usize,
    print: &mut String,
) -> Result<bool, Fail> {
    let document = parse(alloc, page, ParserOptions::new())?;
    nests(alloc, &document, nodes, print)
}

fn kept_nests(alloc: Global, page: &str, nodes: usize, print: &mut String) -> Result<bool, Fail> {
    let guard = owned_page(alloc, page, ParserOptions::new())?;
    nests(alloc, guard.get_ref(), nodes, print)
}

// Whether a page is read both ways as these many nodes, one in the other. Writes its print.
fn both_nest(alloc: Global, page: &str, nodes: usize, print: &mut String) -> Result<bool, Fail> {
    let mut kept = String::new(alloc);
    Ok(
        borrowed_nests(alloc, page, nodes, print)?
            && kept_nests(alloc, page, nodes, &mut kept)?
            && kept.as_str() == print.as_str(),
    )
}

#[test]
fn deep_nesting(rt: HostRuntime) -> Result<(), Fail> {
    let page = nested_page(rt.alloc())?;
    let mut print = String::new(rt.alloc());
    let mut again = String::new(rt.alloc());
    let open = both_nest(rt.alloc(), page.as_str(), 10_000, &mut print)?;
    let closed = both_nest(rt.alloc(), print.as_str(), 10_000, &mut again)?;
    assert!(rt; open && print.len() == 70_000);
    assert!(rt; closed && again.as_str() == print.as_str());
    Ok(())
}

#[test]
fn sizes(rt: HostRuntime) {
    assert!(rt; size_of::<Bytes<'static>>() <= 32);
    assert!(rt; size_of::<Node<'static>>() <= 64);
}
