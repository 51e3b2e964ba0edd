//! Open tags, and what the next tag closes.
use std::alloc::{AllocError, Global};
use tl_html_balance::{OpenTags, PutIn, TagName};

// The names of open tags, the outermost first; a start tag; how many it closes.
#[rattlefmt::skip]
static STARTS: [(&str, &str, usize); 50] = [
    ("", "p", 0),
    ("html head", "p", 1),
    ("html head", "title", 0),
    ("html head title", "p", 0),
    ("ul li", "li", 1),
    ("ul li b", "li", 2),
    ("ul li ul", "li", 0),
    ("ul li div p", "li", 3),
    ("ul li section", "li", 0),
    ("dl dt", "dd", 1),
    ("dl dd i", "dt", 2),
    ("p", "p", 1),
    ("p b", "div", 2),
    ("p button", "p", 0),
    ("p table td", "p", 0),
    ("p object", "p", 0),
    ("p", "b", 0),
    ("p", "table", 1),
    ("h1", "h2", 1),
    ("h1 b", "h2", 0),
    ("select option", "option", 1),
    ("select optgroup option", "optgroup", 2),
    ("select option", "div", 0),
    ("select option b", "option", 0),
    ("select optgroup option", "hr", 2),
    ("button b", "button", 2),
    ("button table", "button", 0),
    ("a b", "a", 2),
    ("a div", "a", 0),
    ("nobr", "nobr", 1),
    ("ruby rb", "rt", 1),
    ("ruby rtc", "rt", 0),
    ("ruby rtc rt", "rb", 2),
    ("rb", "rt", 0),
    ("ruby table rb", "rt", 0),
    ("table tbody tr td", "tr", 2),
    ("table tbody tr td b", "td", 2),
    ("table tr td", "tbody", 2),
    ("table tr td table", "tr", 0),
    ("table colgroup", "col", 0),
    ("table caption", "col", 1),
    ("table tbody", "colgroup", 1),
    ("table tr", "table", 2),
    ("table tr td", "table", 0),
    ("p svg", "p", 0),
    ("p svg foreignobject", "p", 0),
    ("svg foreignobject p", "p", 1),
    ("p math", "div", 0),
    ("ul li x-y", "li", 2),
    ("p span", "x-y", 0),
];

// The same for an end tag, and what is put in.
#[rattlefmt::skip]
static ENDS: [(&str, &str, usize, PutIn); 34] = [
    ("", "div", 0, PutIn::Nothing),
    ("div", "div", 1, PutIn::Nothing),
    ("div p b", "div", 3, PutIn::Nothing),
    ("div table td", "div", 0, PutIn::Nothing),
    ("div svg", "div", 0, PutIn::Nothing),
    ("p b", "p", 2, PutIn::Nothing),
    ("", "p", 0, PutIn::Paragraph),
    ("p button", "p", 0, PutIn::Paragraph),
    ("svg", "p", 0, PutIn::Nothing),
    ("div", "br", 0, PutIn::LineBreak),
    ("svg", "br", 0, PutIn::LineBreak),
    ("div", "img", 0, PutIn::Nothing),
    ("html body", "body", 0, PutIn::Nothing),
    ("html body", "html", 0, PutIn::Nothing),
    ("html head", "head", 1, PutIn::Nothing),
    ("ul li b", "li", 2, PutIn::Nothing),
    ("li ul", "li", 0, PutIn::Nothing),
    ("li div", "li", 2, PutIn::Nothing),
    ("h1 b", "h2", 2, PutIn::Nothing),
    ("h1 table", "h1", 0, PutIn::Nothing),
    ("table tr td", "table", 3, PutIn::Nothing),
    ("table tr td b", "tr", 3, PutIn::Nothing),
    ("table tr td table", "td", 0, PutIn::Nothing),
    ("b i", "b", 2, PutIn::Nothing),
    ("b div", "b", 0, PutIn::Nothing),
    ("b p", "b", 0, PutIn::Nothing),
    ("b x-y", "b", 2, PutIn::Nothing),
    ("x-y b", "x-y", 2, PutIn::Nothing),
    ("x-y b", "x-z", 0, PutIn::Nothing),
    ("template div", "template", 2, PutIn::Nothing),
    ("select option", "select", 2, PutIn::Nothing),
    ("svg g a", "g", 2, PutIn::Nothing),
    ("a", "a", 1, PutIn::Nothing),
    ("button", "button", 1, PutIn::Nothing),
];

// The names of open tags; a start tag that is dropped, or not.
#[rattlefmt::skip]
static DROPPED: [(&str, &str, bool); 17] = [
    ("", "html", false),
    ("html", "html", true),
    ("html", "head", false),
    ("html head", "head", true),
    ("html head", "body", false),
    ("html body", "body", true),
    ("p", "body", true),
    ("form", "form", true),
    ("form template", "form", false),
    ("div", "form", false),
    ("div", "tr", true),
    ("table", "tr", false),
    ("template", "td", false),
    ("svg", "tr", false),
    ("svg", "body", false),
    ("svg foreignobject", "body", true),
    ("div", "p", false),
];

fn open_tags(alloc: Global, names: &str) -> Result<OpenTags, AllocError> {
    let mut tags = OpenTags::new(alloc);
    for name in names.split(' ') {
        if !name.is_empty() {
            tags.push(&TagName::new(name.as_bytes()))?;
        }
    }
    Ok(tags)
}

fn is_closed_by_start(alloc: Global, names: &str, name: &str, count: usize) -> bool {
    match open_tags(alloc, names) {
        Ok(tags) => tags.closed_before_start(&TagName::new(name.as_bytes())) == count,
        Err(_) => false,
    }
}

#[test]
fn start_tags(rt: HostRuntime) {
    for (names, name, closed) in &STARTS {
        assert!(rt;
            is_closed_by_start(rt.alloc(), names, name, *closed),
            "{names}, {name}"
        );
    }
}

fn is_closed_by_end(alloc: Global, names: &str, name: &str, count: usize, put_in: PutIn) -> bool {
    let name = TagName::new(name.as_bytes());
    match open_tags(alloc, names) {
        Ok(tags) => tags.closed_by_end(&name) == count && tags.put_in(&name) == put_in,
        Err(_) => false,
    }
}

#[test]
fn end_tags(rt: HostRuntime) {
    for (names, name, closed, put_in) in &ENDS {
        let is_closed = is_closed_by_end(rt.alloc(), names, name, *closed, *put_in);
        assert!(rt; is_closed, "{names}, {name}");
    }
}

fn is_dropped(alloc: Global, names: &str, name: &str) -> Option<bool> {
    match open_tags(alloc, names) {
        Ok(tags) => Some(tags.is_dropped(&TagName::new(name.as_bytes()))),
        Err(_) => None,
    }
}

#[test]
fn dropped_tags(rt: HostRuntime) {
    for (names, name, dropped) in &DROPPED {
        assert!(rt;
            is_dropped(rt.alloc(), names, name) == Some(*dropped),
            "{names}, {name}"
        );
    }
}

// How many tags a text closes that is white space alone, and one that is not.
fn closed_by_texts(alloc: Global, names: &str) -> Option<(usize, usize)> {
    match open_tags(alloc, names) {
        Ok(tags) => Some((
            tags.closed_before_text(true),
            tags.closed_before_text(false),
        )),
        Err(_) => None,
    }
}

#[test]
fn texts(rt: HostRuntime) {
    assert!(rt; closed_by_texts(rt.alloc(), "html head") == Some((0, 1)));
}

// How many tags a `div` closes in a `p` with so many `b` in it.
fn closed_in_depth(alloc: Global, depth: usize) -> Result<usize, AllocError> {
    let mut tags = open_tags(alloc, "p")?;
    for _ in 0..depth {
        tags.push(&TagName::new(b"b"))?;
    }
    Ok(tags.closed_before_start(&TagName::new(b"div")))
}

// A rule looks through 512 open tags.
#[test]
fn depth(rt: HostRuntime) {
    assert!(rt; closed_in_depth(rt.alloc(), 511) == Ok(512));
    assert!(rt; closed_in_depth(rt.alloc(), 512) == Ok(0));
}
