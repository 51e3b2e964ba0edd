//! Nodes of trees as JSON and in columns, headings, and where links lead.
use crate::trees::STANDARD;
use json::Writer;
use std::alloc::Global;
use tl_tree::Tree;
use tl_tree_extract::{
    Columns, Field, document_base, headings, is_external, json_of, resolved, write_fields,
    write_json, write_json_document, write_outline,
};
use url::Url;

// A page, the number of a node (`html`, `head` and `body` are the first three), and its JSON.
#[rattlefmt::skip]
static NODES: [(&[u8], usize, &[u8]); 6] = [
    (
        b"<p id=a class='x \"y\"'>b<br>", 3,
        b"{\"attributes\":{\"id\":\"a\",\"class\":\"x \\\"y\\\"\"},\"name\":\"p\",\"node\":3,\"start\":0,\
        \"end\":22,\"children\":[{\"attributes\":{},\"name\":null,\"node\":4,\"start\":22,\"end\":23,\
        \"text\":\"b\"},{\"attributes\":{},\"name\":\"br\",\"node\":5,\"start\":23,\"end\":27,\
        \"children\":[]}]}",
    ),
    (
        b"<svg xlink:href=q>", 3,
        b"{\"attributes\":{\"xlink:href\":\"q\"},\"name\":\"svg\",\"namespace\":\"svg\",\"node\":3,\
        \"start\":0,\"end\":18,\"children\":[]}",
    ),
    (
        b"<!doctype html SYSTEM 's'>", 0,
        b"{\"attributes\":{},\"name\":null,\"node\":0,\"start\":0,\"end\":26,\"doctype\":\"html\",\
        \"system\":\"s\"}",
    ),
    (
        b"<!--c\xff-->", 0,
        b"{\"attributes\":{},\"name\":null,\"node\":0,\"start\":0,\"end\":9,\"comment\":\"c\xef\xbf\xbd\"}",
    ),
    (
        b"<template>t", 2,
        b"{\"attributes\":{},\"name\":\"template\",\"node\":2,\"start\":0,\"end\":10,\"children\":[\
        {\"attributes\":{},\"name\":null,\"node\":3,\"contents\":[{\"attributes\":{},\"name\":null,\
        \"node\":4,\"start\":10,\"end\":11,\"text\":\"t\"}]}]}",
    ),
    (b"", 9, b"null"),
];

// A page, and its headings.
#[rattlefmt::skip]
static OUTLINES: [(&[u8], &[u8]); 3] = [
    (b"<h1>a<br>b</h1><p>c<h3> d <i>e</i></h3>", b"h1 a b\n    h3 d e\n"),
    (b"<template><h1>a</h1></template><svg><h2>", b"  h2 \n"),
    (b"<svg><g><h1/>", b"h1 \n"),
];

// A page, how columns are told apart, and the name, the class and the text of two nodes of it.
#[rattlefmt::skip]
static RECORDS: [(&[u8], Columns, &[u8]); 3] = [
    (b"<p class='a\tb'>c  d</p>", Columns::Tabs, b"p\ta\\tb\tc d\nbody\t\tc d\n"),
    (b"<p class='a,b'>\"c\"</p>", Columns::Commas, b"p,\"a,b\",\"\"\"c\"\"\"\nbody,,\"\"\"c\"\"\"\n"),
    (b"<p class='\\'>", Columns::Tabs, b"p\t\\\\\t\nbody\t\t\n"),
];

// The URL of a page, the `href` of its `base`, a link, where that leads (nothing where it is no
// URL), and whether that is another host than the base has.
#[rattlefmt::skip]
static TARGETS: [(&str, Option<&[u8]>, &[u8], &[u8], bool); 5] = [
    ("http://a.b/c/d", None, b"e?f", b"http://a.b/c/e?f", false),
    ("http://a.b/c/d", Some(b"/x/"), b"e", b"http://a.b/x/e", false),
    ("http://a.b/c/d", Some(b"//g/"), b"http://a.b/", b"http://a.b/", true),
    ("http://a.b/c/d", Some(b"data:x"), b"mailto:e", b"mailto:e", true),
    ("http://a.b/c/d", Some(b"http://["), b"http://[", b"", false),
];

fn is_json(alloc: Global, tree: &Tree<'_>, number: usize, json: &[u8]) -> bool {
    let mut writer = Writer::new(Vec::new(alloc));
    write_json(alloc, tree, number, &mut writer).is_ok() && writer.into_inner().as_slice() == json
}

fn is_array_of(text: &[u8], json: &[u8]) -> bool {
    match text {
        [b'[', node @ .., b']'] => node == json,
        _ => false,
    }
}

fn is_in_array(alloc: Global, tree: &Tree<'_>, number: usize, json: &[u8]) -> bool {
    match json_of(alloc, tree, &[number]) {
        Ok(text) => is_array_of(text.as_slice(), json),
        Err(_) => false,
    }
}

fn is_node(alloc: Global, page: &[u8], number: usize, json: &[u8]) -> bool {
    match Tree::read(alloc, page, STANDARD) {
        Ok(tree) => {
            is_json(alloc, &tree, number, json) && is_in_array(alloc, &tree, number, json)
        }
        Err(_) => false,
    }
}

// Whether this is the JSON of all of a page.
fn is_document(alloc: Global, page: &[u8], json: &[u8]) -> bool {
    let Ok(tree) = Tree::read(alloc, page, STANDARD) else {
        return false;
    };
    let mut writer = Writer::new(Vec::new(alloc));
    write_json_document(alloc, &tree, &mut writer).is_ok() && writer.into_inner().as_slice() == json
}

fn is_outline(alloc: Global, page: &[u8], outline: &[u8]) -> bool {
    let Ok(tree) = Tree::read(alloc, page, STANDARD) else {
        return false;
    };
    let mut out = Vec::new(alloc);
    write_outline(alloc, &tree, &mut out).is_ok() && out.as_slice() == outline
}

// The number and the level of the last heading of a page.
fn last_heading(alloc: Global, page: &[u8]) -> Option<(usize, u8)> {
    let tree = Tree::read(alloc, page, STANDARD).ok()?;
    let headings = headings(alloc, &tree).ok()?;
    let last = headings.last()?;
    Some((last.node, last.level))
}

static FIELDS: [Field<'static>; 3] = [Field::Name, Field::Attribute(b"class"), Field::Text];

fn are_records(alloc: Global, page: &[u8], columns: Columns, records: &[u8]) -> bool {
    let Ok(tree) = Tree::read(alloc, page, STANDARD) else {
        return false;
    };
    let mut out = Vec::new(alloc);
    write_fields(alloc, &tree, &[3, 2], &FIELDS, columns, &mut out).is_ok()
        && out.as_slice() == records
}

fn is_target(alloc: Global, base: &Url, link: &[u8], leads: &[u8], leaves: bool) -> bool {
    match resolved(alloc, base, link) {
        Ok(Some(url)) => url.as_str().as_bytes() == leads && is_external(base, &url) == leaves,
        Ok(None) => leads.is_empty(),
        Err(_) => false,
    }
}

fn is_resolved(
    alloc: Global,
    page: &str,
    href: Option<&[u8]>,
    link: &[u8],
    leads: &[u8],
    leaves: bool,
) -> bool {
    let Ok(page) = Url::parse(alloc, page) else {
        return false;
    };
    match document_base(alloc, &page, href) {
        Ok(base) => is_target(alloc, &base, link, leads, leaves),
        Err(_) => false,
    }
}

#[test]
fn nodes_are_written_as_json(rt: HostRuntime) {
    for (page, number, json) in &NODES {
        assert!(rt; is_node(rt.alloc(), page, *number, json));
    }
    assert!(rt;
        is_document(
            rt.alloc(),
            b"<!--a-->",
            b"[{\"attributes\":{},\"name\":null,\
        \"node\":0,\"start\":0,\"end\":8,\"comment\":\"a\"},{\"attributes\":{},\"name\":\"html\",\
        \"node\":1,\"children\":[{\"attributes\":{},\"name\":\"head\",\"node\":2,\"children\":[]},\
        {\"attributes\":{},\"name\":\"body\",\"node\":3,\"children\":[]}]}]"
        )
    );
}

#[test]
fn headings_are_written(rt: HostRuntime) {
    for (page, outline) in &OUTLINES {
        assert!(rt; is_outline(rt.alloc(), page, outline));
    }
    assert!(rt; last_heading(rt.alloc(), b"<h1>a</h1><h6>b") == Some((5, 6)));
}

#[test]
fn fields_are_written(rt: HostRuntime) {
    for (page, columns, records) in &RECORDS {
        assert!(rt; are_records(rt.alloc(), page, *columns, records));
    }
}

#[test]
fn links_are_resolved(rt: HostRuntime) {
    for (page, href, link, leads, leaves) in &TARGETS {
        assert!(rt; is_resolved(rt.alloc(), page, *href, link, leads, *leaves));
    }
}
