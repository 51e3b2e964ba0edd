//! Tags with one attribute more, and with another name.

use crate::answers::is_found;
use std::alloc::Global;
use tl_patch::{with_attribute, with_end_name, with_start_name};

// A tag, a key and a value, and the tag with them.
#[rattlefmt::skip]
static ADDED_ROWS: [(&[u8], &[u8], &[u8], Option<&[u8]>); 12] = [
    (b"<a/b=c>", b"k", b"v", Some(b"<a k=\"v\"/b=c>")),
    (b"<A>", b"href", b"/x?a=1&b", Some(b"<A href=\"/x?a=1&amp;b\">")),
    (b"<br/>", b"k", b"say \"hi\"", Some(b"<br k=\"say &quot;hi&quot;\"/>")),
    (b"<p\r\nid=1>", b"k", b"a\rb", Some(b"<p k=\"a&#13;b\"\r\nid=1>")),
    (b"<p id=1 id=2>", b"class", b"", Some(b"<p class=\"\" id=1 id=2>")),
    (b"<p <>", b"data-x", b"<b>", Some(b"<p data-x=\"&lt;b&gt;\" <>")),
    (b"<x-y", b"k", b"v", None),
    (b"</p>", b"k", b"v", None),
    (b"<p>", b"a=b", b"v", None),
    (b"<p>", b"K", b"v", None),
    (b"<p>", b"", b"v", None),
    (b"<p>", b"k", b"\0", None),
];

// A start tag, a name, and the tag with that name; the same of an end tag.
#[rattlefmt::skip]
static START_ROWS: [(&[u8], &[u8], Option<&[u8]>); 6] = [
    (b"<p>", b"div", Some(b"<div>")),
    (b"<P\nid=1 />", b"x-y", Some(b"<x-y\nid=1 />")),
    (b"<a/b>", b"h1", Some(b"<h1/b>")),
    (b"<p>", b"1", None),
    (b"<p>", b"A", None),
    (b"</p>", b"div", None),
];

#[rattlefmt::skip]
static END_ROWS: [(&[u8], &[u8], Option<&[u8]>); 4] = [
    (b"</p>", b"div", Some(b"</div>")),
    (b"</P >", b"div", Some(b"</div >")),
    (b"</>", b"div", None),
    (b"<p>", b"div", None),
];

fn is_added(alloc: Global, row: &(&[u8], &[u8], &[u8], Option<&[u8]>)) -> bool {
    is_found(with_attribute(alloc, row.0, row.1, row.2), row.3)
}

#[test]
fn a_tag_gets_an_attribute(rt: HostRuntime) {
    for row in &ADDED_ROWS {
        assert!(rt; is_added(rt.alloc(), row));
    }
}

#[test]
fn a_start_tag_gets_a_name(rt: HostRuntime) {
    for (tag, name, wanted) in &START_ROWS {
        assert!(rt; is_found(with_start_name(rt.alloc(), tag, name), *wanted));
    }
}

#[test]
fn an_end_tag_gets_a_name(rt: HostRuntime) {
    for (tag, name, wanted) in &END_ROWS {
        assert!(rt; is_found(with_end_name(rt.alloc(), tag, name), *wanted));
    }
}
