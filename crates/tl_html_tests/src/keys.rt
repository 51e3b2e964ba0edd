//! Start tags with a key set, and without one.

use crate::answers::is_found;
use std::alloc::Global;
use tl_patch::{with_value, without_key};

// A tag, a key and a value, and the tag with them.
#[rattlefmt::skip]
static SET_ROWS: [(&[u8], &[u8], &[u8], Option<&[u8]>); 20] = [
    (b"<p>", b"k", b"v", Some(b"<p k=\"v\">")),
    (b"<br/>", b"k", b"v", Some(b"<br k=\"v\"/>")),
    (b"<a/b=c>", b"k", b"v", Some(b"<a k=\"v\"/b=c>")),
    (b"<a href=x/>", b"href", b"new", Some(b"<a href=\"new\">")),
    (b"<a k= >", b"k", b"v", Some(b"<a k= \"v\">")),
    (b"<a k=>", b"k", b"v", Some(b"<a k=\"v\">")),
    (b"<a k>", b"k", b"v", Some(b"<a k=\"v\">")),
    (b"<a k b>", b"k", b"v", Some(b"<a k=\"v\" b>")),
    (b"<a k/>", b"k", b"v", Some(b"<a k=\"v\"/>")),
    (b"<a K = 'x' b>", b"k", b"v", Some(b"<a K = \"v\" b>")),
    (b"<p id=1 id=2>", b"id", b"n", Some(b"<p id=\"n\" id=2>")),
    (b"<a b=\"1\"c=\"2\">", b"c", b"v", Some(b"<a b=\"1\"c=\"v\">")),
    (b"<a t='x'>", b"t", b"it's \"q\" & r", Some(b"<a t=\"it's &quot;q&quot; &amp; r\">")),
    (b"<a\r\nt\t=\nx\x0C>", b"t", b"a\rb", Some(b"<a\r\nt\t=\n\"a&#13;b\"\x0C>")),
    (b"<p \0=1>", b"\xEF\xBF\xBD", b"v", Some(b"<p \0=\"v\">")),
    (b"<p>", b"K", b"v", None),
    (b"<p>", b"k", b"\0", None),
    (b"</p>", b"k", b"v", None),
    (b"<p", b"k", b"v", None),
    (b"<p>x", b"k", b"v", None),
];

// A tag, a key, and the tag without it.
#[rattlefmt::skip]
static UNSET_ROWS: [(&[u8], &[u8], Option<&[u8]>); 33] = [
    (b"<p>", b"k", Some(b"<p>")),
    (b"<p class=\"a\" id=1>", b"class", Some(b"<p id=1>")),
    (b"<p class=\"a\" id=1>", b"id", Some(b"<p class=\"a\">")),
    (b"<p CLASS=a>", b"class", Some(b"<p>")),
    (b"<p id=1 id=2>", b"id", Some(b"<p>")),
    (b"<a b=\"1\"c=\"2\">", b"b", Some(b"<a c=\"2\">")),
    (b"<a b=\"1\"c=\"2\">", b"c", Some(b"<a b=\"1\">")),
    (b"<a x b=\"1\"=c>", b"b", Some(b"<a x /=c>")),
    (b"<a x b=1 =c>", b"b", Some(b"<a x / =c>")),
    (b"<a k k=1 =c>", b"k", Some(b"<a / =c>")),
    (b"<p a=1 b/>", b"b", Some(b"<p a=1 />")),
    (b"<img src=\"x\" alt=\"y\"/>", b"alt", Some(b"<img src=\"x\" />")),
    (b"<img src=\"x\" alt=\"y\" />", b"alt", Some(b"<img src=\"x\" />")),
    (b"<p/b>", b"b", Some(b"<p/ >")),
    (b"<p/b b>", b"b", Some(b"<p/ >")),
    (b"<a k=\"1\"k=\"2\">", b"k", Some(b"<a>")),
    (b"<p k=1 id=2 K=3>", b"k", Some(b"<p id=2>")),
    (b"<P KEY=a Key>", b"key", Some(b"<P>")),
    (b"<p KEY>", b"KEY", Some(b"<p KEY>")),
    (b"<a k>", b"k", Some(b"<a>")),
    (b"<a k/b>", b"k", Some(b"<a /b>")),
    (b"<br/k/>", b"k", Some(b"<br/ />")),
    (b"<a/b=c>", b"b", Some(b"<a/ >")),
    (b"<a k=1 b=2>", b"k", Some(b"<a b=2>")),
    (b"<a b=2 k=1/>", b"k", Some(b"<a b=2>")),
    (b"<a x=1y=2>", b"y", Some(b"<a x=1y=2>")),
    (b"<a x=1y=2>", b"x", Some(b"<a>")),
    (b"<a \"x\">", b"x", Some(b"<a \"x\">")),
    (b"<a \"x\">", b"\"x\"", Some(b"<a>")),
    (b"<a b k= >", b"k", Some(b"<a b>")),
    (b"<a b=\"1\"k=\"2\"c='3'>", b"k", Some(b"<a b=\"1\" c='3'>")),
    (b"</p k>", b"k", None),
    (b"<p k", b"k", None),
];

fn is_set(alloc: Global, row: &(&[u8], &[u8], &[u8], Option<&[u8]>)) -> bool {
    is_found(with_value(alloc, row.0, row.1, row.2), row.3)
}

#[test]
fn a_key_is_set(rt: HostRuntime) {
    for row in &SET_ROWS {
        assert!(rt; is_set(rt.alloc(), row));
    }
}

#[test]
fn a_key_is_unset(rt: HostRuntime) {
    for (tag, key, wanted) in &UNSET_ROWS {
        assert!(rt; is_found(without_key(rt.alloc(), tag, key), *wanted));
    }
}
