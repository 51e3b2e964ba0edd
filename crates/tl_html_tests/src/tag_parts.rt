//! Tags, and what they say.
use std::alloc::Global;
use tl_html_parts::{AttributeParts, TagParts, tag_parts};

// A tag with its name, its keys and values, and whether it has the self-closing flag.
struct Row {
    tag: &'static [u8],
    name: &'static [u8],
    attributes: &'static [(&'static [u8], &'static [u8])],
    closes: bool,
}

#[rattlefmt::skip]
static ROWS: [Row; 24] = [
    Row { tag: b"<p>", name: b"p", attributes: &[], closes: false },
    Row { tag: b"</p>", name: b"p", attributes: &[], closes: false },
    Row { tag: b"<Br/>", name: b"Br", attributes: &[], closes: true },
    Row { tag: b"<br / >", name: b"br", attributes: &[], closes: false },
    Row { tag: b"<br //>", name: b"br", attributes: &[], closes: true },
    Row { tag: b"</p a=b/>", name: b"p", attributes: &[(b"a", b"b/")], closes: false },
    Row { tag: b"<p a=b/>", name: b"p", attributes: &[(b"a", b"b/")], closes: false },
    Row { tag: b"<p a=b />", name: b"p", attributes: &[(b"a", b"b")], closes: true },
    Row { tag: b"<p a=\"b\"/>", name: b"p", attributes: &[(b"a", b"b")], closes: true },
    Row { tag: b"<p a='\">' b>", name: b"p", attributes: &[(b"a", b"\">"), (b"b", b"")], closes: false },
    Row { tag: b"<p a=\"'>\"b='c'>", name: b"p", attributes: &[(b"a", b"'>"), (b"b", b"c")], closes: false },
    Row { tag: b"<p =a>", name: b"p", attributes: &[(b"=a", b"")], closes: false },
    Row { tag: b"<p ==a>", name: b"p", attributes: &[(b"=", b"a")], closes: false },
    Row { tag: b"<p a=>", name: b"p", attributes: &[(b"a", b"")], closes: false },
    Row { tag: b"<p a=/>", name: b"p", attributes: &[(b"a", b"/")], closes: false },
    Row { tag: b"<p a = b c>", name: b"p", attributes: &[(b"a", b"b"), (b"c", b"")], closes: false },
    Row { tag: b"<p a b=c>", name: b"p", attributes: &[(b"a", b""), (b"b", b"c")], closes: false },
    Row { tag: b"<p/a/b=c>", name: b"p", attributes: &[(b"a", b""), (b"b", b"c")], closes: false },
    Row { tag: b"<p a=b=c&amp>", name: b"p", attributes: &[(b"a", b"b=c&amp")], closes: false },
    Row { tag: b"<p\r\na\r=\rb\r\n>", name: b"p", attributes: &[(b"a", b"b")], closes: false },
    Row { tag: b"<p a='b\r\nc'>", name: b"p", attributes: &[(b"a", b"b\r\nc")], closes: false },
    Row { tag: b"<p a A a=b>", name: b"p", attributes: &[(b"a", b""), (b"A", b""), (b"a", b"b")], closes: false },
    Row { tag: b"<a\"b='c>", name: b"a\"b='c", attributes: &[], closes: false },
    Row { tag: b"<p a\x00=\x00>", name: b"p", attributes: &[(b"a\x00", b"\x00")], closes: false },
];

// Whether attributes are these.
fn are(found: &[AttributeParts<'_>], attributes: &[(&[u8], &[u8])]) -> bool {
    if found.len() != attributes.len() {
        return false;
    }
    for (attribute, (key, value)) in found.iter().zip(attributes) {
        if attribute.key != *key || attribute.value != *value {
            return false;
        }
    }
    true
}

fn is_row(parts: &TagParts<'_>, row: &Row) -> bool {
    parts.name == row.name && parts.closes == row.closes && are(&parts.attributes, row.attributes)
}

fn is_read(alloc: Global, row: &Row) -> bool {
    match tag_parts(alloc, row.tag) {
        Ok(parts) => is_row(&parts, row),
        Err(_) => false,
    }
}

#[test]
fn tags_are_read(rt: HostRuntime) {
    for row in &ROWS {
        assert!(rt; is_read(rt.alloc(), row));
    }
}
