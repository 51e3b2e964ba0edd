//! Comments, and their data.
use std::alloc::Global;
use tl_html_parts::comment;

#[rattlefmt::skip]
static ROWS: [(&[u8], &[u8]); 30] = [
    (b"<!---->", b""),
    (b"<!-->", b""),
    (b"<!--->", b""),
    (b"<!--a-->", b"a"),
    (b"<!--a--!>", b"a"),
    (b"<!----!>", b""),
    (b"<!--a---->", b"a--"),
    (b"<!--a--!-->", b"a--!"),
    (b"<!-->a-->", b">a"),
    (b"<!--<!-->", b"<!"),
    (b"<!--a\r\nb\rc-->", b"a\nb\nc"),
    (b"<!--\x00-->", b"\xEF\xBF\xBD"),
    (b"<!--\r\x00-->", b"\n\xEF\xBF\xBD"),
    (b"<!--", b""),
    (b"<!---", b""),
    (b"<!----", b""),
    (b"<!-----", b"-"),
    (b"<!--a-", b"a"),
    (b"<!--a--", b"a"),
    (b"<!--a--!", b"a"),
    (b"<!--a--!-", b"a--!"),
    (b"<!--a>", b"a>"),
    (b"<!--a->", b"a->"),
    (b"<!x>", b"x"),
    (b"<!>", b""),
    (b"<!-a", b"-a"),
    (b"<!", b""),
    (b"<?xml?>", b"?xml?"),
    (b"</ a>", b" a"),
    (b"</\x00\r\n", b"\xEF\xBF\xBD\n"),
];

fn says(alloc: Global, bytes: &[u8], wanted: &[u8]) -> bool {
    match comment(alloc, bytes) {
        Ok(found) => found.as_bytes() == wanted,
        Err(_) => false,
    }
}

#[test]
fn comments_say_their_data(rt: HostRuntime) {
    for (bytes, wanted) in &ROWS {
        assert!(rt; says(rt.alloc(), bytes, wanted), "{bytes:?}");
    }
}
