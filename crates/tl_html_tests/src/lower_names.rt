//! Names in a page, and what they are read as.

use std::alloc::Global;
use tl_html_parts::lower_name;

// A name in a page, and the name that it is read as.
#[rattlefmt::skip]
static NAME_ROWS: [(&[u8], &[u8]); 9] = [
    (b"", b""),
    (b"div", b"div"),
    (b"H1", b"h1"),
    (b"my-Name_x:y", b"my-name_x:y"),
    (b"@click", b"@click"),
    (b"a\0", b"a\xEF\xBF\xBD"),
    (b"x+Y", b"x+y"),
    (b"a<B", b"a<b"),
    (b"caf\xC3\xA9", b"caf\xC3\xA9"),
];

fn is_name(alloc: Global, raw: &[u8], name: &[u8]) -> bool {
    match lower_name(alloc, raw) {
        Ok(read) => read.as_bytes() == name,
        Err(_) => false,
    }
}

#[test]
fn names_are_read_in_lower_case(rt: HostRuntime) {
    for (raw, name) in &NAME_ROWS {
        assert!(rt; is_name(rt.alloc(), raw, name));
    }
}
