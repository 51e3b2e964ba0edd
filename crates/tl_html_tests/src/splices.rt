//! Pages with splices, and texts as they are written.

use crate::answers::is_found;
use std::alloc::Global;
use tl_patch::{Splice, with_splices, write_text};

// A part of a page, from one place until another, and what stands there instead.
type Part = (usize, usize, &'static [u8]);

// A page, two splices, and what comes of it.
#[rattlefmt::skip]
static SPLICE_ROWS: [(&[u8], Part, Part, Option<&[u8]>); 7] = [
    (b"abcdef", (1, 2, b"X"), (4, 6, b"Y"), Some(b"aXcdY")),
    (b"abcdef", (0, 0, b"X"), (6, 6, b"Y"), Some(b"XabcdefY")),
    (b"abcdef", (2, 2, b"X"), (2, 2, b"Y"), Some(b"abXYcdef")),
    (b"abcdef", (0, 6, b""), (6, 6, b""), Some(b"")),
    (b"abcdef", (2, 3, b"X"), (2, 4, b"Y"), None),
    (b"abcdef", (3, 2, b"X"), (4, 4, b"Y"), None),
    (b"abcdef", (0, 1, b"X"), (4, 7, b"Y"), None),
];

// A text, and as it is written.
#[rattlefmt::skip]
static TEXT_ROWS: [(&[u8], &[u8]); 4] = [
    (b"", b""),
    (b"a < b & c > d", b"a &lt; b &amp; c > d"),
    (b"a\r\nb", b"a&#13;\nb"),
    (b"\"\0\xC3\xA9", b"\"\0\xC3\xA9"),
];

fn splice(part: &Part) -> Splice<'static> {
    Splice {
        from: part.0,
        until: part.1,
        put: part.2,
    }
}

fn is_spliced(alloc: Global, row: &(&[u8], Part, Part, Option<&[u8]>)) -> bool {
    let found = with_splices(alloc, row.0, &[splice(&row.1), splice(&row.2)]);
    is_found(found, row.3)
}

fn is_written(alloc: Global, text: &[u8], wanted: &[u8]) -> bool {
    let mut out = Vec::new(alloc);
    write_text(text, &mut out).is_ok() && out.as_slice() == wanted
}

#[test]
fn pages_are_spliced(rt: HostRuntime) {
    for row in &SPLICE_ROWS {
        assert!(rt; is_spliced(rt.alloc(), row));
    }
}

#[test]
fn texts_are_written(rt: HostRuntime) {
    for (text, wanted) in &TEXT_ROWS {
        assert!(rt; is_written(rt.alloc(), text, wanted));
    }
}
