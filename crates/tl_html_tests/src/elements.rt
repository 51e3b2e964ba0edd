//! The elements of pages.

use std::alloc::Global;
use tl_patch_elements::{Element, elements};

type Row = (&'static [u8], usize, usize, bool);

// A page, and its elements: the name, the numbers of the tokens where it begins and ends, and
// whether it has an end tag.
#[rattlefmt::skip]
static PAGE_ROWS: [(&[u8], &[Row]); 16] = [
    (b"", &[]),
    (b"<div><B>x</b></div>", &[(b"B", 1, 3, true), (b"div", 0, 4, true)]),
    (b"<h1>a</h2>b", &[(b"h1", 0, 2, true)]),
    (b"a</b><i>c</i>", &[(b"i", 2, 4, true)]),
    (b"<title><b></title>", &[(b"title", 0, 2, true)]),
    (b"<ul><li>a<li>b</ul>", &[(b"li", 1, 3, false), (b"li", 3, 5, false), (b"ul", 0, 5, true)]),
    (b"<body>a<body>b", &[(b"body", 0, 4, false)]),
    (b"<p>a<b>c", &[(b"b", 2, 4, false), (b"p", 0, 4, false)]),
    (b"<div><b>x</div>y", &[(b"b", 1, 3, false), (b"div", 0, 3, true)]),
    (b"<b><i>x</b>y</i>", &[(b"i", 1, 3, false), (b"b", 0, 3, true)]),
    (b"a<br>b<img src=x/>", &[(b"br", 1, 1, false), (b"img", 3, 3, false)]),
    (b"<svg><path d=\"M\"/></svg>", &[(b"path", 1, 1, false), (b"svg", 0, 2, true)]),
    (b"a</br>b", &[(b"br", 1, 1, false)]),
    (b"<p>a<div>b</div></p>", &[(b"p", 0, 2, false), (b"div", 2, 4, true), (b"p", 5, 5, true)]),
    (b"<head> \0<title>a</title> x", &[(b"title", 2, 4, true), (b"head", 0, 5, false)]),
    (b"<td>a<tr>", &[]),
];

fn is_row(element: &Element<'_>, row: &Row) -> bool {
    element.name == row.0
        && element.start == row.1
        && element.end == row.2
        && element.has_end_tag == row.3
}

fn are_rows(found: &[Element<'_>], rows: &[Row]) -> bool {
    if found.len() != rows.len() {
        return false;
    }
    for at in 0..rows.len() {
        if at >= found.len() || !is_row(&found[at], &rows[at]) {
            return false;
        }
    }
    true
}

fn has_elements(alloc: Global, page: &[u8], rows: &[Row]) -> bool {
    match elements(alloc, page) {
        Ok(found) => are_rows(found.elements.as_slice(), rows),
        Err(_) => false,
    }
}

#[test]
fn elements_are_found(rt: HostRuntime) {
    for (page, rows) in &PAGE_ROWS {
        assert!(rt; has_elements(rt.alloc(), page, rows));
    }
}
