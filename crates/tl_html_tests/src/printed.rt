//! Trees of pages, and what is printed of them.
use crate::trees::STANDARD;
use std::alloc::Global;
use tl_html_print::{write_document, write_inner, write_outer, write_pretty};
use tl_tree::Tree;

// A page, and the print of its document.
#[rattlefmt::skip]
static DOCUMENTS: [(&[u8], &[u8]); 9] = [
    (b"<!DOCTYPE html PUBLIC 'a'><p>a", b"<!DOCTYPE html><html><head></head><body><p>a</p></body></html>"),
    (b"<script>a<b && c</script>", b"<html><head><script>a<b && c</script></head><body></body></html>"),
    (b"<title>a<b>&c", b"<html><head><title>a&lt;b&gt;&amp;c</title></head><body></body></html>"),
    (b"a\xC2\xA0b\"", b"<html><head></head><body>a&nbsp;b\"</body></html>"),
    (b"<img alt='\"<&'>", b"<html><head></head><body><img alt=\"&quot;&lt;&amp;\"></body></html>"),
    (b"<template><td>a", b"<html><head><template><td>a</td></template></head><body></body></html>"),
    (b"<svg viewbox=0 xlink:href=a><lineargradient/>", b"<html><head></head><body><svg viewBox=\"0\" xlink:href=\"a\"><linearGradient></linearGradient></svg></body></html>"),
    (b"<!--a--><p @click=b>", b"<!--a--><html><head></head><body><p @click=\"b\"></p></body></html>"),
    (b"<table><b>a<td>c", b"<html><head></head><body><b>a</b><table><tbody><tr><td>c</td></tr></tbody></table></body></html>"),
];

// A page, the number of a node, what is printed of it, and of what is below it.
#[rattlefmt::skip]
static NODES: [(&[u8], usize, &[u8], &[u8]); 8] = [
    (b"<p>a<b>c</b>", 3, b"<p>a<b>c</b></p>", b"a<b>c</b>"),
    (b"<p>a<b>c</b>", 4, b"a", b""),
    (b"<p>a<b>c</b>", 5, b"<b>c</b>", b"c"),
    (b"<p>a<b>c</b>", 7, b"", b""),
    (b"<br>", 3, b"<br>", b""),
    (b"<template>a", 2, b"<template>a</template>", b"a"),
    (b"<template>a", 3, b"a", b"a"),
    (b"<!DOCTYPE html>", 0, b"<!DOCTYPE html>", b""),
];

// A page, and its print with a tag on each line.
#[rattlefmt::skip]
static LINES: [(&[u8], &[u8]); 5] = [
    (b"<p>a", b"<html>\n  <head></head>\n  <body>\n    <p>a</p>\n  </body>\n</html>\n"),
    (b"<ul> <li>a\n<li><b>c</b></ul>", b"<html>\n  <head></head>\n  <body>\n    <ul>\n      <li>a\n</li>\n      <li><b>c</b></li>\n    </ul>\n  </body>\n</html>\n"),
    (b"<script>a</script><pre>b\n c", b"<html>\n  <head>\n    <script>a</script>\n  </head>\n  <body>\n    <pre>b\n c</pre>\n  </body>\n</html>\n"),
    (b"<!--a--><hr>b", b"<!--a-->\n<html>\n  <head></head>\n  <body>\n    <hr>b</body></html>"),
    (b"<template><p>a", b"<html>\n  <head>\n    <template><p>a</p></template>\n  </head>\n  <body></body></html>"),
];

fn has_lines(alloc: Global, page: &[u8], print: &[u8]) -> bool {
    let Ok(tree) = Tree::read(alloc, page, STANDARD) else {
        return false;
    };
    let mut out = Vec::new(alloc);
    write_pretty(&tree, false, &mut out).is_ok() && out.as_slice() == print
}

fn is_printed(alloc: Global, page: &[u8], print: &[u8]) -> bool {
    let Ok(tree) = Tree::read(alloc, page, STANDARD) else {
        return false;
    };
    let mut out = Vec::new(alloc);
    write_document(&tree, false, &mut out).is_ok() && out.as_slice() == print
}

fn is_outer(tree: &Tree<'_>, alloc: Global, number: usize, print: &[u8]) -> bool {
    let mut out = Vec::new(alloc);
    write_outer(tree, number, false, &mut out).is_ok() && out.as_slice() == print
}

fn is_inner(tree: &Tree<'_>, alloc: Global, number: usize, print: &[u8]) -> bool {
    let mut out = Vec::new(alloc);
    write_inner(tree, number, false, &mut out).is_ok() && out.as_slice() == print
}

fn is_node_printed(alloc: Global, page: &[u8], number: usize, outer: &[u8], inner: &[u8]) -> bool {
    match Tree::read(alloc, page, STANDARD) {
        Ok(tree) => {
            is_outer(&tree, alloc, number, outer) && is_inner(&tree, alloc, number, inner)
        }
        Err(_) => false,
    }
}

#[test]
fn documents_are_printed(rt: HostRuntime) {
    for (page, print) in &DOCUMENTS {
        assert!(rt; is_printed(rt.alloc(), page, print));
    }
}

#[test]
fn nodes_are_printed(rt: HostRuntime) {
    for (page, number, outer, inner) in &NODES {
        assert!(rt; is_node_printed(rt.alloc(), page, *number, outer, inner));
    }
}

#[test]
fn documents_are_printed_with_lines(rt: HostRuntime) {
    for (page, print) in &LINES {
        assert!(rt; has_lines(rt.alloc(), page, print));
    }
}
