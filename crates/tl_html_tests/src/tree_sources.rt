//! Where in a page the nodes of its tree come from.
use crate::trees::STANDARD;
use std::alloc::Global;
use tl_tree::{Context, Namespace, Source, Tree};

// A page, and for each node of its tree where it comes from: 0 and 0 where it is put in.
#[rattlefmt::skip]
static ROWS: [(&[u8], &[(usize, usize)]); 28] = [
    (b"a", &[(0, 0), (0, 0), (0, 0), (0, 1)]),
    (b"<html><head><body a=1><p>", &[(0, 6), (6, 12), (12, 22), (22, 25)]),
    (b"\xEF\xBB\xBF<p>", &[(0, 0), (0, 0), (0, 0), (3, 6)]),
    (b"a\r\nb<p>", &[(0, 0), (0, 0), (0, 0), (0, 4), (4, 7)]),
    (b"<table><td>a", &[(0, 0), (0, 0), (0, 0), (0, 7), (0, 0), (0, 0), (7, 11), (11, 12)]),
    (b"<table><p>", &[(0, 0), (0, 0), (0, 0), (7, 10), (0, 7)]),
    (b"<p><b></p>a", &[(0, 0), (0, 0), (0, 0), (0, 3), (3, 6), (3, 6), (10, 11)]),
    (b"<b><p></b>", &[(0, 0), (0, 0), (0, 0), (0, 3), (3, 6), (0, 3)]),
    (b"<svg><![CDATA[a<b>]]><g>", &[(0, 0), (0, 0), (0, 0), (0, 5), (5, 21), (21, 24)]),
    (b"<svg><g/></svg><p>", &[(0, 0), (0, 0), (0, 0), (0, 5), (5, 9), (15, 18)]),
    (b"<tr><p><body b>", &[(0, 0), (0, 0), (0, 0), (4, 7)]),
    (b"<template><p></template>", &[(0, 0), (0, 0), (0, 10), (0, 0), (10, 13), (0, 0)]),
    (b"<script>a<b></script><image>", &[(0, 0), (0, 0), (0, 8), (8, 12), (0, 0), (21, 28)]),
    (b"\xEF\xBB\xBFa<!--b-->", &[(0, 0), (0, 0), (0, 0), (3, 4), (4, 12)]),
    (b"<!DOCTYPE html><!--a--><p>", &[(0, 15), (15, 23), (0, 0), (0, 0), (0, 0), (23, 26)]),
    (b"<!a><?b></ c>", &[(0, 4), (4, 8), (8, 13), (0, 0), (0, 0), (0, 0)]),
    (b"<p>a</body>b<!--c-->", &[(0, 0), (0, 0), (0, 0), (0, 3), (3, 4), (12, 20)]),
    (b"<p>a</body><!--b-->c", &[(0, 0), (0, 0), (0, 0), (0, 3), (3, 4), (11, 19)]),
    (b"<head></head> <!--a-->", &[(0, 0), (0, 6), (13, 14), (14, 22), (0, 0)]),
    (b"<table>a<tr>", &[(0, 0), (0, 0), (0, 0), (7, 8), (0, 7), (0, 0), (8, 12)]),
    (b"<table>a<tr>b", &[(0, 0), (0, 0), (0, 0), (7, 8), (0, 7), (0, 0), (8, 12)]),
    (b"<table> <tr>", &[(0, 0), (0, 0), (0, 0), (0, 7), (7, 8), (0, 0), (8, 12)]),
    (b"<table><tr> </table>", &[(0, 0), (0, 0), (0, 0), (0, 7), (0, 0), (7, 11), (11, 12)]),
    (b"a</b>b", &[(0, 0), (0, 0), (0, 0), (0, 1)]),
    (b"</b>a&lt;", &[(0, 0), (0, 0), (0, 0), (4, 9)]),
    (b"a</>b", &[(0, 0), (0, 0), (0, 0), (0, 5)]),
    (b"a<!DOCTYPE b>c", &[(0, 0), (0, 0), (0, 0), (0, 1)]),
    (b"<textarea>\na", &[(0, 0), (0, 0), (0, 0), (0, 10), (10, 12)]),
];

fn is_at(answer: Option<Source>, place: (usize, usize)) -> bool {
    match answer {
        Some(source) => (source.start, source.end) == place,
        None => place == (0, 0),
    }
}

fn are_at(tree: &Tree<'_>, places: &[(usize, usize)]) -> bool {
    for (number, place) in places.iter().enumerate() {
        if !is_at(tree.source(number), *place) {
            return false;
        }
    }
    tree.len() == places.len() && tree.source(places.len()).is_none()
}

fn is_read(alloc: Global, page: &[u8], places: &[(usize, usize)]) -> bool {
    match Tree::read(alloc, page, STANDARD) {
        Ok(tree) => are_at(&tree, places),
        Err(_) => false,
    }
}

#[test]
fn nodes_come_from_where_they_stand(rt: HostRuntime) {
    for (page, places) in &ROWS {
        assert!(rt; is_read(rt.alloc(), page, places));
    }
}

// The same of texts in a `div`.
#[rattlefmt::skip]
static FRAGMENTS: [(&[u8], &[(usize, usize)]); 3] = [
    (b"\xEF\xBB\xBFa", &[(0, 4)]),
    (b"a<p>b", &[(0, 1), (1, 4), (4, 5)]),
    (b"<body>a<!--b-->", &[(6, 7), (7, 15)]),
];

fn is_fragment_read(alloc: Global, text: &[u8], places: &[(usize, usize)]) -> bool {
    let context = Context {
        namespace: Namespace::Html,
        name: b"div",
        attributes: &[],
        is_in_form: false,
        is_quirks: false,
    };
    match Tree::read_fragment(alloc, text, context, STANDARD) {
        Ok(tree) => are_at(&tree, places),
        Err(_) => false,
    }
}

#[test]
fn nodes_of_fragments_come_from_where_they_stand(rt: HostRuntime) {
    for (text, places) in &FRAGMENTS {
        assert!(rt; is_fragment_read(rt.alloc(), text, places));
    }
}
