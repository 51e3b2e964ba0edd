//! What is asked of the trees of pages: nodes beside and below others, texts, tables, links.
use crate::trees::STANDARD;
use std::alloc::Global;
use tl_tree::Tree;
use tl_tree_extract::text::{write_readable_document, write_readable_text};
use tl_tree_extract::{base, links, table_of, table_rows};

// A page, its readable text, and the text content of its root.
#[rattlefmt::skip]
static TEXTS: [(&[u8], &[u8], &[u8]); 5] = [
    (b"<p>a<p>b  c", b"a\n\nb c", b"ab  c"),
    (b"<pre>a\n b</pre><script>c</script>", b"a\n b", b"a\n bc"),
    (b"<table><tr><td>a<td>b<tr><td>c", b"a\tb\nc", b"abc"),
    (b"<title>t</title>a<br>b", b"a\nb", b"tab"),
    (b"a<template>b</template><i hidden>c</i>", b"a", b"ac"),
];

// A page, the number of a node, the sibling before it (0 where there is none), the elements below
// it, its id, and its classes.
#[rattlefmt::skip]
static NODES: [(&[u8], usize, usize, &[usize], &[u8], &[&[u8]]); 4] = [
    (b"<p id=i class=' a b'>x<b>y</b><i>z", 3, 0, &[5, 7], b"i", &[b"a", b"b"]),
    (b"<p id=i class=' a b'>x<b>y</b><i>z", 7, 5, &[], b"", &[]),
    (b"<p id=i class=' a b'>x<b>y</b><i>z", 5, 4, &[], b"", &[]),
    (b"<template><b></template>", 2, 0, &[], b"", &[]),
];

// A page, and the URLs that its attributes hold.
#[rattlefmt::skip]
static LINKS: [(&[u8], &[&[u8]]); 3] = [
    (b"<a href=' x '>y</a><img srcset='p,q 1x, r 2x'>", &[b"x", b"p,q", b"r"]),
    (b"<meta http-equiv=refresh content='0; url=a'>", &[b"a"]),
    (b"<template><a href=x></template>", &[]),
];

fn is_whole(tree: &Tree<'_>, alloc: Global, readable: &[u8]) -> bool {
    let mut out = Vec::new(alloc);
    write_readable_document(tree, &[], &mut out).is_ok() && out.as_slice() == readable
}

fn is_readable(tree: &Tree<'_>, alloc: Global, readable: &[u8]) -> bool {
    let mut out = Vec::new(alloc);
    write_readable_text(tree, 0, &[], &mut out).is_ok() && out.as_slice() == readable
}

fn is_content(tree: &Tree<'_>, alloc: Global, content: &[u8]) -> bool {
    let mut out = Vec::new(alloc);
    tree.write_text_content(0, &mut out).is_ok() && out.as_slice() == content
}

fn are_readable(tree: &Tree<'_>, alloc: Global, readable: &[u8]) -> bool {
    is_whole(tree, alloc, readable) && is_readable(tree, alloc, readable)
}

fn are_texts(alloc: Global, page: &[u8], readable: &[u8], content: &[u8]) -> bool {
    match Tree::read(alloc, page, STANDARD) {
        Ok(tree) => { are_readable(&tree, alloc, readable) && is_content(&tree, alloc, content) }
        Err(_) => false,
    }
}

fn are_below(tree: &Tree<'_>, number: usize, numbers: &[usize]) -> bool {
    let mut left = numbers.iter();
    for element in tree.elements_below(number) {
        if left.next() != Some(&element) {
            return false;
        }
    }
    left.next().is_none()
}

fn are_classes(tree: &Tree<'_>, number: usize, classes: &[&[u8]]) -> bool {
    let mut count = 0;
    for class in tree.classes(number) {
        match classes.get(count) {
            Some(own) if *own == class => count += 1,
            _ => return false,
        }
    }
    count == classes.len()
}

// Whether these are the URLs of a page.
fn are_links(alloc: Global, page: &[u8], urls: &[&[u8]]) -> bool {
    let Ok(tree) = Tree::read(alloc, page, STANDARD) else {
        return false;
    };
    let Ok(found) = links(alloc, &tree) else {
        return false;
    };
    if found.len() != urls.len() {
        return false;
    }
    for (link, url) in found.iter().zip(urls) {
        if link.part.bytes != *url {
            return false;
        }
    }
    true
}

// The columns of the first table of a page, its rows, and where its last cell begins.
fn table_said(alloc: Global, page: &[u8]) -> Option<(u32, usize, u32)> {
    let tree = Tree::read(alloc, page, STANDARD).ok()?;
    let table = table_of(alloc, &tree, 3).ok()?;
    let rows = table_rows(alloc, &tree, 3).ok()?;
    Some((table.width, rows.len(), table.cells.last()?.left))
}

fn base_of(alloc: Global, page: &[u8]) -> Option<usize> {
    base(&Tree::read(alloc, page, STANDARD).ok()?)
}

#[test]
fn texts_are_written(rt: HostRuntime) {
    for (page, readable, content) in &TEXTS {
        assert!(rt; are_texts(rt.alloc(), page, readable, content));
    }
}

fn is_asked(
    alloc: Global,
    page: &[u8],
    number: usize,
    before: usize,
    numbers: &[usize],
    id: &[u8],
    classes: &[&[u8]],
) -> bool {
    match Tree::read(alloc, page, STANDARD) {
        Ok(tree) => {
            tree.previous_sibling(number).unwrap_or(0) == before
                && are_below(&tree, number, numbers)
                && tree.id(number).unwrap_or(b"") == id
                && are_classes(&tree, number, classes)
        }
        Err(_) => false,
    }
}

#[test]
fn nodes_are_asked(rt: HostRuntime) {
    for (page, number, before, numbers, id, classes) in &NODES {
        assert!(rt; is_asked(rt.alloc(), page, *number, *before, numbers, id, classes));
    }
}

#[test]
fn links_are_listed(rt: HostRuntime) {
    for (page, urls) in &LINKS {
        assert!(rt; are_links(rt.alloc(), page, urls));
    }
    assert!(rt; base_of(rt.alloc(), b"<base><base href=a><base href=b>") == Some(3));
}

#[test]
fn spans_are_kept(rt: HostRuntime) {
    let page = b"<table><tr><td rowspan=2>a<td>b<tr><td>c";
    assert!(rt; table_said(rt.alloc(), page) == Some((2, 2, 1)));
}
