//! Pages, and the trees that are read of them.
use std::alloc::Global;
use tl_tree::{Attribute, AttributeSpace, Flags, Kind, Namespace, Tree};

// A page, what its nodes say in order (a name or a text), and where what is below each one ends.
#[rattlefmt::skip]
static ROWS: [(&[u8], &[&[u8]], &[usize]); 15] = [
    (b"", &[b"html", b"head", b"body"], &[3, 2, 3]),
    (b"\xEF\xBB\xBFa", &[b"html", b"head", b"body", b"a"], &[4, 2, 4, 4]),
    (b"<p>a<p>b", &[b"html", b"head", b"body", b"p", b"a", b"p", b"b"], &[7, 2, 7, 5, 5, 7, 7]),
    (b"<table><td>a", &[b"html", b"head", b"body", b"table", b"tbody", b"tr", b"td", b"a"], &[8, 2, 8, 8, 8, 8, 8, 8]),
    (b"<table>a<tr>", &[b"html", b"head", b"body", b"a", b"table", b"tbody", b"tr"], &[7, 2, 7, 4, 7, 7, 7]),
    (b"<b>a<p>b</b>c", &[b"html", b"head", b"body", b"b", b"a", b"p", b"b", b"b", b"c"], &[9, 2, 9, 5, 5, 9, 8, 8, 9]),
    (b"<head></head><title>a</title>", &[b"html", b"head", b"title", b"a", b"body"], &[5, 4, 4, 4, 5]),
    (b"<template>a", &[b"html", b"head", b"template", b"", b"a", b"body"], &[6, 5, 5, 5, 5, 6]),
    (b"<svg><lineargradient/></svg>", &[b"html", b"head", b"body", b"svg", b"linearGradient"], &[5, 2, 5, 5, 5]),
    (b"<svg><![CDATA[a&lt;<]]>", &[b"html", b"head", b"body", b"svg", b"a&lt;<"], &[5, 2, 5, 5, 5]),
    (b"<script>a<b</script>", &[b"html", b"head", b"script", b"a<b", b"body"], &[5, 4, 4, 4, 5]),
    (b"<!DOCTYPE html><!--a-->", &[b"", b"a", b"html", b"head", b"body"], &[1, 2, 5, 4, 5]),
    (b"a\r\n&lt;", &[b"html", b"head", b"body", b"a\n<"], &[4, 2, 4, 4]),
    (b"</body><!--a-->", &[b"html", b"head", b"body", b"a"], &[4, 2, 3, 4]),
    (b"<frameset><frame>", &[b"html", b"head", b"frameset", b"frame"], &[4, 2, 4, 4]),
];

fn said<'t>(tree: &'t Tree<'_>, number: usize) -> &'t [u8] {
    if let Some(name) = tree.name(number) {
        return name;
    }
    tree.text(number).unwrap_or(b"")
}

// Whether the nodes of a tree are those of a row.
pub(crate) fn are(tree: &Tree<'_>, nodes: &[&[u8]], ends: &[usize]) -> bool {
    if tree.len() != ends.len() {
        return false;
    }
    for (number, (own, end)) in nodes.iter().zip(ends).enumerate() {
        if said(tree, number) != *own || tree.end(number) != Some(*end) {
            return false;
        }
    }
    true
}

pub(crate) static STANDARD: Flags = Flags {
    is_scripting: false,
    counts_search: true,
};

fn is_read(alloc: Global, page: &[u8], nodes: &[&[u8]], ends: &[usize]) -> bool {
    match Tree::read(alloc, page, STANDARD) {
        Ok(tree) => are(&tree, nodes, ends),
        Err(_) => false,
    }
}

#[test]
fn trees_are_read(rt: HostRuntime) {
    for (page, nodes, ends) in &ROWS {
        assert!(rt; is_read(rt.alloc(), page, nodes, ends));
    }
}

// Of a doctype, `html`, `head`, `body`, and in that a `p` with a text and an `svg`.
static PAGE: &[u8] = b"<!DOCTYPE html><p>a<svg>";

fn stands_in_place(tree: &Tree<'_>) -> bool {
    tree.parent(5) == Some(4)
        && tree.first_child(4) == Some(5)
        && tree.next_sibling(5) == Some(6)
        && tree.is_below(6, 3)
        && !tree.is_below(3, 6)
}

fn is_what_it_is(tree: &Tree<'_>) -> bool {
    !tree.is_empty()
        && !tree.is_quirks()
        && tree.kind(0) == Some(Kind::Doctype)
        && tree.kind(5) == Some(Kind::Text)
        && tree.namespace(6) == Some(Namespace::Svg)
        && tree.kind(7) == None
}

fn is_walked(tree: &Tree<'_>) -> bool {
    let mut children = tree.children(4);
    let mut ancestors = tree.ancestors(6);
    children.next() == Some(5)
        && children.next() == Some(6)
        && children.next() == None
        && ancestors.next() == Some(4)
        && ancestors.next() == Some(3)
        && ancestors.next() == Some(1)
        && ancestors.next() == None
}

fn is_asked(alloc: Global) -> bool {
    match Tree::read(alloc, PAGE, STANDARD) {
        Ok(tree) => stands_in_place(&tree) && is_what_it_is(&tree) && is_walked(&tree),
        Err(_) => false,
    }
}

#[test]
fn nodes_are_asked(rt: HostRuntime) {
    assert!(rt; is_asked(rt.alloc()));
}

// A doctype, `html`, `head`, `body`, `p`, `svg`.
static SAYING: &[u8] = b"<!DOCTYPE X PUBLIC \"a\"><p B=1 a='&lt;' b=2><svg xlink:href=c viewbox=d>";

fn is(attribute: Attribute<'_>, space: AttributeSpace, key: &[u8], value: &[u8]) -> bool {
    attribute.space == space && attribute.key == key && attribute.value == value
}

// Whether the attributes of a node are two.
fn are_both(
    tree: &Tree<'_>,
    number: usize,
    first: (AttributeSpace, &[u8], &[u8]),
    second: (AttributeSpace, &[u8], &[u8]),
) -> bool {
    let mut attributes = tree.attributes(number);
    let (Some(one), Some(other), None) = (attributes.next(), attributes.next(), attributes.next())
    else {
        return false;
    };
    is(one, first.0, first.1, first.2) && is(other, second.0, second.1, second.2)
}

fn has_attributes(tree: &Tree<'_>) -> bool {
    let plain = AttributeSpace::Plain;
    are_both(tree, 4, (plain, b"b", b"1"), (plain, b"a", b"<"))
        && are_both(
            tree,
            5,
            (AttributeSpace::Xlink, b"href", b"c"),
            (plain, b"viewBox", b"d"),
        )
        && tree.attributes(0).next().is_none()
        && tree.attributes(6).next().is_none()
}

// Whether what is answered are these bytes.
fn says(answer: Option<&[u8]>, bytes: &[u8]) -> bool {
    match answer {
        Some(own) => own == bytes,
        None => false,
    }
}

fn has_values(tree: &Tree<'_>) -> bool {
    says(tree.value(4, b"b"), b"1")
        && says(tree.value(5, b"viewBox"), b"d")
        && tree.value(4, b"B").is_none()
        && tree.value(5, b"href").is_none()
        && tree.value(6, b"b").is_none()
}

fn has_a_doctype(tree: &Tree<'_>) -> bool {
    let Some(own) = tree.doctype(0) else {
        return false;
    };
    own.name == b"x".as_slice()
        && says(own.public_id, b"a")
        && own.system_id.is_none()
        && !own.forces_quirks
        && tree.doctype(1).is_none()
}

fn says_what_it_says(alloc: Global) -> bool {
    match Tree::read(alloc, SAYING, STANDARD) {
        Ok(tree) => has_attributes(&tree) && has_values(&tree) && has_a_doctype(&tree),
        Err(_) => false,
    }
}

#[test]
fn attributes_and_doctypes_are_asked(rt: HostRuntime) {
    assert!(rt; says_what_it_says(rt.alloc()));
}
