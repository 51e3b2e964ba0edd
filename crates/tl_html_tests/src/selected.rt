//! Pages, selectors, and the nodes of the trees where these hold.
use crate::trees::STANDARD;
use std::alloc::Global;
use tl_css::Selector;
use tl_tree::Tree;

// A page, a selector, and the numbers of the elements where it holds.
#[rattlefmt::skip]
static ROWS: [(&[u8], &str, &[usize]); 56] = [
    (b"<p>a<p>b", "p", &[3, 5]),
    (b"<P>a", "P", &[3]),
    (b"<p>a<p>b", "body > *", &[3, 5]),
    (b"<p>a<p>b", "p + p", &[5]),
    (b"<p>a<p>b", "p ~ p, html", &[0, 5]),
    (b"<p>a<p>b", "html p", &[3, 5]),
    (b"<p>a<p>b", "body:has(> p + p)", &[2]),
    (b"<p>a<p>b", ":not(p)", &[0, 1, 2]),
    (b"<p>a<p>b", ":nth-child(2n)", &[2, 5]),
    (b"<p>a<i></i><p>b", "p:nth-last-of-type(1)", &[6]),
    // (what stands in no row are siblings, and the root has no other)
    (b"<!DOCTYPE html><!--a-->", ":root", &[2]),
    (b"<!DOCTYPE html>", "html:only-child", &[1]),
    (b"<!DOCTYPE html>", "html + *", &[]),
    // (comments don't count, and a text with a byte does)
    (b"<p><!--a--></p><i> </i>", "body > :empty", &[3]),
    (b"<template>a</template>", "template:empty", &[2]),
    // (a child may end behind others that are below it)
    (b"<div><p>a</div><b>c</b>", "b:last-child", &[6]),
    (b"<div><p>a</div><b>c</b>", "div > :last-child", &[4]),
    // (the case of a class counts with a doctype)
    (b"<!DOCTYPE html><p class='A b' id=C>", ".a", &[]),
    (b"<!DOCTYPE html><p class='A b' id=C>", ".A.b#C", &[4]),
    (b"<p class='A b' id=C>", ".a.B#c", &[3]),
    (b"<!DOCTYPE html><p class=ab>", ".a", &[]),
    // (names and keys of `svg` stand in their own case)
    (b"<svg viewbox=a><lineargradient>", "linearGradient", &[4]),
    (b"<svg viewbox=a><lineargradient>", "lineargradient, [VIEWBOX], [viewbox]", &[]),
    (b"<svg viewbox=a><lineargradient>", "[viewBox]", &[3]),
    (b"<p viewbox=a>", "[VIEWBOX], [viewBox=b]", &[3]),
    (b"<svg><desc><P>", "P, DESC", &[5]),
    // (a document is searched from its root)
    (b"<!DOCTYPE html><p>", ":scope, :scope > body", &[1, 3]),
    (b"<!DOCTYPE html><p>", "& > body > p:not(&)", &[4]),
    (b"<p>", "/**/:root/**/>/**/body", &[2]),
    (b"<template><p></template>", ":root", &[0]),
    (b"<svg xlink:href=a>", "[href], [xlink\\:href]", &[]),
    (b"<p xlink:href=a>", "[xlink\\:href]", &[3]),
    // (values of some keys are compared in any case at elements of HTML)
    (b"<input type=TEXT><svg type=TEXT>", "[type=text]", &[3]),
    (b"<input name=TEXT>", "[name=text]", &[]),
    (b"<input name=TEXT>", "[name=text i]", &[3]),
    // (but with a flag `s`)
    (b"<input type=TEXT>", "[type=text s], [type=TExT S]", &[]),
    (b"<input type=TEXT>", "[type=TEXT s]", &[3]),
    (b"<input name=TEXT>", "[name=TEXT s]", &[3]),
    (b"<input name=TEXT>", "[name=text s]", &[]),
    // (elements are in a namespace, and keys in none but where the parser says so)
    (b"<p><svg><a>", "*|a, *|P", &[3, 5]),
    (b"<p><svg><a>", "*|*", &[0, 1, 2, 3, 4, 5]),
    (b"<p><svg><a>", "|a, |p, |*", &[]),
    (b"<p><svg><a>", "a:not(|a)", &[5]),
    (b"<p title=a>", "[|title]", &[3]),
    (b"<svg xlink:href=a>", "[*|href]", &[3]),
    (b"<svg xlink:href=a>", "[|href], [*|href=b], [*|hre=a]", &[]),
    (b"<svg xlink:href=a href=b>", "[*|href=a][*|href=b]", &[3]),
    (b"<p xlink:href=a>", "[*|href]", &[]),
    (b"<input type=TEXT>", "[*|TYPE=text][*|type=TEXT s]:not([*|type=text s])", &[3]),
    (b"<ul id='&amp;'><b title='&lt;'>", "#\\& > b[title='<']", &[4]),
    (b"<p a='x y' lang=en-US>", "[a~=y][a^=x][lang|=EN]", &[3]),
    // (what stands in the contents of a template is not of the document)
    (b"<template><p>a<p>b</template><p>c", "p", &[9]),
    (b"<template><template><p></template><i></template><b>", "p, i, b", &[9]),
    (b"<div><template><p></template></div>", "div:has(p), template p", &[]),
    // (twins are of one namespace)
    (b"<a></a><svg><a></svg><a>", "a:first-of-type", &[3, 5]),
    (b"", "body, head", &[1, 2]),
];

// A page, a selector, a number, and whether it holds there.
#[rattlefmt::skip]
static ASKED: [(&[u8], &str, usize, bool); 5] = [
    (b"<p>a<p>b", "p", 5, true),
    (b"<p>a<p>b", "p:first-child", 5, false),
    (b"<p>a<p>b", "*", 4, false),
    (b"<p>a<p>b", "p", 9, false),
    (b"<template><p>a<p>b</template>", "p + p", 6, true),
];

// A page, a selector, a number, and the numbers below it where it holds.
#[rattlefmt::skip]
static BELOW: [(&[u8], &str, usize, &[usize]); 10] = [
    (b"<div><p>a<p>b</div><p>c", "p", 3, &[4, 6]),
    (b"<div><p>a<p>b</div><p>c", ":scope > p", 3, &[4, 6]),
    (b"<div><p>a<p>b</div><p>c", ":scope > p", 2, &[8]),
    (b"<div><p>a<p>b</div><p>c", "body p + p", 3, &[6]),
    (b"<div><p>a<p>b</div><p>c", "div, :scope, :root", 3, &[]),
    (b"<div><p>a<p>b</div><p>c", "p", 99, &[]),
    (b"<div><template><p></template><p></div>", "p", 3, &[7]),
    (b"<div><template><p></template><p></div>", "p", 4, &[]),
    (b"<div><template><p></template><p></div>", "p, :root", 5, &[6]),
    (b"<div><p></p></div>", "p:not(& p)", 3, &[]),
];

// A page, a selector, a number, and that of the innermost element around it where it holds.
#[rattlefmt::skip]
static CLOSEST: [(&[u8], &str, usize, Option<usize>); 7] = [
    (b"<div><p>a</div>", "div, body", 4, Some(3)),
    (b"<div><p>a</div>", "p, div", 4, Some(4)),
    (b"<div><p>a</div>", "p, div", 5, Some(4)),
    (b"<div><p>a</div>", ":scope", 4, Some(4)),
    (b"<div><p>a</div>", "i", 4, None),
    (b"<div><p>a</div>", "*", 99, None),
    (b"<div><template><p></template></div>", "div", 6, None),
];

// A page, relative selectors, a number, and those of the elements below it and behind it where they
// hold.
#[rattlefmt::skip]
static RELATIVE: [(&[u8], &str, usize, &[usize], &[usize]); 6] = [
    (b"<div><p>a</div><p>b<i></i>", "> p", 3, &[4], &[]),
    (b"<div><p>a</div><p>b<i></i>", "+ p", 3, &[], &[6]),
    (b"<div><p>a</div><p>b<i></i>", "~ p > i", 3, &[], &[8]),
    (b"<div><p>a</div><p>b<i></i>", "> p, + p", 3, &[4], &[6]),
    (b"<div><p>a</div><p>b<i></i>", "p", 3, &[4], &[6]),
    (b"<div><p>a</div><p>b<i></i>", "+ p", 99, &[], &[]),
];

fn are_found(alloc: Global, page: &[u8], selector: &Selector, numbers: &[usize]) -> bool {
    let Ok(tree) = Tree::read(alloc, page, STANDARD) else {
        return false;
    };
    match tl_tree_select::select(alloc, &tree, selector) {
        Ok(found) => found.as_slice() == numbers,
        Err(_) => false,
    }
}

fn is_first(alloc: Global, page: &[u8], selector: &Selector, number: Option<usize>) -> bool {
    let Ok(tree) = Tree::read(alloc, page, STANDARD) else {
        return false;
    };
    match tl_tree_select::first(alloc, &tree, selector) {
        Ok(found) => found == number,
        Err(_) => false,
    }
}

fn is_selected(alloc: Global, page: &[u8], text: &str, numbers: &[usize]) -> bool {
    match tl_css::parse(alloc, text) {
        Ok(selector) => {
            are_found(alloc, page, &selector, numbers)
                && is_first(alloc, page, &selector, numbers.first().copied())
        }
        Err(_) => false,
    }
}

fn is_answered(alloc: Global, page: &[u8], text: &str, number: usize, holds: bool) -> bool {
    let Ok(selector) = tl_css::parse(alloc, text) else {
        return false;
    };
    let Ok(tree) = Tree::read(alloc, page, STANDARD) else {
        return false;
    };
    match tl_tree_select::matches(alloc, &tree, number, &selector) {
        Ok(found) => found == holds,
        Err(_) => false,
    }
}

#[test]
fn selectors_are_found(rt: HostRuntime) {
    for (page, selector, numbers) in &ROWS {
        assert!(rt; is_selected(rt.alloc(), page, selector, numbers));
    }
}

#[test]
fn nodes_are_matched(rt: HostRuntime) {
    for (page, selector, number, holds) in &ASKED {
        assert!(rt; is_answered(rt.alloc(), page, selector, *number, *holds));
    }
}

fn are_below(alloc: Global, page: &[u8], selector: &str, number: usize, numbers: &[usize]) -> bool {
    let (Ok(tree), Ok(selector)) = (
        Tree::read(alloc, page, STANDARD),
        tl_css::parse(alloc, selector),
    ) else {
        return false;
    };
    match tl_tree_select::below(alloc, &tree, number, &selector) {
        Ok(found) => found.as_slice() == numbers,
        Err(_) => false,
    }
}

fn is_closest(
    alloc: Global,
    page: &[u8],
    selector: &str,
    number: usize,
    closest: Option<usize>,
) -> bool {
    let (Ok(tree), Ok(selector)) = (
        Tree::read(alloc, page, STANDARD),
        tl_css::parse(alloc, selector),
    ) else {
        return false;
    };
    match tl_tree_select::closest(alloc, &tree, number, &selector) {
        Ok(found) => found == closest,
        Err(_) => false,
    }
}

#[test]
fn selectors_hold_below(rt: HostRuntime) {
    for (page, selector, number, numbers) in &BELOW {
        let holds = are_below(rt.alloc(), page, selector, *number, numbers);
        assert!(rt; holds);
    }
}

#[test]
fn selectors_hold_closest(rt: HostRuntime) {
    for (page, selector, number, closest) in &CLOSEST {
        let holds = is_closest(rt.alloc(), page, selector, *number, *closest);
        assert!(rt; holds);
    }
}

fn are_related(
    alloc: Global,
    page: &[u8],
    selector: &str,
    number: usize,
    below: &[usize],
    behind: &[usize],
) -> bool {
    let (Ok(tree), Ok(selector)) = (
        Tree::read(alloc, page, STANDARD),
        tl_css::parse_relative(alloc, selector),
    ) else {
        return false;
    };
    let (Ok(inside), Ok(after)) = (
        tl_tree_select::below(alloc, &tree, number, &selector),
        tl_tree_select::behind(alloc, &tree, number, &selector),
    ) else {
        return false;
    };
    inside.as_slice() == below && after.as_slice() == behind
}

#[test]
fn relative_selectors_hold(rt: HostRuntime) {
    for (page, selector, number, below, behind) in &RELATIVE {
        let hold = are_related(rt.alloc(), page, selector, *number, below, behind);
        assert!(rt; hold);
    }
}
