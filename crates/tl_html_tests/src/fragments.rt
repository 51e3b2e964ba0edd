//! Texts in a context element, and the trees that are read of them.
use crate::trees::{STANDARD, are};
use std::alloc::Global;
use tl_tree::{Context, Flags, Namespace, Tree};

fn html<'c>(name: &'c [u8]) -> Context<'c> {
    Context {
        namespace: Namespace::Html,
        name,
        attributes: &[],
        is_in_form: false,
        is_quirks: false,
    }
}

fn is_read(
    alloc: Global,
    text: &[u8],
    context: Context<'_>,
    nodes: &[&[u8]],
    ends: &[usize],
) -> bool {
    match Tree::read_fragment(alloc, text, context, STANDARD) {
        Ok(tree) => are(&tree, nodes, ends) && tree.is_quirks() == context.is_quirks,
        Err(_) => false,
    }
}

// The name of an HTML element, a text in it, what its nodes say in order (a name or a text), and
// where what is below each one ends.
#[rattlefmt::skip]
static ROWS: [(&[u8], &[u8], &[&[u8]], &[usize]); 17] = [
    (b"div", b"", &[], &[]),
    (b"div", b"<p>a<p>b", &[b"p", b"a", b"p", b"b"], &[2, 2, 4, 4]),
    (b"div", b"<html><head></head><body>a</body></html>b", &[b"ab"], &[1]),
    (b"div", b"\xEF\xBB\xBFa", &[b"\xEF\xBB\xBFa"], &[1]),
    (b"div", b"<p><table>", &[b"p", b"table"], &[1, 2]),
    (b"div", b"<form>a</form>b<form>c", &[b"form", b"a", b"b", b"form", b"c"], &[2, 2, 3, 5, 5]),
    (b"td", b"a</td>b<td>c<p>d", &[b"abc", b"p", b"d"], &[1, 3, 3]),
    (b"tr", b"<td>a<th>b</tr>c", &[b"td", b"a", b"th", b"bc"], &[2, 2, 4, 4]),
    (b"table", b"<td>a", &[b"tbody", b"tr", b"td", b"a"], &[4, 4, 4, 4]),
    (b"select", b"<option>a<select>b<input>c", &[b"option", b"abc"], &[2, 2]),
    (b"template", b"<td>a", &[b"td", b"a"], &[2, 2]),
    (b"template", b"<col>a<col>", &[b"col", b"col"], &[1, 2]),
    (b"title", b"<p>a&lt;</title>b", &[b"<p>a<</title>b"], &[1]),
    (b"style", b"<p>a&lt;</style>b", &[b"<p>a&lt;</style>b"], &[1]),
    (b"script", b"<!--a</script>&lt;b", &[b"<!--a</script>&lt;b"], &[1]),
    (b"plaintext", b"<p></plaintext>a", &[b"<p></plaintext>a"], &[1]),
    (b"noscript", b"<p>a&lt;", &[b"p", b"a<"], &[2, 2]),
];

#[test]
fn fragments_are_read(rt: HostRuntime) {
    for (name, text, nodes, ends) in &ROWS {
        assert!(rt; is_read(rt.alloc(), text, html(name), nodes, ends));
    }
}

// The same in elements of `svg` and `math`.
#[rattlefmt::skip]
static FOREIGN_ROWS: [(Namespace, &[u8], &[u8], &[&[u8]], &[usize]); 4] = [
    (Namespace::Svg, b"path", b"<lineargradient/>a<![CDATA[<]]>", &[b"linearGradient", b"a<"], &[1, 2]),
    (Namespace::Svg, b"title", b"<title><p>", &[b"title", b"<p>"], &[2, 2]),
    (Namespace::Svg, b"Title", b"<title><p>", &[b"title", b"p"], &[2, 2]),
    (Namespace::Math, b"annotation-xml", b"<title><b>a", &[b"title", b"b", b"a"], &[1, 3, 3]),
];

#[test]
fn foreign_fragments_are_read(rt: HostRuntime) {
    for (namespace, name, text, nodes, ends) in &FOREIGN_ROWS {
        let context = Context {
            namespace: *namespace,
            ..html(name)
        };
        assert!(rt; is_read(rt.alloc(), text, context, nodes, ends));
    }
}

// An annotation whose encoding says that its text is HTML.
#[test]
fn attributes_are_looked_at(rt: HostRuntime) {
    let context = Context {
        namespace: Namespace::Math,
        attributes: &[(b"encoding", b"Text/HTML")],
        ..html(b"annotation-xml")
    };
    assert!(rt;
        is_read(
            rt.alloc(),
            b"<title><b>a",
            context,
            &[b"title", b"<b>a"],
            &[2, 2]
        )
    );
}

#[test]
fn forms_are_left_out_in_a_form(rt: HostRuntime) {
    let context = Context {
        is_in_form: true,
        ..html(b"div")
    };
    let text = b"<form>a</form>b<form>c";
    assert!(rt;
        is_read(
            rt.alloc(),
            text,
            context,
            &[b"ab", b"form", b"c"],
            &[1, 3, 3]
        )
    );
}

#[test]
fn tables_stand_in_paragraphs_in_quirks_mode(rt: HostRuntime) {
    let context = Context {
        is_quirks: true,
        ..html(b"div")
    };
    assert!(rt;
        is_read(
            rt.alloc(),
            b"<p><table>",
            context,
            &[b"p", b"table"],
            &[2, 2]
        )
    );
}

fn is_raw_where_scripts_run(alloc: Global) -> bool {
    let flags = Flags {
        is_scripting: true,
        ..STANDARD
    };
    match Tree::read_fragment(alloc, b"<p>a&lt;", html(b"noscript"), flags) {
        Ok(tree) => are(&tree, &[b"<p>a&lt;"], &[1]),
        Err(_) => false,
    }
}

#[test]
fn scripts_change_noscript(rt: HostRuntime) {
    assert!(rt; is_raw_where_scripts_run(rt.alloc()));
}
