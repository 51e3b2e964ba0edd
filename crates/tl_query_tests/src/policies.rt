//! Lists that are a policy, what no option of `tl` gives, and texts made safe.

use tl_tree_safe::{
    ListTexts, Lists, Policy, PolicyError, Reason, WordLists, lines_of, sanitize_fragment,
    without_mark,
};

// Lists, the word for which they are no policy, and why: an empty word, a pattern of classes, and
// links that are marked at a key that isn't listed.
#[rattlefmt::skip]
static REFUSED_ROWS: [(Lists<'static>, &str, Reason); 8] = [
    (Lists { tags: &[""], ..Lists::BLOG }, "", Reason::MalformedTag),
    (Lists { classes: &["*", "a*", "*a"], ..Lists::BLOG }, "*a", Reason::MalformedClass),
    (Lists { nofollow_links: true, ..Lists::BLOG }, "rel", Reason::UnlistedMark),
    (Lists { tags: &["caption", "table", "tbody", "td", "tfoot", "th", "tr"], ..Lists::BLOG }, "table", Reason::NoTableBody),
    (Lists { tags: &["caption", "table", "tbody", "td", "tfoot", "th", "thead"], ..Lists::BLOG }, "table", Reason::NoRow),
    (Lists { tags: &["caption", "table", "tbody", "td", "tfoot", "thead", "tr"], ..Lists::BLOG }, "table", Reason::NoCell),
    (Lists { tags: &["table", "tbody", "td", "tfoot", "th", "thead", "tr"], ..Lists::BLOG }, "table", Reason::NoCaption),
    (Lists { tags: &["p", "tr", "td"], ..Lists::BLOG }, "tr", Reason::NoTable),
];

#[test]
fn refused_words(rt: HostRuntime) {
    for (lists, word, reason) in &REFUSED_ROWS {
        let (word, reason) = (*word, *reason);
        assert!(rt;
            Policy::new(*lists) == Err(PolicyError { word, reason }),
            "{word}"
        );
    }
}

#[test]
fn any_word_may_be_a_link_key(rt: HostRuntime) {
    let lists = Lists {
        link_keys: &["cite", "href", "src", "script", ""],
        ..Lists::BLOG
    };
    assert!(rt; Policy::new(lists).is_ok());
}

#[test]
fn links_are_marked_at_a_listed_key(rt: HostRuntime) {
    let lists = Lists {
        keys: &["href", "rel"],
        nofollow_links: true,
        ..Lists::COMMENTS
    };
    assert!(rt; Policy::new(lists).is_ok());
}

#[test]
fn lists_of_the_page(rt: HostRuntime) {
    assert!(rt; Policy::blog().lists() == Lists::BLOG);
    assert!(rt; Policy::new(Lists::BLOG) == Ok(Policy::blog()));
    assert!(rt; Lists::BLOG.tags.len() == 49);
    assert!(rt; Policy::new(Lists::COMMENTS) == Ok(Policy::comments()));
    assert!(rt; Policy::new(Lists::DOCUMENTS) == Ok(Policy::documents()));
}

// A text, and what the policy for documents keeps of it.
#[rattlefmt::skip]
static KEPT_ROWS: [(&[u8], &[u8]); 6] = [
    (b"", b""),
    (b"a <b onclick=x()>b</b> < c", b"a <b>b</b> &lt; c"),
    (b"<p>a<p>b", b"<p>a</p><p>b</p>"),
    (b"<table><caption>a<tr><th>b<td>c", b"<table><caption>a</caption><tbody><tr><th>b</th><td>c</td></tr></tbody></table>"),
    (b"<table>a<form>b<tr><td><i>c", b"ab<table><tbody><tr><td><i>c</i></td></tr></tbody></table>"),
    (b"\xEF\xBB\xBFa", b"\xEF\xBB\xBFa"),
];

fn keeps(rt: &HostRuntime, policy: &Policy<'_>, text: &[u8], kept: &[u8]) -> bool {
    match sanitize_fragment(rt.alloc(), policy, text) {
        Ok(page) => page.as_slice() == kept,
        Err(_) => false,
    }
}

#[test]
fn what_is_kept(rt: HostRuntime) {
    let policy = Policy::documents();
    for (text, kept) in &KEPT_ROWS {
        assert!(rt; keeps(&rt, &policy, text, kept));
    }
}

#[test]
fn a_byte_order_mark_is_no_text(rt: HostRuntime) {
    assert!(rt; without_mark(b"\xEF\xBB\xBFa") == b"a".as_slice());
    assert!(rt; without_mark(b"\xEF\xBBa") == b"\xEF\xBBa".as_slice());
}

// Whether lists of these tags, with links that are marked, say this tag last, this key last, and
// these lines.
fn says(rt: &HostRuntime, tags: &str, tag: &str, key: &str, lines: &str) -> bool {
    let texts = ListTexts {
        own: Lists::COMMENTS,
        tags: Some(tags),
        keys: Some("href"),
        link_keys: None,
        link_prefixes: Some("/"),
        relative_links: false,
        nofollow_links: true,
        classes: Some("+hljs"),
        id_prefix: Some("x-"),
    };
    let Ok(words) = WordLists::new(rt.alloc(), &texts) else {
        return false;
    };
    let lists = words.lists();
    let Ok(text) = lines_of(rt.alloc(), &lists) else {
        return false;
    };
    lists.tags.last() == Some(&tag) && lists.keys.last() == Some(&key) && text.as_str() == lines
}

#[test]
fn lists_of_texts(rt: HostRuntime) {
    let lines =
        "--tags b,p\n--keys href,rel\n--link-keys cite,href\n--links /\n--nofollow-links\n--classes hljs\n--prefix x-\n";
    assert!(rt; says(&rt, "b,,p", "p", "rel", lines));
}
