//! Selector texts: which selectors they stand for, and which of them stand for none.
use std::alloc::Global;
use std::fmt::Write;
use std::str;
use std::test::Fail;
use tl::parse_query_selector;
use tl::queryselector::{Parser, Selector};

// Writes a word and, in brackets, a name.
fn show_name(word: &str, name: &[u8], out: &mut String) -> bool {
    match str::from_utf8(name) {
        Ok(name) => write!(out, "{word}({name})").is_ok(),
        Err(_) => false,
    }
}

// Writes an operator between a key and a value, in square brackets.
fn show_test(operator: &str, key: &[u8], value: &[u8], out: &mut String) -> bool {
    match (str::from_utf8(key), str::from_utf8(value)) {
        (Ok(key), Ok(value)) => write!(out, "[{key} {operator} {value}]").is_ok(),
        _ => false,
    }
}

fn open(word: &str, out: &mut String) -> bool {
    write!(out, "{word}(").is_ok()
}

fn part(out: &mut String) -> bool {
    out.push_str(", ").is_ok()
}

fn close(out: &mut String) -> bool {
    out.push(')').is_ok()
}

// Writes a selector.
fn show(selector: &Selector<'_>, out: &mut String) -> bool {
    match selector {
        Selector::Tag(name) => show_name("Tag", name, out),
        Selector::Id(id) => show_name("Id", id, out),
        Selector::Class(member) => show_name("Class", member, out),
        Selector::All => out.push_str("All").is_ok(),
        Selector::And(a, b) => {
            open("And", out) && show(a, out) && part(out) && show(b, out) && close(out)
        }
        Selector::Or(a, b) => {
            open("Or", out) && show(a, out) && part(out) && show(b, out) && close(out)
        }
        Selector::Descendant(a, b) => {
            open("Descendant", out) && show(a, out) && part(out) && show(b, out) && close(out)
        }
        Selector::Parent(a, b) => {
            open("Parent", out) && show(a, out) && part(out) && show(b, out) && close(out)
        }
        Selector::Attribute(key) => show_name("Attribute", key, out),
        Selector::AttributeValue(key, value) => show_test("=", key, value, out),
        Selector::AttributeValueWhitespacedContains(key, value) => {
            show_test("~=", key, value, out)
        }
        Selector::AttributeValueStartsWith(key, value) => show_test("^=", key, value, out),
        Selector::AttributeValueEndsWith(key, value) => show_test("$=", key, value, out),
        Selector::AttributeValueSubstring(key, value) => show_test("*=", key, value, out),
    }
}

// Whether a text stands for this, where `none` stands for no selector.
fn stands_for(alloc: Global, text: &str, wanted: &str) -> bool {
    let mut out = String::new(alloc);
    let is_shown = match parse_query_selector(alloc, text) {
        Ok(Some(selector)) => show(&selector, &mut out),
        Ok(None) => out.push_str("none").is_ok(),
        Err(_) => false,
    };
    is_shown && out.as_str() == wanted
}

// Texts, and what they stand for.
const ROWS: &[(&str, &str)] = &[
    ("div#test", "And(Tag(div), Id(test))"),
    ("a.b, c", "Or(And(Tag(a), Class(b)), Tag(c))"),
    ("a, b, c", "Or(Or(Tag(a), Tag(b)), Tag(c))"),
    ("a b.c", "And(Descendant(Tag(a), Tag(b)), Class(c))"),
    ("a > b > c", "Parent(Parent(Tag(a), Tag(b)), Tag(c))"),
    (
        "a b > c d",
        "Descendant(Parent(Descendant(Tag(a), Tag(b)), Tag(c)), Tag(d))",
    ),
    (
        "a b, c > d",
        "Or(Descendant(Tag(a), Tag(b)), Parent(Tag(c), Tag(d)))",
    ),
    ("a,", "none"),
    (",a", "none"),
    ("a,,b", "none"),
    ("a >", "none"),
    ("a > ", "none"),
    ("> a", "none"),
    ("a > > b", "none"),
    ("a > , b", "none"),
    ("a b ,", "none"),
    ("", "none"),
    (" ", "none"),
    ("a ", "Tag(a)"),
    ("  a", "Tag(a)"),
    (" a , b ", "Or(Tag(a), Tag(b))"),
    ("a,b", "Or(Tag(a), Tag(b))"),
    ("a>b", "Parent(Tag(a), Tag(b))"),
    ("a  >  b", "Parent(Tag(a), Tag(b))"),
    ("a >b", "Parent(Tag(a), Tag(b))"),
    ("a\tb", "none"),
    ("a\nb", "none"),
    ("*a", "And(All, Tag(a))"),
    ("**", "And(All, All)"),
    ("#", "Id()"),
    (".", "Class()"),
    (". a", "Descendant(Class(), Tag(a))"),
    ("#a.b", "And(Id(a), Class(b))"),
    ("a:b", "Tag(a:b)"),
    ("a+b", "Tag(a+b)"),
    ("a/b", "Tag(a/b)"),
    ("a~b", "none"),
    ("\u{e9}", "none"),
    ("[a/b]", "Attribute(a/b)"),
    ("[a]", "Attribute(a)"),
    ("[]", "Attribute()"),
    ("[a", "none"),
    ("a]", "none"),
    ("[a]b", "And(Attribute(a), Tag(b))"),
    ("[a=x]", "[a = x]"),
    ("[a=]", "[a = ]"),
    ("[=]", "[ = ]"),
    ("[a=\"\"]", "[a = ]"),
    ("[a=\"x\"]", "[a = x]"),
    ("[a='x']", "[a = x]"),
    ("[a=\"x\"", "none"),
    ("[a='x\"]", "none"),
    ("[a=\"x']", "none"),
    ("[a='b\"]", "none"),
    ("[a=x\"]", "none"),
    ("[a = b]", "none"),
    ("[ a]", "none"),
    ("[a ]", "none"),
    ("[a=\"x y\"]", "none"),
    ("[href=\"http://x.y\"]", "none"),
    ("[href=\"http:/x\"]", "[href = http:/x]"),
    ("[a~=x]", "[a ~= x]"),
    ("[a^=x]", "[a ^= x]"),
    ("[a^=]", "[a ^= ]"),
    ("[a$=x]", "[a $= x]"),
    ("[a*=x]", "[a *= x]"),
    ("[a*x]", "none"),
    ("[a!=x]", "none"),
    ("[a~x]", "none"),
    (
        "meta[property=\"og:title\"]",
        "And(Tag(meta), [property = og:title])",
    ),
];

#[test]
fn texts_stand_for_selectors(rt: HostRuntime) {
    for (text, wanted) in ROWS {
        assert!(rt; stands_for(rt.alloc(), text, wanted), "{text:?}");
    }
}

// Whether a second call finds nothing more.
fn ends(alloc: Global, parser: &mut Parser<'_>) -> bool {
    match parser.selector(alloc) {
        Ok(None) => true,
        _ => false,
    }
}

// Whether a reader finds a selector as it must, and then nothing.
fn finds_once(alloc: Global, text: &[u8], wanted: bool) -> bool {
    let mut parser = Parser::new(text);
    let is_found = match parser.selector(alloc) {
        Ok(found) => found.is_some(),
        Err(_) => !wanted,
    };
    is_found == wanted && ends(alloc, &mut parser) && ends(alloc, &mut parser)
}

// Bytes, and whether they stand for a selector.
const READINGS: &[(&[u8], bool)] = &[
    (b"a b", true),
    (b"a,", false),
    (b"", false),
    (b"a\xff", false),
    (b"\xff", false),
];

#[test]
fn readers_end_after_an_answer(rt: HostRuntime) {
    for (text, wanted) in READINGS {
        assert!(rt; finds_once(rt.alloc(), text, *wanted), "{text:?}");
    }
}

// Whether a clone is written as what it was made of.
fn clones_alike(alloc: Global, selector: &Selector<'_>) -> bool {
    let mut first = String::new(alloc);
    let mut second = String::new(alloc);
    match selector.clone() {
        Ok(copy) => show(selector, &mut first)
            && show(&copy, &mut second)
            && first.as_str() == second.as_str(),
        Err(_) => false,
    }
}

#[test]
fn clones_are_alike(rt: HostRuntime) -> Result<(), Fail> {
    let alloc = rt.alloc();
    for (text, _) in ROWS {
        if let Some(selector) = parse_query_selector(alloc, text)? {
            assert!(rt; clones_alike(alloc, &selector), "{text:?}");
        }
    }
    Ok(())
}

// Whether the selector of a text has this debug text.
fn has_debug_text(alloc: Global, text: &str, wanted: &str) -> bool {
    let Ok(Some(selector)) = parse_query_selector(alloc, text) else {
        return false;
    };
    match format!(in alloc; "{selector:?}") {
        Ok(debug) => debug.as_str() == wanted,
        Err(_) => false,
    }
}

// Texts of each kind of selector, and its debug text.
#[rattlefmt::skip]
static DEBUG_TEXTS: [(&str, &str); 15] = [
    ("a", "Tag([97])"),
    ("#a", "Id([97])"),
    (".a", "Class([97])"),
    ("*", "All"),
    ("a.b", "And { second: Class([98]), first: Tag([97]) }"),
    ("a, b", "Or { second: Tag([98]), first: Tag([97]) }"),
    ("a b", "Descendant { second: Tag([98]), first: Tag([97]) }"),
    ("a > b", "Parent { second: Tag([98]), first: Tag([97]) }"),
    ("a > b c", "Descendant { second: Tag([99]), first: Parent { second: Tag([98]), first: Tag([97]) } }"),
    ("[a]", "Attribute([97])"),
    ("[a=b]", "AttributeValue([97], [98])"),
    ("[a~=b]", "AttributeValueWhitespacedContains([97], [98])"),
    ("[a^=b]", "AttributeValueStartsWith([97], [98])"),
    ("[a$=b]", "AttributeValueEndsWith([97], [98])"),
    ("[a*=b]", "AttributeValueSubstring([97], [98])"),
];

#[test]
fn selectors_have_debug_texts(rt: HostRuntime) {
    for (text, wanted) in &DEBUG_TEXTS {
        assert!(rt; has_debug_text(rt.alloc(), text, wanted), "{text:?}");
    }
}
