//! Texts that are no selectors, with the byte that is wrong and the cause.
use std::alloc::{AllocError, Global};
use tl_css::{Cause, SelectorError, parse};

#[rattlefmt::skip]
static REFUSED: [(&str, usize, Cause); 102] = [
    ("", 0, Cause::NoSelector),
    (" ", 1, Cause::NoSelector),
    ("a,", 2, Cause::NoSelector),
    (",a", 0, Cause::NoSelector),
    ("a,,b", 2, Cause::NoSelector),
    ("a >", 3, Cause::NoSelector),
    ("> a", 0, Cause::NoSelector),
    ("a > > b", 4, Cause::NoSelector),
    ("a > , b", 4, Cause::NoSelector),
    ("a)", 1, Cause::NoSelector),
    ("a )", 2, Cause::NoSelector),
    (":is()", 4, Cause::NoSelector),
    (":is(", 4, Cause::NoSelector),
    (":is(a,)", 6, Cause::NoSelector),
    (":not(> a)", 5, Cause::NoSelector),
    (":has(> > a)", 7, Cause::NoSelector),
    (":has(a >)", 8, Cause::NoSelector),
    (".", 1, Cause::NoName),
    ("#", 1, Cause::NoName),
    ("a.", 2, Cause::NoName),
    (". a", 1, Cause::NoName),
    (":", 1, Cause::NoName),
    ("./**/ a", 5, Cause::NoName),
    ("a: root", 2, Cause::NoName),
    ("[", 1, Cause::NoName),
    ("[]", 1, Cause::NoName),
    ("[=v]", 1, Cause::NoName),
    ("[*=v]", 1, Cause::NoName),
    (".\\\n", 1, Cause::NoName),
    ("|", 1, Cause::NoName),
    ("*|", 2, Cause::NoName),
    ("| p", 1, Cause::NoName),
    ("*| p", 2, Cause::NoName),
    ("a || b", 3, Cause::NoName),
    ("[|]", 2, Cause::NoName),
    ("[*|=v]", 3, Cause::NoName),
    ("[| k]", 2, Cause::NoName),
    ("[* |k]", 1, Cause::NoName),
    ("\\", 0, Cause::Unexpected),
    ("p\\", 1, Cause::Unexpected),
    ("p\\\n", 1, Cause::Unexpected),
    ("[k v]", 3, Cause::NoOperator),
    ("[k!=v]", 2, Cause::NoOperator),
    ("[k#=v]", 2, Cause::NoOperator),
    ("[k~v]", 2, Cause::NoOperator),
    ("[k:=v]", 2, Cause::NoOperator),
    ("[k=]", 3, Cause::NoValue),
    ("[k= ]", 4, Cause::NoValue),
    ("[k==v]", 3, Cause::NoValue),
    ("[k~= ]", 5, Cause::NoValue),
    ("[k=v x]", 5, Cause::NoFlag),
    ("[k=v is]", 5, Cause::NoFlag),
    ("[k=v i i]", 7, Cause::Unexpected),
    ("[k=v=]", 4, Cause::Unexpected),
    ("[k='v' .]", 7, Cause::Unexpected),
    ("[k", 0, Cause::Unclosed),
    ("a[k=", 1, Cause::Unclosed),
    ("a[k=v", 1, Cause::Unclosed),
    ("a[k=v i", 1, Cause::Unclosed),
    ("a[k=\"v", 4, Cause::Unclosed),
    ("a[k='v\n']", 4, Cause::Unclosed),
    ("a[k='v\\", 4, Cause::Unclosed),
    ("a[k='v\"]", 4, Cause::Unclosed),
    ("a /* b", 2, Cause::Unclosed),
    ("a/*/", 1, Cause::Unclosed),
    ("a:not(p", 5, Cause::Unclosed),
    (":is(a:not(b)", 3, Cause::Unclosed),
    (":nth-child(", 10, Cause::Unclosed),
    (":nth-child(2", 10, Cause::Unclosed),
    (":nth-child(2 of p", 10, Cause::Unclosed),
    (":nth-child()", 11, Cause::NoFormula),
    (":nth-child(a)", 11, Cause::NoFormula),
    (":nth-child(+ 1)", 12, Cause::NoFormula),
    (":nth-child(2a)", 12, Cause::NoFormula),
    (":nth-child(2 n)", 13, Cause::NoFormula),
    (":nth-child(2n1)", 13, Cause::NoFormula),
    (":nth-child(2n + +1)", 16, Cause::NoFormula),
    (":nth-child(n--1)", 13, Cause::NoFormula),
    (":nth-child(evenly)", 11, Cause::NoFormula),
    (":nth-child(2 of)", 15, Cause::NoSelector),
    (":nth-child(2of p)", 12, Cause::NoFormula),
    (":nth-of-type(2 of p)", 15, Cause::NoFormula),
    (":nth-child(2 off p)", 13, Cause::NoFormula),
    (":nth-child(2147483648)", 11, Cause::LargeNumber),
    (":nth-child(n+99999999999999999999999)", 13, Cause::LargeNumber),
    (":hover", 1, Cause::NoPseudoClass),
    ("a:Hover()", 2, Cause::NoPseudoClass),
    (":contains(\"x\")", 1, Cause::NoPseudoClass),
    (":first-childs", 1, Cause::NoPseudoClass),
    (":-webkit-any(p)", 1, Cause::NoPseudoClass),
    ("p::before", 1, Cause::PseudoElement),
    ("::slotted(p)", 0, Cause::PseudoElement),
    ("svg|a", 3, Cause::Namespace),
    ("*|*|p", 3, Cause::Namespace),
    ("#x|p", 2, Cause::Namespace),
    ("[a|b]", 2, Cause::Namespace),
    ("[*|a|b]", 4, Cause::Namespace),
    (":not", 4, Cause::NeedsArgument),
    (":nth-child", 10, Cause::NeedsArgument),
    (":not (p)", 4, Cause::NeedsArgument),
    ("p:first-child()", 13, Cause::TakesNone),
    (":root(p)", 5, Cause::TakesNone),
];

#[rattlefmt::skip]
static UNEXPECTED: [(&str, usize); 8] = [
    ("a*", 1),
    ("[k]p", 3),
    (":not(a)b", 7),
    ("a/**/b", 5),
    ("a!", 1),
    ("a $ b", 2),
    ("\"a\"", 0),
    ("{}", 0),
];

// Whether a text is refused at this byte, for this cause.
fn is_refused(alloc: Global, text: &str, at: usize, cause: Cause) -> bool {
    match parse(alloc, text) {
        Ok(_) => false,
        Err(error) => error == SelectorError::Text { at, cause },
    }
}

#[test]
fn texts_are_refused(rt: HostRuntime) {
    for (row, (text, at, cause)) in REFUSED.iter().enumerate() {
        assert!(rt; is_refused(rt.alloc(), text, *at, *cause), "row {row}");
    }
}

#[test]
fn bytes_are_unexpected(rt: HostRuntime) {
    for (row, (text, at)) in UNEXPECTED.iter().enumerate() {
        assert!(rt;
            is_refused(rt.alloc(), text, *at, Cause::Unexpected),
            "row {row}"
        );
    }
}

// So many lists inside one another.
fn nested(alloc: Global, times: usize) -> Result<String, AllocError> {
    let mut text = String::new(alloc);
    for _ in 0..times {
        text.push_str("a:is(")?;
    }
    text.push('a')?;
    for _ in 0..times {
        text.push(')')?;
    }
    Ok(text)
}

// Where it is refused, if so, for its depth; `None` too where it is refused for something else.
fn depth_place(alloc: Global, times: usize) -> Option<usize> {
    let text = nested(alloc, times).ok()?;
    match parse(alloc, text.as_str()) {
        Err(
            SelectorError::Text {
                at,
                cause: Cause::TooDeep,
            },
        ) => Some(at),
        _ => None,
    }
}

fn is_nested(alloc: Global, times: usize) -> bool {
    match nested(alloc, times) {
        Ok(text) => parse(alloc, text.as_str()).is_ok(),
        Err(_) => false,
    }
}

#[test]
fn depth_is_limited(rt: HostRuntime) {
    assert!(rt; is_nested(rt.alloc(), 58));
    assert_eq!(rt; depth_place(rt.alloc(), 59), Some(291));
    assert_eq!(rt; depth_place(rt.alloc(), 1000), Some(291));
}

// Whether this is what is said of an error about a text.
fn is_described(alloc: Global, error: SelectorError, text: &str, wanted: &str) -> bool {
    match format!(in alloc; "{}", error.describe(text)) {
        Ok(said) => said.as_str() == wanted,
        Err(_) => false,
    }
}

#[test]
fn errors_without_a_word_are_described(rt: HostRuntime) {
    let memory = SelectorError::OutOfMemory;
    assert!(rt; is_described(rt.alloc(), memory, "a", "out of memory"));
}
