//! The paths of `tl` that the Rust crate has too, and those of the iterators that have names here,
//! are given again: one that goes is a module that can't be read. What else `tl` adds isn't here,
//! nor are the calls and methods of these types.
use std::alloc::Global;
use std::test::Fail;

// What stands at the root.
pub mod root {
    pub use tl::{
        Attributes, AttributesIter, Bytes, Children, ChildrenMut, ClassIter, ClassVec,
        ElementsByClassName, HTMLTag, HTMLVersion, InnerNodeHandle, IntoOwnedBytes, Node,
        NodeHandle, ParseError, Parser, ParserOptions, RawAttributesMap, RawChildren, Tree, VDom,
        VDomGuard, parse, parse_owned, parse_query_selector,
    };
}

// The errors.
pub mod errors {
    pub use tl::errors::{ParseError, SetBytesError, TreeError};
}

// The containers.
pub mod inline {
    pub use tl::inline::hashmap::{InlineHashMap, InlineHashMapIterator};
    pub use tl::inline::vec::{InlineVec, InlineVecIter};
}

// The searches.
pub mod simd {
    pub use tl::simd::{
        find, find_multi, find4, is_closing, matches_case_insensitive, search_non_ident,
        search_non_name,
    };
}

// Their plain forms.
pub mod fallback {
    pub use tl::simd::fallback::{find, find_multi, search_non_ident, search_non_name};
}

// What stands at `queryselector` itself.
pub mod queries {
    pub use tl::queryselector::{Parser, QueryIterable, QuerySelectorIterator, Selector};
}

// What stands in its modules.
pub mod parts {
    pub use tl::queryselector::iter::QuerySelectorIterator;
    pub use tl::queryselector::iterable::QueryIterable;
    pub use tl::queryselector::parser::Parser;
    pub use tl::queryselector::selector::Selector;
}

// The selector of a text: by either path it is one type.
fn selector_of<'t>(alloc: Global, text: &'t str) -> Option<queries::Selector<'t>> {
    let mut reader: parts::Parser<'t> = queries::Parser::new(text.as_bytes());
    reader.selector(alloc).ok()?
}

// The number of the first node of a document that a selector finds.
fn first<'b>(document: &'b root::VDom<'_>, selector: parts::Selector<'b>) -> Option<u32> {
    match parts::QuerySelectorIterator::new(selector, document.parser(), document) {
        Ok(mut found) => match found.next() {
            Some(handle) => Some(handle.get_inner()),
            None => None,
        },
        Err(_) => None,
    }
}

// The number of the first node of a page that the selector of a text finds.
fn first_in<'t>(alloc: Global, page: &'t str, text: &'t str) -> Option<u32> {
    let document = root::parse(alloc, page, root::ParserOptions::new()).ok()?;
    let selector = selector_of(alloc, text)?;
    first(&document, selector)
}

#[test]
fn types_are_the_same_by_each_path(rt: HostRuntime) -> Result<(), Fail> {
    assert!(rt; first_in(rt.alloc(), "<a>x</a><b></b>", "b") == Some(2));
    assert!(rt; first_in(rt.alloc(), "<a><b></b></a>", "a > b") == Some(1));
    assert!(rt; fallback::find(b"ab", b'b') == simd::find(b"ab", b'b'));
    Ok(())
}
