//! Documents that keep their text.
use crate::pages::{Ask, answers, owned_page};
use std::alloc::Global;
use std::io;
use std::io::Read;
use std::test::Fail;
use tl::{Bytes, Node, NodeHandle, ParserOptions, VDom, VDomGuard, parse, parse_owned};

// Whether the document is one comment without bytes, which are there for good or not.
fn is_empty_comment(document: &VDom<'_>, for_good: bool) -> bool {
    match document.nodes().first() {
        Some(Node::Comment(bytes)) => {
            document.nodes().len() == 1
                && bytes.as_bytes().is_empty()
                && bytes.as_bytes_borrowed().is_some() == for_good
        }
        _ => false,
    }
}

// Whether they are there for good where the page is borrowed, and not where it is kept.
fn empty_pieces_are_shared(alloc: Global) -> Result<bool, Fail> {
    let document = parse(alloc, "<!--a", ParserOptions::new())?;
    let guard = owned_page(alloc, "<!--a", ParserOptions::new())?;
    Ok(is_empty_comment(&document, true) && is_empty_comment(guard.get_ref(), false))
}

#[test]
fn empty_pieces_are_shares(rt: HostRuntime) -> Result<(), Fail> {
    let shared = empty_pieces_are_shared(rt.alloc())?;
    assert!(rt; shared);
    Ok(())
}

const HELLO: &str = "<p id=\"test\">hello</p>";

// Whether node 0 has this text.
fn has_text(alloc: Global, document: &VDom<'_>, wanted: &str) -> bool {
    match document.nodes().first() {
        Some(node) => match node.inner_text(alloc, document.parser()) {
            Ok(text) => text.as_str() == wanted,
            Err(_) => false,
        },
        None => false,
    }
}

// Whether the page has its text and its id.
#[derive(Clone, Copy)]
struct IsHello;

impl Ask for IsHello {
    fn is_answered(&self, alloc: Global, document: &VDom<'_>) -> Result<bool, Fail> {
        let found = document.get_element_by_id(Bytes::from("test"));
        Ok(found == Some(NodeHandle::new(0)) && has_text(alloc, document, "hello"))
    }
}

#[test]
fn texts_and_ids(rt: HostRuntime) -> Result<(), Fail> {
    for number in 0..4 {
        let options = ParserOptions::from_raw_checked(number).unwrap_or_default();
        let is_hello = answers(rt.alloc(), HELLO, options, &[], &IsHello)?;
        assert!(rt; is_hello, "with the options {number}");
    }
    Ok(())
}

// Sets the name of node 0, and answers what it was where that was owned.
fn set_name(
    alloc: Global,
    document: &mut VDom<'static>,
    name: &str,
) -> Result<Option<Vec<u8>>, Fail> {
    match document.parser_mut().resolve_node_id_mut(0) {
        Some(Node::Tag(tag)) => match tag.name_mut().set(alloc, name) {
            Ok(old) => Ok(old),
            Err(_) => Err(Fail::from("not set")),
        },
        _ => Err(Fail::from("no tag")),
    }
}

// Whether the first name that is set gives nothing back, and the second one the first; then what
// the document prints.
fn names_are_set(alloc: Global, document: &mut VDom<'static>) -> Result<bool, Fail> {
    let first = set_name(alloc, document, "b")?;
    let second = set_name(alloc, document, "c")?;
    let print = document.outer_html(alloc)?;
    Ok(
        first.is_none()
            && second.is_some_and(|old| old.as_slice() == b"b".as_slice())
            && print.as_str() == "<c id=\"test\">hello</c>",
    )
}

fn names_are_set_in_both(alloc: Global) -> Result<bool, Fail> {
    let mut guard = owned_page(alloc, HELLO, ParserOptions::new())?;
    let mut document = parse(alloc, HELLO, ParserOptions::new())?;
    Ok(names_are_set(alloc, guard.get_mut_ref())? && names_are_set(alloc, &mut document)?)
}

#[test]
fn a_name_that_is_set_is_owned(rt: HostRuntime) -> Result<(), Fail> {
    let set = names_are_set_in_both(rt.alloc())?;
    assert!(rt; set);
    Ok(())
}

// The document of a page that is read here: it keeps the text, so it can be given on. The README
// shows this and its caller.
pub fn read_page(alloc: Global, reader: impl Read + Drop) -> Option<VDomGuard> {
    let text = io::read_to_string(alloc, reader).ok()?;
    parse_owned(alloc, text, ParserOptions::new().track_ids()).ok()
}

// The node with an id, cloned out of its document, which is given up here.
pub fn node_of(alloc: Global, reader: impl Read + Drop, id: &str) -> Option<Node<'static>> {
    let guard = read_page(alloc, reader)?;
    let document = guard.get_ref();
    let handle = document.get_element_by_id(Bytes::from(id))?;
    handle.get(document.parser())?.clone().ok()
}

// Whether the node of an id is a tag of a name, where there is one.
fn is_named(alloc: Global, id: &str, name: &str) -> Option<bool> {
    match node_of(alloc, HELLO.as_bytes(), id)? {
        Node::Tag(tag) => Some(tag.name().eq_str(name)),
        _ => Some(false),
    }
}

#[test]
fn a_clone_outlives_the_guard(rt: HostRuntime) {
    assert!(rt; is_named(rt.alloc(), "test", "p") == Some(true));
    assert!(rt; is_named(rt.alloc(), "p", "p") == None);
}
