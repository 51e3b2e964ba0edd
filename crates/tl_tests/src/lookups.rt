//! Lookups by id and by class, with maps and without.
use crate::page_edits::{Edit, Part};
use crate::pages::{Ask, AskBoth, answers, both_answer, owned_page};
use std::alloc::Global;
use std::test::Fail;
use tl::{Bytes, ElementsByClassName, NodeHandle, ParserOptions, VDom, parse};

// What is looked up.
enum Sought {
    Id(&'static [u8]),
    Class(&'static str),
}

// Whether the handles left are these, and then none for good.
fn gives(mut handles: ElementsByClassName<'_, '_>, wanted: &[u32]) -> bool {
    for number in wanted {
        if handles.next() != Some(NodeHandle::new(*number)) {
            return false;
        }
    }
    handles.next().is_none() && handles.next().is_none()
}

// Whether an answer is the one of these numbers, and none where there is none.
fn is_first(handle: Option<NodeHandle>, wanted: &[u32]) -> bool {
    match (handle, wanted) {
        (Some(handle), [number]) => handle.get_inner() == *number,
        (None, []) => true,
        _ => false,
    }
}

// Whether what is looked up is found where it must.
#[derive(Clone, Copy)]
struct Finds<'r> {
    sought: &'r Sought,
    wanted: &'r [u32],
}

impl Ask for Finds<'_> {
    fn is_answered(&self, _alloc: Global, document: &VDom<'_>) -> Result<bool, Fail> {
        let wanted = self.wanted;
        match self.sought {
            Sought::Id(id) => Ok(is_first(document.get_element_by_id(Bytes::from(*id)), wanted)),
            Sought::Class(member) => Ok(gives(document.get_elements_by_class_name(member), wanted)),
        }
    }
}

fn both() -> ParserOptions {
    ParserOptions::new().track_ids().track_classes()
}

// A page, what is looked up, and what is found, whatever is tracked.
#[rattlefmt::skip]
static READ: [(&str, Sought, &[u32]); 56] = [
    ("<a id=u54423>Hello World</a>", Sought::Id(b"u54423"), &[0]),
    ("<p id=\"a\"></p><p id=\"b\"></p>", Sought::Id(b"a"), &[0]),
    ("<p id=\"a\"></p><p id=\"b\"></p>", Sought::Id(b"b"), &[1]),
    ("<p id=\"a\"></p><p id=\"b\"></p>", Sought::Id(b"c"), &[]),
    ("<div>x<p id=a></p></div>", Sought::Id(b"a"), &[2]),
    // Of one id the first tag, in exact case.
    (TWICE, Sought::Id(b"x"), &[0]),
    (TWICE, Sought::Class("k"), &[1]),
    ("<p id=A><p id=a>", Sought::Id(b"a"), &[1]),
    ("<p class=K><p class=k>", Sought::Class("k"), &[1]),
    ("<p ID=a CLASS=k>", Sought::Id(b"a"), &[]),
    ("<p ID=a CLASS=k>", Sought::Class("k"), &[]),
    ("<p id=a><p id=b><p id=b>", Sought::Id(b"b"), &[1]),
    // An empty value is an id, and none is not.
    ("<p><p id=\"\">", Sought::Id(b""), &[1]),
    ("<p id><p id=\"\">", Sought::Id(b""), &[1]),
    ("<p id=a id>", Sought::Id(b"a"), &[]),
    ("<p id=a id=b>", Sought::Id(b"a"), &[]),
    ("<p id=a id=b>", Sought::Id(b"b"), &[0]),
    ("<p></p>", Sought::Id(b""), &[]),
    // The length, the first and the last byte of two ids, or of two members, may be the same.
    ("<p id=abc><p id=axc>", Sought::Id(b"axc"), &[1]),
    ("<p id=abc>", Sought::Id(b"axc"), &[]),
    ("<p class=\"abc m\">", Sought::Class("axc"), &[]),
    ("<p class=\"abc axc\">", Sought::Class("axc"), &[0]),
    // And two members may have the same bit in an outline.
    ("<p class=\"k m\">", Sought::Class("ab"), &[]),
    ("<p class=\"k m\"><p class=ab>", Sought::Class("ab"), &[1]),
    ("<p class=\"k m\"><p class=ab>", Sought::Class("k"), &[0]),
    // All tags with a member, each once.
    ("<p class=\"k k\"><br class=k>", Sought::Class("k"), &[0, 1]),
    ("<p class=\"k k\"><br class=k>", Sought::Class(""), &[]),
    ("<p class=k>", Sought::Class("l"), &[]),
    ("<p class=\"k m k\">", Sought::Class("k"), &[0]),
    ("<div></div><p class=\"a b\">hey</p><p></p>", Sought::Class("a"), &[1]),
    ("<p class=k></p>a<b class=m><i class=\"m k\"></i></b><i class=k>", Sought::Class("k"), &[0, 3, 4]),
    ("<p class=\"\">", Sought::Class(""), &[]),
    ("<p class=\" \">", Sought::Class(""), &[]),
    ("<p class=\"ab\">", Sought::Class("a"), &[]),
    ("<p class=\"a b\">", Sought::Class("a b"), &[]),
    // White space of ASCII parts members, and other space does not.
    (SPACES, Sought::Class("a"), &[0]),
    (SPACES, Sought::Class("b"), &[0]),
    (SPACES, Sought::Class("c"), &[0]),
    (SPACES, Sought::Class("d"), &[0]),
    (SPACES, Sought::Class("e"), &[0]),
    (SPACES, Sought::Class("f"), &[0]),
    ("<p class=\"a\x0bb\">", Sought::Class("a"), &[]),
    ("<p class=\"a\x0bb\">", Sought::Class("a\x0bb"), &[0]),
    ("<p class=\"a\u{a0}b\">", Sought::Class("a"), &[]),
    // Tags that are cut, or dropped as broken.
    ("<p id=x class=k", Sought::Id(b"x"), &[]),
    ("<p id=x class=k", Sought::Class("k"), &[]),
    ("<p id=x class=k /y><b id=x class=k>", Sought::Id(b"x"), &[1]),
    ("<p id=x class=k /y><b id=x class=k>", Sought::Class("k"), &[1]),
    // Void tags, tags that do not open, and tags that stay open.
    ("<br id=x class=k>", Sought::Id(b"x"), &[0]),
    ("<br id=x class=k>", Sought::Class("k"), &[0]),
    ("<p id=x class=k />a", Sought::Id(b"x"), &[0]),
    ("<p id=x class=k />a", Sought::Class("k"), &[0]),
    ("<p id=x class=k>a", Sought::Id(b"x"), &[0]),
    ("<p id=x class=k>a", Sought::Class("k"), &[0]),
    // Comments and texts have neither.
    ("<!-- id=x class=k -->id=x class=k", Sought::Id(b"x"), &[]),
    ("<!-- id=x class=k -->id=x class=k", Sought::Class("k"), &[]),
];

const TWICE: &str = "<img id=\"x\"><p id=\"x\" class=\"k k\">";

const SPACES: &str = "<p class=\"a\tb\nc\x0cd\re f\">";

#[test]
fn what_was_read(rt: HostRuntime) -> Result<(), Fail> {
    for (page, sought, wanted) in &READ {
        let asked = Finds { sought, wanted };
        for number in 0..4 {
            let options = ParserOptions::from_raw_checked(number).unwrap_or_default();
            let found = answers(rt.alloc(), page, options, &[], &asked)?;
            assert!(rt; found, "{page} with the options {number}");
        }
    }
    Ok(())
}

// Whether two documents answer alike.
fn agree(one: &VDom<'_>, other: &VDom<'_>, sought: &Sought) -> bool {
    match sought {
        Sought::Id(id) => {
            one.get_element_by_id(Bytes::from(*id)) == other.get_element_by_id(Bytes::from(*id))
        }
        Sought::Class(member) => one
            .get_elements_by_class_name(member)
            .eq(other.get_elements_by_class_name(member)),
    }
}

// Whether whatever any row looks up is found alike, with maps and without.
#[derive(Clone, Copy)]
struct Alike;

impl AskBoth for Alike {
    fn is_answered<'a>(
        &self,
        _alloc: Global,
        first: &VDom<'a>,
        second: &VDom<'a>,
    ) -> Result<bool, Fail> {
        for (_, sought, _) in &READ {
            if !agree(first, second, sought) {
                return Ok(false);
            }
        }
        Ok(true)
    }
}

#[test]
fn maps_and_scans(rt: HostRuntime) -> Result<(), Fail> {
    for (page, _, _) in &READ {
        let tracked = (*page, both());
        let untracked = (*page, ParserOptions::new());
        let agree = both_answer(rt.alloc(), &tracked, &untracked, &Alike)?;
        assert!(rt; agree, "{page}");
    }
    Ok(())
}

// A page, what is done to its document, what is looked up then, and what is found with maps and
// without.
type EditedRow = (
    &'static str,
    &'static [Edit],
    Sought,
    &'static [u32],
    &'static [u32],
);

const TWO: &str = "<p id=\"a\"></p><p id=\"b\"></p>";

#[rattlefmt::skip]
const MOVED: [Edit; 2] = [
    Edit::Part(0, Part::Value("id", "z")),
    Edit::Part(1, Part::Value("id", "a")),
];

#[rattlefmt::skip]
static EDITED: [EditedRow; 20] = [
    (TWO, &MOVED, Sought::Id(b"a"), &[0], &[1]),
    (TWO, &MOVED, Sought::Id(b"z"), &[], &[0]),
    (TWO, &MOVED, Sought::Id(b"b"), &[1], &[]),
    (TWO, &[Edit::SwapNodes], Sought::Id(b"a"), &[0], &[1]),
    (TWO, &[Edit::SwapTop], Sought::Id(b"a"), &[0], &[0]),
    (TWO, &[Edit::Put(0, b"t")], Sought::Id(b"a"), &[0], &[]),
    (TWO, &[Edit::Part(0, Part::Unset("id"))], Sought::Id(b"a"), &[0], &[]),
    (TWO, &[Edit::Part(0, Part::Bare("id"))], Sought::Id(b"a"), &[0], &[]),
    // An id that is not UTF-8 is one, and a class that is not has no members.
    (TWO, &[Edit::Part(1, Part::Bytes("id", b"\xff"))], Sought::Id(b"\xff"), &[], &[1]),
    (TWO, &[Edit::Part(1, Part::Bytes("id", b"\xff"))], Sought::Id(b"\xfe"), &[], &[]),
    ("<p class=k>", &[Edit::Part(0, Part::Bytes("class", b"\xff"))], Sought::Class("k"), &[0], &[]),
    ("<p class=k>", &[Edit::Part(0, Part::Bytes("class", b"k \xff"))], Sought::Class("k"), &[0], &[]),
    ("<p class=k>", &[Edit::Part(0, Part::Value("class", "m n"))], Sought::Class("n"), &[], &[0]),
    ("<p class=k><p class=k><p class=k>", &[Edit::Part(1, Part::Unset("class"))], Sought::Class("k"), &[0, 1, 2], &[0, 2]),
    // What had neither an id nor a class gets one.
    ("<p>", &[Edit::Part(0, Part::Insert("id", "a"))], Sought::Id(b"a"), &[], &[0]),
    ("<p>", &[Edit::Part(0, Part::Insert("class", "k"))], Sought::Class("k"), &[], &[0]),
    ("<p class=k>", &[Edit::Part(0, Part::Value("class", "ab"))], Sought::Class("k"), &[0], &[]),
    ("<p class=k>x<p class=m>", &[Edit::Part(2, Part::Value("class", "k k"))], Sought::Class("k"), &[0], &[0, 2]),
    // A name and a child change neither.
    (TWO, &[Edit::Part(1, Part::Name("br"))], Sought::Id(b"b"), &[1], &[1]),
    (TWO, &[Edit::Push(0, 1)], Sought::Id(b"b"), &[1], &[1]),
];

#[test]
fn what_was_edited(rt: HostRuntime) -> Result<(), Fail> {
    for (at, (page, edits, sought, by_maps, by_scans)) in EDITED.iter().enumerate() {
        let asked = Finds {
            sought,
            wanted: by_maps,
        };
        let tracked = answers(rt.alloc(), page, both(), edits, &asked)?;
        assert!(rt; tracked, "row {at} with maps");
        let asked = Finds {
            sought,
            wanted: by_scans,
        };
        let untracked = answers(rt.alloc(), page, ParserOptions::new(), edits, &asked)?;
        assert!(rt; untracked, "row {at} without");
    }
    Ok(())
}

// Whether a clone of what is left goes on where it was taken, and leaves the first one as it is.
#[derive(Clone, Copy)]
struct CloneGoesOn;

impl Ask for CloneGoesOn {
    fn is_answered(&self, _alloc: Global, document: &VDom<'_>) -> Result<bool, Fail> {
        let mut handles = document.get_elements_by_class_name("k");
        let first = handles.next();
        let copy = handles.clone()?;
        Ok(first == Some(NodeHandle::new(0)) && gives(copy, &[1, 2]) && gives(handles, &[1, 2]))
    }
}

#[test]
fn clones_of_what_is_left(rt: HostRuntime) -> Result<(), Fail> {
    for options in [both(), ParserOptions::new()] {
        let page = "<p class=k><p class=k><p class=k>";
        let goes_on = answers(rt.alloc(), page, options, &[], &CloneGoesOn)?;
        assert!(rt; goes_on, "{options:?}");
    }
    Ok(())
}

// Whether the tag with an id, which need not live as long as the document, has this text.
#[derive(Clone, Copy)]
struct HasText<'r> {
    id: &'r str,
    wanted: &'r str,
}

impl Ask for HasText<'_> {
    fn is_answered(&self, alloc: Global, document: &VDom<'_>) -> Result<bool, Fail> {
        let parser = document.parser();
        match document.get_element_by_id(Bytes::from(self.id)) {
            Some(handle) => match handle.get(parser) {
                Some(node) => Ok(node.inner_text(alloc, parser)?.as_str() == self.wanted),
                None => Ok(false),
            },
            None => Ok(false),
        }
    }
}

#[test]
fn text_of_an_id(rt: HostRuntime) -> Result<(), Fail> {
    let id = format!(in rt.alloc(); "u{}", 54423)?;
    let asked = HasText {
        id: id.as_str(),
        wanted: "Hello World",
    };
    let found = answers(
        rt.alloc(),
        "<a id=u54423>Hello World</a>",
        both(),
        &[],
        &asked,
    )?;
    assert!(rt; found);
    Ok(())
}

// A page of tags, of which every third has the class member `k`.
fn page_of(alloc: Global, tags: u32) -> Result<String, Fail> {
    let mut page = String::new(alloc);
    for number in 0..tags {
        let tag = if number % 3 == 0 {
            "<br class=\"a k\">"
        } else {
            "<br>"
        };
        page.push_str(tag)?;
    }
    Ok(page)
}

// Whether every third tag is found by its class, and no other.
fn looks_up_thirds(document: &VDom<'_>, tags: u32) -> bool {
    let mut handles = document.get_elements_by_class_name("k");
    for number in 0..tags {
        if number % 3 == 0 && handles.next() != Some(NodeHandle::new(number)) {
            return false;
        }
    }
    handles.next().is_none() && handles.next().is_none()
}

// Whether every third tag is found by a selector, and no other.
fn selects_thirds(alloc: Global, document: &VDom<'_>, tags: u32) -> bool {
    let Ok(Some(mut handles)) = document.query_selector(alloc, ".k") else {
        return false;
    };
    for number in 0..tags {
        if number % 3 == 0 && handles.next() != Some(NodeHandle::new(number)) {
            return false;
        }
    }
    handles.next().is_none() && handles.next().is_none()
}

fn finds_thirds(alloc: Global, document: &VDom<'_>, tags: u32) -> bool {
    looks_up_thirds(document, tags) && selects_thirds(alloc, document, tags)
}

// Whether they are found in a page of so many tags.
fn page_finds_thirds(alloc: Global, tags: u32) -> Result<bool, Fail> {
    let page = page_of(alloc, tags)?;
    let guard = owned_page(alloc, page.as_str(), ParserOptions::new())?;
    let document = parse(alloc, page.as_str(), ParserOptions::new())?;
    Ok(finds_thirds(alloc, &document, tags) && finds_thirds(alloc, guard.get_ref(), tags))
}

// Classes are looked at 64 nodes at a time.
#[test]
fn classes_of_many_tags(rt: HostRuntime) -> Result<(), Fail> {
    for tags in [1, 63, 64, 65, 127, 128, 129, 200] {
        let found = page_finds_thirds(rt.alloc(), tags)?;
        assert!(rt; found, "{tags} tags");
    }
    Ok(())
}
