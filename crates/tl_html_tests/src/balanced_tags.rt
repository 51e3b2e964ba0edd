//! Lists of tags, as they are written with the end tags that are left out.
use crate::answers::is_written;
use std::alloc::{AllocError, Global};
use tl_html_balance::{OpenTags, Opening, PutIn, TagName};

// Tags without their brackets, and the same balanced. `#` stands for a text.
#[rattlefmt::skip]
static ROWS: [(&str, &str); 20] = [
    ("", ""),
    ("p # p #", "p # /p p # /p"),
    ("ul li # li # /ul", "ul li # /li li # /li /ul"),
    ("table tr td # td # tr td #", "table tr td # /td td # /td /tr tr td # /td /tr /table"),
    ("b # /i # /b", "b # # /b"),
    ("b p # /b /p", "b p # /p /b"),
    ("/p", "p /p"),
    ("/br", "br"),
    ("br br/", "br br"),
    ("div/ #", "div # /div"),
    ("svg path/ path /svg", "svg path /path path /path /svg"),
    ("svg/ #", "svg /svg #"),
    ("svg title/ # /svg", "svg title # /title /svg"),
    ("html head title # /title #", "html head title # /title /head # /html"),
    ("html body body # html", "html body # /body /html"),
    ("form form # /form #", "form # /form #"),
    ("tr td #", "#"),
    ("frame #", "frame /frame #"),
    ("dl dt # dd # dt #", "dl dt # /dt dd # /dd dt # /dt /dl"),
    ("h1 # h2 #", "h1 # /h1 h2 # /h2"),
];

fn push_tag(out: &mut Vec<u8>, sign: &[u8], name: &[u8]) -> Result<(), AllocError> {
    if !out.is_empty() {
        out.push(b' ')?;
    }
    out.extend_from_slice(sign)?;
    out.extend_from_slice(name)
}

fn close(tags: &mut OpenTags, out: &mut Vec<u8>, count: usize) -> Result<(), AllocError> {
    for place in 0..count {
        if let Some(name) = tags.name(place) {
            push_tag(out, b"/", name)?;
        }
    }
    tags.close(count);
    Ok(())
}

fn put_start(
    tags: &mut OpenTags,
    out: &mut Vec<u8>,
    name: &[u8],
    closes: bool,
) -> Result<(), AllocError> {
    let name = TagName::new(name);
    if tags.is_dropped(&name) {
        return Ok(());
    }
    let count = tags.closed_before_start(&name);
    close(tags, out, count)?;
    push_tag(out, b"", name.bytes())?;
    match tags.opening(&name, closes) {
        Opening::Void => Ok(()),
        Opening::ClosedAtOnce => push_tag(out, b"/", name.bytes()),
        Opening::Open => tags.push(&name),
    }
}

fn put_end(tags: &mut OpenTags, out: &mut Vec<u8>, name: &[u8]) -> Result<(), AllocError> {
    let name = TagName::new(name);
    let put_in = tags.put_in(&name);
    let count = tags.closed_by_end(&name);
    close(tags, out, count)?;
    match put_in {
        PutIn::Nothing => Ok(()),
        PutIn::LineBreak => push_tag(out, b"", name.bytes()),
        PutIn::Paragraph => {
            push_tag(out, b"", name.bytes())?;
            push_tag(out, b"/", name.bytes())
        }
    }
}

fn put_word(tags: &mut OpenTags, out: &mut Vec<u8>, word: &[u8]) -> Result<(), AllocError> {
    if word == b"#".as_slice() {
        let count = tags.closed_before_text(false);
        close(tags, out, count)?;
        return push_tag(out, b"", word);
    }
    if let Some(name) = word.strip_prefix(b"/") {
        return put_end(tags, out, name);
    }
    match word.strip_suffix(b"/") {
        Some(name) => put_start(tags, out, name, true),
        None => put_start(tags, out, word, false),
    }
}

fn balanced(alloc: Global, words: &str) -> Result<Vec<u8>, AllocError> {
    let mut tags = OpenTags::new(alloc);
    let mut out = Vec::new(alloc);
    for word in words.split(' ') {
        if !word.is_empty() {
            put_word(&mut tags, &mut out, word.as_bytes())?;
        }
    }
    let count = tags.len();
    close(&mut tags, &mut out, count)?;
    Ok(out)
}

#[test]
fn lists_are_balanced(rt: HostRuntime) {
    for (words, expected) in &ROWS {
        assert!(rt;
            is_written(balanced(rt.alloc(), words), expected.as_bytes()),
            "{words}"
        );
    }
}
