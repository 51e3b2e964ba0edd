//! The encoding that a page says in a tag `meta`.
ghost use Rattle.std.specs.Prelude.{◌≡◌, codes, option_map};
ghost use Rattle.tl_encoding.specs.Charset.{charset_of, comment_end, head, is_content_type, is_markup, is_meta, is_tag, item_end, label_in_content, label_known, label_said, meta_label, prescanned};
ghost use Rattle.tl_encoding.specs.Attributes.{value_at};

use crate::attribute::{tag_end, value_at};
use crate::content::content_label;
use crate::labels::{is_label, trimmed};
use crate::run::{ByteClass, after, begins_of, begins_with, from_word, without};

// How many bytes of a page, at most, say its encoding.
const HEAD: usize = 1024;

// Whether a tag `meta` stands here: white space or a slash stands after its name.
fn is_meta(bytes: &[u8]) -> bool
    ensures { result ≡ is_meta bytes.now }
{
    begins_with(bytes, "<meta") && begins_of(ByteClass::Gap, &bytes[5..])
}

// Whether a start tag or an end tag stands here.
fn is_tag(bytes: &[u8]) -> bool
    ensures { result ≡ is_tag bytes.now }
{
    (begins_with(bytes, "<") && begins_of(ByteClass::Letter, &bytes[1..]))
        || (begins_with(bytes, "</") && begins_of(ByteClass::Letter, &bytes[2..]))
}

// Whether other markup stands here, which ends at the next `>`.
fn is_markup(bytes: &[u8]) -> bool
    ensures { result ≡ is_markup bytes.now }
{
    begins_with(bytes, "<!") || begins_with(bytes, "</") || begins_with(bytes, "<?")
}

// A comment from the `>` of its first `-->` on.
fn comment_end(bytes: &[u8]) -> &[u8]
    ensures { result.now ≡ comment_end bytes.now }
{
    without(2, from_word("-->", bytes))
}

// The last byte of what stands here, and what stands after it.
fn item_end(bytes: &[u8]) -> &[u8]
    ensures { result.now ≡ item_end bytes.now }
{
    if begins_with(bytes, "<!--") {
        comment_end(&bytes[2..])
    } else if is_meta(bytes) {
        tag_end(&bytes[5..])
    } else if is_tag(bytes) {
        tag_end(after(ByteClass::Bare, bytes))
    } else if is_markup(bytes) {
        after(ByteClass::Except(b'>'), bytes)
    } else {
        bytes
    }
}

// Whether `http-equiv` says that `content` is the type of the page.
fn is_content_type(tag: &[u8]) -> bool
    ensures { result ≡ is_content_type (value_at (codes "http-equiv") tag.now) }
{
    match value_at("http-equiv", tag) {
        Some(value) => value.eq_ignore_ascii_case(b"content-type"),
        None => false,
    }
}

// The label in `content`, where it counts.
fn label_in_content(tag: &[u8]) -> Option<&[u8]>
    ensures { option_map (λ label. label.now) result ≡ label_in_content tag.now }
{
    if !is_content_type(tag) {
        return None;
    }
    content_label(value_at("content", tag)?)
}

// The label that a tag `meta` says.
fn label_said(tag: &[u8]) -> Option<&[u8]>
    ensures { option_map (λ label. label.now) result ≡ label_said tag.now }
{
    match value_at("charset", tag) {
        Some(label) => Some(label),
        None => label_in_content(tag),
    }
}

// A label of the encoding standard, without white space around it.
pub(crate) fn label_known(label: &[u8]) -> Option<&[u8]>
    ensures { option_map (λ label. label.now) result ≡ label_known label.now }
{
    let label = trimmed(label);
    if is_label(label) { Some(label) } else { None }
}

// The label of the tag `meta` that stands here, if it has an end.
fn meta_label(bytes: &[u8]) -> Option<&[u8]>
    ensures { option_map (λ label. label.now) result ≡ meta_label bytes.now }
{
    if !is_meta(bytes) {
        return None;
    }
    let tag = &bytes[5..];
    if tag_end(tag).is_empty() {
        return None;
    }
    label_known(label_said(tag)?)
}

// The label that the first bytes of a page say.
#[tactic(auto, using(crate::proofs::Steps::steps))]
fn prescanned(head: &[u8]) -> Option<&[u8]>
    ensures { option_map (λ label. label.now) result ≡ prescanned head.now }
{
    let mut rest = head;
    // each step takes a byte at least
    for _step in 0..head.len() {
        if let Some(label) = meta_label(rest) {
            return Some(label);
        }
        rest = without(1, item_end(rest));
    }
    None
}

// The bytes of a page that may say its encoding.
pub(crate) fn head(page: &[u8]) -> &[u8]
    ensures { result.now ≡ head page.now }
{
    if page.len() < HEAD {
        page
    } else {
        &page[..HEAD]
    }
}

/// The label of an encoding that a page says in a tag `meta` among its first 1,024 bytes.
pub(crate) fn charset_of(page: &[u8]) -> Option<&[u8]>
    ensures { option_map (λ label. label.now) result ≡ charset_of page.now }
{
    prescanned(head(page))
}
