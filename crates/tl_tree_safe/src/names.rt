//! Words that have a meaning of their own, and the bytes of words.
ghost use Rattle.std.specs.List.{list_all};
ghost use Rattle.std.specs.Prelude.{◌≡◌};
ghost use Rattle.tl_safe_fit.specs.Words.{is_among, words_of};
ghost use Rattle.tl_tree_safe.specs.Inner.Bytes.{has_class};
ghost use Rattle.tl_tree_safe.specs.Lists.{is_word_of, naming_keys, opaque_names, referring_keys, structural_names};
ghost use Rattle.tl_tree_safe.specs.Refusals.{active_keys, active_schemes, begins_path, begins_with_any, has_colon, has_scheme, known_link_keys, part_names};

use crate::links::is_link_byte;
use crate::words::is_among;

/// Classes of bytes.
#[derive(Clone, Copy)]
pub(crate) enum ByteClass {
    TagName,
    AttributeKey,
    OfBeginning,
    OfPattern,
}

static OPAQUE_NAMES: [&str; 13] = [
    "script",
    "style",
    "textarea",
    "title",
    "xmp",
    "iframe",
    "noembed",
    "noframes",
    "noscript",
    "plaintext",
    "template",
    "svg",
    "math",
];

static STRUCTURAL_NAMES: [&str; 29] = [
    "html",
    "head",
    "body",
    "base",
    "basefont",
    "bgsound",
    "link",
    "meta",
    "frameset",
    "frame",
    "template",
    "select",
    "option",
    "optgroup",
    "selectedcontent",
    "form",
    "input",
    "button",
    "keygen",
    "isindex",
    "image",
    "applet",
    "marquee",
    "object",
    "embed",
    "param",
    "portal",
    "fencedframe",
    "command",
];

static PART_NAMES: [&str; 9] = [
    "caption", "colgroup", "col", "tbody", "thead", "tfoot", "tr", "td", "th",
];

static ACTIVE_KEYS: [&str; 8] = [
    "style",
    "srcdoc",
    "srcset",
    "imagesrcset",
    "ping",
    "archive",
    "is",
    "attributionsrc",
];

static KNOWN_LINK_KEYS: [&str; 17] = [
    "href",
    "src",
    "cite",
    "action",
    "formaction",
    "poster",
    "background",
    "data",
    "longdesc",
    "manifest",
    "codebase",
    "classid",
    "profile",
    "usemap",
    "lowsrc",
    "dynsrc",
    "icon",
];

static REFERRING_KEYS: [&str; 15] = [
    "for",
    "form",
    "headers",
    "itemref",
    "list",
    "popovertarget",
    "commandfor",
    "aria-activedescendant",
    "aria-controls",
    "aria-describedby",
    "aria-details",
    "aria-errormessage",
    "aria-flowto",
    "aria-labelledby",
    "aria-owns",
];

static ACTIVE_SCHEMES: [&str; 7] = [
    "javascript:",
    "vbscript:",
    "livescript:",
    "data:",
    "blob:",
    "filesystem:",
    "about:",
];

// Whether a byte is of a class.
fn has_class(class: ByteClass, byte: u8) -> bool
    ensures { result ≡ has_class class byte }
{
    match class {
        ByteClass::TagName => byte.is_ascii_lowercase() || byte.is_ascii_digit(),
        ByteClass::AttributeKey => byte.is_ascii_lowercase() || byte == b'-',
        ByteClass::OfBeginning => {
            is_link_byte(byte) && byte < 127 && byte != b'<' && byte != b'>'
        }
        ByteClass::OfPattern => is_link_byte(byte) && byte != b'*',
    }
}

/// Whether all bytes are of a class.
pub(crate) fn all_have_class(class: ByteClass, bytes: &[u8]) -> bool
    ensures { result ≡ list_all (has_class class) bytes.now }
{
    for byte in bytes {
        if !has_class(class, *byte) {
            return false;
        }
    }
    true
}

/// Whether a word is a letter and then bytes of a class.
pub(crate) fn is_word_of(class: ByteClass, word: &[u8]) -> bool
    ensures { result ≡ is_word_of (has_class class) word.now }
{
    match word {
        [] => false,
        [first, rest @ ..] => first.is_ascii_lowercase() && all_have_class(class, rest),
    }
}

/// Whether an element of this name holds no markup of HTML.
pub(crate) fn is_opaque(name: &[u8]) -> bool
    ensures { result ≡ is_among opaque_names name.now }
{
    is_among(&OPAQUE_NAMES, name)
}

/// Whether a tag of this name changes what is around it.
pub(crate) fn is_structural(name: &[u8]) -> bool
    ensures { result ≡ is_among structural_names name.now }
{
    is_among(&STRUCTURAL_NAMES, name)
}

/// Whether an element of this name is a part of a table.
pub(crate) fn is_part(name: &[u8]) -> bool
    ensures { result ≡ is_among part_names name.now }
{
    is_among(&PART_NAMES, name)
}

/// Whether the values of a key are no names, texts or links.
pub(crate) fn is_active_key(key: &[u8]) -> bool
    ensures { result ≡ is_among active_keys key.now }
{
    is_among(&ACTIVE_KEYS, key)
}

/// Whether HTML has links at a key.
pub(crate) fn is_known_link_key(key: &[u8]) -> bool
    ensures { result ≡ is_among known_link_keys key.now }
{
    is_among(&KNOWN_LINK_KEYS, key)
}

/// Whether others refer to the values of a key.
pub(crate) fn is_naming_key(key: &[u8]) -> bool
    ensures { result ≡ is_among naming_keys key.now }
{
    key == b"id".as_slice() || key == b"name".as_slice()
}

/// Whether the values of a key refer to such values.
pub(crate) fn is_referring_key(key: &[u8]) -> bool
    ensures { result ≡ is_among referring_keys key.now }
{
    is_among(&REFERRING_KEYS, key)
}

/// Whether a word begins a link within a site.
pub(crate) fn begins_path(word: &[u8]) -> bool
    ensures { result ≡ begins_path word.now }
{
    match word {
        [] => false,
        [first, ..] => *first == b'/' || *first == b'#' || *first == b'?' || *first == b'.',
    }
}

// Whether bytes of names stand up to a `:`.
fn has_colon(word: &[u8]) -> bool
    ensures { result ≡ has_colon word.now }
{
    for byte in word {
        if *byte == b':' {
            return true;
        }
        if !has_class(ByteClass::TagName, *byte) {
            return false;
        }
    }
    false
}

/// Whether a word begins with a scheme and its `:`.
pub(crate) fn has_scheme(word: &[u8]) -> bool
    ensures { result ≡ has_scheme word.now }
{
    match word {
        [] => false,
        [first, rest @ ..] => first.is_ascii_lowercase() && has_colon(rest),
    }
}

// Whether one of these stands at the front of a word.
fn begins_with_any(fronts: &[&str], word: &[u8]) -> bool
    ensures { result ≡ begins_with_any (words_of fronts.now) word.now }
{
    for front in fronts {
        if word.starts_with(front.as_bytes()) {
            return true;
        }
    }
    false
}

/// Whether a word begins with a scheme of which the links are programs or documents.
pub(crate) fn has_active_scheme(word: &[u8]) -> bool
    ensures { result ≡ begins_with_any active_schemes word.now }
{
    begins_with_any(&ACTIVE_SCHEMES, word)
}
