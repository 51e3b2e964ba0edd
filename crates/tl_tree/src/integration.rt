//! Elements of `svg` and `math` whose content is read as HTML (13.2.6).
ghost use Rattle.std.specs.Char.{to_ascii_lowercase};
ghost use Rattle.std.specs.Prelude.{IsTrue, map, ◌&&◌, ◌||◌, ◌≡◌};
ghost use Rattle.std.specs.Str.{bytes_eq};
ghost use Rattle.tl_dom_spec.specs.Tags.{has_attribute, has_value, is_annotation, is_html, is_html_integration_point, is_svg, is_svg_mark, is_text_integration_point};
ghost use Rattle.tl_tree.specs.Inner.Store.{bytes_of, is_attribute, is_tag_number, tag_at};

use crate::alike::attributes;
use crate::entries::AttributeEntry;
use crate::lowered::is_lowered;
use crate::store::Store;
use tl_names::class::Class;
use tl_names::element_name::ElementName;

/// Whether an element has an attribute of this key.
pub(crate) fn has_attribute(store: &Store<'_>, number: u32, key: &[u8]) -> bool
    requires { IsTrue (is_tag_number store.now number) }
    ensures { result ≡ has_attribute key.now (tag_at store.now number).attributes }
{
    let tag = store.tag(number);
    for attribute in attributes(store, tag) {
        if store.bytes(attribute.key) == key {
            return true;
        }
    }
    false
}

// Whether an attribute has this key and, in any case, this value.
fn is_setting(store: &Store<'_>, own: AttributeEntry, key: &[u8], value: &[u8]) -> bool
    requires { IsTrue (is_attribute store.now own) }
    ensures { result
        ≡ (bytes_eq (bytes_of store.now own.key) key.now
        && bytes_eq (map to_ascii_lowercase (bytes_of store.now own.value)) value.now) }
{
    store.bytes(own.key) == key && is_lowered(store.bytes(own.value), value)
}

/// Whether an element has an attribute of this key with, in any case, this value.
pub(crate) fn has_value(store: &Store<'_>, number: u32, key: &[u8], value: &[u8]) -> bool
    requires { IsTrue (is_tag_number store.now number) }
    ensures { result ≡ has_value key.now value.now (tag_at store.now number).attributes }
{
    let tag = store.tag(number);
    for attribute in attributes(store, tag) {
        if is_setting(store, *attribute, key, value) {
            return true;
        }
    }
    false
}

// Whether an element is one of `svg` whose content is HTML.
fn is_svg_point(store: &Store<'_>, number: u32) -> bool
    requires { IsTrue (is_tag_number store.now number) }
    ensures { result
        ≡ (is_svg (tag_at store.now number) && is_svg_mark (tag_at store.now number)) }
{
    let tag = store.tag(number);
    tag.space.is_svg() && tag.known.is(Class::SvgMark)
}

pub(crate) fn is_text_integration_point(store: &Store<'_>, number: u32) -> bool
    requires { IsTrue (is_tag_number store.now number) }
    ensures { result ≡ is_text_integration_point (tag_at store.now number) }
{
    let tag = store.tag(number);
    tag.space.is_math() && tag.known.is(Class::MathText)
}

/// Whether an element is `annotation-xml`.
pub(crate) fn is_annotation(store: &Store<'_>, number: u32) -> bool
    requires { IsTrue (is_tag_number store.now number) }
    ensures { result ≡ is_annotation (tag_at store.now number) }
{
    let tag = store.tag(number);
    tag.space.is_math() && tag.known == ElementName::ANNOTATION_XML
}

pub(crate) fn is_html_integration_point(store: &Store<'_>, number: u32) -> bool
    requires { IsTrue (is_tag_number store.now number) }
    ensures { result ≡ is_html_integration_point (tag_at store.now number) }
{
    is_svg_point(store, number)
        || (is_annotation(store, number)
            && (has_value(store, number, b"encoding", b"text/html")
                || has_value(store, number, b"encoding", b"application/xhtml+xml")))
}

/// Whether an element is one of HTML.
pub(crate) fn is_html(store: &Store<'_>, number: u32) -> bool
    requires { IsTrue (is_tag_number store.now number) }
    ensures { result ≡ is_html (tag_at store.now number) }
{
    store.tag(number).space.is_html()
}

/// Whether what stands in an element is read as HTML.
pub(crate) fn is_html_place(store: &Store<'_>, number: u32) -> bool
    requires { IsTrue (is_tag_number store.now number) }
    ensures { result
        ≡ (is_html (tag_at store.now number) || is_html_integration_point (tag_at store.now number)
        || is_text_integration_point (tag_at store.now number)) }
{
    is_html(store, number)
        || is_html_integration_point(store, number)
        || is_text_integration_point(store, number)
}
