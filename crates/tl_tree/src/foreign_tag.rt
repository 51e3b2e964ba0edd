//! Tags of elements of `svg` and `math`, as their start tags have them (13.2.6.1).
ghost use Rattle.std.specs.Prelude.{IfOk, IsTrue, List, OnOk, drop, length, map, ℕ, ◌+◌, ◌<◌, ◌≡◌, ◌≤◌};
ghost use Rattle.tl_dom_spec.specs.Adjusted.{cased, foreign_attribute, foreign_tag, prefixed};
ghost use Rattle.tl_names.specs.Elements.{words_of};
ghost use Rattle.tl_html_spec.specs.Balanced.{is_one_of};
ghost use Rattle.tl_tree.specs.Inner.Foreign.{link_keys, renamed, spaced};
ghost use Rattle.tl_tree.specs.Inner.Frames.{path_of};
ghost use Rattle.tl_tree.specs.Inner.Said.{attributes_in};
ghost use Rattle.tl_tree.specs.declared.entries.AttributeList.TheVariants.{Tags};
ghost use Rattle.tl_tree.specs.Inner.Store.{Grows, attribute_of, attribute_space_of, bytes_of, entries_of, is_attribute, is_span, is_tag, is_tag_number, list_in, space_of, tag_at};

use crate::alike::attributes;
use crate::entries::{AttributeEntry, AttributeList, AttributeSpace, Namespace, TagEntry};
use crate::error::GrowError;
use crate::foreign_words::{cased, key_words, name_words};
use crate::lowered::are_same;
use crate::path::FramePath;
use crate::span::Span;
use crate::store::Store;
use crate::test::is_one_of;
use tl_names::element_name::ElementName;

// A name as one of these words is written.
fn put_cased(
    store: &mut Store<'_>,
    words: &'static [&'static str],
    name: Span,
) -> Result<Span, GrowError>
    requires { IsTrue (is_span store.old name) }
    ensures stands { IfOk result
        (λ own. bytes_of store.new own ≡ cased (bytes_of store.old name) (words_of words.now)) }
    ensures within { IfOk result (λ own. IsTrue (is_span store.new own)) }
    ensures attributes { store.new.attributes ≡ store.old.attributes }
    ensures grows { Grows store.old store.new }
{
    match cased(words, store.bytes(name)) {
        Some(word) => store.add_bytes(word),
        None => Ok(name),
    }
}

// The namespace of a key that may have a prefix, and how long that is.
fn prefix_of(key: &[u8], own: AttributeSpace) -> (AttributeSpace, u32)
    ensures stands { (value : List ℕ) →
        spaced (attribute_space_of result.0) result.1 key.now value
        ≡ prefixed (spaced (attribute_space_of own) 0 key.now value) }
    ensures within { result.1 ≤ length key.now }
{
    if are_same(key, b"xmlns") {
        (AttributeSpace::Xmlns, 0)
    } else if are_same(key, b"xmlns:xlink") {
        (AttributeSpace::Xmlns, 6)
    } else if are_same(key, b"xml:lang") {
        (AttributeSpace::Xml, 4)
    } else if are_same(key, b"xml:space") {
        (AttributeSpace::Xml, 4)
    } else if is_link(key) {
        (AttributeSpace::Xlink, 6)
    } else {
        (own, 0)
    }
}

// Whether a key is one of XLink.
fn is_link(key: &[u8]) -> bool
    ensures { result ≡ is_one_of link_keys key.now }
{
    is_one_of(
        b"xlink:actuate xlink:arcrole xlink:href xlink:role xlink:show xlink:title xlink:type",
        key,
    )
}

// An attribute as the elements of a namespace have it.
fn put_attribute(
    store: &mut Store<'_>,
    space: Namespace,
    own: AttributeEntry,
) -> Result<AttributeEntry, GrowError>
    requires { IsTrue (is_attribute store.old own) }
    ensures stands { IfOk result (λ put. attribute_of store.new put
        ≡ foreign_attribute (space_of space) (attribute_of store.old own)) }
    ensures within { IfOk result (λ put. IsTrue (is_attribute store.new put)) }
    ensures attributes { store.new.attributes ≡ store.old.attributes }
    ensures grows { Grows store.old store.new }
{
    let key = put_cased(store, key_words(space), own.key)?;
    let (key_space, prefix) = prefix_of(store.bytes(key), own.space);
    Ok(AttributeEntry {
        space: key_space,
        key: Span {
            start: key.start + prefix,
            len: key.len - prefix,
        },
        value: own.value,
    })
}

// Puts the attributes of a tag behind the others, as the elements of a namespace have them.
fn add_attributes(store: &mut Store<'_>, space: Namespace, tag: TagEntry) -> Result<(), GrowError>
    requires { IsTrue (is_tag store.old tag) }
    ensures stands { OnOk result
        (attributes_in
        store.new
        (drop (length (list_in store.old Tags)) (list_in store.new Tags))
        ≡ map
        (foreign_attribute (space_of space))
        (attributes_in store.old (entries_of store.old tag))) }
    ensures many { OnOk result (length (list_in store.new Tags)
        ≡ length (list_in store.old Tags) + tag.attribute_count) }
    ensures grows { Grows store.old store.new }
{
    for place in 0..tag.attribute_count {
        let own = attributes(store, tag)[place as usize];
        let put = put_attribute(store, space, own)?;
        store.add_attribute(AttributeList::Tags, put)?;
    }
    Ok(())
}

impl<'a> Store<'a> {
    /// Puts such a tag behind the others, made from that of a start tag, and answers its number.
    /// Its name is written as the namespace has it, or stays.
    pub(crate) fn add_foreign_tag(
        &mut self,
        space: Namespace,
        is_renamed: bool,
        tag: u32,
    ) -> Result<u32, GrowError>
        requires { IsTrue (is_tag_number self.old tag) }
        ensures stands { IfOk result (λ number. tag_at self.new number
            ≡ foreign_tag
            (space_of space)
            (renamed is_renamed (space_of space) (tag_at self.old tag))) }
        ensures within { IfOk result (λ number. number < length self.new.tags.items) }
        ensures grows { Grows self.old self.new }
    {
        let own = self.tag(tag);
        let name = put_cased(self, name_words(space, is_renamed), own.name)?;
        let list = AttributeList::Tags;
        let first_attribute = self.attribute_count(list);
        add_attributes(self, space, own)?;
        self.add_tag(TagEntry {
            space,
            name,
            known: ElementName::OTHER,
            number: 0,
            list,
            first_attribute,
            attribute_count: own.attribute_count,
            start: own.start,
        })
    }
}

impl<'a> FramePath<'a> {
    /// Puts such a tag in the store, made from that of a start tag, and answers its number.
    pub(crate) fn add_foreign_tag(
        &mut self,
        space: Namespace,
        is_renamed: bool,
        tag: u32,
    ) -> Result<u32, GrowError>
        requires { IsTrue (is_tag_number self.old.store tag) }
        ensures stands { IfOk result (λ number. tag_at self.new.store number
            ≡ foreign_tag
            (space_of space)
            (renamed is_renamed (space_of space) (tag_at self.old.store tag))) }
        ensures within { IfOk result (λ number. number < length self.new.store.tags.items) }
        ensures path { path_of self.new ≡ path_of self.old }
        ensures next { self.new.next ≡ self.old.next }
        ensures grows { Grows self.old.store self.new.store }
    {
        self.store.add_foreign_tag(space, is_renamed, tag)
    }
}
