//! Attributes that are added to an open element, where it has not yet those of their keys.
ghost use Rattle.std.specs.Prelude.{IfOk, IsTrue, OnOk, ◌<◌, ◌≡◌};
ghost use Rattle.tl_dom_spec.specs.Builder.{add_attributes, with_more};
ghost use Rattle.tl_dom_spec.specs.Head.{html_start};
ghost use Rattle.tl_dom_spec.specs.Path.{at_number};
ghost use Rattle.tl_dom_spec.specs.Tags.{has_attribute};
ghost use Rattle.tl_tree.specs.Inner.Builders.{builder_of, token_of};
ghost use Rattle.tl_tree.specs.Inner.Frames.{path_of};
ghost use Rattle.tl_tree.specs.Inner.Merging.{IsLast, is_missing, missing};
ghost use Rattle.tl_tree.specs.Inner.Said.{attributes_in};
ghost use Rattle.tl_tree.specs.Inner.Stack.{retagged_by};
ghost use Rattle.tl_tree.specs.Inner.Store.{Grows, bytes_of, is_attribute, is_span, is_tag, is_tag_number, list_in, tag_at, tag_of};

use crate::alike::{attributes, is_named};
use crate::builder::Builder;
use crate::entries::{AttributeEntry, AttributeList, TagEntry};
use crate::error::GrowError;
use crate::path::FramePath;
use crate::said_attributes::{add_attributes, has_key};
use crate::span::Span;
use crate::store::Store;
use std::alloc::Global;

// Whether one of the attributes of a list has this key. The first place to look is the one that the
// key had last.
fn has_key_in(store: &Store<'_>, list: AttributeList, key: Span) -> bool
    requires { IsTrue (is_span store.now key) }
    ensures { result
        ≡ has_attribute (bytes_of store.now key)
        (attributes_in store.now (list_in store.now list)) }
{
    let own = store.bytes(key);
    let Some(place) = store.attributes.place(list, own) else {
        return false;
    };
    let entries = store.attributes.list(list);
    if (place as usize) < entries.len() && store.bytes(entries[place as usize].key) == own {
        return true;
    }
    has_key(store, entries, key)
}

// Whether a tag has no attribute of this key. Where its attributes are all that a list has, it is
// looked up.
fn is_missing(store: &Store<'_>, own: TagEntry, attribute: AttributeEntry) -> bool
    requires own { IsTrue (is_tag store.now own) }
    requires attribute { IsTrue (is_attribute store.now attribute) }
    ensures { result ≡ is_missing store.now own attribute }
{
    if own.first_attribute == 0 && own.attribute_count == store.attribute_count(own.list) {
        return !has_key_in(store, own.list, attribute.key);
    }
    !has_key(store, attributes(store, own), attribute.key)
}

// The attributes that another tag has, and a tag not.
fn missing(
    store: &Store<'_>,
    alloc: Global,
    own: TagEntry,
    other: TagEntry,
) -> Result<Vec<AttributeEntry>, GrowError>
    requires own { IsTrue (is_tag store.now own) }
    requires other { IsTrue (is_tag store.now other) }
    ensures { IfOk result (λ found. found.items ≡ missing store.now own other) }
{
    let mut found = Vec::new(alloc);
    for attribute in attributes(store, other) {
        if is_missing(store, own, *attribute) {
            found.push(*attribute)?;
        }
    }
    Ok(found)
}

// The list of a tag that gets more attributes, which is that of `html` or of `body`.
fn list_of_more(store: &Store<'_>, tag: u32) -> AttributeList
    requires { IsTrue (is_tag_number store.now tag) }
{
    if is_named(store, tag, b"html") {
        AttributeList::Html
    } else {
        AttributeList::Body
    }
}

// A tag like this one, whose attributes are copied behind those of a list.
fn copied(
    store: &mut Store<'_>,
    alloc: Global,
    list: AttributeList,
    tag: TagEntry,
) -> Result<TagEntry, GrowError>
    requires { IsTrue (is_tag store.old tag) }
    ensures stands { IfOk result (λ copied. tag_of store.new copied ≡ tag_of store.old tag) }
    ensures last { IfOk result (λ copied. IsLast store.new list copied) }
    ensures grows { Grows store.old store.new }
{
    let mut own = Vec::new(alloc);
    own.extend_from_slice(attributes(store, tag))?;
    let first_attribute = store.attribute_count(list);
    add_attributes(store, list, own.as_slice())?;
    Ok(TagEntry {
        list,
        first_attribute,
        ..tag
    })
}

// A tag like this one, whose attributes are the last of a list. They are copied where they aren't
// yet: once for each element, as none but its own attributes are put there.
fn put_last(
    store: &mut Store<'_>,
    alloc: Global,
    list: AttributeList,
    tag: TagEntry,
) -> Result<TagEntry, GrowError>
    requires { IsTrue (is_tag store.old tag) }
    ensures stands { IfOk result (λ last. tag_of store.new last ≡ tag_of store.old tag) }
    ensures last { IfOk result (λ last. IsLast store.new list last) }
    ensures grows { Grows store.old store.new }
{
    let end = tag.first_attribute + tag.attribute_count;
    if tag.list == list && end == store.attribute_count(list) {
        return Ok(tag);
    }
    copied(store, alloc, list, tag)
}

impl<'a> Store<'a> {
    /// A tag with the attributes of one, and those of another one that are missing. Answers its
    /// number, which is that of the first where none is missing of one that had more before.
    pub(crate) fn add_merged_tag(&mut self, own: u32, other: u32) -> Result<u32, GrowError>
        requires own { IsTrue (is_tag_number self.old own) }
        requires other { IsTrue (is_tag_number self.old other) }
        ensures stands { IfOk result (λ number. tag_at self.new number
            ≡ with_more (tag_at self.old other).attributes (tag_at self.old own)) }
        ensures space { IfOk result
            (λ number. (tag_at self.new number).space ≡ (tag_at self.old own).space) }
        ensures name { IfOk result
            (λ number. (tag_at self.new number).name ≡ (tag_at self.old own).name) }
        ensures within { IfOk result (λ number. IsTrue (is_tag_number self.new number)) }
        ensures grows { Grows self.old self.new }
    {
        let tag = self.tag(own);
        let others = self.tag(other);
        let alloc = *self.tags.allocator();
        let list = list_of_more(self, own);
        let last = put_last(self, alloc, list, tag)?;
        let more = missing(self, alloc, last, others)?;
        if more.is_empty() && tag.list == list {
            return Ok(own);
        }
        add_attributes(self, list, more.as_slice())?;
        let attribute_count = self.attribute_count(list) - last.first_attribute;
        self.add_tag(TagEntry {
            attribute_count,
            ..last
        })
    }
}

impl<'a> FramePath<'a> {
    // Puts such a tag in the store, and answers its number.
    fn add_merged_tag(&mut self, own: u32, other: u32) -> Result<u32, GrowError>
        requires own { IsTrue (is_tag_number self.old.store own) }
        requires other { IsTrue (is_tag_number self.old.store other) }
        ensures stands { IfOk result (λ number. tag_at self.new.store number
            ≡ with_more (tag_at self.old.store other).attributes (tag_at self.old.store own)) }
        ensures space { IfOk result (λ number.
            (tag_at self.new.store number).space ≡ (tag_at self.old.store own).space) }
        ensures name { IfOk result (λ number.
            (tag_at self.new.store number).name ≡ (tag_at self.old.store own).name) }
        ensures within { IfOk result (λ number. IsTrue (is_tag_number self.new.store number)) }
        ensures frames { self.new.frames.items ≡ self.old.frames.items }
        ensures gaps { self.new.gaps ≡ self.old.gaps }
        ensures next { self.new.next ≡ self.old.next }
        ensures grows { Grows self.old.store self.new.store }
    {
        self.store.add_merged_tag(own, other)
    }

    // The frame of a number has the attributes of a tag too, where they are missing.
    fn add_attributes(&mut self, number: u32, other: u32) -> Result<(), GrowError>
        requires { IsTrue (is_tag_number self.old.store other) }
        ensures path { OnOk result (path_of self.new
            ≡ at_number number
            (retagged_by (with_more (tag_at self.old.store other).attributes))
            (path_of self.old)) }
        ensures next { self.new.next ≡ self.old.next }
        ensures grows { Grows self.old.store self.new.store }
    {
        let Some(index) = self.find(number) else {
            return Ok(());
        };
        let own = self.frames[index].tag;
        let tag = self.add_merged_tag(own, other)?;
        self.retag(index, tag);
        Ok(())
    }
}

impl<'a> Builder<'a> {
    /// The element of a number has the attributes of the token too, where they are missing.
    pub(crate) fn add_attributes(&mut self, number: u32) -> Result<(), GrowError>
        ensures ok { OnOk result (builder_of self.new
            ≡ add_attributes number (token_of self.old).tag.attributes (builder_of self.old)) }
        ensures token { token_of self.new ≡ token_of self.old }
    {
        let tag = self.tag;
        self.path.add_attributes(number, tag)
    }

    /// A start tag of `html`, by the rules of "in body".
    pub(crate) fn html_start(&mut self) -> Result<(), GrowError>
        ensures ok { OnOk result (builder_of self.new
            ≡ html_start (builder_of self.old) (token_of self.old).tag) }
        ensures token { token_of self.new ≡ token_of self.old }
    {
        if self.has_template() {
            return Ok(());
        }
        self.add_attributes(1)
    }
}
