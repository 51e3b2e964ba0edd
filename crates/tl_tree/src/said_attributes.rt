//! The attributes of a tag, put into a store: the first of equal keys alone.
ghost use Rattle.std.specs.Prelude.{IfOk, IsTrue, OnOk, map, ◌++◌, ◌≡◌};
ghost use Rattle.std.specs.List.{list_all};
ghost use Rattle.std.specs.Str.{bytes_eq};
ghost use Rattle.tl_dom_spec.specs.Tags.{has_attribute, plain_attribute};
ghost use Rattle.tl_html_spec.specs.HtmlTokenizer.{OpenTag, with_attribute};
ghost use Rattle.tl_html_parts.specs.Parts.{attributes_of, name_of, value_of};
ghost use Rattle.tl_html_parts.specs.Places.{AreParts, IsPart, pairs_in, part_in};
ghost use Rattle.tl_tree.specs.Inner.Said.{AreKeysBehind, attributes_in, attributes_so_far, has_key, keys_in, tag_with, with_key};
ghost use Rattle.tl_tree.specs.Inner.Store.{Grows, bytes_of, is_attribute, is_span, is_tag, list_in, tag_of};

use crate::entries::{AttributeEntry, AttributeList, AttributeSpace, Namespace, TagEntry};
use crate::error::GrowError;
use crate::said_bytes::{put_name, put_value};
use crate::span::Span;
use crate::store::Store;
use std::alloc::Global;
use std::collections::BTreeSet;
use tl_html_parts::AttributePlace;
use tl_names::element_name::ElementName;

// So many keys are compared one by one.
const FEW: usize = 16;

// Whether an attribute has a key. Lengths are compared first.
#[inline(always)]
fn is_of_key(store: &Store<'_>, entry: AttributeEntry, key: &[u8]) -> bool
    requires { IsTrue (is_attribute store.now entry) }
    ensures { result ≡ bytes_eq (bytes_of store.now entry.key) key.now }
{
    if entry.key.len as usize != key.len() {
        return false;
    }
    store.bytes(entry.key) == key
}

/// Whether one of the attributes has this key.
#[inline(always)]
pub(crate) fn has_key(store: &Store<'_>, entries: &[AttributeEntry], key: Span) -> bool
    requires entries { IsTrue (list_all (is_attribute store.now) entries.now) }
    requires key { IsTrue (is_span store.now key) }
    ensures { result
        ≡ has_attribute (bytes_of store.now key) (attributes_in store.now entries.now) }
{
    let own = store.bytes(key);
    for entry in entries {
        if is_of_key(store, *entry, own) {
            return true;
        }
    }
    false
}

// Whether a key is one of those before it. It is compared with the first few of them; a set has the
// others, and gets this one.
fn is_repeated(
    keys: &mut BTreeSet<Vec<u8>>,
    store: &Store<'_>,
    alloc: Global,
    entries: &[AttributeEntry],
    key: Span,
) -> Result<bool, GrowError>
    requires keys { AreKeysBehind keys.old (keys_in store.now entries.now) }
    requires entries { IsTrue (list_all (is_attribute store.now) entries.now) }
    requires key { IsTrue (is_span store.now key) }
    ensures repeated { IfOk result (λ is.
        is ≡ has_key (bytes_of store.now key) (keys_in store.now entries.now)) }
    ensures keys { OnOk result (AreKeysBehind keys.new
        (with_key (keys_in store.now entries.now) (bytes_of store.now key))) }
{
    if entries.len() < FEW {
        return Ok(has_key(store, entries, key));
    }
    if has_key(store, &entries[..FEW], key) {
        return Ok(true);
    }
    let own = store.bytes(key).to_vec(alloc)?;
    let is_new = keys.insert(own)?;
    Ok(!is_new)
}

// Puts an attribute behind those of its tag, unless its key is there.
fn put_attribute(
    keys: &mut BTreeSet<Vec<u8>>,
    store: &mut Store<'_>,
    alloc: Global,
    entries: &mut Vec<AttributeEntry>,
    attribute: AttributePlace,
) -> Result<(), GrowError>
    requires key { IsPart name_of store.old.page.now attribute.key }
    requires value { IsPart value_of store.old.page.now attribute.value }
    requires keys { AreKeysBehind keys.old (keys_in store.old entries.old.items) }
    requires entries { IsTrue (list_all (is_attribute store.old) entries.old.items) }
    ensures stands { OnOk result ((tag : OpenTag) →
        attributes_in store.old entries.old.items ≡ attributes_so_far tag →
        attributes_in store.new entries.new.items
        ≡ attributes_so_far (with_attribute tag
        (name_of (part_in store.old.page.now attribute.key))
        (value_of (part_in store.old.page.now attribute.value)))) }
    ensures keys { OnOk result (AreKeysBehind keys.new (keys_in store.new entries.new.items)) }
    ensures within { OnOk result (IsTrue (list_all (is_attribute store.new) entries.new.items)) }
    ensures grows { Grows store.old store.new }
{
    let key = put_name(store, alloc, attribute.key)?;
    if is_repeated(keys, store, alloc, entries, key)? {
        return Ok(());
    }
    let value = put_value(store, alloc, attribute.value)?;
    entries.push(AttributeEntry {
        space: AttributeSpace::Plain,
        key,
        value,
    })?;
    Ok(())
}

/// The attributes of a tag of the page, in the order in which they stand there.
pub(crate) fn put_attributes(
    store: &mut Store<'_>,
    alloc: Global,
    entries: &mut Vec<AttributeEntry>,
    attributes: &[AttributePlace],
) -> Result<(), GrowError>
    requires { AreParts store.old.page.now attributes.now }
    ensures read { OnOk result (attributes_in store.new entries.new.items
        ≡ map plain_attribute (attributes_of (pairs_in store.old.page.now attributes.now))) }
    ensures within { OnOk result (IsTrue (list_all (is_attribute store.new) entries.new.items)) }
    ensures grows { Grows store.old store.new }
{
    entries.clear();
    let mut keys = BTreeSet::new(alloc);
    for attribute in attributes {
        put_attribute(&mut keys, store, alloc, entries, *attribute)?;
    }
    Ok(())
}

/// Puts attributes behind those of a list.
pub(crate) fn add_attributes(
    store: &mut Store<'_>,
    list: AttributeList,
    entries: &[AttributeEntry],
) -> Result<(), GrowError>
    requires { IsTrue (list_all (is_attribute store.old) entries.now) }
    ensures stands { OnOk result
        (list_in store.new list ≡ list_in store.old list ++ entries.now) }
    ensures grows { Grows store.old store.new }
{
    for entry in entries {
        store.add_attribute(list, *entry)?;
    }
    Ok(())
}

/// A tag with this name and these attributes.
pub(crate) fn put_tag(
    store: &mut Store<'_>,
    name: Span,
    attributes: &[AttributeEntry],
) -> Result<TagEntry, GrowError>
    requires name { IsTrue (is_span store.old name) }
    requires attributes { IsTrue (list_all (is_attribute store.old) attributes.now) }
    ensures stands { IfOk result (λ tag. tag_of store.new tag
        ≡ tag_with (bytes_of store.old name) (attributes_in store.old attributes.now)) }
    ensures within { IfOk result (λ tag. IsTrue (is_tag store.new tag)) }
    ensures grows { Grows store.old store.new }
{
    let list = AttributeList::Tags;
    let first_attribute = store.attribute_count(list);
    add_attributes(store, list, attributes)?;
    Ok(TagEntry {
        space: Namespace::Html,
        name,
        known: ElementName::OTHER,
        number: 0,
        list,
        first_attribute,
        attribute_count: store.attribute_count(list) - first_attribute,
        start: 0,
    })
}
