//! Elements that the Noah's Ark clause takes for the same.
ghost use Rattle.std.specs.List.{list_all, list_any};
ghost use Rattle.std.specs.Prelude.{IsTrue, length, map, nat_eq, take, true, ◌&&◌, ◌≡◌, ◌≤◌};
ghost use Rattle.std.specs.Str.{bytes_eq};
ghost use Rattle.tl_dom_spec.specs.Formatting.{is_alike, is_same_attribute};
ghost use Rattle.tl_dom_spec.specs.Tags as dom;
ghost use Rattle.tl_tree.specs.Inner.Store.{attribute_of, bytes_of, entries_of, is_attribute, is_tag, is_tag_number, tag_at};

use crate::entries::{AttributeEntry, TagEntry};
use crate::store::Store;
use std::alloc::AllocError;
use std::collections::BTreeMap;

// So many attributes are looked for one by one.
const FEW: usize = 16;

/// The attributes of a tag.
pub(crate) fn attributes<'s>(store: &'s Store<'_>, tag: TagEntry) -> &'s [AttributeEntry]
    requires { IsTrue (is_tag store.now tag) }
    ensures { result.now ≡ entries_of store.now tag }
{
    let first = tag.first_attribute as usize;
    &store.attributes.list(tag.list)[first..first + tag.attribute_count as usize]
}

// Keys and values are the same bytes.
fn is_same_attribute(store: &Store<'_>, one: AttributeEntry, other: AttributeEntry) -> bool
    requires one { IsTrue (is_attribute store.now one) }
    requires other { IsTrue (is_attribute store.now other) }
    ensures { result
        ≡ is_same_attribute (attribute_of store.now one) (attribute_of store.now other) }
{
    store.bytes(one.key) == store.bytes(other.key)
        && store.bytes(one.value) == store.bytes(other.value)
}

// Whether a tag has an attribute like this one.
fn has_attribute(store: &Store<'_>, own: AttributeEntry, other: TagEntry) -> bool
    requires own { IsTrue (is_attribute store.now own) }
    requires other { IsTrue (is_tag store.now other) }
    ensures { result
        ≡ list_any
        (is_same_attribute (attribute_of store.now own))
        (map (attribute_of store.now) (entries_of store.now other)) }
{
    for attribute in attributes(store, other) {
        if is_same_attribute(store, own, *attribute) {
            return true;
        }
    }
    false
}

// A key has a place.
fn put_place(
    places: &mut BTreeMap<Vec<u8>, usize>,
    store: &Store<'_>,
    attribute: AttributeEntry,
    place: usize,
) -> Result<(), AllocError>
    requires { IsTrue (is_attribute store.now attribute) }
{
    let key = store.bytes(attribute.key).to_vec(*store.tags.allocator())?;
    places.insert(key, place)?;
    Ok(())
}

// Where the attributes of a tag stand, by their keys.
fn places_of(store: &Store<'_>, tag: TagEntry) -> Result<BTreeMap<Vec<u8>, usize>, AllocError>
    requires { IsTrue (is_tag store.now tag) }
{
    let mut places = BTreeMap::new(*store.tags.allocator());
    let attributes = attributes(store, tag);
    for place in 0..attributes.len() {
        put_place(&mut places, store, attributes[place], place)?;
    }
    Ok(places)
}

// The same, where so many are looked for that it is worth it. Without memory no key has a place,
// which is no error.
fn first_places(store: &Store<'_>, tag: TagEntry, sought: usize) -> BTreeMap<Vec<u8>, usize>
    requires { IsTrue (is_tag store.now tag) }
{
    if sought > FEW {
        if let Ok(places) = places_of(store, tag) {
            return places;
        }
    }
    BTreeMap::new(*store.tags.allocator())
}

// Whether a tag has an attribute like this one at the place of its key.
fn has_attribute_there(
    store: &Store<'_>,
    own: AttributeEntry,
    other: TagEntry,
    places: &BTreeMap<Vec<u8>, usize>,
) -> bool
    requires own { IsTrue (is_attribute store.now own) }
    requires other { IsTrue (is_tag store.now other) }
    ensures { result ≡ true → list_any
        (is_same_attribute (attribute_of store.now own))
        (map (attribute_of store.now) (entries_of store.now other)) ≡ true }
{
    let Some(place) = places.get(store.bytes(own.key)).copied() else {
        return false;
    };
    let attributes = attributes(store, other);
    if place < attributes.len() {
        return is_same_attribute(store, own, attributes[place]);
    }
    false
}

// Whether a tag has an attribute like this one. The first place to look is the one of its key.
fn has_attribute_by(
    store: &Store<'_>,
    own: AttributeEntry,
    other: TagEntry,
    places: &BTreeMap<Vec<u8>, usize>,
) -> bool
    requires own { IsTrue (is_attribute store.now own) }
    requires other { IsTrue (is_tag store.now other) }
    ensures { result
        ≡ list_any
        (is_same_attribute (attribute_of store.now own))
        (map (attribute_of store.now) (entries_of store.now other)) }
{
    if has_attribute_there(store, own, other, places) {
        return true;
    }
    has_attribute(store, own, other)
}

// How many attributes of a tag are like those at their places in another one.
fn same_front(store: &Store<'_>, own: TagEntry, other: TagEntry) -> usize
    requires own { IsTrue (is_tag store.now own) }
    requires other { IsTrue (is_tag store.now other) }
    ensures within { result ≤ length (entries_of store.now own) }
    ensures front { IsTrue
        (list_all
        (λ (x : dom.Attribute). list_any
        (is_same_attribute x)
        (map (attribute_of store.now) (entries_of store.now other)))
        (map (attribute_of store.now) (take result (entries_of store.now own)))) }
{
    let first = attributes(store, own);
    let second = attributes(store, other);
    let shorter = first.len().min(second.len());
    for place in 0..shorter {
        if !is_same_attribute(store, first[place], second[place]) {
            return place;
        }
    }
    shorter
}

// Whether a tag has attributes like those of another one. Those that come in the same order are
// looked at once. Where one isn't where it is looked for first, all are looked at, which is the end
// of it where keys differ.
fn has_attributes(store: &Store<'_>, own: TagEntry, other: TagEntry) -> bool
    requires own { IsTrue (is_tag store.now own) }
    requires other { IsTrue (is_tag store.now other) }
    ensures { result
        ≡ list_all
        (λ (x : dom.Attribute). list_any
        (is_same_attribute x)
        (map (attribute_of store.now) (entries_of store.now other)))
        (map (attribute_of store.now) (entries_of store.now own)) }
{
    let attributes = attributes(store, own);
    let front = same_front(store, own, other);
    let places = first_places(store, other, attributes.len() - front);
    for place in front..attributes.len() {
        if !has_attribute_by(store, attributes[place], other, &places) {
            return false;
        }
    }
    true
}

// Whether two tags have the same name and attributes that can be paired.
fn are_alike(store: &Store<'_>, own: TagEntry, other: TagEntry) -> bool
    requires own { IsTrue (is_tag store.now own) }
    requires other { IsTrue (is_tag store.now other) }
    ensures { result
        ≡ (bytes_eq (bytes_of store.now own.name) (bytes_of store.now other.name)
        && nat_eq own.attribute_count other.attribute_count
        && list_all
        (λ (x : dom.Attribute). list_any
        (is_same_attribute x)
        (map (attribute_of store.now) (entries_of store.now other)))
        (map (attribute_of store.now) (entries_of store.now own))) }
{
    store.bytes(own.name) == store.bytes(other.name)
        && own.attribute_count == other.attribute_count
        && has_attributes(store, own, other)
}

/// Whether two elements have the same name and attributes that can be paired.
pub(crate) fn is_alike(store: &Store<'_>, own: u32, other: u32) -> bool
    requires own { IsTrue (is_tag_number store.now own) }
    requires other { IsTrue (is_tag_number store.now other) }
    ensures { result ≡ is_alike (tag_at store.now own) (tag_at store.now other) }
{
    let first = store.tag(own);
    let second = store.tag(other);
    are_alike(store, first, second)
}

/// Whether an element has this name.
pub(crate) fn is_named(store: &Store<'_>, tag: u32, name: &[u8]) -> bool
    requires { IsTrue (is_tag_number store.now tag) }
    ensures { result ≡ bytes_eq name.now (tag_at store.now tag).name }
{
    let own = store.tag(tag);
    name == store.bytes(own.name)
}
