//! A number that elements share which the Noah's Ark clause takes for the same, and one of their
//! name.
ghost use Rattle.std.specs.Prelude.{IsTrue, ◌≡◌};
ghost use Rattle.tl_tree.specs.Inner.Looks.{key_of, look_of, read_on};
ghost use Rattle.tl_tree.specs.Inner.Store.{is_tag, is_tag_number, tag_at, tag_of};

use crate::alike::attributes;
use crate::entries::TagEntry;
use crate::store::Store;

/// By which number elements are counted.
#[derive(Clone, Copy)]
pub(crate) enum Key {
    Look,
    Name,
}

/// What was read so far, with some bytes more.
pub(crate) fn read_on(so_far: u32, bytes: &[u8]) -> u32
    ensures { result ≡ read_on so_far bytes.now }
{
    let mut number = so_far;
    for byte in bytes {
        number = ((number as u64 * 16777619 + *byte as u64) % 4294967296) as u32;
    }
    number
}

// The name counts, and the attribute where there is one alone.
fn look_of(store: &Store<'_>, tag: TagEntry) -> u32
    requires { IsTrue (is_tag store.now tag) }
    ensures { result ≡ look_of (tag_of store.now tag) }
{
    let name = read_on(0, store.bytes(tag.name));
    let attributes = attributes(store, tag);
    if attributes.len() != 1 {
        return name;
    }
    let own = attributes[0];
    read_on(read_on(name, store.bytes(own.key)), store.bytes(own.value))
}

/// The number of the element of a tag.
pub(crate) fn key_of(store: &Store<'_>, key: Key, tag: u32) -> u32
    requires { IsTrue (is_tag_number store.now tag) }
    ensures { result ≡ key_of key (tag_at store.now tag) }
{
    let own = store.tag(tag);
    match key {
        Key::Look => look_of(store, own),
        Key::Name => read_on(0, store.bytes(own.name)),
    }
}
