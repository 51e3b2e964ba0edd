//! Lists of words, by which it is judged what may stand.
ghost use Rattle.std.specs.Prelude.{◌≡◌};
ghost use Rattle.std.specs.List.{list_all, starts_with};
ghost use Rattle.tl_tree_safe.specs.Inner.ValueKinds.{are_listed_names, is_also_listed, is_listed_by, is_listed_front, is_listed_whole};
ghost use Rattle.tl_tree_safe.specs.Lists.{is_listed_link, is_listed_value, is_own_byte, is_own_name};
ghost use Rattle.tl_tree_safe.specs.Policies.{listed_words};

use crate::classes::are_classes;
use crate::links::{begins_link, has_link_bytes, is_relative};
use crate::names::{is_naming_key, is_referring_key};
use crate::own_names::{all_begin, leads_to_own};
use crate::value_kind::{ValueKind, value_kind_at};

/// What a policy lists. Lists of your own begin best with others, as
/// `Lists { tags: &["b", "p"], ..Lists::BLOG }`.
#[derive(Clone, Copy, PartialEq, Eq, Debug)]
pub struct Lists<'w> {
    /// The names of tags that may stand.
    pub tags: &'w [&'w str],
    /// The keys of attributes that may stand.
    pub keys: &'w [&'w str],
    /// The keys whose values are links.
    pub link_keys: &'w [&'w str],
    /// What links begin with.
    pub link_prefixes: &'w [&'w str],
    /// Whether links beside the page may stand too, as `x.png`: those that begin with no scheme
    /// and name no host.
    pub relative_links: bool,
    /// Whether `rel="nofollow noopener"` is put on each link of `a` and `area`, in place of another
    /// `rel`. The key `rel` has to be listed then, and not as one that holds links.
    pub nofollow_links: bool,
    /// The patterns of the classes that may stand: a word, of which a `*` at its end stands for any
    /// characters.
    pub classes: &'w [&'w str],
    /// What stands in front of names: the values of `id` and `name` get it, and so do links and
    /// other references to them.
    pub id_prefix: &'w str,
}

// Whether a byte stands in a name that others refer to.
fn is_own_byte(byte: u8) -> bool
    ensures { result ≡ is_own_byte byte }
{
    byte.is_ascii_alphanumeric()
        || byte == b'-'
        || byte == b'.'
        || byte == b':'
        || byte == b'_'
        || byte > 127
}

// Whether all bytes do.
fn has_own_bytes(value: &[u8]) -> bool
    ensures { result ≡ list_all is_own_byte value.now }
{
    for byte in value {
        if !is_own_byte(*byte) {
            return false;
        }
    }
    true
}

impl<'w> Lists<'w> {
    // Whether a link begins as links may.
    fn lists_front(&self, value: &[u8]) -> bool
        ensures { result ≡ is_listed_front (listed_words self.now) value.now }
    {
        begins_link(self.link_prefixes, value) || (self.relative_links && is_relative(value))
    }

    // Whether a value is a link that may stand.
    fn lists_link(&self, value: &[u8]) -> bool
        ensures { result ≡ is_listed_link (listed_words self.now) value.now }
    {
        self.lists_front(value) && has_link_bytes(value) && leads_to_own(self, value)
    }

    // Whether a value is one word with the prefix.
    fn has_prefix(&self, value: &[u8]) -> bool
        ensures { result ≡ is_own_name (listed_words self.now) value.now }
    {
        value.starts_with(self.id_prefix.as_bytes()) && has_own_bytes(value)
    }

    // Whether the names in a value may stand at its key.
    fn lists_names(&self, key: &[u8], value: &[u8]) -> bool
        ensures { result ≡ are_listed_names (listed_words self.now) key.now value.now }
    {
        (!is_naming_key(key) || self.has_prefix(value))
            && (!is_referring_key(key) || all_begin(self.id_prefix.as_bytes(), value))
    }

    // Whether a link may stand at a key at which names or classes may stand too.
    fn also_lists(&self, key: &[u8], value: &[u8]) -> bool
        ensures { result ≡ is_also_listed (listed_words self.now) key.now value.now }
    {
        self.lists_names(key, value)
            && (key != b"class".as_slice() || are_classes(self.classes, value))
    }

    /// Whether a value of a kind, as its characters, may stand at a key.
    pub(crate) fn lists_by(&self, kind: ValueKind, key: &[u8], value: &[u8]) -> bool
        ensures { result ≡ is_listed_by (listed_words self.now) kind key.now value.now }
    {
        match kind {
            ValueKind::Link => self.lists_link(value) && self.also_lists(key, value),
            ValueKind::Classes => are_classes(self.classes, value),
            ValueKind::Names => self.lists_names(key, value),
            ValueKind::Text => true,
        }
    }

    /// The same of a value of which all stays: what is known of it then isn't looked at again.
    pub(crate) fn lists_whole(&self, kind: ValueKind, key: &[u8], value: &[u8]) -> bool
        ensures { result ≡ is_listed_whole (listed_words self.now) kind key.now value.now }
    {
        match kind {
            ValueKind::Link => self.lists_front(value) && self.also_lists(key, value),
            ValueKind::Names => self.lists_names(key, value),
            ValueKind::Classes | ValueKind::Text => true,
        }
    }

    /// Whether a value, as its characters, may stand at a key.
    pub fn lists_value(&self, key: &[u8], value: &[u8]) -> bool
        ensures { result ≡ is_listed_value (listed_words self.now) key.now value.now }
    {
        self.lists_by(value_kind_at(self, key), key, value)
    }
}
