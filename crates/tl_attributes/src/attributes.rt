//! The attributes of a tag.
ghost use Rattle.std.specs.Prelude.{◌≡◌, ◌+◌, ◌<◌, ◌==◌, false, None, Some, length, is_some, OnOk, OnErr, IfOk, IsOk};
ghost use Rattle.std.specs.List.{IsDistinct};
ghost use Rattle.std.specs.Map.{keys_of, lookup};
ghost use Rattle.std.specs.Option.{option_copied, option_copied_mut, option_map, option_flatten};
ghost use Rattle.tl_spec.specs.Tree.Inline.{room, with_entry, with_value, without_key};
ghost use Rattle.tl_spec.specs.Lex.AttributeList.{AreOthers, IsOther, count_of, is_class, is_id};
ghost use Rattle.tl_spec.specs.Edit.Attribute.{value_at, with_attribute, without_attribute, without_value};
ghost use Rattle.tl_bytes.specs.Held.{borrowed};
ghost use Rattle.tl_attributes.specs.Attributes.{no_attributes, nest};
ghost use Rattle.tl_attributes.specs.HeldAttributes.{AreHeldAttributes};

use crate::piece::Piece;
use std::alloc::{AllocError, Global};
use std::marker::Model;
use tl_bytes::byte_string::Bytes;
use tl_inline::inline::hashmap::InlineHashMap;

/// The pairs of a tag other than `id` and `class`. Up to two lie inline.
pub type RawAttributesMap<'a> = InlineHashMap<Bytes<'a>, Option<Bytes<'a>>, 2>;

/// The attributes of a tag, with keys and values of the type `B`. Each key is there once, and `id`
/// and `class`, in exact case, stand apart: they are there only with a value.
#[derive(Debug)]
pub struct AttributesOf<B: Piece> {
    others: InlineHashMap<B, Option<B>, 2>,
    id: Option<B>,
    class: Option<B>,
}

// By hand, so that a caller's proof has one step for a drop.
impl<B: Piece + Drop> Drop for AttributesOf<B> {
    fn drop(self) {
        let AttributesOf {
            others: _,
            id: _,
            class: _,
        } = self;
    }
}

/// The attributes of a tag.
pub type Attributes<'a> = AttributesOf<Bytes<'a>>;

impl<B: Piece> Model for AttributesOf<B> {
    ghost use Rattle.tl_spec.specs.Lex.AttributeList.{Attributes, AreOthers};
    ghost use Rattle.tl_attributes.specs.Attributes.{attributes_code};

    ghost Value = { Attributes B };

    ghost coded = { attributes_code B.code };

    ghost view = { λ a. record { others = a.others; id = a.id; class = a.class } };

    ghost invariant = { λ a. AreOthers B.list a.others.entries };
}

// Whether a key is `id`.
fn is_id(key: &[u8]) -> bool
    ensures { result ≡ is_id key.now }
{
    key == b"id".as_slice()
}

// Whether a key is `class`.
fn is_class(key: &[u8]) -> bool
    ensures { result ≡ is_class key.now }
{
    key == b"class".as_slice()
}

// `Ok` becomes a key with its value, `Err(true)` a key without one, and `Err(false)` no key.
fn nest<B>(value: Result<&mut B, bool>) -> Option<Option<&mut B>>
    ensures { result ≡ nest value.entry }
{
    match value {
        Ok(value) => Some(Some(value)),
        Err(true) => Some(None),
        Err(false) => None,
    }
}

impl<B: Piece + Default> AttributesOf<B> {
    /// No attributes, which take no memory. What they take later comes from `alloc`.
    // Out of line: where it is seen that each field is constant, they are copied one by one at each
    // step on their way.
    #[inline(never)]
    pub fn new(alloc: Global) -> Self
        ensures { result ≡ no_attributes }
    {
        AttributesOf {
            others: InlineHashMap::new(alloc),
            id: None,
            class: None,
        }
    }
}

impl<B: Piece> AttributesOf<B> {
    /// How many keys there are, `id` and `class` among them.
    pub fn len(&self) -> usize
        ensures value { result ≡ count_of self.now }

        // The rest holds of all attributes.
        ensures distinct { IsDistinct B.eq (keys_of self.now.others.entries) }
        ensures others { AreOthers B.list self.now.others.entries }
    {
        self.others.len() + usize::from(self.id.is_some()) + usize::from(self.class.is_some())
    }

    /// Whether there is no key.
    pub fn is_empty(&self) -> bool
        ensures { result ≡ (count_of self.now == 0) }
    {
        self.len() == 0
    }

    /// The value of `id`, `None` where there is no such key.
    pub fn id(&self) -> Option<&B>
        ensures { option_copied result ≡ self.now.id }
    {
        self.id.as_ref()
    }

    /// The value of `class`, `None` where there is no such key.
    pub fn class(&self) -> Option<&B>
        ensures { option_copied result ≡ self.now.class }
    {
        self.class.as_ref()
    }

    /// The pairs other than `id` and `class`, in their order.
    pub fn unstable_raw(&self) -> &InlineHashMap<B, Option<B>, 2>
        ensures value { result.now ≡ self.now.others }

        // The rest holds of all attributes.
        ensures others { AreOthers B.list self.now.others.entries }
    {
        &self.others
    }

    /// Whether there is `key`, with a value or without.
    pub fn contains(&self, key: B) -> bool
    where
        B: Drop,
        ensures { result ≡ is_some (value_at B.list B.eq self.now key) }
    {
        self.holds(&key)
    }

    /// The value at `key`: `None` where the key is missing, `Some(None)` where it has no value.
    pub fn get(&self, key: B) -> Option<Option<&B>>
    where
        B: Drop,
        ensures { option_map option_copied result ≡ value_at B.list B.eq self.now key }
    {
        if is_id(key.as_bytes()) {
            return self.id.as_ref().map(|id| Some(id));
        }
        if is_class(key.as_bytes()) {
            return self.class.as_ref().map(|class| Some(class));
        }
        self.others.get(&key).map(|value| value.as_ref())
    }
}

impl<B: Piece + Default + Drop> AttributesOf<B> {
    /// Puts `value` at `key`. A key that is there keeps its place, and a new one goes last; `id`
    /// and `class` without a value are taken out. `Err` means that memory was refused, and
    /// that the key and the value are given up; at `id`, `class` and a key that is there none is
    /// taken.
    #[inline(always)]
    pub fn insert(&mut self, key: B, value: Option<B>) -> Result<(), AllocError>
        ensures ok { OnOk result (self.new ≡ with_attribute B.list B.eq self.old key value) }
        ensures err { OnErr result (self.new ≡ self.old) }

        // At `id`, at `class`, at a key that is there, and into inline room, an insert takes no
        // memory.
        ensures other { OnErr result (IsOther (B.list key)) }
        ensures absent { OnErr result (value_at B.list B.eq self.old key ≡ None) }
        ensures succeeds { self.old.others.on_heap ≡ false → length self.old.others.entries < room
            → IsOk result }
    {
        if is_id(key.as_bytes()) {
            self.id = value;
            return Ok(());
        }
        if is_class(key.as_bytes()) {
            self.class = value;
            return Ok(());
        }
        self.insert_other(key, value)
    }

    // Puts `value` at a key that is neither `id` nor `class`.
    fn insert_other(&mut self, key: B, value: Option<B>) -> Result<(), AllocError>
        requires { IsOther (B.list key) }
        ensures ok { OnOk result
            (self.new
            ≡ record self.old { others = with_entry B.eq room self.old.others key value }) }
        ensures err { OnErr result (self.new ≡ self.old) }
        ensures absent { OnErr result (lookup (B.eq key) self.old.others.entries ≡ None) }
        ensures succeeds { self.old.others.on_heap ≡ false → length self.old.others.entries < room
            → IsOk result }
    {
        self.others.insert(key, value).map_err(|_| AllocError)
    }

    /// Takes `key` out, and returns what `get` gave. The last of the other pairs moves into its
    /// place.
    pub fn remove(&mut self, key: B) -> Option<Option<B>>
        ensures value { result ≡ value_at B.list B.eq self.old key }
        ensures left { self.new ≡ without_attribute B.list B.eq self.old key }
    {
        if is_id(key.as_bytes()) {
            return self.id.take().map(|id| Some(id));
        }
        if is_class(key.as_bytes()) {
            return self.class.take().map(|class| Some(class));
        }
        self.remove_other(key)
    }

    // Takes out a key that is neither `id` nor `class`.
    fn remove_other(&mut self, key: B) -> Option<Option<B>>
        requires { IsOther (B.list key) }
        ensures value { result ≡ lookup (B.eq key) self.old.others.entries }
        ensures left { self.new
            ≡ record self.old { others = without_key B.eq self.old.others key } }
    {
        self.others.remove(&key)
    }

    /// Takes the value at `key` out. The key stays without it, if it is neither `id` nor `class`. A
    /// missing key, and one without a value, answer `None`, and nothing changes.
    pub fn remove_value(&mut self, key: B) -> Option<B>
        ensures value { result ≡ option_flatten (value_at B.list B.eq self.old key) }
        ensures left { self.new ≡ without_value B.list B.eq self.old key }
    {
        if is_id(key.as_bytes()) {
            return self.id.take();
        }
        if is_class(key.as_bytes()) {
            return self.class.take();
        }
        self.remove_other_value(key)
    }

    // Takes out the value at a key that is neither `id` nor `class`.
    fn remove_other_value(&mut self, key: B) -> Option<B>
        requires { IsOther (B.list key) }
        ensures value { result ≡ option_flatten (lookup (B.eq key) self.old.others.entries) }
        ensures left { self.new
            ≡ record self.old { others = with_value B.eq self.old.others key None } }
    {
        self.others.get_mut(&key)?.take()
    }
}

impl<B: Piece> AttributesOf<B> {
    ghost use Rattle.std.specs.Borrow.{sem};
    ghost use Rattle.tl_attributes.specs.Inner.AttributesLends.{LendsId, LendsClass, LendsSlot, LendsValue, LendsValueAt, LendsValueAtOk};

    // The value of `id`.
    fn id_mut(&mut self) -> Option<&mut B>
        ensures* writes_back { sem 𝓛 (LendsId B.row B.Piece self.entry result) }
        ensures value { option_copied_mut result ≡ self.old.id }
    {
        self.id.as_mut()
    }

    // The value of `class`.
    fn class_mut(&mut self) -> Option<&mut B>
        ensures* writes_back { sem 𝓛 (LendsClass B.row B.Piece self.entry result) }
        ensures value { option_copied_mut result ≡ self.old.class }
    {
        self.class.as_mut()
    }

    /// The value at `key` for writing: `None` where the key is missing, and where it has no value.
    pub fn value_mut(&mut self, key: &B) -> Option<&mut B>
        ensures* writes_back { sem 𝓛 (LendsValueAt B.row B.Piece self.entry key.now result) }
        ensures value { option_copied_mut result
            ≡ option_flatten (value_at B.list B.eq self.old key.now) }
    {
        if is_id(key.as_bytes()) {
            return self.id_mut();
        }
        if is_class(key.as_bytes()) {
            return self.class_mut();
        }
        self.other_mut(key)
    }

    /// The value at `key` for writing: `None` where the key is missing, `Some(None)` where it has
    /// no value. A proof that needs what a write leaves takes `value_mut`.
    pub fn get_mut(&mut self, key: B) -> Option<Option<&mut B>>
    where
        B: Drop,
        ensures* writes_back { sem 𝓛 (LendsValueAt B.row B.Piece self.entry key
            (option_flatten result)) }
        ensures value { option_map option_copied_mut result ≡ value_at B.list B.eq self.old key }
    {
        nest(self.value_or_presence_mut(key))
    }

    // The value at `key` for writing; `Err` says that there is none, and whether there is the key.
    fn value_or_presence_mut(&mut self, key: B) -> Result<&mut B, bool>
    where
        B: Drop,
        ensures* writes_back { sem 𝓛 (LendsValueAtOk B.row B.Piece self.entry key result) }
        ensures value { option_map option_copied_mut (nest result)
            ≡ value_at B.list B.eq self.old key }
    {
        // Asked first, since nothing can be asked while the value is lent.
        let is_there = self.holds(&key);
        match self.value_mut(&key) {
            Some(value) => Ok(value),
            None => Err(is_there),
        }
    }

    // Whether there is `key`, with a value or without.
    fn holds(&self, key: &B) -> bool
        ensures { result ≡ is_some (value_at B.list B.eq self.now key.now) }
    {
        if is_id(key.as_bytes()) {
            return self.id.is_some();
        }
        if is_class(key.as_bytes()) {
            return self.class.is_some();
        }
        self.others.contains_key(key)
    }

    // The value at a key that is neither `id` nor `class`.
    fn slot_mut(&mut self, key: &B) -> Option<&mut Option<B>>
        ensures* writes_back { sem 𝓛 (LendsSlot B.row B.Piece self.entry key.now result) }
        ensures value { option_copied_mut result ≡ lookup (B.eq key.now) self.old.others.entries }
    {
        self.others.get_mut(key)
    }

    // The value at a key that is neither `id` nor `class`, where it has one.
    fn other_mut(&mut self, key: &B) -> Option<&mut B>
        ensures* writes_back { sem 𝓛 (LendsValue B.row B.Piece self.entry key.now result) }
        ensures value { option_copied_mut result
            ≡ option_flatten (lookup (B.eq key.now) self.old.others.entries) }
    {
        self.slot_mut(key)?.as_mut()
    }
}

impl<'a> Attributes<'a> {
    /// The same attributes, each piece held as it is here: borrowed bytes stay borrowed, owned ones
    /// are copied.
    pub fn clone(&self) -> Result<Attributes<'a>, AllocError>
        ensures ok { IfOk result (λ a. a ≡ self.now) }

        // Of borrowed pieces that lie inline a clone takes no memory.
        ensures succeeds { self.now.others.on_heap ≡ false → AreHeldAttributes borrowed self.now
            → IsOk result }
    {
        Ok(AttributesOf {
            others: self.others.clone()?,
            id: self.id.clone()?,
            class: self.class.clone()?,
        })
    }
}
