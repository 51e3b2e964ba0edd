//! Selectors as values.
ghost use Rattle.std.specs.Prelude.{◌≡◌, false};
ghost use Rattle.tl_selector.specs.Spine.{has_sides};
ghost use Rattle.tl_selector.specs.View.{selector};

mod copies;
mod debug_text;
pub(crate) mod spine;

use crate::selector::copies::copy;
use crate::selector::debug_text::show;
use std::alloc::AllocError;
use std::fmt;

/// A test of a node. Its names, keys and values are bytes, in exact case.
pub enum Selector<'a> {
    /// A tag of this name.
    Tag(&'a [u8]),
    /// A tag with this id.
    Id(&'a [u8]),
    /// A tag with this member of its class.
    Class(&'a [u8]),
    /// Any node, texts and comments too.
    All,
    /// Both hold.
    And(Box<Selector<'a>>, Box<Selector<'a>>),
    /// One of them holds, or both.
    Or(Box<Selector<'a>>, Box<Selector<'a>>),
    /// The second holds here, the first at a node from which steps to children lead here.
    Descendant(Box<Selector<'a>>, Box<Selector<'a>>),
    /// The second holds here, the first at a node that has this one among its children.
    Parent(Box<Selector<'a>>, Box<Selector<'a>>),
    /// A tag with this key, with or without a value.
    Attribute(&'a [u8]),
    /// The key has a value with this lossy text.
    AttributeValue(&'a [u8], &'a [u8]),
    /// One of the parts of the value's lossy text between Unicode white space is this one.
    AttributeValueWhitespacedContains(&'a [u8], &'a [u8]),
    /// The value's lossy text begins with this one.
    AttributeValueStartsWith(&'a [u8], &'a [u8]),
    /// The value's lossy text ends with this one.
    AttributeValueEndsWith(&'a [u8], &'a [u8]),
    /// The value's lossy text contains this one.
    AttributeValueSubstring(&'a [u8], &'a [u8]),
}

// Chains are nested to the left: the first sides are gone along by a loop, as long as a chain may
// be. A second side is dropped by a call of its own.
impl<'a> Drop for Selector<'a> {
    fn drop(mut self) {
        'sides: loop {
            match self {
                Selector::And(a, _b)
                | Selector::Or(a, _b)
                | Selector::Descendant(a, _b)
                | Selector::Parent(a, _b) => self = Box::into_inner(a),
                Selector::Tag(_)
                | Selector::Id(_)
                | Selector::Class(_)
                | Selector::All
                | Selector::Attribute(_)
                | Selector::AttributeValue(_, _)
                | Selector::AttributeValueWhitespacedContains(_, _)
                | Selector::AttributeValueStartsWith(_, _)
                | Selector::AttributeValueEndsWith(_, _)
                | Selector::AttributeValueSubstring(_, _) => return,
            }
        }
    }
}

// A clone of a selector without sides takes no memory.
impl<'a> Clone for Selector<'a> {
    ghost is_clone = { λ e copy. selector copy ≡ selector e };

    ghost is_infallible = { λ e. has_sides (selector e) ≡ false };

    fn clone(&self) -> Result<Self, AllocError> {
        copy(self)
    }
}

impl<'a> fmt::Debug for Selector<'a> {
    fn fmt<W: fmt::Write>(&self, f: &mut fmt::Formatter<W>) -> fmt::Result {
        show(self, f)
    }
}
