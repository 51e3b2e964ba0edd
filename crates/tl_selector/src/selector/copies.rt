//! Copies of selectors, with joined parts in boxes of their own.
ghost use Rattle.std.specs.Prelude.{◌≡◌, false, IfOk, IsOk};
ghost use Rattle.tl_selector.specs.Spine.{has_sides, with_first};
ghost use Rattle.tl_selector.specs.View.{selector};

use crate::selector::Selector;
use crate::selector::spine::spine;
use std::alloc::{AllocError, Global};

/// The same selector.
#[cycle(copies)]
pub fn copy<'a>(e: &Selector<'a>) -> Result<Selector<'a>, AllocError>
    ensures copy { IfOk result (λ f. selector f ≡ selector e.now) }
    ensures simple { has_sides (selector e.now) ≡ false → IsOk result }
{
    match e {
        Selector::And(a, _)
        | Selector::Or(a, _)
        | Selector::Descendant(a, _)
        | Selector::Parent(a, _) => copy_complex(*Box::allocator(a), e),
        _ => Ok(copy_simple(e)),
    }
}

// A copy of a selector without sides.
fn copy_simple<'a>(e: &Selector<'a>) -> Selector<'a>
    ensures { has_sides (selector e.now) ≡ false → selector result ≡ selector e.now }
{
    match e {
        Selector::Tag(name) => Selector::Tag(name),
        Selector::Id(id) => Selector::Id(id),
        Selector::Class(class) => Selector::Class(class),
        Selector::Attribute(key) => Selector::Attribute(key),
        Selector::AttributeValue(key, value) => Selector::AttributeValue(key, value),
        Selector::AttributeValueWhitespacedContains(key, value) => {
            Selector::AttributeValueWhitespacedContains(key, value)
        }
        Selector::AttributeValueStartsWith(key, value) => {
            Selector::AttributeValueStartsWith(key, value)
        }
        Selector::AttributeValueEndsWith(key, value) => {
            Selector::AttributeValueEndsWith(key, value)
        }
        Selector::AttributeValueSubstring(key, value) => {
            Selector::AttributeValueSubstring(key, value)
        }
        _ => Selector::All,
    }
}

// A copy of a selector with sides: first the innermost of its first sides, then what that stands
// in, from the inside out.
#[cycle(copies)]
fn copy_complex<'a>(alloc: Global, e: &Selector<'a>) -> Result<Selector<'a>, AllocError>
    ensures { IfOk result (λ f. selector f ≡ selector e.now) }
{
    let (mut wholes, first) = spine(alloc, e)?;
    let mut copy = copy_simple(first);
    'outwards: while let Some(whole) = wholes.pop() {
        copy = wrap(alloc, copy, whole)?;
    }
    Ok(copy)
}

// A selector with its first side, which was copied, and a copy of its second.
#[cycle(copies)]
fn wrap<'a>(
    alloc: Global,
    first: Selector<'a>,
    e: &Selector<'a>,
) -> Result<Selector<'a>, AllocError>
    ensures { IfOk result (λ f. selector f ≡ with_first (selector e.now) (selector first.entry)) }
{
    match e {
        Selector::And(_, b) => Ok(Selector::And(Box::new(alloc, first)?, copy_box(alloc, b)?)),
        Selector::Or(_, b) => Ok(Selector::Or(Box::new(alloc, first)?, copy_box(alloc, b)?)),
        Selector::Descendant(_, b) => {
            Ok(Selector::Descendant(Box::new(alloc, first)?, copy_box(alloc, b)?))
        }
        Selector::Parent(_, b) => Ok(Selector::Parent(
            Box::new(alloc, first)?,
            copy_box(alloc, b)?,
        )),
        _ => Ok(first),
    }
}

#[cycle(copies)]
fn copy_box<'a>(alloc: Global, e: &Selector<'a>) -> Result<Box<Selector<'a>>, AllocError>
    ensures { IfOk result (λ f. selector f.value ≡ selector e.now) }
{
    Ok(Box::new(alloc, copy(e)?)?)
}
