//! The way along the first sides of a selector. Chains are nested to the left, so this way may be
//! as long as a text has parts.
ghost use Rattle.std.specs.Prelude.{◌≡◌, ◌≤◌, false, IfOk};
ghost use Rattle.std.specs.List.{All};
ghost use Rattle.tl_spec.specs.Select.Meaning.{has_combinator};
ghost use Rattle.tl_selector.specs.Spine.{has_sides, nested_in, selectors};
ghost use Rattle.tl_selector.specs.View.{selector};
ghost use Rattle.tl_selector.specs.declared.selector.Selector.{size-Selector};

use crate::selector::Selector;
use std::alloc::{AllocError, Global};

/// Whether it is joined of two.
pub fn has_sides(e: &Selector<'_>) -> bool
    ensures { result ≡ has_sides (selector e.now) }
{
    matches!(
        e,
        Selector::And(_, _)
            | Selector::Or(_, _)
            | Selector::Descendant(_, _)
            | Selector::Parent(_, _)
    )
}

/// The selectors that stand in one another as first sides, from the outermost on, and the innermost
/// of all, which has no sides.
pub fn spine<'e, 'a>(
    alloc: Global,
    e: &'e Selector<'a>,
) -> Result<(Vec<&'e Selector<'a>>, &'e Selector<'a>), AllocError>
    ensures whole { IfOk result (λ way. nested_in (selectors way.0.items) (selector way.1.now)
        ≡ selector e.entry.now) }
    ensures innermost { IfOk result (λ way. has_sides (selector way.1.now) ≡ false) }
    ensures depth { IfOk result (λ way. All (λ x. size-Selector x.now
        ≤ size-Selector e.entry.now) way.0.items) }
{
    let mut wholes = Vec::new(alloc);
    let mut first = e;
    'inwards: loop {
        match first {
            Selector::And(a, _) => {
                wholes.push(first)?;
                first = a;
            }
            Selector::Or(a, _) => {
                wholes.push(first)?;
                first = a;
            }
            Selector::Descendant(a, _) => {
                wholes.push(first)?;
                first = a;
            }
            Selector::Parent(a, _) => {
                wholes.push(first)?;
                first = a;
            }
            _ => return Ok((wholes, first)),
        }
    }
}

/// Whether it asks for ancestors.
pub fn has_combinator(e: &Selector<'_>) -> bool
    ensures { result ≡ has_combinator (selector e.now) }
{
    let mut whole = e;
    'sides: loop {
        match whole {
            Selector::And(a, b) | Selector::Or(a, b) => {
                if has_combinator(b) {
                    return true;
                }
                whole = a;
            }
            Selector::Descendant(_, _) | Selector::Parent(_, _) => return true,
            _ => return false,
        }
    }
}
