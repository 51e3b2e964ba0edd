//! Texts of relative selectors.
ghost use Rattle.std.specs.Prelude.{◌≡◌, Ok, IfErr, IfOk};
ghost use Rattle.tl_css.specs.Relative.{relative_at};
ghost use Rattle.tl_css.specs.StateView.{IsCause};

use crate::error::{Failure, SelectorError};
use crate::selector::Selector;
use crate::text::read_by;
use std::alloc::Global;

/// The selector that a text of relative selectors is, or the first byte that is wrong and why. Each
/// selector of the list may begin with a combinator, which leads from the scope: `> a` is
/// `:scope > a`.
pub fn parse_relative(alloc: Global, text: &str) -> Result<Selector, SelectorError>
    ensures found { IfOk result (λ e. relative_at text.now ≡ Ok e) }
    ensures cause { IfErr result (IsCause (relative_at text.now)) }
{
    let text = text.as_bytes();
    match read_by(alloc, true, text) {
        Ok(selector) => Ok(selector),
        Err(Failure::OutOfMemory) => Err(SelectorError::OutOfMemory),
        Err(Failure::Text(wrong)) => Err(SelectorError::Text {
            at: text.len().saturating_sub(wrong.left),
            cause: wrong.cause,
        }),
    }
}
