//! The elements of a page.
ghost use Rattle.std.specs.Prelude.{◌≡◌, IfOk};
ghost use Rattle.tl_html_spec.specs.Pieces.{pieces, runs};
ghost use Rattle.tl_html_tokens.specs.Tokens.{AreTokensOf};
ghost use Rattle.tl_patch_spec.specs.Elements.{elements};
ghost use Rattle.tl_patch_elements.specs.View.{elements_view};

use crate::finder::Finder;
use crate::found::{Element, PageElements};
use std::alloc::{AllocError, Global};
use tl_html_tokens::{Token, tokens};

// The elements, as their tokens come.
fn elements_of<'p>(
    alloc: Global,
    page: &'p [u8],
    tokens: &[Token],
) -> Result<Vec<Element<'p>>, AllocError>
    requires { AreTokensOf page.now tokens.now }
    ensures { IfOk result (λ found.
        elements_view found.items ≡ elements (runs (pieces page.now))) }
{
    let mut finder = Finder::new(alloc);
    for at in 0..tokens.len() {
        finder.push_token(alloc, page, tokens[at], at)?;
    }
    finder.close_all(tokens.len())?;
    Ok(finder.ended)
}

/// The tokens of a page, and its elements in the order in which they end: which tags begin and end
/// them is by `balanced`, so an end tag that may be left out ends one where the standard says.
pub fn elements(alloc: Global, page: &[u8]) -> Result<PageElements<'_>, AllocError>
    ensures tokens { IfOk result (λ found. AreTokensOf page.now found.tokens.items) }
    ensures elements { IfOk result (λ found.
        elements_view found.elements.items ≡ elements (runs (pieces page.now))) }
{
    let tokens = tokens(alloc, page)?;
    let elements = elements_of(alloc, page, tokens.as_slice())?;
    Ok(PageElements { tokens, elements })
}
