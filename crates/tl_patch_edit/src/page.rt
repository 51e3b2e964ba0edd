//! A page with its tokens and its elements.
ghost use Rattle.std.specs.Prelude.{IfOk, ◌≡◌};
ghost use Rattle.tl_html_spec.specs.Pieces.{pieces, runs};
ghost use Rattle.tl_html_tokens.specs.Tokens.{AreTokensOf};
ghost use Rattle.tl_patch_elements.specs.View.{elements_view};
ghost use Rattle.tl_patch_spec.specs.Tail.{elements_up_to_tail};

use crate::tail::elements_up_to_tail;
use std::alloc::{AllocError, Global};
use tl_html_tokens::Token;
use tl_patch_elements::Element;

/// A page with its tokens, and with its elements up to its tail, in the order in which they end. It
/// is made once of a page of which more is asked, or that is changed.
#[derive(Drop)]
pub struct TokenizedPage<'p> {
    pub page: &'p [u8],
    pub(crate) tokens: Vec<Token>,
    pub(crate) elements: Vec<Element<'p>>,
    pub ghost of_page: { ∥ AreTokensOf page.now tokens.items ∥₁ },
    pub ghost up_to_tail: { elements_view elements.items
        ≡ elements_up_to_tail (runs (pieces page.now)) },
}

impl<'p> TokenizedPage<'p> {
    /// The tokens of a page, and its elements.
    pub fn of(alloc: Global, page: &'p [u8]) -> Result<TokenizedPage<'p>, AllocError>
        ensures { IfOk result (λ own. own.page.now ≡ page.now) }
    {
        let found = elements_up_to_tail(alloc, page)?;
        let own = TokenizedPage {
            page,
            tokens: found.tokens,
            elements: found.elements,
        };
        Ok(own)
    }
}
