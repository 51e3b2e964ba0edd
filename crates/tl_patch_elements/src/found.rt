//! Elements, by the numbers of tokens.

use tl_html_tokens::Token;

/// An element of a page.
#[derive(Clone, Copy, Debug)]
pub struct Element<'p> {
    /// The name as it stands in its tag, in any case.
    pub name: &'p [u8],
    /// The number of the token that is its start tag, or that brings one, as `</p>` alone does.
    pub start: usize,
    /// The number of its own end tag, or of the token before which it ends. One that is a tag alone
    /// ends at that tag.
    pub end: usize,
    /// Whether it ends with an end tag of the page.
    pub has_end_tag: bool,
}

/// The tokens of a page, and its elements in the order in which they end.
#[derive(Drop)]
pub struct PageElements<'p> {
    pub tokens: Vec<Token>,
    pub elements: Vec<Element<'p>>,
}
