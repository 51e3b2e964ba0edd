//! What a compiled selector of C holds.

use tl_css::Selector;

/// A selector that was read.
#[derive(Drop)]
pub struct ParsedSelector {
    pub(crate) selector: Selector,
}
