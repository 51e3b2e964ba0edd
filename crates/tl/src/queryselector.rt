//! Selectors: their texts, where they hold, and queries by them.
pub mod iterable;
mod iterator;
mod query;

/// The nodes that a query gives.
pub mod iter {
    pub use super::iterator::QuerySelectorIterator;
}

/// The reader of selector texts.
pub mod parser {
    pub use tl_selector::parser::Parser;
}

/// Selectors as values.
pub mod selector {
    pub use tl_selector::selector::Selector;
}

pub use iterable::QueryIterable;
pub use iterator::QuerySelectorIterator;
pub use tl_selector::parser::{Parser, parse_query_selector};
pub use tl_selector::selector::Selector;
