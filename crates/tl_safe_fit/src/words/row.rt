//! A word of an index.

// A word, and one more than the place of the last row before it whose word begins alike; 0 where
// there is none.
#[derive(Clone, Copy)]
pub(crate) struct Row<'w> {
    pub(crate) word: &'w str,
    pub(crate) before: usize,
}
