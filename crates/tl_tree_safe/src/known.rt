//! Lists whose tags are looked up.
ghost use Rattle.std.specs.Prelude.{◌≡◌};
ghost use Rattle.tl_safe_fit.specs.Indexed.{indexed_words};
ghost use Rattle.tl_safe_fit.specs.Words.{words_of};

use crate::lists::Lists;
use std::alloc::{AllocError, Global};
use tl_safe_fit::WordIndex;

/// Lists, with an index of their tags, which each element of a page is looked up in.
#[derive(Drop)]
pub(crate) struct Known<'w> {
    pub(crate) lists: Lists<'w>,
    tags: WordIndex<'w>,
    ghost same: { indexed_words tags ≡ words_of lists.tags.now },
}

impl<'w> Known<'w> {
    ghost use Rattle.std.specs.Prelude.{IfOk};
    ghost use Rattle.tl_safe_fit.specs.Words.{is_among};
    ghost use Rattle.tl_tree_safe.specs.Policies.{listed_words};

    /// These lists.
    pub(crate) fn new(alloc: Global, lists: &Lists<'w>) -> Result<Known<'w>, AllocError>
        ensures { IfOk result (λ known. known.lists ≡ lists.now) }
    {
        let tags = WordIndex::new(alloc, lists.tags)?;
        Ok(Known {
            lists: *lists,
            tags,
        })
    }

    /// Whether a tag is listed.
    pub(crate) fn lists_tag(&self, name: &[u8]) -> bool
        ensures { result ≡ is_among (listed_words self.now.lists).tags name.now }
    {
        self.tags.contains(name)
    }
}
