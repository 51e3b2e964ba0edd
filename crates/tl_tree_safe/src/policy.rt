//! Policies.
//!
//! Names and keys are compared in exact case, so that what is printed is what was compared.
ghost use Rattle.std.specs.Prelude.{IsTrue};
ghost use Rattle.tl_tree_safe.specs.Lists.{lists_plain_names, lists_words};
ghost use Rattle.tl_tree_safe.specs.Policies.{listed_words};
ghost use Rattle.tl_tree_safe.specs.Refusals.{are_lawful};

use crate::lists::Lists;
use crate::refusal::PolicyError;
use crate::refused::first_refusal;

/// What is kept of a page: lists of words none of which is refused.
#[derive(Clone, Copy, PartialEq, Eq, Debug)]
pub struct Policy<'w> {
    pub(crate) lists: Lists<'w>,
    ghost words: { IsTrue (lists_words (listed_words lists)) },
    ghost plain: { IsTrue (lists_plain_names (listed_words lists)) },
    ghost lawful: { IsTrue (are_lawful (listed_words lists)) },
}

impl<'w> Policy<'w> {
    ghost use Rattle.std.specs.Option.{option_map};
    ghost use Rattle.std.specs.Prelude.{IfOk, ◌≡◌};
    ghost use Rattle.std.specs.Result.{result_err};
    ghost use Rattle.tl_tree_safe.specs.OfPolicy.{lists_of};
    ghost use Rattle.tl_tree_safe.specs.OwnLists.{blog_lists, comment_lists, document_lists};
    ghost use Rattle.tl_tree_safe.specs.Refusals.{first_refusal, refusal_of};

    /// The policy of these lists, or the first word that no policy may list: by the order of tags,
    /// keys, link prefixes, patterns of classes and the prefix of names, and of the words in each;
    /// then `rel`, where links are marked and may not be; then `table` or a part of a table, where
    /// one lacks the other. Any word may be a link key.
    pub fn new(lists: Lists<'w>) -> Result<Policy<'w>, PolicyError<'w>>
        ensures lists { IfOk result (λ policy. lists_of policy ≡ listed_words lists.entry) }

        // The word that is named is the first one, and there is a policy where there is none.
        ensures refusal { option_map refusal_of (result_err result)
            ≡ first_refusal (listed_words lists.entry) }
    {
        match first_refusal(&lists) {
            Some(error) => Err(error),
            None => Ok(Policy { lists }),
        }
    }

    /// The policy for the text of a blog: that of `Lists::BLOG`.
    pub fn blog() -> Policy<'static>
        ensures { lists_of result ≡ blog_lists }
    {
        Policy { lists: Lists::BLOG }
    }

    /// The policy for comments of readers: that of `Lists::COMMENTS`.
    pub fn comments() -> Policy<'static>
        ensures { lists_of result ≡ comment_lists }
    {
        Policy {
            lists: Lists::COMMENTS,
        }
    }

    /// The policy for documents with tables and pictures: that of `Lists::DOCUMENTS`.
    pub fn documents() -> Policy<'static>
        ensures { lists_of result ≡ document_lists }
    {
        Policy {
            lists: Lists::DOCUMENTS,
        }
    }

    /// What it lists.
    pub fn lists(&self) -> Lists<'w>
        ensures { listed_words result ≡ lists_of self.now }
    {
        self.lists
    }
}
