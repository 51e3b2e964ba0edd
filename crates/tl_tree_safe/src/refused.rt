//! The first word for which lists are no policy.
//!
//! A word is lawful where there is no reason against it, so no reason can be given of a lawful
//! word.
ghost use Rattle.std.specs.Option.{option_map};
ghost use Rattle.std.specs.Prelude.{[], ◌∷◌, ◌≡◌};
ghost use Rattle.tl_safe_fit.specs.Words.{words_of};
ghost use Rattle.tl_tree_safe.specs.Inner.Roles.{reason_in};
ghost use Rattle.tl_tree_safe.specs.Policies.{listed_words};
ghost use Rattle.tl_tree_safe.specs.Refusals.{first_refusal, first_refused, lacking, prefix_reason, refusal_of, refused_mark, refused_table, refused_word, table_name};

use crate::lists::Lists;
use crate::reasons::{
    class_reason, key_reason, lacking, link_reason, part_reason, prefix_reason, tag_reason,
};
use crate::refusal::{PolicyError, Reason};
use crate::words::is_among;

/// Where a word is listed.
#[derive(Clone, Copy)]
pub(crate) enum Role {
    Tag,
    Key,
    LinkPrefix,
    ClassPattern,
    TagWithoutTable,
}

// Why no policy with these link keys may list a word in a role, if none may.
fn reason_in(role: Role, link_keys: &[&str], word: &[u8]) -> Option<Reason>
    ensures { result ≡ reason_in role (words_of link_keys.now) word.now }
{
    match role {
        Role::Tag => tag_reason(word),
        Role::Key => key_reason(link_keys, word),
        Role::LinkPrefix => link_reason(word),
        Role::ClassPattern => class_reason(word),
        Role::TagWithoutTable => part_reason(word),
    }
}

// The first of these words that no policy may list in a role.
fn first_refused<'w>(
    role: Role,
    link_keys: &[&str],
    words: &'w [&'w str],
) -> Option<PolicyError<'w>>
    ensures { option_map refusal_of result
        ≡ first_refused (reason_in role (words_of link_keys.now)) (words_of words.now) }
{
    for word in words {
        if let Some(reason) = reason_in(role, link_keys, word.as_bytes()) {
            return Some(PolicyError { word, reason });
        }
    }
    None
}

// A prefix that no policy may have.
fn refused_prefix(id_prefix: &str) -> Option<PolicyError<'_>>
    ensures { option_map refusal_of result ≡ first_refused prefix_reason (id_prefix.now ∷ []) }
{
    let reason = prefix_reason(id_prefix.as_bytes())?;
    Some(PolicyError {
        word: id_prefix,
        reason,
    })
}

// The first word that is refused by itself: by the order of the lists, and of the words in each.
fn refused_word<'w>(lists: &Lists<'w>) -> Option<PolicyError<'w>>
    ensures { option_map refusal_of result ≡ refused_word (listed_words lists.now) }
{
    let link_keys = lists.link_keys;
    first_refused(Role::Tag, link_keys, lists.tags)
        .or_else(|| first_refused(Role::Key, link_keys, lists.keys))
        .or_else(|| first_refused(Role::LinkPrefix, link_keys, lists.link_prefixes))
        .or_else(|| first_refused(Role::ClassPattern, link_keys, lists.classes))
        .or_else(|| refused_prefix(lists.id_prefix))
}

// The key of the mark, where lists mark links and may not.
fn refused_mark<'w>(lists: &Lists<'w>) -> Option<PolicyError<'w>>
    ensures { option_map refusal_of result ≡ refused_mark (listed_words lists.now) }
{
    if lists.nofollow_links
        && !(is_among(lists.keys, b"rel") && !is_among(lists.link_keys, b"rel"))
    {
        return Some(PolicyError {
            word: "rel",
            reason: Reason::UnlistedMark,
        });
    }
    None
}

// `table`, where parts of it are missing.
fn refused_whole<'w>(tags: &'w [&'w str]) -> Option<PolicyError<'w>>
    ensures { option_map refusal_of result ≡ option_map (λ r. (table_name, r))
        (lacking (words_of tags.now)) }
{
    let reason = lacking(tags)?;
    Some(PolicyError {
        word: "table",
        reason,
    })
}

// What is wrong with the names of tables: `table` lacks a part, or a part stands without it.
fn refused_table<'w>(tags: &'w [&'w str]) -> Option<PolicyError<'w>>
    ensures { option_map refusal_of result ≡ refused_table (words_of tags.now) }
{
    if is_among(tags, b"table") {
        refused_whole(tags)
    } else {
        first_refused(Role::TagWithoutTable, &[], tags)
    }
}

/// The first word for which lists are no policy, or else the key of the mark, or else what is wrong
/// with tables.
pub(crate) fn first_refusal<'w>(lists: &Lists<'w>) -> Option<PolicyError<'w>>
    ensures { option_map refusal_of result ≡ first_refusal (listed_words lists.now) }
{
    match refused_word(lists) {
        Some(error) => Some(error),
        None => refused_mark(lists).or_else(|| refused_table(lists.tags)),
    }
}
