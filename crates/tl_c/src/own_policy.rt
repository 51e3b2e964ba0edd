//! Policies of lists that C lends.
ghost use Rattle.std.specs.Prelude.{◌≡◌, ◌≢◌, ◌<◌, length, Err, IfErr, IfOk, IsUtf8, is_ok};
ghost use Rattle.tl_tree_safe.specs.ListOptions.{lists_in, text_of};
ghost use Rattle.tl_tree_safe.specs.Lists.{ListedWords};
ghost use Rattle.tl_tree_safe.specs.OfPolicy.{lists_of};
ghost use Rattle.tl_tree_safe.specs.Refusals.{are_lawful, first_refusal};
ghost use Rattle.tl_page.specs.Outcome.{Gives, success};
ghost use Rattle.tl_page.specs.declared.failure.Failure.TheVariants.{NotUnderstood, OutOfMemory, Refused};
ghost use Rattle.tl_c.specs.LentLists.{is_text, kept_lawful, kept_with, lent_lists, lines_in, lists_in_texts, number_of_reason, number_of_refusal, refusal_in, refused_word, said_text};
ghost use Rattle.tl_c.specs.SafePages.{IsSafe};
ghost use Rattle.tl_html_spec.specs.HtmlTokenizer.{without_mark};

use crate::lent_lists::{LentList, LentLists};
use crate::page::safe_page;
use crate::policy::policy_of;
use crate::text::text_of;
use std::alloc::Global;
use tl_page::{Failure, text};
use tl_tree_safe::{ListTexts, Policy, Reason, WordLists, lines_of};

// The number of a reason in `tl.h`.
fn number_of_reason(reason: Reason) -> u8
    ensures { result ≡ number_of_reason reason }
{
    match reason {
        Reason::MalformedTag => 1,
        Reason::OpaqueTag => 2,
        Reason::StructuralTag => 3,
        Reason::MalformedKey => 4,
        Reason::ScriptKey => 5,
        Reason::ActiveKey => 6,
        Reason::LinkKey => 7,
        Reason::MalformedLink => 8,
        Reason::ActiveScheme => 9,
        Reason::NoScheme => 10,
        Reason::MalformedPrefix => 11,
        Reason::UnlistedMark => 12,
        Reason::NoTableBody => 13,
        Reason::NoRow => 14,
        Reason::NoCell => 15,
        Reason::NoCaption => 16,
        Reason::NoTable => 17,
        Reason::MalformedClass => 18,
    }
}

// The text of a list, if it is said.
fn said_text<'c>(list: &LentList<'c>) -> Result<Option<&'c str>, Failure>
    ensures text { IfOk result (λ text. text_of text ≡ said_text list.now) }
    ensures reads { is_text (said_text list.now) ≡ is_ok result }
    ensures failure { IfErr result (λ failure. failure ≡ NotUnderstood) }
{
    if !list.is_said {
        return Ok(None);
    }
    Ok(Some(text_of(list.text)?))
}

/// The texts of lists, and the lists of their policy.
pub(crate) fn texts_of<'c>(lists: &LentLists<'c>) -> Result<ListTexts<'c>, Failure>
    ensures gives { Gives lists_in_texts (lent_lists lists.now) result }
    ensures failure { IfErr result (λ failure. failure ≡ NotUnderstood) }
{
    let tags = said_text(&lists.tags)?;
    let keys = said_text(&lists.keys)?;
    let link_keys = said_text(&lists.link_keys)?;
    let link_prefixes = said_text(&lists.link_prefixes)?;
    let classes = said_text(&lists.classes)?;
    let id_prefix = said_text(&lists.id_prefix)?;
    match policy_of(lists.policy) {
        Some(policy) => Ok(ListTexts {
            own: policy.lists(),
            tags,
            keys,
            link_keys,
            link_prefixes,
            relative_links: lists.relative_links,
            nofollow_links: lists.nofollow_links,
            classes,
            id_prefix,
        }),
        None => Err(Failure::NotUnderstood),
    }
}

/// The policy of lists. Where they are none it says the number of why.
pub(crate) fn lawful_policy<'w>(
    words: &'w WordLists<'_>,
    cause: &mut u8,
) -> Result<Policy<'w>, Failure>
    ensures lists { IfOk result (λ policy. lists_of policy ≡ lists_in words.now) }
    ensures lawful { are_lawful (lists_in words.now) ≡ is_ok result }
    ensures refused { IfErr result (λ failure. failure ≡ Refused) }
    ensures told { cause.new ≡ number_of_refusal (first_refusal (lists_in words.now)) }
{
    match Policy::new(words.lists()) {
        Ok(policy) => {
            *cause = 0;
            Ok(policy)
        }
        Err(error) => {
            *cause = number_of_reason(error.reason);
            Err(Failure::Refused)
        }
    }
}

// What the policy of lists keeps of a page, printed.
fn page_by_words(
    alloc: Global,
    words: &WordLists<'_>,
    page: &[u8],
    cause: &mut u8,
) -> Result<Vec<u8>, Failure>
    ensures gives { let kept = kept_lawful (lists_in words.now) page.now in
        Gives (λ safe. safe.items) kept result }
    ensures safe { IfOk result (λ safe.
        IsSafe (lists_in words.now) (without_mark page.now) safe.items) }
    ensures told { cause.new ≡ number_of_refusal (first_refusal (lists_in words.now)) }
    ensures lawful { result ≢ Err Refused → cause.new ≡ 0 }
{
    let policy = lawful_policy(words, cause)?;
    safe_page(alloc, &policy, page)
}

/// What the policy of lists keeps of a page, printed. Lists that are no policy are refused, and it
/// says the number of why; else 0.
pub(crate) fn safe_page_with(
    alloc: Global,
    lists: &LentLists<'_>,
    page: &[u8],
    cause: &mut u8,
) -> Result<Vec<u8>, Failure>
    ensures gives { Gives (λ safe. safe.items) (kept_with lists.now page.now) result }
    ensures no_text { ¬ (IsUtf8 page.now) → result ≡ Err NotUnderstood }
    ensures long { u32.MAX < length page.now → result ≡ Err NotUnderstood }
    ensures safe { (p : ListedWords) → lent_lists lists.now ≡ success p
        → IfOk result (λ safe. IsSafe p (without_mark page.now) safe.items) }
    ensures told { result ≡ Err Refused
        → cause.new ≡ number_of_refusal (refusal_in (lent_lists lists.now)) }
    ensures lawful { result ≢ Err Refused → cause.new ≡ 0 }
{
    *cause = 0;
    text(page)?;
    let texts = texts_of(lists)?;
    let words = WordLists::new(alloc, &texts)?;
    page_by_words(alloc, &words, page, cause)
}

// The first word for which lists are no policy. Of lists that are one that is refused.
fn word_refused_of(alloc: Global, words: &WordLists<'_>, cause: &mut u8) -> Result<Vec<u8>, Failure>
    ensures gives { let refused = refused_word (success (lists_in words.now)) in
        Gives (λ word. word.items) refused result }
    ensures told { result ≢ Err OutOfMemory
        → cause.new ≡ number_of_refusal (first_refusal (lists_in words.now)) }
    ensures lost { result ≡ Err OutOfMemory → cause.new ≡ cause.old }
{
    match Policy::new(words.lists()) {
        Ok(_) => {
            *cause = 0;
            Err(Failure::Refused)
        }
        Err(error) => {
            let word = String::from_str(alloc, error.word)?;
            *cause = number_of_reason(error.reason);
            Ok(word.into_bytes())
        }
    }
}

/// The options of `tl sanitize` that say lists, one on each line.
pub(crate) fn lines_with(alloc: Global, lists: &LentLists<'_>) -> Result<Vec<u8>, Failure>
    ensures gives { let lines = lines_in (lent_lists lists.now) in
        Gives (λ text. text.items) lines result }
{
    let texts = texts_of(lists)?;
    let words = WordLists::new(alloc, &texts)?;
    let lines = lines_of(alloc, &words.lists())?;
    Ok(lines.into_bytes())
}

/// The first word for which lists are no policy, and the number of why. Of lists that are one that
/// is refused.
pub(crate) fn word_refused(
    alloc: Global,
    lists: &LentLists<'_>,
    cause: &mut u8,
) -> Result<Vec<u8>, Failure>
    ensures gives { let refused = refused_word (lent_lists lists.now) in
        Gives (λ word. word.items) refused result }
    ensures told { result ≢ Err OutOfMemory
        → cause.new ≡ number_of_refusal (refusal_in (lent_lists lists.now)) }
    ensures lost { result ≡ Err OutOfMemory → cause.new ≡ 0 }
{
    *cause = 0;
    let texts = texts_of(lists)?;
    let words = WordLists::new(alloc, &texts)?;
    word_refused_of(alloc, &words, cause)
}
