//! What goes of a page by a policy.
ghost use Rattle.std.specs.Prelude.{◌≡◌, ◌≢◌, ◌<◌, ◌++◌, Err, IfOk, IsUtf8, OnOk, length, option_copied};
ghost use Rattle.tl_c.specs.LentLists.{kept_lawful, kept_with, lent_lists, number_of_refusal, refusal_in};
ghost use Rattle.tl_c.specs.Removals.{AreRemovals, AreRemovalsBy, GivesSome, head_bytes, key_said, number_of_cause, removals_in_bytes, tag_bytes};
ghost use Rattle.tl_c.specs.SafePages.{kept_page};
ghost use Rattle.tl_dom_spec.specs.HtmlForest.{HtmlForest};
ghost use Rattle.tl_html_spec.specs.HtmlTokenizer.{without_mark};
ghost use Rattle.tl_page.specs.declared.failure.Failure.TheVariants.{NotUnderstood, Refused};
ghost use Rattle.tl_tree.specs.Rows.{rows_of};
ghost use Rattle.tl_tree.specs.Sources.{source_at};
ghost use Rattle.tl_tree.specs.TreeView.{rows_in};
ghost use Rattle.tl_tree_safe.specs.ListOptions.{lists_in};
ghost use Rattle.tl_tree_safe.specs.OfPolicy.{lists_of};
ghost use Rattle.tl_tree_safe.specs.Refusals.{first_refusal};
ghost use Rattle.tl_tree_safe.specs.Removed.{removed};

use crate::attribute::write_number;
use crate::lent_lists::LentLists;
use crate::own_policy::{lawful_policy, texts_of};
use crate::page::failure_of;
use std::alloc::{AllocError, Global};
use tl_page::{Failure, text};
use tl_tree::{Source, Tree};
use tl_tree_safe::{
    Cause, Policy, Removal, RemovalForm, WordLists, print_telling, read_in_div, without_mark,
};

// The number of a cause in `tl.h`.
fn number_of_cause(cause: Cause) -> usize
    ensures { result ≡ number_of_cause cause }
{
    match cause {
        Cause::UnlistedTag => 1,
        Cause::OpaqueTag => 2,
        Cause::ForeignTag => 3,
        Cause::MisplacedTag => 4,
        Cause::UnlistedKey => 5,
        Cause::UnlistedValue => 6,
    }
}

// The key of an attribute, and nothing where the element itself goes.
fn key_said(key: Option<&[u8]>) -> &[u8]
    ensures { result.now ≡ key_said (option_copied key.entry) }
{
    match key {
        Some(key) => key,
        None => b"",
    }
}

// Writes where a start tag stands, the number of why, and how many bytes the name and the key have.
fn write_head(
    source: &Source,
    cause: Cause,
    name: &[u8],
    key: &[u8],
    out: &mut Vec<u8>,
) -> Result<(), AllocError>
    ensures { OnOk result (out.new.items
        ≡ out.old.items ++ head_bytes source.now cause name.now key.now) }
{
    write_number(source.start, out)?;
    write_number(source.end, out)?;
    write_number(number_of_cause(cause), out)?;
    write_number(name.len(), out)?;
    write_number(key.len(), out)
}

// The same, and the name and the key.
fn write_tag(
    source: &Source,
    cause: Cause,
    name: &[u8],
    key: &[u8],
    out: &mut Vec<u8>,
) -> Result<(), AllocError>
    ensures { OnOk result (out.new.items
        ≡ out.old.items ++ tag_bytes source.now cause name.now key.now) }
{
    write_head(source, cause, name, key, out)?;
    out.extend_from_slice(name)?;
    out.extend_from_slice(key)
}

// Removals as `tl.h` says them.
#[derive(Clone, Copy)]
pub(crate) struct Records;

impl RemovalForm for Records {
    ghost use Rattle.tl_c.specs.Removals.{bytes_of};

    ghost written = { λ form source name gone. bytes_of source name gone };

    fn write(
        &self,
        source: &Source,
        name: &[u8],
        removal: Removal<'_>,
        out: &mut Vec<u8>,
    ) -> Result<(), AllocError> {
        write_tag(source, removal.cause, name, key_said(removal.key), out)
    }
}

// What goes of a tree.
fn removals_of_tree(
    alloc: Global,
    policy: &Policy<'_>,
    tree: &Tree<'_>,
) -> Result<Vec<u8>, AllocError>
    ensures { (trees : HtmlForest) → rows_in tree.now ≡ rows_of trees → IfOk result (λ bytes.
        bytes.items ≡ removals_in_bytes (source_at tree.now) (rows_in tree.now)
        (removed (lists_of policy.now) trees)) }
{
    let told = print_telling(alloc, policy, tree, &Records)?;
    Ok(told.lines)
}

// What goes of a page by a policy.
fn removals_of_page(alloc: Global, policy: &Policy<'_>, page: &[u8]) -> Result<Vec<u8>, Failure>
    ensures gives { let kept = kept_page (lists_of policy.now) page.now in
        GivesSome (λ bytes. AreRemovals (lists_of policy.now) (without_mark page.now) bytes.items)
        kept result }
    ensures no_text { ¬ (IsUtf8 page.now) → result ≡ Err NotUnderstood }
    ensures long { u32.MAX < length page.now → result ≡ Err NotUnderstood }
{
    let text = text(page)?;
    match read_in_div(alloc, without_mark(text.as_bytes())) {
        Ok(tree) => Ok(removals_of_tree(alloc, policy, &tree)?),
        Err(error) => Err(failure_of(error)),
    }
}

// What goes of a page by the policy of lists.
fn removals_by_words(
    alloc: Global,
    words: &WordLists<'_>,
    page: &[u8],
    cause: &mut u8,
) -> Result<Vec<u8>, Failure>
    ensures gives { let kept = kept_lawful (lists_in words.now) page.now in
        GivesSome (λ bytes. AreRemovals (lists_in words.now) (without_mark page.now) bytes.items)
        kept result }
    ensures told { cause.new ≡ number_of_refusal (first_refusal (lists_in words.now)) }
    ensures lawful { result ≢ Err Refused → cause.new ≡ 0 }
{
    let policy = lawful_policy(words, cause)?;
    removals_of_page(alloc, &policy, page)
}

/// What goes of a page by the policy of lists. Lists that are no policy are refused, and it says
/// the number of why; else 0.
pub(crate) fn removals_with(
    alloc: Global,
    lists: &LentLists<'_>,
    page: &[u8],
    cause: &mut u8,
) -> Result<Vec<u8>, Failure>
    ensures gives { let lent = lent_lists lists.now in
        GivesSome (λ bytes. AreRemovalsBy lent (without_mark page.now) bytes.items)
        (kept_with lists.now page.now) result }
    ensures no_text { ¬ (IsUtf8 page.now) → result ≡ Err NotUnderstood }
    ensures long { u32.MAX < length page.now → result ≡ Err NotUnderstood }
    ensures told { result ≡ Err Refused
        → cause.new ≡ number_of_refusal (refusal_in (lent_lists lists.now)) }
    ensures lawful { result ≢ Err Refused → cause.new ≡ 0 }
{
    *cause = 0;
    text(page)?;
    let texts = texts_of(lists)?;
    let words = WordLists::new(alloc, &texts)?;
    removals_by_words(alloc, &words, page, cause)
}
