//! The lists of a policy, as options say them.
ghost use Rattle.std.specs.Prelude.{◌≡◌, ◌++◌, ◌∷◌, ◌<◌, [], length, IfOk, IfSome, OnOk, string_bytes};
ghost use Rattle.std.specs.List.{slice_split};
ghost use Rattle.tl_safe_fit.specs.Words.{words_of};
ghost use Rattle.tl_tree_safe.specs.Policies.{listed_words};
ghost use Rattle.tl_tree_safe.specs.ListOptions.{has_rel, is_comma, lists_in, lists_or_default, nofollow_line, option_line, policy_text, prefix_or_default, list_options, relative_line, said_over, text_of, with_rel, words_in, remaining_words, words_or_default};

use crate::list_changes::{changed_by, changes_list, copy_words};
use crate::lists::Lists;
use std::alloc::{AllocError, Global};

/// The texts of lists, where they are said: words with commas between them, and a prefix; and the
/// lists that count where they are not. A text with `+` or `-` first changes such a list: a word
/// behind `-` goes, and one behind `+` or alone comes.
#[derive(Clone, Copy)]
pub struct ListTexts<'c> {
    pub own: Lists<'static>,
    pub tags: Option<&'c str>,
    pub keys: Option<&'c str>,
    pub link_keys: Option<&'c str>,
    pub link_prefixes: Option<&'c str>,
    pub relative_links: bool,
    pub nofollow_links: bool,
    pub classes: Option<&'c str>,
    pub id_prefix: Option<&'c str>,
}

// The word before the first comma, and what stands after it, if there is one.
fn split_at_comma<'c>(text: &'c str) -> (&'c str, Option<&'c str>)
    ensures words { slice_split is_comma text.now ≡ result.0.now ∷ remaining_words result.1 }
    ensures shorter { IfSome result.1 (λ more. length more.now < length text.now) }
{
    match text.split_once(',') {
        Some((word, more)) => (word, Some(more)),
        None => (text, None),
    }
}

// The words of a text with commas between them, in order and without empty ones.
fn split_words<'c>(alloc: Global, text: &'c str) -> Result<Vec<&'c str>, AllocError>
    ensures { IfOk result (λ found. words_of found.items ≡ words_in text.now) }
{
    let mut found = Vec::new(alloc);
    let mut rest = Some(text);
    while let Some(all) = rest {
        let (word, more) = split_at_comma(all);
        rest = more;
        if !word.is_empty() {
            found.push(word)?;
        }
    }
    Ok(found)
}

// What a text says of the words of a list.
fn said_over<'c>(alloc: Global, text: &'c str, own: &[&'c str]) -> Result<Vec<&'c str>, AllocError>
    ensures { IfOk result (λ found. words_of found.items ≡ said_over text.now (words_of own.now)) }
{
    let words = split_words(alloc, text)?;
    if changes_list(text.as_bytes()) {
        let found = changed_by(alloc, own, &words)?;
        return Ok(found);
    }
    Ok(words)
}

// The words of a list that is said, or else the policy's own.
fn list<'c>(
    alloc: Global,
    text: Option<&'c str>,
    own: &[&'c str],
) -> Result<Vec<&'c str>, AllocError>
    ensures { IfOk result (λ found.
        words_of found.items ≡ words_or_default (text_of text.entry) (words_of own.now)) }
{
    match text {
        Some(text) => said_over(alloc, text, own),
        None => copy_words(alloc, own),
    }
}

// Whether `rel` is one of these keys.
fn has_rel(keys: &[&str]) -> bool
    ensures { result ≡ has_rel (words_of keys.now) }
{
    for key in keys {
        if b"rel".as_slice() == key.as_bytes() {
            return true;
        }
    }
    false
}

// The keys that are said, or else the policy's own; with `rel`, where links are marked there.
fn keys<'c>(
    alloc: Global,
    text: Option<&'c str>,
    own: &[&'c str],
    nofollow_links: bool,
) -> Result<Vec<&'c str>, AllocError>
    ensures { IfOk result (λ found. words_of found.items ≡ with_rel nofollow_links
        (words_or_default (text_of text.entry) (words_of own.now))) }
{
    let mut found = list(alloc, text, own)?;
    if nofollow_links && !has_rel(found.as_slice()) {
        found.push("rel")?;
    }
    Ok(found)
}

// The prefix that is said, or else the policy's own.
fn id_prefix<'c>(text: Option<&'c str>, own: &'c str) -> &'c str
    ensures { result.now ≡ prefix_or_default (text_of text.entry) own.entry.now }
{
    match text {
        Some(text) => text,
        None => own,
    }
}

/// The words of each list.
#[derive(Drop)]
pub struct WordLists<'c> {
    tags: Vec<&'c str>,
    keys: Vec<&'c str>,
    link_keys: Vec<&'c str>,
    link_prefixes: Vec<&'c str>,
    relative_links: bool,
    nofollow_links: bool,
    classes: Vec<&'c str>,
    id_prefix: &'c str,
}

impl<'c> WordLists<'c> {
    /// Those of these texts, and where a list isn't said that which counts then.
    pub fn new(alloc: Global, texts: &ListTexts<'c>) -> Result<WordLists<'c>, AllocError>
        ensures { IfOk result (λ words. lists_in words
            ≡ lists_or_default (list_options texts.now) (listed_words texts.now.own)) }
    {
        let own = texts.own;
        let nofollow_links = texts.nofollow_links | own.nofollow_links;
        Ok(WordLists {
            tags: list(alloc, texts.tags, own.tags)?,
            keys: keys(alloc, texts.keys, own.keys, nofollow_links)?,
            link_keys: list(alloc, texts.link_keys, own.link_keys)?,
            link_prefixes: list(alloc, texts.link_prefixes, own.link_prefixes)?,
            relative_links: texts.relative_links | own.relative_links,
            nofollow_links,
            classes: list(alloc, texts.classes, own.classes)?,
            id_prefix: id_prefix(texts.id_prefix, own.id_prefix),
        })
    }

    /// They as lists.
    pub fn lists(&self) -> Lists<'_>
        ensures { listed_words result ≡ lists_in self.now }
    {
        Lists {
            tags: self.tags.as_slice(),
            keys: self.keys.as_slice(),
            link_keys: self.link_keys.as_slice(),
            link_prefixes: self.link_prefixes.as_slice(),
            relative_links: self.relative_links,
            nofollow_links: self.nofollow_links,
            classes: self.classes.as_slice(),
            id_prefix: self.id_prefix,
        }
    }
}

// Writes an option and the words of its list on a line.
fn write_line(option: &str, words: &[&str], out: &mut String) -> Result<(), AllocError>
    ensures { OnOk result (string_bytes out.new
        ≡ string_bytes out.old ++ option_line option.now (words_of words.now)) }
{
    out.push_str(option)?;
    if let [first, others @ ..] = words {
        out.push(' ')?;
        out.push_str(first)?;
        for word in others {
            out.push(',')?;
            out.push_str(word)?;
        }
    }
    out.push('\n')
}

// Writes the option for links beside the page on a line, where they may stand.
fn write_flag(relative_links: bool, out: &mut String) -> Result<(), AllocError>
    ensures { OnOk result (string_bytes out.new
        ≡ string_bytes out.old ++ relative_line relative_links) }
{
    if relative_links {
        out.push_str("--relative-links\n")?;
    }
    Ok(())
}

// Writes the option for marked links on a line, where links are marked.
fn write_mark_flag(nofollow_links: bool, out: &mut String) -> Result<(), AllocError>
    ensures { OnOk result (string_bytes out.new
        ≡ string_bytes out.old ++ nofollow_line nofollow_links) }
{
    if nofollow_links {
        out.push_str("--nofollow-links\n")?;
    }
    Ok(())
}

/// The options that say these lists, one on each line.
pub fn lines_of(alloc: Global, lists: &Lists<'_>) -> Result<String, AllocError>
    ensures { IfOk result (λ text. string_bytes text ≡ policy_text (listed_words lists.now)) }
{
    let mut out = String::new(alloc);
    write_line("--tags", lists.tags, &mut out)?;
    write_line("--keys", lists.keys, &mut out)?;
    write_line("--link-keys", lists.link_keys, &mut out)?;
    write_line("--links", lists.link_prefixes, &mut out)?;
    write_flag(lists.relative_links, &mut out)?;
    write_mark_flag(lists.nofollow_links, &mut out)?;
    write_line("--classes", lists.classes, &mut out)?;
    write_line("--prefix", &[lists.id_prefix], &mut out)?;
    Ok(out)
}
