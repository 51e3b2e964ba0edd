//! What the words of a command ask to be changed.

use crate::args::{UsageError, selector, url};
use crate::patching::{Deed, Patching, Target};
use crate::telling::Tellings;
use clap::ArgMatches;
use regex::Error;
use regex::bytes::Regex;
use std::alloc::Global;
use tl_answers::Edit;
use tl_commands::ElementVerb;
use tl_patch::{is_key, is_name};
use tl_patch_edit::{Content, ElementPatch};
use tl_values::{Pattern, Rewrite};

// The key that a word says, in lower case.
fn key_at<'w>(
    alloc: Global,
    matches: &ArgMatches<'w>,
    word: &str,
) -> Result<String, UsageError<'w>> {
    let said = matches.get_str(word).unwrap_or("");
    let key = said.to_ascii_lowercase(alloc)?;
    if !is_key(key.as_bytes()) {
        return Err(UsageError::NoKey(said));
    }
    Ok(key)
}

// One word of a value.
fn word(said: &str) -> Result<&str, UsageError<'_>> {
    if said.is_empty() || said.bytes().any(|byte| byte.is_ascii_whitespace()) {
        return Err(UsageError::NoWord(said));
    }
    Ok(said)
}

// The pattern of these texts.
fn pattern<'w>(
    alloc: Global,
    regex: &'w str,
    text: &'w str,
) -> Result<Rewrite<'w>, UsageError<'w>> {
    match Pattern::new(alloc, regex, text) {
        Ok(pattern) => Ok(Rewrite::Pattern(pattern)),
        Err(Error::OutOfMemory) => Err(UsageError::OutOfMemory),
        Err(error) => Err(UsageError::NoRegex(error, regex)),
    }
}

// What is put in the place of texts.
fn replacement<'w>(
    alloc: Global,
    matches: &ArgMatches<'w>,
) -> Result<Option<Rewrite<'w>>, UsageError<'w>> {
    let Some([sought, put]) = matches.get_strs("replace") else {
        return Ok(None);
    };
    if !matches.get_flag("literal") {
        return Ok(Some(pattern(alloc, *sought, *put)?));
    }
    if sought.is_empty() {
        return Err(UsageError::NoLiteral);
    }
    Ok(Some(Rewrite::Replace { sought, put }))
}

// A pattern of names, with one `*` at most.
fn names(said: &str) -> Result<&str, UsageError<'_>> {
    let stars = said.bytes().filter(|byte| *byte == b'*').count();
    if said.is_empty() || stars > 1 {
        return Err(UsageError::NoNames(said));
    }
    Ok(said)
}

// How a URL is made of an old one, if an option says that.
fn url_rewrite<'w>(
    alloc: Global,
    matches: &ArgMatches<'w>,
) -> Result<Option<Rewrite<'w>>, UsageError<'w>> {
    if let Some(said) = matches.get_str("base") {
        return Ok(Some(Rewrite::Absolute(url(alloc, said)?)));
    }
    match matches.get_str("drop-query") {
        Some(said) => Ok(Some(Rewrite::DropQuery(names(said)?))),
        None => Ok(None),
    }
}

// How a value is made of an old one, if an option says that.
fn rewrite<'w>(
    alloc: Global,
    matches: &ArgMatches<'w>,
) -> Result<Option<Rewrite<'w>>, UsageError<'w>> {
    if let Some(text) = matches.get_str("prefix") {
        return Ok(Some(Rewrite::Prefix(text)));
    }
    if let Some(text) = matches.get_str("suffix") {
        return Ok(Some(Rewrite::Suffix(text)));
    }
    if let Some(said) = matches.get_str("add-word") {
        return Ok(Some(Rewrite::AddWord(word(said)?)));
    }
    if let Some(said) = matches.get_str("remove-word") {
        return Ok(Some(Rewrite::RemoveWord(word(said)?)));
    }
    if matches.get_str("from").is_some() {
        return Ok(Some(Rewrite::CopyOf(key_at(alloc, matches, "from")?)));
    }
    if matches.get_flag("from-text") {
        return Ok(Some(Rewrite::FromText));
    }
    match url_rewrite(alloc, matches)? {
        Some(rewrite) => Ok(Some(rewrite)),
        None => replacement(alloc, matches),
    }
}

/// Whether an option says how a value is made.
pub fn is_rewrite(matches: &ArgMatches<'_>) -> bool {
    let has_option = [
        "prefix",
        "suffix",
        "add-word",
        "remove-word",
        "from",
        "base",
        "drop-query",
        "replace",
    ]
    .iter()
    .any(|option| matches.get_strs(option).is_some());
    has_option || matches.get_flag("from-text")
}

// The name that is said, in lower case.
fn name<'w>(alloc: Global, matches: &ArgMatches<'w>) -> Result<String, UsageError<'w>> {
    let said = matches.get_str("NAME").unwrap_or("");
    let name = said.to_ascii_lowercase(alloc)?;
    if !is_name(name.as_bytes()) {
        return Err(UsageError::NoName(said));
    }
    Ok(name)
}

// The file that has the text that is put, where one is named: `@FILE`, but not `@@`, which is an
// `@` of the text.
fn text_file<'w>(matches: &ArgMatches<'w>) -> Option<&'w str> {
    let file = matches.get_str("TEXT")?.strip_prefix('@')?;
    if file.starts_with('@') {
        None
    } else {
        Some(file)
    }
}

// The text that is put, as it is said.
fn text_said<'w>(matches: &ArgMatches<'w>) -> &'w str {
    let said = matches.get_str("TEXT").unwrap_or("");
    match said.strip_prefix('@') {
        Some(text) if text.starts_with('@') => text,
        _ => said,
    }
}

// What is put: this text of a file, or else what is said.
fn content<'w>(matches: &ArgMatches<'w>, text: Option<&'w str>) -> Content<'w> {
    let said = text.unwrap_or(text_said(matches)).as_bytes();
    if matches.get_flag("html") {
        Content::Markup { markup: said }
    } else {
        Content::Text { text: said }
    }
}

/// A key that gets a value, or one that is made of an old one.
pub fn set<'w>(alloc: Global, matches: &ArgMatches<'w>) -> Result<Edit<'w>, UsageError<'w>> {
    let key = key_at(alloc, matches, "ATTRIBUTE")?;
    if let Some(rewrite) = rewrite(alloc, matches)? {
        return Ok(Edit::Rewrite(key, rewrite));
    }
    match matches.get_str("VALUE") {
        Some(value) => Ok(Edit::Set(key, value)),
        None => Err(UsageError::NoValue),
    }
}

/// A key that goes.
pub fn unset<'w>(alloc: Global, matches: &ArgMatches<'w>) -> Result<Edit<'w>, UsageError<'w>> {
    Ok(Edit::Unset(key_at(alloc, matches, "ATTRIBUTE")?))
}

/// That comments go, if an option says that.
pub fn comments<'w>(
    alloc: Global,
    matches: &ArgMatches<'w>,
) -> Result<Option<Deed<'w>>, UsageError<'w>> {
    let Some(said) = matches.get_str("comments") else {
        return Ok(None);
    };
    if said.is_empty() {
        return Ok(Some(Deed::Comments(None)));
    }
    match Regex::new(alloc, said) {
        Ok(regex) => Ok(Some(Deed::Comments(Some(regex)))),
        Err(Error::OutOfMemory) => Err(UsageError::OutOfMemory),
        Err(error) => Err(UsageError::NoRegex(error, said)),
    }
}

/// Something done where the selector holds that is said.
pub fn deed<'w>(
    alloc: Global,
    edit: Edit<'w>,
    matches: &ArgMatches<'w>,
) -> Result<Deed<'w>, UsageError<'w>> {
    let selector = selector(alloc, matches.get_str("SELECTOR").unwrap_or(""))?;
    Ok(Deed::Edit(selector, edit))
}

/// What is done with elements, where the file that is named for what is put has this text.
pub fn element<'w>(
    alloc: Global,
    verb: ElementVerb,
    matches: &ArgMatches<'w>,
    text: Option<&'w str>,
) -> Result<Edit<'w>, UsageError<'w>> {
    let content = content(matches, text);
    let patch = match verb {
        ElementVerb::Rename => return Ok(Edit::Rename(name(alloc, matches)?)),
        ElementVerb::Remove => ElementPatch::Remove,
        ElementVerb::Unwrap => ElementPatch::Unwrap,
        ElementVerb::Replace => ElementPatch::ReplaceWith { content },
        ElementVerb::Fill => ElementPatch::Fill { content },
        ElementVerb::Prepend => ElementPatch::Prepend { content },
        ElementVerb::Append => ElementPatch::Append { content },
        ElementVerb::Before => ElementPatch::PutBefore { content },
        ElementVerb::After => ElementPatch::PutAfter { content },
    };
    Ok(Edit::Element(patch))
}

// Whether a page comes from standard input.
fn has_standard_input(files: &[&str]) -> bool {
    files.is_empty() || files.contains(&"-")
}

// Where pages with changes go.
fn target<'w>(matches: &ArgMatches<'w>, files: &[&str]) -> Result<Target<'w>, UsageError<'w>> {
    if matches.get_flag("dry-run") {
        return Ok(Target::Nowhere);
    }
    let suffix = matches.get_str("backup");
    if suffix.is_none() && !matches.get_flag("in-place") {
        return Ok(Target::Output);
    }
    if has_standard_input(files) {
        return Err(UsageError::NoFile);
    }
    if suffix == Some("") {
        return Err(UsageError::NoSuffix);
    }
    Ok(Target::Files(suffix))
}

// What is told of changes.
fn tellings(matches: &ArgMatches<'_>) -> Tellings {
    Tellings {
        has_diff: matches.get_flag("diff"),
        is_verbose: matches.get_flag("verbose"),
        is_ok: matches.get_flag("ok"),
        is_skipping: matches.get_flag("skip"),
    }
}

/// What is changed in pages, and where they go.
pub fn patching<'w>(
    deed: Deed<'w>,
    matches: &ArgMatches<'w>,
    files: &[&str],
) -> Result<Patching<'w>, UsageError<'w>> {
    let text_file = text_file(matches);
    if text_file == Some("-") && has_standard_input(files) {
        return Err(UsageError::InputTwice);
    }
    Ok(Patching {
        deed,
        text_file,
        target: target(matches, files)?,
        tellings: tellings(matches),
    })
}
