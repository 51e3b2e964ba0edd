//! Why no policy may list a word.
ghost use Rattle.std.specs.Prelude.{[], codes, ◌∷◌, ◌≡◌};
ghost use Rattle.tl_safe_fit.specs.Words.{words_of};
ghost use Rattle.tl_tree_safe.specs.Refusals.{class_reason, is_pattern, key_reason, lacking, link_reason, lists_all, part_reason, prefix_reason, tag_reason};

use crate::links::has_link_bytes;
use crate::names::{
    ByteClass, all_have_class, begins_path, has_active_scheme, has_scheme, is_active_key,
    is_known_link_key, is_opaque, is_part, is_structural, is_word_of,
};
use crate::refusal::Reason;
use crate::words::is_among;

/// Why no policy may list a name of a tag, if none may.
pub(crate) fn tag_reason(name: &[u8]) -> Option<Reason>
    ensures { result ≡ tag_reason name.now }
{
    if !is_word_of(ByteClass::TagName, name) {
        Some(Reason::MalformedTag)
    } else if is_opaque(name) {
        Some(Reason::OpaqueTag)
    } else if is_structural(name) {
        Some(Reason::StructuralTag)
    } else {
        None
    }
}

/// Why no policy with these link keys may list a key, if none may.
pub(crate) fn key_reason(link_keys: &[&str], key: &[u8]) -> Option<Reason>
    ensures { result ≡ key_reason (words_of link_keys.now) key.now }
{
    if !is_word_of(ByteClass::AttributeKey, key) {
        Some(Reason::MalformedKey)
    } else if key.starts_with(b"on") {
        Some(Reason::ScriptKey)
    } else if is_active_key(key) {
        Some(Reason::ActiveKey)
    } else if is_known_link_key(key) && !is_among(link_keys, key) {
        Some(Reason::LinkKey)
    } else {
        None
    }
}

/// Why no policy may let links begin with a word, if none may.
pub(crate) fn link_reason(word: &[u8]) -> Option<Reason>
    ensures { result ≡ link_reason word.now }
{
    if !all_have_class(ByteClass::OfBeginning, word) {
        Some(Reason::MalformedLink)
    } else if begins_path(word) {
        None
    } else if !has_scheme(word) {
        Some(Reason::NoScheme)
    } else if has_active_scheme(word) {
        Some(Reason::ActiveScheme)
    } else {
        None
    }
}

// Whether bytes are a pattern of classes.
fn is_pattern(pattern: &[u8]) -> bool
    ensures { result ≡ is_pattern pattern.now }
{
    !pattern.is_empty()
        && has_link_bytes(pattern)
        && all_have_class(ByteClass::OfPattern, &pattern[..pattern.len() - 1])
}

/// Why no policy may have a pattern of classes, if none may.
pub(crate) fn class_reason(pattern: &[u8]) -> Option<Reason>
    ensures { result ≡ class_reason pattern.now }
{
    if is_pattern(pattern) {
        None
    } else {
        Some(Reason::MalformedClass)
    }
}

/// Why no policy may have a prefix, if none may.
pub(crate) fn prefix_reason(id_prefix: &[u8]) -> Option<Reason>
    ensures { result ≡ prefix_reason id_prefix.now }
{
    if is_word_of(ByteClass::AttributeKey, id_prefix) {
        None
    } else {
        Some(Reason::MalformedPrefix)
    }
}

/// Why no policy without `table` may list a name, if none may.
pub(crate) fn part_reason(name: &[u8]) -> Option<Reason>
    ensures { result ≡ part_reason name.now }
{
    if is_part(name) {
        Some(Reason::NoTable)
    } else {
        None
    }
}

// Whether the groups of rows are all listed.
fn lists_bodies(tags: &[&str]) -> bool
    ensures { result ≡ lists_all (words_of tags.now)
        (codes "tbody" ∷ codes "thead" ∷ codes "tfoot" ∷ []) }
{
    is_among(tags, b"tbody") && is_among(tags, b"thead") && is_among(tags, b"tfoot")
}

// Whether both kinds of cells are.
fn lists_cells(tags: &[&str]) -> bool
    ensures { result ≡ lists_all (words_of tags.now) (codes "td" ∷ codes "th" ∷ []) }
{
    is_among(tags, b"td") && is_among(tags, b"th")
}

/// What these names lack to be those of a table in which each text may stand, if anything.
pub(crate) fn lacking(tags: &[&str]) -> Option<Reason>
    ensures { result ≡ lacking (words_of tags.now) }
{
    if !lists_bodies(tags) {
        Some(Reason::NoTableBody)
    } else if !is_among(tags, b"tr") {
        Some(Reason::NoRow)
    } else if !lists_cells(tags) {
        Some(Reason::NoCell)
    } else if !is_among(tags, b"caption") {
        Some(Reason::NoCaption)
    } else {
        None
    }
}
