//! Whether parts say the same.
ghost use Rattle.std.specs.Prelude.{◌≡◌, ◌≤◌, ◌<◌, ◌+◌, ◌++◌, ◌&&◌, IfNone, IfOk, IfSome, OnOk, drop, false, length, take, true};
ghost use Rattle.std.specs.Str.{bytes_eq};
ghost use Rattle.tl_html_tokens.specs.Comments.{comment_of};
ghost use Rattle.tl_html_tokens.specs.Whole.{is_tag_kind};
ghost use Rattle.tl_patch_edit.specs.Inner.Parts.{IsStep, SayOtherwise, SaySame, are_quiet, characters_at, characters_in, is_alike, is_comment_kind, is_doctype_kind, is_quiet_first, is_quiet_kind, is_same_tag, is_text_kind, part_view, parts_view};
ghost use Rattle.tl_patch.specs.Inner.Steps.{kind_number, mode_number};

use crate::part::Part;
use std::alloc::{AllocError, Global};
use tl_html_parts::{characters, comment};
use tl_html_tokens::{Mode, TokenKind};

fn kind_number(kind: TokenKind) -> u8
    ensures { result ≡ kind_number kind }
{
    match kind {
        TokenKind::Text => 0,
        TokenKind::StartTag => 1,
        TokenKind::EndTag => 2,
        TokenKind::Comment => 3,
        TokenKind::Doctype => 4,
        TokenKind::Nothing => 5,
    }
}

fn mode_number(mode: Mode) -> u8
    ensures { result ≡ mode_number mode }
{
    match mode {
        Mode::Data => 0,
        Mode::Title => 1,
        Mode::Textarea => 2,
        Mode::Style => 3,
        Mode::Xmp => 4,
        Mode::Iframe => 5,
        Mode::Noembed => 6,
        Mode::Noframes => 7,
        Mode::Script => 8,
        Mode::ScriptEscaped => 9,
        Mode::ScriptEscapedDash => 10,
        Mode::ScriptEscapedDashDash => 11,
        Mode::Plaintext => 12,
        Mode::Noscript => 13,
        Mode::ContextText => 14,
    }
}

// Whether two parts are of one kind, and are read in one mode.
fn is_like(part: &Part<'_>, other: &Part<'_>) -> bool
    ensures kind { result ≡ true → kind_number part.now.kind ≡ kind_number other.now.kind }
    ensures mode { result ≡ true → mode_number part.now.mode ≡ mode_number other.now.mode }
{
    kind_number(part.kind) == kind_number(other.kind)
        && mode_number(part.mode) == mode_number(other.mode)
}

// Whether two parts are the same, byte by byte.
#[tactic(auto, using(crate::proofs::Steps::same_part))]
fn is_same(part: &Part<'_>, other: &Part<'_>) -> bool
    ensures { result ≡ true → part_view part.now ≡ part_view other.now }
{
    let is_like = is_like(part, other);
    if !is_like {
        return false;
    }
    part.bytes == other.bytes
}

// Whether there is a first part of both.
fn have_firsts(parts: &[Part<'_>], others: &[Part<'_>]) -> bool
    ensures one { result ≡ true → 0 < length parts.now }
    ensures other { result ≡ true → 0 < length others.now }
    ensures not { result ≡ false → 0 < length parts.now → 0 < length others.now → ⊥ }
{
    parts.len() > 0 && others.len() > 0
}

// Whether the first parts are the same, byte by byte.
fn is_same_first(parts: &[Part<'_>], others: &[Part<'_>]) -> bool
    ensures { result ≡ true → IsStep 1 1 (parts_view parts.now) (parts_view others.now) }
{
    let have_firsts = have_firsts(parts, others);
    if !have_firsts {
        return false;
    }
    is_same(&parts[0], &others[0])
}

fn is_quiet(kind: TokenKind) -> bool
    ensures { result ≡ is_quiet_kind kind }
{
    matches!(kind, TokenKind::Text | TokenKind::Nothing)
}

// How many parts in front are texts, or say nothing.
#[tactic(auto, using(crate::proofs::Steps::quiet_more, crate::proofs::Steps::quiet_stops, crate::proofs::Steps::quiet_ends))]
fn quiet_len(parts: &[Part<'_>]) -> usize
    ensures within { result ≤ length parts.now }
    ensures quiet { are_quiet (parts_view (take result parts.now)) ≡ true }
    ensures stops { is_quiet_first (parts_view (drop result parts.now)) ≡ false }
{
    for at in 0..parts.len() {
        let is_quiet = is_quiet(parts[at].kind);
        if !is_quiet {
            return at;
        }
    }
    parts.len()
}

pub(crate) fn is_text(kind: TokenKind) -> bool
    ensures { result ≡ is_text_kind kind }
{
    matches!(kind, TokenKind::Text)
}

// Adds the characters of a part.
#[tactic(auto, using(crate::proofs::Steps::text_at, crate::proofs::Steps::no_text_at))]
fn push_characters(alloc: Global, part: &Part<'_>, text: &mut Vec<u8>) -> Result<(), AllocError>
    ensures { OnOk result (text.new.items ≡ text.old.items
        ++ characters_at part.now.kind part.now.mode part.now.bytes.now) }
{
    let is_text = is_text(part.kind);
    if !is_text {
        return Ok(());
    }
    let said = characters(alloc, part.mode, part.bytes)?;
    text.extend_from_slice(said.as_bytes())
}

// The characters of parts.
fn characters_in(alloc: Global, parts: &[Part<'_>]) -> Result<Vec<u8>, AllocError>
    ensures { IfOk result (λ text. text.items ≡ characters_in (parts_view parts.now)) }
{
    let mut text = Vec::new(alloc);
    for at in 0..parts.len() {
        push_characters(alloc, &parts[at], &mut text)?;
    }
    Ok(text)
}

// Whether parts have the same characters.
fn have_same_characters(
    alloc: Global,
    parts: &[Part<'_>],
    others: &[Part<'_>],
) -> Result<bool, AllocError>
    ensures { IfOk result (λ is. is ≡ bytes_eq
        (characters_in (parts_view parts.now)) (characters_in (parts_view others.now))) }
{
    let text = characters_in(alloc, parts)?;
    let other_text = characters_in(alloc, others)?;
    Ok(text.as_slice() == other_text.as_slice())
}

// The texts in front against the texts in front.
fn text_step(
    alloc: Global,
    parts: &[Part<'_>],
    others: &[Part<'_>],
    count: usize,
    other_count: usize,
) -> Result<Option<(usize, usize)>, AllocError>
    requires within { count ≤ length parts.now }
    requires others_within { other_count ≤ length others.now }
    requires quiet { are_quiet (parts_view (take count parts.now)) ≡ true }
    requires others_quiet { are_quiet (parts_view (take other_count others.now)) ≡ true }
    requires stops { is_quiet_first (parts_view (drop count parts.now)) ≡ false }
    requires others_stop { is_quiet_first (parts_view (drop other_count others.now)) ≡ false }
    requires moves { 0 < count + other_count }
    ensures step { IfOk result (λ found. IfSome found (λ counts.
        IsStep counts.0 counts.1 (parts_view parts.now) (parts_view others.now))) }
    ensures none { IfOk result (λ found. IfNone found
        (SayOtherwise (parts_view parts.now) (parts_view others.now))) }
{
    let is_it = have_same_characters(alloc, &parts[..count], &others[..other_count])?;
    if !is_it {
        return Ok(None);
    }
    Ok(Some((count, other_count)))
}

fn is_tag(kind: TokenKind) -> bool
    ensures { result ≡ is_tag_kind kind }
{
    matches!(kind, TokenKind::StartTag | TokenKind::EndTag)
}

fn is_comment(kind: TokenKind) -> bool
    ensures { result ≡ is_comment_kind kind }
{
    matches!(kind, TokenKind::Comment)
}

fn is_doctype(kind: TokenKind) -> bool
    ensures { result ≡ is_doctype_kind kind }
{
    matches!(kind, TokenKind::Doctype)
}

// Whether a part is the same tag as another one.
fn is_same_tag(part: &Part<'_>, other: &Part<'_>) -> bool
    ensures { result ≡ (is_tag_kind other.now.kind
        && is_same_tag (part_view part.now) (part_view other.now)) }
{
    is_tag(other.kind)
        && mode_number(part.mode) == mode_number(other.mode)
        && part.bytes == other.bytes
}

// Whether a part is a comment that says what another one says.
fn is_same_comment(alloc: Global, part: &Part<'_>, other: &Part<'_>) -> Result<bool, AllocError>
    ensures { IfOk result (λ is. is ≡ (is_comment_kind other.now.kind
        && bytes_eq (comment_of part.now.bytes.now) (comment_of other.now.bytes.now))) }
{
    let is_it = is_comment(other.kind);
    if !is_it {
        return Ok(false);
    }
    let said = comment(alloc, part.bytes)?;
    let other_said = comment(alloc, other.bytes)?;
    Ok(said.as_bytes() == other_said.as_bytes())
}

// Whether a part says what another one says, where none is a text or nothing.
fn is_alike(alloc: Global, part: &Part<'_>, other: &Part<'_>) -> Result<bool, AllocError>
    ensures { IfOk result (λ is.
        is ≡ is_alike part.now.kind (part_view part.now) (part_view other.now)) }
{
    match part.kind {
        TokenKind::StartTag => Ok(is_same_tag(part, other)),
        TokenKind::EndTag => Ok(is_same_tag(part, other)),
        TokenKind::Comment => is_same_comment(alloc, part, other),
        TokenKind::Doctype => Ok(is_doctype(other.kind)),
        TokenKind::Text => Ok(false),
        TokenKind::Nothing => Ok(false),
    }
}

// The first part against the first, where none is a text or nothing.
fn first_step(
    alloc: Global,
    parts: &[Part<'_>],
    others: &[Part<'_>],
) -> Result<Option<(usize, usize)>, AllocError>
    requires loud { is_quiet_first (parts_view parts.now) ≡ false }
    requires others_loud { is_quiet_first (parts_view others.now) ≡ false }
    requires left { 0 < length parts.now + length others.now }
    ensures step { IfOk result (λ found. IfSome found (λ counts.
        IsStep counts.0 counts.1 (parts_view parts.now) (parts_view others.now))) }
    ensures none { IfOk result (λ found. IfNone found
        (SayOtherwise (parts_view parts.now) (parts_view others.now))) }
{
    let have_firsts = have_firsts(parts, others);
    if !have_firsts {
        return Ok(None);
    }
    let is_it = is_alike(alloc, &parts[0], &others[0])?;
    if !is_it {
        return Ok(None);
    }
    Ok(Some((1, 1)))
}

// Whether there are some of the one or of the other.
fn are_some(count: usize, other_count: usize) -> bool
    ensures some { result ≡ true → 0 < count + other_count }
    ensures none { result ≡ false → count ≡ 0 }
    ensures no_others { result ≡ false → other_count ≡ 0 }
{
    count > 0 || other_count > 0
}

// How many parts say what so many others say, if some do.
fn step(
    alloc: Global,
    parts: &[Part<'_>],
    others: &[Part<'_>],
) -> Result<Option<(usize, usize)>, AllocError>
    requires { 0 < length parts.now + length others.now }
    ensures step { IfOk result (λ found. IfSome found (λ counts.
        IsStep counts.0 counts.1 (parts_view parts.now) (parts_view others.now))) }
    ensures none { IfOk result (λ found. IfNone found
        (SayOtherwise (parts_view parts.now) (parts_view others.now))) }
{
    let is_same = is_same_first(parts, others);
    if is_same {
        return Ok(Some((1, 1)));
    }
    let count = quiet_len(parts);
    let other_count = quiet_len(others);
    let are_some = are_some(count, other_count);
    if are_some {
        return text_step(alloc, parts, others, count, other_count);
    }
    first_step(alloc, parts, others)
}

// Whether something is left of the one or of the other.
fn is_left(parts: &[Part<'_>], others: &[Part<'_>]) -> bool
    ensures left { result ≡ true → 0 < length parts.now + length others.now }
    ensures one { result ≡ false → length parts.now ≡ 0 }
    ensures other { result ≡ false → length others.now ≡ 0 }
{
    parts.len() > 0 || others.len() > 0
}

// What stands after so many parts.
#[tactic(auto, using(std::proofs::lemmas::List::drop_all))]
fn after<'r, 'p>(parts: &'r [Part<'p>], count: usize) -> &'r [Part<'p>]
    ensures { result.now ≡ drop count parts.now }
{
    if count <= parts.len() {
        &parts[count..]
    } else {
        &[]
    }
}

// Whether parts say the same.
pub(crate) fn are_same(
    alloc: Global,
    parts: &[Part<'_>],
    others: &[Part<'_>],
) -> Result<bool, AllocError>
    ensures same { IfOk result (λ is. is ≡ true →
        SaySame (parts_view parts.now) (parts_view others.now)) }
    ensures otherwise { IfOk result (λ is. is ≡ false →
        SayOtherwise (parts_view parts.now) (parts_view others.now)) }
{
    let mut left = parts;
    let mut other_left = others;
    'steps: while is_left(left, other_left) {
        let found = step(alloc, left, other_left)?;
        let Some(counts) = found else {
            return Ok(false);
        };
        left = after(left, counts.0);
        other_left = after(other_left, counts.1);
    }
    Ok(true)
}
