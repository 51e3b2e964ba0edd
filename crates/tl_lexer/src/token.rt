//! Tokens.
ghost use Rattle.std.specs.Prelude.{◌≡◌, ◌≤◌, ◌<◌, ◌+◌, length, drop, take_while, codes, IfSome, option_map};
ghost use Rattle.tl_spec.specs.Lex.ByteClass.{is_ident};
ghost use Rattle.tl_lexer.specs.Span.{bytes_at, IsIn};
ghost use Rattle.tl_spec.specs.Lex.Runs.{after_needle, drop_while};
ghost use Rattle.tl_spec.specs.Lex.Attribute.{skip_blanks};
ghost use Rattle.tl_spec.specs.Lex.Token.{end_tag, comment_token, doctype, word, declaration, markup, next_token};

use crate::attribute::name;
use crate::cursor::{byte_at, skip_blanks, skip_one, split};
use crate::runs::{ident_len, len_until};
use crate::span::Span;
use memchr::memmem;

/// A token of a text.
#[derive(Clone, Copy)]
pub enum Token {
    /// A text up to the next `<`.
    Text(Span),
    /// An end tag of this name.
    End(Span),
    /// A comment, which has no bytes if it never ends.
    Comment(Span),
    /// A doctype, and whether it is that of HTML5.
    Doctype(bool),
    /// A start tag of this name, whose attributes and end stand after it.
    Start(Span),
    /// Broken markup of which nothing comes.
    Nothing,
}

ghost use Rattle.tl_lexer.specs.TokenMeaning.{meant, IsTokenIn};

// The place after the first `-->` from a place on.
fn skip_arrow(text: &[u8], at: usize) -> Option<usize>
    requires { at ≤ length text.now }
    ensures rest { option_map (λ end. drop end text.now) result
        ≡ after_needle (codes "-->") (drop at text.now) }
    ensures order { IfSome result (λ end. at ≤ end) }
    ensures within { IfSome result (λ end. end ≤ length text.now) }
{
    let len = memmem::find(&text[at..], b"-->")?;
    Some(at + len + 3)
}

// An end tag from after its `/`, and the place after its `>`.
fn end_tag(text: &[u8], at: usize) -> (Token, usize)
    requires { at ≤ length text.now }
    ensures read { meant text.now result.0 result.1 ≡ end_tag (drop at text.now) }
    ensures spans { IsTokenIn text.now result.0 }
    ensures order { at ≤ result.1 }
    ensures within { result.1 ≤ length text.now }
{
    let (name, end) = split(text, at, len_until(&text[at..], b'>'));
    (Token::End(name), skip_one(text, end))
}

// The word of a doctype at a place, and the place after it and blanks.
fn ident(text: &[u8], at: usize) -> (Span, usize)
    requires { at ≤ length text.now }
    ensures bytes { bytes_at text.now result.0 ≡ take_while is_ident (drop at text.now) }
    ensures rest { drop result.1 text.now ≡ skip_blanks (drop_while is_ident (drop at text.now)) }
    ensures span { IsIn text.now result.0 }
    ensures order { at ≤ result.1 }
    ensures within { result.1 ≤ length text.now }
{
    let (word, end) = split(text, at, ident_len(&text[at..]));
    (word, skip_blanks(text, end))
}

// A doctype from after its first word and blanks, and the place after it.
fn doctype(text: &[u8], at: usize) -> (Token, usize)
    requires { at ≤ length text.now }
    ensures read { meant text.now result.0 result.1 ≡ doctype (drop at text.now) }
    ensures spans { IsTokenIn text.now result.0 }
    ensures order { at ≤ result.1 }
    ensures within { result.1 ≤ length text.now }
{
    let (second, end) = ident(text, at);
    let is_html5 = second.bytes(text).eq_ignore_ascii_case(b"html");
    (Token::Doctype(is_html5), skip_one(text, end))
}

// The doctype after `!`, if that word is there, or nothing, and the place after it or the other
// word.
fn word(text: &[u8], at: usize) -> (Token, usize)
    requires { at ≤ length text.now }
    ensures read { meant text.now result.0 result.1 ≡ word (drop at text.now) }
    ensures spans { IsTokenIn text.now result.0 }
    ensures order { at ≤ result.1 }
    ensures within { result.1 ≤ length text.now }
{
    let (first, end) = ident(text, at);
    if first.bytes(text).eq_ignore_ascii_case(b"doctype") {
        doctype(text, end)
    } else {
        (Token::Nothing, end)
    }
}

// The comment that stands from `start` on, whose end is looked for from `at` on; one without an end
// has no bytes and takes all.
fn comment(text: &[u8], start: usize, at: usize) -> (Token, usize)
    requires order { start ≤ at }
    requires within { at ≤ length text.now }
    ensures read { meant text.now result.0 result.1
        ≡ comment_token (drop start text.now) (after_needle (codes "-->") (drop at text.now)) }
    ensures spans { IsTokenIn text.now result.0 }
    ensures order { at ≤ result.1 }
    ensures within { result.1 ≤ length text.now }
{
    match skip_arrow(text, at) {
        Some(end) => {
            let len = end - start;
            (Token::Comment(Span { start, len }), end)
        }
        None => {
            let end = text.len();
            (Token::Comment(Span { start: end, len: 0 }), end)
        }
    }
}

// What stands after `!`: a comment, whose end may share its first dashes, or a word.
fn declaration(text: &[u8], start: usize, at: usize) -> (Token, usize)
    requires order { start ≤ at }
    requires within { at ≤ length text.now }
    ensures read { meant text.now result.0 result.1
        ≡ declaration (drop start text.now) (drop at text.now) }
    ensures spans { IsTokenIn text.now result.0 }
    ensures order { at ≤ result.1 }
    ensures within { result.1 ≤ length text.now }
{
    if text[at..].starts_with(b"--") {
        comment(text, start, at)
    } else {
        word(text, at)
    }
}

// What stands after `<` and blanks, where that `<` stands at `start`.
#[inline(always)]
fn markup(text: &[u8], start: usize, at: usize) -> (Token, usize)
    requires order { start < at }
    requires within { at ≤ length text.now }
    ensures read { meant text.now result.0 result.1
        ≡ markup (drop start text.now) (drop at text.now) }
    ensures spans { IsTokenIn text.now result.0 }
    ensures order { at ≤ result.1 }
    ensures within { result.1 ≤ length text.now }
{
    match byte_at(text, at) {
        None => (Token::Nothing, at),
        Some(b'/') => end_tag(text, at + 1),
        Some(b'!') => declaration(text, start, at + 1),
        Some(_) => {
            let (name, end) = name(text, at);
            (Token::Start(name), end)
        }
    }
}

/// The token at a place, and the place after it, which for a start tag stands after its name and
/// blanks; none at the end.
#[inline(always)]
pub fn next_token(text: &[u8], at: usize) -> Option<(Token, usize)>
    requires { at ≤ length text.now }
    ensures read { option_map (λ found. meant text.now found.0 found.1) result
        ≡ next_token (drop at text.now) }
    ensures spans { IfSome result (λ found. IsTokenIn text.now found.0) }
    ensures order { IfSome result (λ found. at < found.1) }
    ensures within { IfSome result (λ found. found.1 ≤ length text.now) }
{
    let first = byte_at(text, at)?;
    if first == b'<' {
        return Some(markup(text, at, skip_blanks(text, at + 1)));
    }
    let len = 1 + len_until(&text[at + 1..], b'<');
    let (span, end) = split(text, at, len);
    Some((Token::Text(span), end))
}
