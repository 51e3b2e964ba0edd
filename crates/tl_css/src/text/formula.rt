//! Formulas `an+b`.
ghost use Rattle.std.specs.Prelude.{◌≡◌, nat_lt, if◌then◌else◌, length, drop, take, ◌==◌, Some, None};
ghost use Rattle.std.specs.Str.{byte};
ghost use Rattle.std.specs.Char.{is_ascii_digit};
ghost use Rattle.std.specs.List.{take_while};
ghost use Rattle.tl_css.specs.Bytes.{decimal_number};
ghost use Rattle.tl_css.specs.Formula.{after_n, begins_keyword, digits_at, end_formula, formula_at, is_n, is_sign, largest, sign_at, terms_at, with_sign};
ghost use Rattle.tl_css.specs.Lexical.{begins};
ghost use Rattle.tl_css.specs.TextView.{read_as};

use crate::error::{Cause, Wrong};
use crate::selector::Formula;
use crate::text::gap::{gap, wrong};
use crate::text::run::begins_name;

/// The largest number that a formula may have.
const LARGEST: u64 = 2147483647;

// The number that digits say, if it is not too large.
fn decimal(digits: &[u8]) -> Option<u32>
    ensures { result ≡ (if nat_lt largest (decimal_number 0 digits.now) then None
        else Some (decimal_number 0 digits.now)) }
{
    let mut number = 0u64;
    let mut left = digits;
    'digits: while let Some((digit, rest)) = left.split_first() {
        number = number * 10 + digit.saturating_sub(b'0') as u64;
        if number > LARGEST {
            return None;
        }
        left = rest;
    }
    Some(number as u32)
}

fn digits_len(s: &[u8]) -> usize
    ensures { result ≡ length (take_while is_ascii_digit s.now) }
{
    s.iter().take_while(|byte| byte.is_ascii_digit()).count()
}

fn digits(s: &[u8]) -> Result<(u32, &[u8]), Wrong>
    ensures { read_as (λ n. n) result ≡ digits_at s.now }
{
    let (digits, rest) = s.split_at(digits_len(s));
    if digits.is_empty() {
        return wrong(s, Cause::NoFormula);
    }
    match decimal(digits) {
        None => wrong(s, Cause::LargeNumber),
        Some(number) => Ok((number, rest)),
    }
}

fn begins_n(s: &[u8]) -> bool
    ensures { result ≡ begins is_n s.now }
{
    matches!(s, [b'n' | b'N', ..])
}

fn begins_sign(s: &[u8]) -> bool
    ensures { result ≡ begins is_sign s.now }
{
    matches!(s, [b'+' | b'-', ..])
}

fn begins_minus(s: &[u8]) -> bool
    ensures { result ≡ begins (λ b. b == byte "-") s.now }
{
    matches!(s, [b'-', ..])
}

// What stands after the first byte.
fn past_byte(s: &[u8]) -> &[u8]
    ensures { result.now ≡ drop 1 s.now }
{
    match s {
        [_, rest @ ..] => rest,
        [] => s,
    }
}

fn sign(s: &[u8]) -> (bool, &[u8])
    ensures { (result.0, result.1.now) ≡ sign_at s.now }
{
    let rest = if begins_sign(s) { past_byte(s) } else { s };
    (begins_minus(s), rest)
}

fn with_sign(minus: bool, number: u32) -> i64
    ensures { result ≡ with_sign minus number }
{
    if minus {
        -i64::from(number)
    } else {
        i64::from(number)
    }
}

// So many bytes as a keyword has, or all.
#[tactic(auto, using(std::proofs::lemmas::List::take_min))]
fn word_front<'a>(word: &[u8], s: &'a [u8]) -> &'a [u8]
    ensures { result.now ≡ take (length word.now) s.now }
{
    s.split_at(word.len().min(s.len())).0
}

// What stands after so many bytes as a keyword has.
fn past_word<'a>(word: &[u8], s: &'a [u8]) -> &'a [u8]
    ensures { result.now ≡ drop (length word.now) s.now }
{
    s.split_at(word.len().min(s.len())).1
}

// Whether this keyword stands here, without escapes and in any case, and no name goes on after it.
fn begins_keyword(word: &[u8], s: &[u8]) -> bool
    ensures { result ≡ begins_keyword word.now s.now }
{
    word_front(word, s).eq_ignore_ascii_case(word) && !begins_name(past_word(word, s))
}

fn end_formula(a: i64, b: i64, s: &[u8]) -> Result<(Formula, &[u8]), Wrong>
    ensures { read_as (λ formula. formula) result ≡ end_formula a b s.now }
{
    if begins_name(s) {
        return wrong(s, Cause::NoFormula);
    }
    Ok((Formula { a, b }, s))
}

// What stands after an `n`.
fn after_n(a: i64, s: &[u8]) -> Result<(Formula, &[u8]), Wrong>
    ensures { read_as (λ formula. formula) result ≡ after_n a s.now }
{
    if begins_name(s) && !begins_minus(s) {
        return wrong(s, Cause::NoFormula);
    }
    let (_white, next) = gap(s)?;
    if !begins_sign(next) {
        return Ok((Formula { a, b: 0 }, s));
    }
    let (minus, next) = sign(next);
    let (_white, next) = gap(next)?;
    let (number, rest) = digits(next)?;
    end_formula(a, with_sign(minus, number), rest)
}

// What stands after a sign.
fn terms(minus: bool, s: &[u8]) -> Result<(Formula, &[u8]), Wrong>
    ensures { read_as (λ formula. formula) result ≡ terms_at minus s.now }
{
    if begins_n(s) {
        return after_n(with_sign(minus, 1), past_byte(s));
    }
    let (number, rest) = digits(s)?;
    let number = with_sign(minus, number);
    if begins_n(rest) {
        return after_n(number, past_byte(rest));
    }
    end_formula(0, number, rest)
}

/// A formula.
pub fn formula(s: &[u8]) -> Result<(Formula, &[u8]), Wrong>
    ensures { read_as (λ formula. formula) result ≡ formula_at s.now }
{
    if begins_keyword(b"even", s) {
        return Ok((Formula { a: 2, b: 0 }, past_word(b"even", s)));
    }
    if begins_keyword(b"odd", s) {
        return Ok((Formula { a: 2, b: 1 }, past_word(b"odd", s)));
    }
    let (minus, rest) = sign(s);
    terms(minus, rest)
}
