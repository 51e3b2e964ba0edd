//! Steps read from text, one on each line.
//!
//! Lines are known to be steps before the first step is kept, so a text of other lines never
//! answers that memory ran out.
ghost use Rattle.std.specs.Prelude.{◌≡◌, ◌==◌, ◌∷◌, ◌<◌, length, is_some, IsSome, IfOk, IfSome, IfNone, Ok, None, Some};
ghost use Rattle.std.specs.Option.{option_map};
ghost use Rattle.std.specs.List.{slice_split};
ghost use Rattle.tl_spec.specs.Edit.StepLine.{is_line_feed, number_of, first_word, after_word, change_of_text, change_of_numbers, change_by_word, change_of_line, parse_changes};
ghost use Rattle.tl_program.specs.Steps.{change_of, changes_in, remaining_lines};

use super::step::Step;
use std::alloc::{AllocError, Global};

// The number that digits write, if it fits.
fn number(digits: &str) -> Option<u32>
    ensures { result ≡ number_of digits.now }
{
    // `parse` would take a sign.
    if digits.starts_with('+') {
        return None;
    }
    digits.parse::<u32>().ok()
}

// What stands before the first space, and what stands after it.
fn split_at_space<'s>(text: &'s str) -> (&'s str, &'s str)
    ensures first { result.0.now ≡ first_word text.now }
    ensures rest { result.1.now ≡ after_word text.now }
{
    text.split_once(' ').unwrap_or((text, ""))
}

// The step that a word says of a number and a text, if it is one of such a step.
fn step_of_text<'s>(word: &str, number: u32, text: &'s str) -> Option<Step<'s>>
    ensures { option_map change_of result ≡ change_of_text word.now number text.now }
{
    match word {
        "name" => Some(Step::Name(number, text.as_bytes())),
        "text" => Some(Step::Text(number, text.as_bytes())),
        "comment" => Some(Step::Comment(number, text.as_bytes())),
        "set" => {
            let (key, value) = split_at_space(text);
            Some(Step::Set(number, key.as_bytes(), value.as_bytes()))
        }
        "flag" => Some(Step::Flag(number, text.as_bytes())),
        "unset" => Some(Step::Unset(number, text.as_bytes())),
        "bare" => Some(Step::Bare(number, text.as_bytes())),
        _ => None,
    }
}

// The step that a word says of two numbers, if it is one of such a step.
fn step_of_numbers<'s>(word: &str, first: u32, second: u32) -> Option<Step<'s>>
    ensures { option_map change_of result ≡ change_of_numbers word.now first second }
{
    match word {
        "push" => Some(Step::Push(first, second)),
        "pull" => Some(Step::Pull(first, second as usize)),
        "root" => Some(Step::Root(first as usize, second)),
        _ => None,
    }
}

// The step that the first word of a line and what stands after it say.
fn step_of_word<'s>(word: &str, rest: &'s str) -> Option<Step<'s>>
    ensures { option_map change_of result ≡ change_by_word word.now rest.now }
{
    let (digits, text) = split_at_space(rest);
    let first = number(digits)?;
    match step_of_text(word, first, text) {
        Some(step) => Some(step),
        None => step_of_numbers(word, first, number(text)?),
    }
}

// The step that a line says, if it is of one of the forms.
fn step<'s>(line: &'s str) -> Option<Step<'s>>
    ensures { option_map change_of result ≡ change_of_line line.now }
{
    let (word, rest) = split_at_space(line);
    step_of_word(word, rest)
}

// The first line, and what stands after its line feed, if it has one.
fn split_line<'s>(text: &'s str) -> (&'s str, Option<&'s str>)
    ensures lines { slice_split is_line_feed text.now ≡ result.0.now ∷ remaining_lines result.1 }
    ensures shorter { IfSome result.1 (λ more. length more.now < length text.now) }
{
    match text.split_once('\n') {
        Some((line, more)) => (line, Some(more)),
        None => (text, None),
    }
}

// Whether each line of a text says a step, but for empty ones.
fn are_steps(text: &str) -> bool
    ensures { result ≡ is_some (parse_changes text.now) }
{
    let mut rest = Some(text);
    while let Some(all) = rest {
        let (line, more) = split_line(all);
        rest = more;
        if !line.is_empty() && step(line).is_none() {
            return false;
        }
    }
    true
}

// The steps of a text whose lines say steps.
fn collect_steps<'s>(alloc: Global, text: &'s str) -> Result<Vec<Step<'s>>, AllocError>
    requires { IsSome (parse_changes text.now) }
    ensures { IfOk result (λ steps. parse_changes text.now ≡ Some (changes_in steps.items)) }
{
    let mut steps = Vec::new(alloc);
    let mut rest = Some(text);
    while let Some(all) = rest {
        let (line, more) = split_line(all);
        rest = more;
        if let Some(step) = step(line) {
            steps.push(step)?;
        }
    }
    Ok(steps)
}

/// The steps that a text says, one a line, or None where a line is of none of the forms. Empty
/// lines are passed over. Memory is taken once all lines are known to say steps.
///
/// A line is a word, and after a space each what the table says. A number is one or more decimal
/// digits of a value of at most 4294967295. What stands last in a line runs to its end, spaces and
/// a carriage return included, and is empty where the line ends before its space.
///
/// | Line | Step |
/// |---|---|
/// | `name N TEXT` | `Name(N, TEXT)` |
/// | `text N TEXT` | `Text(N, TEXT)` |
/// | `comment N TEXT` | `Comment(N, TEXT)` |
/// | `set N KEY VALUE` | `Set(N, KEY, VALUE)`, with a KEY without spaces |
/// | `flag N KEY` | `Flag(N, KEY)` |
/// | `unset N KEY` | `Unset(N, KEY)` |
/// | `bare N KEY` | `Bare(N, KEY)` |
/// | `push N M` | `Push(N, M)` |
/// | `pull N I` | `Pull(N, I)` |
/// | `root I M` | `Root(I, M)` |
pub fn steps<'s>(alloc: Global, text: &'s str) -> Result<Option<Vec<Step<'s>>>, AllocError>
    ensures ok { IfOk result (λ steps.
        option_map (λ v. changes_in v.items) steps ≡ parse_changes text.now) }
    ensures none { IfNone (parse_changes text.now) (result ≡ Ok None) }
{
    if !are_steps(text) {
        return Ok(None);
    }
    Ok(Some(collect_steps(alloc, text)?))
}
