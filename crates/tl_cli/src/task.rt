//! What is made of a page.
ghost use Rattle.std.specs.Prelude.{◌≡◌, ◌<◌, Err, IfErr, IfOk, IsUtf8, length};
ghost use Rattle.tl_answers.specs.Answers.{AreSelected, Matches};
ghost use Rattle.tl_answers.specs.Findings.{finding_of};
ghost use Rattle.tl_answers.specs.Pages.{IsAnswered, searched};
ghost use Rattle.tl_cli.specs.Task.{AreSelectedIn, IsMade, IsMadeSafe, IsUnanswered, IsUnmade, IsUnsafe, unanswered_of, unmade_of};
ghost use Rattle.tl_cli.specs.declared.task.Unmade.TheVariants.{Failed};
ghost use Rattle.tl_page.specs.declared.failure.Failure.TheVariants.{NotUnderstood};
ghost use Rattle.tl_html_spec.specs.HtmlTokenizer.{without_mark};
ghost use Rattle.tl_tree_safe.specs.OfPolicy.{lists_of};
ghost use Rattle.tl_tree_safe.specs.RemovedLines.{TellRemoved};

use std::alloc::Global;
use tl_answers::{AnswerError, Output, Question, answer_of_page};
use tl_page::{Failure, PageError, text};
use tl_tree::ReadError;
use tl_tree_safe::{Policy, sanitize_fragment, sanitize_fragment_telling, without_mark};

/// What is made of each page.
#[derive(Drop)]
pub enum Task<'w> {
    /// What is answered of its tree.
    Ask(Question<'w>),
    /// A safe page.
    Sanitize(Policy<'w>),
}

/// Why nothing is made of a page.
#[derive(Clone, Copy, PartialEq, Eq)]
pub enum Unmade {
    /// It is no text, or too long; or memory ran out.
    Failed(Failure),
    /// Its tree is out of proportion, first so at this byte.
    OutOfProportion(usize),
    /// Its tree is too large.
    TooLarge,
    /// The table that is asked for has too many values. Its start tag begins at this byte.
    LargeTable(usize),
    /// A link leads to a URL of more than 4 GB.
    LongUrl,
}

impl From<Failure> for Unmade {
    ghost from_gives = { λ failure unmade. unmade ≡ Failed failure };

    fn from(failure: Failure) -> Self {
        Unmade::Failed(failure)
    }
}

impl From<PageError> for Unmade {
    ghost from_gives = { λ error unmade. unmade ≡ Failed error.failure };

    fn from(error: PageError) -> Self {
        Unmade::Failed(error.failure)
    }
}

impl From<ReadError> for Unmade {
    ghost from_gives = { λ error unmade. unmade ≡ unmade_of error };

    fn from(error: ReadError) -> Self {
        match error {
            ReadError::OutOfMemory => Unmade::Failed(Failure::OutOfMemory),
            ReadError::OutOfProportion { at } => Unmade::OutOfProportion(at),
            ReadError::TooLarge => Unmade::TooLarge,
        }
    }
}

impl From<AnswerError> for Unmade {
    ghost from_gives = { λ error unmade. unmade ≡ unanswered_of error };

    fn from(error: AnswerError) -> Self {
        match error {
            AnswerError::Unread(error) => Unmade::from(error),
            AnswerError::LargeTable { at } => Unmade::LargeTable(at),
            AnswerError::LongUrl => Unmade::LongUrl,
            AnswerError::OutOfMemory => Unmade::Failed(Failure::OutOfMemory),
        }
    }
}

// What is answered of a page.
fn ask(alloc: Global, question: &Question<'_>, end: &str, page: &[u8]) -> Result<Output, Unmade>
    ensures made { (m : Matches) → AreSelected question.now (searched page.now) m → IfOk result
        (λ output. IsAnswered question.now m end.now page.now (finding_of output)) }
    ensures told { IfErr result (IsUnanswered question.now page.now) }
    ensures no_text { ¬ (IsUtf8 page.now) → result ≡ Err (Failed NotUnderstood) }
    ensures long { u32.MAX < length page.now → result ≡ Err (Failed NotUnderstood) }
{
    let page = text(page)?;
    Ok(answer_of_page(alloc, question, end, page.as_bytes())?)
}

// A page made safe: its text is read as what a `div` holds.
fn safe_page(alloc: Global, policy: &Policy<'_>, page: &[u8]) -> Result<Output, Unmade>
    ensures made { IfOk result (λ output.
        IsMadeSafe (lists_of policy.now) page.now (finding_of output)) }
    ensures told { IfErr result (IsUnsafe page.now) }
    ensures no_text { ¬ (IsUtf8 page.now) → result ≡ Err (Failed NotUnderstood) }
    ensures long { u32.MAX < length page.now → result ≡ Err (Failed NotUnderstood) }
{
    let text = text(page)?;
    let safe = sanitize_fragment(alloc, policy, without_mark(text.as_bytes()))?;
    Ok(Output::whole(safe))
}

/// What is made of a page, and lines that are told beside it.
#[derive(Drop)]
pub struct Made {
    pub output: Output,
    pub told: Vec<u8>,
}

/// A page made safe, and lines that tell what goes of it, with the name of its file.
pub fn told_page(
    alloc: Global,
    policy: &Policy<'_>,
    file: &str,
    page: &[u8],
) -> Result<Made, Unmade>
    ensures made { IfOk result (λ made.
        IsMadeSafe (lists_of policy.now) page.now (finding_of made.output)) }
    ensures removed { IfOk result (λ made.
        TellRemoved (lists_of policy.now) file.now (without_mark page.now) made.told.items) }
    ensures told { IfErr result (IsUnsafe page.now) }
    ensures no_text { ¬ (IsUtf8 page.now) → result ≡ Err (Failed NotUnderstood) }
    ensures long { u32.MAX < length page.now → result ≡ Err (Failed NotUnderstood) }
{
    let markup = text(page)?;
    let told = sanitize_fragment_telling(alloc, policy, without_mark(markup.as_bytes()), file)?;
    Ok(Made {
        output: Output::whole(told.page),
        told: told.lines,
    })
}

/// What a task makes of a page, where what is listed ends with `end`: nothing of one whose tree, or
/// the table that is asked for, is out of proportion to it.
pub fn execute(alloc: Global, task: &Task<'_>, end: &str, page: &[u8]) -> Result<Output, Unmade>
    // By the numbers of the nodes where its selectors hold, if it has any: these are one list each.
    ensures made { (m : Matches) → AreSelectedIn task.now page.now m → IfOk result
        (λ output. IsMade task.now m end.now page.now (finding_of output)) }
    ensures told { IfErr result (IsUnmade task.now page.now) }

    // No want of memory hides that a page is no text, or too long.
    ensures no_text { ¬ (IsUtf8 page.now) → result ≡ Err (Failed NotUnderstood) }
    ensures long { u32.MAX < length page.now → result ≡ Err (Failed NotUnderstood) }
{
    match task {
        Task::Ask(question) => ask(alloc, question, end, page),
        Task::Sanitize(policy) => safe_page(alloc, policy, page),
    }
}
