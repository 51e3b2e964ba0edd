//! What is answered of a page.
ghost use Rattle.std.specs.Prelude.{IfErr, IfOk};
ghost use Rattle.tl_answers.specs.Answers.{AreSelected, Matches};
ghost use Rattle.tl_answers.specs.Findings.{finding_of};
ghost use Rattle.tl_answers.specs.Pages.{IsAnswered, IsRefused, searched};

use crate::error::AnswerError;
use crate::output::Output;
use crate::question::{Question, answer};
use std::alloc::Global;
use tl_tree::{Flags, Tree};

// Pages are read by the standard, without scripts.
pub(crate) const FLAGS: Flags = Flags {
    is_scripting: false,
    counts_search: true,
};

/// What is answered of the bytes of a page, which is read once, where what is listed ends with
/// `end`.
pub fn answer_of_page(
    alloc: Global,
    question: &Question<'_>,
    end: &str,
    page: &[u8],
) -> Result<Output, AnswerError>
    // By the numbers of the nodes where its selectors hold, if it has any: these are one list each.
    ensures made { (m : Matches) → AreSelected question.now (searched page.now) m → IfOk result
        (λ output. IsAnswered question.now m end.now page.now (finding_of output)) }
    ensures told { IfErr result (IsRefused question.now page.now) }
{
    let tree = Tree::read(alloc, page, FLAGS)?;
    answer(alloc, question, end, &tree, page)
}
