//! What is asked of the tree of a page.
ghost use Rattle.std.specs.Option.{option_copied};
ghost use Rattle.std.specs.Prelude.{IfErr, IfOk, List, OnOk, length, ℕ, ◌≡◌};
ghost use Rattle.tl_answers.specs.Answers.{AreSelected, Fits, IsUnanswered, Matches, answer_of};
ghost use Rattle.tl_answers.specs.Findings.{finding_of, whole};
ghost use Rattle.tl_answers.specs.LeftOut.{AreLeftOut, marks_in};
ghost use Rattle.tl_answers.specs.Lines.{line_ended};
ghost use Rattle.tl_dom_spec.specs.HtmlForest.{HtmlForest};
ghost use Rattle.tl_tree.specs.Rows.{rows_of};
ghost use Rattle.tl_tree.specs.Sources.{source_at};
ghost use Rattle.tl_tree.specs.TreeView.{rows_in};
ghost use Rattle.tl_tree_extract.specs.Readable.{readable_rows};
ghost use Rattle.tl_tree_select.specs.Page.{page_of};

use crate::document::{document_text, outline, readable_document};
use crate::error::AnswerError;
use crate::left_out::left_out;
use crate::lines::document_comments;
use crate::links::{LinkQuery, link_lines};
use crate::output::Output;
use crate::prints::{pretty_print, print};
use crate::selection::{Query, selection};
use crate::tables::{TableQuery, table_lines};
use std::alloc::{AllocError, Global};
use tl_css::Selector;
use tl_tree::Tree;

/// What is asked of the tree of a page.
#[derive(Clone, Copy)]
pub enum Question<'w> {
    /// What is written of the nodes where a selector holds.
    Select(Query<'w>),
    /// Its links.
    Links(LinkQuery<'w>),
    /// What its texts say.
    Text,
    /// Its readable text, but for what is in nodes where a selector holds, if one is said.
    Readable(Option<&'w Selector>),
    /// Its comments.
    Comments,
    /// Its print.
    Print,
    /// The same with a tag on each line where white space doesn't count.
    PrettyPrint,
    /// Tables of it.
    Table(TableQuery<'w>),
    /// What its nodes are, as a tree, with their numbers or without.
    Outline(bool),
}

// The readable text of a page, but for what is in nodes where a selector holds, if one is said.
fn readable_but(
    alloc: Global,
    tree: &Tree<'_>,
    but: Option<&Selector>,
) -> Result<Output, AllocError>
    ensures { let rows = rows_in tree.now in (out : List ℕ) →
        AreLeftOut (option_copied but.entry) (page_of tree.now) out → IfOk result
        (λ text. finding_of text ≡ whole (line_ended (readable_rows (marks_in rows out) rows))) }
{
    let marks = left_out(alloc, tree, but)?;
    readable_document(alloc, tree, &marks)
}

/// What is answered of the tree of a page, where what is listed ends with `end`.
/// Tables whose text is out of proportion to the page are refused.
#[tactic(auto, using(crate::proofs::Unanswered::table_reason, crate::proofs::Unanswered::link_reason))]
pub fn answer(
    alloc: Global,
    question: &Question<'_>,
    end: &str,
    tree: &Tree<'_>,
    page: &[u8],
) -> Result<Output, AnswerError>
    // By the numbers of the nodes where its selectors hold, if it has any: these are one list each.
    ensures made { (trees : HtmlForest) (m : Matches) → rows_in tree.now ≡ rows_of trees →
        AreSelected question.now (page_of tree.now) m → IfOk result (λ output. finding_of output
        ≡ answer_of question.now m end.now trees (source_at tree.now) page.now) }
    ensures fits { (m : Matches) → AreSelected question.now (page_of tree.now) m →
        OnOk result (Fits (length page.now) (rows_in tree.now) question.now m) }
    ensures told { IfErr result (IsUnanswered (length page.now) (page_of tree.now)
        (source_at tree.now) question.now) }
{
    match question {
        Question::Select(query) => Ok(selection(alloc, tree, query, end, page)?),
        Question::Links(query) => link_lines(alloc, tree, *query, end),
        Question::Text => Ok(document_text(alloc, tree)?),
        Question::Readable(but) => Ok(readable_but(alloc, tree, *but)?),
        Question::Comments => Ok(document_comments(alloc, tree, end)?),
        Question::Print => Ok(print(alloc, tree)?),
        Question::PrettyPrint => Ok(pretty_print(alloc, tree)?),
        Question::Table(query) => table_lines(alloc, tree, *query, page.len()),
        Question::Outline(has_numbers) => Ok(outline(alloc, tree, *has_numbers)?),
    }
}
