//! The element that stands in no other, and what is in it.
ghost use Rattle.std.specs.Option.{option_map_or};
ghost use Rattle.std.specs.Prelude.{IfOk, OnOk, [], ◌++◌, ◌≡◌};
ghost use Rattle.tl_answers.specs.Document.{document_element, document_text, is_root};
ghost use Rattle.tl_answers.specs.Findings.{finding_of, whole};
ghost use Rattle.tl_answers.specs.Lines.{line_ended};
ghost use Rattle.tl_tree.specs.TreeView.{rows_in};
ghost use Rattle.tl_tree_extract.specs.NodeOutline.{node_outline};
ghost use Rattle.tl_tree_extract.specs.Readable.{readable_rows};

use crate::output::Output;
use std::alloc::{AllocError, Global};
use tl_tree::Tree;
use tl_tree_extract::text::write_readable_document;
use tl_tree_extract::write_node_outline;

// Whether a node is an element that stands in none.
fn is_root(tree: &Tree<'_>, number: usize) -> bool
    ensures { result ≡ is_root (rows_in tree.now) number }
{
    tree.parent(number).is_none() && tree.name(number).is_some()
}

/// The number of the element that stands in no other.
#[tactic(auto, using(crate::proofs::Roots::root_next, crate::proofs::Roots::root_found, crate::proofs::Roots::root_none))]
pub(crate) fn document_element(tree: &Tree<'_>) -> Option<usize>
    ensures { result ≡ document_element (rows_in tree.now) }
{
    for number in 0..tree.len() {
        if is_root(tree, number) {
            return Some(number);
        }
    }
    None
}

/// What the texts of a page say.
pub(crate) fn document_text(alloc: Global, tree: &Tree<'_>) -> Result<Output, AllocError>
    ensures { IfOk result (λ text. finding_of text ≡ whole (document_text (rows_in tree.now))) }
{
    let mut text = Vec::new(alloc);
    let Some(root) = document_element(tree) else {
        return Ok(Output::whole(text));
    };
    tree.write_text_content(root, &mut text)?;
    Ok(Output::whole(text))
}

/// The readable text of a page but for nodes with a mark, and a line feed if there is any.
#[tactic(auto, using(crate::proofs::Ends::ended_none, crate::proofs::Ends::ended_some))]
pub(crate) fn readable_document(
    alloc: Global,
    tree: &Tree<'_>,
    left_out: &[bool],
) -> Result<Output, AllocError>
    ensures { IfOk result (λ text.
        finding_of text ≡ whole (line_ended (readable_rows left_out.now (rows_in tree.now)))) }
{
    let mut text = Vec::new(alloc);
    write_readable_document(tree, left_out, &mut text)?;
    if text.is_empty() {
        return Ok(Output::whole(text));
    }
    text.push(b'\n')?;
    Ok(Output::whole(text))
}

/// A line for each node of a page.
pub(crate) fn outline(
    alloc: Global,
    tree: &Tree<'_>,
    has_numbers: bool,
) -> Result<Output, AllocError>
    ensures { IfOk result (λ lines.
        finding_of lines ≡ whole (node_outline has_numbers (rows_in tree.now))) }
{
    let mut lines = Vec::new(alloc);
    write_node_outline(alloc, tree, has_numbers, &mut lines)?;
    Ok(Output::whole(lines))
}
