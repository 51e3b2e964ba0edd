//! What lookups and queries write: the numbers of nodes, one on each line.
ghost use Rattle.std.specs.Prelude.{◌≡◌, ◌++◌, Err, IfOk, IfNone, OnOk, string_bytes};
ghost use Rattle.std.specs.Option.{option_to_list};
ghost use Rattle.tl_bytes.specs.Held.{borrowed};
ghost use Rattle.tl_spec.specs.Select.Reading.{selector_at};
ghost use Rattle.tl.specs.Lookup.{with_id, with_member};
ghost use Rattle.tl.specs.View.{document_of};
ghost use Rattle.tl_page.specs.Outcome.{Gives};
ghost use Rattle.tl_program.specs.Output.{number_line, number_lines, outcome_of_numbers, outcome_of_query};

use super::failure::Failure;
use std::alloc::{AllocError, Global};
use tl::laws::queries_find;
use tl::queryselector::QuerySelectorIterator;
use tl::{Bytes, NodeHandle, VDom};

// Adds the line of a node's number.
fn add_line(alloc: Global, lines: &mut String, handle: NodeHandle) -> Result<(), AllocError>
    ensures { OnOk result (string_bytes lines.new ≡ string_bytes lines.old ++ number_line handle) }
{
    let digits = handle.get_inner().to_string(alloc)?;
    lines.push_str(digits.as_str())?;
    lines.push('\n')
}

/// The line of the first tag with an id, or nothing.
pub fn id_lines(alloc: Global, document: &VDom<'_>, id: &str) -> Result<String, AllocError>
    ensures { IfOk result (λ s. string_bytes s ≡ number_lines (option_to_list
        (with_id document.now (record { list = id.now; held = borrowed })))) }
{
    let mut lines = String::new(alloc);
    if let Some(handle) = document.get_element_by_id(Bytes::from(id)) {
        add_line(alloc, &mut lines, handle)?;
    }
    Ok(lines)
}

/// The lines of the tags with a class member.
pub fn class_lines(alloc: Global, document: &VDom<'_>, member: &str) -> Result<String, AllocError>
    ensures { IfOk result (λ s.
        string_bytes s ≡ number_lines (with_member document.now member.now)) }
{
    let mut lines = String::new(alloc);
    for handle in document.get_elements_by_class_name(member) {
        add_line(alloc, &mut lines, handle)?;
    }
    Ok(lines)
}

// The lines of what a query gives.
fn lines_of(alloc: Global, found: QuerySelectorIterator<'_, '_>) -> Result<String, AllocError>
    ensures { IfOk result (λ s. string_bytes s ≡ number_lines found.entry) }
{
    let mut lines = String::new(alloc);
    for handle in found {
        add_line(alloc, &mut lines, handle)?;
    }
    Ok(lines)
}

// The lines of what a query found; a text that stands for no selector finds nothing, and is
// refused.
fn lines_or_refusal(
    alloc: Global,
    found: Option<QuerySelectorIterator<'_, '_>>,
) -> Result<String, Failure>
    ensures outcome { Gives string_bytes (outcome_of_numbers found.entry) result }
    ensures none { IfNone found.entry (result ≡ Err Failure.Refused) }
{
    match found {
        Some(found) => Ok(lines_of(alloc, found)?),
        None => Err(Failure::Refused),
    }
}

/// The lines of the nodes where a selector holds; a text that stands for no selector is refused.
pub fn selector_lines(alloc: Global, document: &VDom<'_>, selector: &str) -> Result<String, Failure>
    ensures { let made = outcome_of_query (selector_at selector.now) (document_of document.now) in
        Gives string_bytes made result }
{
    queries_find();
    let found = document.query_selector(alloc, selector)?;
    lines_or_refusal(alloc, found)
}
