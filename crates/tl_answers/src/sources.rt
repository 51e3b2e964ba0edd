//! The source of elements: the bytes of the page that their tags enclose.
ghost use Rattle.std.specs.HashMap.{get};
ghost use Rattle.std.specs.Prelude.{IfOk, OnOk, nat_eq, slice_range, ℕ, ◌++◌, ◌≡◌};
ghost use Rattle.tl_answers.specs.Findings.{finding_of, listed};
ghost use Rattle.tl_answers.specs.SourceLines.{end_from, source_from, source_line, source_lines};
ghost use Rattle.tl_patch_edit.specs.Stretches.{stretches};
ghost use Rattle.tl_patch_edit.specs.declared.reach.Stretch.{Stretch};
ghost use Rattle.std.specs.Prelude.{List};
ghost use Rattle.tl_tree.specs.Sources.{source_at};

use crate::output::Output;
use std::alloc::{AllocError, Global};
use std::collections::HashMap;
use tl_patch_edit::{Stretch, stretches};
use tl_tree::Tree;

/// Where elements end, by where they begin.
#[derive(Drop)]
struct Ends {
    ends: HashMap<usize, usize>,
}

impl Ends {
    fn of(alloc: Global, elements: &[Stretch]) -> Result<Ends, AllocError>
        ensures { IfOk result (λ own. (place : ℕ) →
            get nat_eq own.ends place ≡ end_from elements.now place) }
    {
        let mut ends = HashMap::new(alloc);
        for element in elements {
            ends.insert(element.start, element.end)?;
        }
        Ok(Ends { ends })
    }

    // Where the element ends that begins at a place.
    fn at(&self, place: usize) -> Option<usize>
        ensures { result ≡ get nat_eq self.now.ends place }
    {
        self.ends.get(&place).copied()
    }
}

// The bytes of a page between two places.
fn between(page: &[u8], from: usize, to: usize) -> &[u8]
    ensures { result.now ≡ slice_range page.now from to }
{
    let rest = &page[from.min(page.len())..];
    &rest[..to.saturating_sub(from).min(rest.len())]
}

// Writes the bytes of the element that begins at a place, if one does.
fn put_element(
    page: &[u8],
    ends: &Ends,
    place: usize,
    end: &str,
    out: &mut Vec<u8>,
) -> Result<(), AllocError>
    ensures { (elements : List Stretch)
        → get nat_eq ends.now.ends place ≡ end_from elements place → OnOk result
        (out.new.items ≡ out.old.items ++ source_from end.now page.now elements place) }
{
    let Some(past) = ends.at(place) else {
        return Ok(());
    };
    out.extend_from_slice(between(page, place, past))?;
    out.extend_from_slice(end.as_bytes())?;
    Ok(())
}

// Writes those of a node, if a tag stands for it.
fn put_source(
    tree: &Tree<'_>,
    page: &[u8],
    ends: &Ends,
    number: usize,
    end: &str,
    out: &mut Vec<u8>,
) -> Result<(), AllocError>
    ensures { (elements : List Stretch)
        → ((place : ℕ) → get nat_eq ends.now.ends place ≡ end_from elements place) → OnOk result
        (out.new.items ≡ out.old.items
        ++ source_line end.now page.now elements (source_at tree.now) number) }
{
    let Some(source) = tree.source(number) else {
        return Ok(());
    };
    put_element(page, ends, source.start, end, out)
}

/// The bytes of the elements of these numbers, each with what ends it.
pub(crate) fn source_lines(
    alloc: Global,
    tree: &Tree<'_>,
    page: &[u8],
    numbers: &[usize],
    end: &str,
) -> Result<Output, AllocError>
    ensures { IfOk result (λ lines. finding_of lines
        ≡ listed (source_lines end.now (source_at tree.now) page.now numbers.now)) }
{
    let found = stretches(alloc, page)?;
    let ends = Ends::of(alloc, &found.elements)?;
    let mut lines = Vec::new(alloc);
    for number in numbers {
        put_source(tree, page, &ends, *number, end, &mut lines)?;
    }
    Ok(Output::from_lines(lines))
}
