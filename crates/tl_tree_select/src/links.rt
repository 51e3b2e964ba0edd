//! Links from numbers to lower ones, and marks that are passed along them.
ghost use Rattle.std.specs.Prelude.{◌≡◌, ◌↔◌, ◌<◌, ◌+◌, ◌^◌, ℕ, IfOk, IfSome, true, length};
ghost use Rattle.tl_tree_select.specs.Meaning.{IsCount};
ghost use Rattle.tl_tree_select.specs.Inner.Links.{AreLower, IsAhead, IsBehind, IsSource, IsTarget, count_at, is_at, link_at, linked_count, one_if, passes_on, source_mark, with_added, with_target};

use std::alloc::{AllocError, Global};

/// No link.
pub const NO_LINK: u32 = 4294967295;

/// The number that the link of another leads to, if it has one.
pub fn link(links: &[u32], number: usize) -> Option<usize>
    ensures { result ≡ link_at links.now number }
{
    match links.get(number) {
        Some(to) if *to != NO_LINK => Some(*to as usize),
        _ => None,
    }
}

/// Whether a number is marked.
pub fn is_marked(marks: &[bool], number: usize) -> bool
    ensures { result ≡ is_at marks.now number }
{
    number < marks.len() && marks[number]
}

/// Whether a number has its mark, or one that was found, where several links count.
pub fn passes_on(marks: &[bool], often: bool, found: &[bool], number: usize) -> bool
    ensures { result ≡ passes_on marks.now often found.now number }
{
    is_marked(marks, number) || often && is_marked(found, number)
}

// What the link of a number says of it.
fn source_mark(links: &[u32], marks: &[bool], often: bool, found: &[bool], number: usize) -> bool
    ensures { result ≡ source_mark links.now marks.now often found.now number }
{
    match link(links, number) {
        Some(to) => passes_on(marks, often, found, to),
        None => false,
    }
}

/// A mark for each number from which a link leads to a marked one; where `often`, one or more
/// links.
pub fn sources(
    alloc: Global,
    links: &[u32],
    marks: &[bool],
    often: bool,
) -> Result<Vec<bool>, AllocError>
    requires { AreLower links.now }
    ensures len { IfOk result (λ found. length found.items ≡ length links.now) }
    ensures each { IfOk result (λ found. (n : ℕ)
        → (is_at found.items n ≡ true) ↔ IsSource links.now marks.now often n) }
{
    let mut found = Vec::with_capacity(alloc, links.len())?;
    for number in 0..links.len() {
        let mark = source_mark(links, marks, often, &found, number);
        found.push(mark)?;
    }
    Ok(found)
}

// Marks the number to which the link of another leads, if that passes its mark on.
fn mark_target(found: &mut Vec<bool>, links: &[u32], marks: &[bool], often: bool, number: usize)
    ensures { found.new.items ≡ with_target links.now marks.now often number found.old.items }
{
    if let Some(to) = link(links, number) {
        if passes_on(marks, often, found, number) && to < found.len() {
            found[to] = true;
        }
    }
}

/// A mark for each number to which a link leads from a marked one; where `often`, one or more
/// links.
pub fn targets(
    alloc: Global,
    links: &[u32],
    marks: &[bool],
    often: bool,
) -> Result<Vec<bool>, AllocError>
    requires { AreLower links.now }
    ensures len { IfOk result (λ found. length found.items ≡ length links.now) }
    ensures each { IfOk result (λ found. (n : ℕ)
        → (is_at found.items n ≡ true) ↔ IsTarget links.now marks.now often n) }
{
    let mut found = vec![in alloc; false; links.len()]?;
    let mut number = links.len();
    'down: while number > 0 {
        number -= 1;
        mark_target(&mut found, links, marks, often, number);
    }
    Ok(found)
}

/// How many a mark counts.
pub fn one_if(mark: bool) -> u32
    ensures { result ≡ one_if mark }
{
    if mark { 1 } else { 0 }
}

// The count of the number that a link leads to.
fn linked_count(links: &[u32], counts: &[u32], number: usize) -> u32
    ensures { result ≡ linked_count links.now counts.now number }
{
    match link(links, number) {
        Some(to) if to < counts.len() => counts[to],
        _ => 0,
    }
}

/// How many marked numbers there are along the links from each number, with itself.
#[tactic(auto, using(crate::proofs::Ahead::few_linked))]
pub fn counts_ahead(alloc: Global, links: &[u32], marks: &[bool]) -> Result<Vec<u32>, AllocError>
    requires lower { AreLower links.now }
    requires numbered { length links.now < 2 ^ 32 }
    ensures len { IfOk result (λ counts. length counts.items ≡ length links.now) }
    ensures each { IfOk result (λ counts. (n : ℕ) → n < length links.now
        → IsCount (IsAhead links.now marks.now n) (count_at counts.items n)) }
{
    let mut counts = Vec::with_capacity(alloc, links.len())?;
    for number in 0..links.len() {
        let count = linked_count(links, &counts, number) + one_if(is_marked(marks, number));
        counts.push(count)?;
    }
    Ok(counts)
}

// A one for each marked number, a zero for the others.
fn ones(alloc: Global, marks: &[bool], len: usize) -> Result<Vec<u32>, AllocError>
    ensures len { IfOk result (λ counts. length counts.items ≡ len) }
    ensures each { IfOk result (λ counts. (n : ℕ) → n < len
        → count_at counts.items n ≡ one_if (is_at marks.now n)) }
{
    let mut counts = Vec::with_capacity(alloc, len)?;
    for number in 0..len {
        counts.push(one_if(is_marked(marks, number)))?;
    }
    Ok(counts)
}

// Adds the count of a number to that of the one that its link leads to.
fn add_count(counts: &mut Vec<u32>, links: &[u32], number: usize)
    requires within { number < length counts.old.items }
    requires fits { IfSome (link_at links.now number) (λ to. count_at counts.old.items to
        + count_at counts.old.items number < 2 ^ 32) }
    ensures { counts.new.items ≡ with_added links.now number counts.old.items }
{
    if let Some(to) = link(links, number) {
        if to < counts.len() {
            counts[to] += counts[number];
        }
    }
}

/// How many marked numbers there are from which links lead to each number, with itself.
pub fn counts_behind(alloc: Global, links: &[u32], marks: &[bool]) -> Result<Vec<u32>, AllocError>
    requires lower { AreLower links.now }
    requires numbered { length links.now < 2 ^ 32 }
    ensures len { IfOk result (λ counts. length counts.items ≡ length links.now) }
    ensures each { IfOk result (λ counts. (n : ℕ) → n < length links.now
        → IsCount (IsBehind links.now marks.now n) (count_at counts.items n)) }
{
    let mut counts = ones(alloc, marks, links.len())?;
    let mut number = links.len();
    'down: while number > 0 {
        number -= 1;
        add_count(&mut counts, links, number);
    }
    Ok(counts)
}
