//! Where a selector holds in a page.
ghost use Rattle.std.specs.Prelude.{◌≡◌, ◌↔◌, ◌≤◌, ◌<◌, ℕ, IfOk, IfSome, MatchOption, true};
ghost use Rattle.tl_css.specs.Selector.{Css};
ghost use Rattle.tl_css.specs.declared.selector.Link.TheVariants.{Parent};
ghost use Rattle.tl_css.specs.declared.selector.Way.TheVariants.{From};
ghost use Rattle.tl_tree_select.specs.Inner.Finding.{AreBelow, Finds, IsAnswered, IsFoundFrom, IsLookFor, IsNext, IsPlace};
ghost use Rattle.tl_tree_select.specs.Meaning.{AreFound, AreFoundBehind, AreFoundBelow, Holds, IsBefore, IsClosest, IsFirst, IsFound, IsLink, IsUpTo, outer_end_at};
ghost use Rattle.tl_tree_select.specs.Page.{page_from, page_of, seen};
ghost use Rattle.tl_tree.specs.TreeView.{rows_in};

use crate::element::is_element_at;
use crate::finder::Finder;
use crate::look::Look;
use crate::page::Searched;
use crate::passing::{Place, end_of_contents, pass};
use std::alloc::{AllocError, Global};
use tl_css::Selector;
use tl_tree::Tree;

// Whether the selector that is looked for holds at the row of a place, outside of contents.
fn is_found(
    alloc: Global,
    page: &Searched<'_, '_>,
    finder: &Finder<'_>,
    place: Place,
) -> Result<bool, AllocError>
    ensures { (e : Css) (start : ℕ) → Finds (seen page.now) e finder.now
        → IsAnswered (seen page.now) finder.now place.number
        → IsPlace (seen page.now) start place → IfOk result
        (λ found. (found ≡ true) ↔ IsFoundFrom (seen page.now) e start place.number) }
{
    let Place { number, behind } = place;
    if number < behind {
        return Ok(false);
    }
    let holds = finder.holds_seen(alloc, page, number)?;
    Ok(holds)
}

// The next row from a place on, and before an end, where what is looked for is found.
#[inline(always)]
fn next_found(
    alloc: Global,
    page: &Searched<'_, '_>,
    finder: &Finder<'_>,
    look: Look<'_>,
    end: usize,
    from: Place,
) -> Result<Option<Place>, AllocError>
    requires { from.number ≤ end }
    ensures within { IfOk result (λ found. IfSome found
        (λ at. (from.number ≤ at.number) × (at.number < end))) }
    ensures next { (e : Css) (start : ℕ) → Finds (seen page.now) e finder.now
        → IsLookFor (seen page.now) e finder.now look.entry
        → IsPlace (seen page.now) start from → IfOk result (λ found. MatchOption found
        ((n : ℕ) → from.number ≤ n → n < end → IsFoundFrom (seen page.now) e start n → ⊥)
        (IsNext (seen page.now) e start from.number end)) }
{
    let mut place = pass(page, look, end, from);
    'rows: while place.number < end {
        let found = is_found(alloc, page, finder, place)?;
        if found {
            return Ok(Some(place));
        }
        let behind = end_of_contents(page, place.number, place.behind);
        let number = place.number + 1;
        place = pass(page, look, end, Place { number, behind });
    }
    Ok(None)
}

// The numbers of the elements from one up to another where a selector holds, outside of contents.
#[inline(always)]
fn found_by(
    alloc: Global,
    page: &Searched<'_, '_>,
    finder: &Finder<'_>,
    look: Look<'_>,
    start: usize,
    end: usize,
) -> Result<Vec<usize>, AllocError>
    requires { start ≤ end }
    ensures { (e : Css) → Finds (seen page.now) e finder.now
        → IsLookFor (seen page.now) e finder.now look.entry
        → IfOk result (λ ns. AreBelow (IsFoundFrom (seen page.now) e start) end ns.items) }
{
    let mut numbers = Vec::new(alloc);
    let mut place = Place {
        number: start,
        behind: 0,
    };
    'found: loop {
        let next = next_found(alloc, page, finder, look, end, place)?;
        let Some(at) = next else {
            return Ok(numbers);
        };
        numbers.push(at.number)?;
        place = Place {
            number: at.number + 1,
            behind: end_of_contents(page, at.number, at.behind),
        };
    }
}

// The same, by a loop of its own for each kind of look.
fn found(
    alloc: Global,
    page: &Searched<'_, '_>,
    finder: &Finder<'_>,
    start: usize,
    end: usize,
) -> Result<Vec<usize>, AllocError>
    requires { start ≤ end }
    ensures { (e : Css) → Finds (seen page.now) e finder.now
        → IfOk result (λ ns. AreBelow (IsFoundFrom (seen page.now) e start) end ns.items) }
{
    match finder.look() {
        Look::Known(known) => found_by(alloc, page, finder, Look::Known(known), start, end),
        Look::Name(known) => found_by(alloc, page, finder, Look::Name(known), start, end),
        Look::Value(key, len) => {
            found_by(alloc, page, finder, Look::Value(key, len), start, end)
        }
        Look::Id(id) => found_by(alloc, page, finder, Look::Id(id), start, end),
        Look::Class(class) => found_by(alloc, page, finder, Look::Class(class), start, end),
        Look::Key(key) => found_by(alloc, page, finder, Look::Key(key), start, end),
        Look::Element => found_by(alloc, page, finder, Look::Element, start, end),
        Look::Mark(marks) => found_by(alloc, page, finder, Look::Mark(marks), start, end),
    }
}

/// The numbers of the elements of the document where a selector holds, rising.
pub fn select(alloc: Global, tree: &Tree<'_>, selector: &Selector) -> Result<Vec<usize>, AllocError>
    ensures { IfOk result (λ ns. AreFound (page_of tree.now) selector.now ns.items) }
{
    let page = Searched { tree, scope: None };
    let finder = Finder::new(alloc, &page, selector)?;
    let numbers = found(alloc, &page, &finder, 0, tree.len())?;
    Ok(numbers)
}

/// The numbers of the elements below a node where a selector holds, rising: none where there is no
/// such node. They are sought as `element.querySelectorAll` does, so `:scope` is the node.
pub fn below(
    alloc: Global,
    tree: &Tree<'_>,
    number: usize,
    selector: &Selector,
) -> Result<Vec<usize>, AllocError>
    ensures { IfOk result (λ ns.
        AreFoundBelow (page_from tree.now number) selector.now number ns.items) }
{
    let Some(end) = tree.end(number) else {
        return Ok(Vec::new(alloc));
    };
    let page = Searched {
        tree,
        scope: Some(number),
    };
    let finder = Finder::new(alloc, &page, selector)?;
    let numbers = found(alloc, &page, &finder, number + 1, end)?;
    Ok(numbers)
}

// Where the node ends that a node stands in, or the document does.
fn outer_end(tree: &Tree<'_>, number: usize) -> Option<usize>
    ensures { result ≡ outer_end_at (rows_in tree.now) number }
{
    tree.end(number)?;
    match tree.parent(number) {
        Some(parent) => tree.end(parent),
        None => Some(tree.len()),
    }
}

/// The numbers of the elements behind a node where a selector holds, rising: of its siblings after
/// it, and of what is below those. `:scope` is the node, so `+ a` and `~ a` find here.
pub fn behind(
    alloc: Global,
    tree: &Tree<'_>,
    number: usize,
    selector: &Selector,
) -> Result<Vec<usize>, AllocError>
    ensures { IfOk result (λ ns.
        AreFoundBehind (page_from tree.now number) selector.now number ns.items) }
{
    let (Some(start), Some(end)) = (tree.end(number), outer_end(tree, number)) else {
        return Ok(Vec::new(alloc));
    };
    if end < start {
        return Ok(Vec::new(alloc));
    }
    let page = Searched {
        tree,
        scope: Some(number),
    };
    let finder = Finder::new(alloc, &page, selector)?;
    let numbers = found(alloc, &page, &finder, start, end)?;
    Ok(numbers)
}

/// The number of the first element of the document where a selector holds.
pub fn first(
    alloc: Global,
    tree: &Tree<'_>,
    selector: &Selector,
) -> Result<Option<usize>, AllocError>
    ensures { IfOk result (λ found. MatchOption found
        ((n : ℕ) → IsFound (page_of tree.now) selector.now n → ⊥)
        (IsFirst (page_of tree.now) selector.now)) }
{
    let page = Searched { tree, scope: None };
    let finder = Finder::new(alloc, &page, selector)?;
    let front = Place {
        number: 0,
        behind: 0,
    };
    let next = next_found(alloc, &page, &finder, finder.look(), tree.len(), front)?;
    let Some(at) = next else {
        return Ok(None);
    };
    Ok(Some(at.number))
}

/// Whether a selector holds at the element of a number, also at one in the contents of a
/// `template`, whose `:scope` is the element. A compound is asked there alone.
pub fn matches(
    alloc: Global,
    tree: &Tree<'_>,
    number: usize,
    selector: &Selector,
) -> Result<bool, AllocError>
    ensures { IfOk result (λ matches. (matches ≡ true)
        ↔ Holds (page_from tree.now number) selector.now number) }
{
    let page = Searched {
        tree,
        scope: Some(number),
    };
    let finder = Finder::new(alloc, &page, selector)?;
    let matches = finder.holds(alloc, &page, number)?;
    Ok(matches)
}

// The element that a row stands in.
fn parent_element(page: &Searched<'_, '_>, number: usize) -> Option<usize>
    ensures { MatchOption result ((m : ℕ) → IsBefore (seen page.now) Parent m number → ⊥)
        (λ m. IsBefore (seen page.now) Parent m number) }
{
    match page.tree.parent(number) {
        Some(parent) if is_element_at(page, parent) => Some(parent),
        _ => None,
    }
}

// The innermost of a row and the elements that it stands in where a selector holds.
fn innermost(
    alloc: Global,
    page: &Searched<'_, '_>,
    finder: &Finder<'_>,
    number: usize,
) -> Result<Option<usize>, AllocError>
    requires { (e : Css) × Finds (seen page.now) e finder.now }
    ensures { (e : Css) → Finds (seen page.now) e finder.now → IfOk result
        (λ found. MatchOption found
        ((m : ℕ) → IsUpTo (seen page.now) From Parent m number → Holds (seen page.now) e m → ⊥)
        (IsClosest (seen page.now) e number)) }
{
    let mut next = Some(number);
    'outwards: while let Some(at) = next {
        let holds = finder.holds(alloc, page, at)?;
        if holds {
            return Ok(Some(at));
        }
        next = parent_element(page, at);
    }
    Ok(None)
}

/// The number of the innermost element where a selector holds, from a node on outwards. Its
/// `:scope` is the node, as that of `element.closest`.
pub fn closest(
    alloc: Global,
    tree: &Tree<'_>,
    number: usize,
    selector: &Selector,
) -> Result<Option<usize>, AllocError>
    ensures { IfOk result (λ found. let page = page_from tree.now number in MatchOption found
        ((m : ℕ) → IsUpTo page From Parent m number → Holds page selector.now m → ⊥)
        (IsClosest page selector.now number)) }
{
    let page = Searched {
        tree,
        scope: Some(number),
    };
    let finder = Finder::new(alloc, &page, selector)?;
    let found = innermost(alloc, &page, &finder, number)?;
    Ok(found)
}
