//! A mark for each node where a selector holds. Each part of the selector costs a pass over the
//! nodes and their children, however deep the table is and however often a node stands among
//! children.
ghost use Rattle.std.specs.Prelude.{◌≡◌, ◌≤◌, ℕ, IsOk, IfOk, IfSome, OnOk, None, length, true, false, map, slice_get, ◌&&◌, ◌||◌};
ghost use Rattle.std.specs.List.{All};
ghost use Rattle.std.specs.Option.{option_copied};
ghost use Rattle.tl_spec.specs.Tree.Element.{children_of};
ghost use Rattle.tl_spec.specs.Select.Meaning.{Holds, has_combinator};
ghost use Rattle.tl_selector.specs.NodeSet.{is_among, is_at, is_done, is_in, mark_one, spread, child_at, children_at, IsUnderMark, IsBelowMark, AreMarks};
ghost use Rattle.tl_selector.specs.Spine.{has_sides, nested_in, selectors, with_first};
ghost use Rattle.tl_selector.specs.View.{selector};
ghost use Rattle.tl_selector.specs.declared.selector.Selector.{size-Selector};
ghost use Rattle.tl_spec.specs.Select.Selector.{Selector as SelectorOf};

use crate::matching::holds_alone;
use crate::matching::scan::first_alone;
use crate::selector::Selector;
use crate::selector::spine::{has_combinator, has_sides};
use std::alloc::{AllocError, Global};
use tl_table::element::Element;

/// Whether a node is marked.
pub fn is_marked(marks: &[bool], number: usize) -> bool
    ensures { result ≡ is_at marks.now number }
{
    number < marks.len() && marks[number]
}

// Whether a node is in question: where no marks are given, every node is.
fn is_among(among: Option<&[bool]>, number: usize) -> bool
    ensures { result ≡ is_among (option_copied among.entry) number }
{
    match among {
        Some(marks) => is_marked(marks, number),
        None => true,
    }
}

// Marks a node that has no mark yet, and puts it into the queue.
fn mark(number: usize, marks: &mut Vec<bool>, queue: &mut Vec<usize>) -> Result<(), AllocError>
    ensures ok { OnOk result ((marks.new.items, queue.new.items)
        ≡ mark_one number (marks.old.items, queue.old.items)) }

    // Memory is taken for a new mark alone.
    ensures done { is_done marks.old.items number ≡ true → IsOk result }
{
    if number < marks.len() && !marks[number] {
        marks[number] = true;
        queue.push(number)?;
    }
    Ok(())
}

// Marks the child at a place, if there is one.
fn mark_child<N: Element>(
    node: &N,
    place: usize,
    marks: &mut Vec<bool>,
    queue: &mut Vec<usize>,
) -> Result<(), AllocError>
    ensures ok { OnOk result ((marks.new.items, queue.new.items)
        ≡ spread (child_at (children_of (N.node node.now)) place)
        (marks.old.items, queue.old.items)) }

    // Memory is taken for a new mark alone: not for a child that has its mark, nor for one past the
    // table.
    ensures done { IfSome (slice_get (children_of (N.node node.now)) place)
        (λ child. is_done marks.old.items child ≡ true) → IsOk result }
{
    match node.child(place) {
        Some(child) => mark(child as usize, marks, queue),
        None => Ok(()),
    }
}

// Marks each child of a node.
fn mark_children<N: Element>(
    node: &N,
    marks: &mut Vec<bool>,
    queue: &mut Vec<usize>,
) -> Result<(), AllocError>
    ensures { OnOk result ((marks.new.items, queue.new.items)
        ≡ spread (children_of (N.node node.now)) (marks.old.items, queue.old.items)) }
{
    for place in 0..node.child_count() {
        mark_child(node, place, marks, queue)?;
    }
    Ok(())
}

// Marks each child of the node of a number, if there is one.
fn mark_children_at<N: Element>(
    nodes: &[N],
    number: usize,
    marks: &mut Vec<bool>,
    queue: &mut Vec<usize>,
) -> Result<(), AllocError>
    ensures { OnOk result ((marks.new.items, queue.new.items)
        ≡ spread (children_at (map N.node nodes.now) number) (marks.old.items, queue.old.items)) }
{
    match nodes.get(number) {
        Some(node) => mark_children(node, marks, queue),
        None => Ok(()),
    }
}

// The nodes that are marked.
fn indices(alloc: Global, holds: &[bool]) -> Result<Vec<usize>, AllocError>
    ensures all { IfOk result (λ queue. (m : ℕ) → is_at holds.now m ≡ true
        → is_in queue.items m ≡ true) }
    ensures only { IfOk result (λ queue. (m : ℕ) → is_in queue.items m ≡ true
        → is_at holds.now m ≡ true) }

    // Where no node is marked it takes no memory.
    ensures none { ((m : ℕ) → is_at holds.now m ≡ false) → IsOk result }
{
    let mut queue = Vec::new(alloc);
    for (m, held) in holds.iter().enumerate() {
        if *held {
            queue.push(m)?;
        }
    }
    Ok(queue)
}

// A mark for each node below a marked one, by one step or more.
fn descendants_of_set<N: Element>(
    alloc: Global,
    nodes: &[N],
    holds: &[bool],
) -> Result<Vec<bool>, AllocError>
    requires { length holds.now ≡ length nodes.now }
    ensures len { IfOk result (λ marks. length marks.items ≡ length nodes.now) }
    ensures sound { IfOk result (λ marks. (n : ℕ) → is_at marks.items n ≡ true
        → IsBelowMark (map N.node nodes.now) holds.now n) }
    ensures complete { IfOk result (λ marks. (n : ℕ)
        → IsBelowMark (map N.node nodes.now) holds.now n → is_at marks.items n ≡ true) }
{
    let mut marks = vec![in alloc; false; nodes.len()]?;
    let mut queue = indices(alloc, holds)?;
    'work: while let Some(m) = queue.pop() {
        mark_children_at(nodes, m, &mut marks, &mut queue)?;
    }
    Ok(marks)
}

// A mark for each child of a marked node.
fn children_of_set<N: Element>(
    alloc: Global,
    nodes: &[N],
    holds: &[bool],
) -> Result<Vec<bool>, AllocError>
    requires { length holds.now ≡ length nodes.now }
    ensures len { IfOk result (λ marks. length marks.items ≡ length nodes.now) }
    ensures sound { IfOk result (λ marks. (n : ℕ) → is_at marks.items n ≡ true
        → IsUnderMark (map N.node nodes.now) holds.now n) }
    ensures complete { IfOk result (λ marks. (n : ℕ)
        → IsUnderMark (map N.node nodes.now) holds.now n → is_at marks.items n ≡ true) }
{
    let mut marks = vec![in alloc; false; nodes.len()]?;
    let mut queue = indices(alloc, holds)?;
    let mut found = Vec::new(alloc);
    'work: while let Some(m) = queue.pop() {
        mark_children_at(nodes, m, &mut marks, &mut found)?;
    }
    Ok(marks)
}

// Takes the mark from each node that is not in question.
fn retain_among(marks: &mut Vec<bool>, among: Option<&[bool]>)
    ensures len { length marks.new.items ≡ length marks.old.items }
    ensures kept { (n : ℕ) → is_at marks.new.items n
        ≡ (is_at marks.old.items n && is_among (option_copied among.entry) n) }
{
    for (number, mark) in marks.iter_mut().enumerate() {
        *mark = *mark && is_among(among, number);
    }
}

// Adds the marks of the other.
fn union_with(marks: &mut Vec<bool>, others: &[bool])
    requires { length marks.old.items ≡ length others.now }
    ensures len { length marks.new.items ≡ length marks.old.items }
    ensures either { (n : ℕ) → is_at marks.new.items n
        ≡ (is_at marks.old.items n || is_at others.now n) }
{
    for (number, mark) in marks.iter_mut().enumerate() {
        *mark = *mark || others[number];
    }
}

// The marks of a selector that asks for no ancestors, which is asked only at the nodes in question.
fn marks_alone<N: Element>(
    alloc: Global,
    nodes: &[N],
    among: Option<&[bool]>,
    e: &Selector<'_>,
) -> Result<Vec<bool>, AllocError>
    ensures { has_combinator (selector e.now) ≡ false
        → IfOk result (λ marks. AreMarks (option_copied among.entry) (selector e.now)
        (map N.node nodes.now) marks.items) }
{
    let mut marks = Vec::with_capacity(alloc, nodes.len())?;
    for (number, node) in nodes.iter().enumerate() {
        marks.push(is_among(among, number) && holds_alone(e, node))?;
    }
    Ok(marks)
}

// Whether the selector asks for no ancestors and holds at no node.
fn matches_nowhere<N: Element>(e: &Selector<'_>, nodes: &[N]) -> bool
    ensures { result ≡ true → (n : ℕ) → Holds (map N.node nodes.now) (selector e.now) n → ⊥ }
{
    if has_combinator(e) {
        return false;
    }
    match first_alone(e, nodes) {
        Some(_) => false,
        None => true,
    }
}

// Whether it is a joint of which one side holds at no node, as is seen without a mark.
fn is_empty_join<N: Element>(e: &Selector<'_>, nodes: &[N]) -> bool
    ensures { result ≡ true → (n : ℕ) → Holds (map N.node nodes.now) (selector e.now) n → ⊥ }
{
    match e {
        Selector::Descendant(a, b) | Selector::Parent(a, b) => {
            matches_nowhere(a, nodes) || matches_nowhere(b, nodes)
        }
        _ => false,
    }
}

// The selectors that stand in one another as first sides, from the outermost on, and the innermost
// that is looked at: one without sides, or a joint that holds nowhere.
fn spine_to_test<'e, 'a, N: Element>(
    alloc: Global,
    nodes: &[N],
    e: &'e Selector<'a>,
) -> Result<(Vec<&'e Selector<'a>>, &'e Selector<'a>), AllocError>
    ensures whole { IfOk result (λ way. nested_in (selectors way.0.items) (selector way.1.now)
        ≡ selector e.entry.now) }
    ensures innermost { IfOk result (λ way. has_sides (selector way.1.now) ≡ true → (n : ℕ)
        → Holds (map N.node nodes.now) (selector way.1.now) n → ⊥) }
    ensures depth { IfOk result (λ way. All (λ x. size-Selector x.now
        ≤ size-Selector e.entry.now) way.0.items) }
{
    let mut wholes = Vec::new(alloc);
    let mut first = e;
    'inwards: while !is_empty_join(first, nodes) {
        match first {
            Selector::And(a, _) => {
                wholes.push(first)?;
                first = a;
            }
            Selector::Or(a, _) => {
                wholes.push(first)?;
                first = a;
            }
            Selector::Descendant(a, _) => {
                wholes.push(first)?;
                first = a;
            }
            Selector::Parent(a, _) => {
                wholes.push(first)?;
                first = a;
            }
            _ => return Ok((wholes, first)),
        }
    }
    Ok((wholes, first))
}

// The marks of one that has no sides, or holds nowhere.
fn marks_innermost<N: Element>(
    alloc: Global,
    nodes: &[N],
    e: &Selector<'_>,
) -> Result<Vec<bool>, AllocError>
    requires { has_sides (selector e.now) ≡ true → (n : ℕ)
        → Holds (map N.node nodes.now) (selector e.now) n → ⊥ }
    ensures { IfOk result (λ marks. AreMarks None (selector e.now)
        (map N.node nodes.now) marks.items) }
{
    if has_sides(e) {
        return vec![in alloc; false; nodes.len()];
    }
    marks_alone(alloc, nodes, None, e)
}

// The marks of a selector from those of its first side. Where both sides have to hold the second is
// asked only where the first holds.
#[cycle(marks)]
fn marks_around<N: Element>(
    alloc: Global,
    nodes: &[N],
    mut first: Vec<bool>,
    e: &Selector<'_>,
) -> Result<Vec<bool>, AllocError>
    requires { length first.items ≡ length nodes.now }
    ensures { (a : SelectorOf) → AreMarks None a (map N.node nodes.now) first.items
        → IfOk result (λ marks. AreMarks None (with_first (selector e.now) a)
        (map N.node nodes.now) marks.items) }
{
    match e {
        Selector::And(_, b) => marks(alloc, nodes, Some(&first), b),
        Selector::Or(_, b) => {
            let second = marks(alloc, nodes, None, b)?;
            union_with(&mut first, &second);
            Ok(first)
        }
        Selector::Descendant(_, b) => {
            let lower = descendants_of_set(alloc, nodes, &first)?;
            marks(alloc, nodes, Some(&lower), b)
        }
        Selector::Parent(_, b) => {
            let lower = children_of_set(alloc, nodes, &first)?;
            marks(alloc, nodes, Some(&lower), b)
        }
        _ => Ok(first),
    }
}

// The marks of a selector, where every node is in question: first of the innermost of its first
// sides, then of what that stands in, from the inside out.
#[cycle(marks)]
fn marks_of_all<N: Element>(
    alloc: Global,
    nodes: &[N],
    e: &Selector<'_>,
) -> Result<Vec<bool>, AllocError>
    ensures { IfOk result (λ marks. AreMarks None (selector e.now)
        (map N.node nodes.now) marks.items) }
{
    let (mut wholes, first) = spine_to_test(alloc, nodes, e)?;
    let mut marks = marks_innermost(alloc, nodes, first)?;
    'outwards: while let Some(whole) = wholes.pop() {
        marks = marks_around(alloc, nodes, marks, whole)?;
    }
    Ok(marks)
}

/// A mark for each node in question where the selector holds. In question are the nodes that
/// `among` marks, and where it is `None` all.
#[cycle(marks)]
pub fn marks<N: Element>(
    alloc: Global,
    nodes: &[N],
    among: Option<&[bool]>,
    e: &Selector<'_>,
) -> Result<Vec<bool>, AllocError>
    ensures { IfOk result (λ marks. AreMarks (option_copied among.entry) (selector e.now)
        (map N.node nodes.now) marks.items) }
{
    if !has_sides(e) {
        return marks_alone(alloc, nodes, among, e);
    }
    let mut marks = marks_of_all(alloc, nodes, e)?;
    retain_among(&mut marks, among);
    Ok(marks)
}
