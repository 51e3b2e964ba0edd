//! How the nodes of a table are looked at one by one.
ghost use Rattle.std.specs.Prelude.{◌≡◌, ◌↔◌, ◌≤◌, ℕ, false, length, map, IsTrue, IsOk, IfOk};
ghost use Rattle.tl_spec.specs.Select.Meaning.{Holds, has_combinator};
ghost use Rattle.tl_selector.specs.NodeTest.{is_found, IsFirst, IsOfOnePart};
ghost use Rattle.tl_selector.specs.View.{selector as selector_of};

use crate::matching::scan::first_alone;
use crate::node_set::{is_marked, marks};
use crate::selector::Selector;
use crate::selector::spine::has_combinator;
use std::alloc::{AllocError, Global};
use tl_table::element::Element;

/// Which nodes are found.
#[derive(Debug, Drop)]
pub enum Test<'s> {
    /// Those where the selector holds, which asks for no ancestors.
    Alone(Selector<'s>),
    /// Those with a mark.
    Marked(Vec<bool>),
}

/// The test that finds the nodes where a selector holds.
pub fn test_of<'s, N: Element>(
    alloc: Global,
    selector: Selector<'s>,
    nodes: &[N],
) -> Result<Test<'s>, AllocError>
    ensures tells { IfOk result (λ test. (n : ℕ)
        → IsTrue (is_found test (map N.node nodes.now) n)
        ↔ Holds (map N.node nodes.now) (selector_of selector.entry) n) }
    ensures alone { has_combinator (selector_of selector.entry) ≡ false → IsOk result }
{
    if has_combinator(&selector) {
        Ok(Test::Marked(marks(alloc, nodes, None, &selector)?))
    } else {
        Ok(Test::Alone(selector))
    }
}

/// The first number from `from` on, and below `to`, whose node is found.
pub fn first_found<N: Element>(
    test: &Test<'_>,
    nodes: &[N],
    from: usize,
    to: usize,
) -> Option<usize>
    requires { to ≤ length nodes.now }
    ensures { IsFirst (is_found test.now (map N.node nodes.now)) from to result }
{
    match test {
        Test::Alone(e) => Some(from + first_alone(e, nodes.get(from..to)?)?),
        Test::Marked(marked) => (from..to).find(|number| is_marked(marked, *number)),
    }
}

impl<'s> Clone for Test<'s> {
    ghost use Rattle.tl_spec.specs.Tree.Document.{Node};
    ghost use Rattle.std.specs.Prelude.{List};

    ghost is_clone = { λ x y. (nodes : List Node) (n : ℕ) →
        is_found y nodes n ≡ is_found x nodes n };

    ghost is_infallible = { IsOfOnePart };

    fn clone(&self) -> Result<Test<'s>, AllocError> {
        Ok(match self {
            Test::Alone(e) => Test::Alone(e.clone()?),
            Test::Marked(marked) => Test::Marked(marked.clone()?),
        })
    }
}
