//! The nodes that a query gives.
ghost use Rattle.std.specs.Prelude.{◌≡◌, ◌+◌, [], Err, IfOk, IfErr, IfSome, IsOk, Ok, false, length, map, unwrap_or};
ghost use Rattle.std.specs.Iterator.{at_most};
ghost use Rattle.std.specs.Map.Iter.{TakesFirst};
ghost use Rattle.std.specs.Result.{result_err};
ghost use Rattle.tl_table.specs.Answer.{WantsNoMemory};
ghost use Rattle.tl_table.specs.TreeFault.{IsRefusal, error_of};
ghost use Rattle.tl_selector.specs.View.{selector as selector_of};
ghost use Rattle.tl_spec.specs.Select.Meaning.{AreMatches, has_combinator};
ghost use Rattle.tl.specs.Query.{AreAmong};
ghost use Rattle.tl.specs.View.{node_view};

use crate::errors::TreeError;
use crate::parser::base::Parser;
use crate::parser::tag::node::Node;
use crate::queryselector::iterable::QueryIterable;
use std::alloc::AllocError;
use std::iter::FusedIterator;
use std::marker::Model;
use tl_selector::matches::{Matches, matches_between};
use tl_selector::selector::Selector;
use tl_table::handle::NodeHandle;

/// The handles of the nodes that a query gives, rising, seen as the list of those that are left. A
/// step takes no memory.
#[derive(Debug, Drop)]
pub struct QuerySelectorIterator<'a, 'b> {
    found: Matches<'b, 'b, Node<'a>>,
}

impl<'a, 'b> Model for QuerySelectorIterator<'a, 'b> {
    ghost use Rattle.std.specs.Prelude.{List, ℕ};

    ghost Value = { List ℕ };

    ghost view = { λ q. q.found };
}

impl<'a, 'b> QuerySelectorIterator<'a, 'b> {
    /// The nodes of a table at which the selector holds, among the numbers of a document or below a
    /// tag. What a selector that asks for ancestors needs is taken here.
    pub fn new<Q: QueryIterable<'a>>(
        selector: Selector<'b>,
        parser: &'b Parser<'a>,
        collection: &Q,
    ) -> Result<Self, TreeError>
        ensures ok { IfOk result (AreAmong (map node_view parser.now.nodes)
            (selector_of selector.entry) (Q.first collection.now)
            (Q.count collection.now (map node_view parser.now.nodes))) }
        ensures err { IfErr result (IsRefusal
            (result_err (Q.count collection.now (map node_view parser.now.nodes)))) }

        // Want of memory hides no fault that is found without memory,
        ensures fault { let nodes = map node_view parser.now.nodes in
            Q.counts_freely collection.now nodes
            → IfSome (result_err (Q.count collection.now nodes))
            (λ fault. result ≡ Err (error_of fault)) }

        // and a selector that asks for no ancestors takes no memory itself.
        ensures memory { has_combinator (selector_of selector.entry) ≡ false
            → Q.counts_freely collection.now (map node_view parser.now.nodes)
            → WantsNoMemory result }
    {
        let len = collection.len(parser)?;
        let start = collection.start().unwrap_or(0) as usize;
        Ok(Self::between(selector, parser, start, start + len)?)
    }

    // The nodes of these numbers at which the selector holds.
    pub(super) fn between(
        selector: Selector<'b>,
        parser: &'b Parser<'a>,
        from: usize,
        to: usize,
    ) -> Result<Self, AllocError>
        ensures ok { IfOk result (AreMatches (map node_view parser.now.nodes)
            (selector_of selector.entry) from to) }
        ensures alone { has_combinator (selector_of selector.entry) ≡ false → IsOk result }
    {
        let found = matches_between(parser.alloc(), selector, parser.nodes(), from, to)?;
        Ok(QuerySelectorIterator { found })
    }
}

impl<'a, 'b> Iterator for QuerySelectorIterator<'a, 'b> {
    type Item = NodeHandle;

    ghost next_gives = { TakesFirst (λ n. n) };

    ghost remaining = { λ s. at_most (length s) };

    fn next(&mut self) -> Option<NodeHandle> {
        self.found.next().map(NodeHandle::new)
    }
}

impl<'a, 'b> FusedIterator for QuerySelectorIterator<'a, 'b> {}

impl<'a, 'b> Clone for QuerySelectorIterator<'a, 'b> {
    ghost is_clone = { λ x y. y ≡ x };

    // At its end a clone takes no memory.
    ghost is_infallible = { λ q. q ≡ [] };

    fn clone(&self) -> Result<Self, AllocError> {
        let found = self.found.clone()?;
        Ok(QuerySelectorIterator { found })
    }
}
