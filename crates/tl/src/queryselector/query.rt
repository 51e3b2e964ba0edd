//! Queries by a selector text, of a document and below a tag.
ghost use Rattle.std.specs.Prelude.{◌≡◌, Err, IfOk, IfErr, IfSome, IsOk, Ok, None, false, length, map};
ghost use Rattle.std.specs.Result.{result_err};
ghost use Rattle.tl_table.specs.Answer.{WantsNoMemory};
ghost use Rattle.tl_table.specs.TreeFault.{IsRefusal, error_of};
ghost use Rattle.tl_table.specs.Inner.Way.{RisesBelow};
ghost use Rattle.tl_table.specs.declared.errors.TreeError.TheVariants.{OutOfMemory};
ghost use Rattle.tl_selector.specs.MissingSimple.{LacksFirst, LacksSecond};
ghost use Rattle.tl_selector.specs.View.{selector as selector_of};
ghost use Rattle.tl_spec.specs.Walk.Range.{range_of};
ghost use Rattle.tl_spec.specs.Select.Meaning.{AreMatches, has_combinator};
ghost use Rattle.tl_spec.specs.Select.Selector.{Selector as SelectorOf};
ghost use Rattle.tl_spec.specs.Select.Text.{IsSelectorText, StandsAlone};
ghost use Rattle.tl.specs.Query.{AreIn, FindsMatches};
ghost use Rattle.tl.specs.View.{node_view};

use crate::errors::TreeError;
use crate::parser::base::Parser;
use crate::parser::tag::HTMLTag;
use crate::queryselector::iterator::QuerySelectorIterator;
use crate::vdom::VDom;
use std::alloc::Global;
use tl_selector::parser::parse_query_selector;
use tl_selector::selector::Selector;

impl<'a> VDom<'a> {
    /// The nodes of the document where a selector holds, rising; None where the text stands for no
    /// selector.
    #[tactic(auto, using(tl_spec::proofs::Select::Text::alone_without_joint))]
    pub fn query_selector<'b>(
        &'b self,
        alloc: Global,
        selector: &'b str,
    ) -> Result<Option<QuerySelectorIterator<'a, 'b>>, TreeError>
        ensures ok { IfOk result (FindsMatches selector.now
            (λ e. AreMatches (map node_view self.now.nodes) e 0 (length self.now.nodes))) }
        ensures err { IfErr result (λ error. error ≡ OutOfMemory) }

        // A selector of one simple part takes no memory.
        ensures alone { StandsAlone selector.now → IsOk result }

        // Nor does a text take any that lacks its first part, or the second: no want of memory
        // hides that it is no selector.
        ensures no_part { LacksFirst selector.now → result ≡ Ok None }
        ensures bad { LacksSecond selector.now → result ≡ Ok None }
    {
        let Some(selector) = parse_query_selector(alloc, selector)? else {
            return Ok(None);
        };
        let len = self.nodes().len();
        let found = QuerySelectorIterator::between(selector, self.parser(), 0, len)?;
        Ok(Some(found))
    }
}

impl<'a> HTMLTag<'a> {
    // The nodes in the range of the tag where a selector holds.
    fn matches_in_range<'b>(
        &self,
        parser: &'b Parser<'a>,
        selector: Selector<'b>,
    ) -> Result<QuerySelectorIterator<'a, 'b>, TreeError>
        ensures ok { IfOk result (AreIn (map node_view parser.now.nodes)
            (range_of (map node_view parser.now.nodes) self.now.children.items)
            (selector_of selector.entry)) }
        ensures err { IfErr result (IsRefusal
            (result_err (range_of (map node_view parser.now.nodes) self.now.children.items))) }

        // Want of memory hides no fault that is found without memory.
        ensures fault { let nodes = map node_view parser.now.nodes in
            RisesBelow nodes self.now.children.items
            → IfSome (result_err (range_of nodes self.now.children.items))
            (λ fault. result ≡ Err (error_of fault)) }
        ensures memory { has_combinator (selector_of selector.entry) ≡ false
            → RisesBelow (map node_view parser.now.nodes) self.now.children.items
            → WantsNoMemory result }
    {
        let range = self.children().range(parser)?;
        let found = QuerySelectorIterator::between(selector, parser, range.start, range.end)?;
        Ok(found)
    }

    /// The nodes in the range of the tag where a selector holds, rising; None where the text stands
    /// for no selector, which is looked at before the range. All nodes of the table count as
    /// ancestors.
    #[tactic(auto, using(tl_spec::proofs::Select::Text::alone_without_joint))]
    pub fn query_selector<'b>(
        &self,
        alloc: Global,
        parser: &'b Parser<'a>,
        selector: &'b str,
    ) -> Result<Option<QuerySelectorIterator<'a, 'b>>, TreeError>
        ensures ok { IfOk result (FindsMatches selector.now
            (AreIn (map node_view parser.now.nodes)
            (range_of (map node_view parser.now.nodes) self.now.children.items))) }
        ensures err { IfErr result (IsRefusal
            (result_err (range_of (map node_view parser.now.nodes) self.now.children.items))) }

        // Where the text stands for no selector, no fault of the range is looked at.
        ensures outside { ((e : SelectorOf) → IsSelectorText selector.now e → ⊥)
            → IfErr result (λ error. error ≡ OutOfMemory) }

        // A selector of one simple part takes no memory, nor does a way along last children that
        // rises.
        ensures memory { StandsAlone selector.now
            → RisesBelow (map node_view parser.now.nodes) self.now.children.items
            → WantsNoMemory result }

        // So want of memory hides no fault of the range there.
        ensures fault { let nodes = map node_view parser.now.nodes in
            StandsAlone selector.now
            → RisesBelow nodes self.now.children.items
            → IfSome (result_err (range_of nodes self.now.children.items))
            (λ fault. result ≡ Err (error_of fault)) }

        // Nor does a text take any that lacks its first part, or the second: no want of memory
        // hides that it is no selector.
        ensures no_part { LacksFirst selector.now → result ≡ Ok None }
        ensures bad { LacksSecond selector.now → result ≡ Ok None }
    {
        let Some(parsed) = parse_query_selector(alloc, selector)? else {
            return Ok(None);
        };
        let found = self.matches_in_range(parser, parsed)?;
        Ok(Some(found))
    }
}
