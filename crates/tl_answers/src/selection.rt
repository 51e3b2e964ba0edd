//! What is written of the nodes where a selector holds.
ghost use Rattle.std.specs.Prelude.{IfOk, List, ℕ, ◌≡◌};
ghost use Rattle.tl_answers.specs.Answers.{AreAsked, Matches, but_of, front, listing_of};
ghost use Rattle.tl_answers.specs.Findings.{finding_of};
ghost use Rattle.tl_answers.specs.LeftOut.{AreLeftOut};
ghost use Rattle.tl_dom_spec.specs.HtmlForest.{HtmlForest};
ghost use Rattle.tl_tree.specs.Rows.{rows_of};
ghost use Rattle.tl_tree.specs.Sources.{source_at};
ghost use Rattle.tl_tree.specs.TreeView.{rows_in};
ghost use Rattle.tl_tree_select.specs.Page.{page_of};

use crate::field::Field;
use crate::left_out::left_out;
use crate::lines::{comments_inside, count_line, field_lines, readable_lines};
use crate::objects::{object_array, object_lines};
use crate::output::Output;
use crate::places::placed_lines;
use crate::records::{Records, record_lines};
use crate::sources::source_lines;
use std::alloc::{AllocError, Global};
use tl_css::Selector;
use tl_tree::Tree;
use tl_tree_extract::JsonForm;
use tl_tree_select::select;

/// What is written of the nodes where a selector holds.
#[derive(Clone, Copy)]
pub enum Listing<'w> {
    /// A field of each.
    Fields(Field<'w>),
    /// The same behind the line and the column where it begins.
    Placed(Field<'w>),
    /// The readable text inside each, which may be empty, but for what is in nodes where a selector
    /// holds, if one is said.
    Readable(Option<&'w Selector>),
    /// The comments below each.
    Comments,
    /// The bytes of the page that the tags of each enclose.
    Sources,
    /// Values of each in columns.
    Records(Records<'w>),
    /// How many there are.
    Count,
    /// An array of JSON, with an object for each.
    Objects(JsonForm),
    /// An object of JSON for each on a line of its own, which says its file.
    Lines(JsonForm, &'w str),
}

/// Which nodes are looked for, and what is written of them.
#[derive(Clone, Copy)]
pub struct Query<'w> {
    pub selector: &'w Selector,
    /// How many nodes at most are meant, the first; all where it isn't said.
    pub most: Option<u32>,
    pub listing: Listing<'w>,
}

// The first of these numbers, at most so many.
#[tactic(auto, using(std::proofs::lemmas::List::take_all))]
fn front(numbers: &[usize], most: Option<u32>) -> &[usize]
    ensures { result.now ≡ front most numbers.now }
{
    match most {
        Some(most) if (most as usize) < numbers.len() => &numbers[..most as usize],
        _ => numbers,
    }
}

// What is written of the nodes of these numbers.
fn list(
    alloc: Global,
    tree: &Tree<'_>,
    numbers: &[usize],
    listing: &Listing<'_>,
    end: &str,
    page: &[u8],
) -> Result<Output, AllocError>
    ensures { (trees : HtmlForest) (out : List ℕ) → rows_in tree.now ≡ rows_of trees →
        AreLeftOut (but_of listing.now) (page_of tree.now) out → IfOk result
        (λ output. finding_of output
        ≡ listing_of listing.now end.now trees (source_at tree.now) page.now numbers.now out) }
{
    match listing {
        Listing::Fields(field) => field_lines(alloc, tree, numbers, *field, end),
        Listing::Placed(field) => placed_lines(alloc, tree, page, numbers, *field, end),
        Listing::Readable(but) => {
            let marks = left_out(alloc, tree, *but)?;
            readable_lines(alloc, tree, &marks, numbers)
        }
        Listing::Comments => comments_inside(alloc, tree, numbers, end),
        Listing::Sources => source_lines(alloc, tree, page, numbers, end),
        Listing::Records(own) => record_lines(alloc, tree, numbers, *own),
        Listing::Count => count_line(alloc, numbers.len(), end),
        Listing::Objects(form) => object_array(alloc, tree, numbers, *form, end),
        Listing::Lines(form, file) => object_lines(alloc, tree, numbers, *form, file),
    }
}

/// What is written of the nodes of the tree of a page where a selector holds.
pub(crate) fn selection(
    alloc: Global,
    tree: &Tree<'_>,
    query: &Query<'_>,
    end: &str,
    page: &[u8],
) -> Result<Output, AllocError>
    ensures { (trees : HtmlForest) (m : Matches) → rows_in tree.now ≡ rows_of trees →
        let query = query.now in AreAsked query (page_of tree.now) m
        → IfOk result (λ output. finding_of output ≡ listing_of query.listing end.now trees
        (source_at tree.now) page.now (front query.most m.found) m.left_out) }
{
    let numbers = select(alloc, tree, query.selector)?;
    let meant = front(&numbers, query.most);
    list(alloc, tree, meant, &query.listing, end, page)
}
