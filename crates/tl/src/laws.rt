//! Laws of what calls answer together, and of what a loan for writing leaves; and those of the
//! definitions that a caller needs.
ghost use Rattle.std.specs.Prelude.{◌≡◌, ◌<◌, ◌^◌, All, List, None, Ok, Option, Some, ℕ, length, map, option_map, slice_get};
ghost use Rattle.std.specs.Option.{ForSome};
ghost use Rattle.tl_attributes.specs.AttributesView.{bytes_view, pair_view, plain};
ghost use Rattle.tl_attributes.specs.Inner.Listing.{listed};
ghost use Rattle.tl_bytes.specs.Held.{Kept};
ghost use Rattle.tl_tracking.specs.Options.{Options};
ghost use Rattle.tl_spec.specs.Lex.AttributeList.{Attributes, printed_pairs};
ghost use Rattle.tl_spec.specs.Tree.Document.{Node, document};
ghost use Rattle.tl_spec.specs.Tree.EveryNode.{HoldOfNode, IsCleanAlone, Tests};
ghost use Rattle.tl_spec.specs.Select.Selector.{Selector};
ghost use Rattle.tl_spec.specs.Select.Reading.{selector_at};
ghost use Rattle.tl_spec.specs.Select.Search.{matches_between};
ghost use Rattle.tl_spec.specs.Select.Text.{IsSelectorText};
ghost use Rattle.tl_spec.specs.Walk.Range.{range_of};
ghost use Rattle.tl_spec.specs.Lookup.Scan.{has_id, is_in_class, IsFirstPlace, ArePlaces};
ghost use Rattle.tl.specs.Lookup.{with_id, with_member};
ghost use Rattle.tl.specs.Query.{FindsBelow, FindsIn, matches_in};
ghost use Rattle.tl.specs.View.{document_of, node_view, HTMLNode, HTMLTable};
ghost use Rattle.tl.specs.Inner.TableLends.{with_node, with_nodes};
ghost use Rattle.tl.specs.Tracked.{AreAsked, AnswerIds, AnswerClasses};

pub mod walks;

pub use tl_spec::laws::nodes::{clean_nodes, nodes_of_a_walk, trees_of_the_normal_form};
pub use tl_spec::laws::ranges::{end_by_step, end_of_the_walk, ranges_are_descendants};
pub use tl_spec::laws::searches::selector_search;
pub use tl_spec::laws::selectors::{alone_is_a_selector, selector_text};
pub use tl_spec::laws::{
    document_order, document_size, document_walk, fresh_is_clean, node_print_then_parse, scans,
    siblings_by_rules, siblings_by_token, table_print_then_parse, token_stands, tokens_stand,
    trees_print_then_parse, walk_by_step,
};

/// What is looked up in a document that was just read is the first tag of the text with the id, and
/// all its tags with the class member, rising, whatever is tracked. The premises are what `parse`
/// ensures, and the answers those of the lookups.
pub fn lookups_find_tags_of_the_text()
    ensures id { (d : HTMLTable) (t : List ℕ) (id : Kept) → document_of d ≡ document t
        → AnswerIds d.tracking (document t).nodes →
        IsFirstPlace (has_id id.list) (document t).nodes (with_id d id) }
    ensures class { (d : HTMLTable) (t : List ℕ) (member : List ℕ) → document_of d ≡ document t
        → AnswerClasses d.tracking (document t).nodes →
        ArePlaces (is_in_class member) (document t).nodes (with_member d member) }
{}

/// Two documents that show the same nodes answer each lookup alike, whether they keep their text or
/// borrow it: just read, and after edits. The premises are that they were read with the same
/// options, and that their maps are of the same nodes; of one text `parse` and `parse_owned` ensure
/// both, and no edit of a node changes it.
pub fn lookups_answer_alike()
    ensures id { (d e : HTMLTable) (asked : Options) (read : List Node) (id : Kept)
        → (document_of d).nodes ≡ (document_of e).nodes →
        AreAsked asked d.tracking → AreAsked asked e.tracking → AnswerIds d.tracking read →
        AnswerIds e.tracking read →
        with_id d id ≡ with_id e id }
    ensures class { (d e : HTMLTable) (asked : Options) (read : List Node) (member : List ℕ)
        → (document_of d).nodes ≡ (document_of e).nodes →
        AreAsked asked d.tracking → AreAsked asked e.tracking → AnswerClasses d.tracking read →
        AnswerClasses e.tracking read →
        with_member d member ≡ with_member e member }
{}

/// What is written through the nodes that `nodes_mut` lends, whose number stays, is the nodes of
/// the document, and all else of it is as it was. So what holds of each node that was written holds
/// of the document's.
pub fn written_nodes()
    ensures document { (d : HTMLTable) (nodes : List HTMLNode) → length nodes ≡ length d.nodes →
        document_of (with_nodes d nodes) ≡ record (document_of d) { nodes = map node_view nodes } }
    ensures clean { (d : HTMLTable) (nodes : List HTMLNode) → length nodes ≡ length d.nodes →
        All (λ n. IsCleanAlone (node_view n)) nodes →
        All IsCleanAlone (document_of (with_nodes d nodes)).nodes }
    ensures hold { (d : HTMLTable) (nodes : List HTMLNode) (tests : Tests)
        → length nodes ≡ length d.nodes →
        All (λ n. HoldOfNode tests (node_view n)) nodes →
        All (HoldOfNode tests) (document_of (with_nodes d nodes)).nodes }

    // A node that is lent alone, and stays as it is, leaves all as it was.
    ensures same { (d : HTMLTable) (n : ℕ) (node : HTMLNode) → slice_get d.nodes n ≡ Some node →
        with_node d n node ≡ d }
{}

/// A query of a document finds all nodes where the selector of its text holds, and nothing where
/// the text is no selector's. The premise is what `query_selector` ensures. No more nodes are found
/// than there are.
pub fn queries_find()
    ensures some { (d : HTMLTable) (text : List ℕ) (found : Option (List ℕ)) (e : Selector)
        → FindsIn d text found → IsSelectorText text e →
        found ≡ Some (matches_in (document_of d) e) }
    ensures none { (d : HTMLTable) (text : List ℕ) (found : Option (List ℕ)) → FindsIn d text found
        → ((e : Selector) → IsSelectorText text e → ⊥) → found ≡ None }

    // What is found, by the plain reader of selector texts.
    ensures reading { (d : HTMLTable) (text : List ℕ) (found : Option (List ℕ)) →
        FindsIn d text found
        → found ≡ option_map (matches_in (document_of d)) (selector_at text) }
    ensures few { (d : HTMLTable) (text : List ℕ) (found : Option (List ℕ)) → FindsIn d text found
        → length d.nodes < 2 ^ 32 → ForSome found (λ numbers. length numbers < 2 ^ 32) }
{}

/// A query below a tag finds all nodes in the tag's range where the selector of its text holds, and
/// nothing where the text is no selector's. The premise is what `query_selector` of the tag
/// ensures. No more nodes are found than there are.
pub fn queries_below_find()
    ensures some { (nodes : List Node) (children text : List ℕ) (found : Option (List ℕ))
        (e : Selector) → FindsBelow nodes children text found → IsSelectorText text e →
        (range : ℕ × ℕ) × (range_of nodes children ≡ Ok range) ×
        (found ≡ Some (matches_between nodes e range.0 range.1)) }
    ensures none { (nodes : List Node) (children text : List ℕ) (found : Option (List ℕ)) →
        FindsBelow nodes children text found
        → ((e : Selector) → IsSelectorText text e → ⊥) → found ≡ None }
    ensures few { (nodes : List Node) (children text : List ℕ) (found : Option (List ℕ)) →
        FindsBelow nodes children text found
        → length nodes < 2 ^ 32 → ForSome found (λ numbers. length numbers < 2 ^ 32) }
{}

/// The attributes that `iter` gives are those that are printed, in this order.
pub fn attributes_in_order()
    ensures { (a : Attributes Kept) → map pair_view (listed bytes_view a)
        ≡ printed_pairs (plain a) }
{}
