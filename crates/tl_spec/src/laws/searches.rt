//! Laws of the search for the nodes of a selector.

ghost use Rattle.std.specs.Prelude.{◌≡◌, ◌↔◌, ℕ, true, List};
ghost use Rattle.tl_spec.specs.Tree.Document.{Node};
ghost use Rattle.tl_spec.specs.Select.Selector.{Selector};
ghost use Rattle.tl_spec.specs.Select.Meaning.{HoldsAlone, Holds, AreMatches};
ghost use Rattle.tl_spec.specs.Select.Search.{holds_alone, holds, matches_between};

/// The search says where a selector holds; so the nodes between two numbers where it does are one
/// list, and can be computed.
pub fn selector_search()
    ensures alone { (e : Selector) (node : Node) → (holds_alone e node ≡ true) ↔ HoldsAlone e node }
    ensures among { (nodes : List Node) (e : Selector) (n : ℕ) →
        (holds nodes e n ≡ true) ↔ Holds nodes e n }
    ensures between { (nodes : List Node) (e : Selector) (from to : ℕ) (ns : List ℕ) →
        AreMatches nodes e from to ns ↔ (ns ≡ matches_between nodes e from to) }
{}
