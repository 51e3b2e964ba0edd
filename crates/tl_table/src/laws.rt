//! Laws of the way along last children.
ghost use Rattle.std.specs.Prelude.{ℕ, List, Option};
ghost use Rattle.tl_table.specs.Inner.Way.{Rises};
ghost use Rattle.tl_spec.specs.Tree.Document.{Node};
ghost use Rattle.tl_spec.specs.Tree.Order.{ChildrenFollowParents};

/// Where the children of all nodes stand above their parents, as in a document just read, each way
/// rises.
#[tactic(auto, using(crate::proofs::Way::all_rise))]
pub fn ways_rise()
    ensures { (nodes : List Node) → ChildrenFollowParents nodes → (last : Option ℕ) →
        Rises nodes last }
{}
