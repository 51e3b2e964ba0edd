//! Laws of the ranges of descendants, and worked rows.

ghost use Rattle.std.specs.Prelude.{◌≡◌, ℕ, Option, List, [], ◌∷◌, codes, None, Some, Ok, Err, option_map, slice_get};
ghost use Rattle.std.specs.List.{last_or};
ghost use Rattle.tl_spec.specs.Tree.Document.{Node, document};
ghost use Rattle.tl_spec.specs.Edit.{Pulls, Pushes};
ghost use Rattle.tl_spec.specs.Tree.Element.{children_of, last_child_of};
ghost use Rattle.tl_spec.specs.Walk.Range.{end_below, step_end, last_below, boundaries_of, range_of, walk_end, AreRangesOfDescendants};
ghost use Rattle.tl_spec.specs.Examples.{nodes_after, nodes_of};
ghost use Rattle.tl_spec.specs.Walk.{Dangling, Cycle, all_tags, walk};

/// The way along last children goes step by step.
#[tactic(auto, using(crate::proofs::Walk::Ranges::laws))]
pub fn end_by_step()
    ensures { (nodes : List Node) (path : List ℕ) (last : Option ℕ) →
        end_below nodes path last ≡ step_end nodes (end_below nodes) path last }
{}

/// It ends where the last path of the full walk does.
#[tactic(auto, using(crate::proofs::Walk::Ranges::laws))]
pub fn end_of_the_walk()
    ensures { (nodes : List Node) (children : List ℕ) →
        last_below nodes (last_or None children) ≡ walk_end None (walk all_tags nodes [] children) }
{}

/// In a document just read the range of a tag's children is the interval of its descendants.
#[tactic(auto, using(crate::proofs::Walk::Ranges::laws))]
pub fn ranges_are_descendants()
    ensures { (t : List ℕ) → AreRangesOfDescendants (document t).nodes }
{}

/// The boundaries and the range of what hangs below a tag, and below one without children.
pub fn nested_range()
    ensures end { let nodes = nodes_of "abc <p>test<span>a</span></p> def" in
        option_map (λ node. last_below nodes (last_child_of node)) (slice_get nodes 1)
        ≡ Some (Ok (Some 4)) }
    ensures boundaries { let nodes = nodes_of "abc <p>test<span>a</span></p> def" in
        option_map (λ node. boundaries_of nodes (children_of node)) (slice_get nodes 1)
        ≡ Some (Ok (Some (2, 4))) }
    ensures range { let nodes = nodes_of "abc <p>test<span>a</span></p> def" in
        option_map (λ node. range_of nodes (children_of node)) (slice_get nodes 1)
        ≡ Some (Ok (2, 5)) }
    ensures childless { let nodes = nodes_of "abc <p>test<span>a</span></p> def" in
        option_map (λ node. range_of nodes (children_of node)) (slice_get nodes 4)
        ≡ Some (Ok (0, 0)) }
    ensures unbounded { let nodes = nodes_of "abc <p>test<span>a</span></p> def" in
        option_map (λ node. boundaries_of nodes (children_of node)) (slice_get nodes 4)
        ≡ Some (Ok None) }
{}

/// A tag that is a child of its own child: the way comes back to where it began.
pub fn range_of_a_cycle()
    ensures outer { let nodes = nodes_after (Pushes 1 0 ∷ []) "<a><b></b></a>" in
        option_map (λ node. last_below nodes (last_child_of node)) (slice_get nodes 0)
        ≡ Some (Err (Cycle 1)) }
    ensures inner { let nodes = nodes_after (Pushes 1 0 ∷ []) "<a><b></b></a>" in
        option_map (λ node. last_below nodes (last_child_of node)) (slice_get nodes 1)
        ≡ Some (Err (Cycle 0)) }
    ensures range { let nodes = nodes_after (Pushes 1 0 ∷ []) "<a><b></b></a>" in
        option_map (λ node. range_of nodes (children_of node)) (slice_get nodes 0)
        ≡ Some (Err (Cycle 1)) }
{}

/// A first child that the table lacks is not looked up, and a last one is.
pub fn range_of_a_dangling_child()
    ensures first { let nodes = nodes_after (Pulls 0 0 ∷ Pushes 0 9 ∷ Pushes 0 1 ∷ [])
        "<a><b></b></a>" in
        option_map (λ node. boundaries_of nodes (children_of node)) (slice_get nodes 0)
        ≡ Some (Ok (Some (9, 1))) }
    ensures range { let nodes = nodes_after (Pulls 0 0 ∷ Pushes 0 9 ∷ Pushes 0 1 ∷ [])
        "<a><b></b></a>" in
        option_map (λ node. range_of nodes (children_of node)) (slice_get nodes 0)
        ≡ Some (Ok (0, 0)) }
    ensures last { let nodes = nodes_after (Pushes 0 9 ∷ []) "<a><b></b></a>" in
        option_map (λ node. boundaries_of nodes (children_of node)) (slice_get nodes 0)
        ≡ Some (Err (Dangling 9)) }
{}

/// A last child below the first: the boundaries are told, and the range is empty.
pub fn reversed_range()
    ensures boundaries { let nodes = nodes_after (Pulls 0 0 ∷ Pulls 0 0 ∷ Pushes 0 1 ∷ [])
        "<a><b></b><c></c><d></d></a>" in
        option_map (λ node. boundaries_of nodes (children_of node)) (slice_get nodes 0)
        ≡ Some (Ok (Some (3, 1))) }
    ensures range { let nodes = nodes_after (Pulls 0 0 ∷ Pulls 0 0 ∷ Pushes 0 1 ∷ [])
        "<a><b></b><c></c><d></d></a>" in
        option_map (λ node. range_of nodes (children_of node)) (slice_get nodes 0)
        ≡ Some (Ok (0, 0)) }
    ensures next_to_each_other { let nodes = nodes_after (Pulls 0 0 ∷ Pushes 0 2 ∷ Pushes 0 1 ∷ [])
        "<a><b></b></a><c></c>" in
        option_map (λ node. range_of nodes (children_of node)) (slice_get nodes 0)
        ≡ Some (Ok (0, 0)) }
{}
