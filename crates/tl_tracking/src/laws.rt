//! Laws of the definitions: what notes of one tag after the other come to.
//!
//! Where the maps answer as scans of some nodes do, after the notes of one more tag they answer as
//! scans of those and that tag; what ends and edits tags is seen by no scan (`scans_grow`).
ghost use Rattle.std.specs.Prelude.{◌≡◌, ◌↔◌, List, ℕ, ◌∷◌, [], ◌++◌, None};
ghost use Rattle.tl_spec.specs.Lookup.ClassMember.{members};
ghost use Rattle.tl_spec.specs.Tree.Document.{Node};
ghost use Rattle.tl_spec.specs.Lookup.Scan.{id_of, class_of, id_scan, class_scan};
ghost use Rattle.tl_tracking.specs.Tracking.{IdPairs, ClassPairs, TracksIds, TracksMembers, TracksClasses};

use tl_attributes::piece::Piece;

/// Before the first member of a tag the nodes before it are tracked, and after the last one that
/// tag as well.
#[tactic(auto, using(crate::proofs::Noted::laws))]
pub fn members_noted<B: Piece>()
    ensures first { (classes : ClassPairs B) (nodes : List Node) →
        TracksClasses B.list B.eq classes nodes ↔ TracksMembers B.list B.eq classes nodes [] }
    ensures last { (classes : ClassPairs B) (nodes : List Node) (node : Node) →
        TracksMembers B.list B.eq classes nodes (members (class_of node)) →
        TracksClasses B.list B.eq classes (nodes ++ node ∷ []) }
{}

/// A node without an id needs no note of one.
#[tactic(auto, using(crate::proofs::Noted::laws))]
pub fn id_missing<B: Piece>()
    ensures { (ids : IdPairs B) (nodes : List Node) (node : Node) → id_of node ≡ None →
        TracksIds B.list B.eq ids nodes → TracksIds B.list B.eq ids (nodes ++ node ∷ []) }
{}

/// What is tracked is that of all nodes where the scans find the same.
#[tactic(auto, using(crate::proofs::Noted::laws))]
pub fn same_scans<B: Piece>()
    ensures ids { (ids : IdPairs B) (nodes more : List Node) →
        ((id : List ℕ) → id_scan more id ≡ id_scan nodes id) →
        TracksIds B.list B.eq ids nodes → TracksIds B.list B.eq ids more }
    ensures classes { (classes : ClassPairs B) (nodes more : List Node) →
        ((member : List ℕ) → class_scan more member ≡ class_scan nodes member) →
        TracksClasses B.list B.eq classes nodes → TracksClasses B.list B.eq classes more }
{}
