//! Laws of what is asked for.
ghost use Rattle.std.specs.Prelude.{◌≡◌, List, true};
ghost use Rattle.std.specs.List.{list_all};
ghost use Rattle.tl_html_spec.specs.Pieces.{Piece};
ghost use Rattle.tl_patch_edit.specs.Seams.{AreSeparated, changes_none};
ghost use Rattle.tl_patch_spec.specs.Patches.{Put};
ghost use Rattle.tl_patch_spec.specs.Splices.{Splice};

/// Where no tag of the page changes, splices that are asked for, with separators exactly where they
/// have to stand, are the only ones.
#[tactic(auto, using(crate::proofs::Single::one_list))]
pub fn splices_are_the_only_ones()
    ensures { (ps : List Piece) (asks : List (Splice Put)) (splices others : List (Splice Piece)) →
        list_all changes_none asks ≡ true → AreSeparated ps asks splices →
        AreSeparated ps asks others → splices ≡ others }
{}
