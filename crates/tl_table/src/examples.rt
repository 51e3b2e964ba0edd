//! Worked rows: what stands behind a number in a row, and the links by rows of children.
ghost use Rattle.std.specs.Prelude.{◌≡◌, [], ◌∷◌, None, Some};
ghost use Rattle.tl_table.specs.Links.{behind, links_in, top_links};

pub fn rows()
    ensures first { behind 3 (3 ∷ 7 ∷ []) ≡ Some (Some 7) }
    ensures last { behind 7 (3 ∷ 7 ∷ []) ≡ Some None }
    ensures nowhere { behind 5 (3 ∷ 7 ∷ []) ≡ None }
    ensures twice { behind 3 (3 ∷ 7 ∷ 3 ∷ []) ≡ Some (Some 7) }
{}

pub fn parents()
    ensures child { links_in 0 ((1 ∷ 2 ∷ []) ∷ [] ∷ (3 ∷ []) ∷ [] ∷ []) 1
        ≡ Some (record { parent = Some 0; next = Some 2 }) }
    ensures only_child { links_in 0 ((1 ∷ 2 ∷ []) ∷ [] ∷ (3 ∷ []) ∷ [] ∷ []) 3
        ≡ Some (record { parent = Some 2; next = None }) }
    ensures no_child { links_in 0 ((1 ∷ 2 ∷ []) ∷ [] ∷ (3 ∷ []) ∷ [] ∷ []) 0 ≡ None }
    ensures of_two { links_in 0 ([] ∷ (2 ∷ []) ∷ (2 ∷ 1 ∷ []) ∷ []) 2
        ≡ Some (record { parent = Some 1; next = None }) }
    ensures top { top_links (0 ∷ 4 ∷ []) 0 ≡ record { parent = None; next = Some 4 } }
{}
