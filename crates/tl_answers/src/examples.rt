//! Worked rows: the source of elements.
ghost use Rattle.std.specs.Prelude.{None, Some, [], codes, ◌∷◌, ◌≡◌};
ghost use Rattle.tl_answers.specs.SourceLines.{end_from, source_from};
ghost use Rattle.tl_patch_edit.specs.Examples.{from_to};

/// Where an element ends that begins at a byte, the last of several, and what is written of it.
pub fn sources()
    ensures end { end_from (from_to 0 8 ∷ []) 0 ≡ Some 8 }
    ensures elsewhere { end_from (from_to 0 8 ∷ []) 1 ≡ None }
    ensures last { end_from (from_to 0 8 ∷ from_to 3 7 ∷ from_to 0 9 ∷ []) 0 ≡ Some 9 }
    ensures line { source_from (codes "!") (codes "<b>a</b>c") (from_to 0 8 ∷ []) 0
        ≡ codes "<b>a</b>!" }
    ensures inner { source_from (codes "!") (codes "<b>a</b>c") (from_to 3 4 ∷ []) 3
        ≡ codes "a!" }
    ensures nothing { source_from (codes "!") (codes "<b>a</b>c") (from_to 0 8 ∷ []) 1 ≡ [] }
{}
