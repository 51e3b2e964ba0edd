//! Worked rows: pages cut into pieces.

ghost use Rattle.std.specs.Prelude.{◌≡◌, ◌∷◌, [], codes};
ghost use Rattle.tl_html_spec.specs.Examples.{cut, places};

/// A page cut where the tokenizer is at rest, characters joined, and where the pieces stand.
#[tactic(auto, unfolding(crate::specs::Reader::read, crate::specs::Reader::rest_before))]
pub fn cuts()
    ensures tags { cut "a<b c=d>e</b>" ≡ codes "a" ∷ codes "<b c=d>" ∷ codes "e" ∷ codes "</b>"
        ∷ [] }
    ensures pending { cut "AT&am<b>p;" ≡ codes "AT&am" ∷ codes "<b>" ∷ codes "p;" ∷ [] }
    ensures less { cut "<<b>" ≡ codes "<" ∷ codes "<b>" ∷ [] }
    ensures nothing { cut "a</>b<c" ≡ codes "a" ∷ codes "</>" ∷ codes "b" ∷ codes "<c" ∷ [] }
    ensures title { cut "<title>a<b</title>" ≡ codes "<title>" ∷ codes "a<b" ∷ codes "</title>"
        ∷ [] }
    ensures comment { cut "<!--a-->b" ≡ codes "<!--a-->" ∷ codes "b" ∷ [] }
    ensures where_they_stand { places "a<b c=d>e</b>" ≡ 0 ∷ 1 ∷ 8 ∷ 9 ∷ [] }
{}
