//! Worked rows: the bytes that elements have, and which elements can't be changed.

ghost use Rattle.std.specs.Prelude.{[], ◌∷◌, ◌≡◌};
ghost use Rattle.tl_patch_edit.specs.Examples.{filled, from_to, refused_of, stretches_in, tail_in, unstarted_of};
ghost use Rattle.tl_patch_edit.specs.declared.error.EditError.TheVariants.{NoStartTag, NotMeant};
ghost use Rattle.tl_patch_spec.specs.Patches.{Remove};

/// From the start tag up to the end, behind the element's own end tag.
#[tactic(auto, unfolding(tl_html_spec::specs::Reader::read, tl_html_spec::specs::Reader::rest_before))]
pub fn bytes_of_elements()
    ensures own_end_tag { stretches_in "<b>a</b>c" ≡ from_to 0 8 ∷ [] }
    ensures left_out { stretches_in "<p>a<p>b" ≡ from_to 0 4 ∷ from_to 4 8 ∷ [] }
    ensures alone { stretches_in "a<br>b" ≡ from_to 1 5 ∷ [] }
    ensures across { stretches_in "<b><i>a</b>" ≡ from_to 3 7 ∷ from_to 0 11 ∷ [] }
    ensures up_to_the_tail { stretches_in "<body><p>a</body> "
        ≡ from_to 6 10 ∷ from_to 0 17 ∷ [] }
    ensures tail { tail_in "<body>a</body> " ≡ 7 }
    ensures no_tail { tail_in "<p>a" ≡ 4 }
{}

/// Places at which no start tag begins: also those that stand behind a greater one.
#[tactic(auto, unfolding(tl_html_spec::specs::Reader::read, tl_html_spec::specs::Reader::rest_before))]
pub fn places_without_a_start_tag()
    ensures between { unstarted_of "<p>a<p>b" (0 ∷ 3 ∷ 4 ∷ []) ≡ 3 ∷ [] }
    ensures out_of_order { unstarted_of "<p>a<p>b" (4 ∷ 0 ∷ []) ≡ 0 ∷ [] }
    ensures comment { unstarted_of "<!--<b>" (0 ∷ 4 ∷ []) ≡ 0 ∷ 4 ∷ [] }
{}

/// Elements that can't be changed so, unless they go with another one.
#[tactic(auto, unfolding(tl_html_spec::specs::Reader::read, tl_html_spec::specs::Reader::rest_before))]
pub fn elements_that_are_refused()
    ensures alone { refused_of "a<br>b" filled (1 ∷ 2 ∷ []) ≡ NotMeant 1 ∷ NoStartTag 2 ∷ [] }
    ensures unclosed { refused_of "<b><i>x</b>" Remove (3 ∷ []) ≡ NotMeant 3 ∷ [] }
    ensures gone { refused_of "<b><i>x</b>" Remove (0 ∷ 3 ∷ []) ≡ [] }
{}
