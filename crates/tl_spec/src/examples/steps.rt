//! Worked rows: what texts of step lines say.

ghost use Rattle.std.specs.Prelude.{◌≡◌, [], ◌∷◌, ◌++◌, Some, None, codes};
ghost use Rattle.tl_spec.specs.Lex.ByteClass.{line_feed};
ghost use Rattle.tl_spec.specs.Edit.{Names, Texts, Comments, Sets, Flags, Unsets, Bares, Pushes, Pulls, Roots};
ghost use Rattle.tl_spec.specs.Edit.StepLine.{parse_changes};

/// Each of the ten forms.
pub fn forms_of_lines()
    ensures name { parse_changes (codes "name 0 p") ≡ Some (Names 0 (codes "p") ∷ []) }
    ensures text { parse_changes (codes "text 1 a b") ≡ Some (Texts 1 (codes "a b") ∷ []) }
    ensures comment { parse_changes (codes "comment 2 <!-- a -->")
        ≡ Some (Comments 2 (codes "<!-- a -->") ∷ []) }
    ensures set { parse_changes (codes "set 0 a b c")
        ≡ Some (Sets 0 (codes "a") (codes "b c") ∷ []) }
    ensures flag { parse_changes (codes "flag 0 id") ≡ Some (Flags 0 (codes "id") ∷ []) }
    ensures unset { parse_changes (codes "unset 3 a b") ≡ Some (Unsets 3 (codes "a b") ∷ []) }
    ensures bare { parse_changes (codes "bare 4 a") ≡ Some (Bares 4 (codes "a") ∷ []) }
    ensures push { parse_changes (codes "push 5 12") ≡ Some (Pushes 5 12 ∷ []) }
    ensures pull { parse_changes (codes "pull 5 12") ≡ Some (Pulls 5 12 ∷ []) }
    ensures root { parse_changes (codes "root 5 12") ≡ Some (Roots 5 12 ∷ []) }
{}

/// Where a line ends early, and what a further space or a carriage return is.
pub fn ends_of_lines()
    ensures no_text { parse_changes (codes "text 2") ≡ Some (Texts 2 [] ∷ []) }
    ensures empty_text { parse_changes (codes "text 2 ") ≡ Some (Texts 2 [] ∷ []) }
    ensures no_key { parse_changes (codes "flag 0") ≡ Some (Flags 0 [] ∷ []) }
    ensures no_key_no_value { parse_changes (codes "set 0") ≡ Some (Sets 0 [] [] ∷ []) }
    ensures no_value { parse_changes (codes "set 0 a") ≡ Some (Sets 0 (codes "a") [] ∷ []) }
    ensures empty_key { parse_changes (codes "set 0  v") ≡ Some (Sets 0 [] (codes "v") ∷ []) }
    ensures space_in_text { parse_changes (codes "name 0  x") ≡ Some (Names 0 (codes " x") ∷ []) }
    ensures carriage_return { parse_changes (codes "text 0 a" ++ 13 ∷ [])
        ≡ Some (Texts 0 (codes "a" ++ 13 ∷ []) ∷ []) }
{}

/// The lines of a text, the empty ones passed over.
pub fn texts_of_lines()
    ensures empty { parse_changes [] ≡ Some [] }
    ensures line_feeds { parse_changes (line_feed ∷ line_feed ∷ []) ≡ Some [] }
    ensures three { parse_changes
        (codes "pull 0 0" ++ line_feed ∷ (codes "push 0 2" ++ line_feed ∷ codes "push 0 1"))
        ≡ Some (Pulls 0 0 ∷ Pushes 0 2 ∷ Pushes 0 1 ∷ []) }
    ensures passed_over { parse_changes
        (line_feed ∷ (codes "flag 0 a" ++ line_feed ∷
        (line_feed ∷ (codes "bare 0 a" ++ line_feed ∷ []))))
        ≡ Some (Flags 0 (codes "a") ∷ Bares 0 (codes "a") ∷ []) }
    ensures one_is_bad { parse_changes (codes "push 0 1" ++ line_feed ∷ codes "push 0") ≡ None }
{}

/// Numbers are digits alone, of a value of at most 4294967295, the largest `u32`.
pub fn numbers_of_lines()
    ensures zeros { parse_changes (codes "push 00 004294967295") ≡ Some (Pushes 0 4294967295 ∷ []) }
    ensures too_large { parse_changes (codes "push 0 4294967296") ≡ None }
    ensures plus { parse_changes (codes "push +1 0") ≡ None }
    ensures no_digit { parse_changes (codes "text x") ≡ None }
    ensures no_number { parse_changes (codes "text") ≡ None }
    ensures carriage_return { parse_changes (codes "push 0 1" ++ 13 ∷ []) ≡ None }
{}

/// Lines of no form.
pub fn other_lines()
    ensures capital { parse_changes (codes "Name 0 p") ≡ None }
    ensures space_before { parse_changes (codes " name 0 x") ≡ None }
    ensures space_for_number { parse_changes (codes "push  0 1") ≡ None }
    ensures one_number { parse_changes (codes "push 0") ≡ None }
    ensures three_numbers { parse_changes (codes "push 0 1 2") ≡ None }
    ensures space_after { parse_changes (codes "push 0 1 ") ≡ None }
    ensures two_spaces { parse_changes (codes "push 0  1") ≡ None }
    ensures space_alone { parse_changes (codes " ") ≡ None }
{}
