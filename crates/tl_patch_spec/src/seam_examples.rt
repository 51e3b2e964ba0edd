//! Worked rows: where bytes that stand side by side would be read as something else together.

ghost use Rattle.std.specs.Prelude.{◌≡◌, codes, false, true};
ghost use Rattle.tl_patch_spec.specs.Examples.{is_apart_in};

/// A reference goes on: with a letter or a digit, or with `;` where it has some.
#[tactic(auto, unfolding(tl_html_spec::specs::Reader::read, tl_html_spec::specs::Reader::rest_before, crate::specs::Seams::is_apart))]
pub fn references()
    ensures named { is_apart_in "AT&am" "p" ≡ true }
    ensures semicolon { is_apart_in "&amp" ";" ≡ true }
    ensures ampersand { is_apart_in "&" "a" ≡ true }
    ensures number { is_apart_in "&" "#" ≡ true }
    ensures decimal { is_apart_in "&#3" "8" ≡ true }
    ensures decimal_end { is_apart_in "&#38" ";" ≡ true }
    ensures hexadecimal { is_apart_in "&#x2" "f" ≡ true }
    ensures long { is_apart_in "&aaaaaaaaaaaaaaaaaaaaaaaaaaaaaaaaaaaaaaaaaaaaaaaa" "b" ≡ true }
    ensures no_name { is_apart_in "&" ";" ≡ false }
    ensures no_number { is_apart_in "&a" "#" ≡ false }
    ensures no_digit { is_apart_in "&#3" "a" ≡ false }
    ensures ended { is_apart_in "&amp;" "b" ≡ false }
    ensures none { is_apart_in "AT and" "T" ≡ false }
    ensures before_a_tag { is_apart_in "&am" "<" ≡ false }
{}

/// So does a tag, a comment, or a line end.
#[tactic(auto, unfolding(tl_html_spec::specs::Reader::read, tl_html_spec::specs::Reader::rest_before, crate::specs::Seams::is_apart))]
pub fn tags_and_line_ends()
    ensures start_tag { is_apart_in "a <" "b" ≡ true }
    ensures comment { is_apart_in "<" "!" ≡ true }
    ensures instruction { is_apart_in "<" "?" ≡ true }
    ensures slash { is_apart_in "<" "/" ≡ true }
    ensures end_tag { is_apart_in "</" "1" ≡ true }
    ensures number { is_apart_in "<" "1" ≡ false }
    ensures behind_a_number { is_apart_in "<1" "b" ≡ false }
    ensures twice { is_apart_in "<" "<" ≡ false }
    ensures return_and_line_feed { is_apart_in "\r" "\n" ≡ true }
    ensures line_feed { is_apart_in "\n" "\n" ≡ false }
    ensures return_and_text { is_apart_in "\r" "a" ≡ false }
    ensures whole_tag { is_apart_in "<b>" "x" ≡ false }
    ensures separator { is_apart_in "&am</>" "p" ≡ false }
{}
