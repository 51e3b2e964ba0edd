//! Worked rows: texts, values, keys and names, as they are written into a page.

ghost use Rattle.std.specs.Prelude.{◌≡◌, ◌∷◌, [], codes, false, true};
ghost use Rattle.tl_patch_spec.specs.Markup.{is_key, is_name, quoted_value, text_markup};

/// What a text and a value are written as.
pub fn escapes()
    ensures text { text_markup (codes "a&b<c>\"d") ≡ codes "a&amp;b&lt;c>\"d" }
    ensures value { quoted_value (codes "a&b<c>\"d") ≡ codes "\"a&amp;b&lt;c&gt;&quot;d\"" }
    ensures return_in_a_text { text_markup (13 ∷ []) ≡ codes "&#13;" }
    ensures return_in_a_value { quoted_value (13 ∷ []) ≡ codes "\"&#13;\"" }
{}

/// Which names of tags are kept as they are.
pub fn names()
    ensures digit_behind { is_name (codes "h1") ≡ true }
    ensures dash { is_name (codes "x-y") ≡ true }
    ensures upper_case { is_name (codes "xY") ≡ false }
    ensures digit_first { is_name (codes "1x") ≡ false }
    ensures solidus { is_name (codes "x/y") ≡ false }
    ensures nul { is_name (120 ∷ 0 ∷ []) ≡ false }
    ensures empty { is_name [] ≡ false }
{}

/// Which keys are.
pub fn keys()
    ensures dash { is_key (codes "data-x") ≡ true }
    ensures quote { is_key (codes "a\"") ≡ true }
    ensures upper_case { is_key (codes "aB") ≡ false }
    ensures equals_sign { is_key (codes "a=b") ≡ false }
    ensures blank { is_key (codes "a b") ≡ false }
    ensures nul { is_key (97 ∷ 0 ∷ []) ≡ false }
    ensures empty { is_key [] ≡ false }
{}
