//! Worked rows: texts and values, and the characters that they say.

ghost use Rattle.std.specs.Prelude.{◌≡◌, ◌++◌, ◌∷◌, [], codes};
ghost use Rattle.tl_html_spec.specs.Unescaped.{unescaped_text, unescaped_value};

/// The longest name is read, in a value only where it doesn't go on (13.2.5.73).
pub fn names()
    ensures longest { unescaped_text (codes "I'm &notin; I tell you")
        ≡ codes "I'm " ++ 0xE2 ∷ 0x88 ∷ 0x89 ∷ codes " I tell you" }
    ensures without_semicolon { unescaped_text (codes "I'm &notit; I tell you")
        ≡ codes "I'm " ++ 0xC2 ∷ 0xAC ∷ codes "it; I tell you" }
    ensures goes_on { unescaped_value (codes "I'm &notit; I tell you")
        ≡ codes "I'm &notit; I tell you" }
    ensures query { unescaped_value (codes "?a=b&copy=1&amp;lt=2") ≡ codes "?a=b&copy=1&lt=2" }
    ensures last { unescaped_value (codes "a&copy") ≡ codes "a" ++ 0xC2 ∷ 0xA9 ∷ [] }
    ensures before_a_space { unescaped_value (codes "&lt b") ≡ codes "< b" }
    ensures not_a_name { unescaped_text (codes "&am &;&xyz;") ≡ codes "&am &;&xyz;" }
    ensures once { unescaped_text (codes "&ampamp;&amp;lt;") ≡ codes "&amp;&lt;" }
    ensures two_characters { unescaped_text (codes "&nGg;")
        ≡ 0xE2 ∷ 0x8B ∷ 0x99 ∷ 0xCC ∷ 0xB8 ∷ [] }
    ensures long { unescaped_text (codes "&CounterClockwiseContourIntegral;")
        ≡ 0xE2 ∷ 0x88 ∷ 0xB3 ∷ [] }
{}

/// Numbers, and what they stand for (13.2.5.75 to .80).
pub fn numbers()
    ensures decimal { unescaped_text (codes "&#65;&#66") ≡ codes "AB" }
    ensures hexadecimal { unescaped_text (codes "&#x41;&#X6a;") ≡ codes "Aj" }
    ensures windows { unescaped_text (codes "&#128;") ≡ 0xE2 ∷ 0x82 ∷ 0xAC ∷ [] }
    ensures null { unescaped_text (codes "&#0;") ≡ 0xEF ∷ 0xBF ∷ 0xBD ∷ [] }
    ensures surrogate { unescaped_text (codes "&#xD800;") ≡ 0xEF ∷ 0xBF ∷ 0xBD ∷ [] }
    ensures last { unescaped_text (codes "&#1114111;") ≡ 0xF4 ∷ 0x8F ∷ 0xBF ∷ 0xBF ∷ [] }
    ensures past_the_last { unescaped_text (codes "&#1114112;") ≡ 0xEF ∷ 0xBF ∷ 0xBD ∷ [] }
    ensures long { unescaped_text (codes "&#100000000000000000000000000065;")
        ≡ 0xEF ∷ 0xBF ∷ 0xBD ∷ [] }
    ensures leading_zeros { unescaped_text (codes "&#00000000000000000000000065;") ≡ codes "A" }
    ensures without_digits { unescaped_text (codes "&# &#; &#x; &#xg") ≡ codes "&# &#; &#x; &#xg" }
    ensures in_a_value { unescaped_value (codes "&#65=") ≡ codes "A=" }
{}
