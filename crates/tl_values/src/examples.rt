//! Worked rows of what is made of values.
ghost use Rattle.std.specs.Prelude.{[], codes, false, true, ◌≡◌};
ghost use Rattle.tl_values.specs.Examples.{classes};
ghost use Rattle.tl_values.specs.Parameters.{name_matches, without_parameters};
ghost use Rattle.tl_values.specs.Values.{replaced};
ghost use Rattle.tl_values.specs.Words.{with_word, without_word};

/// A word more, which stands there once.
pub fn one_more()
    ensures behind { with_word (codes "wide") classes ≡ codes "big  red wide" }
    ensures there { with_word (codes "red") classes ≡ classes }
    ensures a_part { with_word (codes "re") classes ≡ codes "big  red re" }
    ensures to_nothing { with_word (codes "wide") [] ≡ codes "wide" }
    ensures behind_white { with_word (codes "wide") (codes "big ") ≡ codes "big wide" }
{}

/// A word less; the others have one space between them.
pub fn one_less()
    ensures gone { without_word (codes "red") classes ≡ codes "big" }
    ensures each { without_word (codes "a") (codes " a b a\tc ") ≡ codes "b c" }
    ensures a_part { without_word (codes "re") classes ≡ classes }
    ensures last { without_word (codes "a") (codes "a") ≡ [] }
{}

/// A text in the place of another one, from the left.
#[tactic(auto, unfolding(memchr::specs::Find::matches_from))]
pub fn in_its_place()
    ensures each { replaced (codes "aa") (codes "b") (codes "aaaxaa") ≡ codes "baxb" }
    ensures not_again { replaced (codes "a") (codes "aa") (codes "a-a") ≡ codes "aa-aa" }
    ensures nothing { replaced (codes "b") (codes "x") (codes "aa") ≡ codes "aa" }
    ensures gone { replaced (codes "http://") [] (codes "http://a") ≡ codes "a" }
{}

/// Patterns of names.
pub fn named()
    ensures begins { name_matches (codes "utm_*") (codes "utm_source") ≡ true }
    ensures nothing_more { name_matches (codes "utm_*") (codes "utm_") ≡ true }
    ensures other { name_matches (codes "utm_*") (codes "utm") ≡ false }
    ensures ends { name_matches (codes "*clid") (codes "fbclid") ≡ true }
    ensures both { name_matches (codes "a*a") (codes "aba") ≡ true }
    ensures not_twice { name_matches (codes "a*a") (codes "a") ≡ false }
    ensures whole { name_matches (codes "ref") (codes "ref") ≡ true }
    ensures a_part { name_matches (codes "ref") (codes "href") ≡ false }
    ensures all { name_matches (codes "*") [] ≡ true }
{}

/// Parameters that go.
pub fn fewer()
    ensures first { without_parameters (codes "utm_*") (codes "/a?utm_x=1&b=2#c")
        ≡ codes "/a?b=2#c" }
    ensures last { without_parameters (codes "utm_*") (codes "/a?b=2&utm_x") ≡ codes "/a?b=2" }
    ensures each { without_parameters (codes "u*") (codes "?u=1&v=%3f?&u=2&w")
        ≡ codes "?v=%3f?&w" }
    ensures none_left { without_parameters (codes "utm_*") (codes "/a?utm_x=1#c")
        ≡ codes "/a#c" }
    ensures none { without_parameters (codes "utm_*") (codes "/a?&b=utm_x")
        ≡ codes "/a?&b=utm_x" }
    ensures behind_fragment { without_parameters (codes "u") (codes "/a#?u=1")
        ≡ codes "/a#?u=1" }
    ensures no_query { without_parameters (codes "*") (codes "/a") ≡ codes "/a" }
{}
