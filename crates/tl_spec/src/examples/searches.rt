//! Worked rows: the nodes where a selector holds, in pages and in edited ones.

ghost use Rattle.std.specs.Prelude.{◌≡◌, List, [], ◌∷◌, ◌++◌, codes};
ghost use Rattle.tl_spec.specs.Tree.Document.{document};
ghost use Rattle.tl_spec.specs.Edit.{Pushes, Pulls};
ghost use Rattle.tl_spec.specs.Examples.{class, id, nodes_after, nodes_of, tag};
ghost use Rattle.tl_spec.specs.Select.Selector.{All, And, Or, Descendant, Parent, Attribute, AttributeValue, AttributeValueWhitespacedContains, AttributeValueStartsWith, AttributeValueEndsWith, AttributeValueSubstring};
ghost use Rattle.tl_spec.specs.Select.Search.{matches_between};

/// A descendant at any depth, and a child.
pub fn below_tags()
    ensures descendant { matches_between (nodes_of "<a><b><c></c></b></a>")
        (Descendant (tag "a") (tag "c")) 0 3 ≡ 2 ∷ [] }
    ensures no_child { matches_between (nodes_of "<a><b><c></c></b></a>")
        (Parent (tag "a") (tag "c")) 0 3 ≡ [] }
    ensures child_of_child { matches_between (nodes_of "<a><b><c></c></b></a>")
        (Parent (Parent (tag "a") (tag "b")) (tag "c")) 0 3 ≡ 2 ∷ [] }
    ensures deep { matches_between (nodes_of "<a><b><c><d></d></c></b></a>")
        (Descendant (tag "a") (tag "d")) 0 4 ≡ 3 ∷ [] }
    ensures ancestor_between { matches_between (nodes_of "<a><b><c></c></b></a>")
        (Descendant (Parent (tag "a") (tag "b")) (tag "c")) 0 3 ≡ 2 ∷ [] }
    ensures either { matches_between (nodes_of "<a><b><c></c></b></a>")
        (Or (Descendant (tag "a") (tag "b")) (tag "c")) 0 3 ≡ 1 ∷ 2 ∷ [] }
    ensures texts_count { matches_between (nodes_of "<a>x<b></b></a>")
        (Parent (tag "a") All) 0 3 ≡ 1 ∷ 2 ∷ [] }
{}

/// The numbers run from the first on and stop before the second, in or past the table.
pub fn parts_of_a_table()
    ensures whole { matches_between (nodes_of "<a><b></b></a>")
        (Or (tag "a") (tag "b")) 0 9 ≡ 0 ∷ 1 ∷ [] }
    ensures from_second { matches_between (nodes_of "<a><b></b></a>")
        (Or (tag "a") (tag "b")) 1 9 ≡ 1 ∷ [] }
    ensures to_second { matches_between (nodes_of "<a><b></b></a>")
        (Or (tag "a") (tag "b")) 0 1 ≡ 0 ∷ [] }
    ensures ancestor_before_it { matches_between (nodes_of "<a><b></b></a>")
        (Parent (tag "a") (tag "b")) 1 2 ≡ 1 ∷ [] }
{}

/// Ancestors by the lists of children as they stand after edits: below a later node, below itself,
/// and below none any more.
pub fn below_moved_tags()
    ensures under_later { matches_between (nodes_after (Pushes 1 0 ∷ []) "<a></a><b></b>")
        (Parent (tag "b") (tag "a")) 0 2 ≡ 0 ∷ [] }
    ensures child_of_itself { matches_between (nodes_after (Pushes 0 0 ∷ []) "<a></a>")
        (Parent (tag "a") (tag "a")) 0 1 ≡ 0 ∷ [] }
    ensures below_itself { matches_between (nodes_after (Pushes 0 0 ∷ []) "<a></a>")
        (Descendant (tag "a") (tag "a")) 0 1 ≡ 0 ∷ [] }
    ensures up_the_table { matches_between
        (nodes_after (Pushes 2 1 ∷ Pushes 1 0 ∷ []) "<a></a><b></b><c></c>")
        (Descendant (tag "c") (tag "a")) 0 3 ≡ 0 ∷ [] }
    ensures round_a_ring { matches_between
        (nodes_after (Pushes 0 2 ∷ Pushes 2 1 ∷ Pushes 1 0 ∷ []) "<a></a><b></b><c></c>")
        (Descendant (tag "b") (tag "b")) 0 3 ≡ 1 ∷ [] }
    ensures pulled { matches_between (nodes_after (Pulls 0 0 ∷ []) "<a><b></b></a>")
        (Descendant (tag "a") (tag "b")) 0 2 ≡ [] }
    ensures past_the_table { matches_between (nodes_after (Pushes 0 7 ∷ []) "<a></a>")
        (Parent (tag "a") All) 0 9 ≡ [] }
{}

/// Tests of one node, alone and joined.
pub fn names_ids_and_classes()
    ensures id { matches_between (nodes_of "<p id=i></p><b id=i class=\"k l\"></b>")
        (id "i") 0 2 ≡ 0 ∷ 1 ∷ [] }
    ensures class { matches_between (nodes_of "<p id=i></p><b id=i class=\"k l\"></b>")
        (class "l") 0 2 ≡ 1 ∷ [] }
    ensures both { matches_between (nodes_of "<p id=i></p><b id=i class=\"k l\"></b>")
        (And (tag "b") (id "i")) 0 2 ≡ 1 ∷ [] }
    ensures not_both { matches_between (nodes_of "<p id=i></p><b id=i class=\"k l\"></b>")
        (And (tag "p") (class "k")) 0 2 ≡ [] }
{}

/// Keys with a value and without one.
pub fn keys_of_tags()
    ensures key { matches_between (nodes_of "<p a></p><p a=\"x\"></p><p></p>")
        (Attribute (codes "a")) 0 3 ≡ 0 ∷ 1 ∷ [] }
    ensures any_value { matches_between (nodes_of "<p a></p><p a=\"x\"></p><p></p>")
        (AttributeValueStartsWith (codes "a") []) 0 3 ≡ 1 ∷ [] }
{}

/// Words stand between Unicode white space, which a no-break space is and a file separator isn't;
/// none is empty.
pub fn words_of_values()
    ensures no_break_space { matches_between
        (document (codes "<p a=\"x" ++ 0xC2 ∷ 0xA0 ∷ codes "y\">")).nodes
        (AttributeValueWhitespacedContains (codes "a") (codes "y")) 0 1 ≡ 0 ∷ [] }
    ensures file_separator { matches_between
        (document (codes "<p a=\"x" ++ 0x1C ∷ codes "y\">")).nodes
        (AttributeValueWhitespacedContains (codes "a") (codes "y")) 0 1 ≡ [] }
    ensures part_of_a_word { matches_between (nodes_of "<p a=\"x yz\">")
        (AttributeValueWhitespacedContains (codes "a") (codes "y")) 0 1 ≡ [] }
    ensures no_word { matches_between (nodes_of "<p a=\"x  y\">")
        (AttributeValueWhitespacedContains (codes "a") []) 0 1 ≡ [] }
{}

/// A byte that is no UTF-8 has the text of any other, which is U+FFFD.
pub fn broken_values()
    ensures other_byte { matches_between (document (codes "<p a=\"" ++ 0xFF ∷ codes "\">")).nodes
        (AttributeValue (codes "a") (0xFE ∷ [])) 0 1 ≡ 0 ∷ [] }
    ensures replacement { matches_between (document (codes "<p a=\"" ++ 0xFF ∷ codes "\">")).nodes
        (AttributeValue (codes "a") (0xEF ∷ 0xBF ∷ 0xBD ∷ [])) 0 1 ≡ 0 ∷ [] }
    ensures two_bytes { matches_between
        (document (codes "<p a=\"" ++ 0xFF ∷ 0xFF ∷ codes "\">")).nodes
        (AttributeValue (codes "a") (0xFF ∷ [])) 0 1 ≡ [] }
    ensures front { matches_between (document (codes "<p a=\"" ++ 0xFF ∷ codes "xy\">")).nodes
        (AttributeValueStartsWith (codes "a") (0xFE ∷ codes "x")) 0 1 ≡ 0 ∷ [] }
    ensures back { matches_between (document (codes "<p a=\"xy" ++ 0xFF ∷ codes "\">")).nodes
        (AttributeValueEndsWith (codes "a") (codes "y" ++ 0xFE ∷ [])) 0 1 ≡ 0 ∷ [] }
    ensures middle { matches_between (document (codes "<p a=\"x" ++ 0xFF ∷ codes "y\">")).nodes
        (AttributeValueSubstring (codes "a") (0xFE ∷ codes "y")) 0 1 ≡ 0 ∷ [] }
    ensures no_part { matches_between (nodes_of "<p a=\"xy\">")
        (AttributeValueSubstring (codes "a") (0xFE ∷ [])) 0 1 ≡ [] }
{}
