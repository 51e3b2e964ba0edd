//! Worked rows: for each condition of cleanness, trees that fail it alone, their print, and what
//! that is read as; and tables whose walk meets a fault.

ghost use Rattle.std.specs.Prelude.{◌≡◌, [], ◌∷◌, Some, None, Err, codes};
ghost use Rattle.tl_spec.specs.Tree.Forest.{none, tag};
ghost use Rattle.tl_spec.specs.Print.Clean.{IsClean, IsCleanTable};
ghost use Rattle.tl_spec.specs.Edit.{Pushes};
ghost use Rattle.tl_spec.specs.Print.Misread.{IsMisread};
ghost use Rattle.tl_spec.specs.Print.{document_print};
ghost use Rattle.tl_spec.specs.Examples.{comment_tree, document_after, key, pair, tag_tree, text_tree};
ghost use Rattle.tl_spec.specs.Walk.{Cycle, Dangling};

/// No `<` stands in a text: it begins a token wherever it stands.
pub fn clean_texts()
    ensures { IsMisread
        (text_tree "a<b>" none)
        (codes "a<b>")
        (text_tree "a" (tag_tree "b" [] none none)) }
{}

/// A comment is `<`, blanks, `!`, and what begins with `--` and ends with its first `-->`; what has
/// no end takes all, and has no bytes.
pub fn clean_comments()
    ensures without_less { IsMisread (comment_tree "x" none) (codes "x") (text_tree "x" none) }
    ensures without_bang { IsMisread
        (comment_tree "<x>" none)
        (codes "<x>")
        (tag_tree "x" [] none none) }
    ensures with_a_name_before_the_bang { IsMisread
        (comment_tree "<x!-->" none)
        (codes "<x!-->")
        (tag_tree "x" (key "" ∷ key "--" ∷ []) none none) }
    ensures without_dashes { IsMisread
        (comment_tree "<!x-->" none)
        (codes "<!x-->")
        (text_tree ">" none) }
    ensures with_an_earlier_end { IsMisread
        (comment_tree "<!--a-->b-->" none)
        (codes "<!--a-->b-->")
        (comment_tree "<!--a-->" (text_tree "b-->" none)) }
    ensures without_an_end { IsMisread
        (comment_tree "<!--a" (text_tree "b" none))
        (codes "<!--ab")
        (comment_tree "" none) }
{}

/// A name is a run of name bytes, so without `/`, and only a tag without attributes may have the
/// empty one: its first key would be read as the name.
pub fn clean_names()
    ensures with_a_blank { IsMisread
        (tag_tree "a b" [] (text_tree "x" none) none)
        (codes "<a b>x</a b>")
        (tag_tree "a" (key "b" ∷ []) (text_tree "x" none) none) }
    ensures with_a_slash { IsMisread
        (tag_tree "a/b" [] (text_tree "x" none) none)
        (codes "<a/b>x</a/b>")
        (text_tree "b>x" none) }
    ensures empty_with_a_key { IsMisread
        (tag_tree "" (key "a" ∷ []) none none)
        (codes "< a></>")
        (tag_tree "a" [] none none) }
{}

/// A key is a nonempty run of name bytes, and no value holds the `"` that the print puts around it.
pub fn clean_pairs()
    ensures key_with_a_blank { IsMisread
        (tag_tree "p" (key "a b" ∷ []) none none)
        (codes "<p a b></p>")
        (tag_tree "p" (key "a" ∷ key "b" ∷ []) none none) }
    ensures key_with_a_slash { IsMisread
        (tag_tree "p" (key "a/b" ∷ []) none none)
        (codes "<p a/b></p>")
        (text_tree "b>" none) }
    ensures empty_key { IsMisread
        (tag_tree "p" (key "" ∷ []) none none)
        (codes "<p ></p>")
        (tag_tree "p" [] none none) }
    ensures value_with_a_quote { IsMisread
        (tag_tree "p" (pair "a" "x\"y" ∷ []) none none)
        (codes "<p a=\"x\"y\"></p>")
        (tag_tree "p" (pair "a" "x" ∷ key "y" ∷ []) none none) }
{}

/// A void tag has no children, since none are printed; and `command`, which is printed without an
/// end tag, opens when it is read.
pub fn clean_tags()
    ensures void_with_a_child { IsMisread
        (tag_tree "br" [] (text_tree "x" none) none)
        (codes "<br>")
        (tag_tree "br" [] none none) }
    ensures command_before_a_text { IsMisread
        (tag_tree "command" [] none (text_tree "x" none))
        (codes "<command>x")
        (tag_tree "command" [] (text_tree "x" none) none) }
{}

/// A walk meets no fault, however clean its nodes are: where it meets one there is no print that
/// could be read.
pub fn clean_walks()
    ensures dangling { let d = document_after (Pushes 0 9 ∷ []) "<a></a>" in
        IsCleanTable d.nodes d.top → ⊥ }
    ensures dangling_print { document_print (document_after (Pushes 0 9 ∷ []) "<a></a>")
        ≡ Err (Dangling 9) }
    ensures cycle { let d = document_after (Pushes 1 0 ∷ []) "<a><b></b></a>" in
        IsCleanTable d.nodes d.top → ⊥ }
    ensures cycle_print { document_print (document_after (Pushes 1 0 ∷ []) "<a><b></b></a>")
        ≡ Err (Cycle 0) }
{}

/// Beside cleanness, what the type of attributes keeps has to hold: the other keys are distinct,
/// and neither `id` nor `class`.
pub fn own_keys()
    ensures repeated { IsMisread
        (tag_tree "p" (pair "a" "1" ∷ pair "a" "2" ∷ []) none none)
        (codes "<p a=\"1\" a=\"2\"></p>")
        (tag_tree "p" (pair "a" "2" ∷ []) none none) }
    ensures repeated_is_clean { IsClean
        (tag_tree "p" (pair "a" "1" ∷ pair "a" "2" ∷ []) none none) }
    ensures id_among_the_others { IsMisread
        (tag_tree "p" (pair "id" "i" ∷ []) none none)
        (codes "<p id=\"i\"></p>")
        (tag (record {
          name = codes "p";
          attributes = record { others = []; id = Some (codes "i"); class = None };
        }) none none) }
    ensures id_is_clean { IsClean (tag_tree "p" (pair "id" "i" ∷ []) none none) }
{}
