//! Worked rows: what patches ask for of several elements.

ghost use Rattle.std.specs.Prelude.{◌≡◌, ◌∷◌, [], None, Some, codes, false, true};
ghost use Rattle.tl_patch_spec.specs.Examples.{all_asked, each_asked, end_tag_put, put_words, words};
ghost use Rattle.tl_patch_spec.specs.Patches.{Append, Fill, NewEndTag, Prepend, PutAfter, PutBefore, Remove, RenameElement, ReplaceWith, Unwrap, change_tag, cut_out, put_at, put_instead};
ghost use Rattle.tl_patch_spec.specs.TagChanges.{Rename};
ghost use Rattle.tl_patch_spec.specs.Together.{are_in_turn, asked_at, turn_of};

/// What one patch asks for of each, in the order of their start tags.
#[tactic(auto, unfolding(tl_html_spec::specs::Reader::read, tl_html_spec::specs::Reader::rest_before))]
pub fn several()
    ensures none { each_asked "<b>x</b>" Remove [] ≡ Some [] }
    ensures both { each_asked "<b>x</b><i>y</i>" Unwrap (0 ∷ 3 ∷ [])
        ≡ Some (asked_at (turn_of Unwrap 0 0) (cut_out 0 1)
        ∷ asked_at (turn_of Unwrap 0 0) (cut_out 2 3)
        ∷ asked_at (turn_of Unwrap 3 1) (cut_out 3 4)
        ∷ asked_at (turn_of Unwrap 3 1) (cut_out 5 6) ∷ []) }
    ensures renamed { each_asked "<ul><li>a<li>b</ul>" (RenameElement (codes "p")) (1 ∷ 3 ∷ [])
        ≡ Some (asked_at (turn_of (RenameElement (codes "p")) 1 0) (change_tag 1 (Rename (codes "p")))
        ∷ asked_at (turn_of (RenameElement (codes "p")) 1 0) (put_at 3 (NewEndTag (codes "p") ∷ []))
        ∷ asked_at (turn_of (RenameElement (codes "p")) 3 1) (change_tag 3 (Rename (codes "p")))
        ∷ asked_at (turn_of (RenameElement (codes "p")) 3 1) (put_at 5 (NewEndTag (codes "p") ∷ []))
        ∷ []) }
    ensures twice { each_asked "<b>x</b>" Remove (0 ∷ 0 ∷ [])
        ≡ Some (asked_at (turn_of Remove 0 0) (cut_out 0 3) ∷ []) }
    ensures twice_put { each_asked "<b>x</b>" (Append (words "y")) (0 ∷ 0 ∷ [])
        ≡ Some (asked_at (turn_of (Append (words "y")) 0 0) (put_at 2 (put_words "y")) ∷ []) }
    ensures not_meant { each_asked "<div><b>x</div>" Remove (1 ∷ []) ≡ None }
{}

/// What different patches ask for, also of one element.
#[tactic(auto, unfolding(tl_html_spec::specs::Reader::read, tl_html_spec::specs::Reader::rest_before))]
pub fn different()
    ensures two { all_asked "<b>x</b><i>y</i>" ((0, Remove) ∷ (3, Append (words "z")) ∷ [])
        ≡ Some (asked_at (turn_of Remove 0 0) (cut_out 0 3)
        ∷ asked_at (turn_of (Append (words "z")) 3 1) (put_at 5 (put_words "z")) ∷ []) }
    ensures of_one { all_asked "<b>x</b>"
        ((0, Append (words "y")) ∷ (0, Append (words "z")) ∷ [])
        ≡ Some (asked_at (turn_of (Append (words "y")) 0 0) (put_at 2 (put_words "y"))
        ∷ asked_at (turn_of (Append (words "z")) 0 1) (put_at 2 (put_words "z")) ∷ []) }
    ensures removed { all_asked "<b>x</b>" ((0, Remove) ∷ (0, PutBefore (words "y")) ∷ [])
        ≡ Some (asked_at (turn_of Remove 0 0) (cut_out 0 3)
        ∷ asked_at (turn_of (PutBefore (words "y")) 0 1) (put_at 0 (put_words "y")) ∷ []) }
    ensures in_what_is_removed { all_asked "<b><i>x</i></b>"
        ((0, Remove) ∷ (1, Append (words "y")) ∷ [])
        ≡ Some (asked_at (turn_of Remove 0 0) (cut_out 0 5) ∷ []) }
    ensures not_meant { all_asked "<div><b>x</div>" ((0, Unwrap) ∷ (1, Remove) ∷ []) ≡ None }
{}

/// What begins in what another takes away goes with it.
#[tactic(auto, unfolding(tl_html_spec::specs::Reader::read, tl_html_spec::specs::Reader::rest_before))]
pub fn taken_away()
    ensures removed { each_asked "<b><i>x</i></b><u>y</u>" Remove (0 ∷ 1 ∷ 5 ∷ [])
        ≡ Some (asked_at (turn_of Remove 0 0) (cut_out 0 5)
        ∷ asked_at (turn_of Remove 5 2) (cut_out 5 8) ∷ []) }
    ensures replaced { each_asked "<b><i>x</i></b>" (ReplaceWith (words "y")) (0 ∷ 1 ∷ [])
        ≡ Some (asked_at (turn_of (ReplaceWith (words "y")) 0 0)
        (put_instead 0 5 (put_words "y")) ∷ []) }
    ensures filled { each_asked "<ul><li></ul>" (Fill (words "y")) (0 ∷ 1 ∷ [])
        ≡ Some (asked_at (turn_of (Fill (words "y")) 0 0) (put_instead 1 2 (put_words "y")) ∷ []) }
    ensures not_meant { each_asked "<div><b>x</div>" Remove (0 ∷ 1 ∷ [])
        ≡ Some (asked_at (turn_of Remove 0 0) (cut_out 0 4) ∷ []) }
    ensures next { each_asked "<ul><li>a<li>b</ul>" Remove (1 ∷ 3 ∷ [])
        ≡ Some (asked_at (turn_of Remove 1 0) (cut_out 1 3)
        ∷ asked_at (turn_of Remove 3 1) (cut_out 3 5) ∷ []) }
{}

/// What is put at one place: that of the inner element first, what stands before an element last;
/// of one element what stands in it, then its end tag, then what stands after it; and then in the
/// order of the patches.
pub fn order()
    ensures inner { are_in_turn (asked_at (turn_of (Append (words "y")) 2 1) (put_at 5 [])
        ∷ asked_at (turn_of (Append (words "y")) 1 0) (put_at 5 []) ∷ []) ≡ true }
    ensures outer { are_in_turn (asked_at (turn_of (Append (words "y")) 1 0) (put_at 5 [])
        ∷ asked_at (turn_of (Append (words "y")) 2 1) (put_at 5 []) ∷ []) ≡ false }
    ensures elsewhere { are_in_turn (asked_at (turn_of Remove 1 0) (cut_out 1 2)
        ∷ asked_at (turn_of (Append (words "y")) 2 1) (put_at 5 []) ∷ []) ≡ true }
    ensures before { are_in_turn (asked_at (turn_of (PutAfter (words "y")) 1 0) (put_at 5 [])
        ∷ asked_at (turn_of (PutBefore (words "y")) 5 1) (put_at 5 []) ∷ []) ≡ true }
    ensures first_in_it { are_in_turn (asked_at (turn_of (Append (words "y")) 4 0) (put_at 5 [])
        ∷ asked_at (turn_of (Prepend (words "y")) 4 1) (put_at 5 []) ∷ []) ≡ false }
    ensures after_it { are_in_turn (asked_at (turn_of (Append (words "y")) 1 1) (put_at 5 [])
        ∷ asked_at (turn_of (PutAfter (words "y")) 1 0) (put_at 5 []) ∷ []) ≡ true }
    ensures of_two { are_in_turn (asked_at (turn_of (Append (words "y")) 1 1) (put_at 5 [])
        ∷ asked_at (turn_of (Append (words "z")) 1 0) (put_at 5 []) ∷ []) ≡ false }
{}

/// The end tag of the element before is put in, where it is left out: before what is put before the
/// next one, or in its place, and once.
#[tactic(auto, unfolding(tl_html_spec::specs::Reader::read, tl_html_spec::specs::Reader::rest_before))]
pub fn end_tags_of_the_element_before()
    ensures before { all_asked "<ul><li>a<li>b</ul>" ((3, PutBefore (words "x")) ∷ [])
        ≡ Some (asked_at (turn_of (PutBefore (words "x")) 3 0) (put_at 3 (put_words "x"))
        ∷ end_tag_put "li" 1 0 3 ∷ []) }
    ensures replace { all_asked "<p>a<hr>b" ((2, ReplaceWith (words "x")) ∷ [])
        ≡ Some (asked_at (turn_of (ReplaceWith (words "x")) 2 0) (put_instead 2 3 (put_words "x"))
        ∷ end_tag_put "p" 0 0 2 ∷ []) }
    ensures rename { all_asked "<p>a<div>b</div>" ((2, RenameElement (codes "b")) ∷ [])
        ≡ Some (asked_at (turn_of (RenameElement (codes "b")) 2 0) (change_tag 2 (Rename (codes "b")))
        ∷ asked_at (turn_of (RenameElement (codes "b")) 2 0) (change_tag 4 (Rename (codes "b")))
        ∷ end_tag_put "p" 0 0 2 ∷ []) }
    ensures unwrap { all_asked "<p>a<div>b</div>" ((2, Unwrap) ∷ [])
        ≡ Some (asked_at (turn_of Unwrap 2 0) (cut_out 2 3)
        ∷ asked_at (turn_of Unwrap 2 0) (cut_out 4 5) ∷ end_tag_put "p" 0 0 2 ∷ []) }
    ensures unwrap_its_own { all_asked "<select><option>a</select>" ((0, Unwrap) ∷ [])
        ≡ Some (asked_at (turn_of Unwrap 0 0) (cut_out 0 1)
        ∷ asked_at (turn_of Unwrap 0 0) (cut_out 3 4) ∷ end_tag_put "option" 1 0 3 ∷ []) }
    ensures outermost { all_asked "<table><tr><td>a<tr>" ((4, PutBefore (words "x")) ∷ [])
        ≡ Some (asked_at (turn_of (PutBefore (words "x")) 4 0) (put_at 4 (put_words "x"))
        ∷ end_tag_put "tr" 1 0 4 ∷ []) }
    ensures several { each_asked "<p>a<p>b<p>c" (PutBefore (words "x")) (0 ∷ 2 ∷ 4 ∷ [])
        ≡ Some (asked_at (turn_of (PutBefore (words "x")) 0 0) (put_at 0 (put_words "x"))
        ∷ asked_at (turn_of (PutBefore (words "x")) 2 1) (put_at 2 (put_words "x"))
        ∷ end_tag_put "p" 0 1 2
        ∷ asked_at (turn_of (PutBefore (words "x")) 4 2) (put_at 4 (put_words "x"))
        ∷ end_tag_put "p" 2 2 4 ∷ []) }
    ensures twice { all_asked "<p>a<p>b"
        ((2, PutBefore (words "x")) ∷ (2, PutBefore (words "y")) ∷ [])
        ≡ Some (asked_at (turn_of (PutBefore (words "x")) 2 0) (put_at 2 (put_words "x"))
        ∷ end_tag_put "p" 0 0 2
        ∷ asked_at (turn_of (PutBefore (words "y")) 2 1) (put_at 2 (put_words "y")) ∷ []) }
{}

/// So is that of the outermost element that ends where an element does, which stands in this one:
/// before what is put last in it, and where its end tag goes or gets another name. `</body>` ends
/// nothing, so it is none of these.
#[tactic(auto, unfolding(tl_html_spec::specs::Reader::read, tl_html_spec::specs::Reader::rest_before))]
pub fn end_tags_of_what_is_in_it()
    ensures append { all_asked "<div><p>a</div>" ((0, Append (words "x")) ∷ [])
        ≡ Some (asked_at (turn_of (Append (words "x")) 0 0) (put_at 3 (put_words "x"))
        ∷ end_tag_put "p" 1 0 3 ∷ []) }
    ensures append_left_open { all_asked "<ul><li><p>a<li>b</ul>" ((1, Append (words "x")) ∷ [])
        ≡ Some (asked_at (turn_of (Append (words "x")) 1 0) (put_at 4 (put_words "x"))
        ∷ end_tag_put "p" 2 0 4 ∷ []) }
    ensures body { all_asked "<body><p>a</body>" ((0, Append (words "x")) ∷ [])
        ≡ Some (asked_at (turn_of (Append (words "x")) 0 0) (put_at 3 (put_words "x"))
        ∷ end_tag_put "p" 1 0 3 ∷ []) }
    ensures page { all_asked "<html><body><p>a</html>" ((0, Append (words "x")) ∷ [])
        ≡ Some (asked_at (turn_of (Append (words "x")) 0 0) (put_at 4 (put_words "x"))
        ∷ end_tag_put "p" 2 0 4 ∷ []) }
    ensures outermost { all_asked "<div><ul><li>a</div>" ((0, Append (words "x")) ∷ [])
        ≡ Some (asked_at (turn_of (Append (words "x")) 0 0) (put_at 4 (put_words "x"))
        ∷ end_tag_put "ul" 1 0 4 ∷ []) }
    ensures rename { all_asked "<div><p>a</div>" ((0, RenameElement (codes "b")) ∷ [])
        ≡ Some (asked_at (turn_of (RenameElement (codes "b")) 0 0) (change_tag 0 (Rename (codes "b")))
        ∷ asked_at (turn_of (RenameElement (codes "b")) 0 0) (change_tag 3 (Rename (codes "b")))
        ∷ end_tag_put "p" 1 0 3 ∷ []) }
    ensures unwrap { all_asked "<p><option>a<hr>" ((0, Unwrap) ∷ [])
        ≡ Some (asked_at (turn_of Unwrap 0 0) (cut_out 0 1) ∷ end_tag_put "option" 1 0 3 ∷ []) }
    ensures once { each_asked "<div><p>a</div>" (Append (words "x")) (0 ∷ 1 ∷ [])
        ≡ Some (asked_at (turn_of (Append (words "x")) 0 0) (put_at 3 (put_words "x"))
        ∷ end_tag_put "p" 1 0 3
        ∷ asked_at (turn_of (Append (words "x")) 1 1) (put_at 3 (put_words "x")) ∷ []) }
    ensures prepend { all_asked "<div><p>a</div>" ((0, Prepend (words "x")) ∷ [])
        ≡ Some (asked_at (turn_of (Prepend (words "x")) 0 0) (put_at 1 (put_words "x")) ∷ []) }
{}

/// An element gets its own end tag once, of whichever patches there are: before what is put after
/// it, but not where it gets one of another name, or where it goes, or its tags. What goes with it
/// gets none.
#[tactic(auto, unfolding(tl_html_spec::specs::Reader::read, tl_html_spec::specs::Reader::rest_before))]
pub fn end_tags_of_its_own()
    ensures after { all_asked "<p>a" ((0, PutAfter (words "x")) ∷ [])
        ≡ Some (asked_at (turn_of (PutAfter (words "x")) 0 0) (put_at 2 (put_words "x"))
        ∷ end_tag_put "p" 0 0 2 ∷ []) }
    ensures after_twice { all_asked "<p>a"
        ((0, PutAfter (words "x")) ∷ (0, PutAfter (words "y")) ∷ [])
        ≡ Some (asked_at (turn_of (PutAfter (words "x")) 0 0) (put_at 2 (put_words "x"))
        ∷ end_tag_put "p" 0 0 2
        ∷ asked_at (turn_of (PutAfter (words "y")) 0 1) (put_at 2 (put_words "y")) ∷ []) }
    ensures renamed { all_asked "<p>a"
        ((0, PutAfter (words "x")) ∷ (0, RenameElement (codes "b")) ∷ [])
        ≡ Some (asked_at (turn_of (PutAfter (words "x")) 0 0) (put_at 2 (put_words "x"))
        ∷ asked_at (turn_of (RenameElement (codes "b")) 0 1) (change_tag 0 (Rename (codes "b")))
        ∷ asked_at (turn_of (RenameElement (codes "b")) 0 1) (put_at 2 (NewEndTag (codes "b") ∷ []))
        ∷ []) }
    ensures removed { all_asked "<p>a" ((0, Remove) ∷ (0, PutAfter (words "x")) ∷ [])
        ≡ Some (asked_at (turn_of Remove 0 0) (cut_out 0 2)
        ∷ asked_at (turn_of (PutAfter (words "x")) 0 1) (put_at 2 (put_words "x")) ∷ []) }
    ensures unwrapped { all_asked "<p><option>a<hr>"
        ((0, PutAfter (words "x")) ∷ (0, Unwrap) ∷ [])
        ≡ Some (asked_at (turn_of (PutAfter (words "x")) 0 0) (put_at 3 (put_words "x"))
        ∷ asked_at (turn_of Unwrap 0 1) (cut_out 0 1) ∷ end_tag_put "option" 1 1 3 ∷ []) }
    ensures filled { all_asked "<div><p>a</div>"
        ((0, Fill (words "x")) ∷ (0, Append (words "y")) ∷ [])
        ≡ Some (asked_at (turn_of (Fill (words "x")) 0 0) (put_instead 1 3 (put_words "x"))
        ∷ asked_at (turn_of (Append (words "y")) 0 1) (put_at 3 (put_words "y")) ∷ []) }
    ensures inner { each_asked "<ul><li><p>a</ul>" (RenameElement (codes "b")) (1 ∷ 2 ∷ [])
        ≡ Some (asked_at (turn_of (RenameElement (codes "b")) 1 0) (change_tag 1 (Rename (codes "b")))
        ∷ asked_at (turn_of (RenameElement (codes "b")) 1 0) (put_at 4 (NewEndTag (codes "b") ∷ []))
        ∷ asked_at (turn_of (RenameElement (codes "b")) 2 1) (change_tag 2 (Rename (codes "b")))
        ∷ asked_at (turn_of (RenameElement (codes "b")) 2 1) (put_at 4 (NewEndTag (codes "b") ∷ []))
        ∷ []) }
{}

/// An end tag that may not be left out is put in as well.
#[tactic(auto, unfolding(tl_html_spec::specs::Reader::read, tl_html_spec::specs::Reader::rest_before))]
pub fn end_tags_that_are_missing()
    ensures before { all_asked "<h1>a<h2>b</h2>" ((2, PutBefore (words "x")) ∷ [])
        ≡ Some (asked_at (turn_of (PutBefore (words "x")) 2 0) (put_at 2 (put_words "x"))
        ∷ end_tag_put "h1" 0 0 2 ∷ []) }
    ensures append { all_asked "<div><span>a</div>" ((0, Append (words "x")) ∷ [])
        ≡ Some (asked_at (turn_of (Append (words "x")) 0 0) (put_at 3 (put_words "x"))
        ∷ end_tag_put "span" 1 0 3 ∷ []) }
{}

/// None is put in where none is left open: the element before ends with its own end tag or isn't
/// there, it goes, or it has got its end tag.
#[tactic(auto, unfolding(tl_html_spec::specs::Reader::read, tl_html_spec::specs::Reader::rest_before))]
pub fn no_end_tags()
    ensures closed { all_asked "<p>a</p><p>b" ((3, PutBefore (words "x")) ∷ [])
        ≡ Some (asked_at (turn_of (PutBefore (words "x")) 3 0) (put_at 3 (put_words "x")) ∷ []) }
    ensures first { all_asked "<ul><li>a<li>b</ul>" ((1, PutBefore (words "x")) ∷ [])
        ≡ Some (asked_at (turn_of (PutBefore (words "x")) 1 0) (put_at 1 (put_words "x")) ∷ []) }
    ensures within { all_asked "<p>a<p>b" ((2, Prepend (words "x")) ∷ [])
        ≡ Some (asked_at (turn_of (Prepend (words "x")) 2 0) (put_at 3 (put_words "x")) ∷ []) }
    ensures replaced { each_asked "<p>a<p>b" (ReplaceWith (words "x")) (0 ∷ 2 ∷ [])
        ≡ Some (asked_at (turn_of (ReplaceWith (words "x")) 0 0) (put_instead 0 2 (put_words "x"))
        ∷ asked_at (turn_of (ReplaceWith (words "x")) 2 1) (put_instead 2 4 (put_words "x"))
        ∷ []) }
    ensures unwrapped { each_asked "<p>a<p>b" Unwrap (0 ∷ 2 ∷ [])
        ≡ Some (asked_at (turn_of Unwrap 0 0) (cut_out 0 1)
        ∷ asked_at (turn_of Unwrap 2 1) (cut_out 2 3) ∷ []) }
    ensures put_after { all_asked "<p>a<p>b"
        ((0, PutAfter (words "x")) ∷ (2, PutBefore (words "y")) ∷ [])
        ≡ Some (asked_at (turn_of (PutAfter (words "x")) 0 0) (put_at 2 (put_words "x"))
        ∷ end_tag_put "p" 0 0 2
        ∷ asked_at (turn_of (PutBefore (words "y")) 2 1) (put_at 2 (put_words "y")) ∷ []) }
    ensures removed { all_asked "<p>a<p>b" ((0, Remove) ∷ (2, PutBefore (words "y")) ∷ [])
        ≡ Some (asked_at (turn_of Remove 0 0) (cut_out 0 2)
        ∷ asked_at (turn_of (PutBefore (words "y")) 2 1) (put_at 2 (put_words "y")) ∷ []) }
{}
