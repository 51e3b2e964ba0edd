//! Worked rows: what patches ask for, and the tokens that come of it.

ghost use Rattle.std.specs.Prelude.{◌≡◌, ◌∷◌, ◌++◌, [], None, Some, codes};
ghost use Rattle.tl_html_spec.specs.Examples.{end, pair, start, text};
ghost use Rattle.tl_patch_spec.specs.Examples.{on_alone, on_dropped, on_implied, on_title, on_unclosed, on_whole, put_words, with_patch, words};
ghost use Rattle.tl_patch_spec.specs.Patches.{Append, Fill, Markup, NewContent, NewEndTag, Prepend, PutAfter, PutBefore, Remove, RenameElement, ReplaceWith, SetAttribute, UnsetAttribute, Unwrap, change_tag, cut_out, put_at, put_instead};
ghost use Rattle.tl_patch_spec.specs.TagChanges.{Rename, Set, Unset};

/// A key is set wherever a start tag stands.
#[tactic(auto, unfolding(tl_html_spec::specs::Reader::read, tl_html_spec::specs::Reader::rest_before))]
pub fn set()
    ensures whole { on_whole (SetAttribute (codes "k") (codes "v"))
        ≡ Some (change_tag 0 (Set (codes "k") (codes "v")) ∷ []) }
    ensures implied { on_implied (SetAttribute (codes "k") (codes "v"))
        ≡ Some (change_tag 1 (Set (codes "k") (codes "v")) ∷ []) }
    ensures alone { on_alone (SetAttribute (codes "k") (codes "v"))
        ≡ Some (change_tag 0 (Set (codes "k") (codes "v")) ∷ []) }
    ensures unclosed { on_unclosed (SetAttribute (codes "k") (codes "v"))
        ≡ Some (change_tag 1 (Set (codes "k") (codes "v")) ∷ []) }
    ensures dropped { on_dropped (SetAttribute (codes "k") (codes "v"))
        ≡ Some (change_tag 2 (Set (codes "k") (codes "v")) ∷ []) }
    ensures title { on_title (SetAttribute (codes "k") (codes "v"))
        ≡ Some (change_tag 0 (Set (codes "k") (codes "v")) ∷ []) }
{}

/// So it is unset.
#[tactic(auto, unfolding(tl_html_spec::specs::Reader::read, tl_html_spec::specs::Reader::rest_before))]
pub fn unset()
    ensures whole { on_whole (UnsetAttribute (codes "k"))
        ≡ Some (change_tag 0 (Unset (codes "k")) ∷ []) }
    ensures implied { on_implied (UnsetAttribute (codes "k"))
        ≡ Some (change_tag 1 (Unset (codes "k")) ∷ []) }
    ensures alone { on_alone (UnsetAttribute (codes "k"))
        ≡ Some (change_tag 0 (Unset (codes "k")) ∷ []) }
    ensures unclosed { on_unclosed (UnsetAttribute (codes "k"))
        ≡ Some (change_tag 1 (Unset (codes "k")) ∷ []) }
    ensures dropped { on_dropped (UnsetAttribute (codes "k"))
        ≡ Some (change_tag 2 (Unset (codes "k")) ∷ []) }
    ensures title { on_title (UnsetAttribute (codes "k"))
        ≡ Some (change_tag 0 (Unset (codes "k")) ∷ []) }
{}

/// A name is that of both tags; an end tag that was left out is put in; void elements stay void,
/// and what holds a text alone keeps its name.
#[tactic(auto, unfolding(tl_html_spec::specs::Reader::read, tl_html_spec::specs::Reader::rest_before))]
pub fn rename()
    ensures whole { on_whole (RenameElement (codes "i"))
        ≡ Some (change_tag 0 (Rename (codes "i")) ∷ change_tag 2 (Rename (codes "i")) ∷ []) }
    ensures implied { on_implied (RenameElement (codes "i"))
        ≡ Some (change_tag 1 (Rename (codes "i")) ∷ put_at 3 (NewEndTag (codes "i") ∷ []) ∷ []) }
    ensures alone { on_alone (RenameElement (codes "hr"))
        ≡ Some (change_tag 0 (Rename (codes "hr")) ∷ []) }
    ensures no_longer_void { on_alone (RenameElement (codes "i")) ≡ None }
    ensures unclosed { on_unclosed (RenameElement (codes "i")) ≡ None }
    ensures dropped { on_dropped (RenameElement (codes "i")) ≡ None }
    ensures title { on_title (RenameElement (codes "i")) ≡ None }
    ensures to_a_title { on_whole (RenameElement (codes "title")) ≡ None }
{}

/// An element goes with its tags.
#[tactic(auto, unfolding(tl_html_spec::specs::Reader::read, tl_html_spec::specs::Reader::rest_before))]
pub fn remove()
    ensures whole { on_whole Remove ≡ Some (cut_out 0 3 ∷ []) }
    ensures implied { on_implied Remove ≡ Some (cut_out 1 3 ∷ []) }
    ensures alone { on_alone Remove ≡ Some (cut_out 0 1 ∷ []) }
    ensures unclosed { on_unclosed Remove ≡ None }
    ensures dropped { on_dropped Remove ≡ None }
    ensures title { on_title Remove ≡ Some (cut_out 0 3 ∷ []) }
{}

/// Its tags go alone.
#[tactic(auto, unfolding(tl_html_spec::specs::Reader::read, tl_html_spec::specs::Reader::rest_before))]
pub fn unwrap()
    ensures whole { on_whole Unwrap ≡ Some (cut_out 0 1 ∷ cut_out 2 3 ∷ []) }
    ensures implied { on_implied Unwrap ≡ Some (cut_out 1 2 ∷ []) }
    ensures alone { on_alone Unwrap ≡ Some (cut_out 0 1 ∷ []) }
    ensures unclosed { on_unclosed Unwrap ≡ None }
    ensures dropped { on_dropped Unwrap ≡ None }
    ensures title { on_title Unwrap ≡ Some (cut_out 0 1 ∷ cut_out 2 3 ∷ []) }
{}

/// Something stands in its place.
#[tactic(auto, unfolding(tl_html_spec::specs::Reader::read, tl_html_spec::specs::Reader::rest_before))]
pub fn replace()
    ensures whole { on_whole (ReplaceWith (words "y"))
        ≡ Some (put_instead 0 3 (put_words "y") ∷ []) }
    ensures implied { on_implied (ReplaceWith (words "y"))
        ≡ Some (put_instead 1 3 (put_words "y") ∷ []) }
    ensures alone { on_alone (ReplaceWith (words "y"))
        ≡ Some (put_instead 0 1 (put_words "y") ∷ []) }
    ensures unclosed { on_unclosed (ReplaceWith (words "y")) ≡ None }
    ensures dropped { on_dropped (ReplaceWith (words "y")) ≡ None }
    ensures title { on_title (ReplaceWith (words "y"))
        ≡ Some (put_instead 0 3 (put_words "y") ∷ []) }
{}

/// Or in the place of what is in it.
#[tactic(auto, unfolding(tl_html_spec::specs::Reader::read, tl_html_spec::specs::Reader::rest_before))]
pub fn fill()
    ensures whole { on_whole (Fill (words "y")) ≡ Some (put_instead 1 2 (put_words "y") ∷ []) }
    ensures implied { on_implied (Fill (words "y")) ≡ Some (put_instead 2 3 (put_words "y") ∷ []) }
    ensures alone { on_alone (Fill (words "y")) ≡ None }
    ensures unclosed { on_unclosed (Fill (words "y")) ≡ None }
    ensures dropped { on_dropped (Fill (words "y")) ≡ None }
    ensures title { on_title (Fill (words "y")) ≡ Some (put_instead 1 2 (put_words "y") ∷ []) }
{}

/// Or first in it.
#[tactic(auto, unfolding(tl_html_spec::specs::Reader::read, tl_html_spec::specs::Reader::rest_before))]
pub fn prepend()
    ensures whole { on_whole (Prepend (words "y")) ≡ Some (put_at 1 (put_words "y") ∷ []) }
    ensures implied { on_implied (Prepend (words "y")) ≡ Some (put_at 2 (put_words "y") ∷ []) }
    ensures alone { on_alone (Prepend (words "y")) ≡ None }
    ensures unclosed { on_unclosed (Prepend (words "y")) ≡ Some (put_at 2 (put_words "y") ∷ []) }
    ensures dropped { on_dropped (Prepend (words "y")) ≡ None }
    ensures title { on_title (Prepend (words "y")) ≡ Some (put_at 1 (put_words "y") ∷ []) }
{}

/// Or last.
#[tactic(auto, unfolding(tl_html_spec::specs::Reader::read, tl_html_spec::specs::Reader::rest_before))]
pub fn append()
    ensures whole { on_whole (Append (words "y")) ≡ Some (put_at 2 (put_words "y") ∷ []) }
    ensures implied { on_implied (Append (words "y")) ≡ Some (put_at 3 (put_words "y") ∷ []) }
    ensures alone { on_alone (Append (words "y")) ≡ None }
    ensures unclosed { on_unclosed (Append (words "y")) ≡ None }
    ensures dropped { on_dropped (Append (words "y")) ≡ None }
    ensures title { on_title (Append (words "y")) ≡ Some (put_at 2 (put_words "y") ∷ []) }
{}

/// Or before its start tag.
#[tactic(auto, unfolding(tl_html_spec::specs::Reader::read, tl_html_spec::specs::Reader::rest_before))]
pub fn before()
    ensures whole { on_whole (PutBefore (words "y")) ≡ Some (put_at 0 (put_words "y") ∷ []) }
    ensures implied { on_implied (PutBefore (words "y")) ≡ Some (put_at 1 (put_words "y") ∷ []) }
    ensures alone { on_alone (PutBefore (words "y")) ≡ Some (put_at 0 (put_words "y") ∷ []) }
    ensures unclosed { on_unclosed (PutBefore (words "y")) ≡ Some (put_at 1 (put_words "y") ∷ []) }
    ensures dropped { on_dropped (PutBefore (words "y")) ≡ Some (put_at 2 (put_words "y") ∷ []) }
    ensures title { on_title (PutBefore (words "y")) ≡ Some (put_at 0 (put_words "y") ∷ []) }
{}

/// Or after its end; an end tag that is left out there is put in beside it (`Together`).
#[tactic(auto, unfolding(tl_html_spec::specs::Reader::read, tl_html_spec::specs::Reader::rest_before))]
pub fn after()
    ensures whole { on_whole (PutAfter (words "y")) ≡ Some (put_at 3 (put_words "y") ∷ []) }
    ensures implied { on_implied (PutAfter (words "y")) ≡ Some (put_at 3 (put_words "y") ∷ []) }
    ensures alone { on_alone (PutAfter (words "y")) ≡ Some (put_at 1 (put_words "y") ∷ []) }
    ensures unclosed { on_unclosed (PutAfter (words "y")) ≡ None }
    ensures dropped { on_dropped (PutAfter (words "y")) ≡ None }
    ensures title { on_title (PutAfter (words "y")) ≡ Some (put_at 3 (put_words "y") ∷ []) }
{}

/// The tokens that come of it: of tags,
#[tactic(auto, unfolding(tl_html_spec::specs::Reader::read, tl_html_spec::specs::Reader::rest_before))]
pub fn tokens_of_tags()
    ensures set { with_patch "<p id=1 id=2>x</p>" 0 (SetAttribute (codes "id") (codes "n"))
        ≡ Some (start "p" (pair "id" "n" ∷ []) ++ text "x" ++ end "p") }
    ensures added { with_patch "<a/b=c>y" 0 (SetAttribute (codes "k") (codes "v"))
        ≡ Some (start "a" (pair "k" "v" ∷ pair "b" "c" ∷ []) ++ text "y") }
    ensures unset { with_patch "<a b=\"1\"c=2>y" 0 (UnsetAttribute (codes "b"))
        ≡ Some (start "a" (pair "c" "2" ∷ []) ++ text "y") }
    ensures rename { with_patch "<p>a<p>b" 0 (RenameElement (codes "div"))
        ≡ Some (start "div" [] ++ text "a" ++ end "div" ++ start "p" [] ++ text "b") }
{}

/// and of elements.
#[tactic(auto, unfolding(tl_html_spec::specs::Reader::read, tl_html_spec::specs::Reader::rest_before))]
pub fn tokens_of_elements()
    ensures remove { with_patch "<p>a<div>b</div></p>" 0 Remove
        ≡ Some (start "div" [] ++ text "b" ++ end "div" ++ end "p") }
    ensures unwrap { with_patch "a<b>x</b>c" 1 Unwrap ≡ Some (text "axc") }
    ensures replace { with_patch "a<b>x</b>c" 1 (ReplaceWith (words "<")) ≡ Some (text "a<c") }
    ensures fill { with_patch "<title>a</title>" 0 (Fill (words "</title> & x"))
        ≡ Some (start "title" [] ++ text "</title> & x" ++ end "title") }
    ensures prepend { with_patch "<p>AT&T</p>" 0 (Prepend (words "x"))
        ≡ Some (start "p" [] ++ text "xAT&T" ++ end "p") }
    ensures append { with_patch "<p>AT&T</p>" 0 (Append (Markup (codes "<b>x</b>")))
        ≡ Some (start "p" [] ++ text "AT&T" ++ start "b" [] ++ text "x" ++ end "b" ++ end "p") }
    ensures before { with_patch "AT&am<b>x</b>" 1 (PutBefore (words "p;"))
        ≡ Some (text "AT&amp;" ++ start "b" [] ++ text "x" ++ end "b") }
    ensures after { with_patch "<b>x</b>c" 0 (PutAfter (Markup (codes "<hr>")))
        ≡ Some (start "b" [] ++ text "x" ++ end "b" ++ start "hr" [] ++ text "c") }
{}

/// At the end of a page something can be put too: it stands in `data`.
#[tactic(auto, unfolding(tl_html_spec::specs::Reader::read, tl_html_spec::specs::Reader::rest_before))]
pub fn at_the_end()
    ensures after { with_patch "<p>a</p>" 0 (PutAfter (Markup (codes "<hr>")))
        ≡ Some (start "p" [] ++ text "a" ++ end "p" ++ start "hr" []) }
    ensures append { with_patch "<ul><li>a" 1 (Append (words "<"))
        ≡ Some (start "ul" [] ++ start "li" [] ++ text "a<") }
    ensures rename { with_patch "<p>AT&am" 0 (RenameElement (codes "div"))
        ≡ Some (start "div" [] ++ text "AT&am" ++ end "div") }
    // nothing can stand after a body: with or without its end tag, browsers put it into the body
    ensures in_body { with_patch "<body>a" 0 (Append (words "b"))
        ≡ Some (start "body" [] ++ text "ab") }
    ensures after_body { with_patch "<body>a</body>" 0 (PutAfter (words "b")) ≡ None }
{}
