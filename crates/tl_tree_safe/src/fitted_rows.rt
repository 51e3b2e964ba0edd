//! Worked rows: pages, and what is kept of their trees and made to stay.

ghost use Rattle.std.specs.Prelude.{[], codes, ◌∷◌, ◌≡◌};
ghost use Rattle.tl_tree_safe.specs.Examples.{fitted_with};

/// What the standard has done before.
pub fn built_by_the_standard()
    ensures paragraph { fitted_with (codes "p" ∷ []) "<p>a<p>b" ≡ codes "<p>a</p><p>b</p>" }
    ensures item { fitted_with (codes "ul" ∷ codes "li" ∷ []) "<ul><li>x<li>y</ul>"
        ≡ codes "<ul><li>x</li><li>y</li></ul>" }
    ensures block_in_a_paragraph { fitted_with (codes "p" ∷ codes "div" ∷ []) "<p>a<div>b</div>c</p>"
        ≡ codes "<p>a</p><div>b</div>c<p></p>" }
    ensures parts_of_a_table { fitted_with
        (codes "table" ∷ codes "tbody" ∷ codes "tr" ∷ codes "td" ∷ []) "<table><td>a<td>b"
        ≡ codes "<table><tbody><tr><td>a</td><td>b</td></tr></tbody></table>" }
    ensures text_before_a_table { fitted_with (codes "table" ∷ []) "<table>a"
        ≡ codes "a<table></table>" }
    ensures a_in_a { fitted_with (codes "a" ∷ []) "<a>x<a>y" ≡ codes "<a>x</a><a>y</a>" }
{}

/// What may not stand once what was between is unwrapped, goes; its children stand in its place.
pub fn tags_unwrapped()
    ensures paragraph { fitted_with (codes "p" ∷ []) "<p>x<object><p>y</object>z"
        ≡ codes "<p>xyz</p>" }
    ensures a_in_a { fitted_with (codes "a" ∷ []) "<a>x<table><td><a>y" ≡ codes "<a>xy</a>" }
    ensures heading { fitted_with (codes "h1" ∷ codes "h2" ∷ []) "<h1>x<div><h2>y"
        ≡ codes "<h1>xy</h1>" }
    ensures heading_that_may_stand { fitted_with (codes "h1" ∷ codes "div" ∷ codes "h2" ∷ [])
        "<h1>x<div><h2>y" ≡ codes "<h1>x<div><h2>y</h2></div></h1>" }
    ensures item { fitted_with (codes "li" ∷ []) "<li>x<ul><li>y" ≡ codes "<li>xy</li>" }
    ensures cell { fitted_with (codes "td" ∷ []) "<table><td>x" ≡ codes "x" }
    ensures row { fitted_with (codes "table" ∷ codes "tr" ∷ []) "<table> <tr><td>x"
        ≡ codes "<table> </table>" }
    ensures another_below { fitted_with (codes "p" ∷ codes "b" ∷ []) "<p>x<object><p><b>y"
        ≡ codes "<p>x<b>y</b></p>" }
{}

/// A line feed at the front of `pre` goes, wherever it comes from.
pub fn lines()
    ensures one { fitted_with (codes "pre" ∷ []) "<pre>\na" ≡ codes "<pre>a</pre>" }
    ensures two { fitted_with (codes "pre" ∷ []) "<pre>\n\na" ≡ codes "<pre>a</pre>" }
    ensures three { fitted_with (codes "pre" ∷ []) "<pre>\n\n\na" ≡ codes "<pre>a</pre>" }
    ensures unwrapped { fitted_with (codes "pre" ∷ []) "<pre><i>\n</i>\n<b>\na"
        ≡ codes "<pre>a</pre>" }
    ensures element_first { fitted_with (codes "pre" ∷ codes "b" ∷ []) "<pre><b>\na"
        ≡ codes "<pre><b>\na</b></pre>" }
    ensures behind_a_text { fitted_with (codes "pre" ∷ []) "<pre>a\n" ≡ codes "<pre>a\n</pre>" }
{}
