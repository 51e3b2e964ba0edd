//! Worked rows: pages, and what the tree builder makes of them "in body" (13.2.6.4.7).

ghost use Rattle.std.specs.Prelude.{◌≡◌, Some, None, codes};
ghost use Rattle.tl_tree_spec.specs.Examples.{inner_html, inner_html_without_search};

/// Paragraphs, headings and rules.
pub fn paragraphs()
    ensures p_in_p { inner_html "<p><p></p></p>" ≡ Some (codes "<p></p><p></p><p></p>") }
    ensures end_tag_left_out { inner_html "<p>a<p>b" ≡ Some (codes "<p>a</p><p>b</p>") }
    ensures block_in_p { inner_html "<p><div>x</div></p>"
        ≡ Some (codes "<p></p><div>x</div><p></p>") }
    ensures article_in_p { inner_html "<p>x<article>y"
        ≡ Some (codes "<p>x</p><article>y</article>") }
    ensures p_in_button_in_p { inner_html "<p><button><p>x</p></button></p>"
        ≡ Some (codes "<p><button><p>x</p></button></p>") }
    ensures heading_in_heading { inner_html "<h1><h2>x</h2></h1>"
        ≡ Some (codes "<h1></h1><h2>x</h2>") }
    ensures heading_below_heading { inner_html "<h1><b><h2>x</h2></b></h1>"
        ≡ Some (codes "<h1><b><h2>x</h2></b></h1>") }
    ensures rule_in_p { inner_html "<p><b><hr></b></p>"
        ≡ Some (codes "<p><b></b></p><hr><p></p>") }
    ensures stray_p { inner_html "x</p>" ≡ Some (codes "x<p></p>") }
    ensures stray_br { inner_html "x</br>" ≡ Some (codes "x<br>") }
    ensures image { inner_html "<image>" ≡ Some (codes "<img>") }
    ensures solidus { inner_html "<div/>x" ≡ Some (codes "<div>x</div>") }
{}

/// Items of lists, and descriptions.
pub fn items()
    ensures item_in_item { inner_html "<li>x<li>x</li></li>"
        ≡ Some (codes "<li>x</li><li>x</li>") }
    ensures item_in_list_in_item { inner_html "<li><ul><li>x</li></ul></li>"
        ≡ Some (codes "<li><ul><li>x</li></ul></li>") }
    ensures item_in_span_in_item { inner_html "<li><span><li>x</li></span></li>"
        ≡ Some (codes "<li><span></span></li><li>x</li>") }
    ensures description_in_div_in_term { inner_html "<dt><div><dd>x</dd></div></dt>"
        ≡ Some (codes "<dt><div></div></dt><dd>x</dd>") }
{}

/// `search`, which is a special element or not.
pub fn search()
    ensures standard { inner_html "<li>x<search><li>y"
        ≡ Some (codes "<li>x<search><li>y</li></search></li>") }
    ensures other { inner_html_without_search "<li>x<search><li>y"
        ≡ Some (codes "<li>x<search></search></li><li>y</li>") }
    ensures end_tag { inner_html "<span><search></span>x"
        ≡ Some (codes "<span><search>x</search></span>") }
    ensures other_end_tag { inner_html_without_search "<span><search></span>x"
        ≡ Some (codes "<span><search></search></span>x") }
{}

/// Formatting elements, with the standard's example of misnested tags, and of those that are not
/// closed (13.2.10).
pub fn formatting()
    ensures misnested { inner_html "<p>1<b>2<i>3</b>4</i>5</p>"
        ≡ Some (codes "<p>1<b>2<i>3</i></b><i>4</i>5</p>") }
    ensures unclosed { inner_html "<p><b class=x><b class=x><b><b class=x><b class=x><b>X<p>X<p><b><b class=x><b>X<p></b></b></b></b></b></b>X"
        ≡ Some (codes "<p><b class=\"x\"><b class=\"x\"><b><b class=\"x\"><b class=\"x\"><b>X</b></b></b></b></b></b></p><p><b class=\"x\"><b><b class=\"x\"><b class=\"x\"><b>X</b></b></b></b></b></p><p><b class=\"x\"><b><b class=\"x\"><b class=\"x\"><b><b><b class=\"x\"><b>X</b></b></b></b></b></b></b></b></p><p>X</p>") }
    ensures next_paragraph { inner_html "<p><b><p>x</p></b></p>"
        ≡ Some (codes "<p><b></b></p><p><b>x</b></p><p></p>") }
    ensures four_alike { inner_html "<b><b><b><b>x</b></b></b>x</b>x"
        ≡ Some (codes "<b><b><b><b>x</b></b></b>x</b>x") }
    ensures noahs_ark { inner_html "<p><b><b><b><b><p>x"
        ≡ Some (codes "<p><b><b><b><b></b></b></b></b></p><p><b><b><b>x</b></b></b></p>") }
    ensures a_in_a { inner_html "<a>x<a>x</a></a>" ≡ Some (codes "<a>x</a><a>x</a>") }
    ensures a_in_span_in_a { inner_html "<a><span><a>x</a></span></a>"
        ≡ Some (codes "<a><span></span></a><a>x</a>") }
    ensures nobr_in_nobr { inner_html "<nobr><nobr>x</nobr></nobr>"
        ≡ Some (codes "<nobr></nobr><nobr>x</nobr>") }
    ensures marker { inner_html "<b><object>x</b>y</object>z"
        ≡ Some (codes "<b><object>xy</object>z</b>") }
{}

/// Ruby.
pub fn ruby()
    ensures parts { inner_html "<ruby>x<rt>x<rp>x</rp></rt></ruby>"
        ≡ Some (codes "<ruby>x<rt>x</rt><rp>x</rp></ruby>") }
    ensures text_in_container { inner_html "<ruby>x<rtc>y<rt>z"
        ≡ Some (codes "<ruby>x<rtc>y<rt>z</rt></rtc></ruby>") }
    ensures outside { inner_html "<p><rt>x" ≡ Some (codes "<p><rt>x</rt></p>") }
{}

/// The first line feed in `pre` goes, by a reference too.
pub fn lines()
    ensures one { inner_html "<pre>\nx</pre>" ≡ Some (codes "<pre>x</pre>") }
    ensures two { inner_html "<pre>\n\nx</pre>" ≡ Some (codes "<pre>\nx</pre>") }
    ensures carriage_return { inner_html "<listing>\r\nx" ≡ Some (codes "<listing>x</listing>") }
    ensures reference { inner_html "<pre>&#10;x" ≡ Some (codes "<pre>x</pre>") }
    ensures after_a_letter { inner_html "<pre>x\ny" ≡ Some (codes "<pre>x\ny</pre>") }
{}

/// What is not written down.
pub fn no_outcome()
    ensures comment { inner_html "x<!--y-->" ≡ None }
    ensures doctype { inner_html "<!doctype html>x" ≡ None }
    ensures furthest_block { inner_html "<b>1<p>2</b>3</p>" ≡ None }
    ensures a_between_others { inner_html "<a><button><a>" ≡ None }
    ensures form { inner_html "<form>" ≡ None }
    ensures script { inner_html "<script></script>" ≡ None }
    ensures svg { inner_html "<svg></svg>" ≡ None }
    ensures template { inner_html "<template></template>" ≡ None }
{}
