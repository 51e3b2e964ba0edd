//! Worked rows: which trees stay as the children of a `div`.

ghost use Rattle.std.specs.Prelude.{◌≡◌, Some, true, false};
ghost use Rattle.tl_spec.specs.Tree.Forest.{none};
ghost use Rattle.tl_tree_spec.specs.Examples.{element, page_stays, stay_there, words};

/// Trees that stay.
pub fn trees_that_stay()
    ensures paragraphs { page_stays "<h1 id=a>x</h1><p>y <a href=z><b>u</b></a><br>v</p><hr>"
        ≡ Some true }
    ensures lists { page_stays "<ul><li>x<ul><li><p>y</p></li></ul></li></ul><dl><dt>u</dt><dd>v</dd></dl>"
        ≡ Some true }
    ensures table { page_stays "<table> <caption>x</caption><colgroup><col></colgroup><tbody><tr><td><p>y</p></td></tr></tbody></table>"
        ≡ Some true }
    ensures lines { page_stays "<pre>x\ny</pre>" ≡ Some true }
    ensures ruby { page_stays "<ruby>x<rp>(</rp><rt>y</rt><rp>)</rp></ruby>" ≡ Some true }
    ensures nested_alike { page_stays "<b><b><b><b>x</b></b></b></b>" ≡ Some true }
    ensures p_in_button_in_p { page_stays "<p><button><p>x</p></button></p>" ≡ Some true }
    ensures item_in_list_in_item { page_stays "<li><ul><li>x</li></ul></li>" ≡ Some true }
    ensures heading_below_heading { page_stays "<h1><b><h2>x</h2></b></h1>" ≡ Some true }
{}

/// Trees that no page has.
pub fn trees_that_move()
    ensures p_in_p { stay_there (element "p" (element "p" none)) ≡ false }
    ensures block_in_b_in_p { stay_there (element "p" (element "b" (element "div" none))) ≡ false }
    ensures item_in_span_in_item { stay_there (element "li" (element "span" (element "li" none)))
        ≡ false }
    ensures item_in_search_in_item { stay_there
        (element "li" (element "search" (element "li" none))) ≡ false }
    ensures a_in_span_in_a { stay_there (element "a" (element "span" (element "a" none)))
        ≡ false }
    ensures heading_in_heading { stay_there (element "h1" (element "h2" none)) ≡ false }
    ensures rt_in_rt { stay_there (element "ruby" (element "rt" (element "rt" none))) ≡ false }
    ensures line_feed_in_pre { stay_there (element "pre" (words "\nx")) ≡ false }
    ensures text_in_table { stay_there (element "table" (words "x")) ≡ false }
    ensures row_in_table { stay_there (element "table" (element "tr" none)) ≡ false }
    ensures child_of_void { stay_there (element "br" (words "x")) ≡ false }
    ensures option { stay_there (element "option" none) ≡ false }
{}
