//! Worked rows: pages, and their elements by the numbers of their pieces.

ghost use Rattle.std.specs.Prelude.{◌≡◌, ◌∷◌, []};
ghost use Rattle.tl_patch_spec.specs.Examples.{alone, cut, elements_in, whole};

/// An element ends with its own end tag.
#[tactic(auto, unfolding(tl_html_spec::specs::Reader::read, tl_html_spec::specs::Reader::rest_before))]
pub fn own_end_tags()
    ensures nested { elements_in "<div><b>x</b></div>" ≡ whole "b" 1 3 ∷ whole "div" 0 4 ∷ [] }
    ensures of_a_heading { elements_in "<h1>a</h2>b" ≡ whole "h1" 0 2 ∷ [] }
    ensures without_a_start { elements_in "a</b><i>c</i>" ≡ whole "i" 2 4 ∷ [] }
    ensures of_a_title { elements_in "<title><b></title>" ≡ whole "title" 0 2 ∷ [] }
    ensures of_a_script { elements_in "<script><!--<p></script>" ≡ whole "script" 0 2 ∷ [] }
    ensures after_a_comment { elements_in "<b><!-- </b> --></b>" ≡ whole "b" 0 2 ∷ [] }
{}

/// An end tag may be left out: then the element ends before another tag.
#[tactic(auto, unfolding(tl_html_spec::specs::Reader::read, tl_html_spec::specs::Reader::rest_before))]
pub fn end_tags_left_out()
    ensures items { elements_in "<ul><li>a<li>b</ul>"
        ≡ cut "li" 1 3 ∷ cut "li" 3 5 ∷ whole "ul" 0 5 ∷ [] }
    ensures rows { elements_in "<table><tr><td>a<td>b<tr><td>c</table>"
        ≡ cut "td" 2 4 ∷ cut "td" 4 6 ∷ cut "tr" 1 6 ∷ cut "td" 7 9 ∷ cut "tr" 6 9
        ∷ whole "table" 0 9 ∷ [] }
    ensures definitions { elements_in "<dl><dt>a<dd>b</dl>"
        ≡ cut "dt" 1 3 ∷ cut "dd" 3 5 ∷ whole "dl" 0 5 ∷ [] }
    ensures options { elements_in "<select><option>a<option>b</select>"
        ≡ cut "option" 1 3 ∷ cut "option" 3 5 ∷ whole "select" 0 5 ∷ [] }
    ensures head { elements_in "<html><head><title>a</title><body>b"
        ≡ whole "title" 2 4 ∷ cut "head" 1 5 ∷ cut "body" 5 7 ∷ cut "html" 0 7 ∷ [] }
    ensures second_body { elements_in "<body>a<body>b" ≡ cut "body" 0 4 ∷ [] }
{}

/// What is left open ends with what holds it, or with the page.
#[tactic(auto, unfolding(tl_html_spec::specs::Reader::read, tl_html_spec::specs::Reader::rest_before))]
pub fn left_open()
    ensures at_the_end { elements_in "<p>a<b>c" ≡ cut "b" 2 4 ∷ cut "p" 0 4 ∷ [] }
    ensures in_another { elements_in "<div><b>x</div>y" ≡ cut "b" 1 3 ∷ whole "div" 0 3 ∷ [] }
    ensures across { elements_in "<b><i>x</b>y</i>" ≡ cut "i" 1 3 ∷ whole "b" 0 3 ∷ [] }
    ensures cut_page { elements_in "<i>a<b c=" ≡ cut "i" 0 3 ∷ [] }
{}

/// Elements of one piece: void ones, those that the self-closing flag ends, and what an end tag
/// puts in.
#[tactic(auto, unfolding(tl_html_spec::specs::Reader::read, tl_html_spec::specs::Reader::rest_before))]
pub fn one_piece()
    ensures void { elements_in "a<br>b<img src=x/>" ≡ alone "br" 1 ∷ alone "img" 3 ∷ [] }
    ensures in_svg { elements_in "<svg><path d=\"M\"/></svg>"
        ≡ alone "path" 1 ∷ whole "svg" 0 2 ∷ [] }
    ensures flag_elsewhere { elements_in "<path/>x" ≡ cut "path" 0 2 ∷ [] }
    ensures line_break { elements_in "a</br>b" ≡ alone "br" 1 ∷ [] }
    ensures paragraph { elements_in "<p>a<div>b</div></p>"
        ≡ cut "p" 0 2 ∷ whole "div" 2 4 ∷ whole "p" 5 5 ∷ [] }
{}

/// Broken pages.
#[tactic(auto, unfolding(tl_html_spec::specs::Reader::read, tl_html_spec::specs::Reader::rest_before))]
pub fn broken_pages()
    ensures names { elements_in "-<p</i><p<title><!--<script>"
        ≡ cut "p<title" 2 4 ∷ cut "p<" 1 4 ∷ [] }
    ensures values { elements_in "<a href=&amp;</></svg>\"c" ≡ cut "a" 0 3 ∷ [] }
    ensures raw_text { elements_in "<li><ul>id=x></script>'<iframe>"
        ≡ cut "iframe" 5 6 ∷ cut "ul" 1 6 ∷ cut "li" 0 6 ∷ [] }
    ensures comment { elements_in "<?<iframe></b> k = v<p>" ≡ cut "p" 3 4 ∷ [] }
    ensures end_tag_in_a_title { elements_in "&#x<title></style><iframe>&#!"
        ≡ cut "title" 1 3 ∷ [] }
    ensures without_a_name { elements_in "</style>b><ul></> <img src=x/>"
        ≡ alone "img" 5 ∷ cut "ul" 2 6 ∷ [] }
    ensures row_without_a_table { elements_in "<td>a<tr>" ≡ [] }
{}
