//! Worked rows: tokens with their end tags. `./x compare html --row` writes the words of a row.

ghost use Rattle.std.specs.Prelude.{◌≡◌, ◌++◌, ◌∷◌, [], codes};
ghost use Rattle.tl_html_spec.specs.Balanced.{balanced};
ghost use Rattle.tl_html_spec.specs.HtmlTokenizer.{html_tokens};
ghost use Rattle.tl_html_spec.specs.Examples.{characters, end, read_balanced, start, text};

/// End tags that are left out (13.2.6.4.7).
pub fn left_out_ends()
    ensures paragraphs { read_balanced "<p>a<p>b<ul>c"
        ≡ start "p" [] ++ text "a" ++ end "p" ++ start "p" [] ++ text "b" ++ end "p"
        ++ start "ul" [] ++ text "c" ++ end "ul" }
    ensures list_items { read_balanced "<ul><li>a<ul><li>b</ul><li>c</ul>"
        ≡ start "ul" [] ++ start "li" [] ++ text "a" ++ start "ul" [] ++ start "li" []
        ++ text "b" ++ end "li" ++ end "ul" ++ end "li" ++ start "li" [] ++ text "c"
        ++ end "li" ++ end "ul" }
    ensures definitions { read_balanced "<dl><dt>a<dd>b<dt>c"
        ≡ start "dl" [] ++ start "dt" [] ++ text "a" ++ end "dt" ++ start "dd" [] ++ text "b"
        ++ end "dd" ++ start "dt" [] ++ text "c" ++ end "dt" ++ end "dl" }
    ensures options { read_balanced "<select><option>a<optgroup><option>b"
        ≡ start "select" [] ++ start "option" [] ++ text "a" ++ end "option"
        ++ start "optgroup" [] ++ start "option" [] ++ text "b" ++ end "option"
        ++ end "optgroup" ++ end "select" }
    ensures headings { read_balanced "<h1>a<h2>b</h3>c"
        ≡ start "h1" [] ++ text "a" ++ end "h1" ++ start "h2" [] ++ text "b" ++ end "h2"
        ++ text "c" }
    ensures links { read_balanced "<a>x<a>y"
        ≡ start "a" [] ++ text "x" ++ end "a" ++ start "a" [] ++ text "y" ++ end "a" }
    ensures ruby { read_balanced "<ruby>a<rt>b<rt>c</ruby>"
        ≡ start "ruby" [] ++ text "a" ++ start "rt" [] ++ text "b" ++ end "rt" ++ start "rt" []
        ++ text "c" ++ end "rt" ++ end "ruby" }
    ensures all_at_the_end { read_balanced "<div><b>x"
        ≡ start "div" [] ++ start "b" [] ++ text "x" ++ end "b" ++ end "div" }
{}

/// The parts of a table (13.2.6.4.9 to .15).
pub fn tables()
    ensures rows { read_balanced "<table><tr><td>a<td>b<tr><td>c</table>d"
        ≡ start "table" [] ++ start "tr" [] ++ start "td" [] ++ text "a" ++ end "td"
        ++ start "td" [] ++ text "b" ++ end "td" ++ end "tr" ++ start "tr" [] ++ start "td" []
        ++ text "c" ++ end "td" ++ end "tr" ++ end "table" ++ text "d" }
    ensures sections { read_balanced "<table><thead><tr><th>a<tbody><tr><td>b"
        ≡ start "table" [] ++ start "thead" [] ++ start "tr" [] ++ start "th" [] ++ text "a"
        ++ end "th" ++ end "tr" ++ end "thead" ++ start "tbody" [] ++ start "tr" []
        ++ start "td" [] ++ text "b" ++ end "td" ++ end "tr" ++ end "tbody" ++ end "table" }
    ensures no_table { read_balanced "<td>x" ≡ text "x" }
    ensures in_a_cell { read_balanced "<table><td><table><td></table></table>"
        ≡ start "table" [] ++ start "td" [] ++ start "table" [] ++ start "td" [] ++ end "td"
        ++ end "table" ++ end "td" ++ end "table" }
{}

/// End tags and start tags that are dropped, or put in.
pub fn others()
    ensures nothing_open { read_balanced "</p></br></div></b>"
        ≡ start "p" [] ++ end "p" ++ start "br" [] }
    ensures crossed { read_balanced "<b><p>x</b>y"
        ≡ start "b" [] ++ start "p" [] ++ text "xy" ++ end "p" ++ end "b" }
    ensures form_in_a_form { read_balanced "<form><form></form>" ≡ start "form" [] ++ end "form" }
    ensures head { read_balanced "<head><title>x</title>y"
        ≡ start "head" [] ++ start "title" [] ++ text "x" ++ end "title" ++ end "head"
        ++ text "y" }
    ensures heads_in_svg { balanced (html_tokens
        (codes "<svg><head><head>" ++ (0xC3 ∷ 0xA9 ∷ []))) ≡ start "svg" [] ++ start "head" []
        ++ start "head" [] ++ end "head" ++ end "head" ++ characters (0xC3 ∷ 0xA9 ∷ [])
        ++ end "svg" }
    ensures second_body { read_balanced "<body><body>" ≡ start "body" [] ++ end "body" }
    ensures void { read_balanced "<br></br><img></img>"
        ≡ start "br" [] ++ start "br" [] ++ start "img" [] }
    ensures self_closing { read_balanced "<b/>x<svg><path/></svg>"
        ≡ start "b" [] ++ text "x" ++ start "svg" [] ++ start "path" [] ++ end "path"
        ++ end "svg" ++ end "b" }
    ensures feed_after_pre { balanced (html_tokens
        (codes "<pre>" ++ (0x0A ∷ 0x0A ∷ []) ++ codes "x"))
        ≡ start "pre" [] ++ characters ((0x0A ∷ []) ++ codes "x") ++ end "pre" }
    ensures null { balanced (html_tokens (codes "a" ++ (0x00 ∷ []) ++ codes "b")) ≡ text "ab" }
{}
