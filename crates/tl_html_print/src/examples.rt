//! Worked rows: what the standard's words say of small trees (13.3).

ghost use Rattle.std.specs.Prelude.{[], codes, ◌++◌, ◌≡◌, ◌∷◌};
ghost use Rattle.tl_html_print.specs.Examples.{as_text, as_value, document, holding, in_body, inner, keyed, outer, scripted};
ghost use Rattle.tl_dom_spec.specs.Tags.{no_space, xlink_space, xml_space, xmlns_space};

/// Escaping a string.
pub fn escapes()
    ensures nothing { as_text (codes "") ≡ codes "" }
    ensures ampersand { as_text (codes "a&b&amp;") ≡ codes "a&amp;b&amp;amp;" }
    ensures less_than { as_text (codes "<b>") ≡ codes "&lt;b&gt;" }
    ensures quotes_in_a_text { as_text (codes "\"'") ≡ codes "\"'" }
    ensures quotes_in_a_value { as_value (codes "\"'") ≡ codes "&quot;'" }
    ensures less_than_in_a_value { as_value (codes "<b>") ≡ codes "&lt;b&gt;" }
    ensures no_break_space { as_text (97 ∷ 194 ∷ 160 ∷ 98 ∷ []) ≡ codes "a&nbsp;b" }
    ensures no_break_space_in_a_value { as_value (194 ∷ 160 ∷ []) ≡ codes "&nbsp;" }
    ensures no_break_spaces { as_text (194 ∷ 160 ∷ 194 ∷ 160 ∷ []) ≡ codes "&nbsp;&nbsp;" }
    ensures another_character { as_text (194 ∷ 169 ∷ 195 ∷ 160 ∷ []) ≡ 194 ∷ 169 ∷ 195 ∷ 160 ∷ [] }
    ensures cut_off { as_text (194 ∷ []) ≡ 194 ∷ [] }
    ensures behind_a_byte_that_is_none { as_text (194 ∷ 194 ∷ 160 ∷ []) ≡ 194 ∷ codes "&nbsp;" }
    ensures apart { as_text (194 ∷ 60 ∷ 160 ∷ []) ≡ 194 ∷ codes "&lt;" ++ 160 ∷ [] }
{}

/// Attributes, and the names that they are serialized by.
pub fn attributes()
    ensures plain { keyed no_space "href" "a" ≡ codes " href=\"a\"" }
    ensures empty { keyed no_space "async" "" ≡ codes " async=\"\"" }
    ensures xml { keyed xml_space "lang" "a" ≡ codes " xml:lang=\"a\"" }
    ensures xmlns { keyed xmlns_space "xmlns" "a" ≡ codes " xmlns=\"a\"" }
    ensures xmlns_of_a_prefix { keyed xmlns_space "xlink" "a" ≡ codes " xmlns:xlink=\"a\"" }
    ensures xlink { keyed xlink_space "href" "a" ≡ codes " xlink:href=\"a\"" }
    ensures escaped { keyed no_space "a" "<&\">" ≡ codes " a=\"&lt;&amp;&quot;&gt;\"" }
    ensures no_name_is_escaped { in_body "<p a&b=c>" ≡ codes "<p a&b=\"c\"></p>" }
    ensures in_order { in_body "<p b c=d a>" ≡ codes "<p b=\"\" c=\"d\" a=\"\"></p>" }
    ensures in_svg { in_body "<svg viewbox=a xlink:href=b xmlns=c>" ≡ codes "<svg viewBox=\"a\" xlink:href=\"b\" xmlns=\"c\"></svg>" }
{}

/// Elements.
pub fn elements()
    ensures empty { in_body "<p>" ≡ codes "<p></p>" }
    ensures text { in_body "<p>a" ≡ codes "<p>a</p>" }
    ensures deep { in_body "<p><b><i>a</i></b>b" ≡ codes "<p><b><i>a</i></b>b</p>" }
    ensures end_together { in_body "<p><b><i>a" ≡ codes "<p><b><i>a</i></b></p>" }
    ensures beside { in_body "<p>a<p>b" ≡ codes "<p>a</p><p>b</p>" }
    ensures void { in_body "a<br>b<img src=c>" ≡ codes "a<br>b<img src=\"c\">" }
    ensures void_and_old { in_body "<keygen><param><bgsound><basefont>" ≡ codes "<keygen><param><bgsound><basefont>" }
    ensures frame { document "<frameset><frame>" ≡ codes "<html><head></head><frameset><frame></frameset></html>" }
    ensures text_in_a_void_element { holding "br" "a" ≡ codes "<br>" }
    ensures void_by_name_alone { in_body "<svg><image/><link>" ≡ codes "<svg><image></image><link></link></svg>" }
    ensures local_names { in_body "<svg><foreignobject></svg><math><mi>a" ≡ codes "<svg><foreignObject></foreignObject></svg><math><mi>a</mi></math>" }
    ensures template { in_body "<template><p>a</template>b" ≡ codes "<template><p>a</p></template>b" }
    ensures templates { in_body "<template><template>a" ≡ codes "<template><template>a</template></template>" }
    ensures empty_template { in_body "<template></template>" ≡ codes "<template></template>" }
{}

/// Texts, comments and doctypes.
pub fn others()
    ensures text { in_body "a&amp;b&lt;c" ≡ codes "a&amp;b&lt;c" }
    ensures no_break_space { in_body "&nbsp;" ≡ codes "&nbsp;" }
    ensures style { in_body "<style>a<b&amp;" ≡ codes "<style>a<b&amp;</style>" }
    ensures script { in_body "<script>a<b && c" ≡ codes "<script>a<b && c</script>" }
    ensures xmp { in_body "<xmp>a<b" ≡ codes "<xmp>a<b</xmp>" }
    ensures iframe { in_body "<iframe>a<b" ≡ codes "<iframe>a<b</iframe>" }
    ensures noembed { in_body "<noembed>a<b" ≡ codes "<noembed>a<b</noembed>" }
    ensures noframes { in_body "<noframes>a<b" ≡ codes "<noframes>a<b</noframes>" }
    ensures plaintext { in_body "<plaintext>a<b" ≡ codes "<plaintext>a<b</plaintext>" }
    ensures title { in_body "<title>a<b" ≡ codes "<title>a&lt;b</title>" }
    ensures textarea { in_body "<textarea>a<b" ≡ codes "<textarea>a&lt;b</textarea>" }
    ensures style_in_svg { in_body "<svg><style>a&amp;" ≡ codes "<svg><style>a&amp;</style></svg>" }
    ensures noscript { in_body "<noscript>a<b>&lt;" ≡ codes "<noscript>a<b>&lt;</b></noscript>" }
    ensures noscript_with_scripting { scripted "<noscript>a<b>&lt;" ≡ codes "<noscript>a<b>&lt;</noscript>" }
    ensures in_a_literal_element { holding "noscript" "<" ≡ codes "<noscript>&lt;</noscript>" }
    ensures first_line_feed { in_body "<pre>\n\na" ≡ codes "<pre>\na</pre>" }
    ensures comment { in_body "<!--a<&-->" ≡ codes "<!--a<&-->" }
    ensures doctype { document "<!doctype html>" ≡ codes "<!DOCTYPE html><html><head></head><body></body></html>" }
    ensures doctype_by_its_name_alone { document "<!doctype HTML public \"a\" 'b'>" ≡ codes "<!DOCTYPE html><html><head></head><body></body></html>" }
{}

/// Nodes by their numbers: of these pages `html` has 0, `head` 1 and `body` 2.
pub fn numbers()
    ensures outer { outer "<p id=a>b<i>c" 3 ≡ codes "<p id=\"a\">b<i>c</i></p>" }
    ensures inner { inner "<p id=a>b<i>c" 3 ≡ codes "b<i>c</i>" }
    ensures last { outer "<p>b<i>c" 5 ≡ codes "<i>c</i>" }
    ensures text { outer "<p>&lt;" 4 ≡ codes "&lt;" }
    ensures below_a_text { inner "<p>&lt;" 4 ≡ codes "" }
    ensures text_of_a_script { outer "<body><script>a<b" 4 ≡ codes "a<b" }
    ensures void { inner "<body><br>" 3 ≡ codes "" }
    ensures template { outer "<body><template>a" 3 ≡ codes "<template>a</template>" }
    ensures below_a_template { inner "<body><template>a" 3 ≡ codes "a" }
    ensures contents { outer "<body><template>a" 4 ≡ codes "a" }
    ensures all { outer "a" 0 ≡ codes "<html><head></head><body>a</body></html>" }
    ensures none { outer "a" 4 ≡ codes "" }
{}
