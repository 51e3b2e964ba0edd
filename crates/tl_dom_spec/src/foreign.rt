//! Worked rows: foreign content (13.2.6.5), and what the tokenizer asks of it.

ghost use Rattle.std.specs.Prelude.{◌≡◌, codes, ◌++◌};
ghost use Rattle.tl_html_spec.specs.HtmlTokenizer.{replacement};
ghost use Rattle.tl_dom_spec.specs.Examples.{in_body, inside, inside_a_form, inside_math, inside_quirks, inside_svg, page, scripted_inside};

/// Tokens in foreign content.
pub fn foreign_content()
    ensures nul { in_body "<svg>a\0b" ≡ codes "<svg svg>['a" ++ replacement ++ codes "b']" }
    ensures white_space { in_body "<svg> <g>a" ≡ codes "<svg svg>[' '<svg g>['a']]" }
    ensures white_space_leaves_frameset_ok { page "<svg> </svg><frameset>" ≡ codes "<html>[<head><frameset>]" }
    ensures text_makes_no_frameset_ok { page "<svg>a</svg><frameset>" ≡ codes "<html>[<head><body>[<svg svg>['a']]]" }
    ensures comment { in_body "<svg><!--a-->" ≡ codes "<svg svg>[<!--a-->]" }
    ensures doctype { in_body "<svg><!DOCTYPE a><g>" ≡ codes "<svg svg>[<svg g>]" }
    ensures start_tag_that_ends_it { in_body "<svg><g><p>a" ≡ codes "<svg svg>[<svg g>]<p>['a']" }
    ensures start_tag_that_ends_it_up_to_an_integration_point { in_body "<svg><desc><math><mi><mglyph><b>a" ≡ codes "<svg svg>[<svg desc>[<math math>[<math mi>[<math mglyph><b>['a']]]]]" }
    ensures table_ends_it { in_body "<math><mi><table>" ≡ codes "<math math>[<math mi>[<table>]]" }
    ensures font_with_a_color_ends_it { in_body "<svg><font color=red>a" ≡ codes "<svg svg><font color=red>['a']" }
    ensures font_with_a_face_ends_it { in_body "<math><font face=a>b" ≡ codes "<math math><font face=a>['b']" }
    ensures font_with_a_size_ends_it { in_body "<svg><font size=1>a" ≡ codes "<svg svg><font size=1>['a']" }
    ensures font_stays { in_body "<svg><font a=1>b" ≡ codes "<svg svg>[<svg font a=1>['b']]" }
    ensures p_end_tag_ends_it { in_body "<svg>a</p>b" ≡ codes "<svg svg>['a']<p>'b'" }
    ensures br_end_tag_ends_it { in_body "<svg><g></br>a" ≡ codes "<svg svg>[<svg g>]<br>'a'" }
    ensures other_start_tag { in_body "<svg><g><A/>b" ≡ codes "<svg svg>[<svg g>[<svg a>'b']]" }
    ensures other_start_tag_in_math { in_body "<math><foo/><bar>a" ≡ codes "<math math>[<math foo><math bar>['a']]" }
    ensures script_end_tag { in_body "<svg><script>a<b></script>c" ≡ codes "<svg svg>[<svg script>['a']]<b>['c']" }
    ensures other_end_tag { in_body "<svg><g><a>b</g>c" ≡ codes "<svg svg>[<svg g>[<svg a>['b']]'c']" }
    ensures end_tag_in_another_case { in_body "<svg><foreignObject></FOREIGNOBJECT>a" ≡ codes "<svg svg>[<svg foreignObject>'a']" }
    ensures end_tag_of_an_html_element { in_body "<div><svg><g></div>a" ≡ codes "<div>[<svg svg>[<svg g>]]'a'" }
    ensures end_tag_without_one { in_body "<svg><g></foo>a" ≡ codes "<svg svg>[<svg g>['a']]" }
    ensures end_tag_in_a_fragment { inside_svg "g" "</g>a</svg>b" ≡ codes "'ab'" }
    ensures start_tag_that_ends_it_in_a_fragment { inside_svg "g" "a<p>b" ≡ codes "'a'<p>['b']" }
    ensures end_of_file { in_body "<svg><g>" ≡ codes "<svg svg>[<svg g>]" }
{}

/// The tree construction dispatcher (13.2.6).
pub fn dispatcher()
    ensures text_integration_point { in_body "<math><mi><p>a" ≡ codes "<math math>[<math mi>[<p>['a']]]" }
    ensures text_in_a_text_integration_point { in_body "<math><mi><p><b></p>a" ≡ codes "<math math>[<math mi>[<p>[<b>]<b>['a']]]" }
    ensures text_integration_point_and_a_comment { in_body "<math><mi><!--a--></mi>" ≡ codes "<math math>[<math mi>[<!--a-->]]" }
    ensures mglyph_stays_in_math { in_body "<math><mi><mglyph><malignmark/>a" ≡ codes "<math math>[<math mi>[<math mglyph>[<math malignmark>'a']]]" }
    ensures annotation { in_body "<math><annotation-xml><svg>a" ≡ codes "<math math>[<math annotation-xml>[<svg svg>['a']]]" }
    ensures annotation_ends_by_a_paragraph { in_body "<math><annotation-xml><p>a" ≡ codes "<math math>[<math annotation-xml>]<p>['a']" }
    ensures annotation_of_html { in_body "<math><annotation-xml encoding=Text/HTML><p>a" ≡ codes "<math math>[<math annotation-xml encoding=Text/HTML>[<p>['a']]]" }
    ensures annotation_of_xhtml { in_body "<math><annotation-xml encoding=application/xhtml+xml><p>a" ≡ codes "<math math>[<math annotation-xml encoding=application/xhtml+xml>[<p>['a']]]" }
    ensures foreign_object { in_body "<svg><foreignObject><p>a</foreignObject>b" ≡ codes "<svg svg>[<svg foreignObject>[<p>['ab']]]" }
    ensures desc { in_body "<svg><desc><p>a" ≡ codes "<svg svg>[<svg desc>[<p>['a']]]" }
    ensures title { in_body "<svg><title><p>a" ≡ codes "<svg svg>[<svg title>[<p>['a']]]" }
    ensures html_in_a_fragment_of_svg { inside_svg "desc" "<p>a" ≡ codes "<p>['a']" }
    ensures math_in_a_fragment { inside_math "mi" "<p>a<mglyph>" ≡ codes "<p>['a'<mglyph>]" }
{}

/// Names and keys of foreign elements (13.2.6.1).
pub fn adjusted()
    ensures names_of_svg { in_body "<svg><LINEARGRADIENT/><foreignobject>" ≡ codes "<svg svg>[<svg linearGradient><svg foreignObject>]" }
    ensures names_in_math_stay { in_body "<math><lineargradient/>" ≡ codes "<math math>[<math lineargradient>]" }
    ensures keys_of_svg { in_body "<svg VIEWBOX=a preserveaspectratio=b foo=c>" ≡ codes "<svg svg viewBox=a preserveAspectRatio=b foo=c>" }
    ensures key_of_math { in_body "<math definitionurl=a viewbox=b>" ≡ codes "<math math definitionURL=a viewbox=b>" }
    ensures keys_in_html_stay { in_body "<p viewbox=a definitionurl=b xlink:href=c>" ≡ codes "<p viewbox=a definitionurl=b xlink:href=c>" }
    ensures keys_with_a_prefix { in_body "<svg xlink:href=a xml:lang=b xmlns:xlink=c xml:space=d>" ≡ codes "<svg svg xlink href=a xml lang=b xmlns xlink=c xml space=d>" }
    ensures other_keys_with_a_prefix { in_body "<svg xlink:foo=a xml:base=b>" ≡ codes "<svg svg xlink:foo=a xml:base=b>" }
    ensures xmlns { in_body "<math xmlns=a>" ≡ codes "<math math xmlns xmlns=a>" }
{}

/// The tokenizer asks tree construction (13.2.5.42, .69 to .71).
pub fn tokenizer()
    ensures cdata_in_svg { in_body "<svg><![CDATA[a<b]]>c" ≡ codes "<svg svg>['a<bc']" }
    ensures cdata_with_brackets { in_body "<svg><![CDATA[a]b]]c]]]>d" ≡ codes "<svg svg>['a]b]]c]d']" }
    ensures cdata_at_the_end { in_body "<svg><![CDATA[a]]" ≡ codes "<svg svg>['a]]']" }
    ensures cdata_at_the_end_after_one_bracket { in_body "<svg><![CDATA[a]" ≡ codes "<svg svg>['a]']" }
    ensures cdata_at_the_end_in_a_text { in_body "<svg><![CDATA[a" ≡ codes "<svg svg>['a']" }
    ensures cdata_that_is_cut { in_body "<svg><![CDA" ≡ codes "<svg svg>[<!--[CDA-->]" }
    ensures cdata_in_html { in_body "<![CDATA[a]]>b" ≡ codes "<!--[CDATA[a]]-->'b'" }
    ensures cdata_in_desc { in_body "<svg><desc><![CDATA[a]]>b" ≡ codes "<svg svg>[<svg desc>['ab']]" }
    ensures cdata_in_a_paragraph_in_desc { in_body "<svg><desc><p><![CDATA[a]]>b" ≡ codes "<svg svg>[<svg desc>[<p>[<!--[CDATA[a]]-->'b']]]" }
    ensures cdata_in_a_fragment_of_svg { inside_svg "g" "<![CDATA[a]]>" ≡ codes "'a'" }
    ensures cdata_in_another_case { in_body "<svg><![cdata[a]]>b" ≡ codes "<svg svg>[<!--[cdata[a]]-->'b']" }
    ensures style_in_svg_holds_markup { in_body "<svg><style>a<g>b" ≡ codes "<svg svg>[<svg style>['a'<svg g>['b']]]" }
    ensures title_in_svg_holds_markup { in_body "<svg><title>a<b>c</title>d" ≡ codes "<svg svg>[<svg title>['a'<b>['cd']]]" }
    ensures style_that_is_dropped_is_no_raw_text { page "<frameset><style><frame>" ≡ codes "<html>[<head><frameset>[<frame>]]" }
    ensures title_in_a_column_group_of_a_template { in_body "<template><col><title><col></title>" ≡ codes "<template>{<col><col>}" }
    ensures plaintext_in_svg { in_body "<svg><plaintext>a</svg>b" ≡ codes "<svg svg>[<svg plaintext>['a']]'b'" }
{}

/// Fragments (13.4).
pub fn fragments()
    ensures title { inside "title" "a<b></title>c&amp;" ≡ codes "'a<b></title>c&'" }
    ensures style { inside "style" "a<b></style>&amp;" ≡ codes "'a<b></style>&amp;'" }
    ensures script { inside "script" "<!--a</script>b" ≡ codes "'<!--a</script>b'" }
    ensures plaintext { inside "plaintext" "a<b>" ≡ codes "'a<b>'" }
    ensures noscript { inside "noscript" "a<b>c" ≡ codes "'a'<b>['c']" }
    ensures noscript_with_scripting { scripted_inside "noscript" "a<b>c" ≡ codes "'a<b>c'" }
    ensures title_of_svg { inside_svg "title" "a<b>c" ≡ codes "'a'<b>['c']" }
    ensures body { inside "body" "<td>a</body>b" ≡ codes "'ab'" }
    ensures head { inside "head" "<title>a</title><p>b" ≡ codes "<title>['a']<p>['b']" }
    ensures html { inside "html" "<title>a</title><p>b" ≡ codes "<head>[<title>['a']]<body>[<p>['b']]" }
    ensures row { inside "tr" "<td>a<tr>b" ≡ codes "<td>['a']'b'" }
    ensures cell { inside "td" "a<tr>b</td>c" ≡ codes "'abc'" }
    ensures paragraph { inside "p" "<p>a</p></p>b" ≡ codes "<p>['a']<p>'b'" }
    ensures frameset { inside "frameset" "a<frame>" ≡ codes "<frame>" }
    ensures noframes { inside "noframes" "a<b>" ≡ codes "'a<b>'" }
    ensures form_in_a_form { inside_a_form "div" "<form>a" ≡ codes "'a'" }
    ensures form_in_a_table_in_a_form { inside_a_form "table" "<form>" ≡ codes "" }
    ensures table_in_quirks_mode { inside_quirks "div" "<p>a<table>" ≡ codes "<p>['a'<table>]" }
    ensures table_in_no_quirks_mode { inside "div" "<p>a<table>" ≡ codes "<p>['a']<table>" }
{}
