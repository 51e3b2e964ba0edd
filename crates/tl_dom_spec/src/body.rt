//! Worked rows: "in body" (13.2.6.4.7), but for formatting elements.

ghost use Rattle.std.specs.Prelude.{◌≡◌, codes};
ghost use Rattle.tl_dom_spec.specs.Examples.{in_body, in_body_without_search, inside, page, scripted};

/// Characters, comments, and the end of the page.
pub fn texts()
    ensures nul_is_dropped { in_body "a\0b" ≡ codes "'ab'" }
    ensures white_space { in_body "<p> \n" ≡ codes "<p>[' \n']" }
    ensures white_space_opens_formatting_again { in_body "<p><b></p> " ≡ codes "<p>[<b>]<b>[' ']" }
    ensures text_makes_no_frameset_ok { page "a<frameset>" ≡ codes "<html>[<head><body>['a']]" }
    ensures white_space_leaves_it_ok { page "<p> <frameset>" ≡ codes "<html>[<head><frameset>]" }
    ensures comment { in_body "a<!--b-->c" ≡ codes "'a'<!--b-->'c'" }
    ensures doctype { in_body "a<!DOCTYPE b>c" ≡ codes "'ac'" }
    ensures end_of_file { in_body "<p><b>" ≡ codes "<p>[<b>]" }
{}

/// `html`, `head`, `body`, `frameset` and elements of the head.
pub fn the_page()
    ensures html_adds_keys { page "<html a=1><p><html a=2 b=3>" ≡ codes "<html a=1 b=3>[<head><body>[<p>]]" }
    ensures html_in_a_template { page "<body><template><html a=1></template>" ≡ codes "<html>[<head><body>[<template>{}]]" }
    ensures link { in_body "a<link><meta>" ≡ codes "'a'<link><meta>" }
    ensures base { in_body "a<base>b" ≡ codes "'a'<base>'b'" }
    ensures title { in_body "a<title>b<p></title>c" ≡ codes "'a'<title>['b<p>']'c'" }
    ensures script { in_body "<p>a<script>b<i></script>c" ≡ codes "<p>['a'<script>['b<i>']'c']" }
    ensures style { in_body "<p><style>a<p></style>" ≡ codes "<p>[<style>['a<p>']]" }
    ensures noframes { in_body "<p><noframes>a<p></noframes>" ≡ codes "<p>[<noframes>['a<p>']]" }
    ensures template { in_body "<p><template><p>a</template>b" ≡ codes "<p>[<template>{<p>['a']}'b']" }
    ensures template_end_tag_without_one { in_body "a</template>b" ≡ codes "'ab'" }
    ensures body_adds_keys { page "<body a=1><p><body a=2 b=3>" ≡ codes "<html>[<head><body a=1 b=3>[<p>]]" }
    ensures body_in_a_template { page "<body><template><body a=1></template>" ≡ codes "<html>[<head><body>[<template>{}]]" }
    ensures body_in_a_fragment { inside "div" "<body a=1>b" ≡ codes "'b'" }
    ensures frameset_takes_the_place_of_the_body { page "<p><b><frameset a=1><frame>" ≡ codes "<html>[<head><frameset a=1>[<frame>]]" }
    ensures frameset_after_a_void_element { page "<br><frameset>" ≡ codes "<html>[<head><body>[<br>]]" }
    ensures frameset_after_body { page "<body a=1><frameset>" ≡ codes "<html>[<head><body a=1>]" }
    ensures frameset_in_a_fragment { inside "div" "<frameset>a" ≡ codes "'a'" }
    ensures body_end_tag { page "<p>a</body>b" ≡ codes "<html>[<head><body>[<p>['ab']]]" }
    ensures body_end_tag_where_none_is_open { inside "div" "<p></body>a" ≡ codes "<p>['a']" }
    ensures html_end_tag { page "<p>a</html>b" ≡ codes "<html>[<head><body>[<p>['ab']]]" }
    ensures html_end_tag_where_no_body_is_open { inside "div" "<p></html>a" ≡ codes "<p>['a']" }
    ensures head_in_the_body { in_body "<p><head a=1>b" ≡ codes "<p>['b']" }
{}

/// Paragraphs, blocks, headings, rules.
pub fn blocks()
    ensures p_in_p { in_body "<p>a<p>b" ≡ codes "<p>['a']<p>['b']" }
    ensures p_in_button_in_p { in_body "<p><button><p>a" ≡ codes "<p>[<button>[<p>['a']]]" }
    ensures block_in_p { in_body "<p>a<div>b" ≡ codes "<p>['a']<div>['b']" }
    ensures search_in_p { in_body "<p>a<search>b" ≡ codes "<p>['a']<search>['b']" }
    ensures dialog_in_p { in_body "<p>a<dialog>b<p>c" ≡ codes "<p>['a']<dialog>['b'<p>['c']]" }
    ensures block_end_tag { in_body "<div><p>a</div>b" ≡ codes "<div>[<p>['a']]'b'" }
    ensures block_end_tag_through_others { in_body "<div><span>a</div>b" ≡ codes "<div>[<span>['a']]'b'" }
    ensures block_end_tag_without_one { in_body "<p>a</div>b" ≡ codes "<p>['ab']" }
    ensures block_end_tag_beyond_a_cell { in_body "<div><table><td></div>a" ≡ codes "<div>[<table>[<tbody>[<tr>[<td>['a']]]]]" }
    ensures heading_in_p { in_body "<p>a<h1>b" ≡ codes "<p>['a']<h1>['b']" }
    ensures heading_in_heading { in_body "<h1>a<h2>b" ≡ codes "<h1>['a']<h2>['b']" }
    ensures heading_below_heading { in_body "<h1><i><h2>b" ≡ codes "<h1>[<i>[<h2>['b']]]" }
    ensures heading_ends_by_another_one { in_body "<h1><p>a</h6>b" ≡ codes "<h1>[<p>['a']]'b'" }
    ensures heading_end_tag_without_one { in_body "<p>a</h1>b" ≡ codes "<p>['ab']" }
    ensures pre_in_p { in_body "<p>a<pre>b" ≡ codes "<p>['a']<pre>['b']" }
    ensures pre_drops_a_line_feed { in_body "<pre>\na" ≡ codes "<pre>['a']" }
    ensures pre_drops_one_line_feed { in_body "<pre>\n\na" ≡ codes "<pre>['\na']" }
    ensures line_feed_of_listing_in_a_comment { in_body "<listing><!--a-->\nb" ≡ codes "<listing>[<!--a-->'\nb']" }
    ensures pre_end_tag { in_body "<pre><p>a</pre>b" ≡ codes "<pre>[<p>['a']]'b'" }
    ensures rule_in_p { in_body "<p>a<hr>b" ≡ codes "<p>['a']<hr>'b'" }
    ensures rule_makes_no_frameset_ok { page "<hr><frameset>" ≡ codes "<html>[<head><body>[<hr>]]" }
    ensures stray_p_end_tag { in_body "a</p>b" ≡ codes "'a'<p>'b'" }
    ensures p_end_tag { in_body "<p>a<span>b</p>c" ≡ codes "<p>['a'<span>['b']]'c'" }
    ensures p_end_tag_beyond_a_button { in_body "<p><button></p>a" ≡ codes "<p>[<button>[<p>'a']]" }
{}

/// Forms and what is in them.
pub fn forms()
    ensures form_in_form { in_body "<form a=1><div><form b=2>c" ≡ codes "<form a=1>[<div>['c']]" }
    ensures form_in_p { in_body "<p><form>a" ≡ codes "<p><form>['a']" }
    ensures form_in_a_template { in_body "<form><template><form>a</form></template>" ≡ codes "<form>[<template>{<form>['a']}]" }
    ensures form_after_a_template { in_body "<template><form></form></template><form>a" ≡ codes "<template>{<form>}<form>['a']" }
    ensures form_end_tag { in_body "<form><p>a</form>b" ≡ codes "<form>[<p>['a']]'b'" }
    ensures form_end_tag_from_between_others { in_body "<form><div></form>a</div>b" ≡ codes "<form>[<div>['a']]'b'" }
    ensures form_end_tag_beyond_a_cell { in_body "<form><table><td></form>a" ≡ codes "<form>[<table>[<tbody>[<tr>[<td>['a']]]]]" }
    ensures form_end_tag_without_one { in_body "a</form>b" ≡ codes "'ab'" }
    ensures form_end_tag_in_a_template { in_body "<template><form><p>a</form>b</template>" ≡ codes "<template>{<form>[<p>['a']]'b'}" }
    ensures form_in_a_form_fragment { inside "form" "<form>a" ≡ codes "'a'" }
    ensures button_in_button { in_body "<button><p>a<button>b" ≡ codes "<button>[<p>['a']]<button>['b']" }
    ensures button_end_tag { in_body "<button><p>a</button>b" ≡ codes "<button>[<p>['a']]'b'" }
    ensures button_makes_no_frameset_ok { page "<button></button><frameset>" ≡ codes "<html>[<head><body>[<button>]]" }
    ensures input { in_body "<p><input>a" ≡ codes "<p>[<input>'a']" }
    ensures hidden_input_leaves_frameset_ok { page "<input type=HIDDEN><frameset>" ≡ codes "<html>[<head><frameset>]" }
    ensures input_makes_no_frameset_ok { page "<input type=text><frameset>" ≡ codes "<html>[<head><body>[<input type=text>]]" }
    ensures textarea { in_body "<textarea>\n<p>a</textarea>b" ≡ codes "<textarea>['<p>a']'b'" }
    ensures textarea_makes_no_frameset_ok { page "<textarea></textarea><frameset>" ≡ codes "<html>[<head><body>[<textarea>]]" }
{}

/// `select` and what is in it, as the standard has it since 2025.
pub fn selects()
    ensures div_in_select { in_body "<select><div>a</div></select>b" ≡ codes "<select>[<div>['a']]'b'" }
    ensures select_in_select_ends_it { in_body "<select><select>a" ≡ codes "<select>'a'" }
    ensures select_end_tag { in_body "<select><div><option>a</select>b" ≡ codes "<select>[<div>[<option>['a']]]'b'" }
    ensures select_end_tag_without_one { in_body "a</select>b" ≡ codes "'ab'" }
    ensures input_in_select_ends_it { in_body "<select><option>a<input>b" ≡ codes "<select>[<option>['a']]<input>'b'" }
    ensures input_in_a_select_fragment { inside "select" "<option>a<input>b" ≡ codes "<option>['ab']" }
    ensures select_in_a_select_fragment { inside "select" "<select><option>a" ≡ codes "<option>['a']" }
    ensures option_in_option { in_body "<select><option>a<option>b" ≡ codes "<select>[<option>['a']<option>['b']]" }
    ensures option_in_option_without_a_select { in_body "<option>a<option>b" ≡ codes "<option>['a']<option>['b']" }
    ensures option_elsewhere { in_body "<option><p>a<option>b" ≡ codes "<option>[<p>['a'<option>['b']]]" }
    ensures option_in_a_group { in_body "<select><optgroup><option>a<option>b" ≡ codes "<select>[<optgroup>[<option>['a']<option>['b']]]" }
    ensures option_after_a_paragraph_in_select { in_body "<select><p>a<option>b" ≡ codes "<select>[<p>['a']<option>['b']]" }
    ensures group_in_a_group { in_body "<select><optgroup><option>a<optgroup>b" ≡ codes "<select>[<optgroup>[<option>['a']]<optgroup>['b']]" }
    ensures group_after_an_option { in_body "<option>a<optgroup>b" ≡ codes "<option>['a']<optgroup>['b']" }
    ensures rule_in_select { in_body "<select><option>a<hr><option>b" ≡ codes "<select>[<option>['a']<hr><option>['b']]" }
    ensures rule_in_a_group { in_body "<select><optgroup><option>a<hr>b" ≡ codes "<select>[<optgroup>[<option>['a']]<hr>'b']" }
    ensures select_bounds_scopes { in_body "<p><select></p>a" ≡ codes "<p>[<select>[<p>'a']]" }
    ensures select_opens_formatting_again { in_body "<p><b></p><select>" ≡ codes "<p>[<b>]<b>[<select>]" }
    ensures select_makes_no_frameset_ok { page "<select></select><frameset>" ≡ codes "<html>[<head><body>[<select>]]" }
    ensures table_in_select { in_body "<select><table><td>a</table>b" ≡ codes "<select>[<table>[<tbody>[<tr>[<td>['a']]]]'b']" }
{}

/// Items and descriptions.
pub fn lists()
    ensures item_in_item { in_body "<li>a<li>b" ≡ codes "<li>['a']<li>['b']" }
    ensures item_in_p { in_body "<p>a<li>b" ≡ codes "<p>['a']<li>['b']" }
    ensures item_in_a_list_in_an_item { in_body "<li><ul><li>a" ≡ codes "<li>[<ul>[<li>['a']]]" }
    ensures item_in_div_in_item { in_body "<li><div>a<li>b" ≡ codes "<li>[<div>['a']]<li>['b']" }
    ensures item_in_search_in_item { in_body "<li><search>a<li>b" ≡ codes "<li>[<search>['a'<li>['b']]]" }
    ensures item_in_search_that_is_not_special { in_body_without_search "<li><search>a<li>b" ≡ codes "<li>[<search>['a']]<li>['b']" }
    ensures item_end_tag { in_body "<li><p>a</li>b" ≡ codes "<li>[<p>['a']]'b'" }
    ensures item_end_tag_beyond_a_list { in_body "<li><ul></li>a" ≡ codes "<li>[<ul>['a']]" }
    ensures description_in_description { in_body "<dt>a<dd>b<dt>c" ≡ codes "<dt>['a']<dd>['b']<dt>['c']" }
    ensures description_in_a_list { in_body "<dd><dl><dt>a" ≡ codes "<dd>[<dl>[<dt>['a']]]" }
    ensures description_end_tag { in_body "<dd><p>a</dd>b" ≡ codes "<dd>[<p>['a']]'b'" }
    ensures description_end_tag_of_another_name { in_body "<dd>a</dt>b" ≡ codes "<dd>['ab']" }
{}

/// Elements whose text has no markup.
pub fn texts_without_markup()
    ensures plaintext { in_body "<p>a<plaintext></plaintext><p>" ≡ codes "<p>['a']<plaintext>['</plaintext><p>']" }
    ensures xmp { in_body "<p>a<xmp><p></xmp>b" ≡ codes "<p>['a']<xmp>['<p>']'b'" }
    ensures xmp_opens_formatting_again { in_body "<p><b></p><xmp>" ≡ codes "<p>[<b>]<b>[<xmp>]" }
    ensures iframe { in_body "<p><iframe><p></iframe>b" ≡ codes "<p>[<iframe>['<p>']'b']" }
    ensures noembed { in_body "<p><noembed><p></noembed>b" ≡ codes "<p>[<noembed>['<p>']'b']" }
    ensures noscript { in_body "<noscript><p>a</noscript>b" ≡ codes "<noscript>[<p>['ab']]" }
    ensures noscript_with_scripting { scripted "<body><noscript><p>a</noscript>b" ≡ codes "<html>[<head><body>[<noscript>['<p>a']'b']]" }
    ensures noscript_opens_formatting_again { in_body "<p><b></p><noscript>" ≡ codes "<p>[<b>]<b>[<noscript>]" }
    ensures iframe_makes_no_frameset_ok { page "<iframe></iframe><frameset>" ≡ codes "<html>[<head><body>[<iframe>]]" }
    ensures noembed_leaves_frameset_ok { page "<noembed></noembed><frameset>" ≡ codes "<html>[<head><frameset>]" }
{}

/// Marks, void elements, rubies, other elements.
pub fn others()
    ensures object_bounds_a_paragraph { in_body "<p><object><p>a" ≡ codes "<p>[<object>[<p>['a']]]" }
    ensures object_bounds_formatting { in_body "<b><object>a</b>b</object>c" ≡ codes "<b>[<object>['ab']'c']" }
    ensures object_end_tag { in_body "<object><p>a</object>b" ≡ codes "<object>[<p>['a']]'b'" }
    ensures object_end_tag_without_one { in_body "<p>a</object>b" ≡ codes "<p>['ab']" }
    ensures marquee_end_tag_clears_to_the_marker { in_body "<p><marquee><b></marquee>a" ≡ codes "<p>[<marquee>[<b>]'a']" }
    ensures applet_makes_no_frameset_ok { page "<applet></applet><frameset>" ≡ codes "<html>[<head><body>[<applet>]]" }
    ensures void_element { in_body "<img>a<wbr>b<area><embed><keygen>" ≡ codes "<img>'a'<wbr>'b'<area><embed><keygen>" }
    ensures void_element_opens_formatting_again { in_body "<p><b></p><img>" ≡ codes "<p>[<b>]<b>[<img>]" }
    ensures br_end_tag { in_body "<p>a</br a=1>b" ≡ codes "<p>['a'<br>'b']" }
    ensures br { in_body "<p><br>a" ≡ codes "<p>[<br>'a']" }
    ensures image { in_body "<image a=1>b" ≡ codes "<img a=1>'b'" }
    ensures param { in_body "<p><b></p><param><source><track>" ≡ codes "<p>[<b>]<param><source><track>" }
    ensures param_leaves_frameset_ok { page "<param><frameset>" ≡ codes "<html>[<head><frameset>]" }
    ensures self_closing_flag_is_ignored { in_body "<div/>a<span/>b" ≡ codes "<div>['a'<span>['b']]" }
    ensures rb_in_rb { in_body "<ruby><rb>a<rb>b<rtc>c" ≡ codes "<ruby>[<rb>['a']<rb>['b']<rtc>['c']]" }
    ensures rt_in_rt { in_body "<ruby><rt>a<rp>b<rt>c" ≡ codes "<ruby>[<rt>['a']<rp>['b']<rt>['c']]" }
    ensures rt_in_rtc { in_body "<ruby><rtc><rt>a<rt>b" ≡ codes "<ruby>[<rtc>[<rt>['a']<rt>['b']]]" }
    ensures rb_outside_of_a_ruby { in_body "<p>a<rb>b<rt>c" ≡ codes "<p>['a'<rb>['b'<rt>['c']]]" }
    ensures cell_in_the_body { in_body "<td>a<tr>b<tbody>c<caption>d" ≡ codes "'abcd'" }
    ensures column_in_the_body { in_body "<col>a<colgroup>b<frame>c" ≡ codes "'abc'" }
    ensures other_start_tag { in_body "<foo>a<foo>b" ≡ codes "<foo>['a'<foo>['b']]" }
    ensures other_end_tag { in_body "<foo><bar>a</foo>b" ≡ codes "<foo>[<bar>['a']]'b'" }
    ensures other_end_tag_with_implied_ones { in_body "<foo><rt>a</foo>b" ≡ codes "<foo>[<rt>['a']]'b'" }
    ensures other_end_tag_beyond_an_item { in_body "<foo><li>a</foo>b" ≡ codes "<foo>[<li>['ab']]" }
    ensures other_end_tag_beyond_a_special_element { in_body "<foo><div>a</foo>b" ≡ codes "<foo>[<div>['ab']]" }
    ensures search_bounds_other_end_tags { in_body "<foo><search>a</foo>b" ≡ codes "<foo>[<search>['ab']]" }
    ensures search_that_is_not_special { in_body_without_search "<foo><search>a</foo>b" ≡ codes "<foo>[<search>['a']]'b'" }
    ensures other_end_tag_without_one { in_body "a</foo>b" ≡ codes "'ab'" }
    ensures sarcasm { in_body "a</sarcasm>b" ≡ codes "'ab'" }
    ensures math { in_body "<p><math><mi>a</math>b" ≡ codes "<p>[<math math>[<math mi>['a']]'b']" }
    ensures math_with_the_flag { in_body "<math/>a" ≡ codes "<math math>'a'" }
    ensures svg { in_body "<p><svg><path/></svg>b" ≡ codes "<p>[<svg svg>[<svg path>]'b']" }
    ensures svg_with_the_flag { in_body "<svg/>a" ≡ codes "<svg svg>'a'" }
{}
