//! Worked rows: templates, what follows the body, framesets (13.2.6.4.16 to .21), context elements
//! of flow content.

ghost use Rattle.std.specs.List.{list_all, list_any};
ghost use Rattle.std.specs.Prelude.{◌≡◌, codes, false, true};
ghost use Rattle.tl_dom_spec.specs.Examples.{context_named, in_body, inside, is_flow, page};
ghost use Rattle.tl_dom_spec.specs.Partial.{is_flow_context};
ghost use Rattle.tl_dom_spec.specs.Tags.{html_space, svg_space};
ghost use Rattle.tl_html_spec.specs.Balanced.{words};

/// "in template" (13.2.6.4.16).
pub fn in_template()
    ensures text { in_body "<template>a<!--b--><!DOCTYPE c>" ≡ codes "<template>{'a'<!--b-->}" }
    ensures link { in_body "<template><link><td>a" ≡ codes "<template>{<link><td>['a']}" }
    ensures base { in_body "<template><base><td>a" ≡ codes "<template>{<base><td>['a']}" }
    ensures title { in_body "<template><title>a<p></title><td>a" ≡ codes "<template>{<title>['a<p>']<td>['a']}" }
    ensures style { in_body "<template><style>a</style><td>b" ≡ codes "<template>{<style>['a']<td>['b']}" }
    ensures script { in_body "<template><script>a</script><td>b" ≡ codes "<template>{<script>['a']<td>['b']}" }
    ensures noframes { in_body "<template><noframes>a</noframes><td>b" ≡ codes "<template>{<noframes>['a']<td>['b']}" }
    ensures template_in_template { in_body "<template><template>a</template><td>b</template>c" ≡ codes "<template>{<template>{'a'}<td>['b']}'c'" }
    ensures caption { in_body "<template><caption>a</template>" ≡ codes "<template>{<caption>['a']}" }
    ensures column_group { in_body "<template><colgroup><col></template>" ≡ codes "<template>{<colgroup>[<col>]}" }
    ensures table_body { in_body "<template><tbody><tr></template>" ≡ codes "<template>{<tbody>[<tr>]}" }
    ensures column { in_body "<template><col><col>a</template>" ≡ codes "<template>{<col><col>}" }
    ensures row { in_body "<template><tr><td>a</template>" ≡ codes "<template>{<tr>[<td>['a']]}" }
    ensures cell { in_body "<template><td>a<td>b</template>" ≡ codes "<template>{<td>['a']<td>['b']}" }
    ensures other_start_tag { in_body "<template><p>a<td>b</template>" ≡ codes "<template>{<p>['ab']}" }
    ensures mode_stays_until_the_end { in_body "<template><tr></tr>a<div>b</template>" ≡ codes "<template>{<tr>'a'<div>['b']}" }
    ensures template_end_tag { in_body "<template><p><b>a</template>b" ≡ codes "<template>{<p>[<b>['a']]}'b'" }
    ensures other_end_tag { in_body "<template></p>a</template>" ≡ codes "<template>{'a'}" }
    ensures end_of_file { in_body "<template><template>a" ≡ codes "<template>{<template>{'a'}}" }
    ensures end_of_file_in_a_fragment { inside "template" "a" ≡ codes "'a'" }
    ensures fragment { inside "template" "<td>a<td>b" ≡ codes "<td>['a']<td>['b']" }
    ensures ends_what_is_open_in_it { in_body "<template><table><td><p>a</template>b" ≡ codes "<template>{<table>[<tbody>[<tr>[<td>[<p>['a']]]]]}'b'" }
    ensures makes_no_frameset_ok { page "<template></template><frameset>" ≡ codes "<html>[<head>[<template>{}]<frameset>]" }
    ensures form_pointer_is_of_no_matter { in_body "<form><template><form><p></form>a</template><form>b" ≡ codes "<form>[<template>{<form>[<p>]'a'}'b']" }
{}

/// "after body" (.17).
pub fn after_body()
    ensures white_space { page "<p></body> \n" ≡ codes "<html>[<head><body>[<p>[' \n']]]" }
    ensures comment { page "<p></body><!--a-->" ≡ codes "<html>[<head><body>[<p>]<!--a-->]" }
    ensures doctype { page "<p></body><!DOCTYPE a>" ≡ codes "<html>[<head><body>[<p>]]" }
    ensures html { page "<p></body><html a=1><!--b-->" ≡ codes "<html a=1>[<head><body>[<p>]<!--b-->]" }
    ensures html_end_tag { page "<p></body></html><!--a-->" ≡ codes "<html>[<head><body>[<p>]]<!--a-->" }
    ensures html_end_tag_in_a_fragment { inside "html" "<body></body></html><!--a-->" ≡ codes "<head><body><!--a-->" }
    ensures anything_else { page "<p></body><div>a" ≡ codes "<html>[<head><body>[<p><div>['a']]]" }
    ensures other_end_tag { page "<p><b>a</body></b>b" ≡ codes "<html>[<head><body>[<p>[<b>['a']'b']]]" }
    ensures text { page "<p></body>a<!--b-->" ≡ codes "<html>[<head><body>[<p>['a'<!--b-->]]]" }
    ensures comment_in_an_element_that_is_open { page "<body><p></body><!--a-->b" ≡ codes "<html>[<head><body>[<p>['b']]<!--a-->]" }
    ensures end_of_file { page "<p></body>" ≡ codes "<html>[<head><body>[<p>]]" }
{}

/// "in frameset" (.18).
pub fn in_frameset()
    ensures white_space { page "<frameset> a \n" ≡ codes "<html>[<head><frameset>['  \n']]" }
    ensures comment { page "<frameset><!--a-->" ≡ codes "<html>[<head><frameset>[<!--a-->]]" }
    ensures doctype { page "<frameset><!DOCTYPE a><frame>" ≡ codes "<html>[<head><frameset>[<frame>]]" }
    ensures html { page "<frameset><html a=1>" ≡ codes "<html a=1>[<head><frameset>]" }
    ensures frameset { page "<frameset><frameset a=1><frame>" ≡ codes "<html>[<head><frameset>[<frameset a=1>[<frame>]]]" }
    ensures frame { page "<frameset><frame a=1><frame>" ≡ codes "<html>[<head><frameset>[<frame a=1><frame>]]" }
    ensures noframes { page "<frameset><noframes><p></noframes>" ≡ codes "<html>[<head><frameset>[<noframes>['<p>']]]" }
    ensures frameset_end_tag { page "<frameset><frameset></frameset><frame></frameset><!--a-->" ≡ codes "<html>[<head><frameset>[<frameset><frame>]<!--a-->]" }
    ensures frameset_end_tag_in_a_fragment { inside "frameset" "</frameset><frame>" ≡ codes "<frame>" }
    ensures frameset_end_tag_at_the_root { inside "frameset" "<frameset></frameset></frameset><frame>" ≡ codes "<frameset><frame>" }
    ensures other_start_tag_is_ignored { page "<frameset><p><script>a<frame></script>" ≡ codes "<html>[<head><frameset>[<frame>]]" }
    ensures other_end_tag_is_ignored { page "<frameset></p><frame>" ≡ codes "<html>[<head><frameset>[<frame>]]" }
    ensures end_of_file { page "<frameset><frameset>" ≡ codes "<html>[<head><frameset>[<frameset>]]" }
{}

/// "after frameset" (.19).
pub fn after_frameset()
    ensures white_space { page "<frameset></frameset> a \n" ≡ codes "<html>[<head><frameset>'  \n']" }
    ensures comment { page "<frameset></frameset><!--a-->" ≡ codes "<html>[<head><frameset><!--a-->]" }
    ensures doctype { page "<frameset></frameset><!DOCTYPE a>" ≡ codes "<html>[<head><frameset>]" }
    ensures html { page "<frameset></frameset><html a=1>" ≡ codes "<html a=1>[<head><frameset>]" }
    ensures html_end_tag { page "<frameset></frameset></html><!--a-->" ≡ codes "<html>[<head><frameset>]<!--a-->" }
    ensures noframes { page "<frameset></frameset><noframes>a</noframes>" ≡ codes "<html>[<head><frameset><noframes>['a']]" }
    ensures other_start_tag_is_ignored { page "<frameset></frameset><p><frame>" ≡ codes "<html>[<head><frameset>]" }
    ensures other_end_tag_is_ignored { page "<frameset></frameset></frameset>" ≡ codes "<html>[<head><frameset>]" }
{}

/// "after after body" (.20).
pub fn after_after_body()
    ensures comment { page "<p></html><!--a-->" ≡ codes "<html>[<head><body>[<p>]]<!--a-->" }
    ensures doctype { page "<p></html><!DOCTYPE a>" ≡ codes "<html>[<head><body>[<p>]]" }
    ensures white_space { page "<p></html> \n" ≡ codes "<html>[<head><body>[<p>[' \n']]]" }
    ensures html { page "<p></html><html a=1><!--b-->" ≡ codes "<html a=1>[<head><body>[<p>]]<!--b-->" }
    ensures anything_else { page "<p></html><div>a" ≡ codes "<html>[<head><body>[<p><div>['a']]]" }
    ensures text { page "<p></html> a<!--b-->" ≡ codes "<html>[<head><body>[<p>[' a'<!--b-->]]]" }
    ensures other_end_tag { page "<p><b>a</html></b>b" ≡ codes "<html>[<head><body>[<p>[<b>['a']'b']]]" }
{}

/// "after after frameset" (.21).
pub fn after_after_frameset()
    ensures comment { page "<frameset></frameset></html><!--a-->" ≡ codes "<html>[<head><frameset>]<!--a-->" }
    ensures doctype { page "<frameset></frameset></html><!DOCTYPE a>" ≡ codes "<html>[<head><frameset>]" }
    ensures white_space { page "<frameset></frameset></html> \n" ≡ codes "<html>[<head><frameset>' \n']" }
    ensures html { page "<frameset></frameset></html><html a=1>" ≡ codes "<html a=1>[<head><frameset>]" }
    ensures noframes { page "<frameset></frameset></html><noframes>a</noframes>" ≡ codes "<html>[<head><frameset><noframes>['a']]" }
    ensures anything_else_is_ignored { page "<frameset></frameset></html><p>a</p>" ≡ codes "<html>[<head><frameset>]" }
{}

/// Context elements in which flow content is read as such.
pub fn flow_contexts()
    ensures flow { list_all is_flow (words (codes "body div main section article aside nav header footer address blockquote li dd dt figure figcaption fieldset details dialog caption td th p h1 span a b ins del button form object noscript svg")) ≡ true }
    ensures others { list_any is_flow (words (codes "html frameset template table colgroup thead tbody tfoot tr title textarea style xmp iframe noembed noframes script plaintext")) ≡ false }
    ensures foreign { is_flow_context (context_named svg_space "div") ≡ false }
    ensures quirks { let div = context_named html_space "div" in
        is_flow_context (record div { is_quirks = true }) ≡ true }
    ensures form { let cell = context_named html_space "td" in
        is_flow_context (record cell { is_in_form = true }) ≡ true }
{}
