//! Worked rows: the modes of tables (13.2.6.4.9 to .15), and foster parenting (13.2.6.1).

ghost use Rattle.std.specs.Prelude.{◌≡◌, codes};
ghost use Rattle.tl_dom_spec.specs.Examples.{in_body, in_quirks, inside, page};

/// "in table" (13.2.6.4.9).
pub fn in_table()
    ensures comment { in_body "<table><!--a--><tr>" ≡ codes "<table>[<!--a--><tbody>[<tr>]]" }
    ensures doctype { in_body "<table><!DOCTYPE a><tr>" ≡ codes "<table>[<tbody>[<tr>]]" }
    ensures caption { in_body "<table><caption>a" ≡ codes "<table>[<caption>['a']]" }
    ensures column_group { in_body "<table><colgroup a=1><tr>" ≡ codes "<table>[<colgroup a=1><tbody>[<tr>]]" }
    ensures column { in_body "<table><col a=1><tr>" ≡ codes "<table>[<colgroup>[<col a=1>]<tbody>[<tr>]]" }
    ensures table_body { in_body "<table><tbody><tr><td>a<tfoot><tr>" ≡ codes "<table>[<tbody>[<tr>[<td>['a']]]<tfoot>[<tr>]]" }
    ensures cell { in_body "<table><td>a" ≡ codes "<table>[<tbody>[<tr>[<td>['a']]]]" }
    ensures row { in_body "<table><tr>" ≡ codes "<table>[<tbody>[<tr>]]" }
    ensures table_ends_the_table { in_body "<table><table>a" ≡ codes "<table>'a'<table>" }
    ensures table_in_a_table_fragment { inside "table" "<table><tr>" ≡ codes "<tbody>[<tr>]" }
    ensures table_end_tag { in_body "<table><b></table><tr>a" ≡ codes "<b><table><b>['a']" }
    ensures table_end_tag_in_a_fragment { inside "table" "</table><tr>" ≡ codes "<tbody>[<tr>]" }
    ensures end_tags_that_are_ignored { in_body "<table></body></caption></col></colgroup></html></tbody></td></tr><tr>" ≡ codes "<table>[<tbody>[<tr>]]" }
    ensures style { in_body "<table><style>a</style><tr>" ≡ codes "<table>[<style>['a']<tbody>[<tr>]]" }
    ensures script { in_body "<table><script>a</script><tr>" ≡ codes "<table>[<script>['a']<tbody>[<tr>]]" }
    ensures template { in_body "<table><template><td>a</template><tr>" ≡ codes "<table>[<template>{<td>['a']}<tbody>[<tr>]]" }
    ensures template_end_tag_without_one { in_body "<table></template><tr>" ≡ codes "<table>[<tbody>[<tr>]]" }
    ensures hidden_input { in_body "<table><input type=hidden><tr>" ≡ codes "<table>[<input type=hidden><tbody>[<tr>]]" }
    ensures other_input { in_body "<table><input><tr>" ≡ codes "<input><table>[<tbody>[<tr>]]" }
    ensures form { in_body "<table><form a=1><tr><td><form b=2>c" ≡ codes "<table>[<form a=1><tbody>[<tr>[<td>['c']]]]" }
    ensures form_in_a_form { in_body "<form><table><form><tr>" ≡ codes "<form>[<table>[<tbody>[<tr>]]]" }
    ensures form_in_a_template { in_body "<template><table><form></table></template>" ≡ codes "<template>{<table>}" }
    ensures start_tag_is_foster_parented { in_body "a<table><p>b<tr>" ≡ codes "'a'<p>['b']<table>[<tbody>[<tr>]]" }
    ensures end_tag_is_foster_parented { in_body "<p>a<table></p><tr>" ≡ codes "<p>['a']<p><table>[<tbody>[<tr>]]" }
    ensures end_of_file { in_body "<table><tr>" ≡ codes "<table>[<tbody>[<tr>]]" }
    ensures p_is_closed_by_a_table { in_body "<p>a<table>" ≡ codes "<p>['a']<table>" }
    ensures p_holds_a_table_in_quirks_mode { in_quirks "<p>a<table>" ≡ codes "<p>['a'<table>]" }
    ensures formatting_is_opened_again_before_the_table { in_body "<p><b></p><table>a" ≡ codes "<p>[<b>]<b>['a']<table>" }
{}

/// "in table text" (.10).
pub fn in_table_text()
    ensures white_space { in_body "<table> \n<tr>" ≡ codes "<table>[' \n'<tbody>[<tr>]]" }
    ensures text { in_body "a<table>b<tr>" ≡ codes "'ab'<table>[<tbody>[<tr>]]" }
    ensures text_with_white_space { in_body "<table> a <tr>" ≡ codes "' a '<table>[<tbody>[<tr>]]" }
    ensures text_in_a_row { in_body "<table><tr>a<td>b" ≡ codes "'a'<table>[<tbody>[<tr>[<td>['b']]]]" }
    ensures nul { in_body "<table>\0a<tr>" ≡ codes "'a'<table>[<tbody>[<tr>]]" }
    ensures nul_alone { in_body "<table>\0<tr>" ≡ codes "<table>[<tbody>[<tr>]]" }
    ensures nul_among_white_space { in_body "<table> \0 <tr>" ≡ codes "<table>['  '<tbody>[<tr>]]" }
    ensures text_before_and_after_an_element { in_body "<table>a<b>b<tr>c" ≡ codes "'a'<b>['b']<b>['c']<table>[<tbody>[<tr>]]" }
    ensures text_in_a_foster_parented_element { in_body "<table><p>a<tr>" ≡ codes "<p>['a']<table>[<tbody>[<tr>]]" }
    ensures text_makes_no_frameset_ok { page "<table>a</table><frameset>" ≡ codes "<html>[<head><body>['a'<table>]]" }
{}

/// "in caption" (.11).
pub fn in_caption()
    ensures caption_end_tag { in_body "<table><caption><p>a</caption><tr>" ≡ codes "<table>[<caption>[<p>['a']]<tbody>[<tr>]]" }
    ensures caption_end_tag_clears_to_the_marker { in_body "<table><caption><b>a</caption><td>b" ≡ codes "<table>[<caption>[<b>['a']]<tbody>[<tr>[<td>['b']]]]" }
    ensures caption_end_tag_in_a_fragment { inside "caption" "</caption>a" ≡ codes "'a'" }
    ensures caption_in_caption { in_body "<table><caption>a<caption>b" ≡ codes "<table>[<caption>['a']<caption>['b']]" }
    ensures column_in_caption { in_body "<table><caption>a<col>" ≡ codes "<table>[<caption>['a']<colgroup>[<col>]]" }
    ensures column_group_in_caption { in_body "<table><caption>a<colgroup>" ≡ codes "<table>[<caption>['a']<colgroup>]" }
    ensures table_body_in_caption { in_body "<table><caption>a<tbody>" ≡ codes "<table>[<caption>['a']<tbody>]" }
    ensures row_in_caption { in_body "<table><caption>a<tr>" ≡ codes "<table>[<caption>['a']<tbody>[<tr>]]" }
    ensures cell_in_caption { in_body "<table><caption>a<td>b" ≡ codes "<table>[<caption>['a']<tbody>[<tr>[<td>['b']]]]" }
    ensures cell_in_a_caption_fragment { inside "caption" "<td>a" ≡ codes "'a'" }
    ensures table_in_a_caption_fragment { inside "caption" "<table><caption>a</table><td>b</table>c" ≡ codes "<table>[<caption>['a']]'bc'" }
    ensures table_end_tag { in_body "<table><caption>a</table>b" ≡ codes "<table>[<caption>['a']]'b'" }
    ensures end_tags_that_are_ignored { in_body "<table><caption>a</body></col></colgroup></html></tbody></td></tr>b" ≡ codes "<table>[<caption>['ab']]" }
    ensures anything_else { in_body "<table><caption><p>a<p>b<!--c-->" ≡ codes "<table>[<caption>[<p>['a']<p>['b'<!--c-->]]]" }
    ensures anything_else_by_its_end_tag { in_body "<table><caption><div>a</div>b" ≡ codes "<table>[<caption>[<div>['a']'b']]" }
    ensures table_in_caption { in_body "<table><caption><table></table></caption>a" ≡ codes "'a'<table>[<caption>[<table>]]" }
{}

/// "in column group" (.12).
pub fn in_column_group()
    ensures white_space { in_body "<table><colgroup> <col>" ≡ codes "<table>[<colgroup>[' '<col>]]" }
    ensures text { in_body "<table><colgroup>a<col>" ≡ codes "'a'<table>[<colgroup><colgroup>[<col>]]" }
    ensures comment { in_body "<table><colgroup><!--a--><col>" ≡ codes "<table>[<colgroup>[<!--a--><col>]]" }
    ensures doctype { in_body "<table><colgroup><!DOCTYPE a><col>" ≡ codes "<table>[<colgroup>[<col>]]" }
    ensures html { page "<table><colgroup><html a=1><col>" ≡ codes "<html a=1>[<head><body>[<table>[<colgroup>[<col>]]]]" }
    ensures column { in_body "<table><colgroup><col a=1><col>" ≡ codes "<table>[<colgroup>[<col a=1><col>]]" }
    ensures column_group_end_tag { in_body "<table><colgroup></colgroup><tr>" ≡ codes "<table>[<colgroup><tbody>[<tr>]]" }
    ensures column_end_tag { in_body "<table><colgroup></col><col>" ≡ codes "<table>[<colgroup>[<col>]]" }
    ensures template { in_body "<table><colgroup><template>a</template><col>" ≡ codes "<table>[<colgroup>[<template>{'a'}<col>]]" }
    ensures template_end_tag_without_one { in_body "<table><colgroup></template><col>" ≡ codes "<table>[<colgroup>[<col>]]" }
    ensures anything_else { in_body "<table><colgroup><tr>" ≡ codes "<table>[<colgroup><tbody>[<tr>]]" }
    ensures other_end_tag { in_body "<table><colgroup></table>a" ≡ codes "<table>[<colgroup>]'a'" }
    ensures end_of_file { in_body "<table><colgroup>" ≡ codes "<table>[<colgroup>]" }
    ensures in_a_fragment { inside "colgroup" "</colgroup><p>a<col>" ≡ codes "<col>" }
{}

/// "in table body" (.13).
pub fn in_table_body()
    ensures row { in_body "<table><tbody><tr a=1>" ≡ codes "<table>[<tbody>[<tr a=1>]]" }
    ensures cell { in_body "<table><tbody><td>a" ≡ codes "<table>[<tbody>[<tr>[<td>['a']]]]" }
    ensures table_body_end_tag { in_body "<table><thead></thead><tr>" ≡ codes "<table>[<thead><tbody>[<tr>]]" }
    ensures table_body_end_tag_of_another_name { in_body "<table><thead></tbody><tr>" ≡ codes "<table>[<thead>[<tr>]]" }
    ensures table_body_in_table_body { in_body "<table><tbody><thead><tr>" ≡ codes "<table>[<tbody><thead>[<tr>]]" }
    ensures caption_in_table_body { in_body "<table><tbody><caption>a" ≡ codes "<table>[<tbody><caption>['a']]" }
    ensures column_in_table_body { in_body "<table><tbody><col>" ≡ codes "<table>[<tbody><colgroup>[<col>]]" }
    ensures column_group_in_table_body { in_body "<table><tbody><colgroup>" ≡ codes "<table>[<tbody><colgroup>]" }
    ensures table_end_tag { in_body "<table><tbody></table>a" ≡ codes "<table>[<tbody>]'a'" }
    ensures table_end_tag_in_a_template { in_body "<template><tbody></table><tr>" ≡ codes "<template>{<tbody><tbody>[<tr>]}" }
    ensures table_end_tag_in_a_fragment { inside "tbody" "</table><tr>" ≡ codes "<tr>" }
    ensures caption_in_a_fragment { inside "tbody" "<caption><tr>" ≡ codes "<tr>" }
    ensures column_in_a_fragment { inside "tbody" "<col><tr>" ≡ codes "<tr>" }
    ensures column_group_in_a_fragment { inside "tbody" "<colgroup><tr>" ≡ codes "<tr>" }
    ensures table_body_in_a_fragment { inside "tbody" "<thead><tr>" ≡ codes "<tr>" }
    ensures end_tags_that_are_ignored { in_body "<table><tbody></body></caption></col></colgroup></html></td></tr><tr>" ≡ codes "<table>[<tbody>[<tr>]]" }
    ensures anything_else { in_body "a<table><tbody><p>b<tr>" ≡ codes "'a'<p>['b']<table>[<tbody>[<tr>]]" }
    ensures anything_else_by_its_end_tag { in_body "<table><tbody></p><tr>" ≡ codes "<p><table>[<tbody>[<tr>]]" }
    ensures comment { in_body "<table><tbody><!--a--><tr>" ≡ codes "<table>[<tbody>[<!--a--><tr>]]" }
{}

/// "in row" (.14).
pub fn in_row()
    ensures cell { in_body "<table><tr><td a=1>b<th>c" ≡ codes "<table>[<tbody>[<tr>[<td a=1>['b']<th>['c']]]]" }
    ensures row_end_tag { in_body "<table><tr></tr><!--a-->" ≡ codes "<table>[<tbody>[<tr><!--a-->]]" }
    ensures row_end_tag_in_a_fragment { inside "tr" "</tr><td>a" ≡ codes "<td>['a']" }
    ensures row_in_row { in_body "<table><tr><tr a=1>" ≡ codes "<table>[<tbody>[<tr><tr a=1>]]" }
    ensures table_body_in_row { in_body "<table><tr><tfoot>" ≡ codes "<table>[<tbody>[<tr>]<tfoot>]" }
    ensures caption_in_row { in_body "<table><tr><caption>a" ≡ codes "<table>[<tbody>[<tr>]<caption>['a']]" }
    ensures column_in_row { in_body "<table><tr><col>" ≡ codes "<table>[<tbody>[<tr>]<colgroup>[<col>]]" }
    ensures column_group_in_row { in_body "<table><tr><colgroup>" ≡ codes "<table>[<tbody>[<tr>]<colgroup>]" }
    ensures table_end_tag { in_body "<table><tr></table>a" ≡ codes "<table>[<tbody>[<tr>]]'a'" }
    ensures table_end_tag_in_a_template { in_body "<template><tr></table><td>a" ≡ codes "<template>{<tr><tr>[<td>['a']]}" }
    ensures caption_in_a_template { in_body "<template><tr><caption>a" ≡ codes "<template>{<tr>'a'}" }
    ensures column_in_a_template { in_body "<template><tr><col><td>a" ≡ codes "<template>{<tr><tr>[<td>['a']]}" }
    ensures column_group_in_a_template { in_body "<template><tr><colgroup><td>a" ≡ codes "<template>{<tr><tr>[<td>['a']]}" }
    ensures table_body_in_a_template { in_body "<template><tr><tbody><td>a" ≡ codes "<template>{<tr><tr>[<td>['a']]}" }
    ensures table_body_end_tag { in_body "<table><tr></tbody><!--a-->" ≡ codes "<table>[<tbody>[<tr>]<!--a-->]" }
    ensures table_body_end_tag_of_another_name { in_body "<table><tr></thead><!--a-->" ≡ codes "<table>[<tbody>[<tr>[<!--a-->]]]" }
    ensures end_tags_that_are_ignored { in_body "<table><tr></body></caption></col></colgroup></html></td><td>" ≡ codes "<table>[<tbody>[<tr>[<td>]]]" }
    ensures anything_else { in_body "a<table><tr><p>b<td>" ≡ codes "'a'<p>['b']<table>[<tbody>[<tr>[<td>]]]" }
    ensures anything_else_by_its_end_tag { in_body "<table><tr></p><td>" ≡ codes "<p><table>[<tbody>[<tr>[<td>]]]" }
    ensures comment { in_body "<table><tr><!--a--><td>" ≡ codes "<table>[<tbody>[<tr>[<!--a--><td>]]]" }
{}

/// "in cell" (.15).
pub fn in_cell()
    ensures cell_end_tag { in_body "<table><td><p>a</td><!--b-->" ≡ codes "<table>[<tbody>[<tr>[<td>[<p>['a']]<!--b-->]]]" }
    ensures cell_end_tag_clears_to_the_marker { in_body "<table><td><b>a</td><td>b" ≡ codes "<table>[<tbody>[<tr>[<td>[<b>['a']]<td>['b']]]]" }
    ensures cell_end_tag_of_another_name { in_body "<table><td>a</th>b" ≡ codes "<table>[<tbody>[<tr>[<td>['ab']]]]" }
    ensures cell_in_cell { in_body "<table><td>a<th>b" ≡ codes "<table>[<tbody>[<tr>[<td>['a']<th>['b']]]]" }
    ensures row_in_cell { in_body "<table><td>a<tr>" ≡ codes "<table>[<tbody>[<tr>[<td>['a']]<tr>]]" }
    ensures table_body_in_cell { in_body "<table><td>a<tbody>" ≡ codes "<table>[<tbody>[<tr>[<td>['a']]]<tbody>]" }
    ensures caption_in_cell { in_body "<table><td>a<caption>b" ≡ codes "<table>[<tbody>[<tr>[<td>['a']]]<caption>['b']]" }
    ensures column_in_cell { in_body "<table><td>a<col>" ≡ codes "<table>[<tbody>[<tr>[<td>['a']]]<colgroup>[<col>]]" }
    ensures column_group_in_cell { in_body "<table><td>a<colgroup>" ≡ codes "<table>[<tbody>[<tr>[<td>['a']]]<colgroup>]" }
    ensures cell_in_a_cell_fragment { inside "td" "<td>a" ≡ codes "'a'" }
    ensures table_end_tag { in_body "<table><td>a</table>b" ≡ codes "<table>[<tbody>[<tr>[<td>['a']]]]'b'" }
    ensures row_end_tag { in_body "<table><td>a</tr><!--b-->" ≡ codes "<table>[<tbody>[<tr>[<td>['a']]<!--b-->]]" }
    ensures table_body_end_tag { in_body "<table><td>a</tbody><!--b-->" ≡ codes "<table>[<tbody>[<tr>[<td>['a']]]<!--b-->]" }
    ensures table_body_end_tag_of_another_name { in_body "<table><td>a</tfoot>b" ≡ codes "<table>[<tbody>[<tr>[<td>['ab']]]]" }
    ensures end_tags_that_are_ignored { in_body "<table><td>a</body></caption></col></colgroup></html>b" ≡ codes "<table>[<tbody>[<tr>[<td>['ab']]]]" }
    ensures anything_else { in_body "<table><td><p>a<p>b<!--c-->" ≡ codes "<table>[<tbody>[<tr>[<td>[<p>['a']<p>['b'<!--c-->]]]]]" }
    ensures anything_else_by_its_end_tag { in_body "<table><td><div>a</div>b" ≡ codes "<table>[<tbody>[<tr>[<td>[<div>['a']'b']]]]" }
    ensures table_in_cell { in_body "<table><td>a<table><td>b</table></td>c" ≡ codes "'c'<table>[<tbody>[<tr>[<td>['a'<table>[<tbody>[<tr>[<td>['b']]]]]]]]" }
{}

/// The appropriate place for inserting a node (13.2.6.1).
pub fn foster_parenting()
    ensures before_the_table { in_body "<div>a<table>b</table>c" ≡ codes "<div>['ab'<table>'c']" }
    ensures before_the_inner_table { in_body "<table><td><table>a" ≡ codes "<table>[<tbody>[<tr>[<td>['a'<table>]]]]" }
    ensures text_is_one_with_that_before_it { in_body "a<table>b<tr>c" ≡ codes "'abc'<table>[<tbody>[<tr>]]" }
    ensures in_a_template { in_body "<template><tr>a" ≡ codes "<template>{<tr>'a'}" }
    ensures in_a_template_in_a_table { in_body "<table><template><tr><p>a" ≡ codes "<table>[<template>{<tr><p>['a']}]" }
    ensures in_a_table_fragment { inside "table" "a<p>b<tr>" ≡ codes "'a'<p>['b']<tbody>[<tr>]" }
    ensures in_a_fragment_without_a_table { inside "tbody" "<tr>a" ≡ codes "<tr>'a'" }
    ensures element_that_stays_open { in_body "<table><a>b<tr>c<td>d" ≡ codes "<a>['b']<a>['c']<table>[<tbody>[<tr>[<td>['d']]]]" }
    ensures table_after_a_foster_parented_element { in_body "<table><div><table>a</table>b" ≡ codes "<div><table>'a'<table>'b'" }
{}
