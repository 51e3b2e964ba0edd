//! Worked rows: active formatting elements (13.2.4.3), the adoption agency (13.2.6.4.7).

ghost use Rattle.std.specs.Prelude.{◌≡◌, codes};
ghost use Rattle.tl_dom_spec.specs.Examples.{in_body};

/// The list of active formatting elements.
pub fn active()
    ensures opened_again { in_body "<p><b a=1>a<p>b" ≡ codes "<p>[<b a=1>['a']]<p>[<b a=1>['b']]" }
    ensures opened_again_in_order { in_body "<p><b><i><u></p>a" ≡ codes "<p>[<b>[<i>[<u>]]]<b>[<i>[<u>['a']]]" }
    ensures opened_again_from_the_first_that_is_not_open { in_body "<b><p><i><u></p>a" ≡ codes "<b>[<p>[<i>[<u>]]<i>[<u>['a']]]" }
    ensures not_beyond_a_marker { in_body "<p><b></p><table><td>a" ≡ codes "<p>[<b>]<table>[<tbody>[<tr>[<td>['a']]]]" }
    ensures three_alike { in_body "<p><b><b><b></p>a" ≡ codes "<p>[<b>[<b>[<b>]]]<b>[<b>[<b>['a']]]" }
    ensures four_alike { in_body "<p><b><b><b><b></p>a" ≡ codes "<p>[<b>[<b>[<b>[<b>]]]]<b>[<b>[<b>['a']]]" }
    ensures four_by_name_and_two_by_keys { in_body "<p><b><b a=1><b><b a=1><b></p>a" ≡ codes "<p>[<b>[<b a=1>[<b>[<b a=1>[<b>]]]]]<b>[<b a=1>[<b>[<b a=1>[<b>['a']]]]]" }
    ensures keys_in_any_order { in_body "<p><i a=1 b=2><i b=2 a=1><i a=1 b=2><i b=2 a=1></p>a" ≡ codes "<p>[<i a=1 b=2>[<i b=2 a=1>[<i a=1 b=2>[<i b=2 a=1>]]]]<i b=2 a=1>[<i a=1 b=2>[<i b=2 a=1>['a']]]" }
    ensures values_differ { in_body "<p><u a=1><u a=2><u a=3><u a=4></p>a" ≡ codes "<p>[<u a=1>[<u a=2>[<u a=3>[<u a=4>]]]]<u a=1>[<u a=2>[<u a=3>[<u a=4>['a']]]]" }
    ensures earliest_goes { in_body "<p><s><b><s><s><s></p>a" ≡ codes "<p>[<s>[<b>[<s>[<s>[<s>]]]]]<b>[<s>[<s>[<s>['a']]]]" }
    ensures beyond_a_marker_none_is_counted { in_body "<p><b><b><b><object><b></object></p>a" ≡ codes "<p>[<b>[<b>[<b>[<object>[<b>]]]]]<b>[<b>[<b>['a']]]" }
{}

/// The adoption agency.
pub fn adoption()
    ensures closed_with_what_is_in_it { in_body "<b><i>a</b>b</i>c" ≡ codes "<b>[<i>['a']]<i>['b']'c'" }
    ensures no_entry_of_the_name { in_body "<foo>a</b>b" ≡ codes "<foo>['ab']" }
    ensures current_node_that_is_not_listed { in_body "<b><b><b><b>a</b></b></b></b>b" ≡ codes "<b>[<b>[<b>[<b>['a']]]]'b'" }
    ensures not_open_any_more { in_body "<p><b></p></b>a" ≡ codes "<p>[<b>]'a'" }
    ensures not_in_scope { in_body "<b><table><td></b>a" ≡ codes "<b>[<table>[<tbody>[<tr>[<td>['a']]]]]" }
    ensures no_furthest_block { in_body "<b><span>a</b>b" ≡ codes "<b>[<span>['a']]'b'" }
    ensures furthest_block { in_body "<b>a<p>b</b>c" ≡ codes "<b>['a']<p>[<b>['b']'c']" }
    ensures furthest_of_two_blocks { in_body "<b><div><p>a</b>b" ≡ codes "<b><div>[<b><p>[<b>['a']'b']]" }
    ensures element_between_is_cloned { in_body "<b><i><p>a</b>b" ≡ codes "<b>[<i>]<i>[<p>[<b>['a']'b']]" }
    ensures element_between_that_is_not_listed { in_body "<b><span><p>a</b>b" ≡ codes "<b>[<span>]<p>[<b>['a']'b']" }
    ensures new_element_is_listed_behind_the_clone { in_body "<section><b><i><div><div><div><div><div><div><div><div><div></b></section>a" ≡ codes "<section>[<b>[<i>]<i>[<div>[<b><div>[<b><div>[<b><div>[<b><div>[<b><div>[<b><div>[<b><div>[<b>[<div>]]]]]]]]]]]<i>[<b>['a']]" }
    ensures three_between_are_cloned { in_body "<b><i><s><u><p>a</b>b" ≡ codes "<b>[<i>[<s>[<u>]]]<i>[<s>[<u>[<p>[<b>['a']'b']]]]" }
    ensures fourth_between_is_not { in_body "<b><i><s><u><em><p>a</b>b" ≡ codes "<b>[<i>[<s>[<u>[<em>]]]]<s>[<u>[<em>[<p>[<b>['a']'b']]]]" }
    ensures eight_times { in_body "<b><div><div><div><div><div><div><div><div><div>a</b>b" ≡ codes "<b><div>[<b><div>[<b><div>[<b><div>[<b><div>[<b><div>[<b><div>[<b><div>[<b>[<div>['ab']]]]]]]]]]" }
    ensures in_a_table_it_goes_before_it { in_body "<table><b><p>a</b>b" ≡ codes "<b><p>[<b>['a']'b']<table>" }
    ensures block_in_a_foster_parented_element { in_body "<table><b><tr><p>a</b>b" ≡ codes "<b><p>[<b>['a']'b']<table>[<tbody>[<tr>]]" }
    ensures children_of_the_block_go_along { in_body "<b><p>a<i>b</i>c</b>d" ≡ codes "<b><p>[<b>['a'<i>['b']'c']'d']" }
    ensures inside_of_a_marker { in_body "<object><b>a<p>b</b>c" ≡ codes "<object>[<b>['a']<p>[<b>['b']'c']]" }
    ensures inside_of_a_marker_without_a_block { in_body "<object><b>a</b>b" ≡ codes "<object>[<b>['a']'b']" }
    ensures other_end_tag_of_the_name { in_body "<p><b></p><div><a></b>x" ≡ codes "<p>[<b>]<div>[<b>[<a>]<a>['x']]" }
{}

/// `a` and `nobr`.
pub fn anchors()
    ensures a_in_a { in_body "<a a=1>b<a a=2>c" ≡ codes "<a a=1>['b']<a a=2>['c']" }
    ensures a_in_a_across_a_block { in_body "<a>b<div>c<a>d" ≡ codes "<a>['b']<div>[<a>['c']<a>['d']]" }
    ensures a_in_a_cell_in_a { in_body "<a>b<table><td><a>c" ≡ codes "<a>['b'<table>[<tbody>[<tr>[<td>[<a>['c']]]]]]" }
    ensures a_leaves_from_between_others { in_body "<a>b<table><a>c</table>d" ≡ codes "<a>['b'<a>['c']<table>]<a>['d']" }
    ensures a_beyond_a_select { in_body "<a>b<select><a>c" ≡ codes "<a>['b'<select>[<a>['c']]]" }
    ensures a_opened_again { in_body "<p><a></p><a>b" ≡ codes "<p>[<a>]<a>['b']" }
    ensures a_end_tag { in_body "<a>b<p>c</a>d" ≡ codes "<a>['b']<p>[<a>['c']'d']" }
    ensures nobr_end_tag { in_body "<nobr>a<p>b</nobr>c" ≡ codes "<nobr>['a']<p>[<nobr>['b']'c']" }
    ensures nobr_in_nobr { in_body "<nobr>a<nobr>b" ≡ codes "<nobr>['a']<nobr>['b']" }
    ensures nobr_opened_again_first { in_body "<p><nobr></p><nobr>b" ≡ codes "<p>[<nobr>]<nobr><nobr>['b']" }
    ensures nobr_out_of_scope { in_body "<nobr><object><nobr>a" ≡ codes "<nobr>[<object>[<nobr>['a']]]" }
{}
