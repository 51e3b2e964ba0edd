//! Worked rows: pages, and what is kept of their trees.

ghost use Rattle.std.specs.Prelude.{[], codes, ◌∷◌, ◌≡◌};
ghost use Rattle.tl_tree_safe.specs.Examples.{class_lists, kept_by, kept_in, marking_lists, naming_lists, relative_lists};
ghost use Rattle.tl_tree_safe.specs.Characters.{cleaned};

/// Elements by their names.
pub fn elements()
    ensures listed { kept_in "<P>a<b>c</P>" ≡ codes "<p>a<b>c</b></p>" }
    ensures unwrapped { kept_in "<i>a<b>c</b></i>d" ≡ codes "a<b>c</b>d" }
    ensures void { kept_in "<br>a<hr>" ≡ codes "<br>a" }
    ensures raw_texts { kept_in "a<script>b</script><style>c</style><textarea>d</textarea>e"
        ≡ codes "ae" }
    ensures noscript { kept_in "a<noscript>b<br></noscript>d" ≡ codes "ad" }
    ensures template { kept_in "a<template><b>c</template>d" ≡ codes "ad" }
    ensures svg { kept_in "a<svg><a>b</a><title>c</title></svg>d" ≡ codes "ad" }
    ensures math { kept_in "a<math><mi>b</mi><annotation-xml></math>d" ≡ codes "ad" }
    ensures foreign_by_a_listed_name { kept_in "<svg><a href=/>b" ≡ codes "" }
    ensures comments { kept_in "a<!--<b>-->c" ≡ codes "ac" }
    ensures doctype { kept_in "<!DOCTYPE html>a" ≡ codes "a" }
{}

/// Texts, as characters.
pub fn texts()
    ensures references { kept_in "&lt;b&gt;&amp;lt;" ≡ codes "&lt;b&gt;&amp;lt;" }
    ensures less_than { kept_in "1 < 2" ≡ codes "1 &lt; 2" }
    ensures carriage_return { cleaned (97 ∷ 13 ∷ 98 ∷ []) ≡ codes "a b" }
    ensures escape { cleaned (97 ∷ 27 ∷ 0 ∷ 36 ∷ []) ≡ codes "a$" }
{}

/// Attributes by their keys and values.
pub fn attributes()
    ensures listed { kept_in "<p title='a \"b\" <c>' onclick=d>"
        ≡ codes "<p title=\"a &quot;b&quot; &lt;c&gt;\"></p>" }
    ensures empty { kept_in "<p title>" ≡ codes "<p title=\"\"></p>" }
    ensures link { kept_in "<a href=https://a.b/?c&amp;d>"
        ≡ codes "<a href=\"https://a.b/?c&amp;d\"></a>" }
    ensures link_by_references { kept_in "<a href='https&colon;//a.b/'>"
        ≡ codes "<a href=\"https://a.b/\"></a>" }
    ensures script { kept_in "<a href=javascript:b>" ≡ codes "<a></a>" }
    ensures script_by_references { kept_in "<a href='java&Tab;script&colon;b'>" ≡ codes "<a></a>" }
    ensures script_behind_blanks { kept_by relative_lists "<a href=' &Tab;JavaScript:b'>"
        ≡ codes "<a></a>" }
    ensures link_with_blanks { kept_in "<a href=' https://a.b/ '>"
        ≡ codes "<a href=\"https://a.b/\"></a>" }
    ensures link_with_a_tab { kept_in "<a href='ht&Tab;tps://a.b/'>"
        ≡ codes "<a href=\"https://a.b/\"></a>" }
    ensures link_in_upper_case { kept_in "<a href=HTTPS://A.b/C:D>"
        ≡ codes "<a href=\"https://A.b/C:D\"></a>" }
    ensures link_with_a_space { kept_in "<a href='https://a b'>" ≡ codes "<a></a>" }
    ensures path { kept_in "<a href=/a>" ≡ codes "<a href=\"/a\"></a>" }
    ensures another_host_by_a_tab { kept_in "<a href='/&Tab;/a'>" ≡ codes "<a></a>" }
    ensures another_host { kept_in "<a href=//a>" ≡ codes "<a></a>" }
    ensures another_host_by_a_backslash { kept_in "<a href='/&bsol;a'>" ≡ codes "<a></a>" }
    ensures relative { kept_by relative_lists "<a href=a&amp;b.png>"
        ≡ codes "<a href=\"a&amp;b.png\"></a>" }
    ensures relative_with_a_scheme { kept_by relative_lists "<a href='a&colon;b'>" ≡ codes "<a></a>" }
{}

/// Names that others refer to.
pub fn names()
    ensures name { kept_in "<p id=a.b:1>" ≡ codes "<p id=\"user-a.b:1\"></p>" }
    ensures name_with_the_prefix { kept_in "<p id=user-a>" ≡ codes "<p id=\"user-a\"></p>" }
    ensures no_name { kept_in "<p id>" ≡ codes "<p></p>" }
    ensures two_words { kept_in "<p id='a b'>" ≡ codes "<p></p>" }
    ensures link { kept_by naming_lists "<a href=#a>" ≡ codes "<a href=\"#user-a\"></a>" }
    ensures link_with_the_prefix { kept_by naming_lists "<a href=#user-a>"
        ≡ codes "<a href=\"#user-a\"></a>" }
    ensures link_to_the_top { kept_by naming_lists "<a href=#>" ≡ codes "<a href=\"#\"></a>" }
    ensures link_to_another_page { kept_by naming_lists "<a href=/#a>"
        ≡ codes "<a href=\"/#a\"></a>" }
    ensures references { kept_by naming_lists "<p headers='a  user-b c'>"
        ≡ codes "<p headers=\"user-a  user-b user-c\"></p>" }
{}

/// Classes by the patterns of a policy.
pub fn classes()
    ensures some { kept_by class_lists "<p class='hljs a  language-c++'>"
        ≡ codes "<p class=\"hljs language-c++\"></p>" }
    ensures by_any_white_space { kept_by class_lists "<p class=' hljs&Tab;language- '>"
        ≡ codes "<p class=\"hljs language-\"></p>" }
    ensures none { kept_by class_lists "<p class='a b'>" ≡ codes "<p></p>" }
    ensures part_of_a_word { kept_by class_lists "<p class='hljs-a xhljs xlanguage-c language'>"
        ≡ codes "<p></p>" }
    ensures another_case { kept_by class_lists "<p class=HLJS>" ≡ codes "<p></p>" }
    ensures without_patterns { kept_by (record class_lists { classes = [] }) "<p class=hljs>"
        ≡ codes "<p></p>" }
    ensures any { kept_by (record class_lists { classes = codes "*" ∷ [] }) "<p class=' a  b '>"
        ≡ codes "<p class=\"a b\"></p>" }
    ensures any_without_a_word { kept_by (record class_lists { classes = codes "*" ∷ [] })
        "<p class=' '>" ≡ codes "<p></p>" }
{}

/// Links are marked where the policy wants it.
pub fn marks()
    ensures link { kept_by marking_lists "<a title=a href=/b rel=c>"
        ≡ codes "<a rel=\"nofollow noopener\" title=\"a\" href=\"/b\"></a>" }
    ensures target_that_goes { kept_by marking_lists "<a href=b rel=c>"
        ≡ codes "<a rel=\"c\"></a>" }
    ensures no_link { kept_by marking_lists "<p rel=a>" ≡ codes "<p rel=\"a\"></p>" }
{}
