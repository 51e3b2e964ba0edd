//! Worked rows: what the definition says of small pages. In what is shown `/` is a line feed, and
//! `_` a tab.
ghost use Rattle.std.specs.Prelude.{[], false, true, ◌∷◌, ◌≡◌};
ghost use Rattle.tl_tree_extract.specs.Examples.{shown, text, text_below, text_but};

/// White space is one space, and none where a line begins or ends.
pub fn white_space()
    ensures one { text "a  b" ≡ shown "a b" }
    ensures at_both_ends { text "<p> a </p> <p> b </p>" ≡ shown "a//b" }
    ensures across_elements { text "a <b> b </b> c" ≡ shown "a b c" }
    ensures within_a_word { text "a<b>b</b>c" ≡ shown "abc" }
    ensures at_a_break { text "a <br> b" ≡ shown "a/b" }
    ensures none { text " " ≡ shown "" }
{}

/// Lines.
pub fn lines()
    ensures blocks { text "<div>a</div>b<div>c</div>" ≡ shown "a/b/c" }
    ensures nested { text "<div><div>a</div></div><ul><li>b<li>c</ul>" ≡ shown "a/b/c" }
    ensures paragraphs { text "<p>a<p>b<div>c" ≡ shown "a//b//c" }
    ensures headings { text "<h1>a</h1>b" ≡ shown "a/b" }
    ensures breaks { text "a<br><br>b" ≡ shown "a//b" }
    ensures break_at_an_end { text "<div>a<br></div>b" ≡ shown "a//b" }
    ensures rule { text "a<hr>b" ≡ shown "a/b" }
    ensures options { text "<select><option>a<option>b</select>c" ≡ shown "a/b/c" }
{}

/// White space that stands as it is.
pub fn kept()
    ensures preformatted { text "x<pre> a  b</pre>y" ≡ shown "x/ a  b/y" }
    ensures within { text "<pre><b> a  b" ≡ shown " a  b" }
    ensures behind { text "<pre>a</pre>  b  c" ≡ shown "a/b c" }
    ensures textarea { text "a<textarea> b</textarea>c" ≡ shown "a/ b/c" }
    ensures below_a_node { text_below "<pre><b> a  b" 4 ≡ shown " a  b" }
{}

/// Tables.
pub fn tables()
    ensures cells { text "<table><tr><td>a<td>b<tr><td>c" ≡ shown "a_b/c" }
    ensures sections { text "<table><thead><tr><th>a<tbody><tr><td>b</table>c" ≡ shown "a/b/c" }
    ensures caption { text "<table><caption>a<tr><td>b" ≡ shown "a/b" }
    ensures empty_cells { text "<table><tr><td><td>a<td></table>b" ≡ shown "_a_/b" }
    ensures nested { text "<table><tr><td>a<table><tr><td>b<td>c</table><td>d" ≡ shown "a/b_c/_d" }
    ensures paragraphs { text "<table><tr><td><p>a<td>b" ≡ shown "a//_b" }
    ensures hidden_cell { text "<table><tr><td>a<td hidden>b<td>c" ≡ shown "a_c" }
    ensures hidden_row { text "<table><tr><td>a<tr hidden><td>b<tr><td>c" ≡ shown "a/c" }
{}

/// What is no text.
pub fn hidden()
    ensures head { text "<title>a</title>b" ≡ shown "b" }
    ensures scripts { text "a<script>b</script><style>c</style>d" ≡ shown "ad" }
    ensures without_scripts { text "a<noscript>b</noscript>c" ≡ shown "ac" }
    ensures template { text "a<template>b</template>c" ≡ shown "ac" }
    ensures comment { text "a<!--b-->c" ≡ shown "ac" }
    ensures by_an_attribute { text "a<p hidden>b</p>c" ≡ shown "ac" }
    ensures dialog { text "a<dialog>b</dialog>c" ≡ shown "ac" }
    ensures open_dialog { text "a<dialog open>b</dialog>c" ≡ shown "a/b/c" }
    ensures title_of_a_picture { text "a<svg><title>b</title></svg>c" ≡ shown "ac" }
    ensures marked { text_but (false ∷ false ∷ false ∷ true ∷ []) "<p>a</p>b" ≡ shown "b" }
{}

/// Of nodes by their numbers.
pub fn nodes()
    ensures below { text_below "<p>a<b>b</b><p>c" 3 ≡ shown "ab" }
    ensures no_box { text_below "<title>a b</title>" 2 ≡ shown "a b" }
    ensures contents { text_below "<body><template>a" 4 ≡ shown "a" }
    ensures of_a_text { text_below "a" 3 ≡ shown "" }
    ensures none { text_below "a" 9 ≡ shown "" }
{}
