//! Worked rows: pages with tables, and what the tree builder makes of them (13.2.6.4.9 to .15).

ghost use Rattle.std.specs.Prelude.{◌≡◌, Some, None, codes};
ghost use Rattle.tl_tree_spec.specs.Examples.{inner_html, inner_html_in_quirks};

/// Parts of tables: those that are missing are put in.
pub fn parts()
    ensures cell_outside { inner_html "<td>x</td>" ≡ Some (codes "x") }
    ensures missing { inner_html "<table><td>x</table>"
        ≡ Some (codes "<table><tbody><tr><td>x</td></tr></tbody></table>") }
    ensures end_tags_left_out { inner_html "<table><tr><td>a<td>b<tr><td>c"
        ≡ Some (codes
        "<table><tbody><tr><td>a</td><td>b</td></tr><tr><td>c</td></tr></tbody></table>") }
    ensures whole { inner_html "<table><caption>x</caption><colgroup><col></colgroup><tbody><tr><td></td></tr></tbody></table>x"
        ≡ Some (codes "<table><caption>x</caption><colgroup><col></colgroup><tbody><tr><td></td></tr></tbody></table>x") }
    ensures column { inner_html "<table><col><tr>"
        ≡ Some (codes "<table><colgroup><col></colgroup><tbody><tr></tr></tbody></table>") }
    ensures carriage_return { inner_html "<table>&#13;<tr>"
        ≡ Some (codes "<table>\r<tbody><tr></tr></tbody></table>") }
    ensures white_space { inner_html "<table> <tr> <td> x"
        ≡ Some (codes "<table> <tbody><tr> <td> x</td></tr></tbody></table>") }
{}

/// Tables in one another, and what a cell bounds.
pub fn places()
    ensures table_in_b_in_cell { inner_html "<table><td><b><table></table><td>x"
        ≡ Some (codes
        "<table><tbody><tr><td><b><table></table></b></td><td>x</td></tr></tbody></table>") }
    ensures table_in_p { inner_html "<p>x<table></table>y"
        ≡ Some (codes "<p>x</p><table></table>y") }
    ensures table_in_table { inner_html "<table><table>"
        ≡ Some (codes "<table></table><table></table>") }
    ensures table_in_cell { inner_html "<table><tr><td><table><tr><td>x</table>y</table>z"
        ≡ Some (codes "<table><tbody><tr><td><table><tbody><tr><td>x</td></tr></tbody></table>y</td></tr></tbody></table>z") }
    ensures p_in_cell_in_p_in_cell { inner_html "<table><tr><td><p>x</td><td></p>y"
        ≡ Some (codes "<table><tbody><tr><td><p>x</p></td><td><p></p>y</td></tr></tbody></table>") }
    ensures formatting_in_cell { inner_html "<table><tr><td><b>x<td>y"
        ≡ Some (codes "<table><tbody><tr><td><b>x</b></td><td>y</td></tr></tbody></table>") }
    ensures formatting_before_table { inner_html "<p><b></p><table><td>x</table>y"
        ≡ Some (codes "<p><b></b></p><table><tbody><tr><td>x</td></tr></tbody></table><b>y</b>") }
    ensures cell_in_caption { inner_html "<table><caption>x<td>y"
        ≡ Some (codes "<table><caption>x</caption><tbody><tr><td>y</td></tr></tbody></table>") }
{}

/// In quirks mode a table stands in a `p`, also where it ends another one; all else closes the `p`.
pub fn quirks()
    ensures table_in_p { inner_html_in_quirks "<p>x<table></table>y"
        ≡ Some (codes "<p>x<table></table>y</p>") }
    ensures table_in_table_in_p { inner_html_in_quirks "<p>x<table><table></table>y"
        ≡ Some (codes "<p>x<table></table><table></table>y</p>") }
    ensures rule_in_p { inner_html_in_quirks "<p>x<hr>y" ≡ Some (codes "<p>x</p><hr>y") }
    ensures no_p { inner_html_in_quirks "<table><td>x</table>"
        ≡ Some (codes "<table><tbody><tr><td>x</td></tr></tbody></table>") }
{}

/// What is foster parented has no outcome, as in the standard's example (13.2.10).
pub fn no_outcome()
    ensures text { inner_html "<table>x" ≡ None }
    ensures tag { inner_html "<table><b><tr><td>aaa</td></tr>bbb</table>ccc" ≡ None }
{}
