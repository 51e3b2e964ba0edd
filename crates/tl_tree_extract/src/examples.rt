//! Worked rows: numbers, URLs of values as `start:URL`, cells as `left-right,top-bottom`,
//! lines with `/` for a line feed and `_` for a tab.

ghost use Rattle.json.specs.Print.{print};
ghost use Rattle.json.specs.Token.{begin_array, end_array};
ghost use Rattle.std.specs.Prelude.{◌≡◌, ◌∷◌, [], None, Some, codes, false, true};
ghost use Rattle.tl_dom_spec.specs.HtmlForest.{no_trees};
ghost use Rattle.tl_tree_extract.specs.Examples.{a_cell, nodes, outline, page_rows, record_of, shown, slots, table_json, two_rows, urls};
ghost use Rattle.tl_tree_extract.specs.Fields.{value_written};
ghost use Rattle.tl_tree_extract.specs.Marks.{comments_below, comments_of, marks_of};
ghost use Rattle.tl_tree_extract.specs.NodeOutline.{has_line};
ghost use Rattle.tl_tree_extract.specs.Numbers.{non_negative};
ghost use Rattle.tl_tree_extract.specs.SheetJson.{with_file};
ghost use Rattle.tl_tree_extract.specs.declared.column.Columns.TheVariants.{Commas, Tabs};
ghost use Rattle.tl_tree_extract.specs.declared.fields.Field.TheVariants.{Name, Text};
ghost use Rattle.tl_tree_extract.specs.declared.sheet.Spans.TheVariants.{Filled};
ghost use Rattle.tl_tree_extract.specs.declared.url_keys.UrlKind.TheVariants.{Candidates, Refresh, Whole, Words};

/// What the rules for parsing non-negative integers make of bytes.
pub fn numbers()
    ensures spaced { non_negative (codes " \t12px") ≡ Some 12 }
    ensures plus { non_negative (codes "+2") ≡ Some 2 }
    ensures minus_zero { non_negative (codes "-0") ≡ Some 0 }
    ensures below { non_negative (codes "-1") ≡ None }
    ensures no_digit { non_negative (codes "x1") ≡ None }
    ensures nothing { non_negative (codes "") ≡ None }
{}

/// The URLs of values.
pub fn urls_of_values()
    ensures whole { urls Whole " /a b\n" ≡ codes "01:/a b; " }
    ensures empty { urls Whole "" ≡ codes "00:; " }
    ensures words { urls Words " x  y " ≡ codes "01:x; 04:y; " }
    ensures comma_in_a_url { urls Candidates "a,b.png 1x, c 2x" ≡ codes "00:a,b.png; 12:c; " }
    ensures comma_behind_a_url { urls Candidates "a.png, b.png" ≡ codes "00:a.png; 07:b.png; " }
    ensures parentheses { urls Candidates "a (x, y), b" ≡ codes "00:a; 10:b; " }
    ensures no_candidate { urls Candidates " , ," ≡ codes "" }
    ensures refresh { urls Refresh "5; URL = 'next.html'x" ≡ codes "10:next.html; " }
    ensures refresh_bare { urls Refresh "0,/a" ≡ codes "02:/a; " }
    ensures refresh_of_itself { urls Refresh "5" ≡ codes "" }
    ensures no_time { urls Refresh "url=/a" ≡ codes "" }
{}

/// Cells in the slots of rows.
pub fn cells_in_slots()
    ensures spans { two_rows (a_cell "1" "2" (a_cell "2" "1" (a_cell "1" "1" no_trees)))
        (0 ∷ 1 ∷ []) (2 ∷ []) ≡ codes "0-1,0-2; 1-3,0-1; 1-2,1-2; " }
    ensures to_the_end { two_rows (a_cell "0" "0" (a_cell "x" "9" no_trees))
        (0 ∷ 1 ∷ []) [] ≡ codes "0-1,0-3; 1-2,0-3; " }
    ensures overlap { two_rows (a_cell "1" "1" (a_cell "1" "2" (a_cell "2" "1" no_trees)))
        (0 ∷ 1 ∷ []) (2 ∷ []) ≡ codes "0-1,0-1; 1-2,0-2; 0-2,1-2; " }
{}

/// The slots of tables: each with the words of the cell that has it.
#[tactic(auto, unfolding(crate::specs::Table::row_names, crate::specs::Table::cell_names, crate::specs::Table::body_names, crate::specs::Table::foot_names, crate::specs::Table::body_or_row_names, crate::specs::Table::column_group_names, crate::specs::Table::column_names))]
pub fn slots_of_tables()
    ensures cells { slots "<table><tr><td>a<td>b<tr><td>c" ≡ shown "a_b/c_/" }
    ensures columns { slots "<table><tr><td colspan=2>a<td>b<tr><td>c<td>d" ≡ shown "a_a_b/c_d_/" }
    ensures rows { slots "<table><tr><td rowspan=2>a<td>b<tr><td>c" ≡ shown "a_b/a_c/" }
    ensures both { slots "<table><tr><td colspan=2 rowspan=2>a<tr><td>b" ≡ shown "a_a_/a_a_b/" }
    ensures to_the_end { slots "<table><tr><td rowspan=0>a<td>b<tr><td>c<tbody><tr><td>d"
        ≡ shown "a_b/a_c/d_/" }
    ensures no_row_is_made { slots "<table><tr><td rowspan=9>a<td>b<tr><td>c" ≡ shown "a_b/a_c/" }
    ensures overlap { slots "<table><tr><td>a<td rowspan=2>b<tr><td colspan=2>c"
        ≡ shown "a_b/c_b/" }
    ensures foot { slots "<table><tfoot><tr><td>a<tbody><tr><td>b" ≡ shown "b/a/" }
    ensures no_number { slots "<table><tr><td colspan=x>a<td colspan=0>b" ≡ shown "a_b/" }
    ensures no_row { slots "<table>" ≡ shown "" }
{}

/// Tables as lines of JSON.
#[tactic(auto, unfolding(crate::specs::Table::row_names, crate::specs::Table::cell_names, crate::specs::Table::body_names, crate::specs::Table::foot_names, crate::specs::Table::body_or_row_names, crate::specs::Table::column_group_names, crate::specs::Table::column_names, json::specs::Print::print_from, json::specs::Print::escape_byte))]
pub fn tables_as_json()
    ensures no_row { table_json None Filled "<table>" ≡ codes "[]\n" }
    ensures file { print (with_file (Some (codes "x")) (begin_array ∷ end_array ∷ []))
        ≡ codes "{\"file\":\"x\",\"rows\":[]}" }
{}

/// Columns of column groups, which may have no cells.
#[tactic(auto, unfolding(crate::specs::Table::row_names, crate::specs::Table::cell_names, crate::specs::Table::body_names, crate::specs::Table::foot_names, crate::specs::Table::body_or_row_names, crate::specs::Table::column_group_names, crate::specs::Table::column_names))]
pub fn slots_of_columns()
    ensures columns { slots "<table><col><col><col><tr><td>a" ≡ shown "a__/" }
    ensures span { slots "<table><col><col span=2><tr><td>a" ≡ shown "a__/" }
    ensures group { slots "<table><colgroup span=2><tr><td>a" ≡ shown "a_/" }
    ensures group_with_a_column { slots "<table><colgroup span=3><col><tr><td>a" ≡ shown "a/" }
    ensures fewer_than_cells { slots "<table><col><tr><td>a<td>b" ≡ shown "a_b/" }
    ensures behind_a_row { slots "<table><tr><td>a</tbody><col><col><tr><td>b" ≡ shown "a/b/" }
    ensures no_number { slots "<table><col span=x><col span=0><tr><td>a" ≡ shown "a_/" }
{}

/// Nodes on lines.
#[tactic(auto, unfolding(crate::specs::NodeOutline::shown_line, crate::specs::NodeOutline::shown_keys))]
pub fn nodes_on_lines()
    ensures nested { nodes false "<p>a<br>"
        ≡ codes "html\n  head\n  body\n    p\n      \"a\"\n      br\n" }
    ensures keys { nodes false "<a class='b  c' href=/y title=t id=x>"
        ≡ codes "html\n  head\n  body\n    a#x.b.c[href=\"/y\"]\n" }
    ensures others { nodes false "<!doctype html><!-- a\nb -->"
        ≡ codes "<!DOCTYPE html>\n<!-- a -->\nhtml\n  head\n  body\n" }
    ensures contents { nodes false "<template>a"
        ≡ codes "html\n  head\n    template\n      #document-fragment\n        \"a\"\n  body\n" }
    ensures white_space { nodes false "<p> " ≡ codes "html\n  head\n  body\n    p\n" }
    ensures no_line { has_line false (page_rows "<p> ") 4 ≡ false }
    ensures white_space_has_a_number { has_line true (page_rows "<p> ") 4 ≡ true }
{}

/// Comments, and marks.
pub fn comments_and_marks()
    ensures all { comments_of (page_rows "<!--a--><p><!--b--><template><!--c-->")
        ≡ 0 ∷ 5 ∷ 8 ∷ [] }
    ensures below { comments_below (page_rows "<!--a--><p><!--b--></p><!--c-->") 4 ≡ 5 ∷ [] }
    ensures marks { marks_of (1 ∷ 7 ∷ 1 ∷ []) 3 ≡ false ∷ true ∷ false ∷ [] }
{}

/// Headings.
pub fn outlines()
    ensures levels { outline "<h1>a</h1>b<h3>c<br>d</h3>" ≡ shown "h1 a/    h3 c d/" }
    ensures template { outline "<template><h1>a" ≡ shown "" }
{}

/// Columns.
pub fn columns()
    ensures order { record_of Tabs "<p>a" (Name ∷ Text ∷ []) 3 ≡ shown "p_a/" }
    ensures turned { record_of Commas "<p>a" (Text ∷ Name ∷ []) 3 ≡ codes "a,p\n" }
    ensures alone { record_of Commas "<p>" (Text ∷ []) 3 ≡ codes "\"\"\n" }
    ensures quote { value_written Commas (codes "a\"") ≡ codes "\"a\"\"\"" }
    ensures tab { value_written Tabs (codes "a\tb") ≡ codes "a\\tb" }
{}
