//! Worked rows: runs of characters (13.2.6), with which pages end.

ghost use Rattle.std.specs.Prelude.{◌≡◌, codes, ◌++◌};
ghost use Rattle.tl_html_spec.specs.HtmlTokenizer.{replacement};
ghost use Rattle.tl_dom_spec.specs.Examples.{at_once, one_by_one};

/// One character after the other.
pub fn taken_one_by_one()
    ensures from_the_start { one_by_one "" "a b" ≡ codes "<html>[<head><body>['a b']]" }
    ensures initial { one_by_one "" " \n" ≡ codes "<html>[<head><body>]" }
    ensures before_html { one_by_one "<!DOCTYPE a>" " \n" ≡ codes "<!a><html>[<head><body>]" }
    ensures before_head { one_by_one "<html>" " \n" ≡ codes "<html>[<head><body>]" }
    ensures in_head { one_by_one "<head>" " \n" ≡ codes "<html>[<head>[' \n']<body>]" }
    ensures in_head_noscript { one_by_one "<noscript>" " \n" ≡ codes "<html>[<head>[<noscript>[' \n']]<body>]" }
    ensures after_head { one_by_one "<head></head>" " \n" ≡ codes "<html>[<head>' \n'<body>]" }
    ensures in_body { one_by_one "<p><b></p>" "a b\nc" ≡ codes "<html>[<head><body>[<p>[<b>]<b>['a b\nc']]]" }
    ensures in_body_white_space { one_by_one "<p><b></p>" " \n" ≡ codes "<html>[<head><body>[<p>[<b>]<b>[' \n']]]" }
    ensures in_body_nuls { one_by_one "<p>" "\0\0" ≡ codes "<html>[<head><body>[<p>]]" }
    ensures in_body_nuls_among_others { one_by_one "<p>" "a\0 \0b" ≡ codes "<html>[<head><body>[<p>['a b']]]" }
    ensures text { one_by_one "<title>" "a \0b" ≡ codes "<html>[<head>[<title>['a \0b']]<body>]" }
    ensures in_table_text { one_by_one "<table>" "a \0b" ≡ codes "<html>[<head><body>['a b'<table>]]" }
    ensures in_table_text_white_space { one_by_one "<table>" " \n" ≡ codes "<html>[<head><body>[<table>[' \n']]]" }
    ensures in_table_in_another_element { one_by_one "<table><b>" "a \0b" ≡ codes "<html>[<head><body>[<b>['a b']<table>]]" }
    ensures in_table_body_in_another_element { one_by_one "<table><tbody><b>" "a \0b" ≡ codes "<html>[<head><body>[<b>['a b']<table>[<tbody>]]]" }
    ensures in_row_in_another_element { one_by_one "<table><tr><b>" "a \0b" ≡ codes "<html>[<head><body>[<b>['a b']<table>[<tbody>[<tr>]]]]" }
    ensures in_column_group { one_by_one "<table><colgroup>" " \n" ≡ codes "<html>[<head><body>[<table>[<colgroup>[' \n']]]]" }
    ensures after_body { one_by_one "<p></body>" " \n" ≡ codes "<html>[<head><body>[<p>[' \n']]]" }
    ensures in_frameset { one_by_one "<frameset>" "a \0b\n" ≡ codes "<html>[<head><frameset>[' \n']]" }
    ensures after_frameset { one_by_one "<frameset></frameset>" "a \0b\n" ≡ codes "<html>[<head><frameset>' \n']" }
    ensures after_after_frameset { one_by_one "<frameset></frameset></html>" "ab" ≡ codes "<html>[<head><frameset>]" }
    ensures foreign_content { one_by_one "<svg>" "a \0b" ≡ codes "<html>[<head><body>[<svg svg>['a " ++ replacement ++ codes "b']]]" }
    ensures white_space_after_after_frameset { one_by_one "<b><frameset></frameset></html>" "a " ≡ codes "<html>[<head><frameset><b>[' ']]" }
{}

/// The first character, and then the rest of the run at once. The last row is of what is no run: so
/// white space begins another one in this mode.
pub fn taken_at_once()
    ensures from_the_start { at_once "" "a b" ≡ codes "<html>[<head><body>['a b']]" }
    ensures initial { at_once "" " \n" ≡ codes "<html>[<head><body>]" }
    ensures before_html { at_once "<!DOCTYPE a>" " \n" ≡ codes "<!a><html>[<head><body>]" }
    ensures before_head { at_once "<html>" " \n" ≡ codes "<html>[<head><body>]" }
    ensures in_head { at_once "<head>" " \n" ≡ codes "<html>[<head>[' \n']<body>]" }
    ensures in_head_noscript { at_once "<noscript>" " \n" ≡ codes "<html>[<head>[<noscript>[' \n']]<body>]" }
    ensures after_head { at_once "<head></head>" " \n" ≡ codes "<html>[<head>' \n'<body>]" }
    ensures in_body { at_once "<p><b></p>" "a b\nc" ≡ codes "<html>[<head><body>[<p>[<b>]<b>['a b\nc']]]" }
    ensures in_body_white_space { at_once "<p><b></p>" " \n" ≡ codes "<html>[<head><body>[<p>[<b>]<b>[' \n']]]" }
    ensures in_body_nuls { at_once "<p>" "\0\0" ≡ codes "<html>[<head><body>[<p>]]" }
    ensures in_body_nuls_among_others { at_once "<p>" "a\0 \0b" ≡ codes "<html>[<head><body>[<p>['a b']]]" }
    ensures text { at_once "<title>" "a \0b" ≡ codes "<html>[<head>[<title>['a \0b']]<body>]" }
    ensures in_table_text { at_once "<table>" "a \0b" ≡ codes "<html>[<head><body>['a b'<table>]]" }
    ensures in_table_text_white_space { at_once "<table>" " \n" ≡ codes "<html>[<head><body>[<table>[' \n']]]" }
    ensures in_table_in_another_element { at_once "<table><b>" "a \0b" ≡ codes "<html>[<head><body>[<b>['a b']<table>]]" }
    ensures in_table_body_in_another_element { at_once "<table><tbody><b>" "a \0b" ≡ codes "<html>[<head><body>[<b>['a b']<table>[<tbody>]]]" }
    ensures in_row_in_another_element { at_once "<table><tr><b>" "a \0b" ≡ codes "<html>[<head><body>[<b>['a b']<table>[<tbody>[<tr>]]]]" }
    ensures in_column_group { at_once "<table><colgroup>" " \n" ≡ codes "<html>[<head><body>[<table>[<colgroup>[' \n']]]]" }
    ensures after_body { at_once "<p></body>" " \n" ≡ codes "<html>[<head><body>[<p>[' \n']]]" }
    ensures in_frameset { at_once "<frameset>" "a \0b\n" ≡ codes "<html>[<head><frameset>[' \n']]" }
    ensures after_frameset { at_once "<frameset></frameset>" "a \0b\n" ≡ codes "<html>[<head><frameset>' \n']" }
    ensures after_after_frameset { at_once "<frameset></frameset></html>" "ab" ≡ codes "<html>[<head><frameset>]" }
    ensures foreign_content { at_once "<svg>" "a \0b" ≡ codes "<html>[<head><body>[<svg svg>['a " ++ replacement ++ codes "b']]]" }
    ensures white_space_after_after_frameset { at_once "<b><frameset></frameset></html>" "a " ≡ codes "<html>[<head><frameset>' ']" }
{}
