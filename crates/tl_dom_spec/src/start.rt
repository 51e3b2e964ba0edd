//! Worked rows: the start of a page: `initial`, `before html`, `before head` (13.2.6.4.1 to .3).

ghost use Rattle.std.specs.Prelude.{◌≡◌, codes, false, true};
ghost use Rattle.tl_dom_spec.specs.Examples.{is_quirks, page};

/// "initial" (13.2.6.4.1).
pub fn initial()
    ensures white_space_is_ignored { page " \n\t<!DOCTYPE html>" ≡ codes "<!html><html>[<head><body>]" }
    ensures comment_goes_into_the_document { page "<!--a--><!DOCTYPE html><!--b-->" ≡ codes "<!--a--><!html><!--b--><html>[<head><body>]" }
    ensures doctype { page "<!DOCTYPE html>" ≡ codes "<!html><html>[<head><body>]" }
    ensures doctype_by_its_name_alone { page "<!doctype svg>" ≡ codes "<!svg><html>[<head><body>]" }
    ensures doctype_with_identifiers { page "<!DOCTYPE html PUBLIC \"p\" 's'>" ≡ codes "<!html 'p' 's'><html>[<head><body>]" }
    ensures doctype_with_spaces { page "<!DOCTYPE  html  PUBLIC  \"p\"  >" ≡ codes "<!html 'p' ''><html>[<head><body>]" }
    ensures doctype_with_one_identifier { page "<!DOCTYPE html SYSTEM \"s\">" ≡ codes "<!html '' 's'><html>[<head><body>]" }
    ensures missing_doctype { page "a" ≡ codes "<html>[<head><body>['a']]" }
    ensures second_doctype_is_ignored { page "<!DOCTYPE a><!DOCTYPE b>" ≡ codes "<!a><html>[<head><body>]" }
    ensures nothing { page "" ≡ codes "<html>[<head><body>]" }
{}

/// Whether a document is in quirks mode (13.2.6.4.1).
pub fn quirks()
    ensures not_by_the_doctype_of_html { is_quirks "<!DOCTYPE html>" ≡ false }
    ensures without_a_doctype { is_quirks "<p>" ≡ true }
    ensures by_another_name { is_quirks "<!DOCTYPE htm>" ≡ true }
    ensures where_the_doctype_is_cut { is_quirks "<!DOCTYPE html PUBLIC>" ≡ true }
    ensures by_a_public_identifier { is_quirks "<!DOCTYPE html PUBLIC \"HTML\">" ≡ true }
    ensures by_the_beginning_of_one { is_quirks "<!DOCTYPE html PUBLIC \"-//W3C//DTD HTML 3.2//EN\" \"s\">" ≡ true }
    ensures transitional_without_a_system_identifier { is_quirks "<!DOCTYPE html PUBLIC \"-//W3C//DTD HTML 4.01 Transitional//EN\">" ≡ true }
    ensures not_transitional_with_one { is_quirks "<!DOCTYPE html PUBLIC \"-//W3C//DTD HTML 4.01 Transitional//EN\" \"s\">" ≡ false }
    ensures not_by_the_doctype_of_xhtml { is_quirks "<!DOCTYPE html PUBLIC \"-//W3C//DTD XHTML 1.0 Transitional//EN\" \"s\">" ≡ false }
    ensures by_a_system_identifier { is_quirks "<!DOCTYPE html SYSTEM \"http://www.ibm.com/data/dtd/v11/ibmxhtml1-transitional.dtd\">" ≡ true }
    ensures by_the_end_of_the_page { is_quirks "<!DOCTYPE html" ≡ true }
    ensures by_the_end_of_the_page_in_the_keyword { is_quirks "<!DOCTYPE html PUB" ≡ true }
    ensures not_by_the_end_of_the_page_in_what_is_bogus { is_quirks "<!DOCTYPE html SYSTEM \"a\" b" ≡ false }
    ensures where_the_keyword_is_cut { is_quirks "<!DOCTYPE html PUB>" ≡ true }
    ensures where_it_is_another_word { is_quirks "<!DOCTYPE html foo>" ≡ true }
    ensures where_the_public_identifier_is_cut { is_quirks "<!DOCTYPE html PUBLIC \"a>" ≡ true }
    ensures where_something_else_follows_it { is_quirks "<!DOCTYPE html PUBLIC \"a\" b>" ≡ true }
    ensures where_the_system_identifier_is_missing { is_quirks "<!DOCTYPE html SYSTEM>" ≡ true }
    ensures where_the_system_identifier_is_cut { is_quirks "<!DOCTYPE html SYSTEM 'a>" ≡ true }
    ensures not_where_something_else_follows_it { is_quirks "<!DOCTYPE html SYSTEM 'a' b c>" ≡ false }
{}

/// "before html" (.2).
pub fn before_html()
    ensures doctype { page "<!DOCTYPE a><!DOCTYPE b><html>" ≡ codes "<!a><html>[<head><body>]" }
    ensures comment { page "<!DOCTYPE html><!--a--><html>" ≡ codes "<!html><!--a--><html>[<head><body>]" }
    ensures white_space { page "<!DOCTYPE html> \n<html>" ≡ codes "<!html><html>[<head><body>]" }
    ensures html { page "<!DOCTYPE html><html lang=en>" ≡ codes "<!html><html lang=en>[<head><body>]" }
    ensures head_end_tag { page "<!DOCTYPE html></head><!--a-->" ≡ codes "<!html><html>[<head><!--a--><body>]" }
    ensures body_end_tag { page "<!DOCTYPE html></body><!--a-->" ≡ codes "<!html><html>[<head><body><!--a-->]" }
    ensures br_end_tag { page "<!DOCTYPE html></br>" ≡ codes "<!html><html>[<head><body>[<br>]]" }
    ensures other_end_tag { page "<!DOCTYPE html></p><!--a-->" ≡ codes "<!html><!--a--><html>[<head><body>]" }
    ensures anything_else { page "<!DOCTYPE html><p>" ≡ codes "<!html><html>[<head><body>[<p>]]" }
    ensures text { page "<!DOCTYPE html>a" ≡ codes "<!html><html>[<head><body>['a']]" }
{}

/// "before head" (.3).
pub fn before_head()
    ensures white_space { page "<html> \n<head>" ≡ codes "<html>[<head><body>]" }
    ensures comment { page "<html><!--a--><head>" ≡ codes "<html>[<!--a--><head><body>]" }
    ensures doctype { page "<html><!DOCTYPE a><head>" ≡ codes "<html>[<head><body>]" }
    ensures html_adds_keys { page "<html a=1><html a=2 b=3><head c=4>" ≡ codes "<html a=1 b=3>[<head c=4><body>]" }
    ensures head { page "<html><head a=1>" ≡ codes "<html>[<head a=1><body>]" }
    ensures head_end_tag { page "<html></head><!--a-->" ≡ codes "<html>[<head><!--a--><body>]" }
    ensures br_end_tag { page "<html></br>" ≡ codes "<html>[<head><body>[<br>]]" }
    ensures other_end_tag { page "<html></div><!--a--><head b>" ≡ codes "<html>[<!--a--><head b=><body>]" }
    ensures anything_else { page "<html><p>" ≡ codes "<html>[<head><body>[<p>]]" }
    ensures text { page "<html> a" ≡ codes "<html>[<head><body>['a']]" }
{}
