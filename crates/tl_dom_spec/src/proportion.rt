//! Worked rows: trees in proportion to their pages, and tokens alone.

ghost use Rattle.std.specs.Prelude.{◌≡◌, codes, false, true};
ghost use Rattle.tl_dom_spec.specs.Examples.{added, context_named, excess, tokens_inside, tokens_page};
ghost use Rattle.tl_dom_spec.specs.HtmlTree.{is_fragment_in_proportion_by, is_in_proportion, is_little, standard};
ghost use Rattle.tl_dom_spec.specs.Tags.{html_space};

/// Elements that no start tag stands for.
pub fn elements_added()
    ensures nothing { added "<html><head><body><p>" ≡ 0 }
    ensures html_head_body { added "a" ≡ 3 }
    ensures parts_of_tables { added "<table><td>a<table><col>" ≡ 6 }
    ensures end_tags_alone { added "a</p></br>" ≡ 5 }
    ensures opened_again { added "<p><b><i></p>a" ≡ 5 }
    ensures clones { added "<b><i><p></b>" ≡ 5 }
    ensures anchor { added "<a>b<a>c" ≡ 3 }
{}

/// At most four of them for each token, and 65,536 beside.
pub fn proportion()
    ensures few { excess "<p><b><i></p>a<p>b" ≡ 0 }
    ensures at_the_bound { excess "<p><b><b><b><i><i><i><s><s><s><u><u><u><em><em><em><tt><tt><tt><big><big><big><code><code><code><font><font><font><small><small><small><strike><strike><strike><strong><strong><strong><p>x<p>x<p>x<p>x<p>x" ≡ 0 }
    ensures above_the_bound { excess "<p><b><b><b><i><i><i><s><s><s><u><u><u><em><em><em><tt><tt><tt><big><big><big><code><code><code><font><font><font><small><small><small><strike><strike><strike><strong><strong><strong><p>x<p>x<p>x<p>x<p>x<p>x" ≡ 23 }
    ensures most_at_any_token { excess "<p><b><b><b><i><i><i><s><s><s><u><u><u><em><em><em><tt><tt><tt><big><big><big><code><code><code><font><font><font><small><small><small><strike><strike><strike><strong><strong><strong><p>x<p>x<p>x<p>x<p>x<p>xabcdefghij" ≡ 23 }
    ensures most { is_little 65536 ≡ true }
    ensures too_many { is_little 65537 ≡ false }
    ensures small_page { is_in_proportion (codes "<p>") ≡ true }
    ensures small_fragment { is_fragment_in_proportion_by standard (context_named html_space "p")
        (codes "<p>") ≡ true }
{}

/// Tokens that were read by names alone.
pub fn tokens()
    ensures page { tokens_page "<!DOCTYPE a><p>b" ≡ codes "<!html><html>[<head><body>[<p>['b']]]" }
    ensures fragment { tokens_inside "div" "<p>a<p>b" ≡ codes "<p>['a']<p>['b']" }
    ensures raw_text_by_its_name { tokens_inside "div" "<svg><style><p></style>a"
        ≡ codes "<svg svg>[<svg style>['<p>']'a']" }
{}
