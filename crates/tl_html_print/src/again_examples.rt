//! Worked rows: which trees of pages are read again as they are printed.

ghost use Rattle.std.specs.Prelude.{false, true, ◌≡◌};
ghost use Rattle.tl_html_print.specs.Examples.{is_again};

/// What is read again, however it was written in the page.
pub fn read_again()
    ensures markup { is_again "<p id=a>b<i>&lt;<!--d-->" ≡ true }
    ensures key_that_begins_with_equals { is_again "<p =a=b =c>" ≡ true }
    ensures line_ends_of_the_page { is_again "a\r\nb\rc" ≡ true }
    ensures comments { is_again "<!--a--!><!--b--><!--><!--c-" ≡ true }
    ensures bogus_comments { is_again "<?a--></ b--!><!c->" ≡ true }
    ensures title { is_again "<title>&lt;/title>" ≡ true }
    ensures style { is_again "<style>a</b>&amp;<!--</style>" ≡ true }
    ensures style_that_the_page_cuts { is_again "<style>a</styl" ≡ true }
    ensures script { is_again "<script>'</b>'<!--</script>" ≡ true }
    ensures script_in_a_script { is_again "<script><!--<script></script>--></script>" ≡ true }
    ensures first_line_feed { is_again "<pre>\n\na" ≡ true }
    ensures title_in_svg { is_again "<svg><title>&lt;" ≡ true }
    ensures style_in_svg { is_again "<svg><style>a" ≡ true }
{}

/// What is not: each case of `is_read_again`.
pub fn not_read_again()
    ensures return_in_a_text { is_again "a&#13;" ≡ false }
    ensures return_in_a_value { is_again "<p id='a&#xd;'>" ≡ false }
    ensures return_in_a_title { is_again "<title>&#13;</title>" ≡ false }
    ensures plaintext { is_again "<plaintext>a" ≡ false }
    ensures script_left_open { is_again "<script><!--<script>" ≡ false }
    ensures script_left_open_behind_another { is_again "<script><!--<script></script><script >" ≡ false }
    ensures markup_in_a_title_of_svg { is_again "<svg><title><b>" ≡ false }
    ensures markup_in_a_style_of_svg { is_again "<svg><style>&lt;" ≡ false }
    ensures below_another { is_again "<ul><li><plaintext>" ≡ false }
    ensures beside_another { is_again "<p>a</p>&#13;" ≡ false }
{}
