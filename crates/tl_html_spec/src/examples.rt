//! Worked rows: pages, and what the standard's tokenizer reads of them. `./x compare html --row`
//! writes the words of a row.

ghost use Rattle.std.specs.Prelude.{◌≡◌, ◌++◌, ◌∷◌, [], codes, false};
ghost use Rattle.tl_html_spec.specs.HtmlTokenizer.{CommentToken, StartTag, html_tokens};
ghost use Rattle.tl_html_spec.specs.Examples.{characters, closed, comment, doctype, end, pair, read, start, text};

/// Nothing but `>` outside of quotes ends a tag (13.2.5.8, .32 to .40).
pub fn tags()
    ensures less_in_a_name { read "<div<div>" ≡ start "div<div" [] }
    ensures less_in_a_key { read "<div foo<div>" ≡ start "div" (pair "foo<div" "" ∷ []) }
    ensures upper_case { read "<DIV CLASS=X></DIV >"
        ≡ start "div" (pair "class" "X" ∷ []) ++ end "div" }
    ensures without_a_space { read "<div id=\"foo\"class=\"bar\">"
        ≡ start "div" (pair "id" "foo" ∷ pair "class" "bar" ∷ []) }
    ensures solidus_inside { read "<div / id=\"foo\">" ≡ start "div" (pair "id" "foo" ∷ []) }
    ensures flag { read "<br/>" ≡ closed "br" [] }
    ensures end_tag_with_a_pair { read "</p id=x/>" ≡ end "p" }
    ensures without_a_name { read "a</>b" ≡ text "ab" }
{}

/// Keys and values (13.2.5.33 to .39).
pub fn attributes()
    ensures duplicate { read "<div id=\"foo\" ID=\"bar\">" ≡ start "div" (pair "id" "foo" ∷ []) }
    ensures equals_sign_first { read "<div foo=\"bar\" =\"baz\">"
        ≡ start "div" (pair "foo" "bar" ∷ pair "=\"baz\"" "" ∷ []) }
    ensures missing_value { read "<div id=>" ≡ start "div" (pair "id" "" ∷ []) }
    ensures bare { read "<div foo=b'ar'>" ≡ start "div" (pair "foo" "b'ar'" ∷ []) }
    ensures spaces { read "<p a  =  \"b\"   c>" ≡ start "p" (pair "a" "b" ∷ pair "c" "" ∷ []) }
    ensures solidus_in_a_value { read "<a href=x/>" ≡ start "a" (pair "href" "x/" ∷ []) }
    ensures quotes_of_either_kind { read "<p a='\"' b=\"'\">"
        ≡ start "p" (pair "a" "\"" ∷ pair "b" "'" ∷ []) }
{}

/// What begins no tag (13.2.5.6, .7, .41, .42).
pub fn no_tags()
    ensures digit { read "<42></42>" ≡ text "<42>" ++ comment "42" }
    ensures space { read "a < b </ c>" ≡ text "a < b " ++ comment " c" }
    ensures question_mark { read "<?xml-stylesheet type=\"text/css\" href=\"style.css\"?>"
        ≡ comment "?xml-stylesheet type=\"text/css\" href=\"style.css\"?" }
    ensures element { read "<!ELEMENT br EMPTY>" ≡ comment "ELEMENT br EMPTY" }
    ensures cdata { read "<![CDATA[x]]>y" ≡ comment "[CDATA[x]]" ++ text "y" }
    ensures one_dash { read "<!-a>" ≡ comment "-a" }
    ensures part_of_a_word { read "<!docty>" ≡ comment "docty" }
{}

/// A comment ends at `-->` or `--!>`, and at once where it begins with `>` or `->` (13.2.5.43).
pub fn comments()
    ensures at_once { read "<!-->x" ≡ comment "" ++ text "x" }
    ensures at_once_after_a_dash { read "<!--->x" ≡ comment "" ++ text "x" }
    ensures empty { read "<!---->x" ≡ comment "" ++ text "x" }
    ensures bang { read "<!--a--!>b" ≡ comment "a" ++ text "b" }
    ensures nested { read "<!-- <!-- nested --> -->" ≡ comment " <!-- nested " ++ text " -->" }
    ensures more_dashes { read "<!--a---->b" ≡ comment "a--" ++ text "b" }
    ensures dashes_inside { read "<!--a--b-c-->" ≡ comment "a--b-c" }
    ensures bang_and_a_dash { read "<!--a--!-b-->" ≡ comment "a--!-b" }
    ensures begun_inside { read "<!--<!-->a" ≡ comment "<!" ++ text "a" }
    ensures less_signs { read "<!--<<a<!b<!-c-->" ≡ comment "<<a<!b<!-c" }
{}

/// A doctype ends at the first `>` (13.2.5.53 to .68).
pub fn doctypes()
    ensures html { read "<!DOCTYPE html>x" ≡ doctype ++ text "x" }
    ensures in_quotes { read "<!doctype html PUBLIC \">\">" ≡ doctype ++ text "\">" }
    ensures without_a_name { read "<!doctype>x" ≡ doctype ++ text "x" }
{}

/// The longest name is a reference, with `;` or without (13.2.5.73).
pub fn names_in_texts()
    ensures without_semicolon { read "I'm &notit; I tell you"
        ≡ characters (codes "I'm " ++ (0xC2 ∷ 0xAC ∷ []) ++ codes "it; I tell you") }
    ensures with_it { read "I'm &notin; I tell you"
        ≡ characters (codes "I'm " ++ (0xE2 ∷ 0x88 ∷ 0x89 ∷ []) ++ codes " I tell you") }
    ensures longest { read "&notinva;&notinv"
        ≡ characters ((0xE2 ∷ 0x88 ∷ 0x89 ∷ 0xC2 ∷ 0xAC ∷ []) ++ codes "inv") }
    ensures upper_case { read "&AMP;&Amp;&LT" ≡ text "&&Amp;<" }
    ensures long { read "&CounterClockwiseContourIntegral;"
        ≡ characters ((0xE2 ∷ 0x88 ∷ 0xB3 ∷ [])) }
    ensures two_characters { read "&NotEqualTilde;&bne;"
        ≡ characters ((0xE2 ∷ 0x89 ∷ 0x82 ∷ 0xCC ∷ 0xB8 ∷ []) ++ codes "="
        ++ (0xE2 ∷ 0x83 ∷ 0xA5 ∷ [])) }
    ensures none { read "&unknown; & &; &1;" ≡ text "&unknown; & &; &1;" }
{}

/// In a value a name without `;` is none before `=`, a letter or a digit (13.2.5.73).
pub fn names_in_values()
    ensures before_a_letter { read "<a title=\"I'm &notit; I tell you\">"
        ≡ start "a" (pair "title" "I'm &notit; I tell you" ∷ []) }
    ensures with_semicolon { read "<a title=\"I'm &notin; I tell you\">"
        ≡ start "a" ((
          codes "title",
          codes "I'm " ++ (0xE2 ∷ 0x88 ∷ 0x89 ∷ [])
              ++ codes " I tell you",
        ) ∷ []) }
    ensures before_equals_sign { read "<a href=\"?a=1&lt=2\">"
        ≡ start "a" (pair "href" "?a=1&lt=2" ∷ []) }
    ensures before_a_digit { read "<a href=?&copy1>" ≡ start "a" (pair "href" "?&copy1" ∷ []) }
    ensures before_anything_else { read "<a b='&lt' c=&lt d=\"&lt;=&lt-\">"
        ≡ start "a" (pair "b" "<" ∷ pair "c" "<" ∷ pair "d" "<=<-" ∷ []) }
{}

/// The number of a character (13.2.5.75 to .80).
pub fn numbers()
    ensures of_either_base { read "&#65;&#x42&#X43;&#068;" ≡ text "ABCD" }
    ensures windows_1252 { read "&#128;&#x80&#x9f;"
        ≡ characters ((0xE2 ∷ 0x82 ∷ 0xAC ∷ 0xE2 ∷ 0x82 ∷ 0xAC ∷ 0xC5 ∷ 0xB8 ∷ [])) }
    ensures of_controls { read "&#x81;&#x9;" ≡ characters ((0xC2 ∷ 0x81 ∷ 0x09 ∷ [])) }
    ensures null { read "&#0;" ≡ characters ((0xEF ∷ 0xBF ∷ 0xBD ∷ [])) }
    ensures surrogate { read "&#xD800;" ≡ characters ((0xEF ∷ 0xBF ∷ 0xBD ∷ [])) }
    ensures past_the_last_character { read "&#x110000;&#99999999999999999999;"
        ≡ characters ((0xEF ∷ 0xBF ∷ 0xBD ∷ 0xEF ∷ 0xBF ∷ 0xBD ∷ [])) }
    ensures the_last_character { read "&#x10FFFF;"
        ≡ characters ((0xF4 ∷ 0x8F ∷ 0xBF ∷ 0xBF ∷ [])) }
    ensures at_the_end { read "&#x41" ≡ text "A" }
    ensures none { read "&#;&#x;&#xg;&#a" ≡ text "&#;&#x;&#xg;&#a" }
{}

/// What its own end tag alone ends (13.2.5.2, .3, .5, .9 to .14).
pub fn raw_texts()
    ensures title { read "<title>a<b>&lt;</TITLE >c"
        ≡ start "title" [] ++ text "a<b><" ++ end "title" ++ text "c" }
    ensures style { read "<style>&lt;</styl</style/>x"
        ≡ start "style" [] ++ text "&lt;</styl" ++ end "style" ++ text "x" }
    ensures longer_name { read "<textarea></textareax></textarea a=b>c"
        ≡ start "textarea" [] ++ text "</textareax>" ++ end "textarea" ++ text "c" }
    ensures of_another { read "<title></style></title>"
        ≡ start "title" [] ++ text "</style>" ++ end "title" }
    ensures xmp { read "<xmp><p></xmp>" ≡ start "xmp" [] ++ text "<p>" ++ end "xmp" }
    ensures iframe { read "<iframe><p></iframe>"
        ≡ start "iframe" [] ++ text "<p>" ++ end "iframe" }
    ensures noscript { read "<noscript><p></noscript>"
        ≡ start "noscript" [] ++ start "p" [] ++ end "noscript" }
    ensures plaintext { read "<plaintext></plaintext>"
        ≡ start "plaintext" [] ++ text "</plaintext>" }
{}

/// A script ends at its end tag, unless `<!--` and `<script` stand before (13.2.5.4, .15 to .31).
pub fn scripts()
    ensures plain { read "<script>a<b</script>c"
        ≡ start "script" [] ++ text "a<b" ++ end "script" ++ text "c" }
    ensures escaped { read "<script><!--</script>a"
        ≡ start "script" [] ++ text "<!--" ++ end "script" ++ text "a" }
    ensures double_escaped { read "<script><!--<script></script>--></script>a"
        ≡ start "script" [] ++ text "<!--<script></script>-->" ++ end "script" ++ text "a" }
    ensures in_a_string { read "<script>'<!-- <script>'</script><!-- still --><script></script>a"
        ≡ start "script" [] ++ text "'<!-- <script>'</script><!-- still --><script>"
        ++ end "script" ++ text "a" }
    ensures escape_ends { read "<script><!--<script>--></script>a"
        ≡ start "script" [] ++ text "<!--<script>-->" ++ end "script" ++ text "a" }
    ensures another_word { read "<script><!--<scripts></script>a"
        ≡ start "script" [] ++ text "<!--<scripts>" ++ end "script" ++ text "a" }
    ensures cut_escape { read "<script><!-a<script></script>b"
        ≡ start "script" [] ++ text "<!-a<script>" ++ end "script" ++ text "b" }
    ensures dashes { read "<script><!--<script---><script></script>a"
        ≡ start "script" [] ++ text "<!--<script---><script>" ++ end "script" ++ text "a" }
    ensures upper_case { read "<SCRIPT><!--<ScRiPt/></sCrIpT ></script>a"
        ≡ start "script" [] ++ text "<!--<ScRiPt/></sCrIpT >" ++ end "script" ++ text "a" }
{}

/// A tag that the end of the page cuts is dropped, and all else gives what it is.
pub fn cut_pages()
    ensures less { read "a<" ≡ text "a<" }
    ensures solidus { read "a</" ≡ text "a</" }
    ensures tag { read "a<b c" ≡ text "a" }
    ensures value { read "a<b c=\"d&lt" ≡ text "a" }
    ensures comment { read "a<!--b--!" ≡ text "a" ++ comment "b" }
    ensures declaration { read "<!d" ≡ comment "d" }
    ensures doctype { read "<!doctype" ≡ doctype }
    ensures reference { read "&amp" ≡ text "&" }
    ensures no_number { read "&#x" ≡ text "&#x" }
    ensures title { read "<title>&lt" ≡ start "title" [] ++ text "<" }
    ensures script { read "<script></scr" ≡ start "script" [] ++ text "</scr" }
{}

/// What stands before the tokenizer (13.2.3.5), and NUL.
pub fn bytes()
    ensures ends_of_lines { html_tokens (codes "a" ++ (0x0D ∷ 0x0A ∷ []) ++ codes "b" ++ (0x0D ∷ [])
        ++ codes "c" ++ (0x0A ∷ 0x0D ∷ []))
        ≡ characters (codes "a" ++ (0x0A ∷ []) ++ codes "b" ++ (0x0A ∷ []) ++ codes "c"
        ++ (0x0A ∷ 0x0A ∷ [])) }
    ensures null { html_tokens (codes "a" ++ (0x00 ∷ []) ++ codes "<p" ++ (0x00 ∷ []) ++ codes " "
        ++ (0x00 ∷ []) ++ codes "=" ++ (0x00 ∷ []) ++ codes ">")
        ≡ characters (codes "a" ++ (0x00 ∷ [])) ++ (StartTag (codes "p"
        ++ (0xEF ∷ 0xBF ∷ 0xBD ∷ [])) (((0xEF ∷ 0xBF ∷ 0xBD ∷ []), (0xEF ∷ 0xBF ∷ 0xBD ∷ [])) ∷ [])
        false ∷ []) }
    ensures null_in_a_comment { html_tokens (codes "<!" ++ (0x00 ∷ []) ++ codes ">")
        ≡ (CommentToken ((0xEF ∷ 0xBF ∷ 0xBD ∷ [])) ∷ []) }
    ensures null_in_a_title { html_tokens (codes "<title>" ++ (0x00 ∷ []))
        ≡ start "title" [] ++ characters ((0xEF ∷ 0xBF ∷ 0xBD ∷ [])) }
    ensures other_characters { html_tokens
        ((0xC3 ∷ 0xA9 ∷ []) ++ codes "<" ++ (0xC3 ∷ 0xA9 ∷ 0xC3 ∷ 0xA9 ∷ []) ++ codes " "
        ++ (0xC3 ∷ 0x89 ∷ []) ++ codes ">")
        ≡ characters ((0xC3 ∷ 0xA9 ∷ []) ++ codes "<" ++ (0xC3 ∷ 0xA9 ∷ 0xC3 ∷ 0xA9 ∷ [])
        ++ codes " " ++ (0xC3 ∷ 0x89 ∷ []) ++ codes ">") }
{}
