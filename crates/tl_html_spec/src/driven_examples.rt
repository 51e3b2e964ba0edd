//! Worked rows of the tokenizer as a driver has it go on.

ghost use Rattle.std.specs.Prelude.{◌≡◌, ◌++◌, [], None, Some, false, true};
ghost use Rattle.tl_html_spec.specs.Examples.{comment, end, parts, read_driven, read_foreign, start, text, these};

/// The driver sets the state after a start tag (13.2.6).
pub fn states()
    ensures title { read_driven "<title><b>" ≡ these (start "title" [] ++ start "b" []) }
    ensures script { read_driven "<script>a<b></script>c"
        ≡ these (start "script" [] ++ text "a" ++ start "b" [] ++ end "script" ++ text "c") }
{}

/// `<![CDATA[` begins a section in foreign content alone (13.2.5.42, .69 to .71).
pub fn sections()
    ensures in_html { read_driven "<![CDATA[a]]>b" ≡ these (comment "[CDATA[a]]" ++ text "b") }
    ensures markup { read_foreign "<![CDATA[a<b>&lt;]]>c" ≡ these (text "a<b>&lt;c") }
    ensures brackets { read_foreign "<![CDATA[a]b]]c]]]>d" ≡ these (text "a]b]]c]d") }
    ensures line_ends { read_foreign "<![CDATA[\r\n]]>\r" ≡ these (text "\n\n") }
    ensures other_case { read_foreign "<![cdata[a]]>" ≡ these (comment "[cdata[a]]") }
    ensures begun { read_foreign "<![CDATx>" ≡ these (comment "[CDATx") }
    ensures begun_at_the_end { read_foreign "<![CDATA" ≡ these (comment "[CDATA") }
    ensures at_the_end { read_foreign "<![CDATA[a" ≡ these (text "a") }
    ensures one_bracket_at_the_end { read_foreign "<![CDATA[a]" ≡ these (text "a]") }
    ensures brackets_at_the_end { read_foreign "<![CDATA[a]]" ≡ these (text "a]]") }
{}

/// A doctype has a name and identifiers (13.2.5.53 to .68).
pub fn doctypes()
    ensures name { read_driven "<!DOCTYPE Html>" ≡ parts "html" None None false }
    ensures without_a_space { read_driven "<!doctypehtml >" ≡ parts "html" None None false }
    ensures without_a_name { read_driven "<!doctype>" ≡ parts "" None None true }
    ensures identifiers { read_driven "<!doctype html public\"P\"'s' >"
        ≡ parts "html" (Some "P") (Some "s") false }
    ensures system { read_driven "<!doctype html SYSTEM 's'>"
        ≡ parts "html" None (Some "s") false }
    ensures other_word { read_driven "<!doctype html strict 's'>" ≡ parts "html" None None true }
    ensures without_quotes { read_driven "<!doctype html public p>" ≡ parts "html" None None true }
    ensures cut_in_an_identifier { read_driven "<!doctype html public 'p>'x"
        ≡ parts "html" (Some "p") None true ++ these (text "'x") }
    ensures more_behind { read_driven "<!doctype html system 's' x>"
        ≡ parts "html" None (Some "s") false }
    ensures at_the_end { read_driven "<!doctype html" ≡ parts "html" None None true }
{}
