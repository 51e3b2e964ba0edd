//! Worked rows: how far elements go that are open at the end of a page.

ghost use Rattle.std.specs.Prelude.{◌≡◌, ◌∷◌, ◌++◌, [], Some, codes};
ghost use Rattle.tl_html_spec.specs.Examples.{end, start, text};
ghost use Rattle.tl_patch_spec.specs.Examples.{alone, asked_in, cut, put_words, up_to_tail_in, whole, with_patch, words};
ghost use Rattle.tl_patch_spec.specs.Patches.{Append, Fill, Prepend, PutAfter, Remove, RenameElement, Unwrap, change_tag, cut_out, put_at, put_instead};
ghost use Rattle.tl_patch_spec.specs.TagChanges.{Rename};

/// They end where `</body>` and `</html>` stand last in the page.
#[tactic(auto, unfolding(tl_html_spec::specs::Reader::read, tl_html_spec::specs::Reader::rest_before))]
pub fn tails()
    ensures both { up_to_tail_in "<html><body><p>a</body></html>"
        ≡ cut "p" 2 4 ∷ whole "body" 1 4 ∷ whole "html" 0 5 ∷ [] }
    ensures nothing_in_it { up_to_tail_in "<body></body>" ≡ whole "body" 0 1 ∷ [] }
    ensures upper_case { up_to_tail_in "<BODY>a</BODY>" ≡ whole "body" 0 2 ∷ [] }
    ensures white_space { up_to_tail_in "<html><body>a</body> </html> "
        ≡ whole "body" 1 3 ∷ whole "html" 0 5 ∷ [] }
    ensures comments { up_to_tail_in "<html><body>a</body><!--b--></html><!--c-->"
        ≡ whole "body" 1 3 ∷ whole "html" 0 5 ∷ [] }
    ensures read_as_nothing { up_to_tail_in "<body>a</body></>" ≡ whole "body" 0 2 ∷ [] }
    ensures twice { up_to_tail_in "<body>a</body></body>" ≡ whole "body" 0 2 ∷ [] }
    ensures not_closed { up_to_tail_in "<body><div>a</body>"
        ≡ cut "div" 1 3 ∷ whole "body" 0 3 ∷ [] }
    ensures in_a_head { up_to_tail_in "<head></body>" ≡ cut "head" 0 1 ∷ [] }
    ensures in_nothing { up_to_tail_in "<p>a</html>" ≡ cut "p" 0 2 ∷ [] }
{}

/// One of the two end tags, or the wrong way round.
#[tactic(auto, unfolding(tl_html_spec::specs::Reader::read, tl_html_spec::specs::Reader::rest_before))]
pub fn parts_of_tails()
    ensures of_the_body { up_to_tail_in "<html><body>a</body>"
        ≡ whole "body" 1 3 ∷ cut "html" 0 4 ∷ [] }
    ensures of_the_page { up_to_tail_in "<html><body>a</html>"
        ≡ cut "body" 1 3 ∷ whole "html" 0 3 ∷ [] }
    ensures page_first { up_to_tail_in "<html><body>a</html></body>"
        ≡ cut "body" 1 3 ∷ whole "html" 0 3 ∷ [] }
    ensures after_a_space { up_to_tail_in "<html><body>a</body> <!--b-->"
        ≡ whole "body" 1 3 ∷ cut "html" 0 6 ∷ [] }
{}

/// With anything else behind them they end nothing, as to browsers it is in the body.
#[tactic(auto, unfolding(tl_html_spec::specs::Reader::read, tl_html_spec::specs::Reader::rest_before))]
pub fn without_tails()
    ensures none { up_to_tail_in "<body>a" ≡ cut "body" 0 2 ∷ [] }
    ensures text { up_to_tail_in "<body>a</body>b" ≡ cut "body" 0 4 ∷ [] }
    ensures text_between { up_to_tail_in "<body>a</body>b</html>" ≡ cut "body" 0 4 ∷ [] }
    ensures element { up_to_tail_in "<body>a</body><br>" ≡ alone "br" 3 ∷ cut "body" 0 4 ∷ [] }
    ensures paragraph { up_to_tail_in "<body>a</body></p>"
        ≡ whole "p" 3 3 ∷ cut "body" 0 4 ∷ [] }
    ensures other_end_tag { up_to_tail_in "<body>a</body></i>" ≡ cut "body" 0 4 ∷ [] }
    ensures in_a_script { up_to_tail_in "<body><script></body>"
        ≡ cut "script" 1 3 ∷ cut "body" 0 3 ∷ [] }
    ensures in_a_comment { up_to_tail_in "<body>a<!--</body>" ≡ cut "body" 0 3 ∷ [] }
{}

/// What patches ask for of them.
#[tactic(auto, unfolding(tl_html_spec::specs::Reader::read, tl_html_spec::specs::Reader::rest_before))]
pub fn patches()
    ensures fill { asked_in "<body><p>a</body></html>" 0 (Fill (words "y"))
        ≡ Some (put_instead 1 3 (put_words "y") ∷ []) }
    ensures prepend { asked_in "<body><p>a</body></html>" 0 (Prepend (words "y"))
        ≡ Some (put_at 1 (put_words "y") ∷ []) }
    ensures append { asked_in "<body><p>a</body></html>" 0 (Append (words "y"))
        ≡ Some (put_at 3 (put_words "y") ∷ []) }
    ensures unwrap { asked_in "<body><p>a</body></html>" 0 Unwrap
        ≡ Some (cut_out 0 1 ∷ cut_out 3 4 ∷ []) }
    ensures rename { asked_in "<body><p>a</body></html>" 0 (RenameElement (codes "div"))
        ≡ Some (change_tag 0 (Rename (codes "div")) ∷ change_tag 3 (Rename (codes "div")) ∷ []) }
    ensures remove_last { asked_in "<body><p>a</body></html>" 1 Remove
        ≡ Some (cut_out 1 3 ∷ []) }
    ensures after_last { asked_in "<body><p>a</body></html>" 1 (PutAfter (words "y"))
        ≡ Some (put_at 3 (put_words "y") ∷ []) }
    ensures tokens { with_patch "<body>a</body></html>" 0 (Append (words "y"))
        ≡ Some (start "body" [] ++ text "ay" ++ end "body" ++ end "html") }
{}
