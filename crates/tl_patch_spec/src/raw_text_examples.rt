//! Worked rows: when a browser may read what is put into a page as markup.

ghost use Rattle.std.specs.Prelude.{◌≡◌, ◌∷◌, [], Some, codes, false, true};
ghost use Rattle.tl_patch_spec.specs.Examples.{misread_in, words};
ghost use Rattle.tl_patch_spec.specs.Patches.{Append, Fill, Prepend, PutAfter, Remove, RenameElement};

/// A text that comes into a raw text.
#[tactic(auto, unfolding(tl_html_spec::specs::Reader::read, tl_html_spec::specs::Reader::rest_before))]
pub fn texts_put()
    ensures noscript { misread_in "<noscript><style></style></noscript>"
        ((1, Fill (words "a</noscript><img>")) ∷ []) ≡ Some true }
    ensures select { misread_in "<select><script>a</script>" ((1, Append (words "<")) ∷ [])
        ≡ Some true }
    ensures closed { misread_in "<svg></svg><style>a</style>" ((2, Prepend (words "&")) ∷ [])
        ≡ Some true }
    ensures by_an_end_tag { misread_in "</svg><style>a</style>" ((1, Fill (words "<")) ∷ [])
        ≡ Some false }
    ensures behind { misread_in "<style></style><svg></svg>" ((0, Fill (words "<")) ∷ [])
        ≡ Some false }
    ensures neither { misread_in "<svg></svg><style>a</style>" ((2, Fill (words ">b")) ∷ [])
        ≡ Some false }
    ensures escaped { misread_in "<svg><title>a</title><p>b</p>"
        ((1, Fill (words "<")) ∷ (4, Fill (words "<")) ∷ []) ≡ Some false }
    ensures beside { misread_in "<math><xmp>a</xmp></math>" ((1, PutAfter (words "<")) ∷ [])
        ≡ Some false }
{}

/// A tag that gets another name.
#[tactic(auto, unfolding(tl_html_spec::specs::Reader::read, tl_html_spec::specs::Reader::rest_before))]
pub fn tags_renamed()
    ensures inside { misread_in "<div><style><i></style></div>"
        ((0, RenameElement (codes "svg")) ∷ []) ≡ Some true }
    ensures behind { misread_in "<b></b><style>&</style>"
        ((0, RenameElement (codes "noscript")) ∷ []) ≡ Some true }
    ensures before { misread_in "<style><</style><b></b>" ((3, RenameElement (codes "svg")) ∷ [])
        ≡ Some false }
    ensures neither { misread_in "<div><style>a</style></div>"
        ((0, RenameElement (codes "svg")) ∷ []) ≡ Some false }
    ensures title { misread_in "<div><title><i></title></div>"
        ((0, RenameElement (codes "math")) ∷ []) ≡ Some true }
    ensures other { misread_in "<div><style><</style></div>" ((0, RenameElement (codes "p")) ∷ [])
        ≡ Some false }
    ensures together { misread_in "<div><style>a</style></div>"
        ((0, RenameElement (codes "template")) ∷ (1, Fill (words "<")) ∷ []) ≡ Some true }
    ensures gone { misread_in "<div><style>a</style></div>"
        ((0, Remove) ∷ (1, Fill (words "<")) ∷ []) ≡ Some false }
{}
