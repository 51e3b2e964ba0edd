//! Worked rows: texts, and what goes of their trees.

ghost use Rattle.std.specs.Prelude.{[], codes, ◌++◌, ◌∷◌, ◌≡◌};
ghost use Rattle.tl_tree_safe.specs.Examples.{key_goes, removed_in, tag_goes};
ghost use Rattle.tl_tree_safe.specs.ShownNames.{shown};
ghost use Rattle.tl_tree_safe.specs.declared.removal.Cause.TheVariants.{ForeignTag, MisplacedTag, OpaqueTag, UnlistedKey, UnlistedTag, UnlistedValue};

/// Elements that go, alone or with what is in them.
pub fn elements()
    ensures nothing { removed_in "a<p>b<br>" ≡ [] }
    ensures unlisted { removed_in "a<i>b<i>c</i></i><b>d</b>"
        ≡ tag_goes 1 UnlistedTag ∷ tag_goes 3 UnlistedTag ∷ [] }
    ensures opaque { removed_in "<script>a</script><style>" ≡
        tag_goes 0 OpaqueTag ∷ tag_goes 2 OpaqueTag ∷ [] }
    ensures template { removed_in "<template><i>a</i></template><i>"
        ≡ tag_goes 0 OpaqueTag ∷ tag_goes 4 UnlistedTag ∷ [] }
    ensures foreign { removed_in "<svg><a>b</a></svg><i>"
        ≡ tag_goes 0 ForeignTag ∷ tag_goes 3 UnlistedTag ∷ [] }
    ensures misplaced { removed_in "<p>a<object><p>b" ≡
        tag_goes 2 UnlistedTag ∷ tag_goes 3 MisplacedTag ∷ [] }
{}

/// Attributes of elements that stay.
pub fn attributes()
    ensures nothing { removed_in "<p id=a title=b><a href=/c>" ≡ [] }
    ensures unlisted { removed_in "<p onclick=a title=b style=c>"
        ≡ key_goes 0 "onclick" UnlistedKey ∷ key_goes 0 "style" UnlistedKey ∷ [] }
    ensures value { removed_in "a<a href=javascript:b title=c>"
        ≡ key_goes 1 "href" UnlistedValue ∷ [] }
    ensures of_one_that_goes { removed_in "<i onclick=a>" ≡ tag_goes 0 UnlistedTag ∷ [] }
{}

/// Names as they are shown.
pub fn shown_names()
    ensures plain { shown (codes "data-x:y") ≡ codes "data-x:y" }
    ensures escape { shown (codes "a" ++ 27 ∷ codes "[31m") ≡ codes "a" ++ 92 ∷ codes "x1b[31m" }
    ensures backslash { shown (92 ∷ []) ≡ 92 ∷ codes "x5c" }
    ensures delete { shown (127 ∷ []) ≡ 92 ∷ codes "x7f" }
    ensures beyond_ascii { shown (194 ∷ 155 ∷ []) ≡ 92 ∷ codes "xc2" ++ 92 ∷ codes "x9b" }
{}
