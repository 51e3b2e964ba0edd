//! Laws of the definitions.
ghost use Rattle.std.specs.Prelude.{◌≡◌, ◌↔◌, List, Ok, Option, Some, true, ℕ};
ghost use Rattle.std.specs.List.{All};
ghost use Rattle.std.specs.Option.{IsSomeAnd};
ghost use Rattle.tl_spec.specs.Select.Meaning.{Holds as CrateHolds};
ghost use Rattle.tl_spec.specs.Select.Selector.{Selector as CrateSelector};
ghost use Rattle.tl_spec.specs.Select.Text.{IsSelectorText};
ghost use Rattle.tl_spec.specs.Tree.Document.{Node, document};
ghost use Rattle.tl_css.specs.Grammar.{IsSelector};
ghost use Rattle.tl_css.specs.Meaning.{AreFound, Holds, IsForest, IsTag};
ghost use Rattle.tl_css.specs.Reading.{css_at};
ghost use Rattle.tl_css.specs.Selector.{Css, Not};
ghost use Rattle.tl.specs.Query.{FindsIn};
ghost use Rattle.tl.specs.View.{HTMLTable, document_of};
ghost use Rattle.tl_css_laws.specs.Plain.{IsPlain, IsTame, css_of};
ghost use Rattle.tl_css_laws.specs.Shared.{AreTagsAmong, asks_for_tags, is_shared_text};

/// A document that was just read is a forest.
pub fn documents_are_forests()
    ensures { (t : List ℕ) → IsForest (document t).nodes }
{}

/// A selector is found at one list of numbers.
pub fn selectors_find_once()
    ensures { (nodes : List Node) (e : Css) (ms ns : List ℕ) → AreFound nodes e ms
        → AreFound nodes e ns → ms ≡ ns }
{}

/// `:not(:not(e))` holds where `e` does, on a table where `e` can be found.
pub fn selectors_turned_twice_hold_alike()
    ensures { (nodes : List Node) (e : Css) (ns : List ℕ) → AreFound nodes e ns
        → (n : ℕ) → Holds nodes (Not (Not e)) n ↔ Holds nodes e n }
{}

/// On a tame forest a plain selector of the Rust crate holds in CSS at the tags where it does.
pub fn plain_selectors_hold_alike()
    ensures { (nodes : List Node) (e : CrateSelector) → IsForest nodes → All IsTame nodes
        → IsPlain e → (n : ℕ)
        → Holds nodes (css_of e) n ↔ IsTag nodes n × CrateHolds nodes e n }
{}

/// A shared text is a plain selector of the Rust crate, and in CSS the one that asks the same.
pub fn shared_texts_are_read_alike()
    ensures grammar { (text : List ℕ) → is_shared_text text ≡ true
        → (e : CrateSelector) × IsSelectorText text e × IsPlain e × IsSelector text (css_of e) }

    // The reader of CSS gives that one: none is too deep.
    ensures reader { (text : List ℕ) (e : CrateSelector) → is_shared_text text ≡ true
        → IsSelectorText text e → css_at text ≡ Ok (css_of e) }
{}

/// What a query of a document by a shared text finds, where the document is a tame forest, and what
/// a search by CSS does.
pub fn shared_texts_find_alike()
    // They find the same tags,
    ensures tags { (d : HTMLTable) (text : List ℕ) (e : Css) (found : Option (List ℕ)) (ns : List ℕ)
        → IsForest (document_of d).nodes → All IsTame (document_of d).nodes
        → is_shared_text text ≡ true → IsSelector text e
        → FindsIn d text found → AreFound (document_of d).nodes e ns
        → IsSomeAnd found (λ ms. AreTagsAmong (document_of d).nodes ms ns) }

    // and the same, where the text asks for tags.
    ensures same { (d : HTMLTable) (text : List ℕ) (e : Css) (found : Option (List ℕ)) (ns : List ℕ)
        → IsForest (document_of d).nodes → All IsTame (document_of d).nodes
        → is_shared_text text ≡ true → asks_for_tags text ≡ true → IsSelector text e
        → FindsIn d text found → AreFound (document_of d).nodes e ns
        → found ≡ Some ns }
{}
