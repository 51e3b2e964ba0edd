//! Laws of the definitions.
ghost use Rattle.std.specs.Prelude.{◌≡◌, ◌⊎◌, List, ℕ, Ok, Err};
ghost use Rattle.tl_css.specs.Grammar.{IsSelector};
ghost use Rattle.tl_css.specs.Reading.{css_at};
ghost use Rattle.tl_css.specs.Selector.{Css};
ghost use Rattle.tl_css.specs.declared.error.Cause.TheVariants.{TooDeep};

/// A text is one selector at most.
pub fn texts_are_one_selector()
    ensures { (text : List ℕ) (a b : Css) → IsSelector text a → IsSelector text b → a ≡ b }
{}

/// What the reader gives is the selector by the grammar.
pub fn reader_is_sound()
    ensures { (text : List ℕ) (e : Css) → css_at text ≡ Ok e → IsSelector text e }
{}

/// The selector by the grammar is what the reader gives, unless it is too deep.
pub fn reader_is_complete()
    ensures { (text : List ℕ) (e : Css) → IsSelector text e
        → (css_at text ≡ Ok e) ⊎ ((at : ℕ) × (css_at text ≡ Err (at, TooDeep))) }
{}
