//! Laws of selector texts.

ghost use Rattle.std.specs.Prelude.{◌↔◌, ◌≡◌, ℕ, List, Some, None, false};
ghost use Rattle.tl_spec.specs.Select.Selector.{Selector};
ghost use Rattle.tl_spec.specs.Select.Meaning.{has_combinator};
ghost use Rattle.tl_spec.specs.Select.Text.{IsSelectorText, StandsAlone};
ghost use Rattle.tl_spec.specs.Select.Reading.{selector_at};

/// A text is derived as a selector exactly where it is read as that one; so there is at most one.
#[tactic(auto, using(crate::proofs::Select::Text::laws))]
pub fn selector_text()
    ensures some { (s : List ℕ) (e : Selector) → IsSelectorText s e ↔ (selector_at s ≡ Some e) }
    ensures none { (s : List ℕ) →
        ((e : Selector) → IsSelectorText s e → ⊥) ↔ (selector_at s ≡ None) }
{}

/// A simple part with spaces around it is a selector, and one that asks for no ancestors.
#[tactic(auto, using(crate::proofs::Select::Text::laws))]
pub fn alone_is_a_selector()
    ensures selector { (s : List ℕ) → StandsAlone s → (e : Selector) × IsSelectorText s e }
    ensures alone { (s : List ℕ) (e : Selector) →
        StandsAlone s → IsSelectorText s e → has_combinator e ≡ false }
{}
