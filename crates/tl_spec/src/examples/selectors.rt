//! Worked rows: what selector texts are read as.
ghost use Rattle.std.specs.Prelude.{◌≡◌, [], ◌∷◌, Some, None, codes};
ghost use Rattle.tl_spec.specs.Examples.{class, id, tag};
ghost use Rattle.tl_spec.specs.Select.Selector.{Id, Class, All, And, Or, Descendant, Parent, Attribute, AttributeValue, AttributeValueWhitespacedContains, AttributeValueStartsWith, AttributeValueEndsWith, AttributeValueSubstring};
ghost use Rattle.tl_spec.specs.Select.Reading.{selector_at};

/// Parts nest from the left, and `,` is loosest.
#[tactic(auto, unfolding(crate::specs::Select::Reading::parts_at))]
pub fn nested_from_the_left()
    ensures chain_first { selector_at (codes "a.b, c")
        ≡ Some (Or (And (tag "a") (class "b")) (tag "c")) }
    ensures chains { selector_at (codes "a, b, c") ≡ Some (Or (Or (tag "a") (tag "b")) (tag "c")) }
    ensures parts { selector_at (codes "a b.c")
        ≡ Some (And (Descendant (tag "a") (tag "b")) (class "c")) }
    ensures steps { selector_at (codes "a > b > c")
        ≡ Some (Parent (Parent (tag "a") (tag "b")) (tag "c")) }
{}

/// Spaces, and no other blanks, may stand around parts, `,` and `>`, and alone they are a joint.
#[tactic(auto, unfolding(crate::specs::Select::Reading::parts_at))]
pub fn spaces_in_selectors()
    ensures around_chains { selector_at (codes " a , b ") ≡ Some (Or (tag "a") (tag "b")) }
    ensures no_spaces { selector_at (codes "a>b") ≡ Some (Parent (tag "a") (tag "b")) }
    ensures more_spaces { selector_at (codes "a  >  b") ≡ Some (Parent (tag "a") (tag "b")) }
    ensures space_before { selector_at (codes "a >b") ≡ Some (Parent (tag "a") (tag "b")) }
    ensures spaces_alone { selector_at (codes "a  b") ≡ Some (Descendant (tag "a") (tag "b")) }
    ensures touching { selector_at (codes "a*") ≡ Some (And (tag "a") All) }
    ensures tab { selector_at (codes "a\tb") ≡ None }
{}

/// What lacks a part is no selector.
#[tactic(auto, unfolding(crate::specs::Select::Reading::parts_at))]
pub fn lacking_parts()
    ensures empty { selector_at [] ≡ None }
    ensures space { selector_at (codes " ") ≡ None }
    ensures after_comma { selector_at (codes "a,") ≡ None }
    ensures before_comma { selector_at (codes ",a") ≡ None }
    ensures between_commas { selector_at (codes "a,,b") ≡ None }
    ensures spaced_comma { selector_at (codes "a b ,") ≡ None }
    ensures after_step { selector_at (codes "a >") ≡ None }
    ensures before_step { selector_at (codes "> a") ≡ None }
{}

/// A name may be empty but for a tag's, and may hold `:`, `+` and `/`.
#[tactic(auto, unfolding(crate::specs::Select::Reading::parts_at))]
pub fn names_in_selectors()
    ensures id { selector_at (codes "#a") ≡ Some (id "a") }
    ensures empty_id { selector_at (codes "#") ≡ Some (Id []) }
    ensures empty_class { selector_at (codes ".") ≡ Some (Class []) }
    ensures all { selector_at (codes "*") ≡ Some All }
    ensures colon { selector_at (codes "a:b") ≡ Some (tag "a:b") }
    ensures plus { selector_at (codes "a+b") ≡ Some (tag "a+b") }
{}

/// What stands in brackets holds no space; a value may stand between two of the same quote.
#[tactic(auto, unfolding(crate::specs::Select::Reading::parts_at))]
pub fn brackets()
    ensures key { selector_at (codes "[a/b]") ≡ Some (Attribute (codes "a/b")) }
    ensures no_key { selector_at (codes "[]") ≡ Some (Attribute []) }
    ensures bare { selector_at (codes "[a=x]") ≡ Some (AttributeValue (codes "a") (codes "x")) }
    ensures quoted { selector_at (codes "[a=\"x\"]")
        ≡ Some (AttributeValue (codes "a") (codes "x")) }
    ensures empty_value { selector_at (codes "[a=]") ≡ Some (AttributeValue (codes "a") []) }
    ensures cut { selector_at (codes "[a=\"x\"") ≡ None }
    ensures other_quote { selector_at (codes "[a='x\"]") ≡ None }
    ensures space { selector_at (codes "[a = x]") ≡ None }
    ensures has_part { selector_at (codes "[a~=x]")
        ≡ Some (AttributeValueWhitespacedContains (codes "a") (codes "x")) }
    ensures starts { selector_at (codes "[a^=x]")
        ≡ Some (AttributeValueStartsWith (codes "a") (codes "x")) }
    ensures ends { selector_at (codes "[a$=x]")
        ≡ Some (AttributeValueEndsWith (codes "a") (codes "x")) }
    ensures contains { selector_at (codes "[a*='x']")
        ≡ Some (AttributeValueSubstring (codes "a") (codes "x")) }
    ensures other_op { selector_at (codes "[a!=x]") ≡ None }
{}
