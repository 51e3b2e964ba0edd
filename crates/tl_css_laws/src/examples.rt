//! Worked rows: selector texts that both grammars read alike, and what keeps a text apart.
ghost use Rattle.std.specs.Prelude.{◌≡◌, Err, Ok, Some, [], codes, false, true};
ghost use Rattle.tl_spec.specs.Select.Reading.{selector_at};
ghost use Rattle.tl_spec.specs.Select.Selector.{And, Attribute, Id as CrateId, Tag};
ghost use Rattle.tl_css.specs.Reading.{css_at};
ghost use Rattle.tl_css.specs.Selector.{At, Both, Is, Name, ident_of};
ghost use Rattle.tl_css.specs.declared.error.Cause.TheVariants.{NoName, Unexpected};
ghost use Rattle.tl_css.specs.declared.selector.Link.TheVariants.{Sibling};
ghost use Rattle.tl_css.specs.declared.selector.Reach.TheVariants.{Once};
ghost use Rattle.tl_css.specs.declared.selector.Way.TheVariants.{From};
ghost use Rattle.tl_css_laws.specs.Shared.{asks_for_tags, is_shared_text};

/// One simple selector.
#[tactic(auto, unfolding(tl_spec::specs::Select::Reading::parts_at))]
pub fn shared_simple_selectors()
    ensures tag { is_shared_text (codes "h1") ≡ true }
    ensures any { is_shared_text (codes "*") ≡ true }
    ensures id { is_shared_text (codes "#Top-2_a") ≡ true }
    ensures class { is_shared_text (codes ".Link") ≡ true }
    ensures key { is_shared_text (codes "[data-id]") ≡ true }
    ensures name { is_shared_text (codes "[a=B]") ≡ true }
    ensures quoted { is_shared_text (codes "[a=\"B\"]") ≡ true }
    ensures other_quotes { is_shared_text (codes "[a~='B']") ≡ true }
    ensures empty { is_shared_text (codes "[a=\"\"]") ≡ true }
    ensures other_bytes { is_shared_text (codes "[href^=\"https://\"]") ≡ true }
    ensures ends { is_shared_text (codes "[a$=b]") ≡ true }
    ensures inside { is_shared_text (codes "[a*='+b']") ≡ true }
{}

/// Compounds, combinators and lists, with spaces around them.
#[tactic(auto, unfolding(tl_spec::specs::Select::Reading::parts_at))]
pub fn shared_selectors()
    ensures compound { is_shared_text (codes "a.b#c[d][e=f]") ≡ true }
    ensures descendant { is_shared_text (codes "nav a.b") ≡ true }
    ensures child { is_shared_text (codes "nav > a.b") ≡ true }
    ensures no_spaces { is_shared_text (codes "nav>a") ≡ true }
    ensures any_ancestor { is_shared_text (codes "* .b") ≡ true }
    ensures list { is_shared_text (codes "h1, nav > a b, .c") ≡ true }
    ensures more_spaces { is_shared_text (codes "  a  ,b   c ") ≡ true }
{}

/// `:`, `+` and `/` are bytes of a name in the Rust crate, and none in CSS.
#[tactic(auto, unfolding(tl_spec::specs::Select::Reading::parts_at))]
pub fn other_names()
    ensures pseudo_class { is_shared_text (codes "p:first-child") ≡ false }
    ensures sibling { is_shared_text (codes "h2+p") ≡ false }
    ensures slash { is_shared_text (codes ".a/b") ≡ false }
    ensures key { is_shared_text (codes "[a:b]") ≡ false }
    ensures value { is_shared_text (codes "[href=/x]") ≡ false }
{}

/// CSS has no empty name, no bare value that is empty, and a type at the front alone.
#[tactic(auto, unfolding(tl_spec::specs::Select::Reading::parts_at))]
pub fn no_selectors_of_css()
    ensures no_id { is_shared_text (codes "#") ≡ false }
    ensures no_class { is_shared_text (codes "a.") ≡ false }
    ensures no_key { is_shared_text (codes "[]") ≡ false }
    ensures no_value { is_shared_text (codes "[a=]") ≡ false }
    ensures later_type { is_shared_text (codes "[a]b") ≡ false }
    ensures later_any { is_shared_text (codes ".a*") ≡ false }
{}

/// CSS folds names and keys, and has no tag whose value the empty one begins, ends or is inside of.
#[tactic(auto, unfolding(tl_spec::specs::Select::Reading::parts_at))]
pub fn other_meanings()
    ensures capital_name { is_shared_text (codes "P") ≡ false }
    ensures capital_key { is_shared_text (codes "[Href]") ≡ false }
    ensures empty_front { is_shared_text (codes "[a^='']") ≡ false }
    ensures empty_end { is_shared_text (codes "[a$='']") ≡ false }
    ensures empty_part { is_shared_text (codes "[a*=\"\"]") ≡ false }
{}

/// What CSS alone reads.
#[tactic(auto, unfolding(tl_spec::specs::Select::Reading::parts_at))]
pub fn no_selectors_of_the_crate()
    ensures blanks_in_brackets { is_shared_text (codes "[a = b]") ≡ false }
    ensures other_value { is_shared_text (codes "[src$=\".png\"]") ≡ false }
    ensures flag { is_shared_text (codes "[a=b i]") ≡ false }
    ensures dashed { is_shared_text (codes "[a|=b]") ≡ false }
    ensures negation { is_shared_text (codes ":not(.a)") ≡ false }
    ensures later_sibling { is_shared_text (codes "a ~ b") ≡ false }
    ensures escape { is_shared_text (codes ".\\31") ≡ false }
    ensures tab { is_shared_text (codes "a\tb") ≡ false }
    ensures nothing { is_shared_text (codes "") ≡ false }
{}

/// What both read of texts that they don't read alike.
#[tactic(auto, unfolding(tl_spec::specs::Select::Reading::parts_at, tl_css::specs::Reading::read, tl_css::specs::Lexical::run_at, tl_css::specs::Lexical::gap_at, tl_css::specs::Lexical::past_comments))]
pub fn texts_read_otherwise()
    ensures name { selector_at (codes "a+b") ≡ Some (Tag (codes "a+b")) }
    ensures siblings { css_at (codes "a+b")
        ≡ Ok (Both (At From Sibling Once (Is (Name (ident_of (codes "a")))))
        (Is (Name (ident_of (codes "b"))))) }
    ensures capital { selector_at (codes "P") ≡ Some (Tag (codes "P")) }
    ensures lower_case { css_at (codes "P") ≡ Ok (Is (Name (ident_of (codes "P")))) }
    ensures empty_id { selector_at (codes "#") ≡ Some (CrateId []) }
    ensures no_id { css_at (codes "#") ≡ Err (1, NoName) }
    ensures later_type { selector_at (codes "[a]b")
        ≡ Some (And (Attribute (codes "a")) (Tag (codes "b"))) }
    ensures no_later_type { css_at (codes "[a]b") ≡ Err (3, Unexpected) }
{}

/// `*` alone holds at texts and comments too in the Rust crate.
#[tactic(auto, unfolding(tl_spec::specs::Select::Reading::parts_at))]
pub fn tags_asked_for()
    ensures any { asks_for_tags (codes "*") ≡ false }
    ensures any_child { asks_for_tags (codes "nav > *") ≡ false }
    ensures any_in_a_list { asks_for_tags (codes "a, *") ≡ false }
    ensures any_parent { asks_for_tags (codes "* > a") ≡ true }
    ensures any_of_a_class { asks_for_tags (codes "*.a") ≡ true }
{}
