//! Worked rows: texts of selectors beside the texts that say the same, or what they say.

ghost use Rattle.std.specs.Prelude.{◌≡◌, Ok, codes};
ghost use Rattle.tl_css.specs.Examples.{plain, relative, wrong_from};
ghost use Rattle.tl_css.specs.Selector.{Is, Key, Value, ident_of};
ghost use Rattle.tl_css.specs.declared.error.Cause.TheVariants.{Namespace, NoFlag, NoName, NoSelector};
ghost use Rattle.tl_css.specs.declared.selector.Case.TheVariants.{Exact, Folded, Unsaid};
ghost use Rattle.tl_css.specs.declared.selector.Op.TheVariants.{Equals};
ghost use Rattle.tl_css.specs.declared.selector.Space.TheVariants.{Bare, Every};

/// A combinator at the front leads from the scope.
#[tactic(auto, unfolding(crate::specs::Reading::read, crate::specs::Relative::read_by, crate::specs::Lexical::run_at, crate::specs::Lexical::gap_at, crate::specs::Lexical::past_comments))]
pub fn combinators_lead_from_the_scope()
    ensures child { relative "> a" ≡ plain ":scope > a" }
    ensures next { relative "+a b" ≡ plain ":scope + a b" }
    ensures subsequent { relative "~ a" ≡ plain ":scope ~ a" }
    ensures gap { relative " /**/>a" ≡ plain ":scope>a" }
    ensures each { relative "> a, + b, c" ≡ plain ":scope > a, :scope + b, c" }
    ensures few_bytes { relative ">a,>b" ≡ plain ":scope>a,:scope>b" }
    ensures none { relative "a > b" ≡ plain "a > b" }
    ensures has { relative "> a:has(> b)" ≡ plain ":scope > a:has(> b)" }
{}

/// What is wrong stays wrong.
#[tactic(auto, unfolding(crate::specs::Reading::read, crate::specs::Relative::read_by, crate::specs::Lexical::run_at, crate::specs::Lexical::gap_at, crate::specs::Lexical::past_comments))]
pub fn nothing_else_is_led()
    ensures plain { plain "> a" ≡ wrong_from 0 NoSelector }
    ensures alone { relative ">" ≡ wrong_from 1 NoSelector }
    ensures twice { relative "> > a" ≡ wrong_from 2 NoSelector }
    ensures in_brackets { relative "a:is(> b)" ≡ wrong_from 5 NoSelector }
    ensures comma { relative "> a," ≡ wrong_from 4 NoSelector }
{}

/// A flag says how the case of a value counts.
#[tactic(auto, unfolding(crate::specs::Reading::read, crate::specs::Lexical::run_at, crate::specs::Lexical::gap_at, crate::specs::Lexical::past_comments))]
pub fn flags_say_how_case_counts()
    ensures unsaid { plain "[k=V]"
        ≡ Ok (Is (Value Bare (ident_of (codes "k")) Equals (codes "V") Unsaid)) }
    ensures folded { plain "[k=V I]"
        ≡ Ok (Is (Value Bare (ident_of (codes "k")) Equals (codes "V") Folded)) }
    ensures exact { plain "[k=V S]"
        ≡ Ok (Is (Value Bare (ident_of (codes "k")) Equals (codes "V") Exact)) }
    ensures quoted { plain "[k='V's]" ≡ plain "[k=V s]" }
    ensures other { plain "[k=V x]" ≡ wrong_from 5 NoFlag }
    ensures longer { plain "[k=V si]" ≡ wrong_from 5 NoFlag }
{}

/// A type stands in any namespace, with `*|` before it or without; each element is in one, so `|`
/// is of none. A key has no namespace, but behind `*|`.
#[tactic(auto, unfolding(crate::specs::Reading::read, crate::specs::Lexical::run_at, crate::specs::Lexical::gap_at, crate::specs::Lexical::past_comments))]
pub fn no_prefix_stands_for_a_namespace()
    ensures every { plain "*|a" ≡ plain "a" }
    ensures any { plain "*|*.b" ≡ plain "*.b" }
    ensures bare { plain "|a" ≡ plain ":not(*)" }
    ensures bare_any { plain "a |*" ≡ plain "a :not(*)" }
    ensures bare_key { plain "[|k]" ≡ plain "[k]" }
    ensures bare_value { plain "[|k|=v]" ≡ plain "[k|=v]" }
    ensures every_key { plain "[*|k]" ≡ Ok (Is (Key Every (ident_of (codes "k")))) }
    ensures prefix { plain "svg|a" ≡ wrong_from 3 Namespace }
    ensures prefixed_key { plain "[svg|k]" ≡ wrong_from 4 Namespace }
    ensures twice { plain "*|*|a" ≡ wrong_from 3 Namespace }
    ensures spaced { plain "*| a" ≡ wrong_from 2 NoName }
    ensures column { plain "a || b" ≡ wrong_from 3 NoName }
{}

/// Comments between the parts of a simple selector say nothing, but where CSS has one token, and no
/// white space stands there.
#[tactic(auto, unfolding(crate::specs::Reading::read, crate::specs::Lexical::run_at, crate::specs::Lexical::gap_at, crate::specs::Lexical::past_comments))]
pub fn comments_say_nothing()
    ensures every { plain "*/**/|/* a */a" ≡ plain "*|a" }
    ensures bare { plain "|/**/a" ≡ plain "|a" }
    ensures every_key { plain "[*/**/|/**/k]" ≡ plain "[*|k]" }
    ensures bare_key { plain "[|/**//**/k]" ≡ plain "[|k]" }
    ensures class { plain "a./*/*/b" ≡ plain "a.b" }
    ensures pseudo_class { plain ":/**/root" ≡ plain ":root" }
    ensures list { plain ":/**/not(a)" ≡ plain ":not(a)" }
    ensures id { plain "#/**/a" ≡ wrong_from 1 NoName }
    ensures operator { plain "[k|/**/=v]" ≡ wrong_from 2 Namespace }
    ensures white { plain "./**/ a" ≡ wrong_from 5 NoName }
    ensures unclosed { plain "./* a" ≡ wrong_from 1 NoName }
{}
