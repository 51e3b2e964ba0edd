//! Laws of the tokens of pages.

ghost use Rattle.std.specs.Prelude.{◌≡◌, ℕ, List, [], codes, false, if◌then◌else◌, true};
ghost use Rattle.std.specs.Str.{bytes_eq};
ghost use Rattle.tl_html_spec.specs.Driven.{Driver, driven, in_state};
ghost use Rattle.tl_html_spec.specs.HtmlTokenizer.{after_start, raw, rawtext};
ghost use Rattle.tl_html_tokens.specs.Driving.{IsDriven, opens_section};
ghost use Rattle.tl_html_tokens.specs.Emits.{IsTold};
ghost use Rattle.tl_html_tokens.specs.Fronts.{IsFront};
ghost use Rattle.tl_html_tokens.specs.Modes.{letters, mode_after, mode_inside, state_of};
ghost use Rattle.tl_html_tokens.specs.Said.{AreSaidOf};
ghost use Rattle.tl_html_tokens.specs.Sections.{IsSection, IsSectionDriven};
ghost use Rattle.tl_html_tokens.specs.Tokens.{AreTokensOf};
ghost use Rattle.tl_html_tokens.specs.Whole.{TagsAreWhole};
ghost use Rattle.tl_html_tokens.specs.declared.front.Front.{Front};
ghost use Rattle.tl_html_tokens.specs.declared.mode.Mode.{Mode};
ghost use Rattle.tl_html_tokens.specs.declared.section.Section.{Section};
ghost use Rattle.tl_html_tokens.specs.declared.token.Token.{Token};

/// The bytes of a tag of a page, read by themselves from the state of rest before it, are that tag.
#[tactic(auto, using(crate::proofs::Alone::tags_are_whole))]
pub fn tags_are_whole()
    ensures { (page : List ℕ) (tokens : List Token) →
        AreTokensOf page tokens → TagsAreWhole page tokens }
{}

/// A token of a page that is a text says its characters, as its bytes and its mode say them, and a
/// comment its data: just what the standard's tokenizer emits for it.
#[tactic(auto, using(crate::proofs::Telling::tokens_said))]
pub fn texts_and_comments_are_said()
    ensures { (page : List ℕ) (tokens : List Token) →
        AreTokensOf page tokens → AreSaidOf page tokens }
{}

/// What stands in front is what any driver reads there, but where `<![CDATA[` stands in markup and
/// the driver says that it is foreign. It takes these tokens and goes on behind them, after a start
/// tag in the state that it sets.
#[tactic(auto, using(crate::proofs::Drives::front_driven))]
pub fn fronts_are_driven<M>()
    ensures { (d : Driver M) (memory : M) (page : List ℕ) (start : ℕ)
        (mode : Mode) (front : Front) (f : IsFront page start mode front) →
        opens_section d memory page start mode ≡ false →
        IsDriven d memory page start mode front f.tokens }
{}

/// And what it takes there is what the bytes say: the characters of a text, the data of a comment,
/// the parts of a doctype, the tag that the bytes are by themselves, of the rest nothing.
#[tactic(auto, using(crate::proofs::Told::front_told))]
pub fn fronts_are_told<M>()
    ensures { (d : Driver M) (memory : M) (page : List ℕ) (start : ℕ)
        (mode : Mode) (front : Front) → IsFront page start mode front →
        opens_section d memory page start mode ≡ false →
        IsTold d memory page start mode front }
{}

/// A driver takes nothing more at the end of a page, where all that stood in front is read.
#[tactic(auto, using(crate::proofs::Told::nothing_at_end))]
pub fn nothing_is_told_at_the_end<M>()
    ensures { (d : Driver M) (memory : M) (mode : Mode) →
        driven d memory (in_state (state_of mode)) [] ≡ memory }
{}

/// A CDATA section is what any driver reads there that says that it is foreign: it takes the
/// section's characters, with line feeds at the ends of lines, and goes on behind it.
#[tactic(auto, using(crate::proofs::Sections::section_driven))]
pub fn sections_are_driven<M>()
    ensures { (d : Driver M) (memory : M) (page : List ℕ) (start : ℕ)
        (section : Section) → IsSection page start section → d.is_foreign memory ≡ true →
        IsSectionDriven d memory page start section }
{}

/// The mode by the name of a start tag is the state that the name sets.
#[tactic(auto, using(crate::proofs::Steps::after_start_is))]
pub fn names_set_modes()
    ensures { (name : List ℕ) → after_start (letters name) ≡ state_of (mode_after name) }
{}

/// The mode by the name of an element whose text is raw is the state that the name sets, of
/// `noscript` too, as where scripts run.
#[tactic(auto, using(crate::proofs::Steps::inside_is))]
pub fn raw_texts_set_modes()
    ensures { (name : List ℕ) →
        (if bytes_eq (codes "noscript") (letters name) then raw (rawtext (letters name))
        else after_start (letters name)) ≡ state_of (mode_inside name) }
{}
