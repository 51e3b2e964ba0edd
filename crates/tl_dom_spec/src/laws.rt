//! Laws of the trees of any page, any fragment and any tokens.

ghost use Rattle.std.specs.Prelude.{◌≡◌, ◌≤◌, ◌↔◌, Bool, List, Some, codes, map, true, ℕ, ◌&&◌, ◌++◌, ◌==◌, ◌∷◌, false};
ghost use Rattle.tl_html_spec.specs.Driven.{DrivenState, Emission, bare, taken};
ghost use Rattle.tl_html_spec.specs.HtmlTokenizer.{HtmlToken, data_state, html_tokens, tokens_in_page, without_mark};
ghost use Rattle.tl_html_spec.specs.Sound.{AreSound};
ghost use Rattle.tl_tree_spec.specs.HtmlForest.{HtmlForest};
ghost use Rattle.tl_tree_spec.specs.HtmlTreeBuilder.{html_trees_where};
ghost use Rattle.tl_dom_spec.specs.Builder.{Builder, Flags, Outcome, Token, a_character, insert_bytes, repeated};
ghost use Rattle.tl_dom_spec.specs.Dispatcher.{bound, token_done, tokens_done};
ghost use Rattle.tl_dom_spec.specs.Driver.{builder, emitted_token, read_from, token_of};
ghost use Rattle.tl_dom_spec.specs.HtmlForest.{has_contents};
ghost use Rattle.tl_dom_spec.specs.HtmlTree.{Context, context_state, fragment_of_tokens, fragment_read, fragment_start, html_fragment_by, html_tree_by, page_read, page_start, standard, tree_of_tokens};
ghost use Rattle.tl_dom_spec.specs.Lawful.{AreNamed, AreNumberedBelow, AreTexts, AreVoidEmpty, ComeFrom, HaveHtmlDoctypes, HaveNames, HavePlainNames, IsDoneWith, IsPage, IsSteady, all_numbered, driven_by_names, fragment_built, is_done_within, page_built, tokens_of_fragment, tokens_of_page, EachCharacter};
ghost use Rattle.tl_dom_spec.specs.Formatting.{reconstruct_formatting};
ghost use Rattle.tl_dom_spec.specs.Partial.{is_flow_context, reading_in, whole, without_numbers};
ghost use Rattle.tl_dom_spec.specs.Runs.{is_of_run, kind_of, run_taken};
ghost use Rattle.tl_dom_spec.specs.Tags.{Tag, html_space, is_html};

/// A page is built of its tokens, and a fragment too: what holds of what any tokens build holds of
/// any page.
#[tactic(auto, using(crate::proofs::TreesFollow::page_is, crate::proofs::TreesFollow::fragment_is))]
pub fn pages_are_built_of_tokens()
    ensures page { (flags : Flags) (page : List ℕ) →
        html_tree_by flags page ≡ page_built flags (tokens_of_page flags page) }
    ensures fragment { (flags : Flags) (context : Context) (bytes : List ℕ) →
        html_fragment_by flags context bytes
        ≡ fragment_built flags context (tokens_of_fragment flags context bytes) }
{}

/// No text is empty, and none stands right beside another one.
#[tactic(auto, using(crate::proofs::TextLaw::page_texts, crate::proofs::TextLaw::fragment_texts, crate::proofs::TextLaw::built_texts, crate::proofs::TextLaw::built_fragment_texts))]
pub fn texts_are_whole()
    ensures page { (flags : Flags) (page : List ℕ) → AreTexts (html_tree_by flags page).trees }
    ensures fragment { (flags : Flags) (context : Context) (bytes : List ℕ) →
        AreTexts (html_fragment_by flags context bytes) }
    ensures page_of_tokens { (flags : Flags) (tokens : List Token) →
        AreTexts (page_built flags tokens).trees }
    ensures fragment_of_tokens { (flags : Flags) (context : Context) (tokens : List Token) →
        AreTexts (fragment_built flags context tokens) }
{}

/// No name of an element is empty, since none of a start tag is, as any driver of the tokenizer
/// reads it; of any tokens, where those of the start tags aren't.
#[tactic(auto, using(crate::proofs::NameLaw::page_names, crate::proofs::NameLaw::fragment_names, crate::proofs::NameLaw::page_starts, crate::proofs::NameLaw::fragment_starts, crate::proofs::NameLaw::built_names, crate::proofs::NameLaw::built_fragment_names, crate::proofs::NameLaw::sound_names, crate::proofs::NameLaw::names_by_name))]
pub fn elements_have_names()
    ensures page { (flags : Flags) (page : List ℕ) → AreNamed (html_tree_by flags page).trees }
    ensures fragment { (flags : Flags) (context : Context) (bytes : List ℕ) →
        AreNamed (html_fragment_by flags context bytes) }
    ensures start_tags_of_page { (flags : Flags) (page : List ℕ) →
        HaveNames (tokens_of_page flags page) }
    ensures start_tags_of_fragment { (flags : Flags) (context : Context) (bytes : List ℕ) →
        HaveNames (tokens_of_fragment flags context bytes) }
    ensures page_of_tokens { (flags : Flags) (tokens : List Token) → HaveNames tokens →
        AreNamed (page_built flags tokens).trees }
    ensures fragment_of_tokens { (flags : Flags) (context : Context) (tokens : List Token) →
        HaveNames tokens → AreNamed (fragment_built flags context tokens) }
    ensures sound_tokens { (tokens : List HtmlToken) → AreSound tokens →
        HaveNames (map token_of tokens) }
    ensures page_by_names { (flags : Flags) (page : List ℕ) →
        AreNamed (tree_of_tokens flags (html_tokens page)).trees }
{}

/// Nothing stands below a void element.
#[tactic(auto, using(crate::proofs::VoidLaw::page_voids, crate::proofs::VoidLaw::fragment_voids, crate::proofs::VoidLaw::built_voids, crate::proofs::VoidLaw::built_fragment_voids))]
pub fn void_elements_are_empty()
    ensures page { (flags : Flags) (page : List ℕ) →
        AreVoidEmpty (html_tree_by flags page).trees }
    ensures fragment { (flags : Flags) (context : Context) (bytes : List ℕ) →
        AreVoidEmpty (html_fragment_by flags context bytes) }
    ensures page_of_tokens { (flags : Flags) (tokens : List HtmlToken) →
        AreVoidEmpty (tree_of_tokens flags tokens).trees }
    ensures fragment_of_tokens { (flags : Flags) (context : Context) (tokens : List HtmlToken) →
        AreVoidEmpty (fragment_of_tokens flags context tokens) }
{}

/// Each element, text, comment and doctype comes from a token, or is an element that is put in. The
/// marks have their numbers, from 0 on: so an element with a number is of the tag of that one, and
/// a comment or a doctype is that one.
#[tactic(auto, using(crate::proofs::SourceLaw::page_sources, crate::proofs::SourceLaw::fragment_sources, crate::proofs::SourceLaw::built_sources, crate::proofs::SourceLaw::built_fragment_sources))]
pub fn trees_come_from_tokens()
    ensures page { (flags : Flags) (page : List ℕ) →
        ComeFrom (all_numbered 0 (tokens_of_page flags page)) (html_tree_by flags page).trees }
    ensures fragment { (flags : Flags) (context : Context) (bytes : List ℕ) →
        ComeFrom (all_numbered 0 (tokens_of_fragment flags context bytes))
        (html_fragment_by flags context bytes) }
    ensures page_of_tokens { (flags : Flags) (tokens : List Token) →
        ComeFrom (all_numbered 0 tokens) (page_built flags tokens).trees }
    ensures fragment_of_tokens { (flags : Flags) (context : Context) (tokens : List Token) →
        ComeFrom (all_numbered 0 tokens) (fragment_built flags context tokens) }
{}

/// The number of a mark that an element, a comment or a doctype has is that of one that was taken;
/// and no more marks stand before a text than were taken.
#[tactic(auto, using(crate::proofs::NumberLaw::page_numbers, crate::proofs::NumberLaw::fragment_numbers))]
pub fn numbers_are_those_of_marks()
    ensures page { (flags : Flags) (page : List ℕ) →
        AreNumberedBelow (page_read flags page).marks (html_tree_by flags page).trees }
    ensures fragment { (flags : Flags) (context : Context) (bytes : List ℕ) →
        AreNumberedBelow (fragment_read flags context bytes).marks
        (html_fragment_by flags context bytes) }
{}

/// A `template` alone has contents, and it is no element of `svg` or `math`.
#[tactic(auto, using(crate::proofs::ContentsLaw::template_alone))]
pub fn templates_alone_have_contents()
    ensures { (tag : Tag) → (has_contents tag ≡ true)
        ↔ ((tag.space ≡ html_space) × (tag.name ≡ codes "template")) }
{}

/// The one element of a page is `html`: before it stand doctypes and comments alone, behind it
/// comments. The first element in it is `head`, before which stand comments, and the next one is
/// `body` or `frameset`, before which stand comments and texts.
#[tactic(auto, using(crate::proofs::PageLaw::page_page))]
pub fn pages_are_html_with_head_and_body()
    ensures { (flags : Flags) (page : List ℕ) → IsPage (html_tree_by flags page).trees }
{}

/// A token is done with before it was reprocessed as often as `bound` says: any token, after those
/// of any page or fragment. So a larger bound would make no difference.
#[tactic(auto, using(crate::proofs::BoundLaw::page_done, crate::proofs::BoundLaw::fragment_done, crate::proofs::Bound::bound_suffices, crate::proofs::Bound::more_is_same))]
pub fn bound_suffices()
    ensures page { (flags : Flags) (emissions : List Emission) (token : Token) →
        IsDoneWith (tokens_done (page_start flags) (map emitted_token emissions)) token }
    ensures fragment { (flags : Flags) (context : Context) (emissions : List Emission)
        (token : Token) →
        IsDoneWith (tokens_done (fragment_start flags context) (map emitted_token emissions))
        token }
    ensures steady { (token : Token) (b : Builder) → IsSteady b → IsDoneWith b token }
    ensures more { (step : Builder → Outcome) (o : Outcome) (n m : ℕ) →
        is_done_within n step o ≡ true → n ≤ m → repeated m step o ≡ repeated n step o }
{}

/// Where the partial builder of `tl_tree_spec` has an outcome, the whole definition has the same
/// trees, in each context element in which flow content is read (`is_flow_context`), in quirks mode
/// and not, whether `search` is a special element or not: but for the numbers of marks, which
/// partial trees don't have.
#[tactic(auto, using(crate::proofs::PartTrees::partial_is_whole))]
pub fn partial_trees_are_whole()
    ensures { (context : Context) (counts_search : Bool) (tokens : List HtmlToken)
        (forest : HtmlForest) → is_flow_context context ≡ true →
        html_trees_where (reading_in context counts_search) tokens ≡ Some forest →
        without_numbers
        (fragment_of_tokens (record standard { counts_search = counts_search })
        context tokens) ≡ whole forest }
{}

/// Where the names of start tags are plain, it is no matter whether they drive the tokenizer, or
/// the tree builder does: the tokens are the same, and so the trees.
#[tactic(auto, using(crate::proofs::PlainLaw::named_tokens, crate::proofs::PlainLaw::plain_page_tokens, crate::proofs::PlainLaw::plain_page, crate::proofs::PlainLaw::bare_page, crate::proofs::PlainLaw::plain_fragment_tokens, crate::proofs::PlainLaw::plain_fragment, crate::proofs::PlainLaw::bare_fragment))]
pub fn plain_names_need_no_builder()
    ensures by_names { (bytes : List ℕ) →
        map bare (driven_by_names bytes) ≡ tokens_in_page bytes }
    ensures page_tokens { (flags : Flags) (page : List ℕ) →
        HavePlainNames flags (html_tokens page) →
        tokens_of_page flags page ≡ map emitted_token (driven_by_names (without_mark page)) }
    ensures page { (flags : Flags) (page : List ℕ) →
        HavePlainNames flags (html_tokens page) →
        html_tree_by flags page
        ≡ page_built flags (map emitted_token (driven_by_names (without_mark page))) }
    // and where each doctype is `<!DOCTYPE html>`
    ensures page_of_tokens { (flags : Flags) (page : List ℕ) →
        HavePlainNames flags (html_tokens page) →
        HaveHtmlDoctypes (driven_by_names (without_mark page)) →
        html_tree_by flags page ≡ tree_of_tokens flags (html_tokens page) }
    ensures fragment_tokens { (flags : Flags) (context : Context) (bytes : List ℕ) →
        is_html context.tag ≡ true → context_state flags context.tag ≡ data_state →
        HavePlainNames flags (tokens_in_page bytes) →
        tokens_of_fragment flags context bytes ≡ map emitted_token (driven_by_names bytes) }
    ensures fragment { (flags : Flags) (context : Context) (bytes : List ℕ) →
        is_html context.tag ≡ true → context_state flags context.tag ≡ data_state →
        HavePlainNames flags (tokens_in_page bytes) →
        html_fragment_by flags context bytes
        ≡ fragment_built flags context (map emitted_token (driven_by_names bytes)) }
    ensures fragment_of_tokens { (flags : Flags) (context : Context) (bytes : List ℕ) →
        is_html context.tag ≡ true → context_state flags context.tag ≡ data_state →
        HavePlainNames flags (tokens_in_page bytes) → HaveHtmlDoctypes (driven_by_names bytes) →
        html_fragment_by flags context bytes
        ≡ fragment_of_tokens flags context (tokens_in_page bytes) }
{}

/// A run of characters is taken whole: once its first one was taken, the rest is taken at once
/// (`run_taken`), by any builder, but where the first one is a line feed that is skipped. White
/// space is a run, and so are NULs; any other character begins one that goes on with any
/// characters, but in "after after frameset" with others alone (`is_of_run`).
#[tactic(auto, using(crate::proofs::RunsLaw::run_is, crate::proofs::RunsLaw::kind_is, crate::proofs::RunsNext::bytes_append, crate::proofs::RunsLaw::reconstructed_once))]
pub fn runs_are_taken_whole()
    ensures run { (b : Builder) (c : ℕ) (run : List ℕ) → (b.skips && (c == 10)) ≡ false →
        EachCharacter
        (λ d. is_of_run (token_done b (a_character c)).mode (kind_of c) d ≡ true) run →
        tokens_done b (map a_character (c ∷ run))
        ≡ run_taken run (token_done b (a_character c)) }
    ensures one_kind { (b : Builder) (c : ℕ) (run : List ℕ) → (b.skips && (c == 10)) ≡ false →
        EachCharacter (λ d. kind_of d ≡ kind_of c) run →
        tokens_done b (map a_character (c ∷ run))
        ≡ run_taken run (token_done b (a_character c)) }
    // two texts that are inserted one after the other are inserted as one
    ensures texts { (b : Builder) (xs ys : List ℕ) →
        insert_bytes ys (insert_bytes xs b) ≡ insert_bytes (xs ++ ys) b }
    ensures reconstructed { (b : Builder) →
        reconstruct_formatting (reconstruct_formatting b) ≡ reconstruct_formatting b }
{}

/// What a builder takes of emissions is what it does of their tokens.
#[tactic(auto, using(crate::proofs::TreesFollow::taken_tokens))]
pub fn emissions_are_tokens()
    ensures { (b : Builder) (emissions : List Emission) →
        taken builder b emissions ≡ tokens_done b (map emitted_token emissions) }
{}

/// By how many elements are too many never gets less, in any builder: so a tree that is out of
/// proportion after a token is so at the end.
#[tactic(auto, using(crate::proofs::ExcessLaw::token_excess, crate::proofs::ExcessLaw::tokens_excess, crate::proofs::ExcessLaw::read_excess))]
pub fn excess_never_falls()
    ensures token { (b : Builder) (token : Token) → b.excess ≤ (token_done b token).excess }
    ensures tokens { (b : Builder) (tokens : List Token) →
        b.excess ≤ (tokens_done b tokens).excess }
    ensures read { (b : Builder) (state : DrivenState) (bytes : List ℕ) →
        b.excess ≤ (read_from b state bytes).excess }
{}
