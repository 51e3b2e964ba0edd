//! Laws of the definitions.

ghost use Rattle.std.specs.Prelude.{Bool, List, None, false, length, map, nat_le, not, true, ℕ, ◌++◌, ◌∷◌, ◌≡◌, ◌≤◌, ◌||◌};
ghost use Rattle.tl_dom_spec.specs.Builder.{Builder, Flags};
ghost use Rattle.tl_dom_spec.specs.HtmlForest.{HtmlForest, element};
ghost use Rattle.tl_dom_spec.specs.HtmlTree.{Context, html_fragment_by, html_tree_by};
ghost use Rattle.tl_dom_spec.specs.Partial.{is_flow_context, whole, without_numbers};
ghost use Rattle.tl_dom_spec.specs.Tags.{Tag};
ghost use Rattle.tl_html_print.specs.Again.{built_in};
ghost use Rattle.tl_html_print.specs.ReadAgain.{tokens_of_trees};
ghost use Rattle.tl_html_print.specs.Serialized.{serialized};
ghost use Rattle.tl_html_spec.specs.HtmlTokenizer.{HtmlToken, data_state};
ghost use Rattle.tl_html_spec.specs.Reader.{at, tokens_of};
ghost use Rattle.tl_safe_fit.specs.Levels.{most_open};
ghost use Rattle.tl_spec.specs.Lex.ByteClass.{is_void};
ghost use Rattle.tl_tree_safe.specs.Characters.{is_word};
ghost use Rattle.tl_tree_safe.specs.Classes.{are_classes, kept_classes};
ghost use Rattle.tl_tree_safe.specs.Fitted.{Names, at_top, fitted, inside};
ghost use Rattle.tl_tree_safe.specs.Joined.{texts_joined};
ghost use Rattle.tl_tree_safe.specs.KeptFitted.{kept_fitted};
ghost use Rattle.tl_tree_safe.specs.Listed.{are_listed};
ghost use Rattle.tl_tree_safe.specs.Lists.{ListedWords, lists_words};
ghost use Rattle.tl_tree_safe.specs.OfPages.{IsFilledIn, IsPutIntoPage, PutsInto, begun, is_free_in, is_open_here};
ghost use Rattle.tl_tree_safe.specs.OpenPlaces.{AreAround, Around, back, front, is_open_place, names_in, put};
ghost use Rattle.tl_tree_safe.specs.OwnKeys.{HaveOwnKeys};
ghost use Rattle.tl_tree_safe.specs.Settled.{settled};
ghost use Rattle.tl_tree_spec.specs.Builder.{Reading};
ghost use Rattle.tl_tree_spec.specs.Groups.{group};
ghost use Rattle.tl_tree_spec.specs.HtmlForest.{HtmlForest as PartialForest, HtmlTag};
ghost use Rattle.tl_tree_spec.specs.Places.{Puts, placed};
ghost use Rattle.tl_tree_spec.specs.Stays.{is_alone, may_stand};

/// What stays of classes, if anything does, is classes that may stand, and stays as it is.
#[tactic(auto, using(crate::proofs::ClassWords::kept_are, crate::proofs::ClassWords::kept_again))]
pub fn kept_classes_stay()
    ensures listed { (patterns : List (List ℕ)) (value : List ℕ) →
        (not (is_word (kept_classes patterns value))
        || are_classes patterns (kept_classes patterns value)) ≡ true }
    ensures same { (patterns : List (List ℕ)) (value : List ℕ) →
        kept_classes patterns (kept_classes patterns value) ≡ kept_classes patterns value }
{}

/// What is made to stay is settled: each tag and text may stand where it is. And trees of which
/// that holds come out as they were.
#[tactic(auto, using(crate::proofs::SettledTrees::fitted_settled, crate::proofs::SettledTrees::settled_same))]
pub fn settled_trees_stay_as_they_are()
    ensures settled { (names : Names) (trees : HtmlForest) →
        settled names (fitted names trees) ≡ true }
    ensures same { (names : Names) (trees : HtmlForest) → settled names trees ≡ true →
        fitted names trees ≡ trees }
{}

/// A tag is unwrapped only where it may not stand: one that may, and has an end tag where the
/// standard reads one, stays with its attributes where fewer elements are open than may be.
#[tactic(auto, using(crate::proofs::SettledTrees::standing_stays))]
pub fn tags_that_may_stand_stay()
    ensures { (names : Names) (tag : Tag) (below more : HtmlForest) →
        may_stand names tag.name ≡ true → is_void tag.name ≡ is_alone (group tag.name) →
        length names ≤ most_open → fitted names (element tag below more)
        ≡ element tag (inside tag.name (fitted (tag.name ∷ names) below)) (fitted names more) }
{}

/// No element of a page or a fragment has a key twice.
#[tactic(auto, using(crate::proofs::OwnKeys::page_keys, crate::proofs::OwnKeys::fragment_keys))]
pub fn pages_have_own_keys()
    ensures page { (flags : Flags) (page : List ℕ) → HaveOwnKeys (html_tree_by flags page).trees }
    ensures fragment { (flags : Flags) (context : Context) (bytes : List ℕ) →
        HaveOwnKeys (html_fragment_by flags context bytes) }
{}

/// Of what is printed of any trees, of what a policy keeps of them and made to stay: the tokenizer
/// of the standard reads exactly its tags and texts, and then what follows it; its tree
/// construction builds exactly these trees in each context element of flow content, with texts that
/// stand side by side joined, but for the numbers of start tags, in quirks mode and not, whether
/// `search` is a special element or not; and all that is read is listed.
#[tactic(auto, using(crate::proofs::Safe::read, crate::proofs::Safe::built, crate::proofs::Safe::listed))]
pub fn kept_trees_that_are_fitted_stay()
    ensures read { (p : ListedWords) (trees : HtmlForest) (rest : List ℕ) →
        lists_words p ≡ true → HaveOwnKeys trees →
        tokens_of (at data_state) (serialized false None (kept_fitted p trees) ++ rest)
        ≡ tokens_of_trees (kept_fitted p trees) ++ tokens_of (at data_state) rest }
    ensures built { (context : Context) (counts_search : Bool) (p : ListedWords)
        (trees : HtmlForest) → is_flow_context context ≡ true → lists_words p ≡ true →
        HaveOwnKeys trees →
        without_numbers (built_in context counts_search
        (serialized false None (kept_fitted p trees)))
        ≡ without_numbers (texts_joined (kept_fitted p trees)) }
    ensures listed { (p : ListedWords) (trees : HtmlForest) →
        lists_words p ≡ true → HaveOwnKeys trees →
        are_listed p (tokens_of (at data_state) (serialized false None (kept_fitted p trees)))
        ≡ true }
{}

/// Where elements are open whose names are an open place (`is_open_place`), such a print is read as
/// these trees there, in quirks mode and not, whether `search` is a special element or not.
///
/// `built`: put at an open place into markup that is settled and read as it is written
/// (`AreAround`), in any context element of flow content: the whole tree construction builds that
/// with these trees there. `text`: it is written as what stands before the place, the print, and
/// what stands after it. `put`: in elements of any tags, with nothing in them yet, the tokens put
/// exactly these trees into the innermost one and leave all around it as it is, by the tree
/// construction of `tl_tree_spec`, which has the trees of the standard where it has an outcome.
#[tactic(auto, using(crate::proofs::OpenPlaces::built, crate::proofs::OpenPlaces::text_put, crate::proofs::OpenPlaces::puts))]
pub fn prints_go_where_they_are_put()
    ensures built { (context : Context) (counts_search : Bool) (around : List Around)
        (p : ListedWords) (trees : HtmlForest) → is_flow_context context ≡ true →
        lists_words p ≡ true → HaveOwnKeys trees → AreAround around →
        is_open_place (names_in around) ≡ true →
        without_numbers (built_in context counts_search
        (serialized false None (put around (kept_fitted p trees))))
        ≡ without_numbers (texts_joined (put around (kept_fitted p trees))) }
    ensures text { (around : List Around) (trees : HtmlForest) → AreAround around →
        serialized false None (put around trees)
        ≡ front around ++ (serialized false None trees ++ back around) }
    ensures put { (reading : Reading) (tags : List HtmlTag) (p : ListedWords)
        (trees : HtmlForest) (kept : PartialForest) →
        lists_words p ≡ true → HaveOwnKeys trees →
        is_open_place (map (λ own. own.name) tags ++ at_top) ≡ true →
        without_numbers (texts_joined (kept_fitted p trees)) ≡ whole kept →
        Puts (placed reading tags)
        (tokens_of (at data_state) (serialized false None (kept_fitted p trees))) kept }
{}

/// Put into a page of any kind where the tree builder is at an open place (`is_open_here`),
/// whatever the page has before it, such a print is built there exactly.
///
/// `puts`: its tokens put exactly these trees, with texts that stand side by side joined, at the
/// end of the current node, but for the numbers of start tags; all else that the builder holds is
/// as it was, but for counters and the frameset-ok flag, which is off if it was; and the tokenizer
/// that the builder drives goes on as names do. `page`: so the tree of a whole page, of its tokens,
/// is what those behind the print make of what the builder held before it, with these trees there.
/// `filled`: and what follows is built as behind a comment at that place: the tree of the page is
/// that with the comment, where these trees take its place, and counters go on as behind the print.
#[tactic(auto, using(crate::proofs::PagePrints::put_there, crate::proofs::PagePrints::put_into_page, crate::proofs::PagePrints::put_filled))]
pub fn put_into_a_page()
    ensures puts { (b : Builder) (p : ListedWords) (trees : HtmlForest) → HaveOwnKeys trees →
        lists_words p ≡ true → is_open_here b ≡ true →
        PutsInto b (tokens_of (at data_state) (serialized false None (kept_fitted p trees)))
        (texts_joined (kept_fitted p trees)) }
    ensures page { (flags : Flags) (front back : List HtmlToken) (p : ListedWords)
        (trees : HtmlForest) → HaveOwnKeys trees → lists_words p ≡ true →
        is_open_here (begun flags front) ≡ true → IsPutIntoPage flags front
        (tokens_of (at data_state) (serialized false None (kept_fitted p trees))) back
        (texts_joined (kept_fitted p trees)) }
    ensures filled { (flags : Flags) (front back : List HtmlToken) (p : ListedWords)
        (trees : HtmlForest) (mark : ℕ) → HaveOwnKeys trees → lists_words p ≡ true →
        is_open_here (begun flags front) ≡ true → is_free_in mark (begun flags front) ≡ true →
        IsFilledIn flags front
        (tokens_of (at data_state) (serialized false None (kept_fitted p trees))) back
        (texts_joined (kept_fitted p trees)) mark }
{}
