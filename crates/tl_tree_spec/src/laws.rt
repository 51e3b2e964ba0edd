//! Laws of the definitions.

ghost use Rattle.std.specs.Prelude.{◌≡◌, Option, Some, true, List, [], ◌∷◌, ◌++◌, map, codes};
ghost use Rattle.tl_html_spec.specs.HtmlTokenizer.{HtmlToken};
ghost use Rattle.tl_tree_spec.specs.HtmlForest.{HtmlForest, HtmlTag, html_tokens_of, is_normal, normal_form};
ghost use Rattle.tl_tree_spec.specs.Builder.{Builder, Reading, names};
ghost use Rattle.tl_tree_spec.specs.HtmlTreeBuilder.{html_trees, html_trees_where, html_trees_without_search, run};
ghost use Rattle.tl_tree_spec.specs.Places.{Puts, placed};
ghost use Rattle.tl_tree_spec.specs.Stays.{stay};

/// The tree builder makes of the tokens of trees that stay these trees, and nothing else, whether
/// `search` is a special element or not, and in quirks mode too.
#[tactic(auto, using(crate::proofs::Trees::stays, crate::proofs::Trees::stays_exactly, crate::proofs::Trees::stays_where, crate::proofs::Trees::stays_without_search))]
pub fn trees_stay()
    ensures trees { (f : HtmlForest) → stay (codes "html" ∷ []) f ≡ true →
        html_trees (html_tokens_of f) ≡ Some (normal_form f) }
    ensures exactly { (f : HtmlForest) → stay (codes "html" ∷ []) f ≡ true → is_normal f ≡ true →
        html_trees (html_tokens_of f) ≡ Some f }
    ensures without_search { (f : HtmlForest) → stay (codes "html" ∷ []) f ≡ true →
        html_trees_without_search (html_tokens_of f) ≡ html_trees (html_tokens_of f) }
    ensures anyhow { (reading : Reading) (f : HtmlForest) → stay (codes "html" ∷ []) f ≡ true →
        html_trees_where reading (html_tokens_of f) ≡ Some (normal_form f) }
{}

/// Such trees stay wherever they are put: where any elements are open, they go into the innermost
/// one, and nothing around it changes.
#[tactic(auto, using(crate::proofs::Places::names_placed, crate::proofs::Places::stays_placed))]
pub fn trees_stay_anywhere()
    ensures puts { (reading : Reading) (tags : List HtmlTag) (f : HtmlForest) →
        stay (names (placed reading tags).stack) f ≡ true →
        Puts (placed reading tags) (html_tokens_of f) (normal_form f) }
    ensures names { (reading : Reading) (tags : List HtmlTag) →
        names (placed reading tags).stack
        ≡ map (λ own. own.name) tags ++ (codes "html" ∷ []) }
{}

/// What follows other tokens is built from where these left the tree builder.
#[tactic(auto, using(crate::proofs::Places::run_append))]
pub fn tokens_are_taken_in_order()
    ensures { (b : Option Builder) (first more : List HtmlToken) →
        run b (first ++ more) ≡ run (run b first) more }
{}
