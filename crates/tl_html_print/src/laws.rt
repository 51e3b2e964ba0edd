//! Laws of what is printed.
ghost use Rattle.std.specs.List.{list_all};
ghost use Rattle.std.specs.Prelude.{Bool, List, None, Option, Some, [], codes, false, map, slice_get, true, ◌++◌, ◌≡◌, ◌∷◌, ℕ, ◌↔◌};
ghost use Rattle.tl_dom_spec.specs.Builder.{Flags};
ghost use Rattle.tl_dom_spec.specs.HtmlForest.{HtmlForest, element, no_trees, text};
ghost use Rattle.tl_dom_spec.specs.HtmlTree.{Context, html_fragment_by, html_tree_by};
ghost use Rattle.tl_dom_spec.specs.Marks.{Marked};
ghost use Rattle.tl_dom_spec.specs.Partial.{is_flow_context, whole, without_numbers};
ghost use Rattle.tl_dom_spec.specs.Tags.{Attribute, Tag};
ghost use Rattle.tl_html_print.specs.Again.{built_in, ends_itself, is_read_again};
ghost use Rattle.tl_html_print.specs.Places.{a_node, inner_at, outer_at, places};
ghost use Rattle.tl_html_print.specs.Pretty.{laid_out, without_white};
ghost use Rattle.tl_html_print.specs.ReadAgain.{CanBeReadAgain, HoldsItself, IsReadAs, end_tokens, html_element, is_kept_in_value, is_plain_comment, is_plain_raw, lowered, tokens_of_trees, unless_empty};
ghost use Rattle.tl_html_print.specs.Serialized.{end_tag, is_literal_in, parent_below, serialized, serialized_comment, serialized_text};
ghost use Rattle.tl_html_spec.specs.Balanced.{is_one_of};
ghost use Rattle.tl_html_spec.specs.HtmlTokenizer.{Character, CommentToken, EndTag, after_start, data_state};
ghost use Rattle.tl_html_spec.specs.Reader.{at, tokens_of};
ghost use Rattle.tl_tree_spec.specs.HtmlForest.{HtmlForest as PartialForest, is_normal};
ghost use Rattle.tl_tree_spec.specs.Stays.{stay};

/// The tokenizer of the standard reads of a print the tags, texts and comments of the trees in
/// their order, and then what follows it: where they can be read again, and scripting is off.
#[tactic(auto, using(crate::proofs::Reread::print_read))]
pub fn prints_are_read_again()
    ensures { (trees : HtmlForest) (rest : List ℕ) → CanBeReadAgain trees →
        tokens_of (at data_state) (serialized false None trees ++ rest)
        ≡ tokens_of_trees trees ++ tokens_of (at data_state) rest }
{}

/// A text in an element without markup is read again, up to the end tag of the element: where
/// references are read in it, any without a NUL or a carriage return; else one that has neither
/// `</` nor `<!` either.
pub fn texts_without_markup_are_read_again()
    ensures references { (name : List ℕ) (attributes : List Attribute) (source : Option ℕ)
        (own : Marked (List ℕ)) →
        is_one_of (codes "title textarea") name ≡ true →
        list_all is_kept_in_value own.said ≡ true →
        HoldsItself (html_element name attributes source) (text own no_trees) }
    ensures raw { (name : List ℕ) (attributes : List Attribute) (source : Option ℕ)
        (own : Marked (List ℕ)) →
        is_one_of (codes "style script xmp iframe noembed noframes") name ≡ true →
        is_plain_raw own.said ≡ true →
        HoldsItself (html_element name attributes source) (text own no_trees) }
    ensures empty { (name : List ℕ) (attributes : List Attribute) (source : Option ℕ) →
        is_one_of
        (codes "title textarea style script xmp iframe noembed noframes")
        name ≡ true →
        HoldsItself (html_element name attributes source) no_trees }
{}

/// A comment is read again that has no `--`, NUL or carriage return in it, doesn't begin with `>`
/// or `->`, and doesn't end with `-`.
pub fn comments_are_read_again()
    ensures { (bytes : List ℕ) → is_plain_comment bytes ≡ true →
        IsReadAs data_state (serialized_comment bytes) (CommentToken bytes ∷ []) }
{}

/// Of a page's print the standard's tokenizer reads the tags, texts and comments of its trees,
/// where these are read again (`is_read_again`); of what is printed of a node those of the node,
/// unless it is a text that is printed without markup; and of what is printed of what is in an
/// element, from the state that its start tag sets and with its end tag behind it, what is in it.
pub fn pages_are_read_again()
    ensures trees { (flags : Flags) (page rest : List ℕ) →
        is_read_again (html_tree_by flags page).trees ≡ true →
        tokens_of (at data_state)
        (serialized false None (html_tree_by flags page).trees ++ rest)
        ≡ tokens_of_trees (html_tree_by flags page).trees ++ tokens_of (at data_state) rest }
    ensures outer { (flags : Flags) (page : List ℕ) (number : ℕ) (parent : Option Tag)
        (tree : HtmlForest) (rest : List ℕ) →
        slice_get (places None (html_tree_by flags page).trees) number
        ≡ Some (a_node parent tree) →
        is_literal_in false parent ≡ false → is_read_again tree ≡ true →
        tokens_of (at data_state) (outer_at false (html_tree_by flags page).trees number ++ rest)
        ≡ tokens_of_trees tree ++ tokens_of (at data_state) rest }
    ensures inner { (flags : Flags) (page : List ℕ) (number : ℕ) (parent : Option Tag)
        (tag : Tag) (below more : HtmlForest) →
        slice_get (places None (html_tree_by flags page).trees) number
        ≡ Some (a_node parent (element tag below more)) →
        is_read_again (element tag below more) ≡ true →
        IsReadAs (after_start (lowered tag.name))
        (inner_at false (html_tree_by flags page).trees number ++ end_tag tag)
        (unless_empty tag (tokens_of_trees below) ++ end_tokens tag) }
{}

/// The same of the trees of a text in any context element.
pub fn fragments_are_read_again()
    ensures trees { (flags : Flags) (context : Context) (bytes rest : List ℕ) →
        is_read_again (html_fragment_by flags context bytes) ≡ true →
        tokens_of (at data_state)
        (serialized false None (html_fragment_by flags context bytes) ++ rest)
        ≡ tokens_of_trees (html_fragment_by flags context bytes)
        ++ tokens_of (at data_state) rest }
    ensures outer { (flags : Flags) (context : Context) (bytes : List ℕ) (number : ℕ)
        (parent : Option Tag) (tree : HtmlForest) (rest : List ℕ) →
        slice_get (places None (html_fragment_by flags context bytes)) number
        ≡ Some (a_node parent tree) →
        is_literal_in false parent ≡ false → is_read_again tree ≡ true →
        tokens_of (at data_state)
        (outer_at false (html_fragment_by flags context bytes) number ++ rest)
        ≡ tokens_of_trees tree ++ tokens_of (at data_state) rest }
    ensures inner { (flags : Flags) (context : Context) (bytes : List ℕ) (number : ℕ)
        (parent : Option Tag) (tag : Tag) (below more : HtmlForest) →
        slice_get (places None (html_fragment_by flags context bytes)) number
        ≡ Some (a_node parent (element tag below more)) →
        is_read_again (element tag below more) ≡ true →
        IsReadAs (after_start (lowered tag.name))
        (inner_at false (html_fragment_by flags context bytes) number ++ end_tag tag)
        (unless_empty tag (tokens_of_trees below) ++ end_tokens tag) }
{}

/// Of a text in an element without markup the test is exact: it holds of those that are read again
/// up to the end tag of the element, and of no others.
#[tactic(auto, using(crate::proofs::PageReads::exactly))]
pub fn texts_end_themselves_exactly()
    ensures { (tag : Tag) (bytes : List ℕ) → (ends_itself tag bytes ≡ true)
        ↔ IsReadAs (after_start (lowered tag.name))
        (serialized_text false (parent_below tag) bytes ++ end_tag tag)
        (map Character bytes ++ EndTag (lowered tag.name) ∷ []) }
{}

/// Where the trees of a fragment stay (`stay` of `tl_tree_spec`) and are read again, the standard
/// builds of their print just these trees in each context element of flow content (`around`), in
/// quirks mode and not, but for the numbers of start tags; and so of the print of a node of a page.
pub fn prints_are_built_again()
    ensures fragment { (around : Context) (counts_search : Bool) (flags : Flags)
        (context : Context) (bytes : List ℕ) (f : PartialForest) →
        is_flow_context around ≡ true →
        without_numbers (html_fragment_by flags context bytes) ≡ whole f →
        is_read_again (html_fragment_by flags context bytes) ≡ true →
        stay (codes "html" ∷ []) f ≡ true →
        without_numbers
        (built_in around counts_search
        (serialized false None (html_fragment_by flags context bytes)))
        ≡ without_numbers (html_fragment_by flags context bytes) }
    ensures node { (around : Context) (counts_search : Bool) (flags : Flags)
        (page : List ℕ) (number : ℕ) (parent : Option Tag) (tree : HtmlForest)
        (f : PartialForest) → is_flow_context around ≡ true →
        slice_get (places None (html_tree_by flags page).trees) number
        ≡ Some (a_node parent tree) →
        is_literal_in false parent ≡ false → without_numbers tree ≡ whole f →
        is_read_again tree ≡ true → stay (codes "html" ∷ []) f ≡ true → is_normal f ≡ true →
        without_numbers
        (built_in around counts_search (outer_at false (html_tree_by flags page).trees number))
        ≡ without_numbers tree }
{}

/// A pretty print is that of trees with the same nodes, but for texts of white space.
#[tactic(auto, using(crate::proofs::PrettyTrees::same_nodes))]
pub fn pretty_prints_keep_nodes()
    ensures { (trees : HtmlForest) →
        without_white (laid_out trees) ≡ without_white trees }
{}
