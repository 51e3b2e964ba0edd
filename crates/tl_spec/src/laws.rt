//! Laws of the definitions.

ghost use Rattle.std.specs.Prelude.{◌≡◌, ◌↔◌, ◌≤◌, ◌+◌, ℕ, All, sum_by, length, Some, List, [], ◌∷◌, ◌++◌, Option, None, Bool, Ok};
ghost use Rattle.std.specs.Fmt.{decimal};
ghost use Rattle.tl_spec.specs.Lex.Attribute.{Pair, attribute, attributes};
ghost use Rattle.tl_spec.specs.Lex.Token.{Token, PlacedToken, next_token, tokens};
ghost use Rattle.tl_spec.specs.Lex.Grammar.{AttributeStands, AttributesStand, TokenStands, StandFrom};
ghost use Rattle.tl_spec.specs.Lex.AttributeList.{PlainAttributes, attributes_of};
ghost use Rattle.tl_spec.specs.Lex.AttributeGrammar.{AreAttributesOf};
ghost use Rattle.tl_spec.specs.Tree.Forest.{Forest, PlainTag, Siblings, ParsesTo, no_siblings, siblings, with_token, forest, plain};
ghost use Rattle.tl_spec.specs.Tree.Document.{Document, Node, document, node_and_attribute_count};
ghost use Rattle.tl_spec.specs.Edit.{Change, Refusal, apply_change, apply_changes, none_refused};
ghost use Rattle.tl_spec.specs.Edit.Shape.{shift_place_by, KeepsShape};
ghost use Rattle.tl_spec.specs.Tree.Builder.{State, run, start, step};
ghost use Rattle.tl_spec.specs.Lookup.Scan.{has_id, is_in_class, IsFirstPlace, ArePlaces, id_scan, class_scan, tags_of};
ghost use Rattle.tl_spec.specs.Walk.{all_tags, prints_children, row_walk, walk, walk_of, trees, first_fault, visits, visits_from};
ghost use Rattle.tl_spec.specs.Tree.Order.{ChildrenFollowParents, DescendantsAreContiguous};
ghost use Rattle.tl_spec.specs.Print.{print, document_print, outer_html};
ghost use Rattle.tl_spec.specs.Print.Clean.{IsClean, IsCleanNode, IsCleanTable, HaveOwnKeys, IsTame};
ghost use Rattle.tl_spec.specs.Print.Normal.{ReadsAs};
ghost use Rattle.tl_spec.specs.Edit.{Change};
ghost use Rattle.tl_spec.specs.Edit.StepGrammar.{LineSays, TextSays};
ghost use Rattle.tl_spec.specs.Edit.StepLine.{change_of_line, parse_changes, line_of, lines_of, ReadBack, IsSpellable, IsLine};

pub mod nodes;
pub mod ranges;
pub mod searches;
pub mod selectors;

/// An attribute stands by cases exactly where the function reads it, alone and in a row.
#[tactic(auto, using(crate::proofs::All::laws))]
pub fn attribute_stands()
    ensures one { (s : List ℕ) (pair : Pair) (rest : List ℕ) →
        AttributeStands s pair rest ↔ (attribute s ≡ (pair, rest)) }
    ensures row { (s : List ℕ) (pairs : List Pair) (rest : List ℕ) →
        AttributesStand s pairs rest ↔ (attributes s ≡ (pairs, rest)) }
{}

/// A token stands by cases exactly where the function reads it; so at most one stands at a place,
/// and one does where a byte is left.
#[tactic(auto, using(crate::proofs::All::laws))]
pub fn token_stands()
    ensures { (t : List ℕ) (k : Token) (rest : List ℕ) →
        TokenStands t k rest ↔ (next_token t ≡ Some (k, rest)) }
{}

/// The tokens of a text are the ones that stand in it in order, and there are no others.
#[tactic(auto, using(crate::proofs::All::laws))]
pub fn tokens_stand()
    ensures { (t : List ℕ) (ks : List PlacedToken) → StandFrom t 0 ks ↔ (ks ≡ tokens t) }
{}

/// A start tag's attributes, made pair after pair, are those of all its pairs, and no others are.
pub fn attribute_list()
    ensures { (pairs : List Pair) (a : PlainAttributes) →
        AreAttributesOf pairs a ↔ (attributes_of pairs ≡ a) }
{}

/// The siblings at the front of some tokens come of the first token and the siblings after it.
#[tactic(auto, using(crate::proofs::All::laws))]
pub fn siblings_by_token()
    ensures none { (enclosing : Option (List ℕ)) → siblings enclosing [] ≡ no_siblings }
    ensures step { (enclosing : Option (List ℕ)) (k : PlacedToken) (ks : List PlacedToken) →
        siblings enclosing (k ∷ ks) ≡ with_token siblings enclosing k ks k.token }
{}

/// The rules by cases hold of the siblings, and of nothing else.
#[tactic(auto, using(crate::proofs::All::laws))]
pub fn siblings_by_rules()
    ensures { (enclosing : Option (List ℕ)) (ks : List PlacedToken) (s : Siblings) →
        ParsesTo enclosing ks s ↔ (s ≡ siblings enclosing ks) }
{}

/// A walk goes along its handles, and below each new one on.
#[tactic(auto, using(crate::proofs::All::laws))]
pub fn walk_by_step()
    ensures { (enters : List ℕ → Bool) (nodes : List Node) (path : List ℕ) (hs : List ℕ) →
        walk enters nodes path hs ≡ row_walk enters nodes (walk enters nodes) path hs }
{}

/// The print of clean trees is read as their normal form, holds no doctype, and prints alike.
#[tactic(auto, using(crate::proofs::All::laws))]
pub fn trees_print_then_parse()
    ensures { (f : Forest PlainTag) → IsClean f → HaveOwnKeys f → ReadsAs (print f) f }
{}

/// A clean table has a print. Where each tag that it meets has the keys that its type allows, the
/// print is read as the normal form of the full walk of the top list.
#[tactic(auto, using(crate::proofs::All::laws))]
pub fn table_print_then_parse()
    ensures prints { (d : Document) →
        IsCleanTable d.nodes d.top →
        document_print d ≡ Ok (print (trees (walk all_tags d.nodes [] d.top))) }
    ensures reads { (d : Document) →
        IsCleanTable d.nodes d.top → HaveOwnKeys (trees (walk prints_children d.nodes [] d.top)) →
        (s : List ℕ) → document_print d ≡ Ok s →
        ReadsAs s (trees (walk all_tags d.nodes [] d.top)) }
{}

/// A clean node over a table has a print, which is read as the normal form of
/// the one tree of its full walk.
#[tactic(auto, using(crate::proofs::All::laws))]
pub fn node_print_then_parse()
    ensures prints { (nodes : List Node) (node : Node) →
        IsCleanNode nodes node →
        outer_html nodes node ≡ Ok (print (trees (walk_of all_tags nodes node))) }
    ensures reads { (nodes : List Node) (node : Node) →
        IsCleanNode nodes node → HaveOwnKeys (trees (walk_of prints_children nodes node)) →
        (s : List ℕ) →
        outer_html nodes node ≡ Ok s → ReadsAs s (trees (walk_of all_tags nodes node)) }
{}

/// The full walk of a document just read meets no fault, all its nodes in the order of the table,
/// and the trees of its tokens.
#[tactic(auto, using(crate::proofs::All::laws))]
pub fn document_walk()
    ensures faultless { (t : List ℕ) →
        first_fault (walk all_tags (document t).nodes [] (document t).top) ≡ None }
    ensures ordered { (t : List ℕ) →
        visits (walk all_tags (document t).nodes [] (document t).top)
        ≡ visits_from 0 (document t).nodes }
    ensures whole { (t : List ℕ) →
        trees (walk all_tags (document t).nodes [] (document t).top) ≡ plain (forest (tokens t)) }
{}

/// What was just read is clean, but for empty keys, a `"` inside a value and the tag `command`;
/// keys are distinct in any case.
#[tactic(auto, using(crate::proofs::All::laws))]
pub fn fresh_is_clean()
    ensures trees { (t : List ℕ) →
        IsTame (plain (forest (tokens t))) → IsClean (plain (forest (tokens t))) }
    ensures table { (t : List ℕ) →
        IsTame (plain (forest (tokens t))) → IsCleanTable (document t).nodes (document t).top }
    ensures keys { (t : List ℕ) → HaveOwnKeys (plain (forest (tokens t))) }
{}

/// In a document just read a child's number is above its parent's, and a tag's descendants are the
/// nodes right after it.
#[tactic(auto, using(crate::proofs::All::laws))]
pub fn document_order()
    ensures above { (t : List ℕ) → ChildrenFollowParents (document t).nodes }
    ensures interval { (t : List ℕ) → DescendantsAreContiguous (document t).nodes }
{}

/// A document just read has no more nodes and attributes than its text has bytes.
#[tactic(auto, using(crate::proofs::All::laws))]
pub fn document_size()
    ensures { (t : List ℕ) → sum_by node_and_attribute_count (document t).nodes ≤ length t }
{}

/// The tokens of a text, written one after the other with the open tags at hand, make its document.
pub fn machine_writes_document()
    ensures nodes { (t : List ℕ) → (run t start (tokens t)).nodes ≡ (document t).nodes }
    ensures top { (t : List ℕ) → (run t start (tokens t)).top ≡ (document t).top }
    ensures version { (t : List ℕ) → (run t start (tokens t)).is_html5 ≡ (document t).is_html5 }
{}

/// A scan for an id finds the first node that has it, and one for a class all nodes that have the
/// member, in order; nothing else is that.
pub fn scans()
    ensures id { (nodes : List Node) (i : List ℕ) (n : Option ℕ) →
        IsFirstPlace (has_id i) nodes n ↔ (n ≡ id_scan nodes i) }
    ensures class { (nodes : List Node) (c : List ℕ) (ns : List ℕ) →
        ArePlaces (is_in_class c) nodes ns ↔ (ns ≡ class_scan nodes c) }
{}

/// What scans find in a table that is written token by token grows with each start tag alone: no
/// later step changes it.
#[tactic(auto, using(crate::proofs::Lookup::Seen::ids_grow, crate::proofs::Lookup::Seen::classes_grow))]
pub fn scans_grow()
    ensures ids { (t : List ℕ) (s : State) (k : PlacedToken) (i : List ℕ) →
        id_scan (step t s k).nodes i ≡ id_scan (s.nodes ++ tags_of t k k.token) i }
    ensures classes { (t : List ℕ) (s : State) (k : PlacedToken) (c : List ℕ) →
        class_scan (step t s k).nodes c ≡ class_scan (s.nodes ++ tags_of t k k.token) c }
{}

/// Edits after edits that were done are edits of what those made, their places counted on. Edits
/// after a refused one are left out.
#[tactic(auto, using(crate::proofs::All::laws))]
pub fn edits_compose()
    ensures after_done { (cs ds : List Change) (d e : Document) →
        apply_changes cs d ≡ none_refused e →
        apply_changes (cs ++ ds) d ≡ shift_place_by (length cs) (apply_changes ds e) }
    ensures after_refused { (cs ds : List Change) (d : Document) (i : ℕ) (refusal : Refusal) →
        (apply_changes cs d).refused ≡ Some (i, refusal) →
        apply_changes (cs ++ ds) d ≡ apply_changes cs d }
{}

/// No edit adds a node or takes one away, nor a place of the top list; none moves a tag in its
/// source, makes one of what is none, or changes the version.
pub fn edits_keep_the_shape()
    ensures { (c : Change) (d e : Document) → apply_change c d ≡ Ok e → KeepsShape d e }
{}

/// A line says an edit by cases exactly where the function reads it; so it says none exactly where
/// it has none of the ten forms.
#[tactic(auto, using(crate::proofs::Edit::StepForms::laws))]
pub fn line_says()
    ensures one { (line : List ℕ) (c : Change) → LineSays line c ↔ (change_of_line line ≡ Some c) }
    ensures none { (line : List ℕ) →
        ((c : Change) → LineSays line c → ⊥) ↔ (change_of_line line ≡ None) }
{}

/// A text of lines says its edits by the relation exactly where the function reads them of it.
#[tactic(auto, using(crate::proofs::Edit::StepForms::laws))]
pub fn text_says()
    ensures all { (text : List ℕ) (cs : List Change) →
        TextSays text cs ↔ (parse_changes text ≡ Some cs) }
    ensures none { (text : List ℕ) →
        ((cs : List Change) → TextSays text cs → ⊥) ↔ (parse_changes text ≡ None) }
{}

/// The decimal digits of a number are read as that number.
#[tactic(auto, using(crate::proofs::Edit::Spelling::laws))]
pub fn decimal_reads_back()
    ensures { ReadBack decimal }
{}

/// The line of an edit says that edit, and lines of edits say all of them in order.
#[tactic(auto, using(crate::proofs::Edit::Spelling::laws))]
pub fn spelled_lines()
    ensures line { (digits : ℕ → List ℕ) →
        ReadBack digits → (c : Change) → IsSpellable c →
        change_of_line (line_of digits c) ≡ Some c }
    ensures text { (digits : ℕ → List ℕ) →
        ReadBack digits → (cs : List Change) → All (IsLine digits) cs →
        parse_changes (lines_of digits cs) ≡ Some cs }
{}
