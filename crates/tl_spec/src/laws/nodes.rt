//! Laws of what holds of all nodes of a table, for the proofs of those who edit each node.

ghost use Rattle.std.specs.Prelude.{◌≡◌, ℕ, All, Bool, IsTrue, List, [], None, Ok};
ghost use Rattle.tl_spec.specs.Print.Clean.{IsCleanNode, IsCleanTable};
ghost use Rattle.tl_spec.specs.Tree.Document.{Document, Node};
ghost use Rattle.tl_spec.specs.Tree.EveryNode.{EachNode, HoldOfJoined, HoldOfNode, HoldOfTrees, IsCleanAlone, Tests, of_lossy};
ghost use Rattle.tl_spec.specs.Tree.Forest.{Forest, PlainTag, forest, plain};
ghost use Rattle.tl_spec.specs.Print.Normal.{ReadsAs, norm};
ghost use Rattle.tl_spec.specs.Print.{document_print};
ghost use Rattle.tl_spec.specs.Lex.Token.{tokens};
ghost use Rattle.tl_spec.specs.Walk.{all_tags, first_fault, prints_children, trees, walk, walk_of};

/// Nodes that are clean by themselves make a clean table where the print's walk meets no fault, so
/// where there is a print.
pub fn clean_nodes()
    ensures table { (d : Document) →
        All IsCleanAlone d.nodes → first_fault (walk prints_children d.nodes [] d.top) ≡ None →
        IsCleanTable d.nodes d.top }
    ensures printed { (d : Document) (s : List ℕ) →
        All IsCleanAlone d.nodes → document_print d ≡ Ok s → IsCleanTable d.nodes d.top }
    ensures node { (nodes : List Node) (node : Node) →
        All IsCleanAlone nodes → IsCleanAlone node →
        first_fault (walk_of prints_children nodes node) ≡ None →
        IsCleanNode nodes node }
{}

/// What holds of all nodes holds of each node that a walk meets, whichever tags it enters, and of
/// the trees that it comes to.
pub fn nodes_of_a_walk()
    ensures nodes { (test : Node → Bool) (enters : List ℕ → Bool)
        (nodes : List Node) (path hs : List ℕ) →
        All (λ n. IsTrue (test n)) nodes →
        EachNode (λ n. IsTrue (test n)) (walk enters nodes path hs) }
    ensures trees { (t : Tests) (enters : List ℕ → Bool)
        (nodes : List Node) (path hs : List ℕ) →
        All (HoldOfNode t) nodes → HoldOfTrees t (trees (walk enters nodes path hs)) }
{}

/// What holds of trees that are made text, and of texts that are joined, holds of their normal
/// form. So what holds of all nodes of a document holds of what is read of its print.
pub fn trees_of_the_normal_form()
    ensures trees { (t : Tests) (f : Forest PlainTag) →
        HoldOfJoined t → HoldOfTrees (of_lossy t) f → HoldOfTrees t (norm f) }
    ensures read { (t : Tests) (d : Document) (s : List ℕ) →
        HoldOfJoined t → All (HoldOfNode (of_lossy t)) d.nodes →
        ReadsAs s (trees (walk all_tags d.nodes [] d.top)) →
        HoldOfTrees t (plain (forest (tokens s))) }
{}
