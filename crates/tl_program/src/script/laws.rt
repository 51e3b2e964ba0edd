//! Laws of edits of tables.
ghost use Rattle.std.specs.Prelude.{◌≡◌, ◌≢◌, ℕ, Bool, IsTrue, List, slice_get, Some, IfSome, Ok};
ghost use Rattle.std.specs.List.{AllByRecursion};
ghost use Rattle.tl_bytes.specs.Held.{Kept, as_owned};
ghost use Rattle.tl_spec.specs.Edit.{Change, map_ok, apply_change, apply_changes, none_refused};
ghost use Rattle.tl.specs.View.{document_of, HTMLTable};
ghost use Rattle.tl_program.specs.Pieces.{node_of, NodePasses};
ghost use Rattle.tl_program.specs.TableEdit.{edited_table, table_after};

/// An edit of a table is that edit of its document, and is refused for the same cause; so are edits
/// in order.
pub fn table_edits_are_edits()
    ensures one { (c : Change) (t : HTMLTable)
        → apply_change c (document_of t) ≡ map_ok document_of (edited_table c t) }
    ensures all { (cs : List Change) (t u : HTMLTable) → table_after cs t ≡ Ok u
        → apply_changes cs (document_of t) ≡ none_refused (document_of u) }
{}

/// A node that no edit names is the old one. Of the others, what all owned bytes pass and each
/// piece of the old node passes, each piece of the new one passes: it is a piece that was there, or
/// owned.
pub fn table_edits_keep_the_rest()
    ensures others { (cs : List Change) (t u : HTMLTable) (n : ℕ) → table_after cs t ≡ Ok u →
        AllByRecursion (λ c. node_of c ≢ Some n) cs → slice_get u.nodes n ≡ slice_get t.nodes n }
    ensures pieces { (test : Kept → Bool) (cs : List Change) (t u : HTMLTable) (n : ℕ)
        → table_after cs t ≡ Ok u →
        ((bytes : List ℕ) → IsTrue (test (as_owned bytes)))
        → IfSome (slice_get t.nodes n) (NodePasses test)
        → IfSome (slice_get u.nodes n) (NodePasses test) }
{}
