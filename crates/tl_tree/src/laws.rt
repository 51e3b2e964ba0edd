//! Laws of the rows of any trees.

ghost use Rattle.std.specs.List.{Contains};
ghost use Rattle.std.specs.Prelude.{◌≡◌, ◌↔◌, ◌⊎◌, ◌<◌, ◌≤◌, Some, length, slice_get, ℕ};
ghost use Rattle.tl_dom_spec.specs.HtmlForest.{HtmlForest};
ghost use Rattle.tl_tree.specs.Asked.{ancestors_at, children_at, parent_at};
ghost use Rattle.tl_tree.specs.Rows.{IsBelow, IsInRange, Row, row_count, rows_of};

/// There is a row for each node, and one for the contents of each `template`.
#[tactic(auto, using(crate::proofs::RowLaws::row_numbers))]
pub fn rows_are_counted()
    ensures { (trees : HtmlForest) → length (rows_of trees) ≡ row_count trees }
{}

/// A row ends behind itself, and not behind the last row.
#[tactic(auto, using(crate::proofs::RowLaws::row_end))]
pub fn rows_end_within()
    ensures { (trees : HtmlForest) (i : ℕ) (row : Row) → slice_get (rows_of trees) i ≡ Some row →
        (i < row.end) × (row.end ≤ length (rows_of trees)) }
{}

/// The range of one row is part of another's, or apart from it.
#[tactic(auto, using(crate::proofs::RowLaws::ranges_nest))]
pub fn ranges_nest()
    ensures { (trees : HtmlForest) (i j : ℕ) (one other : Row) → i < j →
        slice_get (rows_of trees) i ≡ Some one → slice_get (rows_of trees) j ≡ Some other →
        (one.end ≤ j) ⊎ (other.end ≤ one.end) }
{}

/// The row that a row stands in comes before it, and is the innermost one whose range has it: so
/// one that stands in none is in no range.
#[tactic(auto, using(crate::proofs::RowLaws::parent_before))]
pub fn parents_are_innermost()
    ensures before { (trees : HtmlForest) (i : ℕ) (row : Row) (p : ℕ) →
        slice_get (rows_of trees) i ≡ Some row → row.parent ≡ Some p → p < i }
    ensures holds { (trees : HtmlForest) (i : ℕ) (row : Row) (p : ℕ) →
        slice_get (rows_of trees) i ≡ Some row → row.parent ≡ Some p →
        IsInRange (rows_of trees) p i }
    ensures innermost { (trees : HtmlForest) (outer i : ℕ) (row : Row) →
        slice_get (rows_of trees) i ≡ Some row → IsInRange (rows_of trees) outer i →
        (p : ℕ) × (row.parent ≡ Some p) × (outer ≤ p) }
{}

/// What is below a row is what is in its range.
#[tactic(auto, using(crate::proofs::RowLaws::below_range, crate::proofs::RowLaws::range_below))]
pub fn below_is_in_range()
    ensures { (trees : HtmlForest) (outer i : ℕ) →
        IsBelow (rows_of trees) outer i ↔ IsInRange (rows_of trees) outer i }
{}

/// The children of a row are those that stand in it.
pub fn children_stand_in_their_row()
    ensures { (trees : HtmlForest) (number child : ℕ) →
        Contains (children_at (rows_of trees) number) child
        ↔ parent_at (rows_of trees) child ≡ Some number }
{}

/// The ancestors of a row are those that it is below.
pub fn ancestors_have_it_in_range()
    ensures { (trees : HtmlForest) (number outer : ℕ) →
        Contains (ancestors_at (rows_of trees) number) outer
        ↔ IsInRange (rows_of trees) outer number }
{}
