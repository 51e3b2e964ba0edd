//! Terms of a formula.
ghost use Rattle.std.specs.Prelude.{◌≡◌, ◌↔◌, ℕ, MatchOption, true};
ghost use Rattle.tl_tree_select.specs.Meaning.{IsTerm};
ghost use Rattle.tl_tree_select.specs.Inner.Terms.{IsDistance, is_natural};

use tl_css::selector::Formula;

fn is_natural(number: i64) -> bool
    ensures { result ≡ is_natural number }
{
    number >= 0
}

// How far a count is above a number, or below it, if it is.
fn distance(above: bool, count: u32, number: i64) -> Option<u64>
    ensures { MatchOption result ((d : ℕ) → IsDistance above count number d → ⊥)
        (λ d. IsDistance above count number d) }
{
    let count = u64::from(count);
    let size = number.unsigned_abs();
    if is_natural(number) {
        return if above {
            count.checked_sub(size)
        } else {
            size.checked_sub(count)
        };
    }
    if above { Some(count + size) } else { None }
}

/// Whether a count is one of the numbers of a formula.
pub fn is_term(formula: Formula, count: u32) -> bool
    ensures { (result ≡ true) ↔ IsTerm formula count }
{
    let Some(distance) = distance(is_natural(formula.a), count, formula.b) else {
        return false;
    };
    let step = formula.a.unsigned_abs();
    if step == 0 {
        return distance == 0;
    }
    distance % step == 0
}
