//! Where two texts go on alike.
ghost use Rattle.std.specs.Prelude.{IfSome, IsTrue, length, ◌+◌, ◌<◌, ◌≡◌, ◌≤◌};

// Up to so many lines each pair of numbers is tried.
const NEAR: usize = 8;

// Whether two lines are the same, or both texts end.
fn are_alike(left: Option<&&[u8]>, right: Option<&&[u8]>) -> bool {
    match (left, right) {
        (Some(one), Some(other)) => *one == *other,
        (None, None) => true,
        _ => false,
    }
}

// Whether the texts go on alike behind so many lines of each: for two lines, but for one where
// lines give way to as many others.
fn go_on(left: &[&[u8]], right: &[&[u8]], removed: usize, added: usize) -> bool
    ensures left { IsTrue result → removed ≤ length left.now }
    ensures right { IsTrue result → added ≤ length right.now }
{
    if removed > left.len() || added > right.len() {
        return false;
    }
    let (left, right) = (&left[removed..], &right[added..]);
    are_alike(left.first(), right.first())
        && (removed == added || are_alike(left.get(1), right.get(1)))
}

// These two numbers of lines, if the texts go on alike behind so many of each, in either order.
fn gap_with(left: &[&[u8]], right: &[&[u8]], most: usize, less: usize) -> Option<(usize, usize)>
    ensures left { IfSome result (λ gap. gap.0 ≤ length left.now) }
    ensures right { IfSome result (λ gap. gap.1 ≤ length right.now) }
    ensures some { IfSome result (λ gap. most ≤ gap.0 + gap.1) }
{
    if go_on(left, right, most, less) {
        Some((most, less))
    } else if go_on(left, right, less, most) {
        Some((less, most))
    } else {
        None
    }
}

// How many lines of each text stand before both go on alike, where the greater number is this one,
// and the other one is nearly as great, or nearly nothing.
fn far_gap(left: &[&[u8]], right: &[&[u8]], most: usize) -> Option<(usize, usize)>
    ensures left { IfSome result (λ gap. gap.0 ≤ length left.now) }
    ensures right { IfSome result (λ gap. gap.1 ≤ length right.now) }
    ensures some { IfSome result (λ gap. most ≤ gap.0 + gap.1) }
{
    for less in [most, 0, 1, most.saturating_sub(1)] {
        if let Some(gap) = gap_with(left, right, most, less) {
            return Some(gap);
        }
    }
    None
}

// How many lines of each text stand before both go on alike, where the greater number is this one.
fn gap_of(left: &[&[u8]], right: &[&[u8]], most: usize) -> Option<(usize, usize)>
    ensures left { IfSome result (λ gap. gap.0 ≤ length left.now) }
    ensures right { IfSome result (λ gap. gap.1 ≤ length right.now) }
    ensures some { IfSome result (λ gap. most ≤ gap.0 + gap.1) }
{
    if most > NEAR {
        return far_gap(left, right, most);
    }
    for less in 0..most + 1 {
        if let Some(gap) = gap_with(left, right, most, less) {
            return Some(gap);
        }
    }
    None
}

/// How many lines of each text stand before both go on alike: all, where they don't. The search
/// takes no more steps than it passes over lines, but for a number of them.
pub fn gap(left: &[&[u8]], right: &[&[u8]]) -> (usize, usize)
    ensures left { result.0 ≤ length left.now }
    ensures right { result.1 ≤ length right.now }
    ensures some { 0 < length left.now + length right.now → 0 < result.0 + result.1 }
{
    for most in 1..left.len().max(right.len()) {
        if let Some(gap) = gap_of(left, right, most) {
            return gap;
        }
    }
    (left.len(), right.len())
}
