//! Links to the last number before another that is of its group.
ghost use Rattle.std.specs.Prelude.{◌≡◌, ◌<◌, ◌^◌, ℕ, IfOk, IfSome, length};
ghost use Rattle.tl_tree_select.specs.Inner.Links.{AreGrouped, AreToLast, link_at, no_link};
ghost use Rattle.std.specs.Prelude.{slice_index_or, slice_set};
ghost use Rattle.std.specs.Option.{option_map_or};

use crate::links::{NO_LINK, link};
use std::alloc::{AllocError, Global};

// The number that stands at a group, where this one stands from now on.
fn replace_latest(latest: &mut Vec<u32>, group: Option<usize>, number: u32) -> u32
    requires { IfSome group (λ g. g < length latest.old.items) }
    ensures was { result ≡ option_map_or
        (λ g. slice_index_or latest.old.items g no_link) group no_link }
    ensures is { latest.new.items ≡ option_map_or
        (λ g. slice_set latest.old.items g number) group latest.old.items }
{
    let Some(group) = group else {
        return NO_LINK;
    };
    let was = latest[group];
    latest[group] = number;
    was
}

/// A link from each number to the last one before it of its group. Groups are numbers below that of
/// all numbers.
pub fn previous(alloc: Global, groups: &[u32]) -> Result<Vec<u32>, AllocError>
    requires few { (n : ℕ) → IfSome (link_at groups.now n) (λ g. g < length groups.now) }
    requires numbered { length groups.now < 2 ^ 32 }
    ensures len { IfOk result (λ links. length links.items ≡ length groups.now) }
    ensures each { IfOk result (λ links. AreToLast (AreGrouped (link_at groups.now)) links.items) }
{
    let mut links = Vec::with_capacity(alloc, groups.len())?;
    let mut latest = vec![in alloc; NO_LINK; groups.len()]?;
    for number in 0..groups.len() {
        let before = replace_latest(&mut latest, link(groups, number), number as u32);
        links.push(before)?;
    }
    Ok(links)
}
