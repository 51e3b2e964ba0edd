//! Links from elements to the sibling before of the same name.
ghost use Rattle.std.specs.Prelude.{◌≡◌, IfOk, OnOk, Some, cond, option_and_then, option_map, unwrap_or};
ghost use Rattle.std.specs.BTreeMap.{get, is_at};
ghost use Rattle.std.specs.Option.{option_map_or};
ghost use Rattle.tl_css.specs.declared.selector.Link.TheVariants.{Twin};
ghost use Rattle.tl_tree_select.specs.Inner.Kin.{AreLinksOf, AreSiblingGroups, space_number, twin_group};
ghost use Rattle.tl_tree_select.specs.Page.{seen};
ghost use Rattle.tl_tree_select.specs.Inner.Links.{no_link};
ghost use Rattle.tl_tree_select.specs.Inner.Twin.{parts, space_of, twin_cmp};
ghost use Rattle.tl_tree_select.specs.declared.twin.TwinGroup.{TwinGroup};

use crate::links::{NO_LINK, link};
use crate::page::Searched;
use std::alloc::{AllocError, Global};
use std::collections::BTreeMap;
use tl_tree::Namespace;

// What twins have in common: the group of siblings, the namespace and the name.
#[derive(Clone, Copy, PartialEq, Eq, PartialOrd, Ord)]
struct TwinGroup<'t> {
    siblings: usize,
    space: usize,
    name: &'t [u8],
}

// Namespaces in an order.
fn space_number(space: Namespace) -> usize
    ensures { result ≡ space_number (space_of space) }
{
    match space {
        Namespace::Html => 0,
        Namespace::Math => 1,
        Namespace::Svg => 2,
    }
}

// The group of an element, if there is an element of this number.
fn twin_group<'t>(page: &Searched<'t, '_>, siblings: &[u32], number: usize) -> Option<TwinGroup<'t>>
    ensures { option_map parts result ≡ twin_group (seen page.now) siblings.now number }
{
    let siblings = link(siblings, number)?;
    let space = page.tree.namespace(number)?;
    let name = page.tree.name(number)?;
    Some(TwinGroup {
        siblings,
        space: space_number(space),
        name,
    })
}

// The number that stands at a group, where this one stands from now on.
fn replace_latest<'t>(
    latest: &mut BTreeMap<TwinGroup<'t>, u32>,
    group: Option<TwinGroup<'t>>,
    number: u32,
) -> Result<u32, AllocError>
    ensures was { IfOk result (λ was. was
        ≡ unwrap_or (option_and_then (get twin_cmp latest.old) group.entry) no_link) }
    ensures is { OnOk result ((q : TwinGroup) → get twin_cmp latest.new q ≡ option_map_or
        (λ g. cond (is_at (twin_cmp g) q) (Some number) (get twin_cmp latest.old q))
        group.entry
        (get twin_cmp latest.old q)) }
{
    let Some(group) = group else {
        return Ok(NO_LINK);
    };
    let was = latest.insert(group, number)?;
    Ok(was.unwrap_or(NO_LINK))
}

/// A link from each element to the sibling before of the same name.
pub fn twins(
    alloc: Global,
    page: &Searched<'_, '_>,
    siblings: &[u32],
) -> Result<Vec<u32>, AllocError>
    requires { AreSiblingGroups (seen page.now) siblings.now }
    ensures { IfOk result (λ links. AreLinksOf (seen page.now) Twin links.items) }
{
    let mut links = Vec::with_capacity(alloc, page.tree.len())?;
    let mut latest = BTreeMap::new(alloc);
    for number in 0..page.tree.len() {
        let group = twin_group(page, siblings, number);
        let before = replace_latest(&mut latest, group, number as u32)?;
        links.push(before)?;
    }
    Ok(links)
}
