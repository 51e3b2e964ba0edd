//! Links between the rows of a page: to the parent, and to siblings before.
ghost use Rattle.std.specs.Prelude.{◌≡◌, ◌<◌, ◌^◌, ℕ, IfOk, IfSome, true, length};
ghost use Rattle.tl_css.specs.declared.selector.Link.TheVariants.{Parent, Sibling, Twin};
ghost use Rattle.tl_tree_select.specs.Inner.Kin.{AreKin, AreLinksOf, AreSiblingGroups, follows, is_read, is_same, links_of, needs, parent_link, sibling_group};
ghost use Rattle.tl_tree_select.specs.Inner.Links.{link_at};
ghost use Rattle.tl_tree_select.specs.Page.{Page, seen};

use crate::element::is_element_at;
use crate::group::previous;
use crate::links::NO_LINK;
use crate::page::Searched;
use crate::twin::twins;
use std::alloc::{AllocError, Global};
use tl_css::selector::{Link, Step, Way};

// Where the link of a row to its parent leads.
#[tactic(auto, using(crate::proofs::Trees::parent_fits))]
fn parent_link(page: &Searched<'_, '_>, number: usize) -> u32
    ensures { result ≡ parent_link (seen page.now) number }
{
    match page.tree.parent(number) {
        Some(parent) if is_element_at(page, parent) => parent as u32,
        _ => NO_LINK,
    }
}

/// A link from each row to its parent.
pub fn parents(alloc: Global, page: &Searched<'_, '_>) -> Result<Vec<u32>, AllocError>
    ensures { IfOk result (λ links. AreLinksOf (seen page.now) Parent links.items) }
{
    let mut links = Vec::with_capacity(alloc, page.tree.len())?;
    for number in 0..page.tree.len() {
        links.push(parent_link(page, number))?;
    }
    Ok(links)
}

// The number that tells siblings.
#[tactic(auto, using(crate::proofs::Trees::parent_fits))]
fn sibling_group(page: &Searched<'_, '_>, number: usize) -> u32
    ensures { result ≡ sibling_group (seen page.now) number }
{
    if !is_element_at(page, number) {
        return NO_LINK;
    }
    match page.tree.parent(number) {
        Some(parent) => parent as u32 + 1,
        None => 0,
    }
}

/// A group for each element, one for all that are siblings.
fn sibling_groups(alloc: Global, page: &Searched<'_, '_>) -> Result<Vec<u32>, AllocError>
    ensures { IfOk result (λ groups. AreSiblingGroups (seen page.now) groups.items) }
{
    let mut groups = Vec::with_capacity(alloc, page.tree.len())?;
    for number in 0..page.tree.len() {
        groups.push(sibling_group(page, number))?;
    }
    Ok(groups)
}

fn is_same(link: Link, other: Link) -> bool
    ensures { result ≡ is_same link other }
{
    match (link, other) {
        (Link::Parent, Link::Parent) => true,
        (Link::Sibling, Link::Sibling) => true,
        (Link::Twin, Link::Twin) => true,
        _ => false,
    }
}

/// Whether links of parents lead on from a row: these are read from the rows, and not kept.
pub fn is_read(way: Way, link: Link) -> bool
    ensures { result ≡ is_read way link }
{
    match (way, link) {
        (Way::From, Link::Parent) => true,
        _ => false,
    }
}

// Whether a step follows links of this kind that are kept.
fn follows(link: Link, step: &Step) -> bool
    ensures { result ≡ follows link step.now }
{
    match step {
        Step::Shift(way, own, _) => !is_read(*way, *own) && is_same(*own, link),
        Step::Count(_, own, _) => is_same(*own, link),
        _ => false,
    }
}

// Whether one of some steps does.
fn needs(steps: &[Step], link: Link) -> bool
    ensures { result ≡ needs steps.now link }
{
    for step in steps {
        if follows(link, step) {
            return true;
        }
    }
    false
}

// The links of siblings by their groups, if they are needed.
fn sibling_links(alloc: Global, groups: &[u32], needed: bool) -> Result<Vec<u32>, AllocError>
    requires few { (n : ℕ) → IfSome (link_at groups.now n) (λ g. g < length groups.now) }
    requires numbered { length groups.now < 2 ^ 32 }
    ensures { needed ≡ true → IfOk result (λ links. (page : Page)
        → AreSiblingGroups page groups.now → AreLinksOf page Sibling links.items) }
{
    if !needed {
        return Ok(Vec::new(alloc));
    }
    let links = previous(alloc, groups)?;
    Ok(links)
}

// The links of twins by the groups of siblings, if they are needed.
fn twin_links(
    alloc: Global,
    page: &Searched<'_, '_>,
    groups: &[u32],
    needed: bool,
) -> Result<Vec<u32>, AllocError>
    requires groups { AreSiblingGroups (seen page.now) groups.now }
    ensures { needed ≡ true → IfOk result
        (λ links. AreLinksOf (seen page.now) Twin links.items) }
{
    if !needed {
        return Ok(Vec::new(alloc));
    }
    let links = twins(alloc, page, groups)?;
    Ok(links)
}

// The links of parents, if they are needed.
fn parent_links(
    alloc: Global,
    page: &Searched<'_, '_>,
    needed: bool,
) -> Result<Vec<u32>, AllocError>
    ensures { needed ≡ true → IfOk result
        (λ links. AreLinksOf (seen page.now) Parent links.items) }
{
    if !needed {
        return Ok(Vec::new(alloc));
    }
    let links = parents(alloc, page)?;
    Ok(links)
}

/// Links between the rows of a page: those of the kinds that are needed, and else none.
#[derive(Drop)]
pub struct Kin {
    parents: Vec<u32>,
    siblings: Vec<u32>,
    twins: Vec<u32>,
}

impl Kin {
    pub fn links(&self, link: Link) -> &[u32]
        ensures { result.now ≡ links_of self.now link }
    {
        match link {
            Link::Parent => &self.parents,
            Link::Sibling => &self.siblings,
            Link::Twin => &self.twins,
        }
    }

    // Where no sibling is asked for.
    fn ancestry(alloc: Global, page: &Searched<'_, '_>, needed: bool) -> Result<Kin, AllocError>
        ensures { needed ≡ true → IfOk result
            (λ kin. AreLinksOf (seen page.now) Parent kin.parents.items) }
    {
        let parents = parent_links(alloc, page, needed)?;
        Ok(Kin {
            parents,
            siblings: Vec::new(alloc),
            twins: Vec::new(alloc),
        })
    }

    /// The links between the rows of a page that some steps follow.
    pub fn new(alloc: Global, page: &Searched<'_, '_>, steps: &[Step]) -> Result<Kin, AllocError>
        ensures { IfOk result (λ kin. AreKin (seen page.now) kin steps.now) }
    {
        let needs_siblings = needs(steps, Link::Sibling);
        let needs_twins = needs(steps, Link::Twin);
        let needs_parents = needs(steps, Link::Parent);
        if !needs_siblings && !needs_twins {
            let kin = Kin::ancestry(alloc, page, needs_parents)?;
            return Ok(kin);
        }
        let parents = parent_links(alloc, page, needs_parents)?;
        let groups = sibling_groups(alloc, page)?;
        let siblings = sibling_links(alloc, &groups, needs_siblings)?;
        let twins = twin_links(alloc, page, &groups, needs_twins)?;
        Ok(Kin {
            parents,
            siblings,
            twins,
        })
    }
}
