//! The attributes of tags, in lists of which each only grows.
//!
//! The attributes of a tag stand side by side, and most of them in one list. `html` and `body` get
//! more attributes by later tags. Where they do they have a list each, so that what is added stands
//! behind what is there, and nothing is copied but once. The keys of these have their places in a
//! map, whose order nobody can aim at.
//!
//! Others may rely on this: a key that has no place is in no attribute of the list
//! (`AreBothPlaced`).
ghost use Rattle.std.specs.List.{list_all};
ghost use Rattle.std.specs.Prelude.{IsTrue, List, OnOk, [], length, ℕ, ◌++◌, ◌<◌, ◌^◌, ◌∷◌, ◌≡◌};
ghost use Rattle.tl_tree.specs.Inner.Placing.{has_place, is_one_more};
ghost use Rattle.tl_tree.specs.declared.entries.AttributeEntry.{AttributeEntry};

use crate::entries::{AttributeEntry, AttributeList};
use crate::error::GrowError;
use std::alloc::{AllocError, Global};
use std::collections::BTreeMap;

#[derive(Drop)]
pub(crate) struct AttributeLists {
    pub(crate) tags: Vec<AttributeEntry>,
    pub(crate) html: Vec<AttributeEntry>,
    pub(crate) body: Vec<AttributeEntry>,
    /// Where the attributes of keys may stand.
    html_places: BTreeMap<Vec<u8>, u32>,
    body_places: BTreeMap<Vec<u8>, u32>,
    ghost few_of_tags: { length tags.items < 2 ^ 32 },
    ghost few_of_html: { length html.items < 2 ^ 32 },
    ghost few_of_body: { length body.items < 2 ^ 32 },
}

// An attribute of a key comes behind others, and the key gets that place. Few pages ask for it.
#[inline(never)]
fn push_placed(
    attributes: &mut Vec<AttributeEntry>,
    places: &mut BTreeMap<Vec<u8>, u32>,
    alloc: Global,
    attribute: AttributeEntry,
    key: &[u8],
) -> Result<(), AllocError>
    requires { length attributes.old.items < 2 ^ 32 }
    ensures stands { OnOk result
        (attributes.new.items ≡ attributes.old.items ++ attribute ∷ []) }
    ensures one_more { is_one_more attribute attributes.old.items attributes.new.items }
    ensures placed { (key_of : AttributeEntry → List ℕ) → key_of attribute ≡ key.now
        → IsTrue (list_all (has_place places.old.entries key_of) attributes.old.items)
        → IsTrue (list_all (has_place places.new.entries key_of) attributes.new.items) }
{
    let own = key.to_vec(alloc)?;
    places.insert(own, attributes.len() as u32)?;
    attributes.push(attribute)?;
    Ok(())
}

impl AttributeLists {
    ghost use Rattle.std.specs.List.{list_any};
    ghost use Rattle.std.specs.Prelude.{Err, IfOk, None, false, ◌+◌, ◌≤◌};
    ghost use Rattle.std.specs.Str.{bytes_eq};
    ghost use Rattle.tl_tree.specs.Inner.Lists.{AreBothPlaced, AreOneMore, in_list};
    ghost use Rattle.tl_tree.specs.declared.entries.AttributeList.{AttributeList};

    /// Nothing yet, with room for so many attributes of tags.
    pub(crate) fn new(alloc: Global, room: usize) -> Result<AttributeLists, AllocError>
        ensures { IfOk result (λ lists. (list : AttributeList) → in_list lists list ≡ []) }
    {
        Ok(AttributeLists {
            tags: Vec::with_capacity(alloc, room)?,
            html: Vec::new(alloc),
            body: Vec::new(alloc),
            html_places: BTreeMap::new(alloc),
            body_places: BTreeMap::new(alloc),
        })
    }

    /// The attributes of a list.
    pub(crate) fn list(&self, list: AttributeList) -> &[AttributeEntry]
        ensures { result.now ≡ in_list self.now list }
    {
        match list {
            AttributeList::Tags => self.tags.as_slice(),
            AttributeList::Html => self.html.as_slice(),
            AttributeList::Body => self.body.as_slice(),
        }
    }

    /// How many attributes are in a list, which is the number of the next one.
    pub(crate) fn count(&self, list: AttributeList) -> u32
        ensures { result ≡ length (in_list self.now list) }
    {
        self.list(list).len() as u32
    }

    /// Where an attribute of a key may stand in a list, where there may be one.
    pub(crate) fn place(&self, list: AttributeList, key: &[u8]) -> Option<u32>
        ensures { result ≡ None → (key_of : AttributeEntry → List ℕ) → AreBothPlaced key_of self.now
            → list_any (λ a. bytes_eq (key_of a) key.now) (in_list self.now list) ≡ false }
    {
        match list {
            AttributeList::Tags => Some(0),
            AttributeList::Html => self.html_places.get(key).copied(),
            AttributeList::Body => self.body_places.get(key).copied(),
        }
    }

    /// Puts an attribute of a key behind those of a list.
    pub(crate) fn add(
        &mut self,
        alloc: Global,
        list: AttributeList,
        attribute: AttributeEntry,
        key: &[u8],
    ) -> Result<(), GrowError>
        ensures stands { OnOk result
            (in_list self.new list ≡ in_list self.old list ++ attribute ∷ []) }
        ensures lists { AreOneMore self.old self.new attribute }
        ensures placed { (key_of : AttributeEntry → List ℕ) → key_of attribute ≡ key.now
            → AreBothPlaced key_of self.old → AreBothPlaced key_of self.new }
        ensures too_large { result ≡ Err GrowError.TooLarge
            → 2 ^ 32 ≤ length (in_list self.old list) + 1 }
    {
        if self.count(list) == u32::MAX {
            return Err(GrowError::TooLarge);
        }
        match list {
            AttributeList::Tags => self.tags.push(attribute)?,
            AttributeList::Html => {
                push_placed(&mut self.html, &mut self.html_places, alloc, attribute, key)?
            }
            AttributeList::Body => {
                push_placed(&mut self.body, &mut self.body_places, alloc, attribute, key)?
            }
        }
        Ok(())
    }
}
