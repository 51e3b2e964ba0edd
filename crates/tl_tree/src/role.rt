//! What an element is to searches of the stack of open elements.
ghost use Rattle.std.specs.Prelude.{◌≡◌};
ghost use Rattle.tl_names.specs.ElementNames.{name_of};
ghost use Rattle.tl_tree.specs.Inner.Roles.{is_within, role_of};
ghost use Rattle.tl_tree.specs.Inner.Store.{bytes_of, tag_of};
ghost use Rattle.tl_tree.specs.declared.store.Store.{Store};

use crate::entries::TagEntry;
use crate::test::{is_decisive, is_item_bound, is_scope, is_special};

/// What a search may look for, or be bounded by. A `search` element counts as special.
#[derive(Clone, Copy)]
pub(crate) enum Kind {
    Scope,
    ItemBound,
    Special,
    /// What may decide the insertion mode.
    Decisive,
    Html,
}

/// Of which kinds an element is, and the number of its name in any case.
#[derive(Clone, Copy)]
pub(crate) struct Role {
    pub(crate) is_scope: bool,
    pub(crate) is_item_bound: bool,
    pub(crate) is_special: bool,
    pub(crate) is_decisive: bool,
    pub(crate) is_html: bool,
    pub(crate) name: u32,
}

/// An element that came onto the path.
#[derive(Clone, Copy)]
pub(crate) struct Entered {
    pub(crate) number: u32,
    pub(crate) role: Role,
}

impl Role {
    /// Whether it is of no kind that another isn't of.
    pub(crate) fn is_within(self, other: Role) -> bool
        ensures { result ≡ is_within self other }
    {
        (!self.is_scope || other.is_scope)
            && (!self.is_item_bound || other.is_item_bound)
            && (!self.is_special || other.is_special)
            && (!self.is_decisive || other.is_decisive)
            && (!self.is_html || other.is_html)
    }
}

/// What elements of a tag are.
pub(crate) fn role_of(tag: TagEntry) -> Role
    ensures { (s : Store) → tag.known ≡ name_of (bytes_of s tag.name)
        → result ≡ role_of (tag_of s tag) tag.number }
{
    Role {
        is_scope: is_scope(tag.space, tag.known),
        is_item_bound: is_item_bound(true, tag.space, tag.known),
        is_special: is_special(true, tag.space, tag.known),
        is_decisive: is_decisive(tag.space, tag.known),
        is_html: tag.space.is_html(),
        name: tag.number,
    }
}
