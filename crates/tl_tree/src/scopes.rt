//! How far in the innermost element of a kind or of a name may stand, and where the element of a
//! number does: so a search of the stack of open elements begins where it may find something.
//!
//! Others may rely on this: which elements were entered (`entered`), the outermost first, and that
//! from a limit on none of them is of the kind or of the name. A limit may lie further in than it
//! has to.
//!
//! An entry keeps the limits that stood before it came, so they are there again once it goes. Each
//! call takes the same time however many elements there are, but for those that a cut takes away.
ghost use Rattle.std.specs.List.{list_all};
ghost use Rattle.std.specs.Prelude.{IsTrue, OnOk, drop, length, slice_index, ℕ, ◌<◌, ◌≡◌, ◌≢◌, ◌≤◌};
ghost use Rattle.tl_tree.specs.Inner.Roles.{is_elsewhere, is_not_of};
ghost use Rattle.tl_tree.specs.Inner.Scoped.{elements, has_name, is_name_kept, is_limit_kept, limit_at, numbers, raised, skips};
ghost use Rattle.tl_tree.specs.declared.role.Kind.{Kind};

use crate::error::GrowError;
use crate::role::{Entered, Kind, Role};
use std::alloc::Global;

/// From which place on no element is of a kind.
#[derive(Clone, Copy)]
struct Limits {
    scope: u32,
    item_bound: u32,
    special: u32,
    decisive: u32,
    html: u32,
}

/// An element, with the limits before it came.
#[derive(Clone, Copy)]
struct Entry {
    own: Entered,
    limits: Limits,
    /// The limit of its name.
    name: u32,
}

/// The elements of the outermost frames of a path, as they were entered.
#[derive(Drop)]
pub(crate) struct Scopes {
    entries: Vec<Entry>,
    limits: Limits,
    /// The limits of names, by their numbers. That of one that isn't there is 0.
    names: Vec<u32>,
    /// The place of each element, by its number. Of other numbers it says nothing.
    places: Vec<u32>,
    ghost named: { IsTrue (list_all (has_name (length names.items)) entries.items) },
    ghost limited: { (kind : Kind) → IsTrue
        (skips (is_not_of kind) (limit_at kind limits) (elements entries.items)) },
    ghost sought: { (name : ℕ) → IsTrue
        (skips (is_elsewhere name) (slice_index names.items name) (elements entries.items)) },
    ghost limits_kept: { (kind : Kind) → IsTrue (is_limit_kept kind entries.items) },
    ghost names_kept: { IsTrue (is_name_kept entries.items) },
    ghost numbered: { (place : ℕ) → place < length entries.items
        → slice_index (numbers entries.items) place < length places.items },
    ghost placed: { (place : ℕ) → place < length entries.items
        → slice_index places.items (slice_index (numbers entries.items) place) ≡ place },
}

impl Limits {
    fn of(self, kind: Kind) -> u32
        ensures { result ≡ limit_at kind self }
    {
        match kind {
            Kind::Scope => self.scope,
            Kind::ItemBound => self.item_bound,
            Kind::Special => self.special,
            Kind::Decisive => self.decisive,
            Kind::Html => self.html,
        }
    }

    // The limits once an element is entered, which are its end where it is of the kind.
    fn raised(self, role: Role, end: u32) -> Limits
        ensures { result ≡ raised self role end }
    {
        Limits {
            scope: if role.is_scope { end } else { self.scope },
            item_bound: if role.is_item_bound {
                end
            } else {
                self.item_bound
            },
            special: if role.is_special { end } else { self.special },
            decisive: if role.is_decisive { end } else { self.decisive },
            html: if role.is_html { end } else { self.html },
        }
    }
}

// More zeros are put behind numbers, until there is one at a place.
fn lengthen(numbers: &mut Vec<u32>, place: u32) -> Result<(), GrowError>
    ensures within { OnOk result (place < length numbers.new.items) }
    ensures longer { length numbers.old.items ≤ length numbers.new.items }
    ensures same { (n : ℕ) → slice_index numbers.new.items n ≡ slice_index numbers.old.items n }
{
    while numbers.len() <= place as usize {
        numbers.push(0)?;
    }
    Ok(())
}

// The place of a number is set, and those of other numbers stay.
fn set_place(places: &mut Vec<u32>, number: u32, place: u32) -> Result<(), GrowError>
    ensures within { OnOk result (number < length places.new.items) }
    ensures own { OnOk result (slice_index places.new.items number ≡ place) }
    ensures longer { length places.old.items ≤ length places.new.items }
    ensures others { (n : ℕ) → n < length places.old.items → n ≢ number
        → slice_index places.new.items n ≡ slice_index places.old.items n }
{
    lengthen(places, number)?;
    places[number as usize] = place;
    Ok(())
}

impl Scopes {
    ghost use Rattle.std.specs.List.{list_any};
    ghost use Rattle.std.specs.Prelude.{IfSome, IsErr, None, Some, [], false, map, slice_get, take, true, ◌+◌, ◌++◌, ◌-◌, ◌∷◌};
    ghost use Rattle.tl_tree.specs.Inner.Entered.{entered, replaced, turned};
    ghost use Rattle.tl_tree.specs.Inner.Roles.{is_numbered, is_within};

    /// No element.
    pub(crate) fn new(alloc: Global) -> Scopes
        ensures { entered result ≡ [] }
    {
        Scopes {
            entries: Vec::new(alloc),
            limits: Limits {
                scope: 0,
                item_bound: 0,
                special: 0,
                decisive: 0,
                html: 0,
            },
            names: Vec::new(alloc),
            places: Vec::new(alloc),
        }
    }

    /// How many elements were entered.
    #[tactic(auto, unfolding(crate::specs::Inner::Entered::entered))]
    pub(crate) fn len(&self) -> usize
        ensures { result ≡ length (entered self.now) }
    {
        self.entries.len()
    }

    /// An element comes onto the path.
    #[inline(always)]
    pub(crate) fn enter(&mut self, own: Entered) -> Result<(), GrowError>
        requires { list_any (is_numbered own.number) (entered self.old) ≡ false }
        ensures ok { OnOk result (entered self.new ≡ entered self.old ++ own ∷ []) }
        ensures err { IsErr result → entered self.new ≡ entered self.old }
    {
        let place = self.entries.len();
        if place >= u32::MAX as usize {
            return Err(GrowError::TooLarge);
        }
        set_place(&mut self.places, own.number, place as u32)?;
        lengthen(&mut self.names, own.role.name)?;
        let name = own.role.name as usize;
        self.entries.push(Entry {
            own,
            limits: self.limits,
            name: self.names[name],
        })?;
        let end = place as u32 + 1;
        self.limits = self.limits.raised(own.role, end);
        self.names[name] = end;
        Ok(())
    }

    // The innermost element goes, and the limits are those before it came.
    fn leave(&mut self)
        ensures { entered self.new
            ≡ take (length (entered self.old) - 1) (entered self.old) }
    {
        let Some(last) = self.entries.pop() else {
            return;
        };
        self.limits = last.limits;
        self.names[last.own.role.name as usize] = last.name;
    }

    /// So many elements stay.
    pub(crate) fn cut(&mut self, len: usize)
        ensures { entered self.new ≡ take len (entered self.old) }
    {
        while self.len() > len {
            self.leave();
        }
    }

    /// From which place on no element is of a kind.
    pub(crate) fn limit(&self, kind: Kind) -> usize
        ensures within { result ≤ length (entered self.now) }
        ensures skips { IsTrue (list_all (is_not_of kind) (drop result (entered self.now))) }
    {
        (self.limits.of(kind) as usize).min(self.len())
    }

    /// From which place on no element has the name of a number.
    pub(crate) fn limit_of(&self, name: u32) -> usize
        ensures within { result ≤ length (entered self.now) }
        ensures skips { IsTrue (list_all (is_elsewhere name) (drop result (entered self.now))) }
    {
        if name as usize >= self.names.len() {
            return 0;
        }
        (self.names[name as usize] as usize).min(self.len())
    }

    /// The place of the element of a number.
    pub(crate) fn place_of(&self, number: u32) -> Option<usize>
        ensures some { IfSome result
            (λ place. slice_get (map (λ entered. entered.number) (entered self.now)) place
            ≡ Some number) }
        ensures none { result ≡ None
            → list_any (is_numbered number) (entered self.now) ≡ false }
    {
        let index = number as usize;
        if index >= self.places.len() {
            return None;
        }
        let place = self.places[index] as usize;
        if place >= self.entries.len() || self.entries[place].own.number != number {
            return None;
        }
        Some(place)
    }

    // Whether the limits that entries further in keep hold once a new element stands right outside
    // of them. Such a limit may end right there, and pass over it: so it is to be of no kind that
    // the element outside of it isn't of, and none further in is to have its name.
    fn can_turn(&self, place: usize, inside: Role, new: Role) -> bool
        ensures short { result ≡ true → place + 2 < 4294967296 }
        ensures kinds { result ≡ true → is_within new inside ≡ true }
        ensures name { result ≡ true
            → slice_index self.now.names.items new.name ≤ place + 2 }
        ensures within { result ≡ true → new.name < length self.now.names.items }
    {
        place < u32::MAX as usize - 1
            && new.is_within(inside)
            && (new.name as usize) < self.names.len()
            && self.names[new.name as usize] as usize <= place + 2
    }

    /// The element at a place leaves; the next one stands there, and a new one right inside of it,
    /// with what was inside of that. So many are known as can be.
    #[tactic(auto, unfolding(crate::specs::Inner::Entered::entered))]
    pub(crate) fn turn(&mut self, place: usize, new: Entered)
        requires within { place + 1 < length (entered self.old) }
        requires new { list_any (is_numbered new.number) (entered self.old) ≡ false }
        ensures { entered self.new
            ≡ take (length (entered self.new)) (turned place new (entered self.old)) }
    {
        let gone = self.entries[place];
        let inside = self.entries[place + 1];
        if !self.can_turn(place, inside.own.role, new.role) {
            self.cut(place);
            return;
        }
        let middle = place as u32 + 1;
        // Without memory for its place less is known, which is no error.
        let Ok(()) = set_place(&mut self.places, new.number, middle) else {
            self.cut(place);
            return;
        };
        self.entries[place] = Entry {
            own: inside.own,
            limits: gone.limits,
            name: inside.name,
        };
        self.entries[place + 1] = Entry {
            own: new,
            limits: gone.limits.raised(inside.own.role, middle),
            name: middle,
        };
        self.places[inside.own.number as usize] = place as u32;
        self.names[new.role.name as usize] = place as u32 + 2;
    }

    /// The element at a place leaves, and a new one stands there, which is to searches what the
    /// next one is. So many are known as can be.
    #[tactic(auto, unfolding(crate::specs::Inner::Entered::entered))]
    pub(crate) fn replace(&mut self, place: usize, number: u32)
        requires within { place + 1 < length (entered self.old) }
        requires new { list_any (is_numbered number) (entered self.old) ≡ false }
        ensures { entered self.new
            ≡ take (length (entered self.new)) (replaced place number (entered self.old)) }
    {
        let gone = self.entries[place];
        let inside = self.entries[place + 1];
        if place >= u32::MAX as usize {
            self.cut(place);
            return;
        }
        // Without memory for its place less is known, which is no error.
        let Ok(()) = set_place(&mut self.places, number, place as u32) else {
            self.cut(place);
            return;
        };
        let role = inside.own.role;
        let middle = place as u32 + 1;
        self.entries[place] = Entry {
            own: Entered { number, role },
            limits: gone.limits,
            name: inside.name,
        };
        self.entries[place + 1] = Entry {
            own: inside.own,
            limits: gone.limits.raised(role, middle),
            name: middle,
        };
    }
}
