//! The maps.
//!
//! They hold plain numbers (`u32`): of a list with room inline of a type parameter it can't be
//! shown that it fits into memory.
ghost use Rattle.std.specs.Prelude.{◌≡◌, ◌≢◌, List, ℕ, true, ◌∷◌, [], ◌++◌, length, is_some, OnOk, OnErr, Some, None, IsOk, IsSome, IfSome};
ghost use Rattle.tl_spec.specs.Tree.Document.{Node};
ghost use Rattle.tl_spec.specs.Lookup.Scan.{id_of, id_scan, class_scan};
ghost use Rattle.tl_tracking.specs.Tracking.{TracksIds, TracksMembers, TracksClasses, no_maps, ends_with, id_in, class_in, numbers_lent};

use crate::hasher::KeyedState;
use crate::options::ParserOptions;
use crate::postings::{Classes, Ids, add_member, keep_first};
use std::alloc::{AllocError, Global};
use std::collections::HashMap;
use std::marker::Model;
use tl_attributes::piece::Piece;

/// The number of the first tag of each id, and those of the tags of each member of classes, where
/// they are tracked.
#[derive(Debug)]
pub struct TrackingOf<B: Piece> {
    alloc: Global,
    // What the maps hash by.
    key: u64,
    ids: Option<Ids<B>>,
    classes: Option<Classes<B>>,
}

// By hand, so that a caller's proof has one step for a drop.
impl<B: Piece + Drop> Drop for TrackingOf<B> {
    fn drop(self) {
        let TrackingOf {
            alloc: _,
            key: _,
            ids: _,
            classes: _,
        } = self;
    }
}

impl<B: Piece> Model for TrackingOf<B> {
    ghost use Rattle.std.specs.Prelude.{◌≡◌, option_map};
    ghost use Rattle.std.specs.HashMap.{hasher_of};
    ghost use Rattle.std.specs.Option.{ForSome};
    ghost use Rattle.tl_tracking.specs.Hashing.{keyed_by};
    ghost use Rattle.tl_tracking.specs.Tracking.{Tracking, tracking_code};

    ghost Value = { Tracking B };

    ghost coded = { tracking_code B.code };

    ghost view = { λ t. record {
      ids = option_map (λ m. m.entries) t.ids;
      classes = option_map (λ m. m.entries) t.classes;
      key = t.key;
    } };

    ghost invariant = { λ t. ForSome t.ids (λ m. hasher_of m ≡ keyed_by t.key)
        × ForSome t.classes (λ m. hasher_of m ≡ keyed_by t.key) };
}

impl<B: Piece> TrackingOf<B> {
    /// Maps without tags, which answer as scans of no node do, as far as the options ask for them.
    /// They take no memory before the first tag.
    pub fn new(alloc: Global, options: ParserOptions) -> Self
        ensures value { result ≡ no_maps options 0 }
        ensures ids { TracksIds B.list B.eq result.ids [] }
        ensures classes { TracksClasses B.list B.eq result.classes [] }
    {
        TrackingOf::with_key(alloc, options, 0)
    }

    /// Nothing tracked yet, where names are hashed by a number. Whoever writes a text may not know
    /// the number before all names stand: with a number that they know they can choose names whose
    /// hashes meet, and each of these is looked for along all of them.
    pub fn with_key(alloc: Global, options: ParserOptions, key: u64) -> Self
        ensures value { result ≡ no_maps options key }
        ensures ids { TracksIds B.list B.eq result.ids [] }
        ensures classes { TracksClasses B.list B.eq result.classes [] }
    {
        TrackingOf {
            alloc,
            key,
            ids: if options.is_tracking_ids() {
                Some(HashMap::with_hasher(alloc, KeyedState::new(key)))
            } else {
                None
            },
            classes: if options.is_tracking_classes() {
                Some(HashMap::with_hasher(alloc, KeyedState::new(key)))
            } else {
                None
            },
        }
    }

    /// Whether ids are tracked.
    pub fn is_tracking_ids(&self) -> bool
        ensures { result ≡ is_some self.now.ids }
    {
        self.ids.is_some()
    }

    /// Whether classes are tracked.
    pub fn is_tracking_classes(&self) -> bool
        ensures { result ≡ is_some self.now.classes }
    {
        self.classes.is_some()
    }

    /// The number of the first tag with this id. `None` where there is none, and where ids are not
    /// tracked.
    pub fn id(&self, id: &B) -> Option<u32>
        ensures value { result ≡ id_in B.eq self.now.ids id.now }
        ensures scan { (nodes : List Node) → IsSome self.now.ids →
            TracksIds B.list B.eq self.now.ids nodes → result ≡ id_scan nodes (B.list id.now) }
    {
        self.ids.as_ref()?.get(id).copied()
    }

    /// The numbers of the tags with this member of their class, rising. `None` where there is none,
    /// and where classes are not tracked.
    pub fn class(&self, member: &B) -> Option<&[u32]>
        ensures value { numbers_lent result ≡ class_in B.eq self.now.classes member.now }
        ensures scan { (nodes : List Node) → IsSome self.now.classes →
            TracksClasses B.list B.eq self.now.classes nodes →
            numbers_lent result ≡ class_scan nodes (B.list member.now) }

        // An answer is never an empty list,
        ensures none { IfSome result (λ numbers. numbers.now ≢ []) }

        // so it is `None` for a member that no tag has,
        ensures unknown { class_in B.eq self.now.classes member.now ≡ [] → result ≡ None }

        // and for each where classes are not tracked.
        ensures untracked { self.now.classes ≡ None → result ≡ None }
    {
        let numbers = self.classes.as_ref()?.get(member)?.as_slice();
        if numbers.is_empty() {
            return None;
        }
        Some(numbers)
    }
}

impl<B: Piece + Drop> TrackingOf<B> {
    /// Notes the id of a tag. A tag that was noted before under this id stays.
    pub fn note_id(&mut self, id: B, number: u32) -> Result<(), AllocError>
        ensures noted { OnOk result ((nodes : List Node) (node : Node) →
            id_of node ≡ Some (B.list id) → number ≡ length nodes →
            TracksIds B.list B.eq self.old.ids nodes →
            TracksIds B.list B.eq self.new.ids (nodes ++ node ∷ [])) }
        ensures tracked { is_some self.new.ids ≡ is_some self.old.ids }
        ensures classes { self.new.classes ≡ self.old.classes }
        ensures key { self.new.key ≡ self.old.key }
        ensures err { OnErr result (self.new ≡ self.old) }

        // Where ids are not tracked a note takes no memory.
        ensures succeeds { self.old.ids ≡ None → IsOk result }

        // Nor does one of an id that is there,
        ensures known { IsSome (id_in B.eq self.old.ids id) → IsOk result }

        // and what is under an id stays.
        ensures kept { (key : B) (first : ℕ) →
            id_in B.eq self.old.ids key ≡ Some first → id_in B.eq self.new.ids key ≡ Some first }
    {
        let Some(ids) = &mut self.ids else {
            return Ok(());
        };
        keep_first(ids, id, number)
    }

    /// Notes one member of the class of a tag. A member that is noted again for this tag changes
    /// nothing.
    pub fn note_class(&mut self, member: B, number: u32) -> Result<(), AllocError>
        ensures noted { OnOk result ((nodes : List Node) (noted : List (List ℕ)) →
            number ≡ length nodes →
            TracksMembers B.list B.eq self.old.classes nodes noted →
            TracksMembers B.list B.eq self.new.classes nodes (noted ++ B.list member ∷ [])) }
        ensures tracked { is_some self.new.classes ≡ is_some self.old.classes }
        ensures ids { self.new.ids ≡ self.old.ids }
        ensures key { self.new.key ≡ self.old.key }
        ensures err { OnErr result (self.new ≡ self.old) }

        // Where classes are not tracked a note takes no memory.
        ensures succeeds { self.old.classes ≡ None → IsOk result }

        // Nor does one of a member that was noted last for this tag.
        ensures repeated { ends_with number (class_in B.eq self.old.classes member) ≡ true →
            IsOk result }
    {
        let Some(classes) = &mut self.classes else {
            return Ok(());
        };
        add_member(classes, self.alloc, member, number)
    }
}
