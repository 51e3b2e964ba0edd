//! The open tags: their names and classes.
//!
//! Names stand end to end in one list of bytes, so a push and a pop cost the length of the name.
ghost use Rattle.std.specs.Prelude.{IsTrue, reverse};
ghost use Rattle.tl_html_balance.specs.Names.{are_nested};

use crate::class;
use crate::tag_name::TagName;
use std::alloc::{AllocError, Global};

/// Where the name of an open tag begins, its classes, and those of it and all around it.
#[derive(Clone, Copy)]
pub(crate) struct OpenTag {
    pub(crate) start: usize,
    pub(crate) classes: u64,
    pub(crate) all_classes: u64,
}

/// The names of the open tags.
#[derive(Drop)]
pub struct OpenTags {
    pub(crate) names: Vec<u8>,
    pub(crate) tags: Vec<OpenTag>,
    ghost nested: { IsTrue (are_nested (reverse tags.items) names.items) },
}

impl OpenTags {
    ghost use Rattle.std.specs.Prelude.{◌≡◌, ◌<◌, ◌∷◌, [], false, OnOk, OnErr, drop, length, slice_get, slice_index_or};
    ghost use Rattle.std.specs.List.{list_any};
    ghost use Rattle.std.specs.Option.{option_map};
    ghost use Rattle.std.specs.Str.{bytes_eq};
    ghost use Rattle.tl_html_balance.specs.Classes.{classes_of, is};
    ghost use Rattle.tl_html_balance.specs.Names.{all_classes, end_at};
    ghost use Rattle.tl_html_balance.specs.View.{name_of, open_names};

    pub fn new(alloc: Global) -> OpenTags
        ensures { open_names result ≡ [] }
    {
        OpenTags {
            names: Vec::new(alloc),
            tags: Vec::new(alloc),
        }
    }

    /// How many tags are open.
    pub fn len(&self) -> usize
        ensures { result ≡ length (open_names self.now) }
    {
        self.tags.len()
    }

    /// The classes of the name at a place, counted from the innermost.
    pub(crate) fn classes(&self, place: usize) -> u64
        requires { place < length (open_names self.now) }
        ensures { result ≡ classes_of (slice_index_or (open_names self.now) place []) }
    {
        self.tags[self.tags.len() - 1 - place].classes
    }

    // The classes of all open tags.
    fn all_classes(&self) -> u64
        ensures { result ≡ all_classes (reverse self.now.tags.items) }
    {
        match self.tags.last() {
            Some(tag) => tag.all_classes,
            None => 0,
        }
    }

    /// Whether a name may have one of these classes, at a place counted from the innermost or
    /// further out. Where the answer is no, none has.
    pub(crate) fn may_have(&self, place: usize, wanted: u64) -> bool
        ensures { result ≡ false
            → list_any (is wanted) (drop place (open_names self.now)) ≡ false }
    {
        if place >= self.tags.len() {
            return false;
        }
        class::has(self.tags[self.tags.len() - 1 - place].all_classes, wanted)
    }

    /// The name at a place, counted from the innermost.
    pub fn name(&self, place: usize) -> Option<&[u8]>
        ensures { option_map (λ name. name.now) result ≡ slice_get (open_names self.now) place }
    {
        if place >= self.tags.len() {
            return None;
        }
        let start = self.tags[self.tags.len() - 1 - place].start;
        Some(&self.names[start..self.end(place)])
    }

    /// Whether a place has this name. Bytes are compared only where the classes are the same.
    pub(crate) fn has_name(&self, place: usize, name: &TagName<'_>) -> bool
        requires { place < length (open_names self.now) }
        ensures { result
            ≡ bytes_eq (name_of name.now) (slice_index_or (open_names self.now) place []) }
    {
        if self.classes(place) != name.classes {
            return false;
        }
        match self.name(place) {
            Some(own) => name.bytes == own,
            None => false,
        }
    }

    // Where the name at a place ends.
    fn end(&self, place: usize) -> usize
        requires { place < length (open_names self.now) }
        ensures { result ≡ end_at (reverse self.now.tags.items) self.now.names.items place }
    {
        if place == 0 {
            self.names.len()
        } else {
            self.tags[self.tags.len() - place].start
        }
    }

    /// Opens a tag.
    pub fn push(&mut self, name: &TagName<'_>) -> Result<(), AllocError>
        ensures ok { OnOk result (open_names self.new ≡ name_of name.now ∷ open_names self.old) }
        ensures err { OnErr result (open_names self.new ≡ open_names self.old) }
    {
        let start = self.names.len();
        let all_classes = self.all_classes();
        self.tags.reserve(1)?;
        self.names.extend_from_slice(name.bytes)?;
        self.tags.push_reserved(OpenTag {
            start,
            classes: name.classes,
            all_classes: name.classes | all_classes,
        });
        Ok(())
    }

    /// Closes so many of the innermost tags.
    pub fn close(&mut self, count: usize)
        ensures { open_names self.new ≡ drop count (open_names self.old) }
    {
        let left = self.tags.len().saturating_sub(count);
        if let Some(outermost) = self.tags.get(left) {
            let start = outermost.start;
            self.names.truncate(start);
            self.tags.truncate(left);
        }
    }
}
