//! What a reader tracks beside the table of nodes.
ghost use Rattle.std.specs.Prelude.{◌≡◌, ◌↔◌, ◌≤◌, ◌||◌, true, IsSome, IfSome};
ghost use Rattle.tl_tracking.specs.Options.{untracked, raw_of};

use std::marker::Model;

/// How a text is read: whether tags can be looked up by their id, and by the members of their
/// class, without a scan.
#[derive(Clone, Copy, PartialEq, Eq, Debug)]
pub struct ParserOptions {
    ids: bool,
    classes: bool,
}

impl Model for ParserOptions {
    ghost use Rattle.tl_tracking.specs.Options.{Options};

    ghost Value = { Options };

    ghost view = { λ o. record { ids = o.ids; classes = o.classes } };

    ghost inverse = { λ o. record { ids = o.ids; classes = o.classes } };
}

impl ParserOptions {
    /// Options that track nothing.
    pub fn new() -> Self
        ensures { result ≡ untracked }
    {
        ParserOptions {
            ids: false,
            classes: false,
        }
    }

    /// The options of a number: bit 0 asks for ids, bit 1 for classes. `None` exactly where another
    /// bit is set.
    pub fn from_raw_checked(raw: u8) -> Option<Self>
        ensures some { IsSome result ↔ (raw ≤ 3) }
        ensures value { IfSome result (λ o. raw_of o ≡ raw) }
    {
        let options = ParserOptions::new();
        match raw {
            0 => Some(options),
            1 => Some(options.track_ids()),
            2 => Some(options.track_classes()),
            3 => Some(options.track_ids().track_classes()),
            _ => None,
        }
    }

    /// The number that `from_raw_checked` makes these options of.
    pub fn to_raw(&self) -> u8
        ensures { result ≡ raw_of self.now }
    {
        u8::from(self.ids) + 2 * u8::from(self.classes)
    }

    /// The same options, and ids are tracked.
    pub fn track_ids(self) -> Self
        ensures { result ≡ record self { ids = true } }
    {
        ParserOptions { ids: true, ..self }
    }

    /// The same options, and classes are tracked.
    pub fn track_classes(self) -> Self
        ensures { result ≡ record self { classes = true } }
    {
        ParserOptions {
            classes: true,
            ..self
        }
    }

    /// Whether ids are tracked.
    pub fn is_tracking_ids(&self) -> bool
        ensures { result ≡ self.now.ids }
    {
        self.ids
    }

    /// Whether classes are tracked.
    pub fn is_tracking_classes(&self) -> bool
        ensures { result ≡ self.now.classes }
    {
        self.classes
    }

    /// Whether anything is tracked.
    pub fn is_tracking(&self) -> bool
        ensures { result ≡ (self.now.ids || self.now.classes) }
    {
        self.is_tracking_ids() || self.is_tracking_classes()
    }
}

impl Default for ParserOptions {
    ghost is_default = { λ o. o ≡ untracked };

    fn default() -> Self {
        ParserOptions::new()
    }
}
