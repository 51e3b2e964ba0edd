//! Entries of the list of active formatting elements.
ghost use Rattle.std.specs.Prelude.{cond, ◌+◌, ◌<◌, ◌^◌, ◌≡◌};

/// An entry: an element by its number and its tag, or a marker.
#[derive(Clone, Copy)]
pub(crate) enum Entry {
    Marker,
    Formatting { number: u32, tag: u32 },
}

/// An element that was found in the list.
#[derive(Clone, Copy)]
pub(crate) struct Listed {
    pub(crate) number: u32,
    pub(crate) tag: u32,
}

/// How many elements are alike, and where the earliest of them is listed.
#[derive(Clone, Copy)]
pub(crate) struct Alike {
    pub(crate) count: usize,
    pub(crate) earliest: usize,
}

impl Entry {
    ghost use Rattle.tl_tree.specs.Inner.ActiveWithin.{is_of};

    /// Whether it is the entry of this number.
    pub(crate) fn is_of(self, number: u32) -> bool
        ensures { result ≡ is_of number self }
    {
        match self {
            Entry::Marker => false,
            Entry::Formatting { number: own, .. } => own == number,
        }
    }
}

impl Alike {
    /// With an earlier entry, which may be alike too.
    pub(crate) fn with(self, is_alike: bool, place: usize) -> Alike
        requires { self.count + 1 < 2 ^ 64 }
        ensures { result
            ≡ cond is_alike (record { count = self.count + 1; earliest = place }) self }
    {
        if !is_alike {
            return self;
        }
        Alike {
            count: self.count + 1,
            earliest: place,
        }
    }
}
