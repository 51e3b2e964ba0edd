//! What is told of changes, beside the pages.
ghost use Rattle.std.specs.Prelude.{◌&&◌, ◌==◌, ◌≡◌, if◌then◌else◌};

use crate::reports::NOTHING;

/// What is told of changes.
#[derive(Clone, Copy)]
pub struct Tellings {
    /// What changes is written as a diff, and no page.
    pub has_diff: bool,
    /// How many places each page has is said on standard error.
    pub is_verbose: bool,
    /// That nothing is found is no failure.
    pub is_ok: bool,
    /// What can't be changed is told and passed over.
    pub is_skipping: bool,
}

impl Tellings {
    /// The status, where this is the one of all pages.
    pub fn status(&self, status: u8) -> u8
        ensures { result ≡ (if self.now.is_ok && status == 1 then 0 else status) }
    {
        if self.is_ok && status == NOTHING {
            0
        } else {
            status
        }
    }
}

/// Says on standard error how many places of a page are changed.
pub fn tell_places(rt: &HostRuntime, file: &str, places: usize) {
    let word = if places == 1 { "place" } else { "places" };
    let _ = eprintln!(rt; "tl: {file}: {places} {word}");
}
