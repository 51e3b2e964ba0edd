//! What a terminal gets beside what is asked for: colours, and how far the work is.
use std::env;
use std::env::VarError;
use std::io::IsTerminal;
use std::time::Instant;

// So many files take a while.
const MANY_FILES: usize = 100;

// A page of so many bytes takes a while.
const LONG_PAGE: usize = 33_554_432;

// A megabyte.
const MEGABYTE: usize = 1_000_000;

/// What standard output and standard error get where they are terminals.
#[derive(Clone, Copy)]
pub struct Terminal {
    // Whether names of files have colours.
    has_colors: bool,
    // When the work began, where it is shown how far it is.
    start: Option<Instant>,
}

// Whether a variable of the environment says something.
fn is_set(rt: &HostRuntime, name: &str) -> bool {
    match env::var(rt, name) {
        Ok(value) => !value.is_empty(),
        Err(VarError::NotPresent) => false,
        Err(_) => true,
    }
}

// Whether the terminal takes more than text.
fn takes_escapes(rt: &HostRuntime) -> bool {
    match env::var(rt, "TERM") {
        Ok(name) => name.as_str() != "dumb",
        Err(_) => false,
    }
}

impl Terminal {
    /// That of the program: colours where standard output is a terminal and `NO_COLOR` says
    /// nothing, and how far the work is where standard error is one.
    pub fn new(rt: &HostRuntime) -> Self {
        if !takes_escapes(rt) {
            return Terminal {
                has_colors: false,
                start: None,
            };
        }
        let start = if rt.stderr().is_terminal() {
            Instant::now(rt).ok()
        } else {
            None
        };
        Terminal {
            has_colors: rt.stdout().is_terminal() && !is_set(rt, "NO_COLOR"),
            start,
        }
    }

    /// What stands before the name of a file, behind it, and behind the colon after it.
    pub fn name_colors(&self) -> [&'static str; 3] {
        if self.has_colors {
            ["\x1b[35m", "\x1b[0m\x1b[36m", "\x1b[0m"]
        } else {
            ["", "", ""]
        }
    }

    // Whether more than a second has passed.
    fn takes_long(&self, rt: &HostRuntime) -> bool {
        match self.start {
            Some(start) => start.elapsed(rt).is_ok_and(|time| time.as_secs() > 0),
            None => false,
        }
    }

    /// Says which file is done, where there are many or they take more than a second. It is
    /// written behind what stands on the line, and the cursor goes back.
    pub fn show_file(&self, rt: &HostRuntime, done: usize, files: usize) {
        if self.start.is_none() || files <= MANY_FILES && !self.takes_long(rt) {
            return;
        }
        let number = done.saturating_add(1);
        let _ = eprint!(rt; "\x1b7\x1b[Ktl: file {number} of {files}\x1b8");
    }

    /// Says how long the page is that is done, where it takes a while.
    pub fn show_page(&self, rt: &HostRuntime, bytes: usize) {
        if self.start.is_none() || bytes < LONG_PAGE {
            return;
        }
        let megabytes = bytes / MEGABYTE;
        let _ = eprint!(rt; "\x1b7\x1b[Ktl: a page of {megabytes} MB\x1b8");
    }

    /// Takes away what was said so, before anything else is written.
    pub fn clear(&self, rt: &HostRuntime) {
        if self.start.is_some() {
            let _ = eprint!(rt; "\x1b[K");
        }
    }
}
