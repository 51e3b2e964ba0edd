//! The words of commands that are no options.
use clap::{Arg, Command};
use std::alloc::{AllocError, Global};

/// A word of a command.
pub struct Word {
    pub name: &'static str,
    pub help: &'static str,
}

// That of `remove`, unless comments are meant.
pub static ELEMENT_SELECTOR: Word = Word {
    name: "SELECTOR",
    help: "CSS selector, as for select",
};

const TAG_SELECTOR: Word = Word {
    name: "SELECTOR",
    help: "CSS selector, as for select",
};

const KEY: Word = Word {
    name: "ATTRIBUTE",
    help: "Name of the attribute, in any case",
};

// The words of `select`.
pub static NODES: [Word; 1] = [Word {
    name: "SELECTOR",
    help: "CSS selector",
}];

// Those of `unset`, and of `set`.
pub static TAGS_AND_KEY: [Word; 2] = [TAG_SELECTOR, KEY];

// That of `set` which isn't there where an option says how the value is made.
pub static VALUE: Word = Word {
    name: "VALUE",
    help: "The new value; leave it out if an option makes it",
};

// Those of commands that change elements.
pub static ELEMENTS: [Word; 1] = [TAG_SELECTOR];

pub static ELEMENTS_AND_NAME: [Word; 2] = [
    TAG_SELECTOR,
    Word {
        name: "NAME",
        help: "Name of the element, in any case",
    },
];

pub static ELEMENTS_AND_TEXT: [Word; 2] = [
    TAG_SELECTOR,
    Word {
        name: "TEXT",
        help: "Text to put in; @FILE reads it from FILE",
    },
];

impl Word {
    /// It as an argument.
    pub fn argument<'w>(&self, alloc: Global) -> Arg<'w> {
        Arg::new(alloc, self.name).help(self.help)
    }
}

/// A command with these words, which have to be there.
pub fn with_words<'w>(
    alloc: Global,
    command: Command<'w>,
    words: &[Word],
) -> Result<Command<'w>, AllocError> {
    let mut all = command;
    for word in words {
        all = all.arg(word.argument(alloc).required(true))?;
    }
    Ok(all)
}
