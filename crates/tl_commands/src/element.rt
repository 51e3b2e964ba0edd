//! The commands that change elements.
use crate::flag::{HTML, REMOVED_COMMENTS};
use crate::word::{
    ELEMENT_SELECTOR, ELEMENTS, ELEMENTS_AND_NAME, ELEMENTS_AND_TEXT, Word, with_words,
};
use clap::Command;
use std::alloc::{AllocError, Global};

/// A command that changes the elements where a selector holds.
#[derive(Clone, Copy, PartialEq, Eq)]
pub enum ElementVerb {
    Rename,
    Remove,
    Unwrap,
    Replace,
    Fill,
    Prepend,
    Append,
    Before,
    After,
}

impl ElementVerb {
    /// Its word.
    pub fn word<'w>(self) -> &'w str {
        match self {
            ElementVerb::Rename => "rename",
            ElementVerb::Remove => "remove",
            ElementVerb::Unwrap => "unwrap",
            ElementVerb::Replace => "replace",
            ElementVerb::Fill => "fill",
            ElementVerb::Prepend => "prepend",
            ElementVerb::Append => "append",
            ElementVerb::Before => "before",
            ElementVerb::After => "after",
        }
    }

    /// What it does.
    pub fn about<'w>(self) -> &'w str {
        match self {
            ElementVerb::Rename => "Rename matching elements",
            ElementVerb::Remove => "Remove matching elements",
            ElementVerb::Unwrap => "Remove the tags of matching elements, and keep what is inside",
            ElementVerb::Replace => "Replace matching elements by a text",
            ElementVerb::Fill => "Replace what is inside matching elements by a text",
            ElementVerb::Prepend => "Put a text first in each matching element",
            ElementVerb::Append => "Put a text last in each matching element",
            ElementVerb::Before => "Put a text before each matching element",
            ElementVerb::After => "Put a text after each matching element",
        }
    }

    /// What stands below its options in its help.
    pub fn notes<'w>(self) -> &'w str {
        match self {
            ElementVerb::Rename => RENAMES,
            ElementVerb::Remove => REMOVALS,
            ElementVerb::Unwrap => UNWRAPPED,
            ElementVerb::Replace => REPLACEMENTS,
            ElementVerb::Fill => FILLINGS,
            ElementVerb::Prepend => FIRST_IN,
            ElementVerb::Append => LAST_IN,
            ElementVerb::Before => IN_FRONT,
            ElementVerb::After => BEHIND,
        }
    }

    // Its words before the files that have to be there.
    fn words(self) -> &'static [Word] {
        match self {
            ElementVerb::Rename => &ELEMENTS_AND_NAME,
            ElementVerb::Remove => &[],
            ElementVerb::Unwrap => &ELEMENTS,
            _ => &ELEMENTS_AND_TEXT,
        }
    }

    /// A command with its words before the files.
    pub fn with_words<'w>(
        self,
        alloc: Global,
        command: Command<'w>,
    ) -> Result<Command<'w>, AllocError> {
        let command = with_words(alloc, command, self.words())?;
        match self {
            ElementVerb::Rename | ElementVerb::Unwrap => Ok(command),
            ElementVerb::Remove => with_comments(alloc, command),
            _ => command.arg(HTML.argument(alloc)?),
        }
    }
}

// A command with a selector, unless comments are meant.
fn with_comments<'w>(alloc: Global, command: Command<'w>) -> Result<Command<'w>, AllocError> {
    let selector = ELEMENT_SELECTOR.argument(alloc);
    let comments = REMOVED_COMMENTS.argument(alloc)?;
    command
        .arg(selector.required_unless_present("comments")?)?
        .arg(
            comments
                .num_args(0..=1)
                .require_equals(true)
                .default_missing_value(""),
        )
}

const RENAMES: &str = "\
Example:
  tl rename -i center div *.html          replace the obsolete <center>

Attributes stay, and so does the content. A missing end tag is put in.
Nothing else in the page changes. A page that can't be edited this way is left
as it is, with an error that says why. If nothing matches, no file is written
and the exit status is 1.";

const REMOVALS: &str = "\
Example:
  tl remove -i script *.html              remove all scripts
  tl remove -i --comments='\\[if ' *.html  remove conditional comments

Nothing else in the page changes. A page that can't be edited this way is left
as it is, with an error that says why. If nothing matches, no file is written
and the exit status is 1.";

const UNWRAPPED: &str = "\
Example:
  tl unwrap -i font *.html                remove <font>, and keep what is inside

Where a missing end tag would let the content run on, it is put in.
Nothing else in the page changes. A page that can't be edited this way is left
as it is, with an error that says why. If nothing matches, no file is written
and the exit status is 1.";

const REPLACEMENTS: &str = "\
Example:
  tl replace --html 'br + br' '<hr>' a.html    a rule instead of a second break

TEXT is escaped, but with --html.
Nothing else in the page changes. A page that can't be edited this way is left
as it is, with an error that says why. If nothing matches, no file is written
and the exit status is 1.";

const FILLINGS: &str = "\
Example:
  tl fill -i title 'News & more' *.html   set a new title

TEXT is escaped, but with --html. In a script or style it is put in as it is, or
refused. A missing end tag is put in.
Nothing else in the page changes. A page that can't be edited this way is left
as it is, with an error that says why. If nothing matches, no file is written
and the exit status is 1.";

const FIRST_IN: &str = "\
Example:
  tl prepend --html -i head '<meta charset=utf-8>' *.html   declare UTF-8

TEXT is escaped, but with --html.
Nothing else in the page changes. A page that can't be edited this way is left
as it is, with an error that says why. If nothing matches, no file is written
and the exit status is 1.";

const LAST_IN: &str = "\
Example:
  tl append --html -i footer '<hr>' *.html     a rule at the end of each footer

TEXT is escaped, but with --html. A missing end tag is put in.
Nothing else in the page changes. A page that can't be edited this way is left
as it is, with an error that says why. If nothing matches, no file is written
and the exit status is 1.";

const IN_FRONT: &str = "\
Example:
  tl before --html h1 '<p>Draft</p>' a.html    a note before the heading

TEXT is escaped, but with --html.
Nothing else in the page changes. A page that can't be edited this way is left
as it is, with an error that says why. If nothing matches, no file is written
and the exit status is 1.";

const BEHIND: &str = "\
Example:
  tl after 'a[href^=http]' ' (elsewhere)' a.html    mark links to other sites

TEXT is escaped, but with --html. A missing end tag is put in.
Nothing else in the page changes. A page that can't be edited this way is left
as it is, with an error that says why. If nothing matches, no file is written
and the exit status is 1.";
