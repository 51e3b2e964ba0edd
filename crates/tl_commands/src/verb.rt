//! The commands.
use crate::element::ElementVerb;
use crate::flag::{
    ATTRIBUTE, BASE, BASES, COLUMNS, DECODING, ENCODING, FILE_NAMES, Flag, HOSTS, LEFT_OUT,
    LINK_KEY, LISTS, LITERAL, NODE_FLAGS, NODE_NUMBERS, POLICIES, PRETTY, REPLACE, REWRITES,
    SEARCH, SELECTION, TABLE_FLAGS, TARGETS, TELLINGS, TEXT, TEXT_FLAGS, TREE, WHERE,
};
use crate::help::{
    ABOUT, LINKS, OUTLINES, PRINTS, PROGRAM, SAFE, SELECTORS, SETTINGS, TABLES, TEXTS, UNSETTINGS,
};
use crate::word::{NODES, TAGS_AND_KEY, VALUE, with_words};
use clap::{Arg, ArgAction, ArgGroup, Command};
use std::alloc::{AllocError, Global};

// The files at the end of the words.
fn files<'w>(alloc: Global) -> Arg<'w> {
    Arg::new(alloc, "FILE")
        .num_args(0..)
        .help("HTML files; - or none: standard input")
}

// A command with these options.
fn with_flags<'w>(
    alloc: Global,
    command: Command<'w>,
    flags: &[Flag],
) -> Result<Command<'w>, AllocError> {
    let mut all = command;
    for flag in flags {
        all = all.arg(flag.argument(alloc)?)?;
    }
    Ok(all)
}

// A group of options of which one at most may be used.
fn one_of<'w>(
    alloc: Global,
    name: &'static str,
    flags: &[Flag],
) -> Result<ArgGroup<'w>, AllocError> {
    let mut group = ArgGroup::new(alloc, name);
    for flag in flags {
        group = group.arg(flag.name)?;
    }
    Ok(group)
}

/// A command.
#[derive(Clone, Copy, PartialEq, Eq)]
pub enum Verb {
    Select,
    Links,
    Text,
    Table,
    Print,
    Outline,
    Set,
    Unset,
    Element(ElementVerb),
    Sanitize,
}

// All commands, in the order of the help. No other one is read.
static VERBS: [Verb; 18] = [
    Verb::Select,
    Verb::Links,
    Verb::Text,
    Verb::Table,
    Verb::Print,
    Verb::Outline,
    Verb::Set,
    Verb::Unset,
    Verb::Element(ElementVerb::Rename),
    Verb::Element(ElementVerb::Remove),
    Verb::Element(ElementVerb::Unwrap),
    Verb::Element(ElementVerb::Replace),
    Verb::Element(ElementVerb::Fill),
    Verb::Element(ElementVerb::Prepend),
    Verb::Element(ElementVerb::Append),
    Verb::Element(ElementVerb::Before),
    Verb::Element(ElementVerb::After),
    Verb::Sanitize,
];

impl Verb {
    // Its word.
    fn word<'w>(self) -> &'w str {
        match self {
            Verb::Select => "select",
            Verb::Links => "links",
            Verb::Text => "text",
            Verb::Table => "table",
            Verb::Print => "print",
            Verb::Outline => "outline",
            Verb::Set => "set",
            Verb::Unset => "unset",
            Verb::Element(verb) => verb.word(),
            Verb::Sanitize => "sanitize",
        }
    }

    // What it does.
    fn about<'w>(self) -> &'w str {
        match self {
            Verb::Select => "Print each element that matches, in document order",
            Verb::Links => "Print the links of the page",
            Verb::Text => "Print the text of the page, without tags and comments",
            Verb::Table => "Print tables as CSV or JSON",
            Verb::Print => "Print the page as browsers read it, serialized",
            Verb::Outline => "Print the page as a tree, a line for each node",
            Verb::Set => "Set an attribute of matching elements",
            Verb::Unset => "Remove an attribute from matching elements",
            Verb::Element(verb) => verb.about(),
            Verb::Sanitize => "Print a safe version of the page, by lists of what is allowed",
        }
    }

    // What stands below its options in its help.
    fn notes<'w>(self) -> &'w str {
        match self {
            Verb::Select => SELECTORS,
            Verb::Links => LINKS,
            Verb::Text => TEXTS,
            Verb::Table => TABLES,
            Verb::Print => PRINTS,
            Verb::Outline => OUTLINES,
            Verb::Set => SETTINGS,
            Verb::Unset => UNSETTINGS,
            Verb::Element(verb) => verb.notes(),
            Verb::Sanitize => SAFE,
        }
    }

    // It without words of its own.
    fn bare_command<'w>(self, alloc: Global) -> Command<'w> {
        Command::new(alloc, self.word())
            .about(self.about())
            .after_help(self.notes())
    }

    // It over files, without options of its own.
    fn plain_command<'w>(self, alloc: Global) -> Result<Command<'w>, AllocError> {
        with_flags(alloc, self.bare_command(alloc), &FILE_NAMES)?.arg(files(alloc))
    }

    // It over files that may say what they are in.
    fn reading_command<'w>(self, alloc: Global) -> Result<Command<'w>, AllocError> {
        with_flags(alloc, self.plain_command(alloc)?, &DECODING)
    }

    // It with all its words.
    fn command<'w>(self, alloc: Global) -> Result<Command<'w>, AllocError> {
        match self {
            Verb::Select => select(alloc, self.bare_command(alloc)),
            Verb::Links => links(alloc, self.reading_command(alloc)?),
            Verb::Text => text(alloc, self.reading_command(alloc)?),
            Verb::Table => with_flags(alloc, self.reading_command(alloc)?, &TABLE_FLAGS),
            Verb::Print => self.reading_command(alloc)?.arg(PRETTY.argument(alloc)?),
            Verb::Outline => outline(alloc, self.reading_command(alloc)?),
            Verb::Set => set(alloc, self.bare_command(alloc)),
            Verb::Unset => unset(alloc, self.bare_command(alloc)),
            Verb::Element(verb) => {
                with_targets(alloc, verb.with_words(alloc, self.bare_command(alloc))?)
            }
            Verb::Sanitize => sanitize(alloc, self.plain_command(alloc)?)?.alias("sanitise"),
        }
    }

    /// The command of a word.
    pub fn from_word(word: &str) -> Option<Verb> {
        for verb in &VERBS {
            if verb.word() == word {
                return Some(*verb);
            }
        }
        None
    }
}

fn select<'w>(alloc: Global, command: Command<'w>) -> Result<Command<'w>, AllocError> {
    let command = with_words(alloc, command, &NODES)?;
    let command = with_flags(alloc, command, &SELECTION)?;
    let command = with_flags(alloc, command, &DECODING)?;
    let command = with_flags(alloc, command, &SEARCH)?;
    let command = command.arg(ATTRIBUTE.argument(alloc)?.action(ArgAction::Append))?;
    let command = command.arg(TEXT.argument(alloc)?)?;
    let command = with_flags(alloc, command, &NODE_FLAGS)?;
    let command = with_flags(alloc, command, &COLUMNS)?.arg(WHERE.argument(alloc)?)?;
    let command = with_flags(alloc, command, &FILE_NAMES)?;
    command
        .arg(TREE.argument(alloc)?)?
        .group(one_of(alloc, "wanted", &NODE_FLAGS)?)?
        .arg(files(alloc))
}

fn links<'w>(alloc: Global, command: Command<'w>) -> Result<Command<'w>, AllocError> {
    let command = with_flags(alloc, command, &SEARCH)?;
    let command = command.arg(LINK_KEY.argument(alloc)?.action(ArgAction::Append))?;
    let mut command = command.arg(BASE.argument(alloc)?)?;
    for flag in &HOSTS {
        command = command.arg(flag.argument(alloc)?.requires_arg("base")?)?;
    }
    Ok(command)
}

fn text<'w>(alloc: Global, command: Command<'w>) -> Result<Command<'w>, AllocError> {
    let command = with_flags(alloc, command, &TEXT_FLAGS)?;
    command.arg(LEFT_OUT.argument(alloc)?.requires_arg("whitespace")?)
}

fn outline<'w>(alloc: Global, command: Command<'w>) -> Result<Command<'w>, AllocError> {
    command.arg(NODE_NUMBERS.argument(alloc)?)
}

// A command that changes tags or elements where a selector holds.
fn with_targets<'w>(alloc: Global, command: Command<'w>) -> Result<Command<'w>, AllocError> {
    let command = with_flags(alloc, command, &TARGETS)?;
    with_flags(alloc, command, &TELLINGS)?
        .arg(ENCODING.argument(alloc)?)?
        .arg(files(alloc))
}

fn set<'w>(alloc: Global, command: Command<'w>) -> Result<Command<'w>, AllocError> {
    let command = with_words(alloc, command, &TAGS_AND_KEY)?.arg(VALUE.argument(alloc))?;
    let command = with_flags(alloc, command, &REWRITES)?;
    let replace = REPLACE
        .argument(alloc)?
        .num_args(2)
        .value_names(&["RE", "TO"]);
    let literal = LITERAL.argument(alloc)?.requires_arg("replace")?;
    let command = command.arg(replace)?.arg(literal)?;
    with_targets(alloc, command.group(one_of(alloc, "made", &REWRITES)?)?)
}

fn unset<'w>(alloc: Global, command: Command<'w>) -> Result<Command<'w>, AllocError> {
    with_targets(alloc, with_words(alloc, command, &TAGS_AND_KEY)?)
}

fn sanitize<'w>(alloc: Global, command: Command<'w>) -> Result<Command<'w>, AllocError> {
    let command = with_flags(alloc, command, &BASES)?;
    let command = command.group(one_of(alloc, "base", &BASES)?)?;
    let command = with_flags(alloc, command, &LISTS)?;
    let command = with_flags(alloc, command, &POLICIES)?;
    with_flags(alloc, command, &DECODING)
}

/// The program of a version.
pub fn program<'w>(alloc: Global, version: &'w str) -> Result<Command<'w>, AllocError> {
    let mut program = Command::new(alloc, "tl")
        .bin_name("tl")?
        .about(ABOUT)
        .version(version)
        .after_help(PROGRAM)
        .subcommand_required(true)
        .arg_required_else_help(true);
    for verb in &VERBS {
        program = program.subcommand(verb.command(alloc)?)?;
    }
    Ok(program)
}
