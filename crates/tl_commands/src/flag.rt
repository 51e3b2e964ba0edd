//! The options of commands.
use clap::{Arg, ArgAction};
use std::alloc::{AllocError, Global};

/// An option.
pub struct Flag {
    pub name: &'static str,
    pub short: Option<char>,
    pub value: Option<&'static str>,
    pub help: &'static str,
    /// The options beside which it can't stand.
    pub excludes: &'static [&'static str],
}

/// Whether the names of files are written.
pub static FILE_NAMES: [Flag; 2] = [
    Flag {
        name: "no-name",
        short: None,
        value: None,
        help: "Don't put `FILE:` before lines of several files",
        excludes: &[],
    },
    Flag {
        name: "with-name",
        short: None,
        value: None,
        help: "Put `FILE:` before the lines of one file too",
        excludes: &["no-name"],
    },
];

/// What pages are in.
pub const ENCODING: Flag = Flag {
    name: "encoding",
    short: None,
    value: Some("LABEL"),
    help: "Encoding of the pages, as koi8-r; auto: guess it",
    excludes: &[],
};

const STRICT: Flag = Flag {
    name: "strict",
    short: None,
    value: None,
    help: "Refuse pages with invalid bytes",
    excludes: &[],
};

const NULL: Flag = Flag {
    name: "null",
    short: Some('0'),
    value: None,
    help: "End each result with NUL, not with a line feed",
    excludes: &[],
};

const FIRST: Flag = Flag {
    name: "first",
    short: Some('1'),
    value: None,
    help: "Only the first match of each file",
    excludes: &["count", "max-count"],
};

const QUIET: Flag = Flag {
    name: "quiet",
    short: Some('q'),
    value: None,
    help: "Print nothing; the exit status tells",
    excludes: &[],
};

const NAMES: Flag = Flag {
    name: "files-with-matches",
    short: Some('l'),
    value: None,
    help: "Print only the names of files with a match",
    excludes: &["quiet"],
};

const MAX_COUNT: Flag = Flag {
    name: "max-count",
    short: Some('m'),
    value: Some("N"),
    help: "Only the first N matches of each file",
    excludes: &[],
};

const WHITESPACE: Flag = Flag {
    name: "whitespace",
    short: Some('w'),
    value: None,
    help: "As browsers show it: blocks on lines, no scripts",
    excludes: &[],
};

const INSIDE: Flag = Flag {
    name: "in",
    short: None,
    value: Some("SELECTOR"),
    help: "Only what is inside elements that match",
    excludes: &[],
};

pub static LEFT_OUT: Flag = Flag {
    name: "not",
    short: None,
    value: Some("SELECTOR"),
    help: "With -w: leave out elements that match",
    excludes: &[],
};

const COMMENTS: Flag = Flag {
    name: "comments",
    short: None,
    value: None,
    help: "Comments instead of text, one on a line",
    excludes: &["whitespace", "not"],
};

const TSV: Flag = Flag {
    name: "tsv",
    short: None,
    value: None,
    help: "Columns separated by tabs",
    excludes: &["inside", "source", "number", "count", "json", "jsonl"],
};

const CSV: Flag = Flag {
    name: "csv",
    short: None,
    value: None,
    help: "Columns separated by commas (RFC 4180)",
    excludes: &[
        "tsv", "inside", "source", "number", "count", "json", "jsonl",
    ],
};

pub static WHERE: Flag = Flag {
    name: "where",
    short: None,
    value: None,
    help: "Put FILE:LINE:COLUMN: before each match",
    excludes: &["source", "count", "json", "jsonl", "tsv", "csv"],
};

// How values of nodes are told apart.
pub static COLUMNS: [Flag; 2] = [TSV, CSV];

// Which tables are written, and how.
pub static TABLE_FLAGS: [Flag; 7] = [
    Flag {
        name: "in",
        short: None,
        value: Some("SELECTOR"),
        help: "Only tables that match, or are inside a match",
        excludes: &[],
    },
    Flag {
        name: "number",
        short: Some('n'),
        value: Some("N"),
        help: "The Nth table of each page (default: the first)",
        excludes: &["all"],
    },
    Flag {
        name: "all",
        short: None,
        value: None,
        help: "All tables, with an empty line between two",
        excludes: &[],
    },
    Flag {
        name: "tsv",
        short: None,
        value: None,
        help: "Columns separated by tabs, not by commas",
        excludes: &["json", "jsonl"],
    },
    Flag {
        name: "json",
        short: None,
        value: None,
        help: "Each table on a line, as an array of rows",
        excludes: &["jsonl"],
    },
    Flag {
        name: "jsonl",
        short: None,
        value: None,
        help: "The same, as an object with its file",
        excludes: &[],
    },
    Flag {
        name: "as-written",
        short: None,
        value: None,
        help: "Don't repeat cells that span rows or columns",
        excludes: &[],
    },
];

pub static BASE: Flag = Flag {
    name: "base",
    short: None,
    value: Some("URL"),
    help: "URL of the page: make links absolute",
    excludes: &[],
};

// The hosts to which links lead.
pub static HOSTS: [Flag; 2] = [
    Flag {
        name: "internal",
        short: None,
        value: None,
        help: "With --base: only links to the host of URL",
        excludes: &["external"],
    },
    Flag {
        name: "external",
        short: None,
        value: None,
        help: "With --base: only links to other hosts",
        excludes: &[],
    },
];

pub static LINK_KEY: Flag = Flag {
    name: "attribute",
    short: Some('a'),
    value: Some("NAME"),
    help: "Only links in this attribute; may be repeated",
    excludes: &[],
};

pub static NODE_NUMBERS: Flag = Flag {
    name: "number",
    short: Some('n'),
    value: None,
    help: "Put its number before each node; leave none out",
    excludes: &[],
};

pub static ATTRIBUTE: Flag = Flag {
    name: "attribute",
    short: Some('a'),
    value: Some("NAME"),
    help: "Value of this attribute, where there is one",
    excludes: &["inside", "source", "number", "count", "json", "jsonl"],
};

pub static TEXT: Flag = Flag {
    name: "text",
    short: Some('t'),
    value: None,
    help: "Text content",
    excludes: &["inside", "source", "number", "count", "json", "jsonl"],
};

// What else may be written of a node; without one of these its print.
pub static NODE_FLAGS: [Flag; 6] = [
    Flag {
        name: "inside",
        short: Some('H'),
        value: None,
        help: "Inner HTML",
        excludes: &[],
    },
    Flag {
        name: "source",
        short: None,
        value: None,
        help: "The page's own bytes, from tag to end tag",
        excludes: &[],
    },
    Flag {
        name: "number",
        short: Some('n'),
        value: None,
        help: "Node number, from 0 in document order",
        excludes: &[],
    },
    Flag {
        name: "count",
        short: Some('c'),
        value: None,
        help: "Number of matches of each file",
        excludes: &[],
    },
    Flag {
        name: "json",
        short: None,
        value: None,
        help: "JSON: number, name, attributes, place and text",
        excludes: &[],
    },
    Flag {
        name: "jsonl",
        short: None,
        value: None,
        help: "The same, an object a line, with its file",
        excludes: &[],
    },
];

pub static PRETTY: Flag = Flag {
    name: "pretty",
    short: None,
    value: None,
    help: "An element on a line, where white space allows it",
    excludes: &[],
};

pub static TREE: Flag = Flag {
    name: "tree",
    short: None,
    value: None,
    help: "With --json or --jsonl: children, not the text",
    excludes: &["attribute", "text", "inside", "source", "number", "count"],
};

const POLICY: Flag = Flag {
    name: "policy",
    short: None,
    value: None,
    help: "Print the lists of the policy, and read no page",
    excludes: &[],
};

// Where pages with changes go; without one of these to standard output.
pub static TARGETS: [Flag; 3] = [
    Flag {
        name: "in-place",
        short: Some('i'),
        value: None,
        help: "Edit files in place, each replaced atomically",
        excludes: &["dry-run"],
    },
    Flag {
        name: "backup",
        short: None,
        value: Some("SUFFIX"),
        help: "Edit in place, and keep the old file as FILESUFFIX",
        excludes: &["dry-run"],
    },
    Flag {
        name: "dry-run",
        short: None,
        value: None,
        help: "Change nothing: print FILE:LINE:COLUMN of each edit",
        excludes: &["diff"],
    },
];

// What is told of changes, and which status they give.
pub static TELLINGS: [Flag; 5] = [
    Flag {
        name: "diff",
        short: None,
        value: None,
        help: "Print a unified diff instead of the page",
        excludes: &[],
    },
    Flag {
        name: "verbose",
        short: Some('v'),
        value: None,
        help: "Count the edits of each file on standard error",
        excludes: &[],
    },
    Flag {
        name: "ok",
        short: None,
        value: None,
        help: "Exit status 0 even if nothing matches",
        excludes: &[],
    },
    Flag {
        name: "strict",
        short: None,
        value: None,
        help: "Refuse edits of which browsers build another tree",
        excludes: &[],
    },
    Flag {
        name: "skip",
        short: None,
        value: None,
        help: "Skip elements that can't be edited; exit status 2",
        excludes: &[],
    },
];

/// Which comments are removed, and no element.
pub static REMOVED_COMMENTS: Flag = Flag {
    name: "comments",
    short: None,
    value: Some("RE"),
    help: "Remove comments, or those the regex RE matches",
    excludes: &[],
};

pub static HTML: Flag = Flag {
    name: "html",
    short: None,
    value: None,
    help: "TEXT is markup: don't escape it",
    excludes: &[],
};

const RELATIVE_LINKS: Flag = Flag {
    name: "relative-links",
    short: None,
    value: None,
    help: "Allow relative links, as x.png",
    excludes: &[],
};

const NOFOLLOW_LINKS: Flag = Flag {
    name: "nofollow-links",
    short: None,
    value: None,
    help: "Give links rel=\"nofollow noopener\"",
    excludes: &[],
};

// The policies to begin with.
pub static BASES: [Flag; 2] = [
    Flag {
        name: "comments",
        short: None,
        value: None,
        help: "Start from the policy for comments of readers",
        excludes: &[],
    },
    Flag {
        name: "documents",
        short: None,
        value: None,
        help: "Start from the policy for documents, with tables",
        excludes: &[],
    },
];

// The lists of a policy.
pub static LISTS: [Flag; 6] = [
    Flag {
        name: "tags",
        short: None,
        value: Some("WORDS"),
        help: "Allowed elements, as a,p; +img,-b changes the list",
        excludes: &[],
    },
    Flag {
        name: "keys",
        short: None,
        value: Some("WORDS"),
        help: "Allowed attributes",
        excludes: &[],
    },
    Flag {
        name: "link-keys",
        short: None,
        value: Some("WORDS"),
        help: "Allowed attributes that hold links",
        excludes: &[],
    },
    Flag {
        name: "links",
        short: None,
        value: Some("WORDS"),
        help: "What allowed links start with, as https:,/",
        excludes: &[],
    },
    Flag {
        name: "classes",
        short: None,
        value: Some("WORDS"),
        help: "Allowed classes, as language-*,hljs",
        excludes: &[],
    },
    Flag {
        name: "prefix",
        short: None,
        value: Some("WORD"),
        help: "Prefix that values of id and name get",
        excludes: &[],
    },
];

// How a value is made of the one that stands there.
pub static REWRITES: [Flag; 8] = [
    Flag {
        name: "prefix",
        short: None,
        value: Some("TEXT"),
        help: "Put TEXT before the old value",
        excludes: &[],
    },
    Flag {
        name: "suffix",
        short: None,
        value: Some("TEXT"),
        help: "Put TEXT after the old value",
        excludes: &[],
    },
    Flag {
        name: "add-word",
        short: None,
        value: Some("WORD"),
        help: "Add WORD to the old value, as a class",
        excludes: &[],
    },
    Flag {
        name: "remove-word",
        short: None,
        value: Some("WORD"),
        help: "Remove WORD from the old value",
        excludes: &[],
    },
    Flag {
        name: "from",
        short: None,
        value: Some("NAME"),
        help: "Copy the value of another attribute",
        excludes: &[],
    },
    Flag {
        name: "from-text",
        short: None,
        value: None,
        help: "Where there is none: the words of the element",
        excludes: &[],
    },
    Flag {
        name: "base",
        short: None,
        value: Some("URL"),
        help: "Make the old value absolute; URL is the page's",
        excludes: &[],
    },
    Flag {
        name: "drop-query",
        short: None,
        value: Some("GLOB"),
        help: "Remove such parameters of the query, as utm_*",
        excludes: &[],
    },
];

pub static REPLACE: Flag = Flag {
    name: "replace",
    short: None,
    value: Some("TO"),
    help: "Replace each match of the regex RE with TO",
    excludes: &[
        "prefix",
        "suffix",
        "add-word",
        "remove-word",
        "from",
        "from-text",
        "base",
        "drop-query",
    ],
};

pub static LITERAL: Flag = Flag {
    name: "literal",
    short: None,
    value: None,
    help: "With --replace: RE and TO are plain text",
    excludes: &[],
};

// Whether something is found.
pub static SEARCH: [Flag; 3] = [QUIET, NAMES, NULL];

// Which nodes of those where a selector holds are meant.
pub static SELECTION: [Flag; 2] = [FIRST, MAX_COUNT];

// How texts are written, and which.
pub static TEXT_FLAGS: [Flag; 3] = [WHITESPACE, INSIDE, COMMENTS];

const REMOVED: Flag = Flag {
    name: "removed",
    short: None,
    value: None,
    help: "Report on standard error what is removed, and why",
    excludes: &["policy"],
};

// What a policy lets stand beside its lists.
pub static POLICIES: [Flag; 4] = [RELATIVE_LINKS, NOFOLLOW_LINKS, POLICY, REMOVED];

// How bytes are read.
pub static DECODING: [Flag; 2] = [ENCODING, STRICT];

impl Flag {
    // It as an argument that can stand beside each other one.
    fn lone_argument<'w>(&self, alloc: Global) -> Arg<'w> {
        let argument = Arg::new(alloc, self.name).long(self.name).help(self.help);
        let argument = match self.value {
            Some(value) => argument.value_name(value).action(ArgAction::Set),
            None => argument.action(ArgAction::SetTrue),
        };
        match self.short {
            Some(short) => argument.short(short),
            None => argument,
        }
    }

    /// It as an argument.
    pub fn argument<'w>(&self, alloc: Global) -> Result<Arg<'w>, AllocError> {
        let mut argument = self.lone_argument(alloc);
        for other in self.excludes {
            argument = argument.conflicts_with(*other)?;
        }
        Ok(argument)
    }
}
