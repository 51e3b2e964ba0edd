//! What is wrong with a text, for the person who wrote it.
use crate::error::{Cause, SelectorError};
use crate::text::byte_class::is_name_byte;
use std::fmt;

const NO_STATES: &str = "a parsed page has no such state";

const COLON: &str = "write `\\:` for a colon in a name";

const QUOTES: &str = "put the value in quotes";

const QUOTES_OR_ESCAPE: &str = "put a value in quotes; in a name write `\\` before it";

// What to do in place of pseudo-classes that browsers have.
static PSEUDO_CLASSES: [(&str, &str); 14] = [
    ("active", NO_STATES),
    ("focus", NO_STATES),
    ("focus-visible", NO_STATES),
    ("focus-within", NO_STATES),
    ("hover", NO_STATES),
    ("target", NO_STATES),
    ("visited", NO_STATES),
    ("link", "write `[href]`"),
    ("any-link", "write `[href]`"),
    ("checked", "write `[checked]`"),
    ("disabled", "write `[disabled]`"),
    ("enabled", "write `:not([disabled])`"),
    ("required", "write `[required]`"),
    ("contains", "elements can't be matched by their text"),
];

/// An error with the word that stands where the text is wrong, and what to write in its place.
#[derive(Clone, Copy)]
pub struct Described<'a> {
    error: SelectorError,
    // What is written before the word.
    joint: &'static str,
    word: &'a str,
    hint: &'static str,
}

impl SelectorError {
    /// The error, with the word of the refused text that stands at its place, and a hint where
    /// there is one.
    pub fn describe(self, text: &str) -> Described<'_> {
        let (joint, word, hint) = match self {
            SelectorError::Text { at, cause } => {
                let word = word_at(text, at);
                (joint(cause), word, hint(cause, word))
            }
            SelectorError::OutOfMemory => ("", "", ""),
        };
        Described {
            error: self,
            joint,
            word,
            hint,
        }
    }
}

// What is written between a cause and the word that is found.
fn joint(cause: Cause) -> &'static str {
    match cause {
        Cause::NoSelector
        | Cause::NoName
        | Cause::NoOperator
        | Cause::NoValue
        | Cause::NoFlag
        | Cause::NoFormula
        | Cause::NeedsArgument => ", found",
        _ => ":",
    }
}

// What to do in place of a pseudo-class that isn't known.
fn pseudo_class_hint(name: &str) -> &'static str {
    for (known, hint) in &PSEUDO_CLASSES {
        if name.eq_ignore_ascii_case(known) {
            return hint;
        }
    }
    COLON
}

// What to do about a cause where this word stands; empty where there is nothing to say.
fn hint(cause: Cause, word: &str) -> &'static str {
    match cause {
        Cause::NoPseudoClass => pseudo_class_hint(word),
        Cause::NoOperator if word == "!" => "write `:not([key=value])`",
        Cause::NoValue if !word.is_empty() && word != "]" => QUOTES,
        Cause::NoName | Cause::NoFlag | Cause::Unexpected if is_in_names(word) => QUOTES_OR_ESCAPE,
        Cause::Namespace => "write `\\|` for a bar in a name",
        _ => "",
    }
}

// Whether people write this character in names and values as it stands.
fn is_in_names(word: &str) -> bool {
    matches!(
        word.as_bytes(),
        [b'@' | b'$' | b'%' | b'&' | b'/' | b'!' | b'?' | b';' | b'{' | b'}' | b'.']
    )
}

// The name that stands at a place, or else the character.
fn word_at(text: &str, at: usize) -> &str {
    let Some(rest) = text.get(at..) else {
        return "";
    };
    let bytes = rest.as_bytes();
    let len = bytes.iter().take_while(|byte| is_name_byte(**byte)).count();
    rest.get(..len.max(1)).unwrap_or(rest)
}

impl fmt::Display for Described<'_> {
    fn fmt<W: fmt::Write>(&self, f: &mut fmt::Formatter<W>) -> fmt::Result {
        if self.word.is_empty() {
            return write!(f, "{}", self.error);
        }
        write!(f, "{}{} `{}`", self.error, self.joint, self.word)?;
        if self.hint.is_empty() {
            return Ok(());
        }
        write!(f, " ({})", self.hint)
    }
}
