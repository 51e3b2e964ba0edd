//! Why lists are no policy.
use std::fmt;
use thiserror::Error;

/// Why no policy may list a word. Each says too where the word is listed.
#[derive(Clone, Copy, PartialEq, Eq, Debug)]
pub enum Reason {
    /// The name of a tag is a letter of a-z, and then letters and digits.
    MalformedTag,
    /// What stands in this tag is no markup of HTML.
    OpaqueTag,
    /// This tag changes what is around it, or loads what is no page.
    StructuralTag,
    /// A key is a letter of a-z, and then letters and `-`.
    MalformedKey,
    /// The value of this key is a script.
    ScriptKey,
    /// The value of this key is no name, text or link.
    ActiveKey,
    /// HTML has links at this key, so it may stand only where it is a link key too.
    LinkKey,
    /// A link begins with printable ASCII, without spaces, `"`, `<` and `>`.
    MalformedLink,
    /// Links of this scheme are programs or documents.
    ActiveScheme,
    /// Links begin with a scheme and its `:`, or with `/`, `#`, `?` or `.`.
    NoScheme,
    /// A pattern of classes is printable characters without spaces and `"`, of which the last alone
    /// may be a `*`.
    MalformedClass,
    /// A prefix is a letter of a-z, and then letters and `-`.
    MalformedPrefix,
    /// Links are marked at this key, so it has to be listed, and not as one that holds links.
    UnlistedMark,
    /// Without `tbody`, `thead` and `tfoot` rows of a table lose their texts.
    NoTableBody,
    /// Without `tr` all rows do.
    NoRow,
    /// Without `td` and `th` cells do.
    NoCell,
    /// Without `caption` captions do.
    NoCaption,
    /// A part of a table stands in a `table` alone.
    NoTable,
}

impl Reason {
    // What is said before the word that is refused.
    fn subject(self) -> &'static str {
        match self {
            Reason::MalformedTag => "invalid tag name",
            Reason::OpaqueTag
            | Reason::StructuralTag
            | Reason::NoTableBody
            | Reason::NoRow
            | Reason::NoCell
            | Reason::NoCaption
            | Reason::NoTable => "a policy can't allow the element",
            Reason::MalformedKey => "invalid attribute name",
            Reason::ScriptKey | Reason::ActiveKey | Reason::LinkKey => {
                "a policy can't allow the attribute"
            }
            Reason::MalformedLink | Reason::NoScheme => "invalid link prefix",
            Reason::ActiveScheme => "a policy can't allow links that begin with",
            Reason::MalformedClass => "invalid class pattern",
            Reason::MalformedPrefix => "invalid prefix",
            Reason::UnlistedMark => "a policy can't mark links with the attribute",
        }
    }
}

impl fmt::Display for Reason {
    fn fmt<W: fmt::Write>(&self, f: &mut fmt::Formatter<W>) -> fmt::Result {
        f.write_str(match self {
            Reason::MalformedTag => "expected a letter a-z, then letters and digits",
            Reason::OpaqueTag => "its content isn't HTML markup",
            Reason::StructuralTag => "it affects the page around it, or loads other content",
            Reason::MalformedKey | Reason::MalformedPrefix => {
                "expected a letter a-z, then letters and `-`"
            }
            Reason::ScriptKey => "its value is a script",
            Reason::ActiveKey => "its value isn't a name, text or URL",
            Reason::LinkKey => "its value is a URL, so it has to be a link attribute too",
            Reason::MalformedLink => {
                "expected printable ASCII without spaces, `\"`, `<` and `>`"
            },
            Reason::ActiveScheme => "such URLs are programs or documents",
            Reason::NoScheme => "expected a scheme with its `:`, or `/`, `#`, `?` or `.` first",
            Reason::MalformedClass => "expected no spaces and no `\"`, and `*` only at the end",
            Reason::UnlistedMark => "it isn't allowed, or is a link attribute",
            Reason::NoTableBody => {
                "`tbody`, `thead` or `tfoot` has to be allowed too, or rows lose their text"
            }
            Reason::NoRow => "`tr` has to be allowed too, or rows lose their text",
            Reason::NoCell => "`td` or `th` has to be allowed too, or cells lose their text",
            Reason::NoCaption => "`caption` has to be allowed too, or captions lose their text",
            Reason::NoTable => "`table` has to be allowed too, as it belongs in one",
        })
    }
}

/// The word for which lists are no policy, and why.
#[derive(Clone, Copy, PartialEq, Eq, Debug, Error)]
#[error("{subject} `{word}`: {reason}", subject = .reason.subject())]
pub struct PolicyError<'w> {
    pub word: &'w str,
    pub reason: Reason,
}
