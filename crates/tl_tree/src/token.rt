//! Tokens as the rules see them.

use crate::group::Group;

/// A token. What a start tag, a comment and a doctype say is kept by the builder.
#[derive(Clone, Copy)]
pub(crate) enum Token<'n> {
    Character(u8),
    /// With the group of its name, and whether it has the self-closing flag.
    Start { group: Group, closes: bool },
    End { group: Group, name: &'n [u8] },
    Comment,
    Doctype,
    EndOfFile,
}
