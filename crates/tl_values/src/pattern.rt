//! A regular expression, with what is put where it matches.
ghost use Rattle.regex.specs.Bytes.{IsReadFrom, regex_names};

use regex::bytes::{Regex, Template};

/// A regular expression, and a text for each match, in which `$1` and `${name}` are its groups.
#[derive(Drop)]
pub struct Pattern<'w> {
    pub(crate) regex: Regex,
    pub(crate) template: Template,
    pub(crate) put: &'w str,
    ghost read: { IsReadFrom (regex_names regex) put.now template },
}
