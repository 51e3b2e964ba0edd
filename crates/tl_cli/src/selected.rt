//! What the words of `select` say.
use std::alloc::{AllocError, Global};
use tl_answers::{Field, Key, Listing, Query, Question, Records};
use tl_css::Selector;
use tl_tree_extract::{Columns, JsonForm};

/// What is written of nodes.
#[derive(Clone, Copy, PartialEq, Eq)]
pub enum Wanted {
    /// How many there are.
    Count,
    /// An object of JSON for each, those of a page as an array.
    Objects(JsonForm),
    /// An object of JSON for each on a line of its own, which says its file.
    Lines(JsonForm),
    /// The number of each.
    Number,
    /// The markup of each.
    OuterHtml,
    /// The markup of what is inside.
    InnerHtml,
    /// The bytes of the page that the tags of each enclose.
    Source,
    /// What the texts below each say.
    Text,
    /// The value of each at a key.
    Value,
    /// The values of each at several, with its text or without.
    Records(Columns, bool),
}

impl Wanted {
    /// How values are told apart, where nodes are written in columns.
    pub fn columns(self) -> Option<Columns> {
        match self {
            Wanted::Records(columns, _) => Some(columns),
            _ => None,
        }
    }

    /// Whether nodes are written as JSON.
    pub fn is_json(self) -> bool {
        matches!(self, Wanted::Objects(_) | Wanted::Lines(_))
    }
}

/// What the words of `select` say.
#[derive(Drop)]
pub struct Selected<'w> {
    pub selector: Selector,
    /// The keys of the values that are wanted, as they were typed.
    pub keys: Vec<&'w str>,
    pub wanted: Wanted,
    /// Whether what is written of a node says where it begins.
    pub is_placed: bool,
    /// How many nodes at most are meant, the first of each page; all where it isn't said.
    pub most: Option<u32>,
}

/// Words in lower case.
pub fn lower_words(alloc: Global, words: &[&str]) -> Result<Vec<String>, AllocError> {
    let mut lower = Vec::with_capacity(alloc, words.len())?;
    for word in words {
        lower.push(word.to_ascii_lowercase(alloc)?)?;
    }
    Ok(lower)
}

/// Texts that are lent.
pub fn texts_of(alloc: Global, texts: &[String]) -> Result<Vec<&str>, AllocError> {
    let mut lent = Vec::with_capacity(alloc, texts.len())?;
    for text in texts {
        lent.push(text.as_str())?;
    }
    Ok(lent)
}

/// Keys as they were typed, with the same in lower case.
pub fn keys_of<'k>(
    alloc: Global,
    typed: &'k [&'k str],
    lower: &'k [String],
) -> Result<Vec<Key<'k>>, AllocError> {
    let mut keys = Vec::with_capacity(alloc, typed.len())?;
    for (written, lower) in typed.iter().zip(lower) {
        let lower = lower.as_str();
        keys.push(Key { written, lower })?;
    }
    Ok(keys)
}

impl Selected<'_> {
    // What is asked of each node.
    fn field<'k>(&self, keys: &[Key<'k>]) -> Field<'k> {
        match (self.wanted, keys) {
            (Wanted::Number, _) => Field::Number,
            (Wanted::InnerHtml, _) => Field::InnerHtml,
            (Wanted::Text, _) => Field::Text,
            (Wanted::Value, [key, ..]) => Field::Value(*key),
            _ => Field::OuterHtml,
        }
    }

    // What is written of the nodes of a file.
    fn listing<'k>(&self, keys: &'k [Key<'k>], file: &'k str) -> Listing<'k> {
        match self.wanted {
            Wanted::Objects(form) => Listing::Objects(form),
            Wanted::Lines(form) => Listing::Lines(form, file),
            Wanted::Count => Listing::Count,
            Wanted::Source => Listing::Sources,
            Wanted::Records(columns, has_text) => Listing::Records(Records {
                keys,
                has_text,
                columns,
            }),
            _ if self.is_placed => Listing::Placed(self.field(keys)),
            _ => Listing::Fields(self.field(keys)),
        }
    }

    /// What is asked of a file, where these are its keys.
    pub fn question<'k>(&'k self, keys: &'k [Key<'k>], file: &'k str) -> Question<'k> {
        Question::Select(Query {
            selector: &self.selector,
            most: self.most,
            listing: self.listing(keys, file),
        })
    }
}
