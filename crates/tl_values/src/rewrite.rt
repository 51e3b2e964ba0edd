//! Values that are made of old ones.
ghost use Rattle.std.specs.Prelude.{IfOk, map, ◌++◌, ◌≡◌};
ghost use Rattle.std.specs.Option.{option_copied, option_map};
ghost use Rattle.tl_tree.specs.Asked.{attributes_at};
ghost use Rattle.tl_tree.specs.TreeView.{rows_in};
ghost use Rattle.tl_values.specs.NewValues.{each_got, got, value_got, values_got};
ghost use Rattle.tl_values.specs.Rewrites.{made_of, source_of};

use crate::absolute::absolute_values;
use crate::key::value_at;
use crate::naming::names_got;
use crate::new_value::NewValue;
use crate::parameters::without_parameters;
use crate::pattern::Pattern;
use crate::replace::replaced;
use crate::words::{with_word, without_word};
use std::alloc::{AllocError, Global};
use tl_tree::Tree;
use url::Url;

/// How the value of a key is made of an old one.
#[derive(Drop)]
pub enum Rewrite<'w> {
    /// A text stands in front of it.
    Prefix(&'w str),
    /// A text stands behind it.
    Suffix(&'w str),
    /// It has a word more, unless it has that: where there is no value the word is the value.
    AddWord(&'w str),
    /// It lacks a word.
    RemoveWord(&'w str),
    /// A text stands in the place of each occurrence of another one.
    Replace { sought: &'w str, put: &'w str },
    /// So do texts where a regular expression matches.
    Pattern(Pattern<'w>),
    /// It is the value of another key.
    CopyOf(String),
    /// As a URL it lacks the parameters of its query whose names a pattern stands for, in which the
    /// first `*` stands for any bytes.
    DropQuery(&'w str),
    /// The URLs that it holds need no base, where the page has this URL.
    Absolute(Url),
    /// It is the words of the element's text in lower case, with a `-` between them; behind it
    /// stands a number where the page has it already. A value that stands there stays.
    FromText,
}

// Two texts, one behind the other.
fn joined(alloc: Global, front: &[u8], back: &[u8]) -> Result<Vec<u8>, AllocError>
    ensures { IfOk result (λ both. both.items ≡ front.now ++ back.now) }
{
    let mut both = Vec::with_capacity(alloc, front.len())?;
    both.extend_from_slice(front)?;
    both.extend_from_slice(back)?;
    Ok(both)
}

impl Rewrite<'_> {
    // What is made of a value.
    fn made_of(&self, alloc: Global, value: &[u8]) -> Result<Vec<u8>, AllocError>
        ensures { IfOk result (λ made. made.items ≡ made_of self.now value.now) }
    {
        match self {
            Rewrite::Prefix(text) => joined(alloc, text.as_bytes(), value),
            Rewrite::Suffix(text) => joined(alloc, value, text.as_bytes()),
            Rewrite::AddWord(word) => with_word(alloc, word.as_bytes(), value),
            Rewrite::RemoveWord(word) => without_word(alloc, word.as_bytes(), value),
            Rewrite::Replace { sought, put } => {
                replaced(alloc, sought.as_bytes(), put.as_bytes(), value)
            }
            Rewrite::DropQuery(names) => without_parameters(alloc, names.as_bytes(), value),
            Rewrite::CopyOf(_) | Rewrite::Pattern(_) | Rewrite::Absolute(_) | Rewrite::FromText =>
                Ok(value.to_vec(alloc)?),
        }
    }

    // The value of which one is made.
    fn source_of<'t>(&self, tree: &'t Tree<'_>, number: usize, key: &[u8]) -> Option<&'t [u8]>
        ensures { option_copied result
            ≡ source_of self.now key.now (attributes_at (rows_in tree.now) number) }
    {
        match self {
            Rewrite::AddWord(_) => Some(value_at(tree, number, key).unwrap_or(b"")),
            Rewrite::CopyOf(other) => value_at(tree, number, other.as_bytes()),
            _ => value_at(tree, number, key),
        }
    }

    // The value that a node gets, where it isn't the one that stands there.
    fn value_got(
        &self,
        alloc: Global,
        tree: &Tree<'_>,
        number: usize,
        key: &[u8],
    ) -> Result<Option<Vec<u8>>, AllocError>
        ensures { IfOk result (λ new. option_map (λ value. value.items) new
            ≡ value_got self.now key.now (rows_in tree.now) number) }
    {
        let Some(source) = self.source_of(tree, number, key) else {
            return Ok(None);
        };
        let made = self.made_of(alloc, source)?;
        if value_at(tree, number, key) == Some(made.as_slice()) {
            return Ok(None);
        }
        Ok(Some(made))
    }

    // The values that nodes get which are made of values of their attributes.
    fn each_value(
        &self,
        alloc: Global,
        tree: &Tree<'_>,
        numbers: &[usize],
        key: &[u8],
    ) -> Result<Vec<NewValue>, AllocError>
        ensures { IfOk result (λ values. map got values.items
            ≡ each_got (value_got self.now key.now (rows_in tree.now)) numbers.now) }
    {
        let mut values = Vec::new(alloc);
        for number in numbers {
            let number = *number;
            if let Some(value) = self.value_got(alloc, tree, number, key)? {
                values.push(NewValue { number, value })?;
            }
        }
        Ok(values)
    }

    /// The values that nodes get at a key in this way, of each node that gets another one than
    /// stands there. No key is put into a tag but by `AddWord`, `CopyOf` and
    /// `FromText`.
    pub fn values(
        &self,
        alloc: Global,
        tree: &Tree<'_>,
        numbers: &[usize],
        key: &[u8],
    ) -> Result<Vec<NewValue>, AllocError>
        ensures { IfOk result (λ values. map got values.items
            ≡ values_got self.now key.now (rows_in tree.now) numbers.now) }
    {
        match self {
            Rewrite::Pattern(pattern) => pattern.values(alloc, tree, numbers, key),
            Rewrite::Absolute(own) => absolute_values(alloc, own, tree, numbers, key),
            Rewrite::FromText => names_got(alloc, tree, numbers, key),
            _ => self.each_value(alloc, tree, numbers, key),
        }
    }
}
