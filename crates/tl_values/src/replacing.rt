//! What a regular expression puts in the place of each match.
ghost use Rattle.regex.specs.Bytes.{matcher_pattern, regex_pattern};
ghost use Rattle.std.specs.Option.{option_map, option_to_list};
ghost use Rattle.std.specs.Prelude.{IfOk, OnOk, map, ◌++◌, ◌≡◌};
ghost use Rattle.tl_tree.specs.TreeView.{rows_in};
ghost use Rattle.tl_values.specs.NewValues.{each_got, got, items_of, pattern_got};
ghost use Rattle.tl_values.specs.Patterns.{IsFrom, replaced_by_pattern};

use crate::key::value_at;
use crate::new_value::{NewValue, unless_stands};
use crate::pattern::Pattern;
use regex::Error;
use regex::bytes::{Matcher, Regex, Template};
use std::alloc::{AllocError, Global};
use tl_tree::Tree;

impl<'w> Pattern<'w> {
    /// The pattern of these texts, by the grammar of the crate `regex`.
    pub fn new(alloc: Global, source: &str, put: &'w str) -> Result<Pattern<'w>, Error>
        ensures { IfOk result (λ p. IsFrom source.now put.now p) }
    {
        let regex = Regex::new(alloc, source)?;
        let template = Template::new(alloc, regex.capture_names(), put.as_bytes())?;
        Ok(Pattern {
            regex,
            template,
            put,
        })
    }

    // A value with what the text says in the place of each match that is found by what searches
    // for the pattern.
    fn replaced(
        &self,
        alloc: Global,
        matcher: &mut Matcher<'_>,
        value: &[u8],
    ) -> Result<Vec<u8>, AllocError>
        requires { matcher_pattern matcher.old ≡ regex_pattern self.now.regex }
        ensures made { IfOk result (λ new. new.items ≡ replaced_by_pattern self.now value.now) }
        ensures same { matcher_pattern matcher.new ≡ regex_pattern self.now.regex }
    {
        matcher.replace_all(alloc, value, &self.template)
    }

    // The value that a node gets, where it isn't the one that stands there.
    fn got(
        &self,
        alloc: Global,
        matcher: &mut Matcher<'_>,
        tree: &Tree<'_>,
        number: usize,
        key: &[u8],
    ) -> Result<Option<Vec<u8>>, AllocError>
        requires { matcher_pattern matcher.old ≡ regex_pattern self.now.regex }
        ensures made { IfOk result (λ new. option_map items_of new
            ≡ pattern_got self.now key.now (rows_in tree.now) number) }
        ensures same { matcher_pattern matcher.new ≡ regex_pattern self.now.regex }
    {
        let value = match value_at(tree, number, key) {
            Some(value) => value,
            None => return Ok(None),
        };
        let made = self.replaced(alloc, matcher, value)?;
        Ok(unless_stands(value, made))
    }

    /// The values that nodes get. What searches for the pattern is made once, since it learns.
    pub(crate) fn values(
        &self,
        alloc: Global,
        tree: &Tree<'_>,
        numbers: &[usize],
        key: &[u8],
    ) -> Result<Vec<NewValue>, AllocError>
        ensures { IfOk result (λ values. map got values.items
            ≡ each_got (pattern_got self.now key.now (rows_in tree.now)) numbers.now) }
    {
        let mut matcher = self.regex.matcher(alloc)?;
        let mut values = Vec::new(alloc);
        for number in numbers {
            let made = self.got(alloc, &mut matcher, tree, *number, key)?;
            push_got(&mut values, *number, made)?;
        }
        Ok(values)
    }
}

// Adds the value that a node gets, if it gets one.
fn push_got(
    values: &mut Vec<NewValue>,
    number: usize,
    made: Option<Vec<u8>>,
) -> Result<(), AllocError>
    ensures { OnOk result (map got values.new.items ≡ map got values.old.items
        ++ option_to_list (option_map (λ value. (number, value)) (option_map items_of made))) }
{
    let Some(value) = made else {
        return Ok(());
    };
    values.push(NewValue { number, value })?;
    Ok(())
}
