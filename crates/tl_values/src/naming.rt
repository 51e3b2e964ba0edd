//! Names made of the texts of elements.
ghost use Rattle.std.specs.Option.{option_copied, option_map};
ghost use Rattle.std.specs.Prelude.{IfOk, List, OnOk, map, string_bytes, ℕ, ◌++◌, ◌≡◌};
ghost use Rattle.std.specs.Str.Lossy.{utf8_lossy};
ghost use Rattle.tl_tree.specs.Below.{text_content, words_of};
ghost use Rattle.tl_tree.specs.TreeView.{rows_in};
ghost use Rattle.tl_values.specs.Inner.Names.{AreKept};
ghost use Rattle.tl_values.specs.Names.{with_made};
ghost use Rattle.tl_values.specs.Naming.{dashed, named, names_got, page_names, slug, text_name, unique_filled, with_value};
ghost use Rattle.tl_values.specs.NewValues.{got};

use crate::key::value_at;
use crate::names::Names;
use crate::new_value::NewValue;
use std::alloc::{AllocError, Global};
use tl_tree::{Tree, Words};

// The words of a text with a `-` between them.
fn dashed(alloc: Global, text: &[u8]) -> Result<Vec<u8>, AllocError>
    ensures { IfOk result (λ new. new.items ≡ dashed (words_of text.now)) }
{
    let mut new = Vec::new(alloc);
    let mut is_first = true;
    for word in Words::of(text) {
        if !is_first {
            new.push(b'-')?;
        }
        new.extend_from_slice(word)?;
        is_first = false;
    }
    Ok(new)
}

// A value as characters.
fn characters(alloc: Global, value: &[u8]) -> Result<String, AllocError>
    ensures { IfOk result (λ text. string_bytes text ≡ utf8_lossy value.now) }
{
    let text = String::from_utf8_lossy(alloc, value)?;
    String::from_str(alloc, text.as_str())
}

// The name that a text makes.
fn slug(alloc: Global, text: &[u8]) -> Result<String, AllocError>
    ensures { IfOk result (λ name. string_bytes name ≡ slug text.now) }
{
    let words = dashed(alloc, text)?;
    let name = characters(alloc, words.as_slice())?;
    name.as_str().to_ascii_lowercase(alloc)
}

// The name that the text of an element makes.
fn text_slug(alloc: Global, tree: &Tree<'_>, number: usize) -> Result<String, AllocError>
    ensures { IfOk result (λ name.
        string_bytes name ≡ slug (text_content (rows_in tree.now) number)) }
{
    let mut text = Vec::new(alloc);
    tree.write_text_content(number, &mut text)?;
    slug(alloc, text.as_slice())
}

// One more value that is used, if there is one.
fn add_value(names: &mut Names, alloc: Global, value: Option<&[u8]>) -> Result<(), AllocError>
    ensures { (used : List (List ℕ)) → AreKept names.old used → OnOk result
        (AreKept names.new (with_value used (option_copied value.entry))) }
{
    match value {
        Some(value) => {
            let name = characters(alloc, value)?;
            names.add(alloc, name.as_str())
        }
        None => Ok(()),
    }
}

// The values that stand at a key of a page.
fn page_names(alloc: Global, tree: &Tree<'_>, key: &[u8]) -> Result<Names, AllocError>
    ensures { IfOk result (λ names. AreKept names (page_names key.now (rows_in tree.now))) }
{
    let mut names = Names::new(alloc);
    for number in 0..tree.len() {
        let value = value_at(tree, number, key);
        add_value(&mut names, alloc, value)?;
    }
    Ok(names)
}

// A name that isn't used yet, of one that isn't empty.
fn take_filled(names: &mut Names, alloc: Global, name: String) -> Result<Option<String>, AllocError>
    ensures made { (used : List (List ℕ)) → AreKept names.old used → IfOk result (λ made.
        option_map string_bytes made ≡ unique_filled used (string_bytes name)) }
    ensures kept { (used : List (List ℕ)) → AreKept names.old used → OnOk result
        (AreKept names.new (with_made used (unique_filled used (string_bytes name)))) }
{
    match name.as_bytes().first() {
        Some(_) => names.take(alloc, name),
        None => Ok(None),
    }
}

// The name that an element gets.
fn text_name(
    names: &mut Names,
    alloc: Global,
    tree: &Tree<'_>,
    number: usize,
    key: &[u8],
) -> Result<Option<String>, AllocError>
    ensures made { (used : List (List ℕ)) → AreKept names.old used → IfOk result (λ name.
        option_map string_bytes name ≡ text_name key.now (rows_in tree.now) used number) }
    ensures kept { (used : List (List ℕ)) → AreKept names.old used → OnOk result
        (AreKept names.new (with_made used (text_name key.now (rows_in tree.now) used number))) }
{
    match value_at(tree, number, key) {
        Some(_) => Ok(None),
        None => {
            let name = text_slug(alloc, tree, number)?;
            take_filled(names, alloc, name)
        }
    }
}

// Adds the value that a node gets, if it gets one.
fn push_name(
    values: &mut Vec<NewValue>,
    number: usize,
    name: Option<String>,
) -> Result<(), AllocError>
    ensures { OnOk result (map got values.new.items
        ≡ map got values.old.items ++ named number (option_map string_bytes name)) }
{
    match name {
        Some(name) => {
            let value = name.into_bytes();
            values.push(NewValue { number, value })?;
            Ok(())
        }
        None => Ok(()),
    }
}

/// The values that nodes get of their texts.
pub fn names_got(
    alloc: Global,
    tree: &Tree<'_>,
    numbers: &[usize],
    key: &[u8],
) -> Result<Vec<NewValue>, AllocError>
    ensures { let rows = rows_in tree.now in IfOk result (λ values. map got values.items
        ≡ names_got key.now rows (page_names key.now rows) numbers.now) }
{
    let mut names = page_names(alloc, tree, key)?;
    let mut values = Vec::new(alloc);
    for number in numbers {
        let number = *number;
        let name = text_name(&mut names, alloc, tree, number, key)?;
        push_name(&mut values, number, name)?;
    }
    Ok(values)
}
