//! Elements as selectors of CSS that hold of them.
ghost use Rattle.std.specs.Option.{option_copied, option_and_then, option_map_or, unwrap_or};
ghost use Rattle.std.specs.Prelude.{List, None, OnOk, [], codes, false, flat_map, map, slice_index_or, true, ◌++◌, ◌<◌, ◌∷◌, ◌≡◌, ℕ};
ghost use Rattle.tl_tree.specs.Asked.{attributes_at, name_of, node_at, value_of};
ghost use Rattle.tl_tree.specs.Below.{words_of};
ghost use Rattle.tl_tree.specs.TreeView.{rows_in};
ghost use Rattle.tl_tree_extract.specs.Inner.Keys.{place_of};
ghost use Rattle.tl_tree_extract.specs.NodeOutline.{attribute_words, class_word, class_words, id_words, key_words, keys_words, shown_key, shown_keys, value_or};
ghost use Rattle.tl_tree_extract.specs.Notation.{css_name};

use crate::notation::{add_name, add_string};
use std::alloc::AllocError;
use tl_tree::Tree;

// What tells an element from others, and where it leads.
#[rattlefmt::skip]
static SHOWN_KEYS: [&str; 9] = [
    "name", "property", "type", "rel", "for", "role", "href", "src", "action",
];

// Writes an id behind a `#`; nothing of an empty one.
fn put_id(id: &[u8], out: &mut Vec<u8>) -> Result<(), AllocError>
    ensures { OnOk result (out.new.items ≡ out.old.items ++ id_words id.now) }
{
    if id.is_empty() {
        return Ok(());
    }
    out.push(b'#')?;
    add_name(out, id)
}

// Writes a class behind a full stop.
fn put_class(word: &[u8], out: &mut Vec<u8>) -> Result<(), AllocError>
    ensures { OnOk result (out.new.items ≡ out.old.items ++ class_word word.now) }
{
    out.push(b'.')?;
    add_name(out, word)
}

// Writes the classes of an element.
fn put_classes(tree: &Tree<'_>, number: usize, out: &mut Vec<u8>) -> Result<(), AllocError>
    ensures { OnOk result (out.new.items ≡ out.old.items ++ class_words
        (value_or (attributes_at (rows_in tree.now) number) (codes "class"))) }
{
    for word in tree.classes(number) {
        put_class(word, out)?;
    }
    Ok(())
}

// Writes a key and its value in brackets.
fn put_value(key: &str, value: &[u8], out: &mut Vec<u8>) -> Result<(), AllocError>
    ensures { OnOk result (out.new.items ≡ out.old.items ++ key_words key.now value.now) }
{
    out.push(b'[')?;
    out.extend_from_slice(key.as_bytes())?;
    out.push(b'=')?;
    add_string(out, value)?;
    out.push(b']')?;
    Ok(())
}

// Writes what an element has at a key, if it has that.
#[inline(never)]
fn put_key(tree: &Tree<'_>, number: usize, key: &str, out: &mut Vec<u8>) -> Result<(), AllocError>
    ensures { OnOk result (out.new.items
        ≡ out.old.items ++ shown_key (attributes_at (rows_in tree.now) number) key.now) }
{
    match tree.value(number, key.as_bytes()) {
        Some(value) => put_value(key, value, out),
        None => Ok(()),
    }
}

// Which first bytes the keys of an element's attributes have: a mark at the place of each, as far
// as its lower bits tell it from others.
fn first_bytes(tree: &Tree<'_>, number: usize) -> [bool; 32]
    ensures { (key : List ℕ) → slice_index_or result (place_of key) true ≡ false
        → value_of key (attributes_at (rows_in tree.now) number) ≡ None }
{
    let mut found = [false; 32];
    for attribute in tree.attributes(number) {
        found[place_of(attribute.key)] = true;
    }
    found
}

// The lower bits of the first byte of a key.
#[inline(always)]
fn place_of(key: &[u8]) -> usize
    ensures value { result ≡ place_of key.now }
    ensures within { result < 32 }
{
    match key {
        [first, ..] => *first as usize % 32,
        [] => 0,
    }
}

// Writes what an element has at these keys, where it may have such with their first bytes.
#[inline(always)]
fn put_keys(
    tree: &Tree<'_>,
    number: usize,
    found: &[bool; 32],
    keys: &[&str],
    out: &mut Vec<u8>,
) -> Result<(), AllocError>
    requires { (key : List ℕ) → slice_index_or found.now (place_of key) true ≡ false
        → value_of key (attributes_at (rows_in tree.now) number) ≡ None }
    ensures { OnOk result (out.new.items ≡ out.old.items ++ keys_words
        (map (λ own. own.now) keys.now) (attributes_at (rows_in tree.now) number)) }
{
    for key in keys {
        if found[place_of(key.as_bytes())] {
            put_key(tree, number, key, out)?;
        }
    }
    Ok(())
}

// Writes what an element has at the keys that are shown.
#[inline(always)]
#[tactic(auto, unfolding(crate::specs::NodeOutline::shown_keys))]
fn put_shown(tree: &Tree<'_>, number: usize, out: &mut Vec<u8>) -> Result<(), AllocError>
    ensures { OnOk result (out.new.items
        ≡ out.old.items ++ keys_words shown_keys (attributes_at (rows_in tree.now) number)) }
{
    put_keys(tree, number, &first_bytes(tree, number), &SHOWN_KEYS, out)
}

// Writes the attributes of an element that has some.
fn put_some(tree: &Tree<'_>, number: usize, out: &mut Vec<u8>) -> Result<(), AllocError>
    ensures { OnOk result (out.new.items
        ≡ out.old.items ++ attribute_words (attributes_at (rows_in tree.now) number)) }
{
    put_id(tree.id(number).unwrap_or(b""), out)?;
    put_classes(tree, number, out)?;
    put_shown(tree, number, out)
}

// Writes the attributes of an element.
#[tactic(auto, unfolding(crate::specs::NodeOutline::shown_keys))]
fn put_attributes(tree: &Tree<'_>, number: usize, out: &mut Vec<u8>) -> Result<(), AllocError>
    ensures { OnOk result (out.new.items
        ≡ out.old.items ++ attribute_words (attributes_at (rows_in tree.now) number)) }
{
    let mut attributes = tree.attributes(number);
    if attributes.next().is_none() {
        return Ok(());
    }
    put_some(tree, number, out)
}

/// Writes an element.
pub(crate) fn put_element(
    tree: &Tree<'_>,
    number: usize,
    out: &mut Vec<u8>,
) -> Result<(), AllocError>
    ensures { OnOk result (out.new.items ≡ out.old.items
        ++ (css_name (unwrap_or (option_and_then name_of (node_at (rows_in tree.now) number)) [])
        ++ attribute_words (attributes_at (rows_in tree.now) number))) }
{
    add_name(out, tree.name(number).unwrap_or(b""))?;
    put_attributes(tree, number, out)
}
