//! Nodes as JSON, each with the text below it.
#![tactic(auto, using(crate::proofs::Sinks::after_none, crate::proofs::Sinks::after_both))]

ghost use Rattle.std.specs.Option.{option_copied};
ghost use Rattle.std.specs.Prelude.{OnOk, ◌≡◌};
ghost use Rattle.tl_tree.specs.Below.{has_kind, text_content};
ghost use Rattle.tl_tree.specs.Sources.{source_at};
ghost use Rattle.tl_tree.specs.TreeView.{rows_in};
ghost use Rattle.tl_tree_extract.specs.Inner.Sinks.{after, known_key};
ghost use Rattle.tl_tree_extract.specs.Json.{flat_at, flat_object, flat_tokens, has_below, string_member};

use crate::json_member::put_text;
use crate::json_sink::{KnownKey, Mark, Sink};
use crate::node_json::{put_head, put_own};
use std::alloc::{AllocError, Global};
use tl_tree::{Kind, Tree};

// Writes the text below a node. The vector is room.
fn put_below<S: Sink>(
    alloc: Global,
    tree: &Tree<'_>,
    number: usize,
    room: &mut Vec<u8>,
    out: &mut S,
) -> Result<(), AllocError>
    ensures adds { OnOk result (S.taken out.new ≡ after (string_member (known_key KnownKey.Text)
        (text_content (rows_in tree.now) number)) (S.taken out.old)) }
    ensures keeps { S.kept out.new ≡ S.kept out.old }
{
    room.clear();
    tree.write_text_content(number, room)?;
    put_text(alloc, KnownKey::Text, room.as_slice(), out)
}

// Whether a node may have others in it.
fn has_below(tree: &Tree<'_>, number: usize) -> bool
    ensures { result ≡ has_kind has_below (rows_in tree.now) number }
{
    matches!(tree.kind(number), Some(Kind::Element | Kind::Contents))
}

// Writes what a node says, or the text below it.
fn put_flat<S: Sink>(
    alloc: Global,
    tree: &Tree<'_>,
    number: usize,
    room: &mut Vec<u8>,
    out: &mut S,
) -> Result<(), AllocError>
    ensures adds { OnOk result (S.taken out.new ≡ after (flat_at (rows_in tree.now) number)
        (S.taken out.old)) }
    ensures keeps { S.kept out.new ≡ S.kept out.old }
{
    if has_below(tree, number) {
        put_below(alloc, tree, number, room, out)
    } else {
        put_own(alloc, tree, number, out)
    }
}

// Writes the object of a node.
fn put_object<S: Sink>(
    alloc: Global,
    tree: &Tree<'_>,
    file: Option<&str>,
    number: usize,
    room: &mut Vec<u8>,
    out: &mut S,
) -> Result<(), AllocError>
    ensures adds { OnOk result (S.taken out.new ≡ after (flat_object (option_copied file.entry)
        (source_at tree.now number) (rows_in tree.now) number) (S.taken out.old)) }
    ensures keeps { S.kept out.new ≡ S.kept out.old }
{
    put_head(alloc, tree, file, number, out)?;
    put_flat(alloc, tree, number, room, out)?;
    out.mark(Mark::EndObject)
}

/// Writes a node, with the text below it, as an object of JSON that may say its file. The vector is
/// room.
pub(crate) fn write_flat_in<S: Sink>(
    alloc: Global,
    tree: &Tree<'_>,
    file: Option<&str>,
    number: usize,
    room: &mut Vec<u8>,
    out: &mut S,
) -> Result<(), AllocError>
    ensures adds { OnOk result (S.taken out.new ≡ after (flat_tokens (option_copied file.entry)
        (source_at tree.now) (rows_in tree.now) number) (S.taken out.old)) }
    ensures keeps { S.kept out.new ≡ S.kept out.old }
{
    match tree.end(number) {
        Some(_) => put_object(alloc, tree, file, number, room, out),
        None => out.mark(Mark::Null),
    }
}
