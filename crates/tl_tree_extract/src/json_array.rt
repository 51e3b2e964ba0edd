//! Nodes as an array of JSON.
#![tactic(auto, using(crate::proofs::Sinks::after_none, crate::proofs::Sinks::after_both))]

ghost use Rattle.json.specs.Print.{print};
ghost use Rattle.std.specs.Option.{option_copied};
ghost use Rattle.std.specs.Prelude.{IfOk, None, OnOk, flat_map, ◌++◌, ◌≡◌};
ghost use Rattle.tl_tree.specs.Sources.{source_at};
ghost use Rattle.tl_tree.specs.TreeView.{rows_in};
ghost use Rattle.tl_tree_extract.specs.Inner.Sinks.{after};
ghost use Rattle.tl_tree_extract.specs.Json.{array_tokens, flat_nodes, nodes_tokens, object_tokens};

use crate::flat_json::write_flat_in;
use crate::json_form::JsonForm;
use crate::json_sink::{Mark, Sink};
use crate::json_text::Text;
use crate::node_json::write_json_in;
use json::Writer;
use std::alloc::{AllocError, Global};
use std::mem;
use tl_tree::Tree;

/// Writes the object of a node, which may say its file. The vector is room.
pub(crate) fn put_object<S: Sink>(
    alloc: Global,
    tree: &Tree<'_>,
    form: JsonForm,
    file: Option<&str>,
    number: usize,
    room: &mut Vec<u8>,
    out: &mut S,
) -> Result<(), AllocError>
    ensures adds { OnOk result (S.taken out.new ≡ after (object_tokens form (option_copied
        file.entry) (source_at tree.now) (rows_in tree.now) number) (S.taken out.old)) }
    ensures keeps { S.kept out.new ≡ S.kept out.old }
{
    match form {
        JsonForm::Nested => write_json_in(alloc, tree, file, number, out),
        JsonForm::Flat => write_flat_in(alloc, tree, file, number, room, out),
    }
}

// Writes each node of these numbers.
fn put_each<S: Sink>(
    alloc: Global,
    tree: &Tree<'_>,
    numbers: &[usize],
    form: JsonForm,
    out: &mut S,
) -> Result<(), AllocError>
    ensures adds { OnOk result (S.taken out.new ≡ after (flat_map (object_tokens form None
        (source_at tree.now) (rows_in tree.now)) numbers.now) (S.taken out.old)) }
    ensures keeps { S.kept out.new ≡ S.kept out.old }
{
    let mut room = Vec::new(alloc);
    for number in numbers {
        put_object(alloc, tree, form, None, *number, &mut room, out)?;
    }
    Ok(())
}

// Writes the nodes of these numbers as an array.
fn put_array<S: Sink>(
    alloc: Global,
    tree: &Tree<'_>,
    numbers: &[usize],
    form: JsonForm,
    out: &mut S,
) -> Result<(), AllocError>
    ensures adds { OnOk result (S.taken out.new ≡ after (array_tokens form (source_at tree.now)
        (rows_in tree.now) numbers.now) (S.taken out.old)) }
    ensures keeps { S.kept out.new ≡ S.kept out.old }
{
    out.mark(Mark::BeginArray)?;
    put_each(alloc, tree, numbers, form, out)?;
    out.mark(Mark::EndArray)
}

/// Writes the nodes of these numbers, as those that a selector found, as an array of JSON.
pub fn write_json_nodes(
    alloc: Global,
    tree: &Tree<'_>,
    numbers: &[usize],
    out: &mut Writer,
) -> Result<(), AllocError>
    ensures tokens { OnOk result (out.new.tokens ≡ out.old.tokens
        ++ nodes_tokens (source_at tree.now) (rows_in tree.now) numbers.now) }
    ensures before { out.new.before ≡ out.old.before }
{
    put_array(alloc, tree, numbers, JsonForm::Nested, out)
}

/// Writes the nodes of these numbers as an array of JSON. Each object is that of
/// `write_json_nodes`, but has in the place of what is below the node the text below it, as
/// `textContent` has it.
pub fn write_json_flat(
    alloc: Global,
    tree: &Tree<'_>,
    numbers: &[usize],
    out: &mut Writer,
) -> Result<(), AllocError>
    ensures tokens { OnOk result (out.new.tokens ≡ out.old.tokens
        ++ flat_nodes (source_at tree.now) (rows_in tree.now) numbers.now) }
    ensures before { out.new.before ≡ out.old.before }
{
    put_array(alloc, tree, numbers, JsonForm::Flat, out)
}

/// Writes the nodes of these numbers as a text of JSON, an array, behind what the vector has. Where
/// memory runs out, what the vector had may be gone.
pub fn write_json_array(
    alloc: Global,
    tree: &Tree<'_>,
    numbers: &[usize],
    form: JsonForm,
    out: &mut Vec<u8>,
) -> Result<(), AllocError>
    ensures { OnOk result (out.new.items ≡ out.old.items
        ++ print (array_tokens form (source_at tree.now) (rows_in tree.now) numbers.now)) }
{
    let mut text = Text::new(alloc, mem::replace(out, Vec::new(alloc)));
    put_array(alloc, tree, numbers, form, &mut text)?;
    *out = text.into_inner();
    Ok(())
}

/// The nodes of these numbers as a text of JSON.
pub fn json_of(alloc: Global, tree: &Tree<'_>, numbers: &[usize]) -> Result<Vec<u8>, AllocError>
    ensures { IfOk result (λ text. text.items ≡ print
        (nodes_tokens (source_at tree.now) (rows_in tree.now) numbers.now)) }
{
    let mut text = Vec::new(alloc);
    write_json_array(alloc, tree, numbers, JsonForm::Nested, &mut text)?;
    Ok(text)
}
