//! Nodes as JSON: an object for each, with those of what is below it.
#![tactic(auto, using(crate::proofs::Sinks::after_none, crate::proofs::Sinks::after_both))]

ghost use Rattle.json.specs.Token.{begin_array, end_array, end_object, key};
ghost use Rattle.std.specs.Option.{option_copied};
ghost use Rattle.std.specs.Prelude.{OnOk, [], ◌+◌, ◌++◌, ◌-◌, ◌<◌, ◌^◌, ◌∷◌, ◌≡◌};
ghost use Rattle.tl_tree.specs.Asked.{ancestors_at, doctype_said};
ghost use Rattle.tl_tree.specs.Sources.{source_at};
ghost use Rattle.tl_tree.specs.TreeView.{rows_in};
ghost use Rattle.tl_tree_extract.specs.Inner.Sinks.{after, known_key};
ghost use Rattle.tl_tree_extract.specs.Json.{any_member, closed_at, closed_outside, closing_at, doctype_members, document_tokens, file_at, file_member, file_tokens, head_at, named_at, node_tokens, number_member, opened_at, own_at, rows_tokens, source_members};

use crate::json_member::{put_attributes, put_name, put_namespace, put_number, put_str, put_text};
use crate::json_sink::{KnownKey, Mark, Sink};
use crate::text::rows::ends_at;
use json::Writer;
use std::alloc::{AllocError, Global};
use tl_tree::{Doctype, Kind, Tree};

// Writes where in the page a node comes from, if it is known.
fn put_source<S: Sink>(tree: &Tree<'_>, number: usize, out: &mut S) -> Result<(), AllocError>
    ensures adds { OnOk result (S.taken out.new ≡ after (source_members (source_at tree.now
        number)) (S.taken out.old)) }
    ensures keeps { S.kept out.new ≡ S.kept out.old }
{
    let Some(source) = tree.source(number) else {
        return Ok(());
    };
    put_number(KnownKey::Start, source.start, out)?;
    put_number(KnownKey::End, source.end, out)
}

// Writes a string, if there is one.
fn put_any<S: Sink>(
    alloc: Global,
    name: KnownKey,
    bytes: Option<&[u8]>,
    out: &mut S,
) -> Result<(), AllocError>
    ensures adds { OnOk result (S.taken out.new ≡ after (any_member (known_key name)
        (option_copied bytes.entry)) (S.taken out.old)) }
    ensures keeps { S.kept out.new ≡ S.kept out.old }
{
    match bytes {
        Some(bytes) => put_text(alloc, name, bytes, out),
        None => Ok(()),
    }
}

// Writes what a doctype says.
fn put_doctype<S: Sink>(alloc: Global, doctype: Doctype<'_>, out: &mut S) -> Result<(), AllocError>
    ensures adds { OnOk result (S.taken out.new ≡ after (doctype_members (doctype_said
        doctype.entry)) (S.taken out.old)) }
    ensures keeps { S.kept out.new ≡ S.kept out.old }
{
    put_text(alloc, KnownKey::Doctype, doctype.name, out)?;
    put_any(alloc, KnownKey::Public, doctype.public_id, out)?;
    put_any(alloc, KnownKey::System, doctype.system_id, out)
}

// Begins an array of nodes.
fn put_below<S: Sink>(name: KnownKey, out: &mut S) -> Result<(), AllocError>
    ensures adds { OnOk result (S.taken out.new ≡ after (key (known_key name) ∷ begin_array ∷ [])
        (S.taken out.old)) }
    ensures keeps { S.kept out.new ≡ S.kept out.old }
{
    out.known(name)?;
    out.mark(Mark::BeginArray)
}

/// Writes what a node says, or where what is in it begins.
pub(crate) fn put_own<S: Sink>(
    alloc: Global,
    tree: &Tree<'_>,
    number: usize,
    out: &mut S,
) -> Result<(), AllocError>
    ensures adds { OnOk result (S.taken out.new ≡ after (own_at (rows_in tree.now) number)
        (S.taken out.old)) }
    ensures keeps { S.kept out.new ≡ S.kept out.old }
{
    match tree.kind(number) {
        Some(Kind::Element) => put_below(KnownKey::Children, out),
        Some(Kind::Contents) => put_below(KnownKey::Contents, out),
        Some(Kind::Text) => put_text(alloc, KnownKey::Text, tree.text(number).unwrap_or(b""), out),
        Some(Kind::Comment) => put_text(
            alloc,
            KnownKey::Comment,
            tree.text(number).unwrap_or(b""),
            out,
        ),
        Some(Kind::Doctype) => match tree.doctype(number) {
            Some(doctype) => put_doctype(alloc, doctype, out),
            None => Ok(()),
        },
        None => Ok(()),
    }
}

// Writes what an object says first.
fn put_named<S: Sink>(
    alloc: Global,
    tree: &Tree<'_>,
    number: usize,
    out: &mut S,
) -> Result<(), AllocError>
    ensures adds { OnOk result (S.taken out.new ≡ after (named_at (rows_in tree.now) number)
        (S.taken out.old)) }
    ensures keeps { S.kept out.new ≡ S.kept out.old }
{
    put_attributes(alloc, tree, number, out)?;
    put_name(alloc, tree, number, out)?;
    put_namespace(alloc, tree, number, out)
}

// Writes the number of a node, and where it comes from.
fn put_place<S: Sink>(tree: &Tree<'_>, number: usize, out: &mut S) -> Result<(), AllocError>
    ensures adds { OnOk result (S.taken out.new ≡ after ((number_member (known_key KnownKey.Node)
        number ++ source_members (source_at tree.now number))) (S.taken out.old)) }
    ensures keeps { S.kept out.new ≡ S.kept out.old }
{
    put_number(KnownKey::Node, number, out)?;
    put_source(tree, number, out)
}

// Writes the name of a file, if it is said.
fn put_file<S: Sink>(alloc: Global, file: Option<&str>, out: &mut S) -> Result<(), AllocError>
    ensures adds { OnOk result (S.taken out.new ≡ after (file_member (option_copied file.entry))
        (S.taken out.old)) }
    ensures keeps { S.kept out.new ≡ S.kept out.old }
{
    match file {
        Some(name) => put_str(alloc, KnownKey::File, name, out),
        None => Ok(()),
    }
}

/// Writes the object of a node up to where it comes from.
pub(crate) fn put_head<S: Sink>(
    alloc: Global,
    tree: &Tree<'_>,
    file: Option<&str>,
    number: usize,
    out: &mut S,
) -> Result<(), AllocError>
    ensures adds { OnOk result (S.taken out.new ≡ after (head_at (option_copied file.entry)
        (source_at tree.now number) (rows_in tree.now) number) (S.taken out.old)) }
    ensures keeps { S.kept out.new ≡ S.kept out.old }
{
    out.mark(Mark::BeginObject)?;
    put_file(alloc, file, out)?;
    put_named(alloc, tree, number, out)?;
    put_place(tree, number, out)
}

// Writes the object of a node up to what is in it.
fn open<S: Sink>(
    alloc: Global,
    tree: &Tree<'_>,
    file: Option<&str>,
    number: usize,
    out: &mut S,
) -> Result<(), AllocError>
    ensures adds { OnOk result (S.taken out.new ≡ after (opened_at (option_copied file.entry)
        (source_at tree.now number) (rows_in tree.now) number) (S.taken out.old)) }
    ensures keeps { S.kept out.new ≡ S.kept out.old }
{
    put_head(alloc, tree, file, number, out)?;
    put_own(alloc, tree, number, out)
}

// Ends an array of nodes, and the object that has it.
fn end_below<S: Sink>(out: &mut S) -> Result<(), AllocError>
    ensures adds { OnOk result (S.taken out.new ≡ after (end_array ∷ end_object ∷ []) (S.taken
        out.old)) }
    ensures keeps { S.kept out.new ≡ S.kept out.old }
{
    out.mark(Mark::EndArray)?;
    out.mark(Mark::EndObject)
}

// Ends the object of a node.
fn end_own<S: Sink>(tree: &Tree<'_>, number: usize, out: &mut S) -> Result<(), AllocError>
    ensures adds { OnOk result (S.taken out.new ≡ after (closing_at (rows_in tree.now) number)
        (S.taken out.old)) }
    ensures keeps { S.kept out.new ≡ S.kept out.old }
{
    match tree.kind(number) {
        Some(Kind::Element | Kind::Contents) => end_below(out),
        Some(_) => out.mark(Mark::EndObject),
        None => Ok(()),
    }
}

// Ends the objects that a node is in and that end before the next one, from the first node on.
fn close_outside<S: Sink>(
    tree: &Tree<'_>,
    number: usize,
    first: usize,
    next: usize,
    out: &mut S,
) -> Result<(), AllocError>
    ensures adds { OnOk result (S.taken out.new ≡ after (closed_outside (rows_in tree.now) first
        next (ancestors_at (rows_in tree.now) number)) (S.taken out.old)) }
    ensures keeps { S.kept out.new ≡ S.kept out.old }
{
    for outer in tree.ancestors(number) {
        if outer < first || !ends_at(tree, outer, next) {
            return Ok(());
        }
        end_below(out)?;
    }
    Ok(())
}

// Ends the object of a node where nothing is below it, and those that end there too.
fn close<S: Sink>(
    tree: &Tree<'_>,
    number: usize,
    first: usize,
    out: &mut S,
) -> Result<(), AllocError>
    requires { number + 1 < 2 ^ 64 }
    ensures adds { OnOk result (S.taken out.new ≡ after (closed_at (rows_in tree.now) first
        number) (S.taken out.old)) }
    ensures keeps { S.kept out.new ≡ S.kept out.old }
{
    let next = number + 1;
    if !ends_at(tree, number, next) {
        return Ok(());
    }
    end_own(tree, number, out)?;
    close_outside(tree, number, first, next, out)
}

// The file that a node says: the first of a range does.
fn file_at<'f>(file: Option<&'f str>, count: usize) -> Option<&'f str>
    ensures { option_copied result ≡ file_at (option_copied file.entry) count }
{
    if count == 0 { file } else { None }
}

// Writes the objects of a range of nodes.
fn write_rows<S: Sink>(
    alloc: Global,
    tree: &Tree<'_>,
    file: Option<&str>,
    first: usize,
    last: usize,
    out: &mut S,
) -> Result<(), AllocError>
    ensures adds { OnOk result (S.taken out.new ≡ after (rows_tokens (option_copied file.entry)
        (source_at tree.now) (rows_in tree.now) first (last - first)) (S.taken out.old)) }
    ensures keeps { S.kept out.new ≡ S.kept out.old }
{
    for count in 0..last.saturating_sub(first) {
        open(alloc, tree, file_at(file, count), first + count, out)?;
        close(tree, first + count, first, out)?;
    }
    Ok(())
}

/// Writes a node, with what is below it, as an object of JSON that may say its file.
pub(crate) fn write_json_in<S: Sink>(
    alloc: Global,
    tree: &Tree<'_>,
    file: Option<&str>,
    number: usize,
    out: &mut S,
) -> Result<(), AllocError>
    ensures adds { OnOk result (S.taken out.new ≡ after (file_tokens (option_copied file.entry)
        (source_at tree.now) (rows_in tree.now) number) (S.taken out.old)) }
    ensures keeps { S.kept out.new ≡ S.kept out.old }
{
    match tree.end(number) {
        Some(end) => write_rows(alloc, tree, file, number, end, out),
        None => out.mark(Mark::Null),
    }
}

/// Writes a node, with what is below it, as an object of JSON: `null` where there is no such node.
pub fn write_json(
    alloc: Global,
    tree: &Tree<'_>,
    number: usize,
    out: &mut Writer,
) -> Result<(), AllocError>
    ensures tokens { OnOk result (out.new.tokens ≡ out.old.tokens
        ++ node_tokens (source_at tree.now) (rows_in tree.now) number) }
    ensures before { out.new.before ≡ out.old.before }
{
    write_json_in(alloc, tree, None, number, out)
}

// Writes all of a tree.
fn put_document<S: Sink>(alloc: Global, tree: &Tree<'_>, out: &mut S) -> Result<(), AllocError>
    ensures adds { OnOk result (S.taken out.new ≡ after (document_tokens (source_at tree.now)
        (rows_in tree.now)) (S.taken out.old)) }
    ensures keeps { S.kept out.new ≡ S.kept out.old }
{
    out.mark(Mark::BeginArray)?;
    write_rows(alloc, tree, None, 0, tree.len(), out)?;
    out.mark(Mark::EndArray)
}

/// Writes all of a tree as an array of JSON.
pub fn write_json_document(
    alloc: Global,
    tree: &Tree<'_>,
    out: &mut Writer,
) -> Result<(), AllocError>
    ensures tokens { OnOk result (out.new.tokens ≡ out.old.tokens
        ++ document_tokens (source_at tree.now) (rows_in tree.now)) }
    ensures before { out.new.before ≡ out.old.before }
{
    put_document(alloc, tree, out)
}
