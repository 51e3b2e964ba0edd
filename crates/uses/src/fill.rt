//! A page from a template.
ghost use Rattle.std.specs.Prelude.{◌≡◌, fold, map, IfOk, OnOk, Ok, string_bytes};
ghost use Rattle.std.specs.List.{IsDistinct};
ghost use Rattle.std.specs.Map.{keys_of};
ghost use Rattle.std.specs.Option.{option_copied};
ghost use Rattle.tl_bytes.specs.Held.{as_owned};
ghost use Rattle.tl_bytes.specs.Keys.{same_list};
ghost use Rattle.tl_spec.specs.Lex.AttributeList.{AreOthers};
ghost use Rattle.tl_spec.specs.Print.Clean.{IsTame};
ghost use Rattle.tl_spec.specs.Tree.Document.{document};
ghost use Rattle.tl_spec.specs.Tree.Forest.{forest, plain};
ghost use Rattle.tl_spec.specs.Print.Normal.{ReadsAs};
ghost use Rattle.tl_spec.specs.Print.{document_print};
ghost use Rattle.tl_spec.specs.Lex.Token.{tokens};
ghost use Rattle.tl_attributes.specs.Inner.Listing.{listed};
ghost use Rattle.tl_attributes.specs.AttributesView.{attributes_view, bytes_view};
ghost use Rattle.tl.specs.View.{document_of, node_view};
ghost use Rattle.uses.specs.Fields.{attributes_with, document_with, fields_of, node_with, text_with, trees_with};
ghost use Rattle.uses.specs.Filling.{pair_with, insert_pair};

use crate::field::{Field, text_with};
use anyhow::Result as AnyResult;
use std::alloc::{AllocError, Global};
use tl::laws::written_nodes;
use tl::{Attributes, Bytes, Node, ParserOptions, VDom, parse};
use tl_bytes::byte_string::copied;

// A text with fields, as a piece of its own.
fn piece_with(
    alloc: Global,
    fields: &[Field<'_>],
    text: &[u8],
) -> Result<Bytes<'static>, AllocError>
    ensures { IfOk result (λ piece. piece ≡ as_owned (text_with (fields_of fields.now) text.now)) }
{
    let text = text_with(alloc, fields, text)?;
    copied(alloc, text.as_slice())
}

// A copy of a pair, with fields in its value.
fn pair_with(
    alloc: Global,
    fields: &[Field<'_>],
    key: &Bytes<'_>,
    value: Option<&Bytes<'_>>,
) -> Result<(Bytes<'static>, Option<Bytes<'static>>), AllocError>
    ensures { IfOk result (λ pair. pair
        ≡ pair_with (fields_of fields.now) (key.now, option_copied value.entry)) }
{
    let key = copied(alloc, key.as_bytes())?;
    match value {
        Some(value) => Ok((key, Some(piece_with(alloc, fields, value.as_bytes())?))),
        None => Ok((key, None)),
    }
}

// Copies of the pairs of a tag, with fields in their values.
fn pairs_with(
    alloc: Global,
    fields: &[Field<'_>],
    attributes: &Attributes<'_>,
) -> Result<Vec<(Bytes<'static>, Option<Bytes<'static>>)>, AllocError>
    ensures pairs { IfOk result (λ pairs. pairs.items
        ≡ map (pair_with (fields_of fields.now)) (listed bytes_view attributes.now)) }

    // The rest holds of all attributes.
    ensures distinct { IsDistinct same_list (keys_of attributes.now.others.entries) }
    ensures others { AreOthers bytes_view attributes.now.others.entries }
{
    let mut pairs = Vec::new(alloc);
    for pair in attributes.iter() {
        pairs.push(pair_with(alloc, fields, &pair.0, pair.1)?)?;
    }
    Ok(pairs)
}

// Puts pairs, one after the other.
fn insert_pairs<'a>(
    attributes: &mut Attributes<'a>,
    pairs: Vec<(Bytes<'a>, Option<Bytes<'a>>)>,
) -> Result<(), AllocError>
    ensures { OnOk result (attributes.new ≡ fold insert_pair attributes.old pairs.entry.items) }
{
    for pair in pairs {
        attributes.insert(pair.0, pair.1)?;
    }
    Ok(())
}

// Puts fields into the values of a tag.
fn fill_attributes<'a>(
    alloc: Global,
    fields: &[Field<'_>],
    attributes: &mut Attributes<'a>,
) -> Result<(), AllocError>
    ensures { OnOk result (attributes_view attributes.new
        ≡ attributes_with (fields_of fields.now) (attributes_view attributes.old)) }
{
    let pairs = pairs_with(alloc, fields, attributes)?;
    insert_pairs(attributes, pairs)
}

// Puts fields into a node.
fn fill_node<'a>(alloc: Global, fields: &[Field<'_>], node: &mut Node<'a>) -> Result<(), AllocError>
    ensures { OnOk result (node_view node.new
        ≡ node_with (fields_of fields.now) (node_view node.old)) }
{
    match node {
        Node::Tag(tag) => fill_attributes(alloc, fields, tag.attributes_mut()),
        Node::Raw(text) => {
            *text = piece_with(alloc, fields, text.as_bytes())?;
            Ok(())
        }
        Node::Comment(_) => Ok(()),
    }
}

// Puts fields into nodes.
fn fill_nodes<'a>(
    alloc: Global,
    fields: &[Field<'_>],
    nodes: &mut [Node<'a>],
) -> Result<(), AllocError>
    ensures { let all = fields_of fields.now in
        OnOk result (map node_view nodes.new ≡ map (node_with all) (map node_view nodes.old)) }
{
    for node in nodes.iter_mut() {
        fill_node(alloc, fields, node)?;
    }
    Ok(())
}

// Puts fields into a document.
#[tactic(auto, using(crate::proofs::Pages::written_with))]
fn fill_document<'a>(
    alloc: Global,
    fields: &[Field<'_>],
    document: &mut VDom<'a>,
) -> Result<(), AllocError>
    ensures { let all = fields_of fields.now in
        OnOk result (document_of document.new ≡ document_with all (document_of document.old)) }
{
    written_nodes();
    fill_nodes(alloc, fields, document.nodes_mut())
}

/// A page from a template: the escaped value stands in the place of each `{name}` of a field, in
/// the texts and in the values of attributes. Braces around anything else stay as they are, since a
/// page has braces of its own, as in its styles.
///
/// No value adds a tag or ends one: what is read of the page are the trees of the template, with
/// the fields in their texts and values.
pub fn fill(alloc: Global, fields: &[Field<'_>], template: &str) -> AnyResult<String>
    ensures print { let filled = document_with (fields_of fields.now) (document template.now) in
        IfOk result (λ page. document_print filled ≡ Ok (string_bytes page)) }

    // A text whose trees are tame gives a clean document, and fields leave it clean.
    ensures reads { let trees = plain (forest (tokens template.now)) in
        IsTame trees → IfOk result (λ page. ReadsAs (string_bytes page)
        (trees_with (fields_of fields.now) trees)) }
{
    let mut document = parse(alloc, template, ParserOptions::new())?;
    fill_document(alloc, fields, &mut document)?;
    let page = document.outer_html(alloc)?;
    Ok(page)
}
