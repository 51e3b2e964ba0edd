//! The elements in which markup is read.
ghost use Rattle.std.specs.Bool.{IsTrue};
ghost use Rattle.std.specs.Option.{option_and_then};
ghost use Rattle.std.specs.Prelude.{IfOk, Some, codes, map, ◌≡◌, ◌↔◌};
ghost use Rattle.tl_dom_spec.specs.Tags.{bare_tag};
ghost use Rattle.tl_tree.specs.Asked.{attributes_at, namespace_of, node_at};
ghost use Rattle.tl_tree.specs.Contexts.{attribute_in, context_of};
ghost use Rattle.tl_tree.specs.TreeView.{rows_in};
ghost use Rattle.tl_tree.specs.declared.entries.Namespace.TheVariants.{Math};
ghost use Rattle.tl_tree_edit.specs.Inner.Contexts.{IsReadIn, context_by};
ghost use Rattle.tl_tree_edit.specs.Operations.{context_attributes, node_held, read_by, tag_for, without_space};

use crate::error::MadeError;
use crate::forms::is_named;
use std::alloc::{AllocError, Global};
use tl_tree::{Context, Flags, Namespace, Tree};

// Pages are read by the standard, without scripts.
const FLAGS: Flags = Flags {
    is_scripting: false,
    counts_search: true,
};

// The attributes of a node as those of a context.
fn attributes_of<'t>(
    alloc: Global,
    tree: &'t Tree<'_>,
    number: usize,
) -> Result<Vec<(&'t [u8], &'t [u8])>, AllocError>
    ensures { IfOk result (λ own. map attribute_in own.items
        ≡ map without_space (attributes_at (rows_in tree.now) number)) }
{
    let mut own = Vec::new(alloc);
    for attribute in tree.attributes(number) {
        own.push((attribute.key, attribute.value))?;
    }
    Ok(own)
}

/// Whether a node is an element of `math`.
pub(crate) fn is_math(tree: &Tree<'_>, number: usize) -> bool
    ensures { IsTrue result
        ↔ option_and_then namespace_of (node_at (rows_in tree.now) number) ≡ Some Math }
{
    tree.namespace(number) == Some(Namespace::Math)
}

// Those of which rules ask in a context.
fn context_attributes<'t>(
    alloc: Global,
    tree: &'t Tree<'_>,
    number: usize,
) -> Result<Vec<(&'t [u8], &'t [u8])>, AllocError>
    ensures { IfOk result (λ own. map attribute_in own.items
        ≡ context_attributes
        (option_and_then namespace_of (node_at (rows_in tree.now) number))
        (attributes_at (rows_in tree.now) number)) }
{
    if !is_math(tree, number) {
        return Ok(Vec::new(alloc));
    }
    attributes_of(alloc, tree, number)
}

// Markup as it is read in a context.
fn read_fragment<'m>(
    alloc: Global,
    markup: &'m [u8],
    context: Context<'_>,
) -> Result<Tree<'m>, MadeError>
    ensures { IsReadIn markup.now (context_of context.entry) result }
{
    Ok(Tree::read_fragment(alloc, markup, context, FLAGS)?)
}

// Markup as it is read in a `body`.
fn read_in_body<'m>(
    alloc: Global,
    tree: &Tree<'_>,
    markup: &'m [u8],
    is_in_form: bool,
) -> Result<Tree<'m>, MadeError>
    ensures { IsReadIn markup.now
        (context_by (bare_tag (codes "body")) is_in_form tree.now.is_quirks) result }
{
    let context = Context {
        namespace: Namespace::Html,
        name: b"body",
        attributes: &[],
        is_in_form,
        is_quirks: tree.is_quirks(),
    };
    read_fragment(alloc, markup, context)
}

// Markup as it is read in a node.
fn read_in_node<'m>(
    alloc: Global,
    tree: &Tree<'_>,
    number: usize,
    markup: &'m [u8],
    is_in_form: bool,
) -> Result<Tree<'m>, MadeError>
    ensures { IsReadIn markup.now
        (context_by
        (tag_for (node_at (rows_in tree.now) number)) is_in_form tree.now.is_quirks) result }
{
    let attributes = context_attributes(alloc, tree, number)?;
    let context = Context {
        namespace: tree.namespace(number).unwrap_or(Namespace::Html),
        name: tree.name(number).unwrap_or(b"body"),
        attributes: attributes.as_slice(),
        is_in_form,
        is_quirks: tree.is_quirks(),
    };
    read_fragment(alloc, markup, context)
}

/// Markup as it is read where it comes to stand in a row, if there is one.
pub(crate) fn read_held<'m>(
    alloc: Global,
    tree: &Tree<'_>,
    holder: Option<usize>,
    is_adjacent: bool,
    markup: &'m [u8],
    is_in_form: bool,
) -> Result<Tree<'m>, MadeError>
    ensures { IsReadIn markup.now
        (context_by
        (tag_for (read_by is_adjacent (node_held (rows_in tree.now) holder)))
        is_in_form tree.now.is_quirks) result }
{
    let Some(number) = holder else {
        return read_in_body(alloc, tree, markup, is_in_form);
    };
    if is_adjacent && is_named(tree, number, b"html") {
        return read_in_body(alloc, tree, markup, is_in_form);
    }
    read_in_node(alloc, tree, number, markup, is_in_form)
}
