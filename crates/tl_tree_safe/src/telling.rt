//! What is told of elements and attributes that go.
ghost use Rattle.std.specs.Prelude.{IfOk, OnOk, map, ◌&&◌, ◌++◌, ◌≡◌};
ghost use Rattle.tl_safe_fit.specs.Words.{is_among};
ghost use Rattle.tl_tree.specs.Asked.{attribute_said, attributes_at};
ghost use Rattle.tl_tree.specs.TreeView.{rows_in};
ghost use Rattle.tl_tree_safe.specs.Inner.Telling.{cause_at, fate_told_at, named_cause};
ghost use Rattle.tl_tree_safe.specs.Policies.{listed_words};
ghost use Rattle.tl_tree_safe.specs.Removed.{attribute_cause, attribute_gone, attributes_gone, gone_of};

use crate::attributes::{is_kept, is_listed_key};
use crate::fate::{Fate, html_name};
use crate::lists::Lists;
use crate::names::is_opaque;
use crate::removal::{Cause, Removal};
use crate::words::is_among;
use std::alloc::{AllocError, Global};
use tl_tree::{Attribute, Tree};

// Why an attribute goes, if it does.
fn attribute_cause(
    alloc: Global,
    lists: &Lists<'_>,
    attribute: &Attribute<'_>,
) -> Result<Option<Cause>, AllocError>
    ensures { IfOk result (λ cause.
        cause ≡ attribute_cause (listed_words lists.now) (attribute_said attribute.now)) }
{
    if !is_listed_key(lists, attribute) {
        return Ok(Some(Cause::UnlistedKey));
    }
    if is_kept(alloc, lists, attribute)? {
        return Ok(None);
    }
    Ok(Some(Cause::UnlistedValue))
}

// Tells an attribute of an element, if it goes.
fn tell_attribute<'t>(
    alloc: Global,
    lists: &Lists<'_>,
    node: usize,
    attribute: &Attribute<'t>,
    told: &mut Vec<Removal<'t>>,
) -> Result<(), AllocError>
    ensures { OnOk result (map gone_of told.new.items ≡ map gone_of told.old.items
        ++ attribute_gone (listed_words lists.now) node (attribute_said attribute.now)) }
{
    let Some(cause) = attribute_cause(alloc, lists, attribute)? else {
        return Ok(());
    };
    told.push(Removal {
        node,
        key: Some(attribute.key),
        cause,
    })?;
    Ok(())
}

// Tells the attributes of an element that go.
fn tell_attributes<'t>(
    alloc: Global,
    lists: &Lists<'_>,
    tree: &'t Tree<'_>,
    number: usize,
    told: &mut Vec<Removal<'t>>,
) -> Result<(), AllocError>
    ensures { OnOk result (map gone_of told.new.items ≡ map gone_of told.old.items
        ++ attributes_gone (listed_words lists.now) number
        (attributes_at (rows_in tree.now) number)) }
{
    for attribute in tree.attributes(number) {
        tell_attribute(alloc, lists, number, &attribute, told)?;
    }
    Ok(())
}

// Why an element of HTML of a name goes that doesn't stay.
fn named_cause(lists: &Lists<'_>, name: &[u8]) -> Cause
    ensures { result ≡ named_cause (listed_words lists.now) name.now }
{
    if is_among(lists.tags, name) {
        Cause::MisplacedTag
    } else if is_opaque(name) {
        Cause::OpaqueTag
    } else {
        Cause::UnlistedTag
    }
}

// Why an element goes that doesn't stay.
fn element_cause(lists: &Lists<'_>, tree: &Tree<'_>, number: usize) -> Cause
    ensures { result ≡ cause_at (listed_words lists.now) (rows_in tree.now) number }
{
    match html_name(tree, number) {
        Some(name) => named_cause(lists, name),
        None => Cause::ForeignTag,
    }
}

/// Tells what goes of an element, by what becomes of it: the element, or attributes of it.
pub(crate) fn tell_element<'t>(
    alloc: Global,
    lists: &Lists<'_>,
    tree: &'t Tree<'_>,
    number: usize,
    fate: Fate,
    told: &mut Vec<Removal<'t>>,
) -> Result<(), AllocError>
    ensures { OnOk result (map gone_of told.new.items ≡ map gone_of told.old.items
        ++ fate_told_at (listed_words lists.now) (rows_in tree.now) number fate) }
{
    if let Fate::Stays(_) = fate {
        return tell_attributes(alloc, lists, tree, number, told);
    }
    told.push(Removal {
        node: number,
        key: None,
        cause: element_cause(lists, tree, number),
    })?;
    Ok(())
}
