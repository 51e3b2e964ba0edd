//! Tracks the tags of a table that was read: their ids, and the members of their classes.
ghost use Rattle.std.specs.Prelude.{◌≡◌, ◌<◌, ◌^◌, ◌++◌, ◌∷◌, [], List, ℕ, length, map, is_some, IfOk, OnOk, IsOk, Some, IfSome, option_map};
ghost use Rattle.std.specs.Option.{option_copied};
ghost use Rattle.tl_spec.specs.Lookup.ClassMember.{members, parts};
ghost use Rattle.tl_bytes.specs.Held.{Kept};
ghost use Rattle.tl_spec.specs.Tree.Document.{Node, Tag};
ghost use Rattle.tl_spec.specs.Lookup.Scan.{id_of, class_of};
ghost use Rattle.tl_tracking.specs.NameKey.{HasNames, number_of_names};
ghost use Rattle.tl_tracking.specs.Tracking.{no_maps};
ghost use Rattle.tl.specs.Inner.Names.{key_of, name_list, names_in, names_of};
ghost use Rattle.tl.specs.View.{node_view, tag_view};
ghost use Rattle.tl.specs.Tracked.{AreAsked, AnswerIds, AnswerClasses, AnswerMembers};

use crate::parser::base::{Parser, Tracking};
use crate::parser::tag::HTMLTag;
use crate::parser::tag::node::Node;
use std::alloc::{AllocError, Global};
use std::str;
use tl_attributes::class_iter::next_part;
use tl_bytes::byte_string::{Bytes, part};
use tl_tracking::{NameKey, ParserOptions};

// Notes the parts of a class, each held as the class is.
fn note_parts<'a>(
    alloc: Global,
    tracking: &mut Tracking<'a>,
    class: &Bytes<'a>,
    number: u32,
) -> Result<(), AllocError>
    ensures members { OnOk result ((nodes : List Node) → number ≡ length nodes →
        AnswerMembers tracking.old nodes [] →
        AnswerMembers tracking.new nodes (parts class.now.list)) }
    ensures ids { tracking.new.ids ≡ tracking.old.ids }
    ensures tracked { is_some tracking.new.classes ≡ is_some tracking.old.classes }
    ensures key { tracking.new.key ≡ tracking.old.key }
{
    let mut at = 0;
    while let Some((start, end)) = next_part(class.as_bytes(), at) {
        let member = part(class, alloc, start, end)?;
        tracking.note_class(member, number)?;
        at = end;
    }
    Ok(())
}

// Notes the members of a class.
fn note_members<'a>(
    alloc: Global,
    tracking: &mut Tracking<'a>,
    class: &Bytes<'a>,
    number: u32,
) -> Result<(), AllocError>
    ensures members { OnOk result ((nodes : List Node) → number ≡ length nodes →
        AnswerMembers tracking.old nodes [] →
        AnswerMembers tracking.new nodes (members (Some class.now.list))) }
    ensures ids { tracking.new.ids ≡ tracking.old.ids }
    ensures tracked { is_some tracking.new.classes ≡ is_some tracking.old.classes }
    ensures key { tracking.new.key ≡ tracking.old.key }
{
    match str::from_utf8(class.as_bytes()) {
        Ok(_) => note_parts(alloc, tracking, class, number),
        Err(_) => Ok(()),
    }
}

// Notes the id of a node, if it has one.
fn note_id_of<'a>(
    tracking: &mut Tracking<'a>,
    node: &Node<'a>,
    number: u32,
) -> Result<(), AllocError>
    ensures ids { OnOk result ((nodes : List Node) → number ≡ length nodes →
        AnswerIds tracking.old nodes → AnswerIds tracking.new (nodes ++ node_view node.now ∷ [])) }
    ensures classes { tracking.new.classes ≡ tracking.old.classes }
    ensures tracked { is_some tracking.new.ids ≡ is_some tracking.old.ids }
    ensures key { tracking.new.key ≡ tracking.old.key }
{
    let Node::Tag(tag) = node else {
        return Ok(());
    };
    let Some(id) = tag.attributes().id() else {
        return Ok(());
    };
    tracking.note_id(id.clone()?, number)
}

// Notes the tag under its id, where ids are tracked.
fn note_id<'a>(tracking: &mut Tracking<'a>, node: &Node<'a>, number: u32) -> Result<(), AllocError>
    ensures ids { OnOk result ((nodes : List Node) → number ≡ length nodes →
        AnswerIds tracking.old nodes → AnswerIds tracking.new (nodes ++ node_view node.now ∷ [])) }
    ensures classes { tracking.new.classes ≡ tracking.old.classes }
    ensures tracked { is_some tracking.new.ids ≡ is_some tracking.old.ids }
    ensures key { tracking.new.key ≡ tracking.old.key }
{
    if !tracking.is_tracking_ids() {
        return Ok(());
    }
    note_id_of(tracking, node, number)
}

// Notes the class of a node, if it has one.
fn note_class_of<'a>(
    alloc: Global,
    tracking: &mut Tracking<'a>,
    node: &Node<'a>,
    number: u32,
) -> Result<(), AllocError>
    ensures classes { OnOk result ((nodes : List Node) → number ≡ length nodes →
        AnswerClasses tracking.old nodes →
        AnswerClasses tracking.new (nodes ++ node_view node.now ∷ [])) }
    ensures ids { tracking.new.ids ≡ tracking.old.ids }
    ensures tracked { is_some tracking.new.classes ≡ is_some tracking.old.classes }
    ensures key { tracking.new.key ≡ tracking.old.key }
{
    let Node::Tag(tag) = node else {
        return Ok(());
    };
    let Some(class) = tag.attributes().class() else {
        return Ok(());
    };
    note_members(alloc, tracking, class, number)
}

// Notes the tag under its classes, where classes are tracked.
fn note_class<'a>(
    alloc: Global,
    tracking: &mut Tracking<'a>,
    node: &Node<'a>,
    number: u32,
) -> Result<(), AllocError>
    ensures classes { OnOk result ((nodes : List Node) → number ≡ length nodes →
        AnswerClasses tracking.old nodes →
        AnswerClasses tracking.new (nodes ++ node_view node.now ∷ [])) }
    ensures ids { tracking.new.ids ≡ tracking.old.ids }
    ensures tracked { is_some tracking.new.classes ≡ is_some tracking.old.classes }
    ensures key { tracking.new.key ≡ tracking.old.key }
{
    if !tracking.is_tracking_classes() {
        return Ok(());
    }
    note_class_of(alloc, tracking, node, number)
}

// Adds a name, if there is one.
fn add_name(key: &mut NameKey, name: Option<&Bytes<'_>>)
    ensures { (names : List (List ℕ)) → HasNames key.old names → HasNames key.new
        (names ++ name_list (option_map (λ (b : Kept). b.list) (option_copied name.entry))) }
{
    if let Some(name) = name {
        key.add(name.as_bytes());
    }
}

// Adds the names of a tag that are tracked.
fn add_names(key: &mut NameKey, tag: &HTMLTag<'_>, options: ParserOptions)
    ensures { (names : List (List ℕ)) → HasNames key.old names →
        HasNames key.new (names ++ names_of options (Tag (tag_view tag.now))) }
{
    if options.is_tracking_ids() {
        add_name(key, tag.attributes().id());
    }
    if options.is_tracking_classes() {
        add_name(key, tag.attributes().class());
    }
}

// The number that names are hashed by.
fn key_of_names(nodes: &[Node<'_>], options: ParserOptions) -> u64
    ensures { result ≡ number_of_names (names_in options (map node_view nodes.now)) }
{
    let mut key = NameKey::new();
    for node in nodes {
        if let Node::Tag(tag) = node {
            add_names(&mut key, tag, options);
        }
    }
    key.number()
}

// Maps without tags, whose names are hashed by a number that depends on all of them.
fn empty_tracking<'a>(alloc: Global, nodes: &[Node<'a>], options: ParserOptions) -> Tracking<'a>
    ensures value { result ≡ no_maps options (key_of options (map node_view nodes.now)) }
    ensures ids { AnswerIds result [] }
    ensures classes { AnswerClasses result [] }
{
    if !options.is_tracking() {
        return Tracking::new(alloc, options);
    }
    Tracking::with_key(alloc, options, key_of_names(nodes, options))
}

// The maps of nodes that were read.
fn tracking_of<'a>(
    alloc: Global,
    nodes: &[Node<'a>],
    options: ParserOptions,
) -> Result<Tracking<'a>, AllocError>
    requires { length nodes.now < 2 ^ 32 }
    ensures asked { IfOk result (AreAsked options) }
    ensures ids { IfOk result (λ t. AnswerIds t (map node_view nodes.now)) }
    ensures classes { IfOk result (λ t. AnswerClasses t (map node_view nodes.now)) }
    ensures key { IfOk result (λ t. t.key ≡ key_of options (map node_view nodes.now)) }
    ensures empty { nodes.now ≡ [] → IsOk result }
{
    let mut tracking = empty_tracking(alloc, nodes, options);
    if !options.is_tracking() {
        return Ok(tracking);
    }
    for (number, node) in nodes.iter().enumerate() {
        note_id(&mut tracking, node, number as u32)?;
        note_class(alloc, &mut tracking, node, number as u32)?;
    }
    Ok(tracking)
}

impl<'a> Parser<'a> {
    // Tracks what the options ask for.
    pub(crate) fn track(&mut self, alloc: Global, options: ParserOptions) -> Result<(), AllocError>
        requires { length self.old.nodes < 2 ^ 32 }
        ensures table { self.new ≡ record self.old { tracking = self.new.tracking } }
        ensures asked { OnOk result (AreAsked options self.new.tracking) }
        ensures ids { OnOk result (AnswerIds self.new.tracking (map node_view self.old.nodes)) }
        ensures classes { OnOk result (AnswerClasses self.new.tracking
            (map node_view self.old.nodes)) }
        ensures key { OnOk result (self.new.tracking.key
            ≡ key_of options (map node_view self.old.nodes)) }
        ensures empty { self.old.nodes ≡ [] → IsOk result }
    {
        let tracking = tracking_of(alloc, self.nodes(), options)?;
        self.set_tracking(tracking);
        Ok(())
    }
}
