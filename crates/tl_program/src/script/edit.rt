//! Steps on a document.
ghost use Rattle.std.specs.Prelude.{◌≡◌, OnOk, IfErr};
ghost use Rattle.std.specs.Borrow.{sem};
ghost use Rattle.tl_spec.specs.Edit.{Roots, apply_changes, none_refused};
ghost use Rattle.tl.specs.View.{document_of};
ghost use Rattle.tl_program.specs.Steps.{change_of, changes_in};
ghost use Rattle.std.specs.Fn.{FnOnceReturnsAtMut};
ghost use Rattle.tl_program.specs.TableEdit.{edited_table, table_after, done_edits, takes_memory, TakesMemoryAt};
ghost use Rattle.tl_program.specs.Script.{Changes, ChangesTagAt, ReplacesNode, StopsAt, IsTagAt};
ghost use Rattle.tl_program.specs.Inner.TagLent.{LendsTagAt};

use crate::script::step::{Step, StepError};
use crate::script::tag::{
    pull_child, push_child, remove_key, remove_value, set_flag, set_name, set_value,
};
use std::alloc::Global;
use tl::{HTMLTag, Node, NodeHandle, NodeOf, ParserOf, SummaryOf, TagOf, VDom};
use tl_bytes::byte_string::{Bytes, copied};

/// Takes the steps in order, up to the first that is refused, whose place in the list, from 0, is
/// answered with the cause. That step changes nothing, and the edits before it stay.
pub fn run<'a>(
    alloc: Global,
    document: &mut VDom<'a>,
    steps: &[Step<'_>],
) -> Result<(), (usize, StepError)>
    ensures ok { OnOk result
        (apply_changes (changes_in steps.now) (document_of document.old)
        ≡ none_refused (document_of document.new)) }
    ensures err { IfErr result (λ e.
        StopsAt (changes_in steps.now) (document_of document.old)
        (document_of document.new) e.0 e.1) }
    // How each piece is held: what a step puts is owned, and what it leaves is held as it was.
    ensures held { table_after (done_edits (changes_in steps.now) result) document.old
        ≡ Ok document.new }
    ensures first { IfErr result (λ e. e.0 ≡ 0 → document.new ≡ document.old) }
    ensures memory { IfErr result (λ e.
        e.1 ≡ StepError.OutOfMemory → TakesMemoryAt (changes_in steps.now) e.0) }
    ensures version { document.new.version ≡ document.old.version }
{
    for (place, step) in steps.iter().enumerate() {
        if let Err(error) = take_step(alloc, document, step) {
            return Err((place, error));
        }
    }
    Ok(())
}

// Takes one step.
fn take_step<'a>(alloc: Global, document: &mut VDom<'a>, step: &Step<'_>) -> Result<(), StepError>
    ensures { let change = change_of step.now in
        Changes (takes_memory change) (edited_table change) document.old document.new result }
{
    match *step {
        Step::Name(node, name) => change_tag(document, node, |tag| set_name(alloc, tag, name)),
        Step::Text(node, text) => replace_node(
            alloc,
            document,
            node,
            text,
            |bytes| NodeOf::Raw(bytes),
        ),
        Step::Comment(node, text) => replace_node(
            alloc,
            document,
            node,
            text,
            |bytes| NodeOf::Comment(bytes),
        ),
        Step::Set(node, key, value) => change_tag(
            document,
            node,
            |tag| set_value(alloc, tag, key, value),
        ),
        Step::Flag(node, key) => change_tag(document, node, |tag| set_flag(alloc, tag, key)),
        Step::Unset(node, key) => change_tag(document, node, |tag| remove_key(alloc, tag, key)),
        Step::Bare(node, key) => change_tag(document, node, |tag| remove_value(alloc, tag, key)),
        Step::Push(node, child) => change_tag(document, node, |tag| push_child(tag, child)),
        Step::Pull(node, place) => change_tag(document, node, |tag| pull_child(tag, place)),
        Step::Root(place, child) => replace_top(document, place, child),
    }
}

// The tag at a number for writing.
fn tag_mut<A, B, O: SummaryOf<A>, M>(
    table: &mut ParserOf<A, B, O, M>,
    number: u32,
) -> Result<&mut TagOf<A, B, O>, StepError>
    ensures* writes_back { sem 𝓛
        (LendsTagAt A.row B.row O.row M.row O.SummaryOf table.entry number result) }
    ensures value { IsTagAt table.old number result }
{
    let Some(node) = table.resolve_node_id_mut(number) else {
        return Err(StepError::NoNode);
    };
    let Some(tag) = node.as_tag_mut() else {
        return Err(StepError::NotTag);
    };
    Ok(tag)
}

// Changes the tag at a number.
fn change_tag<'a, F: FnOnce(&mut HTMLTag<'a>) -> Result<(), StepError>>(
    document: &mut VDom<'a>,
    number: u32,
    change: F,
) -> Result<(), StepError>
    requires { F.IsAlwaysCallable change }
    ensures { ChangesTagAt number
        (FnOnceReturnsAtMut F.FnOnce change) document.old document.new result }
{
    let tag = tag_mut(document.parser_mut(), number)?;
    change(tag)
}

// Puts what is made of a copy of the text in the place of the node at a number.
fn replace_node<'a, F: FnOnce(Bytes<'a>) -> Node<'a>>(
    alloc: Global,
    document: &mut VDom<'a>,
    number: u32,
    text: &[u8],
    make: F,
) -> Result<(), StepError>
    requires { F.IsAlwaysCallable make }
    ensures { ReplacesNode number text.now (F.post make) document.old document.new result }
{
    let Some(node) = document.parser_mut().resolve_node_id_mut(number) else {
        return Err(StepError::NoNode);
    };
    let copy = copied(alloc, text)?;
    *node = make(copy);
    Ok(())
}

fn replace_top<'a>(document: &mut VDom<'a>, place: usize, child: u32) -> Result<(), StepError>
    ensures { Changes (takes_memory (Roots place child))
        (edited_table (Roots place child)) document.old document.new result }
{
    if place >= document.children().len() {
        return Err(StepError::NoPlace);
    }
    document.children_mut()[place] = NodeHandle::new(child);
    Ok(())
}
