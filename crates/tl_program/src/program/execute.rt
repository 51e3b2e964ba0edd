//! What a command writes of a document.
//!
//! The text of a page is stated as the texts of the top nodes, each by a walk of its own, and is
//! walked once: in a document just read no walk meets a fault (`proofs/OneWalk`).
ghost use Rattle.std.specs.Prelude.{◌≡◌, ◌<◌, length, string_bytes, IsSome, Ok, Some, Err};
ghost use Rattle.tl_spec.specs.Tree.Document.{document};
ghost use Rattle.tl_spec.specs.Edit.{apply_changes};
ghost use Rattle.tl_spec.specs.Print.{document_print};
ghost use Rattle.tl.specs.View.{document_of};
ghost use Rattle.tl.specs.Tracked.{AnswerIds, AnswerClasses};
ghost use Rattle.tl_page.specs.Outcome.{Gives};
ghost use Rattle.tl_program.specs.Action.{action_of, selector_of};
ghost use Rattle.tl_program.specs.Output.{outcome_of_document, outcome_of_edited, outcome_of_print, texts_of, IsJustRead, document_again, document_edited, command_print, PrintsBack};
ghost use Rattle.tl_program.specs.Steps.{changes_in};
ghost use Rattle.tl_program.specs.Tracking.{tracked_of};
ghost use Rattle.tl_program.specs.TableEdit.{TakeNoMemory};

use super::commands::Command;
use super::failure::Failure;
use super::lookup::{class_lines, id_lines, selector_lines};
use crate::script;
use crate::script::Step;
use std::alloc::Global;
use tl::{ParserOptions, VDom};

// The texts of the top nodes of a document just read, joined in order. One walk has them all, since
// it meets no fault.
fn document_text(alloc: Global, document: &VDom<'_>) -> Result<String, Failure>
    requires { IsJustRead (document_of document.now) }
    ensures { Gives string_bytes (texts_of (document_of document.now)) result }
{
    Ok(document.inner_text(alloc)?)
}

// The print of the document that a print is read as.
fn print_of_print(alloc: Global, print: &str) -> Result<String, Failure>
    ensures outcome { Gives string_bytes (outcome_of_print (Ok print.now)) result }
    ensures identity { PrintsBack (Some (document print.now)) result }
    ensures long { u32.MAX < length print.now → result ≡ Err Failure.NotUnderstood }
{
    let document = tl::parse(alloc, print, ParserOptions::new())?;
    Ok(document.outer_html(alloc)?)
}

// The print of the document that the print of a document is read as.
fn print_twice(alloc: Global, document: &VDom<'_>) -> Result<String, Failure>
    ensures outcome { Gives string_bytes
        (outcome_of_print (document_print (document_of document.now))) result }
    ensures identity { PrintsBack (document_again
        (document_print (document_of document.now))) result }
{
    let print = document.outer_html(alloc)?;
    print_of_print(alloc, print.as_str())
}

/// The print of a document after steps, which are done to it.
pub fn edit_and_print(
    alloc: Global,
    document: &mut VDom<'_>,
    steps: &[Step<'_>],
) -> Result<String, Failure>
    ensures outcome { Gives string_bytes (outcome_of_edited
        (apply_changes (changes_in steps.now) (document_of document.old))) result }
    ensures identity { PrintsBack (document_edited
        (apply_changes (changes_in steps.now) (document_of document.old))) result }
    ensures refused { TakeNoMemory (changes_in steps.now)
        → IsSome (apply_changes (changes_in steps.now) (document_of document.old)).refused
        → result ≡ Err Failure.Refused }
{
    script::run(alloc, document, steps).map_err(|(_, error)| error)?;
    Ok(document.outer_html(alloc)?)
}

/// What is tracked while the page is read of which a command writes something.
pub fn options_of(command: &Command<'_>) -> ParserOptions
    ensures { result ≡ tracked_of (action_of command.now) }
{
    match command {
        Command::Id(_) => ParserOptions::new().track_ids(),
        Command::Class(_) => ParserOptions::new().track_classes(),
        _ => ParserOptions::new(),
    }
}

/// What a command writes of a document that was just read, and which it may edit.
pub fn execute(
    alloc: Global,
    command: &Command<'_>,
    document: &mut VDom<'_>,
) -> Result<String, Failure>
    requires ids { AnswerIds document.old.tracking (document_of document.old).nodes }
    requires classes { AnswerClasses document.old.tracking (document_of document.old).nodes }
    requires read { IsJustRead (document_of document.old) }
    ensures outcome { let action = action_of command.now in
        let made = outcome_of_document action (selector_of action) (document_of document.old) in
        Gives string_bytes made result }
    ensures identity { PrintsBack (command_print command.now (document_of document.old)) result }
{
    match command {
        Command::Print => Ok(document.outer_html(alloc)?),
        Command::Text => document_text(alloc, document),
        Command::Again => print_twice(alloc, document),
        Command::Select(selector) => selector_lines(alloc, document, selector),
        Command::Id(id) => Ok(id_lines(alloc, document, id)?),
        Command::Class(member) => Ok(class_lines(alloc, document, member)?),
        Command::Edit(steps) => edit_and_print(alloc, document, steps),
    }
}
