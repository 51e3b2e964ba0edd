//! A run of the program: it reads all, makes the output, and writes it.
ghost use Rattle.std.specs.Prelude.{◌≡◌, ◌≢◌, ◌<◌, ◌+◌, ◌||◌, is_ok, is_err, if◌then◌else◌, length, string_bytes, IsUtf8, IsTrue, Option, Err, OnOk, OnErr};
ghost use Rattle.std.specs.Io.KnownBytes.{Appends, IsAtEnd};
ghost use Rattle.tl_spec.specs.Tree.Document.{document};
ghost use Rattle.tl_spec.specs.Select.Selector.{Selector};
ghost use Rattle.tl_program.specs.Action.{action_of, selector_of, IsSelectorOf};
ghost use Rattle.tl_page.specs.Outcome.{Gives};
ghost use Rattle.tl_program.specs.Output.{command_output, command_print, PrintsBack, AppendsBeginning};
ghost use Rattle.tl_program.specs.Run.{IsRun};

use super::commands::Command;
use super::execute::{execute, options_of};
use super::failure::Failure;
use super::page::{Page, read_page};
use super::streams::{Fault, Input, Output};
use std::alloc::Global;
use std::mem;
use tl_page::read;

// Writes all the bytes.
#[tactic(auto, using(crate::proofs::Writing::written))]
fn write_all<W: Output>(writer: &mut W, bytes: &[u8]) -> Result<(), Fault>
    ensures ok { OnOk result (Appends (W.seen writer.old).holds
        (W.seen writer.new).holds bytes.now) }
    ensures err { OnErr result (AppendsBeginning (W.seen writer.old).holds
        (W.seen writer.new).holds bytes.now) }
    ensures marks { (W.seen writer.new).has_failed
        ≡ ((W.seen writer.old).has_failed || is_err result) }
    ensures counts { (W.seen writer.new).flushes ≡ (W.seen writer.old).flushes }
{
    let mut done = 0;
    while done < bytes.len() {
        done += writer.write(&bytes[done..])?;
    }
    Ok(())
}

// Writes all the bytes, and flushes.
#[tactic(auto, using(crate::proofs::Writing::flushed))]
fn write_and_flush<W: Output>(writer: &mut W, bytes: &[u8]) -> Result<(), Fault>
    ensures ok { OnOk result (Appends (W.seen writer.old).holds
        (W.seen writer.new).holds bytes.now) }
    ensures err { OnErr result (AppendsBeginning (W.seen writer.old).holds
        (W.seen writer.new).holds bytes.now) }
    ensures marks { (W.seen writer.new).has_failed
        ≡ ((W.seen writer.old).has_failed || is_err result) }
    ensures counts { (W.seen writer.new).flushes
        ≡ (if is_ok result then (W.seen writer.old).flushes + 1 else (W.seen writer.old).flushes) }
    ensures flushed { OnOk result (IsTrue (W.seen writer.new).is_flushed) }
{
    write_all(writer, bytes)?;
    writer.flush()
}

/// What a command gives of a page, as `run` writes it of the page that it reads; or why it gives
/// nothing, where the number of the failure is the status.
#[tactic(auto, using(tl_page::proofs::Pages::pages))]
pub fn output(alloc: Global, command: &Command<'_>, input: &[u8]) -> Result<String, Failure>
    // By the selector that the text of a `select` stands for, if it stands for one: there is one at
    // most.
    ensures outcome { (selector : Option Selector) × IsSelectorOf (action_of command.now) selector
        × Gives string_bytes (command_output command.now selector input.now) result }
    ensures identity { PrintsBack (command_print command.now (document input.now)) result }

    // What is no text, or too long, is not understood before memory is asked for.
    ensures no_text { ¬ (IsUtf8 input.now) → result ≡ Err Failure.NotUnderstood }
    ensures long { u32.MAX < length input.now → result ≡ Err Failure.NotUnderstood }
{
    let mut document = read(alloc, input, options_of(command))?;
    execute(alloc, command, &mut document)
}

// What a command gives of a page in a program that ends soon: the memory of the page's document is
// not taken back.
#[tactic(auto, using(tl_page::proofs::Pages::pages))]
fn last_output(alloc: Global, command: &Command<'_>, input: &[u8]) -> Result<String, Failure>
    ensures outcome { let selector = selector_of (action_of command.now) in
        Gives string_bytes (command_output command.now selector input.now) result }
    ensures identity { PrintsBack (command_print command.now (document input.now)) result }
    ensures no_text { ¬ (IsUtf8 input.now) → result ≡ Err Failure.NotUnderstood }
    ensures long { u32.MAX < length input.now → result ≡ Err Failure.NotUnderstood }
{
    let mut document = read(alloc, input, options_of(command))?;
    let answer = execute(alloc, command, &mut document);
    mem::forget(document);
    answer
}

/// Runs a command on what the reader has left, writes what it gives, and answers the status.
///
/// It is 0 where all is done, 1 where the tree has a fault or a step is refused, 2 where the input
/// is no text or too long, 3 where memory runs out, and 4 where a read or a write failed. The
/// output is made whole before the first write, and flushed once after the last. A fault is that of
/// the tree after the steps; after a refused step nothing is looked at. The memory of the page's
/// document is not taken back, since a program ends after its run.
///
/// Of what `print` writes `fresh_is_clean` says when its document, which was just read, is clean.
pub fn run<R: Input, W: Output>(
    alloc: Global,
    command: &Command<'_>,
    reader: &mut R,
    writer: &mut W,
) -> u8
    // By the selector of the command, as `output` does.
    ensures run { (selector : Option Selector) × IsSelectorOf (action_of command.now) selector
        × IsRun (command_output command.now selector) (command_print command.now) result
        (R.seen reader.old) (R.seen reader.new) W.seen writer.old writer.new }
    ensures end { result ≢ 3 → result ≢ 4 → IsAtEnd (R.seen reader.new).left }
{
    let input = match read_page(alloc, reader) {
        Ok(Page::Whole(input)) => input,
        Ok(Page::TooLong) => return Failure::NotUnderstood as u8,
        Err(failure) => return failure as u8,
    };
    let output = match last_output(alloc, command, &input) {
        Ok(output) => output,
        Err(failure) => return failure as u8,
    };
    match write_and_flush(writer, output.as_bytes()) {
        Ok(()) => 0,
        Err(Fault) => Failure::Fault as u8,
    }
}
