//! The whole program, over its words, a reader and a writer.
ghost use Rattle.std.specs.Prelude.{◌≡◌, ◌≢◌, IfNone, OnSome, Option};
ghost use Rattle.std.specs.Io.KnownBytes.{IsAtEnd};
ghost use Rattle.tl_spec.specs.Select.Selector.{Selector};
ghost use Rattle.tl_program.specs.Run.{IsRun};
ghost use Rattle.tl_program.specs.Args.{action_in, output_of_args, print_of_args, IsSelectorIn};

use super::args::command;
use super::failure::Failure;
use super::runner::run;
use super::streams::{Input, Output};
use std::alloc::Global;

/// Runs the command that the words say, and answers the status, as `run` does.
///
/// Words that say no command are not understood: the status is 2, and nothing is asked of the
/// reader and the writer.
pub fn run_words<R: Input, W: Output>(
    alloc: Global,
    words: &[String],
    reader: &mut R,
    writer: &mut W,
) -> u8
    // Words that say no command.
    ensures unasked { IfNone (action_in words.now) (result ≡ 2) }
    ensures unasked_reader { IfNone (action_in words.now) (reader.new ≡ reader.old) }
    ensures unasked_writer { IfNone (action_in words.now) (writer.new ≡ writer.old) }

    // What is made of the input by the command that they say.
    ensures run { (selector : Option Selector) × IsSelectorIn words.now selector
        × IsRun (output_of_args words.now selector) (print_of_args words.now) result
        (R.seen reader.old) (R.seen reader.new) W.seen writer.old writer.new }
    ensures end { result ≢ 3 → result ≢ 4 →
        OnSome (action_in words.now) (IsAtEnd (R.seen reader.new).left) }
{
    match command(alloc, words) {
        Ok(Some(action)) => run(alloc, &action, reader, writer),
        Ok(None) => Failure::NotUnderstood as u8,
        Err(_) => Failure::OutOfMemory as u8,
    }
}
