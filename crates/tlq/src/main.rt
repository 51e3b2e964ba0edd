//! A command line program over HTML texts.
#![tactic(auto)]

ghost use Rattle.std.specs.Prelude.{◌≤◌};

use program::{Marked, line, run_words};
use std::env;
use std::io::ErrorKind;
use std::process::ExitCode;
pub use tl_program::{program, script};

fn main(rt: HostRuntime) -> ExitCode {
    let status = status_of(&rt);
    let text = line(status);
    if !text.is_empty() {
        let _ = eprintln!(rt; "{text}");
    }
    ExitCode::from(status)
}

// Runs the command that the arguments say, from standard input to standard output, and answers the
// status.
fn status_of(rt: &HostRuntime) -> u8
    ensures { result ≤ 4 }
{
    let arguments = match env::args(rt) {
        Ok(arguments) => arguments,
        Err(error) if error.kind() == ErrorKind::OutOfMemory => return 3,
        Err(_) => return 2,
    };
    let mut words = Vec::new(rt.alloc());
    for word in arguments.skip(1) {
        if words.push(word).is_err() {
            return 3;
        }
    }
    let mut reader = Marked::new(rt.stdin());
    let mut writer = Marked::new(rt.stdout());
    run_words(rt.alloc(), &words, &mut reader, &mut writer)
}
