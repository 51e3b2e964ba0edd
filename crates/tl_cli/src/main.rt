//! `tl` for people: reads pages of HTML, however broken. `tl --help` says what it does.
#![tactic(auto)]

ghost use Rattle.std.specs.Prelude.{◌≡◌, Err, IfErr};
ghost use Rattle.tl_page.specs.declared.failure.Failure.TheVariants.{NotUnderstood, OutOfMemory as NoMemory};
ghost use Rattle.tl_cli.specs.declared.args.UsageError.TheVariants.{OutOfMemory};
ghost use Rattle.tl_cli.specs.UsageErrors.{IsWrongWord};

mod args;
mod caret;
mod crossed;
mod edit_words;
mod examples;
mod filename;
mod in_place;
mod in_place_words;
mod job;
mod kept_comment;
mod left_out;
mod links;
mod misread;
mod other_tree;
mod own_bytes;
mod pages;
mod patching;
mod position;
mod refused;
mod reports;
mod selected;
mod tables;
mod task;
mod telling;
mod terminal;
mod texts;
mod unedited;
mod unread;
mod usage;
mod visible;

use args::{Action, Args, Pages, UsageError, read};
use caret::Caret;
use clap::Error;
use in_place_words::words_read;
use job::Job;
use links::Links;
use pages::{
    not_understood, page_of, process_pages, report_error, report_failure, unwritten_status, write,
};
use patching::patch_pages;
use reports::exit_status;
use selected::{Selected, keys_of, lower_words, texts_of};
use std::alloc::AllocError;
use std::env;
use std::io::ErrorKind;
use std::process::ExitCode;
use task::Task;
use terminal::Terminal;
use tl_css::SelectorError;
use tl_page::{Cause, Failure, text};
use tl_tree_safe::{ListTexts, Lists, Policy, WordLists, lines_of};

fn main(rt: HostRuntime) -> ExitCode {
    match run(&rt) {
        Ok(status) => ExitCode::from(status),
        Err(failure) => ExitCode::from(exit_status(failure)),
    }
}

// The words of the command line. One that is no text is not understood.
fn arguments(rt: &HostRuntime) -> Result<Vec<String>, Failure> {
    let given = match env::args(rt) {
        Ok(given) => given,
        Err(error) if error.kind() == ErrorKind::OutOfMemory => return Err(Failure::OutOfMemory),
        Err(_) => return Err(Failure::NotUnderstood),
    };
    let mut words = Vec::new(rt.alloc());
    for word in given {
        words.push(word).map_err(AllocError::from)?;
    }
    Ok(words_read(rt.alloc(), words)?)
}

// Why there are no words, once it is said.
fn no_words(rt: &HostRuntime, failure: Failure) -> Failure
    ensures { result ≡ failure }
{
    if failure != Failure::NotUnderstood {
        return report_failure(rt, "words", failure);
    }
    let cause = Cause::NoText;
    let _ = eprintln!(rt; "tl: words: {cause}");
    failure
}

// Does what is asked for, and answers the status.
fn act(rt: &HostRuntime, args: &Args<'_>) -> Result<u8, Failure> {
    match &args.action {
        Action::Task(task) => process(rt, task, &args.pages),
        Action::Select(selected) => select(rt, selected, &args.pages),
        Action::Links(links) => write_links(rt, links, &args.pages),
        Action::Text(texts) => process(rt, &Task::Ask(texts.question()), &args.pages),
        Action::Tables(tables) => process_pages(rt, &Job::Tables(tables), &args.pages),
        Action::Patch(patching) => patch_pages(rt, patching, &args.pages),
        Action::Safe(texts) => sanitize(rt, texts, &args.pages),
        Action::Removed(texts) => sanitize_telling(rt, texts, &args.pages),
        Action::Policy(texts) => write_policy(rt, texts),
    }
}

// Does what the words ask for, where what is put stands in a file.
fn act_with_text(rt: &HostRuntime, words: &[String], file: &str) -> Result<u8, Failure> {
    let bytes = match page_of(rt, file) {
        Ok(bytes) => bytes,
        Err(error) => return Err(report_error(rt, file, &error)),
    };
    let text = match text(bytes.as_slice()) {
        Ok(text) => text,
        Err(error) => {
            let _ = not_understood(rt, file, &error);
            return Err(Failure::NotUnderstood);
        }
    };
    match read(rt.alloc(), words, Some(text), Terminal::new(rt)) {
        Ok(args) => act(rt, &args),
        Err(usage_error) => report_usage_error(rt, &usage_error),
    }
}

// Does what the words ask for, and answers the status. What fails was said then.
fn run(rt: &HostRuntime) -> Result<u8, Failure> {
    let words = match arguments(rt) {
        Ok(words) => words,
        Err(failure) => return Err(no_words(rt, failure)),
    };
    match read(rt.alloc(), &words, None, Terminal::new(rt)) {
        Ok(args) => match args.text_file() {
            Some(file) => act_with_text(rt, &words, file),
            None => act(rt, &args),
        },
        Err(usage_error) => report_usage_error(rt, &usage_error),
    }
}

// Says what `clap` does: what is wrong with the words, or what was asked for, as help.
fn print_clap_error(rt: &HostRuntime, error: &Error) -> Result<u8, Failure> {
    match error.print(rt) {
        Ok(()) if error.use_stderr() => Err(Failure::NotUnderstood),
        Ok(()) => Ok(0),
        Err(_) if error.use_stderr() => Err(Failure::Fault),
        Err(failed) => Ok(unwritten_status(rt, &failed)),
    }
}

// Says what is wrong with a text that is no selector, and where.
fn report_selector(rt: &HostRuntime, error: &SelectorError, text: &str) {
    let described = error.describe(text);
    let _ = eprintln!(rt; "tl: invalid selector: {described}");
    let SelectorError::Text { at, .. } = error else {
        return;
    };
    let caret = Caret { text, at: *at };
    if caret.is_shown() {
        let _ = eprintln!(rt; "{caret}");
    }
    if text.starts_with('/') {
        let _ = eprintln!(rt; "tl: this looks like XPath; developer tools copy a selector too");
    }
}

// Says why nothing is made, or what was asked for in its place.
fn report_usage_error(rt: &HostRuntime, usage_error: &UsageError<'_>) -> Result<u8, Failure>
    ensures memory { usage_error.now ≡ OutOfMemory → result ≡ Err NoMemory }
    ensures wrong { IsWrongWord usage_error.now → result ≡ Err NotUnderstood }
{
    match usage_error {
        UsageError::Clap(error) => return print_clap_error(rt, error),
        UsageError::OutOfMemory => return Err(report_failure(rt, "words", Failure::OutOfMemory)),
        UsageError::NoCommand => return Err(report_failure(rt, "words", Failure::NotUnderstood)),
        UsageError::NoSelector(error, text) => report_selector(rt, error, text),
        _ => {
            let _ = eprintln!(rt; "tl: {usage_error}");
        }
    }
    Err(Failure::NotUnderstood)
}

// What is made of the words, or want of memory, once it is said.
fn made<T: Drop>(rt: &HostRuntime, it: Result<T, AllocError>) -> Result<T, Failure>
    ensures { IfErr result (λ failure. failure ≡ NoMemory) }
{
    match it {
        Ok(it) => Ok(it),
        Err(AllocError) => Err(report_failure(rt, "words", Failure::OutOfMemory)),
    }
}

// Does a task on pages.
fn process(rt: &HostRuntime, task: &Task<'_>, pages: &Pages<'_>) -> Result<u8, Failure> {
    let job = Job::Task(task);
    process_pages(rt, &job, pages)
}

// Writes what is selected of pages.
fn select(rt: &HostRuntime, selected: &Selected<'_>, pages: &Pages<'_>) -> Result<u8, Failure> {
    let lower = made(rt, lower_words(rt.alloc(), &selected.keys))?;
    let keys = made(rt, keys_of(rt.alloc(), &selected.keys, &lower))?;
    let job = Job::Select(selected, keys.as_slice());
    process_pages(rt, &job, pages)
}

// Writes links of pages.
fn write_links(rt: &HostRuntime, links: &Links<'_>, pages: &Pages<'_>) -> Result<u8, Failure> {
    let lower = made(rt, lower_words(rt.alloc(), &links.keys))?;
    let keys = made(rt, texts_of(rt.alloc(), &lower))?;
    process(rt, &Task::Ask(links.question(keys.as_slice())), pages)
}

// The lists that texts say.
fn lists_of<'w>(rt: &HostRuntime, texts: &ListTexts<'w>) -> Result<WordLists<'w>, Failure>
    ensures { IfErr result (λ failure. failure ≡ NoMemory) }
{
    match WordLists::new(rt.alloc(), texts) {
        Ok(lists) => Ok(lists),
        Err(_) => Err(report_failure(rt, "words", Failure::OutOfMemory)),
    }
}

// The policy of lists. A word that no policy may list is said.
fn policy_of<'w>(rt: &HostRuntime, lists: Lists<'w>) -> Result<Policy<'w>, Failure>
    ensures { IfErr result (λ failure. failure ≡ NotUnderstood) }
{
    match Policy::new(lists) {
        Ok(policy) => Ok(policy),
        Err(error) => {
            let _ = eprintln!(rt; "tl: {error}");
            Err(Failure::NotUnderstood)
        }
    }
}

// Makes pages safe by the lists of these texts.
fn sanitize(rt: &HostRuntime, texts: &ListTexts<'_>, pages: &Pages<'_>) -> Result<u8, Failure> {
    let lists = lists_of(rt, texts)?;
    let policy = policy_of(rt, lists.lists())?;
    process(rt, &Task::Sanitize(policy), pages)
}

// Makes pages safe by the lists of these texts, and tells what goes of them.
fn sanitize_telling(
    rt: &HostRuntime,
    texts: &ListTexts<'_>,
    pages: &Pages<'_>,
) -> Result<u8, Failure> {
    let lists = lists_of(rt, texts)?;
    let policy = policy_of(rt, lists.lists())?;
    let job = Job::Removed(&policy);
    process_pages(rt, &job, pages)
}

// Writes the lists of these texts as options that say them.
fn write_policy(rt: &HostRuntime, texts: &ListTexts<'_>) -> Result<u8, Failure> {
    let lists = lists_of(rt, texts)?;
    let policy = policy_of(rt, lists.lists())?;
    let text = match lines_of(rt.alloc(), &policy.lists()) {
        Ok(text) => text,
        Err(_) => return Err(report_failure(rt, "policy", Failure::OutOfMemory)),
    };
    match write(rt, text.as_bytes()) {
        Ok(()) => Ok(0),
        Err(error) => Ok(unwritten_status(rt, &error)),
    }
}
