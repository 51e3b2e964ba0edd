//! What words ask the program for.
use std::alloc::{AllocError, Global};
use tl_program::program::{Command, command};

// The words as the program is given them.
pub fn owned_words(alloc: Global, words: &[&str]) -> Result<Vec<String>, AllocError> {
    let mut owned = Vec::new(alloc);
    for word in words {
        owned.push(String::from_str(alloc, *word)?)?;
    }
    Ok(owned)
}

// What the words ask for, in one word.
fn command_name(alloc: Global, words: &[String]) -> &'static str {
    match command(alloc, words) {
        Ok(Some(Command::Print)) => "print",
        Ok(Some(Command::Text)) => "text",
        Ok(Some(Command::Again)) => "again",
        Ok(Some(Command::Select(_))) => "select",
        Ok(Some(Command::Id(_))) => "id",
        Ok(Some(Command::Class(_))) => "class",
        Ok(Some(Command::Edit(_))) => "edit",
        Ok(None) => "nothing",
        Err(_) => "memory",
    }
}

fn ask_for(alloc: Global, words: &[&str], wanted: &str) -> bool {
    match owned_words(alloc, words) {
        Ok(words) => command_name(alloc, &words) == wanted,
        Err(_) => false,
    }
}

// Words, and what they ask for.
const ROWS: &[(&[&str], &str)] = &[
    (&["print"], "print"),
    (&["print", ""], "nothing"),
    (&["text"], "text"),
    (&["text", ""], "nothing"),
    (&["again"], "again"),
    (&["again", ""], "nothing"),
    (&["Again"], "nothing"),
    (&["again "], "nothing"),
    (&[""], "nothing"),
    (&["Print"], "nothing"),
    (&["prin"], "nothing"),
    (&["print "], "nothing"),
    (&["prints"], "nothing"),
    (&["select"], "nothing"),
    (&["select", ""], "select"),
    (&["select", ",a"], "select"),
    (&["select", "a", "b"], "nothing"),
    (&["selects", "a"], "nothing"),
    (&["id"], "nothing"),
    (&["id", ""], "id"),
    (&["id", "a b"], "id"),
    (&["id", "a", "b"], "nothing"),
    (&["Id", "a"], "nothing"),
    (&["class"], "nothing"),
    (&["class", ""], "class"),
    (&["class", "k"], "class"),
    (&["class", "k", "l"], "nothing"),
    (&["edit"], "nothing"),
    (&["edit", ""], "edit"),
    (&["edit", "\n"], "edit"),
    (&["edit", "text 2"], "edit"),
    (&["edit", "push 0 1\n\nroot 0 5"], "edit"),
    (&["edit", "x"], "nothing"),
    (&["edit", "push 0"], "nothing"),
    (&["edit", "text 2\npush 0 1 2"], "nothing"),
    (&[], "nothing"),
    (&["edit", "", ""], "nothing"),
];

#[test]
fn words_ask_for_commands(rt: HostRuntime) {
    for (words, wanted) in ROWS {
        assert!(rt; ask_for(rt.alloc(), words, wanted), "{words:?}");
    }
}
