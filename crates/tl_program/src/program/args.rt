//! The command that words say.
ghost use Rattle.std.specs.Prelude.{◌≡◌, IfOk, IfNone, OnErr, Ok, None, codes, map, string_bytes};
ghost use Rattle.std.specs.Option.{option_map};
ghost use Rattle.tl_program.specs.Action.{action_of, action_of_words, action_of_word, action_of_pair, AreEditWords};

use super::commands::Command;
use crate::script::steps;
use std::alloc::{AllocError, Global};

// The command of one word.
fn command_of_word<'c>(word: &str) -> Option<Command<'c>>
    ensures { option_map action_of result ≡ action_of_word word.now }
{
    match word {
        "print" => Some(Command::Print),
        "text" => Some(Command::Text),
        "again" => Some(Command::Again),
        _ => None,
    }
}

// The command of a word and a text after it.
fn command_of_pair<'c>(
    alloc: Global,
    word: &str,
    text: &'c str,
) -> Result<Option<Command<'c>>, AllocError>
    ensures ok { IfOk result (λ c. option_map action_of c ≡ action_of_pair word.now text.now) }
    ensures none { IfNone (action_of_pair word.now text.now) (result ≡ Ok None) }
    ensures memory { OnErr result (word.now ≡ codes "edit") }
{
    match word {
        "edit" => Ok(steps(alloc, text)?.map(Command::Edit)),
        "select" => Ok(Some(Command::Select(text))),
        "id" => Ok(Some(Command::Id(text))),
        "class" => Ok(Some(Command::Class(text))),
        _ => Ok(None),
    }
}

/// The command that the words say, or None where they say none: `print`, `text`, `again`, `select`
/// and a selector text, `id` or `class` and a name, or `edit` and a text of step lines. Only the
/// last takes memory, and only where each line says a step.
pub fn command<'c>(alloc: Global, words: &'c [String]) -> Result<Option<Command<'c>>, AllocError>
    ensures ok { IfOk result (λ c. option_map action_of c
        ≡ action_of_words (map string_bytes words.now)) }
    ensures none { IfNone (action_of_words (map string_bytes words.now)) (result ≡ Ok None) }
    ensures memory { OnErr result (AreEditWords (map string_bytes words.now)) }
{
    match words {
        [word] => Ok(command_of_word(word.as_str())),
        [word, text] => command_of_pair(alloc, word.as_str(), text.as_str()),
        _ => Ok(None),
    }
}
