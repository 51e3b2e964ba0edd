//! The URLs of a list in a value: the candidates of a `srcset`, the words of a `ping`.
ghost use Rattle.std.specs.Prelude.{◌≡◌, false};
ghost use Rattle.std.specs.Option.{option_map};
ghost use Rattle.tl_tree_extract.specs.Candidates.{behind_descriptors, item_said, next_candidate, next_word};

use crate::run::{Run, behind, length_without};
use crate::span::up_to;

/// A URL in a value.
#[derive(Clone, Copy)]
pub struct Item<'v> {
    /// What is left of the value where it begins.
    pub rest: &'v [u8],
    pub url: &'v [u8],
    /// What is left where the next one is looked for.
    pub next: &'v [u8],
}

// What stands behind the comma that ends the descriptors of a candidate.
fn behind_descriptors(bytes: &[u8]) -> &[u8]
    ensures { result.now ≡ behind_descriptors false bytes.now }
{
    let mut parens = false;
    let mut rest = bytes;
    while let [first, more @ ..] = rest {
        if !parens && *first == b',' {
            return more;
        }
        parens = if parens {
            *first != b')'
        } else {
            *first == b'('
        };
        rest = more;
    }
    rest
}

/// The next candidate of a `srcset`.
pub fn next_candidate(bytes: &[u8]) -> Option<Item<'_>>
    ensures { option_map item_said result ≡ next_candidate bytes.now }
{
    let rest = behind(Run::Separator, bytes);
    if rest.is_empty() {
        return None;
    }
    let later = behind(Run::Word, rest);
    let url = up_to(rest, later);
    let len = length_without(Run::Comma, url);
    let next = if len < url.len() {
        later
    } else {
        behind_descriptors(later)
    };
    Some(Item {
        rest,
        url: &url[..len],
        next,
    })
}

/// The next word of a `ping`.
pub fn next_word(bytes: &[u8]) -> Option<Item<'_>>
    ensures { option_map item_said result ≡ next_word bytes.now }
{
    let rest = behind(Run::White, bytes);
    if rest.is_empty() {
        return None;
    }
    let next = behind(Run::Word, rest);
    Some(Item {
        rest,
        url: up_to(rest, next),
        next,
    })
}
