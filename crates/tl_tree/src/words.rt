//! Words of values.

use std::iter::FusedIterator;
use std::marker::Model;

/// The words of a value, which ASCII white space parts, seen as the list of those that are left.
#[derive(Drop)]
pub struct Words<'t> {
    pub(crate) left: &'t [u8],
}

impl<'t> Model for Words<'t> {
    ghost use Rattle.std.specs.Prelude.{List, ℕ};
    ghost use Rattle.tl_tree.specs.Below.{words_of};

    ghost Value = { List (List ℕ) };

    ghost view = { λ w. words_of w.left.now };
}

impl<'t> Words<'t> {
    ghost use Rattle.std.specs.Prelude.{◌≡◌};
    ghost use Rattle.tl_tree.specs.Below.{words_of};

    /// The words of a value.
    pub fn of(value: &'t [u8]) -> Words<'t>
        ensures { result ≡ words_of value.now }
    {
        Words { left: value }
    }
}

ghost use Rattle.std.specs.Char.{is_ascii_whitespace};
ghost use Rattle.std.specs.List.{prefix_len};
ghost use Rattle.std.specs.Prelude.{not, ◌≡◌};

// How many bytes of white space stand first.
fn white_len(bytes: &[u8]) -> usize
    ensures { result ≡ prefix_len is_ascii_whitespace bytes.now }
{
    for (len, byte) in bytes.iter().enumerate() {
        if !byte.is_ascii_whitespace() {
            return len;
        }
    }
    bytes.len()
}

// How many bytes stand before the first white space.
fn word_len(bytes: &[u8]) -> usize
    ensures { result ≡ prefix_len (λ b. not (is_ascii_whitespace b)) bytes.now }
{
    for (len, byte) in bytes.iter().enumerate() {
        if byte.is_ascii_whitespace() {
            return len;
        }
    }
    bytes.len()
}

impl<'t> Iterator for Words<'t> {
    type Item = &'t [u8];

    ghost use Rattle.std.specs.Iterator.{at_most};
    ghost use Rattle.std.specs.Map.Iter.{TakesFirst};
    ghost use Rattle.std.specs.Prelude.{length};

    ghost next_gives = { TakesFirst (λ w. w.now) };

    ghost remaining = { λ s. at_most (length s) };

    fn next(&mut self) -> Option<&'t [u8]> {
        let (_, words) = self.left.split_at(white_len(self.left));
        let (word, left) = words.split_at(word_len(words));
        self.left = left;
        if word.is_empty() {
            return None;
        }
        Some(word)
    }
}

impl<'t> FusedIterator for Words<'t> {}
