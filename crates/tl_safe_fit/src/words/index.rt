//! Words to look up.
ghost use Rattle.std.specs.Prelude.{◌≡◌, length};
ghost use Rattle.tl_safe_fit.specs.Rows.{AreHeads, AreLinked};

use crate::words::row::Row;
use crate::words::slot::{SLOTS, slot_of};
use std::alloc::{AllocError, Global};

/// Words, in which one is found without going along all of them: those that begin alike are linked.
#[derive(Drop)]
pub struct WordIndex<'w> {
    // for each slot, one more than the place of its last row, or 0
    heads: Vec<usize>,
    rows: Vec<Row<'w>>,
    ghost slots: { length heads.items ≡ 64 },
    ghost heads_of_rows: { AreHeads rows.items heads.items },
    ghost linked: { AreLinked rows.items },
}

impl<'w> WordIndex<'w> {
    ghost use Rattle.std.specs.Prelude.{IfOk};
    ghost use Rattle.tl_safe_fit.specs.Indexed.{indexed_words};
    ghost use Rattle.tl_safe_fit.specs.Words.{is_among, words_of};

    /// The index of these words.
    pub fn new(alloc: Global, words: &[&'w str]) -> Result<WordIndex<'w>, AllocError>
        ensures { IfOk result (λ index. indexed_words index ≡ words_of words.now) }
    {
        let mut heads = vec![in alloc; 0usize; SLOTS]?;
        let mut rows = Vec::new(alloc);
        for word in words {
            let slot = slot_of(word.as_bytes());
            let before = heads[slot];
            rows.push(Row { word, before })?;
            heads[slot] = rows.len();
        }
        Ok(WordIndex { heads, rows })
    }

    /// Whether a word is one of them, in exact case.
    pub fn contains(&self, word: &[u8]) -> bool
        ensures { result ≡ is_among (indexed_words self.now) word.now }
    {
        let mut link = self.heads[slot_of(word)];
        while link > 0 {
            let row = self.rows[link - 1];
            if word == row.word.as_bytes() {
                return true;
            }
            link = row.before;
        }
        false
    }
}
