//! How the index map of pairs on the heap hashes keys: cheaply where they are short.
//!
//! A byte costs an exclusive or and a product, and so do eight that are fed at once, as the length
//! of a text is. There is no secret, so names can be made whose hashes meet: `takes_more` looks for
//! those.
ghost use Rattle.std.specs.Prelude.{◌≡◌};

use std::hash::{BuildHasher, Hasher};

// What a hash begins with.
const BEGIN: u64 = 0x243F_6A88_85A3_08D3;

// What is multiplied by: an odd number, so that no two states become one.
const FACTOR: u64 = 0x9E37_79B9_7F4A_7C15;

// Makes the hashers of an index map, which are all the same.
#[derive(Clone, Copy)]
pub(super) struct ShortHash;

impl BuildHasher for ShortHash {
    type Hasher = ShortHasher;

    ghost use Rattle.tl_inline.specs.ShortHash.{empty_hash};

    ghost build_hasher = { λ _. empty_hash };

    fn build_hasher(&self) -> ShortHasher {
        ShortHasher { state: BEGIN }
    }
}

// The hash of the bytes so far.
#[derive(Clone, Copy)]
pub(super) struct ShortHasher {
    state: u64,
}

impl ShortHasher {
    ghost use Rattle.tl_inline.specs.ShortHash.{with_number};

    #[inline(always)]
    fn add(&mut self, number: u64)
        ensures { self.new ≡ with_number self.old number }
    {
        self.state = (self.state ^ number).wrapping_mul(FACTOR);
    }
}

impl Hasher for ShortHasher {
    ghost use Rattle.tl_inline.specs.ShortHash.{with_bytes};

    ghost write = { with_bytes };

    ghost finish = { λ hasher. hasher.state };

    fn finish(&self) -> u64 {
        self.state
    }

    #[inline(always)]
    fn write(&mut self, bytes: &[u8]) {
        if bytes.len() == 8 {
            self.add(u64::from_le_bytes([
                bytes[0], bytes[1], bytes[2], bytes[3], bytes[4], bytes[5], bytes[6], bytes[7],
            ]));
            return;
        }
        for byte in bytes {
            self.add(*byte as u64);
        }
    }
}
