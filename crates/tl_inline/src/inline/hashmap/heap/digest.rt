//! Digests of keys, which tell keys apart that nobody made alike on purpose.
//!
//! A digest is of what the key feeds to a hasher (`Feed`): up to 31 bytes are their own digest,
//! more have their SHA-256 taken, so nobody can make two meet. That keys are told apart never rests
//! on it.
ghost use Rattle.std.specs.Prelude.{◌≡◌, ◌≤◌, length};
ghost use Rattle.tl_inline.specs.Digest.{digest_of, halves, number_of};

use arrayvec::ArrayVec;
use sha2::{Digest, Sha256};
use std::hash::{Hash, Hasher};

// How many bytes are kept before their SHA-256 takes their place.
const BLOCK: usize = 119;

// Up to how many bytes are their own digest.
const SHORT: usize = 31;

// How many bytes the first half of a digest has.
const HALF: usize = 16;

// What a key feeds: the bytes that came last, and the SHA-256 of what stood before them.
#[derive(Drop)]
pub(super) struct Feed {
    before: Option<[u8; 32]>,
    last: ArrayVec<u8, BLOCK>,
}

impl Feed {
    ghost use Rattle.tl_inline.specs.Digest.{chain, digest_of_feed, empty_feed, with_byte};

    fn new() -> Self
        ensures { result ≡ empty_feed }
    {
        Feed {
            before: None,
            last: ArrayVec::new(),
        }
    }

    #[inline(always)]
    fn push(&mut self, byte: u8)
        ensures { self.new ≡ with_byte self.old byte }
    {
        if self.last.is_full() {
            self.before = Some(self.chain());
            self.last.clear();
        }
        self.last.push(byte);
    }

    // The SHA-256 of all bytes, block by block.
    #[inline(never)]
    fn chain(&self) -> [u8; 32]
        ensures { result ≡ chain self.now }
    {
        match &self.before {
            None => Sha256::digest(self.last.as_slice()),
            Some(before) => {
                let mut sha = Sha256::new();
                sha.update(before.as_slice());
                sha.update(self.last.as_slice());
                sha.finalize()
            }
        }
    }

    fn digest(&self) -> (u128, u128)
        ensures { result ≡ digest_of_feed self.now }
    {
        let bytes = self.last.as_slice();
        if self.before.is_some() {
            halves(0xff, self.chain().as_slice(), HALF + 1)
        } else if bytes.len() > SHORT {
            halves(0xfe, self.chain().as_slice(), HALF + 1)
        } else {
            halves(bytes.len() as u128, bytes, bytes.len().min(HALF))
        }
    }
}

// The bytes up to a place and those from it on, each as a number, the second below a mark.
fn halves(mark: u128, bytes: &[u8], at: usize) -> (u128, u128)
    requires { at ≤ length bytes.now }
    ensures { result ≡ halves mark bytes.now at }
{
    (number(0, &bytes[..at]), number(mark, &bytes[at..]))
}

// The bytes after a beginning, the lowest 16 of them, as a number.
fn number(begin: u128, bytes: &[u8]) -> u128
    ensures { result ≡ number_of begin bytes.now }
{
    let mut number = begin;
    for byte in bytes {
        number = number << 8 | *byte as u128;
    }
    number
}

impl Hasher for Feed {
    ghost use Rattle.std.specs.Prelude.{fold, ◌%◌, ◌^◌};
    ghost use Rattle.tl_inline.specs.Digest.{with_byte, digest_of_feed};

    ghost write = { fold with_byte };

    ghost finish = { λ feed. (digest_of_feed feed).0 % 2 ^ 64 };

    fn finish(&self) -> u64 {
        (self.digest().0 & 0xFFFF_FFFF_FFFF_FFFF) as u64
    }

    #[inline(always)]
    fn write(&mut self, bytes: &[u8]) {
        for byte in bytes {
            self.push(*byte);
        }
    }
}

// The digest of what a key feeds to a hasher.
pub(super) fn digest_of<K: Hash>(key: &K) -> (u128, u128)
    ensures { result ≡ digest_of (K.hash_input key.now) }
{
    let mut feed = Feed::new();
    key.hash(&mut feed);
    feed.digest()
}
