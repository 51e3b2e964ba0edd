//! How names are hashed.
//!
//! A first pass makes 64 bits of the MD5 digest of all names, with which the hasher begins. No
//! clause of the maps asks what the number is. SHA-256, maps in order and sorted lists were slower,
//! or took memory in other places.
ghost use Rattle.std.specs.Prelude.{◌≡◌, ℕ, List, [], ◌∷◌, ◌++◌};
ghost use Rattle.tl_tracking.specs.Hashing.{keyed_by};
ghost use Rattle.tl_tracking.specs.NameKey.{number_of_names, HasNames};

use md5::{Digest, Md5};
use std::hash::{BuildHasher, FoldHasher, Hasher};

// A hasher that begins with a number, so that names whose hashes meet under one number have others
// under another.
#[derive(Clone, Copy)]
pub(crate) struct KeyedState {
    initial: FoldHasher,
}

impl KeyedState {
    pub(crate) fn new(key: u64) -> KeyedState
        ensures { result ≡ keyed_by key }
    {
        let mut initial = FoldHasher::default();
        initial.write_u64(key);
        KeyedState { initial }
    }
}

impl BuildHasher for KeyedState {
    type Hasher = FoldHasher;

    ghost build_hasher = { λ keyed. keyed.initial };

    fn build_hasher(&self) -> FoldHasher {
        self.initial
    }
}

/// What makes a number of all names of a text. Whoever writes a text learns the number with its
/// last name, so they can't choose names by the number. MD5 is the fastest digest for which that
/// holds: that two texts can be made of one digest is no help to them.
#[derive(Drop)]
pub struct NameKey {
    digest: Md5,
}

impl NameKey {
    /// The key of no names.
    pub fn new() -> NameKey
        ensures { HasNames result [] }
    {
        NameKey { digest: Md5::new() }
    }

    /// Adds a name.
    pub fn add(&mut self, name: &[u8])
        ensures { (names : List (List ℕ)) → HasNames self.old names →
            HasNames self.new (names ++ name.now ∷ []) }
    {
        self.digest.update(name);
        self.digest.update(&[255u8]);
    }

    /// The number of the names.
    pub fn number(self) -> u64
        ensures { (names : List (List ℕ)) → HasNames self names → result ≡ number_of_names names }
    {
        let NameKey { digest } = self;
        let [a, b, c, d, e, f, g, h, ..] = digest.finalize();
        u64::from_le_bytes([a, b, c, d, e, f, g, h])
    }
}
