//! What a name, a key, a value or a text is: a list of bytes.
ghost use Rattle.std.specs.Prelude.{◌≡◌, List, ℕ, nat_eq, refl};
ghost use Rattle.std.specs.Cmp.Lexicographic.{pointwise};

use std::hash::Hash;
use tl_bytes::byte_string::Bytes;

/// A list of bytes, compared by its bytes.
pub trait Piece: Eq + Hash {
    ghost list: { Self → List ℕ };

    fn as_bytes(&self) -> &[u8]
        ensures { result.now ≡ list self.now };

    ghost compares_lists: { (x y : Self) → Self.eq x y ≡ pointwise nat_eq (list x) (list y) };
}

impl<'a> Piece for Bytes<'a> {
    ghost list = { λ b. b.list };

    ghost compares_lists = { λ x y. refl };

    fn as_bytes(&self) -> &[u8] {
        Bytes::as_bytes(self)
    }
}
