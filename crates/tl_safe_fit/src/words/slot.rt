//! The slots of words.
ghost use Rattle.std.specs.Prelude.{◌≡◌, ◌<◌};
ghost use Rattle.tl_safe_fit.specs.Linked.{slot_of};

// How many slots there are.
pub(crate) const SLOTS: usize = 64;

// The slot of a word, by its first two bytes.
#[inline]
pub(crate) fn slot_of(word: &[u8]) -> usize
    ensures is { result ≡ slot_of word.now }
    ensures within { result < 64 }
{
    match word {
        [] => 0,
        [only] => usize::from(*only) % SLOTS,
        [first, second, ..] => (usize::from(*first) * 8 + usize::from(*second)) % SLOTS,
    }
}
