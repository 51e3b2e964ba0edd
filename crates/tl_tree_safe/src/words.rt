//! Words in lists.
ghost use Rattle.std.specs.Prelude.{◌≡◌};
ghost use Rattle.tl_safe_fit.specs.Words.{is_among, words_of};

/// Whether a word is one of these, in exact case.
pub(crate) fn is_among(words: &[&str], word: &[u8]) -> bool
    ensures { result ≡ is_among (words_of words.now) word.now }
{
    for own in words {
        if word == own.as_bytes() {
            return true;
        }
    }
    false
}
